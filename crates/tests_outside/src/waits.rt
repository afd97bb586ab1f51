//! Tests how long a take of `UdpFabric` waits, with a clock that adds up the sleeps.

use crate::networks::{port_of, profile_of};
use norm_base::{Datagram, Fabric, FabricFault, FabricKind, Local, NodeId};
use norm_udp::UdpFabric;
use std::alloc::Global;
use std::cell::Cell;
use std::net::{Ipv4Addr, Net, SocketAddr, SocketAddrV4, UdpSocket};
use std::sync::Wait;
use std::test::Fail;
use std::time::{Clock, Duration};
use std::{io, process};

/// Microseconds of the longest take by a clock that only sleeps and readings move: a sleep of 250, and the reading before it. A node that was
/// idle for ten milliseconds waits in a poll, which does not move this clock.
const LONGEST: u64 = 251;

/// A sender sleeps its gap out, which is a millisecond here, and reads the clock after it.
const LONGEST_OF_SENDER: u64 = 1_001;

/// Microseconds of the shortest take of an idle node. It waits for a millisecond in a poll.
const SHORTEST_IDLE: u128 = 900;

/// How many takes are measured in a row. Two of them may find what a member offered to the others, and one answers at once that nothing is
/// there.
const TAKES: u32 = 4;

/// A runtime whose clock advances by each sleep, and by a microsecond with each reading. No other time passes.
#[derive(Clone, Copy, Drop)]
struct Timed<'a, R> {
    rt: R,
    moment: &'a Cell<u64>,
}

/// Lets this many microseconds pass.
fn pass(moment: &Cell<u64>, micros: u64) {
    moment.set(moment.get().saturating_add(micros));
}

impl<R: Net> Net for Timed<'_, R> {
    type Stream = R::Stream;

    type Listener = R::Listener;

    fn bind(&self, addr: SocketAddr) -> io::Result<R::Listener> {
        self.rt.bind(addr)
    }

    fn connect(&self, addr: SocketAddr) -> io::Result<R::Stream> {
        self.rt.connect(addr)
    }

    fn bind_udp(&self, addr: SocketAddr) -> io::Result<UdpSocket> {
        self.rt.bind_udp(addr)
    }
}

impl<R: Wait> Wait for Timed<'_, R> {}

impl<R> Clock for Timed<'_, R> {
    fn monotonic(&self) -> io::Result<Duration> {
        pass(self.moment, 1);
        Ok(Duration::from_micros(self.moment.get()))
    }

    fn since_1970(&self) -> io::Result<Duration> {
        self.monotonic()
    }

    fn sleep(&self, duration: Duration) {
        pass(
            self.moment,
            u64::try_from(duration.as_micros()).unwrap_or(u64::MAX),
        );
    }
}

/// The members that a network is started with. The session has two receivers.
#[derive(Clone, Copy)]
enum With {
    All,
    One(u32),
    Hub,
}

/// The members of a network, the member that offers between the takes, and the longest take.
const ROWS: [(With, u32, u64); 4] = [
    (With::All, 1, LONGEST),
    (With::One(1), 1, LONGEST_OF_SENDER),
    (With::One(2), 2, LONGEST),
    (With::Hub, 1, LONGEST),
];

fn local_of(with: With) -> Option<Local> {
    match with {
        With::All => Some(Local::All),
        With::One(number) => NodeId::of(number).map(Local::One),
        With::Hub => Some(Local::Hub),
    }
}

/// Takes `TAKES` times. Returns the microseconds of the longest take.
fn longest_take<F: Fabric>(
    alloc: Global,
    fabric: &mut F,
    moment: &Cell<u64>,
) -> Result<u64, FabricFault> {
    let mut into = Datagram::new(alloc)?;
    let mut longest = 0;
    for _ in 0..TAKES {
        let before = moment.get();
        fabric.take(&mut into)?;
        longest = moment.get().saturating_sub(before).max(longest);
    }
    Ok(longest)
}

/// Takes before and after an offer. Returns the microseconds of the longest take.
fn longest_of<F: Fabric>(
    alloc: Global,
    fabric: &mut F,
    port: u16,
    moment: &Cell<u64>,
    with: With,
    number: u32,
) -> Result<u64, FabricFault> {
    let profile = profile_of(port, FabricKind::Udp, 2);
    let (Some(profile), Some(local), Some(node)) = (profile, local_of(with), NodeId::of(number))
    else {
        return Err(FabricFault::Failed);
    };
    fabric.start(&profile, local)?;
    let before = longest_take(alloc, fabric, moment)?;
    fabric.offer(node, b"a")?;
    let after = longest_take(alloc, fabric, moment)?;
    Ok(before.max(after))
}

/// Takes twice from a network that nobody sends to. Returns the microseconds of the shorter take by the clock of the process.
fn shortest_idle_take<R: Net + Wait + Clock + Copy + Drop>(
    alloc: Global,
    rt: R,
    port: u16,
    with: With,
) -> Result<u128, Fail> {
    let (Some(profile), Some(local)) = (profile_of(port, FabricKind::Udp, 2), local_of(with)) else {
        return Err(Fail::new("no profile"));
    };
    let mut fabric = UdpFabric::new(alloc, rt)?;
    fabric.start(&profile, local)?;
    let mut into = Datagram::new(alloc)?;
    let mut shortest = u128::MAX;
    for _ in 0..2 {
        let before = rt.monotonic()?.as_micros();
        fabric.take(&mut into)?;
        shortest = rt
            .monotonic()?
            .as_micros()
            .saturating_sub(before)
            .min(shortest);
    }
    Ok(shortest)
}

/// Fails unless the longest take of each row is as long as it says.
fn compare_takes<R: Net + Wait + Clock + Copy + Drop>(
    alloc: Global,
    rt: R,
    port: u16,
) -> Result<(), Fail> {
    let moment = Cell::new(0);
    for (with, number, wanted) in ROWS {
        let timed = Timed {
            rt,
            moment: &moment,
        };
        let mut fabric = UdpFabric::new(alloc, timed)?;
        let longest = longest_of(alloc, &mut fabric, port, &moment, with, number)?;
        if longest != wanted {
            return Err(Fail::new(longest));
        }
    }
    Ok(())
}

/// Sends a stranger's datagram to a sender that has no hub, and offers one. Returns whether the sender took nothing, and noted that no hub is
/// there.
fn hears_hub_alone<R: Net + Wait + Clock + Copy + Drop>(
    alloc: Global,
    rt: R,
    port: u16,
) -> Result<bool, Fail> {
    let here = Ipv4Addr::new(127, 0, 0, 1);
    let (Some(profile), Some(node)) = (profile_of(port, FabricKind::Udp, 2), NodeId::of(1)) else {
        return Err(Fail::new("no profile"));
    };
    let mut fabric = UdpFabric::new(alloc, rt)?;
    fabric.start(&profile, Local::One(node))?;
    let stranger = rt.bind_udp(SocketAddr::V4(SocketAddrV4::new(here, 0)))?;
    stranger.send_to(
        b"strange",
        SocketAddr::V4(SocketAddrV4::new(here, port.wrapping_add(1))),
    )?;
    fabric.offer(node, b"a")?;
    let mut into = Datagram::new(alloc)?;
    for _ in 0..TAKES {
        if fabric.take(&mut into)?.is_some() {
            return Ok(false);
        }
    }
    Ok(fabric.refused() > 0)
}

/// Fails unless a sender without a hub hears nobody, and says so.
fn compare_alone<R: Net + Wait + Clock + Copy + Drop>(
    alloc: Global,
    rt: R,
    port: u16,
) -> Result<(), Fail> {
    if hears_hub_alone(alloc, rt, port)? {
        return Ok(());
    }
    Err(Fail::new("a sender without a hub"))
}

/// Fails unless an idle take of each row's members waits.
fn compare_idle<R: Net + Wait + Clock + Copy + Drop>(
    alloc: Global,
    rt: R,
    port: u16,
) -> Result<(), Fail> {
    for (with, _, _) in ROWS {
        let shortest = shortest_idle_take(alloc, rt, port, with)?;
        if shortest < SHORTEST_IDLE {
            return Err(Fail::new(shortest));
        }
    }
    Ok(())
}

#[test]
fn a_take_waits_a_millisecond_at_most(rt: HostRuntime) -> Result<(), Fail> {
    let port = port_of(process::id(rt.process()), 31);
    compare_takes(rt.alloc(), rt, port)?;
    compare_idle(rt.alloc(), rt, port)?;
    compare_alone(rt.alloc(), rt, port)
}
