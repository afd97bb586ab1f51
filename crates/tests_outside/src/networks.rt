//! Drives three networks by a table of steps, and compares their answers as text. The other modules call [`Networks::compare`]. The calls go
//! through the trait, so that no contract of one network has to be proved here.

use norm_base::{
    DATAGRAM_ROOM, Datagram, Fabric, FabricFault, FabricKind, Given, Key, Local, NodeId, Profile,
};
use std::alloc::Global;
use std::net::Ipv4Addr;
use std::test::Fail;

/// The lowest port. All ports of tests are below those that the system gives to a socket that asks for none.
const LOWEST: u32 = 20_000;

/// How many test numbers a process has. Each has `PORTS` ports: the hub's and three members'. A test with more members also takes the
/// numbers after its own.
const TESTS: u32 = 41;

const PORTS: u32 = 4;

/// How many processes with consecutive ids have ports of their own.
const PROCESSES: u32 = 77;

/// The receivers of a session that a table of steps drives.
const RECEIVERS: u32 = 2;

/// The most takes until all expected datagrams have arrived. `GLANCES` takes after them look for one that should not arrive.
// A look that finds nothing sleeps for a millisecond, if nothing came in the last ten. So a machine that does much else has seconds to deliver.
const PATIENCE: u32 = 4_000;

const GLANCES: u32 = 16;

/// The octets of the longest datagram. An answer has the letter `L` for it.
pub(crate) const LONGEST: usize = 1_500;

/// One of the three networks of a test.
#[derive(Clone, Copy)]
pub(crate) enum At {
    Sender,
    Hub,
    Receiver,
}

/// A step of a network: it starts with all members, with one, as the hub, or with all members and a profile that names memory; a member
/// offers octets; or the network takes until this many datagrams have arrived.
#[derive(Clone, Copy)]
pub(crate) enum Step {
    StartAll,
    StartOne(u32),
    StartHub,
    StartInMemory,
    Offer(u32, &'static [u8]),
    Take(u32),
}

/// Returns the broadcast address of the loopback network, which each machine has.
pub(crate) fn everyone() -> Ipv4Addr {
    Ipv4Addr::new(127, 255, 255, 255)
}

/// Returns the hub's port for a process's id and the number of a test.
pub(crate) fn port_of(process: u32, test: u32) -> u16 {
    (LOWEST + PORTS * (process % PROCESSES * TESTS + test % TESTS)) as u16
}

/// Returns the profile with these values, or `None` if one is out of range.
// Each key comes through the loop: a call of `set` that names its key costs much to prove.
fn profile_with(keys: &[(Key, u32)]) -> Option<Profile> {
    let mut given = Given::new();
    for (key, value) in keys {
        given.set(*key, *value);
    }
    Profile::of(&given)
}

/// Returns a profile with this many receivers, this kind of network, and the hub at this port.
pub(crate) fn profile_of(port: u16, kind: FabricKind, receivers: u32) -> Option<Profile> {
    profile_with(&[
        (Key::Receivers, receivers),
        (Key::Fabric, kind as u32),
        (Key::Port, u32::from(port)),
    ])
}

/// Returns `.` for a call that was `Ok`, and `!` for one that failed.
fn mark(done: Result<(), FabricFault>) -> u8 {
    match done {
        Ok(()) => b'.',
        Err(_) => b'!',
    }
}

/// Returns the digit of a number, or `?` if it is above 9.
fn digit(number: u64) -> u8 {
    match u8::try_from(number) {
        Ok(small) if small < 10 => b'0' + small,
        _ => b'?',
    }
}

/// Starts a network with these members and returns the answer, or `?` if there is no such profile or member.
fn started<F: Fabric>(fabric: &mut F, port: u16, kind: FabricKind, local: Option<Local>) -> u8 {
    let (Some(profile), Some(local)) = (profile_of(port, kind, RECEIVERS), local) else {
        return b'?';
    };
    mark(fabric.start(&profile, local))
}

/// Offers octets and returns the answer, or `?` if there is no such member or there are too many octets.
fn offered<F: Fabric>(fabric: &mut F, number: u32, octets: &[u8]) -> u8 {
    match NodeId::of(number) {
        Some(node) if octets.len() <= DATAGRAM_ROOM => mark(fabric.offer(node, octets)),
        _ => b'?',
    }
}

/// Adds the digit of the node and the octets of its datagram, or `L` if it is a longest one.
fn add_datagram(node: NodeId, octets: &[u8], all: &mut Vec<u8>) -> Result<(), FabricFault> {
    all.push(digit(u64::from(node.number())))?;
    if octets.len() == LONGEST {
        all.push(b'L')?;
    } else {
        all.extend_from_slice(octets)?;
    }
    Ok(())
}

/// Takes once. Adds the datagram, or `!` if the call failed. Returns how many datagrams were taken, 0 or 1.
fn take<F: Fabric>(
    fabric: &mut F,
    into: &mut Datagram,
    all: &mut Vec<u8>,
) -> Result<u32, FabricFault> {
    match fabric.take(into) {
        Ok(Some(node)) => {
            add_datagram(node, into.bytes(), all)?;
            Ok(1)
        }
        Ok(None) => Ok(0),
        Err(_) => {
            all.push(b'!')?;
            Ok(0)
        }
    }
}

/// Takes until `count` datagrams have arrived, and a few times more. Adds what was taken, and `;`.
fn taken<F: Fabric>(
    alloc: Global,
    fabric: &mut F,
    count: u32,
    all: &mut Vec<u8>,
) -> Result<(), FabricFault> {
    let mut into = Datagram::new(alloc)?;
    let mut left = count;
    for _ in 0..PATIENCE {
        if left == 0 {
            break;
        }
        left = left.saturating_sub(take(fabric, &mut into, all)?);
    }
    for _ in 0..GLANCES {
        take(fabric, &mut into, all)?;
    }
    all.push(b';')?;
    Ok(())
}

/// Makes a step that is no take, and returns the answer.
fn called<F: Fabric>(fabric: &mut F, port: u16, step: Step) -> u8 {
    match step {
        Step::StartAll => started(fabric, port, FabricKind::Udp, Some(Local::All)),
        Step::StartOne(number) => {
            let node = NodeId::of(number);
            started(fabric, port, FabricKind::Udp, node.map(Local::One))
        }
        Step::StartHub => started(fabric, port, FabricKind::Udp, Some(Local::Hub)),
        Step::StartInMemory => started(fabric, port, FabricKind::Direct, Some(Local::All)),
        Step::Offer(number, octets) => offered(fabric, number, octets),
        Step::Take(_) => b'?',
    }
}

/// Makes a step and adds the answer.
fn take_step<F: Fabric>(
    alloc: Global,
    fabric: &mut F,
    port: u16,
    step: Step,
    all: &mut Vec<u8>,
) -> Result<(), FabricFault> {
    if let Step::Take(count) = step {
        return taken(alloc, fabric, count, all);
    }
    all.push(called(fabric, port, step))?;
    Ok(())
}

/// The three networks of a test. `port` is the hub's, and the members have the ports after it.
#[derive(Drop)]
pub(crate) struct Networks<F> {
    pub(crate) port: u16,
    pub(crate) sender: F,
    pub(crate) hub: F,
    pub(crate) receiver: F,
}

impl<F: Fabric> Networks<F> {
    /// Makes a step of one network and adds the answer.
    fn take_step_at(
        &mut self,
        alloc: Global,
        at: At,
        step: Step,
        all: &mut Vec<u8>,
    ) -> Result<(), FabricFault> {
        match at {
            At::Sender => take_step(alloc, &mut self.sender, self.port, step, all),
            At::Hub => take_step(alloc, &mut self.hub, self.port, step, all),
            At::Receiver => take_step(alloc, &mut self.receiver, self.port, step, all),
        }
    }

    /// Makes these steps and adds the answers.
    pub(crate) fn take_steps(
        &mut self,
        alloc: Global,
        steps: &[(At, Step)],
        all: &mut Vec<u8>,
    ) -> Result<(), FabricFault> {
        for (at, step) in steps {
            self.take_step_at(alloc, *at, *step, all)?;
        }
        Ok(())
    }

    /// Adds a blank, and a digit for each network: how many of its calls failed.
    fn add_faults(&self, all: &mut Vec<u8>) -> Result<(), FabricFault> {
        let sender = digit(self.sender.faults());
        let hub = digit(self.hub.faults());
        let receiver = digit(self.receiver.faults());
        all.extend_from_slice(&[b' ', sender, hub, receiver])?;
        Ok(())
    }

    /// Makes these steps and returns the answers, with the counts of failed calls after them.
    fn answers(&mut self, alloc: Global, steps: &[(At, Step)]) -> Result<Vec<u8>, FabricFault> {
        let mut all = Vec::new(alloc);
        self.take_steps(alloc, steps, &mut all)?;
        self.add_faults(&mut all)?;
        Ok(all)
    }

    /// Makes these steps and compares the answers, a blank, and how many calls of each network failed since it was made, with `wanted`.
    ///
    /// # Errors
    ///
    /// The answers, if they differ.
    pub(crate) fn compare(
        &mut self,
        alloc: Global,
        steps: &[(At, Step)],
        wanted: &[u8],
    ) -> Result<(), Fail> {
        let all = self.answers(alloc, steps)?;
        if all.as_slice() == wanted {
            return Ok(());
        }
        Err(Fail::new(all.as_slice().escape_ascii()))
    }
}
