//! Tests that a failed send of a thread is reported: the next call of the network fails with its cause, and `drain` returns a cause that no
//! call reported.

use crate::broken::{Broken, Wrong};
use crate::causes::{Says, UNKNOWN, sentence};
use crate::networks::{port_of, profile_of};
use norm_base::{Datagram, Fabric, FabricKind, Local, NodeId};
use norm_host::HostFabric;
use norm_udp::{SendingThread, SocketCause, UdpFabric};
use std::alloc::{AllocError, Global};
use std::net::Net;
use std::sync::Wait;
use std::test::Fail;
use std::thread::Threads;
use std::time::{Clock, Duration};
use std::{process, thread};

/// The call by which a test asks for the cause.
#[derive(Clone, Copy)]
enum Ask {
    Offer,
    Take,
    Drain,
}

const ASKS: [(&str, Ask); 3] = [
    ("offer", Ask::Offer),
    ("take", Ask::Take),
    ("drain", Ask::Drain),
];

/// The most times that a test asks, a millisecond apart. The thread fails long before.
const PATIENCE: u32 = 2_000;

/// The id of the sender. A thread sends its datagrams.
const SENDER: u32 = 1;

/// Asks once. Returns the cause if the call is `drain`; the other calls leave it in the network.
fn ask_once<F: Says>(
    fabric: &mut F,
    node: NodeId,
    into: &mut Datagram,
    how: Ask,
) -> Option<SocketCause> {
    match how {
        Ask::Offer => {
            let _ = fabric.offer(node, b"later");
            None
        }
        Ask::Take => {
            let _ = fabric.take(into);
            None
        }
        Ask::Drain => fabric.left(),
    }
}

/// Returns the sentence of a cause, or nothing if there is none.
fn said_by(alloc: Global, cause: Option<&SocketCause>) -> Result<String, AllocError> {
    match cause {
        Some(cause) => format!(in alloc; "{cause}"),
        None => Ok(String::new(alloc)),
    }
}

/// Asks until the network reports the wanted sentence. Fails if it never does.
fn compare_told<F: Says, C: Clock>(
    alloc: Global,
    clock: &C,
    fabric: &mut F,
    node: NodeId,
    row: (&'static str, Ask),
    wanted: &str,
) -> Result<(), Fail> {
    let (name, how) = row;
    let mut into = Datagram::new(alloc)?;
    let mut left = None;
    for _ in 0..PATIENCE {
        let said = said_by(alloc, fabric.last_cause().or(left.as_ref()))?;
        if said.as_str() == wanted {
            return Ok(());
        }
        left = ask_once(fabric, node, &mut into, how);
        thread::sleep(clock, Duration::from_millis(1));
    }
    Err(Fail::new(name))
}

/// Offers a datagram that the sender's thread cannot send. Fails unless the network reports the cause. On a machine with too few processors
/// no thread sends, and the offer itself fails with that cause.
fn compare_sender<F: Says, C: Clock>(
    alloc: Global,
    clock: &C,
    fabric: &mut F,
    port: u16,
    row: (&'static str, Ask),
) -> Result<(), Fail> {
    let profile = profile_of(port, FabricKind::Udp, 2);
    let (Some(profile), Some(node)) = (profile, NodeId::of(SENDER)) else {
        return Err(Fail::new("no profile"));
    };
    let wanted = sentence(alloc, "cannot send to", port, UNKNOWN)?;
    fabric.start(&profile, Local::One(node))?;
    let _ = fabric.offer(node, b"lost");
    compare_told(alloc, clock, fabric, node, row, wanted.as_str())
}

/// Returns a network of sockets with a thread that sends.
fn sockets<R: Net + Threads + Wait + Clock + Copy + Send + Drop + 'static>(
    alloc: Global,
    rt: R,
) -> Result<UdpFabric<R>, Fail> {
    let mut fabric = UdpFabric::new(alloc, rt)?;
    fabric.send_by(SendingThread::start(alloc, rt)?);
    Ok(fabric)
}

/// Returns a `HostFabric` with a thread that sends.
fn hosted<R: Net + Threads + Wait + Clock + Copy + Send + Drop + 'static>(
    alloc: Global,
    rt: R,
) -> Result<HostFabric<R>, Fail> {
    let mut fabric = HostFabric::new(alloc, rt)?;
    fabric.start_thread(alloc, rt)?;
    Ok(fabric)
}

/// Fails unless a `UdpFabric` reports the cause in each way of asking.
fn compare_sockets<R: Net + Threads + Wait + Clock + Copy + Send + Drop + 'static>(
    alloc: Global,
    rt: R,
    port: u16,
) -> Result<(), Fail> {
    for row in ASKS {
        let mut fabric = sockets(alloc, rt)?;
        compare_sender(alloc, &rt, &mut fabric, port, row)?;
    }
    Ok(())
}

/// Fails unless a `HostFabric` reports the cause in each way of asking.
fn compare_hosted<R: Net + Threads + Wait + Clock + Copy + Send + Drop + 'static>(
    alloc: Global,
    rt: R,
    port: u16,
) -> Result<(), Fail> {
    for row in ASKS {
        let mut fabric = hosted(alloc, rt)?;
        compare_sender(alloc, &rt, &mut fabric, port, row)?;
    }
    Ok(())
}

#[test]
fn what_a_thread_failed_at(rt: HostRuntime) -> Result<(), Fail> {
    let port = port_of(process::id(rt.process()), 13);
    let broken = Broken {
        rt,
        wrong: Wrong::Kind,
    };
    compare_sockets(rt.alloc(), broken, port)
}

#[test]
fn what_a_thread_failed_at_by_a_profile(rt: HostRuntime) -> Result<(), Fail> {
    let port = port_of(process::id(rt.process()), 14);
    let broken = Broken {
        rt,
        wrong: Wrong::Kind,
    };
    compare_hosted(rt.alloc(), broken, port)
}
