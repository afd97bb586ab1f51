//! Tests `UdpFabric` with all members in one network, and with a network for each member and a hub.

use crate::networks::{At, Networks, Step, port_of};
use norm_base::Memory;
use norm_udp::{SendingThread, UdpFabric};
use std::alloc::Global;
use std::net::Net;
use std::process;
use std::sync::Wait;
use std::test::Fail;
use std::thread::Threads;
use std::time::Clock;

/// One network has all members. Another network asks for the same ports and fails.
const ALL: [(At, Step); 5] = [
    (At::Sender, Step::StartAll),
    (At::Hub, Step::StartAll),
    (At::Sender, Step::Offer(1, b"a")),
    (At::Sender, Step::Offer(3, b"b")),
    (At::Sender, Step::Take(4)),
];

/// The answers to `ALL`.
const ALL_ANSWERS: &[u8] = b".!..1b2a2b3a; 010";

/// A sender, the hub and one receiver have a network each. The other receiver is missing.
pub(crate) const EACH: [(At, Step); 13] = [
    (At::Sender, Step::StartOne(1)),
    (At::Sender, Step::Offer(1, b"early")),
    (At::Receiver, Step::Take(0)),
    (At::Hub, Step::StartHub),
    (At::Receiver, Step::StartOne(2)),
    (At::Sender, Step::Offer(1, b"hello")),
    (At::Hub, Step::Take(1)),
    (At::Hub, Step::Offer(1, b"hello")),
    (At::Receiver, Step::Take(1)),
    (At::Sender, Step::Take(0)),
    (At::Hub, Step::Offer(2, b"back")),
    (At::Receiver, Step::Take(0)),
    (At::Sender, Step::Take(1)),
];

/// The answers to `EACH`.
pub(crate) const EACH_ANSWERS: &[u8] = b"..;...1hello;.2hello;;.;1back; 000";

/// Returns three networks of sockets that are not started.
pub(crate) fn networks<R: Net + Wait + Clock + Copy + Drop>(
    alloc: Global,
    rt: R,
    port: u16,
) -> Result<Networks<UdpFabric<R>>, Memory> {
    Ok(Networks {
        port,
        sender: UdpFabric::new(alloc, rt)?,
        hub: UdpFabric::new(alloc, rt)?,
        receiver: UdpFabric::new(alloc, rt)?,
    })
}

/// Fails unless the networks give these answers to these steps.
fn compare<R: Net + Wait + Clock + Copy + Drop>(
    alloc: Global,
    rt: R,
    port: u16,
    steps: &[(At, Step)],
    wanted: &[u8],
) -> Result<(), Fail> {
    let mut networks = networks(alloc, rt, port)?;
    networks.compare(alloc, steps, wanted)
}

/// Does the same with a thread that sends for the hub, and one for the sender.
fn compare_with_threads<R: Net + Threads + Wait + Clock + Copy + Send + Drop + 'static>(
    alloc: Global,
    rt: R,
    port: u16,
    steps: &[(At, Step)],
    wanted: &[u8],
) -> Result<(), Fail> {
    let mut networks = networks(alloc, rt, port)?;
    networks.hub.send_by(SendingThread::start(alloc, rt)?);
    networks.sender.send_by(SendingThread::start(alloc, rt)?);
    networks.compare(alloc, steps, wanted)
}

#[test]
fn all_members_in_one_process(rt: HostRuntime) -> Result<(), Fail> {
    let port = port_of(process::id(rt.process()), 0);
    compare(rt.alloc(), rt, port, &ALL, ALL_ANSWERS)
}

#[test]
fn each_member_in_its_own(rt: HostRuntime) -> Result<(), Fail> {
    let port = port_of(process::id(rt.process()), 1);
    compare(rt.alloc(), rt, port, &EACH, EACH_ANSWERS)
}

#[test]
fn each_member_in_its_own_with_threads_that_send(rt: HostRuntime) -> Result<(), Fail> {
    let port = port_of(process::id(rt.process()), 7);
    compare_with_threads(rt.alloc(), rt, port, &EACH, EACH_ANSWERS)
}
