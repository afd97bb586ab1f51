//! Tests `HostFabric` with a profile that names sockets, by the steps of `sockets`.

use crate::networks::{At, Networks, Step, port_of};
use crate::sockets::{EACH, EACH_ANSWERS};
use norm_base::Memory;
use norm_host::HostFabric;
use std::alloc::Global;
use std::net::Net;
use std::process;
use std::sync::Wait;
use std::test::Fail;
use std::time::Clock;

/// One network has all members. Another network gets the same ports only after the first one starts with a profile that names memory.
const ALL_AND_NEXT: [(At, Step); 7] = [
    (At::Sender, Step::StartAll),
    (At::Hub, Step::StartAll),
    (At::Sender, Step::Offer(1, b"a")),
    (At::Sender, Step::Offer(3, b"b")),
    (At::Sender, Step::Take(4)),
    (At::Sender, Step::StartInMemory),
    (At::Hub, Step::StartAll),
];

/// The answers to `ALL_AND_NEXT`.
const ALL_AND_NEXT_ANSWERS: &[u8] = b".!..1b2a2b3a;.. 010";

/// Returns three networks that are not started.
pub(crate) fn networks<R: Net + Wait + Clock + Copy + Drop>(
    alloc: Global,
    rt: R,
    port: u16,
) -> Result<Networks<HostFabric<R>>, Memory> {
    Ok(Networks {
        port,
        sender: HostFabric::new(alloc, rt)?,
        hub: HostFabric::new(alloc, rt)?,
        receiver: HostFabric::new(alloc, rt)?,
    })
}

/// Fails unless the networks give these answers to these steps.
fn compare<R: Net + Wait + Clock + Copy + Drop>(
    alloc: Global,
    rt: R,
    port: u16,
    steps: &[(At, Step)],
    wanted: &[u8],
) -> Result<(), Fail> {
    let mut networks = networks(alloc, rt, port)?;
    networks.compare(alloc, steps, wanted)
}

#[test]
fn all_members_in_one_process_by_a_profile(rt: HostRuntime) -> Result<(), Fail> {
    let port = port_of(process::id(rt.process()), 2);
    compare(rt.alloc(), rt, port, &ALL_AND_NEXT, ALL_AND_NEXT_ANSWERS)
}

#[test]
fn each_member_in_its_own_by_a_profile(rt: HostRuntime) -> Result<(), Fail> {
    let port = port_of(process::id(rt.process()), 3);
    compare(rt.alloc(), rt, port, &EACH, EACH_ANSWERS)
}
