//! Tests `UdpFabric` with sixteen receivers, the most that a session has. Each datagram of a member arrives whole at each other member, and
//! never at the member itself: through a hub, through a hub whose thread sends, with all members in one network, and in a group.

use crate::networks::{everyone, port_of, profile_of};
use norm_base::{
    DATAGRAM_ROOM, Datagram, Fabric, FabricFault, FabricKind, Local, Memory, NodeId, Profile,
};
use norm_udp::{SendingThread, UdpFabric};
use std::alloc::Global;
use std::net::Net;
use std::process;
use std::sync::Wait;
use std::test::Fail;
use std::thread::Threads;
use std::time::Clock;

/// The receivers. `MEMBERS` counts the sender too. The sender is node 1, and the receivers are the nodes after it.
const RECEIVERS: u32 = 16;

const MEMBERS: u32 = RECEIVERS + 1;

/// The octets of the datagrams that each member sends: the fewest, as many as a long NACK has, and more than the longest symbol.
const LENGTHS: [usize; 3] = [1, 1_000, 1_440];

/// The octets of a message in a group. Octets 4 to 7 are its source (RFC 5740 section 4.1), and only the last one of them is not 0 here.
const MESSAGE: usize = 12;

const SOURCE_END: usize = 8;

/// The most takes for a datagram that should arrive. `GLANCES` are those for one that should not. A take that finds nothing lasts a
/// millisecond at most.
const PATIENCE: u32 = 2_000;

const GLANCES: u32 = 2;

/// The bit that a set of members has if something arrived that should not. Each member is one of the lower bits.
const WRONG: u32 = 1 << 31;

/// Returns the set of all members except the one with this index, counted from 0.
fn others(place: u32) -> u32 {
    let mut all = 0;
    for other in 0..MEMBERS {
        if other != place {
            all |= 1 << other;
        }
    }
    all
}

/// Returns the bit of the node that got a datagram, or `WRONG` if it is no member, got other octets, or got the datagram before.
fn bit_of(node: NodeId, is_same: bool, got: u32) -> u32 {
    let place = node.number().wrapping_sub(1);
    if !is_same || place >= MEMBERS {
        return WRONG;
    }
    let bit = 1 << place;
    if got & bit == 0 { bit } else { WRONG }
}

/// Takes once. Returns the set with the member that got a datagram, if one was there.
fn take<F: Fabric>(
    fabric: &mut F,
    into: &mut Datagram,
    octets: &[u8],
    got: u32,
) -> Result<u32, FabricFault> {
    match fabric.take(into)? {
        Some(node) => Ok(got | bit_of(node, into.bytes() == octets, got)),
        None => Ok(got),
    }
}

/// Takes until a datagram arrives, at most `looks` times.
fn look<F: Fabric>(
    fabric: &mut F,
    into: &mut Datagram,
    octets: &[u8],
    got: u32,
    looks: u32,
) -> Result<u32, FabricFault> {
    for _ in 0..looks {
        let more = take(fabric, into, octets, got)?;
        if more != got {
            return Ok(more);
        }
    }
    Ok(got)
}

/// Offers octets of the member with this index.
fn offer<F: Fabric>(fabric: &mut F, place: u32, octets: &[u8]) -> Result<(), FabricFault> {
    match NodeId::of(place.wrapping_add(1)) {
        Some(node) if octets.len() <= DATAGRAM_ROOM => fabric.offer(node, octets),
        _ => Err(FabricFault::Failed),
    }
}

/// Takes the next datagram at the hub and offers it to the members, as one of the member that the take names.
fn pass_on<F: Fabric>(hub: &mut F, into: &mut Datagram) -> Result<(), FabricFault> {
    for _ in 0..PATIENCE {
        if let Some(from) = hub.take(into)? {
            return hub.offer(from, into.bytes());
        }
    }
    Ok(())
}

/// Offers octets of the member with this index, in its own network.
fn offer_at<F: Fabric>(members: &mut [F], place: u32, octets: &[u8]) -> Result<(), FabricFault> {
    match members.get_mut(place as usize) {
        Some(member) => offer(member, place, octets),
        None => Err(FabricFault::Failed),
    }
}

/// Returns the set of members that got octets of the member with this index, each in its own network.
fn heard_at<F: Fabric>(
    members: &mut [F],
    into: &mut Datagram,
    place: u32,
    octets: &[u8],
) -> Result<u32, FabricFault> {
    let mut got = 0;
    let mut at = 0u32;
    for member in members.iter_mut() {
        let looks = if at == place { GLANCES } else { PATIENCE };
        got = look(member, into, octets, got, looks)?;
        at = at.wrapping_add(1);
    }
    Ok(got)
}

/// Sends octets of the member with this index through a hub. Returns the set of members that got them.
fn heard_by_hub<F: Fabric>(
    alloc: Global,
    hub: &mut F,
    members: &mut [F],
    place: u32,
    octets: &[u8],
) -> Result<u32, FabricFault> {
    let mut into = Datagram::new(alloc)?;
    offer_at(members, place, octets)?;
    pass_on(hub, &mut into)?;
    heard_at(members, &mut into, place, octets)
}

/// Sends octets of the member with this index to a group. Returns the set of members that got them.
fn heard_in_group<F: Fabric>(
    alloc: Global,
    members: &mut [F],
    place: u32,
    octets: &[u8],
) -> Result<u32, FabricFault> {
    let mut into = Datagram::new(alloc)?;
    offer_at(members, place, octets)?;
    heard_at(members, &mut into, place, octets)
}

/// Sends octets of the member with this index in a network of all members. Returns the set of members that got them.
fn heard_in_one<F: Fabric>(
    alloc: Global,
    fabric: &mut F,
    place: u32,
    octets: &[u8],
) -> Result<u32, FabricFault> {
    let mut into = Datagram::new(alloc)?;
    offer(fabric, place, octets)?;
    let mut got = 0;
    for _ in 0..MEMBERS + GLANCES {
        got = take(fabric, &mut into, octets, got)?;
    }
    Ok(got)
}

/// Returns this many octets, a letter that depends on the member's index.
fn octets_of(alloc: Global, place: u32, length: usize) -> Result<Vec<u8>, Memory> {
    let mut octets = Vec::new(alloc);
    for _ in 0..length {
        octets.push(b'a' + (place % MEMBERS) as u8)?;
    }
    Ok(octets)
}

/// Returns a message of the member with this index.
fn message_of(alloc: Global, place: u32) -> Result<Vec<u8>, Memory> {
    let number = (place % MEMBERS) as u8 + 1;
    let mut octets = Vec::new(alloc);
    for at in 0..MESSAGE {
        let octet = if at + 1 == SOURCE_END { number } else { 0 };
        octets.push(octet)?;
    }
    Ok(octets)
}

/// Fails unless all other members, and no more, got what the member with this index sent.
fn check(place: u32, length: usize, got: u32) -> Result<(), Fail> {
    if got == others(place) {
        return Ok(());
    }
    Err(Fail::new(format_args!("{length} octets of member {place}: {got:x}")))
}

/// Starts a network for each member.
fn start_each<F: Fabric>(members: &mut [F], profile: &Profile) -> Result<(), FabricFault> {
    let mut number = 1u32;
    for member in members.iter_mut() {
        let Some(node) = NodeId::of(number) else {
            return Err(FabricFault::Failed);
        };
        member.start(profile, Local::One(node))?;
        number = number.wrapping_add(1);
    }
    Ok(())
}

/// Sends datagrams of each member and length through a hub. Fails unless all other members get each of them.
fn compare_by_hub<F: Fabric>(
    alloc: Global,
    hub: &mut F,
    members: &mut [F],
    port: u16,
) -> Result<(), Fail> {
    let Some(profile) = profile_of(port, FabricKind::Udp, RECEIVERS) else {
        return Err(Fail::new("no profile"));
    };
    hub.start(&profile, Local::Hub)?;
    start_each(members, &profile)?;
    for place in 0..MEMBERS {
        for length in LENGTHS {
            let octets = octets_of(alloc, place, length)?;
            let got = heard_by_hub(alloc, hub, members, place, &octets)?;
            check(place, length, got)?;
        }
    }
    Ok(())
}

/// Sends a message of each member to its group. Fails unless all other members get each of them.
fn compare_in_group<F: Fabric>(alloc: Global, members: &mut [F], port: u16) -> Result<(), Fail> {
    let Some(profile) = profile_of(port, FabricKind::Udp, RECEIVERS) else {
        return Err(Fail::new("no profile"));
    };
    start_each(members, &profile)?;
    for place in 0..MEMBERS {
        let octets = message_of(alloc, place)?;
        let got = heard_in_group(alloc, members, place, &octets)?;
        check(place, MESSAGE, got)?;
    }
    Ok(())
}

/// Sends datagrams of each member and length in one network. Fails unless all other members get each of them.
fn compare_in_one<F: Fabric>(alloc: Global, fabric: &mut F, port: u16) -> Result<(), Fail> {
    let Some(profile) = profile_of(port, FabricKind::Udp, RECEIVERS) else {
        return Err(Fail::new("no profile"));
    };
    fabric.start(&profile, Local::All)?;
    for place in 0..MEMBERS {
        for length in LENGTHS {
            let octets = octets_of(alloc, place, length)?;
            let got = heard_in_one(alloc, fabric, place, &octets)?;
            check(place, length, got)?;
        }
    }
    Ok(())
}

/// Returns a network for each member, none of them started.
fn networks<R: Net + Wait + Clock + Copy + Drop>(
    alloc: Global,
    rt: R,
) -> Result<Vec<UdpFabric<R>>, Memory> {
    let mut members = Vec::new(alloc);
    for _ in 0..MEMBERS {
        members.push(UdpFabric::new(alloc, rt)?)?;
    }
    Ok(members)
}

/// Runs the test with this hub and new networks for the members.
fn compare_hub<R: Net + Wait + Clock + Copy + Drop>(
    alloc: Global,
    rt: R,
    hub: UdpFabric<R>,
    port: u16,
) -> Result<(), Fail> {
    let mut hub = hub;
    let mut members = networks(alloc, rt)?;
    compare_by_hub(alloc, &mut hub, &mut members, port)
}

/// Runs the test with new networks that join a group on this machine.
fn compare_group<R: Net + Wait + Clock + Copy + Drop>(
    alloc: Global,
    rt: R,
    port: u16,
) -> Result<(), Fail> {
    let mut members = networks(alloc, rt)?;
    for member in members.iter_mut() {
        member.join(everyone(), None);
    }
    compare_in_group(alloc, &mut members, port)
}

/// Returns a hub whose thread sends.
fn hub_with_threads<R: Net + Threads + Wait + Clock + Copy + Send + Drop + 'static>(
    alloc: Global,
    rt: R,
) -> Result<UdpFabric<R>, Memory> {
    let mut hub = UdpFabric::new(alloc, rt)?;
    hub.send_by(SendingThread::start(alloc, rt)?);
    Ok(hub)
}

/// Runs the test with one network for all members.
fn compare_one<R: Net + Wait + Clock + Copy + Drop>(
    alloc: Global,
    rt: R,
    port: u16,
) -> Result<(), Fail> {
    let mut fabric = UdpFabric::new(alloc, rt)?;
    compare_in_one(alloc, &mut fabric, port)
}

#[test]
fn sixteen_receivers_by_a_hub(rt: HostRuntime) -> Result<(), Fail> {
    let port = port_of(process::id(rt.process()), 16);
    let hub = UdpFabric::new(rt.alloc(), rt)?;
    compare_hub(rt.alloc(), rt, hub, port)
}

#[test]
fn sixteen_receivers_by_a_hub_with_threads_that_send(rt: HostRuntime) -> Result<(), Fail> {
    let port = port_of(process::id(rt.process()), 21);
    let hub = hub_with_threads(rt.alloc(), rt)?;
    compare_hub(rt.alloc(), rt, hub, port)
}

#[test]
fn sixteen_receivers_in_one_network(rt: HostRuntime) -> Result<(), Fail> {
    let port = port_of(process::id(rt.process()), 26);
    compare_one(rt.alloc(), rt, port)
}

#[test]
fn sixteen_receivers_in_a_group(rt: HostRuntime) -> Result<(), Fail> {
    let port = port_of(process::id(rt.process()), 35);
    compare_group(rt.alloc(), rt, port)
}
