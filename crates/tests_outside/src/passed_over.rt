//! Tests which datagrams `UdpFabric` ignores: at the hub those of strangers, and at all members those that are too long.

use crate::networks::{At, LONGEST, Networks, Step, port_of};
use crate::sockets::networks;
use norm_base::Fabric;
use std::alloc::Global;
use std::net::{Ipv4Addr, Net, SocketAddr, SocketAddrV4};
use std::sync::Wait;
use std::test::Fail;
use std::time::Clock;
use std::{io, process};

/// The fewest octets of a datagram that is too long.
const TOO_LONG: usize = 1_501;

/// The hub and the first receiver start. The sender's port stays free, so that the test can send from it.
const STARTS: [(At, Step); 2] = [(At::Hub, Step::StartHub), (At::Receiver, Step::StartOne(2))];

/// One datagram is taken at the hub and one at the receiver.
const BOTH: [(At, Step); 2] = [(At::Hub, Step::Take(1)), (At::Receiver, Step::Take(1))];

/// One datagram is taken at the hub. Nothing may come to the receiver.
const HUB_ALONE: [(At, Step); 2] = [(At::Hub, Step::Take(1)), (At::Receiver, Step::Take(0))];

/// The port that a datagram is sent from or to.
#[derive(Clone, Copy)]
enum Port {
    /// Any free port, which is no member's.
    Any,
    Hub,
    Sender,
    Receiver,
}

/// The octets that a socket of the test sends.
#[derive(Clone, Copy)]
enum Octets {
    Text(&'static [u8]),
    /// This many equal octets.
    Long(usize),
}

/// A datagram that the test sends by a socket of its own: from, to, octets.
type Strange = (Port, Port, Octets);

/// Returns the number of a port, given the hub's.
fn port_at(hub: u16, port: Port) -> u16 {
    match port {
        Port::Any => 0,
        Port::Hub => hub,
        Port::Sender => hub.wrapping_add(1),
        Port::Receiver => hub.wrapping_add(2),
    }
}

/// Returns the address of a port of this machine, given the hub's.
fn address_at(hub: u16, port: Port) -> SocketAddr {
    SocketAddr::V4(SocketAddrV4::new(Ipv4Addr::new(127, 0, 0, 1), port_at(hub, port)))
}

/// Sends a datagram from a new socket, and closes the socket.
fn send<R: Net>(alloc: Global, rt: &R, hub: u16, strange: Strange) -> io::Result<()> {
    let (from, to, octets) = strange;
    let socket = rt.bind_udp(address_at(hub, from))?;
    match octets {
        Octets::Text(text) => socket.send_to(text, address_at(hub, to))?,
        Octets::Long(length) => {
            let long = vec![in alloc; b'x'; length]?;
            socket.send_to(long.as_slice(), address_at(hub, to))?
        }
    };
    Ok(())
}

/// Starts the hub and the receiver, and sends these datagrams. Fails unless the takes give these answers.
fn compare_taken<R: Net, F: Fabric + Drop>(
    alloc: Global,
    rt: &R,
    networks: Networks<F>,
    stranges: &[Strange],
    takes: &[(At, Step)],
    wanted: &[u8],
) -> Result<(), Fail> {
    let mut networks = networks;
    networks.compare(alloc, &STARTS, b".. 000")?;
    for strange in stranges {
        send(alloc, rt, networks.port, *strange)?;
    }
    networks.compare(alloc, takes, wanted)
}

/// Does the same with new networks of sockets.
fn compare<R: Net + Wait + Clock + Copy + Drop>(
    alloc: Global,
    rt: R,
    port: u16,
    stranges: &[Strange],
    takes: &[(At, Step)],
    wanted: &[u8],
) -> Result<(), Fail> {
    let networks = networks(alloc, rt, port)?;
    compare_taken(alloc, &rt, networks, stranges, takes, wanted)
}

#[test]
fn a_stranger_at_the_hub(rt: HostRuntime) -> Result<(), Fail> {
    let port = port_of(process::id(rt.process()), 4);
    let stranges = [
        (Port::Any, Port::Hub, Octets::Text(b"strange")),
        (Port::Sender, Port::Hub, Octets::Text(b"known")),
    ];
    compare(rt.alloc(), rt, port, &stranges, &HUB_ALONE, b"1known;; 000")
}

#[test]
fn a_datagram_that_is_too_long(rt: HostRuntime) -> Result<(), Fail> {
    let port = port_of(process::id(rt.process()), 5);
    let stranges = [
        (Port::Sender, Port::Hub, Octets::Long(TOO_LONG)),
        (Port::Sender, Port::Hub, Octets::Text(b"short")),
        (Port::Any, Port::Receiver, Octets::Long(TOO_LONG)),
        (Port::Any, Port::Receiver, Octets::Text(b"brief")),
    ];
    compare(
        rt.alloc(),
        rt,
        port,
        &stranges,
        &BOTH,
        b"1short;2brief; 000",
    )
}

#[test]
fn the_longest_datagram(rt: HostRuntime) -> Result<(), Fail> {
    let port = port_of(process::id(rt.process()), 6);
    let stranges = [
        (Port::Sender, Port::Hub, Octets::Long(LONGEST)),
        (Port::Any, Port::Receiver, Octets::Long(LONGEST)),
    ];
    compare(rt.alloc(), rt, port, &stranges, &BOTH, b"1L;2L; 000")
}
