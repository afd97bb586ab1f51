//! Tests what a hub broadcasts: what the sender offers, once somebody listens, and then who listens gets no copy of it.

use crate::networks::{At, Networks, Step, everyone, port_of};
use crate::sockets::networks;
use norm_base::Fabric;
use std::alloc::Global;
use std::net::{Ipv4Addr, Net, SocketAddr, SocketAddrV4};
use std::sync::Wait;
use std::test::Fail;
use std::time::Clock;
use std::{io, process};

/// Messages of members 1 and 2: octets 4 to 7 are the source (RFC 5740 section 4.1).
const FIRST: &[u8] = b"data\0\0\0\x01a";

const SECOND: &[u8] = b"data\0\0\0\x01b";

const NACK: &[u8] = b"nack\0\0\0\x02";

/// The hub and receiver 2 start. Receiver 3 joins a group at the address where the hub broadcasts: it hears what is broadcast there and nothing
/// else, and never says that it listens.
const STARTS: [(At, Step); 3] = [
    (At::Hub, Step::StartHub),
    (At::Receiver, Step::StartOne(2)),
    (At::Sender, Step::StartOne(3)),
];

/// Before anybody answers; after receiver 2 answered; and a receiver's datagram.
const OFFERS: [(At, Step); 11] = [
    (At::Hub, Step::Take(0)),
    (At::Hub, Step::Offer(1, FIRST)),
    (At::Sender, Step::Take(0)),
    (At::Receiver, Step::Take(1)),
    (At::Hub, Step::Take(0)),
    (At::Hub, Step::Offer(1, SECOND)),
    (At::Receiver, Step::Take(1)),
    (At::Sender, Step::Take(1)),
    (At::Hub, Step::Offer(2, NACK)),
    (At::Receiver, Step::Take(0)),
    (At::Sender, Step::Take(0)),
];

/// The answers to `OFFERS`. Receiver 2 gets each datagram once.
const OFFERS_ANSWERS: &[u8] = b";.;2data\0\0\0\x01a;;.2data\0\0\0\x01b;3data\0\0\0\x01b;.;; 000";

/// Has a stranger answer the hub from no member's port, and ask in its place.
fn send_strange<R: Net>(rt: &R, port: u16) -> io::Result<()> {
    let here = Ipv4Addr::new(127, 0, 0, 1);
    let stranger = rt.bind_udp(SocketAddr::V4(SocketAddrV4::new(here, 0)))?;
    stranger.set_broadcast(true)?;
    stranger.send_to(b"", SocketAddr::V4(SocketAddrV4::new(here, port)))?;
    stranger.send_to(b"", SocketAddr::V4(SocketAddrV4::new(everyone(), port)))?;
    Ok(())
}

/// Fails unless the hub sends as it has to, although a stranger answered it and asked.
fn compare<R: Net, F: Fabric + Drop>(
    alloc: Global,
    rt: &R,
    networks: Networks<F>,
) -> Result<(), Fail> {
    let mut networks = networks;
    networks.compare(alloc, &STARTS, b"... 000")?;
    send_strange(rt, networks.port)?;
    networks.compare(alloc, &OFFERS, OFFERS_ANSWERS)
}

/// Does so with new networks of sockets.
fn compare_sockets<R: Net + Wait + Clock + Copy + Drop>(
    alloc: Global,
    rt: R,
    port: u16,
) -> Result<(), Fail> {
    let mut networks = networks(alloc, rt, port)?;
    networks.sender.join(everyone(), None);
    compare(alloc, &rt, networks)
}

#[test]
fn what_a_hub_broadcasts(rt: HostRuntime) -> Result<(), Fail> {
    let port = port_of(process::id(rt.process()), 40);
    compare_sockets(rt.alloc(), rt, port)
}
