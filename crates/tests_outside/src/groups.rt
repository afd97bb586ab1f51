//! Tests `UdpFabric` with members in a group at 127.255.255.255: who hears whom, what each passes over, and why a start fails.

use crate::networks::{At, Networks, Step, everyone, port_of};
use crate::sockets::networks;
use norm_base::Fabric;
use norm_udp::UdpFabric;
use std::alloc::Global;
use std::net::{Ipv4Addr, Net, SocketAddr, SocketAddrV4};
use std::sync::Wait;
use std::test::Fail;
use std::time::Clock;
use std::{io, process};
use udp_rules::TellsGroup;

/// The fewest octets of a datagram that is too long.
const TOO_LONG: usize = 1_501;

/// Messages of members 1 to 3: octets 4 to 7 are the source (RFC 5740 section 4.1).
const FIRST: &[u8] = b"data\0\0\0\x01a";

const SECOND: &[u8] = b"data\0\0\0\x01b";

const NACK: &[u8] = b"nack\0\0\0\x02";

/// A sender and two receivers, of which one comes late. The third network has receiver 3.
const MEMBERS: [(At, Step); 14] = [
    (At::Sender, Step::StartOne(1)),
    (At::Hub, Step::StartOne(2)),
    (At::Sender, Step::Offer(1, FIRST)),
    (At::Hub, Step::Take(1)),
    (At::Sender, Step::Take(0)),
    (At::Receiver, Step::StartOne(3)),
    (At::Receiver, Step::Take(0)),
    (At::Hub, Step::Offer(2, NACK)),
    (At::Sender, Step::Take(1)),
    (At::Receiver, Step::Take(1)),
    (At::Hub, Step::Take(0)),
    (At::Sender, Step::Offer(1, SECOND)),
    (At::Hub, Step::Take(1)),
    (At::Receiver, Step::Take(1)),
];

/// The answers to `MEMBERS`. Nobody hears itself.
const MEMBERS_ANSWERS: &[u8] =
    b"...2data\0\0\0\x01a;;.;.1nack\0\0\0\x02;3nack\0\0\0\x02;;.2data\0\0\0\x01b;3data\0\0\0\x01b; 000";

/// The sender and receiver 2 start.
const STARTS: [(At, Step); 2] = [
    (At::Sender, Step::StartOne(1)),
    (At::Receiver, Step::StartOne(2)),
];

/// What is not passed over is taken.
const TAKES: [(At, Step); 2] = [(At::Receiver, Step::Take(3)), (At::Sender, Step::Take(2))];

/// The octets that a socket of the test sends.
#[derive(Clone, Copy)]
enum Octets {
    Text(&'static [u8]),
    /// This many equal octets.
    Long(usize),
}

/// A datagram that the test sends by a socket of its own: the last number of its address 127.0.0.N, how far its port is above the group's,
/// and its octets.
type Strange = (u8, u16, Octets);

/// To receiver 2: too few octets and too many, of no member, of itself, of the sender, of it from a second machine, of another receiver,
/// and of the sender again. To the sender: of receivers, each from two machines.
const STRANGES: [Strange; 13] = [
    (1, 0, Octets::Text(b"")),
    (1, 0, Octets::Text(b"seven\0\0")),
    (1, 0, Octets::Long(TOO_LONG)),
    (1, 0, Octets::Text(b"none\0\0\0\x09")),
    (1, 0, Octets::Text(b"self\0\0\0\x02")),
    (1, 0, Octets::Text(b"good\0\0\0\x01")),
    (2, 0, Octets::Text(b"evil\0\0\0\x01")),
    (2, 0, Octets::Text(b"peer\0\0\0\x03")),
    (1, 0, Octets::Text(b"last\0\0\0\x01")),
    (1, 1, Octets::Text(b"here\0\0\0\x02")),
    (2, 1, Octets::Text(b"evil\0\0\0\x02")),
    (2, 1, Octets::Text(b"away\0\0\0\x03")),
    (1, 1, Octets::Text(b"evil\0\0\0\x03")),
];

/// The answers to `TAKES`. The receiver hears too what goes to the sender, of receiver 3 alone.
const TAKES_ANSWERS: &[u8] =
    b"2good\0\0\0\x012peer\0\0\0\x032last\0\0\0\x012away\0\0\0\x032evil\0\0\0\x03;1here\0\0\0\x021away\0\0\0\x03; 000";

/// Has all three networks join a group.
fn joined<R: Net + Wait + Clock + Copy + Drop>(
    alloc: Global,
    rt: R,
    port: u16,
    address: Ipv4Addr,
) -> Result<Networks<UdpFabric<R>>, Fail> {
    let mut networks = networks(alloc, rt, port)?;
    networks.sender.join(address, None);
    networks.hub.join(address, None);
    networks.receiver.join(address, None);
    Ok(networks)
}

/// Sends a datagram to the group from a new socket, and closes the socket.
fn send<R: Net>(alloc: Global, rt: &R, port: u16, strange: Strange) -> io::Result<()> {
    let (from, above, octets) = strange;
    let own = SocketAddr::V4(SocketAddrV4::new(Ipv4Addr::new(127, 0, 0, from), 0));
    let to = SocketAddr::V4(SocketAddrV4::new(everyone(), port.wrapping_add(above)));
    let socket = rt.bind_udp(own)?;
    socket.set_broadcast(true)?;
    match octets {
        Octets::Text(text) => socket.send_to(text, to)?,
        Octets::Long(length) => {
            let long = vec![in alloc; b'x'; length]?;
            socket.send_to(long.as_slice(), to)?
        }
    };
    Ok(())
}

/// Fails unless the networks give these answers to these steps.
fn compare<F: Fabric + Drop>(
    alloc: Global,
    networks: Networks<F>,
    steps: &[(At, Step)],
    wanted: &[u8],
) -> Result<(), Fail> {
    let mut networks = networks;
    networks.compare(alloc, steps, wanted)
}

/// Fails unless what a network says of a second machine is this.
fn compare_second<F: TellsGroup>(alloc: Global, network: &F, wanted: &str) -> Result<(), Fail> {
    let Some(news) = network.group_news() else {
        return Err(Fail::new("no group"));
    };
    let Some(second) = news.second else {
        return Err(Fail::new("no second machine"));
    };
    let said = format!(in alloc; "{second}")?;
    if said.as_str() == wanted {
        return Ok(());
    }
    Err(Fail::new(said))
}

/// Starts the sender and the receiver, and sends these datagrams. Fails unless they take what they have to, and say so of second machines.
fn compare_strange<R: Net, F: Fabric + TellsGroup + Drop>(
    alloc: Global,
    rt: &R,
    networks: Networks<F>,
) -> Result<(), Fail> {
    let mut networks = networks;
    networks.compare(alloc, &STARTS, b".. 000")?;
    for strange in &STRANGES {
        send(alloc, rt, networks.port, *strange)?;
    }
    networks.compare(alloc, &TAKES, TAKES_ANSWERS)?;
    let sender = "node 2 also sends from 127.0.0.2; only 127.0.0.1, which came first, is accepted";
    compare_second(alloc, &networks.sender, sender)?;
    let receiver =
        "node 1 also sends from 127.0.0.2; only 127.0.0.1, which came first, is accepted";
    compare_second(alloc, &networks.receiver, receiver)
}

#[test]
fn a_group_on_one_machine(rt: HostRuntime) -> Result<(), Fail> {
    let port = port_of(process::id(rt.process()), 15);
    let networks = joined(rt.alloc(), rt, port, everyone())?;
    compare(rt.alloc(), networks, &MEMBERS, MEMBERS_ANSWERS)
}

#[test]
fn what_a_member_of_a_group_passes_over(rt: HostRuntime) -> Result<(), Fail> {
    let port = port_of(process::id(rt.process()), 32);
    let networks = joined(rt.alloc(), rt, port, everyone())?;
    compare_strange(rt.alloc(), &rt, networks)
}
