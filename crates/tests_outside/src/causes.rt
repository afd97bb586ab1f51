//! Tests the cause that a network of sockets keeps of a failed call: whether it bound, connected, sent or received, at which address, and
//! the system's words.

use crate::broken::{Broken, Wrong};
use crate::networks::{At, Networks, Step, everyone, port_of};
use crate::{hosted, sockets};
use norm_base::Fabric;
use norm_host::HostFabric;
use norm_udp::{SocketCause, UdpFabric};
use std::alloc::{AllocError, Global};
use std::net::{Ipv4Addr, Net};
use std::process;
use std::sync::Wait;
use std::test::Fail;
use std::time::Clock;

/// A network that keeps the cause of its last failed call.
pub(crate) trait Says: Fabric {
    fn last_cause(&self) -> Option<&SocketCause>;

    /// Waits some seconds at most until all is sent. Returns the cause of a thread's failed send, if no call reported it.
    fn left(&self) -> Option<SocketCause>;
}

impl<R: Net + Wait + Clock + Drop> Says for UdpFabric<R> {
    fn last_cause(&self) -> Option<&SocketCause> {
        self.cause()
    }

    fn left(&self) -> Option<SocketCause> {
        self.drain()
    }
}

impl<R: Net + Wait + Clock + Drop> Says for HostFabric<R> {
    fn last_cause(&self) -> Option<&SocketCause> {
        self.cause()
    }

    fn left(&self) -> Option<SocketCause> {
        self.drain()
    }
}

/// A call of the receiver's network that fails, and its sentence: the text before the address, the port minus the hub's port, and the
/// reason.
type Row = (Step, &'static str, u16, &'static str);

/// The system's words if another socket has the address (EADDRINUSE).
const IN_USE: &str = "Address already in use (os error 98)";

/// The system's words if another machine has the address (EADDRNOTAVAIL).
const ELSEWHERE: &str = "Cannot assign requested address (os error 99)";

/// The system's words if an argument is invalid (EINVAL).
const INVALID: &str = "Invalid argument (os error 22)";

/// The system's words if the socket has no such call (EOPNOTSUPP).
pub(crate) const UNKNOWN: &str = "Operation not supported (os error 95)";

/// Starts that fail if other networks have all ports. The profile's members are 1, 2 and 3.
const TAKEN: [Row; 4] = [
    (Step::StartAll, "cannot bind", 1, IN_USE),
    (Step::StartHub, "cannot bind", 0, IN_USE),
    (Step::StartOne(2), "cannot bind", 2, IN_USE),
    (Step::StartOne(4), "cannot bind", 0, "address not available"),
];

/// Starts that fail if the address is not this machine's.
const FOREIGN: [Row; 3] = [
    (Step::StartAll, "cannot bind", 1, ELSEWHERE),
    (Step::StartHub, "cannot bind", 0, ELSEWHERE),
    (Step::StartOne(3), "cannot bind", 3, ELSEWHERE),
];

/// A start that fails if the hub's sockets are of another kind.
const UNCONNECTED: [Row; 1] = [(Step::StartHub, "cannot connect to", 2, INVALID)];

/// Calls that fail if the socket of receiver 2 is of another kind.
const UNSENT: [Row; 2] = [
    (Step::Offer(2, b"lost"), "cannot send to", 0, UNKNOWN),
    (Step::Take(0), "cannot receive at", 2, INVALID),
];

/// The words for an address that the system does not take for a broadcast address.
const NO_BROADCAST: &str = "it is no broadcast address of this machine";

/// Starts in a group at this machine's own address. The sender would send to the group's port, and receivers to the next one.
const UNJOINED: [Row; 2] = [
    (Step::StartOne(1), "cannot join a group at", 0, NO_BROADCAST),
    (Step::StartOne(3), "cannot join a group at", 1, NO_BROADCAST),
];

/// A start in a group, while another process of this machine has the number.
const DOUBLE: [Row; 1] = [(Step::StartOne(2), "cannot bind", 2, IN_USE)];

/// Returns the sentence of a failed call: the text before the address, the address with this port, and the reason.
pub(crate) fn sentence(
    alloc: Global,
    what: &str,
    port: u16,
    why: &str,
) -> Result<String, AllocError> {
    format!(in alloc; "{what} 127.0.0.1:{port}: {why}")
}

/// Fails with the cause's sentence unless that is the sentence of the row.
fn compare_said(
    alloc: Global,
    port: u16,
    cause: Option<&SocketCause>,
    row: Row,
) -> Result<(), Fail> {
    let Some(cause) = cause else {
        return Err(Fail::new("no cause"));
    };
    let (_, what, place, why) = row;
    let wanted = sentence(alloc, what, port.wrapping_add(place), why)?;
    let said = format!(in alloc; "{cause}")?;
    if said.as_str() == wanted.as_str() {
        return Ok(());
    }
    Err(Fail::new(said))
}

/// Makes these steps, and then the call of each row at the receiver's network. Fails unless each call has its sentence.
fn compare<F: Says + Drop>(
    alloc: Global,
    networks: Networks<F>,
    steps: &[(At, Step)],
    rows: &[Row],
) -> Result<(), Fail> {
    let mut networks = networks;
    let mut all = Vec::new(alloc);
    networks.take_steps(alloc, steps, &mut all)?;
    for row in rows {
        networks.take_steps(alloc, &[(At::Receiver, row.0)], &mut all)?;
        compare_said(alloc, networks.port, networks.receiver.last_cause(), *row)?;
    }
    Ok(())
}

/// Does the same with new networks of sockets.
fn compare_sockets<R: Net + Wait + Clock + Copy + Drop>(
    alloc: Global,
    rt: R,
    port: u16,
    steps: &[(At, Step)],
    rows: &[Row],
) -> Result<(), Fail> {
    compare(alloc, sockets::networks(alloc, rt, port)?, steps, rows)
}

/// Does the same with new networks of `HostFabric`.
fn compare_hosted<R: Net + Wait + Clock + Copy + Drop>(
    alloc: Global,
    rt: R,
    port: u16,
    steps: &[(At, Step)],
    rows: &[Row],
) -> Result<(), Fail> {
    compare(alloc, hosted::networks(alloc, rt, port)?, steps, rows)
}

#[test]
fn a_port_that_is_taken(rt: HostRuntime) -> Result<(), Fail> {
    let port = port_of(process::id(rt.process()), 8);
    let holders = [(At::Sender, Step::StartAll), (At::Hub, Step::StartHub)];
    compare_sockets(rt.alloc(), rt, port, &holders, &TAKEN)
}

#[test]
fn an_address_that_is_elsewhere(rt: HostRuntime) -> Result<(), Fail> {
    let port = port_of(process::id(rt.process()), 9);
    let broken = Broken {
        rt,
        wrong: Wrong::Address,
    };
    compare_sockets(rt.alloc(), broken, port, &[], &FOREIGN)
}

#[test]
fn what_cannot_be_connected(rt: HostRuntime) -> Result<(), Fail> {
    let port = port_of(process::id(rt.process()), 10);
    let broken = Broken {
        rt,
        wrong: Wrong::Kind,
    };
    compare_sockets(rt.alloc(), broken, port, &[], &UNCONNECTED)
}

#[test]
fn what_cannot_be_sent_or_received(rt: HostRuntime) -> Result<(), Fail> {
    let port = port_of(process::id(rt.process()), 11);
    let broken = Broken {
        rt,
        wrong: Wrong::Kind,
    };
    let start = [(At::Receiver, Step::StartOne(2))];
    compare_sockets(rt.alloc(), broken, port, &start, &UNSENT)
}

#[test]
fn what_cannot_be_sent_or_received_by_a_profile(rt: HostRuntime) -> Result<(), Fail> {
    let port = port_of(process::id(rt.process()), 12);
    let broken = Broken {
        rt,
        wrong: Wrong::Kind,
    };
    let start = [(At::Receiver, Step::StartOne(2))];
    compare_hosted(rt.alloc(), broken, port, &start, &UNSENT)
}

#[test]
fn a_group_that_cannot_be_joined(rt: HostRuntime) -> Result<(), Fail> {
    let port = port_of(process::id(rt.process()), 33);
    let mut networks = sockets::networks(rt.alloc(), rt, port)?;
    networks.receiver.join(Ipv4Addr::new(127, 0, 0, 1), None);
    compare(rt.alloc(), networks, &[], &UNJOINED)
}

#[test]
fn a_number_that_runs_in_a_group_already(rt: HostRuntime) -> Result<(), Fail> {
    let port = port_of(process::id(rt.process()), 34);
    let mut networks = sockets::networks(rt.alloc(), rt, port)?;
    networks.hub.join(everyone(), None);
    networks.receiver.join(everyone(), None);
    let holder = [(At::Hub, Step::StartOne(2))];
    compare(rt.alloc(), networks, &holder, &DOUBLE)
}
