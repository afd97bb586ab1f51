//! Calls of single sockets. None of them waits.

ghost use Rattle.std.specs.Prelude.{◌≡◌, [], true, false, IfOk, IfErr, IfNone, OnErr, if◌then◌else◌};
ghost use Rattle.norm_udp.specs.Failures.{is_sending};

use crate::cause::SocketCause;
use crate::refusals::Refusals;
use libc::EACCES;
use libc::net::{
    AF_INET, SO_RCVBUF, SO_REUSEPORT, SOCK_CLOEXEC, SOCK_DGRAM, SOCK_NONBLOCK, SOL_SOCKET,
};
use norm_base::{DATAGRAM_ROOM, Datagram};
use os::FromRawFd;
use std::io;
use std::net::{Ipv4Addr, Net, SocketAddr, SocketAddrV4, UdpSocket};
use std::os::fd::AsRawFd;
use udp_rules::is_loss;

/// Octets of the buffer that a datagram is received into: one more than a datagram may have, so that a longer one shows.
// A read cuts what is longer than the buffer, and does not say so.
pub(crate) const BUFFER: usize = DATAGRAM_ROOM + 1;

/// Octets of the receive buffer that [`bind`] asks for.
// Our own choice, 4 MiB: some 2,800 datagrams of full size, so that little is lost while a turn hands up or prints. The system may give
// less.
const RECEIVE_BUFFER: i32 = 4 << 20;

/// The most datagrams in a row that a loop passes over before it answers that nothing is there.
// Our own choice. Strangers may send without end, and a node that is asked for a datagram has to come back to its turn.
pub(crate) const MOST_PASSED: u32 = 1_024;

/// The hops that a datagram to a group may take.
// Our own choice: none beyond the subnet. If the machine has lost its address there and has a default route, the system takes the datagram
// for one to a single host, and sends it to the router.
const HOPS: u32 = 1;

/// The octets of C's `sockaddr_in`.
const ADDRESS_OCTETS: u32 = 16;

/// Asks for a large receive buffer.
fn ask_for_room(socket: &UdpSocket) {
    let mut value = [0u8; 16];
    value[..4].copy_from_slice(&RECEIVE_BUFFER.to_ne_bytes());
    // Whatever it answers is of no use: with a smaller buffer more is lost, and NORM makes that good.
    let _ = unsafe { libc::net::setsockopt(socket.as_raw_fd(), SOL_SOCKET, SO_RCVBUF, &value, 4) };
}

/// Opens a socket that is bound to this address and never waits.
fn bound_to<R: Net>(rt: &R, address: SocketAddr) -> io::Result<UdpSocket> {
    let socket = rt.bind_udp(address)?;
    socket.set_nonblocking(true)?;
    Ok(socket)
}

/// As [`bound_to`]. The error names the address.
fn at<R: Net>(rt: &R, address: SocketAddr) -> Result<UdpSocket, SocketCause> {
    match bound_to(rt, address) {
        Ok(socket) => Ok(socket),
        Err(error) => Err(SocketCause::Bind { address, error }),
    }
}

/// Opens a socket at this address, and asks for a receive buffer of [`RECEIVE_BUFFER`] octets.
pub(crate) fn bind<R: Net>(rt: &R, address: SocketAddr) -> Result<UdpSocket, SocketCause> {
    let socket = at(rt, address)?;
    ask_for_room(&socket);
    Ok(socket)
}

/// Lets a socket that is bound to this address send to broadcast addresses too.
fn allowing_broadcast(socket: UdpSocket, own: SocketAddr) -> Result<UdpSocket, SocketCause> {
    match socket.set_broadcast(true) {
        Ok(()) => Ok(socket),
        Err(error) => Err(SocketCause::Bind {
            address: own,
            error,
        }),
    }
}

/// As [`bind`]. The socket may also send to broadcast addresses.
pub(crate) fn bind_to_ask<R: Net>(rt: &R, own: SocketAddr) -> Result<UdpSocket, SocketCause> {
    allowing_broadcast(bind(rt, own)?, own)
}

/// Connects a socket, which then sends to this address alone.
fn connected(socket: UdpSocket, address: SocketAddr) -> Result<UdpSocket, SocketCause> {
    match socket.connect(address) {
        Ok(()) => Ok(socket),
        Err(error) => Err(SocketCause::Connect { address, error }),
    }
}

/// Opens a socket at `own` that sends to `address` alone.
pub(crate) fn connect<R: Net>(
    rt: &R,
    own: SocketAddr,
    address: SocketAddr,
) -> Result<UdpSocket, SocketCause> {
    connected(at(rt, own)?, address)
}

/// As [`connect`], for a broadcast address.
pub(crate) fn connect_to_all<R: Net>(
    rt: &R,
    own: SocketAddr,
    address: SocketAddr,
) -> Result<UdpSocket, SocketCause> {
    connected(allowing_broadcast(at(rt, own)?, own)?, address)
}

/// Returns the last error of the system.
fn last_error() -> io::Error {
    io::Error::from_raw_os_error(os::errno())
}

/// Returns the octets of C's `sockaddr_in` with this address and port.
fn address_octets(address: Ipv4Addr, port: u16) -> [u8; 128] {
    let mut octets = [0u8; 128];
    octets[..2].copy_from_slice(&(AF_INET as u16).to_ne_bytes());
    octets[2..4].copy_from_slice(&port.to_be_bytes());
    octets[4..8].copy_from_slice(&address.octets());
    octets
}

/// Lets other sockets of this user have the same address. Each of them then gets what is sent there.
// Not SO_REUSEADDR, by which another user's socket could get it too.
fn share(socket: &UdpSocket) -> bool {
    let mut value = [0u8; 16];
    value[..4].copy_from_slice(&1i32.to_ne_bytes());
    unsafe { libc::net::setsockopt(socket.as_raw_fd(), SOL_SOCKET, SO_REUSEPORT, &value, 4) >= 0 }
}

/// Opens a socket at a broadcast address, beside others there, that sends to all of them and never waits.
// By the C library's calls, because `bind_udp` binds before an option can be set. `_rt` is the permission to use the network.
fn shared_at<R: Net>(_rt: &R, address: Ipv4Addr, port: u16) -> io::Result<UdpSocket> {
    let fd = unsafe { libc::net::socket(AF_INET, SOCK_DGRAM | SOCK_NONBLOCK | SOCK_CLOEXEC, 0) };
    if fd < 0 {
        return Err(last_error());
    }
    let socket = unsafe { UdpSocket::from_raw_fd(fd) };
    if !share(&socket) {
        return Err(last_error());
    }
    socket.set_broadcast(true)?;
    socket.set_ttl(HOPS)?;
    let octets = address_octets(address, port);
    if unsafe { libc::net::bind(socket.as_raw_fd(), &octets, ADDRESS_OCTETS) } < 0 {
        return Err(last_error());
    }
    Ok(socket)
}

/// Opens a socket at a broadcast address and this port, which other sockets of this user may have too, and asks for a receive buffer of
/// [`RECEIVE_BUFFER`] octets.
pub(crate) fn bind_shared<R: Net>(
    rt: &R,
    ip: Ipv4Addr,
    port: u16,
) -> Result<UdpSocket, SocketCause> {
    match shared_at(rt, ip, port) {
        Ok(socket) => {
            ask_for_room(&socket);
            Ok(socket)
        }
        Err(error) => Err(SocketCause::Bind {
            address: SocketAddr::V4(SocketAddrV4::new(ip, port)),
            error,
        }),
    }
}

/// Fails unless this is a broadcast address of this machine.
// A socket binds to the machine's own address, to 0.0.0.0 and to a multicast address too. Only if an address is a broadcast address, the
// system refuses to connect a socket that does not ask for broadcast, with EACCES.
pub(crate) fn check_broadcast<R: Net>(rt: &R, address: SocketAddr) -> Result<(), SocketCause> {
    let any = SocketAddr::V4(SocketAddrV4::new(Ipv4Addr::new(0, 0, 0, 0), 0));
    let socket = at(rt, any)?;
    match socket.connect(address) {
        Ok(()) => Err(SocketCause::NoBroadcast { address }),
        Err(error) if error.raw_os_error() == Some(EACCES) => Ok(()),
        Err(error) => Err(SocketCause::Connect { address, error }),
    }
}

/// Returns the outcome of a send to an address. It is no error if the datagram was lost.
fn sent(done: io::Result<usize>, address: SocketAddr) -> Result<(), SocketCause>
    ensures { IfErr result (λ cause. is_sending cause ≡ true) }
{
    match done {
        Ok(_) => Ok(()),
        // A datagram that could not be sent is one that the network lost.
        Err(error) if is_loss(&error) => Ok(()),
        Err(error) => Err(SocketCause::Send { address, error }),
    }
}

/// Sends a datagram to an address. It is no error if it gets lost.
pub(crate) fn send_to(
    socket: &UdpSocket,
    bytes: &[u8],
    address: SocketAddr,
) -> Result<(), SocketCause>
    ensures { IfErr result (λ cause. is_sending cause ≡ true) }
{
    sent(socket.send_to(bytes, address), address)
}

/// Sends a datagram through a socket that is connected to this address. It is no error if it gets lost.
pub(crate) fn send(socket: &UdpSocket, bytes: &[u8], address: SocketAddr) -> Result<(), SocketCause>
    ensures { IfErr result (λ cause. is_sending cause ≡ true) }
{
    sent(socket.send(bytes), address)
}

/// Connects a sender's socket to its hub, and nobody else's. Returns whether it did.
// A receiver hears its hub through sockets of other ports too, and a connected socket hears one port alone.
pub(crate) fn connect_up(socket: &UdpSocket, is_sender: bool, hub: SocketAddr) -> bool
    ensures { result ≡ true → is_sender ≡ true }
{
    is_sender && socket.connect(hub).is_ok()
}

/// Sends a datagram to the hub, through a socket that may be connected to it.
fn send_through(
    socket: &UdpSocket,
    bytes: &[u8],
    hub: SocketAddr,
    is_connected: bool,
) -> io::Result<usize> {
    if is_connected {
        return socket.send(bytes);
    }
    socket.send_to(bytes, hub)
}

/// Whether a send said that no hub is there. Counts it if so.
fn was_refused(refused: &Refusals, done: &io::Result<usize>) -> bool {
    match done {
        Ok(_) => false,
        Err(error) => refused.note(error),
    }
}

/// Sends a datagram to the hub, through a socket that may be connected to it. It is no error if it gets lost.
pub(crate) fn send_up(
    socket: &UdpSocket,
    bytes: &[u8],
    hub: SocketAddr,
    is_connected: bool,
    refused: &Refusals,
) -> Result<(), SocketCause>
    ensures { IfErr result (λ cause. is_sending cause ≡ true) }
{
    let done = send_through(socket, bytes, hub, is_connected);
    if !was_refused(refused, &done) {
        return sent(done, hub);
    }
    // The system speaks of an earlier datagram, and did not send this one. The hub may be there by now.
    let again = send_through(socket, bytes, hub, is_connected);
    let _ = was_refused(refused, &again);
    sent(again, hub)
}

/// Puts a received datagram into `into`, unless it is longer than one may be. Returns whether it did.
fn put(received: &[u8], into: &mut Datagram) -> bool
    requires { into.old ≡ [] }
    ensures { into.new ≡ (if result then received.now else []) }
{
    if received.len() > DATAGRAM_ROOM {
        return false;
    }
    into.push(received);
    true
}

/// Counts an error that says that no hub is there, at a sender alone.
fn note_refused(refused: Option<&Refusals>, error: &io::Error) {
    if let Some(refused) = refused {
        let _ = refused.note(error);
    }
}

/// Returns `Ok` after a receive that failed only because nothing is there, or because a datagram was lost.
fn nothing_there(error: io::Error, own: SocketAddr) -> Result<(), SocketCause> {
    if is_loss(&error) {
        return Ok(());
    }
    Err(SocketCause::Receive {
        address: own,
        error,
    })
}

/// Receives the next datagram, from wherever it came. `false` if nothing is there, if the system reports a loss, or after [`MOST_PASSED`]
/// that are too long. `refused` counts at a sender alone that no hub is there.
pub(crate) fn receive(
    socket: &UdpSocket,
    own: SocketAddr,
    refused: Option<&Refusals>,
    buffer: &mut [u8],
    into: &mut Datagram,
) -> Result<bool, SocketCause>
    requires { into.old ≡ [] }
    ensures none { IfOk result (λ found. found ≡ false → into.new ≡ []) }
    ensures err { OnErr result (into.new ≡ []) }
{
    for _ in 0..MOST_PASSED {
        match socket.recv(buffer) {
            Ok(n) => {
                if put(&buffer[..n], into) {
                    return Ok(true);
                }
            }
            Err(error) => {
                note_refused(refused, &error);
                nothing_there(error, own)?;
                return Ok(false);
            }
        }
    }
    Ok(false)
}

/// As [`receive`]. Returns the address that the datagram came from, and `None` for `false`.
pub(crate) fn receive_from(
    socket: &UdpSocket,
    own: SocketAddr,
    buffer: &mut [u8],
    into: &mut Datagram,
) -> Result<Option<SocketAddr>, SocketCause>
    requires { into.old ≡ [] }
    ensures none { IfOk result (λ from. IfNone from (into.new ≡ [])) }
    ensures err { OnErr result (into.new ≡ []) }
{
    for _ in 0..MOST_PASSED {
        match socket.recv_from(buffer) {
            Ok((n, from)) => {
                if put(&buffer[..n], into) {
                    return Ok(Some(from));
                }
            }
            Err(error) => {
                nothing_there(error, own)?;
                return Ok(None);
            }
        }
    }
    Ok(None)
}
