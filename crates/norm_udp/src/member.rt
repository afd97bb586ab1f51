//! A member with a socket: its own, or one that sends to it. A socket that sends to all receivers that listen ([`Everyone`]).

ghost use Rattle.std.specs.Prelude.{◌≡◌, true, IfOk, IfErr};
ghost use Rattle.norm_base.specs.Members.{is_node};
ghost use Rattle.udp_rules.specs.Addresses.{gets_copy};
ghost use Rattle.udp_rules.specs.Listening.{gets_own_copy, is_broadcast};
ghost use Rattle.norm_udp.specs.Failures.{is_sending};

use crate::cause::SocketCause;
use crate::socket::{bind, connect, connect_to_all, send, send_to};
use norm_base::{NodeId, Profile};
use std::net::{Net, SocketAddr, UdpSocket};
use udp_rules::{Listeners, Located, address_at, address_of, for_all_at, with_address};

/// A member with its address, and a socket that is bound to this address or connected to it.
#[derive(Drop)]
pub(crate) struct Member {
    pub(crate) located: Located,
    pub(crate) socket: UdpSocket,
}

/// Opens a member's own socket, bound to its address.
pub(crate) fn open_own<R: Net>(
    rt: &R,
    profile: &Profile,
    node: NodeId,
) -> Result<Member, SocketCause>
    requires { is_node profile.now node ≡ true }
    ensures { IfOk result (λ member. member.located.node ≡ node) }
{
    let located = with_address(profile, node);
    let socket = bind(rt, located.address)?;
    Ok(Member { located, socket })
}

/// Opens a socket for copies to a member, at any free port. It is never read.
pub(crate) fn open_way<R: Net>(
    rt: &R,
    profile: &Profile,
    node: NodeId,
) -> Result<Member, SocketCause>
    requires { is_node profile.now node ≡ true }
    ensures { IfOk result (λ member. member.located.node ≡ node) }
{
    let located = with_address(profile, node);
    let socket = connect(rt, address_at(0), located.address)?;
    Ok(Member { located, socket })
}

/// A socket that sends to all receivers that listen, at this address.
#[derive(Drop)]
pub(crate) struct Everyone {
    address: SocketAddr,
    socket: UdpSocket,
}

/// Opens the socket that sends to all receivers that listen, at any free port. It is never read.
pub(crate) fn open_everyone<R: Net>(rt: &R, profile: &Profile) -> Result<Everyone, SocketCause> {
    let address = for_all_at(profile.port);
    let socket = connect_to_all(rt, address_at(0), address)?;
    Ok(Everyone { address, socket })
}

/// Sends a member's datagram from this socket to another that gets a copy. `from` is there for the clause alone.
pub(crate) fn send_copy(
    profile: &Profile,
    socket: &UdpSocket,
    from: NodeId,
    to: NodeId,
    bytes: &[u8],
) -> Result<(), SocketCause>
    requires { gets_copy profile.now from to ≡ true }
    ensures { IfErr result (λ cause. is_sending cause ≡ true) }
{
    send_to(socket, bytes, address_of(profile, to))
}

/// Sends a member's datagram to another that gets a copy of its own, through the socket that is connected to it. `listeners` and `from` are
/// there for the clause alone.
pub(crate) fn send_copy_through(
    profile: &Profile,
    listeners: &Listeners,
    from: NodeId,
    to: &Member,
    bytes: &[u8],
) -> Result<(), SocketCause>
    requires { gets_own_copy profile.now listeners.now.each from to.now.located.node ≡ true }
    ensures { IfErr result (λ cause. is_sending cause ≡ true) }
{
    send(&to.socket, bytes, to.located.address)
}

/// Sends a member's datagram that is broadcast once to all receivers that listen. `profile`, `listeners` and `from` are there for the clause
/// alone.
pub(crate) fn send_to_everyone(
    profile: &Profile,
    listeners: &Listeners,
    from: NodeId,
    all: &Everyone,
    bytes: &[u8],
) -> Result<(), SocketCause>
    requires { is_broadcast profile.now listeners.now.each from ≡ true }
    ensures { IfErr result (λ cause. is_sending cause ≡ true) }
{
    send(&all.socket, bytes, all.address)
}
