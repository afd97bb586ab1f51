//! The way of what is sent for a node ([`Way`]), and a hub's sockets to its receivers ([`Receivers`]).

ghost use Rattle.std.specs.Prelude.{◌≡◌, true, IfOk, IfErr};
ghost use Rattle.std.proofs.Props.{props};
ghost use Rattle.norm_base.specs.Members.{receivers_of};
ghost use Rattle.norm_udp.specs.Failures.{is_sending};
ghost use Rattle.norm_udp.specs.Ways.{nodes_of, own_copies, Goes};
ghost use Rattle.udp_rules.specs.Listening.{is_broadcast};

use crate::cause::SocketCause;
use crate::member::{Everyone, Member, send_copy_through, send_to_everyone};
use crate::refusals::Refusals;
use crate::socket::send_up;
use norm_base::{NodeId, Profile};
use std::net::{SocketAddr, UdpSocket};
use udp_rules::{Listeners, gets_own_copy, is_broadcast};

/// A hub's sockets to its receivers: one to each, and one to all that listen.
#[derive(Drop)]
pub(crate) struct Receivers {
    pub(crate) profile: Profile,
    pub(crate) each: Vec<Member>,
    pub(crate) all: Everyone,
    ghost whole: { nodes_of each.items ≡ receivers_of profile profile.receivers } by { Prim.hlevel props },
}

/// What became of a member's datagram at a hub.
#[derive(Clone, Copy)]
pub(crate) struct Sent {
    /// Whether it was sent once to all that listen.
    pub(crate) to_all: bool,
    /// How many copies were sent.
    pub(crate) copies: usize,
}

/// To whom a node sends, or the thread that does so for it until it is told another way.
#[derive(Drop)]
pub(crate) enum Way {
    /// Nowhere: the thread was told no way yet, or the session was closed.
    Nowhere,
    /// To a hub's receivers.
    Receivers(Receivers),
    /// From a sender's socket to the hub.
    Hub {
        socket: UdpSocket,
        hub: SocketAddr,
        is_connected: bool,
        refused: Refusals,
    },
}

/// Sends a member's datagram to each of these receivers that gets a copy of its own, and stops at the first failure. A lost copy counts as
/// sent.
#[tactic(auto, using(crate::proofs::WayLemmas::own_yes, crate::proofs::WayLemmas::own_no))]
fn send_copies(
    profile: &Profile,
    receivers: &[Member],
    listeners: &Listeners,
    from: NodeId,
    bytes: &[u8],
) -> Result<usize, SocketCause>
    ensures sent { IfOk result (λ sent. sent ≡ own_copies profile.now listeners.now.each from (nodes_of receivers.now)) }
    ensures err { IfErr result (λ cause. is_sending cause ≡ true) }
{
    let mut sent = 0;
    for to in receivers {
        if gets_own_copy(profile, listeners, from, to.located.node) {
            send_copy_through(profile, listeners, from, to, bytes)?;
            sent += 1;
        }
    }
    Ok(sent)
}

/// Sends a member's datagram once to all receivers that listen, if it is broadcast. Returns whether it is.
fn send_once(
    profile: &Profile,
    all: &Everyone,
    listeners: &Listeners,
    from: NodeId,
    bytes: &[u8],
) -> Result<bool, SocketCause>
    ensures sent { IfOk result (λ sent. sent ≡ is_broadcast profile.now listeners.now.each from) }
    ensures err { IfErr result (λ cause. is_sending cause ≡ true) }
{
    if !is_broadcast(profile, listeners, from) {
        return Ok(false);
    }
    send_to_everyone(profile, listeners, from, all, bytes)?;
    Ok(true)
}

impl Receivers {
    /// Sends a member's datagram, and stops at the first failure.
    pub(crate) fn send(
        &self,
        listeners: &Listeners,
        from: NodeId,
        bytes: &[u8],
    ) -> Result<Sent, SocketCause>
        ensures sent { IfOk result (Goes self.now.profile listeners.now.each from) }
        ensures err { IfErr result (λ cause. is_sending cause ≡ true) }
    {
        let to_all = send_once(&self.profile, &self.all, listeners, from, bytes)?;
        let copies = send_copies(&self.profile, &self.each, listeners, from, bytes)?;
        Ok(Sent { to_all, copies })
    }
}

impl Way {
    /// Sends a member's datagram to the way's hub, or as [`Receivers::send`] does.
    pub(crate) fn send(
        &self,
        from: NodeId,
        listeners: &Listeners,
        bytes: &[u8],
    ) -> Result<(), SocketCause>
        ensures { IfErr result (λ cause. is_sending cause ≡ true) }
    {
        match self {
            Way::Nowhere => Ok(()),
            Way::Receivers(receivers) => {
                receivers.send(listeners, from, bytes)?;
                Ok(())
            }
            Way::Hub {
                socket,
                hub,
                is_connected,
                refused,
            } => send_up(socket, bytes, *hub, *is_connected, refused),
        }
    }
}
