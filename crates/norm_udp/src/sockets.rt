//! The sockets of a session: [`Open`]. Which there are depends on the members in this process.

ghost use Rattle.std.specs.Prelude.{◌≡◌, ◌≤◌, ◌+◌, ◌<◌, ◌∷◌, [], true, length, IfOk, IfErr, IfNone, OnErr};
ghost use Rattle.norm_base.specs.Members.{receivers_of, members_of};
ghost use Rattle.norm_base.specs.Sizes.{datagram_room};
ghost use Rattle.norm_udp.specs.Failures.{is_sending};
ghost use Rattle.norm_udp.specs.Ways.{nodes_of, copies};

use crate::alone::{Alone, open_alone};
use crate::cause::SocketCause;
use crate::hub::{Hub, open_hub};
use crate::joined::{Joined, join};
use crate::member::{Member, open_own, send_copy};
use crate::open_fault::OpenFault;
use crate::poll::{Polled, Woken};
use crate::sending_thread::SendingThread;
use crate::socket::receive;
use norm_base::{Datagram, Local, NodeId, Profile};
use std::alloc::Global;
use std::io::{self, ErrorKind};
use std::net::Net;
use std::sync::Wait;
use std::time::Clock;
use udp_rules::{Asked, Group, GroupNews, Located, address_at, gets_copy, is_node, member_at};

/// The open sockets of the members in this process, or of the hub. [`look`](Open::look) does not wait. [`send`](Open::send) waits some ten
/// milliseconds for a lane that stays full.
#[derive(Drop)]
pub(crate) enum Open {
    /// None: no session was started, the last start failed, or the session was closed.
    Nothing,
    /// Each member's own, the sender's first. `place` is the index of the one with which a look begins.
    All {
        profile: Profile,
        members: Vec<Member>,
        place: usize,
    },
    /// One member's, which offers to the hub.
    One(Alone),
    /// One member's, in a group without a hub.
    Group(Joined),
    /// The hub's own, and those to its receivers.
    Hub(Hub),
}

/// Opens each member's own socket, the sender's first.
#[tactic(auto, using(crate::proofs::WayLemmas::members_more))]
fn open_members<R: Net>(rt: &R, alloc: Global, profile: &Profile) -> Result<Vec<Member>, OpenFault>
    ensures { IfOk result (λ members. nodes_of members.items ≡ members_of profile.now) }
{
    let mut members = Vec::new(alloc);
    members.push(open_own(rt, profile, member_at(profile, 0))?)?;
    for place in 0..u32::from(profile.receivers) {
        let member = open_own(rt, profile, profile.receiver(place))?;
        members.push(member)?;
    }
    Ok(members)
}

fn open_all<R: Net>(rt: &R, alloc: Global, profile: &Profile) -> Result<Open, OpenFault> {
    let members = open_members(rt, alloc, profile)?;
    Ok(Open::All {
        profile: *profile,
        members,
        place: 0,
    })
}

/// Opens one member's sockets: those of a group if one is asked for, else one that sends to the hub. Fails if the node is no member of the
/// profile.
fn open_one<R: Net + Wait + Clock>(
    rt: &R,
    alloc: Global,
    thread: &SendingThread,
    asked: &Option<Asked>,
    profile: &Profile,
    node: NodeId,
) -> Result<Open, OpenFault> {
    let hub = address_at(profile.port);
    if !is_node(profile, node) {
        return Err(OpenFault::Socket(SocketCause::Bind {
            address: hub,
            error: io::Error::from(ErrorKind::AddrNotAvailable),
        }));
    }
    if let Some(asked) = asked {
        let joined = join(rt, &Group::of(asked, profile), profile, node)?;
        return Ok(Open::Group(joined));
    }
    let alone = open_alone(rt, alloc, thread, profile, node)?;
    Ok(Open::One(alone))
}

/// Opens the sockets, and tells the thread of a hub or a sender alone to whom it sends. If this fails, it may have been told already. `asked` is the group that a member alone joins, if one is asked for.
pub(crate) fn open_for<R: Net + Wait + Clock>(
    rt: &R,
    alloc: Global,
    thread: &SendingThread,
    asked: &Option<Asked>,
    profile: &Profile,
    local: Local,
) -> Result<Open, OpenFault> {
    match local {
        Local::All => open_all(rt, alloc, profile),
        Local::One(node) => open_one(rt, alloc, thread, asked, profile, node),
        Local::Hub => {
            let hub = open_hub(rt, alloc, thread, profile)?;
            Ok(Open::Hub(hub))
        }
    }
}

/// Sends a member's datagram from its own socket to each other member, and stops at the first failure. A lost copy counts as sent.
#[tactic(auto, using(crate::proofs::WayLemmas::copies_yes, crate::proofs::WayLemmas::copies_no))]
fn send_from(
    profile: &Profile,
    members: &[Member],
    own: &Member,
    bytes: &[u8],
) -> Result<usize, SocketCause>
    ensures sent { IfOk result (λ sent. sent ≡ copies profile.now own.now.located.node (nodes_of members.now)) }
    ensures err { IfErr result (λ cause. is_sending cause ≡ true) }
{
    let from = own.located.node;
    let mut sent = 0;
    for to in members {
        if gets_copy(profile, from, to.located.node) {
            send_copy(profile, &own.socket, from, to.located.node, bytes)?;
            sent += 1;
        }
    }
    Ok(sent)
}

/// Sends a member's datagram to each other member. Sends nothing if `from` is none of them.
fn send_among(
    profile: &Profile,
    members: &[Member],
    from: NodeId,
    bytes: &[u8],
) -> Result<(), SocketCause>
    ensures { IfErr result (λ cause. is_sending cause ≡ true) }
{
    for own in members {
        if own.located.node == from {
            send_from(profile, members, own, bytes)?;
        }
    }
    Ok(())
}

/// Looks at each member's socket once, from index `place` on, until one has a datagram. The next look begins there.
fn look_among(
    members: &[Member],
    place: &mut usize,
    buffer: &mut [u8],
    into: &mut Datagram,
) -> Result<Option<Located>, SocketCause>
    requires { into.old ≡ [] }
    ensures none { IfOk result (λ found. IfNone found (into.new ≡ [])) }
    ensures err { OnErr result (into.new ≡ []) }
{
    for _ in 0..members.len() {
        if let Some(member) = members.get(*place) {
            if receive(&member.socket, member.located.address, None, buffer, into)? {
                return Ok(Some(member.located));
            }
        }
        // It goes on only from a member at which `receive` found none. So a datagram mostly costs one call of the system while others
        // wait there.
        let next = place.saturating_add(1);
        *place = if next < members.len() { next } else { 0 };
    }
    Ok(None)
}

impl Open {
    /// Sends a member's datagram to the other members; from a member alone, to its group or the hub. It goes nowhere if nothing is open. If
    /// a thread sends it, a failure does not show here, and a lane that stays full loses it.
    pub(crate) fn send<R: Wait + Clock>(
        &mut self,
        rt: &R,
        thread: &SendingThread,
        from: NodeId,
        bytes: &[u8],
    ) -> Result<(), SocketCause>
        requires { length bytes.now ≤ datagram_room }
        ensures { IfErr result (λ cause. is_sending cause ≡ true) }
    {
        match self {
            Open::Nothing => Ok(()),
            Open::All {
                profile,
                members,
                ..
            } => send_among(profile, members, from, bytes),
            Open::One(alone) => alone.send(rt, thread, from, bytes),
            Open::Group(joined) => joined.send(bytes),
            Open::Hub(hub) => hub.send(rt, thread, from, bytes),
        }
    }

    /// Takes the next datagram, and returns the member that it is for; at the hub, the one that sent it. `None` if it found none. One may
    /// still be there after a loss that the system reports, or [`MOST_PASSED`] that are too long or, at the hub and in a group, of no
    /// member.
    pub(crate) fn look<R: Clock>(
        &mut self,
        rt: &R,
        buffer: &mut [u8],
        into: &mut Datagram,
    ) -> Result<Option<Located>, SocketCause>
        requires { into.old ≡ [] }
        ensures none { IfOk result (λ found. IfNone found (into.new ≡ [])) }
        ensures err { OnErr result (into.new ≡ []) }
    {
        match self {
            Open::Nothing => Ok(None),
            Open::All { members, place, .. } => look_among(members, place, buffer, into),
            Open::One(alone) => alone.look(rt, buffer, into),
            Open::Group(joined) => joined.look(rt, buffer, into),
            Open::Hub(hub) => hub.look(rt, buffer, into),
        }
    }

    /// Waits until one of the sockets that are read has a datagram, for a millisecond at most.
    pub(crate) fn wait(&self) -> Woken {
        let mut polled = Polled::new();
        match self {
            Open::Nothing => {}
            Open::All { members, .. } => {
                for member in members {
                    polled.add(&member.socket);
                }
            }
            Open::One(alone) => alone.poll(&mut polled),
            Open::Group(joined) => joined.poll(&mut polled),
            Open::Hub(hub) => hub.poll(&mut polled),
        }
        polled.wait()
    }

    /// Returns how often it was said to a sender alone that no hub is there.
    pub(crate) fn refused(&self) -> u64 {
        match self {
            Open::One(alone) => alone.refused.count(),
            Open::Nothing | Open::All { .. } | Open::Group(_) | Open::Hub(_) => 0,
        }
    }

    /// Returns what a member in a group reports.
    pub(crate) fn group_news(&self) -> Option<GroupNews> {
        match self {
            Open::Group(joined) => Some(joined.news),
            Open::Nothing | Open::All { .. } | Open::One(_) | Open::Hub(_) => None,
        }
    }
}
