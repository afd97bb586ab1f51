//! A member alone that offers to a hub: its sockets, and what a receiver answers the hub ([`Alone`]).

ghost use Rattle.std.specs.Prelude.{◌≡◌, ◌≤◌, [], true, false, length, IfOk, IfErr, IfNone, OnErr};
ghost use Rattle.norm_base.specs.Members.{is_node};
ghost use Rattle.norm_base.specs.Sizes.{datagram_room};
ghost use Rattle.norm_udp.specs.Failures.{is_sending};
ghost use Rattle.norm_udp.specs.Joining.{HearsAll, IsUplink};

use crate::cause::SocketCause;
use crate::joined::{LOOKS, Listener, looks_then};
use crate::member::{Member, open_own};
use crate::open_fault::OpenFault;
use crate::poll::Polled;
use crate::refusals::Refusals;
use crate::sending_thread::SendingThread;
use crate::socket::{MOST_PASSED, bind_shared, connect_up, receive, send_to, send_up};
use crate::way::Way;
use norm_base::{Datagram, NodeId, Profile};
use std::alloc::Global;
use std::net::{Net, SocketAddr};
use std::sync::Wait;
use std::time::Clock;
use udp_rules::{Answering, Listeners, Located, address_at, everyone_here, for_all_at, moment};

/// A member alone that offers to a hub. What comes for it comes to its own socket, and at a receiver that listens also to the address where
/// the hub sends to all.
#[derive(Drop)]
pub(crate) struct Alone {
    member: Member,
    hub: SocketAddr,
    /// Whether its socket is connected to the hub, and hears it alone.
    pub(crate) is_connected: bool,
    pub(crate) refused: Refusals,
    /// Whether a thread sends for it.
    by_thread: bool,
    /// `None` at a sender, and if the socket cannot be had: then the hub gets no answer, and sends copies.
    all: Option<Listener>,
    answering: Answering,
    /// How many looks there are until it looks at its own socket first.
    looks_left: u32,
}

/// Has the thread send for a sender alone, if there is one. Returns whether it does.
fn hand_over<R: Wait + Clock>(
    rt: &R,
    thread: &SendingThread,
    member: &Member,
    hub: SocketAddr,
    is_connected: bool,
    refused: &Refusals,
) -> bool {
    if !thread.is_there() {
        return false;
    }
    // Without a second handle of the socket, or of the count, the node sends by itself.
    let Ok(socket) = member.socket.try_clone() else {
        return false;
    };
    let Ok(refused) = refused.shared() else {
        return false;
    };
    let way = Way::Hub {
        socket,
        hub,
        is_connected,
        refused,
    };
    thread.tell(rt, way)
}

/// Opens the socket of a receiver at the address where the hub sends to all. `None` at a sender, and if the system refuses it.
fn listen<R: Net>(rt: &R, profile: &Profile, node: NodeId) -> Option<Listener>
    ensures { HearsAll profile.now node result }
{
    if !profile.is_receiver(node) {
        return None;
    }
    // Another user who bound there first keeps it. The hub then gets no answer, and nothing is sent there but questions.
    match bind_shared(rt, everyone_here(), profile.port) {
        Ok(socket) => Some(Listener {
            address: for_all_at(profile.port),
            socket,
        }),
        Err(_) => None,
    }
}

/// Opens the sockets of a member alone. That of a sender is connected to the hub, unless the system refuses it.
pub(crate) fn open_alone<R: Net + Wait + Clock>(
    rt: &R,
    alloc: Global,
    thread: &SendingThread,
    profile: &Profile,
    node: NodeId,
) -> Result<Alone, OpenFault>
    requires { is_node profile.now node ≡ true }
    ensures { IfOk result (λ alone. IsUplink profile.now node alone.is_connected) }
{
    let hub = address_at(profile.port);
    let refused = Refusals::new(alloc)?;
    let member = open_own(rt, profile, node)?;
    let is_sender = node.number() == profile.sender;
    let is_connected = connect_up(&member.socket, is_sender, hub);
    let by_thread = is_sender && hand_over(rt, thread, &member, hub, is_connected, &refused);
    Ok(Alone {
        member,
        hub,
        is_connected,
        refused,
        by_thread,
        all: listen(rt, profile, node),
        answering: Answering::new(),
        looks_left: LOOKS - 1,
    })
}

/// Receives the next datagram that the hub sent to all. An empty one is a question, which is answered. `false` if [`receive`] returns it, or
/// after [`MOST_PASSED`] questions.
fn hear_all<R: Clock>(
    rt: &R,
    member: &Member,
    hub: SocketAddr,
    all: &Listener,
    answering: &mut Answering,
    buffer: &mut [u8],
    into: &mut Datagram,
) -> Result<bool, SocketCause>
    requires { into.old ≡ [] }
    ensures none { IfOk result (λ found. found ≡ false → into.new ≡ []) }
    ensures err { OnErr result (into.new ≡ []) }
{
    for _ in 0..MOST_PASSED {
        if !receive(&all.socket, all.address, None, buffer, into)? {
            return Ok(false);
        }
        if !into.bytes().is_empty() {
            return Ok(true);
        }
        into.clear();
        // From its own port, which says who answers, and to the hub, whoever asked.
        if answering.answers(moment(rt)) {
            send_to(&member.socket, &[], hub)?;
        }
    }
    Ok(false)
}

impl Alone {
    /// Sends a datagram to the hub. If a thread sends it, a failure does not show here, and a lane that stays full loses it.
    pub(crate) fn send<R: Wait + Clock>(
        &self,
        rt: &R,
        thread: &SendingThread,
        from: NodeId,
        bytes: &[u8],
    ) -> Result<(), SocketCause>
        requires { length bytes.now ≤ datagram_room }
        ensures { IfErr result (λ cause. is_sending cause ≡ true) }
    {
        if !self.by_thread {
            let socket = &self.member.socket;
            return send_up(socket, bytes, self.hub, self.is_connected, &self.refused);
        }
        thread.post(rt, from, Listeners::none(), bytes);
        Ok(())
    }

    /// Receives the next datagram for the member. `is_own_first` is whether it begins with the member's own socket.
    fn hear<R: Clock>(
        &mut self,
        rt: &R,
        is_own_first: bool,
        buffer: &mut [u8],
        into: &mut Datagram,
    ) -> Result<bool, SocketCause>
        requires { into.old ≡ [] }
        ensures none { IfOk result (λ found. found ≡ false → into.new ≡ []) }
        ensures err { OnErr result (into.new ≡ []) }
    {
        let own = self.member.located.address;
        let refused = Some(&self.refused);
        let Some(all) = &self.all else {
            return receive(&self.member.socket, own, refused, buffer, into);
        };
        if is_own_first && receive(&self.member.socket, own, refused, buffer, into)? {
            return Ok(true);
        }
        let answering = &mut self.answering;
        if hear_all(rt, &self.member, self.hub, all, answering, buffer, into)? {
            return Ok(true);
        }
        if is_own_first {
            return Ok(false);
        }
        receive(&self.member.socket, own, refused, buffer, into)
    }

    /// Adds the sockets that are read.
    pub(crate) fn poll(&self, polled: &mut Polled) {
        polled.add(&self.member.socket);
        if let Some(all) = &self.all {
            polled.add(&all.socket);
        }
    }

    /// Takes the next datagram, and returns the member itself.
    pub(crate) fn look<R: Clock>(
        &mut self,
        rt: &R,
        buffer: &mut [u8],
        into: &mut Datagram,
    ) -> Result<Option<Located>, SocketCause>
        requires { into.old ≡ [] }
        ensures none { IfOk result (λ found. IfNone found (into.new ≡ [])) }
        ensures err { OnErr result (into.new ≡ []) }
    {
        let is_own_first = self.looks_left == 0;
        self.looks_left = looks_then(self.looks_left);
        if self.hear(rt, is_own_first, buffer, into)? {
            return Ok(Some(self.member.located));
        }
        Ok(None)
    }
}
