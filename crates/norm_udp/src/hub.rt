//! The hub: its own socket, those to its receivers, and who listens ([`Hub`]).

ghost use Rattle.std.specs.Prelude.{◌≡◌, ◌≤◌, ◌∷◌, [], true, length, IfOk, IfErr, IfSome, IfNone, OnErr};
ghost use Rattle.norm_base.specs.Members.{receivers_of};
ghost use Rattle.norm_base.specs.Sizes.{datagram_room};
ghost use Rattle.norm_udp.specs.Failures.{is_sending};
ghost use Rattle.norm_udp.specs.Ways.{nodes_of, copies};

use crate::cause::SocketCause;
use crate::member::{Member, open_everyone, open_way, send_copy};
use crate::open_fault::OpenFault;
use crate::poll::Polled;
use crate::sending_thread::SendingThread;
use crate::socket::{MOST_PASSED, bind_to_ask, receive_from, send_to};
use crate::way::{Receivers, Way};
use norm_base::{Datagram, NodeId, Profile};
use std::alloc::Global;
use std::net::{Net, SocketAddr, UdpSocket};
use std::sync::Wait;
use std::time::Clock;
use udp_rules::{
    Listening, Located, address_at, for_all_at, gets_copy, heard_from, member_at, moment,
};

/// The hub reads the clock on every look of this many.
// Our own choice. Under load so many looks take less than a millisecond, and at rest some seventy, so that a question is asked in time.
const LOOKS: u32 = 64;

/// A hub's own socket, at the profile's port, and its sockets to receivers. It asks who listens, and neither a question nor an answer
/// leaves it.
#[derive(Drop)]
pub(crate) struct Hub {
    profile: Profile,
    address: SocketAddr,
    socket: UdpSocket,
    /// `None` if a thread has them.
    receivers: Option<Receivers>,
    listening: Listening,
    /// How many looks there are until it reads the clock.
    looks_left: u32,
}

/// Opens a socket to each receiver.
#[tactic(auto, using(crate::proofs::WayLemmas::receivers_more))]
fn open_each<R: Net>(rt: &R, alloc: Global, profile: &Profile) -> Result<Vec<Member>, OpenFault>
    ensures { IfOk result (λ each. nodes_of each.items ≡ receivers_of profile.now profile.now.receivers) }
{
    let mut each = Vec::new(alloc);
    for place in 0..u32::from(profile.receivers) {
        let way = open_way(rt, profile, profile.receiver(place))?;
        each.push(way)?;
    }
    Ok(each)
}

/// Opens the sockets to the receivers.
fn open_receivers<R: Net>(
    rt: &R,
    alloc: Global,
    profile: &Profile,
) -> Result<Receivers, OpenFault> {
    let each = open_each(rt, alloc, profile)?;
    let all = open_everyone(rt, profile)?;
    Ok(Receivers {
        profile: *profile,
        each,
        all,
    })
}

/// Has the thread send to the receivers, if there is one. Returns the sockets if there is none. `Memory` if its lane stays full.
fn hand_over<R: Wait + Clock>(
    rt: &R,
    thread: &SendingThread,
    receivers: Receivers,
) -> Result<Option<Receivers>, OpenFault> {
    if !thread.is_there() {
        return Ok(Some(receivers));
    }
    if thread.tell(rt, Way::Receivers(receivers)) {
        return Ok(None);
    }
    // The lane had no free slot for some ten milliseconds, so its thread does not know where to send. `Memory`, since a lane is room for
    // datagrams.
    Err(OpenFault::Memory)
}

/// Opens a hub's sockets. Those to receivers go to the thread, if there is one.
pub(crate) fn open_hub<R: Net + Wait + Clock>(
    rt: &R,
    alloc: Global,
    thread: &SendingThread,
    profile: &Profile,
) -> Result<Hub, OpenFault> {
    let address = address_at(profile.port);
    let socket = bind_to_ask(rt, address)?;
    let receivers = hand_over(rt, thread, open_receivers(rt, alloc, profile)?)?;
    Ok(Hub {
        profile: *profile,
        address,
        socket,
        receivers,
        listening: Listening::new(),
        looks_left: 0,
    })
}

/// Sends a receiver's datagram from the hub to the sender, and nothing if it is the sender's own or no member's.
fn send_back(
    profile: &Profile,
    hub: &UdpSocket,
    from: NodeId,
    bytes: &[u8],
) -> Result<usize, SocketCause>
    ensures sent { IfOk result (λ sent. sent ≡ copies profile.now from (profile.now.sender ∷ [])) }
    ensures err { IfErr result (λ cause. is_sending cause ≡ true) }
{
    let sender = member_at(profile, 0);
    if !gets_copy(profile, from, sender) {
        return Ok(0);
    }
    send_copy(profile, hub, from, sender, bytes)?;
    Ok(1)
}

/// Receives the next datagram of a member at the hub. An empty one is an answer, which is noted. `None` if [`receive_from`] returns it, or
/// after [`MOST_PASSED`] answers and datagrams from addresses of no member.
fn receive_from_member(
    profile: &Profile,
    socket: &UdpSocket,
    own: SocketAddr,
    listening: &mut Listening,
    buffer: &mut [u8],
    into: &mut Datagram,
) -> Result<Option<Located>, SocketCause>
    requires { into.old ≡ [] }
    ensures from { IfOk result (λ found. IfSome found (λ from. from.profile ≡ profile.now)) }
    ensures none { IfOk result (λ found. IfNone found (into.new ≡ [])) }
    ensures err { OnErr result (into.new ≡ []) }
{
    for _ in 0..MOST_PASSED {
        let Some(address) = receive_from(socket, own, buffer, into)? else {
            return Ok(None);
        };
        if let Some(from) = heard_from(profile, address) {
            if !into.bytes().is_empty() {
                return Ok(Some(from));
            }
            listening.note_answer(profile, from.node);
        }
        into.clear();
    }
    Ok(None)
}

impl Hub {
    /// Sends a member's datagram to the other members. If a thread sends it to receivers, a failure does not show here, and a lane that
    /// stays full loses it.
    pub(crate) fn send<R: Wait + Clock>(
        &self,
        rt: &R,
        thread: &SendingThread,
        from: NodeId,
        bytes: &[u8],
    ) -> Result<(), SocketCause>
        requires { length bytes.now ≤ datagram_room }
        ensures { IfErr result (λ cause. is_sending cause ≡ true) }
    {
        let listeners = self.listening.listeners();
        match &self.receivers {
            Some(receivers) => {
                receivers.send(&listeners, from, bytes)?;
            }
            None => thread.post(rt, from, listeners, bytes),
        }
        send_back(&self.profile, &self.socket, from, bytes)?;
        Ok(())
    }

    /// Reads the clock at one look of [`LOOKS`], and asks who listens if that is due.
    fn ask_in_time<R: Clock>(&mut self, rt: &R) -> Result<(), SocketCause> {
        if self.looks_left > 0 {
            self.looks_left -= 1;
            return Ok(());
        }
        self.looks_left = LOOKS - 1;
        if self.listening.look_at(&self.profile, moment(rt)) {
            send_to(&self.socket, &[], for_all_at(self.profile.port))?;
        }
        Ok(())
    }

    /// Adds the socket that is read.
    pub(crate) fn poll(&self, polled: &mut Polled) {
        polled.add(&self.socket);
    }

    /// Takes the next datagram, and returns the member that sent it.
    pub(crate) fn look<R: Clock>(
        &mut self,
        rt: &R,
        buffer: &mut [u8],
        into: &mut Datagram,
    ) -> Result<Option<Located>, SocketCause>
        requires { into.old ≡ [] }
        ensures none { IfOk result (λ found. IfNone found (into.new ≡ [])) }
        ensures err { OnErr result (into.new ≡ []) }
    {
        self.ask_in_time(rt)?;
        receive_from_member(
            &self.profile,
            &self.socket,
            self.address,
            &mut self.listening,
            buffer,
            into,
        )
    }
}
