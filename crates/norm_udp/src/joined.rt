//! A member alone in a group: its sockets at the broadcast address, what it sends there, and what it takes ([`Joined`]).

ghost use Rattle.std.specs.Prelude.{◌≡◌, ◌==◌, [], true, false, IfOk, IfErr, OnErr, IfSome, IfNone, is_ok};
ghost use Rattle.std.specs.IoError.{raw_os_error};
ghost use Rattle.norm_base.specs.Members.{is_node};
ghost use Rattle.norm_udp.specs.Failures.{is_sending};
ghost use Rattle.udp_rules.specs.Groups.{IsIn, speaks_to, is_of_another};
ghost use Rattle.norm_udp.specs.Joining.{IsListener, HearsOffers, IsJoined, is_sent, looks_then};
ghost use Rattle.udp_rules.specs.Losses.{is_group_loss};

use crate::cause::SocketCause;
use crate::member::{Member, open_own};
use crate::poll::Polled;
use crate::socket::{MOST_PASSED, bind_shared, check_broadcast, receive_from};
use norm_base::{Datagram, NodeId, Profile};
use std::io;
use std::net::{Net, SocketAddr, SocketAddrV4, UdpSocket};
use std::time::Clock;
use udp_rules::{
    Group, GroupNews, Located, Machines, Unsent, is_loss, is_unreachable, moment, other_in,
};

/// At one look in this many a receiver looks first at what other receivers send.
// Our own choice. While the sender's datagrams come faster than they are taken, a receiver would else never hear that another one asked
// for the same, and ask too.
pub(crate) const LOOKS: u32 = 16;

/// A socket that is bound to this broadcast address, beside others.
#[derive(Drop)]
pub(crate) struct Listener {
    pub(crate) address: SocketAddr,
    pub(crate) socket: UdpSocket,
}

/// A member alone in a group. Its own socket holds the member's port at 127.0.0.1, and is neither read nor used to send.
// Held, so that one machine cannot run a number twice.
#[derive(Drop)]
pub(crate) struct Joined {
    pub(crate) member: Member,
    /// What the sender offers. `None` at the sender.
    pub(crate) offers: Option<Listener>,
    /// What receivers send. What the member itself sends leaves here too.
    pub(crate) feedback: Listener,
    pub(crate) to: SocketAddr,
    /// How many looks there are until it looks at `feedback` first.
    looks_left: u32,
    machines: Machines,
    pub(crate) news: GroupNews,
}

/// Returns the port that a member speaks to.
// Two ports: with one, a sender would take its own datagrams back, and find its buffer full when a NACK comes.
pub(crate) fn speaks_to(group: &Group, profile: &Profile, node: NodeId) -> u16
    ensures { result ≡ speaks_to profile.now group.now.port node }
{
    if node.number() == profile.sender {
        group.port
    } else {
        group.port + 1
    }
}

/// Returns the group's address with this port.
pub(crate) fn address_in(group: &Group, port: u16) -> SocketAddr
    ensures { IsIn group.now result port }
{
    SocketAddr::V4(SocketAddrV4::new(group.address, port))
}

/// Opens a socket at the group's address and this port.
fn listen<R: Net>(rt: &R, group: &Group, port: u16) -> Result<Listener, SocketCause>
    ensures { IfOk result (IsListener group.now port) }
{
    let address = address_in(group, port);
    let socket = bind_shared(rt, group.address, port)?;
    Ok(Listener { address, socket })
}

/// Opens the socket that hears what the sender offers. `None` at the sender, which would take its own datagrams back.
fn listen_to_offers<R: Net>(
    rt: &R,
    group: &Group,
    profile: &Profile,
    node: NodeId,
) -> Result<Option<Listener>, SocketCause>
    ensures { IfOk result (λ offers. HearsOffers group.now (node == profile.now.sender) offers) }
{
    if node.number() == profile.sender {
        return Ok(None);
    }
    let offers = listen(rt, group, group.port)?;
    Ok(Some(offers))
}

/// Joins a group as one member. Fails if the address is no broadcast address of this machine, or if a socket cannot be opened.
#[tactic(auto, using(crate::proofs::JoiningLemmas::hears_all))]
pub(crate) fn join<R: Net>(
    rt: &R,
    group: &Group,
    profile: &Profile,
    node: NodeId,
) -> Result<Joined, SocketCause>
    requires { is_node profile.now node ≡ true }
    ensures { IfOk result (IsJoined group.now profile.now node) }
{
    let member = open_own(rt, profile, node)?;
    let to = address_in(group, speaks_to(group, profile, node));
    check_broadcast(rt, to)?;
    let offers = listen_to_offers(rt, group, profile, node)?;
    let feedback = listen(rt, group, group.port + 1)?;
    let hears_at = match &offers {
        Some(offers) => offers.address,
        None => feedback.address,
    };
    let news = GroupNews {
        hears_at,
        second: None,
        unsent: None,
    };
    Ok(Joined {
        member,
        offers,
        feedback,
        to,
        looks_left: LOOKS - 1,
        machines: Machines::new(),
        news,
    })
}

/// Whether an error is a lost datagram in a group.
fn is_group_loss(error: &io::Error) -> bool
    ensures { result ≡ is_group_loss (raw_os_error error.now) }
{
    is_loss(error) || is_unreachable(error)
}

/// Returns the outcome of a send in a group. It is no error if the datagram was lost.
fn sent(done: io::Result<usize>, address: SocketAddr) -> Result<(), SocketCause>
    ensures sent { is_ok result ≡ is_sent done }
    ensures err { IfErr result (λ cause. is_sending cause ≡ true) }
{
    match done {
        Ok(_) => Ok(()),
        Err(error) if is_group_loss(&error) => Ok(()),
        Err(error) => Err(SocketCause::Send { address, error }),
    }
}

/// Returns what cannot be sent after this send. One that is lost for want of room changes nothing.
fn unsent_then(
    unsent: Option<Unsent>,
    done: &io::Result<usize>,
    address: SocketAddr,
) -> Option<Unsent> {
    match done {
        Ok(_) => None,
        Err(error) if is_unreachable(error) => {
            let code = error.raw_os_error()?;
            Some(Unsent { address, code })
        }
        Err(_) => unsent,
    }
}

/// Returns how many looks there are until one begins with what receivers send, after one with this many.
pub(crate) fn looks_then(left: u32) -> u32
    ensures { result ≡ looks_then left }
{
    if left == 0 { LOOKS - 1 } else { left - 1 }
}

/// Whether a member takes what came from this address: a datagram of another member, from a machine that it takes that one from.
fn takes<R: Clock>(
    rt: &R,
    own: &Located,
    machines: &mut Machines,
    address: SocketAddr,
    octets: &[u8],
) -> bool
    ensures { result ≡ true → is_of_another own.now.profile own.now.node octets.now ≡ true }
{
    let Some(from) = other_in(&own.profile, own.node, octets) else {
        return false;
    };
    match address {
        SocketAddr::V4(at) => machines.takes(&own.profile, own.node, from, *at.ip(), moment(rt)),
        SocketAddr::V6(_) => false,
    }
}

/// Returns `Ok` after a receive that failed only because the network cannot be reached, which is a loss in a group.
fn nothing_heard(cause: SocketCause) -> Result<(), SocketCause> {
    match cause {
        SocketCause::Receive { error, address } => {
            if is_unreachable(&error) {
                return Ok(());
            }
            Err(SocketCause::Receive { error, address })
        }
        other => Err(other),
    }
}

/// Receives the next datagram of another member. `false` if [`receive_from`] returns `None`, or after [`MOST_PASSED`] that are passed over.
fn hear<R: Clock>(
    rt: &R,
    own: &Located,
    listener: &Listener,
    machines: &mut Machines,
    buffer: &mut [u8],
    into: &mut Datagram,
) -> Result<bool, SocketCause>
    requires { into.old ≡ [] }
    ensures another { IfOk result (λ found. found ≡ true → is_of_another own.now.profile own.now.node into.new ≡ true) }
    ensures none { IfOk result (λ found. found ≡ false → into.new ≡ []) }
    ensures err { OnErr result (into.new ≡ []) }
{
    for _ in 0..MOST_PASSED {
        let from = match receive_from(&listener.socket, listener.address, buffer, into) {
            Ok(from) => from,
            Err(cause) => {
                nothing_heard(cause)?;
                return Ok(false);
            }
        };
        let Some(address) = from else {
            return Ok(false);
        };
        if takes(rt, own, machines, address, into.bytes()) {
            return Ok(true);
        }
        into.clear();
    }
    Ok(false)
}

/// Looks at both sockets, or at the one of a sender. `is_feedback_first` is whether it begins with what receivers send.
fn look_at<R: Clock>(
    rt: &R,
    own: &Located,
    listeners: (&Option<Listener>, &Listener),
    is_feedback_first: bool,
    machines: &mut Machines,
    buffer: &mut [u8],
    into: &mut Datagram,
) -> Result<bool, SocketCause>
    requires { into.old ≡ [] }
    ensures another { IfOk result (λ found. found ≡ true → is_of_another own.now.profile own.now.node into.new ≡ true) }
    ensures none { IfOk result (λ found. found ≡ false → into.new ≡ []) }
    ensures err { OnErr result (into.new ≡ []) }
{
    let (offers, feedback) = listeners;
    let Some(offers) = offers else {
        return hear(rt, own, feedback, machines, buffer, into);
    };
    let (first, second) = if is_feedback_first {
        (feedback, offers)
    } else {
        (offers, feedback)
    };
    if hear(rt, own, first, machines, buffer, into)? {
        return Ok(true);
    }
    hear(rt, own, second, machines, buffer, into)
}

impl Joined {
    /// Sends a datagram to the group. It is no error if it gets lost.
    pub(crate) fn send(&mut self, bytes: &[u8]) -> Result<(), SocketCause>
        ensures { IfErr result (λ cause. is_sending cause ≡ true) }
    {
        let done = self.feedback.socket.send_to(bytes, self.to);
        self.news.unsent = unsent_then(self.news.unsent, &done, self.to);
        sent(done, self.to)
    }

    /// Adds the sockets that are read.
    // Not the member's own: a stranger's datagram there would end each wait at once, since nobody takes it.
    pub(crate) fn poll(&self, polled: &mut Polled) {
        polled.add(&self.feedback.socket);
        if let Some(offers) = &self.offers {
            polled.add(&offers.socket);
        }
    }

    /// Takes the next datagram of another member, and returns this one. `None` if it found none. One may still be there after
    /// [`MOST_PASSED`] that were passed over.
    pub(crate) fn look<R: Clock>(
        &mut self,
        rt: &R,
        buffer: &mut [u8],
        into: &mut Datagram,
    ) -> Result<Option<Located>, SocketCause>
        requires { into.old ≡ [] }
        ensures another { IfOk result (λ found. IfSome found (λ own. is_of_another own.profile own.node into.new ≡ true)) }
        ensures none { IfOk result (λ found. IfNone found (into.new ≡ [])) }
        ensures err { OnErr result (into.new ≡ []) }
    {
        let own = self.member.located;
        let is_feedback_first = self.looks_left == 0;
        self.looks_left = looks_then(self.looks_left);
        let listeners = (&self.offers, &self.feedback);
        let machines = &mut self.machines;
        let found = look_at(
            rt,
            &own,
            listeners,
            is_feedback_first,
            machines,
            buffer,
            into,
        )?;
        self.news.second = self.machines.second;
        Ok(if found { Some(own) } else { None })
    }
}
