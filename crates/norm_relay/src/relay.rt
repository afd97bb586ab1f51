//! [`Relay`], which callers drive, and why it refuses.

ghost use Rattle.std.specs.Prelude.{◌≡◌, ◌≢◌, ⊤, true, Err, IfOk, IfErr};
ghost use Rattle.norm_base.specs.Members.{is_node};
ghost use Rattle.norm_relay.specs.RelayKept.{StandsFor, waits};
ghost use Rattle.norm_relay.specs.RelayMoves.{IsCall, IsRefusal, IsSent, outcome, counted, struck};
ghost use Rattle.norm_relay.specs.SaysHanded.{SaysHanded};
ghost use Rattle.norm_relay.specs.RelayState.{Relaying, can_relay, relay_opening, same_sizes, is_hold, share_nobody, untold, upper_instance};
ghost use Rattle.norm_relay.specs.RelayStep.{UpDelivered, DownDelivered, PumpAsked, UpTicked, DownTicked, DownNews, DownStruck, Took, Counted, Other};
ghost use Rattle.norm_relay.specs.declared.relay.RelayFault.TheVariants as fault;
ghost use Rattle.norm_safety.specs.Events.{Gave, Told};

use crate::delivering::{hear, take_all};
use crate::pumping::Lower;
use crate::ticking::{Held, tick, write};
use crate::waiting::Waiting;
use norm_base::{Datagram, InstanceId, Memory, Mode, Moment, NodeId, Profile, Sent};
use norm_receiver::Receiver;
use norm_send_rules::{News, SendFault};
use norm_sender::Sender;
use std::alloc::Global;
use std::collections::VecDeque;
use std::marker::Model;

/// Why a relay is not made, or what it was asked for is not done.
#[derive(Clone, Copy, Debug)]
pub enum RelayFault {
    /// The two sessions cannot be relayed at the node. Only [`Relay::new`] returns it.
    Profiles,
    /// The session below refused a job for good. After this of [`Relay::pump`], each later pump refuses it again.
    Refused(SendFault),
    /// Memory ran out.
    Memory,
}

impl From<Memory> for RelayFault {
    ghost from_gives = { λ e r. r ≡ fault.Memory };

    fn from(_memory: Memory) -> RelayFault {
        RelayFault::Memory
    }
}

/// A relay between two sessions, without I/O (RFC 5740 section 5): a receiver of the one above, and the sender of the one below. It sends on what
/// it receives, and confirms above only what every member below has confirmed.
///
/// At each moment:
/// 1. [`deliver_up`](Relay::deliver_up) each datagram that arrived from above, and [`deliver_down`](Relay::deliver_down) each from below. Any octets
///    are allowed.
/// 2. [`tick_up`](Relay::tick_up) writes the datagram to send above, if there is one.
/// 3. [`pump`](Relay::pump).
/// 4. [`tick_down`](Relay::tick_down) writes the datagram to send below, if there is one.
///
/// Call [`news`](Relay::news) until it returns `None` after each `deliver_down`, `pump`, `strike` and `tick_down`. [`strike`](Relay::strike) may come
/// between any two calls. After `Memory` of `deliver_up`, `pump` or `strike`, no other call may come. The other calls take no memory.
///
/// What calls cost: what the same calls of [`Receiver`] and [`Sender`] cost. In `pump` that is a command for each hand-up that is enqueued, and one for a
/// restart and a mark. Octets that are handed up are moved, and copied only by the sender. `tick_up` also visits the members below.
// After `Memory` a hand-up may be missing, so nothing is promised then. Otherwise it stands for some state of the rules.
#[derive(Debug, Drop)]
pub struct Relay {
    receiver: Receiver,
    lower: Lower,
    waiting: VecDeque<Waiting>,
    held: Held,
}

impl Model for Relay {
    ghost use Rattle.std.specs.Prelude.{◌≡◌, None};
    ghost use Rattle.norm_relay.specs.RelayKept.{RelayKept, IsReady};

    ghost Value = { RelayKept };

    ghost view = { λ r. record { receiver = r.receiver; lower = r.lower; waiting = r.waiting.items; held = r.held } };

    ghost invariant = { λ r. IsReady r.lower };
}

fn sender_of(profile: &Profile) -> NodeId
    ensures { result ≡ profile.now.sender }
{
    NodeId::of(profile.sender).unwrap()
}

fn is_node(profile: &Profile, node: NodeId) -> bool
    ensures { result ≡ is_node profile.now node }
{
    if node.number() == profile.sender {
        return true;
    }
    profile.is_receiver(node)
}

fn same_sizes(up: &Profile, down: &Profile) -> bool
    ensures { result ≡ same_sizes up.now down.now }
{
    up.e == down.e && up.b == down.b && up.blocks == down.blocks && up.octets == down.octets
}

fn is_hold(mode: Mode) -> bool
    ensures { result ≡ is_hold mode }
{
    match mode {
        Mode::Hold => true,
        Mode::Drop => false,
    }
}

fn share_nobody(up: &Profile, down: &Profile) -> bool
    ensures { result ≡ share_nobody up.now down.now }
{
    if is_node(down, sender_of(up)) {
        return false;
    }
    for i in 0..u32::from(up.receivers) {
        if is_node(down, up.receiver(i)) {
            return false;
        }
    }
    true
}

/// Whether two sessions can be relayed at a node.
fn can_relay(up: &Profile, node: NodeId, down: &Profile) -> bool
    ensures { result ≡ can_relay up.now node down.now }
{
    if !same_sizes(up, down) {
        return false;
    }
    if !is_hold(down.mode) {
        return false;
    }
    if !up.is_receiver(node) {
        return false;
    }
    share_nobody(up, down)
}

fn outcome(told: Result<Result<u32, SendFault>, Memory>) -> Result<u32, RelayFault>
    ensures { result ≡ outcome told }
{
    match told {
        Ok(told) => match told {
            Ok(count) => Ok(count),
            Err(fault) => Err(RelayFault::Refused(fault)),
        },
        Err(_) => Err(RelayFault::Memory),
    }
}

fn strike_outcome(told: Result<Result<(), SendFault>, Memory>) -> Result<(), RelayFault>
    ensures { result ≡ outcome told }
{
    match told {
        Ok(told) => match told {
            Ok(()) => Ok(()),
            Err(fault) => Err(RelayFault::Refused(fault)),
        },
        Err(_) => Err(RelayFault::Memory),
    }
}

impl Relay {
    /// Creates a relay that is the receiver `node` of the session `up`, in no instance yet, and the sender of `down`, with nothing enqueued. What fits
    /// above has to fit below: both have the same `e`, `b`, `blocks` and `octets`. The mode below is `hold`, so nothing is dropped that was not
    /// confirmed. No id may be a member of both sessions, since a datagram does not say which session it belongs to.
    ///
    /// # Errors
    ///
    /// `Profiles` if the sessions are no such two, or `node` is no receiver of `up`. `Memory` if memory runs out.
    pub fn new(
        alloc: Global,
        up: &Profile,
        node: NodeId,
        down: &Profile,
    ) -> Result<Relay, RelayFault>
        ensures stands { IfOk result (λ relay. StandsFor relay (relay_opening up.now node down.now)) }
        ensures fits { IfOk result (λ _. can_relay up.now node down.now ≡ true) }
        ensures fault { IfErr result (λ why. IsRefusal why (can_relay up.now node down.now)) }
    {
        if !can_relay(up, node, down) {
            return Err(RelayFault::Profiles);
        }
        let receiver = Receiver::new(alloc, up, node)?;
        let sender = Sender::new(alloc, down, InstanceId(down.instance))?;
        Ok(Relay {
            receiver,
            lower: Lower {
                sender,
                opened: false,
                jobs: 0,
            },
            waiting: VecDeque::new(alloc),
            held: Held::nothing(),
        })
    }

    /// Delivers a datagram from above, unless a hand-up waits: then it returns `false`, nothing changes, and above the datagram counts as lost. If a
    /// back-off begins, `draw` decides how long it lasts; the draw is not used if the result is `false`.
    ///
    /// # Errors
    ///
    /// `Memory` if memory runs out.
    pub fn deliver_up(&mut self, bytes: &[u8], now: Moment, draw: u32) -> Result<bool, RelayFault>
        ensures call { IfOk result (λ taken. IsCall self.old self.new (UpDelivered bytes.now now draw) (λ answer. answer ≡ Took taken)) }
        ensures memory { IfErr result (λ why. why ≡ fault.Memory) }
    {
        if !self.waiting.is_empty() {
            return Ok(false);
        }
        hear(&mut self.receiver, &mut self.held, bytes, now, draw)?;
        take_all(&mut self.receiver, &mut self.waiting)?;
        Ok(true)
    }

    /// Enqueues below what waits, in order, for as long as the session below has room, and returns how many jobs that were. If the session above
    /// began anew, the one below does first, under the next id. If no watermark is open below, one is made if there is no room, or for an
    /// acknowledgement that is held back.
    ///
    /// # Errors
    ///
    /// `Refused` if the session below refused a job for good; what was enqueued before stays. `Memory` if memory runs out.
    pub fn pump(&mut self, now: Moment) -> Result<u32, RelayFault>
        ensures call { result ≢ Err fault.Memory → IsCall self.old self.new (PumpAsked now) (λ answer. answer ≡ Counted (counted result)) }
    {
        let told = self.lower.pump(&mut self.held, &mut self.waiting, now);
        outcome(told)
    }

    /// Writes the datagram to send above now, if there is one: the acknowledgement that is held back, if every member below is listed past its
    /// watermark, else what the receiver's tick gives. An acknowledgement that it gives is held back. If nothing is sent, `out` may hold anything.
    /// It takes no memory.
    // `handed` speaks of the octets that this call wrote: they are an acknowledgement only if every member below handed up what that confirms.
    pub fn tick_up(&mut self, now: Moment, out: &mut Datagram) -> Sent
        ensures call { IsCall self.old self.new (UpTicked now) (IsSent result out.new) }
        ensures handed { SaysHanded self.old now result out.new }
    {
        if let Some(ack) = self.held.take_met(&self.lower.sender) {
            write(ack, out);
            return Sent::Datagram;
        }
        // Not taken: `deliver_up` takes all hand-ups, unless memory runs out.
        if self.receiver.ups() > 0 {
            return Sent::Nothing;
        }
        tick(&mut self.receiver, &mut self.held, now, out)
    }

    /// Delivers a datagram from below, as [`Sender::deliver`] does.
    pub fn deliver_down(&mut self, bytes: &[u8], now: Moment)
        ensures call { IsCall self.old self.new (DownDelivered bytes.now now) (λ answer. ⊤) }
    {
        self.lower.sender.deliver(bytes, now);
    }

    /// Writes the datagram to send below now, if there is one, as [`Sender::tick`] does.
    pub fn tick_down(&mut self, now: Moment, out: &mut Datagram) -> Sent
        ensures call { IsCall self.old self.new (DownTicked now) (IsSent result out.new) }
    {
        self.lower.sender.tick(now, out)
    }

    /// Returns the next change of the members below and of watermarks, as [`Sender::news`] does.
    pub fn news(&mut self) -> Option<News>
        ensures call { IsCall self.old self.new DownNews (λ answer. answer ≡ Other (Told result)) }
    {
        self.lower.sender.news()
    }

    /// Strikes a member below for good: no acknowledgement of it is waited for any more.
    ///
    /// # Errors
    ///
    /// `Refused` with a `StrikeFault` if the node is no member below, or the only one. Then nothing changed. `Memory` if no number is left for a job.
    pub fn strike(&mut self, node: NodeId, now: Moment) -> Result<(), RelayFault>
        ensures call { result ≢ Err fault.Memory → IsCall self.old self.new (DownStruck node now) (λ answer. answer ≡ Other (Gave (struck node result))) }
    {
        let told = self.lower.strike(node, now);
        strike_outcome(told)
    }

    /// How many changes [`news`](Relay::news) has still to return.
    pub fn untold(&self) -> usize
        ensures { (x : Relaying) → StandsFor self.now x → result ≡ untold x }
    {
        self.lower.sender.untold()
    }

    /// The instance above, or `None` before the first one.
    pub fn instance(&self) -> Option<InstanceId>
        ensures { (x : Relaying) → StandsFor self.now x → result ≡ upper_instance x }
    {
        self.receiver.instance()
    }

    /// The hand-ups that wait, in order. After [`deliver_up`](Relay::deliver_up) returned `true` they are what that call made the receiver hand up. Of
    /// what the sender above dropped nothing is seen below, so whoever drives a relay reports each loss.
    pub fn waiting(&self) -> &VecDeque<Waiting>
        ensures { result.now.items ≡ self.now.waiting }
    {
        &self.waiting
    }

    /// Whether a hand-up waits: if so, nothing from above is taken.
    pub fn waits(&self) -> bool
        ensures { (x : Relaying) → StandsFor self.now x → result ≡ waits x }
    {
        !self.waiting.is_empty()
    }
}
