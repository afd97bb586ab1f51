//! [`Receiver`], which passes its work to `Parts`.

ghost use Rattle.std.specs.Prelude.{◌≡◌, [], true, not, length, IfOk, OnErr, IfNone, IfSome, IsSome};
ghost use Rattle.norm_receive_rules.specs.ReceiverState.{ReceiverState, receiver_opening};
ghost use Rattle.norm_receive_rules.specs.Acknowledging.{lost_nothing};
ghost use Rattle.norm_receive_rules.specs.Receiving.{received};
ghost use Rattle.norm_receive_rules.specs.Taking.{took};
ghost use Rattle.norm_receive_rules.specs.Ticking.{ticked};
ghost use Rattle.norm_receive_rules.specs.Wanting.{may_want};
ghost use Rattle.norm_receiver.specs.ReceiverSound.{StandsFor, IsTick, IsAcknowledged};

use crate::parts::Parts;
use fec_plan::Position;
use norm_base::{Datagram, InstanceId, Memory, Moment, NodeId, Profile, Sent};
use norm_order::Up;
use std::alloc::Global;
use std::marker::Model;

/// A NORM receiver without I/O (RFC 5740 sections 5.2 and 5.3). In each turn:
/// 1. [`deliver`](Receiver::deliver) each datagram that arrived. Any octets are allowed.
/// 2. [`take_up`](Receiver::take_up) until it returns `None`.
/// 3. [`tick`](Receiver::tick). Last, because an acknowledgement may leave only after the user has what it confirms.
// It stands for some state of the rules at each moment. Otherwise the clauses of its calls would promise nothing.
#[derive(Debug, Drop)]
pub struct Receiver {
    parts: Parts,
}

impl Model for Receiver {
    ghost use Rattle.norm_receiver.specs.ReceiverKept.{ReceiverKept};
    ghost use Rattle.norm_receiver.specs.ReceiverSound.{ReceiverSound};
    ghost use Rattle.norm_receiver.specs.Inside.{kept_of};

    ghost Value = { ReceiverKept };

    ghost view = { λ r. kept_of r.parts };

    ghost invariant = { λ r. ReceiverSound (kept_of r.parts) };
}

impl Receiver {
    /// Creates a node's receiver, which is in no instance yet. The first INFO, DATA, FLUSH or SQUELCH of the profile's sender whose object
    /// id names an index begins one.
    ///
    /// # Errors
    ///
    /// `Memory` if memory runs out.
    pub fn new(alloc: Global, profile: &Profile, node: NodeId) -> Result<Receiver, Memory>
        ensures profile { IfOk result (λ receiver. receiver.p ≡ profile.now) }
        ensures stands { IfOk result (λ receiver. StandsFor receiver (receiver_opening node)) }
    {
        let parts = Parts::new(alloc, profile, node)?;
        Ok(Receiver { parts })
    }

    /// Takes in a datagram. If a back-off begins, `draw` decides how long it lasts. If another instance begins, everything of the one
    /// before is forgotten, also hand-ups that were not taken.
    ///
    /// # Errors
    ///
    /// `Memory` if memory runs out. Everything is then as if the datagram had been lost. It can happen only for an INFO, DATA, flush or
    /// squelch of the profile's sender in the current instance or one that the receiver goes on to, and while a back-off runs, for a NACK
    /// or REPAIR_ADV.
    pub fn deliver(&mut self, bytes: &[u8], now: Moment, draw: u32) -> Result<(), Memory>
        ensures profile { self.new.p ≡ self.old.p }
        ensures stands { IfOk result (λ _. (s : ReceiverState) → StandsFor self.old s → StandsFor self.new (received self.old.p s bytes.now now draw)) }
        ensures refused { OnErr result ((s : ReceiverState) → StandsFor self.old s → StandsFor self.new s) }
        ensures wanted { OnErr result ((s : ReceiverState) → StandsFor self.old s → may_want self.old.p s bytes.now ≡ true) }
    {
        self.parts.deliver(bytes, now, draw)
    }

    /// Takes the next hand-up. `None` if all were taken. It takes no memory.
    pub fn take_up(&mut self) -> Option<Up>
        ensures profile { self.new.p ≡ self.old.p }
        ensures stands { (s : ReceiverState) → StandsFor self.old s → StandsFor self.new (took s).0 × (result ≡ (took s).1) }
        ensures none { IfNone result ((self.old.hold.ups ≡ []) × (self.new ≡ self.old)) }
        ensures some { IfSome result (λ _. (s : ReceiverState) → StandsFor self.old s → IsSome s.instance) }
    {
        self.parts.take_up()
    }

    /// Sends the acknowledgement that is due. If none is due and a back-off has expired, sends a NACK if something is needed, unless others
    /// have asked for everything that it would ask for. If nothing is sent, `out` may hold anything. It takes no memory.
    pub fn tick(&mut self, now: Moment, out: &mut Datagram) -> Sent
        requires taken { self.old.hold.ups ≡ [] }
        ensures profile { self.new.p ≡ self.old.p }
        ensures stands { (s : ReceiverState) → StandsFor self.old s → IsTick self.new out.new result (ticked self.old.p s now) }
        ensures acknowledged { (s : ReceiverState) → StandsFor self.old s → IsAcknowledged self.old.p s out.new result }
    {
        self.parts.tick(now, out)
    }

    /// Returns the position that a tick would acknowledge now, if one is due.
    pub fn due(&self) -> Option<Position>
        ensures { (s : ReceiverState) → StandsFor self.now s → result ≡ s.knows.due }
    {
        self.parts.due()
    }

    /// Returns how many hand-ups [`take_up`](Receiver::take_up) would return now before `None`.
    pub fn ups(&self) -> usize
        ensures exact { result ≡ length self.now.hold.ups }
        ensures stands { (s : ReceiverState) → StandsFor self.now s → result ≡ length s.holding.ups }
    {
        self.parts.ups()
    }

    /// Returns the instance of the sender that is taken in. `None` until a message begins the first one.
    pub fn instance(&self) -> Option<InstanceId>
        ensures { (s : ReceiverState) → StandsFor self.now s → result ≡ s.instance }
    {
        self.parts.instance()
    }

    /// Whether an object, or the rest of a stream, was lost in this instance. If so, the receiver acknowledges no later flush of the
    /// instance. An acknowledgement that was due before stays due.
    pub fn has_lost(&self) -> bool
        ensures { (s : ReceiverState) → StandsFor self.now s → lost_nothing s.holding ≡ not result }
    {
        self.parts.has_lost()
    }
}
