//! Creating a receiver, and what callers take from it (RFC 5740 section 5.2).

ghost use Rattle.std.specs.Prelude.{◌≡◌, [], IfOk, IfNone, length, not};
ghost use Rattle.norm_receive_rules.specs.ReceiverState.{ReceiverState, receiver_opening};
ghost use Rattle.norm_receive_rules.specs.Acknowledging.{lost_nothing};
ghost use Rattle.norm_receive_rules.specs.Taking.{took};
ghost use Rattle.norm_receiver.specs.ReceiverKept.{Stands};
ghost use Rattle.norm_receiver.specs.Inside.{kept_of};

use crate::numbers::Numbers;
use crate::parts::Parts;
use norm_base::{InstanceId, Memory, NodeId, Profile};
use norm_order::Up;
use rx_heard::{Asked, Heard};
use rx_hold::Hold;
use std::alloc::Global;

impl Parts {
    /// Creates a node's receiver, which is in no instance yet.
    pub(crate) fn new(alloc: Global, profile: &Profile, node: NodeId) -> Result<Parts, Memory>
        ensures profile { IfOk result (λ parts. parts.profile ≡ profile.now) }
        ensures state { IfOk result (λ parts. Stands (kept_of parts) (receiver_opening node)) }
    {
        let hold = Hold::new(alloc, profile)?;
        Ok(Parts {
            profile: *profile,
            hold,
            heard: Heard::new(alloc),
            numbers: Numbers::new(node),
            asked: Asked::new(alloc),
        })
    }

    /// Takes the next hand-up. `None` if all were taken. It takes no memory.
    #[tactic(auto, using(crate::proofs::BlockLemmas::taken_blocks))]
    pub(crate) fn take_up(&mut self) -> Option<Up>
        ensures profile { self.new.profile ≡ self.old.profile }
        ensures none { IfNone result ((self.old.hold.ups ≡ []) × (kept_of self.new ≡ kept_of self.old)) }
        ensures state { (s : ReceiverState) → Stands (kept_of self.old) s → Stands (kept_of self.new) (took s).0 × (result ≡ (took s).1) }
    {
        self.hold.next_up()
    }

    /// Returns how many hand-ups [`take_up`](Parts::take_up) would return now before `None`.
    pub(crate) fn ups(&self) -> usize
        ensures exact { result ≡ length self.now.hold.ups }
        ensures state { (s : ReceiverState) → Stands (kept_of self.now) s → result ≡ length s.holding.ups }
    {
        self.hold.ups()
    }

    pub(crate) fn instance(&self) -> Option<InstanceId>
        ensures { (s : ReceiverState) → Stands (kept_of self.now) s → result ≡ s.instance }
    {
        self.numbers.instance
    }

    /// Whether an object, or the rest of a stream, was lost in this instance.
    pub(crate) fn has_lost(&self) -> bool
        ensures { (s : ReceiverState) → Stands (kept_of self.now) s → lost_nothing s.holding ≡ not result }
    {
        self.hold.has_lost()
    }
}
