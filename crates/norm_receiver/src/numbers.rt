//! The numbers of a receiver: everything of its state in the rules except what it holds and what it heard.

ghost use Rattle.std.specs.Prelude.{◌≡◌, ◌+◌, ◌*◌, ◌%◌, ◌<◌, ◌==◌, ◌&&◌, ◌||◌, not, max, false, true, nat_lt, nat_le, Some, None, is_none};
ghost use Rattle.fec_plan.specs.Points.{IsBlock, further, further_point};
ghost use Rattle.norm_ext.specs.InstanceIds.{is_above};
ghost use Rattle.norm_order.specs.Moments.{moment_after};
ghost use Rattle.norm_receiver.specs.Numbers.{opening_numbers, entering_numbers, has_ended};

use fec_plan::{PayloadId, Point, Position};
use norm_base::{InstanceId, Moment, NodeId, Profile};
use norm_ext::is_above;
use std::marker::Model;

/// The numbers of a receiver, as in the rules' state. A call that changes them returns new ones.
#[derive(Clone, Copy, Debug, PartialEq, Eq)]
pub struct Numbers {
    pub node: NodeId,
    /// The instance of the sender that is taken in. `None` until a message begins the first one.
    pub instance: Option<InstanceId>,
    /// The greatest object index named in this instance by an INFO, DATA, flush or squelch that was taken in. 0 if none was.
    pub known: u32,
    /// The farthest block of which an INFO or DATA came in this instance, kept or not. An INFO counts as block 0 of its object.
    pub farthest: Option<Point>,
    /// The farthest position that a flush of this instance named.
    pub flush: Option<Position>,
    /// When the running back-off expires. `None` if none is running.
    pub backoff: Option<Moment>,
    /// When the hold-off ends. No back-off begins before it.
    pub holdoff: Moment,
    /// The farthest position that is still to be acknowledged, if any.
    pub due: Option<FlushPlace>,
    /// The sequence number of the next datagram. It goes on across instances.
    pub sequence: u16,
}

/// The position that a flush names, or that of a stream's end. Its block has 24 bits.
#[derive(Clone, Copy, Debug, PartialEq, Eq)]
pub struct FlushPlace {
    pub index: u32,
    pub id: PayloadId,
}

impl Model for FlushPlace {
    ghost use Rattle.fec_plan.specs.declared.position.Position.{Position as Place};
    ghost use Rattle.fec_plan.specs.Points.{position};

    ghost Value = { Place };

    ghost view = { λ at. position at.index at.id.block at.id.symbol };

    ghost inverse = { λ at. record { index = at.index; id = record { block = at.block; symbol = at.symbol } } };
}

impl FlushPlace {
    pub(crate) fn position(&self) -> Position
        ensures exact { result ≡ self.now }
        ensures block { IsBlock result.block }
    {
        Position {
            index: self.index,
            block: self.id.block,
            symbol: self.id.symbol,
        }
    }

    /// Returns the farther of this position and the one that is due already: a flush that comes late must not lower it.
    fn further(self, due: Option<FlushPlace>) -> Option<FlushPlace>
        ensures { result ≡ further self due }
    {
        match due {
            Some(other) if !other.position().is_before(&self.position()) => Some(other),
            _ => Some(self),
        }
    }
}

/// Returns the moment this many microseconds later, or the last one if that would overflow.
fn moment_after(now: Moment, span: u64) -> Moment
    ensures { result ≡ moment_after now span }
{
    Moment(now.0.saturating_add(span))
}

impl Numbers {
    /// Returns the numbers of a receiver that is in no instance yet.
    pub(crate) fn new(node: NodeId) -> Numbers
        ensures { result ≡ opening_numbers node }
    {
        Numbers {
            node,
            instance: None,
            known: 0,
            farthest: None,
            flush: None,
            backoff: None,
            holdoff: Moment(0),
            due: None,
            sequence: 0,
        }
    }

    /// Returns the numbers at the beginning of an instance. The node and the sequence number stay.
    pub(crate) fn entering(&self, instance: InstanceId) -> Numbers
        ensures { result ≡ entering_numbers instance self.now }
    {
        Numbers {
            instance: Some(instance),
            // The sequence number is this node's and not the sender's, so it goes on across instances.
            sequence: self.sequence,
            ..Numbers::new(self.node)
        }
    }

    pub(crate) fn is_in(&self, instance: InstanceId) -> bool
        ensures { result ≡ elim self.now.instance [ Some current ↦ current == instance | None ↦ false ] }
    {
        match self.instance {
            Some(current) => current == instance,
            None => false,
        }
    }

    /// Whether the receiver goes on to this instance: it is in none yet, or this one is above its own.
    pub(crate) fn goes_to(&self, instance: InstanceId) -> bool
        ensures { result ≡ elim self.now.instance [ Some current ↦ is_above current instance | None ↦ true ] }
    {
        match self.instance {
            Some(current) => is_above(current, instance),
            None => true,
        }
    }

    /// Notes an index that a message named.
    pub(crate) fn learning(&self, index: u32) -> Numbers
        ensures { result ≡ record self.now { known = max self.now.known index } }
    {
        Numbers {
            known: self.known.max(index),
            ..*self
        }
    }

    /// Notes the block of an INFO or DATA, if it is the farthest.
    pub(crate) fn seeing(&self, at: Point) -> Numbers
        ensures { result ≡ record self.now { farthest = further_point at self.now.farthest } }
    {
        Numbers {
            farthest: at.further(self.farthest),
            ..*self
        }
    }

    /// Notes a flush. If `acknowledged`, the farther of its position and the one that is due already becomes due.
    pub(crate) fn flushed(&self, at: FlushPlace, acknowledged: bool) -> Numbers
        ensures { result ≡ record self.now { flush = further at self.now.flush; due = elim acknowledged [ true ↦ further at self.now.due | false ↦ self.now.due ] } }
    {
        let flush = at.position().further(self.flush);
        if !acknowledged {
            return Numbers { flush, ..*self };
        }
        Numbers {
            flush,
            due: at.further(self.due),
            ..*self
        }
    }

    /// Whether a back-off may begin if something is needed: none is running, and no hold-off is in effect.
    pub(crate) fn may_back_off(&self, now: Moment) -> bool
        ensures { result ≡ (is_none self.now.backoff && not (nat_lt now self.now.holdoff)) }
    {
        self.backoff.is_none() && now.0 >= self.holdoff.0
    }

    /// Starts a back-off of at most K round trips. `draw` decides how long it lasts.
    pub(crate) fn backing_off(&self, profile: &Profile, now: Moment, draw: u32) -> Numbers
        ensures { result ≡ record self.now { backoff = Some (moment_after now (draw % (profile.now.k * profile.now.grtt + 1))) } }
    {
        // The remainder of a draw is our own choice. RFC 5401 section 3.2.2 has a truncated exponential distribution.
        let most = u64::from(profile.k) * u64::from(profile.grtt) + 1;
        Numbers {
            backoff: Some(moment_after(now, u64::from(draw) % most)),
            ..*self
        }
    }

    /// Whether the running back-off has expired. `false` if none is running.
    pub(crate) fn ends_back_off(&self, now: Moment) -> bool
        ensures { result ≡ has_ended now self.now.backoff }
    {
        match self.backoff {
            Some(ends) => ends.0 <= now.0,
            None => false,
        }
    }

    /// Call after the back-off expired, whether a NACK is sent then or not.
    pub(crate) fn backed_off(&self) -> Numbers
        ensures { result ≡ record self.now { backoff = None } }
    {
        Numbers {
            backoff: None,
            ..*self
        }
    }

    /// Starts a hold-off of K + 2 round trips.
    pub(crate) fn holding_off(&self, profile: &Profile, now: Moment) -> Numbers
        ensures { result ≡ record self.now { holdoff = moment_after now ((profile.now.k + 2) * profile.now.grtt) } }
    {
        // One round trip more than the sender's round of K + 1, for what was asked for to come.
        let span = (u64::from(profile.k) + 2) * u64::from(profile.grtt);
        Numbers {
            holdoff: moment_after(now, span),
            ..*self
        }
    }

    pub(crate) fn due_position(&self) -> Option<Position>
        ensures { result ≡ self.now.due }
    {
        match self.due {
            Some(at) => Some(at.position()),
            None => None,
        }
    }

    /// Call as the acknowledgement is sent.
    pub(crate) fn acknowledged(&self) -> Numbers
        ensures { result ≡ record self.now { due = None } }
    {
        Numbers { due: None, ..*self }
    }

    /// Call for each datagram that is sent.
    pub(crate) fn sent(&self) -> Numbers
        ensures { result ≡ record self.now { sequence = (self.now.sequence + 1) % 65536 } }
    {
        Numbers {
            sequence: self.sequence.wrapping_add(1),
            ..*self
        }
    }
}
