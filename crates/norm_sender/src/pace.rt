//! The numbers of a sender: what it keeps besides its profile, its window, its union and its book.

ghost use Rattle.std.specs.Prelude.{◌≡◌, ◌+◌, ◌%◌, ◌<◌, ◌||◌, false, true, nat_lt, Some};
ghost use Rattle.norm_base.specs.Settings.{Settings};
ghost use Rattle.norm_send_rules.specs.SenderState.{SenderState, sender_opening};
ghost use Rattle.norm_send_rules.specs.Restarting.{begun_anew, is_used};
ghost use Rattle.norm_order.specs.Moments.{moment_after};
ghost use Rattle.norm_sender.specs.Pacing.{closed_at, is_over, next_flush, pace_of};

use norm_base::{InstanceId, Moment};
use norm_ext::{MOST_RISE, rise};
use norm_send_rules::Want;

/// The numbers of a sender, each as in the state of the rules. A call that changes them returns new ones.
#[derive(Clone, Copy, Debug, PartialEq, Eq)]
pub struct Pace {
    /// The first instance. Later ids are counted from its id.
    pub first: InstanceId,
    pub instance: InstanceId,
    /// Infos and symbols are new from this one on.
    pub next: Want,
    /// When the open repair round closes: K + 1 round trips after the NACK that opened it. `None` if no round is open.
    pub closes: Option<Moment>,
    pub squelch_due: bool,
    /// How many flushes were sent since another watermark became the oldest, a round made a want, or the instance began.
    pub flushes: u32,
    /// When the last flush of this instance was sent. `None` if there was none.
    pub last_flush: Option<Moment>,
    /// No datagram may be sent before this moment.
    pub next_send: Moment,
    /// The sequence number of the next datagram, of whatever instance.
    pub sequence: u16,
}

/// Returns the moment `span` after `now`, or the last one that 64 bits count.
pub(crate) fn moment_after(now: Moment, span: u64) -> Moment
    ensures { result ≡ moment_after now span }
{
    Moment(now.0.saturating_add(span))
}

impl Pace {
    /// The numbers of a new sender, in its first instance. It may send at once.
    pub(crate) fn begun(instance: InstanceId) -> Pace
        ensures { (p : Settings) → result ≡ pace_of (sender_opening p instance) }
    {
        Pace {
            first: instance,
            instance,
            next: Want::Info { index: 0 },
            closes: None,
            squelch_due: false,
            flushes: 0,
            last_flush: None,
            next_send: Moment(0),
            sequence: 0,
        }
    }

    /// The numbers after a restart. The first instance, the next send moment and the sequence number stay.
    // No datagram depends on the count of flushes becoming 0: a restart cuts all watermarks, and the next one that becomes the oldest sets it to
    // 0 anyway. The sequence number goes on: it counts the datagrams of this node, whatever their instance.
    pub(crate) fn begun_anew(&self, instance: InstanceId) -> Pace
        ensures { (s : SenderState) → self.now ≡ pace_of s → result ≡ pace_of (begun_anew instance s) }
    {
        Pace {
            instance,
            next: Want::Info { index: 0 },
            closes: None,
            squelch_due: false,
            flushes: 0,
            last_flush: None,
            ..*self
        }
    }

    /// Whether no new instance may have this id. Counted from the first instance's id, it is not above the current one, or at least half of all
    /// ids above the first.
    pub(crate) fn is_used(&self, instance: InstanceId) -> bool
        ensures { (s : SenderState) → self.now ≡ pace_of s → result ≡ is_used s instance }
    {
        let above = rise(self.first, instance);
        above <= rise(self.first, self.instance) || above > MOST_RISE
    }

    /// Call after each datagram, with the profile's gap in microseconds.
    pub(crate) fn sent(&self, gap: u32, now: Moment) -> Pace
        ensures { result ≡ record self.now { next_send = moment_after now gap; sequence = (self.now.sequence + 1) % 65536 } }
    {
        Pace {
            next_send: moment_after(now, u64::from(gap)),
            sequence: self.sequence.wrapping_add(1),
            ..*self
        }
    }

    /// Call after a squelch was sent.
    pub(crate) fn squelched(&self) -> Pace
        ensures { result ≡ record self.now { squelch_due = false } }
    {
        Pace {
            squelch_due: false,
            ..*self
        }
    }

    /// Call after something may have been dropped. A squelch is due if a want went with it (`dropped`), or if one was due before.
    pub(crate) fn retired(&self, dropped: bool) -> Pace
        ensures { result ≡ record self.now { squelch_due = self.now.squelch_due || dropped } }
    {
        Pace {
            squelch_due: self.squelch_due || dropped,
            ..*self
        }
    }

    /// Call after a flush was sent. The next one of this instance may be sent two round trips later.
    pub(crate) fn flushed(&self, now: Moment) -> Pace
        ensures { self.now.flushes < 4294967295 → result ≡ record self.now { flushes = self.now.flushes + 1; last_flush = Some now } }
    {
        Pace {
            // It stops at 20 long before (`flush_in_turn`).
            flushes: self.flushes.saturating_add(1),
            last_flush: Some(now),
            ..*self
        }
    }

    /// Call after another watermark became the oldest: flushes are counted from 0 again.
    pub(crate) fn counted_anew(&self) -> Pace
        ensures { result ≡ record self.now { flushes = 0 } }
    {
        Pace {
            flushes: 0,
            ..*self
        }
    }

    /// Call as something new is sent. `next` is what comes just after it.
    pub(crate) fn goes_on(&self, next: Want) -> Pace
        ensures { result ≡ record self.now { next = next } }
    {
        Pace { next, ..*self }
    }

    /// Call only if no round is open. A round keeps its closing moment, however many NACKs join it.
    pub(crate) fn opened(&self, closes: Moment) -> Pace
        ensures { result ≡ record self.now { closes = Some closes } }
    {
        Pace {
            closes: Some(closes),
            ..*self
        }
    }

    /// The numbers after the round closed. If it made a want, flushes are counted from 0 again. If a request of it counts from before the
    /// window (`early`), a squelch is due.
    pub(crate) fn closed(&self, wanted: bool, early: bool) -> Pace
        ensures { result ≡ closed_at wanted early self.now }
    {
        Pace {
            closes: None,
            flushes: if wanted { 0 } else { self.flushes },
            squelch_due: self.squelch_due || early,
            ..*self
        }
    }

    /// Whether the gap after the last datagram is over. True if none was sent.
    pub(crate) fn may_send(&self, now: Moment) -> bool
        ensures { nat_lt now self.now.next_send ≡ elim result [ true ↦ false | false ↦ true ] }
    {
        now.0 >= self.next_send.0
    }

    /// Whether the open round has to be closed. `false` if no round is open.
    pub(crate) fn is_round_over(&self, now: Moment) -> bool
        ensures { result ≡ is_over self.now.closes now }
    {
        match self.closes {
            Some(closes) => closes.0 <= now.0,
            None => false,
        }
    }

    /// Whether a flush may be sent: none was in this instance, or two round trips have passed since the last.
    pub(crate) fn may_flush(&self, grtt: u32, now: Moment) -> bool
        ensures { result ≡ next_flush self.now.last_flush grtt now }
    {
        match self.last_flush {
            // RFC 5740 section 5.5.3: two round trips, so that answers to one flush come before the next one goes.
            Some(last) => moment_after(last, 2 * u64::from(grtt)).0 <= now.0,
            None => true,
        }
    }
}
