//! Flushes (RFC 5740 section 5.5.3): asks the members that are not past the oldest open watermark to confirm it. A tick flushes only if it
//! has nothing else to send.

ghost use Rattle.std.specs.Prelude.{◌≡◌, ◌<◌, Some};
ghost use Rattle.norm_ext.specs.Octets.{octets_of};
ghost use Rattle.norm_send_rules.specs.SenderState.{SenderState, Watermark};
ghost use Rattle.norm_send_rules.specs.Watermarks.{pending, oldest};
ghost use Rattle.norm_send_rules.specs.Messages.{flush_message};
ghost use Rattle.norm_send_rules.specs.Flushing.{flushes_for, flushes_oldest, flushes_in_turn, flushes, expired};
ghost use Rattle.norm_sender.specs.SenderKept.{Agrees};
ghost use Rattle.norm_sender.specs.SenderMoves.{IsSent, SenderMoves, SenderSends};
ghost use Rattle.norm_sender.specs.Inside.{kept_of};

use crate::parts::Parts;
use crate::writing::write_flush_front;
use fec_plan::Position;
use mark_book::keeps_oldest;
use norm_base::{Datagram, Moment, Sent};

/// The most flushes for one watermark while no round makes a want.
// NORM_ROBUST_FACTOR of RFC 5740, 20 by default. After this many, members that are left are taken to be silent.
const MOST_FLUSHES: u32 = 20;

impl Parts {
    /// Writes a FLUSH up to a position. It asks the members that are not listed past it, in the order of the receivers.
    fn write_flush(&self, at: Position, out: &mut Datagram)
        ensures { (s : SenderState) → Agrees (kept_of self.now) s → out.new ≡ octets_of (flush_message self.now.profile s at (pending s at)) }
    {
        write_flush_front(&self.profile, &self.pace, &at, out);
        self.book.write_pending(at, out);
    }

    /// Sends a FLUSH up to a position and counts it.
    fn flush_for(&mut self, at: Position, now: Moment, out: &mut Datagram) -> Sent
        ensures profile { self.new.profile ≡ self.old.profile }
        ensures stands { (s : SenderState) (w : Watermark) → Agrees (kept_of self.old) s → w.at ≡ at → s.flushes < 4294967295
            → IsSent (kept_of self.new) out.new result (flushes_for self.old.profile now w s) }
    {
        self.write_flush(at, out);
        self.pace = self.pace.flushed(now);
        self.spend(now);
        Sent::Datagram
    }

    /// Ends the oldest open watermark, which has this number, as expired. The count of flushes restarts if another one is the oldest now, and stays
    /// if none is open.
    fn expire(&mut self, mark: u32)
        ensures profile { self.new.profile ≡ self.old.profile }
        ensures stands { SenderMoves (kept_of self.old) (kept_of self.new) (λ p s. expired mark s) }
    {
        let before = self.book.oldest();
        self.book.expire(mark);
        if keeps_oldest(before, self.book.oldest()) {
            return;
        }
        self.pace = self.pace.counted_anew();
    }

    /// Flushes for the oldest open watermark, if there is one. After 20 flushes it expires, and the next one is flushed for. If a round is open then,
    /// it does not expire yet, and nothing is sent.
    fn flush_in_turn(&mut self, now: Moment, out: &mut Datagram) -> Sent
        ensures profile { self.new.profile ≡ self.old.profile }
        ensures stands { SenderSends (kept_of self.old) (kept_of self.new) out.new result (λ p s. flushes_in_turn p now s) }
    {
        let Some(oldest) = self.book.oldest() else {
            return Sent::Nothing;
        };
        if self.pace.flushes < MOST_FLUSHES {
            return self.flush_for(oldest.at, now, out);
        }
        // The round may close with a want, and then flushes are counted anew. So a watermark is not given up while a round is open.
        if self.pace.closes.is_some() {
            return Sent::Nothing;
        }
        self.expire(oldest.mark);
        self.flush_next(now, out)
    }

    /// Flushes for the oldest open watermark, if one is left after the one before it expired.
    // Not `flush_in_turn` again: in one tick at most one watermark expires, so a tick has a bound.
    fn flush_next(&mut self, now: Moment, out: &mut Datagram) -> Sent
        ensures profile { self.new.profile ≡ self.old.profile }
        ensures stands { (s : SenderState) → Agrees (kept_of self.old) s → ((w : Watermark) → oldest s ≡ Some w → s.flushes ≡ 0)
            → IsSent (kept_of self.new) out.new result (flushes_oldest self.old.profile now s) }
    {
        let Some(oldest) = self.book.oldest() else {
            return Sent::Nothing;
        };
        self.flush_for(oldest.at, now, out)
    }

    /// Flushes for the oldest open watermark, if there is one, unless the last flush of this instance is less than two round trips ago. The
    /// watermark may expire instead.
    pub(crate) fn flush(&mut self, now: Moment, out: &mut Datagram) -> Sent
        ensures profile { self.new.profile ≡ self.old.profile }
        ensures stands { SenderSends (kept_of self.old) (kept_of self.new) out.new result (λ p s. flushes p now s) }
    {
        if !self.pace.may_flush(self.profile.grtt, now) {
            return Sent::Nothing;
        }
        self.flush_in_turn(now, out)
    }
}
