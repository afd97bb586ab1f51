//! A tick of a sender (RFC 5740 section 5.1): it sends one datagram or none.

ghost use Rattle.std.specs.Prelude.{◌≡◌, true};
ghost use Rattle.norm_base.specs.Settings.{InRange};
ghost use Rattle.norm_send_rules.specs.SenderState.{SenderState};
ghost use Rattle.norm_send_rules.specs.Laws.{WantsHold};
ghost use Rattle.norm_send_rules.specs.Sending.{behind};
ghost use Rattle.norm_send_rules.specs.Ticking.{sends_further, sends_wanted, sends_first, ticked, is_idle};
ghost use Rattle.tx_window.specs.Next.{HasNext};
ghost use Rattle.norm_sender.specs.SenderKept.{Agrees};
ghost use Rattle.norm_sender.specs.SenderMoves.{IsSent};
ghost use Rattle.norm_sender.specs.Inside.{kept_of};
ghost use Rattle.norm_sender.specs.Wanted.{IsStanding};

use crate::parts::{Parts, hold_range};
use crate::writing::write_squelch;
use fec_plan::{Point, Position};
use norm_base::{Datagram, Moment, Sent};
use norm_send_rules::Want;

/// Returns what comes just after an info or a symbol: the first symbol, or the next one of the block, even if the block has no more.
fn behind(want: &Want) -> Want
    requires { HasNext want.now }
    ensures { result ≡ behind want.now }
{
    match want {
        Want::Info { index } => Want::Symbol {
            at: Position {
                index: *index,
                block: 0,
                symbol: 0,
            },
        },
        Want::Symbol { at } => Want::Symbol {
            at: Position {
                index: at.index,
                block: at.block,
                symbol: at.symbol + 1,
            },
        },
    }
}

impl Parts {
    /// Sends the next new info or symbol. If nothing is new, flushes if that is due.
    fn send_further(&mut self, now: Moment, out: &mut Datagram) -> Sent
        requires { IsStanding (kept_of self.old) }
        ensures profile { self.new.profile ≡ self.old.profile }
        ensures stands { (s : SenderState) → Agrees (kept_of self.old) s → WantsHold self.old.profile s
            → IsSent (kept_of self.new) out.new result (sends_further self.old.profile now s) }
    {
        let Some(want) = self.window.next_new(self.pace.next) else {
            return self.flush(now, out);
        };
        hold_range(&self.profile);
        self.pace = self.pace.goes_on(behind(&want));
        self.send_want(&want, 0, now, out)
    }

    /// Sends the want that is first in transport order, and takes it out. If nothing is wanted, sends what is new, or flushes if that is
    /// due.
    fn send_wanted(&mut self, now: Moment, out: &mut Datagram) -> Sent
        requires { IsStanding (kept_of self.old) }
        ensures profile { self.new.profile ≡ self.old.profile }
        ensures stands { (s : SenderState) → Agrees (kept_of self.old) s → WantsHold self.old.profile s
            → IsSent (kept_of self.new) out.new result (sends_wanted self.old.profile now s) }
    {
        // Repairs before new data: a receiver hands up in order, so a gap holds back all that came after it.
        let Some(want) = self.union.next() else {
            return self.send_further(now, out);
        };
        let flags = self.repair_flags(&want);
        self.send_want(&want, flags, now, out)
    }

    /// Sends a squelch, which names the first block of the window: of an empty window, block 0 of the entry that comes next.
    fn squelch(&mut self, now: Moment, out: &mut Datagram) -> Sent
        ensures profile { self.new.profile ≡ self.old.profile }
        ensures stands { (s : SenderState) → Agrees (kept_of self.old) s → s.squelch_due ≡ true
            → IsSent (kept_of self.new) out.new result (sends_first self.old.profile now s) }
    {
        let (index, block) = self.window.first();
        write_squelch(&self.profile, &self.pace, &Point { index, block }, out);
        self.pace = self.pace.squelched();
        self.spend(now);
        Sent::Datagram
    }

    /// Sends a squelch if one is due. Otherwise sends the lowest want, or what comes after wants.
    fn send_first(&mut self, now: Moment, out: &mut Datagram) -> Sent
        requires { IsStanding (kept_of self.old) }
        ensures profile { self.new.profile ≡ self.old.profile }
        ensures stands { (s : SenderState) → Agrees (kept_of self.old) s → WantsHold self.old.profile s
            → IsSent (kept_of self.new) out.new result (sends_first self.old.profile now s) }
    {
        // Before any repair: until receivers know of the drop, they may ask for what is gone again.
        if self.pace.squelch_due {
            return self.squelch(now, out);
        }
        self.send_wanted(now, out)
    }

    /// Closes the round if it is due. Then sends a datagram if the next send moment has come and there is one.
    pub(crate) fn tick(&mut self, now: Moment, out: &mut Datagram) -> Sent
        requires { IsStanding (kept_of self.old) }
        ensures range { InRange self.old.profile }
        ensures profile { self.new.profile ≡ self.old.profile }
        ensures stands { (s : SenderState) → Agrees (kept_of self.old) s → WantsHold self.old.profile s
            → IsSent (kept_of self.new) out.new result (ticked self.old.profile s now) }
    {
        hold_range(&self.profile);
        // Before the look at the gap: a round closes even if no datagram may be sent then.
        self.close_where_due(now);
        if !self.pace.may_send(now) {
            return Sent::Nothing;
        }
        self.send_first(now, out)
    }

    /// Whether the sender is idle, as [`Sender::idle`](crate::Sender::idle) says.
    pub(crate) fn is_idle(&self) -> bool
        ensures { (s : SenderState) → Agrees (kept_of self.now) s → result ≡ is_idle self.now.profile s }
    {
        if self.pace.squelch_due {
            return false;
        }
        if self.union.is_wanted() {
            return false;
        }
        if self.window.next_new(self.pace.next).is_some() {
            return false;
        }
        self.pace.closes.is_none()
    }
}
