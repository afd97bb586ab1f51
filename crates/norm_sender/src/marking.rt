//! Makes watermarks for the command `mark` (RFC 5740 section 5.5.3): all members shall confirm what was enqueued before, or a quorum of
//! them. Quorums are our own choice.

ghost use Rattle.std.specs.Prelude.{◌≡◌, ◌≢◌, Err, Some};
ghost use Rattle.norm_base.specs.Settings.{InRange};
ghost use Rattle.norm_base.specs.declared.node.Origin.{Origin};
ghost use Rattle.norm_send_rules.specs.SenderState.{SenderState};
ghost use Rattle.norm_send_rules.specs.Marking.{marked};
ghost use Rattle.norm_send_rules.specs.Streaming.{cut};
ghost use Rattle.norm_send_rules.specs.declared.fault.MarkFault.TheVariants as fault;
ghost use Rattle.mark_book.specs.Answers.{asked_for};
ghost use Rattle.norm_sender.specs.SenderKept.{Agrees};
ghost use Rattle.norm_sender.specs.SenderMoves.{IsBehind};
ghost use Rattle.norm_sender.specs.Retiring.{CanCut};
ghost use Rattle.norm_sender.specs.Inside.{kept_of};
ghost use Rattle.norm_sender.specs.Wanted.{IsStanding};

use crate::parts::{Parts, hold_range};
use fec_plan::Position;
use norm_send_rules::{MarkFault, Receipt};

impl Parts {
    /// Cuts the open stream although the mark was refused, unless memory ran out.
    fn cut_unless_memory(&mut self, why: &MarkFault)
        requires { CanCut (kept_of self.old) }
        ensures profile { self.new.profile ≡ self.old.profile }
        ensures cut { why.now ≢ fault.Memory → (s t : SenderState) → IsBehind (kept_of self.old) s t
            → IsBehind (kept_of self.new) (cut self.old.profile s) t }
        ensures memory { why.now ≡ fault.Memory → self.new ≡ self.old }
    {
        match why {
            // The rule cannot say that memory ran out, so nothing changes: the same command may come once more as if it came first.
            MarkFault::Memory => {}
            MarkFault::Quorum { .. } | MarkFault::NothingEnqueued | MarkFault::TooMany { .. } => {
                self.cut();
            }
        }
    }

    /// Makes a watermark at `at`, the last position once the open stream is cut. A refused mark cuts it too, unless memory ran out.
    fn mark_at(&mut self, at: Position, quorum: Option<u32>) -> Result<Receipt, MarkFault>
        requires { IsStanding (kept_of self.old) }
        ensures profile { self.new.profile ≡ self.old.profile }
        ensures stands { (s : SenderState) (by : Origin) → Agrees (kept_of self.old) s → result ≢ Err fault.Memory
            → Agrees (kept_of self.new) (asked_for self.old.profile (cut self.old.profile s) by quorum (Some at)).0
            × (result ≡ (asked_for self.old.profile (cut self.old.profile s) by quorum (Some at)).1) }
        ensures memory { result ≡ Err fault.Memory → kept_of self.new ≡ kept_of self.old }
    {
        // Taken before the request: a watermark that is satisfied as it is made never becomes the oldest, and so does not count flushes anew.
        let before = self.book.oldest();
        match self.book.request(Some(at), quorum) {
            Ok(mark) => {
                self.cut();
                self.follow(before);
                Ok(Receipt::Mark { mark, at })
            }
            Err(fault) => {
                self.cut_unless_memory(&fault);
                Err(fault)
            }
        }
    }

    /// Cuts the open stream, and makes a watermark for everything that was enqueued. On an error there is no watermark; the stream stays
    /// uncut if the quorum is not possible or memory runs out.
    pub(crate) fn mark(&mut self, quorum: Option<u32>) -> Result<Receipt, MarkFault>
        requires { IsStanding (kept_of self.old) }
        ensures range { InRange self.old.profile }
        ensures profile { self.new.profile ≡ self.old.profile }
        ensures stands { (s : SenderState) (by : Origin) → Agrees (kept_of self.old) s → result ≢ Err fault.Memory
            → Agrees (kept_of self.new) (marked self.old.profile s by quorum).0 × (result ≡ (marked self.old.profile s by quorum).1) }
        ensures memory { result ≡ Err fault.Memory → kept_of self.new ≡ kept_of self.old }
    {
        hold_range(&self.profile);
        if let Some(fault) = self.book.quorum_fault(quorum) {
            return Err(fault);
        }
        // Asked before the cut: what takes memory comes first, and a lack of memory then leaves all as it was.
        let Some(at) = self.window.end_cut() else {
            self.cut();
            return Err(MarkFault::NothingEnqueued);
        };
        self.mark_at(at, quorum)
    }
}
