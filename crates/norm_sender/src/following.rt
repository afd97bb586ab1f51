//! Lets the window and the pace follow the book after the book changed.

ghost use Rattle.std.specs.Prelude.{◌≡◌, option_map};
ghost use Rattle.norm_send_rules.specs.SenderState.{SenderState};
ghost use Rattle.norm_send_rules.specs.Watermarks.{oldest, counted_anew};
ghost use Rattle.mark_book.specs.Answers.{open_watermark};
ghost use Rattle.norm_sender.specs.SenderKept.{Agrees};
ghost use Rattle.norm_sender.specs.SenderMoves.{IsBehind, with_book};
ghost use Rattle.norm_sender.specs.Inside.{kept_of};

use crate::parts::Parts;
use mark_book::{OpenWatermark, keeps_oldest};

impl Parts {
    /// Call after the book changed; `before` was its oldest watermark. The window learns what all members are past now, and the count of flushes
    /// restarts if another watermark became the oldest.
    // Proof: the book is ahead: one state for the other parts, and one for its listings and watermarks.
    pub(crate) fn follow(&mut self, before: Option<OpenWatermark>)
        ensures profile { self.new.profile ≡ self.old.profile }
        ensures stands { (s t : SenderState) → IsBehind (kept_of self.old) s (with_book t s) → before ≡ option_map open_watermark (oldest s)
            → Agrees (kept_of self.new) (counted_anew s (with_book t s)) }
    {
        // In hold mode, what may go for room depends on what members are past, so the window has to know of each rise and each strike.
        self.window.note_past(self.book.least());
        if keeps_oldest(before, self.book.oldest()) {
            return;
        }
        self.pace = self.pace.counted_anew();
    }
}
