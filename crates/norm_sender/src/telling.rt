//! What a sender reports of its members and watermarks, and the numbers that callers ask for.

ghost use Rattle.std.specs.Prelude.{◌≡◌, ◌+◌, length, IfNone};
ghost use Rattle.norm_base.specs.Settings.{InRange};
ghost use Rattle.norm_send_rules.specs.SenderState.{SenderState};
ghost use Rattle.norm_send_rules.specs.Telling.{told};
ghost use Rattle.norm_send_rules.specs.Watermarks.{open_watermarks};
ghost use Rattle.norm_sender.specs.SenderKept.{Agrees};
ghost use Rattle.norm_sender.specs.Inside.{kept_of};

use crate::parts::{Parts, hold_range};
use norm_base::InstanceId;
use norm_send_rules::News;

impl Parts {
    /// Takes the next change to report out of the book.
    pub(crate) fn news(&mut self) -> Option<News>
        ensures range { InRange self.old.profile }
        ensures profile { self.new.profile ≡ self.old.profile }
        ensures stands { (s : SenderState) → Agrees (kept_of self.old) s → Agrees (kept_of self.new) (told s).0 × (result ≡ (told s).1) }
        ensures same { IfNone result (kept_of self.new ≡ kept_of self.old) }
    {
        hold_range(&self.profile);
        self.book.news()
    }

    pub(crate) fn untold(&self) -> usize
        ensures { (s : SenderState) → Agrees (kept_of self.now) s → result ≡ length s.untold_nodes + length s.untold_marks }
    {
        self.book.untold()
    }

    pub(crate) fn open_requests(&self) -> u32
        ensures { (s : SenderState) → Agrees (kept_of self.now) s → result ≡ length (open_watermarks s) }
    {
        let count = self.book.open();
        count
    }

    pub(crate) fn flushes(&self) -> u32
        ensures { (s : SenderState) → Agrees (kept_of self.now) s → result ≡ s.flushes }
    {
        self.pace.flushes
    }

    pub(crate) fn instance(&self) -> InstanceId
        ensures { (s : SenderState) → Agrees (kept_of self.now) s → result ≡ s.current.id }
    {
        self.pace.instance
    }
}
