//! Closes the open repair round (RFC 5740 section 5.4) once its moment has come.

ghost use Rattle.std.specs.Prelude.{◌≡◌};
ghost use Rattle.norm_send_rules.specs.Ticking.{closed_where_due};
ghost use Rattle.norm_sender.specs.SenderMoves.{SenderMoves};
ghost use Rattle.norm_sender.specs.Inside.{kept_of};

use crate::parts::Parts;
use norm_base::Moment;

impl Parts {
    /// Closes the open round if its closing moment has come. What it asked for and was not dropped is wanted from then on. If a request of
    /// it counts from before the window, a squelch is due.
    pub(crate) fn close_where_due(&mut self, now: Moment)
        ensures profile { self.new.profile ≡ self.old.profile }
        ensures stands { SenderMoves (kept_of self.old) (kept_of self.new) (λ p s. closed_where_due p now s) }
    {
        if !self.pace.is_round_over(now) {
            return;
        }
        let closed = self.union.close_round();
        self.pace = self.pace.closed(closed.queued > 0, closed.early);
    }
}
