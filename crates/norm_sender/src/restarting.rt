//! Restarts (RFC 5740 section 4.2.1 on instance_id): begins a new instance with an order of its own.

ghost use Rattle.std.specs.Prelude.{◌≡◌};
ghost use Rattle.norm_base.specs.Settings.{InRange};
ghost use Rattle.norm_send_rules.specs.SenderState.{SenderState};
ghost use Rattle.norm_send_rules.specs.Restarting.{begun_anew, restarted};
ghost use Rattle.norm_sender.specs.SenderKept.{Agrees};
ghost use Rattle.norm_sender.specs.SenderMoves.{SenderMoves};
ghost use Rattle.norm_sender.specs.Inside.{kept_of};

use crate::parts::{Parts, hold_range};
use norm_base::InstanceId;
use norm_send_rules::{Receipt, SendFault};

impl Parts {
    /// Begins a new instance: nothing of it is enqueued, wanted, asked for, flushed or confirmed yet. Open watermarks are cut.
    fn begin_anew(&mut self, instance: InstanceId)
        ensures profile { self.new.profile ≡ self.old.profile }
        ensures stands { SenderMoves (kept_of self.old) (kept_of self.new) (λ p s. begun_anew instance s) }
    {
        self.window.clear();
        self.union.clear();
        self.book.cut_all();
        self.pace = self.pace.begun_anew(instance);
    }

    /// Begins a new instance, unless its id counts as used (`Pace::is_used`): then nothing changes.
    pub(crate) fn restart(&mut self, instance: InstanceId) -> Result<Receipt, SendFault>
        ensures range { InRange self.old.profile }
        ensures profile { self.new.profile ≡ self.old.profile }
        ensures stands { (s : SenderState) → Agrees (kept_of self.old) s
            → Agrees (kept_of self.new) (restarted s instance).0 × (result ≡ (restarted s instance).1) }
    {
        hold_range(&self.profile);
        // Receivers go by what lies above what they know, so an id that was used before would be passed over, or taken for the old instance.
        if self.pace.is_used(instance) {
            return Err(SendFault::IdUsed { instance });
        }
        self.begin_anew(instance);
        Ok(Receipt::Restarted { instance })
    }
}
