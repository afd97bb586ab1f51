//! The acknowledgement of a flush (RFC 5740 section 5.5.3), which a tick sends before anything else.

ghost use Rattle.std.specs.Prelude.{◌≡◌, [], ◌∷◌, None, Some};
ghost use Rattle.norm_ext.specs.Written.{writes};
ghost use Rattle.norm_receive_rules.specs.ReceiverState.{ReceiverState};
ghost use Rattle.norm_receive_rules.specs.Nack.{ack_message};
ghost use Rattle.norm_receive_rules.specs.Ticking.{sends};
ghost use Rattle.norm_receiver.specs.ReceiverKept.{Stands};
ghost use Rattle.norm_receiver.specs.Moves.{IsSent};
ghost use Rattle.norm_receiver.specs.Inside.{kept_of};

use crate::feedback::write_mark;
use crate::numbers::FlushPlace;
use crate::parts::Parts;
use fec_plan::Position;
use norm_base::{Datagram, Sent};

impl Parts {
    /// Sends the acknowledgement of a flush position, which is no longer due then.
    pub(crate) fn acknowledge(&mut self, at: FlushPlace, out: &mut Datagram) -> Sent
        ensures profile { self.new.profile ≡ self.old.profile }
        ensures sent { (s : ReceiverState) → Stands (kept_of self.old) s
            → IsSent (kept_of self.new) out.new result (sends (writes (ack_message self.old.profile s at) (at.index ∷ [])) (record s { knows = record (s.knows) { due = None } })) }
    {
        write_mark(&self.profile, &self.numbers, at, out);
        self.numbers = self.numbers.acknowledged().sent();
        Sent::Datagram
    }

    pub(crate) fn due(&self) -> Option<Position>
        ensures { (s : ReceiverState) → Stands (kept_of self.now) s → result ≡ s.knows.due }
    {
        self.numbers.due_position()
    }
}
