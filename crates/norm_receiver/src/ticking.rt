//! A tick of a receiver (RFC 5740 section 5.3): it sends at most one datagram.

ghost use Rattle.std.specs.Prelude.{◌≡◌};
ghost use Rattle.norm_receive_rules.specs.ReceiverState.{ReceiverState};
ghost use Rattle.norm_receive_rules.specs.Ticking.{asks_where_needed, ends_back_off, ticked};
ghost use Rattle.norm_receiver.specs.ReceiverKept.{Stands};
ghost use Rattle.norm_receiver.specs.Moves.{IsSent};
ghost use Rattle.norm_receiver.specs.Inside.{kept_of};

use crate::nacking::Asks;
use crate::parts::Parts;
use norm_base::{Datagram, Moment, Sent};

impl Parts {
    /// If something is needed, begins a hold-off, and sends a NACK unless others have asked for everything that it would ask for.
    fn ask_where_needed(&mut self, now: Moment, out: &mut Datagram) -> Sent
        ensures profile { self.new.profile ≡ self.old.profile }
        ensures sent { (s : ReceiverState) → Stands (kept_of self.old) s
            → IsSent (kept_of self.new) out.new result (asks_where_needed self.old.profile now s) }
    {
        match self.write_nack(out) {
            Asks::Nothing => Sent::Nothing,
            // Held off as after a NACK of its own: the same repair was asked for.
            Asks::Heard => {
                self.numbers = self.numbers.holding_off(&self.profile, now);
                Sent::Nothing
            }
            Asks::Written => {
                self.numbers = self.numbers.holding_off(&self.profile, now).sent();
                Sent::Datagram
            }
        }
    }

    /// Ends the back-off if it has expired, and then sends a NACK if one is called for.
    fn end_back_off(&mut self, now: Moment, out: &mut Datagram) -> Sent
        ensures profile { self.new.profile ≡ self.old.profile }
        ensures sent { (s : ReceiverState) → Stands (kept_of self.old) s
            → IsSent (kept_of self.new) out.new result (ends_back_off self.old.profile now s) }
    {
        if !self.numbers.ends_back_off(now) {
            return Sent::Nothing;
        }
        self.numbers = self.numbers.backed_off();
        self.ask_where_needed(now, out)
    }

    /// Sends the acknowledgement that is due. If none is due, ends a back-off that has expired.
    pub(crate) fn tick(&mut self, now: Moment, out: &mut Datagram) -> Sent
        ensures profile { self.new.profile ≡ self.old.profile }
        ensures sent { (s : ReceiverState) → Stands (kept_of self.old) s
            → IsSent (kept_of self.new) out.new result (ticked self.old.profile s now) }
    {
        match self.numbers.due {
            // The acknowledgement first: a sender in hold mode may stand still for it, and a NACK can wait for another tick.
            Some(at) => self.acknowledge(at, out),
            None => self.end_back_off(now, out),
        }
    }
}
