//! What a receiver hears others ask for (RFC 5401 section 3.2.2, RFC 5740 section 5.3).

ghost use Rattle.std.specs.Prelude.{◌≡◌, IfOk, OnErr, true};
ghost use Rattle.norm_receive_rules.specs.ReceiverState.{ReceiverState};
ghost use Rattle.norm_receive_rules.specs.Overhearing.{overheard};
ghost use Rattle.norm_receive_rules.specs.Wanting.{is_hearing};
ghost use Rattle.norm_receiver.specs.Delivering.{adv_heard, adv_wants, nack_heard, nack_wants};
ghost use Rattle.norm_receiver.specs.ReceiverKept.{Stands};
ghost use Rattle.norm_receiver.specs.Inside.{kept_of};

use crate::parts::Parts;
use norm_base::Memory;
use norm_ext::{CmdHead, Requests};
use norm_fbmsg::NackMsg;
use rx_heard::hear_requests;

impl Parts {
    /// Notes what requests ask for if a back-off is running, and otherwise ignores them. Ignores all of them too if what is kept might
    /// exceed its bound.
    fn overhear(&mut self, requests: &Requests<'_>) -> Result<(), Memory>
        ensures profile { self.new.profile ≡ self.old.profile }
        ensures state { IfOk result (λ _. (s : ReceiverState) → Stands (kept_of self.old) s
            → Stands (kept_of self.new) (overheard self.old.profile requests.now s)) }
        ensures refused { OnErr result ((s : ReceiverState) → Stands (kept_of self.old) s → Stands (kept_of self.new) s) }
        ensures wanted { OnErr result ((s : ReceiverState) → Stands (kept_of self.old) s → is_hearing s ≡ true) }
    {
        // Outside of a back-off there is no NACK to suppress.
        if self.numbers.backoff.is_none() {
            return Ok(());
        }
        // Heard as a whole or not at all. Without a bound, a member that lies could make the lists ever longer. If too much were an error,
        // it could end the receiver. A message that is passed over may cost a request that others made too.
        hear_requests(
            &mut self.heard,
            &mut self.asked,
            &self.profile,
            self.numbers.known,
            requests.iter(),
        )
    }

    /// Hears a NACK. Ignores it unless it comes from another node, and goes to this sender in this instance.
    pub(crate) fn hear_nack(&mut self, msg: &NackMsg<'_>) -> Result<(), Memory>
        ensures profile { self.new.profile ≡ self.old.profile }
        ensures state { IfOk result (λ _. (s : ReceiverState) → Stands (kept_of self.old) s → Stands (kept_of self.new) (nack_heard self.old.profile msg.now s)) }
        ensures refused { OnErr result ((s : ReceiverState) → Stands (kept_of self.old) s → Stands (kept_of self.new) s) }
        ensures wanted { OnErr result ((s : ReceiverState) → Stands (kept_of self.old) s → nack_wants self.old.profile msg.now s ≡ true) }
    {
        // A network may give a NACK back to who sent it. It must not suppress itself.
        if msg.source == self.numbers.node {
            return Ok(());
        }
        if msg.sender.number() != self.profile.sender {
            return Ok(());
        }
        if !self.numbers.is_in(msg.instance) {
            return Ok(());
        }
        self.overhear(&msg.requests)
    }

    /// Hears a REPAIR_ADV, which says what the sender was asked for. Ignores it unless it comes from this sender in this instance.
    pub(crate) fn hear_adv(&mut self, head: &CmdHead, requests: &Requests<'_>) -> Result<(), Memory>
        ensures profile { self.new.profile ≡ self.old.profile }
        ensures state { IfOk result (λ _. (s : ReceiverState) → Stands (kept_of self.old) s
            → Stands (kept_of self.new) (adv_heard self.old.profile head.now requests.now s)) }
        ensures refused { OnErr result ((s : ReceiverState) → Stands (kept_of self.old) s → Stands (kept_of self.new) s) }
        ensures wanted { OnErr result ((s : ReceiverState) → Stands (kept_of self.old) s → adv_wants self.old.profile head.now s ≡ true) }
    {
        if head.source.number() != self.profile.sender {
            return Ok(());
        }
        if !self.numbers.is_in(head.instance) {
            return Ok(());
        }
        self.overhear(requests)
    }
}
