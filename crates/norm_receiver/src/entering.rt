//! Messages of the sender by their instance (RFC 5740 section 4.2.1): the current one, one that the receiver goes on to, or any other.

ghost use Rattle.std.specs.Prelude.{◌≡◌, ◌<◌, ◌==◌, IfOk, OnErr, true, unwrap_or, option_and_then};
ghost use Rattle.norm_receive_rules.specs.ReceiverState.{ReceiverState};
ghost use Rattle.norm_receive_rules.specs.Leaving.{enters, is_in, goes_to, entered};
ghost use Rattle.norm_receive_rules.specs.AllNeeds.{needs_nothing};
ghost use Rattle.norm_receive_rules.specs.BackingOff.{may_need};
ghost use Rattle.norm_receive_rules.specs.Receiving.{learns, takes_in, in_instance};
ghost use Rattle.norm_receive_rules.specs.Wanting.{comes_in};
ghost use Rattle.norm_receiver.specs.Receiving.{said_received, IsSaid};
ghost use Rattle.norm_receiver.specs.ReceiverKept.{Stands};
ghost use Rattle.norm_receiver.specs.Inside.{kept_of};

use crate::needs::is_all_quiet;
use crate::parts::Parts;
use crate::receiving::Said;
use norm_base::{InstanceId, Memory, Moment, NodeId};
use norm_ext::index_named;

/// Who sent a message, in which instance, and the object transport id that it names.
#[derive(Clone, Copy, Debug)]
pub(crate) struct Naming {
    pub source: NodeId,
    pub instance: InstanceId,
    pub object: u16,
}

impl Parts {
    /// Returns the receiver as it begins this instance.
    // A whole new state beside the old one: if memory runs out in the message that begins an instance, this one stays as it was.
    fn entering(&self, instance: InstanceId) -> Result<Parts, Memory>
        ensures profile { IfOk result (λ next. next.profile ≡ self.now.profile) }
        ensures state { IfOk result (λ next. (s : ReceiverState) → Stands (kept_of self.now) s → Stands (kept_of next) (enters instance s)) }
    {
        let hold = self.hold.anew()?;
        Ok(Parts {
            profile: self.profile,
            hold,
            heard: self.heard.anew(),
            numbers: self.numbers.entering(instance),
            asked: self.asked.anew(),
        })
    }

    pub(crate) fn needs_nothing(&self) -> bool
        ensures { (s : ReceiverState) → Stands (kept_of self.now) s → result ≡ needs_nothing self.now.profile s }
    {
        is_all_quiet(&self.hold, &self.numbers)
    }

    /// Starts a back-off if something is needed, no back-off is running, and no hold-off is in effect.
    fn may_need(&mut self, now: Moment, draw: u32)
        ensures profile { self.new.profile ≡ self.old.profile }
        ensures state { (s : ReceiverState) → Stands (kept_of self.old) s → Stands (kept_of self.new) (may_need self.old.profile now draw s) }
    {
        if !self.numbers.may_back_off(now) {
            return;
        }
        if self.needs_nothing() {
            return;
        }
        // What was heard before says nothing of what others ask for during this back-off.
        self.heard.clear();
        self.numbers = self.numbers.backing_off(&self.profile, now, draw);
    }

    /// Does what a message says of the object with this index, and then what [`may_need`](Parts::may_need) does.
    fn take_in_at(
        &mut self,
        index: u32,
        said: &Said<'_>,
        now: Moment,
        draw: u32,
    ) -> Result<(), Memory>
        requires whole { IsSaid said.now }
        requires last { index < 4294967295 }
        ensures profile { self.new.profile ≡ self.old.profile }
        ensures state { IfOk result (λ _. (s : ReceiverState) → Stands (kept_of self.old) s
            → Stands (kept_of self.new) (may_need self.old.profile now draw (said_received self.old.profile said.now index (record s { knows = learns index s.knows })))) }
        ensures refused { OnErr result ((s : ReceiverState) → Stands (kept_of self.old) s → Stands (kept_of self.new) s) }
    {
        self.receive(index, said)?;
        self.may_need(now, draw);
        Ok(())
    }

    /// Takes in a message of the current instance. If its object id stands for no index, nothing changes.
    fn take_in(
        &mut self,
        object: u16,
        said: &Said<'_>,
        now: Moment,
        draw: u32,
    ) -> Result<(), Memory>
        requires { IsSaid said.now }
        ensures profile { self.new.profile ≡ self.old.profile }
        ensures state { IfOk result (λ _. (s : ReceiverState) → Stands (kept_of self.old) s
            → Stands (kept_of self.new) (unwrap_or (takes_in self.old.profile now draw object (said_received self.old.profile said.now) s) s)) }
        ensures refused { OnErr result ((s : ReceiverState) → Stands (kept_of self.old) s → Stands (kept_of self.new) s) }
    {
        let Some(index) = index_named(&self.profile, self.numbers.known, object) else {
            return Ok(());
        };
        self.take_in_at(index, said, now, draw)
    }

    /// Goes on to the instance of a message, and takes the message in. If its object id stands for no index, nothing changes.
    fn go_on(
        &mut self,
        naming: &Naming,
        said: &Said<'_>,
        now: Moment,
        draw: u32,
    ) -> Result<(), Memory>
        requires { IsSaid said.now }
        ensures profile { self.new.profile ≡ self.old.profile }
        ensures state { IfOk result (λ _. (s : ReceiverState) → Stands (kept_of self.old) s
            → Stands (kept_of self.new) (unwrap_or (takes_in self.old.profile now draw naming.now.object (said_received self.old.profile said.now) (enters naming.now.instance s)) s)) }
        ensures refused { OnErr result ((s : ReceiverState) → Stands (kept_of self.old) s → Stands (kept_of self.new) s) }
    {
        // Of a new instance no index is known yet, so its ids are read from 0 on.
        let Some(index) = index_named(&self.profile, 0, naming.object) else {
            return Ok(());
        };
        let mut next = self.entering(naming.instance)?;
        next.take_in_at(index, said, now, draw)?;
        // Last: if memory runs out above, the receiver stays in the instance before.
        *self = next;
        Ok(())
    }

    /// Takes in a message of a sender. Ignores it unless it comes from the profile's sender, in the current instance or one that the
    /// receiver goes on to.
    pub(crate) fn deliver_said(
        &mut self,
        naming: &Naming,
        said: &Said<'_>,
        now: Moment,
        draw: u32,
    ) -> Result<(), Memory>
        requires { IsSaid said.now }
        ensures profile { self.new.profile ≡ self.old.profile }
        ensures state { IfOk result (λ _. (s : ReceiverState) → Stands (kept_of self.old) s
            → Stands (kept_of self.new) (in_instance self.old.profile now draw naming.now.source naming.now.instance naming.now.object (said_received self.old.profile said.now) s)) }
        ensures refused { OnErr result ((s : ReceiverState) → Stands (kept_of self.old) s → Stands (kept_of self.new) s) }
        ensures wanted { OnErr result ((s : ReceiverState) → Stands (kept_of self.old) s → comes_in self.old.profile s naming.now.source naming.now.instance ≡ true) }
    {
        // Only the profile's sender makes objects. From anybody else the same octets could squelch what it sends.
        if naming.source.number() != self.profile.sender {
            return Ok(());
        }
        if self.numbers.is_in(naming.instance) {
            return self.take_in(naming.object, said, now, draw);
        }
        if !self.numbers.goes_to(naming.instance) {
            return Ok(());
        }
        self.go_on(naming, said, now, draw)
    }
}
