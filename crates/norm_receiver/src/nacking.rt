//! The NACK of a receiver (RFC 5740 section 5.3): what it needs, as far as that fits.

ghost use Rattle.std.specs.Prelude.{◌≡◌, ◌≤◌, ◌<◌, ℕ, List, None, IfSome, false};
ghost use Rattle.fec_plan.specs.Partition.{blocks};
ghost use Rattle.fec_plan.specs.Points.{point as point_at, point_before, point_of};
ghost use Rattle.norm_receive_rules.specs.ReceiverState.{ReceiverState};
ghost use Rattle.norm_receive_rules.specs.Plans.{lacking, plan_of};
ghost use Rattle.norm_receive_rules.specs.Needs.{Object, ObjectInfo, counts_from, object_needs};
ghost use Rattle.norm_receive_rules.specs.AllNeeds.{needs, needs_of};
ghost use Rattle.norm_receive_rules.specs.HeardNeeds.{is_heard};
ghost use Rattle.rx_hold.specs.Asked.{IsShortIn};
ghost use Rattle.norm_receiver.specs.ReceiverKept.{Stands};
ghost use Rattle.norm_receiver.specs.Walking.{Walked, walk_where, walk_lacking, walk_on, HasRoom, IsAt};
ghost use Rattle.norm_receiver.specs.PlanOf.{IsPlanOf};
ghost use Rattle.norm_receiver.specs.Asking.{IsAsking};
ghost use Rattle.norm_receiver.specs.Inside.{kept_of};

use crate::asking::Asking;
use crate::feedback::write_nack_front;
use crate::needs::{blocks_due, is_covered, is_stream, lacks_info, last_known};
use crate::parts::Parts;
use crate::requesting::Need;
use fec_plan::{Plan, Point};
use norm_base::Datagram;
use norm_receive_rules::Missing;

/// What comes of a back-off that ended.
#[derive(Clone, Copy, Debug, PartialEq, Eq)]
pub(crate) enum Asks {
    /// Nothing is needed.
    Nothing,
    /// Others asked for everything that a NACK would ask for.
    Heard,
    /// The NACK is written.
    Written,
}

impl Parts {
    /// Requests an object that was not taken up, and its info, if the object is covered.
    fn ask_unknown(&self, index: u32, covered: bool, asking: &mut Asking, out: &mut Datagram)
        requires room { HasRoom asking.old.writer out.old }
        ensures room { HasRoom asking.new.writer out.new }
        ensures walked { (s : ReceiverState) (front : List ℕ) (w : Walked) → Stands (kept_of self.now) s → plan_of s.holding index ≡ None
            → IsAt self.now.profile (is_heard s.knows.heard s.holding) asking.old out.old front w
            → IsAt self.now.profile (is_heard s.knows.heard s.holding) asking.new out.new front (walk_where self.now.profile covered w (Object index)) }
    {
        if !covered {
            return;
        }
        let heard = self.heard.has_object(index);
        asking.add(&self.profile, Need::Object { index }, heard, out);
    }

    /// Requests the info of an object if `lacks`. Call it before any of the object's symbols are requested.
    fn ask_info(&self, index: u32, lacks: bool, asking: &mut Asking, out: &mut Datagram)
        requires room { HasRoom asking.old.writer out.old }
        ensures room { HasRoom asking.new.writer out.new }
        ensures walked { (s : ReceiverState) (front : List ℕ) (w : Walked) → Stands (kept_of self.now) s
            → IsAt self.now.profile (is_heard s.knows.heard s.holding) asking.old out.old front w
            → IsAt self.now.profile (is_heard s.knows.heard s.holding) asking.new out.new front (walk_where self.now.profile lacks w (ObjectInfo index)) }
    {
        if !lacks {
            return;
        }
        let heard = self.heard.has_info(index);
        asking.add(&self.profile, Need::ObjectInfo { index }, heard, out);
    }

    /// Requests as many symbols as an incomplete block lacks.
    fn ask_block(
        &self,
        index: u32,
        block: u32,
        plan: &Plan,
        asking: &mut Asking,
        out: &mut Datagram,
    )
        requires ahead { point_before (point_at index block) (point_of self.now.hold.point) ≡ false }
        requires plan { IsPlanOf self.now.hold index plan.now }
        requires block { block < blocks plan.now }
        requires short { IsShortIn self.now.hold index block }
        requires room { HasRoom asking.old.writer out.old }
        ensures room { HasRoom asking.new.writer out.new }
        ensures walked { (s : ReceiverState) (front : List ℕ) (w : Walked) → Stands (kept_of self.now) s
            → IsAt self.now.profile (is_heard s.knows.heard s.holding) asking.old out.old front w
            → IfSome (plan_of s.holding index) (λ found. IsAt self.now.profile (is_heard s.knows.heard s.holding) asking.new out.new front
            (walk_lacking self.now.profile found block (lacking s.holding found block) w)) }
    {
        let width = plan.source_len(block);
        match self.hold.missing(index, block) {
            Missing::Short { wanted } => {
                let heard = self
                    .heard
                    .has_symbols(Point { index, block }, width, wanted);
                let need = Need::Symbols {
                    index,
                    block,
                    wanted,
                };
                asking.add(&self.profile, need, heard, out);
            }
            Missing::Done | Missing::Unseen => {}
        }
    }

    /// Requests the symbols that an object's blocks before `due` lack. It stops if a request does not fit.
    pub(crate) fn ask_blocks(
        &self,
        index: u32,
        plan: &Plan,
        due: u32,
        asking: &mut Asking,
        out: &mut Datagram,
    )
        requires reached { self.now.hold.point.index ≤ index }
        requires plan { IsPlanOf self.now.hold index plan.now }
        requires due { due ≤ blocks plan.now }
        requires room { HasRoom asking.old.writer out.old }
        ensures room { HasRoom asking.new.writer out.new }
        ensures walked { (s : ReceiverState) (front : List ℕ) (w : Walked) → Stands (kept_of self.now) s
            → IsAt self.now.profile (is_heard s.knows.heard s.holding) asking.old out.old front w
            → IfSome (plan_of s.holding index) (λ found. IsAt self.now.profile (is_heard s.knows.heard s.holding) asking.new out.new front
            (walk_on self.now.profile (counts_from s.holding found due 0) w)) }
    {
        // From one short block to the next: an object may have very many blocks, most of them done.
        let mut short = self.hold.first_short(index);
        while let Some(block) = short {
            if block >= due {
                return;
            }
            if asking.full {
                return;
            }
            self.ask_block(index, block, plan, asking, out);
            short = self.hold.next_short(index, block);
        }
    }

    /// Requests the symbols that due blocks of data or a file lack. Call it after `ask_info`.
    fn ask_counts(&self, index: u32, plan: &Plan, asking: &mut Asking, out: &mut Datagram)
        requires reached { self.now.hold.point.index ≤ index }
        requires plan { IsPlanOf self.now.hold index plan.now }
        requires room { HasRoom asking.old.writer out.old }
        ensures room { HasRoom asking.new.writer out.new }
        ensures walked { (s : ReceiverState) (front : List ℕ) (w : Walked) → Stands (kept_of self.now) s
            → IsAt self.now.profile (is_heard s.knows.heard s.holding) asking.old out.old front w
            → IfSome (plan_of s.holding index) (λ found. IsAt self.now.profile (is_heard s.knows.heard s.holding) asking.new out.new front
            (walk_on self.now.profile (object_needs s.knows.farthest s.knows.flush s.holding found) w)) }
    {
        let due = blocks_due(&self.numbers, index, plan.blocks());
        self.ask_blocks(index, plan, due, asking, out);
    }

    /// Requests what is needed of an object: its info first. One that was not taken up is requested whole, if it is covered.
    fn ask_object(&self, index: u32, asking: &mut Asking, out: &mut Datagram)
        requires reached { self.now.hold.point.index ≤ index }
        requires room { HasRoom asking.old.writer out.old }
        ensures room { HasRoom asking.new.writer out.new }
        ensures walked { (s : ReceiverState) (front : List ℕ) (w : Walked) → Stands (kept_of self.now) s
            → IsAt self.now.profile (is_heard s.knows.heard s.holding) asking.old out.old front w
            → IsAt self.now.profile (is_heard s.knows.heard s.holding) asking.new out.new front
            (walk_on self.now.profile (needs_of self.now.profile s.knows.farthest s.knows.flush s.holding index) w) }
    {
        let covered = is_covered(&self.numbers.farthest, &self.numbers.flush, index);
        let Some(flags) = self.hold.flags(index) else {
            self.ask_unknown(index, covered, asking, out);
            return;
        };
        // Not taken: what has flags has a plan.
        let Some(plan) = self.hold.plan(index) else {
            return;
        };
        let lacks = lacks_info(&self.hold, index, flags, covered);
        self.ask_info(index, lacks, asking, out);
        if is_stream(flags) {
            self.ask_stream(index, &plan, asking, out);
            return;
        }
        self.ask_counts(index, &plan, asking, out);
    }

    /// Requests everything that is needed, in order, until a need does not fit.
    fn ask_all(&self, asking: &mut Asking, out: &mut Datagram)
        requires room { HasRoom asking.old.writer out.old }
        ensures room { HasRoom asking.new.writer out.new }
        ensures walked { (s : ReceiverState) (front : List ℕ) (w : Walked) → Stands (kept_of self.now) s
            → IsAt self.now.profile (is_heard s.knows.heard s.holding) asking.old out.old front w
            → IsAt self.now.profile (is_heard s.knows.heard s.holding) asking.new out.new front (walk_on self.now.profile (needs self.now.profile s) w) }
    {
        let last = last_known(&self.numbers);
        let mut index = u64::from(self.hold.hand_up().index);
        while index < last {
            if asking.full {
                return;
            }
            self.ask_object(index as u32, asking, out);
            index += 1;
        }
    }

    /// Writes the NACK: the longest prefix of the needs whose requests fit `e` octets. It takes no memory.
    pub(crate) fn write_nack(&self, out: &mut Datagram) -> Asks
        ensures { (s : ReceiverState) → Stands (kept_of self.now) s → IsAsking self.now.profile s out.new result }
    {
        if self.needs_nothing() {
            return Asks::Nothing;
        }
        write_nack_front(&self.profile, &self.numbers, out);
        let mut asking = Asking::new(&self.profile);
        self.ask_all(&mut asking, out);
        // RFC 5401 section 3.2.2: others asked for all of it, and the sender repeats each symbol for everybody.
        if asking.all_heard {
            return Asks::Heard;
        }
        Asks::Written
    }
}
