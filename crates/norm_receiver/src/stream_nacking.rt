//! What a NACK asks for of a stream apart from its info (RFC 5740 section 5.3).

ghost use Rattle.std.specs.Prelude.{◌≡◌, ℕ, List, IfSome, false, not};
ghost use Rattle.fec_plan.specs.Points.{IsBlock, point_before, point_of};
ghost use Rattle.norm_receive_rules.specs.HeardNeeds.{is_heard};
ghost use Rattle.norm_receive_rules.specs.Lazy.{lazily};
ghost use Rattle.norm_receive_rules.specs.Needs.{Source};
ghost use Rattle.norm_receive_rules.specs.Plans.{holds, plan_of};
ghost use Rattle.norm_receive_rules.specs.ReceiverState.{ReceiverState};
ghost use Rattle.norm_receive_rules.specs.StreamNeeds.{stream_needs};
ghost use Rattle.norm_receiver.specs.Inside.{kept_of};
ghost use Rattle.norm_receiver.specs.ReceiverKept.{Stands};
ghost use Rattle.norm_receiver.specs.Streams.{AreBlocks, IsStreamOf, missing_in, missing_of, rest_of, sources};
ghost use Rattle.norm_receiver.specs.Walking.{Walked, walk_where, walk_on, HasRoom, IsAt};

use crate::asking::Asking;
use crate::parts::Parts;
use crate::requesting::Need;
use crate::stream_needs::{Run, StreamWants, is_done, stream_wants};
use fec_plan::{Plan, Position};
use norm_base::Datagram;

impl Parts {
    /// Requests a source symbol if it is not held.
    fn ask_symbol(&self, at: Position, asking: &mut Asking, out: &mut Datagram)
        requires ahead { point_before (point_of at) (point_of self.now.hold.point) ≡ false }
        requires block { IsBlock at.block }
        requires room { HasRoom asking.old.writer out.old }
        ensures room { HasRoom asking.new.writer out.new }
        ensures walked { (s : ReceiverState) (front : List ℕ) (w : Walked) → Stands (kept_of self.now) s
            → IsAt self.now.profile (is_heard s.knows.heard s.holding) asking.old out.old front w
            → IsAt self.now.profile (is_heard s.knows.heard s.holding) asking.new out.new front (walk_where self.now.profile (not (holds s.holding at)) w (Source at)) }
    {
        if self.hold.holds(at) {
            return;
        }
        let heard = self.heard.has_symbol(at);
        asking.add(&self.profile, Need::Source { at }, heard, out);
    }

    /// Requests the missing source symbols of a run one by one, unless its block is done. It stops if a request does not fit.
    fn ask_run(&self, index: u32, plan: &Plan, run: Run, asking: &mut Asking, out: &mut Datagram)
        requires stream { IsStreamOf self.now.hold index plan.now }
        requires block { IsBlock run.block }
        requires room { HasRoom asking.old.writer out.old }
        ensures room { HasRoom asking.new.writer out.new }
        ensures walked { (s : ReceiverState) (front : List ℕ) (w : Walked) → Stands (kept_of self.now) s
            → IsAt self.now.profile (is_heard s.knows.heard s.holding) asking.old out.old front w
            → IfSome (plan_of s.holding index) (λ found. IsAt self.now.profile (is_heard s.knows.heard s.holding) asking.new out.new front
            (walk_on self.now.profile (sources (missing_in s.holding found run)) w)) }
    {
        if is_done(&self.hold, index, plan, run.block) {
            return;
        }
        let block = run.block;
        let mut symbol = run.first;
        while symbol < run.behind {
            if asking.full {
                return;
            }
            let at = Position {
                index,
                block,
                symbol,
            };
            self.ask_symbol(at, asking, out);
            symbol += 1;
        }
    }

    fn ask_missing(
        &self,
        index: u32,
        plan: &Plan,
        run: Option<Run>,
        asking: &mut Asking,
        out: &mut Datagram,
    )
        requires stream { IsStreamOf self.now.hold index plan.now }
        requires block { IfSome run (λ some. IsBlock some.block) }
        requires room { HasRoom asking.old.writer out.old }
        ensures room { HasRoom asking.new.writer out.new }
        ensures walked { (s : ReceiverState) (front : List ℕ) (w : Walked) → Stands (kept_of self.now) s
            → IsAt self.now.profile (is_heard s.knows.heard s.holding) asking.old out.old front w
            → IfSome (plan_of s.holding index) (λ found. IsAt self.now.profile (is_heard s.knows.heard s.holding) asking.new out.new front
            (walk_on self.now.profile (sources (missing_of s.holding found run)) w)) }
    {
        match run {
            Some(run) => self.ask_run(index, plan, run, asking, out),
            None => {}
        }
    }

    /// Requests everything of a stream from block `rest` on. Does nothing if `rest` is `None`.
    fn ask_rest(
        &self,
        index: u32,
        plan: &Plan,
        rest: Option<u32>,
        asking: &mut Asking,
        out: &mut Datagram,
    )
        requires stream { IsStreamOf self.now.hold index plan.now }
        requires block { IfSome rest (λ block. IsBlock block) }
        requires room { HasRoom asking.old.writer out.old }
        ensures room { HasRoom asking.new.writer out.new }
        ensures walked { (s : ReceiverState) (front : List ℕ) (w : Walked) → Stands (kept_of self.now) s
            → IsAt self.now.profile (is_heard s.knows.heard s.holding) asking.old out.old front w
            → IfSome (plan_of s.holding index) (λ found. IsAt self.now.profile (is_heard s.knows.heard s.holding) asking.new out.new front
            (walk_on self.now.profile (lazily (rest_of index rest)) w)) }
    {
        match rest {
            Some(block) => {
                let heard = self.heard.has_rest(plan.source_len(block), index, block);
                asking.add(&self.profile, Need::Rest { index, block }, heard, out);
            }
            None => {}
        }
    }

    /// Requests what is needed of a stream, whose due blocks were requested already.
    fn ask_behind(
        &self,
        index: u32,
        plan: &Plan,
        wants: &StreamWants,
        asking: &mut Asking,
        out: &mut Datagram,
    )
        requires stream { IsStreamOf self.now.hold index plan.now }
        requires blocks { AreBlocks wants.now }
        requires room { HasRoom asking.old.writer out.old }
        ensures room { HasRoom asking.new.writer out.new }
        ensures walked { (s : ReceiverState) (front : List ℕ) (w : Walked) → Stands (kept_of self.now) s
            → IsAt self.now.profile (is_heard s.knows.heard s.holding) asking.old out.old front w
            → IfSome (plan_of s.holding index) (λ found. IsAt self.now.profile (is_heard s.knows.heard s.holding) asking.new out.new front
            (walk_on self.now.profile (lazily (rest_of index wants.now.rest)) (walk_on self.now.profile (sources (missing_of s.holding found wants.now.ended))
            (walk_on self.now.profile (sources (missing_of s.holding found wants.now.flushed)) w)))) }
    {
        self.ask_missing(index, plan, wants.flushed, asking, out);
        self.ask_missing(index, plan, wants.ended, asking, out);
        self.ask_rest(index, plan, wants.rest, asking, out);
    }

    /// Requests what is needed of a stream, whose info was requested already.
    pub(crate) fn ask_stream(
        &self,
        index: u32,
        plan: &Plan,
        asking: &mut Asking,
        out: &mut Datagram,
    )
        requires stream { IsStreamOf self.now.hold index plan.now }
        requires room { HasRoom asking.old.writer out.old }
        ensures room { HasRoom asking.new.writer out.new }
        ensures walked { (s : ReceiverState) (front : List ℕ) (w : Walked) → Stands (kept_of self.now) s
            → IsAt self.now.profile (is_heard s.knows.heard s.holding) asking.old out.old front w
            → IfSome (plan_of s.holding index) (λ found. IsAt self.now.profile (is_heard s.knows.heard s.holding) asking.new out.new front
            (walk_on self.now.profile (stream_needs self.now.profile s.knows.farthest s.knows.flush s.holding found) w)) }
    {
        let wants = stream_wants(&self.hold, &self.numbers, index, plan);
        self.ask_blocks(index, plan, wants.due, asking, out);
        self.ask_behind(index, plan, &wants, asking, out);
    }
}
