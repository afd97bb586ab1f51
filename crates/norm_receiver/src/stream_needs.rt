//! What a receiver needs of a stream (RFC 5740 section 5.3), whose end it may not know.

ghost use Rattle.std.specs.Prelude.{◌≡◌, ◌+◌, ◌≤◌, ◌&&◌, false, true, is_none, min, Some, None, IfSome};
ghost use Rattle.fec_plan.specs.Partition.{most_blocks, source_symbols};
ghost use Rattle.fec_plan.specs.Points.{IsBlock, point as point_at, point_before, point_of};
ghost use Rattle.norm_receive_rules.specs.Holding.{Holding};
ghost use Rattle.norm_receive_rules.specs.Plans.{is_done, plan_of, says_stream};
ghost use Rattle.norm_receive_rules.specs.StreamNeeds.{flush_in, is_behind, open_block, stream_due, stream_needs};
ghost use Rattle.rx_hold.specs.Asked.{end_at};
ghost use Rattle.rx_hold.specs.EntryHold.{StandsFor as HoldStands};
ghost use Rattle.norm_receiver.specs.Quiet.{is_nil};
ghost use Rattle.norm_receiver.specs.ReceiverKept.{HasSeenBlocks};
ghost use Rattle.norm_receiver.specs.Streams.{AreBlocks, IsStreamOf, end_run, flush_run, missing_in, is_quiet_to_flush, missing_of, rest_at, sources, symbols_named, wants_of};

use crate::needs::{is_covered, is_done_before};
use crate::numbers::{FlushPlace, Numbers};
use fec_plan::{LAST_BLOCK, Plan, Point, Position};
use norm_receive_rules::Missing;
use rx_hold::Hold;

/// A span of source symbols of a block: from `first` up to and excluding `behind`.
#[derive(Clone, Copy, Debug, PartialEq, Eq)]
pub struct Run {
    pub block: u32,
    pub first: u8,
    pub behind: u8,
}

/// What may be needed of a stream apart from its info.
#[derive(Clone, Copy, Debug, PartialEq, Eq)]
pub struct StreamWants {
    /// Each block before this one is needed if it is incomplete.
    pub due: u32,
    /// The source symbols of the flush's block up to and including the flush. `None` if the farthest flush is not in this stream.
    pub flushed: Option<Run>,
    /// The source symbols of the end's block before the end, except those in `flushed`. `None` if the end is not known, or the stream not
    /// covered.
    pub ended: Option<Run>,
    /// The block from which on everything is needed, if the sender is past the stream and its end is not known. `None` otherwise, and if no
    /// message can name the block.
    pub rest: Option<u32>,
}

/// Returns the flush position if it is in this object.
fn flush_in(flush: &Option<Position>, index: u32) -> Option<Position>
    ensures exact { result ≡ flush_in flush.now index }
    ensures block { IfSome result (λ at. IsBlock at.block) }
{
    match flush {
        Some(at) if at.index == index => Some(*at),
        _ => None,
    }
}

/// Whether the sender was seen in a later object, or flushed one.
fn is_behind(farthest: &Option<Point>, flush: &Option<Position>, index: u32) -> bool
    ensures { result ≡ is_behind farthest.now flush.now index }
{
    if let Some(at) = farthest {
        if index < at.index {
            return true;
        }
    }
    match flush {
        Some(at) => index < at.index,
        None => false,
    }
}

/// Returns [`StreamWants::due`]: the greatest block that was seen, or the flush's if that is greater.
fn stream_due(seen: u32, within: &Option<Position>) -> u32
    requires seen { IsBlock seen }
    requires within { IfSome within.now (λ at. IsBlock at.block) }
    ensures exact { result ≡ stream_due seen within.now }
    ensures block { IsBlock result }
{
    match within {
        Some(at) => seen.max(at.block),
        None => seen,
    }
}

/// Returns the greatest block that was seen of a stream. 0 if none was.
fn block_seen(hold: &Hold, index: u32) -> u32
    requires { hold.now.point.index ≤ index }
    ensures block { IsBlock result }
    ensures seen { (s : Holding) → HoldStands hold.now s → HasSeenBlocks s → IfSome (plan_of s index) (λ found. says_stream found.flags ≡ true → result ≡ found.seen) }
{
    match hold.seen(index) {
        // Of the stream and not of the numbers, whose farthest block may be another object's.
        Some(block) => block.min(LAST_BLOCK),
        None => 0,
    }
}

/// Returns the position of a stream's end, if the stream is covered and the end is known.
fn end_of(hold: &Hold, index: u32, covered: bool) -> Option<Position>
    requires { hold.now.point.index ≤ index }
    ensures exact { covered ≡ true → (s : Holding) → HoldStands hold.now s → result ≡ end_at hold.now.p s index }
    ensures block { IfSome result (λ at. IsBlock at.block) }
{
    if !covered {
        return None;
    }
    match hold.end(index) {
        Some(id) => Some(FlushPlace { index, id }.position()),
        None => None,
    }
}

/// Whether a block of a stream was handed up, or has enough symbols to be decoded.
pub(crate) fn is_done(hold: &Hold, index: u32, plan: &Plan, block: u32) -> bool
    requires stream { IsStreamOf hold.now index plan.now }
    requires block { IsBlock block }
    ensures exact { (s : Holding) → HoldStands hold.now s → IfSome (plan_of s index) (λ found. result ≡ is_done s found block) }
    ensures ahead { result ≡ false → point_before (point_at index block) (point_of hold.now.point) ≡ false }
{
    let at = hold.hand_up();
    let first = Point {
        index: at.index,
        block: at.block,
    };
    let this = Point { index, block };
    if this.is_before(&first) {
        return true;
    }
    match hold.missing(index, block) {
        Missing::Done => true,
        Missing::Short { .. } => false,
        Missing::Unseen => false,
    }
}

/// Returns the greatest block seen, or the next one if that is done.
fn open_block(hold: &Hold, index: u32, plan: &Plan, seen: u32) -> u32
    requires stream { IsStreamOf hold.now index plan.now }
    requires block { IsBlock seen }
    ensures { (s : Holding) → HoldStands hold.now s → IfSome (plan_of s index) (λ found. seen ≡ found.seen → result ≡ open_block s found) }
{
    if is_done(hold, index, plan, seen) {
        return seen + 1;
    }
    seen
}

/// Returns how many source symbols of a block lie up to and including `symbol`. A parity symbol counts as the last source symbol.
fn symbols_through(plan: &Plan, symbol: u8, block: u32) -> u8
    ensures { result ≡ min (symbol + 1) (source_symbols plan.now block) }
{
    (u16::from(symbol) + 1).min(u16::from(plan.source_len(block))) as u8
}

/// Returns how many source symbols of a block lie up to and including the flush. 0 if that is not in this block.
fn symbols_flushed(plan: &Plan, within: &Option<Position>, block: u32) -> u8
    ensures { result ≡ symbols_named plan.now within.now block }
{
    match within {
        Some(at) if at.block == block => symbols_through(plan, at.symbol, block),
        _ => 0,
    }
}

/// Returns [`StreamWants::flushed`].
fn flush_run(plan: &Plan, within: &Option<Position>) -> Option<Run>
    requires { IfSome within.now (λ at. IsBlock at.block) }
    ensures exact { result ≡ flush_run plan.now within.now }
    ensures block { IfSome result (λ run. IsBlock run.block) }
{
    match within {
        Some(at) => Some(Run {
            block: at.block,
            first: 0,
            behind: symbols_through(plan, at.symbol, at.block),
        }),
        None => None,
    }
}

/// Returns [`StreamWants::ended`].
fn end_run(
    plan: &Plan,
    covered: bool,
    within: &Option<Position>,
    end: &Option<Position>,
) -> Option<Run>
    requires { IfSome end.now (λ at. IsBlock at.block) }
    ensures exact { result ≡ end_run covered plan.now within.now end.now }
    ensures block { IfSome result (λ run. IsBlock run.block) }
{
    if !covered {
        return None;
    }
    match end {
        Some(at) => Some(Run {
            block: at.block,
            first: symbols_flushed(plan, within, at.block),
            behind: at.symbol,
        }),
        None => None,
    }
}

/// Returns [`StreamWants::rest`]: block `least`, if it is needed and a message can name it.
fn rest_from(end: &Option<Position>, behind: bool, least: u32) -> Option<u32>
    ensures exact { result ≡ rest_at (is_none end.now && behind) least }
    ensures block { IfSome result (λ block. IsBlock block) }
{
    if end.is_some() {
        return None;
    }
    if !behind {
        return None;
    }
    // Block 16,777,215 is done and no end came: no request can name more of the stream. Later objects are requested all the same.
    if least > LAST_BLOCK {
        return None;
    }
    Some(least)
}

/// Returns what may be needed of a stream apart from its info. If the stream is covered, it searches the blocks for the end.
pub(crate) fn stream_wants(hold: &Hold, numbers: &Numbers, index: u32, plan: &Plan) -> StreamWants
    requires { IsStreamOf hold.now index plan.now }
    ensures widths { AreBlocks result }
    ensures exact { (s : Holding) → HoldStands hold.now s → HasSeenBlocks s → IfSome (plan_of s index) (λ found.
        result ≡ wants_of hold.now.p numbers.now.farthest numbers.now.flush s found) }
{
    let seen = block_seen(hold, index);
    let within = flush_in(&numbers.flush, index);
    let covered = is_covered(&numbers.farthest, &numbers.flush, index);
    let end = end_of(hold, index, covered);
    let behind = is_behind(&numbers.farthest, &numbers.flush, index);
    let least = open_block(hold, index, plan, seen);
    StreamWants {
        due: stream_due(seen, &within),
        flushed: flush_run(plan, &within),
        ended: end_run(plan, covered, &within, &end),
        rest: rest_from(&end, behind, least),
    }
}

/// Whether no source symbol of a run is missing: each is held, or its block is done.
fn is_there(hold: &Hold, index: u32, plan: &Plan, run: Run) -> bool
    requires stream { IsStreamOf hold.now index plan.now }
    requires block { IsBlock run.block }
    ensures { (s : Holding) → HoldStands hold.now s → IfSome (plan_of s index) (λ found. result ≡ is_nil (sources (missing_in s found run))) }
{
    if is_done(hold, index, plan, run.block) {
        return true;
    }
    let block = run.block;
    let mut symbol = run.first;
    while symbol < run.behind {
        let at = Position {
            index,
            block,
            symbol,
        };
        if !hold.holds(at) {
            return false;
        }
        symbol += 1;
    }
    true
}

/// Whether no source symbol of a run is missing, if there is one.
fn are_there(hold: &Hold, index: u32, plan: &Plan, run: Option<Run>) -> bool
    requires stream { IsStreamOf hold.now index plan.now }
    requires block { IfSome run (λ some. IsBlock some.block) }
    ensures { (s : Holding) → HoldStands hold.now s → IfSome (plan_of s index) (λ found. result ≡ is_nil (sources (missing_of s found run))) }
{
    match run {
        Some(run) => is_there(hold, index, plan, run),
        None => true,
    }
}

fn is_nowhere(rest: &Option<u32>) -> bool
    ensures { result ≡ is_none rest.now }
{
    rest.is_none()
}

/// Whether nothing is needed of a stream's due blocks, and of the source symbols up to and including a flush.
fn is_quiet_to_flush(hold: &Hold, numbers: &Numbers, index: u32, plan: &Plan) -> bool
    requires { IsStreamOf hold.now index plan.now }
    ensures { (s : Holding) → HoldStands hold.now s → HasSeenBlocks s → IfSome (plan_of s index) (λ found.
        result ≡ is_quiet_to_flush s found (wants_of hold.now.p numbers.now.farthest numbers.now.flush s found)) }
{
    let within = flush_in(&numbers.flush, index);
    let due = stream_due(block_seen(hold, index), &within);
    if !is_done_before(hold, index, due) {
        return false;
    }
    are_there(hold, index, plan, flush_run(plan, &within))
}

/// Whether nothing is needed of a stream apart from its info.
pub(crate) fn is_stream_quiet(hold: &Hold, numbers: &Numbers, index: u32, plan: &Plan) -> bool
    requires { IsStreamOf hold.now index plan.now }
    ensures { (s : Holding) → HoldStands hold.now s → HasSeenBlocks s → IfSome (plan_of s index) (λ found.
        result ≡ is_nil (stream_needs hold.now.p numbers.now.farthest numbers.now.flush s found)) }
{
    // First the tests that cost little: the end is searched for block by block.
    if !is_quiet_to_flush(hold, numbers, index, plan) {
        return false;
    }
    let wants = stream_wants(hold, numbers, index, plan);
    if !are_there(hold, index, plan, wants.ended) {
        return false;
    }
    is_nowhere(&wants.rest)
}
