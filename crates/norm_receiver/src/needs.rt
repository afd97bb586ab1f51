//! What a receiver needs, by what it saw of the sender (RFC 5740 section 5.3, RFC 5401 section 3.2.2).

ghost use Rattle.std.specs.Prelude.{◌≡◌, ◌+◌, ◌≤◌, ◌&&◌, not, ℕ, Some, None, is_some, IfSome};
ghost use Rattle.norm_receive_rules.specs.Holding.{Holding};
ghost use Rattle.fec_plan.specs.Partition.{blocks};
ghost use Rattle.norm_receive_rules.specs.Plans.{says_info, says_stream, info_of, plan_of, cut_of_plan};
ghost use Rattle.norm_receive_rules.specs.Needs.{is_covered, blocks_before, blocks_due, counts_from, object_needs};
ghost use Rattle.norm_receive_rules.specs.AllNeeds.{needs_of, needs_by, last_known};
ghost use Rattle.rx_hold.specs.EntryHold.{StandsFor as HoldStands};
ghost use Rattle.norm_receiver.specs.Quiet.{is_nil};
ghost use Rattle.norm_receiver.specs.PlanOf.{IsPlanOf};
ghost use Rattle.norm_receiver.specs.ReceiverKept.{HasSeenBlocks};

use crate::numbers::Numbers;
use crate::stream_needs::is_stream_quiet;
use fec_plan::{Plan, Point, Position};
use norm_ext::flags::{INFO, STREAM};
use norm_ext::items::has_flag;
use rx_hold::Hold;

/// Whether the sender was seen in a later object, or flushed this object or a later one.
pub(crate) fn is_covered(farthest: &Option<Point>, flush: &Option<Position>, index: u32) -> bool
    ensures { result ≡ is_covered farthest.now flush.now index }
{
    if let Some(at) = farthest {
        if index < at.index {
            return true;
        }
    }
    match flush {
        Some(at) => index <= at.index,
        None => false,
    }
}

/// Returns how many of the `all` blocks of object `own` lie before block `count` of object `index`.
fn blocks_before(own: u32, all: u32, index: u32, count: u64) -> u32
    ensures exact { result ≡ blocks_before own all index count }
    ensures most { result ≤ all }
{
    if own < index {
        return all;
    }
    if own != index {
        return 0;
    }
    count.min(u64::from(all)) as u32
}

/// Returns how many of an object's blocks lie before the farthest block that was seen.
fn blocks_seen(farthest: &Option<Point>, index: u32, all: u32) -> u32
    ensures exact { result ≡ (elim farthest.now [ Some at ↦ blocks_before index all at.index at.block | None ↦ 0 ]) }
    ensures most { result ≤ all }
{
    match farthest {
        Some(at) => blocks_before(index, all, at.index, u64::from(at.block)),
        None => 0,
    }
}

/// Returns how many of an object's blocks lie up to and including the flush's block.
fn blocks_flushed(flush: &Option<Position>, index: u32, all: u32) -> u32
    ensures exact { result ≡ (elim flush.now [ Some at ↦ blocks_before index all at.index (at.block + 1) | None ↦ 0 ]) }
    ensures most { result ≤ all }
{
    match flush {
        // With a flush its own block was sent too. Of the block of the farthest point more may still come.
        Some(at) => blocks_before(index, all, at.index, u64::from(at.block) + 1),
        None => 0,
    }
}

/// Returns how many of an object's blocks are due: those before the farthest block, or up to the flush's, whichever is more.
pub(crate) fn blocks_due(numbers: &Numbers, index: u32, all: u32) -> u32
    ensures exact { result ≡ blocks_due numbers.now.farthest numbers.now.flush index all }
    ensures most { result ≤ all }
{
    let seen = blocks_seen(&numbers.farthest, index, all);
    let flushed = blocks_flushed(&numbers.flush, index, all);
    seen.max(flushed)
}

/// Whether an object is covered, its flags have INFO, and its info is not held.
pub(crate) fn lacks_info(hold: &Hold, index: u32, flags: u8, covered: bool) -> bool
    requires { hold.now.point.index ≤ index }
    ensures { (s : Holding) → HoldStands hold.now s → result ≡ (covered && (says_info flags && not (is_some (info_of s index)))) }
{
    if !covered {
        return false;
    }
    if !has_flag(flags, INFO) {
        return false;
    }
    !hold.has_info(index)
}

pub(crate) fn is_stream(flags: u8) -> bool
    ensures { result ≡ says_stream flags }
{
    has_flag(flags, STREAM)
}

/// Whether all blocks of an object before `due` are done. It takes constant time.
pub(crate) fn is_done_before(hold: &Hold, index: u32, due: u32) -> bool
    requires { hold.now.point.index ≤ index }
    ensures { (s : Holding) → HoldStands hold.now s → IfSome (plan_of s index) (λ plan. due ≤ blocks (cut_of_plan plan) → result ≡ is_nil (counts_from s plan due 0)) }
{
    match hold.first_short(index) {
        Some(block) => due <= block,
        None => true,
    }
}

/// Whether no symbols are needed of data or a file: its due blocks are done.
fn is_object_quiet(hold: &Hold, numbers: &Numbers, index: u32, plan: &Plan) -> bool
    requires reached { hold.now.point.index ≤ index }
    requires plan { IsPlanOf hold.now index plan.now }
    ensures { (s : Holding) → HoldStands hold.now s → IfSome (plan_of s index) (λ found. result ≡ is_nil (object_needs numbers.now.farthest numbers.now.flush s found)) }
{
    let due = blocks_due(numbers, index, plan.blocks());
    is_done_before(hold, index, due)
}

/// Whether nothing is needed of an object. One that was not taken up is needed itself if it is covered.
fn is_quiet(hold: &Hold, numbers: &Numbers, index: u32) -> bool
    requires { hold.now.point.index ≤ index }
    ensures { (s : Holding) → HoldStands hold.now s → HasSeenBlocks s → result ≡ is_nil (needs_of hold.now.p numbers.now.farthest numbers.now.flush s index) }
{
    let covered = is_covered(&numbers.farthest, &numbers.flush, index);
    let Some(flags) = hold.flags(index) else {
        return !covered;
    };
    if lacks_info(hold, index, flags, covered) {
        return false;
    }
    let Some(plan) = hold.plan(index) else {
        return !covered;
    };
    if is_stream(flags) {
        return is_stream_quiet(hold, numbers, index, &plan);
    }
    is_object_quiet(hold, numbers, index, &plan)
}

/// Returns the number after the last index that was seen or flushed, or 1 if none was.
pub(crate) fn last_known(numbers: &Numbers) -> u64
    ensures exact { result ≡ last_known numbers.now.farthest numbers.now.flush }
    ensures most { result ≤ 4294967296 }
{
    let seen = match numbers.farthest {
        Some(at) => at.index,
        None => 0,
    };
    let flushed = match numbers.flush {
        Some(at) => at.index,
        None => 0,
    };
    u64::from(seen.max(flushed)) + 1
}

/// Whether nothing is needed. If everything that is ready was handed up, it rarely looks past the object at the hand-up point.
pub(crate) fn is_all_quiet(hold: &Hold, numbers: &Numbers) -> bool
    ensures { (s : Holding) → HoldStands hold.now s → HasSeenBlocks s → result ≡ is_nil (needs_by hold.now.p numbers.now.farthest numbers.now.flush s) }
{
    let last = last_known(numbers);
    let mut index = u64::from(hold.hand_up().index);
    while index < last {
        if !is_quiet(hold, numbers, index as u32) {
            return false;
        }
        index += 1;
    }
    true
}
