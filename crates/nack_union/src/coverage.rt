//! The slots that the open round names of an object, without the counts of its blocks.

ghost use Rattle.std.specs.Prelude.{◌≡◌, ◌+◌, ◌*◌, ◌<◌, ◌≤◌, [], nat_lt, true, IfOk, None, ℕ, ◌-◌, length, slice_index, ◌&&◌, ◌||◌};
ghost use Rattle.fec_plan.specs.Partition.{blocks, most_blocks, symbol_number};
ghost use Rattle.norm_order.specs.Shapes.{closed_in, is_full};
ghost use Rattle.norm_order.specs.Sets.{with_member, with_members, is_member, Rises};
ghost use Rattle.nack_union.specs.Slots.{slots, symbol_slot};
ghost use Rattle.nack_union.specs.More.{is_source_slot};
ghost use Rattle.symbol_mask.specs.Words.{in_run};
ghost use Rattle.nack_union.specs.Kept.{IsRepairable};
ghost use Rattle.nack_union.specs.Repairs.{shape_closed, counted_slots};
ghost use Rattle.nack_union.specs.Coverage.{Covered, HasSources, is_in_blocks, is_run_slot};

use crate::closed::{closed_len, whole_blocks};
use crate::repairs::ask_counted;
use crate::slots::{BLOCK, slot_of};
use fec_plan::Plan;
use norm_base::Memory;
use std::alloc::Global;
use std::marker::Model;
use symbol_mask::Mask;

/// The slots that the open round asks for, of an object of which `closed` source symbols are closed. If a stream moved on, blocks, slots and
/// `closed` are numbered from its first kept block on.
///
/// A block is whole if all its source symbols are closed; the first `whole` blocks are known to be. `ends` keeps spans of these: at the
/// block with which a span begins, the end of the longest. Their slots are filled in when the round closes, or when the stream moves on.
/// The set `alone` has all other slots. If `complete` is set, the round asks for all closed source symbols.
// Only whole blocks: a span is filled in later, so over a block that still grows it would also ask for symbols that were closed after the
// request.
#[derive(Debug, Drop)]
pub struct Coverage {
    plan: Plan,
    closed: u64,
    whole: u32,
    // Proof: a flag is no part of the value. The invariant says what it means, so no contract above changes.
    complete: bool,
    alone: Mask,
    ends: Vec<u32>,
}

impl Model for Coverage {
    ghost use Rattle.nack_union.specs.Coverage.{Covered};

    ghost Value = { Covered };

    ghost use Rattle.nack_union.specs.Coverage.{IsSoundCoverage, coverage_view};

    ghost view = { coverage_view };

    ghost invariant = { IsSoundCoverage };
}

/// Puts the slots in `from..to` of an object's closed source symbols into a set.
fn insert_sources(set: &mut Mask, plan: &Plan, closed: u64, room: usize, from: usize, to: usize)
    requires size { slots room ≤ set.old.size }
    requires few { room ≤ most_blocks }
    requires within { room ≤ blocks plan.now }
    requires behind { (block : ℕ) → room ≤ block → closed_in (shape_closed plan.now closed) block ≡ 0 }
    ensures members { (slot : ℕ) → is_member nat_lt slot set.new.members
        ≡ (is_member nat_lt slot set.old.members || (is_source_slot (shape_closed plan.now closed) slot && in_run from to slot)) }
    ensures size { set.new.size ≡ set.old.size }
{
    let first = from.saturating_sub(1) / BLOCK;
    let behind = to.saturating_sub(1).div_ceil(BLOCK).min(room);
    // Proof: the label names the loop for its invariant.
    'runs: for block in first..behind {
        let start = slot_of(block as u32, 0);
        let end = start + usize::from(closed_len(plan, closed, block as u32));
        set.insert_run(start.max(from), end.min(to));
    }
}

fn insert_block(set: &mut Mask, plan: &Plan, closed: u64, block: u32, wanted: bool)
    requires room { slots (block + 1) ≤ set.old.size }
    ensures members { (slot : ℕ) → is_member nat_lt slot set.new.members ≡ (is_member nat_lt slot set.old.members
        || (wanted && in_run (symbol_slot block 0) (symbol_slot block 0 + closed_in (shape_closed plan.now closed) block) slot)) }
    ensures size { set.new.size ≡ set.old.size }
{
    if wanted {
        let start = slot_of(block, 0);
        set.insert_run(start, start + usize::from(closed_len(plan, closed, block)));
    }
}

/// Puts the closed source symbols of the blocks that lie in a span of `ends` into a set.
fn insert_runs(set: &mut Mask, plan: &Plan, closed: u64, ends: &[u32])
    requires size { slots (length ends.now) ≤ set.old.size }
    requires within { length ends.now ≤ blocks plan.now }
    requires behind { (block : ℕ) → length ends.now ≤ block → closed_in (shape_closed plan.now closed) block ≡ 0 }
    ensures members { (slot : ℕ) → is_member nat_lt slot set.new.members ≡ (is_member nat_lt slot set.old.members || is_run_slot (shape_closed plan.now closed) ends.now slot) }
    ensures size { set.new.size ≡ set.old.size }
{
    let behind = (plan.blocks() as usize).min(ends.len()) as u32;
    let mut farthest = 0u32;
    // Proof: the label names the loop for its invariant.
    'covered: for block in 0..behind {
        farthest = farthest.max(ends[block as usize]);
        insert_block(set, plan, closed, block, block < farthest);
    }
}

/// Whether `first..behind` lies in `from..to`.
fn is_within(first: usize, behind: usize, from: usize, to: usize) -> bool
    ensures from { result ≡ true → from ≤ first }
    ensures to { result ≡ true → behind ≤ to }
{
    from <= first && behind <= to
}

impl Coverage {
    /// Creates an empty set of slots of an object's first `room` blocks.
    ///
    /// # Errors
    ///
    /// `Memory` if memory runs out.
    pub fn with_room(
        alloc: Global,
        plan: &Plan,
        closed: u64,
        room: usize,
    ) -> Result<Coverage, Memory>
        requires within { room ≤ blocks plan.now }
        requires behind { (block : ℕ) → room ≤ block → closed_in (shape_closed plan.now closed) block ≡ 0 }
        ensures { IfOk result (λ coverage. coverage ≡ record { shape = shape_closed plan.now closed; room = room; members = [] }) }
    {
        let whole = whole_blocks(plan, closed);
        let alone = Mask::with_room(alloc, BLOCK * room + 1)?;
        let ends = vec![in alloc; 0; room]?;
        Ok(Coverage {
            plan: *plan,
            closed,
            whole: whole.min(room as u32),
            complete: false,
            alone,
            ends,
        })
    }

    /// Sets how many of the object's source symbols are closed. What the round asks for stays.
    pub fn grow(&mut self, closed: u64)
        requires more { self.old.shape.closed ≤ closed }
        requires room { (block : ℕ) → self.old.room ≤ block → closed_in (shape_closed self.old.shape.cut closed) block ≡ 0 }
        ensures { self.new ≡ record self.old { shape = shape_closed self.old.shape.cut closed } }
    {
        let whole = whole_blocks(&self.plan, closed).min(self.ends.len() as u32);
        self.whole = whole;
        self.closed = closed;
        // What was closed just now is not yet asked for.
        self.complete = false;
    }

    /// Does nothing. Its contract says that the slots rise.
    pub fn rises(&self)
        ensures { Rises self.now.members }
    {
        // Proof: what is kept is looked at.
        let _ = &self.alone;
    }

    /// Adds one slot to what the open round asks for: the info's, or that of any symbol, also parity.
    pub fn insert(&mut self, slot: usize)
        requires { slot < slots self.old.room }
        ensures { self.new ≡ record self.old { members = with_member nat_lt slot self.old.members } }
    {
        self.alone.insert(slot);
    }

    /// Asks for the closed source symbols whose slots lie in `from..to`, as bits of `alone`.
    fn insert_part(&mut self, from: usize, to: usize)
        ensures members { (slot : ℕ) → is_member nat_lt slot self.new.members ≡ (is_member nat_lt slot self.old.members || (is_source_slot self.old.shape slot && in_run from to slot)) }
        ensures shape { self.new.shape ≡ self.old.shape }
        ensures room { self.new.room ≡ self.old.room }
    {
        let room = self.ends.len();
        insert_sources(&mut self.alone, &self.plan, self.closed, room, from, to);
    }

    /// Asks for the source symbols of the blocks `first..behind`, which are whole.
    // One number for a span of any length. Otherwise each request for many blocks would set the bits of all their symbols again.
    fn insert_blocks(&mut self, first: usize, behind: usize)
        requires some { first < behind }
        requires within { behind ≤ self.old.room }
        requires whole { (block : ℕ) → block < behind → is_full self.old.shape block ≡ true }
        ensures members { (slot : ℕ) → is_member nat_lt slot self.new.members ≡ (is_member nat_lt slot self.old.members || (is_source_slot self.old.shape slot && is_in_blocks first behind slot)) }
        ensures shape { self.new.shape ≡ self.old.shape }
        ensures room { self.new.room ≡ self.old.room }
    {
        let end = self.ends[first].max(behind as u32);
        self.ends[first] = end;
    }

    /// Whether the round asks for the info, which has slot 0.
    pub fn has_info(&self) -> bool
        ensures { result ≡ is_member nat_lt 0 self.now.members }
    {
        self.alone.contains(0)
    }

    /// Whether the round is known to ask for all closed source symbols. If this is `false`, it may still do so.
    pub fn is_complete(&self) -> bool
        ensures { result ≡ true → HasSources self.now.shape self.now.members }
    {
        self.complete
    }

    /// Notes that the round asks for all closed source symbols, until more are closed, the stream moves on, or the round closes.
    fn note_complete(&mut self)
        requires { HasSources self.old.shape self.old.members }
        ensures { self.new ≡ self.old }
    {
        self.complete = true;
    }

    /// Asks for the closed source symbols whose slots lie in `from..to`. Keeps blocks that are known to be whole as a span.
    fn insert_between(&mut self, from: usize, to: usize)
        ensures members { (slot : ℕ) → is_member nat_lt slot self.new.members ≡ (is_member nat_lt slot self.old.members || (is_source_slot self.old.shape slot && in_run from to slot)) }
        ensures shape { self.new.shape ≡ self.old.shape }
        ensures room { self.new.room ≡ self.old.room }
    {
        let first = from.saturating_sub(1).div_ceil(BLOCK);
        let behind = (to.saturating_sub(1) / BLOCK).min(self.whole as usize);
        if behind <= first {
            self.insert_part(from, to);
            return;
        }
        self.insert_part(from, BLOCK * first + 1);
        self.insert_blocks(first, behind);
        self.insert_part(BLOCK * behind + 1, to);
    }

    /// Asks for the closed source symbols whose slots lie in `from..to`, and notes if the range takes in all blocks that have room.
    pub fn insert_sources(&mut self, from: usize, to: usize)
        ensures members { (slot : ℕ) → is_member nat_lt slot self.new.members ≡ (is_member nat_lt slot self.old.members || (is_source_slot self.old.shape slot && in_run from to slot)) }
        ensures shape { self.new.shape ≡ self.old.shape }
        ensures room { self.new.room ≡ self.old.room }
    {
        let behind = BLOCK * self.ends.len() + 1;
        self.insert_between(from, to);
        if is_within(1, behind, from, to) {
            self.note_complete();
        }
    }

    /// Closes the round: moves its slots, and what the counts of the blocks ask for, into `wants`. Returns how many of them are new there.
    pub fn close_into(&mut self, wants: &mut Mask, sent: &Mask, counts: &[u8]) -> usize
        requires wants { wants.old.size ≡ slots self.old.room }
        requires sent { slots self.old.room ≤ sent.now.size }
        requires counts { length counts.now ≡ self.old.room }
        ensures members { wants.new.members ≡ with_members nat_lt (with_members nat_lt (counted_slots self.old.shape sent.now.members 0 counts.now) self.old.members) wants.old.members }
        ensures new { length wants.new.members ≡ length wants.old.members + result }
        ensures few { length wants.new.members ≤ wants.old.size }
        ensures size { wants.new.size ≡ wants.old.size }
        ensures emptied { self.new.members ≡ [] }
        ensures shape { self.new.shape ≡ self.old.shape }
        ensures room { self.new.room ≡ self.old.room }
        ensures repairable { (block : ℕ) → 0 < slice_index counts.now block → IsRepairable self.old.shape.cut block }
    {
        insert_runs(&mut self.alone, &self.plan, self.closed, &self.ends);
        self.ends.fill(0);
        self.alone.rises();
        self.complete = false;
        ask_counted(&mut self.alone, sent, &self.plan, self.closed, counts);
        wants.take_all(&mut self.alone)
    }

    /// Drops the stream's first `count` blocks, and numbers the others from 0. What the round asked for of the dropped ones is forgotten, and as
    /// many blocks get room at the end.
    pub fn move_on(&mut self, count: u32)
        requires { self.old.shape.cut.l ≡ None }
        ensures members { (slot : ℕ) → is_member nat_lt slot self.new.members ≡ (is_member nat_lt (slot + 256 * count) self.old.members && nat_lt 0 slot) }
        ensures shape { self.new.shape ≡ shape_closed self.old.shape.cut (self.old.shape.closed - symbol_number self.old.shape.cut count 0) }
        ensures room { self.new.room ≡ self.old.room }
    {
        // The ends are numbers of blocks, which change now; bits move with the set.
        insert_runs(&mut self.alone, &self.plan, self.closed, &self.ends);
        self.ends.fill(0);
        self.alone.rises();
        self.alone.move_on(4 * count as usize);
        let gone = self.plan.symbol_number(count, 0);
        self.closed = self.closed.saturating_sub(gone);
        self.whole = self.whole.saturating_sub(count);
        self.complete = false;
    }
}
