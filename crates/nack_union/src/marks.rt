//! What a union keeps of an object.

ghost use Rattle.std.specs.Prelude.{◌≡◌, ◌+◌, ◌-◌, ◌*◌, ◌^◌, ◌<◌, ◌≤◌, ◌∷◌, [], nat_lt, IfOk, MatchOption, true, false, ◌==◌, ℕ, length, max, replicate, set, slice_index, ◌&&◌, ◌||◌, not, None, Some};
ghost use Rattle.fec_plan.specs.Partition.{all_symbols, blocks, most_blocks};
ghost use Rattle.norm_order.specs.Shapes.{closed_in};
ghost use Rattle.norm_order.specs.Sets.{is_member, with_member};
ghost use Rattle.nack_union.specs.Slots.{slots, stands_from};
ghost use Rattle.nack_union.specs.More.{HasMore, is_source_slot, is_encoded_slot, slot_in, slot_from, slot_behind, is_slot_of, count_at as counted_at, kept_count, MoreOf, named_part};
ghost use Rattle.symbol_mask.specs.Words.{in_run};
ghost use Rattle.nack_union.specs.Coverage.{HasSourcesFrom};
ghost use Rattle.nack_union.specs.Adding.{IsPlanned};
ghost use Rattle.norm_ext.specs.Asking.{Span, span, block_span, object_span, has_flag, segment_flag, block_flag, object_flag};
ghost use Rattle.nack_union.specs.Repairs.{shape_closed};
ghost use Rattle.nack_union.specs.Kept.{admitted, admitted_stream, CanGrow, closed_marks, moved_on, IsCounted, symbols_of_marked};
ghost use Rattle.std.specs.List.{list_any};

use crate::closed::{all_symbols, closed_len, encoded_len};
use crate::coverage::Coverage;
use crate::slots::{BLOCK, slot_of};
use fec_plan::{LAST_BLOCK, Plan, Position};
use norm_base::Memory;
use norm_ext::flags::{WANT_BLOCK, WANT_INFO, WANT_OBJECT, WANT_SEGMENT};
use norm_ext::items::has_flag;
use norm_send_rules::greater_count;
use std::alloc::Global;
use std::marker::Model;
use symbol_mask::Mask;

/// An object of the window. `closed` of its source symbols are closed, `first` is its first kept block, and `wanted` counts the slots in
/// `wants`.
///
/// Of the open round it keeps the slots that the round asks for, and the greatest count of each block. If `is_asked` is `false`, the round asks
/// for nothing. All sets and counts are numbered from the first kept block on.
// If `is_asked` is false, the object has no asked slots (its info's neither) and no counts. Otherwise a closing would pass over an object of
// which something is asked for. Every set has the info's slot and 256 slots for each block that has room. Otherwise a slot would lie past
// its set.
#[derive(Debug, Drop)]
pub struct Marks {
    plan: Plan,
    closed: u64,
    info: bool,
    first: u32,
    wants: Mask,
    wanted: usize,
    sent: Mask,
    asked: Coverage,
    counts: Vec<u8>,
    is_asked: bool,
}

impl Model for Marks {
    ghost use Rattle.nack_union.specs.Kept.{Marked};

    ghost Value = { Marked };

    ghost use Rattle.nack_union.specs.Sound.{IsSoundObject, marks_view};

    ghost view = { marks_view };

    ghost invariant = { IsSoundObject };
}

/// Returns the first slot of the object `index` in a span that begins with `first`. It is 0 if the span begins in an earlier object.
fn slot_from(index: u32, first: Position) -> usize
    ensures slot { result ≡ slot_from index first }
    ensures named { first.symbol < 256 }
{
    let slot = slot_of(first.block, first.symbol);
    if index == first.index { slot } else { 0 }
}

/// Returns the slot just after `last` in the object `index`, or `most` if `last` is in a later object.
fn slot_behind(index: u32, last: Position, most: usize) -> usize
    ensures slot { result ≡ slot_behind index last most }
    ensures named { last.symbol < 256 }
{
    let slot = slot_of(last.block, last.symbol);
    if index == last.index { slot + 1 } else { most }
}

/// Widens a span to whole blocks: from symbol 0 to symbol 255, which is past the end of any block.
fn whole_blocks(first: Position, last: Position) -> (Position, Position)
    ensures span { span result.0 result.1 ≡ block_span (span first last) }
    ensures from { result.0.index ≡ first.index }
    ensures to { result.1.index ≡ last.index }
{
    let start = Position { symbol: 0, ..first };
    let end = Position {
        symbol: u8::MAX,
        ..last
    };
    (start, end)
}

/// Widens a span to whole objects, up to the greatest block and symbol that a message can name.
fn whole_objects(first: Position, last: Position) -> (Position, Position)
    ensures span { span result.0 result.1 ≡ object_span (span first last) }
    ensures from { result.0.index ≡ first.index }
    ensures to { result.1.index ≡ last.index }
{
    let start = Position {
        index: first.index,
        block: 0,
        symbol: 0,
    };
    let end = Position {
        index: last.index,
        block: LAST_BLOCK,
        symbol: u8::MAX,
    };
    (start, end)
}

/// Returns the count at an index, or 0 after the last one.
fn count_at(counts: &[u8], place: usize) -> u8
    ensures { result ≡ slice_index counts.now place }
{
    if place < counts.len() {
        counts[place]
    } else {
        0
    }
}

/// Moves counts down by `count` indexes. The lowest ones are dropped, and the last ones become 0.
fn move_counts(counts: &mut [u8], count: usize)
    requires small { length counts.old ≤ 2 ^ 58 }
    ensures { (k : ℕ) → slice_index counts.new k ≡ slice_index counts.old (k + count) }
{
    let gone = count.min(counts.len());
    // Proof: the label names the loop for its invariant.
    'moved: for place in 0..counts.len() {
        counts[place] = count_at(counts, place + gone);
    }
}

fn asks_sources(flags: u8) -> bool
    ensures { result ≡ ((has_flag flags segment_flag || has_flag flags block_flag) || has_flag flags object_flag) }
{
    has_flag(flags, WANT_SEGMENT) || has_flag(flags, WANT_BLOCK) || has_flag(flags, WANT_OBJECT)
}

/// A span that a request names, with both ends included, and the flags of the request.
#[derive(Clone, Copy, Debug)]
pub struct Named {
    pub first: Position,
    pub last: Position,
    pub flags: u8,
}

impl Marks {
    /// Creates an object of which nothing is wanted and nothing was sent. `closed` of its source symbols are closed, none after the first `room`
    /// blocks.
    ///
    /// # Errors
    ///
    /// `Memory` if memory runs out.
    fn with_room(
        alloc: Global,
        plan: &Plan,
        closed: u64,
        room: usize,
        info: bool,
    ) -> Result<Marks, Memory>
        requires within { room ≤ blocks plan.now }
        requires few { closed ≤ all_symbols plan.now }
        requires whole { (l : ℕ) → plan.now.l ≡ Some l → closed ≡ all_symbols plan.now }
        requires behind { (block : ℕ) → room ≤ block → closed_in (shape_closed plan.now closed) block ≡ 0 }
        ensures { IfOk result (λ marks. marks ≡ record { cut = plan.now; closed = closed; info = info; first = 0; wants = []; sent = []; asked = []; counts = replicate room 0 }) }
    {
        // Proof: no object has more blocks than numbers name.
        let room = room.min(plan.blocks() as usize);
        let places = BLOCK * room + 1;
        let wants = Mask::with_room(alloc, places)?;
        let sent = Mask::with_room(alloc, places)?;
        let asked = Coverage::with_room(alloc, plan, closed, room)?;
        let counts = vec![in alloc; 0; room]?;
        Ok(Marks {
            plan: *plan,
            closed,
            info,
            first: 0,
            wants,
            wanted: 0,
            sent,
            asked,
            counts,
            is_asked: false,
        })
    }

    /// Creates an object of data or a file, all closed, with room for all its blocks.
    ///
    /// # Errors
    ///
    /// `Memory` if memory runs out.
    pub fn of_object(alloc: Global, plan: &Plan, info: bool) -> Result<Marks, Memory>
        ensures { IfOk result (λ marks. marks ≡ admitted plan.now info) }
    {
        Marks::with_room(alloc, plan, all_symbols(plan), plan.blocks() as usize, info)
    }

    /// Creates a stream without closed symbols, with room for `room` blocks.
    ///
    /// # Errors
    ///
    /// `Memory` if memory runs out.
    pub fn of_stream(alloc: Global, plan: &Plan, room: u16) -> Result<Marks, Memory>
        requires { plan.now.l ≡ None }
        ensures { IfOk result (λ marks. marks ≡ admitted_stream plan.now room) }
    {
        Marks::with_room(alloc, plan, 0, usize::from(room), false)
    }

    /// Sets how many source symbols of the stream are closed, as [`Union::grow`](crate::Union::grow) says.
    pub fn grow(&mut self, closed: u64)
        requires { CanGrow closed self.old }
        ensures { self.new ≡ record self.old { closed = closed } }
    {
        let gone = self.plan.symbol_number(self.first, 0);
        self.asked.grow(closed.saturating_sub(gone));
        self.closed = closed;
    }

    /// Keeps the stream from `block` on. What was wanted, sent and asked for before is forgotten, and as many blocks get room at the end. Returns
    /// whether something before was wanted.
    pub fn move_on(&mut self, block: u32) -> bool
        requires stream { self.old.cut.l ≡ None }
        requires plain { self.old.info ≡ false }
        requires onward { self.old.first ≤ block }
        requires most { block ≤ most_blocks }
        ensures exact { self.new ≡ moved_on block self.old }
        ensures gone { result ≡ list_any (λ slot. not (stands_from block slot)) self.old.wants }
    {
        self.wants.rises();
        self.sent.rises();
        self.asked.rises();
        let count = block - self.first;
        // 256 slots a block are four 64-bit words, so the sets move by whole ones.
        let words = 4 * count as usize;
        // Counted before the sets move: `wanted` is exactly the number of wants, or a union would be idle with one left, or busy with none.
        let gone = self.wants.take_below(BLOCK * count as usize + 1);
        self.wants.move_on(words);
        self.sent.move_on(words);
        self.asked.move_on(count);
        move_counts(&mut self.counts, count as usize);
        self.wants.rises();
        self.sent.rises();
        self.asked.rises();
        self.first = block;
        self.wanted -= gone;
        gone > 0
    }

    /// Returns the first block that is kept. It is 0 unless the object is a stream that was moved on.
    pub fn first_block(&self) -> u32
        ensures { result ≡ self.now.first }
    {
        self.first
    }

    /// Returns how far the object's slots lie above those of the sets.
    fn start(&self) -> usize
        ensures { result ≡ 256 * self.now.first }
    {
        BLOCK * self.first as usize
    }

    /// Does nothing. Its contract says what holds of each object, for the invariant of a collection.
    // Called for an object as it changes, so that a NACK need not go over all objects of the window.
    pub fn hold(&self)
        ensures { IsPlanned self.now }
    {
        self.plan.blocks();
        self.plan.encoded_len(0);
        self.asked.rises();
    }

    /// Whether something of the object is wanted.
    pub fn is_wanted(&self) -> bool
        ensures { result ≡ nat_lt 0 (length self.now.wants) }
    {
        self.wanted > 0
    }

    /// Notes that the symbol at a slot was sent. Slots are numbered from the object's block 0 here, also after a stream moved on.
    pub fn note_sent(&mut self, slot: usize)
        requires within { slot < slots (length self.old.counts) }
        requires kept { stands_from self.old.first slot ≡ true }
        requires symbol { 0 < slot }
        ensures { self.new ≡ record self.old { sent = with_member nat_lt slot self.old.sent } }
    {
        let start = self.start();
        self.sent.insert(slot - start);
    }

    /// Takes out the lowest wanted slot, numbered from the object's block 0. `None` if none is wanted.
    pub fn take_lowest(&mut self) -> Option<usize>
        ensures { MatchOption result ((self.old.wants ≡ []) × (self.new ≡ self.old))
            (λ slot. (self.old ≡ record self.new { wants = slot ∷ self.new.wants }) × (slot < slots most_blocks)) }
    {
        self.wants.rises();
        let slot = self.wants.take_lowest()?;
        self.wanted -= 1;
        Some(BLOCK * self.first as usize + slot)
    }

    /// Adds a slot, numbered from the object's block 0, to what the open round asks for.
    pub fn ask(&mut self, slot: usize)
        requires within { slot < slots (length self.old.counts) }
        requires kept { stands_from self.old.first slot ≡ true }
        requires info { slot ≡ 0 → self.old.info ≡ true }
        requires number { slot < slots most_blocks }
        ensures { self.new ≡ record self.old { asked = with_member nat_lt slot self.old.asked } }
    {
        let start = self.start();
        self.asked.insert(slot - start);
        self.is_asked = true;
    }

    /// Asks for the closed source symbols whose slots lie in `from..to`. Slots of dropped blocks are passed over.
    fn ask_sources(&mut self, from: usize, to: usize)
        ensures { HasMore (λ slot. is_source_slot (symbols_of_marked self.old) slot && in_run from to slot) (λ block. 0) self.old self.new }
    {
        // Proof: nothing is wrong with the cut.
        self.plan.blocks();
        let start = self.start();
        self.asked
            .insert_sources(from.saturating_sub(start), to.saturating_sub(start));
        self.asked.rises();
        self.is_asked = true;
    }

    /// Asks for the closed source symbols from one position to another, both included. `index` is the object's.
    pub fn ask_between(&mut self, index: u32, first: Position, last: Position)
        requires from { first.index ≤ index }
        requires to { index ≤ last.index }
        ensures { HasMore (λ slot. is_source_slot (symbols_of_marked self.old) slot && slot_in index (span first last) slot) (λ block. 0) self.old self.new }
    {
        let behind = BLOCK * self.plan.blocks() as usize + 1;
        self.ask_sources(slot_from(index, first), slot_behind(index, last, behind));
    }

    /// Asks for the info. Does nothing if the object has none.
    pub fn ask_info(&mut self)
        ensures { HasMore (λ slot. self.old.info && slot == 0) (λ block. 0) self.old self.new }
    {
        if self.info {
            self.ask(0);
        }
    }

    fn ask_where(&mut self, wanted: bool, index: u32, first: Position, last: Position)
        requires from { first.index ≤ index }
        requires to { index ≤ last.index }
        ensures { HasMore (λ slot. wanted && (is_source_slot (symbols_of_marked self.old) slot && slot_in index (span first last) slot)) (λ block. 0) self.old self.new }
    {
        if wanted {
            self.ask_between(index, first, last);
        }
    }

    fn ask_info_where(&mut self, wanted: bool)
        ensures { HasMore (λ slot. wanted && (self.old.info && slot == 0)) (λ block. 0) self.old self.new }
    {
        if wanted {
            self.ask_info();
        }
    }

    /// Whether the round is known to ask for all closed source symbols of the object. Also `true` if they are not `wanted`.
    fn has_sources(&self, wanted: bool) -> bool
        ensures { result ≡ true → wanted ≡ true → HasSourcesFrom self.now.first (symbols_of_marked self.now) self.now.asked }
    {
        if !wanted {
            return true;
        }
        self.asked.is_complete()
    }

    /// Whether the round asks for the info. Also `true` if it is not `wanted`, or the object has none.
    fn has_info(&self, wanted: bool) -> bool
        ensures { result ≡ true → wanted ≡ true → self.now.info ≡ true → is_member nat_lt 0 self.now.asked ≡ true }
    {
        if !wanted {
            return true;
        }
        if !self.info {
            return true;
        }
        self.asked.has_info()
    }

    /// Whether the round is known to ask for everything that these flags can ask for of the object, except parity.
    fn is_settled(&self, flags: u8) -> bool
        ensures { result ≡ true → (index : ℕ) (s : Span) → MoreOf (named_part flags s) index self.now self.now }
    {
        if !self.has_sources(asks_sources(flags)) {
            return false;
        }
        self.has_info(has_flag(flags, WANT_INFO))
    }

    /// Asks for what each of the flags names of the object: BLOCK and OBJECT widen the span, and INFO names the info. `index` is the object's.
    fn ask_by_flags(&mut self, index: u32, named: &Named)
        requires from { named.now.first.index ≤ index }
        requires to { index ≤ named.now.last.index }
        ensures { MoreOf (named_part named.now.flags (span named.now.first named.now.last)) index self.old self.new }
    {
        let Named { first, last, flags } = *named;
        let blocks = whole_blocks(first, last);
        let objects = whole_objects(first, last);
        self.ask_where(has_flag(flags, WANT_SEGMENT), index, first, last);
        self.ask_where(has_flag(flags, WANT_BLOCK), index, blocks.0, blocks.1);
        self.ask_where(has_flag(flags, WANT_OBJECT), index, objects.0, objects.1);
        self.ask_info_where(has_flag(flags, WANT_INFO));
    }

    /// Asks for the closed source symbols and the info that are named of the object. `index` is the object's. Does nothing if the round is
    /// known to ask for all of these that the flags can ask for.
    pub fn ask_named(&mut self, index: u32, named: &Named)
        requires from { named.now.first.index ≤ index }
        requires to { index ≤ named.now.last.index }
        ensures more { MoreOf (named_part named.now.flags (span named.now.first named.now.last)) index self.old self.new }
        ensures planned { IsPlanned self.old → IsPlanned self.new }
    {
        // A NACK may name one object over a hundred times. After a request for all of it, a repeated one costs a test, not a pass over it.
        if self.is_settled(named.flags) {
            return;
        }
        self.ask_by_flags(index, named);
        self.hold();
    }

    /// Asks for a symbol. Does nothing if it is not encoded, or its block was dropped.
    pub fn ask_symbol(&mut self, block: u32, symbol: u8)
        ensures { HasMore (λ slot. is_encoded_slot (symbols_of_marked self.old) slot && is_slot_of block symbol slot) (λ block. 0) self.old self.new }
    {
        if block < self.first {
            return;
        }
        if block < self.plan.blocks() && symbol < encoded_len(&self.plan, self.closed, block) {
            self.ask(slot_of(block, symbol));
        }
    }

    /// Counts a block for `lacking` symbols. Does nothing if no symbol of it is closed, or the block was dropped.
    pub fn count_block(&mut self, block: u32, lacking: u8)
        ensures { HasMore (λ slot. false) (λ other. kept_count (symbols_of_marked self.old) other (counted_at block lacking other)) self.old self.new }
    {
        if block < self.first {
            return;
        }
        // Proof: nothing is wrong with the cut.
        self.plan.blocks();
        let place = (block - self.first) as usize;
        if place < self.counts.len() && closed_len(&self.plan, self.closed, block) > 0 {
            self.count(block, lacking);
        }
    }

    /// Counts a block for `lacking` symbols. The greatest count of a round stays.
    pub fn count(&mut self, block: u32, lacking: u8)
        requires within { block < length self.old.counts }
        requires kept { self.old.first ≤ block }
        requires number { block < most_blocks }
        ensures { self.new ≡ record self.old { counts = set self.old.counts block (max (slice_index self.old.counts block) lacking) } }
    {
        let place = (block - self.first) as usize;
        let most = greater_count(self.counts[place], lacking);
        self.counts[place] = most;
        self.is_asked = true;
    }

    /// Closes the round: what it asked for is wanted. Returns how many wants are new.
    pub fn close(&mut self) -> usize
        ensures marks { self.new ≡ closed_marks self.old }
        ensures new { length self.new.wants ≡ length self.old.wants + result }
        ensures counted { IsCounted self.old }
    {
        // Most objects of a window are in no round, and their sets need no look.
        if !self.is_asked {
            return 0;
        }
        self.asked.rises();
        self.is_asked = false;
        let new = self
            .asked
            .close_into(&mut self.wants, &self.sent, &self.counts);
        self.counts.fill(0);
        self.wanted += new;
        new
    }
}
