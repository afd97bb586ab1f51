//! [`Stream`]: the blocks of one stream from its next segment on.

ghost use Rattle.std.specs.Prelude.{ℕ, List, [], ◌≡◌, ◌==◌, ◌<◌, ◌≤◌, ◌+◌, IfOk, IsTrue, OnErr, MatchOption, IfSome, length, max, min, not, is_some, true, false, Some, None, replicate, slice_index_or, slice_set, option_copied, option_map, cond, nat_lt, unwrap_or, take, drop, ◌∷◌, ◌++◌};
ghost use Rattle.std.specs.List.{AllByRecursion};
ghost use Rattle.std.specs.VecDeque.{deque_capacity};
ghost use Rattle.norm_base.specs.Settings.{Settings};
ghost use Rattle.fec_plan.specs.Partition.{blocks, stream_cut};
ghost use Rattle.fec_plan.specs.Points.{position};
ghost use Rattle.norm_ext.specs.Numbers.{number};
ghost use Rattle.norm_receive_rules.specs.HandingUp.{next_segment};
ghost use Rattle.norm_receive_rules.specs.StreamNeeds.{end_of};
ghost use Rattle.fec_plan.specs.Payload.{Name};
ghost use Rattle.norm_receive_rules.specs.Holding.{new_plan};
ghost use Rattle.norm_receive_rules.specs.Plans.{cut_of_plan, has_its_info, holds, is_done, lacking, says_stream};
ghost use Rattle.norm_receive_rules.specs.Putting.{is_far, is_misfit, is_segment, put_by, with_symbol};
ghost use Rattle.norm_receive_rules.specs.declared.words.Put.TheVariants as put_word;
ghost use Rattle.rx_stream.specs.BlockState.{BlockState, empty_block, lacks, source_of};
ghost use Rattle.rx_stream.specs.StreamState.{StreamState, alone, empty_stream, IsOf};
ghost use Rattle.norm_receive_rules.specs.Short.{IsShortFrom};
ghost use Rattle.short_blocks.specs.State.{is_short, settled};
ghost use Rattle.rx_stream.specs.BlockMoves.{IsRow, IsSent, MayCome, with_came};
ghost use Rattle.rx_stream.specs.StreamMoves.{MayKeep, fits_cut, handed_on, left, left_behind, next_up, passed, shape_of};

use crate::block::Block;
use crate::row::{coded_row, offset_of, segment_len, segment_of};
use fec_plan::{MOST_BLOCKS, PLACE, PayloadId, Plan};
use norm_base::{Memory, Octets};
use norm_ext::flags::INFO;
use norm_ext::items::has_flag;
use norm_ext::{Fti, read_16};
use norm_order::Up;
use norm_receive_rules::Put;
use rs_block::{Row, Solver};
use short_blocks::Shorts;
use std::alloc::Global;
use std::collections::VecDeque;
use std::marker::Model;
use std::mem;

/// What is held of a stream. [`offer`](Stream::offer) symbols in any order, from the block of the next segment on. Then call
/// [`hand_up`](Stream::hand_up) until it returns `None` or the stream's end.
// There is a spare symbol buffer for each segment that is left of the first block. With one less a hand-up would need memory.
#[derive(Debug, Drop)]
pub struct Stream {
    alloc: Global,
    index: u32,
    fti: Fti,
    flags: u8,
    /// The greatest block that was seen, even if no symbol of it was kept. 0 if none was.
    seen: u32,
    info: Option<Octets>,
    plan: Plan,
    /// The block of the next segment, and the segment's symbol in it.
    first: u32,
    symbol: u8,
    /// The blocks from `first` on, as many as there is room for. Those of which nothing came are empty.
    ring: VecDeque<Block>,
    /// Symbol buffers for handing up the first block, one for each segment of it that is left.
    spares: Vec<Row>,
    /// Which blocks of the ring are incomplete.
    shorts: Shorts,
}

impl Model for Stream {
    ghost use Rattle.norm_receive_rules.specs.Holding.{Plan as PlanState};
    ghost use Rattle.rx_stream.specs.StreamState.{StreamState};
    ghost use Rattle.rx_stream.specs.StreamSound.{stream_of, StreamKept};

    ghost Value = { StreamState };

    ghost view = { λ s. stream_of (record { index = s.index; fti = s.fti; flags = s.flags; seen = s.seen }) s.info s.first s.symbol s.ring.items };

    ghost invariant = { λ s. StreamKept (record { index = s.index; fti = s.fti; flags = s.flags; seen = s.seen }) s.plan s.first s.symbol s.ring.items s.spares.items s.shorts };
}

/// Whether a payload is exactly one segment of at most `e` octets.
fn is_one_segment(e: u16, payload: &[u8]) -> bool
    ensures exact { (p : Settings) → p.e ≡ e → result ≡ is_segment p payload.now }
    ensures sent { IsTrue result → (8 ≤ length payload.now) × (8 + number 2 0 payload.now ≡ length payload.now) × (length payload.now ≤ e + 8) }
{
    if payload.len() < PLACE {
        return false;
    }
    let len = read_16(payload, 0);
    len <= e && payload.len() == PLACE + usize::from(len)
}

/// Whether a symbol is an encoded symbol of a stream with this plan, and the payload fits it.
fn fits(plan: &Plan, block: u32, symbol: u8, payload: &[u8]) -> bool
    requires { plan.now.l ≡ None }
    ensures exact { (p : Settings) → p.e ≡ plan.now.e → result ≡ fits_cut p plan.now block symbol payload.now }
    ensures small { result ≡ true → symbol < 255 }
    ensures block { result ≡ true → block < 16777216 }
    ensures sent { result ≡ true → IsSent plan.now.b (plan.now.e + 8) symbol payload.now }
{
    // No datagram names such a block: an id has 24 bits for it. But a caller may.
    if block >= MOST_BLOCKS {
        return false;
    }
    if symbol >= plan.encoded_len(block) {
        return false;
    }
    if symbol < plan.source_len(block) {
        return is_one_segment(plan.e(), payload);
    }
    payload.len() == usize::from(plan.e()) + PLACE
}

/// Fills an empty ring with `room` empty blocks.
fn fill(alloc: Global, k: u8, size: usize, ring: &mut VecDeque<Block>, room: usize)
    requires empty { ring.old.items ≡ [] }
    requires room { room ≤ deque_capacity ring.old }
    requires some { 1 ≤ k }
    requires least { 8 ≤ size }
    requires most { size ≤ 1408 }
    ensures { ring.new.items ≡ replicate room (empty_block k size) }
{
    for _ in 0..room {
        // It does not fail: the ring was made with this room, and an empty block takes no memory.
        ring.push_back(Block::new(alloc, k, size)).unwrap();
    }
}

fn put_at(
    ring: &mut VecDeque<Block>,
    place: usize,
    alloc: Global,
    symbol: u8,
    payload: &[u8],
    solver: &mut Solver,
) -> Result<(), Memory>
    requires place { place < length ring.old.items }
    requires comes { (d : BlockState) → MayCome (slice_index_or ring.old.items place d) symbol payload.now }
    requires solver { (d : BlockState) → solver.old ≡ shape_of (slice_index_or ring.old.items place d) }
    ensures kept { IfOk result (λ _. (d : BlockState) → ring.new.items ≡ slice_set ring.old.items place (with_came symbol payload.now (slice_index_or ring.old.items place d))) }
    ensures refused { OnErr result (ring.new.items ≡ ring.old.items) }
    ensures same { solver.new ≡ solver.old }
{
    ring[place].put(alloc, symbol, payload, solver)
}

/// Notes that a symbol came for the block in a slot: settles the block if it is done now.
fn note(ring: &VecDeque<Block>, place: usize, shorts: &mut Shorts, block: u32)
    requires place { place < length ring.now.items }
    requires reached { shorts.old.start ≤ block }
    requires short { is_short shorts.old block ≡ true }
    ensures done { (d : BlockState) → lacks (slice_index_or ring.now.items place d) ≡ 0 → shorts.new ≡ settled block shorts.old }
    ensures more { (d : BlockState) → 0 < lacks (slice_index_or ring.now.items place d) → shorts.new ≡ shorts.old }
{
    if ring[place].lacks() == 0 {
        shorts.settle(block);
    }
}

/// Returns the block that was found, or `behind` if none was: a block after the ring, which lacks all its symbols. `None` if the stream has
/// no such block.
fn first_of(found: Option<u32>, behind: u32, blocks: u32) -> Option<u32>
    ensures { result ≡ cond (nat_lt (unwrap_or found behind) blocks) (Some (unwrap_or found behind)) None }
{
    let block = found.unwrap_or(behind);
    if block < blocks {
        return Some(block);
    }
    None
}

/// Returns the block after the ring, for which there is no room yet.
fn behind_ring(first: u32, ring: &VecDeque<Block>) -> u32
    requires named { first ≤ 16777216 }
    requires few { length ring.now.items < 65536 }
    ensures { result ≡ first + length ring.now.items }
{
    first + ring.len() as u32
}

/// Returns the slot of a block. It may lie outside the ring.
fn place_of(first: u32, block: u32) -> usize
    requires { first ≤ block }
    ensures { result + first ≡ block }
{
    (block - first) as usize
}

/// Whether a slot lies outside the ring: its block has no room until earlier ones are handed up.
fn is_beyond(ring: &VecDeque<Block>, place: usize) -> bool
    ensures beyond { result ≡ true → length ring.now.items ≤ place }
    ensures within { result ≡ false → place < length ring.now.items }
{
    place >= ring.len()
}

/// Removes the first block and appends `block`. Returns the symbol buffers of the first block. It takes no memory.
// Proof: replace and rotate_left need no room to be shown.
fn shift(ring: &mut VecDeque<Block>, block: Block) -> Vec<Row>
    requires some { 0 < length ring.old.items }
    requires there { (d : BlockState) (symbol : ℕ) → symbol < (slice_index_or ring.old.items 0 d).k → is_some (source_of (slice_index_or ring.old.items 0 d) symbol) ≡ true }
    ensures ring { ring.new.items ≡ drop 1 ring.old.items ++ block ∷ [] }
    ensures count { (d : BlockState) → length result.items ≡ (slice_index_or ring.old.items 0 d).k }
    ensures sizes { (d : BlockState) → AllByRecursion (λ (row : List ℕ). length row ≡ (slice_index_or ring.old.items 0 d).size) result.items }
{
    let first = mem::replace(&mut ring[0], block);
    ring.rotate_left(1);
    first.into_rows()
}

/// Returns spare symbol buffers, with zeros.
fn spare_rows(alloc: Global, count: u8, size: usize) -> Result<Vec<Row>, Memory>
    ensures count { IfOk result (λ rows. length rows.items ≡ count) }
    ensures sizes { IfOk result (λ rows. AllByRecursion (λ (row : List ℕ). length row ≡ size) rows.items) }
{
    let mut rows = Vec::with_capacity(alloc, usize::from(count))?;
    for _spare in 0..count {
        rows.push(coded_row(alloc, &[], size)?)?;
    }
    Ok(rows)
}

/// Returns the first `len` octets of a segment's data, copied into one of the spare symbol buffers.
// An unfinished block needs its own ones to be solved.
fn copy_of(row: &Row, spares: &mut Vec<Row>, len: usize) -> Octets
    requires some { 0 < length spares.old.items }
    requires sizes { AllByRecursion (λ (spare : List ℕ). length spare ≡ length row.now) spares.old.items }
    requires len { 8 + len ≤ length row.now }
    ensures octets { result ≡ take len (drop 8 row.now) }
    ensures count { length spares.new.items + 1 ≡ length spares.old.items }
    ensures sizes { AllByRecursion (λ (spare : List ℕ). length spare ≡ length row.now) spares.new.items }
{
    // It does not fail: there is a spare for each segment of the first block that was not handed up.
    let mut spare = spares.pop().unwrap();
    spare.copy(row.octets());
    segment_of(spare, len)
}

impl Stream {
    ghost use Rattle.rx_stream.specs.StreamState.{StreamState};

    /// Creates a stream of which nothing is held, with room for `room` blocks. Symbols take more memory as they come.
    ///
    /// # Errors
    ///
    /// `Memory` if memory runs out.
    pub fn new(
        alloc: Global,
        index: u32,
        fti: &Fti,
        flags: u8,
        plan: &Plan,
        room: u16,
    ) -> Result<Stream, Memory>
        requires stream { says_stream flags ≡ true }
        requires cut { plan.now ≡ stream_cut fti.now.e fti.now.b fti.now.max_n }
        requires some { 1 ≤ room }
        ensures { IfOk result (λ stream. stream ≡ empty_stream (new_plan index fti.now flags) room) }
    {
        let mut ring = VecDeque::with_capacity(alloc, usize::from(room))?;
        let size = usize::from(plan.e()) + PLACE;
        let spares = spare_rows(alloc, plan.source_len(0), size)?;
        fill(
            alloc,
            plan.source_len(0),
            size,
            &mut ring,
            usize::from(room),
        );
        let shorts = Shorts::new(alloc, u32::from(room))?;
        Ok(Stream {
            alloc,
            index,
            fti: *fti,
            flags,
            seen: 0,
            info: None,
            plan: *plan,
            first: 0,
            symbol: 0,
            ring,
            spares,
            shorts,
        })
    }

    /// Notes that a block was seen, whether or not its symbol was kept.
    pub fn see(&mut self, block: u32)
        ensures { self.new ≡ record self.old { plan = record (self.old.plan) { seen = max self.old.plan.seen block } } }
    {
        self.seen = self.seen.max(block);
    }

    pub fn fti(&self) -> Fti
        ensures { result ≡ self.now.plan.fti }
    {
        self.fti
    }

    pub fn plan(&self) -> Plan
        ensures { result ≡ cut_of_plan self.now.plan }
    {
        self.plan
    }

    pub fn flags(&self) -> u8
        ensures { result ≡ self.now.plan.flags }
    {
        self.flags
    }

    /// Returns the greatest block that was seen, even if it has no room yet. 0 if none was.
    pub fn seen(&self) -> u32
        ensures { result ≡ self.now.plan.seen }
    {
        self.seen
    }

    /// Returns the block of the next segment.
    pub fn first_block(&self) -> u32
        ensures { result ≡ self.now.point.block }
    {
        self.first
    }

    /// Returns the symbol of the next segment, within its block.
    pub fn first_symbol(&self) -> u8
        ensures { result ≡ self.now.point.symbol }
    {
        self.symbol
    }

    /// Whether the info is held.
    pub fn has_info(&self) -> bool
        ensures { result ≡ is_some self.now.info }
    {
        self.info.is_some()
    }

    /// Whether the info is held, or the stream has none. No segment is handed up before that.
    pub fn has_its_info(&self) -> bool
        ensures { result ≡ has_its_info (alone self.now) self.now.plan }
    {
        !has_flag(self.flags, INFO) || self.info.is_some()
    }

    /// Keeps the info. It takes no memory.
    pub fn put_info(&mut self, info: Octets)
        requires { self.old.info ≡ None }
        ensures { self.new ≡ record self.old { info = Some info } }
    {
        self.info = Some(info);
    }

    /// Whether a symbol came and was kept. It takes constant time. A symbol that was decoded did not come.
    pub fn holds(&self, block: u32, symbol: u8) -> bool
        requires { self.now.point.block ≤ block }
        ensures { result ≡ holds (alone self.now) (position self.now.plan.index block symbol) }
    {
        let place = place_of(self.first, block);
        if is_beyond(&self.ring, place) {
            return false;
        }
        self.ring[place].has(symbol)
    }

    /// Returns how many more symbols a block needs to be decoded.
    pub fn lacking(&self, block: u32) -> u8
        requires { self.now.point.block ≤ block }
        ensures { result ≡ lacking (alone self.now) self.now.plan block }
    {
        let place = place_of(self.first, block);
        if is_beyond(&self.ring, place) {
            return self.plan.source_len(0);
        }
        self.ring[place].lacks()
    }

    /// Whether a block has enough symbols to be decoded.
    fn is_done(&self, block: u32) -> bool
        requires { self.now.point.block ≤ block }
        ensures { result ≡ is_done (alone self.now) self.now.plan block }
    {
        self.lacking(block) == 0
    }

    /// Returns the first incomplete block from the next segment's on: the one after the ring if all in it are done. `None` if no message
    /// can name that one. It takes constant time.
    pub fn first_short(&self) -> Option<u32>
        ensures { IsShortFrom (alone self.now) self.now.plan self.now.point.block result }
    {
        let blocks = self.plan.blocks();
        let behind = behind_ring(self.first, &self.ring);
        first_of(self.shorts.first(), behind, blocks)
    }

    /// Returns the next incomplete block after this one. It goes on after the ring, and ends, as [`first_short`](Stream::first_short) does.
    /// It takes constant time.
    pub fn next_short(&self, block: u32) -> Option<u32>
        requires reached { self.now.point.block ≤ block }
        requires block { block < blocks (cut_of_plan self.now.plan) }
        requires short { is_done (alone self.now) self.now.plan block ≡ false }
        ensures { IsShortFrom (alone self.now) self.now.plan (block + 1) result }
    {
        let blocks = self.plan.blocks();
        let place = place_of(self.first, block);
        if is_beyond(&self.ring, place) {
            return first_of(None, block + 1, blocks);
        }
        let behind = behind_ring(self.first, &self.ring);
        first_of(self.shorts.next(block), behind, blocks)
    }

    /// Whether there is no room for a block until earlier ones are handed up.
    fn is_far(&self, block: u32) -> bool
        requires { self.now.point.block ≤ block }
        ensures exact { (p : Settings) → IsOf p self.now → result ≡ is_far p (alone self.now) self.now.plan block }
        ensures near { result ≡ false → block < self.now.point.block + self.now.room }
    {
        is_beyond(&self.ring, place_of(self.first, block))
    }

    /// Whether a symbol is an encoded symbol of the stream, and the payload fits it.
    fn suits(&self, block: u32, symbol: u8, payload: &[u8]) -> bool
        ensures exact { (p : Settings) → IsOf p self.now → result ≡ not (is_misfit p self.now.plan (position self.now.plan.index block symbol) payload.now) }
        ensures small { result ≡ true → symbol < 255 }
        ensures block { result ≡ true → block < 16777216 }
        ensures sent { result ≡ true → IsSent self.now.plan.fti.b (self.now.plan.fti.e + 8) symbol payload.now }
    {
        fits(&self.plan, block, symbol, payload)
    }

    /// Returns what [`offer`](Stream::offer) does with a symbol, without keeping it.
    // Proof: the tests of the rules are private methods with these tests as clauses, so nothing of what is kept is opened here.
    fn word(&self, block: u32, symbol: u8, payload: &[u8]) -> Put
        requires { self.now.point.block ≤ block }
        ensures word { (p : Settings) → IsOf p self.now → result ≡ put_by p (alone self.now) self.now.plan (position self.now.plan.index block symbol) payload.now }
        ensures kept { result ≡ put_word.Kept → MayKeep self.now block symbol payload.now }
    {
        if self.holds(block, symbol) {
            return Put::Had;
        }
        if self.is_done(block) {
            return Put::Had;
        }
        if self.is_far(block) {
            return Put::Away;
        }
        if !self.suits(block, symbol, payload) {
            return Put::Unfit;
        }
        Put::Kept
    }

    /// Keeps a new symbol, and decodes its block if that was the last one that it lacked.
    fn keep(
        &mut self,
        block: u32,
        symbol: u8,
        payload: &[u8],
        solver: &mut Solver,
    ) -> Result<(), Memory>
        requires reached { self.old.point.block ≤ block }
        requires comes { MayKeep self.old block symbol payload.now }
        requires solver { solver.old ≡ record { k = self.old.plan.fti.b; size = self.old.plan.fti.e + 8 } }
        ensures kept { IfOk result (λ _. self.new ≡ record self.old { held = (with_symbol put_word.Kept (position self.old.plan.index block symbol) payload.now (alone self.old)).held }) }
        ensures refused { OnErr result (self.new ≡ self.old) }
        ensures same { solver.new ≡ solver.old }
    {
        let place = place_of(self.first, block);
        put_at(&mut self.ring, place, self.alloc, symbol, payload, solver)?;
        note(&self.ring, place, &mut self.shorts, block);
        Ok(())
    }

    /// Keeps a symbol if it is new. If its block lacks no more symbols then, `solver` decodes it.
    ///
    /// Returns the first result that applies:
    /// - `Had` if the symbol is held, or its block is done.
    /// - `Away` if there is no room for its block yet.
    /// - `Unfit` if the stream has no such encoded symbol, or the payload has the wrong form. A source symbol is one segment of at most `e`
    ///   octets, and any other symbol has `e` + 8 octets.
    /// - `Kept`.
    ///
    /// # Errors
    ///
    /// `Memory` if memory runs out; then nothing changes.
    pub fn offer(
        &mut self,
        block: u32,
        symbol: u8,
        payload: &[u8],
        solver: &mut Solver,
    ) -> Result<Put, Memory>
        requires reached { self.old.point.block ≤ block }
        requires solver { solver.old ≡ record { k = self.old.plan.fti.b; size = self.old.plan.fti.e + 8 } }
        ensures word { IfOk result (λ word. (p : Settings) → IsOf p self.old
            → word ≡ put_by p (alone self.old) self.old.plan (position self.old.plan.index block symbol) payload.now) }
        ensures state { IfOk result (λ word. self.new ≡ record self.old { held = (with_symbol word (position self.old.plan.index block symbol) payload.now (alone self.old)).held }) }
        ensures refused { OnErr result (self.new ≡ self.old) }
        ensures same { solver.new ≡ solver.old }
    {
        let word = self.word(block, symbol, payload);
        if word == Put::Kept {
            self.keep(block, symbol, payload, solver)?;
        }
        Ok(word)
    }

    /// Returns the next segment as it is coded, if it is there, even if the info is not: its header, its data, and zeros.
    pub fn next(&self) -> Option<&Row>
        ensures coded { IsRow (self.now.plan.fti.e + 8) (next_segment (alone self.now) self.now.plan) (option_copied result) }
        ensures long { IfSome (option_copied result) (λ row. length row ≡ self.now.plan.fti.e + 8) }
    {
        self.ring[0].row(self.symbol)
    }

    /// Takes the data of the next segment, and goes on to the segment after it. With its last segment a block leaves the ring.
    fn take_segment(&mut self, len: u16) -> Octets
        requires { MatchOption (next_segment (alone self.old) self.old.plan) ⊥ (λ symbol. len ≡ min (number 2 0 symbol) self.old.plan.fti.e) }
        ensures octets { IfSome (next_segment (alone self.old) self.old.plan) (λ symbol. result ≡ take len (drop 8 symbol)) }
        ensures state { self.new ≡ passed self.old }
        ensures fewer { left self.new < left self.old }
    {
        // It does not fail: `hand_up` looked at this segment just before.
        let row = self.ring[0].row(self.symbol).unwrap();
        let bytes = copy_of(row, &mut self.spares, usize::from(len));
        let count = self.plan.source_len(0);
        if self.symbol + 1 < count {
            self.symbol += 1;
            return bytes;
        }
        let size = usize::from(self.plan.e()) + PLACE;
        self.symbol = 0;
        self.first += 1;
        // The symbol buffers of the block that leaves are as many as the next block has segments.
        self.spares = shift(&mut self.ring, Block::new(self.alloc, count, size));
        self.shorts.advance();
        bytes
    }

    /// Hands up the next segment if it is there, and goes on to the segment after it. If the stream has an info, that must be held too. The
    /// end, a segment without octets, is handed up as `StreamEnd` and stays the next segment. It takes no memory.
    pub fn hand_up(&mut self) -> Option<Up>
        ensures up { (p : Settings) → p.e ≡ self.old.plan.fti.e → result ≡ next_up p self.old }
        ensures state { self.new ≡ handed_on result self.old }
        ensures fewer { IfSome result (λ up. left_behind up self.new < left self.old) }
    {
        if !self.has_its_info() {
            return None;
        }
        let index = self.index;
        let Some(row) = self.next() else {
            return None;
        };
        let len = segment_len(row, self.plan.e());
        // The end stays: nothing comes after it, and whoever holds the stream drops it with this hand-up.
        if len == 0 {
            return Some(Up::StreamEnd { index });
        }
        let offset = offset_of(row);
        let bytes = self.take_segment(len);
        Some(Up::StreamBytes {
            index,
            offset,
            bytes,
        })
    }

    /// Returns the position of the stream's end, if the end is held or its block is done.
    // Proof: the first of a loop over a range is find over it: this loop goes over blocks, that of Block::end over symbols.
    pub fn end(&self) -> Option<PayloadId>
        ensures { (p : Settings) → p.e ≡ self.now.plan.fti.e
            → option_map (λ (id : Name). position self.now.plan.index id.block id.symbol) result ≡ end_of p (alone self.now) self.now.plan }
    {
        for place in 0..self.ring.len() {
            if let Some(symbol) = self.ring[place].end(self.plan.e()) {
                return Some(PayloadId {
                    block: self.first + place as u32,
                    symbol,
                });
            }
        }
        None
    }
}
