//! [`Block`]: the symbols of one block of a stream, which are decoded in place.

ghost use Rattle.std.specs.Prelude.{ℕ, true, false, List, [], ◌≡◌, ◌≢◌, ◌==◌, ◌<◌, ◌≤◌, ◌-◌, ◌+◌, MatchOption, EachIndex, IfSome, OnErr, OnOk, IfOk, is_some, length, insert, option_copied, nat_lt, slice_index};
ghost use Rattle.std.specs.Bool.{Decides};
ghost use Rattle.std.specs.List.{AllByRecursion};
ghost use Rattle.norm_base.specs.Sizes.{symbol_room};
ghost use Rattle.gf_field.specs.Element.{AreElements};
ghost use Rattle.gf_field.specs.Symbol.{AreIds, AreSymbols};
ghost use Rattle.norm_order.specs.Sets.{Rises, with_member};
ghost use Rattle.rx_stream.specs.BlockState.{empty_block, end_in_block, has_id, is_end_at, lacks, source_of};
ghost use Rattle.rx_stream.specs.BlockMoves.{IsPlace, IsRow, MayCome, with_came};
ghost use Rattle.rx_stream.specs.BlockSound.{settled};

use crate::moving::solve;
use crate::row::{coded_row, segment_len};
use norm_base::Memory;
use rs_block::{Row, Solver};
use std::alloc::Global;
use std::marker::Model;
use std::mem;
use symbol_mask::IdMask;

/// What is held of a block. [`put`](Block::put) each new symbol while the block lacks some. With the last one that it lacks, the block's
/// source symbols replace the symbols that came.
// `ids`, `mask` and, until the block is decoded, `rows` speak of the same symbols. If one went apart, a block could be solved from symbol
// buffers that are not what their ids say.
#[derive(Debug, Drop)]
pub struct Block {
    k: u8,
    /// How many octets a coded symbol has.
    size: usize,
    /// The ids of the symbols that came, in ascending order.
    ids: Vec<u8>,
    /// The same ids as a set, which tells in constant time whether a symbol came.
    mask: IdMask,
    /// A symbol buffer for each symbol in `ids`. After the block was decoded, they have its source symbols 0 to k - 1.
    rows: Vec<Row>,
}

impl Model for Block {
    ghost use Rattle.rx_stream.specs.BlockState.{BlockState};
    ghost use Rattle.rx_stream.specs.BlockSound.{block_of, BlockKept};

    ghost Value = { BlockState };

    ghost view = { λ b. block_of b.k b.size b.ids.items b.rows.items };

    ghost invariant = { λ b. BlockKept b.k b.size b.ids.items b.mask b.rows.items };
}

/// Whether an id is above all of these.
fn is_above_all(ids: &[u8], id: u8) -> bool
    requires { Rises ids.now }
    ensures { result ≡ true → AllByRecursion (λ (x : ℕ). x < id) ids.now }
{
    if ids.is_empty() {
        return true;
    }
    ids[ids.len() - 1] < id
}

/// Returns the index at which to insert an id into ascending ids.
fn place_for(ids: &[u8], id: u8) -> usize
    requires { Rises ids.now }
    ensures { IsPlace id ids.now result }
{
    if is_above_all(ids, id) {
        return ids.len();
    }
    for (place, other) in ids.iter().enumerate() {
        if id <= *other {
            return place;
        }
    }
    ids.len()
}

/// Returns the index of an id. `None` if that symbol did not come.
fn position_of(ids: &[u8], id: u8) -> Option<usize>
    ensures { MatchOption result
        (EachIndex ids.now (λ i. slice_index ids.now i ≢ id))
        (λ i. (i < length ids.now) × (slice_index ids.now i ≡ id)) }
{
    ids.iter().position(|other| *other == id)
}

/// Inserts an id and its symbol buffer at their index, and returns that. If memory runs out nothing changes.
// Proof: the id and its row go to one index, so they are one insertion into the list of ids with rows (listed_more).
fn keep(
    ids: &mut Vec<u8>,
    mask: &mut IdMask,
    rows: &mut Vec<Row>,
    id: u8,
    row: Row,
) -> Result<usize, Memory>
    requires rows { length rows.old.items ≡ length ids.old.items }
    requires rising { Rises ids.old.items }
    ensures place { IfOk result (λ place. IsPlace id ids.old.items place) }
    ensures ids { IfOk result (λ place. ids.new.items ≡ insert ids.old.items place id) }
    ensures mask { IfOk result (λ place. mask.new ≡ with_member nat_lt id mask.old) }
    ensures rows { IfOk result (λ place. rows.new.items ≡ insert rows.old.items place row) }
    ensures refused { OnErr result ((ids.new.items ≡ ids.old.items) × (rows.new.items ≡ rows.old.items)) }
    ensures unmasked { OnErr result (mask.new ≡ mask.old) }
{
    let place = place_for(ids, id);
    // Reserve first. If memory ran out between the two inserts, `ids` and `rows` would disagree about the block.
    ids.reserve(1)?;
    rows.insert(place, row)?;
    ids.insert(place, id).unwrap();
    mask.insert(id);
    Ok(place)
}

/// Whether each id equals its own index. For a full block that means that exactly its source symbols came.
fn are_own(ids: &[u8]) -> bool
    requires { Rises ids.now }
    ensures { Decides result (EachIndex ids.now (λ i. slice_index ids.now i ≡ i)) }
{
    if ids.is_empty() {
        return true;
    }
    // The ids rise, so the last one says it of all.
    let last = ids.len() - 1;
    usize::from(ids[last]) == last
}

/// Decodes a block if it lacks no symbols. Does nothing if its own source symbols came.
// Proof: encoding the solved rows gives what came, so solving in place leaves the listed symbols as they were (encoded_again).
fn settle(k: u8, ids: &[u8], rows: &mut [Row], solver: &mut Solver)
    requires some { 1 ≤ k }
    requires solver { solver.old.k ≡ k }
    requires few { length ids.now ≤ k }
    requires rising { Rises ids.now }
    requires ids { length ids.now ≡ k → AreIds k 255 ids.now }
    requires rows { length ids.now ≡ k → AreSymbols k solver.old.size rows.old }
    requires elements { AllByRecursion AreElements rows.old }
    ensures rows { rows.new ≡ settled k solver.old.size ids.now rows.old }
    ensures elements { AllByRecursion AreElements rows.new }
    ensures same { solver.new ≡ solver.old }
{
    if ids.len() < usize::from(k) {
        return;
    }
    // If all source symbols came, nothing has to be computed: the usual case.
    if are_own(ids) {
        return;
    }
    solve(solver, ids, rows);
}

impl Block {
    ghost use Rattle.rx_stream.specs.BlockState.{BlockState};

    /// Creates an empty block of `k` source symbols of `size` octets. It takes no memory.
    pub fn new(alloc: Global, k: u8, size: usize) -> Block
        requires some { 1 ≤ k }
        requires least { 8 ≤ size }
        requires most { size ≤ symbol_room }
        ensures { result ≡ empty_block k size }
    {
        Block {
            k,
            size,
            ids: Vec::new(alloc),
            mask: IdMask::new(),
            rows: Vec::new(alloc),
        }
    }

    /// Whether a symbol came. A symbol that was decoded did not come.
    pub fn has(&self, id: u8) -> bool
        ensures { result ≡ has_id self.now id }
    {
        self.mask.contains(id)
    }

    /// Returns how many more symbols the block needs to be decoded. 0 if it was.
    pub fn lacks(&self) -> u8
        ensures exact { result ≡ lacks self.now }
        ensures most { result ≤ self.now.k }
    {
        self.k - self.ids.len() as u8
    }

    /// Adds a new symbol to a block that lacks some, and decodes the block if that was the last one. Decoding takes no memory.
    ///
    /// # Errors
    ///
    /// `Memory` if memory runs out; then nothing changes.
    pub fn put(
        &mut self,
        alloc: Global,
        id: u8,
        payload: &[u8],
        solver: &mut Solver,
    ) -> Result<(), Memory>
        requires comes { MayCome self.old id payload.now }
        requires solver { solver.old ≡ record { k = self.old.k; size = self.old.size } }
        ensures kept { IfOk result (λ _. self.new ≡ with_came id payload.now self.old) }
        ensures refused { OnErr result (self.new ≡ self.old) }
        ensures same { solver.new ≡ solver.old }
    {
        let row = coded_row(alloc, payload, self.size)?;
        keep(&mut self.ids, &mut self.mask, &mut self.rows, id, row)?;
        settle(self.k, &self.ids, &mut self.rows, solver);
        Ok(())
    }

    /// Returns a source symbol as it is coded, if it came or the block was decoded.
    pub fn row(&self, symbol: u8) -> Option<&Row>
        requires { symbol < self.now.k }
        ensures coded { IsRow self.now.size (source_of self.now symbol) (option_copied result) }
        ensures long { IfSome (option_copied result) (λ row. length row ≡ self.now.size) }
    {
        if self.ids.len() == usize::from(self.k) {
            return Some(&self.rows[usize::from(symbol)]);
        }
        match position_of(&self.ids, symbol) {
            Some(place) => Some(&self.rows[place]),
            None => None,
        }
    }

    /// Whether a source symbol is there, and is a segment without octets.
    fn is_end(&self, most: u16, symbol: u8) -> bool
        requires symbol { symbol < self.now.k }
        requires most { self.now.size ≡ most + 8 }
        ensures { result ≡ is_end_at most self.now symbol }
    {
        match self.row(symbol) {
            Some(row) => segment_len(row, most) == 0,
            None => false,
        }
    }

    /// Returns the first source symbol that is there and is a segment without octets. `most` is the most octets of a segment.
    pub fn end(&self, most: u16) -> Option<u8>
        requires { self.now.size ≡ most + 8 }
        ensures { result ≡ end_in_block most self.now }
    {
        // Many blocks of a ring may be empty.
        if self.ids.is_empty() {
            return None;
        }
        for symbol in 0..self.k {
            if self.is_end(most, symbol) {
                return Some(symbol);
            }
        }
        None
    }

    /// Returns the symbol buffers of a block whose source symbols are all there. It takes no memory.
    pub fn into_rows(self) -> Vec<Row>
        requires { (symbol : ℕ) → symbol < self.k → is_some (source_of self symbol) ≡ true }
        ensures count { length result.items ≡ self.k }
        ensures sizes { AllByRecursion (λ (row : List ℕ). length row ≡ self.size) result.items }
    {
        let Block { rows, .. } = self;
        rows
    }
}
