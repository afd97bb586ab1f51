//! [`Rows`]: the blocks of an object, one after another in one buffer.

ghost use Rattle.std.specs.Prelude.{ℕ, [], ◌≡◌, ◌≢◌, ◌<◌, ◌≤◌, ◌*◌, ◌+◌, ◌^◌, IfOk, Some, is_some, true, false, length, replicate};
ghost use Rattle.fec_plan.specs.Partition.{blocks, all_symbols};
ghost use Rattle.norm_order.specs.Symbols.{padded};
ghost use Rattle.rx_object.specs.Places.{AreApart, free_places, has_id};
ghost use Rattle.rx_object.specs.Rows.{block_ids, coded_symbol, with_coded, start_of, end_of};
ghost use Rattle.rx_object.specs.RowsSound.{AreRows};

use crate::block::{self, FREE};
use fec_plan::Plan;
use norm_base::Memory;
use rs_block::Solver;
use std::alloc::Global;
use symbol_mask::IdMask;

/// A slot for each source symbol of an object, block by block.
// One buffer for the whole object, made with its plan: a hand-up cuts it to the object's length and gives it away, with no copy and no memory.
// A source symbol lies in its own slot, unless another symbol took that first. Decoding a block writes only the slots with another symbol.
#[derive(Debug, Drop)]
pub struct Rows {
    pub plan: Plan,
    /// The octets of all slots, `e` for each. Those of a free slot are zeros.
    pub octets: Vec<u8>,
    /// The id of the symbol that came into each slot, or [`FREE`]. It stays after the block was decoded.
    pub ids: Vec<u8>,
    /// The ids of the symbols that came of each block, as a set.
    // The ids of a block twice: `ids` says which symbol came into which slot, this in one look whether a symbol came, whatever the order.
    pub masks: Vec<IdMask>,
}

/// Returns the first slot of a block: as many slots lie before it as the blocks before have source symbols.
fn start_of(plan: &Plan, block: u32) -> usize
    requires object { is_some plan.now.l ≡ true }
    ensures exact { result ≡ start_of plan.now block }
    ensures most { result < 2 ^ 43 }
{
    plan.symbol_number(block, 0) as usize
}

/// Returns the slot after the last one of a block: the first of the next block, if there is one.
fn end_of(plan: &Plan, block: u32) -> usize
    requires object { is_some plan.now.l ≡ true }
    ensures { result ≡ end_of plan.now block }
{
    start_of(plan, block) + usize::from(plan.source_len(block))
}

fn empty_masks(alloc: Global, count: u32) -> Result<Vec<IdMask>, Memory>
    ensures { IfOk result (λ masks. masks.items ≡ replicate count []) }
{
    let mut masks = Vec::with_capacity(alloc, count as usize)?;
    for _ in 0..count {
        masks.push(IdMask::new())?;
    }
    Ok(masks)
}

/// Puts a new symbol into a block that lacks `lacking`, and decodes the block if that was the last one.
// Proof: it takes lent slices, so the written parts are known. A method on the vectors would leave take n (new ++ drop ..).
fn put_at(
    plan: &Plan,
    solver: &mut Solver,
    ids: &mut [u8],
    octets: &mut [u8],
    block: u32,
    symbol: u8,
    payload: &[u8],
    lacking: u8,
)
    requires object { is_some plan.now.l ≡ true }
    requires block { block < blocks plan.now }
    requires octets { length octets.old ≡ all_symbols plan.now * plan.now.e }
    requires ids { length ids.old ≡ all_symbols plan.now }
    requires most { all_symbols plan.now * plan.now.e ≤ 16778616 }
    requires solver { solver.old ≡ record { k = plan.now.b; size = plan.now.e } }
    requires id { symbol < 255 }
    requires new { has_id symbol (block_ids plan.now ids.old block) ≡ false }
    requires some { 1 ≤ lacking }
    requires lacks { free_places (block_ids plan.now ids.old block) ≡ lacking }
    requires apart { AreApart (block_ids plan.now ids.old block) }
    requires fits { length payload.now ≤ plan.now.e }
    ensures symbols { (b id : ℕ) → b < blocks plan.now → id < 255 → coded_symbol plan.now ids.new octets.new b id
        ≡ with_coded block symbol (padded plan.now.e payload.now) (coded_symbol plan.now ids.old octets.old) b id }
    ensures others { (b : ℕ) → b ≢ block → block_ids plan.now ids.new b ≡ block_ids plan.now ids.old b }
    ensures lacks { free_places (block_ids plan.now ids.old block) ≡ free_places (block_ids plan.now ids.new block) + 1 }
    ensures apart { AreApart (block_ids plan.now ids.new block) }
    ensures same { solver.new ≡ solver.old }
{
    let size = usize::from(plan.e());
    let start = start_of(plan, block);
    let end = end_of(plan, block);
    let own = &mut ids[start..end];
    let row = &mut octets[start * size..end * size];
    block::put(solver, own, row, size, symbol, payload, lacking);
}

impl Rows {
    /// Creates free slots. It takes all the memory that the symbols of the object need.
    ///
    /// # Errors
    ///
    /// `Memory` if memory runs out.
    pub fn new(alloc: Global, plan: &Plan) -> Result<Rows, Memory>
        requires object { is_some plan.now.l ≡ true }
        requires most { (l : ℕ) → plan.now.l ≡ Some l → l ≤ 16777216 }
        ensures plan { IfOk result (λ rows. rows.plan ≡ plan.now) }
        ensures free { IfOk result (λ rows. rows.ids.items ≡ replicate (all_symbols plan.now) 255) }
        ensures rows { IfOk result AreRows }
    {
        let size = usize::from(plan.e());
        let last = plan.blocks() - 1;
        let places = end_of(plan, last);
        let octets = vec![in alloc; 0; places * size]?;
        let ids = vec![in alloc; FREE; places]?;
        let masks = empty_masks(alloc, plan.blocks())?;
        Ok(Rows {
            plan: *plan,
            octets,
            ids,
            masks,
        })
    }

    /// Whether a symbol of a block came. It takes constant time.
    pub fn holds(&self, block: u32, symbol: u8) -> bool
        requires rows { AreRows self.now }
        requires block { block < blocks self.now.plan }
        requires id { symbol < 255 }
        ensures { result ≡ has_id symbol (block_ids self.now.plan self.now.ids.items block) }
    {
        self.masks[block as usize].contains(symbol)
    }

    /// Puts a new symbol into a block that lacks `lacking`, and decodes the block if that was the last one. It takes no memory.
    pub fn put(&mut self, block: u32, symbol: u8, payload: &[u8], lacking: u8, solver: &mut Solver)
        requires rows { AreRows self.old }
        requires block { block < blocks self.old.plan }
        requires id { symbol < 255 }
        requires new { has_id symbol (block_ids self.old.plan self.old.ids.items block) ≡ false }
        requires some { 1 ≤ lacking }
        requires lacks { free_places (block_ids self.old.plan self.old.ids.items block) ≡ lacking }
        requires apart { AreApart (block_ids self.old.plan self.old.ids.items block) }
        requires fits { length payload.now ≤ self.old.plan.e }
        requires solver { solver.old ≡ record { k = self.old.plan.b; size = self.old.plan.e } }
        ensures plan { self.new.plan ≡ self.old.plan }
        ensures rows { AreRows self.new }
        ensures symbols { (b id : ℕ) → b < blocks self.old.plan → id < 255
            → coded_symbol self.old.plan self.new.ids.items self.new.octets.items b id
            ≡ with_coded block symbol (padded self.old.plan.e payload.now) (coded_symbol self.old.plan self.old.ids.items self.old.octets.items) b id }
        ensures others { (b : ℕ) → b ≢ block → block_ids self.old.plan self.new.ids.items b ≡ block_ids self.old.plan self.old.ids.items b }
        ensures lacks { free_places (block_ids self.old.plan self.old.ids.items block)
            ≡ free_places (block_ids self.old.plan self.new.ids.items block) + 1 }
        ensures apart { AreApart (block_ids self.old.plan self.new.ids.items block) }
        ensures same { solver.new ≡ solver.old }
    {
        put_at(
            &self.plan,
            solver,
            &mut self.ids,
            &mut self.octets,
            block,
            symbol,
            payload,
            lacking,
        );
        self.masks[block as usize].insert(symbol);
    }
}
