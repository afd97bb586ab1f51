//! The symbols of one block, decoded in place. A block has a slot for each of its source symbols: `size` octets of its symbol buffer, and the id of
//! the symbol that came into it, which stays after decoding.

ghost use Rattle.std.specs.Prelude.{ℕ, ◌≡◌, ◌==◌, ◌<◌, ◌≤◌, ◌+◌, ◌*◌, ◌≢◌, length, false, slice_index, IsTrue, EachIndex, MatchOption};
ghost use Rattle.std.specs.Bool.{Decides};
ghost use Rattle.gf_field.specs.Symbol.{AreIds, given};
ghost use Rattle.rs_block.specs.Codeword.{AreSources};
ghost use Rattle.norm_order.specs.Symbols.{padded};
ghost use Rattle.rx_object.specs.Places.{AreApart, free_places, has_id, pieces, symbol_in, with_one};

use norm_order::put_padded;
use rs_block::Solver;

/// Stands for the id of a slot into which no symbol came.
// No symbol has this id: a block has at most 255 encoded symbols (RFC 5510 section 8), with the ids 0 to 254.
pub const FREE: u8 = 255;

fn first_free(ids: &[u8]) -> Option<usize>
    ensures { MatchOption result (EachIndex ids.now (λ i. slice_index ids.now i ≢ 255)) (λ i. (i < length ids.now) × (slice_index ids.now i ≡ 255)) }
{
    ids.iter().position(|id| *id == FREE)
}

/// Returns a free slot: the symbol's own one if it is a source symbol and that slot is free, otherwise the first free one.
fn free_place(ids: &[u8], symbol: u8) -> usize
    requires { 0 < free_places ids.now }
    ensures within { result < length ids.now }
    ensures free { slice_index ids.now result ≡ 255 }
{
    let own = usize::from(symbol);
    // A source symbol in its own slot stays there as the block is solved.
    if own < ids.len() && ids[own] == FREE {
        return own;
    }
    // It does not fail: a symbol is put only into a block that lacks some, and so has a free slot.
    first_free(ids).unwrap()
}

/// Puts a new symbol into a free slot, with zeros up to `size` octets.
fn keep(ids: &mut [u8], row: &mut [u8], size: usize, symbol: u8, payload: &[u8])
    requires id { symbol < 255 }
    requires new { has_id symbol ids.old ≡ false }
    requires lacks { 0 < free_places ids.old }
    requires apart { AreApart ids.old }
    requires row { length row.old ≡ length ids.old * size }
    requires fits { length payload.now ≤ size }
    ensures symbols { (id : ℕ) → id < 255 → given ids.new (pieces size (length ids.old) row.new) id
        ≡ with_one symbol (padded size payload.now) (given ids.old (pieces size (length ids.old) row.old)) id }
    ensures lacks { free_places ids.old ≡ free_places ids.new + 1 }
    ensures apart { AreApart ids.new }
{
    let place = free_place(ids, symbol);
    ids[place] = symbol;
    let start = place * size;
    put_padded(&mut row[start..start + size], payload);
}

/// Whether each slot has its own source symbol, so that nothing is left to decode.
fn are_own(ids: &[u8]) -> bool
    ensures { Decides result (EachIndex ids.now (λ i. slice_index ids.now i ≡ i)) }
{
    for (i, id) in ids.iter().enumerate() {
        if usize::from(*id) != i {
            return false;
        }
    }
    true
}

/// Replaces the symbols of a block without free slots by its source symbols. Computes nothing if just these came.
fn solve(solver: &mut Solver, ids: &[u8], row: &mut [u8])
    requires some { 1 ≤ length ids.now }
    requires few { length ids.now ≤ solver.old.k }
    requires apart { AreApart ids.now }
    requires full { free_places ids.now ≡ 0 }
    requires row { length row.old ≡ length ids.now * solver.old.size }
    ensures sources { AreSources (length ids.now) solver.old.size ids.now row.old row.new }
    ensures different { AreIds (length ids.now) 255 ids.now }
    ensures same { solver.new ≡ solver.old }
{
    if are_own(ids) {
        return;
    }
    solver.solve_in(ids, row);
}

/// Puts a new symbol into a block that lacks `lacking`. With the last one, the block's source symbols replace the symbols that came. The
/// solver is for blocks of at least as many source symbols, of `size` octets each.
// Proof: what is held is a function of ids, so one more symbol changes one value, and no order of arrival counts.
pub fn put(
    solver: &mut Solver,
    ids: &mut [u8],
    row: &mut [u8],
    size: usize,
    symbol: u8,
    payload: &[u8],
    lacking: u8,
)
    requires size { solver.old.size ≡ size }
    requires few { length ids.old ≤ solver.old.k }
    requires most { length ids.old ≤ 255 }
    requires id { symbol < 255 }
    requires new { has_id symbol ids.old ≡ false }
    requires some { 1 ≤ lacking }
    requires lacks { free_places ids.old ≡ lacking }
    requires apart { AreApart ids.old }
    requires row { length row.old ≡ length ids.old * size }
    requires fits { length payload.now ≤ size }
    ensures symbols { (id : ℕ) → id < 255 → symbol_in size ids.new row.new id ≡ with_one symbol (padded size payload.now) (symbol_in size ids.old row.old) id }
    ensures lacks { free_places ids.old ≡ free_places ids.new + 1 }
    ensures apart { AreApart ids.new }
    ensures same { solver.new ≡ solver.old }
{
    keep(ids, row, size, symbol, payload);
    if lacking > 1 {
        return;
    }
    solve(solver, ids, row);
}
