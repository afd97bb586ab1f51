//! Solves a block in its own buffer. A symbol that is already at the index of its id stays untouched. The others are copied aside, and the
//! source symbols of their indexes are written over them. `solve` calls `set_aside` and then `put_lacking`.

ghost use Rattle.std.specs.Prelude.{ℕ, List, ◌≡◌, ◌<◌, ◌≤◌, ◌*◌, ◌+◌, EachIndex, bit_xor, length, map, slice_index};
ghost use Rattle.norm_base.specs.Octets.{AreOctets};
ghost use Rattle.norm_base.specs.Sizes.{symbol_room};
ghost use Rattle.gf_field.specs.Power.{power};
ghost use Rattle.gf_field.specs.Interpolation.{interpolated};
ghost use Rattle.rs_block.specs.Aside.{LieIn};
ghost use Rattle.rs_block.specs.Codeword.{AreIds, AreSources};
ghost use Rattle.rs_block.specs.Column.{column};
ghost use Rattle.rs_block.specs.Points.{AreWeights};
ghost use Rattle.rs_block.specs.Row.{combined};

use crate::interpolation::{place_of, position_of, put_coefficients, symbol_at};
use crate::piece::{Piece, put_symbol};
use gf_field::{add_four, add_scaled};
use norm_base::SYMBOL_ROOM;

/// Copies each symbol whose id is not its index to the same index of `aside`.
// All of them before the first is written over: each source symbol that is computed is a sum of all symbols that came.
pub fn set_aside<P: Piece>(ids: &[u8], pieces: &[P], size: usize, aside: &mut [u8])
    requires symbols { P.are_symbols (length ids.now) size pieces.now }
    requires room { length ids.now * size ≤ length aside.old }
    ensures { LieIn size ids.now (P.octets pieces.now) (P.octets pieces.now) aside.new }
{
    for (i, id) in ids.iter().enumerate() {
        if usize::from(*id) != i {
            put_symbol(aside, size, i, P::symbol(pieces, size, i));
        }
    }
}

/// Returns symbol `i` of those that came: `own`, which is at index `i` of the block, or the copy in `aside` if the id is not `i`.
pub fn came_at<'a>(ids: &[u8], own: &'a [u8], aside: &'a [u8], size: usize, i: usize) -> &'a [u8]
    requires within { i < length ids.now }
    requires own { length own.now ≡ size }
    requires room { i * size + size ≤ length aside.now }
    ensures len { length result.now ≡ size }
    ensures octets { (symbols row : List ℕ) → LieIn size ids.now symbols row aside.now
        → ((t : ℕ) → t < size → slice_index own.now t ≡ slice_index row (i * size + t))
        → EachIndex result.now (λ t. slice_index result.now t ≡ slice_index symbols (i * size + t)) }
{
    if usize::from(ids[i]) == i {
        return own;
    }
    symbol_at(aside, size, i)
}

/// Returns symbol `i` of those that came, as `came_at` does with the one at index `i` of the block.
fn came<'a, P: Piece>(
    ids: &[u8],
    pieces: &'a [P],
    aside: &'a [u8],
    size: usize,
    i: usize,
) -> &'a [u8]
    requires within { i < length ids.now }
    requires symbols { P.are_symbols (length ids.now) size pieces.now }
    requires room { length ids.now * size ≤ length aside.now }
    ensures len { length result.now ≡ size }
    ensures octets { (symbols : List ℕ) → LieIn size ids.now symbols (P.octets pieces.now) aside.now
        → EachIndex result.now (λ t. slice_index result.now t ≡ slice_index symbols (i * size + t)) }
{
    came_at(ids, P::symbol(pieces, size, i), aside, size, i)
}

/// Adds the sum of the symbols that came, each times its coefficient, to `out`.
fn add_all<P: Piece>(coefficients: &[u8], ids: &[u8], pieces: &[P], aside: &[u8], out: &mut [u8])
    requires count { length coefficients.now ≡ length ids.now }
    requires symbols { P.are_symbols (length ids.now) (length out.old) pieces.now }
    requires room { length ids.now * length out.old ≤ length aside.now }
    ensures { (symbols : List ℕ) → LieIn (length out.old) ids.now symbols (P.octets pieces.now) aside.now
        → EachIndex out.new (λ t.
        let octets = column (length coefficients.now) (length out.old) symbols t in
        slice_index out.new t ≡ bit_xor (slice_index out.old t) (combined coefficients.now octets)) }
{
    let size = out.len();
    let mut i = 0;
    while coefficients.len() - i >= 4 {
        let first = came(ids, pieces, aside, size, i);
        let second = came(ids, pieces, aside, size, i + 1);
        let third = came(ids, pieces, aside, size, i + 2);
        let fourth = came(ids, pieces, aside, size, i + 3);
        let factors = [
            coefficients[i],
            coefficients[i + 1],
            coefficients[i + 2],
            coefficients[i + 3],
        ];
        add_four(out, first, second, third, fourth, factors);
        i += 4;
    }
    while i < coefficients.len() {
        add_scaled(out, came(ids, pieces, aside, size, i), coefficients[i]);
        i += 1;
    }
}

/// Computes symbol `j` of the block into `out` from the symbols that came. If it is one of them, this is a copy.
fn recover_from<P: Piece>(
    ids: &[u8],
    places: &[u8],
    weights: &[u8],
    pieces: &[P],
    aside: &[u8],
    j: u8,
    coefficients: &mut [u8],
    out: &mut [u8],
)
    requires ids { AreIds (length ids.now) 255 ids.now }
    requires few { length ids.now ≤ 255 }
    requires places { places.now ≡ map power ids.now }
    requires weighted { AreWeights places.now weights.now }
    requires symbols { P.are_symbols (length ids.now) (length out.old) pieces.now }
    requires aside { length ids.now * length out.old ≤ length aside.now }
    requires below { j < 255 }
    requires room { length coefficients.old ≡ length ids.now }
    ensures { (symbols : List ℕ) → AreOctets symbols → LieIn (length out.old) ids.now symbols (P.octets pieces.now) aside.now
        → EachIndex out.new (λ t.
        let values = column (length ids.now) (length out.old) symbols t in
        slice_index out.new t ≡ interpolated (map power ids.now) values (power j)) }
{
    let size = out.len();
    match position_of(ids, j) {
        // It came, and lies at another index. Coefficients exist only for a symbol that did not come, and a sum would cost a pass over k symbols.
        Some(i) => out.copy_from_slice(came_at(ids, P::symbol(pieces, size, i), aside, size, i)),
        None => {
            put_coefficients(places, weights, place_of(j), coefficients);
            out.fill(0);
            add_all(coefficients, ids, pieces, aside, out);
        }
    }
}

/// Writes the right source symbol over each symbol whose id is not its index. Call `set_aside` before. A source symbol that did not come
/// costs a sum over all symbols that came.
pub fn put_lacking<P: Piece>(
    ids: &[u8],
    places: &[u8],
    weights: &[u8],
    size: usize,
    aside: &[u8],
    coefficients: &mut [u8],
    pieces: &mut [P],
)
    requires ids { AreIds (length ids.now) 255 ids.now }
    requires few { length ids.now ≤ 255 }
    requires places { places.now ≡ map power ids.now }
    requires weighted { AreWeights places.now weights.now }
    requires short { size ≤ symbol_room }
    requires symbols { P.are_symbols (length ids.now) size pieces.old }
    requires octets { AreOctets (P.octets pieces.old) }
    requires aside { length ids.now * size ≤ length aside.now }
    requires lie { LieIn size ids.now (P.octets pieces.old) (P.octets pieces.old) aside.now }
    requires room { length coefficients.old ≡ length ids.now }
    ensures sources { AreSources (length ids.now) size ids.now (P.octets pieces.old) (P.octets pieces.new) }
    ensures symbols { P.are_symbols (length ids.now) size pieces.new }
{
    // The sum reads the pieces, so the symbol is made beside them and then copied. On the stack, so that solving takes no memory.
    let mut room = [0; SYMBOL_ROOM];
    let symbol = &mut room[..size];
    for j in 0..ids.len() as u8 {
        let i = usize::from(j);
        if ids[i] != j {
            recover_from(ids, places, weights, pieces, aside, j, coefficients, symbol);
            P::put(pieces, size, i, symbol);
        }
    }
}
