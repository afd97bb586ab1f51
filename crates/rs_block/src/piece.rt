//! Two ways to keep the symbols of a block: in one buffer, one after the other, or each in a buffer of its own. Solving is written once for
//! both.

ghost use Rattle.std.specs.Prelude.{ℕ, List, ◌≡◌, ◌≢◌, ◌<◌, ◌≤◌, ◌*◌, ◌+◌, EachIndex, length, slice_index};
ghost use Rattle.std.specs.List.{concat};
ghost use Rattle.gf_field.specs.Symbol.{AreSymbols};

use crate::interpolation::symbol_at;
use crate::row::Row;

/// What a slice that keeps symbols of equal size consists of: octets, or a [`Row`] for each symbol.
// The trait is of what lies in a slice, since a type parameter cannot be a slice.
// Proof: rows count as their octets one after the other, so the lemmas on one long buffer serve both.
pub trait Piece {
    /// The octets of all symbols, one symbol after the other.
    ghost octets: { List Self → List ℕ };

    /// Whether these pieces are this many symbols of this many octets.
    ghost are_symbols: { ℕ → ℕ → List Self → Type 0 };

    /// Borrows symbol `i`. Copies nothing.
    fn symbol(pieces: &[Self], size: usize, i: usize) -> &[u8]
        requires { (k : ℕ) × ((i < k) × are_symbols k size pieces.now) }
        ensures len { length result.now ≡ size }
        ensures octets { EachIndex result.now (λ t.
            slice_index result.now t ≡ slice_index (octets pieces.now) (i * size + t)) };

    /// Overwrites symbol `i` in place. Takes no memory.
    fn put(pieces: &mut [Self], size: usize, i: usize, symbol: &[u8])
        requires size { length symbol.now ≡ size }
        requires within { (k : ℕ) × ((i < k) × are_symbols k size pieces.old) }
        ensures here { (t : ℕ) → t < size → slice_index (octets pieces.new) (i * size + t) ≡ slice_index symbol.now t }
        ensures others { (m t : ℕ) → m ≢ i → t < size → slice_index (octets pieces.new) (m * size + t) ≡ slice_index (octets pieces.old) (m * size + t) }
        ensures symbols { (k : ℕ) → are_symbols k size pieces.old → are_symbols k size pieces.new };
}

impl Piece for u8 {
    ghost octets = { λ pieces. pieces };

    ghost are_symbols = { λ k size pieces. length pieces ≡ k * size };

    fn symbol(pieces: &[Self], size: usize, i: usize) -> &[u8] {
        symbol_at(pieces, size, i)
    }

    fn put(pieces: &mut [Self], size: usize, i: usize, symbol: &[u8]) {
        put_symbol(pieces, size, i, symbol);
    }
}

impl Piece for Row {
    ghost octets = { concat };

    ghost are_symbols = { AreSymbols };

    fn symbol(pieces: &[Self], size: usize, i: usize) -> &[u8] {
        pieces[i].octets()
    }

    fn put(pieces: &mut [Self], size: usize, i: usize, symbol: &[u8]) {
        pieces[i].copy(symbol);
    }
}

/// Overwrites symbol `i` in a buffer of symbols of `size` octets.
pub fn put_symbol(row: &mut [u8], size: usize, i: usize, symbol: &[u8])
    requires size { length symbol.now ≡ size }
    requires within { i * size + size ≤ length row.old }
    ensures here { (t : ℕ) → t < size → slice_index row.new (i * size + t) ≡ slice_index symbol.now t }
    ensures others { (m t : ℕ) → m ≢ i → t < size → slice_index row.new (m * size + t) ≡ slice_index row.old (m * size + t) }
{
    let start = i * size;
    row[start..start + size].copy_from_slice(symbol);
}
