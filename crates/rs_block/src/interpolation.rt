//! Lagrange's formula over GF(2^8): the values of the polynomial of degree below k through k points. RFC 5510 section 8.2 gets the same by
//! matrices. A point is the power of alpha to a symbol's id; `places` has the points of the symbols that are known. Both `Code` and
//! `Solver` use this.

ghost use Rattle.std.specs.Prelude.{ℕ, ◌≡◌, ◌≢◌, ◌<◌, ◌≤◌, ◌+◌, ◌*◌, EachIndex, MatchOption, bit_xor, length, slice_index};
ghost use Rattle.std.specs.List.{AllPairs};
ghost use Rattle.gf_field.specs.Product.{product};
ghost use Rattle.gf_field.specs.Power.{power};
ghost use Rattle.gf_field.specs.Inverse.{inverse};
ghost use Rattle.gf_field.specs.Interpolation.{differences, others};
ghost use Rattle.rs_block.specs.Column.{column};
ghost use Rattle.rs_block.specs.Points.{AreWeights, weight_at};
ghost use Rattle.rs_block.specs.Row.{coefficients, combined};

use gf_field::{add_four, add_scaled, alpha_log, alpha_pow};

/// The order of alpha. Exponents with the same remainder by it give the same power.
// RFC 5510 section 8.1: the powers of alpha are all octets except 0.
pub const ORDER: u32 = 255;

/// Returns the point of the symbol with this id. Ids below 255 have different points.
pub fn place_of(id: u8) -> u8
    ensures { result ≡ power id }
{
    alpha_pow(u32::from(id))
}

/// Returns the index of the id in `ids`, if it is there. Walks the list.
pub fn position_of(ids: &[u8], id: u8) -> Option<usize>
    ensures { MatchOption result
        (EachIndex ids.now (λ i. slice_index ids.now i ≢ id))
        (λ i. (i < length ids.now) × (slice_index ids.now i ≡ id)) }
{
    ids.iter().position(|other| *other == id)
}

/// Returns an exponent of alpha for the product of the differences between `x` and each point. `x` is none of the points.
#[tactic(auto, using(crate::proofs::Formula::differ))]
fn difference_log(places: &[u8], x: u8) -> u32
    requires few { length places.now ≤ 255 }
    requires away { EachIndex places.now (λ i. slice_index places.now i ≢ x) }
    ensures small { result ≤ 254 * length places.now }
    ensures exponent { power result ≡ differences places.now x }
{
    let mut total = 0;
    for place in places {
        total += alpha_log(x ^ *place);
    }
    total
}

/// Returns an exponent of alpha for the product of the differences between `place` and each other point.
// Proof: the place is skipped by its value, as the definition does. All places differ, so no lemma speaks of indexes.
#[tactic(auto, using(crate::proofs::Formula::others_steps))]
fn others_log(places: &[u8], place: u8) -> u32
    requires { length places.now ≤ 255 }
    ensures { power result ≡ differences (others place places.now) place }
{
    let mut total = 0;
    for other in places {
        if *other != place {
            total += alpha_log(place ^ *other);
        }
    }
    total
}

/// Returns a logarithm of a point's weight: the inverse of the denominator in the point's coefficient. It costs a pass over all points.
// Weights are kept as logarithms: a product is then a sum, and an inverse a difference.
#[tactic(auto, using(crate::proofs::Formula::weight_is))]
pub fn weight_log(places: &[u8], place: u8) -> u8
    requires { length places.now ≤ 255 }
    ensures { power result ≡ weight_at places.now place }
{
    (ORDER - others_log(places, place) % ORDER) as u8
}

/// Fills `weights` with the logarithm of each point's weight. The cost grows with the square of the number of points.
pub fn weigh(places: &[u8], weights: &mut [u8])
    requires count { length weights.old ≡ length places.now }
    requires few { length places.now ≤ 255 }
    ensures { AreWeights places.now weights.new }
{
    for (i, weight) in weights.iter_mut().enumerate() {
        *weight = weight_log(places, places[i]);
    }
}

/// Returns a point's coefficient at `x`. `all` is an exponent of alpha for the product of the differences between `x` and all points,
/// `weight` one for the point's weight.
// One product of all differences serves every point: the point's own difference is taken out again, which costs one look-up in place of k.
#[tactic(auto, using(crate::proofs::Formula::differ))]
fn coefficient(all: u32, x: u8, place: u8, weight: u8) -> u8
    requires away { place ≢ x }
    requires small { all < 65536 }
    ensures { result ≡ product (product (power all) (inverse (bit_xor x place))) (power weight) }
{
    alpha_pow(all + (ORDER - alpha_log(x ^ place)) + u32::from(weight))
}

/// Fills `row` with each point's coefficient at `x`, which is none of the points. The weights are logarithms.
pub fn put_coefficients(places: &[u8], weights: &[u8], x: u8, row: &mut [u8])
    requires weighted { AreWeights places.now weights.now }
    requires different { AllPairs (λ p q. p ≢ q) places.now }
    requires away { EachIndex places.now (λ i. slice_index places.now i ≢ x) }
    requires few { length places.now ≤ 255 }
    requires count { length row.old ≡ length places.now }
    ensures { row.new ≡ coefficients places.now x }
{
    let all = difference_log(places, x);
    for (i, entry) in row.iter_mut().enumerate() {
        *entry = coefficient(all, x, places[i], weights[i]);
    }
}

/// Borrows symbol `i` of symbols of `size` octets that lie one after the other.
pub fn symbol_at(symbols: &[u8], size: usize, i: usize) -> &[u8]
    requires { i * size + size ≤ length symbols.now }
    ensures len { length result.now ≡ size }
    ensures octets { EachIndex result.now (λ t.
        slice_index result.now t ≡ slice_index symbols.now (i * size + t)) }
{
    let start = i * size;
    &symbols[start..start + size]
}

/// Adds the sum of the symbols, each times its coefficient in `row`, to `out`.
pub fn add_combined(row: &[u8], symbols: &[u8], out: &mut [u8])
    requires { length symbols.now ≡ length row.now * length out.old }
    ensures { EachIndex out.new (λ t.
        let octets = column (length row.now) (length out.old) symbols.now t in
        slice_index out.new t ≡ bit_xor (slice_index out.old t) (combined row.now octets)) }
{
    let size = out.len();
    let mut i = 0;
    // Four at a time, because each pass reads and writes `out`.
    while row.len() - i >= 4 {
        let first = symbol_at(symbols, size, i);
        let second = symbol_at(symbols, size, i + 1);
        let third = symbol_at(symbols, size, i + 2);
        let fourth = symbol_at(symbols, size, i + 3);
        let factors = [row[i], row[i + 1], row[i + 2], row[i + 3]];
        add_four(out, first, second, third, fourth, factors);
        i += 4;
    }
    while i < row.len() {
        add_scaled(out, symbol_at(symbols, size, i), row[i]);
        i += 1;
    }
}
