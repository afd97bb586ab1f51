//! Computes the weights of a block's points from those of the first powers of alpha. Most symbols of a block are usually source symbols at
//! their own index, so few points differ. Each that differs changes the weights of the others by one factor. `solve` calls `weigh_by_ids`.

ghost use Rattle.std.specs.Prelude.{ℕ, ◌≡◌, ◌≢◌, ◌<◌, ◌≤◌, ◌-◌, EachIndex, bit_xor, length, map, slice_index};
ghost use Rattle.gf_field.specs.Product.{product};
ghost use Rattle.gf_field.specs.Power.{power};
ghost use Rattle.rs_block.specs.Codeword.{AreIds};
ghost use Rattle.rs_block.specs.Points.{AreWeights, IsWeight, powers};

use crate::interpolation::{ORDER, place_of, weight_log};
use gf_field::alpha_log;

/// Returns the logarithm of the weight of `place` after `new` replaced `old` among the other points. `log` is the one before.
#[tactic(auto, using(crate::proofs::Formula::differ))]
fn exchanged(log: u8, place: u8, old: u8, new: u8) -> u8
    requires old { place ≢ old }
    requires new { place ≢ new }
    ensures { product (power result) (bit_xor place new) ≡ product (power log) (bit_xor place old) }
{
    let gained = alpha_log(place ^ old);
    let lost = alpha_log(place ^ new);
    ((u32::from(log) + gained + (ORDER - lost)) % ORDER) as u8
}

/// Updates the weight of each point whose id is its index, as `new` replaces `old`.
fn exchange(ids: &[u8], places: &[u8], old: u8, new: u8, weights: &mut [u8])
    requires count { length weights.old ≡ length ids.now }
    requires places { length places.now ≡ length ids.now }
    requires old { EachIndex ids.now (λ i. slice_index ids.now i ≡ i → slice_index places.now i ≢ old) }
    requires new { EachIndex ids.now (λ i. slice_index ids.now i ≡ i → slice_index places.now i ≢ new) }
    ensures { EachIndex ids.now (λ i. slice_index ids.now i ≡ i →
        product (power (slice_index weights.new i)) (bit_xor (slice_index places.now i) new)
        ≡ product (power (slice_index weights.old i)) (bit_xor (slice_index places.now i) old)) }
{
    for (i, weight) in weights.iter_mut().enumerate() {
        if usize::from(ids[i]) == i {
            *weight = exchanged(*weight, places[i], old, new);
        }
    }
}

/// Returns the logarithm of the weight of the power 0 among the first `count` powers of alpha.
fn first_weight(count: u8) -> u8
    requires { 1 ≤ count }
    ensures { IsWeight (powers count) (power 0) result }
{
    let mut total = 0;
    for j in 1..count {
        total += alpha_log(place_of(0) ^ place_of(j));
    }
    (ORDER - total % ORDER) as u8
}

/// Returns the logarithm of the weight of the power `i` among the powers 0 to `last`. `log` is that of the power `i - 1`.
fn next_weight(log: u8, i: u8, last: u8) -> u8
    requires some { 1 ≤ i }
    requires within { i ≤ last }
    requires most { last < 255 }
    ensures { product (power result) (product (bit_xor (power i) (power 0)) (power (last - 1)))
        ≡ product (power log) (bit_xor (power (i - 1)) (power last)) }
{
    let gained = alpha_log(place_of(i - 1) ^ place_of(last));
    let lost = alpha_log(place_of(i) ^ place_of(0));
    // Twice the order is added because up to 507 is taken away, and the number has no sign.
    ((u32::from(log) + gained + 2 * ORDER - (lost + u32::from(last - 1))) % ORDER) as u8
}

/// Fills `weights` with the logarithms of the weights of the first powers of alpha, as many as it is long.
// From one weight to the next by a few look-ups. Each by itself would take a pass over all points.
fn weigh_powers(weights: &mut [u8])
    requires some { 1 ≤ length weights.old }
    requires few { length weights.old ≤ 255 }
    ensures { EachIndex weights.new (λ i. IsWeight (powers (length weights.old)) (power i) (slice_index weights.new i)) }
{
    let count = weights.len() as u8;
    weights[0] = first_weight(count);
    for i in 1..count {
        let place = usize::from(i);
        weights[place] = next_weight(weights[place - 1], i, count - 1);
    }
}

/// Turns the weights of the first powers into those of the block's points, for each point whose id is its index. The other weights are not
/// valid yet.
fn weigh_own(ids: &[u8], places: &[u8], weights: &mut [u8])
    requires ids { AreIds (length ids.now) 255 ids.now }
    requires few { length ids.now ≤ 255 }
    requires places { places.now ≡ map power ids.now }
    requires count { length weights.old ≡ length ids.now }
    requires powers { EachIndex ids.now (λ i. IsWeight (powers (length ids.now)) (power i) (slice_index weights.old i)) }
    ensures { EachIndex ids.now (λ i. slice_index ids.now i ≡ i →
        IsWeight places.now (slice_index places.now i) (slice_index weights.new i)) }
{
    for (d, id) in ids.iter().enumerate() {
        if usize::from(*id) != d {
            exchange(ids, places, place_of(d as u8), place_of(*id), weights);
        }
    }
}

/// Computes the weights of the points whose id is not their index. Each costs a pass over all points.
fn weigh_others(ids: &[u8], places: &[u8], weights: &mut [u8])
    requires count { length weights.old ≡ length ids.now }
    requires few { length ids.now ≤ 255 }
    requires places { length places.now ≡ length ids.now }
    requires own { EachIndex ids.now (λ i. slice_index ids.now i ≡ i →
        IsWeight places.now (slice_index places.now i) (slice_index weights.old i)) }
    ensures { AreWeights places.now weights.new }
{
    for (i, weight) in weights.iter_mut().enumerate() {
        if usize::from(ids[i]) != i {
            *weight = weight_log(places, places[i]);
        }
    }
}

/// Fills `weights` with the logarithm of each point's weight. Each symbol whose id is not its index costs two passes over the points.
// In this order: `weigh_own` starts from the weights of the first powers, and leaves at the other places what `weigh_others` then replaces.
pub fn weigh_by_ids(ids: &[u8], places: &[u8], weights: &mut [u8])
    requires some { 1 ≤ length ids.now }
    requires ids { AreIds (length ids.now) 255 ids.now }
    requires few { length ids.now ≤ 255 }
    requires places { places.now ≡ map power ids.now }
    requires room { length weights.old ≡ length ids.now }
    ensures { AreWeights places.now weights.new }
{
    weigh_powers(weights);
    weigh_own(ids, places, weights);
    weigh_others(ids, places, weights);
}
