//! The field GF(2^8) of RFC 5510 section 8.1, on octets. The sum is exclusive or, the product is modulo x^8 + x^4 + x^3 + x^2 + 1. rs_block
//! computes parity and solves blocks with it.
//!
//! [`mul`], [`inv`], [`alpha_pow`] and [`alpha_log`] are look-ups in tables. [`add_scaled`] and [`add_four`] are the calls that cost time:
//! they work on whole symbols, in lanes. `specs/Symbol.antt` defines the erasure code as functions of lists of symbols, and [`laws`] says what
//! holds of field and code.
#![tactic(auto)]

ghost use Rattle.std.specs.Prelude.{◌≡◌, ◌≢◌, ◌<◌, EachIndex, bit_xor, length, slice_index};
ghost use Rattle.gf_field.specs.Product.{four_products, product};
ghost use Rattle.gf_field.specs.Power.{power};

mod lanes;
pub mod laws;
mod tables;

use lanes::{multiples_of, multiples_of_four};
use tables::{logarithm_of, power_of};

/// Returns the product of two octets. It costs at most three look-ups.
// Only tests call it: codes multiply by `add_scaled` and by logarithms. It is for programs over this crate, and so is `inv`.
#[inline]
#[tactic(auto, using(crate::proofs::TableLemmas::logarithm_steps))]
pub fn mul(a: u8, b: u8) -> u8
    ensures { result ≡ product a b }
{
    // 0 has no logarithm.
    if a == 0 {
        return 0;
    }
    if b == 0 {
        return 0;
    }
    power_of(logarithm_of(a) + logarithm_of(b))
}

/// Returns alpha, the octet 02, to the power `j`. Exponents that differ by a multiple of 255 give the same.
#[inline]
#[tactic(auto, using(crate::proofs::TableLemmas::logarithm_steps))]
pub fn alpha_pow(j: u32) -> u8
    ensures { result ≡ power j }
{
    // Callers add logarithms up before they ask, so the exponent may be any number.
    power_of(j % 255)
}

/// Returns the logarithm of an octet that is not 0: the exponent below 255 for which alpha has this power.
#[inline]
pub fn alpha_log(a: u8) -> u32
    requires { a ≢ 0 }
    ensures below { result < 255 }
    ensures exponent { power result ≡ a }
{
    logarithm_of(a)
}

/// Returns the inverse of an octet that is not 0. It costs two look-ups.
#[inline]
#[tactic(auto, using(crate::proofs::TableLemmas::logarithm_steps))]
pub fn inv(a: u8) -> u8
    requires { a ≢ 0 }
    ensures { product a result ≡ 1 }
{
    power_of(255 - logarithm_of(a))
}

/// Adds `c * src` to `dst`, octet by octet. Both are equally long. It goes by 64 octets, then by sixteen, then takes the rest at once. It takes no
/// memory.
pub fn add_scaled(dst: &mut [u8], src: &[u8], c: u8)
    requires { length dst.old ≡ length src.now }
    ensures { EachIndex dst.new (λ i.
        slice_index dst.new i ≡ bit_xor (slice_index dst.old i) (product c (slice_index src.now i))) }
{
    multiples_of(c).add_all(dst, src);
}

/// Adds four products to `dst` in one pass, octet by octet: `factors[0] * a`, `factors[1] * b`, `factors[2] * c` and `factors[3] * d`. All are
/// equally long. It costs less than four calls of [`add_scaled`], and takes no memory.
pub fn add_four(dst: &mut [u8], a: &[u8], b: &[u8], c: &[u8], d: &[u8], factors: [u8; 4])
    requires same_a { length dst.old ≡ length a.now }
    requires same_b { length dst.old ≡ length b.now }
    requires same_c { length dst.old ≡ length c.now }
    requires same_d { length dst.old ≡ length d.now }
    ensures { EachIndex dst.new (λ i.
        slice_index dst.new i ≡ bit_xor (slice_index dst.old i) (four_products factors a.now b.now c.now d.now i)) }
{
    multiples_of_four(factors).add_all(dst, a, b, c, d);
}
