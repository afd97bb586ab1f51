//! Multiplies lanes of octets by one factor. Each half of an octet is looked up in a table of sixteen products. `add_scaled` makes the
//! tables with `multiples_of` and then calls `add_all`; `add_four` does so with the tables of four factors.

ghost use Rattle.std.specs.Prelude.{ℕ, List, ◌≡◌, ◌<◌, ◌≤◌, ◌+◌, ◌-◌, ◌%◌, [], ◌∷◌, ◌++◌, length, map, replicate, slice_index};
ghost use Rattle.gf_field.specs.Product.{product, scaled, four_products, shift};
ghost use Rattle.gf_field.specs.Lanes.{HasSums, HasProducts, HasFour, IsAdded};

use std::simd::prelude::*;

/// All ones in each lane whose number is odd: bit 0 is set.
// Sixteen lanes, because one look-up takes a table of sixteen octets: the products of one half of an octet.
const LANES_WITH_1: [u8; 16] = [
    0, 255, 0, 255, 0, 255, 0, 255, 0, 255, 0, 255, 0, 255, 0, 255,
];

/// All ones in each lane whose number has bit 1.
const LANES_WITH_2: [u8; 16] = [
    0, 0, 255, 255, 0, 0, 255, 255, 0, 0, 255, 255, 0, 0, 255, 255,
];

/// All ones in each lane whose number has bit 2.
const LANES_WITH_4: [u8; 16] = [
    0, 0, 0, 0, 255, 255, 255, 255, 0, 0, 0, 0, 255, 255, 255, 255,
];

/// All ones in each lane whose number has bit 3.
const LANES_WITH_8: [u8; 16] = [
    0, 0, 0, 0, 0, 0, 0, 0, 255, 255, 255, 255, 255, 255, 255, 255,
];

/// The numbers of sixteen lanes, four times. A shuffle by it repeats sixteen lanes.
// The look-up in 64 lanes goes by each sixteen lanes alone, so each of the four needs the table.
const FOUR_TIMES: [usize; 64] = [
    0, 1, 2, 3, 4, 5, 6, 7, 8, 9, 10, 11, 12, 13, 14, 15, 0, 1, 2, 3, 4, 5, 6, 7, 8, 9, 10, 11, 12,
    13, 14, 15, 0, 1, 2, 3, 4, 5, 6, 7, 8, 9, 10, 11, 12, 13, 14, 15, 0, 1, 2, 3, 4, 5, 6, 7, 8, 9,
    10, 11, 12, 13, 14, 15,
];

/// Sixteen zeros, and then sixteen octets of all ones.
// Read from octet `count` on it is the mask of the last `count` lanes, so no mask is computed.
const EDGE: [u8; 32] = [
    0, 0, 0, 0, 0, 0, 0, 0, 0, 0, 0, 0, 0, 0, 0, 0, 255, 255, 255, 255, 255, 255, 255, 255, 255,
    255, 255, 255, 255, 255, 255, 255,
];

/// The two tables of a factor: its products with 0 to 15, and with 16 times 0 to 15.
#[derive(Clone, Copy, Drop)]
pub struct Multiples {
    low: u8x16,
    high: u8x16,
}

/// The tables of a factor, each four times, for 64 lanes.
#[derive(Clone, Copy, Drop)]
struct WideMultiples {
    low: u8x64,
    high: u8x64,
}

/// The tables of four factors.
#[derive(Clone, Copy, Drop)]
pub struct FourMultiples {
    first: Multiples,
    second: Multiples,
    third: Multiples,
    fourth: Multiples,
}

/// The tables of four factors, for 64 lanes.
#[derive(Clone, Copy, Drop)]
struct WideFourMultiples {
    first: WideMultiples,
    second: WideMultiples,
    third: WideMultiples,
    fourth: WideMultiples,
}

/// Returns the octet times x: shifted left by one bit and reduced.
// x^8 is x^4 + x^3 + x^2 + 1 here, which is 29 (RFC 5510 section 8.1).
#[inline(always)]
#[tactic(auto, using(crate::proofs::Octets::shift_parts))]
pub fn double(a: u8) -> u8
    ensures { result ≡ shift a }
{
    (a % 128 * 2) ^ (a / 128 * 29)
}

/// Returns sixteen lanes. Lane i is the sum of those of the four octets whose bit is set in i.
#[inline(always)]
fn sums_at_bits(a: u8, b: u8, c: u8, d: u8) -> u8x16
    ensures { HasSums (a ∷ b ∷ c ∷ d ∷ []) result }
{
    let first = u8x16::from_array(LANES_WITH_1) & u8x16::splat(a);
    let second = u8x16::from_array(LANES_WITH_2) & u8x16::splat(b);
    let third = u8x16::from_array(LANES_WITH_4) & u8x16::splat(c);
    let fourth = u8x16::from_array(LANES_WITH_8) & u8x16::splat(d);
    (first ^ second) ^ (third ^ fourth)
}

/// Returns the tables of the factor `c`. It costs seven doublings.
// Made anew for each factor, in registers. Tables of all 256 factors would take 8 KiB of the cache.
#[inline(always)]
#[tactic(auto, using(crate::proofs::LaneLemmas::tables_from))]
pub fn multiples_of(c: u8) -> Multiples
    ensures { HasProducts 16 c result.low result.high }
{
    let c2 = double(c);
    let c4 = double(c2);
    let c8 = double(c4);
    let c16 = double(c8);
    let c32 = double(c16);
    let c64 = double(c32);
    Multiples {
        low: sums_at_bits(c, c2, c4, c8),
        high: sums_at_bits(c16, c32, c64, double(c64)),
    }
}

#[inline(always)]
fn four_times(lanes: u8x16) -> u8x64
    ensures { (i : ℕ) → i < 64 → slice_index result i ≡ slice_index lanes (i % 16) }
{
    lanes.swizzle(FOUR_TIMES)
}

/// Returns the mask of the last `count` lanes: all ones in them, and zeros before. One read from `EDGE`, so nothing is computed.
#[inline(always)]
fn last_lanes(count: usize) -> u8x16
    requires { count < 16 }
    ensures len { length result ≡ 16 }
    ensures zeros { (i : ℕ) → i + count < 16 → slice_index result i ≡ 0 }
    ensures ones { (i : ℕ) → i < 16 → 16 ≤ i + count → slice_index result i ≡ 255 }
{
    u8x16::from_slice(&EDGE[count..])
}

impl Multiples {
    #[inline(always)]
    fn widened(&self) -> WideMultiples
        ensures { (c : ℕ) → HasProducts 16 c self.now.low self.now.high → HasProducts 64 c result.low result.high }
    {
        WideMultiples {
            low: four_times(self.low),
            high: four_times(self.high),
        }
    }

    /// Multiplies each lane by the factor. One look-up for each half of the octets.
    #[inline(always)]
    fn times(&self, lanes: u8x16) -> u8x16
        ensures { (c : ℕ) → HasProducts 16 c self.now.low self.now.high → result ≡ map (product c) lanes }
    {
        self.low.swizzle_dyn(lanes & u8x16::splat(15))
            ^ self.high.swizzle_dyn(lanes >> u8x16::splat(4))
    }

    /// Adds the products of sixteen octets of `src`, from `at` on, to those of `dst`.
    #[inline(always)]
    fn add_lane(&self, dst: &mut [u8], src: &[u8], at: usize)
        requires room { at + 16 ≤ length dst.old }
        requires same { length dst.old ≡ length src.now }
        ensures { (c : ℕ) → HasProducts 16 c self.now.low self.now.high → IsAdded (scaled c src.now) at (at + 16) dst.old dst.new }
    {
        let sum = u8x16::from_slice(&dst[at..]) ^ self.times(u8x16::from_slice(&src[at..]));
        sum.copy_to_slice(&mut dst[at..]);
    }
}

impl WideMultiples {
    /// Multiplies each lane by the factor. A look-up stays within sixteen lanes, so the four tables have to be equal.
    #[inline(always)]
    fn times(&self, lanes: u8x64) -> u8x64
        ensures { (c : ℕ) → HasProducts 64 c self.now.low self.now.high → result ≡ map (product c) lanes }
    {
        self.low.swizzle_dyn_within::<16>(lanes & u8x64::splat(15))
            ^ self.high.swizzle_dyn_within::<16>(lanes >> u8x64::splat(4))
    }

    /// Adds the products of 64 octets of `src`, from `at` on, to those of `dst`.
    #[inline(always)]
    fn add_lane(&self, dst: &mut [u8], src: &[u8], at: usize)
        requires room { at + 64 ≤ length dst.old }
        requires same { length dst.old ≡ length src.now }
        ensures { (c : ℕ) → HasProducts 64 c self.now.low self.now.high → IsAdded (scaled c src.now) at (at + 64) dst.old dst.new }
    {
        let sum = u8x64::from_slice(&dst[at..]) ^ self.times(u8x64::from_slice(&src[at..]));
        sum.copy_to_slice(&mut dst[at..]);
    }

    /// Adds products from the beginning, 64 octets at a time. Returns the index at which fewer than 64 are left.
    fn add_lanes(&self, dst: &mut [u8], src: &[u8]) -> usize
        requires { length dst.old ≡ length src.now }
        ensures within { result ≤ length dst.old }
        ensures added { (c : ℕ) → HasProducts 64 c self.now.low self.now.high → IsAdded (scaled c src.now) 0 result dst.old dst.new }
    {
        let mut at = 0;
        while dst.len() - at >= 64 {
            self.add_lane(dst, src, at);
            at += 64;
        }
        at
    }
}

impl Multiples {
    /// Adds products from `from` on, sixteen octets at a time. Returns the index at which fewer than sixteen are left.
    fn add_lanes(&self, dst: &mut [u8], src: &[u8], from: usize) -> usize
        requires same { length dst.old ≡ length src.now }
        requires begins { from ≤ length dst.old }
        ensures within { result ≤ length dst.old }
        ensures on { from ≤ result }
        ensures few { length dst.old < result + 16 }
        ensures added { (c : ℕ) → HasProducts 16 c self.now.low self.now.high → IsAdded (scaled c src.now) from result dst.old dst.new }
    {
        let mut at = from;
        while dst.len() - at >= 16 {
            self.add_lane(dst, src, at);
            at += 16;
        }
        at
    }

    /// Adds the products from `at` to the end, fewer than sixteen. It uses the last sixteen octets as one lane and masks the products
    /// before `at`.
    fn add_last_lane(&self, dst: &mut [u8], src: &[u8], at: usize)
        requires same { length dst.old ≡ length src.now }
        requires long { 16 ≤ length dst.old }
        requires begins { at ≤ length dst.old }
        requires few { length dst.old < at + 16 }
        ensures { (c : ℕ) → HasProducts 16 c self.now.low self.now.high → IsAdded (scaled c src.now) at (length dst.old) dst.old dst.new }
    {
        let start = dst.len() - 16;
        let products = self.times(u8x16::from_slice(&src[start..])) & last_lanes(dst.len() - at);
        let sum = u8x16::from_slice(&dst[start..]) ^ products;
        sum.copy_to_slice(&mut dst[start..]);
    }

    /// Adds the products if there are fewer than sixteen octets: it pads them to one lane.
    fn add_few(&self, dst: &mut [u8], src: &[u8])
        requires same { length dst.old ≡ length src.now }
        requires few { length dst.old < 16 }
        ensures { (c : ℕ) → HasProducts 16 c self.now.low self.now.high → IsAdded (scaled c src.now) 0 (length dst.old) dst.old dst.new }
    {
        let sums = (padded(dst) ^ self.times(padded(src))).to_array();
        dst.copy_from_slice(&sums[..dst.len()]);
    }

    /// Adds the products from `from` to the end: sixteen at a time, and then those that are left at once.
    fn add_rest(&self, dst: &mut [u8], src: &[u8], from: usize)
        requires same { length dst.old ≡ length src.now }
        requires long { 16 ≤ length dst.old }
        requires begins { from ≤ length dst.old }
        ensures { (c : ℕ) → HasProducts 16 c self.now.low self.now.high → IsAdded (scaled c src.now) from (length dst.old) dst.old dst.new }
    {
        // What the lanes leave goes in a lane that overlaps the last one, with what was done masked. A copy of a variable length costs more than
        // the mask.
        let at = self.add_lanes(dst, src, from);
        self.add_last_lane(dst, src, at);
    }

    /// Adds the products of all octets of `src` to `dst`: 64 at a time, then sixteen, and then those that are left at once.
    // Proof: each lane speaks of every c whose products these are; IsAdded joins lanes by one lemma.
    pub fn add_all(&self, dst: &mut [u8], src: &[u8])
        requires { length dst.old ≡ length src.now }
        ensures { (c : ℕ) → HasProducts 16 c self.now.low self.now.high → IsAdded (scaled c src.now) 0 (length dst.old) dst.old dst.new }
    {
        // Fewer than sixteen octets fill no lane, so they are copied into one.
        if dst.len() < 16 {
            self.add_few(dst, src);
            return;
        }
        let at = self.widened().add_lanes(dst, src);
        self.add_rest(dst, src, at);
    }
}

/// Returns the tables of four factors.
#[inline(always)]
pub fn multiples_of_four(factors: [u8; 4]) -> FourMultiples
    ensures { HasFour 16 factors result.first.low result.first.high result.second.low result.second.high
        result.third.low result.third.high result.fourth.low result.fourth.high }
{
    FourMultiples {
        first: multiples_of(factors[0]),
        second: multiples_of(factors[1]),
        third: multiples_of(factors[2]),
        fourth: multiples_of(factors[3]),
    }
}

impl WideFourMultiples {
    /// Adds the products of 64 octets of each source, from `at` on, to those of `dst`. It reads and writes `dst` once.
    #[inline(always)]
    fn add_lane(&self, dst: &mut [u8], a: &[u8], b: &[u8], c: &[u8], d: &[u8], at: usize)
        requires room { at + 64 ≤ length dst.old }
        requires same_a { length dst.old ≡ length a.now }
        requires same_b { length dst.old ≡ length b.now }
        requires same_c { length dst.old ≡ length c.now }
        requires same_d { length dst.old ≡ length d.now }
        ensures { (f : List ℕ) → HasFour 64 f self.now.first.low self.now.first.high self.now.second.low self.now.second.high
            self.now.third.low self.now.third.high self.now.fourth.low self.now.fourth.high
            → IsAdded (four_products f a.now b.now c.now d.now) at (at + 64) dst.old dst.new }
    {
        let first = self.first.times(u8x64::from_slice(&a[at..]));
        let second = self.second.times(u8x64::from_slice(&b[at..]));
        let third = self.third.times(u8x64::from_slice(&c[at..]));
        let fourth = self.fourth.times(u8x64::from_slice(&d[at..]));
        let sum = u8x64::from_slice(&dst[at..]) ^ (first ^ second ^ third ^ fourth);
        sum.copy_to_slice(&mut dst[at..]);
    }

    /// Adds products from the beginning, 64 octets at a time. Returns the index at which fewer than 64 are left.
    fn add_lanes(&self, dst: &mut [u8], a: &[u8], b: &[u8], c: &[u8], d: &[u8]) -> usize
        requires same_a { length dst.old ≡ length a.now }
        requires same_b { length dst.old ≡ length b.now }
        requires same_c { length dst.old ≡ length c.now }
        requires same_d { length dst.old ≡ length d.now }
        ensures within { result ≤ length dst.old }
        ensures added { (f : List ℕ) → HasFour 64 f self.now.first.low self.now.first.high self.now.second.low self.now.second.high
            self.now.third.low self.now.third.high self.now.fourth.low self.now.fourth.high
            → IsAdded (four_products f a.now b.now c.now d.now) 0 result dst.old dst.new }
    {
        let mut next = 0;
        while dst.len() - next >= 64 {
            self.add_lane(dst, a, b, c, d, next);
            next += 64;
        }
        next
    }
}

impl FourMultiples {
    #[inline(always)]
    fn widened(&self) -> WideFourMultiples
        ensures { (f : List ℕ) → HasFour 16 f self.now.first.low self.now.first.high self.now.second.low self.now.second.high
            self.now.third.low self.now.third.high self.now.fourth.low self.now.fourth.high
            → HasFour 64 f result.first.low result.first.high result.second.low result.second.high
            result.third.low result.third.high result.fourth.low result.fourth.high }
    {
        WideFourMultiples {
            first: self.first.widened(),
            second: self.second.widened(),
            third: self.third.widened(),
            fourth: self.fourth.widened(),
        }
    }

    /// Adds the products from `from` to the end, one source after the other: fewer than 64 octets of each are left.
    fn add_rest(&self, dst: &mut [u8], a: &[u8], b: &[u8], c: &[u8], d: &[u8], from: usize)
        requires same_a { length dst.old ≡ length a.now }
        requires same_b { length dst.old ≡ length b.now }
        requires same_c { length dst.old ≡ length c.now }
        requires same_d { length dst.old ≡ length d.now }
        requires long { 16 ≤ length dst.old }
        requires begins { from ≤ length dst.old }
        ensures { (f : List ℕ) → HasFour 16 f self.now.first.low self.now.first.high self.now.second.low self.now.second.high
            self.now.third.low self.now.third.high self.now.fourth.low self.now.fourth.high
            → IsAdded (four_products f a.now b.now c.now d.now) from (length dst.old) dst.old dst.new }
    {
        self.first.add_rest(dst, a, from);
        self.second.add_rest(dst, b, from);
        self.third.add_rest(dst, c, from);
        self.fourth.add_rest(dst, d, from);
    }

    /// Adds the products if there are fewer than sixteen octets.
    fn add_few(&self, dst: &mut [u8], a: &[u8], b: &[u8], c: &[u8], d: &[u8])
        requires same_a { length dst.old ≡ length a.now }
        requires same_b { length dst.old ≡ length b.now }
        requires same_c { length dst.old ≡ length c.now }
        requires same_d { length dst.old ≡ length d.now }
        requires few { length dst.old < 16 }
        ensures { (f : List ℕ) → HasFour 16 f self.now.first.low self.now.first.high self.now.second.low self.now.second.high
            self.now.third.low self.now.third.high self.now.fourth.low self.now.fourth.high
            → IsAdded (four_products f a.now b.now c.now d.now) 0 (length dst.old) dst.old dst.new }
    {
        self.first.add_few(dst, a);
        self.second.add_few(dst, b);
        self.third.add_few(dst, c);
        self.fourth.add_few(dst, d);
    }

    /// Adds the products of all octets of the four sources to `dst`: 64 at a time in one pass, and then those that are left.
    pub fn add_all(&self, dst: &mut [u8], a: &[u8], b: &[u8], c: &[u8], d: &[u8])
        requires same_a { length dst.old ≡ length a.now }
        requires same_b { length dst.old ≡ length b.now }
        requires same_c { length dst.old ≡ length c.now }
        requires same_d { length dst.old ≡ length d.now }
        ensures { (f : List ℕ) → HasFour 16 f self.now.first.low self.now.first.high self.now.second.low self.now.second.high
            self.now.third.low self.now.third.high self.now.fourth.low self.now.fourth.high
            → IsAdded (four_products f a.now b.now c.now d.now) 0 (length dst.old) dst.old dst.new }
    {
        if dst.len() < 16 {
            self.add_few(dst, a, b, c, d);
            return;
        }
        let at = self.widened().add_lanes(dst, a, b, c, d);
        self.add_rest(dst, a, b, c, d, at);
    }
}

fn padded(octets: &[u8]) -> u8x16
    requires { length octets.now < 16 }
    ensures { result ≡ octets.now ++ replicate (16 - length octets.now) 0 }
{
    let mut lane = [0; 16];
    lane[..octets.len()].copy_from_slice(octets);
    u8x16::from_array(lane)
}
