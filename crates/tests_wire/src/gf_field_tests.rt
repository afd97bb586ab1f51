//! Tests of `gf_field`: values of RFC 5510's field that were not computed by this code, and all products against products of polynomials.

use gf_field::{add_four, add_scaled, alpha_log, alpha_pow, inv, mul};

#[test]
fn products_powers_and_inverses_are_those_of_the_field(rt: HostRuntime) {
    for (j, power) in [
        (0, 0x01),
        (1, 0x02),
        (7, 0x80),
        (8, 0x1d),
        (9, 0x3a),
        (10, 0x74),
        (11, 0xe8),
        (12, 0xcd),
        (13, 0x87),
        (14, 0x13),
        (15, 0x26),
        (255, 0x01),
    ] {
        assert!(rt; alpha_pow(j) == power, "at {j}");
    }
    for (a, b, product) in [
        (0x80, 0x02, 0x1d),
        (0x80, 0x80, 0x13),
        (0x03, 0x03, 0x05),
        (0x80, 0x00, 0x00),
    ] {
        assert!(rt; mul(a, b) == product, "at {a} and {b}");
    }
    assert!(rt; inv(0x01) == 0x01);
    assert!(rt; inv(0x02) == 0x8e);
    assert!(rt; inv(0x03) == 0xf4);
    assert!(rt; inv(0x04) == 0x47);
}

/// Multiplies two octets as polynomials over two elements, and then reduces the product by `0x11d` from the highest bit down.
fn reduced_product(a: u8, b: u8) -> u8 {
    let mut product = 0u32;
    for place in 0..8u32 {
        if b >> place & 1 == 1 {
            product ^= u32::from(a) << place;
        }
    }
    for place in 0..7u32 {
        let shift = 6 - place;
        if product >> (shift + 8) & 1 == 1 {
            product ^= 0x11d << shift;
        }
    }
    (product & 0xff) as u8
}

#[test]
fn all_products_are_those_of_polynomials(rt: HostRuntime) {
    for a in 0..=255u8 {
        for b in 0..=255u8 {
            assert!(rt; mul(a, b) == reduced_product(a, b), "at {a} and {b}");
        }
    }
}

#[test]
fn a_power_of_the_logarithm_is_the_octet(rt: HostRuntime) {
    for a in 1..=255u8 {
        assert!(rt; a != 0);
        assert!(rt; alpha_pow(alpha_log(a)) == a, "at {a}");
        assert!(rt; reduced_product(a, inv(a)) == 1, "at {a}");
    }
}

/// Returns 200 octets without an obvious pattern.
fn octets_of(factor: u8) -> [u8; 200] {
    let mut octets = [0; 200];
    for (i, octet) in octets.iter_mut().enumerate() {
        *octet = ((i % 256) as u8).wrapping_mul(factor) ^ 0x5a;
    }
    octets
}

/// Returns `before` plus `c` times `octets`. Each product is a [`reduced_product`].
fn expected(before: &[u8; 200], octets: &[u8; 200], c: u8) -> [u8; 200] {
    let mut sums = *before;
    for (sum, octet) in sums.iter_mut().zip(octets) {
        *sum ^= reduced_product(c, *octet);
    }
    sums
}

/// Returns `before` after [`add_scaled`] added `c` times `octets` to its first `len` octets.
fn scaled(before: &[u8; 200], octets: &[u8; 200], len: usize, c: u8) -> [u8; 200] {
    let mut sums = *before;
    if len <= 200 {
        add_scaled(&mut sums[..len], &octets[..len], c);
    }
    sums
}

#[test]
fn each_octet_of_a_scaled_sum_is_the_sum_with_the_product(rt: HostRuntime) {
    let (before, octets) = (octets_of(91), octets_of(37));
    for c in [0, 1, 2, 0x8e] {
        let all = expected(&before, &octets, c);
        for len in 0..=200usize {
            let sums = scaled(&before, &octets, len, c);
            assert!(rt; sums[..len] == all[..len], "{len} octets times {c}");
            assert!(rt; sums[len..] == before[len..], "behind {len} octets");
        }
    }
}

/// Returns `before` after [`add_four`] added four sources, each times its factor, to its first `len` octets.
fn four_added(
    before: &[u8; 200],
    sources: &[[u8; 200]; 4],
    len: usize,
    factors: [u8; 4],
) -> [u8; 200] {
    let mut sums = *before;
    if len <= 200 {
        let [a, b, c, d] = sources;
        add_four(
            &mut sums[..len],
            &a[..len],
            &b[..len],
            &c[..len],
            &d[..len],
            factors,
        );
    }
    sums
}

#[test]
fn four_sources_at_once_add_as_much_as_one_after_the_other(rt: HostRuntime) {
    let before = octets_of(91);
    let sources = [octets_of(37), octets_of(53), octets_of(11), octets_of(201)];
    for factors in [[0, 1, 2, 0x8e], [0x8e, 0xff, 0x03, 0x01]] {
        for len in 0..=200usize {
            let one = scaled(&before, &sources[0], len, factors[0]);
            let two = scaled(&one, &sources[1], len, factors[1]);
            let three = scaled(&two, &sources[2], len, factors[2]);
            let all = scaled(&three, &sources[3], len, factors[3]);
            let sums = four_added(&before, &sources, len, factors);
            assert!(rt; sums[..] == all[..], "{len} octets");
        }
    }
}
