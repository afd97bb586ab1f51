//! Tests of `rs_block`: worked code words, parity against Newton's divided differences, and blocks that are solved from every choice of k symbols.

ghost use Rattle.std.specs.Prelude.{ℕ, ◌≡◌, ◌<◌, IfOk, IsTrue, length};
ghost use Rattle.gf_field.specs.Symbol.{AreSymbols};
ghost use Rattle.rs_block.specs.Codeword.{AreIds};

use gf_field::{alpha_pow, inv, mul};
use norm_base::Memory;
use rs_block::{Code, Row, Solver};
use std::alloc::{AllocError, Global};
use std::process::Abort;
use std::test::Fail;

/// Whether the ids differ from each other and are below 255.
fn are_ids(ids: &[u8]) -> bool
    ensures { IsTrue result → AreIds (length ids.now) 255 ids.now }
{
    for (i, id) in ids.iter().enumerate() {
        if *id == 255 || ids[..i].contains(id) {
            return false;
        }
    }
    true
}

/// Returns all n symbols of a block, one after the other.
fn encoded(
    rt: &impl Abort,
    alloc: Global,
    k: u8,
    n: u8,
    size: usize,
    source: &[u8],
) -> Result<Vec<u8>, Fail> {
    assert!(rt; 1 <= k && k <= n && size <= 1408);
    assert_eq!(rt; source.len(), usize::from(k) * size);
    let code = Code::new(alloc, k, n)?;
    let mut symbols = source.to_vec(alloc)?;
    for j in k..n {
        let mut symbol = vec![in alloc; 0; size]?;
        code.parity(source, size, j, &mut symbol);
        symbols.extend_from_slice(&symbol)?;
    }
    Ok(symbols)
}

/// Solves a block within one slice: `symbols` are those with these ids, one after the other. Returns the source symbols.
fn solved_in(
    rt: &impl Abort,
    alloc: Global,
    size: usize,
    ids: &[u8],
    symbols: &[u8],
) -> Result<Vec<u8>, Fail> {
    assert!(rt; 1 <= ids.len() && ids.len() < 256 && 1 <= size && size <= 1408);
    assert!(rt; are_ids(ids));
    assert_eq!(rt; symbols.len(), ids.len() * size);
    let mut solver = Solver::new(alloc, ids.len() as u8, size)?;
    let mut row = symbols.to_vec(alloc)?;
    solver.solve_in(ids, &mut row);
    Ok(row)
}

/// Returns each octet as a symbol in a [`Row`] of its own.
fn rows_of(alloc: Global, symbols: &[u8]) -> Result<Vec<Row>, AllocError>
    ensures { IfOk result (λ rows. AreSymbols (length symbols.now) 1 rows.items) }
{
    let mut rows = Vec::new(alloc);
    for symbol in symbols {
        rows.push(Row::of(vec![in alloc; *symbol; 1]?))?;
    }
    Ok(rows)
}

/// Solves a block of symbols of one octet, each in a [`Row`] of its own. Returns the source octets.
fn solved_in_rows(
    rt: &impl Abort,
    alloc: Global,
    ids: &[u8],
    symbols: &[u8],
) -> Result<Vec<u8>, Fail> {
    assert!(rt; 1 <= ids.len() && ids.len() < 256);
    assert!(rt; are_ids(ids));
    assert_eq!(rt; symbols.len(), ids.len());
    let mut solver = Solver::new(alloc, ids.len() as u8, 1)?;
    let mut rows = rows_of(alloc, symbols)?;
    solver.solve_rows(ids, &mut rows);
    let mut sources = Vec::new(alloc);
    for row in &rows {
        sources.extend_from_slice(row.octets())?;
    }
    Ok(sources)
}

/// Returns the value at `x` of the polynomial that has these values at the first powers of alpha. It computes divided differences.
fn newton(rt: &impl Abort, alloc: Global, values: &[u8], x: u8) -> Result<u8, AllocError> {
    let mut table = values.to_vec(alloc)?;
    let mut differences = Vec::new(alloc);
    for level in 1..256u32 {
        let Some(first) = table.first().copied() else {
            break;
        };
        differences.push(first)?;
        let mut next = Vec::new(alloc);
        for (i, pair) in table.windows(2).enumerate() {
            assert!(rt; i < 255 && pair.len() == 2);
            let gap = alpha_pow(i as u32) ^ alpha_pow(i as u32 + level);
            assert!(rt; gap != 0);
            next.push(mul(pair[0] ^ pair[1], inv(gap)))?;
        }
        table = next;
    }
    let mut value = 0;
    for (i, difference) in differences.iter().enumerate().rev() {
        assert!(rt; i < 255);
        value = mul(value, x ^ alpha_pow(i as u32)) ^ *difference;
    }
    Ok(value)
}

/// Whether `symbols` are the encoded symbols of these source symbols. `sizes` are k, n and the octets of a symbol.
fn are_encoded(
    rt: &impl Abort,
    alloc: Global,
    sizes: (u8, u8, usize),
    source: &[u8],
    symbols: &[u8],
) -> Result<bool, Fail> {
    let (k, n, size) = sizes;
    let found = encoded(rt, alloc, k, n, size, source)?;
    Ok(found.as_slice() == symbols)
}

#[test]
fn symbols_of_short_codes_are_those_of_the_rows(rt: HostRuntime) -> Result<(), Fail> {
    let alloc = rt.alloc();
    for (a, b, parity) in [(0x80, 0xff, 0x01), (0x01, 0x02, 0x04), (0x00, 0x80, 0x9d)] {
        let are_so = are_encoded(&rt, alloc, (2, 3, 1), &[a, b], &[a, b, parity])?;
        assert!(rt; are_so, "{a} and {b}");
    }
    let powers = [0x01, 0x04, 0x10, 0x40, 0x1d];
    let are_so = are_encoded(&rt, alloc, (3, 5, 1), powers.split_at(3).0, &powers)?;
    assert!(rt; are_so, "powers");
    let are_so = are_encoded(&rt, alloc, (1, 4, 2), &[7, 9], &[7, 9, 7, 9, 7, 9, 7, 9])?;
    assert!(rt; are_so, "copies");
    Ok(())
}

#[test]
fn a_short_block_is_solved(rt: HostRuntime) -> Result<(), Fail> {
    let alloc = rt.alloc();
    let sources = solved_in(&rt, alloc, 1, &[2, 3], &[0x04, 0x08])?;
    assert!(rt; sources.as_slice() == [0x01, 0x02].as_slice());
    for (ids, symbols) in [
        ([0, 1, 2], [0x01, 0x04, 0x10]),
        ([0, 4, 2], [0x01, 0x1d, 0x10]),
        ([3, 1, 2], [0x40, 0x04, 0x10]),
        ([4, 1, 0], [0x1d, 0x04, 0x01]),
        ([2, 0, 1], [0x10, 0x01, 0x04]),
        ([4, 3, 1], [0x1d, 0x40, 0x04]),
    ] {
        let sources = solved_in(&rt, alloc, 1, &ids, &symbols)?;
        let rows = solved_in_rows(&rt, alloc, &ids, &symbols)?;
        let wanted = [0x01, 0x04, 0x10].as_slice();
        let are_so = sources.as_slice() == wanted && rows.as_slice() == wanted;
        assert!(rt; are_so, "{ids:?}");
    }
    Ok(())
}

/// Returns parity symbol `j` of three source symbols in two pieces. Returns 0 if `cut` is above 3, or if `j` is neither 3 nor 4.
fn parity_cut_at(alloc: Global, cut: usize, j: u8) -> Result<u8, Memory> {
    if cut > 3 {
        return Ok(0);
    }
    if j < 3 {
        return Ok(0);
    }
    if j > 4 {
        return Ok(0);
    }
    let code = Code::new(alloc, 3, 5)?;
    let source = [0x01, 0x04, 0x10];
    let (front, back) = source.split_at(cut);
    let mut symbol = [0];
    code.parity_in_two(front, back, 1, j, &mut symbol);
    Ok(symbol[0])
}

#[test]
fn parity_of_two_pieces_is_that_of_the_rows(rt: HostRuntime) -> Result<(), Fail> {
    for cut in 0..=3usize {
        for (j, symbol) in [(3, 0x40), (4, 0x1d)] {
            let found = parity_cut_at(rt.alloc(), cut, j)?;
            assert!(rt; found == symbol, "{j} cut at {cut}");
        }
    }
    Ok(())
}

/// Returns `count` pseudo-random octets.
fn octets(alloc: Global, count: u8) -> Result<Vec<u8>, AllocError> {
    let mut source = Vec::new(alloc);
    let mut seed = u32::from(count);
    for _ in 0..count {
        seed = seed.wrapping_mul(1_664_525).wrapping_add(1_013_904_223);
        source.push((seed >> 24) as u8)?;
    }
    Ok(source)
}

#[test]
fn parity_is_the_value_by_divided_differences(rt: HostRuntime) -> Result<(), Fail> {
    let alloc = rt.alloc();
    for k in 1..=12u8 {
        let source = octets(alloc, k)?;
        for (j, symbol) in encoded(&rt, alloc, k, 20, 1, &source)?.iter().enumerate() {
            assert!(rt; j < 255);
            let value = newton(&rt, alloc, &source, alpha_pow(j as u32))?;
            assert!(rt; value == *symbol, "symbol {j} of {k}");
        }
    }
    Ok(())
}

/// Lays symbols into a slice, from the last one on: each at the index that is its id if that is free, and otherwise at the first free index.
/// Returns the ids and the symbols as they lie.
fn as_they_lie(
    rt: &impl Abort,
    alloc: Global,
    ids: &[u8],
    symbols: &[u8],
) -> Result<(Vec<u8>, Vec<u8>), Fail> {
    let mut places = vec![in alloc; 255u8; ids.len()]?;
    let mut row = vec![in alloc; 0; ids.len()]?;
    for (id, symbol) in ids.iter().zip(symbols).rev() {
        let own = usize::from(*id);
        let is_free = places.get(own).is_some_and(|other| *other == 255);
        let first = places.iter().position(|other| *other == 255);
        let place = if is_free { own } else { first.unwrap_or(0) };
        assert!(rt; place < places.len() && place < row.len());
        places[place] = *id;
        row[place] = *symbol;
    }
    Ok((places, row))
}

/// Whether the symbols whose bits are set in `mask` give the source octets if they are solved in a slice in the order of their ids, in a slice as
/// they lie (see [`as_they_lie`]), and each in a [`Row`] of its own.
fn are_solved_from(
    rt: &impl Abort,
    alloc: Global,
    mask: u32,
    symbols: &[u8],
    source: &[u8],
) -> Result<bool, Fail> {
    let mut ids = Vec::new(alloc);
    let mut given = Vec::new(alloc);
    for (id, symbol) in symbols.iter().enumerate() {
        assert!(rt; id < 32);
        if (mask >> id) % 2 == 1 {
            ids.push(id as u8)?;
            given.push(*symbol)?;
        }
    }
    let (places, row) = as_they_lie(rt, alloc, &ids, &given)?;
    let rising = solved_in(rt, alloc, 1, &ids, &given)?;
    let within = solved_in(rt, alloc, 1, &places, &row)?;
    let apart = solved_in_rows(rt, alloc, &places, &row)?;
    Ok(rising.as_slice() == source && within.as_slice() == source && apart.as_slice() == source)
}

#[test]
fn every_choice_of_k_symbols_gives_the_sources(rt: HostRuntime) -> Result<(), Fail> {
    let alloc = rt.alloc();
    for k in 1..=12u8 {
        let source = octets(alloc, k)?;
        let symbols = encoded(&rt, alloc, k, k + 2, 1, &source)?;
        for mask in 0..(1u32 << (k + 2)) {
            if mask.count_ones() == u32::from(k) {
                let are_so = are_solved_from(&rt, alloc, mask, &symbols, &source)?;
                assert!(rt; are_so, "choice {mask} of {k}");
            }
        }
    }
    Ok(())
}

#[test]
fn the_largest_code_is_solved_from_its_last_symbols(rt: HostRuntime) -> Result<(), Fail> {
    let alloc = rt.alloc();
    let mut source = Vec::new(alloc);
    for i in 0..12_800u32 {
        source.push((i * i % 251) as u8)?;
    }
    let symbols = encoded(&rt, alloc, 200, 255, 64, &source)?;
    let mut ids = Vec::new(alloc);
    for id in 55..255u8 {
        ids.push(id)?;
    }
    assert!(rt; symbols.len() == 16_320);
    let sources = solved_in(&rt, alloc, 64, &ids, &symbols[3520..])?;
    assert!(rt; sources.as_slice() == source.as_slice());
    Ok(())
}
