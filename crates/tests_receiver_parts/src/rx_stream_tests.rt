//! Tests of what is held of one stream: the answer to each symbol, and that any three of five symbols give the segments.

ghost use Rattle.std.specs.Prelude.{◌≡◌, ◌+◌, IfOk};
ghost use Rattle.rx_stream.specs.StreamState.{StreamState};

use fec_plan::Plan;
use norm_base::Memory;
use norm_ext::Fti;
use norm_order::Up;
use norm_receive_rules::Put;
use rs_block::Solver;
use rx_stream::Stream;
use std::alloc::Global;
use std::process::Abort;
use std::test::Fail;

/// The octets of a symbol as it is coded: the header of a segment, and 64.
const CODED: usize = 72;

/// A known block of three source symbols and two of parity: if the octets of the sources are 01, 04 and 10, the parity is 40 and 1d. If all
/// three sources are the same, so is the parity.
const KNOWN: [u8; 5] = [0x01, 0x04, 0x10, 0x40, 0x1d];

/// Returns a symbol of a block whose segments have 64 octets each. Its offset and its first octet are the known one.
fn known_symbol(symbol: u8) -> [u8; 72] {
    let mut octets = [0; CODED];
    octets[1] = 64;
    octets[7] = KNOWN[usize::from(symbol % 5)];
    octets[8] = KNOWN[usize::from(symbol % 5)];
    octets
}

/// Offers a symbol to a stream whose hand-up point is in block 0.
fn come(
    stream: &mut Stream,
    solver: &mut Solver,
    block: u32,
    symbol: u8,
    payload: &[u8],
) -> Result<Put, Memory>
    requires point { stream.old.point.block ≡ 0 }
    requires solver { solver.old ≡ record { k = stream.old.plan.fti.b; size = stream.old.plan.fti.e + 8 } }
    ensures point { IfOk result (λ _. stream.new.point ≡ stream.old.point) }
    ensures plan { IfOk result (λ _. stream.new.plan ≡ stream.old.plan) }
    ensures solver { solver.new ≡ solver.old }
{
    stream.offer(block, symbol, payload, solver)
}

/// Whether the next hand-up is the known segment with this number.
fn shows(stream: &mut Stream, symbol: u8) -> bool {
    let Some(
        Up::StreamBytes {
            index,
            offset,
            bytes,
        },
    ) = stream.hand_up()
    else {
        return false;
    };
    let octets = known_symbol(symbol);
    let (_, segment) = octets.as_slice().split_at(8);
    index == 7 && offset == u32::from(KNOWN[usize::from(symbol % 5)]) && bytes.bytes() == segment
}

/// Whether these three symbols of a block, in this order, give its segments, and then nothing.
fn give_back(alloc: Global, first: u8, second: u8, third: u8) -> Result<bool, Memory> {
    let fti = Fti {
        l: 384,
        e: 64,
        b: 3,
        max_n: 5,
    };
    let Ok(plan) = Plan::stream(64, 3, 5) else {
        return Ok(false);
    };
    let mut solver = Solver::new(alloc, 3, CODED)?;
    let mut stream = Stream::new(alloc, 7, &fti, 32, &plan, 2)?;
    come(&mut stream, &mut solver, 0, first, &known_symbol(first))?;
    come(&mut stream, &mut solver, 0, second, &known_symbol(second))?;
    come(&mut stream, &mut solver, 0, third, &known_symbol(third))?;
    Ok(
        shows(&mut stream, 0)
            && shows(&mut stream, 1)
            && shows(&mut stream, 2)
            && stream.hand_up().is_none(),
    )
}

#[test]
fn any_three_of_five_symbols_give_the_segments_in_any_order(rt: HostRuntime) -> Result<(), Fail> {
    for order in 0..125u8 {
        let (first, second, third) = (order / 25, order / 5 % 5, order % 5);
        if first != second && first != third && second != third {
            let given = give_back(rt.alloc(), first, second, third)?;
            assert!(rt; given, "{first} {second} {third}");
        }
    }
    Ok(())
}

/// A symbol that comes after three others of the first block: the ids of those, its own block and id, the length in its header, how many
/// octets its payload has, and the expected answer.
type Row = ([u8; 3], u32, u8, u8, usize, Put);

/// The answers, in the order in which they are tried.
const WORDS: [Row; 18] = [
    ([0, 1, 1], 0, 2, 64, 72, Put::Kept),
    // A segment has its own length, and one of no octets is the end.
    ([0, 1, 1], 0, 2, 4, 12, Put::Kept),
    ([0, 1, 1], 0, 2, 0, 8, Put::Kept),
    ([0, 1, 1], 0, 4, 9, 72, Put::Kept),
    ([0, 1, 1], 1, 0, 64, 72, Put::Kept),
    // It is held, or its block is done; whatever else is wrong with it.
    ([0, 1, 1], 0, 1, 64, 72, Put::Had),
    ([0, 1, 1], 0, 1, 64, 9, Put::Had),
    ([0, 1, 4], 0, 2, 64, 72, Put::Had),
    ([0, 1, 4], 0, 9, 64, 9, Put::Had),
    // There is room for two blocks.
    ([0, 1, 1], 2, 0, 64, 72, Put::Away),
    ([0, 1, 1], 16_777_215, 9, 64, 9, Put::Away),
    // It is no encoded symbol; its length is above 64; octets are missing, or too many.
    ([0, 1, 1], 0, 5, 64, 72, Put::Unfit),
    ([0, 1, 1], 1, 255, 64, 72, Put::Unfit),
    ([0, 1, 1], 0, 2, 65, 73, Put::Unfit),
    ([0, 1, 1], 0, 2, 5, 12, Put::Unfit),
    ([0, 1, 1], 0, 2, 3, 12, Put::Unfit),
    ([0, 1, 1], 0, 2, 0, 7, Put::Unfit),
    // Parity has 72 octets.
    ([0, 1, 1], 0, 3, 64, 71, Put::Unfit),
];

/// Returns the answer to the symbol of a row.
fn word_of(alloc: Global, row: &Row) -> Result<Option<Put>, Memory> {
    let (before, block, symbol, len, octets, _) = *row;
    let fti = Fti {
        l: 384,
        e: 64,
        b: 3,
        max_n: 5,
    };
    let Ok(plan) = Plan::stream(64, 3, 5) else {
        return Ok(None);
    };
    let mut payload = [0; 80];
    payload[1] = len;
    let (payload, _) = payload.as_slice().split_at(octets.min(80));
    let [first, second, third] = before;
    let mut solver = Solver::new(alloc, 3, CODED)?;
    let mut stream = Stream::new(alloc, 7, &fti, 32, &plan, 2)?;
    come(&mut stream, &mut solver, 0, first, &known_symbol(first))?;
    come(&mut stream, &mut solver, 0, second, &known_symbol(second))?;
    come(&mut stream, &mut solver, 0, third, &known_symbol(third))?;
    let word = come(&mut stream, &mut solver, block, symbol, payload)?;
    Ok(Some(word))
}

#[test]
fn each_symbol_gets_the_first_word_that_applies(rt: HostRuntime) -> Result<(), Fail> {
    for (number, row) in WORDS.iter().enumerate() {
        let word = word_of(rt.alloc(), row)?;
        assert!(rt; word == Some(row.5), "row {number}");
    }
    Ok(())
}

/// Three segments, each with its id and the length in its header, in the order in which they come. Then how many octets of each are handed
/// up in turn, 0 if it is an end or nothing, and the id of the end, if there is one.
type Run = ([(u8, u8); 3], [u8; 3], Option<u8>);

/// Lengths of hand-ups, and the end.
const RUNS: [Run; 5] = [
    ([(0, 64), (1, 9), (2, 1)], [64, 9, 1], None),
    ([(0, 64), (1, 9), (2, 0)], [64, 9, 0], Some(2)),
    ([(2, 0), (1, 9), (0, 64)], [64, 9, 0], Some(2)),
    ([(1, 0), (2, 5), (0, 3)], [3, 0, 0], Some(1)),
    ([(0, 0), (1, 0), (2, 7)], [0, 0, 0], Some(0)),
];

/// Offers a segment of this many octets, as it is sent.
fn comes_with(stream: &mut Stream, solver: &mut Solver, symbol: u8, len: u8) -> Result<Put, Memory>
    requires point { stream.old.point.block ≡ 0 }
    requires solver { solver.old ≡ record { k = stream.old.plan.fti.b; size = stream.old.plan.fti.e + 8 } }
    ensures point { IfOk result (λ _. stream.new.point ≡ stream.old.point) }
    ensures plan { IfOk result (λ _. stream.new.plan ≡ stream.old.plan) }
    ensures solver { solver.new ≡ solver.old }
{
    let mut payload = [0; 72];
    payload[1] = len;
    let (payload, _) = payload.as_slice().split_at((8 + usize::from(len)).min(72));
    come(stream, solver, 0, symbol, payload)
}

/// Returns how many octets the next hand-up has: 0 if it is not a segment, or if there is none.
fn handed(stream: &mut Stream) -> usize {
    match stream.hand_up() {
        Some(Up::StreamBytes { bytes, .. }) => bytes.bytes().len(),
        _ => 0,
    }
}

/// Whether the stream hands up as many octets as the row says, and knows its end.
fn runs(alloc: Global, row: &Run) -> Result<bool, Memory> {
    let (segments, lens, end) = *row;
    let fti = Fti {
        l: 384,
        e: 64,
        b: 3,
        max_n: 5,
    };
    let Ok(plan) = Plan::stream(64, 3, 5) else {
        return Ok(false);
    };
    let [first, second, third] = segments;
    let mut solver = Solver::new(alloc, 3, CODED)?;
    let mut stream = Stream::new(alloc, 7, &fti, 32, &plan, 2)?;
    comes_with(&mut stream, &mut solver, first.0, first.1)?;
    comes_with(&mut stream, &mut solver, second.0, second.1)?;
    comes_with(&mut stream, &mut solver, third.0, third.1)?;
    let known = stream.end().map(|id| id.symbol);
    Ok(
        known == end
            && handed(&mut stream) == usize::from(lens[0])
            && handed(&mut stream) == usize::from(lens[1])
            && handed(&mut stream) == usize::from(lens[2]),
    )
}

#[test]
fn segments_are_handed_up_at_their_length_and_the_end_is_known(
    rt: HostRuntime,
) -> Result<(), Fail> {
    for (number, row) in RUNS.iter().enumerate() {
        let run = runs(rt.alloc(), row)?;
        assert!(rt; run, "row {number}");
    }
    Ok(())
}
