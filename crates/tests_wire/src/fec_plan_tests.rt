//! Tests of `fec_plan`: how objects and streams are cut, names of symbols, and the order of positions. The expected numbers are worked examples.

use fec_plan::{PayloadId, Plan, PlanFault, Position, laws};

/// Cuts an object. Returns how many blocks it has, and for one block the number of source symbols, the number of encoding symbols, and the octets
/// of its last source symbol. Returns `None` if the object cannot be cut so.
fn cut(l: u32, e: u16, b: u8, max_n: u8, block: u32) -> Option<(u32, u8, u8, u16)> {
    let plan = Plan::of(u64::from(l), e, b, max_n).ok()?;
    let sources = plan.source_len(block);
    let last = plan.symbol_octets(block, u8::saturating_sub(sources, 1));
    Some((plan.blocks(), sources, plan.encoded_len(block), last))
}

#[test]
fn objects_are_cut_as_in_worked_rows(rt: HostRuntime) {
    for (l, e, b, max_n, block, answer) in [
        (1000, 64, 6, 8, 0, (3, 6, 8, 64)),
        (1000, 64, 6, 8, 1, (3, 5, 6, 64)),
        (1000, 64, 6, 8, 2, (3, 5, 6, 40)),
        (257, 64, 4, 6, 0, (2, 3, 4, 64)),
        (257, 64, 4, 6, 1, (2, 2, 3, 1)),
        (256, 64, 4, 6, 0, (1, 4, 6, 64)),
        (16_777_216, 1400, 200, 255, 43, (60, 200, 255, 1400)),
        (16_777_216, 1400, 200, 255, 44, (60, 199, 253, 1400)),
        (16_777_216, 1400, 200, 255, 59, (60, 199, 253, 1016)),
    ] {
        assert!(rt;
            cut(l, e, b, max_n, block) == Some(answer),
            "{l} at {block}"
        );
    }
}

/// Cuts a stream. Returns how many blocks it has, and for one block the number of source symbols, the number of encoding symbols, and the octets
/// of its first symbol. Returns `None` if it cannot be cut so.
fn stream_cut(e: u16, b: u8, max_n: u8, block: u32) -> Option<(u32, u8, u8, u16)> {
    let plan = Plan::stream(e, b, max_n).ok()?;
    let (sources, encoded) = (plan.source_len(block), plan.encoded_len(block));
    Some((
        plan.blocks(),
        sources,
        encoded,
        plan.symbol_octets(block, 0),
    ))
}

#[test]
fn blocks_of_a_stream_are_alike(rt: HostRuntime) {
    assert!(rt; stream_cut(64, 4, 6, 77) == Some((16_777_216, 4, 6, 72)));
    assert!(rt; Plan::stream(63, 4, 6).err() == Some(PlanFault::BadSymbol { e: 63 }));
}

/// Returns why an object cannot be cut, or `None` if it can.
fn fault_of(l: u32, e: u16, b: u8, max_n: u8) -> Option<PlanFault> {
    Plan::of(u64::from(l), e, b, max_n).err()
}

#[test]
fn the_first_fault_is_the_answer(rt: HostRuntime) {
    for (l, e, b, max_n, fault) in [
        (0, 63, 0, 0, PlanFault::ZeroLength),
        (1, 63, 0, 0, PlanFault::BadSymbol { e: 63 }),
        (1, 1401, 4, 3, PlanFault::BadSymbol { e: 1401 }),
        (1, 64, 0, 0, PlanFault::BadBlock { b: 0 }),
        (1, 64, 201, 200, PlanFault::BadBlock { b: 201 }),
        (1, 64, 4, 3, PlanFault::BadMaxN { b: 4, max_n: 3 }),
        (
            1_073_741_825,
            64,
            1,
            1,
            PlanFault::TooManyBlocks { blocks: 16_777_217 },
        ),
    ] {
        let found = fault_of(l, e, b, max_n);
        assert!(rt; found == Some(fault), "at {l}, {e}, {b} and {max_n}");
    }
}

#[test]
fn a_name_is_24_bits_of_block_and_8_of_symbol(rt: HostRuntime) {
    let id = PayloadId::read([1, 2, 3, 4]);
    assert!(rt; (id.block, id.symbol) == (66_051, 4));
    assert!(rt; id.bytes() == [1, 2, 3, 4]);
}

/// Makes a position from an index, a block and a symbol.
fn position(at: (u32, u16, u8)) -> Position {
    let (index, block, symbol) = at;
    Position {
        index,
        block: u32::from(block),
        symbol,
    }
}

#[test]
fn positions_go_by_index_then_block_then_symbol(rt: HostRuntime) {
    laws::position_order();
    for (place, (at, next)) in [
        ((0, 9, 9), (1, 0, 0)),
        ((1, 0, 9), (1, 1, 0)),
        ((1, 1, 0), (1, 1, 1)),
    ]
    .iter()
    .enumerate()
    {
        assert!(rt; position(*at) < position(*next), "row {place}");
    }
}
