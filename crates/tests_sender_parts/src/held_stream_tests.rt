//! Tests of a stream in the window: which of its segments were sent, and which blocks may be dropped for room.

use crate::profiles::profile_of;
use fec_plan::Position;
use norm_base::{Datagram, Key, Memory, Profile};
use std::alloc::Global;
use std::process::Abort;
use std::test::Fail;
use stream_buffer::{HeldStream, StreamFault};

/// The index of the stream.
const INDEX: u32 = 3;

/// The value of `Key::Mode` for the mode `hold`.
const HOLD: u32 = 0;

/// The value of `Key::Mode` for the mode `drop`.
const DROP: u32 = 1;

/// A call of a stream, with its expected answer.
#[derive(Clone, Copy)]
enum Step {
    /// Writes this many octets. Says whether the entries before the stream may be dropped.
    Write(usize, bool, Result<u32, StreamFault>),
    Cut,
    Close(bool, Result<(), StreamFault>),
    /// Notes a symbol of a block as sent.
    Sent(u32, u8),
    /// All members are listed past this symbol of a block.
    Past(u32, u8),
    /// Expects the number of octets of a symbol of a block, or `None` if it is not there.
    Symbol(u32, u8, Option<usize>),
    /// Expects the block and the symbol of the last closed segment.
    Last(Option<(u32, u8)>),
    /// Expects the first block that is left, the number of closed segments, and whether all was sent.
    Has(u32, u32, bool),
}

/// Returns the answer to a write, or `None` if it has no octets, which the call's contract does not allow.
fn written(
    alloc: Global,
    stream: &mut HeldStream,
    profile: &Profile,
    past: &Option<Position>,
    len: usize,
    before: bool,
) -> Result<Option<Result<u32, StreamFault>>, Memory> {
    let octets = vec![in alloc; 7; len]?;
    if octets.is_empty() {
        return Ok(None);
    }
    Ok(Some(stream.write(profile, INDEX, past, before, &octets)))
}

/// Returns the number of octets of a symbol, or `None` if it is not there, or no block has as many symbols.
fn sent(
    alloc: Global,
    stream: &HeldStream,
    block: u32,
    symbol: u8,
) -> Result<Option<usize>, Memory> {
    let mut out = Datagram::new(alloc)?;
    let plan = stream.plan();
    if symbol >= plan.encoded_len(0) || plan.e() > 1400 {
        return Ok(None);
    }
    if !stream.symbol(block, symbol, &mut out) {
        return Ok(None);
    }
    Ok(Some(out.bytes().len()))
}

/// Notes a symbol as sent. Returns `false` if its block is not kept any more.
fn note(stream: &mut HeldStream, block: u32, symbol: u8) -> bool {
    if block < stream.first_block() {
        return false;
    }
    stream.note_sent(block, symbol);
    true
}

/// Returns a position of the stream, or `None` if 24 bits do not have the block.
fn position(block: u32, symbol: u8) -> Option<Position> {
    if block >= 16_777_216 {
        return None;
    }
    Some(Position {
        index: INDEX,
        block,
        symbol,
    })
}

/// Returns the block and the symbol of the last closed segment.
fn last(stream: &HeldStream) -> Option<(u32, u8)> {
    let at = stream.last(INDEX)?;
    Some((at.block, at.symbol))
}

/// Makes a call. Returns whether it gave the expected answer.
fn does(
    alloc: Global,
    stream: &mut HeldStream,
    profile: &Profile,
    past: &mut Option<Position>,
    step: Step,
) -> Result<bool, Memory> {
    match step {
        Step::Write(len, before, answer) => {
            Ok(written(alloc, stream, profile, past, len, before)? == Some(answer))
        }
        Step::Cut => {
            stream.cut();
            Ok(true)
        }
        Step::Close(before, answer) => Ok(stream.close(profile, INDEX, past, before) == answer),
        Step::Sent(block, symbol) => Ok(note(stream, block, symbol)),
        Step::Past(block, symbol) => {
            *past = position(block, symbol);
            Ok(true)
        }
        Step::Symbol(block, symbol, answer) => Ok(sent(alloc, stream, block, symbol)? == answer),
        Step::Last(answer) => Ok(last(stream) == answer),
        Step::Has(first, segments, is_sent) => {
            let has = (stream.first_block(), stream.segments(), stream.is_sent());
            Ok(has == (first, segments, is_sent))
        }
    }
}

/// Makes the calls in order, of one stream in this mode.
fn play(rt: &impl Abort, alloc: Global, mode: u32, steps: &[Step]) -> Result<(), Memory> {
    // Segments of 64 octets, blocks of two with three encoded symbols, and room for two blocks.
    let profile = profile_of(
        rt,
        &[
            (Key::E, 64),
            (Key::B, 2),
            (Key::MaxN, 3),
            (Key::Blocks, 2),
            (Key::Mode, mode),
        ],
    );
    let mut past = None;
    let mut stream = HeldStream::new(alloc, &profile)?;
    for (place, step) in steps.iter().enumerate() {
        let is_so = does(alloc, &mut stream, &profile, &mut past, *step)?;
        assert!(rt; is_so, "call {place}");
    }
    Ok(())
}

/// A block may be dropped for room after both its segments were sent, if the entries before the stream may be dropped. 129 octets need the room of
/// both blocks.
const DROPS: [Step; 17] = [
    Step::Last(None),
    Step::Has(0, 0, true),
    Step::Write(256, true, Ok(0)),
    Step::Has(0, 4, false),
    Step::Last(Some((1, 1))),
    Step::Write(1, true, Err(StreamFault::Full { first: 0 })),
    Step::Sent(0, 0),
    Step::Write(1, true, Err(StreamFault::Full { first: 0 })),
    Step::Sent(0, 2),
    Step::Write(1, true, Err(StreamFault::Full { first: 0 })),
    Step::Sent(0, 1),
    Step::Write(129, true, Err(StreamFault::Full { first: 0 })),
    Step::Write(1, false, Err(StreamFault::Full { first: 0 })),
    Step::Write(1, true, Ok(256)),
    Step::Symbol(0, 0, None),
    Step::Symbol(1, 2, Some(72)),
    Step::Has(1, 4, false),
];

#[test]
fn sent_blocks_go_for_room(rt: HostRuntime) -> Result<(), Fail> {
    let steps = DROPS;
    play(&rt, rt.alloc(), DROP, &steps)?;
    Ok(())
}

/// In `hold` mode every member has to be listed past a block's last segment too.
const HOLDS: [Step; 12] = [
    Step::Write(256, true, Ok(0)),
    Step::Close(true, Err(StreamFault::Full { first: 0 })),
    Step::Sent(0, 0),
    Step::Sent(0, 1),
    Step::Write(1, true, Err(StreamFault::Full { first: 0 })),
    Step::Past(0, 0),
    Step::Write(1, true, Err(StreamFault::Full { first: 0 })),
    Step::Past(0, 1),
    Step::Write(1, true, Ok(256)),
    Step::Has(1, 4, false),
    Step::Close(true, Ok(())),
    Step::Write(1, true, Err(StreamFault::Closed)),
];

#[test]
fn held_blocks_go_once_all_are_past(rt: HostRuntime) -> Result<(), Fail> {
    let steps = HOLDS;
    play(&rt, rt.alloc(), HOLD, &steps)?;
    Ok(())
}

/// A cut closes a segment that was not sent yet, and the end adds another.
const ENDS: [Step; 12] = [
    Step::Write(1, true, Ok(0)),
    Step::Has(0, 0, true),
    Step::Cut,
    Step::Has(0, 1, false),
    Step::Sent(0, 0),
    Step::Has(0, 1, true),
    Step::Close(true, Ok(())),
    Step::Has(0, 2, false),
    Step::Last(Some((0, 1))),
    Step::Symbol(0, 1, Some(8)),
    Step::Sent(0, 1),
    Step::Has(0, 2, true),
];

#[test]
fn what_is_closed_is_to_be_sent(rt: HostRuntime) -> Result<(), Fail> {
    let steps = ENDS;
    play(&rt, rt.alloc(), DROP, &steps)?;
    Ok(())
}
