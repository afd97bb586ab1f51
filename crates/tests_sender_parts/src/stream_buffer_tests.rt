//! Tests of open streams: what a write answers, which blocks are dropped for room, the segments as they are sent, and parity.

use crate::profiles::profile_of;
use norm_base::{Datagram, Key, Memory};
use std::alloc::Global;
use std::process::Abort;
use std::test::Fail;
use stream_buffer::{StreamBuf, StreamFault};

/// A symbol as it is sent: its number of octets and the first nine, padded with zeros. Those of a segment are its header (length, 0,
/// offset) and its first octet.
type Sent = (usize, [u8; 9]);

/// A call of a stream, with its expected answer.
#[derive(Clone, Copy)]
enum Step {
    /// Writes an octet this many times. The blocks below the third number may be dropped.
    Write(u8, usize, u32, Result<u32, StreamFault>),
    Cut,
    Close(u32, Result<(), StreamFault>),
    /// Expects this symbol of a block, or `None` if it is not there.
    Symbol(u32, u8, Option<Sent>),
    /// Expects the first block that is left, the number of closed segments, and the number of octets written.
    Has(u32, u32, u32),
}

/// Returns the answer to a write. `None` if the call's contract does not allow it: there are no octets, or a block may be dropped that is
/// not closed.
fn written(
    alloc: Global,
    stream: &mut StreamBuf,
    octet: u8,
    len: usize,
    may_go: u32,
) -> Result<Option<Result<u32, StreamFault>>, Memory> {
    let octets = vec![in alloc; octet; len]?;
    let sources = stream.plan().source_len(0);
    if octets.is_empty() || u64::from(may_go) * u64::from(sources) > u64::from(stream.segments()) {
        return Ok(None);
    }
    Ok(Some(stream.write(&octets, may_go)))
}

/// Returns the answer to the end. `None` if the call's contract does not allow it: a block may be dropped that is not closed.
fn closed(stream: &mut StreamBuf, may_go: u32) -> Option<Result<(), StreamFault>> {
    let sources = stream.plan().source_len(0);
    if u64::from(may_go) * u64::from(sources) > u64::from(stream.segments()) {
        return None;
    }
    Some(stream.close(may_go))
}

/// Returns a symbol as it is sent, or `None` if it is not there, or no block has as many symbols.
fn sent(alloc: Global, stream: &StreamBuf, block: u32, symbol: u8) -> Result<Option<Sent>, Memory> {
    let mut out = Datagram::new(alloc)?;
    let plan = stream.plan();
    if symbol >= plan.encoded_len(0) || plan.e() > 1400 {
        return Ok(None);
    }
    if !stream.symbol(block, symbol, &mut out) {
        return Ok(None);
    }
    let mut first = [0; 9];
    for (place, octet) in first.iter_mut().zip(out.bytes()) {
        *place = *octet;
    }
    Ok(Some((out.bytes().len(), first)))
}

/// Makes a call. Returns whether it gave the expected answer.
fn does(alloc: Global, stream: &mut StreamBuf, step: Step) -> Result<bool, Memory> {
    match step {
        Step::Write(octet, len, may_go, answer) => {
            Ok(written(alloc, stream, octet, len, may_go)? == Some(answer))
        }
        Step::Cut => {
            stream.cut();
            Ok(true)
        }
        Step::Close(may_go, answer) => Ok(closed(stream, may_go) == Some(answer)),
        Step::Symbol(block, symbol, answer) => Ok(sent(alloc, stream, block, symbol)? == answer),
        Step::Has(first, segments, octets) => {
            let has = (stream.first_block(), stream.segments(), stream.octets());
            Ok(has == (first, segments, octets))
        }
    }
}

/// Makes the calls in order, of one stream with symbols, blocks and encoded symbols of these sizes and room for this many blocks.
fn play(
    rt: &impl Abort,
    alloc: Global,
    sizes: (u32, u32, u32),
    blocks: u32,
    steps: &[Step],
) -> Result<(), Memory> {
    let (e, b, max_n) = sizes;
    let profile = profile_of(
        rt,
        &[
            (Key::E, e),
            (Key::B, b),
            (Key::MaxN, max_n),
            (Key::Blocks, blocks),
        ],
    );
    let mut stream = StreamBuf::new(alloc, &profile)?;
    for (place, step) in steps.iter().enumerate() {
        let is_so = does(alloc, &mut stream, *step)?;
        assert!(rt; is_so, "call {place}");
    }
    Ok(())
}

/// Blocks of one segment each, and room for two.
const ROOM: [Step; 12] = [
    Step::Write(7, 64, 0, Ok(0)),
    Step::Write(7, 64, 0, Ok(64)),
    Step::Write(7, 64, 0, Err(StreamFault::Full { first: 0 })),
    Step::Symbol(0, 0, Some((72, [0, 64, 0, 0, 0, 0, 0, 0, 7]))),
    Step::Write(7, 64, 1, Ok(128)),
    Step::Symbol(0, 0, None),
    Step::Symbol(2, 0, Some((72, [0, 64, 0, 0, 0, 0, 0, 128, 7]))),
    Step::Close(1, Err(StreamFault::Full { first: 1 })),
    Step::Has(1, 3, 192),
    Step::Close(2, Ok(())),
    Step::Has(2, 4, 192),
    Step::Write(7, 1, 2, Err(StreamFault::Closed)),
];

#[test]
fn blocks_go_for_room_and_no_more(rt: HostRuntime) -> Result<(), Fail> {
    let steps = ROOM;
    play(&rt, rt.alloc(), (64, 1, 2), 2, &steps)?;
    Ok(())
}

/// Writes of 1, 64 and 65 octets, with a cut after the first.
const SEGMENTS: [Step; 16] = [
    Step::Write(0x41, 1, 0, Ok(0)),
    Step::Symbol(0, 0, None),
    Step::Cut,
    Step::Cut,
    Step::Symbol(0, 0, Some((9, [0, 1, 0, 0, 0, 0, 0, 0, 0x41]))),
    Step::Write(0x42, 64, 0, Ok(1)),
    Step::Write(0x43, 65, 0, Ok(65)),
    Step::Symbol(0, 3, None),
    Step::Symbol(0, 4, None),
    Step::Close(0, Ok(())),
    Step::Symbol(0, 1, Some((72, [0, 64, 0, 0, 0, 0, 0, 1, 0x42]))),
    Step::Symbol(0, 2, Some((72, [0, 64, 0, 0, 0, 0, 0, 65, 0x43]))),
    Step::Symbol(0, 3, Some((9, [0, 1, 0, 0, 0, 0, 0, 129, 0x43]))),
    Step::Symbol(1, 0, Some((8, [0, 0, 0, 0, 0, 0, 0, 130, 0]))),
    Step::Symbol(1, 1, None),
    Step::Has(0, 5, 130),
];

#[test]
fn segments_are_sent_with_their_places(rt: HostRuntime) -> Result<(), Fail> {
    let steps = SEGMENTS;
    play(&rt, rt.alloc(), (64, 4, 6), 16, &steps)?;
    Ok(())
}

/// If there are two source symbols, the parity symbol is twice the first and three times the second. Here 3 * 64 is 192.
const PARITY: [Step; 4] = [
    Step::Write(1, 64, 0, Ok(0)),
    Step::Symbol(0, 2, None),
    Step::Write(2, 64, 0, Ok(64)),
    Step::Symbol(0, 2, Some((72, [0, 64, 0, 0, 0, 0, 0, 192, 4]))),
];

#[test]
fn places_are_coded_too(rt: HostRuntime) -> Result<(), Fail> {
    let steps = PARITY;
    play(&rt, rt.alloc(), (64, 2, 3), 2, &steps)?;
    Ok(())
}

/// If there is one source symbol, each parity symbol is the same, here padded with zeros.
const SHORT: [Step; 3] = [
    Step::Write(0x41, 1, 0, Ok(0)),
    Step::Cut,
    Step::Symbol(0, 1, Some((72, [0, 1, 0, 0, 0, 0, 0, 0, 0x41]))),
];

#[test]
fn parity_of_a_short_segment_is_whole(rt: HostRuntime) -> Result<(), Fail> {
    let steps = SHORT;
    play(&rt, rt.alloc(), (64, 1, 2), 2, &steps)?;
    Ok(())
}

/// A stream with the largest buffer.
const LARGEST: [Step; 3] = [
    Step::Write(1, 1401, 0, Ok(0)),
    Step::Symbol(0, 0, Some((1408, [5, 120, 0, 0, 0, 0, 0, 0, 1]))),
    Step::Has(0, 1, 1401),
];

#[test]
fn the_largest_buffer_is_made(rt: HostRuntime) -> Result<(), Fail> {
    let steps = LARGEST;
    play(&rt, rt.alloc(), (1400, 200, 255), 59, &steps)?;
    Ok(())
}
