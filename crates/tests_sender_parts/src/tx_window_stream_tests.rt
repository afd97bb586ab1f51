//! Tests of the streams of a window: blocks that are dropped for room, a segment that is cut, what is left to repair, and an instance that
//! begins within a stream.

use crate::window_steps::{Next, Step, play_under, profile_of};
use norm_base::{Memory, Mode, Profile};
use norm_send_rules::{EnqueueFault, StreamFault};
use std::alloc::Global;
use std::process::Abort;
use std::test::Fail;

/// Makes the calls in order, of a window with room for streams of two blocks, each of one segment of 64 octets.
fn play_stream(rt: &impl Abort, alloc: Global, mode: Mode, steps: &[Step]) -> Result<(), Memory> {
    let profile = profile_of(rt, mode, (64, 1, 2), (2, 192));
    let profile = Profile {
        blocks: 2,
        ..profile
    };
    play_under(rt, alloc, &profile, steps)
}

/// A stream after an object, with blocks of one segment each and room for two. Blocks are dropped once they were sent.
const GOES: [Step; 24] = [
    Step::Enqueue(0, 1, Ok(0)),
    Step::Opens(Ok(1)),
    Step::Opens(Err(EnqueueFault::StreamOpen { index: 1 })),
    Step::Enqueue(0, 1, Err(EnqueueFault::StreamOpen { index: 1 })),
    Step::Writes(0, Err(EnqueueFault::Empty)),
    Step::Writes(65, Err(EnqueueFault::TooBig { len: 65 })),
    Step::Writes(64, Ok((1, 0))),
    Step::Writes(64, Ok((1, 64))),
    Step::Streams(1, 2),
    Step::Front(0, 0),
    Step::Send((1, 0, 0), Some((72, 0))),
    Step::Writes(
        64,
        Err(EnqueueFault::Stream(StreamFault::Full { first: 0 })),
    ),
    Step::Send((0, 0, 0), Some((1, 1))),
    Step::Writes(64, Ok((1, 128))),
    Step::Front(1, 1),
    Step::Send((0, 0, 0), None),
    Step::Send((1, 0, 0), None),
    Step::IsSource((0, 0, 0), true),
    Step::IsSource((1, 0, 0), true),
    Step::IsSource((1, 3, 0), false),
    Step::NextAt((1, 0, 0), Some(Next::SymbolAt((1, 1, 0)))),
    Step::Closes(Err(EnqueueFault::Stream(StreamFault::Full { first: 1 }))),
    Step::Send((1, 1, 0), Some((72, 0))),
    Step::Closes(Ok(1)),
];

#[test]
fn a_front_goes_for_room(rt: HostRuntime) -> Result<(), Fail> {
    let steps = GOES;
    play_stream(&rt, rt.alloc(), Mode::Drop, &steps)?;
    Ok(())
}

/// As `GOES`, in `hold` mode: all members have to be listed past what is dropped.
const STAYS: [Step; 11] = [
    Step::Opens(Ok(0)),
    Step::Writes(64, Ok((0, 0))),
    Step::Writes(64, Ok((0, 64))),
    Step::Send((0, 0, 0), Some((72, 0))),
    Step::Writes(
        64,
        Err(EnqueueFault::Stream(StreamFault::Full { first: 0 })),
    ),
    Step::Past((0, 0, 0)),
    Step::Writes(64, Ok((0, 128))),
    Step::Front(0, 1),
    Step::Past((0, 1, 0)),
    Step::Closes(Err(EnqueueFault::Stream(StreamFault::Full { first: 1 }))),
    Step::Front(0, 1),
];

#[test]
fn a_front_stays_until_all_are_past_it(rt: HostRuntime) -> Result<(), Fail> {
    let steps = STAYS;
    play_stream(&rt, rt.alloc(), Mode::Hold, &steps)?;
    Ok(())
}

/// A segment that is not full is not a source symbol until it is cut, but what the end will be is known before.
const CUTS: [Step; 14] = [
    Step::EndCut(None),
    Step::Opens(Ok(0)),
    Step::EndCut(None),
    Step::Writes(1, Ok((0, 0))),
    Step::End(None),
    Step::EndCut(Some((0, 0, 0))),
    Step::Send((0, 0, 0), None),
    Step::Cut,
    Step::Cut,
    Step::End(Some((0, 0, 0))),
    Step::EndCut(Some((0, 0, 0))),
    Step::Streams(1, 1),
    Step::Send((0, 0, 0), Some((9, 0))),
    Step::About(0, Some((128, 32, 16_777_216))),
];

#[test]
fn what_fills_is_cut_once(rt: HostRuntime) -> Result<(), Fail> {
    let steps = CUTS;
    play_stream(&rt, rt.alloc(), Mode::Drop, &steps)?;
    Ok(())
}

/// What can be repaired. Five symbols in blocks of 2, 2 and 1 have 3, 3 and 1 encoded ones. Two symbols with an info have 3 and 1. A
/// stream's block has 3 if its two segments are closed, else as many as are closed. If blocks of a stream are dropped, the objects before
/// it are dropped too.
const LEFT: [Step; 24] = [
    Step::Repairable(0),
    Step::Enqueue(0, 257, Ok(0)),
    Step::Repairable(7),
    Step::Enqueue(3, 65, Ok(1)),
    Step::Repairable(11),
    Step::Opens(Ok(2)),
    Step::Repairable(11),
    Step::Writes(128, Ok((2, 0))),
    Step::Repairable(14),
    Step::Writes(65, Ok((2, 128))),
    Step::Repairable(15),
    Step::Cut,
    Step::Repairable(17),
    Step::SendAll(0),
    Step::SendAll(1),
    Step::SendInfo(1, true),
    Step::SendAll(2),
    Step::Repairable(17),
    Step::Writes(64, Ok((2, 193))),
    Step::Front(2, 1),
    Step::Repairable(4),
    Step::Closes(Ok(2)),
    Step::Repairable(6),
    Step::Streams(1, 6),
];

#[test]
fn what_is_left_to_repair_is_counted(rt: HostRuntime) -> Result<(), Fail> {
    let steps = LEFT;
    let profile = profile_of(&rt, Mode::Drop, (64, 2, 3), (3, 578));
    let profile = Profile {
        blocks: 2,
        ..profile
    };
    play_under(&rt, rt.alloc(), &profile, &steps)?;
    Ok(())
}

/// Another instance begins in the middle of a stream, and in the middle of a file. If no stream is open, a write of nothing or of too much
/// is still refused for its size.
const MIDDLE: [Step; 17] = [
    Step::Opens(Ok(0)),
    Step::Writes(64, Ok((0, 0))),
    Step::Writes(1, Ok((0, 64))),
    Step::Clear,
    Step::Front(0, 0),
    Step::End(None),
    Step::Streams(0, 0),
    Step::Writes(0, Err(EnqueueFault::Empty)),
    Step::Writes(65, Err(EnqueueFault::TooBig { len: 65 })),
    Step::Writes(64, Err(EnqueueFault::NoStream)),
    Step::Closes(Err(EnqueueFault::NoStream)),
    Step::CutShort(64, 1, true),
    Step::End(None),
    Step::Send((0, 0, 0), None),
    Step::Opens(Ok(0)),
    Step::Writes(64, Ok((0, 0))),
    Step::Send((0, 0, 0), Some((72, 0))),
];

#[test]
fn a_restart_leaves_nothing_of_what_was_not_done(rt: HostRuntime) -> Result<(), Fail> {
    let steps = MIDDLE;
    play_stream(&rt, rt.alloc(), Mode::Drop, &steps)?;
    Ok(())
}
