//! Tests of what is held of objects of both kinds, streams above all: the answer to each call, what is handed up in whatever order segments
//! come, and what a squelch makes lost.

use crate::playing::{Handed, Sizes, Step, play};
use norm_receive_rules::{Fit, Missing, Put};
use std::test::Fail;

/// Blocks of three source symbols of 64 octets and two of parity. A stream's buffer has four of them, 768 octets.
const SIZES: Sizes = (64, 3, 5, 1600, 4);

/// As `SIZES`, with room for two streams and an object of 464 octets.
const WIDE: Sizes = (64, 3, 5, 2000, 4);

/// Each answer, for a stream and for an object next to it.
const WORDS: [Step; 26] = [
    Step::Segment((0, 0, 0), (1, 0, 0), 9, Put::Away),
    Step::Fit(0, (0, 64, 3, 5), 32, Fit::Taken),
    Step::Fit(0, (9, 64, 3, 5), 32, Fit::Known),
    Step::Fit(0, (9, 64, 3, 5), 0, Fit::Unfit),
    Step::Flags(0, Some(32)),
    Step::Fit(1, (1000, 64, 3, 5), 4, Fit::Taken),
    Step::Fit(2, (0, 64, 3, 5), 32, Fit::Away),
    Step::Fit(2, (0, 64, 3, 5), 0, Fit::Unfit),
    Step::Fit(256, (1, 64, 3, 5), 0, Fit::Away),
    Step::See(0, 3),
    Step::Segment((0, 0, 0), (1, 0, 0), 9, Put::Kept),
    Step::Segment((0, 0, 0), (1, 0, 0), 9, Put::Had),
    Step::Segment((0, 0, 1), (2, 0, 0), 9, Put::Unfit),
    Step::Segment((0, 0, 3), (1, 0, 0), 71, Put::Unfit),
    Step::Segment((0, 0, 3), (1, 0, 0), 72, Put::Kept),
    Step::Segment((0, 0, 4), (1, 0, 0), 72, Put::Kept),
    Step::Segment((0, 0, 1), (1, 0, 0), 9, Put::Had),
    Step::Segment((0, 3, 0), (1, 0, 0), 9, Put::Kept),
    Step::Segment((0, 4, 0), (1, 0, 0), 9, Put::Away),
    Step::Put((1, 0, 0), 64, 0, Put::Kept),
    Step::Put((1, 9, 0), 64, 0, Put::Unfit),
    Step::Info(0, 9, Put::Unfit),
    Step::Info(1, 65, Put::Unfit),
    Step::Info(1, 9, Put::Kept),
    Step::Info(1, 9, Put::Had),
    Step::Info(2, 9, Put::Away),
];

#[test]
fn words_of_either_kind(rt: HostRuntime) -> Result<(), Fail> {
    let steps = WORDS;
    play(&rt, rt.alloc(), WIDE, &steps)?;
    Ok(())
}

/// Answers to a stream's transmission information: the first that applies. Two streams leave room for 64 octets.
const FITS: [Step; 18] = [
    Step::Fit(0, (0, 64, 3, 5), 32, Fit::Taken),
    // It is known; the length says nothing.
    Step::Fit(0, (9, 64, 3, 5), 32, Fit::Known),
    // Another plan than the one that is known, or no stream.
    Step::Fit(0, (0, 65, 3, 5), 32, Fit::Unfit),
    Step::Fit(0, (0, 64, 2, 5), 32, Fit::Unfit),
    Step::Fit(0, (0, 64, 3, 6), 32, Fit::Unfit),
    Step::Fit(0, (0, 64, 3, 5), 0, Fit::Unfit),
    // No plan, or none of the profile.
    Step::Fit(1, (0, 0, 3, 5), 32, Fit::Unfit),
    Step::Fit(1, (0, 64, 3, 2), 32, Fit::Unfit),
    Step::Fit(1, (0, 65, 3, 5), 32, Fit::Unfit),
    // Too far ahead, whatever else is wrong.
    Step::Fit(256, (0, 65, 3, 2), 32, Fit::Away),
    Step::Fit(255, (0, 64, 3, 5), 32, Fit::Taken),
    // No room, whatever else is wrong.
    Step::Fit(1, (0, 64, 3, 5), 32, Fit::Away),
    Step::Fit(1, (0, 65, 3, 2), 32, Fit::Away),
    Step::Fit(1, (65, 64, 3, 5), 0, Fit::Away),
    Step::Fit(1, (64, 64, 3, 5), 0, Fit::Taken),
    // One that is over is known, whatever it says; and its room is free.
    Step::LoseBefore(1, 0),
    Step::Fit(0, (9, 65, 3, 2), 0, Fit::Known),
    Step::Fit(256, (0, 64, 3, 5), 32, Fit::Taken),
];

#[test]
fn the_information_of_a_stream_gets_its_word(rt: HostRuntime) -> Result<(), Fail> {
    let steps = FITS;
    play(&rt, rt.alloc(), SIZES, &steps)?;
    Ok(())
}

/// Answers to a stream's symbols: the first that applies. If three symbols of a block are the same, all are.
const PUTS: [Step; 37] = [
    Step::Segment((0, 0, 0), (1, 0, 7), 9, Put::Away),
    Step::Fit(0, (0, 64, 3, 5), 32, Fit::Taken),
    Step::Segment((256, 0, 0), (1, 0, 7), 9, Put::Away),
    // There is room for four blocks, whatever else is wrong.
    Step::Segment((0, 4, 0), (1, 0, 7), 9, Put::Away),
    Step::Segment((0, 4, 9), (65, 0, 7), 9, Put::Away),
    // No such symbol; a length above 64; octets that are missing, or too many.
    Step::Segment((0, 0, 5), (64, 0, 7), 72, Put::Unfit),
    Step::Segment((0, 3, 255), (64, 0, 7), 72, Put::Unfit),
    Step::Segment((0, 0, 0), (65, 0, 7), 73, Put::Unfit),
    Step::Segment((0, 0, 0), (2, 0, 7), 9, Put::Unfit),
    Step::Segment((0, 0, 0), (0, 0, 7), 9, Put::Unfit),
    Step::Segment((0, 0, 0), (0, 0, 7), 7, Put::Unfit),
    // Parity has 72 octets.
    Step::Segment((0, 0, 3), (1, 0, 7), 71, Put::Unfit),
    Step::Segment((0, 0, 3), (1, 0, 7), 73, Put::Unfit),
    Step::Segment((0, 0, 0), (1, 0, 7), 9, Put::Kept),
    Step::Missing(0, 0, Missing::Short { wanted: 2 }),
    // It is held, whatever else is wrong.
    Step::Segment((0, 0, 0), (65, 0, 7), 9, Put::Had),
    Step::Segment((0, 0, 3), (1, 0, 7), 72, Put::Kept),
    Step::FirstShort(0, Some(0)),
    Step::Segment((0, 0, 4), (1, 0, 7), 72, Put::Kept),
    Step::Missing(0, 0, Missing::Done),
    Step::FirstShort(0, Some(1)),
    // Its block is done, whatever else is wrong.
    Step::Segment((0, 0, 1), (65, 0, 7), 9, Put::Had),
    Step::Segment((0, 0, 9), (1, 0, 7), 9, Put::Had),
    Step::Advance,
    Step::Up(Handed::Open(0)),
    Step::Up(Handed::Segment(0, 0, 1, 7)),
    Step::Up(Handed::Segment(0, 0, 1, 7)),
    Step::Up(Handed::Segment(0, 0, 1, 7)),
    Step::Up(Handed::Nothing),
    Step::HandUp((0, 1, 0)),
    // Its block was handed up whole; and there is room for a block more.
    Step::Segment((0, 0, 1), (65, 0, 7), 9, Put::Had),
    Step::Segment((0, 4, 0), (1, 0, 7), 9, Put::Kept),
    Step::Segment((0, 5, 0), (1, 0, 7), 9, Put::Away),
    Step::LoseBefore(1, 0),
    Step::Up(Handed::Lost(0)),
    Step::Segment((0, 9, 9), (65, 0, 7), 9, Put::Had),
    Step::HasLost(true),
];

#[test]
fn a_symbol_of_a_stream_gets_its_word(rt: HostRuntime) -> Result<(), Fail> {
    let steps = PUTS;
    play(&rt, rt.alloc(), SIZES, &steps)?;
    Ok(())
}

/// A stream of 130 octets in blocks of four: segments of 1, 64, 64 and 1 octets, and its end. They come in disorder, and the first, the
/// third and the end come twice.
const SEGMENTS: [Step; 29] = [
    Step::Fit(0, (1024, 64, 4, 6), 32, Fit::Taken),
    Step::Segment((0, 0, 0), (1, 0, 0x41), 9, Put::Kept),
    Step::Advance,
    Step::Up(Handed::Open(0)),
    Step::Up(Handed::Segment(0, 0, 1, 0x41)),
    Step::Up(Handed::Nothing),
    Step::HandUp((0, 0, 1)),
    Step::Segment((0, 0, 0), (1, 0, 0x41), 9, Put::Had),
    Step::Segment((0, 0, 2), (64, 65, 0x43), 72, Put::Kept),
    Step::Advance,
    Step::Up(Handed::Nothing),
    Step::Segment((0, 0, 1), (64, 1, 0x42), 72, Put::Kept),
    Step::Segment((0, 0, 2), (64, 65, 0x43), 72, Put::Had),
    Step::Advance,
    Step::Up(Handed::Segment(0, 1, 64, 0x42)),
    Step::Up(Handed::Segment(0, 65, 64, 0x43)),
    Step::Up(Handed::Nothing),
    Step::HandUp((0, 0, 3)),
    Step::End(0, None),
    Step::Segment((0, 1, 0), (0, 130, 0), 8, Put::Kept),
    Step::End(0, Some((1, 0))),
    Step::Advance,
    Step::Up(Handed::Nothing),
    Step::Segment((0, 0, 3), (1, 129, 0x43), 9, Put::Kept),
    Step::Segment((0, 1, 0), (0, 130, 0), 8, Put::Had),
    Step::Advance,
    Step::Up(Handed::Segment(0, 129, 1, 0x43)),
    Step::Up(Handed::End(0)),
    Step::HandUp((1, 0, 0)),
];

#[test]
fn segments_are_handed_up_in_order_and_once(rt: HostRuntime) -> Result<(), Fail> {
    let steps = SEGMENTS;
    play(&rt, rt.alloc(), (64, 4, 6, 2000, 4), &steps)?;
    Ok(())
}

/// The octets of a known block of three source symbols and two of parity.
const KNOWN: [u8; 5] = [0x01, 0x04, 0x10, 0x40, 0x1d];

/// Offers a symbol of a block whose segments have 64 octets. Its offset and its first octet are the known one.
fn known(symbol: u8, word: Put) -> Step {
    let octet = KNOWN[usize::from(symbol % 5)];
    Step::Segment((0, 0, symbol % 5), (64, octet, octet), 72, word)
}

/// Returns calls in which three of the five symbols come in this order, each twice. After each, all that can be is handed up.
fn in_order(first: u8, second: u8, third: u8) -> [Step; 16] {
    [
        Step::Fit(0, (0, 64, 3, 5), 32, Fit::Taken),
        known(first, Put::Kept),
        known(first, Put::Had),
        Step::Advance,
        known(second, Put::Kept),
        known(second, Put::Had),
        Step::Advance,
        known(third, Put::Kept),
        known(third, Put::Had),
        Step::Advance,
        Step::Up(Handed::Open(0)),
        Step::Up(Handed::Segment(0, 0x01, 64, 0x01)),
        Step::Up(Handed::Segment(0, 0x04, 64, 0x04)),
        Step::Up(Handed::Segment(0, 0x10, 64, 0x10)),
        Step::Up(Handed::Nothing),
        Step::HandUp((0, 1, 0)),
    ]
}

#[test]
fn any_three_of_five_symbols_give_the_segments_in_any_order(rt: HostRuntime) -> Result<(), Fail> {
    for order in 0..125u8 {
        let (first, second, third) = (order / 25, order / 5 % 5, order % 5);
        if first != second && first != third && second != third {
            let steps = in_order(first, second, third);
            play(&rt, rt.alloc(), SIZES, &steps)?;
        }
    }
    Ok(())
}

/// The octets of a known block of two source symbols and two of parity.
const KNOWN_OF_TWO: [u8; 4] = [0x01, 0x02, 0x04, 0x08];

/// Offers a symbol of a block of two segments of 64 octets. Its offset and its first octet are the known one.
fn known_of_two(symbol: u8, word: Put) -> Step {
    let octet = KNOWN_OF_TWO[usize::from(symbol % 4)];
    Step::Segment((0, 0, symbol % 4), (64, octet, octet), 72, word)
}

/// Returns calls in which two of the four symbols come in this order, each twice. After each, all that can be is handed up.
fn two_in_order(first: u8, second: u8) -> [Step; 12] {
    [
        Step::Fit(0, (0, 64, 2, 4), 32, Fit::Taken),
        known_of_two(first, Put::Kept),
        known_of_two(first, Put::Had),
        Step::Advance,
        known_of_two(second, Put::Kept),
        known_of_two(second, Put::Had),
        Step::Advance,
        Step::Up(Handed::Open(0)),
        Step::Up(Handed::Segment(0, 0x01, 64, 0x01)),
        Step::Up(Handed::Segment(0, 0x02, 64, 0x02)),
        Step::Up(Handed::Nothing),
        Step::HandUp((0, 1, 0)),
    ]
}

#[test]
fn any_two_of_four_symbols_give_the_segments_in_any_order(rt: HostRuntime) -> Result<(), Fail> {
    for order in 0..16u8 {
        let (first, second) = (order / 4, order % 4);
        if first != second {
            let steps = two_in_order(first, second);
            play(&rt, rt.alloc(), (64, 2, 4, 1600, 4), &steps)?;
        }
    }
    Ok(())
}

/// A stream whose end is known by parity, not by the end's own symbol. All three segments have no octets, so the parity is the same as they
/// are.
const END_BY_PARITY: [Step; 9] = [
    Step::Fit(0, (0, 64, 3, 5), 32, Fit::Taken),
    Step::Segment((0, 0, 3), (0, 9, 0), 72, Put::Kept),
    Step::Segment((0, 0, 2), (0, 9, 0), 8, Put::Kept),
    Step::End(0, Some((0, 2))),
    Step::Segment((0, 0, 4), (0, 9, 0), 72, Put::Kept),
    Step::End(0, Some((0, 0))),
    Step::Advance,
    Step::Up(Handed::Open(0)),
    Step::Up(Handed::End(0)),
];

#[test]
fn an_end_is_known_by_parity(rt: HostRuntime) -> Result<(), Fail> {
    let steps = END_BY_PARITY;
    play(&rt, rt.alloc(), SIZES, &steps)?;
    Ok(())
}

/// The sender's window begins within a stream. Segments that are next and are held are handed up. If the next segment is in a block before
/// the window and is not held, the rest of the stream is lost.
const CUT_OFF: [Step; 21] = [
    Step::Fit(0, (0, 64, 3, 5), 32, Fit::Taken),
    Step::Segment((0, 0, 0), (1, 0, 7), 9, Put::Kept),
    Step::Segment((0, 0, 1), (1, 1, 8), 9, Put::Kept),
    Step::Segment((0, 0, 2), (1, 2, 9), 9, Put::Kept),
    Step::Segment((0, 1, 1), (1, 4, 9), 9, Put::Kept),
    Step::LoseBefore(0, 1),
    Step::Up(Handed::Open(0)),
    Step::Up(Handed::Segment(0, 0, 1, 7)),
    Step::Up(Handed::Segment(0, 1, 1, 8)),
    Step::Up(Handed::Segment(0, 2, 1, 9)),
    Step::Up(Handed::Nothing),
    Step::HandUp((0, 1, 0)),
    Step::HasLost(false),
    Step::LoseBefore(0, 1),
    Step::HandUp((0, 1, 0)),
    Step::LoseBefore(0, 2),
    Step::Up(Handed::Lost(0)),
    Step::Up(Handed::Nothing),
    Step::HandUp((1, 0, 0)),
    Step::HasLost(true),
    Step::Segment((0, 1, 0), (1, 3, 9), 9, Put::Had),
];

#[test]
fn the_rest_of_a_stream_is_lost_where_its_next_block_went(rt: HostRuntime) -> Result<(), Fail> {
    let steps = CUT_OFF;
    play(&rt, rt.alloc(), SIZES, &steps)?;
    Ok(())
}

/// The sender's window begins after two streams: one is held to its end, one is not. An object before the window that was never seen is
/// lost. The object at the window is lost only if the window begins within it, as only a stream's can.
const LOST: [Step; 18] = [
    Step::Fit(0, (0, 64, 3, 5), 32, Fit::Taken),
    Step::Segment((0, 0, 1), (0, 1, 0), 8, Put::Kept),
    Step::Segment((0, 0, 0), (1, 0, 7), 9, Put::Kept),
    Step::Fit(1, (0, 64, 3, 5), 32, Fit::Taken),
    Step::Segment((1, 0, 0), (1, 0, 8), 9, Put::Kept),
    Step::LoseBefore(3, 0),
    Step::Up(Handed::Open(0)),
    Step::Up(Handed::Segment(0, 0, 1, 7)),
    Step::Up(Handed::End(0)),
    Step::Up(Handed::Open(1)),
    Step::Up(Handed::Segment(1, 0, 1, 8)),
    Step::Up(Handed::Lost(1)),
    Step::Up(Handed::Lost(2)),
    Step::Up(Handed::Nothing),
    Step::HandUp((3, 0, 0)),
    Step::LoseBefore(3, 1),
    Step::Up(Handed::Lost(3)),
    Step::HandUp((4, 0, 0)),
];

#[test]
fn what_is_there_of_streams_before_the_window_is_handed_up(rt: HostRuntime) -> Result<(), Fail> {
    let steps = LOST;
    play(&rt, rt.alloc(), SIZES, &steps)?;
    Ok(())
}

/// If a stream says that it has an info, it waits for it, even at a squelch, if its next segment is held.
const WITH_INFO: [Step; 11] = [
    Step::Fit(0, (0, 64, 3, 5), 36, Fit::Taken),
    Step::Segment((0, 0, 0), (1, 0, 7), 9, Put::Kept),
    Step::Advance,
    Step::LoseBefore(0, 1),
    Step::Up(Handed::Nothing),
    Step::HandUp((0, 0, 0)),
    Step::HasInfo(0, false),
    Step::Info(0, 3, Put::Kept),
    Step::Advance,
    Step::Up(Handed::Open(0)),
    Step::Up(Handed::Segment(0, 0, 1, 7)),
];

#[test]
fn a_stream_waits_for_its_info(rt: HostRuntime) -> Result<(), Fail> {
    let steps = WITH_INFO;
    play(&rt, rt.alloc(), SIZES, &steps)?;
    Ok(())
}

/// What a hold answers about a stream: its plan has all blocks that 24 bits can number, and the greatest block seen is kept once there is a
/// plan. A plan that is taken back leaves nothing.
const TOLD: [Step; 20] = [
    Step::See(0, 9),
    Step::Seen(0, None),
    Step::TakeBack(0, (0, 64, 3, 5), 32),
    Step::Flags(0, None),
    Step::Fit(0, (0, 64, 3, 5), 32, Fit::Taken),
    Step::Seen(0, Some(0)),
    Step::Blocks(0, Some(16_777_216)),
    Step::See(0, 3),
    Step::See(0, 1),
    Step::Seen(0, Some(3)),
    Step::Fit(1, (64, 64, 3, 5), 0, Fit::Taken),
    Step::See(1, 3),
    Step::Seen(1, None),
    Step::Segment((0, 2, 1), (0, 0, 0), 8, Put::Kept),
    Step::Holds((0, 2, 1), true),
    Step::Holds((0, 2, 0), false),
    Step::Missing(0, 2, Missing::Short { wanted: 2 }),
    Step::Missing(0, 9, Missing::Short { wanted: 3 }),
    Step::FirstShort(0, Some(0)),
    Step::End(0, Some((2, 1))),
];

#[test]
fn what_is_held_of_a_stream_is_told(rt: HostRuntime) -> Result<(), Fail> {
    let steps = TOLD;
    play(&rt, rt.alloc(), SIZES, &steps)?;
    Ok(())
}
