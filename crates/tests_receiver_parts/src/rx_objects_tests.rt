//! Tests of what a receiver holds of data and files: the answer to each call, and what is handed up if symbols come in any order, and more
//! than once.

use crate::playing::{Handed, Sizes, Step, play};
use norm_receive_rules::{Fit, Missing, Put};
use std::test::Fail;

/// Blocks of two source symbols of 64 octets and two of parity. At most 200 octets are held.
const SMALL: Sizes = (64, 2, 4, 200, 2);

/// Answers to transmission information: the first that applies.
const FITS: [Step; 12] = [
    Step::Fit(0, (130, 64, 2, 4), 0, Fit::Taken),
    Step::Fit(0, (130, 64, 2, 4), 0, Fit::Known),
    Step::Fit(0, (131, 64, 2, 4), 0, Fit::Unfit),
    Step::Fit(0, (130, 65, 2, 4), 0, Fit::Unfit),
    Step::Fit(256, (1, 64, 2, 4), 0, Fit::Away),
    Step::Fit(256, (0, 65, 2, 4), 0, Fit::Away),
    Step::Fit(1, (71, 64, 2, 4), 0, Fit::Away),
    Step::Fit(1, (0, 64, 2, 4), 0, Fit::Unfit),
    Step::Fit(1, (70, 65, 2, 4), 0, Fit::Unfit),
    Step::Fit(255, (70, 64, 2, 4), 4, Fit::Taken),
    Step::Fit(1, (1, 64, 2, 4), 0, Fit::Away),
    Step::Fit(255, (70, 64, 2, 4), 4, Fit::Known),
];

#[test]
fn transmission_information_gets_its_word(rt: HostRuntime) -> Result<(), Fail> {
    let steps = FITS;
    play(&rt, rt.alloc(), SMALL, &steps)?;
    Ok(())
}

/// Answers to symbols. Object 0 has 130 octets: a block of 2 source symbols, and one of 1, which has 2 octets. Then it is handed up.
const PUTS: [Step; 28] = [
    Step::Fit(0, (130, 64, 2, 4), 0, Fit::Taken),
    Step::Put((1, 0, 0), 64, 7, Put::Away),
    Step::Put((256, 0, 0), 64, 7, Put::Away),
    Step::Put((0, 2, 0), 64, 7, Put::Unfit),
    Step::Put((0, 0, 4), 64, 7, Put::Unfit),
    Step::Put((0, 0, 255), 64, 7, Put::Unfit),
    Step::Put((0, 0, 0), 63, 7, Put::Unfit),
    Step::Put((0, 0, 0), 64, 7, Put::Kept),
    Step::Put((0, 0, 0), 63, 7, Put::Had),
    Step::FirstShort(0, Some(0)),
    Step::Missing(0, 0, Missing::Short { wanted: 1 }),
    Step::Put((0, 0, 3), 64, 7, Put::Kept),
    Step::Missing(0, 0, Missing::Done),
    Step::FirstShort(0, Some(1)),
    Step::Put((0, 0, 1), 64, 7, Put::Had),
    Step::Put((0, 0, 9), 1, 7, Put::Had),
    Step::Put((0, 1, 0), 64, 7, Put::Unfit),
    Step::Put((0, 1, 1), 2, 7, Put::Unfit),
    Step::Put((0, 1, 2), 64, 7, Put::Unfit),
    Step::Put((0, 1, 0), 2, 7, Put::Kept),
    Step::Put((0, 1, 0), 2, 7, Put::Had),
    Step::Put((0, 1, 1), 64, 7, Put::Had),
    Step::FirstShort(0, None),
    Step::Advance,
    Step::HandUp((1, 0, 0)),
    Step::Fit(0, (131, 65, 2, 4), 0, Fit::Known),
    Step::Put((0, 9, 9), 1, 7, Put::Had),
    Step::Fit(256, (1, 64, 2, 4), 0, Fit::Taken),
];

#[test]
fn a_symbol_gets_its_word(rt: HostRuntime) -> Result<(), Fail> {
    let steps = PUTS;
    play(&rt, rt.alloc(), SMALL, &steps)?;
    Ok(())
}

/// Answers to infos. Object 0 has none, object 1 has one of at most 64 octets.
const INFOS: [Step; 11] = [
    Step::Fit(0, (1, 64, 2, 4), 0, Fit::Taken),
    Step::Info(0, 3, Put::Unfit),
    Step::Info(1, 3, Put::Away),
    Step::Fit(1, (70, 64, 2, 4), 4, Fit::Taken),
    Step::Info(1, 65, Put::Unfit),
    Step::Info(1, 64, Put::Kept),
    Step::Info(1, 65, Put::Had),
    Step::Put((0, 0, 0), 1, 7, Put::Kept),
    Step::Advance,
    Step::Info(0, 65, Put::Had),
    Step::Info(256, 3, Put::Away),
];

#[test]
fn an_info_gets_its_word(rt: HostRuntime) -> Result<(), Fail> {
    let steps = INFOS;
    play(&rt, rt.alloc(), SMALL, &steps)?;
    Ok(())
}

/// Three copies of object 1 come, then three of object 0, then one more of object 1. Each object is handed up once, after the first copy of
/// object 0.
const THRICE: [Step; 26] = [
    Step::Fit(1, (1, 64, 2, 4), 0, Fit::Taken),
    Step::Put((1, 0, 0), 1, 2, Put::Kept),
    Step::Advance,
    Step::Fit(1, (1, 64, 2, 4), 0, Fit::Known),
    Step::Put((1, 0, 0), 1, 2, Put::Had),
    Step::Advance,
    Step::Fit(1, (1, 64, 2, 4), 0, Fit::Known),
    Step::Put((1, 0, 0), 1, 2, Put::Had),
    Step::Advance,
    Step::Up(Handed::Nothing),
    Step::Fit(0, (1, 64, 2, 4), 0, Fit::Taken),
    Step::Put((0, 0, 0), 1, 1, Put::Kept),
    Step::Advance,
    Step::Up(Handed::Object(0, 1, 1)),
    Step::Up(Handed::Object(1, 1, 2)),
    Step::Up(Handed::Nothing),
    Step::Fit(0, (1, 64, 2, 4), 0, Fit::Known),
    Step::Put((0, 0, 0), 1, 1, Put::Had),
    Step::Advance,
    Step::Fit(0, (1, 64, 2, 4), 0, Fit::Known),
    Step::Put((0, 0, 0), 1, 1, Put::Had),
    Step::Advance,
    Step::Put((1, 0, 0), 1, 2, Put::Had),
    Step::Advance,
    Step::Up(Handed::Nothing),
    Step::HasLost(false),
];

#[test]
fn objects_in_disorder_are_handed_up_once(rt: HostRuntime) -> Result<(), Fail> {
    let steps = THRICE;
    play(&rt, rt.alloc(), SMALL, &steps)?;
    Ok(())
}

/// What is incomplete before the sender's window is lost, and reported in order with the objects that are whole.
const LOST: [Step; 20] = [
    Step::Fit(1, (1, 64, 2, 4), 0, Fit::Taken),
    Step::Put((1, 0, 0), 1, 2, Put::Kept),
    Step::Fit(2, (130, 64, 2, 4), 0, Fit::Taken),
    Step::Fit(4, (1, 64, 2, 4), 0, Fit::Taken),
    Step::Put((4, 0, 0), 1, 5, Put::Kept),
    Step::Advance,
    Step::HandUp((0, 0, 0)),
    Step::LoseBefore(3, 0),
    Step::HandUp((3, 0, 0)),
    Step::LoseBefore(3, 1),
    Step::Up(Handed::Lost(0)),
    Step::Up(Handed::Object(1, 1, 2)),
    Step::Up(Handed::Lost(2)),
    Step::Up(Handed::Lost(3)),
    Step::Up(Handed::Object(4, 1, 5)),
    Step::Up(Handed::Nothing),
    Step::HasLost(true),
    Step::Clear,
    Step::HasLost(false),
    Step::HandUp((0, 0, 0)),
];

#[test]
fn what_is_not_whole_before_the_window_is_lost(rt: HostRuntime) -> Result<(), Fail> {
    let steps = LOST;
    play(&rt, rt.alloc(), SMALL, &steps)?;
    Ok(())
}

/// What a hold answers about an object of two blocks, of which the second and an info are held.
const TOLD: [Step; 16] = [
    Step::Fit(3, (130, 64, 2, 4), 4, Fit::Taken),
    Step::HasInfo(3, false),
    Step::Put((3, 1, 0), 2, 1, Put::Kept),
    Step::Info(3, 4, Put::Kept),
    Step::Flags(3, Some(4)),
    Step::Flags(4, None),
    Step::HasInfo(3, true),
    Step::Blocks(3, Some(2)),
    Step::Blocks(4, None),
    Step::FirstShort(3, Some(0)),
    Step::Missing(3, 0, Missing::Short { wanted: 2 }),
    Step::Missing(3, 1, Missing::Done),
    Step::Holds((3, 1, 0), true),
    Step::Holds((3, 1, 1), false),
    Step::Holds((3, 0, 0), false),
    Step::Holds((3, 9, 0), false),
];

#[test]
fn what_is_held_is_told(rt: HostRuntime) -> Result<(), Fail> {
    let steps = TOLD;
    play(&rt, rt.alloc(), SMALL, &steps)?;
    Ok(())
}

/// If a plan is taken back, its room is free for another.
const TAKEN_BACK: [Step; 4] = [
    Step::TakeBack(5, (200, 64, 2, 4), 0),
    Step::Fit(6, (200, 64, 2, 4), 0, Fit::Taken),
    Step::Fit(5, (1, 64, 2, 4), 0, Fit::Away),
    Step::Flags(5, None),
];

#[test]
fn a_plan_that_is_taken_back_leaves_room(rt: HostRuntime) -> Result<(), Fail> {
    let steps = TAKEN_BACK;
    play(&rt, rt.alloc(), SMALL, &steps)?;
    Ok(())
}

/// The largest object: 16,777,216 octets in blocks of up to 200 symbols of 1,400.
const LARGEST: [Step; 4] = [
    Step::Fit(0, (16_777_216, 1400, 200, 255), 0, Fit::Taken),
    Step::PutLargest,
    Step::Advance,
    Step::Up(Handed::Object(0, 16_777_216, 7)),
];

#[test]
fn the_largest_object_is_handed_up(rt: HostRuntime) -> Result<(), Fail> {
    let steps = LARGEST;
    play(&rt, rt.alloc(), (1400, 200, 255, 16_777_216, 2), &steps)?;
    Ok(())
}

/// Offers a symbol of the known block of 3 source symbols and 2 of parity. It has this first octet, and then zeros. The last source symbol
/// has only the one.
fn known_symbol(symbol: u8, word: Put) -> Step {
    match symbol {
        0 => Step::Put((0, 0, 0), 64, 0x01, word),
        1 => Step::Put((0, 0, 1), 64, 0x04, word),
        2 => Step::Put((0, 0, 2), 1, 0x10, word),
        3 => Step::Put((0, 0, 3), 64, 0x40, word),
        _ => Step::Put((0, 0, 4), 64, 0x1d, word),
    }
}

/// Returns calls in which three of the five symbols come in this order, each twice.
fn in_order(first: u8, second: u8, third: u8) -> [Step; 12] {
    [
        Step::Fit(0, (129, 64, 3, 5), 0, Fit::Taken),
        known_symbol(first, Put::Kept),
        known_symbol(first, Put::Had),
        known_symbol(second, Put::Kept),
        known_symbol(second, Put::Had),
        Step::FirstShort(0, Some(0)),
        known_symbol(third, Put::Kept),
        known_symbol(third, Put::Had),
        Step::FirstShort(0, None),
        Step::Advance,
        Step::UpThree(0),
        Step::Up(Handed::Nothing),
    ]
}

#[test]
fn any_three_of_five_symbols_give_the_object_in_any_order(rt: HostRuntime) -> Result<(), Fail> {
    for order in 0..125u8 {
        let (first, second, third) = (order / 25, order / 5 % 5, order % 5);
        if first != second && first != third && second != third {
            let steps = in_order(first, second, third);
            play(&rt, rt.alloc(), (64, 3, 5, 200, 2), &steps)?;
        }
    }
    Ok(())
}

/// Offers a symbol of the known block of 2 source symbols and 2 of parity. Its first octet is alpha to the power of its id.
fn known_of_two(symbol: u8, word: Put) -> Step {
    match symbol {
        0 => Step::Put((0, 0, 0), 64, 0x01, word),
        1 => Step::Put((0, 0, 1), 1, 0x02, word),
        2 => Step::Put((0, 0, 2), 64, 0x04, word),
        _ => Step::Put((0, 0, 3), 64, 0x08, word),
    }
}

/// Returns calls in which two of the four symbols come in this order, each twice.
fn two_in_order(first: u8, second: u8) -> [Step; 9] {
    [
        Step::Fit(0, (65, 64, 2, 4), 0, Fit::Taken),
        known_of_two(first, Put::Kept),
        known_of_two(first, Put::Had),
        Step::FirstShort(0, Some(0)),
        known_of_two(second, Put::Kept),
        known_of_two(second, Put::Had),
        Step::Advance,
        Step::UpTwo(0),
        Step::Up(Handed::Nothing),
    ]
}

#[test]
fn any_two_of_four_symbols_give_the_object_in_any_order(rt: HostRuntime) -> Result<(), Fail> {
    for order in 0..16u8 {
        let (first, second) = (order / 4, order % 4);
        if first != second {
            let steps = two_in_order(first, second);
            play(&rt, rt.alloc(), (64, 2, 4, 200, 2), &steps)?;
        }
    }
    Ok(())
}
