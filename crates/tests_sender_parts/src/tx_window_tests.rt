//! Tests of a window of objects: what is enqueued, sent, dropped and refused, and an object that goes round the end of the ring.

use crate::window_steps::{Next, Step, play};
use norm_base::Mode;
use norm_send_rules::EnqueueFault;
use std::test::Fail;

/// A window without objects.
const EMPTY: [Step; 5] = [
    Step::Send((0, 0, 0), None),
    Step::SendInfo(0, false),
    Step::IsSource((0, 0, 0), false),
    Step::First(0),
    Step::End(None),
];

#[test]
fn a_new_window_has_no_symbol(rt: HostRuntime) -> Result<(), Fail> {
    let steps = EMPTY;
    play(&rt, rt.alloc(), Mode::Hold, (64, 4, 6), (1, 64), &steps)?;
    Ok(())
}

/// The first fault that applies: no octets, too many octets, too large an info, a full window. And a stream whose buffer would be too
/// large: 16 blocks of four segments.
const OFFERS: [Step; 10] = [
    Step::Opens(Err(EnqueueFault::TooBig { len: 4096 })),
    Step::Enqueue(65, 0, Err(EnqueueFault::Empty)),
    Step::Enqueue(65, 193, Err(EnqueueFault::TooBig { len: 193 })),
    Step::Enqueue(65, 192, Err(EnqueueFault::InfoTooBig { len: 65 })),
    Step::Enqueue(64, 128, Ok(0)),
    Step::Enqueue(65, 65, Err(EnqueueFault::InfoTooBig { len: 65 })),
    Step::Enqueue(0, 193, Err(EnqueueFault::TooBig { len: 193 })),
    Step::Enqueue(0, 65, Err(EnqueueFault::WindowFull { first: 0 })),
    Step::Enqueue(0, 64, Ok(1)),
    Step::Enqueue(0, 1, Err(EnqueueFault::WindowFull { first: 0 })),
];

#[test]
fn the_first_fault_counts(rt: HostRuntime) -> Result<(), Fail> {
    let steps = OFFERS;
    play(&rt, rt.alloc(), Mode::Hold, (64, 4, 6), (2, 192), &steps)?;
    Ok(())
}

/// An object that was sent stays until every receiver is listed past it.
const HELD: [Step; 7] = [
    Step::Enqueue(0, 1, Ok(0)),
    Step::Send((0, 0, 0), Some((1, 1))),
    Step::Enqueue(0, 1, Err(EnqueueFault::WindowFull { first: 0 })),
    Step::Past((0, 0, 0)),
    Step::Enqueue(0, 1, Ok(1)),
    Step::Send((0, 0, 0), None),
    Step::Send((1, 0, 0), Some((1, 1))),
];

#[test]
fn an_object_is_held_until_all_are_past_it(rt: HostRuntime) -> Result<(), Fail> {
    let steps = HELD;
    play(&rt, rt.alloc(), Mode::Hold, (64, 4, 6), (1, 64), &steps)?;
    Ok(())
}

/// An object stays until its source symbols and its info were sent. A parity symbol that was not sent does not keep it.
const UNSENT: [Step; 10] = [
    Step::Enqueue(3, 128, Ok(0)),
    Step::Send((0, 0, 0), Some((64, 1))),
    Step::Send((0, 0, 2), Some((64, 4))),
    Step::Send((0, 0, 3), None),
    Step::SendInfo(0, true),
    Step::Enqueue(0, 64, Err(EnqueueFault::WindowFull { first: 0 })),
    Step::Send((0, 0, 1), Some((64, 2))),
    Step::Enqueue(0, 64, Ok(1)),
    Step::SendInfo(0, false),
    Step::Send((0, 0, 2), None),
];

#[test]
fn an_object_is_kept_until_it_was_sent(rt: HostRuntime) -> Result<(), Fail> {
    let steps = UNSENT;
    play(&rt, rt.alloc(), Mode::Drop, (64, 4, 6), (1, 192), &steps)?;
    Ok(())
}

/// An object that needs the room of two others, only one of which may be dropped.
const REFUSED: [Step; 13] = [
    Step::Enqueue(0, 64, Ok(0)),
    Step::Enqueue(0, 64, Ok(1)),
    Step::Enqueue(0, 64, Ok(2)),
    Step::SendAll(0),
    Step::SendAll(1),
    Step::SendAll(2),
    Step::Past((0, 0, 0)),
    Step::Enqueue(0, 128, Err(EnqueueFault::WindowFull { first: 0 })),
    Step::First(0),
    Step::Send((0, 0, 0), Some((64, 1))),
    Step::Past((1, 0, 0)),
    Step::Enqueue(0, 128, Ok(3)),
    Step::First(2),
];

#[test]
fn a_refused_object_drops_nothing(rt: HostRuntime) -> Result<(), Fail> {
    let steps = REFUSED;
    play(&rt, rt.alloc(), Mode::Hold, (64, 4, 6), (3, 192), &steps)?;
    Ok(())
}

/// An object of 257 octets in blocks of 3 and 2 source symbols, before and after it is dropped.
const DROPPED: [Step; 20] = [
    Step::Enqueue(0, 257, Ok(0)),
    Step::Send((0, 0, 2), Some((64, 4))),
    Step::Send((0, 0, 3), Some((64, 8))),
    Step::Send((0, 0, 4), None),
    Step::Send((0, 1, 1), Some((1, 16))),
    Step::Send((0, 1, 2), Some((64, 32))),
    Step::Send((0, 1, 3), None),
    Step::Send((0, 2, 0), None),
    Step::Send((1, 0, 0), None),
    Step::SendAll(0),
    Step::Enqueue(0, 1, Ok(1)),
    Step::Send((0, 0, 2), None),
    Step::IsSource((0, 0, 2), true),
    Step::IsSource((0, 0, 3), false),
    Step::IsSource((0, 1, 1), true),
    Step::IsSource((0, 1, 2), false),
    Step::IsSource((0, 2, 0), false),
    Step::IsSource((1, 0, 0), true),
    Step::IsSource((2, 0, 0), false),
    Step::End(Some((1, 0, 0))),
];

#[test]
fn a_dropped_object_keeps_its_place(rt: HostRuntime) -> Result<(), Fail> {
    let steps = DROPPED;
    play(&rt, rt.alloc(), Mode::Drop, (64, 4, 6), (1, 257), &steps)?;
    Ok(())
}

/// A ring of six symbols. The second object is in the last two slots and the first two.
const ROUND: [Step; 9] = [
    Step::Enqueue(0, 256, Ok(0)),
    Step::SendAll(0),
    Step::Enqueue(0, 256, Ok(1)),
    Step::Send((1, 0, 0), Some((64, 1))),
    Step::Send((1, 0, 1), Some((64, 2))),
    Step::Send((1, 0, 2), Some((64, 4))),
    Step::Send((1, 0, 3), Some((64, 8))),
    Step::Send((1, 0, 4), Some((64, 16))),
    Step::Send((1, 0, 5), Some((64, 32))),
];

#[test]
fn an_object_goes_round_the_end_of_the_ring(rt: HostRuntime) -> Result<(), Fail> {
    let steps = ROUND;
    play(&rt, rt.alloc(), Mode::Drop, (64, 4, 6), (2, 256), &steps)?;
    Ok(())
}

/// A ring of 1,499 symbols. The third file, of 749 symbols, is in the last slot and the first 748.
const THIRD: [Step; 13] = [
    Step::Enqueue(0, 1_048_576, Ok(0)),
    Step::SendAll(0),
    Step::Past((0, 3, 186)),
    Step::Enqueue(0, 1_048_576, Ok(1)),
    Step::Enqueue(0, 1_048_576, Ok(2)),
    Step::First(1),
    Step::Send((2, 0, 0), Some((1400, 1))),
    Step::Send((2, 0, 1), Some((1400, 2))),
    Step::Send((2, 0, 187), Some((1400, 8))),
    Step::Send((2, 1, 0), Some((1400, 16))),
    Step::Send((2, 3, 186), Some((1376, 16))),
    Step::Send((1, 0, 0), Some((1400, 1))),
    Step::Send((1, 3, 186), Some((1376, 16))),
];

#[test]
fn a_third_file_goes_round_the_end_of_the_ring(rt: HostRuntime) -> Result<(), Fail> {
    let steps = THIRD;
    play(
        &rt,
        rt.alloc(),
        Mode::Hold,
        (1400, 200, 255),
        (2, 2_097_152),
        &steps,
    )?;
    Ok(())
}

/// What messages say of objects, and what is new next: infos and symbols in order, with one parity symbol after the sources of each block.
const NEXT: [Step; 17] = [
    Step::About(0, None),
    Step::NextFrom(0, None),
    Step::Enqueue(3, 257, Ok(0)),
    Step::Enqueue(0, 64, Ok(1)),
    Step::About(0, Some((257, 20, 2))),
    Step::About(1, Some((64, 16, 1))),
    Step::About(2, None),
    Step::NextFrom(0, Some(Next::InfoOf(0))),
    Step::NextAt((0, 0, 0), Some(Next::SymbolAt((0, 0, 0)))),
    Step::NextAt((0, 0, 3), Some(Next::SymbolAt((0, 1, 0)))),
    Step::NextAt((0, 1, 1), Some(Next::SymbolAt((0, 1, 1)))),
    Step::NextAt((0, 1, 2), Some(Next::SymbolAt((1, 0, 0)))),
    Step::NextFrom(1, Some(Next::SymbolAt((1, 0, 0)))),
    Step::NextAt((1, 0, 1), None),
    Step::Fault(65, 0, Some(EnqueueFault::Empty)),
    Step::Fault(0, 64, Some(EnqueueFault::WindowFull { first: 0 })),
    Step::First(0),
];

#[test]
fn what_is_new_comes_in_order(rt: HostRuntime) -> Result<(), Fail> {
    let steps = NEXT;
    play(&rt, rt.alloc(), Mode::Hold, (64, 4, 6), (2, 321), &steps)?;
    Ok(())
}

/// After a restart the window is empty, and the next object has index 0.
const RESTART: [Step; 9] = [
    Step::Enqueue(0, 128, Ok(0)),
    Step::SendAll(0),
    Step::Clear,
    Step::End(None),
    Step::IsSource((0, 0, 0), false),
    Step::Fault(0, 128, None),
    Step::Enqueue(0, 128, Ok(0)),
    Step::Fault(0, 1, Some(EnqueueFault::WindowFull { first: 0 })),
    Step::Send((0, 0, 1), Some((64, 2))),
];

#[test]
fn a_restart_leaves_nothing(rt: HostRuntime) -> Result<(), Fail> {
    let steps = RESTART;
    play(&rt, rt.alloc(), Mode::Drop, (64, 4, 6), (1, 128), &steps)?;
    Ok(())
}

/// The extents of the last 32,769 objects are kept.
const LONG: [Step; 5] = [
    Step::Many(70_000),
    Step::First(69_999),
    Step::IsSource((37_231, 0, 0), true),
    Step::IsSource((69_999, 0, 0), true),
    Step::End(Some((69_999, 0, 0))),
];

#[test]
fn an_instance_may_be_long(rt: HostRuntime) -> Result<(), Fail> {
    let steps = LONG;
    play(&rt, rt.alloc(), Mode::Drop, (64, 4, 6), (1, 65_536), &steps)?;
    Ok(())
}

/// The largest object.
const LARGEST: [Step; 4] = [
    Step::Enqueue(0, 16_777_216, Ok(0)),
    Step::Send((0, 59, 198), Some((1016, 128))),
    Step::Send((0, 59, 253), None),
    Step::End(Some((0, 59, 198))),
];

#[test]
fn the_largest_object_is_taken(rt: HostRuntime) -> Result<(), Fail> {
    let steps = LARGEST;
    play(
        &rt,
        rt.alloc(),
        Mode::Hold,
        (1400, 200, 255),
        (1, 16_777_216),
        &steps,
    )?;
    Ok(())
}
