//! Tests of unions of one object or stream: what rounds of requests make wanted, requests for what is before the window, a stream whose
//! first block was dropped, and the largest object.

ghost use Rattle.std.specs.Prelude.{◌≡◌, ◌<◌, ◌^◌, ◌∷◌, [], false, true};
ghost use Rattle.norm_base.specs.Settings.{defaults};
ghost use Rattle.fec_plan.specs.Partition.{cut_of, stream_cut};
ghost use Rattle.fec_plan.specs.Points.{position};
ghost use Rattle.norm_order.specs.Shapes.{encoded_in};
ghost use Rattle.nack_union.specs.Kept.{admitted, shape_of_marked, MayRetire};

use crate::profiles::profile_of;
use fec_plan::{PayloadId, Plan, Position};
use nack_union::{Closed, Union, Want};
use norm_base::{Key, Memory, Profile};
use norm_ext::flags::{WANT_BLOCK, WANT_INFO, WANT_OBJECT, WANT_SEGMENT};
use norm_ext::{check_requests, requests_of};
use std::alloc::Global;
use std::process::Abort;

/// A symbol: the index of its object, its block, and its id.
type At = (u16, u32, u8);

/// The form numbers of requests: for items, for ranges, and for a number of missing symbols.
const ITEMS: u8 = 1;

const RANGES: u8 = 2;

const ERASURES: u8 = 3;

/// A call of a union, with its expected answer.
#[derive(Clone, Copy)]
enum Call {
    /// Requests an item, with these flags.
    Item(u8, At),
    /// Requests a range, with these flags.
    Range(u8, At, At),
    /// Requests this many symbols of a block of object 0. The block comes first.
    Count(u32, u8),
    /// Closes a round. Expects the number of new wants, and whether the round was early.
    Closes(u32, bool),
    Gives(At),
    GivesInfo(u16),
    GivesNothing,
    /// Expects whether anything is wanted.
    IsWanted(bool),
    /// Takes all wants, and expects this many.
    GivesAll(u32),
}

/// Returns the eight octets of an item.
fn spelled(at: At) -> [u8; 8] {
    let (index, block, symbol) = at;
    let [i0, i1] = index.to_be_bytes();
    let [_, b0, b1, b2] = block.to_be_bytes();
    [5, 0, i0, i1, b0, b1, b2, symbol]
}

/// Returns the octets of a request of one item.
fn request_of(form: u8, flags: u8, at: At) -> [u8; 12] {
    let [x0, x1, x2, x3, x4, x5, x6, x7] = spelled(at);
    [form, flags, 0, 8, x0, x1, x2, x3, x4, x5, x6, x7]
}

/// Returns the octets of a request of one range.
fn range_of(flags: u8, from: At, to: At) -> [u8; 20] {
    let [x0, x1, x2, x3, x4, x5, x6, x7] = spelled(from);
    let [y0, y1, y2, y3, y4, y5, y6, y7] = spelled(to);
    [
        RANGES, flags, 0, 16, x0, x1, x2, x3, x4, x5, x6, x7, y0, y1, y2, y3, y4, y5, y6, y7,
    ]
}

/// Adds the requests in these octets. Returns `false` if they are not requests.
fn add(union: &mut Union, list: &[u8]) -> bool {
    match check_requests(list, 0) {
        Ok(()) => {
            union.add(requests_of(list));
            true
        }
        Err(_) => false,
    }
}

fn close(union: &mut Union) -> Closed {
    union.close_round()
}

fn next(union: &mut Union) -> Option<Want> {
    union.next()
}

/// Takes wants until there is none, at most 100. Returns how many.
fn take_all(union: &mut Union) -> u32 {
    for count in 0..100u32 {
        if next(union).is_none() {
            return count;
        }
    }
    100
}

fn want_of(at: At) -> Want {
    let (index, block, symbol) = at;
    let [_, b0, b1, b2] = block.to_be_bytes();
    let id = PayloadId::read([b0, b1, b2, symbol]);
    Want::Symbol {
        at: Position {
            index: u32::from(index),
            block: id.block,
            symbol: id.symbol,
        },
    }
}

/// Makes a call. Returns whether it gave the expected answer.
fn does(union: &mut Union, call: Call) -> bool {
    match call {
        Call::Item(flags, at) => add(union, &request_of(ITEMS, flags, at)),
        Call::Range(flags, from, to) => add(union, &range_of(flags, from, to)),
        Call::Count(block, count) => add(
            union,
            &request_of(ERASURES, WANT_SEGMENT, (0, block, count)),
        ),
        Call::Closes(queued, early) => close(union) == Closed { queued, early },
        Call::Gives(at) => next(union) == Some(want_of(at)),
        Call::GivesInfo(index) => {
            let index = u32::from(index);
            next(union) == Some(Want::Info { index })
        }
        Call::GivesNothing => next(union).is_none(),
        Call::IsWanted(answer) => union.is_wanted() == answer,
        Call::GivesAll(count) => take_all(union) == count,
    }
}

/// Makes the calls in order. A wrong answer fails the test.
fn play(rt: &impl Abort, mut union: Union, calls: &[Call]) {
    for (place, call) in calls.iter().enumerate() {
        let is_so = does(&mut union, *call);
        assert!(rt; is_so, "call {place}");
    }
}

/// Returns a union with an object of 1,000 octets and an info. Its blocks have 6, 5 and 5 source symbols, and 2, 1 and 1 of parity.
fn three_blocks(rt: &impl Abort, alloc: Global) -> Union
    ensures first { result.kept.first ≡ 0 }
    ensures objects { result.kept.objects ≡ admitted (cut_of 1000 64 6 8) true ∷ [] }
{
    let mut union = Union::new(alloc, &Profile::default());
    let plan = Plan::of(1000, 64, 6, 8).expect(rt, "a plan");
    match union.admit(0, &plan, true) {
        Ok(()) => union,
        Err(Memory) => panic!(rt; "no memory for an object"),
    }
}

/// Wants come in order of object, info, block and symbol, each once. A range is cut to the window, and asks only for source symbols.
const ASKED: [Call; 29] = [
    Call::Item(WANT_SEGMENT, (0, 2, 5)),
    Call::Closes(1, false),
    Call::Gives((0, 2, 5)),
    Call::GivesNothing,
    Call::Item(WANT_SEGMENT, (0, 1, 1)),
    Call::Item(WANT_SEGMENT, (0, 0, 7)),
    Call::Item(WANT_SEGMENT, (0, 1, 1)),
    Call::Item(WANT_INFO, (0, 0, 0)),
    Call::GivesNothing,
    Call::Closes(3, false),
    Call::GivesInfo(0),
    Call::Gives((0, 0, 7)),
    Call::Gives((0, 1, 1)),
    Call::GivesNothing,
    Call::Range(WANT_SEGMENT, (0, 0, 0), (32_767, 16_777_215, 255)),
    Call::Closes(16, false),
    Call::GivesAll(16),
    Call::Range(WANT_INFO, (0, 0, 0), (32_767, 16_777_215, 255)),
    Call::Closes(1, false),
    Call::GivesAll(1),
    Call::Range(WANT_SEGMENT, (0, 2, 0), (0, 0, 0)),
    Call::Closes(0, false),
    Call::Range(WANT_SEGMENT, (0, 0, 5), (0, 1, 0)),
    Call::Closes(2, false),
    Call::GivesAll(2),
    Call::Range(WANT_BLOCK, (0, 0, 5), (0, 1, 0)),
    Call::Closes(11, false),
    Call::Range(WANT_SEGMENT | WANT_OBJECT, (1, 0, 0), (9, 0, 0)),
    Call::Closes(0, false),
];

#[test]
fn what_is_named_is_wanted_once_and_in_order(rt: HostRuntime) {
    let calls = ASKED;
    play(&rt, three_blocks(&rt, rt.alloc()), &calls);
}

/// Ranges that overlap, that leave out one symbol, and that have a whole block between their ends. The last symbol of a range is part of
/// it.
const RANGED: [Call; 20] = [
    Call::Range(WANT_SEGMENT, (0, 0, 3), (0, 1, 0)),
    Call::Closes(4, false),
    Call::Gives((0, 0, 3)),
    Call::Gives((0, 0, 4)),
    Call::Gives((0, 0, 5)),
    Call::Gives((0, 1, 0)),
    Call::GivesNothing,
    Call::Range(WANT_SEGMENT, (0, 0, 0), (0, 1, 1)),
    Call::Range(WANT_SEGMENT, (0, 1, 3), (0, 2, 4)),
    Call::Closes(15, false),
    Call::Item(WANT_SEGMENT, (0, 1, 2)),
    Call::Closes(1, false),
    Call::GivesAll(16),
    Call::Range(WANT_SEGMENT, (0, 0, 5), (0, 2, 0)),
    Call::Range(WANT_SEGMENT, (0, 1, 1), (0, 2, 1)),
    Call::Closes(8, false),
    Call::Gives((0, 0, 5)),
    Call::GivesAll(7),
    Call::Closes(0, false),
    Call::GivesNothing,
];

#[test]
fn ranges_ask_for_what_lies_between_their_ends(rt: HostRuntime) {
    let calls = RANGED;
    play(&rt, three_blocks(&rt, rt.alloc()), &calls);
}

/// Returns a union with an object of one block, of 4 source and 2 parity symbols, without an info.
fn one_block(rt: &impl Abort, alloc: Global) -> Union
    ensures first { result.kept.first ≡ 0 }
    ensures objects { result.kept.objects ≡ admitted (cut_of 256 64 4 6) false ∷ [] }
{
    let mut union = Union::new(alloc, &Profile::default());
    let plan = Plan::of(256, 64, 4, 6).expect(rt, "a plan");
    match union.admit(0, &plan, false) {
        Ok(()) => union,
        Err(Memory) => panic!(rt; "no memory for an object"),
    }
}

/// Returns a union with two such objects.
fn two_objects(rt: &impl Abort, alloc: Global) -> Union {
    let mut union = one_block(rt, alloc);
    let plan = Plan::of(256, 64, 4, 6).expect(rt, "a plan");
    match union.admit(1, &plan, false) {
        Ok(()) => union,
        Err(Memory) => panic!(rt; "no memory for an object"),
    }
}

/// A range goes on from one object to the next.
const ACROSS: [Call; 7] = [
    Call::Range(WANT_SEGMENT, (0, 0, 1), (1, 0, 1)),
    Call::Closes(5, false),
    Call::Gives((0, 0, 1)),
    Call::GivesAll(4),
    Call::Range(WANT_OBJECT, (0, 0, 1), (1, 0, 1)),
    Call::Closes(8, false),
    Call::GivesAll(8),
];

#[test]
fn a_range_goes_from_object_to_object(rt: HostRuntime) {
    let calls = ACROSS;
    play(&rt, two_objects(&rt, rt.alloc()), &calls);
}

/// The greatest count of a round is answered, by the lowest parity. If that was not sent yet, a further count of 1 adds nothing. For a
/// count of 3 there is too little parity, so all source symbols are wanted.
const COUNTED: [Call; 15] = [
    Call::Count(0, 0),
    Call::Closes(0, false),
    Call::Count(0, 1),
    Call::Count(0, 2),
    Call::Count(0, 1),
    Call::Closes(2, false),
    Call::Count(0, 1),
    Call::Closes(0, false),
    Call::Gives((0, 0, 4)),
    Call::Gives((0, 0, 5)),
    Call::GivesNothing,
    Call::Count(0, 3),
    Call::Closes(4, false),
    Call::Gives((0, 0, 0)),
    Call::GivesAll(3),
];

#[test]
fn counts_ask_for_parity_while_it_is_fresh(rt: HostRuntime) {
    let calls = COUNTED;
    play(&rt, one_block(&rt, rt.alloc()), &calls);
}

/// If a want was not sent yet, it answers a count.
const NAMED_AND_COUNTED: [Call; 5] = [
    Call::Item(WANT_SEGMENT, (0, 0, 4)),
    Call::Closes(1, false),
    Call::Count(0, 1),
    Call::Closes(0, false),
    Call::GivesAll(1),
];

#[test]
fn a_want_answers_a_count(rt: HostRuntime) {
    let calls = NAMED_AND_COUNTED;
    play(&rt, one_block(&rt, rt.alloc()), &calls);
}

/// Returns a symbol of the first block of object 0.
fn symbol_at(symbol: u8) -> Position
    ensures { result ≡ position 0 0 symbol }
{
    Position {
        index: 0,
        block: 0,
        symbol,
    }
}

/// Returns a union of which one parity symbol was sent.
fn parity_sent(rt: &impl Abort, alloc: Global) -> Union {
    let mut union = one_block(rt, alloc);
    union.note_sent(symbol_at(4));
    union
}

/// A parity symbol that was sent does not answer a count. If too few others are left, all source symbols are wanted.
const SENT: [Call; 9] = [
    Call::Count(0, 1),
    Call::Closes(1, false),
    Call::Gives((0, 0, 5)),
    Call::Count(0, 255),
    Call::Closes(4, false),
    Call::GivesAll(4),
    Call::Count(0, 2),
    Call::Closes(4, false),
    Call::Gives((0, 0, 0)),
];

#[test]
fn what_was_sent_is_not_fresh(rt: HostRuntime) {
    let calls = SENT;
    play(&rt, parity_sent(&rt, rt.alloc()), &calls);
}

/// Returns a union under the default profile, with an object of `len` octets without an info. Two symbols of its first block were sent.
fn two_sent(rt: &impl Abort, alloc: Global, len: u64, first: u8, second: u8) -> Union
    requires len { len < 2 ^ 48 }
    requires first { first < encoded_in (shape_of_marked (admitted (cut_of len defaults.e defaults.b defaults.max_n) false)) 0 }
    requires second { second < encoded_in (shape_of_marked (admitted (cut_of len defaults.e defaults.b defaults.max_n) false)) 0 }
{
    let profile = Profile::default();
    let mut union = Union::new(alloc, &profile);
    let plan = Plan::of(len, profile.e, profile.b, profile.max_n).expect(rt, "a plan");
    match union.admit(0, &plan, false) {
        Ok(()) => {
            union.note_sent(symbol_at(first));
            union.note_sent(symbol_at(second));
            union
        }
        Err(Memory) => panic!(rt; "no memory for an object"),
    }
}

/// If both parity symbols of four source symbols were sent, a count of one asks for all source symbols.
const ALL_SENT: [Call; 7] = [
    Call::Count(0, 1),
    Call::Closes(4, false),
    Call::Gives((0, 0, 0)),
    Call::Gives((0, 0, 1)),
    Call::Gives((0, 0, 2)),
    Call::Gives((0, 0, 3)),
    Call::GivesNothing,
];

/// If two of three parity symbols of six source symbols were sent, a count of one asks for the third.
const ONE_LEFT: [Call; 3] = [
    Call::Count(0, 1),
    Call::Closes(1, false),
    Call::Gives((0, 0, 8)),
];

#[test]
fn a_count_asks_for_parity_that_is_left(rt: HostRuntime) {
    let calls = ALL_SENT;
    play(&rt, two_sent(&rt, rt.alloc(), 4_096, 4, 5), &calls);
    let calls = ONE_LEFT;
    play(&rt, two_sent(&rt, rt.alloc(), 6_144, 6, 7), &calls);
}

/// Returns a union whose first object was dropped, and whether that removed a want.
fn dropped(rt: &impl Abort, alloc: Global) -> (Union, bool) {
    let mut union = three_blocks(rt, alloc);
    let took = union.retire(1, 0);
    (union, took)
}

/// A request for what is before the window makes its round early, and no further one.
const EARLY: [Call; 4] = [
    Call::Item(WANT_SEGMENT, (0, 0, 0)),
    Call::Item(WANT_SEGMENT, (1, 0, 0)),
    Call::Closes(0, true),
    Call::Closes(0, false),
];

#[test]
fn what_lies_before_the_window_is_early_once(rt: HostRuntime) {
    let calls = EARLY;
    let (union, took) = dropped(&rt, rt.alloc());
    assert!(rt; !took);
    play(&rt, union, &calls);
}

/// Returns a union whose last object was taken back.
fn withdrawn(rt: &impl Abort, alloc: Global) -> Union {
    let mut union = three_blocks(rt, alloc);
    union.withdraw();
    union
}

/// Returns a union that was cleared.
fn cleared(rt: &impl Abort, alloc: Global) -> Union {
    let mut union = three_blocks(rt, alloc);
    union.clear();
    union
}

/// If the window is empty, nothing is wanted.
const EMPTY: [Call; 4] = [
    Call::Item(WANT_SEGMENT, (0, 0, 0)),
    Call::Closes(0, false),
    Call::IsWanted(false),
    Call::GivesNothing,
];

#[test]
fn nothing_of_an_empty_window_is_wanted(rt: HostRuntime) {
    let calls = EMPTY;
    play(&rt, withdrawn(&rt, rt.alloc()), &calls);
    play(&rt, cleared(&rt, rt.alloc()), &calls);
}

/// Returns a union with an object of 16 MiB in symbols of 64 octets. Each block has one source symbol, and 255 encoded ones.
fn largest(rt: &impl Abort, alloc: Global) -> Union {
    let mut union = Union::new(alloc, &Profile::default());
    let plan = Plan::of(16_777_216, 64, 1, 255).expect(rt, "a plan");
    match union.admit(0, &plan, false) {
        Ok(()) => union,
        Err(Memory) => panic!(rt; "no memory for an object"),
    }
}

/// The last symbol of the largest object.
const LAST: [Call; 6] = [
    Call::Item(WANT_SEGMENT, (0, 262_143, 254)),
    Call::IsWanted(false),
    Call::Closes(1, false),
    Call::IsWanted(true),
    Call::Gives((0, 262_143, 254)),
    Call::GivesNothing,
];

#[test]
fn the_last_symbol_of_the_largest_object_is_wanted(rt: HostRuntime) {
    let calls = LAST;
    play(&rt, largest(&rt, rt.alloc()), &calls);
}

/// Returns a profile with symbols of 64 octets, in blocks of two with one parity symbol each.
fn of_two(rt: &impl Abort) -> Profile {
    profile_of(rt, &[(Key::E, 64), (Key::B, 2), (Key::MaxN, 3)])
}

/// Returns the plan of a profile's streams.
fn stream_plan(rt: &impl Abort, profile: &Profile) -> Plan
    ensures { result ≡ stream_cut profile.now.e profile.now.b profile.now.max_n }
{
    Plan::stream(profile.e, profile.b, profile.max_n).expect(rt, "a plan")
}

/// Returns a union with a stream of three closed segments: one block is full, the next is not.
fn stream(rt: &impl Abort, alloc: Global) -> Union
    ensures { MayRetire 0 1 result.kept }
{
    let profile = of_two(rt);
    let plan = stream_plan(rt, &profile);
    let mut union = Union::new(alloc, &profile);
    match union.admit_stream(0, &plan) {
        Ok(()) => {
            union.grow(0, u32::from(profile.b) + 1);
            union
        }
        Err(Memory) => panic!(rt; "no memory for a stream"),
    }
}

/// If a block is not full, only its closed segments are wanted, whether by name, by a count or in a range.
const STREAMED: [Call; 20] = [
    Call::Item(WANT_SEGMENT, (0, 0, 2)),
    Call::Item(WANT_SEGMENT, (0, 1, 2)),
    Call::Item(WANT_SEGMENT, (0, 1, 1)),
    Call::Item(WANT_SEGMENT, (0, 2, 0)),
    Call::Closes(1, false),
    Call::Gives((0, 0, 2)),
    Call::Count(0, 1),
    Call::Count(1, 1),
    Call::Count(2, 1),
    Call::Closes(2, false),
    Call::Gives((0, 0, 2)),
    Call::Gives((0, 1, 0)),
    Call::Range(WANT_SEGMENT, (0, 0, 1), (0, 9, 0)),
    Call::Closes(2, false),
    Call::Gives((0, 0, 1)),
    Call::Gives((0, 1, 0)),
    Call::Item(WANT_OBJECT, (0, 0, 0)),
    Call::Closes(3, false),
    Call::GivesAll(3),
    Call::GivesNothing,
];

#[test]
fn of_a_stream_what_is_closed_is_wanted(rt: HostRuntime) {
    let calls = STREAMED;
    play(&rt, stream(&rt, rt.alloc()), &calls);
}

/// Returns a union with a stream whose first block was dropped, and whether that removed a want.
fn moved_on(rt: &impl Abort, alloc: Global) -> (Union, bool) {
    let mut union = stream(rt, alloc);
    let took = union.retire(0, 1);
    (union, took)
}

/// A request for what is before the first block that is left is early, and nothing of it is wanted.
const FRONT_GONE: [Call; 9] = [
    Call::Item(WANT_SEGMENT, (0, 0, 1)),
    Call::Closes(0, true),
    Call::Count(0, 1),
    Call::Count(1, 2),
    Call::Closes(1, true),
    Call::Gives((0, 1, 0)),
    Call::Range(WANT_SEGMENT, (0, 0, 0), (0, 2, 0)),
    Call::Closes(1, true),
    Call::Gives((0, 1, 0)),
];

#[test]
fn what_lies_before_a_front_is_early(rt: HostRuntime) {
    let calls = FRONT_GONE;
    let (union, took) = moved_on(&rt, rt.alloc());
    assert!(rt; !took);
    play(&rt, union, &calls);
}
