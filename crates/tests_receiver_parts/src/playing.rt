//! Plays a table of calls of a [`Hold`], each with its expected answer. A test lists [`Step`]s and gives them to [`play`].

ghost use Rattle.std.specs.Prelude.{◌≡◌, nat_lt};
ghost use Rattle.fec_plan.specs.Points.{point as point_at, point_before, point_of};

use fec_plan::{PayloadId, Point, Position};
use norm_base::{Given, Key, Kind, Memory, Octets, Profile};
use norm_ext::Fti;
use norm_order::Up;
use norm_receive_rules::{Fit, Missing, Put};
use rx_hold::Hold;
use std::alloc::Global;
use std::process::Abort;

/// A symbol: the index of its object, its block, and its id.
pub type At = (u32, u16, u8);

/// Transmission information: the octets of the object and of a symbol, and the source and encoded symbols of a block.
pub type Cut = (u64, u16, u8, u8);

/// A profile: the octets of a symbol, the source and encoded symbols of a block, the most octets that are held, and the blocks of a
/// stream's buffer.
pub type Sizes = (u32, u32, u32, u32, u32);

/// The most octets of a payload.
const MOST: usize = 1408;

/// A hand-up, with its object's index. Octets are told by their number and the first of them, a segment by its offset too.
#[derive(Clone, Copy, Debug, PartialEq, Eq)]
pub enum Handed {
    Object(u32, usize, u8),
    Open(u32),
    Segment(u32, u32, usize, u8),
    End(u32),
    Lost(u32),
    Nothing,
}

/// A call of a hold, with its expected answer.
#[derive(Clone, Copy, Debug)]
pub enum Step {
    /// Offers an object's transmission information and flags.
    Fit(u32, Cut, u8, Fit),
    /// Takes up an object with these flags, and takes it back.
    TakeBack(u32, Cut, u8),
    /// Offers a symbol of this many octets. The first has this value, the others are 0.
    Put(At, usize, u8, Put),
    /// Offers a stream's symbol of this many octets. Its header has this length and offset, and this octet follows.
    Segment(At, (u8, u8, u8), usize, Put),
    /// Offers all source symbols of the largest object. Its first 44 blocks have 200, the other 16 have 199.
    PutLargest,
    /// Offers an info of this many octets.
    Info(u32, usize, Put),
    /// Reports that a block was seen.
    See(u32, u16),
    Advance,
    /// Loses what is incomplete before this block of this object.
    LoseBefore(u32, u32),
    Clear,
    Up(Handed),
    /// Expects the known object of three symbols as the next hand-up.
    UpThree(u32),
    /// Expects the known object of two symbols as the next hand-up.
    UpTwo(u32),
    /// Expects this hand-up point.
    HandUp(At),
    HasLost(bool),
    Flags(u32, Option<u8>),
    HasInfo(u32, bool),
    Blocks(u32, Option<u32>),
    FirstShort(u32, Option<u32>),
    Missing(u32, u32, Missing),
    Holds(At, bool),
    /// Expects this block as the greatest that was seen of the stream.
    Seen(u32, Option<u32>),
    /// Expects the end of the stream at this block and symbol.
    End(u32, Option<(u32, u8)>),
}

/// Returns the answer to transmission information, or `None` if the call's contract does not allow it.
pub fn fit(hold: &mut Hold, index: u32, cut: Cut, flags: u8) -> Result<Option<Fit>, Memory> {
    let (l, e, b, max_n) = cut;
    if l > 16_777_216 || index == u32::MAX {
        return Ok(None);
    }
    let fti = Fti { l, e, b, max_n };
    Ok(Some(hold.fti(index, &fti, flags)?))
}

/// Takes up an object and takes it back. Returns whether it was taken up.
fn is_taken_back(hold: &mut Hold, index: u32, cut: Cut, flags: u8) -> Result<bool, Memory> {
    let (l, e, b, max_n) = cut;
    if l > 16_777_216 || index == u32::MAX {
        return Ok(false);
    }
    let fti = Fti { l, e, b, max_n };
    let word = hold.fti(index, &fti, flags)?;
    if word != Fit::Taken {
        return Ok(false);
    }
    hold.untake(index);
    Ok(true)
}

/// Returns the answer to this many octets of `payload` as a symbol, or `None` if there are fewer.
fn put(hold: &mut Hold, at: At, payload: &[u8], octets: usize) -> Result<Option<Put>, Memory> {
    let (index, block, symbol) = at;
    if octets > payload.len() {
        return Ok(None);
    }
    let block = u32::from(block);
    let word = hold.put(index, PayloadId { block, symbol }, &payload[..octets])?;
    Ok(Some(word))
}

/// Returns the answer to a symbol with this first octet.
fn put_first(hold: &mut Hold, at: At, octets: usize, first: u8) -> Result<Option<Put>, Memory> {
    let mut payload = [0; MOST];
    payload[0] = first;
    put(hold, at, &payload, octets)
}

/// Returns the answer to a symbol of a stream.
fn put_segment(
    hold: &mut Hold,
    at: At,
    says: (u8, u8, u8),
    octets: usize,
) -> Result<Option<Put>, Memory> {
    let (len, offset, first) = says;
    let mut payload = [0; MOST];
    payload[1] = len;
    payload[7] = offset;
    payload[8] = first;
    put(hold, at, &payload, octets)
}

/// Whether each source symbol of a block of the largest object is kept. The object's last symbol is shorter.
fn keeps_block(hold: &mut Hold, block: u16) -> Result<bool, Memory> {
    let sources = if block < 44 { 200u8 } else { 199 };
    for symbol in 0..sources {
        let octets = if block == 59 && symbol == 198 {
            1016
        } else {
            1400
        };
        if put_first(hold, (0, block, symbol), octets, 7)? != Some(Put::Kept) {
            return Ok(false);
        }
    }
    Ok(true)
}

/// Whether each source symbol of the largest object is kept.
fn keeps_largest(hold: &mut Hold) -> Result<bool, Memory> {
    for block in 0..60u16 {
        if !keeps_block(hold, block)? {
            return Ok(false);
        }
    }
    Ok(true)
}

/// Returns the answer to an info, or `None` if it is longer than 80 octets.
fn put_info(hold: &mut Hold, index: u32, octets: usize) -> Result<Option<Put>, Memory> {
    let info = [9; 80];
    if octets > 80 {
        return Ok(None);
    }
    let word = hold.put_info(index, &info[..octets])?;
    Ok(Some(word))
}

/// Reports that a block was seen. Always true.
fn see(hold: &mut Hold, index: u32, block: u16) -> bool {
    hold.see(Point {
        index,
        block: u32::from(block),
    });
    true
}

/// Returns the number of octets, and the first of them.
fn front_of(octets: &Octets) -> (usize, u8) {
    let bytes = octets.bytes();
    (bytes.len(), bytes.first().copied().unwrap_or(0))
}

/// Returns the next hand-up.
fn next_up(hold: &mut Hold) -> Handed {
    match hold.next_up() {
        Some(Up::Object { index, bytes, .. }) => {
            let (len, first) = front_of(&bytes);
            Handed::Object(index, len, first)
        }
        Some(Up::StreamOpen { index }) => Handed::Open(index),
        Some(
            Up::StreamBytes {
                index,
                offset,
                bytes,
            },
        ) => {
            let (len, first) = front_of(&bytes);
            Handed::Segment(index, offset, len, first)
        }
        Some(Up::StreamEnd { index }) => Handed::End(index),
        Some(Up::Lost { index }) => Handed::Lost(index),
        None => Handed::Nothing,
    }
}

/// Returns the known object of three symbols: 64 octets, 64 octets, and one.
fn three_symbols() -> [u8; 129] {
    let mut octets = [0; 129];
    octets[0] = 0x01;
    octets[64] = 0x04;
    octets[128] = 0x10;
    octets
}

/// Returns the known object of two symbols: 64 octets, and one.
fn two_symbols() -> [u8; 65] {
    let mut octets = [0; 65];
    octets[0] = 0x01;
    octets[64] = 0x02;
    octets
}

/// Whether the next hand-up is a data object of these octets, without an info.
fn is_known(hold: &mut Hold, wanted: u32, octets: &[u8]) -> bool {
    match hold.next_up() {
        Some(
            Up::Object {
                index,
                kind: Kind::Data,
                info: None,
                bytes,
            },
        ) => index == wanted && bytes.bytes() == octets,
        _ => false,
    }
}

/// Loses what is incomplete before a block. Returns `false` if the call's contract does not allow it.
fn lose_before(hold: &mut Hold, index: u32, block: u32) -> Result<bool, Memory> {
    if index == u32::MAX {
        return Ok(false);
    }
    hold.lose_before(index, block)?;
    Ok(true)
}

/// Whether the hand-up point is this one.
fn is_at(hold: &Hold, at: At) -> bool {
    let (index, block, symbol) = at;
    let place = hold.hand_up();
    place.index == index && place.block == u32::from(block) && place.symbol == symbol
}

/// Whether an object was handed up or lost: it is before the hand-up point.
pub fn is_over(hold: &Hold, index: u32) -> bool
    ensures { result ≡ nat_lt index hold.now.point.index }
{
    index < hold.hand_up().index
}

/// Whether a block was handed up in full: it is before the hand-up point's block.
fn is_passed(hold: &Hold, index: u32, block: u32) -> bool
    ensures { result ≡ point_before (point_at index block) (point_of hold.now.point) }
{
    let place = hold.hand_up();
    index < place.index || index == place.index && block < place.block
}

/// Returns the flags of an object, if it has a plan and is not over.
pub fn flags(hold: &Hold, index: u32) -> Option<u8> {
    if is_over(hold, index) {
        return None;
    }
    hold.flags(index)
}

fn has_info(hold: &Hold, index: u32) -> bool {
    !is_over(hold, index) && hold.has_info(index)
}

/// Returns the number of blocks of an object, if it has a plan and is not over.
fn blocks(hold: &Hold, index: u32) -> Option<u32> {
    if is_over(hold, index) {
        return None;
    }
    match hold.plan(index) {
        Some(plan) => Some(plan.blocks()),
        None => None,
    }
}

/// Returns the first block that lacks symbols, of an object that is not over.
fn first_short(hold: &Hold, index: u32) -> Option<u32> {
    if is_over(hold, index) {
        return None;
    }
    hold.first_short(index)
}

/// Returns what a block still needs, or `None` if the call's contract does not allow it.
fn missing(hold: &Hold, index: u32, block: u32) -> Option<Missing> {
    if is_over(hold, index) || is_passed(hold, index, block) {
        return None;
    }
    let Some(plan) = hold.plan(index) else {
        return None;
    };
    if block >= plan.blocks() {
        return None;
    }
    Some(hold.missing(index, block))
}

/// Whether a symbol is held. `false` if its block was handed up in full.
fn holds(hold: &Hold, at: At) -> bool {
    let (index, block, symbol) = at;
    let block = u32::from(block);
    !is_passed(hold, index, block)
        && hold.holds(Position {
            index,
            block,
            symbol,
        })
}

/// Returns the greatest block that was seen of a stream that is not over.
fn seen(hold: &Hold, index: u32) -> Option<u32> {
    if is_over(hold, index) {
        return None;
    }
    hold.seen(index)
}

/// Returns the block and symbol of a stream's end, if it is known and the stream is not over.
fn end(hold: &Hold, index: u32) -> Option<(u32, u8)> {
    if is_over(hold, index) {
        return None;
    }
    hold.end(index).map(|id| (id.block, id.symbol))
}

/// Makes a call that reads. Returns whether it gave the expected answer.
fn tells(hold: &Hold, step: Step) -> bool {
    match step {
        Step::HandUp(at) => is_at(hold, at),
        Step::HasLost(answer) => hold.has_lost() == answer,
        Step::Flags(index, answer) => flags(hold, index) == answer,
        Step::HasInfo(index, answer) => has_info(hold, index) == answer,
        Step::Blocks(index, answer) => blocks(hold, index) == answer,
        Step::FirstShort(index, answer) => first_short(hold, index) == answer,
        Step::Missing(index, block, answer) => missing(hold, index, block) == Some(answer),
        Step::Holds(at, answer) => holds(hold, at) == answer,
        Step::Seen(index, answer) => seen(hold, index) == answer,
        Step::End(index, answer) => end(hold, index) == answer,
        _ => false,
    }
}

/// Makes a call that hands up, loses or clears. Returns whether it gave the expected answer.
fn moves(hold: &mut Hold, step: Step) -> Result<bool, Memory> {
    match step {
        Step::Advance => {
            hold.advance();
            Ok(true)
        }
        Step::LoseBefore(index, block) => lose_before(hold, index, block),
        Step::Clear => {
            hold.clear();
            Ok(true)
        }
        Step::Up(up) => Ok(next_up(hold) == up),
        Step::UpThree(index) => Ok(is_known(hold, index, &three_symbols())),
        Step::UpTwo(index) => Ok(is_known(hold, index, &two_symbols())),
        _ => Ok(tells(hold, step)),
    }
}

/// Makes a call. Returns whether it gave the expected answer.
fn does(hold: &mut Hold, step: Step) -> Result<bool, Memory> {
    match step {
        Step::Fit(index, cut, flags, word) => Ok(fit(hold, index, cut, flags)? == Some(word)),
        Step::TakeBack(index, cut, flags) => is_taken_back(hold, index, cut, flags),
        Step::Put(at, octets, first, word) => Ok(put_first(hold, at, octets, first)? == Some(word)),
        Step::Segment(at, says, octets, word) => Ok(
            put_segment(hold, at, says, octets)? == Some(word),
        ),
        Step::PutLargest => keeps_largest(hold),
        Step::Info(index, octets, word) => Ok(put_info(hold, index, octets)? == Some(word)),
        Step::See(index, block) => Ok(see(hold, index, block)),
        _ => moves(hold, step),
    }
}

/// Returns a profile of these sizes.
pub fn profile_of(rt: &impl Abort, sizes: Sizes) -> Profile {
    let (e, b, max_n, octets, blocks) = sizes;
    let mut given = Given::new();
    for (key, value) in [
        (Key::E, e),
        (Key::B, b),
        (Key::MaxN, max_n),
        (Key::Octets, octets),
        (Key::Blocks, blocks),
    ] {
        given.set(key, value);
    }
    Profile::of(&given).expect(rt, "a profile")
}

/// Makes the calls in order, of one hold for a profile of these sizes. A wrong answer fails the test.
pub fn play(rt: &impl Abort, alloc: Global, sizes: Sizes, steps: &[Step]) -> Result<(), Memory> {
    let profile = profile_of(rt, sizes);
    let mut hold = Hold::new(alloc, &profile)?;
    for (place, step) in steps.iter().enumerate() {
        let is_so = does(&mut hold, *step)?;
        assert!(rt; is_so, "call {place}: {step:?}");
    }
    Ok(())
}
