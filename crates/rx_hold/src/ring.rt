//! The ring of 256 slots for the objects from the hand-up point on, and what is asked and done of one slot.

ghost use Rattle.std.specs.Prelude.{◌≡◌, ◌-◌, ◌<◌, ◌≤◌, [], MatchOption, IfOk, OnErr, None, Some, length, option_copied, option_map, replicate, slice_set, ⊤};
ghost use Rattle.std.specs.VecDeque.{deque_capacity};
ghost use Rattle.rx_hold.specs.EntryState.{IsOfKind, entry_of};
ghost use Rattle.rx_hold.specs.EntryHold.{at_place};
ghost use Rattle.rx_hold.specs.Seats.{Becomes, GetsWord, IsInformed, IsOffered, IsSame, IsSeen, MayOffer, counted, stream_at};

use crate::entry::Entry;
use fec_plan::PayloadId;
use norm_base::{Memory, Octets};
use norm_receive_rules::Put;
use rs_block::Solver;
use std::collections::VecDeque;

/// The most objects that are taken up from the hand-up point on.
// As many as a sender's window may have (key `window`, up to 256). An object farther ahead gets `Away`.
pub const PLACES: usize = 256;

/// An object in its slot, with a count of the hand-ups that may still come of it.
// `waiting` counts one hand-up for each symbol of a stream that was kept, and two for its open and its loss, less those that were handed
// up. Data and files take two with the object. With less room, handing up could fail for lack of memory.
#[derive(Debug, Drop)]
pub struct Seat {
    pub entry: Entry,
    /// How many further hand-ups of it have room reserved.
    pub waiting: usize,
}

/// Returns the object with this index. `None` if its slot is empty, or if it is too far ahead to have one. `point` is the index at the
/// hand-up point.
pub fn entry_at(ring: &VecDeque<Option<Seat>>, point: u32, index: u32) -> Option<&Entry>
    requires { point ≤ index }
    ensures { option_copied result ≡ option_map (λ seat. seat.entry) (at_place ring.now.items (index - point)) }
{
    match ring.get((index - point) as usize) {
        Some(Some(seat)) => Some(&seat.entry),
        _ => None,
    }
}

/// Fills an empty ring with 256 empty slots.
pub fn fill(ring: &mut VecDeque<Option<Seat>>)
    requires empty { ring.old.items ≡ [] }
    requires room { 256 ≤ deque_capacity ring.old }
    ensures items { ring.new.items ≡ replicate 256 None }
    ensures capacity { deque_capacity ring.new ≡ deque_capacity ring.old }
{
    for _ in 0..PLACES {
        // It does not fail: the ring has room for all slots, and is empty.
        ring.push_back(None).unwrap();
    }
}

/// Whether a slot has a stream. `false` also if the ring has no such slot.
pub fn is_stream_at(ring: &VecDeque<Option<Seat>>, place: usize) -> bool
    ensures { result ≡ stream_at (at_place ring.now.items place) }
{
    match ring.get(place) {
        Some(Some(seat)) => seat.entry.says_stream(),
        _ => false,
    }
}

/// Returns how many further hand-ups a symbol may cause, by what became of it: one if a stream kept it, otherwise none.
pub fn counted(is_stream: bool, word: Put) -> usize
    ensures { result ≡ counted is_stream word }
{
    if !is_stream {
        return 0;
    }
    match word {
        Put::Kept => 1,
        Put::Had | Put::Away | Put::Unfit => 0,
    }
}

impl Seat {
    /// Keeps a symbol if it is new, and counts the hand-up that it may cause.
    fn offer(
        &mut self,
        id: PayloadId,
        payload: &[u8],
        solver: &mut Solver,
        stream_solver: &mut Solver,
    ) -> Result<Put, Memory>
        requires { MayOffer self.old id.block solver.old stream_solver.old }
        ensures word { IfOk result (λ word. GetsWord (Some self.old) word id.block id.symbol payload.now) }
        ensures offered { IfOk result (λ word. IsOffered word id.block id.symbol payload.now self.old self.new) }
        ensures refused { OnErr result (IsSame self.old self.new) }
        ensures solver { solver.new ≡ solver.old }
        ensures stream_solver { stream_solver.new ≡ stream_solver.old }
    {
        let is_stream = self.entry.says_stream();
        let word = self.entry.offer(id, payload, solver, stream_solver)?;
        self.waiting += counted(is_stream, word);
        Ok(word)
    }

    fn see(&mut self, block: u32)
        requires { IsOfKind self.old.entry }
        ensures { IsSeen block self.old self.new }
    {
        self.entry.see(block);
    }

    fn put_info(&mut self, info: Octets)
        requires kind { IsOfKind self.old.entry }
        requires new { (entry_of self.old.entry).info ≡ None }
        ensures { IsInformed info self.old self.new }
    {
        self.entry.put_info(info);
    }
}

/// Keeps a symbol of the object in a slot if it is new. `Away` if the slot is empty.
pub fn offer_at(
    ring: &mut VecDeque<Option<Seat>>,
    place: usize,
    id: PayloadId,
    payload: &[u8],
    solver: &mut Solver,
    stream_solver: &mut Solver,
) -> Result<Put, Memory>
    requires place { place < length ring.old.items }
    requires may { MatchOption (at_place ring.old.items place) ⊤ (λ seat. MayOffer seat id.block solver.old stream_solver.old) }
    ensures word { IfOk result (λ word. GetsWord (at_place ring.old.items place) word id.block id.symbol payload.now) }
    ensures items { IfOk result (λ word. Becomes ring.old.items ring.new.items place (IsOffered word id.block id.symbol payload.now)) }
    ensures refused { OnErr result (Becomes ring.old.items ring.new.items place IsSame) }
    ensures capacity { deque_capacity ring.new ≡ deque_capacity ring.old }
    ensures solver { solver.new ≡ solver.old }
    ensures stream_solver { stream_solver.new ≡ stream_solver.old }
{
    match &mut ring[place] {
        Some(seat) => seat.offer(id, payload, solver, stream_solver),
        // Without a plan it is not known how the object is cut.
        None => Ok(Put::Away),
    }
}

/// Notes that a block was seen of the object in a slot, if there is one.
pub fn see_at(ring: &mut VecDeque<Option<Seat>>, place: usize, block: u32)
    requires place { place < length ring.old.items }
    requires kind { MatchOption (at_place ring.old.items place) ⊤ (λ seat. IsOfKind seat.entry) }
    ensures items { Becomes ring.old.items ring.new.items place (IsSeen block) }
    ensures capacity { deque_capacity ring.new ≡ deque_capacity ring.old }
{
    if let Some(seat) = &mut ring[place] {
        seat.see(block);
    }
}

/// Takes the object out of a slot. The caller lowers the counts of octets and hand-ups.
pub fn take_at(ring: &mut VecDeque<Option<Seat>>, place: usize) -> Option<Seat>
    requires { place < length ring.old.items }
    ensures found { result ≡ at_place ring.old.items place }
    ensures items { ring.new.items ≡ slice_set ring.old.items place None }
    ensures capacity { deque_capacity ring.new ≡ deque_capacity ring.old }
{
    ring[place].take()
}

/// Keeps the info of the object in a slot, if there is one.
pub fn put_info_at(ring: &mut VecDeque<Option<Seat>>, place: usize, info: Octets)
    requires place { place < length ring.old.items }
    requires kind { MatchOption (at_place ring.old.items place) ⊤ (λ seat. IsOfKind seat.entry) }
    requires new { MatchOption (at_place ring.old.items place) ⊤ (λ seat. (entry_of seat.entry).info ≡ None) }
    ensures items { Becomes ring.old.items ring.new.items place (IsInformed info) }
    ensures capacity { deque_capacity ring.new ≡ deque_capacity ring.old }
{
    if let Some(seat) = &mut ring[place] {
        seat.put_info(info);
    }
}
