//! The objects from the hand-up point on, and the hand-ups that wait to be taken. [`Hold`](crate::Hold) wraps it.

ghost use Rattle.std.specs.Prelude.{◌≡◌, ◌||◌, nat_lt, not, ◌+◌, ◌-◌, ◌<◌, ◌≤◌, ◌*◌, IfOk, OnErr, MatchOption, None, Some, length, option_copied, option_map, is_some, false, slice_set, ⊤};
ghost use Rattle.fec_plan.specs.Partition.{blocks};
ghost use Rattle.fec_plan.specs.Points.{point as point_at, point_before, point_of, position};
ghost use Rattle.norm_receive_rules.specs.Holding.{Holding};
ghost use Rattle.norm_receive_rules.specs.Plans.{holds, info_of, says_info};
ghost use Rattle.norm_receive_rules.specs.Putting.{put_info_of, put_of, with_symbol, with_info};
ghost use Rattle.norm_receive_rules.specs.Seeing.{sees_block};
ghost use Rattle.norm_receive_rules.specs.declared.words.Put.TheVariants as put_word;
ghost use Rattle.rx_hold.specs.EntryState.{entry_of};
ghost use Rattle.rx_hold.specs.EntryHold.{StandsFor, at_place, entry_at};
ghost use Rattle.rx_hold.specs.Told.{flags_at, missing_at, plan_at};
ghost use Rattle.rx_hold.specs.FrontSound.{HasRoom, IsFront, flags_in, front_view, plan_in, point_of_front, view_states};
ghost use Rattle.rx_hold.specs.Seats.{IsSeat, octets_at, states_of};

use crate::entry::Entry;
use crate::ring::{PLACES, Seat, counted, entry_at, is_stream_at, offer_at, put_info_at, see_at};
use fec_plan::{PayloadId, Plan};
use norm_base::{Memory, Octets, Profile};
use norm_ext::flags::INFO;
use norm_ext::items::has_flag;
use norm_order::Up;
use norm_receive_rules::{Missing, Put, is_over};
use rs_block::Solver;
use std::alloc::Global;
use std::collections::VecDeque;

/// The objects from the hand-up point on, and the hand-ups that were not taken yet.
// Proof: it has no model, so clauses can name the ring's capacity, which no model shows.
#[derive(Debug, Drop)]
pub struct Front {
    pub profile: Profile,
    /// The index of the object at the hand-up point, even if it was not taken up.
    pub point: u32,
    /// The 256 slots of the objects from there on. That of one which was not taken up is empty.
    pub ring: VecDeque<Option<Seat>>,
    /// The octets that the objects in the ring count for, by `room_of`.
    pub taken: u64,
    /// How many hand-ups may still come of the objects in the ring: the sum of their seats' `waiting`.
    // `ups` has room for this many beside what it holds.
    pub waiting: usize,
    /// The hand-ups that were not taken yet, in transport order.
    pub ups: VecDeque<Up>,
    /// Whether an object, or the rest of a stream, was lost in this instance.
    pub lost: bool,
}

/// Whether an info is too long, or the object's flags lack INFO.
fn is_bad_info(profile: &Profile, flags: u8, info: &[u8]) -> bool
    ensures { result ≡ (nat_lt profile.now.e (length info.now) || not (says_info flags)) }
{
    info.len() > usize::from(profile.e) || !has_flag(flags, INFO)
}

impl Front {
    /// Returns the object with an index at or after the hand-up point. `None` if it was not taken up.
    pub fn entry(&self, index: u32) -> Option<&Entry>
        requires { self.now.point ≤ index }
        ensures { option_map entry_of (option_copied result) ≡ entry_at (states_of self.now.ring.items) (index - self.now.point) }
    {
        entry_at(&self.ring, self.point, index)
    }

    /// Returns the block of the next source symbol to hand up. 0 if its object was not taken up.
    pub fn first_block(&self) -> u32
        ensures { result ≡ (point_of_front self.now).block }
    {
        match self.entry(self.point) {
            Some(entry) => entry.first_block(),
            None => 0,
        }
    }

    /// Returns the next source symbol to hand up, within its block. 0 if its object was not taken up.
    pub fn first_symbol(&self) -> u8
        ensures { result ≡ (point_of_front self.now).symbol }
    {
        match self.entry(self.point) {
            Some(entry) => entry.first_symbol(),
            None => 0,
        }
    }

    /// Reserves room for this many hand-ups beyond those that may come of what is held.
    ///
    /// # Errors
    ///
    /// `Memory` if memory runs out; then nothing changes.
    pub fn reserve(&mut self, more: usize) -> Result<(), Memory>
        requires front { IsFront self.old }
        requires few { more ≤ 4294967296 }
        ensures sound { IsFront self.new }
        ensures view { front_view self.new ≡ front_view self.old }
        ensures profile { self.new.profile ≡ self.old.profile }
        ensures point { self.new.point ≡ self.old.point }
        ensures ring { self.new.ring.items ≡ self.old.ring.items }
        ensures taken { self.new.taken ≡ self.old.taken }
        ensures room { IfOk result (λ _. HasRoom more self.new) }
    {
        self.ups.reserve(self.waiting + more)?;
        Ok(())
    }

    /// Puts an object into its free slot, and counts its octets and its hand-ups. It takes no memory.
    pub fn seat(&mut self, place: usize, seat: Seat, octets: u64)
        requires front { IsFront self.old }
        requires room { HasRoom seat.waiting self.old }
        requires place { place < 256 }
        requires free { at_place self.old.ring.items place ≡ None }
        requires new { IsSeat self.old.profile place (self.old.point + place) seat }
        requires octets { octets ≡ octets_at self.old.profile (Some seat) }
        requires within { self.old.taken + octets ≤ self.old.profile.octets }
        ensures sound { IsFront self.new }
        ensures profile { self.new.profile ≡ self.old.profile }
        ensures point { self.new.point ≡ self.old.point }
        ensures there { at_place self.new.ring.items place ≡ Some seat }
        ensures view { front_view self.new ≡ view_states self.old (slice_set (states_of self.old.ring.items) place (Some (entry_of seat.entry))) }
    {
        self.waiting += seat.waiting;
        self.ring[place] = Some(seat);
        self.taken += octets;
    }

    /// Returns how an object is cut. `None` if it was not taken up.
    pub fn plan(&self, index: u32) -> Option<Plan>
        requires front { IsFront self.now }
        requires reached { self.now.point ≤ index }
        ensures exact { result ≡ plan_in (front_view self.now) index }
        ensures state { (s : Holding) → StandsFor (front_view self.now) s → result ≡ plan_at s index }
    {
        match self.entry(index) {
            Some(entry) => Some(entry.plan()),
            None => None,
        }
    }

    /// Returns the flags with which an object was taken up. `None` if it was not.
    pub fn flags(&self, index: u32) -> Option<u8>
        requires front { IsFront self.now }
        requires reached { self.now.point ≤ index }
        ensures exact { result ≡ flags_in (front_view self.now) index }
        ensures state { (s : Holding) → StandsFor (front_view self.now) s → result ≡ flags_at s index }
    {
        match self.entry(index) {
            Some(entry) => Some(entry.flags()),
            None => None,
        }
    }

    /// Whether the info of an object is held. `false` also if it was not taken up.
    pub fn has_info(&self, index: u32) -> bool
        requires front { IsFront self.now }
        requires reached { self.now.point ≤ index }
        ensures { (s : Holding) → StandsFor (front_view self.now) s → result ≡ is_some (info_of s index) }
    {
        match self.entry(index) {
            Some(entry) => entry.has_info(),
            None => false,
        }
    }

    /// Returns what a block lacks: `Unseen` if its object was not taken up.
    pub fn missing(&self, index: u32, block: u32) -> Missing
        requires front { IsFront self.now }
        requires reached { point_before (point_at index block) (point_of (point_of_front self.now)) ≡ false }
        requires block { MatchOption (plan_in (front_view self.now) index) ⊤ (λ cut. block < blocks cut) }
        ensures { (s : Holding) → StandsFor (front_view self.now) s → result ≡ missing_at s index block }
    {
        let Some(entry) = self.entry(index) else {
            return Missing::Unseen;
        };
        let wanted = entry.lacking(block);
        if wanted == 0 {
            return Missing::Done;
        }
        Missing::Short { wanted }
    }

    /// Whether a symbol came and was kept. `false` also if its object was not taken up.
    pub fn holds(&self, index: u32, block: u32, symbol: u8) -> bool
        requires front { IsFront self.now }
        requires reached { point_before (point_at index block) (point_of (point_of_front self.now)) ≡ false }
        ensures { (s : Holding) → StandsFor (front_view self.now) s → result ≡ holds s (position index block symbol) }
    {
        match self.entry(index) {
            Some(entry) => entry.holds(block, symbol),
            None => false,
        }
    }

    /// Keeps a symbol of the object in a slot if it is new.
    ///
    /// # Errors
    ///
    /// `Memory` if memory runs out; then nothing changes.
    pub fn offer(
        &mut self,
        place: usize,
        id: PayloadId,
        payload: &[u8],
        solver: &mut Solver,
        stream_solver: &mut Solver,
    ) -> Result<Put, Memory>
        requires front { IsFront self.old }
        requires room { HasRoom 1 self.old }
        requires place { place < 256 }
        requires reached { place ≡ 0 → (point_of_front self.old).block ≤ id.block }
        requires solver { solver.old ≡ record { k = self.old.profile.b; size = self.old.profile.e } }
        requires stream_solver { stream_solver.old ≡ record { k = self.old.profile.b; size = self.old.profile.e + 8 } }
        ensures sound { IsFront self.new }
        ensures profile { self.new.profile ≡ self.old.profile }
        ensures state { IfOk result (λ word. (s : Holding) → StandsFor (front_view self.old) s
            → (word ≡ put_of self.old.profile s (position (self.old.point + place) id.block id.symbol) payload.now)
            × StandsFor (front_view self.new) (with_symbol word (position (self.old.point + place) id.block id.symbol) payload.now s)) }
        ensures refused { OnErr result (front_view self.new ≡ front_view self.old) }
        ensures solver { solver.new ≡ solver.old }
        ensures stream_solver { stream_solver.new ≡ stream_solver.old }
    {
        let is_stream = is_stream_at(&self.ring, place);
        let word = offer_at(&mut self.ring, place, id, payload, solver, stream_solver)?;
        self.waiting += counted(is_stream, word);
        Ok(word)
    }

    /// Notes that a block was seen of the object in a slot. Only a stream keeps it.
    pub fn see(&mut self, place: usize, block: u32)
        requires front { IsFront self.old }
        requires place { place < 256 }
        ensures sound { IsFront self.new }
        ensures profile { self.new.profile ≡ self.old.profile }
        ensures state { (s : Holding) → StandsFor (front_view self.old) s
            → StandsFor (front_view self.new) (sees_block (point_at (self.old.point + place) block) s) }
    {
        see_at(&mut self.ring, place, block);
    }

    /// Keeps the info of the object in a slot. It takes no memory.
    pub fn put_info(&mut self, place: usize, info: Octets)
        requires front { IsFront self.old }
        requires place { place < 256 }
        requires new { MatchOption (entry_at (states_of self.old.ring.items) place) ⊥ (λ o. o.info ≡ None) }
        ensures sound { IsFront self.new }
        ensures profile { self.new.profile ≡ self.old.profile }
        ensures state { (s : Holding) → StandsFor (front_view self.old) s
            → StandsFor (front_view self.new) (with_info put_word.Kept (self.old.point + place) info s) }
    {
        put_info_at(&mut self.ring, place, info);
    }

    /// Returns what [`keep_info`](Front::keep_info) does with an info, without keeping it.
    fn info_word(&self, index: u32, info: &[u8]) -> Put
        requires { IsFront self.now }
        ensures word { (s : Holding) → StandsFor (front_view self.now) s → result ≡ put_info_of self.now.profile s index info.now }
        ensures kept { result ≡ put_word.Kept → (self.now.point ≤ index) × MatchOption (entry_at (states_of self.now.ring.items) (index - self.now.point)) ⊥ (λ o. o.info ≡ None) }
    {
        if is_over(index, self.point) {
            return Put::Had;
        }
        let Some(entry) = self.entry(index) else {
            return Put::Away;
        };
        if entry.has_info() {
            return Put::Had;
        }
        let profile = self.profile;
        if is_bad_info(&profile, entry.flags(), info) {
            return Put::Unfit;
        }
        Put::Kept
    }

    /// Does what [`Hold::put_info`](crate::Hold::put_info) does.
    ///
    /// # Errors
    ///
    /// `Memory` if memory runs out; then nothing changes.
    pub fn keep_info(&mut self, alloc: Global, index: u32, info: &[u8]) -> Result<Put, Memory>
        requires { IsFront self.old }
        ensures sound { IsFront self.new }
        ensures profile { self.new.profile ≡ self.old.profile }
        ensures state { IfOk result (λ word. (s : Holding) → StandsFor (front_view self.old) s
            → (word ≡ put_info_of self.old.profile s index info.now) × StandsFor (front_view self.new) (with_info word index info.now s)) }
        ensures refused { OnErr result (front_view self.new ≡ front_view self.old) }
    {
        let word = self.info_word(index, info);
        if word == Put::Kept {
            let kept = Octets::of(Vec::from_slice(alloc, info)?);
            let place = (index - self.point) as usize;
            self.put_info(place, kept);
        }
        Ok(word)
    }

    /// Notes that a block of an object was seen. Only a stream in the ring keeps it.
    pub fn see_block(&mut self, index: u32, block: u32)
        requires { IsFront self.old }
        ensures sound { IsFront self.new }
        ensures profile { self.new.profile ≡ self.old.profile }
        ensures state { (s : Holding) → StandsFor (front_view self.old) s → StandsFor (front_view self.new) (sees_block (point_at index block) s) }
    {
        if is_over(index, self.point) {
            return;
        }
        let place = (index - self.point) as usize;
        if place < PLACES {
            self.see(place, block);
        }
    }

    /// Does what [`Hold::put`](crate::Hold::put) does.
    ///
    /// # Errors
    ///
    /// `Memory` if memory runs out; then nothing changes.
    pub fn put(
        &mut self,
        index: u32,
        id: PayloadId,
        payload: &[u8],
        solver: &mut Solver,
        stream_solver: &mut Solver,
    ) -> Result<Put, Memory>
        requires front { IsFront self.old }
        requires solver { solver.old ≡ record { k = self.old.profile.b; size = self.old.profile.e } }
        requires stream_solver { stream_solver.old ≡ record { k = self.old.profile.b; size = self.old.profile.e + 8 } }
        ensures sound { IsFront self.new }
        ensures profile { self.new.profile ≡ self.old.profile }
        ensures state { IfOk result (λ word. (s : Holding) → StandsFor (front_view self.old) s
            → (word ≡ put_of self.old.profile s (position index id.block id.symbol) payload.now)
            × StandsFor (front_view self.new) (with_symbol word (position index id.block id.symbol) payload.now s)) }
        ensures refused { OnErr result (front_view self.new ≡ front_view self.old) }
        ensures solver { solver.new ≡ solver.old }
        ensures stream_solver { stream_solver.new ≡ stream_solver.old }
    {
        if is_over(index, self.point) {
            return Ok(Put::Had);
        }
        let place = (index - self.point) as usize;
        if place >= PLACES {
            return Ok(Put::Away);
        }
        // These blocks were handed up and are gone, so the stream could not say whether it holds them.
        if place == 0 && id.block < self.first_block() {
            return Ok(Put::Had);
        }
        // Before the symbol is kept, so that handing it up takes no memory.
        self.reserve(1)?;
        self.offer(place, id, payload, solver, stream_solver)
    }
}
