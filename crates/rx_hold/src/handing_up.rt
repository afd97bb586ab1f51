//! Handing up in transport order (RFC 5740 section 5.2): what is ready of the object in the first slot.

ghost use Rattle.std.specs.Prelude.{ℕ, ◌≡◌, ◌==◌, ◌&&◌, ◌+◌, ◌<◌, ◌≤◌, ◌++◌, ◌∷◌, [], MatchOption, IsTrue, None, Some, false, length, slice_set, true};
ghost use Rattle.std.specs.VecDeque.{deque_capacity};
ghost use Rattle.norm_receive_rules.specs.HandingUp.{handed_up};
ghost use Rattle.norm_receive_rules.specs.Holding.{Holding};
ghost use Rattle.rx_hold.specs.EntryHold.{StandsFor, at_place};
ghost use Rattle.rx_hold.specs.FrontSound.{HasRoom, IsFront, front_view, point_of_front};
ghost use Rattle.rx_hold.specs.Handing.{HandsFirst, HandsOn, IsPast, IsSettled, has_stream, has_whole, is_end_up, is_stream, left_in, object_of, shifted, told_ups, told_with, up_of};
ghost use Rattle.rx_hold.specs.Seats.{octets_at, waiting_at};

use crate::entry::room_of;
use crate::front::Front;
use crate::ring::Seat;
use norm_base::Profile;
use norm_order::Up;
use std::collections::VecDeque;

impl Seat {
    /// Does what [`Entry::hand_on`](crate::entry::Entry::hand_on) does, and gives up the room for `told` hand-ups if it handed up.
    fn hand_on(&mut self, told: usize) -> Option<Up>
        requires { is_stream self.old.entry ≡ true → told ≤ self.old.waiting }
        ensures { HandsOn self.old.entry told result self.old self.new }
    {
        let up = self.entry.hand_on()?;
        self.waiting -= told;
        Some(up)
    }
}

/// Whether the first slot has a stream.
fn is_stream_first(ring: &VecDeque<Option<Seat>>) -> bool
    ensures { result ≡ has_stream (at_place ring.now.items 0) }
{
    match ring.front() {
        Some(Some(seat)) => seat.entry.is_stream(),
        _ => false,
    }
}

/// Whether the first slot has data or a file that can be handed up.
fn is_whole_first(ring: &VecDeque<Option<Seat>>) -> bool
    ensures { result ≡ has_whole (at_place ring.now.items 0) }
{
    match ring.front() {
        Some(Some(seat)) => seat.entry.is_whole(),
        _ => false,
    }
}

/// Returns the hand-up of a whole object of data or a file. It copies no octets.
fn up_at(place: Option<Seat>) -> Up
    requires { has_whole place ≡ true }
    ensures { MatchOption (object_of place) ⊥ (λ o. result ≡ up_of o) }
{
    match place {
        Some(seat) => seat.entry.into_up(),
        // Ruled out by the clause: `is_whole_first` found an object there.
        None => unreachable!(),
    }
}

/// Returns how many octets the object in a slot counts for. 0 if the slot is empty.
pub fn octets_of(profile: &Profile, place: &Option<Seat>) -> u64
    ensures { result ≡ octets_at profile.now place.now }
{
    match place {
        Some(seat) => room_of(profile, &seat.entry.fti(), seat.entry.flags()),
        None => 0,
    }
}

/// Returns how many hand-ups of the object in a slot have room reserved. 0 if the slot is empty.
pub fn waiting_of(place: &Option<Seat>) -> usize
    ensures { result ≡ waiting_at place.now }
{
    match place {
        Some(seat) => seat.waiting,
        None => 0,
    }
}

/// Hands up the next segment or the end of a stream in the first slot if it is ready. Gives up the room for `told` hand-ups then.
// Proof: match on &mut ring[0] keeps the arm that writes nothing apart.
fn hand_on(ring: &mut VecDeque<Option<Seat>>, told: usize) -> Option<Up>
    requires some { 0 < length ring.old.items }
    requires room { has_stream (at_place ring.old.items 0) ≡ true → told ≤ waiting_at (at_place ring.old.items 0) }
    ensures items { MatchOption (at_place ring.old.items 0) ((result ≡ None) × (ring.new.items ≡ ring.old.items))
        (λ seat. (next : Seat) × (ring.new.items ≡ slice_set ring.old.items 0 (Some next)) × HandsOn seat.entry told result seat next) }
    ensures capacity { deque_capacity ring.new ≡ deque_capacity ring.old }
{
    match &mut ring[0] {
        Some(seat) => seat.hand_on(told),
        None => None,
    }
}

/// Takes the object out of the first slot, and moves the ring on by one slot.
fn shift(ring: &mut VecDeque<Option<Seat>>) -> Option<Seat>
    requires some { 0 < length ring.old.items }
    requires room { length ring.old.items ≤ deque_capacity ring.old }
    ensures first { result ≡ at_place ring.old.items 0 }
    ensures rest { ring.new.items ≡ shifted ring.old.items }
    ensures capacity { deque_capacity ring.new ≡ deque_capacity ring.old }
{
    let first = ring.pop_front();
    // It does not fail: one slot was just taken from the ring.
    ring.push_back(None).unwrap();
    match first {
        Some(seat) => seat,
        None => None,
    }
}

/// Returns how many hand-ups a segment or an end causes: two if it opens the stream, otherwise one.
fn told_with(opens: bool) -> usize
    ensures { result ≡ told_with opens }
{
    if opens {
        return 2;
    }
    1
}

fn is_end(up: &Up) -> bool
    ensures { result ≡ is_end_up up.now }
{
    match up {
        Up::StreamEnd { .. } => true,
        Up::Object { .. } | Up::StreamOpen { .. } | Up::StreamBytes { .. } | Up::Lost { .. } =>
            false,
    }
}

/// Appends a hand-up, which has room.
pub fn push(ups: &mut VecDeque<Up>, up: Up)
    requires { length ups.old.items < deque_capacity ups.old }
    ensures items { ups.new.items ≡ ups.old.items ++ up ∷ [] }
    ensures capacity { deque_capacity ups.new ≡ deque_capacity ups.old }
{
    // It does not fail: room was taken for each hand-up that may come of what is held, and `squelch` took it for each loss.
    ups.push_back(up).unwrap();
}

/// Appends a hand-up of a stream, after the stream's open if `opens`.
fn tell(ups: &mut VecDeque<Up>, opens: bool, index: u32, up: Up)
    requires { length ups.old.items + told_with opens ≤ deque_capacity ups.old }
    ensures items { ups.new.items ≡ ups.old.items ++ told_ups opens index up }
    ensures capacity { deque_capacity ups.new ≡ deque_capacity ups.old }
{
    if opens {
        push(ups, Up::StreamOpen { index });
        push(ups, up);
        return;
    }
    push(ups, up);
}

impl Front {
    /// Whether nothing of the object at the hand-up point was handed up yet.
    fn is_at_start(&self) -> bool
        ensures { result ≡ ((point_of_front self.now).block == 0 && (point_of_front self.now).symbol == 0) }
    {
        self.first_block() == 0 && self.first_symbol() == 0
    }

    /// Moves the hand-up point to the next object, and returns what was in the first slot. Its octets and hand-ups count no more.
    pub fn pass_first(&mut self) -> Option<Seat>
        requires places { 0 < length self.old.ring.items }
        requires room { length self.old.ring.items ≤ deque_capacity self.old.ring }
        requires octets { octets_at self.old.profile (at_place self.old.ring.items 0) ≤ self.old.taken }
        requires waiting { waiting_at (at_place self.old.ring.items 0) ≤ self.old.waiting }
        requires last { self.old.point < 4294967295 }
        ensures first { result ≡ at_place self.old.ring.items 0 }
        ensures past { IsPast self.old self.new }
        ensures ups { self.new.ups ≡ self.old.ups }
        ensures lost { self.new.lost ≡ self.old.lost }
    {
        let profile = self.profile;
        let first = shift(&mut self.ring);
        self.taken -= octets_of(&profile, &first);
        self.waiting -= waiting_of(&first);
        self.point += 1;
        first
    }

    /// Hands up the first object if it is there and whole. Returns whether it did.
    fn hand_up_object(&mut self) -> bool
        requires front { IsFront self.old }
        requires object { has_stream (at_place self.old.ring.items 0) ≡ false }
        ensures sound { IsFront self.new }
        ensures room { (n : ℕ) → HasRoom n self.old → HasRoom n self.new }
        ensures profile { self.new.profile ≡ self.old.profile }
        ensures forward { self.old.point ≤ self.new.point }
        ensures fewer { IsTrue result → left_in self.new < left_in self.old }
        ensures state { (s : Holding) → StandsFor (front_view self.old) s → HandsFirst result (front_view self.old) (front_view self.new) s }
        ensures settled { result ≡ false → IsSettled (front_view self.new) }
    {
        if !is_whole_first(&self.ring) {
            return false;
        }
        let first = self.pass_first();
        push(&mut self.ups, up_at(first));
        true
    }

    /// Hands up the next segment of the first object, a stream, if it is ready. With its end, goes on to the next object. Returns whether
    /// it handed up.
    fn hand_up_stream(&mut self) -> bool
        requires front { IsFront self.old }
        requires stream { has_stream (at_place self.old.ring.items 0) ≡ true }
        ensures sound { IsFront self.new }
        ensures room { (n : ℕ) → HasRoom n self.old → HasRoom n self.new }
        ensures profile { self.new.profile ≡ self.old.profile }
        ensures forward { self.old.point ≤ self.new.point }
        ensures fewer { IsTrue result → left_in self.new < left_in self.old }
        ensures state { (s : Holding) → StandsFor (front_view self.old) s → HandsFirst result (front_view self.old) (front_view self.new) s }
        ensures settled { result ≡ false → IsSettled (front_view self.new) }
    {
        let opens = self.is_at_start();
        let told = told_with(opens);
        let Some(up) = hand_on(&mut self.ring, told) else {
            return false;
        };
        self.waiting -= told;
        let ends = is_end(&up);
        tell(&mut self.ups, opens, self.point, up);
        if ends {
            drop(self.pass_first());
            return true;
        }
        true
    }

    /// Hands up what is next if it is ready. Returns whether it did. It takes no memory.
    fn hand_up_first(&mut self) -> bool
        requires { IsFront self.old }
        ensures sound { IsFront self.new }
        ensures room { (n : ℕ) → HasRoom n self.old → HasRoom n self.new }
        ensures profile { self.new.profile ≡ self.old.profile }
        ensures forward { self.old.point ≤ self.new.point }
        ensures fewer { IsTrue result → left_in self.new < left_in self.old }
        ensures state { (s : Holding) → StandsFor (front_view self.old) s → HandsFirst result (front_view self.old) (front_view self.new) s }
        ensures settled { result ≡ false → IsSettled (front_view self.new) }
    {
        if is_stream_first(&self.ring) {
            return self.hand_up_stream();
        }
        self.hand_up_object()
    }

    /// Hands up everything that is ready. It takes no memory.
    // Proof: each round leaves fewer symbols to hand up (left_in), so the bound of the rules is never met before the loop ends.
    pub fn advance(&mut self)
        requires { IsFront self.old }
        ensures sound { IsFront self.new }
        ensures room { (n : ℕ) → HasRoom n self.old → HasRoom n self.new }
        ensures profile { self.new.profile ≡ self.old.profile }
        ensures forward { self.old.point ≤ self.new.point }
        ensures state { (s : Holding) → StandsFor (front_view self.old) s → StandsFor (front_view self.new) (handed_up self.old.profile s) }
        ensures settled { IsSettled (front_view self.new) }
    {
        while self.hand_up_first() {}
    }
}
