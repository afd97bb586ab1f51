//! Room in the window (RFC 5740 section 5.1): what has to go for one more entry, and whether it may.

ghost use Rattle.std.specs.Prelude.{ℕ, ⊤, MatchOption, [], ◌∷◌, ◌++◌, true, false, Option, ◌≡◌, ◌+◌, ◌-◌, ◌<◌, ◌≤◌, ◌*◌, ◌^◌, ◌⊎◌, List, None, Some, length, map, take, drop, filter};
ghost use Rattle.std.specs.Bool.{MatchBool};
ghost use Rattle.std.specs.VecDeque.{deque_capacity};
ghost use Rattle.norm_base.specs.Settings.{Settings, InRange};
ghost use Rattle.fec_plan.specs.Points.{point};
ghost use Rattle.norm_order.specs.Entries.{Entry};
ghost use Rattle.norm_order.specs.Shapes.{shapes_of};
ghost use Rattle.norm_send_rules.specs.SenderState.{SenderState};
ghost use Rattle.norm_send_rules.specs.InWindow.{stands_behind};
ghost use Rattle.norm_send_rules.specs.Repairable.{is_stream, encoded_from};
ghost use Rattle.norm_send_rules.specs.Room.{window, size_of, has_to_go, may_all_go, can_make_room};
ghost use Rattle.norm_send_rules.specs.Enqueuing.{object_fault, info_length};
ghost use Rattle.norm_send_rules.specs.Streaming.{open_fault};
ghost use Rattle.norm_send_rules.specs.declared.fault.EnqueueFault.TheVariants.{Memory as EnqueueMemory};
ghost use Rattle.tx_window.specs.EntryFront.{AreEntries};
ghost use Rattle.tx_window.specs.EntryPlaces.{held_size};
ghost use Rattle.tx_window.specs.Making.{IsRoomMade};
ghost use Rattle.tx_window.specs.Taking.{size_fault};
ghost use Rattle.tx_window.specs.Asked.{joining_fault};
ghost use Rattle.tx_window.specs.WindowState.{Stands, first_block, most_kept, OnlyFirstLacks};
ghost use Rattle.tx_window.specs.WindowSound.{all_sizes, is_stream_held};

use crate::entry::{HeldEntry, may_all_go};
use crate::extent::{Extent, keep_extent};
use crate::window::Window;
use norm_base::Profile;
use norm_ext::LAST_INDEX;
use norm_send_rules::EnqueueFault;
use std::collections::VecDeque;

fn is_stream(entry: &HeldEntry) -> bool
    ensures { result ≡ is_stream_held entry.now }
{
    match entry {
        HeldEntry::Object(_) => false,
        HeldEntry::Stream(_) => true,
    }
}

/// How many of the entries are streams.
pub(crate) fn count_streams(held: &VecDeque<HeldEntry>) -> u32
    requires { length held.now.items ≤ 4294967295 }
    ensures { (ring : List ℕ) (p : Settings) (first : ℕ) (s : SenderState) (entries : List Entry) → AreEntries ring p first entries s held.now.items
        → result ≡ length (filter is_stream entries) }
{
    let mut streams = 0;
    // Proof: by index, so that the loop's invariant speaks of this many entries.
    for place in 0..held.len() {
        if is_stream(&held[place]) {
            streams += 1;
        }
    }
    streams
}

/// How many infos and encoded symbols the entries have, each from its first kept block on.
pub(crate) fn count_repairable(held: &VecDeque<HeldEntry>) -> u64
    requires { length held.now.items ≤ 65535 }
    ensures { (ring : List ℕ) (p : Settings) (first : ℕ) (s : SenderState) (entries : List Entry) → AreEntries ring p first entries s held.now.items
        → OnlyFirstLacks held.now.items
        → result ≡ length (filter (stands_behind (point first (first_block held.now.items))) (encoded_from first (shapes_of p entries))) }
{
    let mut repairable = 0;
    // Proof: by index, so that the loop's invariant speaks of this many entries.
    for place in 0..held.len() {
        repairable += held[place].repairable();
    }
    repairable
}

// Proof: a profile's values are within their ranges.
pub(crate) fn hold_range(profile: &Profile)
    ensures { InRange profile.now }
{
    let _value = profile.e;
}

/// How many octets of the window a stream takes: those of its buffer's segments, without their headers.
pub(crate) fn buffer_len(profile: &Profile) -> u64
    ensures exact { result ≡ profile.now.blocks * profile.now.b * profile.now.e }
    ensures range { InRange profile.now }
    ensures most { result < 2 ^ 48 }
{
    u64::from(profile.blocks) * u64::from(profile.b) * u64::from(profile.e)
}

fn most_octets(profile: &Profile) -> u64
    ensures { result ≡ profile.now.octets }
{
    u64::from(profile.octets)
}

/// How many of the first entries have to go for one of `len` octets, and how many octets the others take. All take `octets` before.
fn room_for(profile: &Profile, held: &VecDeque<HeldEntry>, octets: u32, len: u32) -> (usize, u32)
    requires octets { octets ≡ all_sizes profile.now held.now.items }
    requires most { octets ≤ profile.now.octets }
    requires len { len ≤ profile.now.octets }
    ensures count { result.0 ≤ length held.now.items }
    ensures left { result.1 ≡ all_sizes profile.now (drop result.0 held.now.items) }
    ensures few { length held.now.items - result.0 < profile.now.window }
    ensures fit { result.1 + len ≤ profile.now.octets }
    ensures exact { (entries : List Entry)
        → map (λ (x : Entry). size_of profile.now x.object) entries ≡ map (held_size profile.now) held.now.items
        → result.0 ≡ has_to_go profile.now len entries }
{
    let mut left = octets;
    // Proof: by index, so that the loop's invariant speaks of this many entries.
    for place in 0..held.len() {
        let few = held.len() - place < usize::from(profile.window);
        if few && left + len <= profile.octets {
            return (place, left);
        }
        left -= held[place].size(profile) as u32;
    }
    (held.len(), left)
}

/// Whether one more entry, of `len` octets, exceeds neither the profile's `window` entries nor its `octets`.
fn has_room(profile: &Profile, entries: usize, octets: u32, len: u32) -> bool
    requires most { octets ≤ profile.now.octets }
    requires len { len ≤ profile.now.octets }
    ensures { MatchBool result ((entries < profile.now.window) × (octets + len ≤ profile.now.octets)) ((profile.now.window ≤ entries) ⊎ (profile.now.octets < octets + len)) }
{
    if entries >= usize::from(profile.window) {
        return false;
    }
    octets + len <= profile.octets
}

/// Reserves memory for one more entry and its extent. Returns `false` if memory ran out.
// Proof: a capacity is in no model, so a function of the fields says that there is room.
fn reserve(held: &mut VecDeque<HeldEntry>, extents: &mut VecDeque<Extent>) -> bool
    ensures held { held.new.items ≡ held.old.items }
    ensures extents { extents.new.items ≡ extents.old.items }
    ensures held_room { result ≡ true → length held.new.items < deque_capacity held.new }
    ensures extents_room { result ≡ true → length extents.new.items < deque_capacity extents.new }
{
    held.reserve(1).is_ok() && extents.reserve(1).is_ok()
}

/// Drops the first `count` entries. Their extents stay.
pub(crate) fn drop_front(held: &mut VecDeque<HeldEntry>, count: usize)
    requires { count ≤ length held.old.items }
    ensures items { held.new.items ≡ drop count held.old.items }
    ensures capacity { deque_capacity held.new ≡ deque_capacity held.old }
{
    held.drain(..count);
}

/// Makes room for an entry of `len` octets: takes the memory by which the lists grow, and then drops the entries that have to go. Returns
/// how many went, and how many octets the others take. `None` if memory ran out; then none went.
pub(crate) fn make_room(
    profile: &Profile,
    held: &mut VecDeque<HeldEntry>,
    extents: &mut VecDeque<Extent>,
    octets: u32,
    len: u32,
) -> Option<(usize, u32)>
    requires octets { octets ≡ all_sizes profile.now held.old.items }
    requires most { octets ≤ profile.now.octets }
    requires len { len ≤ profile.now.octets }
    ensures made { MatchOption result (held.new.items ≡ held.old.items) (λ made. IsRoomMade profile.now len held.old.items held.new.items made.0 made.1) }
    ensures extents { extents.new.items ≡ extents.old.items }
    ensures held_room { MatchOption result ⊤ (λ _. length held.new.items < deque_capacity held.new) }
    ensures extents_room { MatchOption result ⊤ (λ _. length extents.new.items < deque_capacity extents.new) }
{
    // Memory first: an entry that was dropped cannot come back if memory then runs out.
    if !reserve(held, extents) {
        return None;
    }
    let (count, left) = room_for(profile, held, octets, len);
    drop_front(held, count);
    Some((count, left))
}

/// Adds an entry after the others, and its extent after theirs. Returns how many extents are forgotten in all.
pub(crate) fn join(
    held: &mut VecDeque<HeldEntry>,
    extents: &mut VecDeque<Extent>,
    forgotten: u32,
    entry: HeldEntry,
    extent: Extent,
) -> u32
    requires held_room { length held.old.items < deque_capacity held.old }
    requires extents_room { length extents.old.items < deque_capacity extents.old }
    requires number { forgotten < 4294967295 }
    ensures held { held.new.items ≡ held.old.items ++ entry ∷ [] }
    ensures extents { extents.new.items ≡ drop (result - forgotten) (extents.old.items ++ extent ∷ []) }
    ensures kept { (result ≡ forgotten) ⊎ ((result ≡ forgotten + 1) × (most_kept ≤ length extents.old.items)) }
{
    // It does not fail: `make_room` took the room.
    held.push_back(entry).unwrap();
    keep_extent(extents, forgotten, extent)
}

/// The first of `Empty`, `TooBig` and `InfoTooBig` that applies to an object of `len` octets with `info` octets of info.
// Proof: early returns in the order of the rules' table, so that each is answered by itself.
#[tactic(auto, unfolding(norm_order::specs::First::first_where))]
fn size_fault(profile: &Profile, info: usize, len: u64) -> Option<EnqueueFault>
    ensures exact { result ≡ size_fault profile.now info len }
    ensures memory { result ≡ Some EnqueueMemory → ⊥ }
    ensures free { result ≡ None → (1 ≤ len) × (len ≤ profile.now.octets) × (len ≤ 16777216) × (info ≤ profile.now.e) }
{
    if len == 0 {
        return Some(EnqueueFault::Empty);
    }
    if len > u64::from(profile.octets) {
        return Some(EnqueueFault::TooBig { len });
    }
    if info > usize::from(profile.e) {
        return Some(EnqueueFault::InfoTooBig { len: info as u64 });
    }
    None
}

impl Window {
    /// Whether there is a first entry that may not go. Then none may, because entries go in their order.
    fn is_held_up(&self) -> bool
        ensures { (s : SenderState) → Stands self.now s → result ≡ true → may_all_go self.now.p s self.now.dropped (take 1 (window s)) ≡ false }
    {
        if self.held.is_empty() {
            return false;
        }
        !may_all_go(&self.held, &self.profile, self.dropped, &self.past, 1)
    }

    /// Whether there is room for an entry of `len` octets, or all that has to go for it may go.
    fn can_make_room(&self, len: u32) -> bool
        requires begun { self.now.filling ≡ None }
        requires len { len ≤ self.now.p.octets }
        ensures { (s : SenderState) → Stands self.now s → result ≡ can_make_room self.now.p s len }
    {
        if has_room(&self.profile, self.held.len(), self.octets, len) {
            return true;
        }
        if self.is_held_up() {
            return false;
        }
        let (count, _) = room_for(&self.profile, &self.held, self.octets, len);
        may_all_go(&self.held, &self.profile, self.dropped, &self.past, count)
    }

    /// Why no entry of `len` octets may join the order now: the first fault that applies.
    fn joining_fault(&self, len: u32) -> Option<EnqueueFault>
        requires begun { self.now.filling ≡ None }
        requires len { len ≤ self.now.p.octets }
        ensures exact { (s : SenderState) → Stands self.now s → result ≡ joining_fault self.now.p s len }
        ensures memory { result ≡ Some EnqueueMemory → ⊥ }
        ensures free { result ≡ None → self.now.dropped + length self.now.entries < 4294967295 }
    {
        if let Some(index) = self.open_index() {
            return Some(EnqueueFault::StreamOpen { index });
        }
        if self.next_index() > LAST_INDEX {
            return Some(EnqueueFault::IdsSpent);
        }
        if !self.can_make_room(len) {
            let (first, _) = self.first();
            return Some(EnqueueFault::WindowFull { first });
        }
        None
    }

    /// Why an object of `len` octets with `info` octets of info would be refused now: the first fault that applies. Does not ask whether memory
    /// suffices.
    // By sizes alone: a command that waits is offered again and again, and a refused offer should cost neither memory nor a look at a
    // symbol.
    pub fn object_fault(&self, info: usize, len: u64) -> Option<EnqueueFault>
        requires begun { self.now.filling ≡ None }
        ensures exact { (s : SenderState) (name : Option (List ℕ)) (octets : List ℕ) → Stands self.now s → info_length name ≡ info
            → length octets ≡ len → result ≡ object_fault self.now.p s name octets }
        ensures memory { result ≡ Some EnqueueMemory → ⊥ }
        ensures free { result ≡ None → (1 ≤ len) × (len ≤ self.now.p.octets) × (len ≤ 16777216) × (info ≤ self.now.p.e) × (self.now.dropped + length self.now.entries < 4294967295) }
    {
        if let Some(fault) = size_fault(&self.profile, info, len) {
            return Some(fault);
        }
        self.joining_fault(len as u32)
    }

    /// Why a stream would not be opened now: the first fault that applies. Does not ask whether memory suffices. `TooBig` if a stream's buffer alone
    /// exceeds the window's octets.
    pub fn open_fault(&self) -> Option<EnqueueFault>
        requires begun { self.now.filling ≡ None }
        ensures exact { (s : SenderState) → Stands self.now s → result ≡ open_fault self.now.p s }
        ensures memory { result ≡ Some EnqueueMemory → ⊥ }
        ensures free { result ≡ None → (self.now.p.blocks * self.now.p.b * self.now.p.e ≤ self.now.p.octets) × (self.now.dropped + length self.now.entries < 4294967295) }
    {
        let len = buffer_len(&self.profile);
        let most = most_octets(&self.profile);
        if len > most {
            return Some(EnqueueFault::TooBig { len });
        }
        self.joining_fault(len as u32)
    }
}
