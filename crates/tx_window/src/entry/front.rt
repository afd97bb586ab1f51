//! The entries of a window in their order: whether the first ones may go, and how the last one goes on.

ghost use Rattle.std.specs.Prelude.{ℕ, ◌≡◌, ◌+◌, ◌≤◌, List, [], ◌∷◌, length, take, OnErr};
ghost use Rattle.fec_plan.specs.Points.{Position as Place, reached_by};
ghost use Rattle.norm_order.specs.Entries.{Entry, Write, End};
ghost use Rattle.norm_order.specs.Segments.{written};
ghost use Rattle.norm_base.specs.declared.node.Origin.{Origin};
ghost use Rattle.norm_send_rules.specs.SenderState.{SenderState};
ghost use Rattle.norm_send_rules.specs.Watermarks.{all_past};
ghost use Rattle.norm_send_rules.specs.Room.{may_all_go};
ghost use Rattle.tx_window.specs.EntryFront.{AreEntries, LastGoesOn, LastIsCut};
ghost use Rattle.tx_window.specs.EntryPlaces.{AllStay};
ghost use Rattle.std.specs.VecDeque.{deque_capacity};

use crate::entry::HeldEntry;
use fec_plan::Position;
use norm_base::Profile;
use norm_send_rules::EnqueueFault;
use std::collections::VecDeque;

/// Whether the first `count` entries may all go. `first` is the index of the first one, and `past` the least position that members are listed past.
pub fn may_all_go(
    held: &VecDeque<HeldEntry>,
    profile: &Profile,
    first: u32,
    past: &Option<Position>,
    count: usize,
) -> bool
    requires count { count ≤ length held.now.items }
    requires numbered { first + length held.now.items ≤ 4294967295 }
    ensures { (ring : List ℕ) (s : SenderState) (entries : List Entry) → AreEntries ring profile.now first entries s held.now.items
        → ((at : Place) → all_past s at ≡ reached_by past.now at) → result ≡ may_all_go profile.now s first (take count entries) }
{
    // Proof: by index, so that the loop's invariant speaks of this many entries.
    for place in 0..count {
        let entry = &held[place];
        if !entry.may_go(profile, first + place as u32, past) {
            return false;
        }
    }
    true
}

/// Writes octets to the open stream that is the last entry. Returns the offset of the first octet. `first` is the index of the first entry.
/// Blocks of the stream go for room only if all entries before it may go.
///
/// # Errors
///
/// `NoStream` if the last entry is no open stream, or if there is none. Otherwise why the stream takes no more. Then nothing changes.
pub fn write_last(
    held: &mut VecDeque<HeldEntry>,
    profile: &Profile,
    first: u32,
    past: &Option<Position>,
    bytes: &[u8],
) -> Result<u32, EnqueueFault>
    requires some { 1 ≤ length bytes.now }
    requires numbered { first + length held.old.items ≤ 4294967295 }
    ensures stays { AllStay held.old.items held.new.items }
    ensures room { deque_capacity held.new ≡ deque_capacity held.old }
    ensures refused { OnErr result (held.new.items ≡ held.old.items) }
    ensures goes { (ring : List ℕ) (s : SenderState) (entries : List Entry) (by : Origin) → AreEntries ring profile.now first entries s held.old.items
        → ((at : Place) → all_past s at ≡ reached_by past.now at)
        → LastGoesOn ring profile.now first entries s (Write by bytes.now ∷ []) (λ parts. length (written parts)) held.old.items held.new.items result }
{
    if held.is_empty() {
        return Err(EnqueueFault::NoStream);
    }
    let last = held.len() - 1;
    let before = may_all_go(held, profile, first, past, last);
    held[last].write(profile, first + last as u32, past, before, bytes)
}

/// Ends the open stream that is the last entry. `first` is the index of the first entry. Blocks go for room as in [`write_last`].
///
/// # Errors
///
/// As in [`write_last`].
pub fn close_last(
    held: &mut VecDeque<HeldEntry>,
    profile: &Profile,
    first: u32,
    past: &Option<Position>,
) -> Result<(), EnqueueFault>
    requires { first + length held.old.items ≤ 4294967295 }
    ensures stays { AllStay held.old.items held.new.items }
    ensures room { deque_capacity held.new ≡ deque_capacity held.old }
    ensures refused { OnErr result (held.new.items ≡ held.old.items) }
    ensures goes { (ring : List ℕ) (s : SenderState) (entries : List Entry) → AreEntries ring profile.now first entries s held.old.items
        → ((at : Place) → all_past s at ≡ reached_by past.now at)
        → LastGoesOn ring profile.now first entries s (End ∷ []) (λ parts. tt) held.old.items held.new.items result }
{
    if held.is_empty() {
        return Err(EnqueueFault::NoStream);
    }
    let last = held.len() - 1;
    let before = may_all_go(held, profile, first, past, last);
    held[last].close(profile, first + last as u32, past, before)
}

/// Closes the segment that fills, if the last entry is a stream and the segment holds octets.
pub fn cut_last(held: &mut VecDeque<HeldEntry>)
    ensures stays { AllStay held.old.items held.new.items }
    ensures room { deque_capacity held.new ≡ deque_capacity held.old }
    ensures cut { LastIsCut held.old.items held.new.items }
{
    if held.is_empty() {
        return;
    }
    let last = held.len() - 1;
    held[last].cut();
}
