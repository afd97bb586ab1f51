//! The links between short blocks. [`Shorts`](crate::Shorts) keeps one for each block of its window, or none if the window has one block.

ghost use Rattle.std.specs.Prelude.{ℕ, ◌≡◌, ◌<◌, ◌≤◌, ◌+◌, ◌-◌, [], ◌++◌, ◌∷◌, IfOk, IsOk, length, slice_index_or};
ghost use Rattle.short_blocks.specs.Links.{all_linked};
ghost use Rattle.short_blocks.specs.declared.links.Link.{Link};
ghost use Rattle.std.specs.VecDeque.{deque_capacity};

use norm_base::Memory;
use std::alloc::Global;
use std::collections::VecDeque;

/// The links of a short block, as block numbers.
#[derive(Clone, Copy, Debug)]
pub(crate) struct Link {
    /// The first of the done blocks right before this one, or this one if there are none. It may be before the window.
    pub(crate) done_from: u32,
    /// The next short block, or the number after the window's last block. 0 if this block is done.
    pub(crate) next: u32,
}

/// Returns how many links a window of this many blocks needs. A window of one block needs none.
fn room_for(count: u32) -> u32
    ensures few { count ≤ 1 → result ≡ 0 }
    ensures many { 1 < count → result ≡ count }
{
    // The ends of the window say all that the link of one block alone would.
    if count > 1 { count } else { 0 }
}

/// Returns the links of blocks 0 to `count - 1`, all short. Empty for one block or none.
///
/// # Errors
///
/// `Memory` if memory runs out. It cannot for one block or none.
pub(crate) fn link_all(alloc: Global, count: u32) -> Result<VecDeque<Link>, Memory>
    ensures few { count ≤ 1 → IfOk result (λ links. links.items ≡ []) }
    ensures many { 1 < count → IfOk result (λ links. links.items ≡ all_linked count) }
    ensures free { count ≤ 1 → IsOk result }
{
    let room = room_for(count);
    let mut links = VecDeque::with_capacity(alloc, room as usize)?;
    // Proof: the label names the loop for its invariant.
    'linked: for block in 0..room {
        links.push_back_reserved(Link {
            done_from: block,
            next: block + 1,
        });
    }
    Ok(links)
}

/// Returns the link at this index, or `lone` if no links are kept.
pub(crate) fn link_at(links: &VecDeque<Link>, place: usize, lone: Link) -> Link
    ensures { result ≡ slice_index_or links.now.items place lone }
{
    match links.get(place) {
        Some(link) => *link,
        None => lone,
    }
}

/// Links the short block before a span of done ones to the one after it. `run` is the link of the block that is done now. Returns the
/// window's new `first`.
pub(crate) fn join_before(links: &mut VecDeque<Link>, start: u32, first: u32, run: Link) -> u32
    requires room { start < run.done_from → run.done_from - 1 - start < length links.old.items }
    ensures first { start < run.done_from → result ≡ first }
    ensures next { run.done_from ≤ start → result ≡ run.next }
    ensures length { length links.new.items ≡ length links.old.items }
    ensures joined { (place : ℕ) (d : Link) → place + start + 1 ≡ run.done_from → (slice_index_or links.new.items place d).next ≡ run.next }
    ensures others { (place : ℕ) (d : Link) → (place + start + 1 ≡ run.done_from → ⊥) → (slice_index_or links.new.items place d).next ≡ (slice_index_or links.old.items place d).next }
    ensures same { (place : ℕ) (d : Link) → (slice_index_or links.new.items place d).done_from ≡ (slice_index_or links.old.items place d).done_from }
{
    if run.done_from <= start {
        return run.next;
    }
    links[(run.done_from - 1 - start) as usize].next = run.next;
    first
}

/// Links the short block after a span of done ones to the one before it. `run` is the link of the block that is done now. Returns the
/// window's new `done_from`.
pub(crate) fn join_behind(
    links: &mut VecDeque<Link>,
    start: u32,
    end: u32,
    done_from: u32,
    run: Link,
) -> u32
    requires above { start ≤ run.next }
    requires room { run.next < end → run.next - start < length links.old.items }
    ensures last { run.next < end → result ≡ done_from }
    ensures gone { end ≤ run.next → result ≡ run.done_from }
    ensures length { length links.new.items ≡ length links.old.items }
    ensures joined { (place : ℕ) (d : Link) → place + start < end → place + start ≡ run.next → (slice_index_or links.new.items place d).done_from ≡ run.done_from }
    ensures others { (place : ℕ) (d : Link) → (place + start ≡ run.next → ⊥) → (slice_index_or links.new.items place d).done_from ≡ (slice_index_or links.old.items place d).done_from }
    ensures same { (place : ℕ) (d : Link) → (slice_index_or links.new.items place d).next ≡ (slice_index_or links.old.items place d).next }
{
    if run.next >= end {
        return run.done_from;
    }
    links[(run.next - start) as usize].done_from = run.done_from;
    done_from
}

/// Marks the block at this index as done, if links are kept.
pub(crate) fn mark_done(links: &mut VecDeque<Link>, place: usize)
    ensures length { length links.new.items ≡ length links.old.items }
    ensures done { (d : Link) → place < length links.old.items → (slice_index_or links.new.items place d).next ≡ 0 }
    ensures others { (other : ℕ) (d : Link) → (other ≡ place → ⊥) → (slice_index_or links.new.items other d).next ≡ (slice_index_or links.old.items other d).next }
    ensures same { (other : ℕ) (d : Link) → (slice_index_or links.new.items other d).done_from ≡ (slice_index_or links.old.items other d).done_from }
{
    if place < links.len() {
        links[place].next = 0;
    }
}

/// Drops the first link and appends `last`, if links are kept. Takes no memory.
pub(crate) fn turn(links: &mut VecDeque<Link>, last: Link)
    ensures length { length links.new.items ≡ length links.old.items }
    ensures moved { (place : ℕ) (d : Link) → place + 1 < length links.old.items → slice_index_or links.new.items place d ≡ slice_index_or links.old.items (place + 1) d }
    ensures last { (place : ℕ) (d : Link) → place + 1 ≡ length links.old.items → slice_index_or links.new.items place d ≡ last }
{
    if links.is_empty() {
        return;
    }
    // Put over the link that goes and then turned round, so that no room is needed.
    links[0] = last;
    links.rotate_left(1);
}
