//! The short blocks of a window.

ghost use Rattle.std.specs.Prelude.{ℕ, ◌≡◌, ◌<◌, ◌≤◌, ◌+◌, ◌^◌, IfOk, IsOk, Some, None, cond, nat_lt, length, true, false};
ghost use Rattle.short_blocks.specs.State.{IsFirstFrom, all_short, gone_on, is_short, settled};

use crate::links::{Link, join_before, join_behind, link_all, link_at, mark_done, turn};
use norm_base::Memory;
use std::alloc::Global;
use std::collections::VecDeque;
use std::marker::Model;

/// Which blocks of a window are short. A window is a span of consecutive blocks, numbered from 0 at first. A receiver asks with `first` and
/// `next`, calls `settle` when a block has enough symbols, and `advance` to move the window on past a done block. `first`, `next` and
/// `settle` take constant time.
// Eight octets a block, so that what a receiver lacks is found by one step from each short block to the next. A bit for each block would be smaller,
// but a NACK would then pass over all done blocks between two short ones, 262,142 at the most.
#[derive(Debug, Drop)]
pub struct Shorts {
    /// The window's first block, and the number after its last one.
    start: u32,
    end: u32,
    /// The first short block, or `end` if all are done.
    first: u32,
    /// The first of the done blocks at the window's end, or `end` if the last block is short.
    done_from: u32,
    /// The link of each block, in order. Empty if the window has at most one block: the fields above say all of it.
    links: VecDeque<Link>,
}

impl Model for Shorts {
    ghost use Rattle.short_blocks.specs.State.{ShortsState};

    ghost Value = { ShortsState };

    ghost use Rattle.short_blocks.specs.Sound.{IsShorts, shorts_view};

    ghost view = { shorts_view };

    ghost invariant = { IsShorts };
}

fn block_before(block: u32, end: u32) -> Option<u32>
    ensures { result ≡ cond (nat_lt block end) (Some block) None }
{
    if block < end {
        return Some(block);
    }
    None
}

impl Shorts {
    /// Returns the window of blocks 0 to `count - 1`, all short. One block, or none, takes no memory. More take eight octets for each
    /// block.
    ///
    /// # Errors
    ///
    /// `Memory` if memory runs out. It cannot for one block or none.
    pub fn new(alloc: Global, count: u32) -> Result<Shorts, Memory>
        ensures all { IfOk result (λ shorts. shorts ≡ all_short count) }
        ensures free { count ≤ 1 → IsOk result }
    {
        let links = link_all(alloc, count)?;
        Ok(Shorts {
            start: 0,
            end: count,
            first: 0,
            done_from: count,
            links,
        })
    }

    /// Returns the first short block, or `None` if all are done.
    pub fn first(&self) -> Option<u32>
        ensures { IsFirstFrom self.now self.now.start result }
    {
        block_before(self.first, self.end)
    }

    /// Returns the next short block after `block`, which is short itself. `None` if all after it are done.
    pub fn next(&self, block: u32) -> Option<u32>
        requires reached { self.now.start ≤ block }
        requires short { is_short self.now block ≡ true }
        ensures { IsFirstFrom self.now (block + 1) result }
    {
        let lone = Link {
            done_from: self.start,
            next: self.end,
        };
        let link = link_at(&self.links, (block - self.start) as usize, lone);
        block_before(link.next, self.end)
    }

    /// Marks a short block as done. The short blocks before and after it are then linked to each other.
    pub fn settle(&mut self, block: u32)
        requires reached { self.old.start ≤ block }
        requires short { is_short self.old block ≡ true }
        ensures { self.new ≡ settled block self.old }
    {
        let lone = Link {
            done_from: self.start,
            next: self.end,
        };
        let place = (block - self.start) as usize;
        let run = link_at(&self.links, place, lone);
        let first = join_before(&mut self.links, self.start, self.first, run);
        let last = join_behind(&mut self.links, self.start, self.end, self.done_from, run);
        mark_done(&mut self.links, place);
        self.first = first;
        self.done_from = last;
    }

    /// Moves the window on by one block, which is short. The first block, which leaves the window, has to be done.
    pub fn advance(&mut self)
        requires some { 0 < length self.old.short }
        requires done { is_short self.old self.old.start ≡ false }
        requires room { self.old.start + length self.old.short + 1 < 2 ^ 32 }
        ensures { self.new ≡ gone_on self.old }
    {
        let end = self.end + 1;
        let last = Link {
            done_from: self.done_from,
            next: end,
        };
        turn(&mut self.links, last);
        self.start += 1;
        self.end = end;
        self.done_from = end;
    }
}
