//! Whether each of some segments in a row was sent.

ghost use Rattle.std.specs.Prelude.{[], true, false, ◌≡◌, ◌<◌, ◌≤◌, ◌+◌, ◌-◌, ◌++◌, IfOk, IsTrue, length, nat_le, take, drop, replicate, slice_set};
ghost use Rattle.std.specs.List.{list_all};
ghost use Rattle.std.specs.VecDeque.{deque_capacity};
ghost use Rattle.stream_buffer.specs.HeldState.{run_of};

use norm_base::Memory;
use std::alloc::Global;
use std::collections::VecDeque;
use std::marker::Model;

/// A mark for each of some segments in a row. How many were sent from the first on without a gap is kept.
///
/// Call [`follow`](Marks::follow) after segments were closed or given up, and [`note`](Marks::note) after one was sent.
// `run` is kept because a write that needs room asks whether the first blocks were sent: a search could pass over thousands of marks. It is
// exactly the number of set marks at the beginning: a greater one could let a block go that was never sent.
#[derive(Debug, Drop)]
pub struct Marks {
    sent: VecDeque<bool>,
    /// How many marks from the first on are set without a gap.
    run: usize,
}

impl Model for Marks {
    ghost use Rattle.stream_buffer.specs.MarksState.{MarksState, marks_view, MarksSound};

    ghost Value = { MarksState };

    ghost view = { marks_view };

    ghost invariant = { MarksSound };
}

/// How many marks from the first on are set without a gap. Those before `from` are known to be set, and not looked at.
fn run_from(sent: &VecDeque<bool>, from: usize) -> usize
    requires { from ≤ run_of sent.now.items }
    ensures { result ≡ run_of sent.now.items }
{
    // Proof: by index, so that the loop's invariant speaks of this many marks.
    for place in from..sent.len() {
        if !sent[place] {
            return place;
        }
    }
    sent.len()
}

fn give_up(sent: &mut VecDeque<bool>, gone: usize)
    requires { gone ≤ length sent.old.items }
    ensures items { sent.new.items ≡ drop gone sent.old.items }
    ensures room { deque_capacity sent.new ≡ deque_capacity sent.old }
{
    sent.drain(..gone);
}

fn move_on(sent: &mut VecDeque<bool>, gone: usize, kept: usize)
    requires gone { gone ≤ length sent.old.items }
    requires room { kept ≤ deque_capacity sent.old }
    ensures items { sent.new.items ≡ take kept (drop gone sent.old.items) ++ replicate (kept - (length sent.old.items - gone)) false }
    ensures room { deque_capacity sent.old ≤ deque_capacity sent.new }
{
    give_up(sent, gone);
    // It does not fail: `new` took room for all segments that a stream keeps.
    sent.resize(kept, false).unwrap();
}

impl Marks {
    /// Returns no marks, with memory for `room` of them.
    ///
    /// # Errors
    ///
    /// `Memory` if memory runs out.
    pub fn new(alloc: Global, room: usize) -> Result<Marks, Memory>
        ensures { IfOk result (λ marks. (marks.sent ≡ []) × (room ≤ marks.room)) }
    {
        let sent = VecDeque::with_capacity(alloc, room)?;
        Ok(Marks { sent, run: 0 })
    }

    /// How many marks there are: one for each closed segment that was not given up.
    pub fn len(&self) -> usize
        ensures { result ≡ length self.now.sent }
    {
        self.sent.len()
    }

    /// Removes the marks of the first `gone` segments, all of which were sent, and keeps `kept` marks in all. New ones are not set.
    pub fn follow(&mut self, gone: usize, kept: usize)
        requires gone { gone ≤ run_of self.old.sent }
        requires room { kept ≤ self.old.room }
        ensures sent { self.new.sent ≡ take kept (drop gone self.old.sent) ++ replicate (kept - (length self.old.sent - gone)) false }
        ensures room { self.old.room ≤ self.new.room }
    {
        move_on(&mut self.sent, gone, kept);
        self.run = kept.min(self.run - gone);
    }

    /// Marks a segment as sent. `place` counts from the first mark.
    pub fn note(&mut self, place: usize)
        requires { place < length self.old.sent }
        ensures { self.new ≡ record (self.old) { sent = slice_set self.old.sent place true } }
    {
        self.sent[place] = true;
        // Only then the beginning gets longer. A mark further on waits until the search reaches it.
        if place == self.run {
            self.run = run_from(&self.sent, place);
        }
    }

    /// Whether the first `count` segments were all sent. Looks at no mark, because the number of set ones at the beginning is kept.
    pub fn are_sent(&self, count: usize) -> bool
        ensures { result ≡ nat_le count (run_of self.now.sent) }
    {
        count <= self.run
    }

    /// Whether all segments with a mark were sent. True if there is none.
    pub fn all_sent(&self) -> bool
        ensures { result ≡ list_all (λ b. b) self.now.sent }
    {
        self.run == self.sent.len()
    }
}
