//! The copies that wait in a network in memory: [`Waiting`].

ghost use Rattle.std.specs.Prelude.{◌≡◌, ◌+◌, ◌≤◌, [], drop, length, OnOk, OnErr, IfSome, IfNone};
ghost use Rattle.norm_memory.specs.Waiting.{put_copies, first_of};

use crate::copy::WaitingCopy;
use std::alloc::{AllocError, Global};
use std::collections::BinaryHeap;
use std::marker::Model;

/// Copies in the order in which they are taken, and for how many more there is room. Call [`reserve`](Waiting::reserve) before [`put`](Waiting::put).
#[derive(Debug, Drop)]
pub(crate) struct Waiting {
    heap: BinaryHeap<WaitingCopy>,
}

// Proof: clauses see the copies in the order of takes. std says that a call permutes what the heap holds.
// Proof: so the sum of every function over it stays, and only one list in that order has these sums (one_in_turn).
impl Model for Waiting {
    ghost use Rattle.std.specs.Prelude.{◌-◌};
    ghost use Rattle.std.specs.BinaryHeap.{heap_items, heap_len, heap_capacity, IsHeap};
    ghost use Rattle.norm_memory.specs.Waiting.{WaitingState, in_turn, by_turn};
    ghost use Rattle.std.specs.Ordering.{flip_args};

    ghost Value = { WaitingState };

    ghost view = { λ w. record { copies = in_turn (heap_items w.heap); room = heap_capacity w.heap - heap_len w.heap } };

    ghost invariant = { λ w. IsHeap (flip_args by_turn) (heap_items w.heap) };
}

impl Waiting {
    /// Returns no copies, and room for none. It takes no memory.
    pub(crate) fn new(alloc: Global) -> Waiting
        ensures { result.copies ≡ [] }
    {
        Waiting {
            heap: BinaryHeap::new(alloc),
        }
    }

    /// Returns the copy that is taken next, which may not be ready yet. `None` if none waits.
    pub(crate) fn first(&self) -> Option<WaitingCopy>
        ensures { result ≡ first_of self.now.copies }
    {
        self.heap.peek().copied()
    }

    /// Removes and returns the copy that is taken next. `None` if none waits. The cost is logarithmic in the number of copies.
    pub(crate) fn take_first(&mut self) -> Option<WaitingCopy>
        ensures copy { result ≡ first_of self.old.copies }
        ensures rest { self.new.copies ≡ drop 1 self.old.copies }
    {
        self.heap.pop()
    }

    /// Makes room for this many more copies, so that [`put`](Waiting::put) cannot fail.
    pub(crate) fn reserve(&mut self, additional: usize) -> Result<(), AllocError>
        ensures same { self.new.copies ≡ self.old.copies }
        ensures room { OnOk result (additional ≤ self.new.room) }
    {
        self.heap.reserve(additional)
    }

    /// Puts copies among the others, in the order in which they are taken. Call [`reserve`](Waiting::reserve) for as many first.
    pub(crate) fn put(&mut self, copies: Vec<WaitingCopy>)
        requires { length copies.items ≤ self.old.room }
        ensures { self.new.copies ≡ put_copies copies.items self.old.copies }
    {
        let mut fresh = BinaryHeap::from(copies);
        // It does not fail: `reserve` was called for as many copies.
        self.heap.append(&mut fresh).unwrap();
    }

    pub(crate) fn clear(&mut self)
        ensures { self.new.copies ≡ [] }
    {
        self.heap.clear();
    }
}
