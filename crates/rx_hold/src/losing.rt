//! What a squelch makes lost (RFC 5740 section 5.4.3).

ghost use Rattle.std.specs.Prelude.{ℕ, ◌≡◌, ◌==◌, ◌&&◌, ◌+◌, ◌-◌, ◌<◌, ◌≤◌, IfOk, IsTrue, OnErr};
ghost use Rattle.fec_plan.specs.Points.{point as point_at};
ghost use Rattle.norm_receive_rules.specs.Holding.{Holding};
ghost use Rattle.norm_receive_rules.specs.Losing.{is_cut_off, loses_before, loses_one, squelched};
ghost use Rattle.rx_hold.specs.EntryHold.{StandsFor, at_place};
ghost use Rattle.rx_hold.specs.FrontSound.{HasRoom, IsFront, front_view};
ghost use Rattle.rx_hold.specs.Handing.{IsSettled, cut_by_place};

use crate::front::Front;
use crate::handing_up::push;
use crate::ring::Seat;
use norm_base::Memory;
use norm_order::Up;
use std::collections::VecDeque;

/// Whether the object in the first slot is cut off if the window begins at this block of it. A stream is if its next segment is missing and
/// in an earlier block. An empty slot is if the block is above 0.
fn is_first_cut_off(ring: &VecDeque<Option<Seat>>, block: u32) -> bool
    ensures { result ≡ cut_by_place block (at_place ring.now.items 0) }
{
    match ring.front() {
        Some(Some(seat)) => seat.entry.is_cut_off(block),
        _ => block > 0,
    }
}

impl Front {
    /// Loses the object at the hand-up point, or the rest of it. It takes no memory.
    fn lose_first(&mut self)
        requires front { IsFront self.old }
        requires room { HasRoom 1 self.old }
        requires last { self.old.point < 4294967295 }
        ensures sound { IsFront self.new }
        ensures room { (n : ℕ) → HasRoom (n + 1) self.old → HasRoom n self.new }
        ensures profile { self.new.profile ≡ self.old.profile }
        ensures point { self.new.point ≡ self.old.point + 1 }
        ensures state { (s : Holding) → StandsFor (front_view self.old) s → StandsFor (front_view self.new) (loses_one s) }
    {
        let index = self.point;
        drop(self.pass_first());
        push(&mut self.ups, Up::Lost { index });
        // For good: an acknowledgement says that everything was handed up, so no later flush of the instance gets one.
        self.lost = true;
    }

    /// Hands up what is ready of the objects before an index, and loses what is left of each. Then hands up what is ready from there on.
    fn lose_all_before(&mut self, index: u32)
        requires front { IsFront self.old }
        requires room { HasRoom (index - self.old.point + 1) self.old }
        ensures sound { IsFront self.new }
        ensures room { HasRoom 1 self.new }
        ensures profile { self.new.profile ≡ self.old.profile }
        ensures state { (s : Holding) → StandsFor (front_view self.old) s
            → StandsFor (front_view self.new) (loses_before (index - s.point.index) self.old.profile index s) }
        ensures settled { IsSettled (front_view self.new) }
    {
        self.advance();
        while self.point < index {
            self.lose_first();
            self.advance();
        }
    }

    /// Whether the window begins within the object at the hand-up point, and that object is cut off.
    fn is_cut_off(&self, index: u32, block: u32) -> bool
        requires { IsFront self.now }
        ensures exact { (s : Holding) → StandsFor (front_view self.now) s
            → result ≡ (s.point.index == index && is_cut_off s (point_at index block)) }
        ensures here { IsTrue result → self.now.point ≡ index }
    {
        let cut = is_first_cut_off(&self.ring, block);
        self.point == index && cut
    }

    /// Does what [`squelch`](Front::squelch) does, after that reserved the memory.
    pub fn lose_before(&mut self, index: u32, block: u32)
        requires front { IsFront self.old }
        requires room { HasRoom (index - self.old.point + 1) self.old }
        requires last { index < 4294967295 }
        ensures sound { IsFront self.new }
        ensures profile { self.new.profile ≡ self.old.profile }
        ensures state { (s : Holding) → StandsFor (front_view self.old) s
            → StandsFor (front_view self.new) (squelched self.old.profile (point_at index block) s) }
        ensures settled { IsSettled (front_view self.new) }
    {
        self.lose_all_before(index);
        if self.is_cut_off(index, block) {
            self.lose_first();
            self.advance();
        }
    }

    /// Gives up what is missing before the sender's window, as [`Hold::lose_before`](crate::Hold::lose_before) says.
    ///
    /// # Errors
    ///
    /// `Memory` if memory runs out; then nothing changes.
    pub fn squelch(&mut self, index: u32, block: u32) -> Result<(), Memory>
        requires front { IsFront self.old }
        requires last { index < 4294967295 }
        ensures sound { IsFront self.new }
        ensures profile { self.new.profile ≡ self.old.profile }
        ensures state { IfOk result (λ _. (s : Holding) → StandsFor (front_view self.old) s
            → StandsFor (front_view self.new) (squelched self.old.profile (point_at index block) s)) }
        ensures settled { IfOk result (λ _. IsSettled (front_view self.new)) }
        ensures refused { OnErr result (front_view self.new ≡ front_view self.old) }
    {
        // Each object before the index may be lost, with one hand-up each, and one more in which the window begins.
        let gap = index.saturating_sub(self.point) as usize;
        self.reserve(gap + 1)?;
        self.lose_before(index, block);
        Ok(())
    }
}
