//! A clock in memory: [`MemClock`]. Tests use it.

ghost use Rattle.std.specs.Prelude.{◌≡◌};
ghost use Rattle.norm_base.specs.Faults.{one_more};
ghost use Rattle.norm_memory.specs.Timing.{moment_at, told_moments};
ghost use Rattle.norm_base.specs.Told.{GainsWhereTold};

use norm_base::{Clock, Moment};
use std::marker::Model;

/// Gives the moments of a list, and after them the last one again. Gives 0 if the list is empty.
// It counts the questions and keeps no list of what it answered: a list needs memory, and `now` cannot report that memory ran out.
#[derive(Debug, Drop)]
pub struct MemClock {
    moments: Vec<Moment>,
    asked: u64,
}

impl Model for MemClock {
    ghost use Rattle.norm_memory.specs.Timing.{MemClockState};

    ghost Value = { MemClockState };

    ghost view = { λ c. record { moments = c.moments.items; asked = c.asked } };
}

impl MemClock {
    /// Returns a clock that gives these moments, one for each call of `now`. They may go back.
    pub fn of(moments: Vec<Moment>) -> MemClock
        ensures { result ≡ record { moments = moments.items; asked = 0 } }
    {
        MemClock { moments, asked: 0 }
    }

    /// Returns the moment that the next call of `now` gives. It counts no question.
    fn next_moment(&self) -> Moment
        ensures { result ≡ moment_at self.now.moments self.now.asked }
    {
        let Some(last) = self.moments.len().checked_sub(1) else {
            return Moment(0);
        };
        if self.asked < last as u64 {
            self.moments[self.asked as usize]
        } else {
            self.moments[last]
        }
    }
}

impl Clock for MemClock {
    ghost moments = { told_moments };

    fn now(&mut self) -> Moment
        ensures moment { result ≡ moment_at self.old.moments self.old.asked }
        ensures state { self.new ≡ record { moments = self.old.moments; asked = one_more self.old.asked } }
        ensures told { GainsWhereTold (told_moments self.old) (told_moments self.new) result }
    {
        let moment = self.next_moment();
        // After 2^64 questions the clock gives its last moment, as it did long before.
        self.asked = self.asked.saturating_add(1);
        moment
    }
}
