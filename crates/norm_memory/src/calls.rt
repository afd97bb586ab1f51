//! Which calls of an object in memory fail: [`CallCount`].

ghost use Rattle.std.specs.Prelude.{◌≡◌, [], true, false};
ghost use Rattle.norm_memory.specs.Calls.{next_fails, after_call, restarted};
ghost use Rattle.norm_base.specs.Faults.{Counts};

use std::marker::Model;

/// Counts the calls of an object, and says which of them fail. In each call ask [`next_fails`](CallCount::next_fails), and then call
/// [`fail`](CallCount::fail) or [`pass`](CallCount::pass).
#[derive(Debug, Drop)]
pub(crate) struct CallCount {
    failing: Vec<u64>,
    made: u64,
    faults: u64,
}

impl Model for CallCount {
    ghost use Rattle.norm_memory.specs.Calls.{Calls};

    ghost Value = { Calls };

    ghost view = { λ c. record { failing = c.failing.items; made = c.made; faults = c.faults } };
}

impl CallCount {
    /// Returns a count of no calls. The calls with these numbers, from 1, will fail.
    pub(crate) fn of(failing: Vec<u64>) -> CallCount
        ensures { result ≡ record { failing = failing.items; made = 0; faults = 0 } }
    {
        CallCount {
            failing,
            made: 0,
            faults: 0,
        }
    }

    /// Whether the next call fails. It searches the list, and does not count the call.
    pub(crate) fn next_fails(&self) -> bool
        ensures { result ≡ next_fails self.now }
    {
        // Numbers from 1, so that a test names a call as it counts them.
        self.failing.contains(&self.made.saturating_add(1))
    }

    /// Returns how many calls were counted since the last [`restart`](CallCount::restart), failed ones too.
    pub(crate) fn made(&self) -> u64
        ensures { result ≡ self.now.made }
    {
        self.made
    }

    pub(crate) fn pass(&mut self)
        ensures { self.new ≡ after_call self.old false }
    {
        self.made = self.made.saturating_add(1);
    }

    /// Counts a call that failed, among all calls too.
    #[tactic(auto, using(norm_base::proofs::CountLemmas::counts_one_more))]
    pub(crate) fn fail(&mut self)
        ensures counted { self.new ≡ after_call self.old true }
        ensures rose { Counts self.old.faults self.new.faults true }
    {
        self.made = self.made.saturating_add(1);
        self.faults = self.faults.saturating_add(1);
    }

    /// Counts the calls from 0 again. Which of them fail, and how many failed, stay.
    pub(crate) fn restart(&mut self)
        ensures { self.new ≡ restarted self.old }
    {
        self.made = 0;
    }

    /// Returns how many calls failed. A restart leaves this as it is.
    pub(crate) fn faults(&self) -> u64
        ensures { result ≡ self.now.faults }
    {
        self.faults
    }
}
