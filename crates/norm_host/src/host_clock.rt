//! The process's clock: [`HostClock`].

ghost use Rattle.std.specs.Prelude.{◌≡◌, ◌≤◌, ◌/◌, ◌^◌, ℕ, Option, None, Some, IfSome, IfNone};
ghost use Rattle.std.specs.Duration.{as_nanos};
ghost use Rattle.norm_host.specs.Clocks.{first_reading, last_moment, first_with, since_first, Keeps};

use norm_base::{Clock, Moment};
use std::time::{self, Duration};
use udp_rules::{Lag, next_moment};

/// A clock of std, in microseconds since its first reading. If a reading fails, it gives the last moment again, and 0 before the first. With
/// a [`Lag`] it may lag after an offer of a sender over sockets, as [`next_moment`] says. Contracts cannot rely on its moments.
#[derive(Drop)]
pub struct HostClock<C> {
    clock: C,
    start: Option<u64>,
    last: u64,
    /// What a sender's network shares with it.
    lag: Option<Lag>,
}

impl<C: time::Clock> HostClock<C> {
    /// Returns a clock that reads this one at each `now`, of which the first that succeeds gives 0. It never lags.
    pub fn of(clock: C) -> HostClock<C>
        ensures first { first_reading result ≡ None }
        ensures moment { last_moment result ≡ 0 }
    {
        HostClock {
            clock,
            start: None,
            last: 0,
            lag: None,
        }
    }

    /// As [`of`](HostClock::of). It may lag by what a sender's network tells here.
    pub fn lagging(clock: C, lag: Lag) -> HostClock<C>
        ensures first { first_reading result ≡ None }
        ensures moment { last_moment result ≡ 0 }
    {
        HostClock {
            clock,
            start: None,
            last: 0,
            lag: Some(lag),
        }
    }

    /// Returns the gap of a sender that offered since the last moment.
    fn gap(&self) -> Option<u64> {
        match &self.lag {
            Some(lag) => lag.gap(),
            None => None,
        }
    }

    /// Tells the network by how many microseconds the clock lags.
    fn tell(&self, behind: u64) {
        if let Some(lag) = &self.lag {
            lag.note_behind(behind);
        }
    }

    /// Reads the clock, in microseconds. `None` if that fails, or they have more than 64 bits.
    fn reading(&self) -> Option<u64> {
        micros_of(self.clock.monotonic().ok()?)
    }

    /// Returns how far a reading lies after the first one, or 0 if it lies before that. Keeps the reading if it is the first.
    fn since_first(&mut self, reading: u64) -> u64
        ensures start { first_reading self.new ≡ first_with (first_reading self.old) (Some reading) }
        ensures moment { result ≡ since_first (first_reading self.old) reading }
        ensures last { last_moment self.new ≡ last_moment self.old }
    {
        let start = self.start.unwrap_or(reading);
        self.start = Some(start);
        // A clock that falls behind its first reading must not make a moment near 2^64.
        reading.saturating_sub(start)
    }

    /// Keeps the moment of a reading, which may lag by this gap. `None` is a reading that failed: the last moment stays.
    fn keep(&mut self, gap: Option<u64>, reading: Option<u64>)
        ensures { Keeps self.old gap reading self.new }
    {
        if let Some(reading) = reading {
            let since = self.since_first(reading);
            self.last = next_moment(gap, self.last, since);
            self.tell(since.saturating_sub(self.last));
        }
    }
}

/// Returns whole microseconds, rounded down. `None` if they have more than 64 bits: after some 584,000 years.
fn micros_of(time: Duration) -> Option<u64>
    ensures some { IfSome result (λ n. n ≡ as_nanos time / 1000) }
    ensures none { IfNone result (2 ^ 64 ≤ as_nanos time / 1000) }
{
    u64::try_from(time.as_micros()).ok()
}

impl<C: time::Clock> Clock for HostClock<C> {
    ghost moments = { λ _. None };

    fn now(&mut self) -> Moment
        ensures moment { result ≡ last_moment self.new }
        ensures reading { (gap : Option ℕ) × (reading : Option ℕ) × Keeps self.old gap reading self.new }
    {
        let gap = self.gap();
        let reading = self.reading();
        self.keep(gap, reading);
        Moment(self.last)
    }
}
