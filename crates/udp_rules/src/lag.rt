//! What a sender's network and its clock tell one another ([`Lag`]), and by how much the clock lags.

ghost use Rattle.std.specs.Prelude.{◌≡◌};
ghost use Rattle.udp_rules.specs.Lagging.{next_moment};

use norm_base::Memory;
use std::alloc::Global;
use std::cell::Cell;
use std::rc::Rc;

/// The most microseconds that a moment lies before its reading.
// Our own choice, so the longest burst of a sender that was kept from its processor. A receiver's buffer has room for it at any gap.
const MOST_LAG: u64 = 2_000;

/// Returns the moment of a reading, in microseconds. `gap` is that between the sender's datagrams, and `None` if it offered nothing since
/// the moment `last`.
pub fn next_moment(gap: Option<u64>, last: u64, reading: u64) -> u64
    ensures { result ≡ next_moment gap last reading }
{
    match gap {
        None => reading,
        Some(gap) => last
            .saturating_add(gap)
            .max(reading.saturating_sub(MOST_LAG))
            .min(reading),
    }
}

#[derive(Clone, Copy)]
struct Told {
    gap: u64,
    offered: bool,
    behind: u64,
}

/// What the network of a sender over sockets and its clock tell one another. The network tells the gap at its start and each offer, and the
/// clock by how much it lags. [`shared`](Lag::shared) gives the other one its part.
// A cell, because the clock is made before the profile is read.
#[derive(Drop)]
pub struct Lag(Rc<Cell<Told>>);

impl Lag {
    /// Returns one in which nothing was told: a clock does not lag.
    ///
    /// # Errors
    ///
    /// `Memory` if memory runs out.
    pub fn new(alloc: Global) -> Result<Lag, Memory> {
        let told = Told {
            gap: 0,
            offered: false,
            behind: 0,
        };
        Ok(Lag(Rc::new(alloc, Cell::new(told))?))
    }

    /// Returns another part of the same.
    ///
    /// # Errors
    ///
    /// `Memory` if there are too many.
    pub fn shared(&self) -> Result<Lag, Memory> {
        Ok(Lag(self.0.clone()?))
    }

    /// Tells that a network starts whose sender has this gap.
    pub fn start(&self, gap: u64) {
        self.0.set(Told {
            gap,
            offered: false,
            behind: 0,
        });
    }

    /// Tells that the sender offers. Returns when it would do so if its clock did not lag: `now`, less what the clock lags.
    // The gap is over so much earlier, so a take waits only once the clock has caught up.
    pub fn note_offer(&self, now: u64) -> u64 {
        let told = self.0.get();
        self.0.set(Told {
            offered: true,
            ..told
        });
        now.saturating_sub(told.behind)
    }

    /// Returns the gap if the sender offered since the last call. `None` if it did not.
    // So a sender with nothing to send does not lag, however short its gap is.
    pub fn gap(&self) -> Option<u64> {
        let told = self.0.get();
        if !told.offered {
            return None;
        }
        self.0.set(Told {
            offered: false,
            ..told
        });
        Some(told.gap)
    }

    /// Tells by how many microseconds the clock lags.
    pub fn note_behind(&self, behind: u64) {
        let told = self.0.get();
        self.0.set(Told { behind, ..told });
    }
}
