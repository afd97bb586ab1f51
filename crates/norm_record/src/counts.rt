//! The counts of two kinds of events, for [`Journal::refused`](crate::Journal::refused) and [`Journal::expired`](crate::Journal::expired).

ghost use Rattle.std.specs.Prelude.{◌≡◌, ◌+◌, IfSome, if◌then◌else◌};
ghost use Rattle.norm_record.specs.Counted.{with_event};
ghost use Rattle.norm_record.specs.Events.{rare_event};

use crate::entry::Rare;

/// How many commands were refused for good, and how many watermarks expired. `Journal` counts them as they come, so that nobody has to go through its
/// events.
#[derive(Clone, Copy)]
pub(crate) struct Counts {
    pub(crate) refused: u64,
    pub(crate) expired: u64,
}

/// Returns the count, plus one if `more` is true. `None` if it does not fit 64 bits.
fn counted(count: u64, more: bool) -> Option<u64>
    ensures { IfSome result (λ n. n ≡ count + (if more then 1 else 0)) }
{
    if more {
        // A wrong count is worse than none, so it does not stop at the greatest number.
        count.checked_add(1)
    } else {
        Some(count)
    }
}

impl Counts {
    /// Returns the counts after one more event. `None` if a count does not fit 64 bits.
    pub(crate) fn after(self, rare: &Rare) -> Option<Counts>
        ensures { IfSome result (λ counts. counts ≡ with_event (rare_event rare.now) self) }
    {
        let refused = counted(self.refused, rare.is_refused())?;
        let expired = counted(self.expired, rare.is_expired())?;
        Some(Counts { refused, expired })
    }
}
