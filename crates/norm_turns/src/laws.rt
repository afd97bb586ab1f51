//! What the limits of a turn have to be. Each law is the contract of a function that does nothing.

ghost use Rattle.std.specs.Prelude.{◌≡◌};
ghost use Rattle.norm_journal.specs.Takes.{most_takes};

use crate::limits::MOST_TAKES;

/// The most takes of a turn are those of the judge of journals. A session, a receiver alone and the hub all loop at most this many times,
/// so a number with which none of them takes anything is refused here.
pub fn takes()
    ensures { MOST_TAKES ≡ most_takes }
{}
