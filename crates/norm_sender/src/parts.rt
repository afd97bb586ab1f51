//! The parts that a sender is made of.

ghost use Rattle.norm_base.specs.Settings.{InRange};

use crate::pace::Pace;
use mark_book::Book;
use nack_union::Union;
use norm_base::Profile;
use tx_window::Window;

/// The parts of a sender under one profile: what it may still repair (`window`), what is asked of that and still to be repeated (`union`),
/// its members and watermarks (`book`), and its numbers (`pace`).
#[derive(Debug, Drop)]
pub(crate) struct Parts {
    pub profile: Profile,
    pub window: Window,
    pub union: Union,
    pub book: Book,
    pub pace: Pace,
}

// Proof: a profile's values are within their ranges.
pub(crate) fn hold_range(profile: &Profile)
    ensures { InRange profile.now }
{
    let _value = profile.e;
}
