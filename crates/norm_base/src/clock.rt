//! The trait of a clock. `norm_host` implements it for the clock of the process, `norm_memory` for a list of moments.

ghost use Rattle.std.specs.Prelude.{ℕ, List, Option};
ghost use Rattle.norm_base.specs.Told.{GainsWhereTold};

use crate::node::Moment;

/// A clock. It never fails, but a moment may be earlier than the one before it.
pub trait Clock {
    /// The moments that it returned, or `None` if the clock does not record them.
    ghost moments: { Self → Option (List ℕ) };

    /// Returns the current moment. A caller that needs moments in order keeps the later one.
    fn now(&mut self) -> Moment
        ensures { GainsWhereTold (moments self.old) (moments self.new) result };
}
