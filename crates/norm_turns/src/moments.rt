//! The moment of a turn, by the profile's step or by the clock.

ghost use Rattle.norm_turns.specs.Moments.{IsNextMoment};

use norm_base::{Clock, Moment};

/// Returns the moment of a turn, in microseconds: its number times the profile's step. If the step is 0, it asks the clock once. Then the
/// moment is the clock's, or `so_far`, that of the turn before, if the clock went backwards.
pub fn moment_of<C: Clock>(turn: u32, step: u32, so_far: Moment, clock: &mut C) -> Moment
    ensures { IsNextMoment turn step so_far result (C.moments clock.old) (C.moments clock.new) }
{
    if step > 0 {
        return Moment(u64::from(turn) * u64::from(step));
    }
    let now = clock.now();
    // A clock that falls holds the moment. Time that runs backwards would prolong back-offs and gaps.
    if now.0 < so_far.0 { so_far } else { now }
}
