//! Asks for what a NACK names, object by object.

ghost use Rattle.std.specs.Prelude.{◌≡◌, ◌+◌, ◌^◌, ◌<◌, ◌≤◌, ◌⊎◌, ℕ, get_or, length};
ghost use Rattle.norm_ext.specs.Asking.{span};
ghost use Rattle.nack_union.specs.Kept.{Marked};
ghost use Rattle.nack_union.specs.More.{MoreOf, named_part};
ghost use Rattle.nack_union.specs.Adding.{IsPlanned};
ghost use Rattle.std.specs.List.{AllByRecursion};

use crate::marks::{Marks, Named};
use fec_plan::Position;

/// Asks for what is named of the objects at the list indexes `from..to`. The window begins with the object `first`.
pub fn ask_range(objects: &mut [Marks], first: u32, from: usize, to: usize, named: Named)
    requires within { to ≤ length objects.old }
    requires few { first + length objects.old ≤ 2 ^ 32 }
    requires low { named.first.index ≤ first + from }
    requires high { from < to → first + to ≤ named.last.index + 1 }
    ensures each { (k : ℕ) (d : Marked) → k < length objects.old → from ≤ k → k < to
        → MoreOf (named_part named.flags (span named.first named.last)) (first + k) (get_or objects.old k d) (get_or objects.new k d) }
    ensures rest { (k : ℕ) (d : Marked) → (k < from) ⊎ (to ≤ k) → get_or objects.new k d ≡ get_or objects.old k d }
    ensures planned { AllByRecursion IsPlanned objects.old → AllByRecursion IsPlanned objects.new }
{
    // Proof: the label names the loop for its invariant.
    'places: for place in from..to {
        objects[place].ask_named(first + place as u32, &named);
    }
}
