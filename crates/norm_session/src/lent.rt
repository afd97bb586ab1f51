//! Lends the outside to a run's turns as one value.

ghost use Rattle.std.specs.Prelude.{◌≡◌};

/// The objects of the outside that turns call, borrowed for all turns of a run.
#[derive(Drop)]
pub struct Lent<'a, K, F, D, C> {
    /// Takes the lines.
    pub output: &'a mut K,
    /// Takes and gives datagrams.
    pub fabric: &'a mut F,
    /// Gives the lengths and octets of files that commands name.
    pub files: &'a mut D,
    /// Gives the moments of turns if the profile's `step` is 0.
    pub clock: &'a mut C,
}

impl<'a, K, F, D, C> Lent<'a, K, F, D, C> {
    // Proof: a struct that is made where the lifetimes of more than two of its references differ cannot be lent to a call.
    pub fn of(
        output: &'a mut K,
        fabric: &'a mut F,
        files: &'a mut D,
        clock: &'a mut C,
    ) -> Lent<'a, K, F, D, C>
        ensures output { result.output ≡ output.entry }
        ensures fabric { result.fabric ≡ fabric.entry }
        ensures files { result.files ≡ files.entry }
        ensures clock { result.clock ≡ clock.entry }
    {
        Lent {
            output,
            fabric,
            files,
            clock,
        }
    }
}
