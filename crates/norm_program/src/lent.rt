//! Lends the outside to a command as one value. `program` makes it, and commands pass it on.

ghost use Rattle.std.specs.Prelude.{◌≡◌};

/// The five objects of the outside, borrowed for one command. The caller keeps them and sees what the command did.
#[derive(Drop)]
pub(crate) struct Lent<'a, S, K, F, D, C> {
    /// Only `session`, `send`, `show`, `gather`, `relay` and `mirror` read it.
    pub input: &'a mut S,
    pub output: &'a mut K,
    /// Only `session`, `send`, `recv`, `hub` and `mirror` call it.
    pub fabric: &'a mut F,
    /// Only `recv` and `mirror` put files.
    pub files: &'a mut D,
    /// Gives the moments of turns if the profile's `step` is 0. Else nobody calls it.
    pub clock: &'a mut C,
}

impl<'a, S, K, F, D, C> Lent<'a, S, K, F, D, C> {
    // Proof: a struct that is made where the lifetimes of more than two of its references differ cannot be lent to a call.
    pub fn of(
        input: &'a mut S,
        output: &'a mut K,
        fabric: &'a mut F,
        files: &'a mut D,
        clock: &'a mut C,
    ) -> Lent<'a, S, K, F, D, C>
        ensures input { result.input ≡ input.entry }
        ensures output { result.output ≡ output.entry }
        ensures fabric { result.fabric ≡ fabric.entry }
        ensures files { result.files ≡ files.entry }
        ensures clock { result.clock ≡ clock.entry }
    {
        Lent {
            input,
            output,
            fabric,
            files,
            clock,
        }
    }
}
