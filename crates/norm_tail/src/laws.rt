//! What is promised of tails. Each law is the contract of a function that does nothing.

ghost use Rattle.norm_tail.specs.Beginning.{TailsFit};

/// [`run_tail`](crate::run_tail) may be called after each moment up to 2^63, as its clause `fits` asks: the moments of a tail have 64 bits.
#[tactic(auto, using(crate::proofs::FitLemmas::tails_fit))]
pub fn tails_fit()
    ensures { TailsFit }
{}
