//! Laws of the instances that sends take. Each is the contract of a function that does nothing.

ghost use Rattle.norm_host.specs.Laws.{NextIsAbove};

/// An instance (RFC 5740 section 4.2.1) that a send draws lies above the one that is kept, even if the clock was set back.
#[tactic(auto, using(crate::proofs::InstanceLemmas::next_is_above))]
pub fn next_is_above()
    ensures { NextIsAbove }
{}
