//! What is promised of the definitions in `specs/`. A law is the contract of a function that does nothing.

ghost use Rattle.stream_buffer.specs.Laws.{IsAsRuled};

/// A stream of the window is refused more for the reasons that the rules give for the open stream, and for no other.
#[tactic(auto, using(crate::proofs::LawLemmas::as_ruled))]
pub fn grows_as_ruled()
    ensures { IsAsRuled }
{}
