//! What is promised of the stages of a run's turn. Each law is the contract of a function that does nothing.

ghost use Rattle.norm_session.specs.Laws.{IsAtOnePlace};

/// A run that keeps its journal is at one stage of its turn. So it comes to another stage only if events join its journal.
#[tactic(auto, using(crate::proofs::LawLemmas::one_place))]
pub fn one_place()
    ensures { IsAtOnePlace }
{}
