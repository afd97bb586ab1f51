//! Theorems about the definitions of this crate, for the proofs of other crates. Each is the contract of a function that does nothing.

ghost use Rattle.norm_base.specs.MemberLaws.{MemberLaws};

/// The members of a session are its sender and `receivers` receivers. Their ids follow the sender's without gaps.
#[tactic(auto, using(crate::proofs::MemberLemmas::member_laws))]
pub fn members()
    ensures { MemberLaws }
{}
