//! Laws of this crate's definitions. Each is the contract of a function that does nothing.

ghost use Rattle.norm_watch.specs.FollowingLaws.{FollowingLaws};

/// After each datagram a receiver is, by its rules, in the instance that is followed.
#[tactic(auto, using(crate::proofs::FollowingLemmas::following_laws))]
pub fn following()
    ensures { FollowingLaws }
{}
