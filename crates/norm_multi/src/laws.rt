//! Laws of several senders. Each law is the contract of a function that does nothing.

ghost use Rattle.norm_multi.specs.Laws.{OwnLaws};

/// A datagram that belongs to another sender changes nothing of a receiver. So it makes no difference that [`Multi`](crate::Multi) gives it to one
/// receiver alone.
#[tactic(auto, using(crate::proofs::OwnLemmas::own_laws))]
pub fn own()
    ensures { OwnLaws }
{}
