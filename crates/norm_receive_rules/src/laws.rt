//! Laws of the receiver's rules. Each law is the contract of a function that does nothing.

ghost use Rattle.norm_receive_rules.specs.BoundLaws.{BoundLaws};
ghost use Rattle.norm_receive_rules.specs.DueLaws.{DueLaws};
ghost use Rattle.norm_receive_rules.specs.FarLaws.{FarLaws};
ghost use Rattle.norm_receive_rules.specs.InstanceLaws.{InstanceLaws};
ghost use Rattle.norm_receive_rules.specs.Laws.{BesideLaws, FrontLaws, HandUpLaws, HeardLaws, NeedsLaws, PassedLaws, SeenLaws, StepLaws};
ghost use Rattle.norm_receive_rules.specs.NackLaws.{NackLaws};
ghost use Rattle.norm_receive_rules.specs.OpenLaws.{OpenLaws};
ghost use Rattle.norm_receive_rules.specs.WantingLaws.{WantingLaws};

/// Each hand-up is added after those before it and moves the hand-up point on. Handing up never moves
/// the point back; a new instance begins at 0.
#[tactic(auto, using(crate::proofs::HandUpLemmas::hand_up_laws))]
pub fn hand_ups()
    ensures { HandUpLaws }
{}

/// Nothing is needed if and only if nothing is missing of what the sender is past or has flushed.
// Proof: a lazy list is empty by is_nil, with one combinator for each way to build it.
#[tactic(auto, using(crate::proofs::NeedLemmas::needs_laws))]
pub fn needs()
    ensures { NeedsLaws }
{}

/// Requests that were heard are kept merged. The merged form gives the same answers as the requests as they came.
#[tactic(auto, using(crate::proofs::HeardLemmas::heard_laws))]
pub fn heard()
    ensures { HeardLaws }
{}

/// A receiver keeps its node id, and only goes on to an instance above its own. While it is in no instance, it holds nothing.
#[tactic(auto, using(crate::proofs::StepLemmas::step_laws))]
pub fn steps()
    ensures { StepLaws }
{}

/// Hand-ups and a squelch change only what is held, and no plan, symbol or info of it. A squelch of the receiver's instance, as it is
/// received, may also begin a back-off and raise the greatest index that is known.
#[tactic(auto, using(crate::proofs::BesideLemmas::beside_laws))]
pub fn beside()
    ensures { BesideLaws }
{}

/// In the stream at the hand-up point, each block before the point's is done. In the point's own block, each symbol before the point is there, and
/// none is the end.
// Proof: a test that refuses what is joined finds what it found before.
#[tactic(auto, using(crate::proofs::PassedSteps::passed_laws))]
pub fn passed()
    ensures { PassedLaws }
{}

/// The block of each held symbol was seen: its object has a plan, and a stream's greatest seen block is not before it.
#[tactic(auto, using(crate::proofs::SeenLemmas::seen_laws))]
pub fn seen()
    ensures { SeenLaws }
{}

/// A receiver never returns to an instance that it left, if all instance ids are at most 32,767 above the first.
#[tactic(auto, using(crate::proofs::InstanceLemmas::instance_laws))]
pub fn instances()
    ensures { InstanceLaws }
{}

/// A receiver acknowledges only what it handed up, with everything before.
#[tactic(auto, using(crate::proofs::DueLemmas::due_laws))]
pub fn acknowledgements()
    ensures { DueLaws }
{}

/// Of what others ask for, a receiver keeps at most 4,096 spans of symbols, 4,096 infos and 4,096 counts.
#[tactic(auto, using(crate::proofs::BoundLemmas::bound_laws))]
pub fn bounds()
    ensures { BoundLaws }
{}

/// If a datagram cannot make a receiver need memory, it changes nothing.
#[tactic(auto, using(crate::proofs::WantingLemmas::wanting_laws))]
pub fn wanting()
    ensures { WantingLaws }
{}

/// A NACK asks for the longest prefix of the needs that fits. A need was heard if and only if the requests that were heard ask for all of
/// it.
#[tactic(auto, using(crate::proofs::NackLemmas::nack_laws))]
pub fn nacks()
    ensures { NackLaws }
{}

/// After each step, nothing more can be handed up.
// Proof: what is left is counted, and each round takes one at least, so the end of the bound is the end of the rounds.
#[tactic(auto, using(crate::proofs::FarLemmas::far_laws))]
pub fn far()
    ensures { FarLaws }
{}

/// No part of a stream is handed up before the stream is opened, or after another one is.
#[tactic(auto, using(crate::proofs::OpenLemmas::open_laws))]
pub fn opens()
    ensures { OpenLaws }
{}

/// If anything is needed once nothing more can be handed up, something of the object at the hand-up point is. For a stream this holds while a block
/// is left that could hold its end.
#[tactic(auto, using(crate::proofs::FrontLemmas::front_laws))]
pub fn front()
    ensures { FrontLaws }
{}
