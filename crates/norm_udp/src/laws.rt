//! The law of this crate's definitions. It is the contract of a function that does nothing.

ghost use Rattle.norm_udp.specs.Ways.{WayLaws};

/// All members but the one that offers get what it offers from a hub: by a copy of their own, by the broadcast, or, the sender, by a copy
/// back.
#[tactic(auto, using(crate::proofs::WayLemmas::way_laws))]
pub fn ways()
    ensures { WayLaws }
{}
