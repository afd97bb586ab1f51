//! Laws of a relay. Each law is the contract of a function that does nothing.

ghost use Rattle.norm_relay.specs.AskLaws.{AsksWhereItWaits};
ghost use Rattle.norm_relay.specs.HandLaws.{HandsWhole, HandsOnInRuns};
ghost use Rattle.norm_relay.specs.Handing.{RelayLaw};
ghost use Rattle.norm_relay.specs.OrderLaws.{LowerOrder};
ghost use Rattle.norm_relay.specs.TakeLaws.{TakesOnceConfirmed};

/// After each pump that was not refused, if a hand-up waits or an acknowledgement has a watermark, then a watermark is open below, or the one that
/// was made was satisfied at once, or the acknowledgement may be sent. So a relay that waits has always asked.
#[tactic(auto, using(crate::proofs::AskLawLemmas::asks_where_it_waits))]
pub fn asks_where_it_waits()
    ensures { AsksWhereItWaits }
{}

/// After any calls, the transport order below is what was enqueued of the current instance above, whatever pieces streams are cut into: the same
/// objects, octets and ends. The premise is that each file that waits has a name.
#[tactic(auto, using(crate::proofs::StepLemmas::lower_order))]
pub fn lower_order()
    ensures { LowerOrder }
{}

/// After any calls that leave the session above lawful, what was enqueued and what waits is all that the node handed up in its instance above, in
/// order. Until a restart below that waits is made, it is what waits.
#[tactic(auto, using(crate::proofs::FreshLemmas::hands_whole))]
pub fn hands_whole()
    ensures { HandsWhole }
{}

/// After any calls that leave the session above lawful, the relay hands on below what it was handed up: the order below is, as items, what was enqueued,
/// and with what waits that is all that its node handed up. It is the second sentence of `RelayLaw`.
pub fn hands_on()
    ensures { HandsOnInRuns }
{}

/// The law of a relay. After any calls that leave both sessions lawful, however streams are cut into pieces:
/// 1. If the next tick acknowledges a position above, each member below handed up everything before that position. A receiver that was struck is no
/// member.
/// 2. The relay hands on below what it was handed up ([`hands_on`]).
// Proof: an acknowledgement that waits was handed up above (Confirmed). If it has a watermark, all of it stands before that below (Pledged), because
// the mark was made after all of it was enqueued, and cut the open stream (PledgeLemmas).
pub fn relay_run()
    ensures { RelayLaw }
{}

/// In each state of a session below whose profile is in its ranges: if all that was enqueued was sent, and every member is listed past its last source
/// symbol, then no hand-up is refused for want of room.
pub fn takes_once_confirmed()
    ensures { TakesOnceConfirmed }
{}
