//! What is promised of the states that a window stands for. Each law is the contract of a function that does nothing.

ghost use Rattle.tx_window.specs.EntryLaws.{OthersStay};
ghost use Rattle.tx_window.specs.Laws.{MayBeNoted, IsThere, SymbolIsDecided};

/// An encoded symbol of the order whose block was not dropped may be noted as sent.
#[tactic(auto, using(crate::proofs::LawLemmas::may_be_noted))]
pub fn may_be_noted()
    ensures { MayBeNoted }
{}

/// An entry of the order that was not dropped is in the window.
#[tactic(auto, using(crate::proofs::LawLemmas::is_there))]
pub fn is_there()
    ensures { IsThere }
{}

/// A state allows one answer to a request for a symbol, with its octets.
#[tactic(auto, using(crate::proofs::LawLemmas::symbol_is_decided))]
pub fn symbol_is_decided()
    ensures { SymbolIsDecided }
{}

/// An entry stands for the same after a symbol or an info of another entry was sent.
#[tactic(auto, using(crate::proofs::EntryOthers::others_stay))]
pub fn others_stay()
    ensures { OthersStay }
{}
