//! Laws of the sets that a union keeps, and of the states for which it stands. Each is the contract of a function that does nothing.

ghost use Rattle.nack_union.specs.Laws.{MayBeNoted, MayBeRetired, OpenStreamsMayGrow, RoundsAreCollected, StreamsGrow};

/// What a round asks for may be kept as a set until the round closes. The wants are the same as if each symbol had been added to them then, in
/// the order in which it was asked for.
#[tactic(auto, using(crate::proofs::Unions::rounds_are_collected))]
pub fn rounds_are_collected()
    ensures { RoundsAreCollected }
{}

/// An encoded symbol of the order may be noted as sent if it was not dropped.
#[tactic(auto, using(crate::proofs::Heard::may_be_noted))]
pub fn may_be_noted()
    ensures { MayBeNoted }
{}

/// If a union grows with the stream that is its last object, it stands for the state after that.
pub fn streams_grow()
    ensures { StreamsGrow }
{}

/// An open stream may grow if the window has it and there is room for its segments.
pub fn open_streams_may_grow()
    ensures { OpenStreamsMayGrow }
{}

/// A union may retire to the beginning of an object, or to a block of a stream, if that is not before the drop point.
pub fn may_be_retired()
    ensures { MayBeRetired }
{}
