//! Laws of the transport order. Each law is the contract of a function that does nothing.

ghost use Rattle.std.specs.Prelude.{nat_lt};
ghost use Rattle.fec_plan.specs.Points.{position_before};
ghost use Rattle.norm_order.specs.Sets.{SetLaws};
ghost use Rattle.norm_order.specs.Laws.{SegmentLaws, GrowsWithPosition, KeptAsOrderGrows, KeptAsStreamGoesOn, OrdersGrow};

/// The octets of a stream's segments, in order, are what was written to it, except octets of a segment that is not closed yet.
#[tactic(auto, using(crate::proofs::SegmentLemmas::segment_laws))]
pub fn segments()
    ensures { SegmentLaws }
{}

/// What is handed up through a watermark is a prefix of what is handed up through a later one.
#[tactic(auto, using(crate::proofs::UptoLemmas::grows_with_position))]
pub fn later_watermarks()
    ensures { GrowsWithPosition }
{}

/// What is handed up through a watermark stays the same if entries are added to the order.
#[tactic(auto, using(crate::proofs::UptoLemmas::kept_as_order_grows))]
pub fn later_entries()
    ensures { KeptAsOrderGrows }
{}

/// What is handed up through a watermark stays the same if an open stream goes on.
#[tactic(auto, using(crate::proofs::GoingOnLemmas::kept_as_stream_goes_on))]
pub fn longer_streams()
    ensures { KeptAsStreamGoesOn }
{}

/// What is handed up through a watermark stays the same as the order grows, by further entries or by further parts of its last stream.
#[tactic(auto, using(crate::proofs::LaterLemmas::orders_grow))]
pub fn orders_grow()
    ensures { OrdersGrow }
{}

/// Sets of numbers and of positions are ascending lists. Two sets are equal if they have the same members.
#[tactic(auto, using(crate::proofs::SetLemmas::sets_of_numbers, crate::proofs::SetLemmas::sets_of_positions))]
pub fn sets()
    ensures numbers { SetLaws nat_lt }
    ensures positions { SetLaws position_before }
{}
