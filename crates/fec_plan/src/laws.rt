//! Laws of points, positions and plans. Each law is the contract of a function that does nothing.

ghost use Rattle.std.specs.Prelude.{◌≡◌};
ghost use Rattle.fec_plan.specs.Points.{Position as Place, Point as Block, point_cmp, position_cmp};
ghost use Rattle.fec_plan.specs.OrderLaws.{PositionsAreOrdered};
ghost use Rattle.fec_plan.specs.Covering.{BlocksCover, SymbolsCover, AllButLastAreFull, BlocksAreEven};

use crate::position::{Point, Position};

/// `cmp` of points compares the index, then the block.
pub fn point_order()
    ensures { (p q : Block) → ⟦<Point as Ord>⟧.cmp p q ≡ point_cmp p q }
{}

/// `cmp` of positions compares the index, then the block, then the symbol.
pub fn position_order()
    ensures { (p q : Place) → ⟦<Position as Ord>⟧.cmp p q ≡ position_cmp p q }
{}

/// Positions have a total order.
#[tactic(auto, using(crate::proofs::PositionLemmas::positions_are_ordered))]
pub fn positions_are_ordered()
    ensures { PositionsAreOrdered }
{}

/// The blocks of an object together have as many source symbols as the object.
pub fn blocks_cover()
    ensures { BlocksCover }
{}

/// The source symbols of an object, as they are sent, together have as many octets as the object.
pub fn symbols_cover()
    ensures { SymbolsCover }
{}

/// Every source symbol of an object has `e` octets, as it is sent, except perhaps the last one.
pub fn all_but_last_are_full()
    ensures { AllButLastAreFull }
{}

/// Every block of an object has 1 to `b` source symbols. No block is larger than the one before it, or more than one symbol smaller.
pub fn blocks_are_even()
    ensures { BlocksAreEven }
{}
