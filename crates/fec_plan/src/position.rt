//! Blocks and symbols in transport order, and which of two is before the other. Watermarks, acknowledgements, drop points and repairs all
//! name them.

ghost use Rattle.std.specs.Prelude.{◌≡◌, ◌&&◌, ℕ};
ghost use Rattle.fec_plan.specs.Points.{Position as Place, point_of, point_before, position_before, same_point, same_position, reaches, reached_by, nearer, further, further_point};

use std::marker::Model;

/// A block in transport order: the index of its object, from 0, and its number. Ordered by index, then by block.
#[derive(Clone, Copy, Debug, PartialEq, Eq, PartialOrd, Ord)]
pub struct Point {
    pub index: u32,
    pub block: u32,
}

impl Model for Point {
    ghost use Rattle.fec_plan.specs.Points.{Point as Place};

    ghost Value = { Place };

    ghost view = { λ at. record { index = at.index; block = at.block } };

    ghost inverse = { λ at. record { index = at.index; block = at.block } };
}

/// A symbol in transport order: the index of its object, from 0, its block, below 16,777,216, and its id. Ordered by index, then by block,
/// then by symbol.
// The block fits 24 bits, so that each position can be named in a message.
#[derive(Clone, Copy, Debug, PartialEq, Eq, PartialOrd, Ord)]
pub struct Position {
    pub index: u32,
    pub block: u32,
    pub symbol: u8,
}

impl Model for Position {
    ghost use Rattle.fec_plan.specs.Points.{Position as Place, IsBlock};

    ghost Value = { Place };

    ghost view = { λ at. record { index = at.index; block = at.block; symbol = at.symbol } };

    ghost invariant = { λ at. IsBlock at.block };

    ghost inverse = { λ at. record { index = at.index; block = at.block; symbol = at.symbol } };
}

impl Point {
    /// Whether this block is of an earlier object than the other, or earlier in the same one.
    // Compare points by these calls: a user of the crate then needs their contract, and nothing of how a derived order compares.
    pub fn is_before(&self, other: &Point) -> bool
        ensures { result ≡ point_before self.now other.now }
    {
        self < other
    }

    pub fn is(&self, other: &Point) -> bool
        ensures { result ≡ same_point self.now other.now }
    {
        self == other
    }

    /// Returns the further of this block and `seen`, or this one if `seen` is `None`. The result is never `None`.
    pub fn further(self, seen: Option<Point>) -> Option<Point>
        ensures { result ≡ further_point self seen }
    {
        match seen {
            Some(other) if !other.is_before(&self) => Some(other),
            _ => Some(self),
        }
    }
}

impl Position {
    pub fn point(&self) -> Point
        ensures { result ≡ point_of self.now }
    {
        Point {
            index: self.index,
            block: self.block,
        }
    }

    /// Whether this symbol is of an earlier object than the other, or of an earlier block of the same object, or earlier in the same block.
    pub fn is_before(&self, other: &Position) -> bool
        ensures { result ≡ position_before self.now other.now }
    {
        self < other
    }

    pub fn is(&self, other: &Position) -> bool
        ensures { result ≡ same_position self.now other.now }
    {
        self == other
    }

    /// Whether this symbol is `goal` or after it.
    pub fn reaches(&self, goal: &Position) -> bool
        ensures { result ≡ reaches self.now goal.now }
    {
        !self.is_before(goal)
    }

    /// Returns the earlier of the two. It reaches exactly what both reach.
    pub fn nearer(self, other: Position) -> Position
        ensures exact { result ≡ nearer self other }
        ensures both { (at : Place) → reaches result at ≡ (reaches self at && reaches other at) }
    {
        if other.is_before(&self) { other } else { self }
    }

    /// Returns the further of this symbol and `seen`, or this one if `seen` is `None`. The result is never `None`.
    pub fn further(self, seen: Option<Position>) -> Option<Position>
        ensures { result ≡ further self seen }
    {
        match seen {
            Some(other) if !other.is_before(&self) => Some(other),
            _ => Some(self),
        }
    }
}

/// Whether `at` is `goal` or after it. `false` if `at` is `None`.
pub fn reached_by(at: Option<Position>, goal: &Position) -> bool
    ensures { result ≡ reached_by at goal.now }
{
    match at {
        Some(at) => at.reaches(goal),
        None => false,
    }
}
