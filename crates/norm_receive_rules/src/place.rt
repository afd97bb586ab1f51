//! The hand-up point, and which objects and flush positions lie before it.

ghost use Rattle.std.specs.Prelude.{◌≡◌, ◌<◌, ◌≤◌, ◌&&◌, not, true, false};
ghost use Rattle.fec_plan.specs.Points.{position, position_before};

use fec_plan::Position;

/// The next source symbol to hand up. If the last block that 24 bits can name was handed up, a stream goes on at block 16,777,216, which no
/// message names.
// No symbol has that block, so no more octets of a stream that did not end before it are handed up.
#[derive(Clone, Copy, Debug, PartialEq, Eq)]
pub struct Place {
    pub index: u32,
    pub block: u32,
    pub symbol: u8,
}

impl Place {
    /// Whether everything up to and including a position lies before the hand-up point.
    fn is_behind(&self, at: &Position) -> bool
        ensures { result ≡ position_before at.now (position self.now.index self.now.block self.now.symbol) }
    {
        if at.index != self.index {
            return at.index < self.index;
        }
        if at.block != self.block {
            return at.block < self.block;
        }
        at.symbol < self.symbol
    }

    /// Whether everything up to and including a position was handed up. `false` after any loss, even of an object after the position: the
    /// hand-up point went past what was lost too, and which objects that were is not kept.
    pub fn all_handed_up(&self, at: &Position, has_lost: bool) -> bool
        ensures { result ≡ (position_before at.now (position self.now.index self.now.block self.now.symbol) && not has_lost) }
    {
        // An acknowledgement says that all up to its position was handed up, and the lost object may lie before it.
        if has_lost {
            return false;
        }
        self.is_behind(at)
    }
}

/// Whether an object lies before the one at the hand-up point. If so it was handed up or lost, and whatever comes of it is not kept.
pub fn is_over(index: u32, point: u32) -> bool
    ensures over { result ≡ true → index < point }
    ensures ahead { result ≡ false → point ≤ index }
{
    index < point
}
