//! The words that several lines share: a command's name, and a position.

ghost use Rattle.std.specs.Prelude.{◌≡◌, OnOk};
ghost use Rattle.norm_text.specs.Words.{with_words};
ghost use Rattle.norm_journal.specs.Words.{origin_words, position_words};

use fec_plan::Position;
use norm_base::Origin;
use norm_text::Line;
use std::alloc::AllocError;

/// Puts a command's name: its producer, and that producer's number of it.
pub(crate) fn put_origin(line: &mut Line, by: Origin) -> Result<(), AllocError>
    ensures { OnOk result (line.new ≡ with_words line.old (origin_words by)) }
{
    line.number(u64::from(by.producer))?;
    line.number(by.number)
}

/// Puts a position: the object's index, the block and the symbol.
pub(crate) fn put_position(line: &mut Line, at: Position) -> Result<(), AllocError>
    ensures { OnOk result (line.new ≡ with_words line.old (position_words at)) }
{
    line.number(u64::from(at.index))?;
    line.number(u64::from(at.block))?;
    line.number(u64::from(at.symbol))
}
