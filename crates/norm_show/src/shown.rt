//! Shows one datagram as a line. `stream` calls [`show_line`] for each datagram that its input spells.

ghost use Rattle.std.specs.Prelude.{◌≡◌, IfOk, is_err};
ghost use Rattle.norm_ext.specs.Reading.{decoded};
ghost use Rattle.norm_show.specs.Line.{line_of};

use crate::lines::{message_text, refused_text};
use norm_base::{Memory, Octets};
use norm_codec::decode;
use std::alloc::Global;

/// What [`show_line`] returns. A datagram that is refused has a line too.
#[derive(Debug, Drop)]
pub struct Shown {
    /// The line, with its line feed.
    pub line: Octets,
    /// Whether the octets are no message.
    pub is_refused: bool,
}

/// Returns the line of a datagram: the words of its message, or why it is refused. Any octets are allowed.
///
/// # Errors
///
/// `Memory` if the line does not fit.
pub fn show_line(alloc: Global, octets: &[u8]) -> Result<Shown, Memory>
    ensures line { IfOk result (λ shown. shown.line ≡ line_of (decoded octets.now)) }
    ensures refused { IfOk result (λ shown. shown.is_refused ≡ is_err (decoded octets.now)) }
{
    match decode(octets) {
        Ok(message) => Ok(Shown {
            line: Octets::of(message_text(alloc, &message)?),
            is_refused: false,
        }),
        Err(refusal) => Ok(Shown {
            line: Octets::of(refused_text(alloc, refusal)?),
            is_refused: true,
        }),
    }
}
