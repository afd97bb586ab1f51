//! The limits that messages share, for the `fits` of INFO, DATA, commands and feedback. Feedback asks [`has_room`] alone, and a command
//! that is kept unread asks [`is_narrow`] alone. The writers ask neither.

ghost use Rattle.std.specs.Prelude.{◌↔◌, ◌*◌, ◌≤◌, IsTrue};
ghost use Rattle.norm_ext.specs.Places.{word_size, most_header_words};
ghost use Rattle.norm_ext.specs.Fitting.{HasRoom, IsNarrow};

use crate::extensions::Extensions;
use crate::places::WORD;
use norm_base::DATAGRAM_ROOM;

/// The most octets that a header can have: 255 words.
// RFC 5740 section 4.1: hdr_len has 8 bits and counts words of four octets. What has a longer header cannot be written.
const MOST_HEADER: usize = 255 * WORD;

/// Whether a message can have these extensions, after `fixed` octets of fixed fields and before `content` octets of content: the header has at
/// most 255 words, and the datagram at most 1,500 octets.
pub fn has_room(fixed: usize, exts: &Extensions<'_>, content: usize) -> bool
    requires { fixed ≤ word_size * most_header_words }
    ensures { IsTrue result ↔ HasRoom fixed exts.now content }
{
    let header = fixed + exts.octets().len();
    // In this order: the header's length is bounded before it is taken from the datagram's room.
    header <= MOST_HEADER && content <= DATAGRAM_ROOM - header
}

/// Whether the back-off factor and the group size fit into the four bits that each has (RFC 5740 section 4.2.1).
pub fn is_narrow(backoff: u8, gsize: u8) -> bool
    ensures { IsTrue result ↔ IsNarrow backoff gsize }
{
    backoff < 16 && gsize < 16
}
