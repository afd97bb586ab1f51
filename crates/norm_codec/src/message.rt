//! A message of any type as a value, and which messages can be written.

ghost use Rattle.std.specs.Prelude.{◌≡◌, ◌↔◌, IsTrue, length};
ghost use Rattle.norm_codec.specs.CanEncode.{CanEncode, IsReport};

use norm_base::{DATAGRAM_ROOM, NodeId};
use norm_cmdmsg::CommandMsg;
use norm_ext::places::{COMMON, COMMON_WORDS, WORD};
use norm_fbmsg::{AckMsg, NackMsg};
use norm_objmsg::grammar::{DataMsg, InfoMsg};

/// A message of any type. If it was read, it borrows from the datagram.
#[derive(Debug, Drop)]
pub enum Message<'a> {
    Info(InfoMsg<'a>),
    Data(DataMsg<'a>),
    Command(CommandMsg<'a>),
    Nack(NackMsg<'a>),
    Ack(AckMsg<'a>),
    /// A report. Its content is kept unread.
    // RFC 5740 section 4.4.1 leaves the content to the implementation.
    Report {
        source: NodeId,
        sequence: u16,
        /// The length of the header in words of 32 bits.
        words: u8,
        /// All octets after the common header.
        rest: &'a [u8],
    },
}

/// Whether a report has a whole header of `words` words, at least two, and fits into a datagram.
fn report_fits(words: u8, rest: &[u8]) -> bool
    ensures { IsTrue result ↔ IsReport words rest.now }
{
    let short = rest.len() <= DATAGRAM_ROOM - COMMON;
    short && words >= COMMON_WORDS && WORD * usize::from(words) <= COMMON + rest.len()
}

impl<'a> Message<'a> {
    /// Whether [`encode`](crate::encode) can write it. A report needs a header of at least two words, all words that `words` says, and at most 1,500
    /// octets; for any other message, its own `fits` decides.
    pub fn fits(&self) -> bool
        ensures { IsTrue result ↔ CanEncode self.now }
    {
        match self {
            Message::Info(msg) => msg.fits(),
            Message::Data(msg) => msg.fits(),
            Message::Command(msg) => msg.fits(),
            Message::Nack(msg) => msg.fits(),
            Message::Ack(msg) => msg.fits(),
            Message::Report { words, rest, .. } => report_fits(*words, rest),
        }
    }
}
