//! Feedback as values, and which of it can be written.

ghost use Rattle.std.specs.Prelude.{◌≡◌, ◌↔◌, IsTrue, length};
ghost use Rattle.norm_fbmsg.specs.CanWrite.{CanWriteNack, CanWriteAck, CanWriteParts, HasBody, body_length};

use norm_base::{InstanceId, NodeId};
use norm_ext::fitting::has_room;
use norm_ext::places::{FEEDBACK, ITEM};
use norm_ext::{Extensions, Item, Requests};

/// The type of an acknowledgement that answers a FLUSH (RFC 5740 section 4.3.2).
// NORM_ACK_FLUSH. The content of an acknowledgement of any other type is lent as it is, and not read.
pub const FLUSH_ACK: u8 = 2;

/// A NACK: a receiver requests repairs. If it was read, it borrows from the datagram.
#[derive(Debug, Drop)]
pub struct NackMsg<'a> {
    pub source: NodeId,
    pub sequence: u16,
    /// The sender that should repair.
    pub sender: NodeId,
    pub instance: InstanceId,
    pub exts: Extensions<'a>,
    pub requests: Requests<'a>,
}

/// What an acknowledgement says. Its type decides which of the two it has.
#[derive(Clone, Copy, Debug, PartialEq, Eq)]
pub enum AckBody<'a> {
    /// The receiver confirms everything up to this symbol. Only acknowledgements of type `FLUSH_ACK` have it.
    Mark(Item),
    /// The content of every other type, kept unread.
    Opaque(&'a [u8]),
}

/// An ACK: a receiver answers a sender that requested it. If it was read, it borrows from the datagram.
#[derive(Debug, Drop)]
pub struct AckMsg<'a> {
    pub source: NodeId,
    pub sequence: u16,
    /// The sender that requested it.
    pub sender: NodeId,
    pub instance: InstanceId,
    pub ack_type: u8,
    pub ack_id: u8,
    pub exts: Extensions<'a>,
    pub body: AckBody<'a>,
}

/// Whether extensions and `content` octets of content have room after the fixed fields, which NACK and ACK have equally many of.
fn parts_fit(exts: &Extensions<'_>, content: usize) -> bool
    ensures { IsTrue result ↔ CanWriteParts exts.now content }
{
    has_room(FEEDBACK, exts, content)
}

impl<'a> NackMsg<'a> {
    /// Whether [`write_nack`](crate::write_nack) can write it: its header has at most 255 words, and the datagram at most 1,500 octets.
    pub fn fits(&self) -> bool
        ensures { IsTrue result ↔ CanWriteNack self.now }
    {
        parts_fit(&self.exts, self.requests.octets().len())
    }

    /// Returns an iterator over its requests. The message keeps its own.
    pub fn requests(&self) -> Requests<'a>
        ensures { result ≡ self.now.requests }
    {
        self.requests.iter()
    }
}

impl<'a> AckBody<'a> {
    /// Returns its length in octets, as it is written: eight for an item.
    fn len(&self) -> usize
        ensures { result ≡ body_length self.now }
    {
        match self {
            AckBody::Mark(_) => ITEM,
            AckBody::Opaque(octets) => octets.len(),
        }
    }

    /// Whether the type can have this content: an item if the type is `FLUSH_ACK`, and unread octets otherwise.
    fn is_of(&self, ack_type: u8) -> bool
        ensures { IsTrue result ↔ HasBody ack_type self.now }
    {
        match self {
            AckBody::Mark(_) => ack_type == FLUSH_ACK,
            AckBody::Opaque(_) => ack_type != FLUSH_ACK,
        }
    }
}

impl<'a> AckMsg<'a> {
    /// Whether [`write_ack`](crate::write_ack) can write it: its header has at most 255 words, the datagram at most 1,500 octets, and it has an item
    /// if and only if its type is `FLUSH_ACK`.
    pub fn fits(&self) -> bool
        ensures { IsTrue result ↔ CanWriteAck self.now }
    {
        parts_fit(&self.exts, self.body.len()) && self.body.is_of(self.ack_type)
    }
}
