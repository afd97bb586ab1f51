//! The commands of a sender as values, and which of them can be written.

ghost use Rattle.std.specs.Prelude.{◌≡◌, ◌*◌, ◌≤◌, ◌↔◌, ◌%◌, ◌⊎◌, IsTrue, [], length};
ghost use Rattle.norm_ext.specs.Octets.{requests_octets};
ghost use Rattle.norm_ext.specs.Places.{word_size, most_header_words, command_header};
ghost use Rattle.norm_cmdmsg.specs.CanWrite.{CanWrite, IsNarrow, HasRoom, IsUnread};

use fec_plan::PayloadId;
use norm_base::DATAGRAM_ROOM;
use norm_ext::fitting::{has_room, is_narrow};
use norm_ext::places::{COMMAND, COMMAND_WORDS, NAMING, NODE, OBJECT, SUB_TYPE_AT, WORD};
use norm_ext::{CmdHead, Extensions, Requests, SubType};

/// The octets before the `rest` of a command that is kept unread.
// The common header and the fields of each command up to its sub-type (RFC 5740 section 4.2.3).
pub(crate) const BEFORE_REST: usize = SUB_TYPE_AT + 1;

/// A command. If it was read, it borrows from the datagram.
#[derive(Debug, Drop)]
pub enum CommandMsg<'a> {
    /// The sender sent everything up to this symbol, and these nodes should acknowledge it.
    Flush {
        head: CmdHead,
        /// The object transport id.
        object: u16,
        id: PayloadId,
        exts: Extensions<'a>,
        /// Node ids of 32 bits, for [`nodes_of`](crate::nodes_of). If the command was read, some may still be no members.
        nodes: &'a [u8],
    },
    /// The sender's transmission ends. Nothing follows the header.
    Eot {
        head: CmdHead,
        exts: Extensions<'a>,
    },
    /// The sender no longer repairs anything before this symbol, nor these objects.
    Squelch {
        head: CmdHead,
        object: u16,
        id: PayloadId,
        exts: Extensions<'a>,
        /// Object transport ids of 16 bits, for [`objects_of`](crate::objects_of).
        invalid: &'a [u8],
    },
    /// The sender already received these requests, so receivers need not send them.
    RepairAdv {
        head: CmdHead,
        flags: u8,
        exts: Extensions<'a>,
        requests: Requests<'a>,
    },
    /// These nodes should send an acknowledgement of this type and id.
    AckReq {
        head: CmdHead,
        ack_type: u8,
        ack_id: u8,
        exts: Extensions<'a>,
        nodes: &'a [u8],
    },
    /// A command for congestion control, or one of an application. Its content is kept unread.
    Opaque {
        head: CmdHead,
        /// 4 for congestion control, 7 for an application.
        sub_type: u8,
        /// The length of the header in words of 32 bits.
        words: u8,
        /// All octets after the sub-type.
        rest: &'a [u8],
    },
}

fn head_fits(head: &CmdHead) -> bool
    ensures { IsTrue result ↔ IsNarrow head.now }
{
    is_narrow(head.backoff, head.gsize)
}

fn parts_fit(fixed: usize, exts: &Extensions<'_>, content: &[u8]) -> bool
    requires { fixed ≤ word_size * most_header_words }
    ensures { IsTrue result ↔ HasRoom fixed exts.now content.now }
{
    has_room(fixed, exts, content.len())
}

fn adv_fits(exts: &Extensions<'_>, requests: &Requests<'_>) -> bool
    ensures { IsTrue result ↔ HasRoom command_header exts.now (requests_octets requests.now) }
{
    parts_fit(COMMAND, exts, requests.octets())
}

/// Whether an unread command has sub-type 4 or 7, has a whole header of `words` words, and fits into a datagram.
fn unread_fits(sub_type: u8, words: u8, rest: &[u8]) -> bool
    ensures { IsTrue result ↔ IsUnread sub_type words rest.now }
{
    let known = sub_type == SubType::CongestionControl.number()
        || sub_type == SubType::Application.number();
    let short = rest.len() <= DATAGRAM_ROOM - BEFORE_REST;
    known
        && short
        && words >= COMMAND_WORDS
        && WORD * usize::from(words) <= BEFORE_REST + rest.len()
}

impl<'a> CommandMsg<'a> {
    /// Whether [`write_command`](crate::write_command) can write it:
    /// - `backoff` and `gsize` are below 16;
    /// - its node ids have four octets each, and its object ids two;
    /// - its header has at most 255 words, and the datagram at most 1,500 octets;
    /// - if it is kept unread, it has sub-type 4 or 7, and at least the header that `words` says, of four words or more.
    pub fn fits(&self) -> bool
        ensures { IsTrue result ↔ CanWrite self.now }
    {
        match self {
            CommandMsg::Flush {
                head,
                exts,
                nodes,
                ..
            } => head_fits(head) && parts_fit(NAMING, exts, nodes) && nodes.len() % NODE == 0,
            CommandMsg::Eot { head, exts } => head_fits(head) && parts_fit(COMMAND, exts, &[]),
            CommandMsg::Squelch {
                head,
                exts,
                invalid,
                ..
            } => head_fits(head) && parts_fit(NAMING, exts, invalid) && invalid.len() % OBJECT == 0,
            CommandMsg::RepairAdv {
                head,
                exts,
                requests,
                ..
            } => head_fits(head) && adv_fits(exts, requests),
            CommandMsg::AckReq {
                head,
                exts,
                nodes,
                ..
            } => head_fits(head) && parts_fit(COMMAND, exts, nodes) && nodes.len() % NODE == 0,
            CommandMsg::Opaque {
                head,
                sub_type,
                words,
                rest,
            } => head_fits(head) && unread_fits(*sub_type, *words, rest),
        }
    }
}
