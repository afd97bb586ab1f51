//! Writes commands (RFC 5740 section 4.2.3), each by one function of its own, except that the two that are kept unread share one. Each
//! asks for an empty datagram.

ghost use Rattle.std.specs.Prelude.{◌≡◌, ◌+◌, ◌≤◌, ◌<◌, ◌%◌, ◌++◌, [], length};
ghost use Rattle.norm_base.specs.Sizes.{datagram_room};
ghost use Rattle.norm_ext.specs.Places.{node_size, object_size, command_header, naming_header};
ghost use Rattle.norm_ext.specs.Numbers.{type_number};
ghost use Rattle.norm_ext.specs.declared.kinds.MessageType.TheVariants as types;
ghost use Rattle.norm_ext.specs.Octets.{octets_of, front_octets, command_octets, requests_octets};
ghost use Rattle.norm_ext.specs.Message.{Flush, Eot, Squelch, RepairAdv, AckReq, Opaque};
ghost use Rattle.norm_ext.specs.Lists.{nodes_of, objects_of};
ghost use Rattle.norm_cmdmsg.specs.View.{command_of};
ghost use Rattle.norm_cmdmsg.specs.CanWrite.{CanWrite, IsNarrow, HasRoom, IsUnread};
ghost use Rattle.norm_cmdmsg.specs.SymbolOctets.{symbol_octets};

use crate::command::CommandMsg;
use fec_plan::PayloadId;
use norm_base::Datagram;
use norm_ext::header::ENCODING_ID;
use norm_ext::places::{COMMAND_WORDS, NAMING_WORDS, WORD};
use norm_ext::pushing::{push_16, push_command_head, push_front, push_name};
use norm_ext::{CmdHead, Extensions, MessageType, Requests, SubType};

/// Writes the common header and the fields at the beginning of a command. `words` is the length of the whole header.
fn push_head(head: &CmdHead, words: u8, sub_type: u8, out: &mut Datagram)
    requires empty { out.old ≡ [] }
    requires head { IsNarrow head.now }
    ensures { out.new ≡ front_octets (type_number types.Command) words head.now.sequence head.now.source ++ command_octets head.now sub_type }
{
    push_front(
        MessageType::Command.number(),
        words,
        head.sequence,
        head.source,
        out,
    );
    push_command_head(head, sub_type, out);
}

/// Appends the FEC Encoding ID, the object and the symbol's name: seven octets.
fn push_symbol(object: u16, id: &PayloadId, out: &mut Datagram)
    requires { length out.old + 7 ≤ datagram_room }
    ensures { out.new ≡ out.old ++ symbol_octets object id.now }
{
    out.push(&[ENCODING_ID]);
    push_16(object, out);
    push_name(id, out);
}

fn write_flush(
    head: &CmdHead,
    object: u16,
    id: &PayloadId,
    exts: &Extensions<'_>,
    nodes: &[u8],
    out: &mut Datagram,
)
    requires empty { out.old ≡ [] }
    requires head { IsNarrow head.now }
    requires room { HasRoom naming_header exts.now nodes.now }
    requires whole { length nodes.now % node_size ≡ 0 }
    ensures { out.new ≡ octets_of (Flush (record { head = head.now; object = object; id = id.now; extensions = exts.now; nodes = nodes_of nodes.now })) }
{
    let spelled = exts.octets();
    let words = NAMING_WORDS + (spelled.len() / WORD) as u8;
    push_head(head, words, SubType::Flush.number(), out);
    push_symbol(object, id, out);
    out.push(spelled);
    out.push(nodes);
}

/// Writes an EOT. Its three reserved octets are 0.
fn write_eot(head: &CmdHead, exts: &Extensions<'_>, out: &mut Datagram)
    requires empty { out.old ≡ [] }
    requires head { IsNarrow head.now }
    requires room { HasRoom command_header exts.now [] }
    ensures { out.new ≡ octets_of (Eot (record { head = head.now; extensions = exts.now })) }
{
    let spelled = exts.octets();
    let words = COMMAND_WORDS + (spelled.len() / WORD) as u8;
    push_head(head, words, SubType::EndOfTransmission.number(), out);
    out.push(&[0; 3]);
    out.push(spelled);
}

fn write_squelch(
    head: &CmdHead,
    object: u16,
    id: &PayloadId,
    exts: &Extensions<'_>,
    invalid: &[u8],
    out: &mut Datagram,
)
    requires empty { out.old ≡ [] }
    requires head { IsNarrow head.now }
    requires room { HasRoom naming_header exts.now invalid.now }
    requires whole { length invalid.now % object_size ≡ 0 }
    ensures { out.new ≡ octets_of (Squelch (record { head = head.now; object = object; id = id.now; extensions = exts.now; invalid = objects_of invalid.now })) }
{
    let spelled = exts.octets();
    let words = NAMING_WORDS + (spelled.len() / WORD) as u8;
    push_head(head, words, SubType::Squelch.number(), out);
    push_symbol(object, id, out);
    out.push(spelled);
    out.push(invalid);
}

fn write_repair_adv(
    head: &CmdHead,
    flags: u8,
    exts: &Extensions<'_>,
    requests: &Requests<'_>,
    out: &mut Datagram,
)
    requires empty { out.old ≡ [] }
    requires head { IsNarrow head.now }
    requires room { HasRoom command_header exts.now (requests_octets requests.now) }
    ensures { out.new ≡ octets_of (RepairAdv (record { head = head.now; flags = flags; extensions = exts.now; requests = requests.now })) }
{
    let spelled = exts.octets();
    let words = COMMAND_WORDS + (spelled.len() / WORD) as u8;
    push_head(head, words, SubType::RepairAdvertisement.number(), out);
    out.push(&[flags, 0, 0]);
    out.push(spelled);
    out.push(requests.octets());
}

fn write_ack_req(
    head: &CmdHead,
    ack_type: u8,
    ack_id: u8,
    exts: &Extensions<'_>,
    nodes: &[u8],
    out: &mut Datagram,
)
    requires empty { out.old ≡ [] }
    requires head { IsNarrow head.now }
    requires room { HasRoom command_header exts.now nodes.now }
    requires whole { length nodes.now % node_size ≡ 0 }
    ensures { out.new ≡ octets_of (AckReq (record { head = head.now; ack_type = ack_type; ack_id = ack_id; extensions = exts.now; nodes = nodes_of nodes.now })) }
{
    let spelled = exts.octets();
    let words = COMMAND_WORDS + (spelled.len() / WORD) as u8;
    push_head(head, words, SubType::AckRequest.number(), out);
    out.push(&[0, ack_type, ack_id]);
    out.push(spelled);
    out.push(nodes);
}

/// Writes a command whose content was kept unread. Its extensions are in `rest` too, so `words` is written as it is.
fn write_opaque(head: &CmdHead, sub_type: u8, words: u8, rest: &[u8], out: &mut Datagram)
    requires empty { out.old ≡ [] }
    requires head { IsNarrow head.now }
    requires room { IsUnread sub_type words rest.now }
    ensures { out.new ≡ octets_of (Opaque (record { head = head.now; sub_type = sub_type; words = words; rest = rest.now })) }
{
    push_head(head, words, sub_type, out);
    out.push(rest);
}

/// Writes a command into an empty datagram. Reserved octets are 0, except in what is kept unread and in lent requests, which is copied. Ask
/// [`fits`](CommandMsg::fits) first if it may not fit.
pub fn write_command(msg: &CommandMsg<'_>, out: &mut Datagram)
    requires empty { out.old ≡ [] }
    requires message { CanWrite msg.now }
    ensures { out.new ≡ octets_of (command_of msg.now) }
{
    match msg {
        CommandMsg::Flush {
            head,
            object,
            id,
            exts,
            nodes,
        } => write_flush(head, *object, id, exts, nodes, out),
        CommandMsg::Eot { head, exts } => write_eot(head, exts, out),
        CommandMsg::Squelch {
            head,
            object,
            id,
            exts,
            invalid,
        } => write_squelch(head, *object, id, exts, invalid, out),
        CommandMsg::RepairAdv {
            head,
            flags,
            exts,
            requests,
        } => write_repair_adv(head, *flags, exts, requests, out),
        CommandMsg::AckReq {
            head,
            ack_type,
            ack_id,
            exts,
            nodes,
        } => write_ack_req(head, *ack_type, *ack_id, exts, nodes, out),
        CommandMsg::Opaque {
            head,
            sub_type,
            words,
            rest,
        } => write_opaque(head, *sub_type, *words, rest, out),
    }
}
