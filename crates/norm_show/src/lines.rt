//! Makes the line of each message and of each refusal. `show_line` calls [`message_text`] and [`refused_text`]. All fail only if
//! memory runs out.

ghost use Rattle.std.specs.Prelude.{◌≡◌, ◌∷◌, [], ◌++◌, codes, decimal, map, IfOk, OnOk};
ghost use Rattle.norm_ext.specs.Lists.{nodes_of, objects_of};
ghost use Rattle.norm_codec.specs.View.{message_of};
ghost use Rattle.norm_cmdmsg.specs.View.{command_of};
ghost use Rattle.norm_fbmsg.specs.View.{nack_of, ack_of, content_of};
ghost use Rattle.norm_objmsg.specs.MessageView.{info_of, data_of};
ghost use Rattle.norm_text.specs.Words.{line, with_words, numbers_word};
ghost use Rattle.norm_show.specs.Words.{command_words, symbol_words, requests_word};
ghost use Rattle.norm_show.specs.Line.{ack_words, message_line, refused_line};

use crate::lists::{put_nodes, put_objects, put_requests};
use crate::words::{put_command, put_fti, put_object, put_receiver, put_symbol};
use norm_cmdmsg::CommandMsg;
use norm_codec::{Message, Refusal};
use norm_ext::{CmdHead, Item, Requests};
use norm_fbmsg::{AckBody, AckMsg, NackMsg};
use norm_objmsg::{DataMsg, InfoMsg};
use norm_text::Line;
use std::alloc::{AllocError, Global};

/// Returns the line of INFO (RFC 5740 section 4.2.2): its head, and its transmission information and its octets, each a dash if there is none.
fn info_text(alloc: Global, msg: &InfoMsg<'_>) -> Result<Vec<u8>, AllocError>
    ensures { IfOk result (λ text. text.items ≡ message_line (info_of msg.now)) }
{
    let mut line = Line::begin(alloc, b"info", msg.info.len())?;
    put_object(&mut line, &msg.head)?;
    put_fti(&mut line, &msg.exts)?;
    line.contents_or_dash(msg.info)?;
    line.end()
}

/// Returns the line of DATA (RFC 5740 section 4.2.1): its head, its symbol, its transmission information and the octets of the symbol.
fn data_text(alloc: Global, msg: &DataMsg<'_>) -> Result<Vec<u8>, AllocError>
    ensures { IfOk result (λ text. text.items ≡ message_line (data_of msg.now)) }
{
    let mut line = Line::begin(alloc, b"data", msg.payload.len())?;
    put_object(&mut line, &msg.head)?;
    line.number(u64::from(msg.id.block))?;
    line.number(u64::from(msg.id.symbol))?;
    put_fti(&mut line, &msg.exts)?;
    line.contents_or_dash(msg.payload)?;
    line.end()
}

/// Returns the beginning of a command's line. `list` is how many octets its list has in the message: a guess of the room for it. If its numbers are
/// long, the line takes more memory as it grows.
fn begin_command(
    alloc: Global,
    name: &[u8],
    head: &CmdHead,
    list: usize,
) -> Result<Line, AllocError>
    ensures { IfOk result (λ text. text ≡ with_words name.now (command_words head.now)) }
{
    let mut line = Line::begin(alloc, name, list)?;
    put_command(&mut line, head)?;
    Ok(line)
}

/// Returns the line of FLUSH (RFC 5740 section 4.2.3.1): its head, its position and the members that are to acknowledge it.
fn flush_text(
    alloc: Global,
    head: &CmdHead,
    symbol: Item,
    nodes: &[u8],
) -> Result<Vec<u8>, AllocError>
    ensures { IfOk result (λ text. text.items ≡ line (codes "flush")
        (command_words head.now ++ (symbol_words symbol.object symbol.id.block symbol.id.symbol ++ numbers_word (nodes_of nodes.now) ∷ []))) }
{
    let mut line = begin_command(alloc, b"flush", head, nodes.len())?;
    put_symbol(&mut line, symbol)?;
    put_nodes(&mut line, nodes)?;
    line.end()
}

/// Returns the line of SQUELCH (RFC 5740 section 4.2.3.3): its head, its position and the transport ids of the invalid objects.
fn squelch_text(
    alloc: Global,
    head: &CmdHead,
    symbol: Item,
    invalid: &[u8],
) -> Result<Vec<u8>, AllocError>
    ensures { IfOk result (λ text. text.items ≡ line (codes "squelch")
        (command_words head.now ++ (symbol_words symbol.object symbol.id.block symbol.id.symbol ++ numbers_word (objects_of invalid.now) ∷ []))) }
{
    let mut line = begin_command(alloc, b"squelch", head, invalid.len())?;
    put_symbol(&mut line, symbol)?;
    put_objects(&mut line, invalid)?;
    line.end()
}

/// Returns the line of REPAIR_ADV (RFC 5740 section 4.2.3.5): its head, its flags and the requests that it advertises.
fn adv_text(
    alloc: Global,
    head: &CmdHead,
    flags: u8,
    requests: &Requests<'_>,
) -> Result<Vec<u8>, AllocError>
    ensures { IfOk result (λ text. text.items ≡ line (codes "adv")
        (command_words head.now ++ decimal flags ∷ requests_word requests.now ∷ [])) }
{
    let mut line = begin_command(alloc, b"adv", head, requests.octets().len())?;
    line.number(u64::from(flags))?;
    put_requests(&mut line, requests)?;
    line.end()
}

/// Returns the line of ACK_REQ (RFC 5740 section 4.2.3.6): its head, the type and the id of what it asks for, and the members that it asks.
fn ackreq_text(
    alloc: Global,
    head: &CmdHead,
    ack_type: u8,
    ack_id: u8,
    nodes: &[u8],
) -> Result<Vec<u8>, AllocError>
    ensures { IfOk result (λ text. text.items ≡ line (codes "ackreq")
        (command_words head.now ++ decimal ack_type ∷ decimal ack_id ∷ numbers_word (nodes_of nodes.now) ∷ [])) }
{
    let mut line = begin_command(alloc, b"ackreq", head, nodes.len())?;
    line.number(u64::from(ack_type))?;
    line.number(u64::from(ack_id))?;
    put_nodes(&mut line, nodes)?;
    line.end()
}

/// Returns the line of EOT (RFC 5740 section 4.2.3.2), which has no words but those of its head.
fn eot_text(alloc: Global, head: &CmdHead) -> Result<Vec<u8>, AllocError>
    ensures { IfOk result (λ text. text.items ≡ line (codes "eot") (command_words head.now)) }
{
    begin_command(alloc, b"eot", head, 0)?.end()
}

/// Returns the line of a command that `norm_codec` does not read: its head and its sub-type.
fn opaque_text(alloc: Global, head: &CmdHead, sub_type: u8) -> Result<Vec<u8>, AllocError>
    ensures { IfOk result (λ text. text.items ≡ line (codes "opaque") (command_words head.now ++ decimal sub_type ∷ [])) }
{
    let mut line = begin_command(alloc, b"opaque", head, 0)?;
    line.number(u64::from(sub_type))?;
    line.end()
}

fn command_text(alloc: Global, msg: &CommandMsg<'_>) -> Result<Vec<u8>, AllocError>
    ensures { IfOk result (λ text. text.items ≡ message_line (command_of msg.now)) }
{
    match msg {
        CommandMsg::Flush {
            head,
            object,
            id,
            nodes,
            ..
        } => {
            let symbol = Item {
                object: *object,
                id: *id,
            };
            flush_text(alloc, head, symbol, nodes)
        }
        CommandMsg::Eot { head, .. } => eot_text(alloc, head),
        CommandMsg::Squelch {
            head,
            object,
            id,
            invalid,
            ..
        } => {
            let symbol = Item {
                object: *object,
                id: *id,
            };
            squelch_text(alloc, head, symbol, invalid)
        }
        CommandMsg::RepairAdv {
            head,
            flags,
            requests,
            ..
        } => adv_text(alloc, head, *flags, requests),
        CommandMsg::AckReq {
            head,
            ack_type,
            ack_id,
            nodes,
            ..
        } => ackreq_text(alloc, head, *ack_type, *ack_id, nodes),
        CommandMsg::Opaque { head, sub_type, .. } => opaque_text(alloc, head, *sub_type),
    }
}

/// Returns the line of NACK (RFC 5740 section 4.3.1): its head and its requests.
fn nack_text(alloc: Global, msg: &NackMsg<'_>) -> Result<Vec<u8>, AllocError>
    ensures { IfOk result (λ text. text.items ≡ message_line (nack_of msg.now)) }
{
    let mut line = Line::begin(alloc, b"nack", msg.requests.octets().len())?;
    put_receiver(
        &mut line,
        msg.source,
        msg.sequence,
        msg.sender,
        msg.instance,
    )?;
    put_requests(&mut line, &msg.requests)?;
    line.end()
}

/// Adds the position that an ACK of a flush confirms. Of any other ACK, adds `opaque` and the length of its content.
fn put_body(line: &mut Line, body: &AckBody<'_>) -> Result<(), AllocError>
    ensures { OnOk result (line.new ≡ with_words line.old (ack_words (content_of body.now))) }
{
    match body {
        AckBody::Mark(item) => put_symbol(line, *item),
        AckBody::Opaque(octets) => {
            line.word(b"opaque")?;
            line.number(octets.len() as u64)
        }
    }
}

/// Returns the line of ACK (RFC 5740 section 4.3.2): its head, its type and id, and what it confirms.
fn ack_text(alloc: Global, msg: &AckMsg<'_>) -> Result<Vec<u8>, AllocError>
    ensures { IfOk result (λ text. text.items ≡ message_line (ack_of msg.now)) }
{
    let mut line = Line::begin(alloc, b"ack", 0)?;
    put_receiver(
        &mut line,
        msg.source,
        msg.sequence,
        msg.sender,
        msg.instance,
    )?;
    line.number(u64::from(msg.ack_type))?;
    line.number(u64::from(msg.ack_id))?;
    put_body(&mut line, &msg.body)?;
    line.end()
}

/// Returns the line of REPORT (RFC 5740 section 4.4.1). What else a report holds is not shown.
fn report_text(alloc: Global, source: u32, sequence: u16) -> Result<Vec<u8>, AllocError>
    ensures { IfOk result (λ text. text.items ≡ line (codes "report") (decimal source ∷ decimal sequence ∷ [])) }
{
    let mut line = Line::begin(alloc, b"report", 0)?;
    line.number(u64::from(source))?;
    line.number(u64::from(sequence))?;
    line.end()
}

/// Returns the line of a message that was decoded. Of its extensions only the transmission information of INFO and DATA is shown.
pub(crate) fn message_text(alloc: Global, msg: &Message<'_>) -> Result<Vec<u8>, AllocError>
    ensures { IfOk result (λ text. text.items ≡ message_line (message_of msg.now)) }
{
    match msg {
        Message::Info(m) => info_text(alloc, m),
        Message::Data(m) => data_text(alloc, m),
        Message::Command(m) => command_text(alloc, m),
        Message::Nack(m) => nack_text(alloc, m),
        Message::Ack(m) => ack_text(alloc, m),
        Message::Report {
            source,
            sequence,
            ..
        } => report_text(alloc, source.number(), *sequence),
    }
}

/// Returns the line of a refused datagram: the reason, and the offset or the numbers that go with it.
fn reason_text(alloc: Global, reason: &[u8], numbers: &[u64]) -> Result<Vec<u8>, AllocError>
    ensures { IfOk result (λ text. text.items ≡ line (codes "refused") (reason.now ∷ map decimal numbers.now)) }
{
    let mut line = Line::begin(alloc, b"refused", 0)?;
    line.word(reason)?;
    line.numbers(numbers)?;
    line.end()
}

/// Returns the line of a refused datagram. Each refusal has a word of its own.
pub(crate) fn refused_text(alloc: Global, refusal: Refusal) -> Result<Vec<u8>, AllocError>
    ensures { IfOk result (λ text. text.items ≡ refused_line refusal) }
{
    match refusal {
        Refusal::Short { len } => reason_text(alloc, b"short", &[len as u64]),
        Refusal::Version { v } => reason_text(alloc, b"version", &[u64::from(v)]),
        Refusal::BadType { t } => reason_text(alloc, b"type", &[u64::from(t)]),
        Refusal::HeaderLength { words, least } => reason_text(
            alloc,
            b"header",
            &[u64::from(words), u64::from(least)],
        ),
        Refusal::PastEnd { words, len } => {
            reason_text(alloc, b"past-end", &[u64::from(words), len as u64])
        }
        Refusal::FecId { id } => reason_text(alloc, b"fec-id", &[u64::from(id)]),
        Refusal::SubType { s } => reason_text(alloc, b"sub-type", &[u64::from(s)]),
        Refusal::Ext { at } => reason_text(alloc, b"extension", &[at as u64]),
        Refusal::RequestForm { at } => reason_text(alloc, b"form", &[at as u64]),
        Refusal::RequestLength { at } => reason_text(alloc, b"length", &[at as u64]),
        Refusal::ItemFec { at, id } => reason_text(alloc, b"item-fec", &[at as u64, u64::from(id)]),
        Refusal::BadNode => reason_text(alloc, b"node", &[]),
        Refusal::BadList { rest } => reason_text(alloc, b"list", &[rest as u64]),
    }
}
