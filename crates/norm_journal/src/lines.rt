//! The lines that a session's events print, except the summary's, and [`of_line`] for nodes that hear several senders. Each call makes
//! at most one line, in the memory of the line before. If memory runs out, the text may hold a prefix of the line.

ghost use Rattle.std.specs.Prelude.{◌≡◌, ◌∷◌, [], ◌++◌, codes, decimal, length, IfOk, OnOk};
ghost use Rattle.std.specs.Option.{option_map};
ghost use Rattle.norm_text.specs.Words.{with_word, with_words, line, kind_word, info_word};
ghost use Rattle.norm_journal.specs.Lines.{line_if, kind_of, quorum_of, enq_line, receipt_line, no_line, gave_line, part_words, up_words, up_line, of_line, done_line, news_line, reason_of, enqueue_reason, number_words};
ghost use Rattle.norm_journal.specs.Words.{origin_words, position_words, node_words};
ghost use Rattle.hex.specs.Hex.{encode_lower};

use crate::words::{put_origin, put_position};
use fec_plan::Position;
use norm_base::{InstanceId, Kind, NodeId, Octets, Origin};
use norm_order::Up;
use norm_script::Verb;
use norm_send_rules::{
    EnqueueFault, MarkFault, News, Outcome, Receipt, SendFault, StreamFault, StrikeFault,
};
use norm_text::{Line, kind_word};
use std::alloc::AllocError;

/// Begins an `enq` line, in place of the line before. The caller adds what was accepted, and the line feed.
fn begin_enq(
    text: &mut Line,
    by: Origin,
    instance: InstanceId,
    index: u32,
) -> Result<(), AllocError>
    ensures { OnOk result (text.new ≡ with_words (codes "enq") (origin_words by ++ decimal instance ∷ decimal index ∷ [])) }
{
    text.restart(b"enq", 0)?;
    put_origin(text, by)?;
    text.number(u64::from(instance.0))?;
    text.number(u64::from(index))?;
    Ok(())
}

fn object_line(
    text: &mut Line,
    by: Origin,
    instance: InstanceId,
    index: u32,
    kind: Kind,
    len: u64,
) -> Result<(), AllocError>
    ensures { OnOk result (text.new ≡ enq_line by instance index (kind_word kind ∷ decimal len ∷ [])) }
{
    begin_enq(text, by, instance, index)?;
    text.word(kind_word(kind).as_bytes())?;
    text.number(len)?;
    text.finish()
}

/// `word` is `open` or `close`.
fn stream_line(
    text: &mut Line,
    by: Origin,
    instance: InstanceId,
    index: u32,
    word: &[u8],
) -> Result<(), AllocError>
    ensures { OnOk result (text.new ≡ enq_line by instance index (word.now ∷ [])) }
{
    begin_enq(text, by, instance, index)?;
    text.word(word)?;
    text.finish()
}

/// `offset` is where the write begins in the stream, and `len` how long it is, both in octets.
fn write_line(
    text: &mut Line,
    by: Origin,
    instance: InstanceId,
    index: u32,
    offset: u32,
    len: u64,
) -> Result<(), AllocError>
    ensures { OnOk result (text.new ≡ enq_line by instance index (codes "write" ∷ decimal len ∷ decimal offset ∷ [])) }
{
    begin_enq(text, by, instance, index)?;
    text.word(b"write")?;
    text.number(len)?;
    text.number(u64::from(offset))?;
    text.finish()
}

/// Begins a watermark's line: all except its quorum.
fn begin_mark(
    text: &mut Line,
    by: Origin,
    instance: InstanceId,
    number: u32,
    at: Position,
) -> Result<(), AllocError>
    ensures { OnOk result (text.new ≡ with_words (codes "mark")
        (origin_words by ++ decimal instance ∷ decimal number ∷ position_words at)) }
{
    text.restart(b"mark", 0)?;
    put_origin(text, by)?;
    text.number(u64::from(instance.0))?;
    text.number(u64::from(number))?;
    put_position(text, at)?;
    Ok(())
}

/// `number` is the watermark's, and `quorum` the command's. If the command gave none, the line has none.
fn mark_line(
    text: &mut Line,
    by: Origin,
    instance: InstanceId,
    number: u32,
    at: Position,
    quorum: Option<u32>,
) -> Result<(), AllocError>
    ensures { OnOk result (text.new ≡ line (codes "mark")
        (origin_words by ++ decimal instance ∷ decimal number ∷ position_words at ++ number_words quorum)) }
{
    begin_mark(text, by, instance, number, at)?;
    if let Some(q) = quorum {
        text.number(u64::from(q))?;
    }
    text.finish()
}

/// `next` is the instance that the sender begins.
fn restart_line(text: &mut Line, by: Origin, next: InstanceId) -> Result<(), AllocError>
    ensures { OnOk result (text.new ≡ line (codes "restart") (origin_words by ++ decimal next ∷ [])) }
{
    text.restart(b"restart", 0)?;
    put_origin(text, by)?;
    text.number(u64::from(next.0))?;
    text.finish()
}

fn strike_line(text: &mut Line, by: Origin, node: NodeId) -> Result<(), AllocError>
    ensures { OnOk result (text.new ≡ line (codes "strike") (origin_words by ++ decimal node ∷ [])) }
{
    text.restart(b"strike", 0)?;
    put_origin(text, by)?;
    text.number(u64::from(node.number()))?;
    text.finish()
}

/// The kind of the object that a command enqueues: a file for the command of a file, and data for any other.
fn kind_of(verb: &Verb) -> Kind
    ensures { result ≡ kind_of verb.now }
{
    match verb {
        Verb::File { .. } => Kind::File,
        _ => Kind::Data,
    }
}

/// The quorum of a command. `None` if it gives none, and for any command but `mark`.
fn quorum_of(verb: &Verb) -> Option<u32>
    ensures { result ≡ quorum_of verb.now }
{
    match verb {
        Verb::Mark { quorum } => *quorum,
        _ => None,
    }
}

/// The line of an accepted command. `instance` is the sender's before the command.
// It goes by the script's line and not by the job: what an object is, and a quorum, stand there, so a command that waits keeps its line alone.
fn receipt_line(
    text: &mut Line,
    by: Origin,
    instance: InstanceId,
    verb: &Verb,
    receipt: &Receipt,
) -> Result<(), AllocError>
    ensures { OnOk result (text.new ≡ receipt_line by instance verb.now receipt.now) }
{
    match receipt {
        Receipt::Object { index, len } => {
            object_line(text, by, instance, *index, kind_of(verb), *len)
        }
        Receipt::Opened { index } => stream_line(text, by, instance, *index, b"open"),
        Receipt::Wrote { index, offset, len } => write_line(
            text, by, instance, *index, *offset, *len,
        ),
        Receipt::Closed { index } => stream_line(text, by, instance, *index, b"close"),
        Receipt::Mark { mark, at } => { mark_line(text, by, instance, *mark, *at, quorum_of(verb)) }
        Receipt::Restarted { instance } => restart_line(text, by, *instance),
        Receipt::Struck { node } => strike_line(text, by, *node),
    }
}

/// The word for a refusal's reason, and its number if it has one.
type Reason = (&'static str, Option<u64>);

/// The reason for which nothing was enqueued. `None` if the refusal has no line, as when the command has to wait.
fn enqueue_reason(fault: &EnqueueFault) -> Option<Reason>
    ensures { option_map (λ reason. (reason.0.now, reason.1)) result ≡ enqueue_reason fault.now }
{
    match fault {
        EnqueueFault::Empty => Some(("empty", None)),
        EnqueueFault::TooBig { len } => Some(("too-big", Some(*len))),
        EnqueueFault::InfoTooBig { len } => Some(("info-too-big", Some(*len))),
        EnqueueFault::StreamOpen { index } => Some(("stream-open", Some(u64::from(*index)))),
        EnqueueFault::NoStream => Some(("no-stream", None)),
        EnqueueFault::IdsSpent => Some(("ids-spent", None)),
        EnqueueFault::Stream(StreamFault::Spent { octets }) => Some((
            "spent",
            Some(u64::from(*octets)),
        )),
        _ => None,
    }
}

fn strike_reason(fault: &StrikeFault) -> Reason
    ensures { Some (result.0.now, result.1) ≡ reason_of (SendFault.Strike fault.now) }
{
    match fault {
        StrikeFault::NotMember { node } => ("not-member", Some(u64::from(node.number()))),
        StrikeFault::LastMember { node } => ("last-member", Some(u64::from(node.number()))),
    }
}

/// The reason for which a command was refused. `None` if the refusal has no line, as when the command has to wait.
fn reason_of(fault: &SendFault) -> Option<Reason>
    ensures { option_map (λ reason. (reason.0.now, reason.1)) result ≡ reason_of fault.now }
{
    match fault {
        SendFault::Enqueue(fault) => enqueue_reason(fault),
        SendFault::Mark(MarkFault::Quorum { q }) => Some(("quorum", Some(u64::from(*q)))),
        SendFault::Mark(MarkFault::NothingEnqueued) => Some(("nothing-enqueued", None)),
        SendFault::Strike(fault) => Some(strike_reason(fault)),
        SendFault::IdUsed { instance } => Some(("id-used", Some(u64::from(instance.0)))),
        _ => None,
    }
}

fn no_line(text: &mut Line, by: Origin, word: &str, number: Option<u64>) -> Result<(), AllocError>
    ensures { OnOk result (text.new ≡ no_line by (word.now, number)) }
{
    text.restart(b"no", 0)?;
    put_origin(text, by)?;
    text.word(word.as_bytes())?;
    if let Some(n) = number {
        text.number(n)?;
    }
    text.finish()
}

/// Makes the line of what the sender answered to a command. `instance` is the sender's before the command. Returns false if there is no line, as when
/// the command has to wait. Then `text` still has the line before.
pub fn gave_line(
    text: &mut Line,
    by: Origin,
    instance: InstanceId,
    verb: &Verb,
    gave: &Result<Receipt, SendFault>,
) -> Result<bool, AllocError>
    ensures { IfOk result (λ has. line_if has text.new ≡ gave_line by instance verb.now gave.now) }
{
    match gave {
        Ok(receipt) => {
            receipt_line(text, by, instance, verb, receipt)?;
            Ok(true)
        }
        Err(fault) => refusal_line(text, by, fault),
    }
}

/// Makes the line of a refused command. Returns false if there is no line, as when the command has to wait. Then `text` still has the line before.
pub fn refusal_line(text: &mut Line, by: Origin, fault: &SendFault) -> Result<bool, AllocError>
    ensures { IfOk result (λ has. line_if has text.new ≡ option_map (no_line by) (reason_of fault.now)) }
{
    match reason_of(fault) {
        Some((word, number)) => {
            no_line(text, by, word, number)?;
            Ok(true)
        }
        None => Ok(false),
    }
}

/// Puts what each hand-up's line has after `up`: a node, the instance that it is in, and an object's index.
fn put_part(
    text: &mut Line,
    node: NodeId,
    instance: InstanceId,
    index: u32,
) -> Result<(), AllocError>
    ensures { OnOk result (text.new ≡ with_words text.old (part_words node instance index [])) }
{
    text.number(u64::from(node.number()))?;
    text.number(u64::from(instance.0))?;
    text.number(u64::from(index))
}

/// Puts the words of a data object or a file. The info and all octets are written as hexadecimal digits.
fn put_object(
    text: &mut Line,
    node: NodeId,
    instance: InstanceId,
    index: u32,
    kind: Kind,
    info: &Option<Octets>,
    octets: &[u8],
) -> Result<(), AllocError>
    ensures { OnOk result (text.new ≡ with_words text.old (part_words node instance index
        (kind_word kind ∷ decimal (length octets.now) ∷ info_word info.now ∷ encode_lower octets.now ∷ []))) }
{
    put_part(text, node, instance, index)?;
    text.word(kind_word(kind).as_bytes())?;
    text.number(octets.len() as u64)?;
    text.info(info)?;
    text.contents(octets)
}

/// Puts the words of stream octets, with all of them as hexadecimal digits. `offset` is that of the first in the stream.
fn put_bytes(
    text: &mut Line,
    node: NodeId,
    instance: InstanceId,
    index: u32,
    offset: u32,
    octets: &[u8],
) -> Result<(), AllocError>
    ensures { OnOk result (text.new ≡ with_words text.old (part_words node instance index
        (codes "bytes" ∷ decimal offset ∷ decimal (length octets.now) ∷ encode_lower octets.now ∷ []))) }
{
    put_part(text, node, instance, index)?;
    text.word(b"bytes")?;
    text.number(u64::from(offset))?;
    text.number(octets.len() as u64)?;
    text.contents(octets)
}

/// Puts the words of a hand-up that has only one word after the object's index.
fn put_word(
    text: &mut Line,
    node: NodeId,
    instance: InstanceId,
    index: u32,
    word: &[u8],
) -> Result<(), AllocError>
    ensures { OnOk result (text.new ≡ with_words text.old (part_words node instance index (word.now ∷ []))) }
{
    put_part(text, node, instance, index)?;
    text.word(word)
}

fn put_up(text: &mut Line, node: NodeId, instance: InstanceId, up: &Up) -> Result<(), AllocError>
    ensures { OnOk result (text.new ≡ with_words text.old (up_words node instance up.now)) }
{
    match up {
        Up::Object {
            index,
            kind,
            info,
            bytes,
        } => put_object(text, node, instance, *index, *kind, info, bytes.bytes()),
        Up::StreamOpen { index } => put_word(text, node, instance, *index, b"open"),
        Up::StreamBytes {
            index,
            offset,
            bytes,
        } => put_bytes(text, node, instance, *index, *offset, bytes.bytes()),
        Up::StreamEnd { index } => put_word(text, node, instance, *index, b"end"),
        Up::Lost { index } => put_word(text, node, instance, *index, b"lost"),
    }
}

/// The length of an info in octets, 0 if there is none.
fn info_len(info: &Option<Octets>) -> usize {
    match info {
        Some(info) => info.bytes().len(),
        None => 0,
    }
}

/// How many octets of contents the line of a hand-up shows. The line reserves room for their digits.
fn contents_of(up: &Up) -> usize {
    match up {
        Up::Object { info, bytes, .. } => info_len(info).saturating_add(bytes.bytes().len()),
        Up::StreamBytes { bytes, .. } => bytes.bytes().len(),
        Up::StreamOpen { .. } | Up::StreamEnd { .. } | Up::Lost { .. } => 0,
    }
}

/// Makes the line of a hand-up of a node that is in this instance. It has all octets, at two digits each.
pub fn up_line(
    text: &mut Line,
    node: NodeId,
    instance: InstanceId,
    up: &Up,
) -> Result<(), AllocError>
    ensures { OnOk result (text.new ≡ up_line node instance up.now) }
{
    text.restart(b"up", contents_of(up))?;
    put_up(text, node, instance, up)?;
    text.finish()
}

/// Makes the line of a hand-up for a node that hears several senders: `of`, the sender, and the words of [`up_line`]. `sender` sent what is
/// handed up.
// `driven_nodes` calls it for `gather`.
pub fn of_line(
    text: &mut Line,
    sender: NodeId,
    node: NodeId,
    instance: InstanceId,
    up: &Up,
) -> Result<(), AllocError>
    ensures { OnOk result (text.new ≡ of_line sender node instance up.now) }
{
    text.restart(b"of", contents_of(up))?;
    text.number(u64::from(sender.number()))?;
    text.word(b"up")?;
    put_up(text, node, instance, up)?;
    text.finish()
}

/// `at` is the position up to which this receiver is listed.
fn past_line(
    text: &mut Line,
    instance: InstanceId,
    node: NodeId,
    at: Position,
) -> Result<(), AllocError>
    ensures { OnOk result (text.new ≡ line (codes "past") (decimal node ∷ decimal instance ∷ position_words at)) }
{
    text.restart(b"past", 0)?;
    text.number(u64::from(node.number()))?;
    text.number(u64::from(instance.0))?;
    put_position(text, at)?;
    text.finish()
}

/// `word` is `satisfied` or `cut`.
fn ended_line(text: &mut Line, mark: u32, word: &[u8]) -> Result<(), AllocError>
    ensures { OnOk result (text.new ≡ line (codes "done") (decimal mark ∷ word.now ∷ [])) }
{
    text.restart(b"done", 0)?;
    text.number(u64::from(mark))?;
    text.word(word)?;
    text.finish()
}

fn put_node(text: &mut Line, node: NodeId) -> Result<(), AllocError>
    ensures { OnOk result (text.new ≡ with_word text.old (decimal node)) }
{
    text.number(u64::from(node.number()))
}

fn put_nodes(text: &mut Line, nodes: &[NodeId]) -> Result<(), AllocError>
    ensures { OnOk result (text.new ≡ with_words text.old (node_words nodes.now)) }
{
    for node in nodes {
        put_node(text, *node)?;
    }
    Ok(())
}

/// The line of a watermark that expired, with the ids of the members that did not confirm it.
fn expired_line(text: &mut Line, mark: u32, left: &[NodeId]) -> Result<(), AllocError>
    ensures { OnOk result (text.new ≡ line (codes "done") (decimal mark ∷ codes "expired" ∷ node_words left.now)) }
{
    text.restart(b"done", 0)?;
    text.number(u64::from(mark))?;
    text.word(b"expired")?;
    put_nodes(text, left)?;
    text.finish()
}

/// Makes the line of a change that the sender reported in this instance. `left` are the members that did not confirm a watermark, and are written only
/// if it expired. Returns false if the watermark is still open. Then `text` still has the line before.
pub fn news_line(
    text: &mut Line,
    instance: InstanceId,
    left: &[NodeId],
    news: &News,
) -> Result<bool, AllocError>
    ensures { IfOk result (λ has. line_if has text.new ≡ news_line instance left.now news.now) }
{
    match news {
        News::Past { node, at } => {
            past_line(text, instance, *node, *at)?;
            Ok(true)
        }
        News::Done { mark, outcome } => done_line(text, *mark, left, outcome),
    }
}

/// Returns false, and leaves `text` as it is, if the watermark is still open.
fn done_line(
    text: &mut Line,
    mark: u32,
    left: &[NodeId],
    outcome: &Outcome,
) -> Result<bool, AllocError>
    ensures { IfOk result (λ has. line_if has text.new ≡ done_line mark left.now outcome.now) }
{
    match outcome {
        Outcome::Open { .. } => Ok(false),
        Outcome::Satisfied => {
            ended_line(text, mark, b"satisfied")?;
            Ok(true)
        }
        Outcome::Expired { .. } => {
            expired_line(text, mark, left)?;
            Ok(true)
        }
        Outcome::Cut => {
            ended_line(text, mark, b"cut")?;
            Ok(true)
        }
    }
}
