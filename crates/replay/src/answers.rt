//! Makes the lines that a replay prints. `receiving` and `sending` call its functions; `run` and `node` call only [`said`].

use norm_base::{Datagram, InstanceId, Sent};
use norm_order::Up;
use norm_send_rules::{
    EnqueueFault, MarkFault, News, Outcome, Receipt, SendFault, StreamFault, StrikeFault,
};
use norm_text::{Line, kind_word};
use row_words::Fault;
use std::alloc::Global;

/// Begins a line with one word, to which others may be added. Fails only if memory runs out.
pub(crate) fn said(alloc: Global, word: &str) -> Result<Line, Fault> {
    Ok(Line::begin(alloc, word.as_bytes(), 0)?)
}

/// Begins a line with a word and decimal numbers. Fails only if memory runs out.
pub(crate) fn counted(alloc: Global, word: &str, numbers: &[u64]) -> Result<Line, Fault> {
    let mut line = said(alloc, word)?;
    line.numbers(numbers)?;
    Ok(line)
}

/// Begins the line of a refused command: `refused`, the reason and its numbers.
fn refused(alloc: Global, word: &str, numbers: &[u64]) -> Result<Line, Fault> {
    let mut line = said(alloc, "refused")?;
    line.word(word.as_bytes())?;
    line.numbers(numbers)?;
    Ok(line)
}

/// Returns the line of a tick: the datagram in hexadecimal, or `nothing`.
pub(crate) fn sent(alloc: Global, sent: Sent, datagram: &Datagram) -> Result<Line, Fault> {
    match sent {
        Sent::Nothing => said(alloc, "nothing"),
        Sent::Datagram => {
            let octets = datagram.bytes();
            let mut line = Line::begin(alloc, b"sent", octets.len())?;
            line.contents(octets)?;
            Ok(line)
        }
    }
}

/// Adds an instance, or a dash if there is none: a receiver that heard nothing has none.
pub(crate) fn instance(line: &mut Line, instance: Option<InstanceId>) -> Result<(), Fault> {
    match instance {
        Some(instance) => line.number(u64::from(instance.0))?,
        None => line.word(b"-")?,
    }
    Ok(())
}

/// Adds `yes` or `no`.
pub(crate) fn decided(line: &mut Line, is_so: bool) -> Result<(), Fault> {
    let word = if is_so { "yes" } else { "no" };
    line.word(word.as_bytes())?;
    Ok(())
}

/// Returns the line of a hand-up, with the octets of an object or a stream in hexadecimal.
pub(crate) fn taken(alloc: Global, up: &Up) -> Result<Line, Fault> {
    match up {
        Up::Object {
            index,
            kind,
            info,
            bytes,
        } => {
            let octets = bytes.bytes();
            let mut line = Line::begin(alloc, b"object", octets.len())?;
            line.number(u64::from(*index))?;
            line.word(kind_word(*kind).as_bytes())?;
            line.info(info)?;
            line.contents(octets)?;
            Ok(line)
        }
        Up::StreamBytes {
            index,
            offset,
            bytes,
        } => {
            let octets = bytes.bytes();
            let mut line = Line::begin(alloc, b"bytes", octets.len())?;
            line.numbers(&[u64::from(*index), u64::from(*offset)])?;
            line.contents(octets)?;
            Ok(line)
        }
        Up::StreamOpen { index } => counted(alloc, "open", &[u64::from(*index)]),
        Up::StreamEnd { index } => counted(alloc, "end", &[u64::from(*index)]),
        Up::Lost { index } => counted(alloc, "lost", &[u64::from(*index)]),
    }
}

/// Returns the line of a watermark's outcome. `left` is how many members have not confirmed it.
fn ended(alloc: Global, mark: u32, outcome: Outcome) -> Result<Line, Fault> {
    let mut line = counted(alloc, "done", &[u64::from(mark)])?;
    match outcome {
        Outcome::Open { left } => {
            line.word(b"open")?;
            line.number(u64::from(left))?;
        }
        Outcome::Satisfied => line.word(b"satisfied")?,
        Outcome::Expired { left } => {
            line.word(b"expired")?;
            line.number(u64::from(left))?;
        }
        Outcome::Cut => line.word(b"cut")?,
    }
    Ok(line)
}

pub(crate) fn told(alloc: Global, news: News) -> Result<Line, Fault> {
    match news {
        News::Past { node, at } => counted(
            alloc,
            "past",
            &[
                u64::from(node.number()),
                u64::from(at.index),
                u64::from(at.block),
                u64::from(at.symbol),
            ],
        ),
        News::Done { mark, outcome } => ended(alloc, mark, outcome),
    }
}

fn received(alloc: Global, receipt: Receipt) -> Result<Line, Fault> {
    match receipt {
        Receipt::Object { index, len } => counted(alloc, "object", &[u64::from(index), len]),
        Receipt::Opened { index } => counted(alloc, "opened", &[u64::from(index)]),
        Receipt::Wrote { index, offset, len } => {
            counted(alloc, "wrote", &[u64::from(index), u64::from(offset), len])
        }
        Receipt::Closed { index } => counted(alloc, "closed", &[u64::from(index)]),
        Receipt::Mark { mark, at } => counted(
            alloc,
            "mark",
            &[
                u64::from(mark),
                u64::from(at.index),
                u64::from(at.block),
                u64::from(at.symbol),
            ],
        ),
        Receipt::Restarted { instance } => { counted(alloc, "restarted", &[u64::from(instance.0)]) }
        Receipt::Struck { node } => counted(alloc, "struck", &[u64::from(node.number())]),
    }
}

fn stream_refused(alloc: Global, fault: StreamFault) -> Result<Line, Fault> {
    match fault {
        StreamFault::Closed => refused(alloc, "closed", &[]),
        StreamFault::Spent { octets } => refused(alloc, "spent", &[u64::from(octets)]),
        StreamFault::Full { first } => refused(alloc, "stream-full", &[u64::from(first)]),
    }
}

/// Returns the line of a command that enqueued nothing. A lack of memory is no refusal, and its line is `memory`.
fn enqueue_refused(alloc: Global, fault: EnqueueFault) -> Result<Line, Fault> {
    match fault {
        EnqueueFault::Empty => refused(alloc, "empty", &[]),
        EnqueueFault::TooBig { len } => refused(alloc, "too-big", &[len]),
        EnqueueFault::InfoTooBig { len } => refused(alloc, "info-too-big", &[len]),
        EnqueueFault::StreamOpen { index } => refused(alloc, "stream-open", &[u64::from(index)]),
        EnqueueFault::NoStream => refused(alloc, "no-stream", &[]),
        EnqueueFault::IdsSpent => refused(alloc, "ids-spent", &[]),
        EnqueueFault::Stream(fault) => stream_refused(alloc, fault),
        EnqueueFault::WindowFull { first } => refused(alloc, "window-full", &[u64::from(first)]),
        EnqueueFault::Memory => said(alloc, "memory"),
    }
}

fn mark_refused(alloc: Global, fault: MarkFault) -> Result<Line, Fault> {
    match fault {
        MarkFault::Quorum { q } => refused(alloc, "quorum", &[u64::from(q)]),
        MarkFault::NothingEnqueued => refused(alloc, "nothing-enqueued", &[]),
        MarkFault::TooMany { count } => refused(alloc, "too-many", &[u64::from(count)]),
        MarkFault::Memory => said(alloc, "memory"),
    }
}

fn strike_refused(alloc: Global, fault: StrikeFault) -> Result<Line, Fault> {
    match fault {
        StrikeFault::NotMember { node } => {
            refused(alloc, "not-member", &[u64::from(node.number())])
        }
        StrikeFault::LastMember { node } => {
            refused(alloc, "last-member", &[u64::from(node.number())])
        }
    }
}

/// Returns the line of a command that failed: `refused` with a reason of its own for each fault, or `memory`.
pub(crate) fn command_refused(alloc: Global, fault: SendFault) -> Result<Line, Fault> {
    match fault {
        SendFault::Enqueue(fault) => enqueue_refused(alloc, fault),
        SendFault::Mark(fault) => mark_refused(alloc, fault),
        SendFault::Strike(fault) => strike_refused(alloc, fault),
        SendFault::IdUsed { instance } => refused(alloc, "id-used", &[u64::from(instance.0)]),
        SendFault::Memory => said(alloc, "memory"),
    }
}

/// Returns the line of a command: its receipt, or why it gave none.
pub(crate) fn commanded(alloc: Global, gave: Result<Receipt, SendFault>) -> Result<Line, Fault> {
    match gave {
        Ok(receipt) => received(alloc, receipt),
        Err(fault) => command_refused(alloc, fault),
    }
}
