//! Makes the calls of a receiver from the words of an event. `run` calls [`run_receiver`].

ghost use Rattle.std.specs.Prelude.{IfOk};
ghost use Rattle.replay.specs.Left.{GoesOn};

use crate::answers::{counted, decided, instance, said, sent, taken};
use crate::events::{Event, Events, Verb};
use crate::node::{Node, drive};
use norm_base::{Datagram, Memory, Moment, NodeId, Profile, Sink};
use norm_receiver::Receiver;
use norm_text::Line;
use row_words::{Fault, Words};
use std::alloc::Global;

/// Reads a moment, a draw and a datagram, and delivers the datagram. The draw decides a back-off.
fn deliver(
    alloc: Global,
    receiver: &mut Receiver,
    words: &mut Words<'_>,
) -> Result<Option<Line>, Fault> {
    let (Some(now), Some(draw)) = (words.number(), words.number32()) else {
        return Ok(None);
    };
    let Some(octets) = words.octets(alloc)? else {
        return Ok(None);
    };
    let word = match receiver.deliver(octets.bytes(), Moment(now), draw) {
        Ok(()) => "done",
        Err(Memory) => "memory",
    };
    Ok(Some(said(alloc, word)?))
}

/// Reads a moment and ticks. If a hand-up was not taken yet, the receiver does not tick.
fn tick(
    alloc: Global,
    receiver: &mut Receiver,
    words: &mut Words<'_>,
    out: &mut Datagram,
) -> Result<Option<Line>, Fault> {
    let Some(now) = words.number() else {
        return Ok(None);
    };
    // The receiver's condition for a tick. Events of a file may come in any order, so it is asked and answered.
    if receiver.ups() > 0 {
        return Ok(Some(said(alloc, "untaken")?));
    }
    let given = receiver.tick(Moment(now), out);
    Ok(Some(sent(alloc, given, out)?))
}

/// Takes the next hand-up. The line is `none` if there is none.
fn take(alloc: Global, receiver: &mut Receiver) -> Result<Option<Line>, Fault> {
    match receiver.take_up() {
        Some(up) => Ok(Some(taken(alloc, &up)?)),
        None => Ok(Some(said(alloc, "none")?)),
    }
}

/// Writes the position of the acknowledgement that is due, or a dash if none is.
fn due(line: &mut Line, receiver: &Receiver) -> Result<(), Fault> {
    match receiver.due() {
        Some(at) => {
            line.numbers(&[
                u64::from(at.index),
                u64::from(at.block),
                u64::from(at.symbol),
            ])?;
        }
        None => line.word(b"-")?,
    }
    Ok(())
}

/// Returns the line of the receiver's state: instance, hand-ups not yet taken, whether it lost an object, and what is due.
fn tell(alloc: Global, receiver: &Receiver) -> Result<Option<Line>, Fault> {
    let mut line = counted(alloc, "receiver", &[])?;
    instance(&mut line, receiver.instance())?;
    line.number(receiver.ups() as u64)?;
    decided(&mut line, receiver.has_lost())?;
    due(&mut line, receiver)?;
    Ok(Some(line))
}

impl Node for Receiver {
    fn call(
        &mut self,
        alloc: Global,
        verb: Verb,
        words: &mut Words<'_>,
        out: &mut Datagram,
    ) -> Result<Option<Line>, Fault> {
        match verb {
            Verb::Deliver => deliver(alloc, self, words),
            Verb::Tick => tick(alloc, self, words, out),
            Verb::Take => take(alloc, self),
            Verb::Tell => tell(alloc, self),
            _ => Ok(None),
        }
    }
}

/// Begins a receiver and follows calls of it and names of rows. Returns the first other event, and `None` at the end of the input.
pub(crate) fn run_receiver<K: Sink>(
    alloc: Global,
    profile: &Profile,
    node: NodeId,
    events: &mut Events<'_>,
    output: &mut K,
) -> Result<Option<Event>, Fault>
    ensures fewer { IfOk result (GoesOn events.old events.new) }
{
    let mut out = Datagram::new(alloc)?;
    let mut receiver = Receiver::new(alloc, profile, node)?;
    drive(alloc, &mut receiver, events, &mut out, output)
}
