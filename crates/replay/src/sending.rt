//! Makes the calls of a sender from the words of an event. `run` calls [`run_sender`].

ghost use Rattle.std.specs.Prelude.{IfOk};
ghost use Rattle.replay.specs.Left.{GoesOn};

use crate::answers::{commanded, counted, decided, instance, said, sent, told};
use crate::commanding::job_of;
use crate::events::{Event, Events, Verb};
use crate::node::{Node, drive};
use driven_sender::Driven;
use norm_base::{Datagram, InstanceId, Moment, Origin, Profile, Sink};
use norm_sender::Sender;
use norm_text::Line;
use row_words::{Fault, Words};
use std::alloc::Global;

/// Reads a datagram and delivers it. A sender ignores the draw.
fn deliver(
    alloc: Global,
    sender: &mut Driven,
    words: &mut Words<'_>,
) -> Result<Option<Line>, Fault> {
    let (Some(now), Some(_)) = (words.number(), words.number32()) else {
        return Ok(None);
    };
    let Some(octets) = words.octets(alloc)? else {
        return Ok(None);
    };
    sender.deliver(octets.bytes(), Moment(now));
    Ok(Some(said(alloc, "done")?))
}

/// Reads a moment and ticks, also if news were not taken yet.
fn tick(
    alloc: Global,
    sender: &mut Driven,
    words: &mut Words<'_>,
    out: &mut Datagram,
) -> Result<Option<Line>, Fault> {
    let Some(now) = words.number() else {
        return Ok(None);
    };
    let given = sender.tick(Moment(now), out);
    Ok(Some(sent(alloc, given, out)?))
}

/// Reads the producer of a command, and the number that the producer gave it.
fn origin(words: &mut Words<'_>) -> Option<Origin> {
    Some(Origin {
        producer: words.number32()?,
        number: words.number()?,
    })
}

/// Reads a command, its origin and its moment, and gives it to the sender.
fn command(
    alloc: Global,
    sender: &mut Driven,
    words: &mut Words<'_>,
) -> Result<Option<Line>, Fault> {
    let (Some(by), Some(now)) = (origin(words), words.number()) else {
        return Ok(None);
    };
    let Some(job) = job_of(alloc, words)? else {
        return Ok(None);
    };
    let gave = sender.command(by, job, Moment(now));
    Ok(Some(commanded(alloc, gave)?))
}

/// Takes the sender's next news. The line is `none` if there are none.
fn news(alloc: Global, sender: &mut Driven) -> Result<Option<Line>, Fault> {
    match sender.news() {
        Some(news) => Ok(Some(told(alloc, news)?)),
        None => Ok(Some(said(alloc, "none")?)),
    }
}

/// Returns the line of the sender's state: instance, open watermarks, news not yet taken, and whether it is idle.
fn tell(alloc: Global, sender: &Sender) -> Result<Option<Line>, Fault> {
    let mut line = counted(alloc, "sender", &[])?;
    instance(&mut line, Some(sender.instance()))?;
    line.number(u64::from(sender.open_requests()))?;
    line.number(sender.untold() as u64)?;
    decided(&mut line, sender.idle())?;
    Ok(Some(line))
}

impl Node for Driven {
    fn call(
        &mut self,
        alloc: Global,
        verb: Verb,
        words: &mut Words<'_>,
        out: &mut Datagram,
    ) -> Result<Option<Line>, Fault> {
        match verb {
            Verb::Command => command(alloc, self, words),
            Verb::Deliver => deliver(alloc, self, words),
            Verb::Tick => tick(alloc, self, words, out),
            Verb::News => news(alloc, self),
            Verb::Tell => tell(alloc, self.sender()),
            _ => Ok(None),
        }
    }
}

/// Begins a sender and follows calls of it and names of rows. Returns the first other event, and `None` at the end of the input.
pub(crate) fn run_sender<K: Sink>(
    alloc: Global,
    profile: &Profile,
    instance: InstanceId,
    events: &mut Events<'_>,
    output: &mut K,
) -> Result<Option<Event>, Fault>
    ensures fewer { IfOk result (GoesOn events.old events.new) }
{
    let mut out = Datagram::new(alloc)?;
    let mut sender = Driven::new(alloc, profile, instance)?;
    drive(alloc, &mut sender, events, &mut out, output)
}
