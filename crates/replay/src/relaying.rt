//! Makes the calls of a relay from the words of an event. `run` calls [`run_relay`].

ghost use Rattle.std.specs.Prelude.{IfOk};
ghost use Rattle.replay.specs.Left.{GoesOn};

use crate::answers::{command_refused, counted, decided, said, sent, told};
use crate::events::{Event, Events, Verb};
use crate::node::{Node, drive};
use norm_base::{Datagram, Moment, NodeId, Profile, Sink};
use norm_relay::{Relay, RelayFault};
use norm_text::Line;
use row_words::{Fault, Words};
use std::alloc::Global;

/// Returns the line of a call that failed. After `Memory` a relay may not be called any more, so then the program ends.
fn failed(alloc: Global, fault: RelayFault) -> Result<Line, Fault> {
    match fault {
        RelayFault::Refused(fault) => command_refused(alloc, fault),
        _ => Err(Fault::Memory),
    }
}

/// Reads a moment, a draw and a datagram, and delivers the datagram from above.
fn deliver(alloc: Global, relay: &mut Relay, words: &mut Words<'_>) -> Result<Option<Line>, Fault> {
    let (Some(now), Some(draw)) = (words.number(), words.number32()) else {
        return Ok(None);
    };
    let Some(octets) = words.octets(alloc)? else {
        return Ok(None);
    };
    let line = match relay.deliver_up(octets.bytes(), Moment(now), draw) {
        Ok(true) => said(alloc, "taken")?,
        Ok(false) => said(alloc, "busy")?,
        Err(fault) => failed(alloc, fault)?,
    };
    Ok(Some(line))
}

/// Reads a moment and a datagram, and delivers the datagram from below.
fn below(alloc: Global, relay: &mut Relay, words: &mut Words<'_>) -> Result<Option<Line>, Fault> {
    let Some(now) = words.number() else {
        return Ok(None);
    };
    let Some(octets) = words.octets(alloc)? else {
        return Ok(None);
    };
    relay.deliver_down(octets.bytes(), Moment(now));
    Ok(Some(said(alloc, "done")?))
}

/// Reads a moment and ticks above.
fn tick(
    alloc: Global,
    relay: &mut Relay,
    words: &mut Words<'_>,
    out: &mut Datagram,
) -> Result<Option<Line>, Fault> {
    let Some(now) = words.number() else {
        return Ok(None);
    };
    let given = relay.tick_up(Moment(now), out);
    Ok(Some(sent(alloc, given, out)?))
}

/// Reads a moment and ticks below, also if news were not taken yet.
fn tick_below(
    alloc: Global,
    relay: &mut Relay,
    words: &mut Words<'_>,
    out: &mut Datagram,
) -> Result<Option<Line>, Fault> {
    let Some(now) = words.number() else {
        return Ok(None);
    };
    let given = relay.tick_down(Moment(now), out);
    Ok(Some(sent(alloc, given, out)?))
}

/// Reads a moment and pumps. The line has how many jobs that were.
fn pump(alloc: Global, relay: &mut Relay, words: &mut Words<'_>) -> Result<Option<Line>, Fault> {
    let Some(now) = words.number() else {
        return Ok(None);
    };
    let line = match relay.pump(Moment(now)) {
        Ok(count) => counted(alloc, "pumped", &[u64::from(count)])?,
        Err(fault) => failed(alloc, fault)?,
    };
    Ok(Some(line))
}

/// Reads a moment and a member below, and strikes it.
fn strike(alloc: Global, relay: &mut Relay, words: &mut Words<'_>) -> Result<Option<Line>, Fault> {
    let (Some(now), Some(node)) = (words.number(), words.node()) else {
        return Ok(None);
    };
    let line = match relay.strike(node, Moment(now)) {
        Ok(()) => counted(alloc, "struck", &[u64::from(node.number())])?,
        Err(fault) => failed(alloc, fault)?,
    };
    Ok(Some(line))
}

/// Takes the next news of the sender below. The line is `none` if there are none.
fn news(alloc: Global, relay: &mut Relay) -> Result<Option<Line>, Fault> {
    match relay.news() {
        Some(news) => Ok(Some(told(alloc, news)?)),
        None => Ok(Some(said(alloc, "none")?)),
    }
}

/// Returns the line of the relay's state: whether a hand-up waits.
fn tell(alloc: Global, relay: &Relay) -> Result<Option<Line>, Fault> {
    let mut line = said(alloc, "relay")?;
    decided(&mut line, relay.waits())?;
    Ok(Some(line))
}

impl Node for Relay {
    fn call(
        &mut self,
        alloc: Global,
        verb: Verb,
        words: &mut Words<'_>,
        out: &mut Datagram,
    ) -> Result<Option<Line>, Fault> {
        match verb {
            Verb::Deliver => deliver(alloc, self, words),
            Verb::Below => below(alloc, self, words),
            Verb::Tick => tick(alloc, self, words, out),
            Verb::TickBelow => tick_below(alloc, self, words, out),
            Verb::Pump => pump(alloc, self, words),
            Verb::Strike => strike(alloc, self, words),
            Verb::News => news(alloc, self),
            Verb::Tell => tell(alloc, self),
            Verb::Take | Verb::Command => Ok(None),
        }
    }
}

/// Begins a relay and follows calls of it and names of rows. Returns the first other event, and `None` at the end of the input. Fails if the two
/// sessions cannot be relayed at the node.
pub(crate) fn run_relay<K: Sink>(
    alloc: Global,
    up: &Profile,
    node: NodeId,
    down: &Profile,
    events: &mut Events<'_>,
    output: &mut K,
) -> Result<Option<Event>, Fault>
    ensures fewer { IfOk result (GoesOn events.old events.new) }
{
    let mut out = Datagram::new(alloc)?;
    match Relay::new(alloc, up, node, down) {
        Ok(mut relay) => drive(alloc, &mut relay, events, &mut out, output),
        Err(RelayFault::Memory) => Err(Fault::Memory),
        Err(_) => Err(events.fault()),
    }
}
