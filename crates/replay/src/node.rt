//! The calls that a sender and a receiver share, and the loop that makes them. `run_sender` and `run_receiver` call [`drive`].

ghost use Rattle.std.specs.Prelude.{◌≡◌, IfOk};
ghost use Rattle.replay.specs.Left.{GoesOn};

use crate::answers::said;
use crate::events::{Event, Events, Verb};
use norm_base::{Datagram, Sink};
use norm_text::Line;
use row_words::{Fault, Words, print};
use std::alloc::Global;

/// A sender or a receiver that events drive.
pub(crate) trait Node {
    /// Calls the node and returns the line to print. Returns `None` if this node has no such call, or the words do not
    /// spell its arguments.
    fn call(
        &mut self,
        alloc: Global,
        verb: Verb,
        words: &mut Words<'_>,
        out: &mut Datagram,
    ) -> Result<Option<Line>, Fault>;
}

/// Calls a node and prints the answer. Fails if it has no such call, the words do not spell its arguments, or words are left after these. In the last
/// case it was called.
fn answer<N: Node, K: Sink>(
    alloc: Global,
    node: &mut N,
    verb: Verb,
    events: &mut Events<'_>,
    out: &mut Datagram,
    output: &mut K,
) -> Result<(), Fault>
    ensures same { IfOk result (λ _. events.new.lines ≡ events.old.lines) }
{
    let Some(answer) = node.call(alloc, verb, &mut events.words, out)? else {
        return Err(events.fault());
    };
    if !events.words.are_done() {
        return Err(events.fault());
    }
    print(answer, output)
}

/// Prints the name of a row, which is one word. It changes no node and no key.
pub(crate) fn name_row<K: Sink>(
    alloc: Global,
    events: &mut Events<'_>,
    output: &mut K,
) -> Result<(), Fault>
    ensures same { IfOk result (λ _. events.new.lines ≡ events.old.lines) }
{
    let Some(name) = events.words.word() else {
        return Err(events.fault());
    };
    let mut line = said(alloc, "row")?;
    line.word(name.as_bytes())?;
    if !events.words.are_done() {
        return Err(events.fault());
    }
    print(line, output)
}

/// Prints `begun`, then follows calls and names of rows. Returns the first other event, or `None` at the end of the input.
pub(crate) fn drive<N: Node, K: Sink>(
    alloc: Global,
    node: &mut N,
    events: &mut Events<'_>,
    out: &mut Datagram,
    output: &mut K,
) -> Result<Option<Event>, Fault>
    ensures fewer { IfOk result (GoesOn events.old events.new) }
{
    print(said(alloc, "begun")?, output)?;
    'calls: loop {
        match events.next()? {
            Some(Event::Call(verb)) => answer(alloc, node, verb, events, out, output)?,
            Some(Event::Row) => name_row(alloc, events, output)?,
            event => return Ok(event),
        }
    }
}
