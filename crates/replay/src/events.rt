//! Reads the lines of an input as events. [`Events::next`] returns them one by one to `run` and `node`.

ghost use Rattle.std.specs.Prelude.{IfOk};
ghost use Rattle.replay.specs.Left.{GoesOn};

use norm_base::{InstanceId, Key, NodeId};
use row_words::{Fault, Words};
use std::str::Lines;

/// A call of a node. `Take` is of a receiver only, `Command` of a sender only, and `News` of a sender or a relay. Those after `Tell` are of a relay
/// only; of a relay `Deliver` and `Tick` are of its side above.
#[derive(Drop)]
pub(crate) enum Verb {
    Deliver,
    Tick,
    Take,
    Command,
    News,
    Tell,
    Below,
    TickBelow,
    Pump,
    Strike,
}

/// A line of the input that has a word, read up to the arguments of a call.
#[derive(Drop)]
pub(crate) enum Event {
    /// Sets a key of the nodes that begin next. The value may be out of range.
    Set { key: Key, value: u32 },
    /// Begins a receiver with this node id, under the keys that were set.
    Receiver { node: NodeId },
    /// Begins a sender with this instance, under the keys that were set.
    Sender { instance: InstanceId },
    /// Keeps the keys that were set as those of the session above the relays that begin next.
    Above,
    /// Begins a relay that has this node id above, over the keys that were set since.
    Relay { node: NodeId },
    /// Names the lines that follow. The name is still unread.
    Row,
    /// Calls the node that runs. The arguments are still unread.
    Call(Verb),
}

/// Reads a key and its value. The value is a word of the key, or a number below 2^32, in its range or not.
fn set(words: &mut Words<'_>) -> Option<Event> {
    let key = Key::named(words.word()?.as_bytes())?;
    let word = words.word()?;
    let value = match key.value_of(word.as_bytes()) {
        Some(value) => value,
        None => word.parse::<u32>().ok()?,
    };
    Some(Event::Set { key, value })
}

fn receiver(words: &mut Words<'_>) -> Option<Event> {
    Some(Event::Receiver {
        node: words.node()?,
    })
}

fn relay(words: &mut Words<'_>) -> Option<Event> {
    Some(Event::Relay {
        node: words.node()?,
    })
}

/// Reads the instance of a sender, a number below 65,536.
fn sender(words: &mut Words<'_>) -> Option<Event> {
    let instance = InstanceId(words.number16()?);
    Some(Event::Sender { instance })
}

/// Returns the event, or `None` if words are left.
fn alone(event: Event, words: &mut Words<'_>) -> Option<Event> {
    if words.are_done() { Some(event) } else { None }
}

/// Reads the event that begins with this word. Returns `None` if the words spell no event.
// The README lists these words, and the rows, `checks/nodes.py`, `checks/fuzz` and `bench/nodes` write them. A word that changes here has to
// change there too.
fn event_of(word: &str, words: &mut Words<'_>) -> Option<Event> {
    match word {
        "set" => alone(set(words)?, words),
        "receiver" => alone(receiver(words)?, words),
        "sender" => alone(sender(words)?, words),
        "above" => alone(Event::Above, words),
        "relay" => alone(relay(words)?, words),
        "row" => Some(Event::Row),
        "deliver" => Some(Event::Call(Verb::Deliver)),
        "tick" => Some(Event::Call(Verb::Tick)),
        "take" => Some(Event::Call(Verb::Take)),
        "command" => Some(Event::Call(Verb::Command)),
        "news" => Some(Event::Call(Verb::News)),
        "tell" => Some(Event::Call(Verb::Tell)),
        "below" => Some(Event::Call(Verb::Below)),
        "tick-below" => Some(Event::Call(Verb::TickBelow)),
        "pump" => Some(Event::Call(Verb::Pump)),
        "strike" => Some(Event::Call(Verb::Strike)),
        _ => None,
    }
}

/// The events of an input that were not read yet. [`next`](Events::next) reads one. If it is a `Row` or a `Call`, its other
/// words are then in `words`.
#[derive(Drop)]
pub(crate) struct Events<'a> {
    lines: Lines<'a>,
    /// The number of the last line that was read, counted from 1. 0 if none was read.
    number: usize,
    /// The words of that line that are still unread.
    pub(crate) words: Words<'a>,
}

impl<'a> Events<'a> {
    /// Returns the events of a text. Reads none of them, and takes no memory.
    pub(crate) fn of(text: &'a str) -> Events<'a> {
        Events {
            lines: text.lines(),
            number: 0,
            words: Words::of(""),
        }
    }

    /// Returns the next event, or `None` after the last one. It skips lines without a word.
    ///
    /// # Errors
    ///
    /// `Line` if the line is no event of any node.
    pub(crate) fn next(&mut self) -> Result<Option<Event>, Fault>
        ensures fewer { IfOk result (GoesOn self.old self.new) }
    {
        'lines: while let Some(line) = self.lines.next() {
            self.number = self.number.saturating_add(1);
            self.words = Words::of(line);
            let Some(word) = self.words.word() else {
                continue;
            };
            return match event_of(word, &mut self.words) {
                Some(event) => Ok(Some(event)),
                None => Err(self.fault()),
            };
        }
        Ok(None)
    }

    /// Returns the fault of the line that was read last: it has no meaning where it stands.
    pub(crate) fn fault(&self) -> Fault {
        Fault::Line {
            number: self.number,
        }
    }
}
