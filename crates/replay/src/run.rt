//! The loop of a replay. [`replay`] reads the input, sets keys and runs one node after another. `main` calls it.

ghost use Rattle.std.specs.Prelude.{IfOk};
ghost use Rattle.replay.specs.Left.{GoesOn};

use crate::answers::said;
use crate::events::{Event, Events};
use crate::node::name_row;
use crate::receiving::run_receiver;
use crate::relaying::run_relay;
use crate::sending::run_sender;
use norm_base::{Given, Key, Profile, Sink, Source};
use row_words::{Fault, print, read_all};
use std::alloc::Global;

/// The keys that were set for the nodes that begin next.
#[derive(Drop)]
struct Keys {
    given: Given,
    /// Whether a node began with these keys, or they were kept as those above.
    are_used: bool,
    /// The profile above the relays that begin next.
    above: Option<Profile>,
}

impl Keys {
    /// Sets a key. If a node began since the last `set`, all other keys return to their defaults. Whether the value is in range is seen when a node
    /// begins.
    fn set(&mut self, key: Key, value: u32) {
        if self.are_used {
            self.given = Given::new();
            self.are_used = false;
        }
        self.given.set(key, value);
    }

    /// Returns the profile for a node that begins, or `None` if a key is out of range or the keys break a rule across keys.
    fn profile(&mut self) -> Option<Profile> {
        self.are_used = true;
        Profile::of(&self.given)
    }

    /// Keeps the profile as the one above, and returns whether there is one.
    fn rise(&mut self) -> bool {
        self.above = self.profile();
        self.above.is_some()
    }

    /// Returns the profiles above and below a relay that begins, or `None` if one of them is missing.
    fn profiles(&mut self) -> Option<(Profile, Profile)> {
        let below = self.profile()?;
        Some((self.above?, below))
    }
}

/// Follows an event while no node runs, and returns the next event to follow. A `receiver`, `sender` or `relay` runs that node
/// until an event that is neither a call nor a `row`.
fn follow<K: Sink>(
    alloc: Global,
    event: Event,
    keys: &mut Keys,
    events: &mut Events<'_>,
    output: &mut K,
) -> Result<Option<Event>, Fault>
    ensures fewer { IfOk result (GoesOn events.old events.new) }
{
    match event {
        Event::Set { key, value } => {
            keys.set(key, value);
            print(said(alloc, "set")?, output)?;
            events.next()
        }
        Event::Receiver { node } => match keys.profile() {
            Some(profile) => run_receiver(alloc, &profile, node, events, output),
            None => Err(events.fault()),
        },
        Event::Sender { instance } => match keys.profile() {
            Some(profile) => run_sender(alloc, &profile, instance, events, output),
            None => Err(events.fault()),
        },
        Event::Above => {
            if !keys.rise() {
                return Err(events.fault());
            }
            print(said(alloc, "above")?, output)?;
            events.next()
        }
        Event::Relay { node } => match keys.profiles() {
            Some((up, down)) => run_relay(alloc, &up, node, &down, events, output),
            None => Err(events.fault()),
        },
        Event::Row => {
            name_row(alloc, events, output)?;
            events.next()
        }
        Event::Call(_) => Err(events.fault()),
    }
}

/// Replays a text up to its end or the first fault. What was printed before stays.
fn replay_text<K: Sink>(alloc: Global, text: &str, output: &mut K) -> Result<(), Fault> {
    let mut events = Events::of(text);
    let mut keys = Keys {
        given: Given::new(),
        are_used: false,
        above: None,
    };
    let mut next = events.next()?;
    'events: while let Some(event) = next {
        next = follow(alloc, event, &mut keys, &mut events, output)?;
    }
    Ok(())
}

/// Replays an input line by line, and prints one line for each line that has a word.
///
/// # Errors
///
/// `Line` with the first line that is no event, is no call of the node that runs or is one while none runs, has no name of a row, or begins a node
/// with keys that make no profile. `NotText` if the input is not UTF-8, `Read` or `Write` if a call of the input or output failed, and `Memory` if
/// memory ran out outside a call of a node, for example as one began.
pub(crate) fn replay<S: Source, K: Sink>(
    alloc: Global,
    input: &mut S,
    output: &mut K,
) -> Result<(), Fault> {
    let text = read_all(alloc, input)?;
    match str::from_utf8(&text) {
        Ok(text) => replay_text(alloc, text, output),
        Err(_) => Err(Fault::NotText),
    }
}
