//! A [`Script`], as it was read: a profile and the commands of all producers.

use norm_base::{NodeId, Octets, Profile, Text};
use std::marker::Model;

/// What a command does.
#[derive(Debug, Drop)]
pub enum Verb {
    /// Sends a data object, with its info if it has one.
    Data { info: Option<Octets>, bytes: Octets },
    /// Sends the file of this name. The name is the object's info.
    File { name: Text },
    /// Begins a stream. Until it is closed, or the sender restarts, the sender refuses objects and other streams.
    Open,
    /// Appends octets to the open stream. If none is open, the sender refuses it.
    Write { bytes: Octets },
    /// Ends the open stream. If none is open, the sender refuses it.
    Close,
    /// Asks which receivers have everything up to here. `quorum` of them are enough, or all of them are needed if it is not given.
    Mark { quorum: Option<u32> },
    /// Begins a new instance of the sender. Open watermarks end as cut.
    Restart { instance: u16 },
    /// Removes a receiver from the sender's list, for good.
    Strike { node: NodeId },
}

/// A command: its producer, its number among this producer's commands, from 1, and what it does.
#[derive(Debug, Drop)]
pub struct Line {
    pub producer: u32,
    pub number: u64,
    pub verb: Verb,
}

/// A session's profile, and the commands of all producers, in the order of the text.
#[derive(Debug, Drop)]
pub struct Script {
    pub profile: Profile,
    pub lines: Vec<Line>,
}

impl Model for Script {
    ghost use Rattle.norm_script.specs.Commands.{Commands};

    ghost Value = { Commands };

    ghost view = { λ s. record { profile = s.profile; lines = s.lines.items } };
}
