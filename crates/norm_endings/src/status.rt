//! How the program ends: an [`Ending`] says why, and its [`Status`] is the exit status.

ghost use Rattle.std.specs.Prelude.{◌≡◌};
ghost use Rattle.std.specs.Process.{exit_status};
ghost use Rattle.norm_endings.specs.StatusOf.{status_of};
ghost use Rattle.norm_endings.specs.declared.status.Ending.TheVariants as ending;

use norm_base::{NodeId, Text};
use norm_mirror::{Unaccepted, Unlike, Unsatisfied};
use norm_multi::MultiFault;
use norm_profile::ProfileRefusal;
use norm_script::Refusal;
use norm_send_rules::SendFault;
use norm_show::NoDatagram;
use relay_words::{Losses, NoEvent, NoRelay, Patience};
use std::alloc::{AllocError, AllocFailed};
use std::marker::Model;
use std::process::ExitCode;

/// An exit status of the program, 0 to 14. [`Ending::status`] makes it.
#[derive(Clone, Copy, Debug, PartialEq, Eq)]
pub struct Status(u8);

impl Model for Status {
    ghost use Rattle.std.specs.Prelude.{ℕ, ◌≤◌};

    ghost Value = { ℕ };

    ghost view = { λ s. s.0 };

    ghost invariant = { λ s. s.0 ≤ 14 };

    ghost inverse = { λ n. record { 0 = n } };
}

impl Status {
    /// Returns the number with which the process exits, 0 to 14.
    pub fn code(&self) -> u8
        ensures { result ≡ self.now }
    {
        self.0
    }
}

impl From<Status> for ExitCode {
    ghost from_gives = { λ status code. exit_status code ≡ status };

    fn from(status: Status) -> ExitCode {
        ExitCode::from(status.0)
    }
}

/// Why a profile is refused, or a node that it does not have as a receiver.
#[derive(Debug, Drop)]
pub enum ProfileFault {
    /// The document is not that of a profile, or the file is too long to be read.
    Document { why: ProfileRefusal },
    /// The node is not one of the receivers, whose ids are `first` to `last`.
    Node { node: NodeId, first: u32, last: u32 },
    /// Of several senders: a node is no receiver of its profile, or an id stands twice. Never `Memory`.
    Members { why: MultiFault },
    /// Of two sessions: they are not relayed at the node.
    Relay { why: NoRelay },
}

/// Why a session made no tail, or no further one.
#[derive(Clone, Copy, Debug, PartialEq, Eq)]
pub enum NoTail {
    /// After this turn a command was not pulled yet, or waits.
    Waiting {
        turn: u32,
    },
    /// After this turn no watermark is open, and the session is not whole.
    NoRequest {
        turn: u32,
    },
    /// The profile's mode is not `hold`.
    Mode,
    /// The window has this many streams.
    Streams {
        count: u32,
    },
    /// The profile's step, in microseconds, is 0 or more than its gap.
    Step {
        step: u32,
        gap: u32,
    },
    /// The window has this many infos and encoded symbols. They and one datagram more, sent twice, each a gap and a step apart, take longer than a
    /// round trip.
    Pace {
        symbols: u64,
        gap: u32,
        step: u32,
        grtt: u32,
    },
    /// This many flushes were counted since the watermark became the oldest, or a round made a want. With the back-off factor `k`, too few
    /// are left for a repair.
    Flushes {
        count: u32,
        k: u32,
    },
}

/// How the program ended. [`Ending::status`] returns its exit status. [`explain`](crate::explain) says the reason on standard error, if the ending has
/// one of its own.
#[derive(Debug, Drop)]
pub enum Ending {
    /// Everything was done. Of a receiver and the hub: all their turns were made.
    Done,
    /// Everything was shown, and at least one datagram was refused.
    Datagram,
    /// Memory ran out. There is no last line.
    Memory,
    /// The words are not a command, or could not be read as UTF-8.
    Words,
    /// A line of the script has no meaning. `refusal` says which line and why.
    Refused { refusal: Refusal },
    /// Line `number` of what `show` or `gather` reads spells no datagram.
    Line { number: u64, why: NoDatagram },
    /// Line `number` of what `relay` reads is no event.
    Event { number: u64, why: NoEvent },
    /// A profile is refused, or the node is not one of its receivers, or of several profiles an id stands twice, or two sessions are not relayed.
    Profile { why: ProfileFault },
    /// A read of the input failed. Nothing of a script, of `gather` or of `relay` was done, and `show` wrote the lines before.
    Read,
    /// A write of the output failed. That of a last line is not meant, except of `turns spent` and of a tail's.
    Write,
    /// A call of the network failed, which [`say_cause`](crate::say_cause) explains. It is an error of the system, or a node alone or a
    /// hub over a network in memory.
    Fabric,
    /// A call of the files failed, of a profile, a script's file or one that was handed up. [`say_cause`](crate::say_cause) explains it.
    Files,
    /// The profile, or a file that the script sends, is not there.
    Absent { name: Text },
    /// The session spent its turns before everything was done.
    Spent,
    /// The session made tails: so many turns, which might be `bound`.
    Tailed { turns: u64, bound: u64 },
    /// The session was not whole after its turns, and made no tail, or no further one.
    TailRefused { why: NoTail },
    /// All events of the input were relayed.
    Relayed { lost: Losses, patience: Patience },
    /// The session below a relay refused a job for good.
    Command { fault: SendFault },
    /// A file of a folder has this length in octets, with which it cannot stand in a manifest. Nothing was sent.
    Unsendable { name: Text, len: u64 },
    /// The session of a folder was whole, but its sender refused `what`, the first, for good.
    NotAccepted { what: Option<Unaccepted> },
    /// The session of a folder was whole, but its sender gave a watermark up: `which`, the first.
    NotSatisfied { which: Option<Unsatisfied> },
    /// The session of a folder was whole, but a receiver, the first, handed up something else.
    Unlike { why: Unlike },
}

impl From<AllocError> for Ending {
    ghost from_gives = { λ e r. r ≡ ending.Memory };

    fn from(_error: AllocError) -> Ending {
        Ending::Memory
    }
}

impl<T: Drop> From<AllocFailed<T>> for Ending {
    ghost from_gives = { λ e r. r ≡ ending.Memory };

    fn from(_refused: AllocFailed<T>) -> Ending {
        Ending::Memory
    }
}

impl Ending {
    /// Returns the exit status. Several endings share one: 0 if everything was done or tails were made, 3 if a line, a profile or a
    /// node is refused, 7 if a file is absent or a call of the files failed, 14 if a folder was not accepted.
    pub fn status(&self) -> Status
        ensures { result ≡ status_of self.now }
    {
        match self {
            Ending::Done | Ending::Tailed { .. } | Ending::Relayed { .. } => Status(0),
            Ending::Memory => Status(1),
            Ending::Words => Status(2),
            Ending::Refused { .. }
            | Ending::Line { .. }
            | Ending::Event { .. }
            | Ending::Profile { .. } => Status(3),
            Ending::Read => Status(4),
            Ending::Write => Status(5),
            Ending::Fabric => Status(6),
            Ending::Files | Ending::Absent { .. } => Status(7),
            Ending::Spent => Status(8),
            Ending::Datagram => Status(9),
            Ending::TailRefused { .. } => Status(12),
            Ending::Unlike { .. } => Status(10),
            Ending::NotSatisfied { .. } => Status(11),
            Ending::Command { .. } => Status(13),
            Ending::NotAccepted { .. } | Ending::Unsendable { .. } => Status(14),
        }
    }
}
