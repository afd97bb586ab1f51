//! What is kept of an event: a small [`Entry`], and the rest in a list of its kind.

ghost use Rattle.std.specs.Prelude.{◌≡◌};
ghost use Rattle.norm_journal.specs.Counts.{is_expired};
ghost use Rattle.norm_record.specs.Counted.{is_refused};
ghost use Rattle.norm_record.specs.Events.{rare_event};
ghost use Rattle.norm_record.specs.Told.{told_of};

use crate::seen::Seen;
use norm_base::{Moment, NodeId, Octets, Origin, Sent};
use norm_send_rules::{Job, News, Outcome, Receipt, SendFault};

/// An event without its octets. `at` is the index of the rest in the list of its kind.
// An entry is small, because a session may have many times more events than different datagrams.
#[derive(Clone, Copy)]
pub(crate) enum Entry {
    Turn { at: u32 },
    Tick { node: NodeId, sent: Sent },
    Offer { from: NodeId, at: u32 },
    /// A take of the offer with this index.
    Took { to: NodeId, at: u32 },
    /// A take of octets that were no latest offer, by its index among such takes.
    Apart { to: NodeId, at: u32 },
    Empty,
    /// `at` may be that of other hand-ups too: one that equals the latest with its name is not kept again.
    Up { node: NodeId, at: u32 },
    Rare { at: u32 },
}

/// A turn. [`Entry::Turn`] has only its index, to stay small.
#[derive(Clone, Copy)]
pub(crate) struct Turn {
    pub(crate) t: u32,
    pub(crate) now: Moment,
}

/// A node's hand-up, by its index among those that are kept.
#[derive(Clone, Copy)]
pub struct Hand {
    pub node: NodeId,
    pub at: u32,
}

/// An event that is kept whole. [`Entry::Rare`] has its index.
#[derive(Drop)]
pub(crate) enum Rare {
    Start,
    Pull {
        by: Origin,
    },
    Job {
        by: Origin,
        job: Option<Job>,
        gave: Result<Receipt, SendFault>,
    },
    Length {
        by: Origin,
        name: Octets,
        len: u64,
        fault: SendFault,
    },
    News(News),
    End,
}

impl Rare {
    /// Returns the event. It takes no memory: the result borrows from this.
    pub(crate) fn seen(&self) -> Seen<'_>
        ensures { told_of result ≡ rare_event self.now }
    {
        match self {
            Rare::Start => Seen::Start,
            Rare::Pull { by } => Seen::Pull { by: *by },
            Rare::Job { by, job, gave } => Seen::Job { by: *by, job, gave },
            Rare::Length {
                by,
                name,
                len,
                fault,
            } => Seen::Length {
                by: *by,
                name: name.bytes(),
                len: *len,
                fault,
            },
            Rare::News(news) => Seen::News(news),
            Rare::End => Seen::End,
        }
    }

    /// Whether a command was refused for good. Not if it has to wait.
    pub(crate) fn is_refused(&self) -> bool
        ensures { result ≡ is_refused (rare_event self.now) }
    {
        match self {
            Rare::Job { gave, .. } => match gave {
                Ok(_) => false,
                Err(fault) => !fault.may_wait(),
            },
            Rare::Length { fault, .. } => !fault.may_wait(),
            _ => false,
        }
    }

    pub(crate) fn is_expired(&self) -> bool
        ensures { result ≡ is_expired (rare_event self.now) }
    {
        let Rare::News(news) = self else {
            return false;
        };
        let News::Done { outcome, .. } = news else {
            return false;
        };
        matches!(outcome, Outcome::Expired { .. })
    }
}
