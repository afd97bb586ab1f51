//! What a run adds to its journal.

ghost use Rattle.std.specs.Prelude.{◌≡◌, ◌&&◌, [], Option, is_some, OnOk};
ghost use Rattle.norm_journal.specs.declared.event.Event.TheVariants as event;
ghost use Rattle.norm_session.specs.Noting.{IsAtHand, kept_of, noted};

use norm_base::{InstanceId, Memory, Moment, NodeId, Octets, Origin, Sent};
use norm_order::Up;
use norm_record::Journal;
use norm_send_rules::{Job, News, Receipt, SendFault};
use std::alloc::Global;
use std::marker::Model;

/// The journal of a run, or `None` if its sender is alone: nobody reads that journal, and it would grow with each datagram. Each push adds
/// its event if the journal is kept, or answers `Memory` if it cannot grow.
#[derive(Drop)]
pub(crate) struct KeptJournal {
    kept: Option<Journal>,
}

impl Model for KeptJournal {
    ghost use Rattle.std.specs.Prelude.{List, Option};
    ghost use Rattle.norm_journal.specs.declared.event.Event.{Event};

    ghost Value = { Option (List Event) };

    ghost view = { λ j. j.kept };
}

impl KeptJournal {
    /// An empty journal, or none if the sender is alone.
    pub(crate) fn new(alloc: Global, alone: bool) -> KeptJournal
        ensures { result ≡ kept_of alone [] }
    {
        if alone {
            return KeptJournal { kept: None };
        }
        KeptJournal {
            kept: Some(Journal::new(alloc)),
        }
    }

    pub(crate) fn is_kept(&self) -> bool
        ensures { result ≡ is_some self.entry.now }
    {
        self.kept.is_some()
    }

    /// Whether the job of a command that names no file is noted: with its first offer, if a journal is kept.
    pub(crate) fn tells(&self, first: bool) -> bool
        ensures { result ≡ (first && is_some self.entry.now) }
    {
        first && self.kept.is_some()
    }

    pub(crate) fn into_journal(self) -> Option<Journal>
        ensures { result ≡ self }
    {
        self.kept
    }

    /// Call it before the network starts: afterwards nothing may fail before the event is noted.
    pub(crate) fn push_start(&mut self) -> Result<(), Memory>
        ensures { OnOk result (self.new ≡ noted self.old event.Start) }
    {
        match &mut self.kept {
            Some(journal) => journal.push_start(),
            None => Ok(()),
        }
    }

    pub(crate) fn push_turn(&mut self, t: u32, now: Moment) -> Result<(), Memory>
        ensures { OnOk result (self.new ≡ noted self.old (event.Turn t now)) }
    {
        match &mut self.kept {
            Some(journal) => journal.push_turn(t, now),
            None => Ok(()),
        }
    }

    pub(crate) fn push_pull(&mut self, by: Origin) -> Result<(), Memory>
        ensures { OnOk result (self.new ≡ noted self.old (event.Pull by)) }
    {
        match &mut self.kept {
            Some(journal) => journal.push_pull(by),
            None => Ok(()),
        }
    }

    /// Notes an offer of a command and the sender's answer. `job` comes with the first offer, or, for a file, with the offer that accepts
    /// it. It may be `None` if no journal is kept.
    pub(crate) fn push_job(
        &mut self,
        by: Origin,
        job: Option<Job>,
        gave: Result<Receipt, SendFault>,
    ) -> Result<(), Memory>
        ensures { OnOk result ((told : Option Job) → IsAtHand self.old job told → self.new ≡ noted self.old (event.Job by told gave)) }
    {
        match &mut self.kept {
            Some(journal) => journal.push_job(by, job, gave),
            None => Ok(()),
        }
    }

    /// Notes that the sender refused a file of `len` octets before any of them was read.
    pub(crate) fn push_length(
        &mut self,
        by: Origin,
        name: Octets,
        len: u64,
        fault: SendFault,
    ) -> Result<(), Memory>
        ensures { OnOk result (self.new ≡ noted self.old (event.Length by name len fault)) }
    {
        match &mut self.kept {
            Some(journal) => journal.push_length(by, name, len, fault),
            None => Ok(()),
        }
    }

    /// Notes a node's tick. Its datagram is noted only by the offer.
    pub(crate) fn push_tick(&mut self, node: NodeId, sent: Sent) -> Result<(), Memory>
        ensures { OnOk result (self.new ≡ noted self.old (event.Tick node sent)) }
    {
        match &mut self.kept {
            Some(journal) => journal.push_tick(node, sent),
            None => Ok(()),
        }
    }

    /// Notes that a datagram was offered to the network, with a copy of the octets.
    pub(crate) fn push_offer(&mut self, from: NodeId, octets: &[u8]) -> Result<(), Memory>
        ensures { OnOk result (self.new ≡ noted self.old (event.Offer from octets.now)) }
    {
        match &mut self.kept {
            Some(journal) => journal.push_offer(from, octets),
            None => Ok(()),
        }
    }

    /// Notes that a datagram was taken from the network.
    pub(crate) fn push_took(&mut self, to: NodeId, octets: &[u8]) -> Result<(), Memory>
        ensures { OnOk result (self.new ≡ noted self.old (event.Took to octets.now)) }
    {
        match &mut self.kept {
            Some(journal) => journal.push_took(to, octets),
            None => Ok(()),
        }
    }

    /// Notes a take that found no datagram ready.
    pub(crate) fn push_empty(&mut self) -> Result<(), Memory>
        ensures { OnOk result (self.new ≡ noted self.old event.Empty) }
    {
        match &mut self.kept {
            Some(journal) => journal.push_empty(),
            None => Ok(()),
        }
    }

    /// Notes a hand-up, and takes its octets over.
    pub(crate) fn push_up(
        &mut self,
        node: NodeId,
        instance: InstanceId,
        up: Up,
    ) -> Result<(), Memory>
        ensures { OnOk result (self.new ≡ noted self.old (event.Up node instance up)) }
    {
        match &mut self.kept {
            Some(journal) => journal.push_up(node, instance, up),
            None => Ok(()),
        }
    }

    pub(crate) fn push_news(&mut self, news: News) -> Result<(), Memory>
        ensures { OnOk result (self.new ≡ noted self.old (event.News news)) }
    {
        match &mut self.kept {
            Some(journal) => journal.push_news(news),
            None => Ok(()),
        }
    }

    /// Call it before the summary is written, so that no printed line lacks its event.
    pub(crate) fn push_end(&mut self) -> Result<(), Memory>
        ensures { OnOk result (self.new ≡ noted self.old event.End) }
    {
        match &mut self.kept {
            Some(journal) => journal.push_end(),
            None => Ok(()),
        }
    }
}
