//! The journal of a session. `norm_session` adds each event to it, and tests read its events, hand-ups and counts.

ghost use Rattle.std.specs.Prelude.{◌≡◌, ◌<◌, [], All, count_by, length, map, slice_get, Some, sum_by, nat_eq};
ghost use Rattle.std.specs.List.{IsDistinct};
ghost use Rattle.std.specs.Option.{option_map};
ghost use Rattle.std.specs.Set.{distinct_count};
ghost use Rattle.norm_journal.specs.Counts.{is_expired};
ghost use Rattle.norm_journal.specs.declared.event.Event.TheVariants as event;
ghost use Rattle.norm_record.specs.Counted.{is_refused};
ghost use Rattle.norm_record.specs.Events.{rare_event};
ghost use Rattle.norm_record.specs.HandUps.{kept_names};
ghost use Rattle.norm_record.specs.HandedUp.{handed_up, hand_of, IsAmong};
ghost use Rattle.norm_record.specs.Offered.{Adds, TakesOffered, offered};
ghost use Rattle.norm_record.specs.Once.{UpsAgree, names_in};
ghost use Rattle.norm_record.specs.Told.{told_of};

use crate::counts::Counts;
use crate::entry::{Entry, Hand, Rare, Turn};
use crate::lending::{hand_at, lent};
use crate::offers::Offers;
use crate::row::Row;
use crate::seen::Seen;
use crate::ups::{HandUp, Ups};
use norm_base::{InstanceId, Memory, Moment, NodeId, Octets, Origin, Sent};
use norm_order::Up;
use norm_send_rules::{Job, News, Receipt, SendFault};
use std::alloc::Global;
use std::marker::Model;

/// The events of a session in their order. Contracts see the list of `norm_journal::Event`. A datagram is mostly kept once for its offer
/// and its takes, and a hand-up mostly once for all receivers ([`octets`](Journal::octets) and [`hand_ups`](Journal::hand_ups) say when).
/// Each push adds its event at the end. It answers `Memory` if memory runs out or an index does not fit 32 bits. Then nothing changed.
#[derive(Drop)]
pub struct Journal {
    entries: Vec<Entry>,
    offers: Offers,
    /// The octets that were taken and were not the latest offer with their name at that time.
    apart: Row,
    ups: Ups,
    rares: Vec<Rare>,
    turns: Vec<Turn>,
    /// The hand-ups in their order, each by its index in `ups`.
    hands: Vec<Hand>,
    counts: Counts,
}

// Proof: events are read from stores that only grow, so one lemma serves every push (one_event_more).
impl Model for Journal {
    ghost use Rattle.std.specs.Prelude.{List};
    ghost use Rattle.norm_journal.specs.declared.event.Event.{Event};

    ghost Value = { List Event };

    ghost use Rattle.norm_record.specs.Counted.{AreCounts};
    ghost use Rattle.norm_record.specs.Events.{events_of, IsKept};
    ghost use Rattle.norm_record.specs.HandedUp.{HandsKept};

    ghost view = { λ j. events_of
        (record { offers = j.offers; apart = j.apart; ups = j.ups; rares = j.rares.items; turns = j.turns.items })
        j.entries.items };

    ghost invariant = { λ j. IsKept
        (record { offers = j.offers; apart = j.apart; ups = j.ups; rares = j.rares.items; turns = j.turns.items })
        j.entries.items × HandsKept j.ups j.hands.items (events_of
        (record { offers = j.offers; apart = j.apart; ups = j.ups; rares = j.rares.items; turns = j.turns.items })
        j.entries.items) × AreCounts j.counts (events_of
        (record { offers = j.offers; apart = j.apart; ups = j.ups; rares = j.rares.items; turns = j.turns.items })
        j.entries.items) };
}

impl Journal {
    /// A journal without events. It takes no memory.
    pub fn new(alloc: Global) -> Journal
        ensures { result ≡ [] }
    {
        Journal {
            entries: Vec::new(alloc),
            offers: Offers::new(alloc),
            apart: Row::new(alloc),
            ups: Ups::new(alloc),
            rares: Vec::new(alloc),
            turns: Vec::new(alloc),
            hands: Vec::new(alloc),
            counts: Counts {
                refused: 0,
                expired: 0,
            },
        }
    }

    pub fn len(&self) -> usize
        ensures { result ≡ length self.now }
    {
        self.entries.len()
    }

    /// How many octets of datagrams are kept. If each take is of the latest offer with its source and sequence number, these are the octets that
    /// were offered, each once.
    // Only a bench calls it. It stays for its clause, which says when what was taken is not kept again.
    pub fn octets(&self) -> usize
        ensures { TakesOffered self.now → result ≡ sum_by length (offered self.now) }
    {
        self.offers.octets().saturating_add(self.apart.octets())
    }

    /// How many hand-ups are kept. If all with the same instance, part, index and offset are the same, each is kept once for any number of
    /// receivers.
    // No other crate calls it. It stays for its clause, as `octets` does.
    // Proof: the names of what is kept are those of what came, and differ; length-from_keys makes that a count.
    pub fn hand_ups(&self) -> usize
        ensures { UpsAgree self.now → result ≡ distinct_count nat_eq (names_in self.now) }
    {
        self.ups.len()
    }

    /// Returns hand-up `i` of all nodes, counted from 0 in the order of the events, with its node. `None` if there are no more.
    // `normd` does not call this. It stays for programs that ask what became of a session.
    pub fn up(&self, i: u64) -> Option<(NodeId, &Up)>
        ensures { option_map (λ hand. (hand.0, hand.1.now)) result ≡ slice_get (handed_up self.now) i }
    {
        hand_at(&self.ups, &self.hands, i)
    }

    /// Returns the hand-ups that are kept, and for each hand-up of all nodes, in the order of the events, its node and the index of what is kept of it.
    /// So what is computed of a kept hand-up, such as its digest, serves each node that handed it up.
    pub fn kept_ups(&self) -> (&[HandUp], &[Hand])
        ensures there { All (IsAmong result.0.now) result.1.now }
        ensures are { map (hand_of result.0.now) result.1.now ≡ handed_up self.now }
        ensures once { UpsAgree self.now → IsDistinct nat_eq (kept_names result.0.now) }
    {
        (self.ups.kept(), self.hands.as_slice())
    }

    /// How many commands were refused for good. An offer after which a command has to wait does not count.
    pub fn refused(&self) -> u64
        ensures { result ≡ count_by is_refused self.now }
    {
        self.counts.refused
    }

    /// How many watermarks the sender reported as expired.
    pub fn expired(&self) -> u64
        ensures { result ≡ count_by is_expired self.now }
    {
        self.counts.expired
    }

    /// Returns the event with index `i`, borrowed. It takes constant time.
    pub fn event(&self, i: usize) -> Seen<'_>
        requires { i < length self.now }
        ensures { slice_get self.now i ≡ Some (told_of result) }
    {
        let entry = self.entries[i];
        lent(
            &self.offers,
            &self.apart,
            &self.ups,
            self.rares.as_slice(),
            self.turns.as_slice(),
            entry,
        )
    }

    /// Adds that the network was started. The judge of `norm_journal` accepts it only as the first event.
    pub fn push_start(&mut self) -> Result<(), Memory>
        ensures { Adds self.old self.new result event.Start }
    {
        self.push_rare(Rare::Start)
    }

    /// Adds that turn `t` began, at this moment: `t` times the profile's `step`, or what the clock gave if `step` is 0. If the clock fell,
    /// it is the moment of the turn before.
    pub fn push_turn(&mut self, t: u32, now: Moment) -> Result<(), Memory>
        ensures { Adds self.old self.new result (event.Turn t now) }
    {
        // 32 bits keep an entry small. Beyond them the journal answers `Memory`, and so many entries hardly fit a memory anyway.
        let Ok(at) = u32::try_from(self.turns.len()) else {
            return Err(Memory);
        };
        self.entries.reserve(1)?;
        self.turns.push(Turn { t, now })?;
        self.entries.push_reserved(Entry::Turn { at });
        Ok(())
    }

    /// Adds that a command was pulled from its producer. Its offers to the sender come as [`push_job`](Journal::push_job) or
    /// [`push_length`](Journal::push_length).
    pub fn push_pull(&mut self, by: Origin) -> Result<(), Memory>
        ensures { Adds self.old self.new result (event.Pull by) }
    {
        self.push_rare(Rare::Pull { by })
    }

    /// Adds an offer of a command and what the sender gave. `job` comes with the first offer, or, for a file, with the offer that accepts it.
    pub fn push_job(
        &mut self,
        by: Origin,
        job: Option<Job>,
        gave: Result<Receipt, SendFault>,
    ) -> Result<(), Memory>
        ensures { Adds self.old self.new result (event.Job by job gave) }
    {
        self.push_rare(Rare::Job { by, job, gave })
    }

    /// Adds that the sender refused a file of `len` octets, for good or for now. Its octets were not read.
    pub fn push_length(
        &mut self,
        by: Origin,
        name: Octets,
        len: u64,
        fault: SendFault,
    ) -> Result<(), Memory>
        ensures { Adds self.old self.new result (event.Length by name len fault) }
    {
        self.push_rare(Rare::Length {
            by,
            name,
            len,
            fault,
        })
    }

    /// Adds a node's tick. Its datagram, if it made one, is added by [`push_offer`](Journal::push_offer).
    pub fn push_tick(&mut self, node: NodeId, sent: Sent) -> Result<(), Memory>
        ensures { Adds self.old self.new result (event.Tick node sent) }
    {
        self.entries.push(Entry::Tick { node, sent })?;
        Ok(())
    }

    /// Adds that a node's datagram was offered to the network. It copies the octets.
    pub fn push_offer(&mut self, from: NodeId, octets: &[u8]) -> Result<(), Memory>
        ensures { Adds self.old self.new result (event.Offer from octets.now) }
    {
        self.entries.reserve(1)?;
        let at = self.offers.keep(octets)?;
        self.entries.push_reserved(Entry::Offer { from, at });
        Ok(())
    }

    /// Adds that a datagram was taken from the network. It copies the octets unless they are the latest offer with their name.
    pub fn push_took(&mut self, to: NodeId, octets: &[u8]) -> Result<(), Memory>
        ensures { Adds self.old self.new result (event.Took to octets.now) }
    {
        self.entries.reserve(1)?;
        // If the network is honest, a take gives what was offered before. Then its octets are mostly kept already, and nothing is copied.
        if let Some(at) = self.offers.find(octets) {
            self.entries.push_reserved(Entry::Took { to, at });
            return Ok(());
        }
        let Ok(at) = u32::try_from(self.apart.len()) else {
            return Err(Memory);
        };
        self.apart.keep(octets)?;
        self.entries.push_reserved(Entry::Apart { to, at });
        Ok(())
    }

    /// Adds a take that gave no datagram.
    pub fn push_empty(&mut self) -> Result<(), Memory>
        ensures { Adds self.old self.new result event.Empty }
    {
        self.entries.push(Entry::Empty)?;
        Ok(())
    }

    /// Adds that a receiver handed something up. If the latest hand-up with its name is the same, `up` is dropped and that one is used.
    pub fn push_up(&mut self, node: NodeId, instance: InstanceId, up: Up) -> Result<(), Memory>
        ensures { Adds self.old self.new result (event.Up node instance up) }
    {
        let hand_up = HandUp { instance, up };
        self.entries.reserve(1)?;
        // Both lists have room before either grows: an event without its place among the hand-ups would break the count.
        self.hands.reserve(1)?;
        if let Some(at) = self.ups.find(&hand_up) {
            self.entries.push_reserved(Entry::Up { node, at });
            self.hands.push_reserved(Hand { node, at });
            return Ok(());
        }
        let at = self.ups.keep(hand_up)?;
        self.entries.push_reserved(Entry::Up { node, at });
        self.hands.push_reserved(Hand { node, at });
        Ok(())
    }

    /// Adds a change that the sender reported. [`expired`](Journal::expired) counts it if it is an expired watermark.
    pub fn push_news(&mut self, news: News) -> Result<(), Memory>
        ensures { Adds self.old self.new result (event.News news) }
    {
        self.push_rare(Rare::News(news))
    }

    /// Adds that the run ended with its summary, which is the last event.
    pub fn push_end(&mut self) -> Result<(), Memory>
        ensures { Adds self.old self.new result event.End }
    {
        self.push_rare(Rare::End)
    }
}

impl Journal {
    /// Adds an event that is kept whole, and counts it if it is a refusal for good or an expired watermark.
    fn push_rare(&mut self, rare: Rare) -> Result<(), Memory>
        ensures { Adds self.old self.new result (rare_event rare) }
    {
        let Ok(at) = u32::try_from(self.rares.len()) else {
            return Err(Memory);
        };
        // Never `None`: a count is at most the number of rare events, which has 32 bits.
        let Some(counted) = self.counts.after(&rare) else {
            return Err(Memory);
        };
        self.entries.reserve(1)?;
        self.rares.push(rare)?;
        self.entries.push_reserved(Entry::Rare { at });
        self.counts = counted;
        Ok(())
    }
}
