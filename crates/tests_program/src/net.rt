//! The network of a row. The lines of a row fill a [`Net`], and `playing` makes the fabric of its [`Kind`].

ghost use Rattle.std.specs.Prelude.{◌≤◌, length, IfOk};

use crate::call::{Fails, numbers};
use crate::disturbed::DisturbedFabric;
use crate::hostile::HostileFabric;
use norm_base::{NodeId, Octets};
use norm_memory::{FeedFabric, ListFabric, Rule};
use row_words::{Fault, Words};
use std::alloc::{AllocError, Global};

/// The most octets of a datagram.
const MOST_OCTETS: usize = 1500;

/// The most datagrams that a network gives in an order that a row names.
const MOST_GIVEN: u32 = 64;

/// The most datagrams that a network gives to a node that is alone.
const MOST_FED: usize = 2;

/// How a network treats what is offered. The lines of a row decide it.
#[derive(Clone, Copy, Debug, PartialEq, Eq)]
pub(crate) enum Kind {
    /// It gives each datagram once, except as rules say, and one of its calls may fail.
    Ruled,
    /// It keeps what is offered, and gives datagrams that the row names.
    Fed,
    /// It gives what was offered in an order that the row names.
    Disturbed,
    /// It gives the datagrams of a list before each one that was offered. Members refuse them.
    Hostile,
}

/// What the lines of a row say of its network.
#[derive(Drop)]
pub(crate) struct Net {
    pub(crate) kind: Kind,
    rules: Vec<Rule>,
    datagrams: Vec<(NodeId, Vec<u8>)>,
    refused: Vec<Vec<u8>>,
    order: Vec<usize>,
    turned: Option<usize>,
}

/// The rule that loses the copy that a line names: the number of an offer, and a member.
fn lost(words: &mut Words<'_>) -> Option<Rule> {
    let offer = words.number()?;
    let to = words.node()?;
    Some(Rule::Copies {
        offer,
        to,
        copies: 0,
        after: 0,
    })
}

/// The rule that loses everything that a node offers. A line names the node.
fn muted(words: &mut Words<'_>) -> Option<Rule> {
    let from = words.node()?;
    Some(Rule::Mute { from, since: 1 })
}

/// A copy of a datagram, cut to the most octets that one may have.
fn datagram_of(alloc: Global, datagram: &(NodeId, Vec<u8>)) -> Result<(NodeId, Vec<u8>), AllocError>
    ensures { IfOk result (λ copy. length copy.1.items ≤ 1500) }
{
    let octets = datagram.1.as_slice();
    let octets = &octets[..octets.len().min(MOST_OCTETS)];
    let copy = Vec::from_slice(alloc, octets)?;
    Ok((datagram.0, copy))
}

impl Net {
    /// A network that gives each datagram once.
    pub(crate) fn new(alloc: Global) -> Net {
        Net {
            kind: Kind::Ruled,
            rules: Vec::new(alloc),
            datagrams: Vec::new(alloc),
            refused: Vec::new(alloc),
            order: Vec::new(alloc),
            turned: None,
        }
    }

    /// Adds what a line says of the network. Returns `false` if it says nothing of it.
    pub(crate) fn add(
        &mut self,
        alloc: Global,
        what: &str,
        words: &mut Words<'_>,
    ) -> Result<bool, Fault> {
        match what {
            "lose" => self.add_rule(lost(words)),
            "mute" => self.add_rule(muted(words)),
            "feed" => self.feed(alloc, words),
            "refuse" => self.refuse(alloc, words),
            "order" => self.order(words),
            "turn" => Ok(self.turn(words)),
            _ => Ok(false),
        }
    }

    /// Adds a rule. Returns `false` if there is none.
    fn add_rule(&mut self, rule: Option<Rule>) -> Result<bool, Fault> {
        let Some(rule) = rule else {
            return Ok(false);
        };
        self.rules.push(rule)?;
        Ok(true)
    }

    /// Adds a datagram that the network gives to a node. Returns `false` if the line names none, or if it is one too many.
    fn feed(&mut self, alloc: Global, words: &mut Words<'_>) -> Result<bool, Fault> {
        let Some(node) = words.node() else {
            return Ok(false);
        };
        let Some(octets) = words.octets(alloc)? else {
            return Ok(false);
        };
        if self.datagrams.len() >= MOST_FED {
            return Ok(false);
        }
        self.kind = Kind::Fed;
        self.datagrams.push((node, octets.into_inner()))?;
        Ok(true)
    }

    /// Adds a datagram that the network gives before each one that was offered. Returns `false` if the line has none.
    fn refuse(&mut self, alloc: Global, words: &mut Words<'_>) -> Result<bool, Fault> {
        let Some(octets) = words.octets(alloc)? else {
            return Ok(false);
        };
        self.kind = Kind::Hostile;
        self.refused.push(octets.into_inner())?;
        Ok(true)
    }

    /// From now on, gives what was offered in this order, by numbers from 0.
    fn order(&mut self, words: &mut Words<'_>) -> Result<bool, Fault> {
        self.kind = Kind::Disturbed;
        self.order.clear();
        for _ in 0..MOST_GIVEN {
            let Some(index) = words.index() else {
                return Ok(true);
            };
            self.order.push(index)?;
        }
        Ok(true)
    }

    /// From now on, inverts all bits of the octet with this index in each datagram. Returns `false` if the line has no index.
    fn turn(&mut self, words: &mut Words<'_>) -> bool {
        self.turned = words.index();
        self.turned.is_some()
    }

    /// The network with rules. The offer or take that `fails` names fails.
    pub(crate) fn ruled(&self, alloc: Global, fails: Fails) -> Result<ListFabric, Fault> {
        let mut rules = Vec::new(alloc);
        for rule in &self.rules {
            rules.push(*rule)?;
        }
        let offers = numbers(alloc, fails.offer())?;
        let takes = numbers(alloc, fails.take())?;
        Ok(ListFabric::of(alloc, rules, offers, takes)?)
    }

    /// The network that gives datagrams of the row, at most `MOST_FED` of them.
    pub(crate) fn fed(&self, alloc: Global) -> Result<FeedFabric, Fault> {
        let Some(first) = self.datagrams.first() else {
            return Ok(FeedFabric::of(alloc, Vec::new(alloc))?);
        };
        let first = datagram_of(alloc, first)?;
        let Some(second) = self.datagrams.get(1) else {
            return Ok(FeedFabric::of(alloc, Vec::from_array(alloc, [first])?)?);
        };
        let second = datagram_of(alloc, second)?;
        Ok(FeedFabric::of(alloc, Vec::from_array(alloc, [first, second])?)?)
    }

    /// The network that gives what was offered in the row's order.
    pub(crate) fn disturbed(&self, alloc: Global) -> Result<DisturbedFabric, Fault> {
        let order = Vec::from_slice(alloc, self.order.as_slice())?;
        Ok(DisturbedFabric::of(alloc, order, self.turned))
    }

    /// The network that gives the refused datagrams before each one that was offered.
    pub(crate) fn hostile(&self, alloc: Global) -> Result<HostileFabric, Fault> {
        let mut refused: Vec<Octets> = Vec::new(alloc);
        for octets in &self.refused {
            refused.push(Octets::of(Vec::from_slice(alloc, octets.as_slice())?))?;
        }
        Ok(HostileFabric::of(alloc, refused))
    }
}
