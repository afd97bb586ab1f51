//! A network in memory that gives a list of datagrams: [`FeedFabric`]. Tests use it.

ghost use Rattle.std.specs.Prelude.{◌≡◌, ◌≤◌, length, [], drop, option_map, IfOk, IfNone, IfErr, OnOk, OnErr};
ghost use Rattle.norm_memory.specs.Feeding.{feed_told, fed, AreDatagrams, feed_started, feed_offered, feed_taken};
ghost use Rattle.norm_memory.specs.Waiting.{first_of};
ghost use Rattle.norm_base.specs.Network.{answer_of};

use crate::offers::Offers;
use norm_base::{Datagram, Fabric, FabricFault, Local, Memory, NodeId, Profile};
use std::alloc::Global;
use std::marker::Model;

/// A network in memory that gives the datagrams of a list, one for each take, and then nothing. It is not honest: it gives them whether
/// they were offered or not. It keeps what is offered and gives it to nobody. A start does not begin the list again. A call fails only if
/// memory runs out.
// Each datagram of the list has at most 1,500 octets. A longer one would find no room in what is lent to `take`.
#[derive(Debug, Drop)]
pub struct FeedFabric {
    starts: Vec<(Profile, Local)>,
    offers: Offers,
    answers: Vec<Option<usize>>,
    feed: Vec<(NodeId, Vec<u8>)>,
    next: usize,
}

impl Model for FeedFabric {
    ghost use Rattle.std.specs.Prelude.{drop, length, ◌≤◌};
    ghost use Rattle.norm_memory.specs.Feeding.{FeedState, fed, fed_answers, AreDatagrams};

    ghost Value = { FeedState };

    ghost view = { λ f. record {
      starts = f.starts.items;
      offered = f.offers;
      answers = fed_answers (fed f.feed.items) f.answers.items;
      left = drop f.next (fed f.feed.items);
    } };

    ghost invariant = { λ f. AreDatagrams f.feed.items };
}

impl FeedFabric {
    /// Returns a network that was not started, and will give these datagrams to these members. It takes no memory, so it is always `Ok`.
    pub fn of(alloc: Global, feed: Vec<(NodeId, Vec<u8>)>) -> Result<FeedFabric, Memory>
        requires { AreDatagrams feed.items }
        ensures { IfOk result (λ f. f ≡ record { starts = []; offered = []; answers = []; left = fed feed.items }) }
    {
        Ok(FeedFabric {
            starts: Vec::new(alloc),
            offers: Offers::new(alloc),
            answers: Vec::new(alloc),
            feed,
            next: 0,
        })
    }

    /// Returns the datagram at this index, from 0, of those kept since the last `Ok` start, and who offered it. `None` if there are not so
    /// many.
    pub fn offered(&self, place: usize) -> Option<(NodeId, &[u8])>
        ensures { option_map (λ x. (x.0, x.1.now)) result ≡ first_of (drop place self.now.offered) }
    {
        if place < self.offers.len() {
            return Some((self.offers.from(place), self.offers.bytes(place)));
        }
        None
    }
}

impl Fabric for FeedFabric {
    ghost told = { feed_told };

    ghost fault_count = { λ _. 0 };

    fn start(&mut self, profile: &Profile, local: Local) -> Result<(), FabricFault>
        ensures state { OnOk result (self.new ≡ feed_started self.old profile.now local) }
        ensures kept { OnErr result (self.new ≡ self.old) }
        ensures fault { IfErr result (λ e. e ≡ FabricFault.Memory) }
    {
        if self.starts.push((*profile, local)).is_err() {
            return Err(FabricFault::Memory);
        }
        self.offers.clear();
        self.answers.clear();
        Ok(())
    }

    fn offer(&mut self, from: NodeId, bytes: &[u8]) -> Result<(), FabricFault>
        requires { length bytes.now ≤ 1500 }
        ensures state { OnOk result (self.new ≡ feed_offered self.old from bytes.now) }
        ensures kept { OnErr result (self.new ≡ self.old) }
        ensures fault { IfErr result (λ e. e ≡ FabricFault.Memory) }
    {
        self.offers.push(from, bytes)?;
        Ok(())
    }

    fn take(&mut self, into: &mut Datagram) -> Result<Option<NodeId>, FabricFault>
        ensures answer { IfOk result (λ node. answer_of node into.new ≡ first_of self.old.left) }
        ensures none { IfOk result (λ node. IfNone node (into.new ≡ [])) }
        ensures state { OnOk result (self.new ≡ feed_taken self.old) }
        ensures kept { OnErr result ((self.new ≡ self.old) × (into.new ≡ [])) }
        ensures fault { IfErr result (λ e. e ≡ FabricFault.Memory) }
    {
        into.clear();
        if self.feed.len() <= self.next {
            if self.answers.push(None).is_err() {
                return Err(FabricFault::Memory);
            }
            return Ok(None);
        }
        if self.answers.push(Some(self.next)).is_err() {
            return Err(FabricFault::Memory);
        }
        let (to, bytes) = &self.feed[self.next];
        into.push(bytes);
        self.next += 1;
        Ok(Some(*to))
    }

    fn faults(&self) -> u64 {
        0
    }
}
