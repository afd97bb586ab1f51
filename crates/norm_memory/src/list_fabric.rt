//! A network in memory with rules, which fails at chosen offers and takes: [`ListFabric`]. Tests use it.

ghost use Rattle.std.specs.Prelude.{◌≡◌, ◌≤◌, length, [], drop, true, false, option_map, IfOk, IfNone, OnOk, OnErr};
ghost use Rattle.norm_memory.specs.Calls.{next_fails};
ghost use Rattle.norm_memory.specs.Listed.{failed_calls, list_started, ruled_offer, list_offered, list_taken};
ghost use Rattle.norm_memory.specs.Networks.{told_by, unstarted, next_answer, after_take};
ghost use Rattle.norm_memory.specs.Waiting.{first_of};
ghost use Rattle.norm_base.specs.Faults.{Counts, network_failed};
ghost use Rattle.norm_base.specs.Network.{answer_of, IsHonestAnswer};

use crate::calls::CallCount;
use crate::network::MemNetwork;
use crate::rule::{Rule, plan_by_rules};
use norm_base::{Datagram, Fabric, FabricFault, Local, Memory, NodeId, Profile};
use std::alloc::Global;
use std::marker::Model;

/// A network in memory like [`DirectFabric`](crate::DirectFabric), except that rules say which copies are lost, repeated or late, and that
/// listed offers and takes fail. A failed one is counted and changes nothing else of the network. Offers and takes have numbers from 1
/// since the last start that was `Ok`, failed ones too. Ready copies are taken in the order in which they became ready, then of their
/// offers, then of the nodes that they are for.
#[derive(Debug, Drop)]
pub struct ListFabric {
    network: MemNetwork,
    rules: Vec<Rule>,
    offers: CallCount,
    takes: CallCount,
}

impl Model for ListFabric {
    ghost use Rattle.norm_memory.specs.Listed.{ListState};

    ghost Value = { ListState };

    ghost view = { λ f. record { network = f.network; rules = f.rules.items; offers = f.offers; takes = f.takes } };
}

impl ListFabric {
    /// Returns a network that was not started, and has no member. The offers and takes with these numbers fail. It takes no memory, so it is always
    /// `Ok`.
    pub fn of(
        alloc: Global,
        rules: Vec<Rule>,
        offers: Vec<u64>,
        takes: Vec<u64>,
    ) -> Result<ListFabric, Memory>
        ensures network { IfOk result (λ f. f.network ≡ unstarted) }
        ensures rules { IfOk result (λ f. f.rules ≡ rules.items) }
        ensures offers { IfOk result (λ f. f.offers ≡ record { failing = offers.items; made = 0; faults = 0 }) }
        ensures takes { IfOk result (λ f. f.takes ≡ record { failing = takes.items; made = 0; faults = 0 }) }
    {
        Ok(ListFabric {
            network: MemNetwork::new(alloc),
            rules,
            offers: CallCount::of(offers),
            takes: CallCount::of(takes),
        })
    }

    /// Returns the datagram at this index, from 0, of those kept since the last `Ok` start, and who offered it. `None` if there are not so
    /// many.
    pub fn offered(&self, place: usize) -> Option<(NodeId, &[u8])>
        ensures { option_map (λ x. (x.0, x.1.now)) result ≡ first_of (drop place self.now.network.offered) }
    {
        self.network.offered(place)
    }

    /// Returns how many takes were asked for since the last `Ok` start, failed ones too.
    pub fn takes(&self) -> u64
        ensures { result ≡ self.now.takes.made }
    {
        self.takes.made()
    }
}

impl Fabric for ListFabric {
    ghost told = { λ f. told_by f.network };

    ghost fault_count = { failed_calls };

    fn start(&mut self, profile: &Profile, local: Local) -> Result<(), FabricFault>
        ensures state { OnOk result (self.new ≡ list_started self.old profile.now local) }
        ensures kept { OnErr result (self.new ≡ self.old) }
        ensures cause { network_failed result ≡ false }
    {
        self.network.start(profile, local)?;
        self.offers.restart();
        self.takes.restart();
        Ok(())
    }

    fn offer(&mut self, from: NodeId, bytes: &[u8]) -> Result<(), FabricFault>
        requires { length bytes.now ≤ 1500 }
        ensures fails { network_failed result ≡ next_fails self.old.offers }
        ensures state { OnOk result (self.new ≡ list_offered self.old (ruled_offer self.old from bytes.now) false) }
        ensures kept { OnErr result (self.new ≡ list_offered self.old self.old.network (network_failed result)) }
        ensures cause { Counts (failed_calls self.old) (failed_calls self.new) (network_failed result) }
    {
        if self.offers.next_fails() {
            self.offers.fail();
            return Err(FabricFault::Failed);
        }
        self.offers.pass();
        let network = &mut self.network;
        let number = self.offers.made();
        let plan = plan_by_rules(
            network.alloc(),
            &self.rules,
            number,
            from,
            network.members(),
        )?;
        network.offer(from, bytes, &plan)?;
        Ok(())
    }

    fn take(&mut self, into: &mut Datagram) -> Result<Option<NodeId>, FabricFault>
        ensures fails { network_failed result ≡ next_fails self.old.takes }
        ensures answer { IfOk result (λ node. answer_of node into.new ≡ next_answer self.old.network) }
        ensures none { IfOk result (λ node. IfNone node (into.new ≡ [])) }
        ensures honest { IfOk result (λ node. IsHonestAnswer (told_by self.old.network) (answer_of node into.new)) }
        ensures state { OnOk result (self.new ≡ list_taken self.old (after_take self.old.network) false) }
        ensures kept { OnErr result ((self.new ≡ list_taken self.old self.old.network (network_failed result)) × (into.new ≡ [])) }
        ensures cause { Counts (failed_calls self.old) (failed_calls self.new) (network_failed result) }
    {
        if self.takes.next_fails() {
            self.takes.fail();
            into.clear();
            return Err(FabricFault::Failed);
        }
        self.takes.pass();
        Ok(self.network.take(into)?)
    }

    fn faults(&self) -> u64 {
        self.offers.faults().saturating_add(self.takes.faults())
    }
}
