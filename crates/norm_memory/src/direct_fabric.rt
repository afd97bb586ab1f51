//! A network in memory that gives each datagram once to each other member, in order: [`DirectFabric`]. `norm_host` runs it if the profile names it.

ghost use Rattle.std.specs.Prelude.{◌≡◌, ◌≤◌, length, [], drop, Some, true, option_map, IfOk, IfNone, IfErr, OnOk, OnErr};
ghost use Rattle.norm_memory.specs.Direct.{direct_offer, direct_told};
ghost use Rattle.norm_memory.specs.Networks.{unstarted, started, next_answer, after_take};
ghost use Rattle.norm_memory.specs.Waiting.{first_of};
ghost use Rattle.norm_base.specs.Network.{Starts, with_offer, with_answer, answer_of, IsHonestAnswer, IsDirectAnswer};

use crate::network::MemNetwork;
use crate::rule::plan_by_rules;
use norm_base::{Datagram, Fabric, FabricFault, Local, Memory, NodeId, Profile};
use std::alloc::Global;
use std::marker::Model;

/// A network in memory that loses nothing within a session: each kept datagram comes once to each other member, in the order of the offers
/// and of the members, and a take gives the first that was not taken yet. A call fails only if memory runs out.
#[derive(Debug, Drop)]
pub struct DirectFabric {
    network: MemNetwork,
}

impl Model for DirectFabric {
    ghost use Rattle.norm_memory.specs.Networks.{NetworkState};
    ghost use Rattle.norm_memory.specs.Direct.{KeepsCopies};

    ghost Value = { NetworkState };

    ghost view = { λ f. f.network };

    ghost invariant = { λ f. KeepsCopies f.network };
}

impl DirectFabric {
    /// Returns a network that was not started, and has no member. It takes no memory, so it is always `Ok`.
    pub fn new(alloc: Global) -> Result<DirectFabric, Memory>
        ensures { IfOk result (λ f. f ≡ unstarted) }
    {
        Ok(DirectFabric {
            network: MemNetwork::new(alloc),
        })
    }

    /// Returns the datagram at this index, from 0, of those kept since the last `Ok` start, and who offered it. `None` if there are not so
    /// many.
    pub fn offered(&self, place: usize) -> Option<(NodeId, &[u8])>
        ensures { option_map (λ x. (x.0, x.1.now)) result ≡ first_of (drop place self.now.offered) }
    {
        self.network.offered(place)
    }
}

impl Fabric for DirectFabric {
    ghost told = { direct_told };

    ghost fault_count = { λ _. 0 };

    fn start(&mut self, profile: &Profile, local: Local) -> Result<(), FabricFault>
        ensures state { OnOk result (self.new ≡ started self.old profile.now local) }
        ensures kept { OnErr result (self.new ≡ self.old) }
        ensures fault { IfErr result (λ e. e ≡ FabricFault.Memory) }
    {
        self.network.start(profile, local)?;
        Ok(())
    }

    fn offer(&mut self, from: NodeId, bytes: &[u8]) -> Result<(), FabricFault>
        requires { length bytes.now ≤ 1500 }
        ensures state { OnOk result (self.new ≡ direct_offer self.old from bytes.now) }
        ensures kept { OnErr result (self.new ≡ self.old) }
        ensures fault { IfErr result (λ e. e ≡ FabricFault.Memory) }
    {
        let network = &mut self.network;
        let plan = plan_by_rules(network.alloc(), &[], 0, from, network.members())?;
        network.offer(from, bytes, &plan)?;
        Ok(())
    }

    fn take(&mut self, into: &mut Datagram) -> Result<Option<NodeId>, FabricFault>
        ensures answer { IfOk result (λ node. answer_of node into.new ≡ next_answer self.old) }
        ensures none { IfOk result (λ node. IfNone node (into.new ≡ [])) }
        ensures honest { IfOk result (λ node. IsHonestAnswer (direct_told self.old) (answer_of node into.new)) }
        ensures direct { IfOk result (λ node. IsDirectAnswer (direct_told self.old) (answer_of node into.new)) }
        ensures state { OnOk result (self.new ≡ after_take self.old) }
        ensures kept { OnErr result ((self.new ≡ self.old) × (into.new ≡ [])) }
        ensures fault { IfErr result (λ e. e ≡ FabricFault.Memory) }
    {
        Ok(self.network.take(into)?)
    }

    fn faults(&self) -> u64 {
        0
    }
}
