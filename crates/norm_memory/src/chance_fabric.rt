//! A network in memory that loses, repeats and delays by chance: [`ChanceFabric`]. `norm_host` runs it if the profile names it.

ghost use Rattle.std.specs.Prelude.{◌≡◌, ◌≤◌, ◌++◌, length, [], drop, option_map, IfOk, IfNone, IfErr, OnOk, OnErr};
ghost use Rattle.norm_memory.specs.Chances.{seeded, draw, fate_by_word, chance_plan, drawn, chance_unstarted, chance_started, chance_offer, chance_take};
ghost use Rattle.norm_memory.specs.Fates.{AreForOthers};
ghost use Rattle.norm_memory.specs.Networks.{told_by, next_answer};
ghost use Rattle.norm_memory.specs.Waiting.{first_of};
ghost use Rattle.norm_base.specs.Network.{answer_of, IsHonestAnswer};

use crate::fate::Fate;
use crate::network::MemNetwork;
use norm_base::{Datagram, Fabric, FabricFault, Local, Memory, NodeId, Profile};
use rand_core::SeedableRng;
use rand_core::utils::NextWord;
use rand_pcg::Lcg64Xsh32;
use std::alloc::{AllocError, Global};
use std::marker::Model;

/// The draws depend on the seed alone, so that a run can be repeated.
#[tactic(auto, unfolding(crate::specs::Chances::seeded))]
fn seeded(chance: u32) -> Lcg64Xsh32
    ensures { result ≡ seeded chance }
{
    Lcg64Xsh32::seed_from_u64(u64::from(chance))
}

#[tactic(auto, unfolding(crate::specs::Chances::draw))]
fn draw(draws: &mut Lcg64Xsh32) -> u32
    ensures { (result, draws.new) ≡ draw draws.old }
{
    draws.next_word()
}

/// Returns what becomes of a copy, by the word that was drawn for it. [`ChanceFabric`] says how.
fn fate_by_word(profile: &Profile, word: u32) -> Fate
    ensures { result ≡ fate_by_word profile.now word }
{
    // One word for three choices, by digits of it that do not overlap: so each copy takes one draw, whatever becomes of it.
    if word % 1000 < u32::from(profile.loss) {
        return Fate {
            copies: 0,
            after: 0,
        };
    }
    let repeated = word / 1000 % 1000 < u32::from(profile.repeat);
    Fate {
        copies: if repeated { 2 } else { 1 },
        after: word / 1_000_000 % (u32::from(profile.late) + 1),
    }
}

/// Returns what becomes of an offer. Draws a word for each other member.
fn plan_by_chance(
    alloc: Global,
    profile: &Profile,
    draws: &mut Lcg64Xsh32,
    from: NodeId,
    members: &[NodeId],
) -> Result<Vec<(NodeId, Fate)>, AllocError>
    ensures plan { IfOk result (λ plan. plan.items ≡ chance_plan profile.now from members.now draws.old) }
    ensures draws { OnOk result (draws.new ≡ drawn from members.now draws.old) }
    ensures others { IfOk result (λ plan. AreForOthers from plan.items) }
{
    let mut plan = Vec::with_capacity(alloc, members.len())?;
    for to in members {
        if *to != from {
            plan.push((*to, fate_by_word(profile, draw(draws))))?;
        }
    }
    Ok(plan)
}

/// A network in memory by chance. For each other member of an offer it draws one 32-bit word w of PCG32, which begins from the profile's seed
/// `chance`. If w mod 1000 is below `loss`, the copy is lost. If w / 1000 mod 1000 is below `repeat`, it comes twice. It is ready after w / 1000000
/// mod (`late` + 1) further kept offers. Ready copies are taken as in `ListFabric`. A call fails only if memory runs out.
#[derive(Debug, Drop)]
pub struct ChanceFabric {
    network: MemNetwork,
    profile: Profile,
    draws: Lcg64Xsh32,
}

impl Model for ChanceFabric {
    ghost use Rattle.norm_memory.specs.Chances.{ChanceState};

    ghost Value = { ChanceState };

    ghost view = { λ f. record { network = f.network; profile = f.profile; draws = f.draws } };
}

impl ChanceFabric {
    /// Returns a network that was not started, and has no member. It takes no memory, so it is always `Ok`.
    pub fn new(alloc: Global) -> Result<ChanceFabric, Memory>
        ensures { IfOk result (λ f. f ≡ chance_unstarted) }
    {
        Ok(ChanceFabric {
            network: MemNetwork::new(alloc),
            profile: Profile::default(),
            draws: seeded(0),
        })
    }

    /// Returns the datagram at this index, from 0, of those kept since the last `Ok` start, and who offered it. `None` if there are not so
    /// many.
    pub fn offered(&self, place: usize) -> Option<(NodeId, &[u8])>
        ensures { option_map (λ x. (x.0, x.1.now)) result ≡ first_of (drop place self.now.network.offered) }
    {
        self.network.offered(place)
    }
}

impl Fabric for ChanceFabric {
    ghost told = { λ f. told_by f.network };

    ghost fault_count = { λ _. 0 };

    fn start(&mut self, profile: &Profile, local: Local) -> Result<(), FabricFault>
        ensures state { OnOk result (self.new ≡ chance_started self.old profile.now local) }
        ensures kept { OnErr result (self.new ≡ self.old) }
        ensures fault { IfErr result (λ e. e ≡ FabricFault.Memory) }
    {
        self.network.start(profile, local)?;
        self.profile = *profile;
        self.draws = seeded(profile.chance);
        Ok(())
    }

    fn offer(&mut self, from: NodeId, bytes: &[u8]) -> Result<(), FabricFault>
        requires { length bytes.now ≤ 1500 }
        ensures state { OnOk result (self.new ≡ chance_offer self.old from bytes.now) }
        ensures kept { OnErr result (self.new ≡ self.old) }
        ensures fault { IfErr result (λ e. e ≡ FabricFault.Memory) }
    {
        // A copy, put back once the offer is kept: a lack of memory must not leave the draws ahead of the offers.
        let mut draws = self.draws.clone()?;
        let network = &mut self.network;
        let plan = plan_by_chance(
            network.alloc(),
            &self.profile,
            &mut draws,
            from,
            network.members(),
        )?;
        network.offer(from, bytes, &plan)?;
        self.draws = draws;
        Ok(())
    }

    fn take(&mut self, into: &mut Datagram) -> Result<Option<NodeId>, FabricFault>
        ensures answer { IfOk result (λ node. answer_of node into.new ≡ next_answer self.old.network) }
        ensures none { IfOk result (λ node. IfNone node (into.new ≡ [])) }
        ensures honest { IfOk result (λ node. IsHonestAnswer (told_by self.old.network) (answer_of node into.new)) }
        ensures state { OnOk result (self.new ≡ chance_take self.old) }
        ensures kept { OnErr result ((self.new ≡ self.old) × (into.new ≡ [])) }
        ensures fault { IfErr result (λ e. e ≡ FabricFault.Memory) }
    {
        Ok(self.network.take(into)?)
    }

    fn faults(&self) -> u64 {
        0
    }
}
