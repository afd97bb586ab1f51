//! What the networks in memory except `FeedFabric` keep: the starts, the members, the offers, the answers, and the copies that wait
//! ([`MemNetwork`]).

ghost use Rattle.std.specs.Prelude.{◌≡◌, ◌≢◌, ◌≤◌, ◌+◌, ◌<◌, ◌^◌, ◌++◌, length, List, ℕ, drop, option_map, replicate, IfSome, IfNone, IfOk, OnOk, OnErr, []};
ghost use Rattle.norm_memory.specs.Fates.{AreForOthers, copies_of};
ghost use Rattle.norm_base.specs.Members.{members_of};
ghost use Rattle.norm_memory.specs.Networks.{unstarted, started, after_offer, ready_copy, next_answer, after_take};
ghost use Rattle.norm_memory.specs.Waiting.{first_of};
ghost use Rattle.norm_base.specs.Network.{answer_of, WasOffered};

use crate::copy::WaitingCopy;
use crate::fate::Fate;
use crate::offers::Offers;
use crate::waiting::Waiting;
use norm_base::{Datagram, Local, NodeId, Profile};
use std::alloc::{AllocError, Global};
use std::marker::Model;

/// Returns the members of a session in their order: the sender, and then the receivers.
fn session_members(alloc: Global, profile: &Profile) -> Result<Vec<NodeId>, AllocError>
    ensures { IfOk result (λ members. members.items ≡ members_of profile.now) }
{
    let mut members = Vec::new(alloc);
    // A profile's sender is a node, so `unwrap` does not fail.
    members.push(NodeId::of(profile.sender).unwrap())?;
    for i in 0..u32::from(profile.receivers) {
        members.push(profile.receiver(i))?;
    }
    Ok(members)
}

fn push_copies(
    copies: &mut Vec<WaitingCopy>,
    copy: &WaitingCopy,
    times: u8,
) -> Result<(), AllocError>
    ensures { OnOk result (copies.new.items ≡ copies.old.items ++ replicate times copy.now) }
{
    for _ in 0..times {
        copies.push(*copy)?;
    }
    Ok(())
}

/// Returns the copies of the offer at this index, in the order of `plan`. A lost one has none.
fn planned_copies(
    alloc: Global,
    place: usize,
    plan: &[(NodeId, Fate)],
) -> Result<Vec<WaitingCopy>, AllocError>
    requires { place < 2 ^ 63 }
    ensures { IfOk result (λ copies. copies.items ≡ copies_of place plan.now) }
{
    let mut copies = Vec::with_capacity(alloc, plan.len())?;
    for (to, fate) in plan {
        let copy = WaitingCopy {
            ready: place as u64 + 1 + u64::from(fate.after),
            offer: place,
            to: *to,
        };
        push_copies(&mut copies, &copy, fate.copies)?;
    }
    Ok(copies)
}

/// The members of a session, their datagrams, the answers that were given, each as its member and the index of its offer, and the copies that wait. A
/// network that has one decides what becomes of an offer, and then calls [`offer`](MemNetwork::offer).
// An answer is a member and the index of its offer, so the octets of all offers stand once.
#[derive(Debug, Drop)]
pub(crate) struct MemNetwork {
    alloc: Global,
    starts: Vec<(Profile, Local)>,
    members: Vec<NodeId>,
    offers: Offers,
    answers: Vec<Option<(NodeId, usize)>>,
    waiting: Waiting,
}

impl Model for MemNetwork {
    ghost use Rattle.norm_memory.specs.Networks.{NetworkState};
    ghost use Rattle.norm_memory.specs.Kept.{answers_in, IsOfOffers};

    ghost Value = { NetworkState };

    ghost view = { λ n. record {
      starts = n.starts.items;
      members = n.members.items;
      offered = n.offers;
      answers = answers_in n.offers n.answers.items;
      waiting = n.waiting.copies;
    } };

    ghost invariant = { λ n. IsOfOffers n.offers n.waiting.copies n.answers.items };
}

impl MemNetwork {
    /// Returns a network without a start, and without a member. It takes no memory.
    pub(crate) fn new(alloc: Global) -> MemNetwork
        ensures { result ≡ unstarted }
    {
        MemNetwork {
            alloc,
            starts: Vec::new(alloc),
            members: Vec::new(alloc),
            offers: Offers::new(alloc),
            answers: Vec::new(alloc),
            waiting: Waiting::new(alloc),
        }
    }

    /// Returns the members of the session, the sender first. None before the first start.
    pub(crate) fn members(&self) -> &[NodeId]
        ensures { result.now ≡ self.now.members }
    {
        self.members.as_slice()
    }

    pub(crate) fn alloc(&self) -> Global {
        self.alloc
    }

    /// Starts a session, and drops the offers, answers and copies of the one before. `local` is only recorded: all members are here.
    pub(crate) fn start(&mut self, profile: &Profile, local: Local) -> Result<(), AllocError>
        ensures ok { OnOk result (self.new ≡ started self.old profile.now local) }
        ensures err { OnErr result (self.new ≡ self.old) }
    {
        // What needs memory comes first, so that a failed start leaves the session before as it was.
        let members = session_members(self.alloc, profile)?;
        self.starts.push((*profile, local))?;
        self.members = members;
        self.offers.clear();
        self.answers.clear();
        self.waiting.clear();
        Ok(())
    }

    /// Keeps a member's datagram. `plan` says what becomes of it on its way to each other member.
    pub(crate) fn offer(
        &mut self,
        from: NodeId,
        bytes: &[u8],
        plan: &[(NodeId, Fate)],
    ) -> Result<(), AllocError>
        requires most { length bytes.now ≤ 1500 }
        requires others { AreForOthers from plan.now }
        ensures ok { OnOk result (self.new ≡ after_offer self.old from bytes.now plan.now) }
        ensures err { OnErr result (self.new ≡ self.old) }
    {
        let copies = planned_copies(self.alloc, self.offers.len(), plan)?;
        // All memory before the offer is kept: an offer without its copies would be one that the network lost for lack of memory.
        self.waiting.reserve(copies.len())?;
        self.offers.push(from, bytes)?;
        self.waiting.put(copies);
        Ok(())
    }

    /// Returns the copy that is taken next. `None` if none waits, or if further offers have to come first.
    fn ready_copy(&self) -> Option<WaitingCopy>
        ensures { result ≡ ready_copy (length self.now.offered) self.now.waiting }
    {
        let copy = self.waiting.first()?;
        if copy.ready <= self.offers.len() as u64 {
            return Some(copy);
        }
        None
    }

    /// Takes the next copy, and returns the member that it is for. `None` if none is ready. Each answer is recorded, so `None` takes memory too.
    pub(crate) fn take(&mut self, into: &mut Datagram) -> Result<Option<NodeId>, AllocError>
        ensures answer { IfOk result (λ node. answer_of node into.new ≡ next_answer self.old) }
        ensures none { IfOk result (λ node. IfNone node (into.new ≡ [])) }
        ensures honest { IfOk result (λ node. IfSome (answer_of node into.new) (λ a. WasOffered self.old.offered a.0 a.1)) }
        ensures ok { OnOk result (self.new ≡ after_take self.old) }
        ensures err { OnErr result ((self.new ≡ self.old) × (into.new ≡ [])) }
    {
        into.clear();
        let Some(copy) = self.ready_copy() else {
            self.answers.push(None)?;
            return Ok(None);
        };
        // Before the copy leaves the heap: without memory the copy is still there.
        self.answers.push(Some((copy.to, copy.offer)))?;
        into.push(self.offers.bytes(copy.offer));
        self.waiting.take_first();
        Ok(Some(copy.to))
    }

    /// Returns the datagram at this index, from 0, of those kept since the last `Ok` start, and who offered it. `None` if there are not so
    /// many.
    pub(crate) fn offered(&self, place: usize) -> Option<(NodeId, &[u8])>
        ensures { option_map (λ x. (x.0, x.1.now)) result ≡ first_of (drop place self.now.offered) }
    {
        if place < self.offers.len() {
            return Some((self.offers.from(place), self.offers.bytes(place)));
        }
        None
    }
}
