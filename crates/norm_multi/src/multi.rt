//! [`Multi`], which callers drive, and why it is refused.

ghost use Rattle.std.specs.Prelude.{◌≡◌, ◌≤◌, [], None, Some, length, IfOk, IfErr, OnErr, IfNone, IfSome, IsSome};
ghost use Rattle.std.specs.Option.{option_map};
ghost use Rattle.norm_multi.specs.Beginning.{AreBegun, IsFault, fault_of};
ghost use Rattle.norm_multi.specs.declared.multi.MultiFault.TheVariants as fault;
ghost use Rattle.norm_multi.specs.Calls.{Delivered, Taken, Ticked, StandFor, member_of, owner_in};
ghost use Rattle.norm_multi.specs.MultiMoves.{IsCall, IsNoCall, MayLackMemory, Answers, IsSent, AreTaken, IsInInstance};
ghost use Rattle.norm_receive_rules.specs.ReceiverStep as receiver;

use crate::beginning::{first_no_receiver, first_repeated, ids_of};
use crate::member::{Member, index_of, known_index};
use crate::owner::owner_of;
use norm_base::{Datagram, Memory, Moment, NodeId, Profile, Sent};
use norm_order::Up;
use norm_receiver::Receiver;
use std::alloc::{AllocFailed, Global};
use std::marker::Model;

/// Why a list of senders is refused.
#[derive(Clone, Copy, Debug, PartialEq, Eq)]
pub enum MultiFault {
    /// The node of item `i`, counted from 0, is the first that is no receiver of its profile.
    NotReceiver { i: u32 },
    /// All nodes are receivers, but an id stands twice. The ids are read as sender, node, sender, node, and so on; `node` is the first that
    /// stood before.
    SameId { node: NodeId },
    /// Memory ran out.
    Memory,
}

impl From<Memory> for MultiFault {
    ghost from_gives = { λ e r. r ≡ fault.Memory };

    fn from(_memory: Memory) -> MultiFault {
        MultiFault::Memory
    }
}

impl<T: Drop> From<AllocFailed<T>> for MultiFault {
    ghost from_gives = { λ e r. r ≡ fault.Memory };

    fn from(_refused: AllocFailed<T>) -> MultiFault {
        MultiFault::Memory
    }
}

/// A receiver for each of several senders, without I/O. In each turn:
/// 1. [`deliver`](Multi::deliver) each datagram that arrived, in any order. Any octets are allowed.
/// 2. For each sender, [`take_up`](Multi::take_up) until it returns `None`, then [`tick`](Multi::tick).
#[derive(Debug, Drop)]
pub struct Multi {
    members: Vec<Member>,
}

impl Model for Multi {
    ghost use Rattle.std.specs.Prelude.{List};
    ghost use Rattle.norm_multi.specs.declared.member.Member.{Member as Kept};

    ghost Value = { List Kept };

    ghost view = { λ m. m.members.items };
}

impl Multi {
    /// Creates a receiver for the sender of each profile, as the node beside that profile. Each is in no instance yet. The ids of all senders
    /// and nodes have to differ. At most 8 items, which is our own choice.
    ///
    /// # Errors
    ///
    /// `NotReceiver` or `SameId`, the first that applies. `Memory` if memory runs out.
    pub fn new(alloc: Global, members: &[(Profile, NodeId)]) -> Result<Multi, MultiFault>
        requires { length members.now ≤ 8 }
        ensures begun { IfOk result (λ multi. AreBegun members.now multi) }
        ensures stands { IfOk result (λ multi. StandFor multi []) }
        ensures sound { IfOk result (λ multi. fault_of members.now ≡ None) }
        ensures fault { IfErr result (λ why. IsFault why members.now) }
    {
        if let Some(i) = first_no_receiver(members) {
            return Err(MultiFault::NotReceiver { i });
        }
        let ids = ids_of(alloc, members)?;
        if let Some(node) = first_repeated(&ids) {
            return Err(MultiFault::SameId { node });
        }
        let mut list = Vec::new(alloc);
        for member in members {
            let begun = Member::new(alloc, &member.0, member.1)?;
            list.push(begun)?;
        }
        Ok(Multi { members: list })
    }

    /// Delivers a datagram to the receiver of the sender that it belongs to, and returns that sender. A NACK or an ACK belongs to the sender that
    /// it names. Returns `None` if the octets spell no message, or a report, or if that sender is not one of these. Then nothing changes. If a
    /// back-off begins, `draw` decides how long it lasts. A datagram of one of these is decoded twice, for its owner and by the receiver.
    ///
    /// # Errors
    ///
    /// `Memory` if memory runs out. Everything is then as if the datagram had been lost.
    pub fn deliver(
        &mut self,
        bytes: &[u8],
        now: Moment,
        draw: u32,
    ) -> Result<Option<NodeId>, Memory>
        ensures owner { IfOk result (λ owner. owner ≡ owner_in self.old bytes.now) }
        ensures call { IfOk result (λ owner. IsCall self.old self.new (Delivered bytes.now now draw)) }
        ensures none { IfOk result (λ owner. owner ≡ None → self.new ≡ self.old) }
        ensures refused { OnErr result (IsNoCall self.old self.new) }
        ensures wanted { OnErr result (MayLackMemory self.old bytes.now) }
    {
        let Some(sender) = owner_of(bytes) else {
            return Ok(None);
        };
        let Some(at) = index_of(&self.members, sender) else {
            return Ok(None);
        };
        self.members[at].receiver.deliver(bytes, now, draw)?;
        Ok(Some(sender))
    }

    /// Takes the next hand-up of a sender's receiver. `None` if all were taken; then nothing changes. It takes no memory.
    pub fn take_up(&mut self, sender: NodeId) -> Option<Up>
        requires there { IsSome (member_of self.old sender) }
        ensures call { IsCall self.old self.new (Taken sender) }
        ensures answer { Answers self.old sender receiver.UpTaken (λ answer. answer ≡ receiver.Gave result) }
        ensures none { IfNone result (AreTaken (member_of self.new sender) × (self.new ≡ self.old)) }
        ensures some { IfSome result (λ _. IsInInstance (member_of self.old sender)) }
    {
        let at = known_index(&self.members, sender);
        self.members[at].receiver.take_up()
    }

    /// Ticks a sender's receiver: it sends the acknowledgement or the NACK that is due, if there is one. Call it after all hand-ups of that
    /// sender were taken. If nothing is sent, `out` may hold anything. It takes no memory.
    pub fn tick(&mut self, sender: NodeId, now: Moment, out: &mut Datagram) -> Sent
        requires there { IsSome (member_of self.old sender) }
        requires taken { AreTaken (member_of self.old sender) }
        ensures call { IsCall self.old self.new (Ticked sender now) }
        ensures answer { Answers self.old sender (receiver.Ticked now) (IsSent result out.new) }
    {
        let at = known_index(&self.members, sender);
        self.members[at].receiver.tick(now, out)
    }

    /// Returns the receiver of a sender, to ask for its instance, its position due or its losses.
    pub fn receiver(&self, sender: NodeId) -> &Receiver
        requires { IsSome (member_of self.now sender) }
        ensures { option_map (λ m. m.receiver) (member_of self.now sender) ≡ Some result.now }
    {
        let at = known_index(&self.members, sender);
        &self.members[at].receiver
    }
}
