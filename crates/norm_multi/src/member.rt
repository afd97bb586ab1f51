//! The receiver of one of the senders, and the list of them.

ghost use Rattle.std.specs.Prelude.{◌≡◌, Some, IfOk, IsSome};
ghost use Rattle.norm_multi.specs.Beginning.{IsBegun};
ghost use Rattle.norm_multi.specs.Calls.{index_in, member_of};

use norm_base::{Memory, NodeId, Profile};
use norm_receiver::Receiver;
use std::alloc::Global;

/// The receiver of one of the senders. For contracts, a [`Multi`](crate::Multi) is the list of these.
#[derive(Debug, Drop)]
pub struct Member {
    pub sender: NodeId,
    /// The node that the receiver is in the sender's session.
    pub node: NodeId,
    pub receiver: Receiver,
}

pub(crate) fn sender_of(profile: &Profile) -> NodeId
    ensures { result ≡ profile.now.sender }
{
    NodeId::of(profile.sender).unwrap()
}

impl Member {
    /// Creates the receiver of the profile's sender, which is in no instance yet.
    ///
    /// # Errors
    ///
    /// `Memory` if memory runs out.
    pub(crate) fn new(alloc: Global, profile: &Profile, node: NodeId) -> Result<Member, Memory>
        ensures { IfOk result (λ member. IsBegun (profile.now, node) member) }
    {
        let receiver = Receiver::new(alloc, profile, node)?;
        Ok(Member {
            sender: sender_of(profile),
            node,
            receiver,
        })
    }
}

/// Returns the index of a sender's member, or `None` if the sender is not in the list.
pub(crate) fn index_of(members: &[Member], sender: NodeId) -> Option<usize>
    ensures { result ≡ index_in sender members.now }
{
    for (i, member) in members.iter().enumerate() {
        if member.sender == sender {
            return Some(i);
        }
    }
    None
}

/// Returns the index of the member of a sender that is in the list.
pub(crate) fn known_index(members: &[Member], sender: NodeId) -> usize
    requires { IsSome (member_of members.now sender) }
    ensures { index_in sender members.now ≡ Some result }
{
    match index_of(members, sender) {
        Some(at) => at,
        // Never taken: the sender is in the list.
        None => 0,
    }
}
