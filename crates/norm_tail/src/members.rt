//! The members of a profile, one by one in their order.

ghost use Rattle.std.specs.Prelude.{◌≡◌, ◌+◌, ◌<◌, ◌≤◌, ◌∷◌, drop, true};
ghost use Rattle.norm_base.specs.Members.{is_node, is_receiver, members_of, receivers_of};

use norm_base::{NodeId, Profile};

pub(crate) fn sender_node(profile: &Profile) -> NodeId
    ensures { result ≡ profile.now.sender }
{
    // It does not fail: a profile's sender is a node.
    NodeId::of(profile.sender).unwrap()
}

/// Receiver `i`, from 0.
pub(crate) fn receiver(profile: &Profile, i: u32) -> NodeId
    requires { i < profile.now.receivers }
    ensures place { drop i (receivers_of profile.now profile.now.receivers) ≡ result ∷ drop (i + 1) (receivers_of profile.now profile.now.receivers) }
    ensures receiver { is_receiver profile.now result ≡ true }
{
    profile.receiver(i)
}

/// Member `i`, from 0: the sender, and then the receivers.
pub(crate) fn member(profile: &Profile, i: u32) -> NodeId
    requires { i ≤ profile.now.receivers }
    ensures place { drop i (members_of profile.now) ≡ result ∷ drop (i + 1) (members_of profile.now) }
    ensures member { is_node profile.now result ≡ true }
{
    if i == 0 {
        return sender_node(profile);
    }
    receiver(profile, i - 1)
}
