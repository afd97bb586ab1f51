//! Why a list of members is refused.

ghost use Rattle.std.specs.Prelude.{◌≡◌, ◌≤◌, [], length, IfOk};
ghost use Rattle.norm_multi.specs.Beginning.{first_no_receiver, first_repeated, ids_of, is_among};

use crate::member::sender_of;
use norm_base::{Memory, NodeId, Profile};
use std::alloc::Global;

/// Returns the index of the first node that is no receiver of its profile.
pub(crate) fn first_no_receiver(members: &[(Profile, NodeId)]) -> Option<u32>
    requires { length members.now ≤ 8 }
    ensures { result ≡ first_no_receiver members.now }
{
    for (i, member) in members.iter().enumerate() {
        if !member.0.is_receiver(member.1) {
            return Some(i as u32);
        }
    }
    None
}

/// Returns the ids of a list: of each item its sender, then its node.
///
/// # Errors
///
/// `Memory` if memory runs out.
pub(crate) fn ids_of(alloc: Global, members: &[(Profile, NodeId)]) -> Result<Vec<NodeId>, Memory>
    ensures { IfOk result (λ ids. ids.items ≡ ids_of members.now) }
{
    let mut ids = Vec::new(alloc);
    for member in members {
        ids.push(sender_of(&member.0))?;
        ids.push(member.1)?;
    }
    Ok(ids)
}

fn is_among(ids: &[NodeId], id: NodeId) -> bool
    ensures { result ≡ is_among ids.now id }
{
    ids.iter().any(|other| *other == id)
}

/// Returns the first id that stands earlier in the list too.
pub(crate) fn first_repeated(ids: &[NodeId]) -> Option<NodeId>
    ensures { result ≡ first_repeated [] ids.now }
{
    for (i, id) in ids.iter().enumerate() {
        if is_among(&ids[..i], *id) {
            return Some(*id);
        }
    }
    None
}
