//! Tells which sender feedback is for (RFC 5740 section 4.3).

ghost use Rattle.std.specs.Prelude.{◌≡◌, ◌==◌, ◌&&◌};

use norm_base::{InstanceId, NodeId};

/// Whether feedback that names `sender` and `instance` is for the sender with the number `node`, whose current instance is `current`. If it is
/// for an earlier instance, it is about objects that are gone.
// Both are compared, because a member may hear feedback for another sender, and an instance id says nothing without its sender.
pub fn is_for(sender: NodeId, instance: InstanceId, node: u32, current: InstanceId) -> bool
    ensures { result ≡ (sender == node && instance == current) }
{
    sender.number() == node && instance == current
}
