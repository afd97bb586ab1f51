//! The members whose listing is still to be reported: a rising list of nodes. [`Book`](crate::Book) keeps it.

ghost use Rattle.std.specs.Prelude.{◌≡◌, ◌≤◌, ◌==◌, not, filter, length, nat_lt, vec_capacity};
ghost use Rattle.norm_order.specs.Sets.{with_member, Rises};

use norm_base::NodeId;

/// Puts a node into a rising list, if it is not there.
pub fn put_node(nodes: &mut Vec<NodeId>, node: NodeId)
    requires { length (with_member nat_lt node nodes.old.items) ≤ vec_capacity nodes.old }
    ensures nodes { nodes.new.items ≡ with_member nat_lt node nodes.old.items }
    ensures capacity { vec_capacity nodes.old ≤ vec_capacity nodes.new }
{
    for (place, other) in nodes.iter().enumerate() {
        if node == *other {
            return;
        }
        if node < *other {
            // It does not fail: the clause says that there is room.
            nodes.insert(place, node).unwrap();
            return;
        }
    }
    // It does not fail: the clause says that there is room.
    nodes.push(node).unwrap();
}

/// Takes a node out of a rising list, if it is there.
pub fn take_node(nodes: &mut Vec<NodeId>, node: NodeId)
    requires { Rises nodes.old.items }
    ensures nodes { nodes.new.items ≡ filter (λ other. not (other == node)) nodes.old.items }
    ensures capacity { vec_capacity nodes.new ≡ vec_capacity nodes.old }
{
    for (place, other) in nodes.iter().enumerate() {
        if node == *other {
            nodes.remove(place);
            return;
        }
    }
}
