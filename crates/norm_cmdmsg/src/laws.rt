//! What is proved of lists of nodes. Each law is the contract of an empty function.

ghost use Rattle.norm_cmdmsg.specs.Laws.{NodesAreRead, PushedIsListed};

/// If octets were written from a list of node ids, they are read as the same list.
pub fn nodes_are_read()
    ensures { NodesAreRead }
{}

/// If a node id is appended to a list of whole node ids, the list has the ids that it had, and then this one.
pub fn pushed_is_listed()
    ensures { PushedIsListed }
{}
