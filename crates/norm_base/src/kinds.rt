//! Small enums that messages, profiles and calls share.

use crate::node::NodeId;

/// What the sender may drop if it needs room: in its window, or in the buffer of its stream.
#[derive(Clone, Copy, Debug, PartialEq, Eq)]
pub enum Mode {
    /// Only what was sent and every receiver that is still a member has confirmed.
    Hold,
    /// What was sent, even if it was not confirmed. The oldest goes first.
    Drop,
}

/// What the user sent as an object: octets of a command, or a file.
#[derive(Clone, Copy, Debug, PartialEq, Eq)]
pub enum Kind {
    Data,
    File,
}

/// What a tick wrote into the caller's datagram.
#[derive(Clone, Copy, Debug, PartialEq, Eq)]
pub enum Sent {
    Nothing,
    Datagram,
}

/// The network that a session uses: in memory without loss, in memory with faults drawn from a seed, or sockets of this machine.
#[derive(Clone, Copy, Debug, PartialEq, Eq)]
pub enum FabricKind {
    Direct,
    Chance,
    Udp,
}

/// Which members of the session are in this process. `Hub` is the process that copies datagrams between them, and has none.
#[derive(Clone, Copy, Debug, PartialEq, Eq)]
pub enum Local {
    All,
    One(NodeId),
    Hub,
}
