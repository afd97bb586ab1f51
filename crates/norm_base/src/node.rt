//! Ids of nodes (RFC 5740 section 4.1), of sender instances (section 4.2.1) and of commands, and moments.

ghost use Rattle.std.specs.Prelude.{◌≡◌, ◌≢◌, ◌<◌, ◌≤◌, ◌↔◌, ℕ, IsSome, IfSome};
ghost use Rattle.norm_base.specs.Member.{IsMember};

use std::marker::Model;

/// A node's id. 0 and 4294967295 (NORM_NODE_NONE and NORM_NODE_ANY) name no member.
// Never one of the two numbers that name no member: as a source of a datagram they would make it unreadable.
#[derive(Clone, Copy, Debug, PartialEq, Eq, PartialOrd, Ord, Hash)]
pub struct NodeId(u32);

impl Model for NodeId {
    ghost Value = { ℕ };

    ghost view = { λ id. id.0 };

    ghost invariant = { λ id. IsMember id.0 };

    ghost inverse = { λ n. record { 0 = n } };
}

impl NodeId {
    /// Returns the id with this number, or `None` if it is 0 or 4294967295.
    pub fn of(n: u32) -> Option<NodeId>
        ensures found { IsSome result ↔ IsMember n }
        ensures value { IfSome result (λ id. id ≡ n) }
    {
        // RFC 5740 section 4.1: NORM_NODE_NONE and NORM_NODE_ANY.
        if n == 0 || n == u32::MAX {
            return None;
        }
        Some(NodeId(n))
    }

    /// Returns the number, as messages spell it in 32 bits.
    pub fn number(&self) -> u32
        ensures value { result ≡ self.now }
        ensures member { IsMember result }
    {
        self.0
    }
}

/// How many values 16 bits have. Object transport ids, instances and sequence numbers are modulo this.
// 2^16, by the fields of RFC 5740 sections 4.1 and 4.2.1. Whatever counts in ids goes round there.
pub const ID_COUNT: u32 = 65_536;

/// The sender's instance (RFC 5740 section 4.2.1). A sender that restarts takes a new one.
#[derive(Clone, Copy, Debug, PartialEq, Eq, PartialOrd, Ord, Hash)]
pub struct InstanceId(pub u16);

impl Model for InstanceId {
    ghost Value = { ℕ };

    ghost view = { λ a. a.0 };

    ghost inverse = { λ n. record { 0 = n } };
}

/// A moment, in microseconds since a beginning that is the same for a whole run.
#[derive(Clone, Copy, Debug, PartialEq, Eq, PartialOrd, Ord, Hash)]
pub struct Moment(pub u64);

impl Model for Moment {
    ghost Value = { ℕ };

    ghost view = { λ a. a.0 };

    ghost inverse = { λ n. record { 0 = n } };
}

/// Identifies a command: its producer, and its number among this producer's commands (1, 2, ..).
#[derive(Clone, Copy, Debug, PartialEq, Eq, PartialOrd, Ord, Hash)]
pub struct Origin {
    pub producer: u32,
    pub number: u64,
}
