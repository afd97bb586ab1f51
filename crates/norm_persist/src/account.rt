//! What a run that persists keeps of one receiver.

ghost use Rattle.std.specs.Prelude.{◌≡◌, ◌==◌, true};
ghost use Rattle.std.specs.List.{list_any};
ghost use Rattle.norm_persist.specs.Accounts.{opened, begun_anew, excused_by, risen, passed_by, has_room, lacks, is_silent};

use fec_plan::{Position, reached_by};
use norm_base::NodeId;

/// What a run keeps of a receiver of its profile.
#[derive(Clone, Copy, Debug)]
pub struct Account {
    pub node: NodeId,
    /// The position of its last `past` line in the current instance. A strike leaves it.
    pub confirmed: Option<Position>,
    /// How many `done M expired` lines named it since that line, or since the instance began.
    pub expired: u64,
    /// Whether the script struck it.
    pub excused: bool,
}

impl Account {
    pub(crate) fn opened(node: NodeId) -> Account
        ensures { result ≡ opened node }
    {
        Account {
            node,
            confirmed: None,
            expired: 0,
            excused: false,
        }
    }

    pub(crate) fn begun_anew(&self) -> Account
        ensures { result ≡ begun_anew self.now }
    {
        Account {
            node: self.node,
            confirmed: None,
            expired: 0,
            excused: self.excused,
        }
    }

    pub(crate) fn risen(&self, node: NodeId, at: Position) -> Account
        ensures { result ≡ risen node at self.now }
    {
        if self.node != node {
            return *self;
        }
        Account {
            node: self.node,
            confirmed: Some(at),
            expired: 0,
            excused: self.excused,
        }
    }

    pub(crate) fn excused_by(&self, node: NodeId) -> Account
        ensures { result ≡ excused_by node self.now }
    {
        if self.node != node {
            return *self;
        }
        Account {
            node: self.node,
            confirmed: self.confirmed,
            expired: self.expired,
            excused: true,
        }
    }

    /// Whether the count still fits 64 bits if it rises by one.
    pub(crate) fn has_room(&self) -> bool
        ensures { result ≡ has_room self.now }
    {
        self.expired < u64::MAX
    }

    pub(crate) fn passed_by(&self, left: &[NodeId]) -> Account
        requires { has_room self.now ≡ true }
        ensures { result ≡ passed_by left.now self.now }
    {
        if !is_among(left, self.node) {
            return *self;
        }
        Account {
            node: self.node,
            confirmed: self.confirmed,
            expired: self.expired + 1,
            excused: self.excused,
        }
    }

    /// Whether it lacks something, `last` being the position that a mark made now would get.
    pub fn lacks(&self, last: &Option<Position>) -> bool
        ensures { result ≡ lacks last.now self.now }
    {
        match last {
            Some(last) => !reached_by(self.confirmed, last),
            None => false,
        }
    }

    /// Whether at least `give_up` marks expired that it had not confirmed. Nobody is silent if no number is given.
    pub fn is_silent(&self, give_up: Option<u32>) -> bool
        ensures { result ≡ is_silent give_up self.now }
    {
        match give_up {
            Some(marks) => u64::from(marks) <= self.expired,
            None => false,
        }
    }
}

fn is_among(nodes: &[NodeId], node: NodeId) -> bool
    ensures { result ≡ list_any (λ other. other == node) nodes.now }
{
    nodes.iter().any(|other| *other == node)
}
