//! The machines from which a node of a group takes its members' numbers: [`Machines`].

ghost use Rattle.std.specs.Prelude.{◌≡◌, true};
ghost use Rattle.norm_base.specs.Members.{is_node};
ghost use Rattle.udp_rules.specs.Machines.{keeps, is_same, gives_way, takes_from, kept_then, second_then, takes, kept_after, second_after};

use norm_base::{NodeId, Profile};
use std::fmt;
use std::net::Ipv4Addr;

/// The most members of a profile: a sender and 16 receivers.
const MEMBERS: usize = 17;

/// A receiver keeps its sender's machine until that was silent for this many microseconds.
// Our own choice, ten seconds: far longer than the usual pause between two flushes, and short enough to move a sender to another machine.
const SILENCE: u64 = 10_000_000;

/// A machine that sends as one of the members, and the moment of its last datagram, in microseconds of the clock.
#[derive(Clone, Copy, Debug)]
pub struct Machine {
    pub address: Ipv4Addr,
    pub heard: u64,
}

/// A machine whose datagrams are passed over, because the number that they name is taken from another one.
#[derive(Clone, Copy, Debug)]
pub struct SecondMachine {
    pub node: NodeId,
    pub address: Ipv4Addr,
    /// The one that came first.
    pub kept: Ipv4Addr,
}

impl fmt::Display for SecondMachine {
    fn fmt<W: fmt::Write>(&self, f: &mut fmt::Formatter<W>) -> fmt::Result {
        let node = self.node.number();
        let address = self.address;
        let kept = self.kept;
        write!(
            f,
            "node {node} also sends from {address}; only {kept}, which came first, is accepted"
        )
    }
}

/// Whether a node keeps this member's machine: a sender each receiver's, and a receiver its sender's.
fn keeps(profile: &Profile, node: NodeId, from: NodeId) -> bool
    ensures { result ≡ keeps profile.now node from }
{
    node.number() == profile.sender || from.number() == profile.sender
}

fn is_same(a: &Ipv4Addr, b: &Ipv4Addr) -> bool
    ensures { result ≡ is_same a.now b.now }
{
    a.octets() == b.octets()
}

/// Whether the kept machine gives way to another, after its last datagram came at `heard`: at a sender never.
fn gives_way(profile: &Profile, node: NodeId, heard: u64, now: u64) -> bool
    ensures { result ≡ gives_way profile.now node heard now }
{
    node.number() != profile.sender && now.saturating_sub(heard) >= SILENCE
}

/// Whether a number is taken from the machine at this address, if `kept` is the one that is kept for it.
fn takes_from(
    profile: &Profile,
    node: NodeId,
    kept: &Option<Machine>,
    at: &Ipv4Addr,
    now: u64,
) -> bool
    ensures { result ≡ takes_from profile.now node kept.now at.now now }
{
    match kept {
        Some(machine) => {
            is_same(&machine.address, at) || gives_way(profile, node, machine.heard, now)
        }
        None => true,
    }
}

/// Returns what is kept after a datagram that was taken or not.
fn kept_then(taken: bool, kept: Option<Machine>, at: Ipv4Addr, now: u64) -> Option<Machine>
    ensures { result ≡ kept_then taken kept at now }
{
    if taken {
        Some(Machine {
            address: at,
            heard: now,
        })
    } else {
        kept
    }
}

/// Returns the second machine to report after one was passed over.
fn second_then(
    second: Option<SecondMachine>,
    from: NodeId,
    kept: &Option<Machine>,
    at: Ipv4Addr,
) -> Option<SecondMachine>
    ensures { result ≡ second_then second from kept.now at }
{
    if second.is_some() {
        return second;
    }
    match kept {
        Some(machine) => Some(SecondMachine {
            node: from,
            address: at,
            kept: machine.address,
        }),
        None => None,
    }
}

/// From which machine a node takes each member's number: that from which it came first. A sender keeps it for its run, and a receiver keeps
/// its sender's until that was silent for ten seconds. What receivers send to each other is taken from any.
#[derive(Clone, Copy, Debug)]
pub struct Machines {
    /// By the members' indexes, the sender's first.
    pub kept: [Option<Machine>; MEMBERS],
    /// The first that was passed over.
    pub second: Option<SecondMachine>,
}

impl Machines {
    pub fn new() -> Machines {
        Machines {
            kept: [None; MEMBERS],
            second: None,
        }
    }

    /// Whether `node` takes what `from` sent from this machine at this moment. Keeps the machine if so, and else the first that was passed
    /// over.
    pub fn takes(
        &mut self,
        profile: &Profile,
        node: NodeId,
        from: NodeId,
        at: Ipv4Addr,
        now: u64,
    ) -> bool
        requires { is_node profile.now from ≡ true }
        ensures taken { result ≡ takes profile.now node from self.old.kept at now }
        ensures kept { self.new.kept ≡ kept_after profile.now node from self.old.kept at now }
        ensures second { self.new.second ≡ second_after profile.now node from self.old.kept self.old.second at now }
    {
        if !keeps(profile, node, from) {
            return true;
        }
        let place = (from.number() - profile.sender) as usize;
        let kept = self.kept[place];
        let taken = takes_from(profile, node, &kept, &at, now);
        if !taken {
            self.second = second_then(self.second, from, &kept, at);
        }
        self.kept[place] = kept_then(taken, kept, at, now);
        taken
    }
}
