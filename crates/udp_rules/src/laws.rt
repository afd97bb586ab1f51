//! Laws of this crate's definitions. Each is the contract of a function that does nothing.

ghost use Rattle.udp_rules.specs.Addresses.{AddressLaws};
ghost use Rattle.udp_rules.specs.Groups.{GroupLaws};
ghost use Rattle.udp_rules.specs.Lagging.{ClockLaws};
ghost use Rattle.udp_rules.specs.Listening.{BroadcastLaws};
ghost use Rattle.udp_rules.specs.Pausing.{LookLaws, PollLaws};

/// Each member has a port of its own after the hub's, a port names the member that has it, and a member's address is known to be that
/// member's.
#[tactic(auto, using(crate::proofs::AddressLemmas::address_laws))]
pub fn addresses()
    ensures { AddressLaws }
{}

/// In a group each member hears each other, and a sender never itself.
#[tactic(auto, using(crate::proofs::GroupLemmas::group_laws))]
pub fn groups()
    ensures { GroupLaws }
{}

/// Whoever listens, each other member gets what a member offers, by a copy of its own or by a hub's broadcast, never by both, and nobody else
/// gets it. Only what a sender offers is broadcast.
#[tactic(auto, using(crate::proofs::ListeningLemmas::broadcast_laws))]
pub fn broadcasts()
    ensures { BroadcastLaws }
{}

/// A sender's clock is never ahead of what it reads, and lags by at most two milliseconds. While it lags, its moments are a gap apart, so no
/// burst is longer than two milliseconds of the sender's rate.
#[tactic(auto, using(crate::proofs::PacingLemmas::clock_laws))]
pub fn clocks()
    ensures { ClockLaws }
{}

/// A sender looks at its socket again 50 microseconds after a look, and at once if the clock fell. Each look of another node is due.
#[tactic(auto, using(crate::proofs::PacingLemmas::look_laws))]
pub fn looks()
    ensures { LookLaws }
{}

/// A node waits in a poll only if nothing waits to be done and nothing came or went for ten milliseconds.
#[tactic(auto, using(crate::proofs::PacingLemmas::poll_laws))]
pub fn polls()
    ensures { PollLaws }
{}
