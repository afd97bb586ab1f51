//! The limit that ends the takes of a turn if the network always has a datagram ready.

/// The most datagrams that one turn takes from the network.
// Without a limit, a member that sends faster than we take would keep the turn from its hand-ups and its own datagram.
// 16 receivers cause at most 272 in a turn if nothing is delayed or repeated: 16 copies for each of 17 members.
pub const MOST_TAKES: u32 = 512;
