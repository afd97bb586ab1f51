//! What a node over UDP decides, apart from the sockets: `norm_udp` opens these, and asks here.
//!
//! [`Located`] is a member with its address at 127.0.0.1, and [`Group`] a broadcast address with its port. [`heard_from`] and [`other_in`] say of
//! which member a datagram is, [`Machines`] whether a number is taken from a machine, [`Sieve`] which instance a receiver passes over, and
//! [`is_loss`] and [`is_unreachable`] which errors of a socket only lose a datagram. `norm_watch` reports what a receiver passed over
//! ([`PassesOver`]) and what becomes of a group ([`TellsGroup`]), and reads datagrams with [`heard_in`].
#![tactic(auto)]

mod address;
mod group;
mod heard;
mod lag;
pub mod laws;
mod listening;
mod loss;
mod machine;
mod misfit;
mod news;
mod pace;
mod sieve;
mod source;

pub use crate::address::{
    Located, address_at, address_of, everyone_here, for_all_at, gets_copy, heard_from, is_node,
    member_at, with_address,
};
pub use crate::group::{Asked, Group};
pub use crate::heard::{Heard, heard_in};
pub use crate::lag::{Lag, next_moment};
pub use crate::listening::{
    Answering, Listeners, Listening, Questions, gets_own_copy, is_broadcast,
};
pub use crate::loss::{is_loss, is_refused, is_unreachable};
pub use crate::machine::{Machine, Machines, SecondMachine};
pub use crate::misfit::{Difference, Misfit, Sizes};
pub use crate::news::{GroupNews, TellsGroup, Unsent};
pub use crate::pace::{Pace, Pause, found_by_poll, moment, waited_by_poll};
pub use crate::sieve::{PassesOver, Sieve};
pub use crate::source::other_in;
