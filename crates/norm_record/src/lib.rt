//! The journal of a session as it is kept: a datagram is mostly kept once for its offer and its takes, and a hand-up mostly once for all
//! receivers. Contracts see it as the list of its events. `norm_session` writes a [`Journal`]. Tests read each event as a [`Seen`].
#![tactic(auto)]

mod counts;
mod entry;
mod journal;
mod latest;
mod lending;
mod offers;
mod row;
mod seen;
mod ups;

pub use crate::entry::Hand;
pub use crate::journal::Journal;
pub use crate::seen::Seen;
pub use crate::ups::HandUp;
