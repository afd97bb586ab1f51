//! What a person sees of a node at work, on standard error. `normd` puts a [`WatchedFabric`] around its network and a [`WatchedSink`]
//! around its output. Both pass each call on, and share one [`Tally`]. If [`asked_in`] says so, the network prints progress and each
//! datagram, and the sink each line. Whatever that says, it prints warnings. The sink reports a sender's restarts ([`Restarts`]). After the program ended, call
//! [`end_progress`], and [`say_spent`](WatchedFabric::say_spent) if it ended well.
#![tactic(auto)]

mod asked;
mod fabric;
pub mod laws;
mod line;
mod listing;
mod restarts;
mod saying;
mod silence;
mod sink;
mod stray;
mod tally;

pub use crate::asked::asked_in;
pub use crate::fabric::WatchedFabric;
pub use crate::restarts::Restarts;
pub use crate::saying::{Log, Says, end_progress};
pub use crate::sink::WatchedSink;
pub use crate::tally::Tally;
