//! A session (RFC 5740 section 5): the nodes of a script's profile, turn by turn over a network. [`run_session`] is for all members, and
//! [`run_send`] for a sender whose receivers are elsewhere. [`run_until`] stops after a turn, for a caller that goes on with the nodes.
//! [`Run`] is the same step by step. The judge of journals (`norm_journal`) accepts each event of it.
#![tactic(auto)]

mod arrivals;
mod beside;
mod commanding;
mod ending;
mod handing;
pub mod laws;
mod left;
mod lent;
mod noting;
mod parts;
mod pausing;
mod producing;
mod reading;
mod run;
mod sending;
mod serving;
mod session;
mod starting;
mod taking;
mod telling;
mod turning;

pub use crate::arrivals::{Arrivals, Arrived};
pub use crate::lent::Lent;
pub use crate::parts::Parts;
pub use crate::pausing::{Paused, run_until};
pub use crate::run::Run;
pub use crate::session::{Ended, run_send, run_session};
pub use norm_record::Journal;
