//! Nodes that the lines of an input drive, and what is printed of them: the receivers of several senders ([`GatherRun`]), and a relay between two
//! sessions ([`RelayRun`]). `norm_program` calls both, for `gather` and `relay`. `gathering` and `chain` take the lines one by one, `lines` goes over
//! them, and [`no_relay`] says why two sessions are not relayed.
#![tactic(auto)]

mod chain;
mod gather_run;
mod gathered_lines;
mod gathering;
mod lines;
mod misfit;
mod relay_run;

pub use crate::gather_run::GatherRun;
pub use crate::misfit::{no_relay, patience_of};
pub use crate::relay_run::RelayRun;
