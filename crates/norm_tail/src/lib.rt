//! Tails of a session (RFC 5740 section 5): [`run_tail`] lets the nodes of a world go on over a network that loses nothing, until the oldest
//! watermark is done.
#![tactic(auto)]

mod beginning;
mod copying;
mod fault;
mod handing;
pub mod laws;
mod members;
mod run;
mod serving;
mod step;
mod telling;
mod turning;

pub use crate::fault::TailFault;
pub use crate::run::{TailEnd, run_tail};
pub use crate::step::TailStep;
