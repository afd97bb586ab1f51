//! What receivers asked a NORM sender to repeat (RFC 5740 section 5.4).
//!
//! Callers meet [`Union`]; `norm_sender` drives it. `collection` keeps the objects of the window, and `marks` what is kept of each. The
//! info and the symbols of an object are numbered by slots (`slots`).
#![tactic(auto)]

mod asking;
mod closed;
mod collection;
mod coverage;
mod earliest;
pub mod laws;
mod marks;
mod repairs;
mod slots;
mod union;

pub use crate::collection::Closed;
pub use crate::union::Union;
pub use norm_send_rules::Want;
