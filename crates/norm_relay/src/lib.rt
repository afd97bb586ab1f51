//! A relay between two sessions (RFC 5740 section 5), without I/O: a receiver of the one above and the sender of the one below. It sends on what it
//! receives, and confirms above only what every member below has handed up.
//!
//! Callers meet [`Relay`]. `delivering` hears what comes from above, `waiting` keeps hand-ups as jobs, `pumping` enqueues them below and asks for
//! confirmations, and `ticking` holds acknowledgements back.
#![tactic(auto)]

mod delivering;
pub mod laws;
mod pumping;
mod relay;
mod ticking;
mod waiting;

pub use crate::pumping::Lower;
pub use crate::relay::{Relay, RelayFault};
pub use crate::ticking::{ACK_LEN, Held, Promise};
pub use crate::waiting::Waiting;
