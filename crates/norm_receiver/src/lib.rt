//! The receiver of a session, without I/O (RFC 5740 sections 5.2 and 5.3).
//!
//! Callers meet [`Receiver`]. `delivering` decodes a datagram, `entering` checks its instance, `receiving` does what the sender says, and
//! `hearing` notes what others ask for. `ticking` decides what to send: `acknowledging` confirms a flush, and `nacking` writes a NACK.
#![tactic(auto)]

mod acknowledging;
mod asking;
mod delivering;
mod entering;
mod feedback;
mod hearing;
mod nacking;
mod needs;
mod numbers;
mod parts;
mod receiver;
mod receiving;
mod requesting;
mod stream_nacking;
mod stream_needs;
mod taking;
mod ticking;

pub use crate::numbers::{FlushPlace, Numbers};
pub use crate::receiver::Receiver;
pub use crate::requesting::Need;
