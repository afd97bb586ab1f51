//! The window of a NORM sender (RFC 5740 section 5.1): the objects and streams that the sender may still repair.
//!
//! A [`Window`] keeps a `HeldEntry` for each object or stream of the order that it did not drop. Objects lie in one ring of `tx_object`; a
//! stream has memory of its own (`stream_buffer`).
#![tactic(auto)]

mod entry;
mod extent;
pub mod laws;
mod noting;
mod room;
mod streaming;
mod taking;
mod window;

pub use crate::taking::info_len;
pub use crate::window::{About, Window};
pub use tx_object::plan_of;
