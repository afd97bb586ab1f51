//! The sender of a session without I/O (RFC 5740 section 5): it sends objects and streams, repairs them, and collects what members confirm.
//!
//! Callers drive a [`Sender`] by commands, datagrams of receivers and ticks.
#![tactic(auto)]

mod closing;
mod commanding;
mod enqueuing;
mod flushing;
mod following;
mod hearing;
mod marking;
mod pace;
mod parts;
mod restarting;
mod sender;
mod sending;
mod streaming;
mod striking;
mod telling;
mod ticking;
mod writing;

pub use crate::pace::Pace;
pub use crate::sender::Sender;
