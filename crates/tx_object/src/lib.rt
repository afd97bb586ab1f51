//! An object of a sender's window (RFC 5740 section 5.1), and the ring of octets that it lies in.
//!
//! `tx_window` makes one [`Ring`] for the octets of all objects, and a [`Held`] for each object that it takes in. The object makes its symbols by
//! `obj_buffer` from the ring's octets, and marks what of it was sent.
#![tactic(auto)]

mod held;
mod ring;

pub use crate::held::{Held, plan_of};
pub use crate::ring::Ring;
