//! Receivers of several senders at once, without I/O (RFC 5740 section 5.3). [`Multi`] has a receiver for each sender, with a profile and a node of
//! its own, and gives each datagram to the receiver of the sender that it belongs to, if it has one. Each receiver does what it would do if its
//! sender were alone.
#![tactic(auto)]

mod beginning;
pub mod laws;
mod member;
mod multi;
mod owner;

pub use crate::member::Member;
pub use crate::multi::{Multi, MultiFault};
pub use crate::owner::owner_of;
