//! The transport order of a sender's instance (RFC 5740 sections 4.2.1 and 5.1), as definitions: its entries, the segments of a stream, the
//! symbols of a block, and what is handed up through a position.
//!
//! [`Up`] is a hand-up: receivers return it and the definitions list it. [`first_octets`] cuts its padding off,
//! [`copy_of_octets`] copies octets into a new buffer, and [`put_padded`] fills a symbol. What is proved of the definitions is in [`laws`].
#![tactic(auto)]

pub mod laws;
mod symbols;
mod up;

pub use crate::symbols::put_padded;
pub use crate::up::{Up, copy_of_octets, first_octets};
