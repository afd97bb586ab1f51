//! The feedback of receivers (RFC 5740 section 4.3): NACKs and ACKs. [`read_nack`] and [`read_ack`] read octets as a [`NackMsg`] or an
//! [`AckMsg`], which borrow from them; [`write_nack`] and [`write_ack`] write them. [`is_for`] tells if a sender has to consider them.
#![tactic(auto)]

mod hearing;
mod message;
mod read;
mod write;

pub use crate::hearing::is_for;
pub use crate::message::{AckBody, AckMsg, FLUSH_ACK, NackMsg};
pub use crate::read::{read_ack, read_nack};
pub use crate::write::{write_ack, write_nack};
