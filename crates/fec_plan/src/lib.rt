//! How an object is cut into blocks of symbols (RFC 5052 section 9.1), how a message names a symbol (RFC 5510 section 5.1), and the transport
//! order of blocks and symbols.
//!
//! A [`Plan`] says how an object or a stream is cut, and a [`PayloadId`] names a symbol in a message. A [`Point`] is a block of an object
//! and a [`Position`] a symbol of it. If you compare points or positions, use the calls here. Senders, receivers, the codec of messages and
//! the journal use this crate.
#![tactic(auto)]

pub mod laws;
mod payload_id;
mod plan;
mod position;

pub use crate::payload_id::PayloadId;
pub use crate::plan::{
    LAST_BLOCK, LEAST_SYMBOL, MOST_BLOCKS, MOST_SOURCES, MOST_SYMBOL, PLACE, PLACE_OCTETS, Plan,
    PlanFault,
};
pub use crate::position::{Point, Position, reached_by};
