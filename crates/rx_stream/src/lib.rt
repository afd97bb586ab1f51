//! What a NORM receiver holds of one stream until its segments are handed up (RFC 5740 sections 4.2.1 and 5.2).
//!
//! Callers meet [`Stream`]. A stream keeps its symbols in a ring of [`Block`]s, each symbol in a symbol buffer ([`Row`]). Any k symbols of
//! a block give back its segments (RFC 5510 section 8.3).
#![tactic(auto)]

mod block;
mod moving;
mod row;
mod stream;

pub use crate::block::Block;
pub use crate::stream::Stream;
pub use rs_block::Row;
