//! What a NORM receiver holds of one object of data or a file until it hands it up (RFC 5740 section 5.2).
//!
//! Callers meet [`Object`]; `rx_hold` has one for each data object or file that it holds. Any k symbols of a block give back its source
//! symbols (RFC 5510 section 8.3), and a whole object gives away its octets. An object keeps its blocks one after another in `Rows`, which
//! puts each symbol into its block by the functions of `block`. One [`Solver`](rs_block::Solver) serves all objects that `rx_hold` holds.
#![tactic(auto)]

mod block;
mod object;
mod rows;

pub use crate::object::Object;
