//! The erasure code of RFC 5510 section 8: Reed-Solomon over GF(2^8). Each offset of a symbol is coded by itself: a polynomial goes through
//! the octets of the source symbols there, and symbol j of the block has its value at alpha to the power j.
//!
//! A sender makes a [`Code`] for blocks of k and n symbols. For each parity symbol that it sends it calls [`Code::parity`] (of a stream) or
//! [`Code::parity_in_two`] (of an object). A receiver makes one [`Solver`] for objects and one for streams. It gives a solver any k symbols
//! of a block, which are replaced with the source symbols.
#![tactic(auto)]

mod encode;
mod in_place;
mod interpolation;
pub mod laws;
mod piece;
mod row;
mod solve;
mod weights;

pub use encode::Code;
pub use row::Row;
pub use solve::Solver;
