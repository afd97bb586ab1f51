//! Sets of small numbers, as bits. A [`Mask`] has numbers below a size, such as the slots of an object's symbols: a sender keeps in it what
//! it sent, what it will repeat, and what a repair round asks for. An [`IdMask`] has the ids of one block's symbols: a receiver keeps in it
//! which of them came.
#![tactic(auto)]

mod id_mask;
mod mask;

pub use crate::id_mask::IdMask;
pub use crate::mask::Mask;
