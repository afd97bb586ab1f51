//! Finds the short blocks of a window: those that still lack symbols. [`Shorts`] links each short block to the next and the previous one,
//! so each step takes constant time, however many done blocks lie between. A receiver keeps one for each object and stream that it holds.
#![tactic(auto)]

mod links;
mod shorts;

pub use crate::shorts::Shorts;
