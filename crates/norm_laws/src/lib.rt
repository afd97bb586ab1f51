//! Laws of whole runs, other than safety, over the rules of a sender and a receiver and the judge of journals. It has no code of its own.
//! Only crates of laws depend on it. The laws are in [`laws`].
#![tactic(auto)]

pub mod laws;
