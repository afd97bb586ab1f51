//! Laws of what whole runs of a folder's script hand up. It has no code of its own. The laws are in [`laws`].
#![tactic(auto)]

pub mod laws;
