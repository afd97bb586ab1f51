//! What the programs `replay` and `tests_program` share: they read their input whole ([`read_all`]), take a line apart into [`Words`], [`print`]
//! their answers, and end early with a [`Fault`].
#![tactic(auto)]

mod fault;
mod input;
mod printing;
mod words;

pub use crate::fault::Fault;
pub use crate::input::read_all;
pub use crate::printing::print;
pub use crate::words::Words;
