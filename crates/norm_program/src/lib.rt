//! The program as a library. `normd` makes the real objects, reads the words with [`arguments`], and exits with what [`run`] returns, or with
//! what [`needed`] returns if memory runs out before. `tests_program` calls [`norm_main`] with objects of its own, as other programs may; it
//! returns the status that `run` exits with.
//!
//! `program` finds the command that the words ask for (`norm_args` says what they mean). `session`, `show`, `generate`, `send`, `recv`, `hub`,
//! `gather`, `relay` and `mirror` are the commands; `tail` has what `session --tail` does after its turns, its last line too. `lent` lends them the outside as
//! one value. `words` reads the command line, `commands` the script of a sender, and `boarded` runs what was read of a script. `driven_nodes` has what
//! `gather` and `relay` do with lines, `norm_endings` the endings with their statuses and reasons, and [`laws`] are promises about the statuses.
#![tactic(auto)]

mod boarded;
mod commands;
mod gather;
mod generate;
mod hub;
pub mod laws;
mod lent;
mod mirror;
mod program;
mod recv;
mod relay;
mod send;
mod session;
mod show;
mod tail;
mod words;

pub use crate::program::{norm_main, run};
pub use crate::words::{WordsFault, arguments, paths_asked};
pub use norm_endings::{Ending, NoTail, ProfileFault, Status, needed, say_cause};
pub use relay_words::{LineEvent, Losses, NoEvent, NoRelay, Patience, RelayEnd};
