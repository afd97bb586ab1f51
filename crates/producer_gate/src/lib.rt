//! What the threads of a session share: a ring for the commands of producers, and the board of outcomes. `norm_session` calls both, and
//! `norm_program` creates the board.
//!
//! [`Gate`] is the ring between producers and the thread that pulls. A producer passes a [`Turnstile`] before it submits a command. On a
//! [`Board`] one thread publishes what became of watermarks; others read it with a [`BoardReader`], which never waits. `gate` builds on
//! `settle`, and `board` on `lookup` and `steps`. `knows` and `words` have the rules for their proofs.
#![tactic(auto)]

mod board;
mod command;
mod entries;
mod gate;
mod knows;
mod lookup;
mod settle;
mod steps;
mod turnstile;
mod words;

pub use crate::board::{Board, BoardReader, Front};
pub use crate::command::{GateFault, Order, Submitted};
pub use crate::entries::Seen;
pub use crate::gate::{Gate, PullSeat, Seat};
pub use crate::turnstile::{Through, Turnstile};
