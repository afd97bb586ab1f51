//! The journal of a session: its events, and the judge that says which journals a session may have.
//!
//! An [`Event`] is one thing that a session did, with what it gave. A journal is the list of all of them in order. The judge is a definition
//! (`specs/Accepting`): it goes through the events and gives the state after each one that may come. Whatever prints a run calls the
//! functions that make its lines ([`gave_line`] and others), and counts with [`Totals`].
#![tactic(auto)]

mod event;
pub mod laws;
mod lines;
mod totals;
mod words;

pub use crate::event::Event;
pub use crate::lines::{gave_line, news_line, of_line, refusal_line, up_line};
pub use crate::totals::{Totals, end_line};
