//! The rules of a NORM receiver (RFC 5740 section 5, RFC 5401) as definitions: its state, what each datagram and tick changes, what it
//! hands up, and what it requests. norm_receiver is proved to follow them.
//!
//! The types are answers of what a receiver holds: whether it takes an object's transmission information ([`Fit`]), whether it keeps a
//! symbol or an info ([`Put`]), and what a block still needs ([`Missing`]). A [`Place`] is the hand-up point.
#![tactic(auto)]

pub mod laws;
mod place;
mod words;

pub use crate::place::{Place, is_over};
pub use crate::words::{Fit, Missing, Put};
