//! A sender for tests and for `replay`: [`Driven`], whose calls may come in any order.
#![tactic(auto)]

mod driven;

pub use crate::driven::Driven;
