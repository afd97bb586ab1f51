//! Tests of senders and receivers that the rows of `replay` leave out: files in pieces, and more objects than there are transport ids. Tests
//! of tails.
#![tactic(auto)]

#[cfg(test)]
mod files;
#[cfg(test)]
mod jobs;
#[cfg(test)]
mod spelled;
#[cfg(test)]
mod tails;
