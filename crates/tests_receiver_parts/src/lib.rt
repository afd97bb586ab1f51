//! Tests of what a receiver holds: of a stream alone, and of objects of both kinds in their order. They check the answer to each symbol,
//! and that any k symbols of a block give its source symbols, in whatever order they come.
#![tactic(auto)]

#[cfg(test)]
mod playing;
#[cfg(test)]
mod rx_entries_tests;
#[cfg(test)]
mod rx_objects_tests;
#[cfg(test)]
mod rx_stream_tests;
#[cfg(test)]
mod rx_walk_tests;
