//! Tests of the parts of a sender: what a window sends, what is requested and what is acknowledged. Each crate has a module or two.
#![tactic(auto)]

#[cfg(test)]
mod held_stream_tests;
#[cfg(test)]
mod mark_book_tests;
#[cfg(test)]
mod nack_union_tests;
#[cfg(test)]
mod profiles;
#[cfg(test)]
mod stream_buffer_tests;
#[cfg(test)]
mod tx_window_stream_tests;
#[cfg(test)]
mod tx_window_tests;
#[cfg(test)]
mod window_steps;
