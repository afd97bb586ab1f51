//! Shows datagrams as lines of words. [`show_line`] decodes one datagram and returns the words of its message, or why it is
//! refused. `words` makes the words that messages share, `lists` those of lists, and `lines` whole lines. [`show`] reads
//! datagrams in hexadecimal, one a line, and writes the line of each. `norm_program` calls it for `normd show`. `driven_nodes` and
//! `relay_words` call [`datagram_in`] and [`why_none`], which read one such line.
#![tactic(auto)]

mod fault;
mod lines;
mod lists;
mod shown;
mod stream;
mod words;

pub use crate::fault::{NoDatagram, ShowFault};
pub use crate::shown::{Shown, show_line};
pub use crate::stream::{datagram_in, show, why_none};
