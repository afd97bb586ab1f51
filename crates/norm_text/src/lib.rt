//! Makes printed lines. [`Line`] builds a line word by word, and [`push_digits`] writes octets in hexadecimal. Sessions, tails, nodes,
//! `normd show`, journals and `replay`, for example, print with it.
#![tactic(auto)]

mod digits;
mod line;
mod words;

pub use crate::digits::{push_digits, put_digits};
pub use crate::line::Line;
pub use crate::words::kind_word;
