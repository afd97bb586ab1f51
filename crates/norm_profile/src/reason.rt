//! Prints a [`ProfileRefusal`] for people. The program writes it to standard error.

use crate::refusal::ProfileRefusal;
use norm_base::Key;
use std::{fmt, str};

/// Prints the key with the range of its numbers, or with all its words in quotation marks.
fn say_values<W: fmt::Write>(key: Key, f: &mut fmt::Formatter<W>) -> fmt::Result {
    let row = key.row();
    match row.words {
        [] => write!(
            f,
            "the key {} takes a whole number from {} to {}",
            row.name, row.least, row.greatest
        ),
        [first, others @ ..] => {
            write!(f, "the key {} takes \"{first}\"", row.name)?;
            for word in others {
                write!(f, " or \"{word}\"")?;
            }
            Ok(())
        }
    }
}

impl fmt::Display for ProfileRefusal {
    fn fmt<W: fmt::Write>(&self, f: &mut fmt::Formatter<W>) -> fmt::Result {
        match self {
            ProfileRefusal::TooLong => f.write_str("it has more than 65536 octets"),
            ProfileRefusal::NoDocument => f.write_str("it is no TOML document"),
            ProfileRefusal::NoKey { name } => {
                let name = str::from_utf8(name.bytes()).unwrap_or("?");
                write!(f, "the key {name} is unknown")
            }
            ProfileRefusal::NoNumber { key }
            | ProfileRefusal::NoText { key }
            | ProfileRefusal::NoValue { key } => say_values(*key, f),
            ProfileRefusal::MaxBelowB { max_n, b } => {
                write!(f, "the key max_n is {max_n}, and less than b, {b}")
            }
            ProfileRefusal::Buffer { blocks, b, e } => {
                write!(
                    f,
                    "blocks {blocks}, b {b} and e {e} make more than 16777216 octets"
                )
            }
        }
    }
}
