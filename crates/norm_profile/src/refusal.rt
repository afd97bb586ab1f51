//! [`ProfileRefusal`], which says why a document is refused. `reason` prints it.

use norm_base::{Key, Text};

/// Why a document is not that of a profile. `Display` gives the sentence for the user.
#[derive(Debug, Drop)]
pub enum ProfileRefusal {
    /// It has more than 65,536 octets, and was not read as TOML.
    TooLong,
    /// It is not UTF-8, or not a TOML document, for example with a key that stands twice.
    NoDocument,
    /// No key has this name, octet for octet.
    NoKey { name: Text },
    /// The key takes a whole number, and the value is something else.
    NoNumber { key: Key },
    /// The key takes one of its words as a text, and the value is something else.
    NoText { key: Key },
    /// The number or the word is not among the key's values.
    NoValue { key: Key },
    /// `max_n` is less than `b`, so that a block would have fewer symbols than source symbols. Either may be a default.
    MaxBelowB { max_n: u32, b: u32 },
    /// A stream's buffer, of `blocks` * `b` * `e` octets, would have more than 16,777,216. Each may be a default.
    Buffer { blocks: u32, b: u32, e: u32 },
}
