//! Why a script is refused. [`Refusal`] has the line and the reason, and prints both; [`ScriptFault`] has only the line.

use norm_base::Key;
use thiserror::Error;

/// Why a line of a script is refused: it has no meaning by itself, or not after the lines before it.
#[derive(Clone, Copy, Debug, PartialEq, Eq)]
pub enum Why {
    /// It begins with the octets 239, 187, 191: the byte order mark of UTF-8.
    ByteOrderMark,
    /// It has an octet 0, 254 or 255, as a text in UTF-16 has.
    Utf16,
    CarriageReturn,
    SpaceAtEnd,
    /// Words have one space between them.
    TwoSpaces,
    /// It has this many octets, which is more than 16,500. It was not read, even if it is a comment.
    LongLine { octets: u64 },
    /// The script has more than 8,192 lines. This is the first beyond them.
    ManyLines,
    /// It begins with neither `set` nor the number of a producer, or has too few words after that to say what it is.
    NoForm,
    /// It sets a key that does not exist.
    NoKey,
    /// The key takes a number, and the value is not one: decimal digits without a sign or a leading zero.
    NoNumber { key: Key },
    /// The key takes certain words, and the value is not one of them.
    NoWord { key: Key },
    /// The value is a number, but less than the key's least.
    Below { key: Key, value: u32 },
    /// The value is more than the key's greatest. It may have any number of digits, so it is not kept.
    Above { key: Key },
    /// The key was set before, on line `line`.
    Twice { key: Key, line: u32 },
    /// It sets a key after a command, or in a script whose profile is given.
    AfterCommand,
    /// The settings make `max_n` less than `b`. The refused line is the last that set a key.
    MaxBelowB { max_n: u32, b: u32 },
    /// The settings make a stream's buffer longer than 16,777,216 octets: `blocks` * `b` * `e`. The refused line is the last that set a key.
    Buffer { blocks: u32, b: u32, e: u32 },
    /// The verb does not exist, or takes other words.
    NoVerb,
    /// The contents or the info are not an even number of hexadecimal digits, 2 to 16,384.
    NoContents,
    /// The word is not 1 to 64 ASCII letters, digits, `.`, `_` or `-`, or it begins with `.`.
    NoName,
    /// The word is not a number from 0 to 65,535.
    NoInstance,
    /// The word is not a number from 1 to 16.
    NoQuorum,
    /// The word is not a number from 1 to 4,294,967,294.
    NoNode,
    /// The script has more than 4,096 commands. This is the first beyond them.
    ManyCommands,
    /// The profile has `producers` producers, and this one is not among them.
    Producer { producer: u32, producers: u32 },
    /// It sets `producers` for a folder.
    OneProducer,
    /// It sets the mode `drop` for a folder.
    NoDrop,
    /// The line is not 1 to 64 ASCII letters, digits, `.`, `_` or `-`, or it begins with `.`, or with `n` and a digit.
    NoFileName,
    /// It sets a key after a name.
    AfterName,
    /// The name stands on line `line` too.
    NameTwice { line: u32 },
    /// The folder has more than 1,024 files. This is the first beyond them.
    ManyNames,
    /// There is no such line: it would be the first name.
    NoNames,
}

/// A line without meaning, by its number from 1, and why it has none.
#[derive(Clone, Copy, Debug, PartialEq, Eq)]
pub struct Refusal {
    pub line: u32,
    pub why: Why,
}

/// Why a script was not read: without the reason that [`Refusal`] has.
#[derive(Clone, Copy, Debug, PartialEq, Eq, Error)]
pub enum ScriptFault {
    /// Line `n`, from 1, is the first that has no meaning.
    #[error("line {n} has no meaning")]
    Line { n: u32 },
    #[error("out of memory")]
    Memory,
}
