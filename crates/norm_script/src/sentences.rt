//! Prints refusals for people: a sentence for each [`Why`]. The program writes them to standard error.

ghost use Rattle.std.specs.Prelude.{Some};
ghost use Rattle.std.specs.Fmt.{DisplaysOnOk};
ghost use Rattle.norm_script.specs.Sentences.{sentence_of, refusal_text, sentence_by_key, sentence_by_numbers};

use crate::refusal::{Refusal, Why};
use std::fmt;

/// Prints a reason that names a key. Prints nothing for another reason.
fn say_key<W: fmt::Write>(why: Why, f: &mut fmt::Formatter<W>) -> fmt::Result
    ensures { DisplaysOnOk W.write_str_gives f.old result (sentence_by_key why) f.new }
{
    match why {
        Why::NoNumber { key } => {
            let name = key.row().name;
            write!(
                f,
                "the value of {name} is a number, in decimal digits without a sign or leading zeros"
            )
        }
        Why::NoWord { key } => {
            let name = key.row().name;
            write!(f, "the value is none of the words of {name}")
        }
        Why::Below { key, value } => {
            let row = key.row();
            let (least, name) = (row.least, row.name);
            write!(f, "{value} is below {least}, the least {name}")
        }
        Why::Above { key } => {
            let row = key.row();
            let (greatest, name) = (row.greatest, row.name);
            write!(f, "the value is above {greatest}, the greatest {name}")
        }
        Why::Twice { key, line } => {
            let name = key.row().name;
            write!(f, "the key {name} was set on line {line}")
        }
        _ => Ok(()),
    }
}

/// Prints a reason that has numbers and no key. Prints nothing for another reason.
fn say_numbers<W: fmt::Write>(why: Why, f: &mut fmt::Formatter<W>) -> fmt::Result
    ensures { DisplaysOnOk W.write_str_gives f.old result (sentence_by_numbers why) f.new }
{
    match why {
        Why::LongLine { octets } => {
            write!(
                f,
                "the line has {octets} octets, and a line has at most 16500"
            )
        }
        Why::MaxBelowB { max_n, b } => {
            write!(
                f,
                "max_n is {max_n}, and has to be at least b, which is {b}"
            )
        }
        Why::Buffer { blocks, b, e } => write!(
            f,
            "blocks * b * e is {blocks} * {b} * {e}, which is above 16777216"
        ),
        Why::Producer {
            producer,
            producers,
        } => write!(f, "the producer is {producer}, and there are {producers}"),
        Why::NameTwice { line } => write!(f, "the name stands on line {line} too"),
        _ => Ok(()),
    }
}

impl fmt::Display for Why {
    ghost output = { λ why. Some (sentence_of why) };

    fn fmt<W: fmt::Write>(&self, f: &mut fmt::Formatter<W>) -> fmt::Result {
        match *self {
            Why::NoNumber { .. }
            | Why::NoWord { .. }
            | Why::Below { .. }
            | Why::Above { .. }
            | Why::Twice { .. } => say_key(*self, f),
            Why::LongLine { .. }
            | Why::MaxBelowB { .. }
            | Why::Buffer { .. }
            | Why::Producer { .. }
            | Why::NameTwice { .. } => say_numbers(*self, f),
            Why::ByteOrderMark => {
                f.write_str("it begins with a byte order mark: write UTF-8 without one")
            }
            Why::Utf16 => {
                f.write_str("it has an octet 0, 254 or 255, as UTF-16 has: write ASCII or UTF-8")
            }
            Why::CarriageReturn => f.write_str(
                "it ends with a carriage return: write lines that end with a line feed alone",
            ),
            Why::SpaceAtEnd => f.write_str("it ends with a space"),
            Why::TwoSpaces => {
                f.write_str("it has two spaces in a row: words have one between them")
            }
            Why::ManyLines => f.write_str("a script has at most 8192 lines"),
            Why::NoForm => f.write_str(
                "it is neither `set KEY VALUE` nor `P VERB ..`, P a producer's number from 1 on",
            ),
            Why::NoKey => f.write_str("it sets no key that there is"),
            Why::AfterCommand => {
                f.write_str("no key is set here: keys are set before every command")
            }
            Why::NoVerb => f.write_str(
                "a command is data, file, open, write, close, mark, restart or strike, each with its words",
            ),
            Why::NoContents => {
                f.write_str("contents are an even number of hexadecimal digits, 2 to 16384")
            }
            Why::NoName => f.write_str(
                "a name is 1 to 64 letters, digits, `.`, `_` or `-`, and does not begin with `.`",
            ),
            Why::NoInstance => f.write_str("an instance is a number from 0 to 65535"),
            Why::NoQuorum => f.write_str("a quorum is a number from 1 to 16"),
            Why::NoNode => f.write_str("a node is a number from 1 to 4294967294"),
            Why::ManyCommands => f.write_str("a script has at most 4096 commands"),
            Why::OneProducer => f.write_str("a folder has one producer, and producers is not set"),
            Why::NoDrop => f.write_str("nothing of a folder is dropped: its mode is hold"),
            Why::NoFileName => f.write_str(
                "a file's name is 1 to 64 letters, digits, `.`, `_` or `-`, and begins neither with `.` nor with `n` and a digit",
            ),
            Why::AfterName => f.write_str("no key is set here: keys are set before every name"),
            Why::ManyNames => f.write_str("a folder has at most 1024 files"),
            Why::NoNames => f.write_str("no file is named"),
        }
    }
}

impl fmt::Display for Refusal {
    ghost output = { λ refusal. Some (refusal_text refusal) };

    fn fmt<W: fmt::Write>(&self, f: &mut fmt::Formatter<W>) -> fmt::Result {
        let (line, why) = (self.line, self.why);
        write!(f, "line {line}: {why}")
    }
}
