//! What standard error says of a folder that was not mirrored, for people. `reason` prints it.

ghost use Rattle.std.specs.Prelude.{◌≡◌, None, Some};
ghost use Rattle.std.specs.Fmt.{DisplaysOnOk};
ghost use Rattle.norm_endings.specs.MirrorReasons.{not_satisfied_reason};

use norm_base::Text;
use norm_mirror::{CheckFault, Unaccepted, Unlike, Unsatisfied};
use std::fmt;

/// The text of a name.
// It is never replaced: names of a folder are ASCII. A name that is looked at here takes no memory.
fn text_of(name: &Text) -> &str {
    str::from_utf8(name.bytes()).unwrap_or("a file")
}

/// Says that a file has a length with which it cannot stand in a folder.
pub(crate) fn say_unsendable<W: fmt::Write>(
    name: &Text,
    len: u64,
    f: &mut fmt::Formatter<W>,
) -> fmt::Result
    ensures { DisplaysOnOk W.write_str_gives f.old result None f.new }
{
    let name = text_of(name);
    write!(
        f,
        "{name} has {len} octets, and a file of a folder has 1 to 16777216"
    )
}

/// Says what the sender refused.
pub(crate) fn say_not_accepted<W: fmt::Write>(
    what: &Option<Unaccepted>,
    f: &mut fmt::Formatter<W>,
) -> fmt::Result
    ensures { DisplaysOnOk W.write_str_gives f.old result None f.new }
{
    match what {
        Some(Unaccepted::File { name, len }) => {
            let name = text_of(name);
            write!(
                f,
                "{name} has {len} octets, which do not fit the octets of the profile"
            )
        }
        Some(Unaccepted::Manifest) => {
            f.write_str("the manifest does not fit the octets of the profile")
        }
        None => f.write_str("a command was refused"),
    }
}

/// Says which watermark expired.
pub(crate) fn say_not_satisfied<W: fmt::Write>(
    which: Option<Unsatisfied>,
    f: &mut fmt::Formatter<W>,
) -> fmt::Result
    ensures { DisplaysOnOk W.write_str_gives f.old result (Some (not_satisfied_reason which)) f.new }
{
    match which {
        Some(Unsatisfied { mark, left }) => write!(
            f,
            "watermark {mark} expired, and the number of receivers that had not confirmed it is {left}: its line `done` names them"
        ),
        None => f.write_str("a watermark expired"),
    }
}

/// Says what a receiver handed up in place of the file that was due.
fn say_fault<W: fmt::Write>(fault: CheckFault, due: &str, f: &mut fmt::Formatter<W>) -> fmt::Result
    ensures { DisplaysOnOk W.write_str_gives f.old result None f.new }
{
    match fault {
        CheckFault::Length { .. } => write!(
            f,
            "{due} has another length than its line: it changed while it was sent"
        ),
        CheckFault::Digest { .. } => write!(
            f,
            "{due} has another digest than its line: it changed while it was sent"
        ),
        CheckFault::Lost { index } => write!(f, "object {index} was lost"),
        CheckFault::Stream { index } => write!(f, "object {index} is a stream"),
        CheckFault::NoManifest { index } => write!(f, "object {index} is no manifest"),
        CheckFault::Extra { index } => write!(f, "object {index} stands in no line"),
        CheckFault::Name { index } => write!(f, "object {index} is not {due}"),
        CheckFault::Memory => f.write_str("out of memory"),
    }
}

/// Says how the hand-ups of a receiver differ from the folder.
pub(crate) fn say_unlike<W: fmt::Write>(why: &Unlike, f: &mut fmt::Formatter<W>) -> fmt::Result
    ensures { DisplaysOnOk W.write_str_gives f.old result None f.new }
{
    let due = match &why.name {
        Some(name) => text_of(name),
        None => "the manifest",
    };
    match why.fault {
        Some(fault) => say_fault(fault, due, f),
        None => write!(f, "{due} is missing"),
    }
}
