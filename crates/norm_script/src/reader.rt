//! Reads scripts: [`read`] one that sets its own profile, [`read_under`] one whose profile is given. The program calls both. [`read_script`] and
//! [`read_commands`] do the same, and return only the number of a refused line.

ghost use Rattle.std.specs.Prelude.{◌≡◌, ◌+◌, ◌≤◌, ◌==◌, count_by, length, MatchResult, Ok, IfOk};
ghost use Rattle.norm_script.specs.Commands.{most_commands};
ghost use Rattle.norm_script.specs.Reading.{next_line, command_refused, take_in, take_line, commands_from, script_of, commands_of};
ghost use Rattle.norm_script.specs.Refused.{IsRefused};
ghost use Rattle.norm_script.specs.Steps.{unless};
ghost use Rattle.norm_script.specs.Text.{text_lines};

use crate::head::{MOST_LINES, read_head};
use crate::lines::first_line;
use crate::meaning::{Meaning, meaning_of};
use crate::refusal::{Refusal, ScriptFault, Why};
use crate::script::{Line, Script, Verb};
use norm_base::{Memory, Profile};
use std::alloc::Global;

/// The most commands of a script, of all producers together. One more is refused with `ManyCommands`.
// Our own choice. Far below the 32,768 objects within which every id is unambiguous, so that no datagram of a session comes so late that its id
// means another object.
const MOST_COMMANDS: usize = 4096;

/// It walks the whole list.
fn count_of(lines: &[Line], producer: u32) -> usize
    ensures { result ≡ count_by (λ l. l.producer == producer) lines.now }
{
    lines.iter().filter(|l| l.producer == producer).count()
}

/// A producer's next command. It counts the commands of this producer in `before`, so it walks them all.
fn next_line(before: &[Line], producer: u32, verb: Verb) -> Line
    requires { length before.now ≤ most_commands }
    ensures { result ≡ next_line before.now producer verb }
{
    Line {
        producer,
        number: count_of(before, producer) as u64 + 1,
        verb,
    }
}

/// Why a command after `before` others is refused although it has a meaning by itself. `None` if it is not.
fn command_refused(profile: &Profile, before: usize, producer: u32) -> Option<Why>
    ensures { result ≡ command_refused profile.now before producer }
{
    if before >= MOST_COMMANDS {
        return Some(Why::ManyCommands);
    }
    let producers = u32::from(profile.producers);
    if producer > producers {
        return Some(Why::Producer {
            producer,
            producers,
        });
    }
    None
}

/// Appends a command. If it is refused, returns why and appends nothing.
fn add(
    profile: &Profile,
    lines: &mut Vec<Line>,
    producer: u32,
    verb: Verb,
) -> Result<Option<Why>, Memory>
    ensures { IfOk result (λ why. take_in profile.now lines.old.items (Meaning.Command producer verb) ≡ unless why lines.new.items) }
{
    if let Some(why) = command_refused(profile, lines.len(), producer) {
        return Ok(Some(why));
    }
    let line = next_line(lines, producer, verb);
    match lines.push(line) {
        Ok(()) => Ok(None),
        Err(_) => Err(Memory),
    }
}

/// Takes in what a line means. Returns why the line is refused, if it is: a setting always is.
fn take_in(
    profile: &Profile,
    lines: &mut Vec<Line>,
    meaning: Meaning,
) -> Result<Option<Why>, Memory>
    ensures { IfOk result (λ why. take_in profile.now lines.old.items meaning ≡ unless why lines.new.items) }
{
    match meaning {
        Meaning::Nothing => Ok(None),
        Meaning::Set { .. } => Ok(Some(Why::AfterCommand)),
        Meaning::Command { producer, verb } => add(profile, lines, producer, verb),
    }
}

/// Takes in line `n`. Returns why it is refused, if it is. Beyond [`MOST_LINES`] it is, unread.
fn take_line(
    alloc: Global,
    profile: &Profile,
    lines: &mut Vec<Line>,
    n: u32,
    line: &[u8],
) -> Result<Option<Why>, Memory>
    ensures { IfOk result (λ why. take_line profile.now lines.old.items n line.now ≡ unless why lines.new.items) }
{
    if n > MOST_LINES {
        return Ok(Some(Why::ManyLines));
    }
    match meaning_of(alloc, line)? {
        Ok(meaning) => take_in(profile, lines, meaning),
        Err(why) => Ok(Some(why)),
    }
}

/// Reads commands, up to the first line that is refused. The text begins with line `n` of the script.
fn read_from(
    alloc: Global,
    profile: Profile,
    n: u32,
    text: &[u8],
) -> Result<Result<Script, Refusal>, Memory>
    requires { n ≤ 8193 }
    ensures { IfOk result (λ read. read ≡ commands_from profile n (text_lines text.now)) }
{
    let mut lines = Vec::new(alloc);
    let mut rest = text;
    let mut n = n;
    // Proof: the label names the loop for its invariant.
    'lines: while !rest.is_empty() {
        let (line, more) = first_line(rest);
        if let Some(why) = take_line(alloc, &profile, &mut lines, n, line)? {
            return Ok(Err(Refusal { line: n, why }));
        }
        rest = more;
        n += 1;
    }
    Ok(Ok(Script { profile, lines }))
}

/// Reads a script: its profile and its commands. Returns the first line without meaning, and why it has none, if there is one.
///
/// # Errors
///
/// `Memory` if memory runs out.
pub fn read(alloc: Global, text: &[u8]) -> Result<Result<Script, Refusal>, Memory>
    ensures { IfOk result (λ read. read ≡ script_of text.now) }
{
    let begun = read_head(alloc, text)?;
    match begun.head.profile() {
        Ok(profile) => read_from(alloc, profile, begun.next, begun.rest),
        Err(refusal) => Ok(Err(refusal)),
    }
}

/// Reads a script: its profile and its commands.
///
/// # Errors
///
/// `Line` with the number of the first line without meaning, or `Memory` if memory runs out.
// This and `read_commands` stay for programs that answer with the line alone.
pub fn read_script(alloc: Global, text: &[u8]) -> Result<Script, ScriptFault>
    ensures { MatchResult result (λ script. script_of text.now ≡ Ok script) (IsRefused (script_of text.now)) }
{
    match read(alloc, text) {
        Ok(Ok(script)) => Ok(script),
        Ok(Err(refusal)) => Err(ScriptFault::Line { n: refusal.line }),
        Err(Memory) => Err(ScriptFault::Memory),
    }
}

/// Reads a script whose profile is given. A line that sets a key is refused. Returns the first line without meaning, and why it has none, if
/// there is one.
///
/// # Errors
///
/// `Memory` if memory runs out.
pub fn read_under(
    alloc: Global,
    text: &[u8],
    profile: &Profile,
) -> Result<Result<Script, Refusal>, Memory>
    ensures { IfOk result (λ read. read ≡ commands_of profile.now text.now) }
{
    read_from(alloc, *profile, 1, text)
}

/// Reads a script whose profile is given. A line that sets a key is refused.
///
/// # Errors
///
/// `Line` with the number of the first line without meaning, or `Memory` if memory runs out.
pub fn read_commands(alloc: Global, text: &[u8], profile: &Profile) -> Result<Script, ScriptFault>
    ensures { MatchResult result (λ script. commands_of profile.now text.now ≡ Ok script) (IsRefused (commands_of profile.now text.now)) }
{
    match read_under(alloc, text, profile) {
        Ok(Ok(script)) => Ok(script),
        Ok(Err(refusal)) => Err(ScriptFault::Line { n: refusal.line }),
        Err(Memory) => Err(ScriptFault::Memory),
    }
}
