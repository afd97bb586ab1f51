//! Reads what a folder is to be sent by: lines that set keys, and then the names of its files, one a line. [`read_folder`] returns the profile and the
//! names, or the first line without meaning.

ghost use Rattle.std.specs.Prelude.{◌≡◌, ◌≤◌, IfOk, is_some, unwrap_or};
ghost use Rattle.norm_script.specs.Folder.{name_line, setting_refused, folder_setting, folder_set, folder_words, folder_meaning, folder_head_line, folder_head_from, line_of, name_refused, take_name, take_name_line, names_from, folder_of};
ghost use Rattle.norm_script.specs.Head.{nothing_set};
ghost use Rattle.norm_script.specs.Steps.{unless};
ghost use Rattle.norm_script.specs.Text.{text_lines};
ghost use Rattle.norm_script.specs.declared.meaning.Meaning.TheVariants as meanings;
ghost use Rattle.norm_script.specs.declared.script.Verb.TheVariants as verbs;

use crate::head::{Begun, Head, MOST_LINES};
use crate::lines::first_line;
use crate::meaning::{MOST_OCTETS, Meaning, is_passed_over, setting_of};
use crate::refusal::{Refusal, Why};
use crate::script::Verb;
use crate::spelling::spelling_of;
use crate::words::{file_name_of, split_at_first};
use norm_base::{Key, Memory, Profile, Text};
use std::alloc::Global;
use std::marker::Model;

/// The most files of a folder.
// Our own choice. With a manifest and a mark after each object, these are 2,050 of the 4,096 commands of a script.
pub const MOST_FILES: usize = 1024;

/// The value of the key `mode` that is the word `drop`.
const DROP: u32 = 1;

/// A name, and the number of its line, from 1.
#[derive(Debug, Drop)]
pub struct Named {
    pub name: Text,
    pub line: u32,
}

/// A folder's profile, and the names of its files in the order of their lines.
#[derive(Debug, Drop)]
pub struct Folder {
    pub profile: Profile,
    pub names: Vec<Named>,
}

impl Model for Folder {
    ghost use Rattle.norm_script.specs.Folder.{Folder as FolderSpec};

    ghost Value = { FolderSpec };

    ghost view = { λ f. record { profile = f.profile; names = f.names.items } };
}

/// Why a setting has no meaning for a folder, if it has none. A folder has one producer, and nothing of it is dropped.
fn setting_refused(key: Key, value: u32) -> Option<Why>
    ensures { result ≡ setting_refused key value }
{
    match key {
        Key::Producers => Some(Why::OneProducer),
        Key::Mode => {
            if value == DROP {
                return Some(Why::NoDrop);
            }
            None
        }
        _ => None,
    }
}

/// Refuses a setting that has no meaning for a folder.
fn folder_setting(meaning: Meaning) -> Result<Meaning, Why>
    ensures { result ≡ folder_setting meaning }
{
    match meaning {
        Meaning::Set { key, value } => {
            if let Some(why) = setting_refused(key, value) {
                return Err(why);
            }
            Ok(Meaning::Set { key, value })
        }
        other => Ok(other),
    }
}

/// A name is the command that sends its file.
fn name_line(alloc: Global, line: &[u8]) -> Result<Result<Meaning, Why>, Memory>
    ensures { IfOk result (λ meaning. meaning ≡ name_line line.now) }
{
    match file_name_of(alloc, line)? {
        Some(name) => Ok(Ok(Meaning::Command {
            producer: 1,
            verb: Verb::File { name },
        })),
        None => Ok(Err(Why::NoFileName)),
    }
}

/// `words` are those after `set`.
fn folder_set(words: &[u8]) -> Result<Meaning, Why>
    ensures { result ≡ folder_set words.now }
{
    let setting = setting_of(words)?;
    folder_setting(setting)
}

/// A line that begins with `set` and a space sets a key. `set` alone is a name.
fn folder_words(alloc: Global, line: &[u8]) -> Result<Result<Meaning, Why>, Memory>
    ensures { IfOk result (λ meaning. meaning ≡ folder_words line.now) }
{
    let Some((first, words)) = split_at_first(line, b' ') else {
        return name_line(alloc, line);
    };
    if first == b"set".as_slice() {
        return Ok(folder_set(words));
    }
    name_line(alloc, line)
}

/// What a line means by itself, or why it has no meaning: as of a script, with names in place of commands.
fn folder_meaning(alloc: Global, line: &[u8]) -> Result<Result<Meaning, Why>, Memory>
    ensures { IfOk result (λ meaning. meaning ≡ folder_meaning line.now) }
{
    if line.len() > MOST_OCTETS {
        return Ok(Err(Why::LongLine {
            octets: line.len() as u64,
        }));
    }
    if is_passed_over(line) {
        return Ok(Ok(Meaning::Nothing));
    }
    match folder_words(alloc, line)? {
        Ok(meaning) => Ok(Ok(meaning)),
        Err(why) => Ok(Err(spelling_of(line).unwrap_or(why))),
    }
}

/// Takes in line `n` of the head. Returns `false` if the head ends before it: it is a name, or a line too many.
fn take_head_line(head: &mut Head, alloc: Global, n: u32, line: &[u8]) -> Result<bool, Memory>
    ensures { IfOk result (λ taken. let next = folder_head_line head.old n line.now in
        (taken ≡ is_some next) × (head.new ≡ unwrap_or next head.old)) }
{
    if n > MOST_LINES {
        return Ok(false);
    }
    let meaning = folder_meaning(alloc, line)?;
    head.take(n, meaning)
}

/// Reads the lines before the first name. A refused line does not end the head.
fn read_folder_head(alloc: Global, text: &[u8]) -> Result<Begun<'_>, Memory>
    ensures head { IfOk result (λ begun. folder_head_from nothing_set 1 (text_lines text.now) ≡
        record { head = begun.head; next = begun.next; rest = text_lines begun.rest.now }) }
    ensures few { IfOk result (λ begun. begun.next ≤ 8193) }
{
    let mut head = Head::new(alloc);
    let mut rest = text;
    let mut n = 1;
    // Proof: the label names the loop for its invariant.
    'lines: while !rest.is_empty() {
        let (line, more) = first_line(rest);
        if !take_head_line(&mut head, alloc, n, line)? {
            return Ok(Begun {
                head,
                next: n,
                rest,
            });
        }
        rest = more;
        n += 1;
    }
    Ok(Begun {
        head,
        next: n,
        rest,
    })
}

/// The line of a name, if it stands among these. It walks the list: a folder has few names.
fn line_of(before: &[Named], name: &[u8]) -> Option<u32>
    ensures { result ≡ line_of before.now name.now }
{
    for named in before {
        if named.name.bytes() == name {
            return Some(named.line);
        }
    }
    None
}

/// Why a name is refused behind these. `None` if it is not.
fn name_refused(before: &[Named], name: &[u8]) -> Option<Why>
    ensures { result ≡ name_refused before.now name.now }
{
    if let Some(line) = line_of(before, name) {
        return Some(Why::NameTwice { line });
    }
    if before.len() >= MOST_FILES {
        return Some(Why::ManyNames);
    }
    None
}

/// Appends a name. If it is refused, returns why and appends nothing.
fn add_name(names: &mut Vec<Named>, n: u32, name: Text) -> Result<Option<Why>, Memory>
    ensures { IfOk result (λ why. take_name names.old.items n (meanings.Command 1 (verbs.File name)) ≡ unless why names.new.items) }
{
    if let Some(why) = name_refused(names, name.bytes()) {
        return Ok(Some(why));
    }
    match names.push(Named { name, line: n }) {
        Ok(()) => Ok(None),
        Err(_) => Err(Memory),
    }
}

/// Takes in what line `n` means. Returns why the line is refused, if it is: a setting always is.
fn take_name(names: &mut Vec<Named>, n: u32, meaning: Meaning) -> Result<Option<Why>, Memory>
    ensures { IfOk result (λ why. take_name names.old.items n meaning ≡ unless why names.new.items) }
{
    match meaning {
        Meaning::Nothing => Ok(None),
        Meaning::Set { .. } => Ok(Some(Why::AfterName)),
        Meaning::Command { verb, .. } => match verb {
            Verb::File { name } => add_name(names, n, name),
            // Never taken: what a line of a folder commands is that a file is sent.
            _ => Ok(None),
        },
    }
}

/// Takes in line `n`. Returns why it is refused, if it is. Beyond [`MOST_LINES`] it is, unread.
fn take_name_line(
    alloc: Global,
    names: &mut Vec<Named>,
    n: u32,
    line: &[u8],
) -> Result<Option<Why>, Memory>
    ensures { IfOk result (λ why. take_name_line names.old.items n line.now ≡ unless why names.new.items) }
{
    if n > MOST_LINES {
        return Ok(Some(Why::ManyLines));
    }
    match folder_meaning(alloc, line)? {
        Ok(meaning) => take_name(names, n, meaning),
        Err(why) => Ok(Some(why)),
    }
}

/// Reads names, up to the first line that is refused. The text begins with line `n` of the input.
fn read_names(
    alloc: Global,
    profile: Profile,
    n: u32,
    text: &[u8],
) -> Result<Result<Folder, Refusal>, Memory>
    requires { n ≤ 8193 }
    ensures { IfOk result (λ read. read ≡ names_from profile n (text_lines text.now)) }
{
    let mut names = Vec::new(alloc);
    let mut rest = text;
    let mut n = n;
    // Proof: the label names the loop for its invariant.
    'lines: while !rest.is_empty() {
        let (line, more) = first_line(rest);
        if let Some(why) = take_name_line(alloc, &mut names, n, line)? {
            return Ok(Err(Refusal { line: n, why }));
        }
        rest = more;
        n += 1;
    }
    if names.is_empty() {
        return Ok(Err(Refusal {
            line: n,
            why: Why::NoNames,
        }));
    }
    Ok(Ok(Folder { profile, names }))
}

/// Reads a folder's profile and names. Returns the first line without meaning, and why it has none, if there is one. If no file is named, this is
/// the line after the last.
///
/// # Errors
///
/// `Memory` if memory runs out.
pub fn read_folder(alloc: Global, text: &[u8]) -> Result<Result<Folder, Refusal>, Memory>
    ensures { IfOk result (λ read. read ≡ folder_of text.now) }
{
    let begun = read_folder_head(alloc, text)?;
    match begun.head.profile() {
        Ok(profile) => read_names(alloc, profile, begun.next, begun.rest),
        Err(refusal) => Ok(Err(refusal)),
    }
}
