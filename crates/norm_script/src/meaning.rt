//! What a line of a script means by itself, without the lines before it. The readers of heads and of commands call [`meaning_of`].

ghost use Rattle.std.specs.Prelude.{◌≡◌, ◌≤◌, ◌==◌, ◌||◌, length, slice_index, IfOk};
ghost use Rattle.norm_script.specs.Meaning.{number_for, value_for, setting_of, contents, data_of, file_of, write_of, restart_of, mark_of, strike_of, verb_with, verb_alone, verb_of, command_of, meaning_of_words, is_passed_over, meaning_of};
ghost use Rattle.norm_script.specs.Spelling.{spelling_of};
ghost use Rattle.norm_script.specs.Text.{split_at_first};

use crate::refusal::Why;
use crate::script::Verb;
use crate::spelling::spelling_of;
use crate::words::{contents_of, is_number, name_of, number_within, split_at_first, value_up_to};
use norm_base::{Key, Memory, NodeId, Octets};
use std::alloc::Global;

/// The most octets of a line without its line feed, also of a comment.
// Our own choice: contents of 16,384 digits and the words before them. An info has to fit the same line. A longer line is refused with `LongLine`,
// unread.
pub(crate) const MOST_OCTETS: usize = 16_500;

/// The greatest quorum: a session has at most this many receivers.
// The greatest value of the key `receivers`.
const MOST_QUORUM: u32 = 16;

/// The last id that a node may have.
// RFC 5740 section 4.1: 2^32 - 1 is NORM_NODE_ANY and names no member.
const LAST_NODE: u32 = 4_294_967_294;

/// What a line means by itself. The reader may still refuse the line, for example if its key was set before or its producer does not exist.
#[derive(Debug, Drop)]
pub enum Meaning {
    /// The line is empty or a comment.
    Nothing,
    Set { key: Key, value: u32 },
    /// `producer` is from 1 on, and may be more than the profile has.
    Command { producer: u32, verb: Verb },
}

/// The number in a key's range that a word spells, or why it spells none.
fn number_for(key: Key, word: &[u8]) -> Result<u32, Why>
    ensures { result ≡ number_for key word.now }
{
    if !is_number(word) {
        return Err(Why::NoNumber { key });
    }
    let row = key.row();
    match value_up_to(word, row.greatest) {
        None => Err(Why::Above { key }),
        Some(value) if value < u64::from(row.least) => Err(Why::Below {
            key,
            value: value as u32,
        }),
        Some(value) => Ok(value as u32),
    }
}

/// The value of a key that a word spells, or why it spells none. If the key takes words, it is the index of the word.
fn value_for(key: Key, word: &[u8]) -> Result<u32, Why>
    ensures { result ≡ value_for key word.now }
{
    if key.row().words.is_empty() {
        return number_for(key, word);
    }
    key.value_of(word).ok_or(Why::NoWord { key })
}

/// The key is looked at before its value. `NoForm` if there is only one word after `set`.
pub(crate) fn setting_of(words: &[u8]) -> Result<Meaning, Why>
    ensures { result ≡ setting_of words.now }
{
    let Some((name, word)) = split_at_first(words, b' ') else {
        return Err(Why::NoForm);
    };
    let key = Key::named(name).ok_or(Why::NoKey)?;
    let value = value_for(key, word)?;
    Ok(Meaning::Set { key, value })
}

/// The contents that a word spells, or `NoContents`.
fn contents(alloc: Global, word: &[u8]) -> Result<Result<Octets, Why>, Memory>
    ensures { IfOk result (λ bytes. bytes ≡ contents word.now) }
{
    Ok(contents_of(alloc, word)?.ok_or(Why::NoContents))
}

/// The `data` command of an object without an info.
fn bare_data(alloc: Global, word: &[u8]) -> Result<Result<Verb, Why>, Memory>
    ensures { IfOk result (λ verb. verb ≡ data_of None word.now) }
{
    match contents(alloc, word)? {
        Ok(bytes) => Ok(Ok(Verb::Data { info: None, bytes })),
        Err(why) => Ok(Err(why)),
    }
}

/// The `data` command of an object with an info. A wrong info is refused with `NoContents` too.
fn data_with_info(alloc: Global, word: &[u8], info: &[u8]) -> Result<Result<Verb, Why>, Memory>
    ensures { IfOk result (λ verb. verb ≡ data_of (Some (word.now, info.now)) word.now) }
{
    let bytes = match contents(alloc, word)? {
        Ok(bytes) => bytes,
        Err(why) => return Ok(Err(why)),
    };
    match contents(alloc, info)? {
        Ok(info) => Ok(Ok(Verb::Data {
            info: Some(info),
            bytes,
        })),
        Err(why) => Ok(Err(why)),
    }
}

/// `words` are the contents, or the contents, a space and the info.
fn data_of(alloc: Global, words: &[u8]) -> Result<Result<Verb, Why>, Memory>
    ensures { IfOk result (λ verb. verb ≡ data_of (split_at_first 32 words.now) words.now) }
{
    match split_at_first(words, b' ') {
        Some((word, info)) => data_with_info(alloc, word, info),
        None => bare_data(alloc, words),
    }
}

fn file_of(alloc: Global, word: &[u8]) -> Result<Result<Verb, Why>, Memory>
    ensures { IfOk result (λ verb. verb ≡ file_of word.now) }
{
    match name_of(alloc, word)? {
        Some(name) => Ok(Ok(Verb::File { name })),
        None => Ok(Err(Why::NoName)),
    }
}

fn write_of(alloc: Global, word: &[u8]) -> Result<Result<Verb, Why>, Memory>
    ensures { IfOk result (λ verb. verb ≡ write_of word.now) }
{
    match contents(alloc, word)? {
        Ok(bytes) => Ok(Ok(Verb::Write { bytes })),
        Err(why) => Ok(Err(why)),
    }
}

/// `NoInstance` if the word is no number of 16 bits. Whether the sender may go on in this instance is for the sender to say.
fn restart_of(word: &[u8]) -> Result<Verb, Why>
    ensures { result ≡ restart_of word.now }
{
    match number_within(word, 0, 65_535) {
        Some(instance) => Ok(Verb::Restart {
            instance: instance as u16,
        }),
        None => Err(Why::NoInstance),
    }
}

/// A `mark` with a quorum. It may be more than the profile has receivers: the sender refuses it then.
fn mark_of(word: &[u8]) -> Result<Verb, Why>
    ensures { result ≡ mark_of word.now }
{
    match number_within(word, 1, MOST_QUORUM) {
        Some(quorum) => Ok(Verb::Mark {
            quorum: Some(quorum),
        }),
        None => Err(Why::NoQuorum),
    }
}

/// Whether the node is a receiver is for the sender to say.
fn strike_of(word: &[u8]) -> Result<Verb, Why>
    ensures { result ≡ strike_of word.now }
{
    match number_within(word, 1, LAST_NODE) {
        Some(number) => Ok(Verb::Strike {
            // It does not fail: the number is within 1 and the last id.
            node: NodeId::of(number).unwrap(),
        }),
        None => Err(Why::NoNode),
    }
}

/// What a verb with words after it means. `NoVerb` if it takes none, or does not exist.
fn verb_with(alloc: Global, name: &[u8], words: &[u8]) -> Result<Result<Verb, Why>, Memory>
    ensures { IfOk result (λ verb. verb ≡ verb_with name.now words.now) }
{
    if name == b"data".as_slice() {
        return data_of(alloc, words);
    }
    if name == b"file".as_slice() {
        return file_of(alloc, words);
    }
    if name == b"write".as_slice() {
        return write_of(alloc, words);
    }
    if name == b"restart".as_slice() {
        return Ok(restart_of(words));
    }
    if name == b"mark".as_slice() {
        return Ok(mark_of(words));
    }
    if name == b"strike".as_slice() {
        return Ok(strike_of(words));
    }
    Ok(Err(Why::NoVerb))
}

/// The verb that a word alone is, if it is one: `open`, `close` or `mark`.
fn verb_alone(word: &[u8]) -> Option<Verb>
    ensures { result ≡ verb_alone word.now }
{
    if word == b"open".as_slice() {
        return Some(Verb::Open);
    }
    if word == b"close".as_slice() {
        return Some(Verb::Close);
    }
    if word == b"mark".as_slice() {
        return Some(Verb::Mark { quorum: None });
    }
    None
}

/// `mark` may stand alone or have a word, so verbs without words are tried first.
fn verb_of(alloc: Global, words: &[u8]) -> Result<Result<Verb, Why>, Memory>
    ensures { IfOk result (λ verb. verb ≡ verb_of words.now) }
{
    if let Some(verb) = verb_alone(words) {
        return Ok(Ok(verb));
    }
    match split_at_first(words, b' ') {
        Some((name, rest)) => verb_with(alloc, name, rest),
        None => Ok(Err(Why::NoVerb)),
    }
}

/// `NoForm` if `first` is no number of a producer. Any from 1 may be: the reader knows how many producers there are.
fn command_of(alloc: Global, first: &[u8], words: &[u8]) -> Result<Result<Meaning, Why>, Memory>
    ensures { IfOk result (λ meaning. meaning ≡ command_of first.now words.now) }
{
    let Some(producer) = number_within(first, 1, u32::MAX) else {
        return Ok(Err(Why::NoForm));
    };
    match verb_of(alloc, words)? {
        Ok(verb) => Ok(Ok(Meaning::Command { producer, verb })),
        Err(why) => Ok(Err(why)),
    }
}

/// `NoForm` if there is only one word.
fn meaning_of_words(alloc: Global, line: &[u8]) -> Result<Result<Meaning, Why>, Memory>
    ensures { IfOk result (λ meaning. meaning ≡ meaning_of_words line.now) }
{
    let Some((first, words)) = split_at_first(line, b' ') else {
        return Ok(Err(Why::NoForm));
    };
    if first == b"set".as_slice() {
        return Ok(setting_of(words));
    }
    command_of(alloc, first, words)
}

/// A comment begins with `#`.
pub(crate) fn is_passed_over(line: &[u8]) -> bool
    ensures { result ≡ is_passed_over line.now }
{
    line.is_empty() || line[0] == b'#'
}

/// Returns what a line means by itself, or why it has no meaning. If an editor may be the cause, what it did is the reason.
///
/// # Errors
///
/// `Memory` if memory runs out.
pub(crate) fn meaning_of(alloc: Global, line: &[u8]) -> Result<Result<Meaning, Why>, Memory>
    ensures { IfOk result (λ meaning. meaning ≡ meaning_of line.now) }
{
    if line.len() > MOST_OCTETS {
        return Ok(Err(Why::LongLine {
            octets: line.len() as u64,
        }));
    }
    // Before the line is looked at: a comment that is not too long has a meaning whatever octets follow its first.
    if is_passed_over(line) {
        return Ok(Ok(Meaning::Nothing));
    }
    match meaning_of_words(alloc, line)? {
        Ok(meaning) => Ok(Ok(meaning)),
        // How an editor spelt the line comes before this reason, since it may be the cause of it. It is looked for only here, so that a
        // carriage return in a comment refuses nothing.
        Err(why) => Ok(Err(spelling_of(line).unwrap_or(why))),
    }
}
