//! What the words ask for if it is not a node's run: `session`, `show`, `generate` or `mirror`. The program calls [`task_of`].

ghost use Rattle.std.specs.Prelude.{◌≡◌, map, string_bytes, IfOk, IfSome};
ghost use Rattle.std.specs.Option.{option_map};
ghost use Rattle.clap.specs.Words.{rows_of, found_of, first_of};
ghost use Rattle.norm_base.specs.Keys.{IsValue};
ghost use Rattle.norm_args.specs.Fits.{FitsOptions, FitsTask};
ghost use Rattle.norm_args.specs.Tasks.{value_given, options_with, options_in, number_in, session_in, show_in, generate_in, mirror_in, task_of};

use crate::forms::{found_in, generate_form, mirror_form, session_form, show_form};
use clap::ArgMatches;
use norm_base::{Key, Memory};
use norm_script::number_within;
use std::alloc::Global;

/// The options of a session. `chance` and `turns` override keys of the script.
#[derive(Clone, Copy, Debug)]
pub struct Options {
    /// The seed of the draws of the network `chance`. Those of the receivers have the next number.
    pub chance: Option<u32>,
    /// The most turns of the run, those of tails not counted.
    pub turns: Option<u32>,
    /// The turn after which, at the latest, the network loses nothing any more.
    pub tail: Option<u32>,
}

/// What the program is asked to do, if not to run a node.
#[derive(Clone, Copy, Debug)]
pub enum Task {
    /// Runs the session of the script that the input is.
    Session(Options),
    /// Shows the datagrams of the input, one a line in hexadecimal.
    Show,
    /// Writes the script that is made of this number.
    Generate(u32),
    /// Sends the folder that the input names, and puts each receiver's copies of its files.
    Mirror,
}

/// `Some(None)` if no word is given. `None` if the word is not a number that the key may have, in digits without a sign or a leading zero.
pub(crate) fn value_given(key: Key, word: Option<&str>) -> Option<Option<u32>>
    ensures value { result ≡ value_given key (option_map (λ w. w.now) word.entry) }
    ensures fits { IfSome result (λ given. IfSome given (IsValue key)) }
{
    let Some(word) = word else {
        return Some(None);
    };
    let row = key.row();
    let value = number_within(word.as_bytes(), row.least, row.greatest)?;
    Some(Some(value))
}

/// The word after an option, or the word that a form names so.
pub(crate) fn word_in<'a>(matches: &ArgMatches<'a>, name: &str) -> Option<&'a str>
    ensures { option_map (λ w. w.now) result ≡ first_of name.now (rows_of (found_of matches.now)) }
{
    matches.get_str(name)
}

/// `None` if one is.
fn options_with(
    chance: Option<Option<u32>>,
    turns: Option<Option<u32>>,
    tail: Option<Option<u32>>,
) -> Option<Options>
    requires chance { IfSome chance (λ given. IfSome given (IsValue Key.Chance)) }
    requires turns { IfSome turns (λ given. IfSome given (IsValue Key.Turns)) }
    requires tail { IfSome tail (λ given. IfSome given (IsValue Key.Turns)) }
    ensures value { result ≡ options_with chance turns tail }
    ensures fits { IfSome result FitsOptions }
{
    match chance {
        Some(chance) => match turns {
            Some(turns) => match tail {
                Some(tail) => Some(Options {
                    chance,
                    turns,
                    tail,
                }),
                None => None,
            },
            None => None,
        },
        None => None,
    }
}

/// `None` if the word of an option is not a number in its range: 0 to 4294967295 for `chance`, 1 to 4000000 for `turns` and `tail`.
fn options_in(matches: &ArgMatches<'_>) -> Option<Options>
    ensures value { result ≡ options_in (rows_of (found_of matches.now)) }
    ensures fits { IfSome result FitsOptions }
{
    let chance = value_given(Key::Chance, word_in(matches, "chance"));
    let turns = value_given(Key::Turns, word_in(matches, "turns"));
    // A tail begins after a turn, so its number is one of the key `turns`.
    let tail = value_given(Key::Turns, word_in(matches, "tail"));
    options_with(chance, turns, tail)
}

/// The number that a script is made of. `None` if its word is not a number of 32 bits.
fn number_in(matches: &ArgMatches<'_>) -> Option<u32>
    ensures { result ≡ number_in (rows_of (found_of matches.now)) }
{
    match word_in(matches, "N") {
        Some(word) => number_within(word.as_bytes(), 0, u32::MAX),
        None => None,
    }
}

/// `None` if the words do not fit the form, or if an option gives a word that is no number in its range.
fn session_in(alloc: Global, words: &[String]) -> Result<Option<Task>, Memory>
    ensures task { IfOk result (λ task. task ≡ session_in (map string_bytes words.now)) }
    ensures fits { IfOk result (λ task. IfSome task FitsTask) }
{
    let form = session_form(alloc)?;
    match found_in(form, words)? {
        Some(matches) => match options_in(&matches) {
            Some(options) => Ok(Some(Task::Session(options))),
            None => Ok(None),
        },
        None => Ok(None),
    }
}

/// `None` if the words do not fit the form, as with a word after `show`.
fn show_in(alloc: Global, words: &[String]) -> Result<Option<Task>, Memory>
    ensures task { IfOk result (λ task. task ≡ show_in (map string_bytes words.now)) }
    ensures fits { IfOk result (λ task. IfSome task FitsTask) }
{
    match found_in(show_form(alloc), words)? {
        Some(_) => Ok(Some(Task::Show)),
        None => Ok(None),
    }
}

/// `None` if the words do not fit the form, or if the one after `generate` is no number of 32 bits.
fn generate_in(alloc: Global, words: &[String]) -> Result<Option<Task>, Memory>
    ensures task { IfOk result (λ task. task ≡ generate_in (map string_bytes words.now)) }
    ensures fits { IfOk result (λ task. IfSome task FitsTask) }
{
    let form = generate_form(alloc)?;
    match found_in(form, words)? {
        Some(matches) => match number_in(&matches) {
            Some(number) => Ok(Some(Task::Generate(number))),
            None => Ok(None),
        },
        None => Ok(None),
    }
}

/// `None` if the words do not fit the form, as with a word after `mirror`.
fn mirror_in(alloc: Global, words: &[String]) -> Result<Option<Task>, Memory>
    ensures task { IfOk result (λ task. task ≡ mirror_in (map string_bytes words.now)) }
    ensures fits { IfOk result (λ task. IfSome task FitsTask) }
{
    match found_in(mirror_form(alloc), words)? {
        Some(_) => Ok(Some(Task::Mirror)),
        None => Ok(None),
    }
}

/// Returns what the words after the program's name ask for. `None` if they have none of the forms of `session`, `show`, `generate` and `mirror`.
///
/// # Errors
///
/// `Memory` if memory runs out.
#[tactic(auto, unfolding(crate::specs::Tasks::task_of))]
pub fn task_of(alloc: Global, words: &[String]) -> Result<Option<Task>, Memory>
    ensures task { IfOk result (λ task. task ≡ task_of (map string_bytes words.now)) }
    ensures fits { IfOk result (λ task. IfSome task FitsTask) }
{
    let Some(first) = words.first() else {
        return Ok(None);
    };
    let first = first.as_bytes();
    if first == b"session".as_slice() {
        return session_in(alloc, words);
    }
    if first == b"show".as_slice() {
        return show_in(alloc, words);
    }
    if first == b"generate".as_slice() {
        return generate_in(alloc, words);
    }
    if first == b"mirror".as_slice() {
        return mirror_in(alloc, words);
    }
    Ok(None)
}
