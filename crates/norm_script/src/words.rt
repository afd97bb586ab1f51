//! Reads the words of a line: numbers, contents in hexadecimal, and names of files.

ghost use Rattle.std.specs.Prelude.{◌≡◌, ◌≤◌, ◌==◌, ◌||◌, if◌then◌else◌, not, nat_le, Some, None, List, ℕ, length, slice_index, IfOk, IfSome};
ghost use Rattle.std.specs.List.{list_all};
ghost use Rattle.std.specs.Option.{option_map};
ghost use Rattle.norm_script.specs.Text.{split_at_first};
ghost use Rattle.norm_script.specs.Words.{is_digit, is_number, value_of, number_within, contents_of, is_name_octet, is_name, is_numbered, is_file_name};

use hex::FromHexError;
use norm_base::{Memory, Octets, Text};
use std::alloc::Global;

/// The most hexadecimal digits of contents, two for each octet.
// Our own choice: 8,192 octets. Longer contents come as files.
const MOST_DIGITS: usize = 16_384;

/// The most octets of a file's name in a script.
// Our own choice, for names that fit an info: the least `e` is 64 too.
const MOST_NAME: usize = 64;

/// Returns the octets before the first `octet`, and those after it. `None` if it does not occur.
pub fn split_at_first(bytes: &[u8], octet: u8) -> Option<(&[u8], &[u8])>
    ensures { option_map (λ x. (x.0.now, x.1.now)) result ≡ split_at_first octet bytes.now }
{
    for (i, x) in bytes.iter().enumerate() {
        if *x == octet {
            let (front, back) = bytes.split_at(i);
            return Some((front, back.split_at(1).1));
        }
    }
    None
}

/// `true` for an empty word.
fn all_digits(word: &[u8]) -> bool
    ensures { result ≡ list_all is_digit word.now }
{
    word.iter().all(|c| 48 <= *c && *c <= 57)
}

/// Whether decimal digits have no leading zero. `0` alone has none.
fn begins_well(word: &[u8]) -> bool
    requires { 1 ≤ length word.now }
    ensures { result ≡ (length word.now == 1 || not (slice_index word.now 0 == 48)) }
{
    word.len() == 1 || word[0] != 48
}

/// Whether a word is a number: decimal digits, at least one, without a sign or a leading zero.
pub(crate) fn is_number(word: &[u8]) -> bool
    ensures { result ≡ is_number word.now }
{
    1 <= word.len() && all_digits(word) && begins_well(word)
}

/// The value of decimal digits. `None` if it is above `high`. There may be any number of digits.
pub(crate) fn value_up_to(word: &[u8], high: u32) -> Option<u64>
    ensures { result ≡ (if nat_le (value_of word.now) high then Some (value_of word.now) else None) }
{
    let mut value = 0u64;
    for digit in word {
        value = 10 * value + u64::from(digit.saturating_sub(48));
        // Here and not at the end: a number of any length then never overflows.
        if value > u64::from(high) {
            return None;
        }
    }
    Some(value)
}

/// The number from `low` to `high` that a word spells in decimal digits, without a sign or a leading zero. `None` if it spells none.
pub fn number_within(word: &[u8], low: u32, high: u32) -> Option<u32>
    ensures value { result ≡ number_within low high word.now }
    ensures fits { IfSome result (λ n. (low ≤ n) × (n ≤ high)) }
{
    if !is_number(word) {
        return None;
    }
    match value_up_to(word, high) {
        Some(value) if u64::from(low) <= value => Some(value as u32),
        _ => None,
    }
}

/// The contents that a word spells: an even number of hexadecimal digits of either case, 2 to 16,384. `None` if it is anything else.
///
/// # Errors
///
/// `Memory` if memory runs out.
pub(crate) fn contents_of(alloc: Global, word: &[u8]) -> Result<Option<Octets>, Memory>
    ensures { IfOk result (λ contents. contents ≡ contents_of word.now) }
{
    if word.len() < 2 || word.len() > MOST_DIGITS {
        return Ok(None);
    }
    match hex::decode(alloc, word) {
        Ok(bytes) => Ok(Some(Octets::of(bytes))),
        Err(FromHexError::OutOfMemory) => Err(Memory),
        Err(_) => Ok(None),
    }
}

/// An ASCII letter or digit, `.`, `_` or `-`.
fn is_name_octet(c: u8) -> bool
    ensures { result ≡ is_name_octet c }
{
    c.is_ascii_alphanumeric() || c == b'.' || c == b'_' || c == b'-'
}

fn all_name_octets(word: &[u8]) -> bool
    ensures { result ≡ list_all is_name_octet word.now }
{
    word.iter().all(|c| is_name_octet(*c))
}

/// [`name_of`] says which words are names.
fn is_name(word: &[u8]) -> bool
    ensures { result ≡ is_name word.now }
{
    if word.is_empty() {
        return false;
    }
    word.len() <= MOST_NAME && all_name_octets(word) && word[0] != b'.'
}

/// The file's name that a word is: 1 to 64 ASCII letters, digits, `.`, `_` or `-`, not beginning with `.`. `None` if it is not one.
///
/// # Errors
///
/// `Memory` if memory runs out.
pub fn name_of(alloc: Global, word: &[u8]) -> Result<Option<Text>, Memory>
    ensures { IfOk result (λ name. name ≡ (if is_name word.now then Some word.now else None)) }
{
    if !is_name(word) {
        return Ok(None);
    }
    // Not taken: the octets of a name are ASCII.
    let Ok(text) = str::from_utf8(word) else {
        return Ok(None);
    };
    match String::from_str(alloc, text) {
        Ok(name) => Ok(Some(Text::of(name))),
        Err(_) => Err(Memory),
    }
}

/// Whether a name begins with `n` and a digit.
// The copies of receiver 2 have the names `n2-NAME`, so such a name could be that of a copy.
fn is_numbered(name: &[u8]) -> bool
    ensures { result ≡ is_numbered name.now }
{
    name.len() >= 2 && name[0] == b'n' && (48 <= name[1] && name[1] <= 57)
}

/// The name of a folder's file that a word is: a name that does not begin with `n` and a digit. `None` if it is not one.
///
/// # Errors
///
/// `Memory` if memory runs out.
pub fn file_name_of(alloc: Global, word: &[u8]) -> Result<Option<Text>, Memory>
    ensures { IfOk result (λ name. name ≡ (if is_file_name word.now then Some word.now else None)) }
{
    if is_numbered(word) {
        return Ok(None);
    }
    name_of(alloc, word)
}
