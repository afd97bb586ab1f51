//! Reads profiles that are in memory: [`read_document`] from the octets of a file, and [`read_text`] from a text.

ghost use Rattle.std.specs.Prelude.{◌≡◌, IsUtf8, IfOk, Err, nat_lt, length, if◌then◌else◌};
ghost use Rattle.norm_base.specs.Given.{nothing_given, given_at, value_in};
ghost use Rattle.norm_profile.specs.Profiles.{number_for, word_for, number_given, word_given, value_given, given_in, broken_rule, document_with, document_of, document_in};
ghost use Rattle.norm_profile.specs.declared.refusal.ProfileRefusal.TheVariants as refusal;
ghost use Rattle.toml.specs.View.{view, table_view};

use crate::document::Document;
use crate::refusal::ProfileRefusal;
use norm_base::{Given, Key, Memory, Profile, Text};
use std::alloc::{AllocError, Global};
use std::str;
use toml::{Table, Value};

/// The most octets of a profile. A longer one is refused with `TooLong`, unread.
// Our own choice, far more than 26 keys need.
pub(crate) const MOST_OCTETS: usize = 65_536;

/// Refuses a number that is negative or out of the key's range as `NoValue`.
fn number_for(key: Key, number: i64) -> Result<u32, ProfileRefusal>
    ensures { result ≡ number_for key number }
{
    let row = key.row();
    match u32::try_from(number) {
        Ok(n) if row.least <= n && n <= row.greatest => Ok(n),
        _ => Err(ProfileRefusal::NoValue { key }),
    }
}

/// Refuses any other value than a TOML integer as `NoNumber`: a float, or digits in quotation marks.
fn number_given(key: Key, value: &Value) -> Result<u32, ProfileRefusal>
    ensures { result ≡ number_given key (view value.now) }
{
    match value.as_integer() {
        Some(number) => number_for(key, number),
        None => Err(ProfileRefusal::NoNumber { key }),
    }
}

/// Returns the index of the word among those of the key. Refuses what is no text as `NoText`, and any other word as `NoValue`.
fn word_given(key: Key, value: &Value) -> Result<u32, ProfileRefusal>
    ensures { result ≡ word_given key (view value.now) }
{
    match value.as_str() {
        Some(word) => match key.value_of(word.as_bytes()) {
            Some(place) => Ok(place),
            None => Err(ProfileRefusal::NoValue { key }),
        },
        None => Err(ProfileRefusal::NoText { key }),
    }
}

/// A key whose row has words takes these, and any other a whole number.
fn value_given(key: Key, value: &Value) -> Result<u32, ProfileRefusal>
    ensures { result ≡ value_given key (view value.now) }
{
    if key.row().words.is_empty() {
        number_given(key, value)
    } else {
        word_given(key, value)
    }
}

/// Copies the name into the refusal. Fails only if memory runs out.
fn no_key(alloc: Global, name: &str) -> Result<ProfileRefusal, AllocError>
    ensures { IfOk result (λ why. why ≡ refusal.NoKey name.now) }
{
    let name = Text::of(String::from_str(alloc, name)?);
    Ok(ProfileRefusal::NoKey { name })
}

/// Reads the members in the order of their names. The first that is refused ends it.
fn given_in(alloc: Global, table: &Table) -> Result<Result<Given, ProfileRefusal>, Memory>
    ensures { IfOk result (λ given. given ≡ given_in (table_view table.now) nothing_given) }
{
    let mut given = Given::new();
    for (name, value) in table.iter() {
        // A key that is misspelt would otherwise leave its default in force, and nobody would notice.
        let Some(key) = Key::named(name.as_bytes()) else {
            return Ok(Err(no_key(alloc, name)?));
        };
        match value_given(key, value) {
            Ok(number) => given.set(key, number),
            Err(why) => return Ok(Err(why)),
        }
    }
    Ok(Ok(given))
}

/// Returns which of the two rules across keys is broken, and of two the one of `max_n`. Call it only if one is.
fn broken_rule(given: &Given) -> ProfileRefusal
    ensures { result ≡ broken_rule (value_in given.now) }
{
    let b = given.value(Key::B);
    let max_n = given.value(Key::MaxN);
    if max_n < b {
        return ProfileRefusal::MaxBelowB { max_n, b };
    }
    ProfileRefusal::Buffer {
        blocks: given.value(Key::Blocks),
        b,
        e: given.value(Key::E),
    }
}

/// `None`, and not the default, if the document gives no instance.
fn instance_given(given: &Given) -> Option<u32>
    ensures { result ≡ given_at given.now Key.Instance }
{
    if given.has(Key::Instance) {
        Some(given.value(Key::Instance))
    } else {
        None
    }
}

/// Keys without a value have their defaults before the rules across keys are checked.
fn document_with(given: &Given) -> Result<Document, ProfileRefusal>
    ensures { result ≡ document_with given.now }
{
    match Profile::of(given) {
        Some(profile) => Ok(Document {
            profile,
            instance: instance_given(given),
        }),
        None => Err(broken_rule(given)),
    }
}

fn document_of(alloc: Global, table: &Table) -> Result<Result<Document, ProfileRefusal>, Memory>
    ensures { IfOk result (λ document. document ≡ document_of (table_view table.now)) }
{
    match given_in(alloc, table)? {
        Ok(given) => Ok(document_with(&given)),
        Err(why) => Ok(Err(why)),
    }
}

/// Reads the profile in a text, and the first instance that it gives. The inner result is a refusal if the text is too long or no TOML document; else
/// of the first key, in the order of names, that is refused; else if a rule across keys is broken.
///
/// # Errors
///
/// `Memory` if memory runs out.
pub fn read_text(alloc: Global, text: &str) -> Result<Result<Document, ProfileRefusal>, Memory>
    ensures { IfOk result (λ document. document ≡ document_in text.now) }
{
    if text.len() > MOST_OCTETS {
        return Ok(Err(ProfileRefusal::TooLong));
    }
    match toml::table_from_str(alloc, text) {
        Ok(table) => document_of(alloc, &table),
        // A lack of memory says nothing about the document, so it is no refusal.
        Err(error) if error.is_memory() => Err(Memory),
        Err(_) => Ok(Err(ProfileRefusal::NoDocument)),
    }
}

/// Reads the profile in the octets of a file, and the first instance that it gives. Octets that are not UTF-8 are refused as no document, unless they
/// are too many.
///
/// # Errors
///
/// As [`read_text`].
pub fn read_document(
    alloc: Global,
    octets: &[u8],
) -> Result<Result<Document, ProfileRefusal>, Memory>
    ensures text { IfOk result (λ document. IsUtf8 octets.now → document ≡ document_in octets.now) }
    ensures other { IfOk result (λ document. ¬ (IsUtf8 octets.now) →
        document ≡ (if nat_lt 65536 (length octets.now) then Err refusal.TooLong else Err refusal.NoDocument)) }
{
    if octets.len() > MOST_OCTETS {
        return Ok(Err(ProfileRefusal::TooLong));
    }
    match str::from_utf8(octets) {
        Ok(text) => read_text(alloc, text),
        Err(_) => Ok(Err(ProfileRefusal::NoDocument)),
    }
}
