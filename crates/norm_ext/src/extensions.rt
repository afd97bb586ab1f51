//! Lists of header extensions (RFC 5740 section 4.1). A list is checked once: as a message is read, or by [`Extensions::check`]. The result stands
//! for the list, and is an iterator over it.

ghost use Rattle.std.specs.Prelude.{◌≡◌, ◌+◌, ◌≤◌, ◌<◌, ◌^◌, [], ◌∷◌, MatchOption, MatchResult, OnOk, length, drop, take};
ghost use Rattle.norm_ext.specs.Extensions.{extensions_of as all_extensions, extensions_checked, extension_checked, extension_length, extension_of, content_at as content_place, IsChecked};
ghost use Rattle.norm_ext.specs.Octets.{extensions_octets};

use crate::places::WORD;
use crate::refusal::ExtFault;
use std::marker::Model;

/// From this type on, an extension is one word and has no length field.
// RFC 5740 section 4.1: types from 128 on have one word and no length.
const FIRST_SHORT_TYPE: u8 = 128;
/// The offset of the length field in an extension. It counts words of four octets.
// RFC 5740 section 4.1.
const LENGTH_AT: usize = 1;

/// A list of whole extensions, which messages lend, and an iterator over them as pairs of type and content.
// The list was checked. So the walk trusts each length, and need not answer a refusal.
// Proof: a struct with a model and a lifetime cannot be `Copy`. So `iter` gives another one.
#[derive(Debug, Drop)]
pub struct Extensions<'a> {
    words: &'a [u8],
}

impl<'a> Model for Extensions<'a> {
    ghost use Rattle.std.specs.Prelude.{List, ◌≡◌, Ok};
    ghost use Rattle.norm_ext.specs.Extensions.{Extension, extensions_of, IsChecked};

    ghost Value = { List Extension };

    ghost view = { λ e. extensions_of e.words.now };

    ghost invariant = { λ e. IsChecked e.words.now };
}

/// Returns how many octets the first extension claims to have.
fn length_of(words: &[u8]) -> usize
    requires { 2 ≤ length words.now }
    ensures { result ≡ extension_length words.now }
{
    if words[0] < FIRST_SHORT_TYPE {
        WORD * usize::from(words[LENGTH_AT])
    } else {
        WORD
    }
}

/// Returns how many octets of an extension of this type come before its content.
fn content_at(kind: u8) -> usize
    ensures { result ≡ content_place kind }
{
    if kind < FIRST_SHORT_TYPE { 2 } else { 1 }
}

/// Returns how many octets the first extension has, or how it is bad. `at` is its offset, which the error reports.
fn check_first(words: &[u8], at: usize) -> Result<usize, ExtFault>
    ensures { MatchResult result
        (λ len. (extension_checked at words.now ≡ Ok tt) × (len ≡ extension_length words.now) × (len ≤ length words.now) × (0 < len))
        (λ fault. extension_checked at words.now ≡ Err fault) }
{
    // Fewer than four octets are an overrun, also if the length among them is 0. No message shows this, because its header has whole words.
    if words.len() < WORD {
        return Err(ExtFault::Overrun { at });
    }
    let len = length_of(words);
    // A walk that goes on by 0 octets would never end.
    if len == 0 {
        return Err(ExtFault::ZeroLength { at });
    }
    if words.len() < len {
        return Err(ExtFault::Overrun { at });
    }
    Ok(len)
}

/// Checks a list of extensions. An error reports the offset of the first bad one, if the list begins at the offset `from`.
pub(crate) fn check_list(words: &[u8], from: usize) -> Result<(), ExtFault>
    requires { from + length words.now < 2 ^ 64 }
    ensures exact { result ≡ extensions_checked from words.now }
    ensures whole { OnOk result (IsChecked words.now) }
{
    let mut rest = words;
    let mut at = from;
    while !rest.is_empty() {
        let len = check_first(rest, at)?;
        rest = rest.split_at(len).1;
        at += len;
    }
    Ok(())
}

/// Splits a list of whole extensions into the type and the content of the first one, and the rest of the list.
/// Returns `None` if the list is empty.
fn cut_first(words: &[u8]) -> Option<(u8, &[u8], &[u8])>
    requires { IsChecked words.now }
    ensures { MatchOption result
        (all_extensions words.now ≡ [])
        (λ x. (all_extensions words.now ≡ extension_of x.0 x.1.now ∷ all_extensions x.2.now) × IsChecked x.2.now) }
{
    if words.is_empty() {
        return None;
    }
    let kind = words[0];
    let (first, rest) = words.split_at(length_of(words));
    let content = first.split_at(content_at(kind)).1;
    Some((kind, content, rest))
}

/// Returns the list itself: one that was checked spells its own extensions.
fn spelled(words: &[u8]) -> &[u8]
    requires { IsChecked words.now }
    ensures { result.now ≡ extensions_octets (all_extensions words.now) }
{
    words
}

/// Returns the extensions of a list that is known to be whole, as [`fti_words`](crate::fti_words) makes it.
pub fn extensions_of(words: &[u8]) -> Extensions<'_>
    requires { IsChecked words.now }
    ensures list { result ≡ all_extensions words.now }
    ensures octets { extensions_octets result ≡ words.now }
{
    Extensions { words }
}

impl<'a> Extensions<'a> {
    /// Checks a list and returns its extensions. Takes time in proportion to their number.
    ///
    /// # Errors
    ///
    /// The first fault, with its offset in the list.
    pub fn check(words: &'a [u8]) -> Result<Extensions<'a>, ExtFault>
        ensures { MatchResult result
            (λ exts. (extensions_checked 0 words.now ≡ Ok tt) × (exts ≡ all_extensions words.now))
            (λ fault. extensions_checked 0 words.now ≡ Err fault) }
    {
        check_list(words, 0)?;
        Ok(Extensions { words })
    }

    /// Returns an empty list, for a message that is written without extensions.
    pub fn none() -> Extensions<'a>
        ensures { result ≡ [] }
    {
        Extensions { words: &[] }
    }

    /// Returns another iterator over the extensions that [`next`](Extensions::next) did not return yet. This one stays as it is.
    pub fn iter(&self) -> Extensions<'a>
        ensures { result ≡ self.now }
    {
        Extensions { words: self.words }
    }

    /// Borrows the octets of the extensions that [`next`](Extensions::next) did not return yet, with types and lengths.
    pub fn octets(&self) -> &'a [u8]
        ensures { result.now ≡ extensions_octets self.now }
    {
        spelled(self.words)
    }
}

impl<'a> Iterator for Extensions<'a> {
    ghost use Rattle.std.specs.Prelude.{slice_get, drop, length};
    ghost use Rattle.std.specs.Option.{option_map};
    ghost use Rattle.std.specs.Iterator.{at_most};
    ghost use Rattle.norm_ext.specs.Extensions.{extension_of};

    type Item = (u8, &'a [u8]);

    ghost remaining = { λ exts. at_most (length exts) };

    ghost next_gives = { λ old given new. (option_map (λ x. extension_of x.0 x.1.now) given ≡ slice_get old 0) × (new ≡ drop 1 old) };

    /// Returns the type and the content of the next extension: all its octets after the type and, below type 128, the length.
    fn next(&mut self) -> Option<(u8, &'a [u8])> {
        let (kind, content, rest) = cut_first(self.words)?;
        self.words = rest;
        Some((kind, content))
    }
}
