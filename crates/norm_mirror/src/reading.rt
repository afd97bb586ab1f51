//! Reads manifests.

ghost use Rattle.std.specs.Prelude.{◌≡◌, Ok, Err, None, Some, if◌then◌else◌, IfOk, IfErr, MatchResult};
ghost use Rattle.norm_mirror.specs.Manifest.{name_before, last_name, Spells};
ghost use Rattle.norm_mirror.specs.Reading.{digest_of, entry_of, goes_on, next_entry, is_end, manifest_of, IsRefused, IsLineFault};

use crate::entry::Entry;
use hex::FromHex;
use norm_base::Memory;
use norm_script::{MOST_FILES, file_name_of, number_within, split_at_first};
use std::alloc::Global;

/// The most octets of a file.
// Our own choice: as many as a window may hold, so that a session can send the file.
const MOST_OCTETS: u32 = 16_777_216;

/// Why octets are no manifest.
#[derive(Clone, Copy, Debug)]
pub enum ManifestFault {
    /// Line `n`, from 1, is the first that is none of a manifest. If there are no octets, this is line 1.
    Line { n: u32 },
    /// Memory ran out.
    Memory,
}

/// The digest that a word of 64 lower-case digits spells. `None` if it is anything else.
fn digest_of(word: &[u8]) -> Option<[u8; 32]>
    ensures { result ≡ digest_of word.now }
{
    match <[u8; 32] as FromHex>::from_hex(word) {
        Ok(digest) => {
            // `from_hex` takes digits of either case. Those of a manifest are lower-case, so that octets spell at most one.
            let mut again = [0; 64];
            // It does not fail: 32 octets have 64 digits.
            hex::encode_to_slice(&digest, &mut again).unwrap();
            if again.as_slice() == word {
                return Some(digest);
            }
            None
        }
        Err(_) => None,
    }
}

/// The entry that a line is by itself. `None` if it is none.
fn entry_of(alloc: Global, line: &[u8]) -> Result<Option<Entry>, Memory>
    ensures { IfOk result (λ entry. entry ≡ entry_of line.now) }
{
    let Some((name, words)) = split_at_first(line, b' ') else {
        return Ok(None);
    };
    let Some((len, digest)) = split_at_first(words, b' ') else {
        return Ok(None);
    };
    let Some(len) = number_within(len, 1, MOST_OCTETS) else {
        return Ok(None);
    };
    let Some(digest) = digest_of(digest) else {
        return Ok(None);
    };
    // Last, because only this takes memory.
    let Some(name) = file_name_of(alloc, name)? else {
        return Ok(None);
    };
    Ok(Some(Entry {
        name,
        len: u64::from(len),
        digest,
    }))
}

/// The name of the last entry. Empty if there is none: then every name stands behind it.
fn last_name(entries: &[Entry]) -> &[u8]
    ensures { result.now ≡ last_name entries.now }
{
    match entries.last() {
        Some(entry) => entry.name.bytes(),
        None => &[],
    }
}

/// Compares octet by octet.
fn is_before(name: &[u8], other: &[u8]) -> bool
    ensures { result ≡ name_before name.now other.now }
{
    name.cmp(other).is_lt()
}

/// Whether an entry may stand behind these.
fn goes_on(before: &[Entry], entry: &Entry) -> bool
    ensures { result ≡ goes_on before.now entry.now }
{
    before.len() < MOST_FILES && is_before(last_name(before), entry.name.bytes())
}

/// The entry that a line is behind these. `None` if it is none.
fn next_entry(alloc: Global, before: &[Entry], line: &[u8]) -> Result<Option<Entry>, Memory>
    ensures { IfOk result (λ entry. entry ≡ next_entry before.now line.now) }
{
    let Some(entry) = entry_of(alloc, line)? else {
        return Ok(None);
    };
    if goes_on(before, &entry) {
        return Ok(Some(entry));
    }
    Ok(None)
}

/// Whether nothing is left, and something was read.
fn is_end(entries: &[Entry], rest: &[u8]) -> bool
    ensures { result ≡ is_end entries.now rest.now }
{
    rest.is_empty() && !entries.is_empty()
}

/// The entries of a manifest, or the number of the first line that is none of a manifest.
fn read(alloc: Global, text: &[u8]) -> Result<Result<Vec<Entry>, u32>, Memory>
    ensures { IfOk result (λ read. MatchResult read (λ entries. manifest_of text.now ≡ Ok entries.items) (λ n. manifest_of text.now ≡ Err n)) }
{
    let mut entries = Vec::new(alloc);
    let mut rest = text;
    // Proof: the label names the loop for its invariant.
    'lines: while let Some((line, more)) = split_at_first(rest, b'\n') {
        let Some(entry) = next_entry(alloc, entries.as_slice(), line)? else {
            return Ok(Err(entries.len() as u32 + 1));
        };
        entries.push(entry)?;
        rest = more;
    }
    if is_end(entries.as_slice(), rest) {
        return Ok(Ok(entries));
    }
    Ok(Err(entries.len() as u32 + 1))
}

/// Reads a manifest, and returns its entries.
///
/// # Errors
///
/// `Line` if the octets are no manifest, or `Memory` if memory runs out.
pub fn read_manifest(alloc: Global, bytes: &[u8]) -> Result<Vec<Entry>, ManifestFault>
    ensures read { IfOk result (λ entries. manifest_of bytes.now ≡ Ok entries.items) }
    ensures line { IfErr result (λ why. IsRefused why (manifest_of bytes.now)) }
    ensures spells { IfOk result (λ entries. Spells entries.items bytes.now) }
    ensures first { IfErr result (λ why. IsLineFault why bytes.now) }
{
    match read(alloc, bytes) {
        Ok(Ok(entries)) => Ok(entries),
        Ok(Err(n)) => Err(ManifestFault::Line { n }),
        Err(Memory) => Err(ManifestFault::Memory),
    }
}
