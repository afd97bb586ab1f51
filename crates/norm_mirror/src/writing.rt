//! Writes manifests.

ghost use Rattle.std.specs.Prelude.{◌≡◌, ◌++◌, ◌∷◌, [], IfOk, OnOk};
ghost use Rattle.norm_mirror.specs.Manifest.{IsManifest, Spells, entry_line};

use crate::entry::Entry;
use itoa::Buffer;
use norm_base::Memory;
use norm_text::push_digits;
use std::alloc::Global;

/// Appends an entry's line.
fn push_entry(text: &mut Vec<u8>, entry: &Entry) -> Result<(), Memory>
    ensures { OnOk result (text.new.items ≡ text.old.items ++ (entry_line entry.now ++ 10 ∷ [])) }
{
    let mut buffer = Buffer::new();
    text.extend_from_slice(entry.name.bytes())?;
    text.push(b' ')?;
    text.extend_from_slice(buffer.format(entry.len).as_bytes())?;
    text.push(b' ')?;
    push_digits(text, &entry.digest)?;
    text.push(b'\n')?;
    Ok(())
}

/// Returns the manifest of a folder's files, which are in order of name. It has at most 142,336 octets.
///
/// # Errors
///
/// `Memory` if memory runs out.
pub fn write_manifest(alloc: Global, entries: &[Entry]) -> Result<Vec<u8>, Memory>
    requires { IsManifest entries.now }
    ensures { IfOk result (λ text. Spells entries.now text.items) }
{
    let mut text = Vec::new(alloc);
    for entry in entries {
        push_entry(&mut text, entry)?;
    }
    Ok(text)
}
