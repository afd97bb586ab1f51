//! The script that sends a folder.

ghost use Rattle.std.specs.Prelude.{◌≡◌, ◌+◌, ◌++◌, ◌∷◌, [], length, IfOk, OnOk};
ghost use Rattle.norm_base.specs.Settings.{InRange};
ghost use Rattle.norm_mirror.specs.Manifest.{IsManifest};
ghost use Rattle.norm_script.specs.Scripts.{CanRun};
ghost use Rattle.norm_arrival.specs.FolderScript.{command, folder_objects, folder_script, with_marks};

use norm_base::{Memory, Octets, Profile};
use norm_mirror::{Entry, write_manifest};
use norm_script::{Line, Script, Verb};
use std::alloc::Global;

/// Appends a command of the one producer.
fn push(lines: &mut Vec<Line>, verb: Verb) -> Result<(), Memory>
    ensures { OnOk result (lines.new.items ≡ lines.old.items ++ command (length lines.old.items + 1) verb ∷ []) }
{
    let number = lines.len() as u64 + 1;
    lines.push(Line {
        producer: 1,
        number,
        verb,
    })?;
    Ok(())
}

/// Appends the command that sends an object, and a mark.
fn push_marked(lines: &mut Vec<Line>, verb: Verb) -> Result<(), Memory>
    ensures { OnOk result (lines.new.items ≡ lines.old.items ++ with_marks (length lines.old.items + 1) (verb ∷ [])) }
{
    push(lines, verb)?;
    push(lines, Verb::Mark { quorum: None })
}

/// The commands that send these files: the manifest as data, and then each file, with a mark after each object.
fn lines_of(alloc: Global, entries: &[Entry]) -> Result<Vec<Line>, Memory>
    requires { IsManifest entries.now }
    ensures { IfOk result (λ lines. lines.items ≡ with_marks 1 (folder_objects entries.now)) }
{
    let mut lines = Vec::new(alloc);
    let manifest = write_manifest(alloc, entries)?;
    let bytes = Octets::of(manifest);
    push_marked(&mut lines, Verb::Data { info: None, bytes })?;
    for entry in entries {
        let name = entry.name.clone()?;
        push_marked(&mut lines, Verb::File { name })?;
    }
    Ok(lines)
}

// Proof: a profile's numbers are in their ranges, once one of them is read.
fn is_in_range(profile: &Profile)
    ensures { InRange profile.now }
{
    let _producers = profile.producers;
}

/// Returns the script that sends a folder under a profile.
///
/// # Errors
///
/// `Memory` if memory runs out.
pub fn script_of(alloc: Global, profile: &Profile, entries: &[Entry]) -> Result<Script, Memory>
    requires { IsManifest entries.now }
    ensures script { IfOk result (λ script. script ≡ folder_script profile.now entries.now) }
    ensures runs { IfOk result CanRun }
{
    is_in_range(profile);
    let lines = lines_of(alloc, entries)?;
    Ok(Script {
        profile: *profile,
        lines,
    })
}
