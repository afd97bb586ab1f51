//! Loads a profile from its file. `send`, `recv` and `hub` call [`load`] before anything else, and `gather` and `relay` for each of their profiles.

ghost use Rattle.std.specs.Prelude.{◌≡◌, Ok, IfOk, IfErr, OnOk, string_bytes};
ghost use Rattle.norm_profile.specs.Loading.{IsOfFile};
ghost use Rattle.norm_endings.specs.Endings.{IsRefusing, IsUnloadedEnding, IsLoading};

use crate::last_line::{say, say_absent};
use crate::status::{Ending, ProfileFault};
use norm_base::{Files, Profile, Sink, Text};
use norm_profile::{LoadFault, load_profile};
use std::alloc::{AllocError, Global};

/// Copies a path.
pub fn copy_of(path: &Text) -> Result<Text, AllocError>
    ensures { IfOk result (λ copy. copy ≡ path.now) }
{
    let copy = path.clone()?;
    Ok(Text::of(copy.into_inner()))
}

/// Writes the last line `refused profile` and returns the ending.
pub fn refuse_profile<K: Sink>(why: ProfileFault, output: &mut K) -> Ending
    ensures { IsRefusing result why (K.pieces output.old) (K.pieces output.new) (K.fault_count output.old) (K.fault_count output.new) }
{
    say(output, b"refused profile\n");
    Ending::Profile { why }
}

/// Writes the last line for a file that gives no profile, and returns the ending. If memory ran out, it writes none.
fn end_unloaded<K: Sink>(alloc: Global, path: String, fault: LoadFault, output: &mut K) -> Ending
    ensures { IsUnloadedEnding fault result (string_bytes path) (K.pieces output.old) (K.pieces output.new)
        (K.fault_count output.old) (K.fault_count output.new) }
{
    match fault {
        LoadFault::Refused { why } => refuse_profile(ProfileFault::Document { why }, output),
        LoadFault::Absent => say_absent(alloc, Text::of(path), output),
        LoadFault::Failed => {
            say(output, b"fault files\n");
            Ending::Files
        }
        LoadFault::Memory => Ending::Memory,
    }
}

/// Loads the profile from the file at a path. If that fails, writes the last line, if the ending has one, and returns the ending.
pub fn load<K: Sink, D: Files>(
    alloc: Global,
    path: Text,
    output: &mut K,
    files: &mut D,
) -> Result<Profile, Ending>
    ensures same { D.contents files.new ≡ D.contents files.old }
    ensures profile { IfOk result (λ profile. IsOfFile (D.contents files.old) path (Ok profile)) }
    ensures unwritten { OnOk result (K.pieces output.new ≡ K.pieces output.old) }
    ensures quiet { OnOk result ((K.fault_count output.new ≡ K.fault_count output.old) × (D.fault_count files.new ≡ D.fault_count files.old)) }
    ensures ending { IfErr result (λ ending. IsLoading path ending (D.contents files.old) (K.pieces output.old) (K.pieces output.new)
        (K.fault_count output.old) (K.fault_count output.new) (D.fault_count files.old) (D.fault_count files.new)) }
{
    let path = path.into_inner();
    match load_profile(alloc, files, &path) {
        Ok(profile) => Ok(profile),
        Err(fault) => Err(end_unloaded(alloc, path, fault, output)),
    }
}
