//! What is read of a folder's files before they are sent: their lengths, and then their digests.

ghost use Rattle.std.specs.Prelude.{◌≡◌, ◌<◌, ◌≤◌, ℕ, length, map, string_bytes, IfOk, IfErr, OnOk};
ghost use Rattle.norm_journal.specs.Follows.{IsLength};
ghost use Rattle.norm_turns.specs.Causes.{FilesCause};
ghost use Rattle.norm_turns.specs.declared.fault.SessionFault.TheVariants as fault;
ghost use Rattle.norm_folder.specs.Entries.{AreEntries, AreMeasured, AreRead, IsDigest, IsEntryFor, IsFaultOf, IsFolder, IsMeasured, IsStopBy, IsUnread, IsFirstUnread, IsUnready, ReadyCause, ordered};
ghost use Rattle.norm_folder.specs.declared.entries.Unready.TheVariants as unready;
ghost use Rattle.norm_folder.specs.Reading.{ReadsOn};

use crate::order::in_order;
use norm_base::{FileFault, Files, Memory, Profile, Text};
use norm_mirror::Entry;
use norm_script::Folder;
use norm_turns::SessionFault;
use sha2::{Digest, Sha256};
use std::alloc::{AllocError, AllocFailed, Global};

/// The most octets of a file of a folder.
// As in a manifest, whose reader takes no greater length.
const MOST_OCTETS: u64 = 16_777_216;

/// Why a folder is not sent.
#[derive(Debug, Drop)]
pub enum Unready {
    /// The file has this length in octets, and a manifest has none but 1 to 16,777,216.
    Unsendable { name: Text, len: u64 },
    /// A file was not read: a call of the files failed, it is absent, or memory ran out.
    Unread { why: SessionFault },
}

impl From<SessionFault> for Unready {
    ghost from_gives = { λ e r. r ≡ unready.Unread e };

    fn from(why: SessionFault) -> Unready {
        Unready::Unread { why }
    }
}

impl From<Memory> for Unready {
    ghost from_gives = { λ e r. r ≡ unready.Unread fault.Memory };

    fn from(_memory: Memory) -> Unready {
        Unready::Unread {
            why: SessionFault::Memory,
        }
    }
}

impl From<AllocError> for Unready {
    ghost from_gives = { λ e r. r ≡ unready.Unread fault.Memory };

    fn from(_error: AllocError) -> Unready {
        Unready::Unread {
            why: SessionFault::Memory,
        }
    }
}

impl<T: Drop> From<AllocFailed<T>> for Unready {
    ghost from_gives = { λ e r. r ≡ unready.Unread fault.Memory };

    fn from(_refused: AllocFailed<T>) -> Unready {
        Unready::Unread {
            why: SessionFault::Memory,
        }
    }
}

/// A file and its length in octets.
#[derive(Drop)]
pub(crate) struct Measured {
    pub name: Text,
    pub len: u64,
}

/// The text of a name.
fn string_of(name: &Text) -> Result<String, Memory>
    ensures { IfOk result (λ string. string_bytes string ≡ name.now) }
{
    let copy = name.clone()?;
    Ok(copy.into_inner())
}

/// The fault of a run for a fault of the files. An absent file becomes `Memory` if its name cannot be copied.
fn fault_of(alloc: Global, fault: FileFault, name: &str) -> SessionFault
    ensures { IsFaultOf fault name.now result }
{
    match fault {
        FileFault::Failed => SessionFault::Files,
        FileFault::Absent => match String::from_str(alloc, name) {
            Ok(name) => SessionFault::Absent {
                name: Text::of(name),
            },
            Err(_) => SessionFault::Memory,
        },
    }
}

/// Returns the length of a file in octets.
fn length_of<D: Files>(alloc: Global, files: &mut D, name: &str) -> Result<u64, SessionFault>
    ensures same { D.contents files.new ≡ D.contents files.old }
    ensures value { IfOk result (λ len. IsLength (D.contents files.old) name.now len) }
    ensures stops { IfErr result (λ fault. IsUnread (D.contents files.old) name.now fault) }
    ensures cause { FilesCause result (D.fault_count files.old) (D.fault_count files.new) }
{
    match files.length(name) {
        Ok(len) => Ok(len),
        Err(fault) => Err(fault_of(alloc, fault, name)),
    }
}

/// Asks a file's length. Refuses one with which it cannot stand in a folder.
fn measure<D: Files>(alloc: Global, files: &mut D, name: &Text) -> Result<Measured, Unready>
    ensures same { D.contents files.new ≡ D.contents files.old }
    ensures measured { IfOk result (IsMeasured (D.contents files.old) name.now) }
    ensures stops { IfErr result (IsStopBy (D.contents files.old) name.now) }
    ensures cause { ReadyCause result (D.fault_count files.old) (D.fault_count files.new) }
{
    let name = string_of(name)?;
    let len = length_of(alloc, files, &name)?;
    let name = Text::of(name);
    if len == 0 || len > MOST_OCTETS {
        return Err(Unready::Unsendable { name, len });
    }
    Ok(Measured { name, len })
}

/// Asks the lengths of all files, in this order, up to the first that cannot stand in a folder or is not read.
fn measure_all<D: Files>(
    alloc: Global,
    files: &mut D,
    names: &[Text],
) -> Result<Vec<Measured>, Unready>
    ensures same { D.contents files.new ≡ D.contents files.old }
    ensures measured { IfOk result (λ measured. AreMeasured (D.contents files.old) names.now measured.items) }
    ensures stops { IfErr result (IsUnready (D.contents files.old) names.now) }
    ensures cause { ReadyCause result (D.fault_count files.old) (D.fault_count files.new) }
{
    let mut measured = Vec::new(alloc);
    for name in names {
        let file = measure(alloc, files, name)?;
        measured.push(file)?;
    }
    Ok(measured)
}

/// Reads the next octets of a file, at most as many as the buffer holds, and feeds them to the hasher. Returns how many were read in all.
fn read_piece<D: Files>(
    alloc: Global,
    files: &mut D,
    name: &str,
    len: u64,
    done: u64,
    buf: &mut [u8],
    hasher: &mut Sha256,
) -> Result<u64, SessionFault>
    requires room { 0 < length buf.old }
    requires more { done < len }
    requires told { IsLength (D.contents files.old) name.now len }
    ensures same { D.contents files.new ≡ D.contents files.old }
    ensures on { IfOk result (λ next. ReadsOn (D.contents files.old) name.now len done next hasher.old hasher.new) }
    ensures stops { IfErr result (λ fault. IsUnread (D.contents files.old) name.now fault) }
    ensures cause { FilesCause result (D.fault_count files.old) (D.fault_count files.new) }
{
    let room = buf.len().min((len - done) as usize);
    let buf = &mut buf[..room];
    match files.read_at(name, done, buf) {
        Ok(n) => {
            hasher.update(&buf[..n]);
            Ok(done + n as u64)
        }
        Err(fault) => Err(fault_of(alloc, fault, name)),
    }
}

/// The SHA-256 digest of a file of this length, read in pieces that are at most as long as the buffer.
// A file that grew is cut at its length. Of one that shrank a read fails.
fn digest_of<D: Files>(
    alloc: Global,
    files: &mut D,
    name: &str,
    len: u64,
    buf: &mut [u8],
) -> Result<[u8; 32], SessionFault>
    requires room { 0 < length buf.old }
    requires told { IsLength (D.contents files.old) name.now len }
    ensures same { D.contents files.new ≡ D.contents files.old }
    ensures digest { IfOk result (IsDigest (D.contents files.old) name.now) }
    ensures stops { IfErr result (λ fault. IsUnread (D.contents files.old) name.now fault) }
    ensures cause { FilesCause result (D.fault_count files.old) (D.fault_count files.new) }
{
    let mut hasher = Sha256::new();
    let mut done = 0;
    // Proof: the label names the loop for its invariant.
    'pieces: while done < len {
        done = read_piece(alloc, files, name, len, done, buf, &mut hasher)?;
    }
    Ok(hasher.finalize())
}

/// Reads a file for its entry.
fn read_entry<D: Files>(
    alloc: Global,
    files: &mut D,
    file: &Measured,
    buf: &mut [u8],
) -> Result<Entry, SessionFault>
    requires room { 0 < length buf.old }
    requires told { IsLength (D.contents files.old) file.now.name file.now.len }
    ensures same { D.contents files.new ≡ D.contents files.old }
    ensures entry { IfOk result (IsEntryFor (D.contents files.old) file.now) }
    ensures stops { IfErr result (λ fault. IsUnread (D.contents files.old) file.now.name fault) }
    ensures cause { FilesCause result (D.fault_count files.old) (D.fault_count files.new) }
{
    let name = string_of(&file.name)?;
    let digest = digest_of(alloc, files, &name, file.len, buf)?;
    Ok(Entry {
        name: Text::of(name),
        len: file.len,
        digest,
    })
}

/// Reads the files for their entries, in this order, up to the first that is not read.
fn read_all<D: Files>(
    alloc: Global,
    files: &mut D,
    measured: &[Measured],
    buf: &mut [u8],
    names: &[Text],
) -> Result<Vec<Entry>, SessionFault>
    requires room { 0 < length buf.old }
    requires measured { AreMeasured (D.contents files.old) names.now measured.now }
    ensures same { D.contents files.new ≡ D.contents files.old }
    ensures entries { IfOk result (λ entries. AreRead (D.contents files.old) measured.now entries.items) }
    ensures stops { IfErr result (IsFirstUnread (D.contents files.old) names.now) }
    ensures cause { FilesCause result (D.fault_count files.old) (D.fault_count files.new) }
{
    let mut entries = Vec::new(alloc);
    for file in measured {
        let entry = read_entry(alloc, files, file, buf)?;
        entries.push(entry)?;
    }
    Ok(entries)
}

/// The most octets of one read: those of a symbol.
fn symbol_len(profile: &Profile) -> u16
    ensures { 0 < result }
{
    profile.e
}

/// Reads a folder's files: asks the lengths of all, in order of name, and then reads each for its digest, in pieces of at most a symbol. Returns
/// the entries in order of name.
///
/// # Errors
///
/// `Unsendable` if a file, the first in order of name, has no octets or more than 16,777,216. `Unread` if one is absent, a call failed or memory
/// ran out.
pub fn ready<D: Files>(alloc: Global, folder: &Folder, files: &mut D) -> Result<Vec<Entry>, Unready>
    requires { IsFolder folder.now }
    ensures same { D.contents files.new ≡ D.contents files.old }
    ensures entries { IfOk result (λ entries. AreEntries (D.contents files.old) (ordered folder.now) entries.items) }
    ensures stops { IfErr result (IsUnready (D.contents files.old) (ordered folder.now)) }
    ensures cause { ReadyCause result (D.fault_count files.old) (D.fault_count files.new) }
{
    let names = in_order(alloc, &folder.names)?;
    let measured = measure_all(alloc, files, &names)?;
    let mut buf = vec![in alloc; 0u8; usize::from(symbol_len(&folder.profile))]?;
    let entries = read_all(alloc, files, &measured, &mut buf, &names)?;
    Ok(entries)
}
