//! Loads profiles from files, in pieces: [`load_profile`], and [`load_document`] with the first instance.

ghost use Rattle.std.specs.Prelude.{◌≡◌, ◌<◌, ◌≤◌, length, IfOk, IfErr, OnOk, Ok};
ghost use Rattle.norm_profile.specs.Loading.{IsContent, IsLength, IsReading, IsOfFile, IsDocumentOf, IsUnloaded, IsUnread, FileCause, load_fault};
ghost use Rattle.norm_profile.specs.declared.loading.LoadFault.TheVariants as fault;

use crate::document::Document;
use crate::reader::{MOST_OCTETS, read_document};
use crate::refusal::ProfileRefusal;
use norm_base::{FileFault, Files, Memory, Profile};
use std::alloc::{AllocError, Global};

/// The most octets that one read asks for.
// Our own choice: a profile has a few hundred octets, so one read mostly gives all of it.
const PIECE: usize = 4_096;

/// Why a file gives no profile. Only of `Refused` is it known that the file is there.
#[derive(Debug, Drop)]
pub enum LoadFault {
    /// The document is refused, or the file is too long to be read.
    Refused { why: ProfileRefusal },
    /// The files have no file of this name, or take none of such a name.
    Absent,
    /// A call of the files failed, and they counted it.
    Failed,
    /// Memory ran out, which says nothing of the file.
    Memory,
}

impl From<AllocError> for LoadFault {
    ghost from_gives = { λ e r. r ≡ fault.Memory };

    fn from(_error: AllocError) -> LoadFault {
        LoadFault::Memory
    }
}

impl From<Memory> for LoadFault {
    ghost from_gives = { λ e r. r ≡ fault.Memory };

    fn from(_memory: Memory) -> LoadFault {
        LoadFault::Memory
    }
}

impl From<FileFault> for LoadFault {
    ghost from_gives = { λ e r. r ≡ load_fault e };

    fn from(fault: FileFault) -> LoadFault {
        match fault {
            FileFault::Failed => LoadFault::Failed,
            FileFault::Absent => LoadFault::Absent,
        }
    }
}

fn length_of<D: Files>(files: &mut D, name: &str) -> Result<u64, LoadFault>
    ensures same { D.contents files.new ≡ D.contents files.old }
    ensures value { IfOk result (λ len. IsLength (D.contents files.old) name.now len) }
    ensures stops { IfErr result (λ fault. IsUnread (D.contents files.old) name.now fault) }
    ensures cause { FileCause result (D.fault_count files.old) (D.fault_count files.new) }
{
    match files.length(name) {
        Ok(len) => Ok(len),
        Err(fault) => Err(LoadFault::from(fault)),
    }
}

/// Appends the next octets of a file of this length, at most as many as the buffer has.
fn read_piece<D: Files>(
    files: &mut D,
    name: &str,
    len: u64,
    buf: &mut [u8],
    octets: &mut Vec<u8>,
) -> Result<(), LoadFault>
    requires room { 0 < length buf.old }
    requires more { length octets.old.items < len }
    requires told { IsLength (D.contents files.old) name.now len }
    ensures same { D.contents files.new ≡ D.contents files.old }
    ensures grows { OnOk result (length octets.old.items < length octets.new.items) }
    ensures goes { OnOk result (IsReading (D.contents files.old) name.now len octets.old.items → IsReading (D.contents files.old) name.now len octets.new.items) }
    ensures stops { IfErr result (λ fault. IsUnread (D.contents files.old) name.now fault) }
    ensures cause { FileCause result (D.fault_count files.old) (D.fault_count files.new) }
{
    let done = octets.len() as u64;
    let room = buf.len().min((len - done) as usize);
    let buf = &mut buf[..room];
    match files.read_at(name, done, buf) {
        Ok(n) => {
            octets.extend_from_slice(&buf[..n])?;
            Ok(())
        }
        Err(fault) => Err(LoadFault::from(fault)),
    }
}

/// Reads this many octets of a file, in pieces of at most 4,096. A file that grew meanwhile is cut at this length.
fn read_all<D: Files>(
    alloc: Global,
    files: &mut D,
    name: &str,
    len: u64,
) -> Result<Vec<u8>, LoadFault>
    requires { IsLength (D.contents files.old) name.now len }
    ensures same { D.contents files.new ≡ D.contents files.old }
    ensures content { IfOk result (λ octets. IsContent (D.contents files.old) name.now octets.items) }
    ensures len { IfOk result (λ octets. length octets.items ≤ len) }
    ensures stops { IfErr result (λ fault. IsUnread (D.contents files.old) name.now fault) }
    ensures cause { FileCause result (D.fault_count files.old) (D.fault_count files.new) }
{
    let mut buf = vec![in alloc; 0u8; PIECE]?;
    let mut octets = Vec::new(alloc);
    while (octets.len() as u64) < len {
        read_piece(files, name, len, &mut buf, &mut octets)?;
    }
    Ok(octets)
}

/// Loads the profile that a file holds as TOML, and the first instance that it gives.
///
/// # Errors
///
/// `Refused` if the document is not that of a profile, or if it has more than 65,536 octets and is not read. `Absent` if there is no such file.
/// `Failed` if a call of the files failed. `Memory` if memory runs out.
pub fn load_document<D: Files>(
    alloc: Global,
    files: &mut D,
    name: &str,
) -> Result<Document, LoadFault>
    ensures same { D.contents files.new ≡ D.contents files.old }
    ensures document { IfOk result (λ document. IsDocumentOf (D.contents files.old) name.now (Ok document)) }
    ensures stops { IfErr result (λ fault. IsUnloaded (D.contents files.old) name.now fault) }
    ensures cause { FileCause result (D.fault_count files.old) (D.fault_count files.new) }
{
    let len = length_of(files, name)?;
    // Before the first read, so that a wrong path to a long file takes no memory for its octets.
    if len > MOST_OCTETS as u64 {
        return Err(LoadFault::Refused {
            why: ProfileRefusal::TooLong,
        });
    }
    let octets = read_all(alloc, files, name, len)?;
    match read_document(alloc, &octets)? {
        Ok(document) => Ok(document),
        Err(why) => Err(LoadFault::Refused { why }),
    }
}

/// Loads the profile that a file holds as TOML, for whoever need not know whether the file gives an instance.
///
/// # Errors
///
/// As [`load_document`].
pub fn load_profile<D: Files>(
    alloc: Global,
    files: &mut D,
    name: &str,
) -> Result<Profile, LoadFault>
    ensures same { D.contents files.new ≡ D.contents files.old }
    ensures profile { IfOk result (λ profile. IsOfFile (D.contents files.old) name.now (Ok profile)) }
    ensures stops { IfErr result (λ fault. IsUnloaded (D.contents files.old) name.now fault) }
    ensures cause { FileCause result (D.fault_count files.old) (D.fault_count files.new) }
{
    match load_document(alloc, files, name) {
        Ok(document) => Ok(document.profile),
        Err(fault) => Err(fault),
    }
}
