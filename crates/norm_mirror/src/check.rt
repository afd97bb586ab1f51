//! Compares what a receiver hands up with the manifest that it handed up first.

ghost use Rattle.std.specs.Prelude.{◌≡◌, ◌≢◌, Err, IfSome, None, Some};
ghost use Rattle.std.specs.Option.{option_map};
ghost use Rattle.sha2.specs.Sha256.{sha256};
ghost use Rattle.norm_base.specs.declared.kinds.Kind.TheVariants as kinds;
ghost use Rattle.norm_mirror.specs.Checking.{checked_nothing, is_named, has_digest, file_fault, first_by, object_by, refuses, taken, answer_of, is_done, file_at, MayWant, IsDigestOf};
ghost use Rattle.norm_mirror.specs.declared.check.CheckFault.TheVariants as fault;

use crate::entry::Entry;
use crate::reading::{ManifestFault, read_manifest};
use norm_base::{Kind, Octets};
use norm_order::Up;
use sha2::{Digest, Sha256};
use std::alloc::Global;
use std::marker::Model;

/// What is wrong with a hand-up, the first that applies. `index` is the object's.
#[derive(Clone, Copy, Debug, PartialEq, Eq)]
pub enum CheckFault {
    /// It reports a loss.
    Lost { index: u32 },
    /// It is a part of a stream.
    Stream { index: u32 },
    /// No manifest was read yet, and it is a file, or data that is no manifest.
    NoManifest { index: u32 },
    /// All files of the manifest were taken before.
    Extra { index: u32 },
    /// It is data, or its name is not that of the next entry.
    Name { index: u32 },
    /// It has another length than the next entry.
    Length { index: u32 },
    /// It has another digest than the next entry.
    Digest { index: u32 },
    /// Memory ran out.
    Memory,
}

/// Compares a receiver's hand-ups with a folder: a manifest first, and then exactly its files, in order of name. [`take`](Check::take) each hand-up
/// in the receiver's order, and ask [`done`](Check::done) at the end.
// `Memory` is never kept as a refusal: the hand-up that wanted it may be taken again.
#[derive(Debug, Drop)]
pub struct Check {
    alloc: Global,
    /// The manifest. `None` until it was read.
    entries: Option<Vec<Entry>>,
    /// How many files were taken, which is the index of the next entry.
    files: usize,
    refused: Option<CheckFault>,
}

impl Model for Check {
    ghost use Rattle.std.specs.Prelude.{◌≢◌, Some};
    ghost use Rattle.std.specs.Option.{option_map};
    ghost use Rattle.norm_mirror.specs.Checking.{Checked};
    ghost use Rattle.norm_mirror.specs.declared.check.CheckFault.TheVariants as fault;

    ghost Value = { Checked };

    ghost view = { λ c. record { entries = option_map (λ v. v.items) c.entries; files = c.files; refused = c.refused } };

    ghost invariant = { λ c. c.refused ≢ Some fault.Memory };
}

/// Whether an object is a file of this name.
fn is_named(kind: Kind, info: &Option<Octets>, name: &[u8]) -> bool
    ensures { result ≡ is_named kind info.now name.now }
{
    match kind {
        Kind::Data => false,
        Kind::File => match info {
            Some(info) => info.bytes() == name,
            None => false,
        },
    }
}

/// Whether octets have an entry's digest. Computes theirs only if it is not known.
fn has_digest(bytes: &[u8], known: Option<[u8; 32]>, entry: &Entry) -> bool
    requires { IfSome known (λ digest. digest ≡ sha256 bytes.now) }
    ensures { result ≡ has_digest bytes.now entry.now }
{
    match known {
        Some(digest) => digest == entry.digest,
        None => Sha256::digest(bytes) == entry.digest,
    }
}

/// What is wrong with a file, compared with its entry.
fn file_fault(
    index: u32,
    named: bool,
    bytes: &[u8],
    known: Option<[u8; 32]>,
    entry: &Entry,
) -> Option<CheckFault>
    requires { IfSome known (λ digest. digest ≡ sha256 bytes.now) }
    ensures { result ≡ file_fault index named bytes.now entry.now }
{
    if !named {
        return Some(CheckFault::Name { index });
    }
    if bytes.len() as u64 != entry.len {
        return Some(CheckFault::Length { index });
    }
    // Last, because a digest costs a pass over all octets.
    if !has_digest(bytes, known, entry) {
        return Some(CheckFault::Digest { index });
    }
    None
}

impl Check {
    /// Nothing was handed up yet. Takes no memory.
    pub fn new(alloc: Global) -> Check
        ensures { result ≡ checked_nothing }
    {
        Check {
            alloc,
            entries: None,
            files: 0,
            refused: None,
        }
    }

    /// Returns the entry of a file, counted from 0. `None` if there is none.
    fn entry(&self, i: usize) -> Option<&Entry>
        ensures { option_map (λ e. e.now) result ≡ file_at self.now i }
    {
        match &self.entries {
            Some(entries) => entries.get(i),
            None => None,
        }
    }

    /// Refuses this hand-up and all later ones.
    fn refuse(&mut self, why: CheckFault) -> Result<(), CheckFault>
        requires { why ≢ fault.Memory }
        ensures refused { self.new ≡ refuses self.old why }
        ensures answer { result ≡ Err why }
    {
        self.refused = Some(why);
        Err(why)
    }

    /// Takes an object if no manifest was read yet.
    fn take_manifest(&mut self, index: u32, kind: Kind, bytes: &[u8]) -> Result<(), CheckFault>
        requires clean { self.old.refused ≡ None }
        ensures taken { result ≢ Err fault.Memory → self.new ≡ first_by self.old index kind bytes.now }
        ensures answer { result ≢ Err fault.Memory → result ≡ answer_of self.new }
        ensures memory { result ≡ Err fault.Memory → self.new ≡ self.old }
        ensures wanted { result ≡ Err fault.Memory → kind ≡ kinds.Data }
    {
        match kind {
            Kind::File => self.refuse(CheckFault::NoManifest { index }),
            Kind::Data => match read_manifest(self.alloc, bytes) {
                Ok(entries) => {
                    self.entries = Some(entries);
                    Ok(())
                }
                Err(ManifestFault::Line { .. }) => self.refuse(CheckFault::NoManifest { index }),
                Err(ManifestFault::Memory) => Err(CheckFault::Memory),
            },
        }
    }

    /// Takes an object whose digest may be known.
    fn take_object(
        &mut self,
        index: u32,
        kind: Kind,
        info: &Option<Octets>,
        bytes: &[u8],
        known: Option<[u8; 32]>,
    ) -> Result<(), CheckFault>
        requires clean { self.old.refused ≡ None }
        requires known { IfSome known (λ digest. digest ≡ sha256 bytes.now) }
        ensures taken { result ≢ Err fault.Memory → self.new ≡ object_by self.old index kind info.now bytes.now self.old.entries }
        ensures answer { result ≢ Err fault.Memory → result ≡ answer_of self.new }
        ensures memory { result ≡ Err fault.Memory → self.new ≡ self.old }
        ensures wanted { result ≡ Err fault.Memory → (self.old.entries ≡ None) × (kind ≡ kinds.Data) }
    {
        if self.entries.is_none() {
            return self.take_manifest(index, kind, bytes);
        }
        let Some(entry) = self.entry(self.files) else {
            return self.refuse(CheckFault::Extra { index });
        };
        let named = is_named(kind, info, entry.name.bytes());
        if let Some(why) = file_fault(index, named, bytes, known, entry) {
            return self.refuse(why);
        }
        self.files += 1;
        Ok(())
    }

    /// Takes the next hand-up. `known` is its digest, if that is known.
    fn take_by(&mut self, up: &Up, known: Option<[u8; 32]>) -> Result<(), CheckFault>
        requires known { IfSome known (IsDigestOf up.now) }
        ensures taken { result ≢ Err fault.Memory → self.new ≡ taken self.old up.now }
        ensures answer { result ≢ Err fault.Memory → result ≡ answer_of self.new }
        ensures memory { result ≡ Err fault.Memory → self.new ≡ self.old }
        ensures wanted { result ≡ Err fault.Memory → MayWant self.old up.now }
    {
        if let Some(why) = self.refused {
            return Err(why);
        }
        match up {
            Up::Object {
                index,
                kind,
                info,
                bytes,
            } => self.take_object(*index, *kind, info, bytes.bytes(), known),
            Up::StreamOpen { index } => self.refuse(CheckFault::Stream { index: *index }),
            Up::StreamBytes { index, .. } => self.refuse(CheckFault::Stream { index: *index }),
            Up::StreamEnd { index } => self.refuse(CheckFault::Stream { index: *index }),
            Up::Lost { index } => self.refuse(CheckFault::Lost { index: *index }),
        }
    }

    /// Takes the next hand-up. Computes the digest of a file that has the name and the length of the next entry.
    ///
    /// # Errors
    ///
    /// What is wrong with it, and then the same for each later hand-up. Or `Memory`: then nothing changed, and the same hand-up may be taken again.
    pub fn take(&mut self, up: &Up) -> Result<(), CheckFault>
        ensures taken { result ≢ Err fault.Memory → self.new ≡ taken self.old up.now }
        ensures answer { result ≢ Err fault.Memory → result ≡ answer_of self.new }
        ensures memory { result ≡ Err fault.Memory → self.new ≡ self.old }
        ensures wanted { result ≡ Err fault.Memory → MayWant self.old up.now }
    {
        self.take_by(up, None)
    }

    /// Does what [`take`](Check::take) does, without computing a digest. Several receivers mostly hand up the same object, and then its digest is
    /// computed once for all of them.
    ///
    /// # Errors
    ///
    /// Those of [`take`](Check::take).
    pub fn take_known(&mut self, up: &Up, digest: &[u8; 32]) -> Result<(), CheckFault>
        requires { IsDigestOf up.now digest.now }
        ensures taken { result ≢ Err fault.Memory → self.new ≡ taken self.old up.now }
        ensures answer { result ≢ Err fault.Memory → result ≡ answer_of self.new }
        ensures memory { result ≡ Err fault.Memory → self.new ≡ self.old }
        ensures wanted { result ≡ Err fault.Memory → MayWant self.old up.now }
    {
        self.take_by(up, Some(*digest))
    }

    /// Whether a manifest and all its files were taken. It stays true if a hand-up after them is refused.
    pub fn done(&self) -> bool
        ensures { result ≡ is_done self.now }
    {
        match &self.entries {
            Some(entries) => entries.len() == self.files,
            None => false,
        }
    }

    /// Why a hand-up was refused. `None` if none was.
    pub fn refused(&self) -> Option<CheckFault>
        ensures { result ≡ self.now.refused }
    {
        self.refused
    }

    /// Returns the entry of the file that is due next. `None` if the manifest was not read yet, or if all its files were taken.
    pub fn due(&self) -> Option<&Entry>
        ensures { option_map (λ e. e.now) result ≡ file_at self.now self.now.files }
    {
        self.entry(self.files)
    }

    /// Returns the entry of a file, counted from 0 in order of name. `None` if the manifest has no such entry, or was not read yet.
    pub fn file(&self, i: u32) -> Option<&Entry>
        ensures { option_map (λ e. e.now) result ≡ file_at self.now i }
    {
        self.entry(i as usize)
    }
}
