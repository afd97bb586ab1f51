//! Files of which one changes while the program runs.

ghost use Rattle.std.specs.Prelude.{◌≡◌, None};

use norm_base::{Failed, FileFault, Files};
use norm_memory::MemFiles;
use std::alloc::{AllocError, Global};

/// A file that has other octets from a call of the files on.
#[derive(Drop)]
pub(crate) struct Change {
    /// The number of that call, from 1.
    pub(crate) at: u64,
    pub(crate) name: String,
    pub(crate) octets: Vec<u8>,
}

impl Change {
    /// A copy of this.
    pub(crate) fn copy(&self, alloc: Global) -> Result<Change, AllocError> {
        Ok(Change {
            at: self.at,
            name: String::from_str(alloc, self.name.as_str())?,
            octets: Vec::from_slice(alloc, self.octets.as_slice())?,
        })
    }
}

/// The octets of the first file with this name.
fn content_of<'a>(files: &'a [(String, Vec<u8>)], name: &str) -> Option<&'a [u8]> {
    for file in files {
        if file.0.as_bytes() == name.as_bytes() {
            return Some(file.1.as_slice());
        }
    }
    None
}

/// Adds a file before all others. So it stands for each that has its name.
fn put_first(
    alloc: Global,
    files: &mut Vec<(String, Vec<u8>)>,
    name: &str,
    octets: &[u8],
) -> Result<(), AllocError> {
    let name = String::from_str(alloc, name)?;
    let octets = Vec::from_slice(alloc, octets)?;
    files.insert(0, (name, octets))?;
    Ok(())
}

/// Files of which one changes before a call. Contracts cannot rely on what they hold. A call fails if it reads a file at its end or after it, which
/// became shorter, or if memory runs out.
#[derive(Drop)]
pub(crate) struct ChangingFiles {
    alloc: Global,
    files: Vec<(String, Vec<u8>)>,
    change: Change,
    calls: u64,
    faults: u64,
}

impl ChangingFiles {
    /// Files with these names and octets, of which one changes.
    pub(crate) fn of(
        alloc: Global,
        files: Vec<(String, Vec<u8>)>,
        change: Change,
    ) -> ChangingFiles {
        ChangingFiles {
            alloc,
            files,
            change,
            calls: 0,
            faults: 0,
        }
    }

    /// The files as they are now.
    pub(crate) fn into_files(self) -> MemFiles {
        MemFiles::of(self.files, Vec::new(self.alloc))
    }

    /// Counts a call, and changes the file if it is the one.
    fn begin(&mut self) -> Result<(), AllocError>
        ensures { self.new.faults ≡ self.old.faults }
    {
        self.calls = self.calls.saturating_add(1);
        if self.calls == self.change.at {
            let name = self.change.name.as_str();
            put_first(
                self.alloc,
                &mut self.files,
                name,
                self.change.octets.as_slice(),
            )?;
        }
        Ok(())
    }
}

impl Files for ChangingFiles {
    ghost contents = { λ _. None };

    ghost fault_count = { λ s. s.faults };

    #[tactic(auto, using(norm_base::proofs::CountLemmas::counts_one_more))]
    fn length(&mut self, name: &str) -> Result<u64, FileFault> {
        if self.begin().is_err() {
            self.faults = self.faults.saturating_add(1);
            return Err(FileFault::Failed);
        }
        match content_of(&self.files, name) {
            Some(octets) => Ok(octets.len() as u64),
            None => Err(FileFault::Absent),
        }
    }

    #[tactic(auto, using(norm_base::proofs::CountLemmas::counts_one_more))]
    fn read_at(&mut self, name: &str, offset: u64, buf: &mut [u8]) -> Result<usize, FileFault> {
        if self.begin().is_err() {
            self.faults = self.faults.saturating_add(1);
            return Err(FileFault::Failed);
        }
        let Some(octets) = content_of(&self.files, name) else {
            return Err(FileFault::Absent);
        };
        if offset >= octets.len() as u64 {
            self.faults = self.faults.saturating_add(1);
            return Err(FileFault::Failed);
        }
        let rest = &octets[offset as usize..];
        let n = rest.len().min(buf.len());
        buf[..n].copy_from_slice(&rest[..n]);
        Ok(n)
    }

    #[tactic(auto, using(norm_base::proofs::CountLemmas::counts_one_more))]
    fn put(&mut self, name: &str, bytes: &[u8]) -> Result<(), Failed> {
        if self.begin().is_err() || put_first(self.alloc, &mut self.files, name, bytes).is_err() {
            self.faults = self.faults.saturating_add(1);
            return Err(Failed);
        }
        Ok(())
    }

    fn faults(&self) -> u64 {
        self.faults
    }
}
