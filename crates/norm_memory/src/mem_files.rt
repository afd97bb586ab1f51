//! Files in memory: [`MemFiles`]. Tests use them.

ghost use Rattle.std.specs.Prelude.{◌↔◌, ◌-◌, min, true, false, is_err, IsErr, IsErrOf, IsNone, IsTrue, IfSome, ◌≡◌, ◌≤◌, ◌<◌, ◌++◌, [], ◌∷◌, Some, ℕ, List, length, map, drop, take, string_bytes, slice_set, IfOk, OnOk, OnErr, option_copied, nat_eq};
ghost use Rattle.norm_memory.specs.Filing.{named, fails_at, after_query, place_of, put_in};
ghost use Rattle.norm_base.specs.Contents.{content_of, ChangesOnly};
ghost use Rattle.norm_memory.specs.Calls.{next_fails, after_call};
ghost use Rattle.norm_base.specs.Faults.{Counts, file_failed};

use crate::calls::CallCount;
use crate::mem_source::copy_front;
use norm_base::{Failed, FileFault, Files};
use std::alloc::{AllocError, Global};
use std::marker::Model;

/// Returns the index of the first file with this name, or the number of files.
fn place_of(files: &[(String, Vec<u8>)], name: &str) -> usize
    ensures place { result ≡ place_of (named files.now) name.now }
    ensures within { result ≤ length files.now }
{
    for (place, file) in files.iter().enumerate() {
        if file.0.as_bytes() == name.as_bytes() {
            return place;
        }
    }
    files.len()
}

/// The first file with this name counts.
fn content_of<'a>(files: &'a [(String, Vec<u8>)], name: &str) -> Option<&'a [u8]>
    ensures { option_copied result ≡ content_of (named files.now) name.now }
{
    for file in files {
        if file.0.as_bytes() == name.as_bytes() {
            return Some(file.1.as_slice());
        }
    }
    None
}

/// Gives the first file with this name these octets. If there is none, adds one after all others.
fn put_in(
    alloc: Global,
    files: &mut Vec<(String, Vec<u8>)>,
    name: &str,
    bytes: &[u8],
) -> Result<(), AllocError>
    ensures ok { OnOk result (named files.new.items ≡ put_in (named files.old.items) name.now bytes.now) }
    ensures err { OnErr result (files.new.items ≡ files.old.items) }
{
    // Before anything changes: without memory the file stays as it was.
    let octets = Vec::from_slice(alloc, bytes)?;
    let place = place_of(files, name);
    if place < files.len() {
        files[place].1 = octets;
        return Ok(());
    }
    let name = String::from_str(alloc, name)?;
    files.push((name, octets))?;
    Ok(())
}

/// Files in memory. A call fails, and changes nothing but its counts, if its number is listed, or if it is a `put` and memory runs out. A `length` or
/// `read_at` of a name that is not there answers `Absent`, also if its number is listed.
#[derive(Debug, Drop)]
pub struct MemFiles {
    files: Vec<(String, Vec<u8>)>,
    calls: CallCount,
}

impl Model for MemFiles {
    ghost use Rattle.norm_memory.specs.Filing.{MemFilesState, named};

    ghost Value = { MemFilesState };

    ghost view = { λ s. record { files = named s.files.items; calls = s.calls } };
}

impl MemFiles {
    /// Returns files with these names, which are to differ, and these octets. Their calls with these numbers, from 1, fail, except a
    /// `length` or `read_at` of a name that is not there.
    pub fn of(files: Vec<(String, Vec<u8>)>, failing: Vec<u64>) -> MemFiles
        ensures files { result.files ≡ named files.items }
        ensures calls { result.calls ≡ record { failing = failing.items; made = 0; faults = 0 } }
    {
        MemFiles {
            files,
            calls: CallCount::of(failing),
        }
    }

    /// Returns the octets of the file with this name. `None` if there is none. It does not count as a call.
    pub fn content(&self, name: &str) -> Option<&[u8]>
        ensures { option_copied result ≡ content_of self.now.files name.now }
    {
        content_of(&self.files, name)
    }
}

impl Files for MemFiles {
    ghost contents = { λ s. Some s.files };

    ghost fault_count = { λ s. s.calls.faults };

    fn length(&mut self, name: &str) -> Result<u64, FileFault>
        ensures fails { file_failed result ≡ fails_at self.old name.now }
        ensures state { self.new ≡ after_query self.old name.now }
        ensures same { Some self.new.files ≡ Some self.old.files }
        ensures value { IfOk result (λ n. IfSome (content_of self.old.files name.now) (λ octets. n ≡ length octets)) }
        ensures absent { IsErrOf result FileFault.Absent ↔ IsNone (content_of self.old.files name.now) }
        ensures cause { Counts self.old.calls.faults self.new.calls.faults (file_failed result) }
    {
        let Some(content) = content_of(&self.files, name) else {
            self.calls.pass();
            return Err(FileFault::Absent);
        };
        if self.calls.next_fails() {
            self.calls.fail();
            return Err(FileFault::Failed);
        }
        self.calls.pass();
        Ok(content.len() as u64)
    }

    fn read_at(&mut self, name: &str, offset: u64, buf: &mut [u8]) -> Result<usize, FileFault>
        requires room { 0 < length buf.old }
        requires within { IfSome (content_of self.old.files name.now) (λ octets. offset < length octets) }
        ensures fails { file_failed result ≡ fails_at self.old name.now }
        ensures state { self.new ≡ after_query self.old name.now }
        ensures exact { IfOk result (λ n. IfSome (content_of self.old.files name.now) (λ octets.
            (n ≡ min (length octets - offset) (length buf.old)) × (buf.new ≡ take n (drop offset octets) ++ drop n buf.old))) }
        ensures kept { OnErr result (buf.new ≡ buf.old) }
        ensures same { Some self.new.files ≡ Some self.old.files }
        ensures count { IfOk result (λ n. (0 < n) × (n ≤ length buf.old)) }
        ensures octets { IfOk result (λ n. IfSome (content_of self.old.files name.now) (λ octets. take n buf.new ≡ take n (drop offset octets))) }
        ensures absent { IsErrOf result FileFault.Absent ↔ IsNone (content_of self.old.files name.now) }
        ensures cause { Counts self.old.calls.faults self.new.calls.faults (file_failed result) }
    {
        let Some(content) = content_of(&self.files, name) else {
            self.calls.pass();
            return Err(FileFault::Absent);
        };
        if self.calls.next_fails() {
            self.calls.fail();
            return Err(FileFault::Failed);
        }
        self.calls.pass();
        let rest = content.split_at(offset as usize).1;
        let n = rest.len().min(buf.len());
        copy_front(buf, rest.split_at(n).0);
        Ok(n)
    }

    fn put(&mut self, name: &str, bytes: &[u8]) -> Result<(), Failed>
        ensures fails { IsTrue (next_fails self.old.calls) → IsErr result }
        ensures state { OnOk result (self.new ≡ record { files = put_in self.old.files name.now bytes.now; calls = after_call self.old.calls false }) }
        ensures kept { OnErr result (self.new ≡ record { files = self.old.files; calls = after_call self.old.calls true }) }
        ensures ok { OnOk result (content_of self.new.files name.now ≡ Some bytes.now) }
        ensures others { ChangesOnly (Some self.old.files) (Some self.new.files) name.now }
        ensures cause { Counts self.old.calls.faults self.new.calls.faults (is_err result) }
    {
        if self.calls.next_fails() {
            self.calls.fail();
            return Err(Failed);
        }
        let alloc = *self.files.allocator();
        match put_in(alloc, &mut self.files, name, bytes) {
            Ok(()) => {
                self.calls.pass();
                Ok(())
            }
            // `put` cannot report that memory ran out, so it counts as a failed call. Any other call fails only if its number is listed.
            Err(_) => {
                self.calls.fail();
                Err(Failed)
            }
        }
    }

    fn faults(&self) -> u64 {
        self.calls.faults()
    }
}
