//! The trait of the files that are sent and stored. `norm_host` implements it for a folder and the paths that a user gave, `norm_memory`
//! for a list.

ghost use Rattle.std.specs.Prelude.{◌≡◌, ◌<◌, ◌≤◌, ◌↔◌, ℕ, List, Option, length, take, drop, is_err, IfOk, OnOk, IfSome, IsNone, IsErrOf};
ghost use Rattle.norm_base.specs.Faults.{Counts, file_failed};
ghost use Rattle.norm_base.specs.Contents.{content_of, ChangesOnly};

use crate::fault::{Failed, FileFault};

/// Files by their names: a sender reads them, and a receiver stores what was handed up.
pub trait Files {
    /// The names with their contents, or `None` if the files do not record them. Only `put` changes them.
    ghost contents: { Self → Option (List (List ℕ × List ℕ)) };

    /// How many calls failed, at most `u64::MAX`. An absent name is no failure.
    ghost fault_count: { Self → ℕ };

    /// Returns the length of a file in octets. `Absent` if there is no such name.
    fn length(&mut self, name: &str) -> Result<u64, FileFault>
        ensures same { contents self.new ≡ contents self.old }
        ensures value { IfOk result (λ n. IfSome (contents self.old) (λ files.
            IfSome (content_of files name.now) (λ octets. n ≡ length octets))) }
        ensures absent { IfSome (contents self.old) (λ files.
            IsErrOf result FileFault.Absent ↔ IsNone (content_of files name.now)) }
        ensures cause { Counts (fault_count self.old) (fault_count self.new) (file_failed result) };

    /// Reads octets from `offset` on, which is below the file's length, into a prefix of the buffer. Returns how many: at least one, and perhaps
    /// fewer than have room. `Absent` if there is no such name.
    fn read_at(&mut self, name: &str, offset: u64, buf: &mut [u8]) -> Result<usize, FileFault>
        requires room { 0 < length buf.old }
        requires within { IfSome (contents self.old) (λ files.
            IfSome (content_of files name.now) (λ octets. offset < length octets)) }
        ensures same { contents self.new ≡ contents self.old }
        ensures count { IfOk result (λ n. (0 < n) × (n ≤ length buf.old)) }
        ensures octets { IfOk result (λ n. IfSome (contents self.old) (λ files.
            IfSome (content_of files name.now) (λ octets. take n buf.new ≡ take n (drop offset octets)))) }
        ensures absent { IfSome (contents self.old) (λ files.
            IsErrOf result FileFault.Absent ↔ IsNone (content_of files name.now)) }
        ensures cause { Counts (fault_count self.old) (fault_count self.new) (file_failed result) };

    /// Replaces or creates a file with these octets. No other file changes, even if the call fails. What this one has then is open.
    fn put(&mut self, name: &str, bytes: &[u8]) -> Result<(), Failed>
        ensures ok { OnOk result (IfSome (contents self.new) (λ files. content_of files name.now ≡ Some bytes.now)) }
        ensures others { ChangesOnly (contents self.old) (contents self.new) name.now }
        ensures cause { Counts (fault_count self.old) (fault_count self.new) (is_err result) };

    /// Returns how many calls failed, at most `u64::MAX`. It never falls. An absent name does not count.
    fn faults(&self) -> u64
        ensures { result ≡ fault_count self.now };
}
