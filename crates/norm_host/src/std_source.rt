//! A reader of std, such as standard input, as a source: [`StdSource`].

ghost use Rattle.std.specs.Prelude.{◌≡◌, ◌↔◌, ◌+◌, ◌^◌, ◌<◌, ◌≤◌, None, Some, true, IsTrue, length, is_err, IfOk, OnOk, OnErr};
ghost use Rattle.std.specs.Io.KnownBytes.{ReadConsumes};
ghost use Rattle.norm_base.specs.Faults.{Counts};
ghost use Rattle.norm_host.specs.Streams.{reader_of};

use norm_base::{Cause, Failed, Source};
use std::io::{self, ErrorKind, Read};

/// The most octets that a source gives in all its reads.
// Our own choice, so that a count of octets fits 63 bits. Beyond it a read fails.
const MOST: u64 = (1 << 63) - 1;

/// A reader of std as a source. Contracts cannot rely on what is left, except as the reader itself promises it: a read that was `Ok`
/// consumed what it gave, 0 octets into a buffer with room is the reader's end, and a failed read consumed nothing. It gives fewer than
/// 2^63 octets: a read fails if its buffer has room for more.
#[derive(Drop)]
pub struct StdSource<R> {
    reader: R,
    given: u64,
    faults: u64,
    cause: Option<Cause>,
}

impl<R: Read> StdSource<R> {
    pub fn of(reader: R) -> StdSource<R>
        ensures reader { reader_of result ≡ reader }
        ensures given { ⟦<StdSource<R> as Source>⟧.given result ≡ 0 }
        ensures faults { ⟦<StdSource<R> as Source>⟧.fault_count result ≡ 0 }
    {
        StdSource {
            reader,
            given: 0,
            faults: 0,
            cause: None,
        }
    }

    /// Returns what the last failed read was about. `None` if none failed yet.
    pub fn cause(&self) -> Option<&Cause> {
        self.cause.as_ref()
    }

    /// Counts a failed read, and keeps why it failed in place of the cause before.
    fn keep(&mut self, error: io::Error)
        ensures reader { reader_of self.new ≡ reader_of self.old }
        ensures given { self.new.given ≡ self.old.given }
        ensures counted { Counts self.old.faults self.new.faults true }
    {
        self.faults = self.faults.saturating_add(1);
        self.cause = Some(Cause::Input { error });
    }

    /// Whether the source may give this many octets more: the room of a buffer, since a read may fill it.
    fn has_room(&self, more: u64) -> bool
        ensures { IsTrue result ↔ (self.now.given + more < 2 ^ 63) }
    {
        more <= MOST && self.given <= MOST - more
    }
}

impl<R: Read> Source for StdSource<R> {
    ghost left = { λ _. None };

    ghost given = { λ s. s.given };

    ghost fault_count = { λ s. s.faults };

    fn read(&mut self, buf: &mut [u8]) -> Result<usize, Failed>
        ensures passes { ReadConsumes (R.remaining (reader_of self.old)) (R.remaining (reader_of self.new)) result buf.new }
        ensures count { IfOk result (λ n. n ≤ length buf.old) }
        ensures given { IfOk result (λ n. self.new.given ≡ self.old.given + n) }
        ensures limit { OnOk result (self.new.given < 2 ^ 63) }
        ensures err { OnErr result (self.new.given ≡ self.old.given) }
        ensures cause { Counts self.old.faults self.new.faults (is_err result) }
    {
        if !self.has_room(buf.len() as u64) {
            self.keep(io::Error::from(ErrorKind::FileTooLarge));
            return Err(Failed);
        }
        match self.reader.read(buf) {
            Ok(n) => {
                self.given += n as u64;
                Ok(n)
            }
            Err(error) => {
                self.keep(error);
                Err(Failed)
            }
        }
    }

    fn faults(&self) -> u64 {
        self.faults
    }
}
