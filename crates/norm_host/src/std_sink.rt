//! A writer of std, such as standard output, as a sink: [`StdSink`].

ghost use Rattle.std.specs.Prelude.{◌≡◌, None, true, is_err, OnOk};
ghost use Rattle.std.specs.Io.KnownBytes.{Appends};
ghost use Rattle.norm_base.specs.Faults.{Counts};
ghost use Rattle.norm_host.specs.Streams.{writer_of};

use norm_base::{Cause, Failed, Sink};
use std::io::{self, Write};

/// A writer of std as a sink. A write that is `Ok` has flushed. Contracts cannot rely on what was written, except as the writer itself
/// promises it: a write that was `Ok` wrote all octets. One that failed may have written some or all of them.
#[derive(Drop)]
pub struct StdSink<W> {
    writer: W,
    faults: u64,
    cause: Option<Cause>,
}

impl<W: Write> StdSink<W> {
    pub fn of(writer: W) -> StdSink<W>
        ensures writer { writer_of result ≡ writer }
        ensures faults { ⟦<StdSink<W> as Sink>⟧.fault_count result ≡ 0 }
    {
        StdSink {
            writer,
            faults: 0,
            cause: None,
        }
    }

    /// Returns what the last failed write was about. `None` if none failed yet.
    pub fn cause(&self) -> Option<&Cause> {
        self.cause.as_ref()
    }

    /// Counts a failed write, and keeps why it failed in place of the cause before.
    fn keep(&mut self, error: io::Error)
        ensures writer { writer_of self.new ≡ writer_of self.old }
        ensures counted { Counts self.old.faults self.new.faults true }
    {
        self.faults = self.faults.saturating_add(1);
        self.cause = Some(Cause::Output { error });
    }
}

impl<W: Write> Sink for StdSink<W> {
    ghost pieces = { λ _. None };

    ghost fault_count = { λ s. s.faults };

    fn write(&mut self, bytes: &[u8]) -> Result<(), Failed>
        ensures passes { OnOk result (Appends (W.contents (writer_of self.old)) (W.contents (writer_of self.new)) bytes.now) }
        ensures cause { Counts self.old.faults self.new.faults (is_err result) }
    {
        if let Err(error) = self.writer.write_all(bytes) {
            self.keep(error);
            return Err(Failed);
        }
        // Flushed at each write, so that whoever follows the output sees it at once, and a fault is reported at the write that failed.
        if let Err(error) = self.writer.flush() {
            self.keep(error);
            return Err(Failed);
        }
        Ok(())
    }

    fn faults(&self) -> u64 {
        self.faults
    }
}
