//! A sink that is watched: [`WatchedSink`].

ghost use Rattle.std.specs.Prelude.{◌≡◌};
ghost use Rattle.norm_watch.specs.Watched.{watched_in};

use crate::line::Line;
use crate::listing::Listing;
use crate::restarts::Restarts;
use crate::saying::{Log, Says, wipe};
use crate::tally::Tally;
use norm_base::{Failed, Notice, Sink};
use std::time::Clock;

/// A sink that passes each line on, and if progress is printed, counts what lines say. It also reports a sender's restarts, and says each line
/// on standard error too if a record is asked for.
#[derive(Drop)]
pub struct WatchedSink<'a, R, K, T> {
    rt: R,
    sink: K,
    listing: Listing,
    says: Says,
    tally: &'a Tally,
    restarts: T,
    /// What is said of the line that is being written, if a record is asked for.
    line: Line,
}

impl<'a, R: Eprint + Clock, K: Sink, T: Restarts> WatchedSink<'a, R, K, T> {
    /// Returns a sink around this one. It shares `tally` with the network, and reports restarts to `restarts`.
    pub fn of(rt: R, sink: K, says: Says, tally: &'a Tally, restarts: T) -> WatchedSink<'a, R, K, T>
        ensures { watched_in result ≡ sink }
    {
        WatchedSink {
            rt,
            sink,
            listing: Listing::new(),
            says,
            tally,
            restarts,
            line: Line::new(),
        }
    }

    /// Returns the sink that is watched, for what the trait does not have: its cause.
    pub fn watched(&self) -> &K {
        &self.sink
    }

    /// Says each line that these octets of the output end, without contents and after the clock's microseconds.
    fn record(&mut self, bytes: &[u8])
        ensures { watched_in self.new ≡ watched_in self.old }
    {
        for byte in bytes {
            if !self.line.push(*byte) {
                continue;
            }
            wipe(&self.rt, self.tally);
            let moment = udp_rules::moment(&self.rt);
            let line = &self.line;
            let _ = eprintln!(self.rt; "{moment} {line}");
            self.line = Line::new();
        }
    }

    /// Reports a restart, and notes that a watermark expired. Both matter also if no progress is printed.
    fn tell(&mut self, notice: &Notice)
        ensures { watched_in self.new ≡ watched_in self.old }
    {
        match notice {
            Notice::Restarted { instance } => {
                wipe(&self.rt, self.tally);
                self.restarts.restarted(*instance);
            }
            Notice::Done { has_expired, .. } => {
                if *has_expired {
                    self.tally.has_expired.set(true);
                }
            }
            _ => {}
        }
    }
}

/// Counts what a line says, and anew how many members are past the oldest open watermark.
fn count(tally: &Tally, listing: &mut Listing, notice: &Notice) {
    match notice {
        Notice::Object { octets } => {
            tally.object();
            tally.octets(*octets);
        }
        Notice::Octets { octets } => tally.octets(*octets),
        Notice::Mark {
            mark,
            index,
            block,
            symbol,
        } => listing.mark(*mark, *index, *block, *symbol),
        Notice::Past {
            node,
            index,
            block,
            symbol,
        } => listing.past(*node, *index, *block, *symbol),
        Notice::Struck { node } => listing.strike(*node),
        Notice::Done { mark, .. } => listing.done(*mark),
        Notice::Restarted { .. } => listing.restart(),
        Notice::Other => {}
    }
    tally.past.set(listing.count());
}

impl<R: Eprint + Clock, K: Sink, T: Restarts> Sink for WatchedSink<'_, R, K, T> {
    ghost pieces = { λ s. K.pieces (watched_in s) };

    ghost fault_count = { λ s. K.fault_count (watched_in s) };

    fn write(&mut self, bytes: &[u8]) -> Result<(), Failed> {
        if self.says.beside {
            wipe(&self.rt, self.tally);
        }
        self.sink.write(bytes)?;
        if matches!(self.says.log, Log::Record) {
            self.record(bytes);
        }
        Ok(())
    }

    fn note(&mut self, notice: &Notice) {
        self.sink.note(notice);
        self.tell(notice);
        if self.says.progress {
            count(self.tally, &mut self.listing, notice);
        }
    }

    fn faults(&self) -> u64 {
        self.sink.faults()
    }
}
