//! A sink in memory: [`MemSink`]. Tests write to it.

ghost use Rattle.std.specs.Prelude.{◌≡◌, ◌++◌, ◌∷◌, [], length, Some, IsTrue, true, false, is_err, IsErr, OnOk, OnErr};
ghost use Rattle.std.specs.List.{concat};
ghost use Rattle.norm_memory.specs.Calls.{next_fails, after_call};
ghost use Rattle.norm_base.specs.Faults.{Counts};
ghost use Rattle.norm_base.specs.Told.{front_piece, gained, GainsFront};

use crate::calls::CallCount;
use norm_base::{Failed, Sink};
use std::alloc::{AllocError, Global};
use std::marker::Model;

/// Octets in memory. A call fails, and changes nothing but its counts, if its number is listed or if memory runs out.
// The ends never fall, and the last one, if any, is the end of the octets, so that the pieces in their order are all octets.
#[derive(Debug, Drop)]
pub struct MemSink {
    octets: Vec<u8>,
    /// How many octets the sink had before the first write.
    before: usize,
    /// The offset at which each piece that was written ends.
    stops: Vec<usize>,
    calls: CallCount,
}

impl Model for MemSink {
    ghost use Rattle.norm_memory.specs.Writing.{MemSinkState, pieces_at, Climbs};
    ghost use Rattle.std.specs.Prelude.{vec_len};

    ghost Value = { MemSinkState };

    ghost view = { λ s. record { pieces = pieces_at s.octets.items s.before s.stops.items; calls = s.calls } };

    ghost invariant = { λ s. Climbs s.before s.stops.items (vec_len s.octets) };
}

impl MemSink {
    /// Returns a sink that has these octets already, as one piece if there are any. Its calls with these numbers, from 1, fail.
    pub fn of(bytes: Vec<u8>, failing: Vec<u64>) -> MemSink
        ensures pieces { result.pieces ≡ front_piece (length bytes.items) bytes.items }
        ensures calls { result.calls ≡ record { failing = failing.items; made = 0; faults = 0 } }
    {
        let stops = Vec::new(*bytes.allocator());
        MemSink {
            before: bytes.len(),
            octets: bytes,
            stops,
            calls: CallCount::of(failing),
        }
    }

    /// Returns what the sink had at first, and then all that was written. It does not count as a call.
    pub fn bytes(&self) -> &[u8]
        ensures { result.now ≡ concat self.now.pieces }
    {
        self.octets.as_slice()
    }

    fn add(&mut self, bytes: &[u8]) -> Result<(), AllocError>
        ensures ok { OnOk result (self.new ≡ record { pieces = self.old.pieces ++ bytes.now ∷ []; calls = self.old.calls }) }
        ensures err { OnErr result (self.new ≡ self.old) }
    {
        self.octets.reserve(bytes.len())?;
        self.stops.push(self.octets.len() + bytes.len())?;
        // It does not fail: room was taken before. In this order a call without memory leaves the octets and the pieces as they were.
        self.octets.extend_from_slice(bytes).unwrap();
        Ok(())
    }
}

impl Sink for MemSink {
    ghost pieces = { λ s. Some s.pieces };

    ghost fault_count = { λ s. s.calls.faults };

    fn write(&mut self, bytes: &[u8]) -> Result<(), Failed>
        ensures fails { IsTrue (next_fails self.old.calls) → IsErr result }
        ensures state { OnOk result (self.new ≡ record { pieces = self.old.pieces ++ bytes.now ∷ []; calls = after_call self.old.calls false }) }
        ensures kept { OnErr result (self.new ≡ record { pieces = self.old.pieces; calls = after_call self.old.calls true }) }
        ensures ok { OnOk result (Some self.new.pieces ≡ gained (Some self.old.pieces) (bytes.now ∷ [])) }
        ensures err { OnErr result (GainsFront (Some self.old.pieces) (Some self.new.pieces) bytes.now) }
        ensures cause { Counts self.old.calls.faults self.new.calls.faults (is_err result) }
    {
        if self.calls.next_fails() {
            self.calls.fail();
            return Err(Failed);
        }
        // `write` cannot report that memory ran out, so it counts as a failed call. Nothing was written, so no piece is added: that would need
        // memory too.
        if self.add(bytes).is_err() {
            self.calls.fail();
            return Err(Failed);
        }
        self.calls.pass();
        Ok(())
    }

    fn faults(&self) -> u64 {
        self.calls.faults()
    }
}
