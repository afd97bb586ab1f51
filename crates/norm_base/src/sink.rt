//! The trait of an output. `norm_host` implements it for standard output, `norm_memory` for a list of octets, and `norm_watch` around
//! another sink.

ghost use Rattle.std.specs.Prelude.{◌≡◌, ℕ, [], ◌∷◌, is_err, OnOk, OnErr};
ghost use Rattle.norm_base.specs.Faults.{Counts};
ghost use Rattle.norm_base.specs.Told.{Pieces, gained, GainsFront};

use crate::fault::Failed;
use crate::notice::Notice;

/// An output, appended to. Its contents are the pieces that were written, in order.
pub trait Sink {
    /// The pieces that were written, one for each call, or `None` if the sink does not record them.
    ghost pieces: { Self → Pieces };

    /// How many writes failed, at most `u64::MAX`.
    ghost fault_count: { Self → ℕ };

    /// Writes all of the octets as one piece. If the write fails, a prefix of them may
    /// have been written; that prefix is then the last piece.
    fn write(&mut self, bytes: &[u8]) -> Result<(), Failed>
        ensures ok { OnOk result (pieces self.new ≡ gained (pieces self.old) (bytes.now ∷ [])) }
        ensures err { OnErr result (GainsFront (pieces self.old) (pieces self.new) bytes.now) }
        ensures cause { Counts (fault_count self.old) (fault_count self.new) (is_err result) };

    /// Learns what the line says that was written last. Call it after the write of each line of an event. It writes nothing itself.
    // Most sinks do not count, so by default nothing is done.
    fn note(&mut self, _notice: &Notice)
        ensures same { pieces self.new ≡ pieces self.old }
        ensures cause { fault_count self.new ≡ fault_count self.old }
    {}

    /// Returns how many writes failed, at most `u64::MAX`. It never falls.
    fn faults(&self) -> u64
        ensures { result ≡ fault_count self.now };
}
