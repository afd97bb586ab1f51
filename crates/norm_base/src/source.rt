//! The trait of an input. `norm_host` implements it for standard input, `norm_memory` for a list of octets.

ghost use Rattle.std.specs.Prelude.{◌≡◌, ◌+◌, ◌^◌, ◌<◌, ◌≤◌, ℕ, List, [], Option, length, take, is_err, IfOk, OnOk, OnErr, IfSome};
ghost use Rattle.norm_base.specs.Faults.{Counts};
ghost use Rattle.norm_base.specs.Told.{before_taking};

use crate::fault::Failed;

/// An input, read from its beginning to its end.
pub trait Source {
    /// The octets left, or `None` if the source does not record them.
    ghost left: { Self → Option (List ℕ) };

    /// How many octets were read. A successful read leaves this below 2^63.
    ghost given: { Self → ℕ };

    /// How many reads failed, at most `u64::MAX`.
    ghost fault_count: { Self → ℕ };

    /// Reads octets into a prefix of the buffer and returns how many. If the buffer is not empty, 0 means
    /// the end of the input. A failed read takes no octets from the input.
    fn read(&mut self, buf: &mut [u8]) -> Result<usize, Failed>
        ensures count { IfOk result (λ n. n ≤ length buf.old) }
        ensures octets { IfOk result (λ n. left self.old ≡ before_taking (take n buf.new) (left self.new)) }
        ensures end { IfOk result (λ n. n ≡ 0 → 0 < length buf.old → IfSome (left self.new) (λ rest. rest ≡ [])) }
        ensures given { IfOk result (λ n. given self.new ≡ given self.old + n) }
        ensures limit { OnOk result (given self.new < 2 ^ 63) }
        ensures err { OnErr result ((left self.new ≡ left self.old) × (given self.new ≡ given self.old)) }
        ensures cause { Counts (fault_count self.old) (fault_count self.new) (is_err result) };

    /// Returns how many reads failed, at most `u64::MAX`. It never falls.
    fn faults(&self) -> u64
        ensures { result ≡ fault_count self.now };
}
