//! Why no tail began, or why it broke off: [`TailFault`].

ghost use Rattle.std.specs.Prelude.{◌≡◌};
ghost use Rattle.norm_tail.specs.declared.fault.TailFault.TheVariants as fault;

use norm_base::Memory;

/// Why no tail began, or, after `Memory`, why it may have broken off. Without `Memory`, nothing happened.
#[derive(Clone, Copy, PartialEq, Eq)]
pub enum TailFault {
    /// No watermark is open, so there is none to wait for.
    NoRequest,
    /// The profile's mode is not `hold`: the sender may drop what is still to be repaired.
    Mode,
    /// The window has this many streams, closed ones included. A tail needs a window without any.
    Streams { count: u32 },
    /// The profile's step, in microseconds, is 0 or more than its gap.
    Step { step: u32 },
    /// The window has this many infos and encoded symbols. They and one datagram more, sent twice, take longer than a round trip.
    Pace { symbols: u64 },
    /// This many flushes were counted since the watermark became the oldest, or a round made a want. Too few are left for a repair before it
    /// expires.
    Flushes { count: u32 },
    /// Memory ran out, before the first turn or in one.
    Memory,
}

impl From<Memory> for TailFault {
    ghost from_gives = { λ e r. r ≡ fault.Memory };

    fn from(_fault: Memory) -> TailFault {
        TailFault::Memory
    }
}
