//! The errors of [`show`](crate::show).

ghost use Rattle.std.specs.Prelude.{◌≡◌};
ghost use Rattle.norm_show.specs.declared.fault.ShowFault.TheVariants as fault;

use norm_base::{Failed, Memory};
use norm_script::Why;
use std::alloc::AllocError;
use std::fmt;

/// Why a line of the input is no datagram. `Display` gives the sentence for the user.
#[derive(Clone, Copy, Debug, PartialEq, Eq)]
pub enum NoDatagram {
    /// It has more than 3,000 octets.
    Long,
    /// An editor spelt it so: with a byte order mark, in UTF-16, or with a carriage return or spaces that do not belong.
    Spelt { why: Why },
    /// It has an odd number of octets, digits or not.
    Odd,
    /// It has an even number of octets, and one that is no hexadecimal digit.
    NoDigit,
}

impl fmt::Display for NoDatagram {
    ghost use Rattle.std.specs.Prelude.{Some};
    ghost use Rattle.norm_show.specs.Sentences.{sentence_of_none};

    ghost output = { λ why. Some (sentence_of_none why) };

    fn fmt<W: fmt::Write>(&self, f: &mut fmt::Formatter<W>) -> fmt::Result {
        match *self {
            NoDatagram::Long => f.write_str("it has more than 3000 octets"),
            NoDatagram::Spelt { why } => write!(f, "{why}"),
            NoDatagram::Odd => f.write_str("it has an odd number of hexadecimal digits"),
            NoDatagram::NoDigit => f.write_str("it has an octet that is no hexadecimal digit"),
        }
    }
}

/// Why [`show`](crate::show) failed.
#[derive(Clone, Copy, Debug, PartialEq, Eq)]
pub enum ShowFault {
    /// The line with this number, counted from 1, is no datagram.
    Line { number: u64, why: NoDatagram },
    /// A read failed. The lines that had ended before were written.
    Read,
    /// A write failed. The lines before were written, and perhaps a prefix of the next.
    Write,
    /// Memory ran out. The lines before were written.
    Memory,
}

impl From<AllocError> for ShowFault {
    ghost from_gives = { λ e r. r ≡ fault.Memory };

    fn from(_error: AllocError) -> ShowFault {
        ShowFault::Memory
    }
}

impl From<Memory> for ShowFault {
    ghost from_gives = { λ e r. r ≡ fault.Memory };

    fn from(_fault: Memory) -> ShowFault {
        ShowFault::Memory
    }
}
