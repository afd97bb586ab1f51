//! Why a program ends early, and the exit status of each reason.

use norm_base::{Failed, Memory};
use std::alloc::{AllocError, AllocFailed};
use std::error::Error;
use std::fmt;

/// Why a program ends early.
#[derive(Clone, Copy, Debug, PartialEq, Eq, Drop)]
pub enum Fault {
    /// This line, counted from 1, has no meaning where it stands.
    Line { number: usize },
    /// The input is not UTF-8.
    NotText,
    /// A read failed.
    Read,
    /// A write failed.
    Write,
    /// Memory ran out in the program itself, or as `replay` began a node. If it runs out in a call that the program tests, that is an answer to
    /// print.
    Memory,
}

impl Fault {
    /// Returns the exit status of the program.
    pub fn status(self) -> u8 {
        match self {
            Fault::Memory => 1,
            Fault::Line { .. } | Fault::NotText => 2,
            Fault::Read | Fault::Write => 3,
        }
    }
}

impl fmt::Display for Fault {
    fn fmt<W: fmt::Write>(&self, f: &mut fmt::Formatter<W>) -> fmt::Result {
        match self {
            Fault::Line { number } => write!(f, "line {number} has no meaning here"),
            Fault::NotText => write!(f, "the input is not UTF-8"),
            Fault::Read => write!(f, "the input can't be read"),
            Fault::Write => write!(f, "the output can't be written"),
            Fault::Memory => write!(f, "out of memory"),
        }
    }
}

impl Error for Fault {}

impl From<Memory> for Fault {
    fn from(_fault: Memory) -> Fault {
        Fault::Memory
    }
}

impl From<AllocError> for Fault {
    fn from(_fault: AllocError) -> Fault {
        Fault::Memory
    }
}

impl<T: Drop> From<AllocFailed<T>> for Fault {
    fn from(_fault: AllocFailed<T>) -> Fault {
        Fault::Memory
    }
}

impl From<Failed> for Fault {
    fn from(_fault: Failed) -> Fault {
        Fault::Write
    }
}
