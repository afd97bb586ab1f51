//! The errors of calls of the outside, and of calls that take memory.

ghost use Rattle.std.specs.Prelude.{◌≡◌};
ghost use Rattle.norm_base.specs.declared.fault.FabricFault.TheVariants as fabric;

use std::alloc::{AllocError, AllocFailed};

/// There was no memory for the call, or a count or an index of it would not fit its bits. A call that returns this raised no count of faults.
#[derive(Clone, Copy, Debug, PartialEq, Eq)]
pub struct Memory;

/// The outside failed. The object raised its count of faults by one, up to `u64::MAX`.
#[derive(Clone, Copy, Debug, PartialEq, Eq)]
pub struct Failed;

/// Why `length` or `read_at` of a `Files` failed.
#[derive(Clone, Copy, Debug, PartialEq, Eq)]
pub enum FileFault {
    /// No file has that name. It is no fault, and none is counted.
    Absent,
    /// The outside failed, and the count of faults says so.
    Failed,
}

/// Why a call of a `Fabric` failed.
#[derive(Clone, Copy, Debug, PartialEq, Eq)]
pub enum FabricFault {
    /// The outside failed, and the count of faults says so.
    Failed,
    Memory,
}

impl From<AllocError> for Memory {
    fn from(_error: AllocError) -> Memory {
        Memory
    }
}

impl<T: Drop> From<AllocFailed<T>> for Memory {
    fn from(_refused: AllocFailed<T>) -> Memory {
        Memory
    }
}

impl From<AllocError> for FabricFault {
    ghost from_gives = { λ e r. r ≡ fabric.Memory };

    fn from(_error: AllocError) -> FabricFault {
        FabricFault::Memory
    }
}

impl<T: Drop> From<AllocFailed<T>> for FabricFault {
    ghost from_gives = { λ e r. r ≡ fabric.Memory };

    fn from(_refused: AllocFailed<T>) -> FabricFault {
        FabricFault::Memory
    }
}

impl From<Memory> for FabricFault {
    ghost from_gives = { λ e r. r ≡ fabric.Memory };

    fn from(_fault: Memory) -> FabricFault {
        FabricFault::Memory
    }
}

impl From<Failed> for FabricFault {
    ghost from_gives = { λ e r. r ≡ fabric.Failed };

    fn from(_fault: Failed) -> FabricFault {
        FabricFault::Failed
    }
}
