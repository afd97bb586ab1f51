//! [`SessionFault`], and what `?` makes of the faults of calls.

ghost use Rattle.std.specs.Prelude.{◌≡◌};
ghost use Rattle.norm_turns.specs.Causes.{session_fault};
ghost use Rattle.norm_turns.specs.declared.fault.SessionFault.TheVariants as fault;

use norm_base::{FabricFault, Failed, Memory, Text};
use std::alloc::{AllocError, AllocFailed};

/// Why a run stops before it is done. `From` makes one of a failed write, a failed call of the network, and a lack of memory. A fault of the
/// files has no `From`, since `Absent` needs the name.
#[derive(Debug, Drop)]
pub enum SessionFault {
    /// A write of the output failed. A prefix of the line may have been written.
    Write,
    /// A call of the network failed. If it only lacked memory, the fault is `Memory`.
    Fabric,
    /// A call of the files failed: a question for a length, a read, or the put of a file that was handed up.
    Files,
    /// A command's file is not there. If its name cannot be copied, the fault is `Memory`.
    Absent { name: Text },
    /// Memory ran out. It also stands for what does not fit, for example a count above 64 bits, or an outcome for which the board has no
    /// room.
    Memory,
}

impl From<AllocError> for SessionFault {
    ghost from_gives = { λ e r. r ≡ fault.Memory };

    fn from(_error: AllocError) -> SessionFault {
        SessionFault::Memory
    }
}

impl<T: Drop> From<AllocFailed<T>> for SessionFault {
    ghost from_gives = { λ e r. r ≡ fault.Memory };

    fn from(_refused: AllocFailed<T>) -> SessionFault {
        SessionFault::Memory
    }
}

impl From<Memory> for SessionFault {
    ghost from_gives = { λ e r. r ≡ fault.Memory };

    fn from(_memory: Memory) -> SessionFault {
        SessionFault::Memory
    }
}

/// For the output's write. The files' `put` answers `Failed` too: turn that into `Files` by hand.
impl From<Failed> for SessionFault {
    ghost from_gives = { λ e r. r ≡ fault.Write };

    fn from(_failed: Failed) -> SessionFault {
        SessionFault::Write
    }
}

impl From<FabricFault> for SessionFault {
    ghost from_gives = { λ e r. r ≡ session_fault e };

    fn from(fault: FabricFault) -> SessionFault {
        match fault {
            FabricFault::Failed => SessionFault::Fabric,
            FabricFault::Memory => SessionFault::Memory,
        }
    }
}
