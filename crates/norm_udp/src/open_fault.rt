//! Why sockets could not be opened: [`OpenFault`].

use crate::cause::SocketCause;
use norm_base::Memory;
use std::alloc::AllocFailed;

/// Why sockets could not be opened.
#[derive(Drop)]
pub(crate) enum OpenFault {
    Memory,
    Socket(SocketCause),
}

impl<T: Drop> From<AllocFailed<T>> for OpenFault {
    fn from(_refused: AllocFailed<T>) -> OpenFault {
        OpenFault::Memory
    }
}

impl From<Memory> for OpenFault {
    fn from(_refused: Memory) -> OpenFault {
        OpenFault::Memory
    }
}

impl From<SocketCause> for OpenFault {
    fn from(cause: SocketCause) -> OpenFault {
        OpenFault::Socket(cause)
    }
}
