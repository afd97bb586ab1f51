//! Which errors of a socket are no fault.

ghost use Rattle.std.specs.Prelude.{◌≡◌};
ghost use Rattle.std.specs.IoError.{raw_os_error};
ghost use Rattle.udp_rules.specs.Losses.{is_loss, is_refused, is_unreachable};

use libc::{EAGAIN, ECONNREFUSED};
use std::io;

/// The system has no buffers (Linux's ENOBUFS).
// Linux's number, which `libc` does not name here. On another system the error has another number, and counts as a fault.
const NO_BUFFERS: i32 = 105;

/// Whether an error of a socket is no fault: a datagram is lost because nobody is there or there is no room, or there is none to receive.
pub fn is_loss(error: &io::Error) -> bool
    ensures { result ≡ is_loss (raw_os_error error.now) }
{
    match error.raw_os_error() {
        // NORM makes good what is lost, so a full buffer or a peer that has not started yet is no reason to end.
        Some(code) => code == EAGAIN || code == NO_BUFFERS || code == ECONNREFUSED,
        None => false,
    }
}

/// Whether an error says that nobody is at the address to which a datagram was sent.
pub fn is_refused(error: &io::Error) -> bool
    ensures { result ≡ is_refused (raw_os_error error.now) }
{
    match error.raw_os_error() {
        Some(code) => code == ECONNREFUSED,
        None => false,
    }
}

/// The network is down (Linux's ENETDOWN), cannot be reached (ENETUNREACH), or a host of it cannot (EHOSTUNREACH).
// Linux's numbers, as above.
const NETWORK_DOWN: i32 = 100;

const NETWORK_UNREACHABLE: i32 = 101;

const HOST_UNREACHABLE: i32 = 113;

/// Whether an error says that the network cannot be reached now. In a group that is a loss too: an interface that is down comes back.
pub fn is_unreachable(error: &io::Error) -> bool
    ensures { result ≡ is_unreachable (raw_os_error error.now) }
{
    match error.raw_os_error() {
        Some(code) => {
            code == NETWORK_DOWN || code == NETWORK_UNREACHABLE || code == HOST_UNREACHABLE
        }
        None => false,
    }
}
