//! Whether to print progress and each datagram on standard error, by the environment and by which streams are terminals: [`asked_in`].

use crate::saying::{Log, Says};
use std::io::IsTerminal;
use std::rt::Env;

/// Whether a variable of the environment is set to this value.
fn has_value(rt: &impl Env, name: &str, value: &[u8]) -> bool {
    // No value that is asked for is longer.
    let mut buf = [0u8; 16];
    match rt.var(name, &mut buf) {
        Ok(n) => n <= buf.len() && &buf[..n] == value,
        Err(_) => false,
    }
}

/// Returns what the environment asks to print of datagrams and lines of output.
fn log_in(rt: &impl Env) -> Log {
    if has_value(rt, "NORMD_LOG", b"trace") {
        Log::Trace
    } else if has_value(rt, "NORMD_LOG", b"record") {
        Log::Record
    } else {
        Log::Off
    }
}

/// Returns what to print. Progress: if standard error is a terminal, unless the environment has `NORMD_PROGRESS=0`; if it is none, only
/// with `NORMD_PROGRESS=1`. Each datagram: with `NORMD_LOG=trace`. Lines of output too, all with the clock's microseconds: with
/// `NORMD_LOG=record`. Warnings do not depend on it.
pub fn asked_in(rt: &HostRuntime) -> Says {
    let is_seen = rt.stderr().is_terminal();
    Says {
        progress: if is_seen {
            !has_value(rt, "NORMD_PROGRESS", b"0")
        } else {
            has_value(rt, "NORMD_PROGRESS", b"1")
        },
        log: log_in(rt),
        beside: is_seen && rt.stdout().is_terminal(),
    }
}
