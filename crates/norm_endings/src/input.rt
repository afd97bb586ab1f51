//! Reads the input whole. `session` and `send` call [`read_input`] before they run anything, and `gather` and `relay` before they take a line.

ghost use Rattle.std.specs.Prelude.{◌≡◌, IfOk, IfErr, OnOk};
ghost use Rattle.norm_endings.specs.declared.input.InputFault.TheVariants as fault;
ghost use Rattle.norm_endings.specs.InputCause.{ReadCause};
ghost use Rattle.norm_endings.specs.Outside.{IsInput};
ghost use Rattle.norm_endings.specs.Endings.{IsReadEnding};

use crate::last_line::say;
use crate::status::Ending;
use norm_base::{Failed, Sink, Source};
use std::alloc::{AllocError, Global};

/// Why [`read_all`] returned no text. What was read before is lost.
#[derive(Clone, Copy, Debug, PartialEq, Eq)]
enum InputFault {
    Read,
    Memory,
}

impl From<AllocError> for InputFault {
    ghost from_gives = { λ e r. r ≡ fault.Memory };

    fn from(_error: AllocError) -> InputFault {
        InputFault::Memory
    }
}

impl From<Failed> for InputFault {
    ghost from_gives = { λ e r. r ≡ fault.Read };

    fn from(_fault: Failed) -> InputFault {
        InputFault::Read
    }
}

/// Reads up to the end of the input, at most 4,096 octets at a time. Takes memory for all of it: only memory limits how long it may be.
fn read_all<S: Source>(alloc: Global, input: &mut S) -> Result<Vec<u8>, InputFault>
    ensures octets { IfOk result (λ text. IsInput text.items (S.left input.old) (S.left input.new)) }
    ensures cause { ReadCause result (S.fault_count input.old) (S.fault_count input.new) }
{
    let mut text = Vec::new(alloc);
    let mut buffer = [0u8; 4096];
    loop {
        let n = input.read(&mut buffer)?;
        if n == 0 {
            return Ok(text);
        }
        text.extend_from_slice(buffer.split_at(n).0)?;
    }
}

/// Reads the input whole. If a read fails, writes the last line `fault read` and returns `Read`; if memory runs out, writes nothing and returns
/// `Memory`.
pub fn read_input<S: Source, K: Sink>(
    alloc: Global,
    input: &mut S,
    output: &mut K,
) -> Result<Vec<u8>, Ending>
    ensures text { IfOk result (λ text. IsInput text.items (S.left input.old) (S.left input.new)) }
    ensures unwritten { OnOk result (K.pieces output.new ≡ K.pieces output.old) }
    ensures quiet { OnOk result ((S.fault_count input.new ≡ S.fault_count input.old) × (K.fault_count output.new ≡ K.fault_count output.old)) }
    ensures ending { IfErr result (λ ending. IsReadEnding ending (S.fault_count input.old) (S.fault_count input.new)
        (K.pieces output.old) (K.pieces output.new) (K.fault_count output.old) (K.fault_count output.new)) }
{
    match read_all(alloc, input) {
        Ok(text) => Ok(text),
        Err(InputFault::Memory) => Err(Ending::Memory),
        Err(InputFault::Read) => {
            say(output, b"fault read\n");
            Err(Ending::Read)
        }
    }
}
