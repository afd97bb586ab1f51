//! Writes the last line of the program, except a tail's. [`end_session`], [`say_absent`] and [`stop_session`] also return the ending that goes
//! with it. Commands of `norm_program` call these when they end, `input` and `profiles` if they end the program, and `norm_program` itself
//! for the usage line.

ghost use Rattle.std.specs.Prelude.{◌≡◌, string_bytes, IfOk};
ghost use Rattle.norm_endings.specs.Outside.{refused_line, absent_line, Says};
ghost use Rattle.norm_endings.specs.Endings.{IsLastEnding, IsAbsentEnding, IsStoppedEnding};

use crate::status::Ending;
use norm_base::{Failed, Sink, Text};
use norm_turns::SessionFault;
use std::alloc::{AllocError, Global};

/// Writes a last line. If the write fails, a prefix of the line may be out and the count of faults is raised, but the ending stays as it is.
pub fn say<K: Sink>(output: &mut K, line: &[u8])
    ensures { Says (K.pieces output.old) (K.pieces output.new) (K.fault_count output.old) (K.fault_count output.new) line.now }
{
    let _ = output.write(line);
}

/// Returns the last line that names line `n` of the input, counted from 1. Fails only if memory runs out.
#[tactic(auto, unfolding(crate::specs::Outside::refused_line))]
pub fn refused_line(alloc: Global, n: u64) -> Result<String, AllocError>
    ensures { IfOk result (λ text. string_bytes text ≡ refused_line n) }
{
    format!(in alloc; "refused line {n}\n")
}

/// Returns the last line that names a file which is not there, as the script or the words name it, without the folder of the files.
#[tactic(auto, unfolding(crate::specs::Outside::absent_line))]
fn absent_line(alloc: Global, name: &str) -> Result<String, AllocError>
    ensures { IfOk result (λ text. string_bytes text ≡ absent_line name.now) }
{
    format!(in alloc; "absent {name}\n")
}

/// Returns how a session that ran ends the program. If it was not whole, writes `turns spent`; the ending is `Write` if that write fails.
pub fn end_session<K: Sink>(whole: bool, output: &mut K) -> Ending
    ensures { IsLastEnding result whole (K.pieces output.old) (K.pieces output.new)
        (K.fault_count output.old) (K.fault_count output.new) }
{
    if whole {
        return Ending::Done;
    }
    match output.write(b"turns spent\n") {
        Ok(()) => Ending::Spent,
        Err(Failed) => Ending::Write,
    }
}

/// Writes which file is absent and returns the ending: `Memory` if memory runs out for the line.
pub(crate) fn say_absent<K: Sink>(alloc: Global, name: Text, output: &mut K) -> Ending
    ensures { IsAbsentEnding result name (K.pieces output.old) (K.pieces output.new)
        (K.fault_count output.old) (K.fault_count output.new) }
{
    let text = name.into_inner();
    match absent_line(alloc, &text) {
        Ok(line) => {
            say(output, line.as_bytes());
            Ending::Absent {
                name: Text::of(text),
            }
        }
        Err(_) => Ending::Memory,
    }
}

/// Returns how a fault of the session ends the program, and writes the last line. There is none after a failed write or a lack of memory, also one
/// for that line.
pub fn stop_session<K: Sink>(alloc: Global, fault: SessionFault, output: &mut K) -> Ending
    ensures { IsStoppedEnding fault result (K.pieces output.old) (K.pieces output.new)
        (K.fault_count output.old) (K.fault_count output.new) }
{
    match fault {
        SessionFault::Memory => Ending::Memory,
        SessionFault::Write => Ending::Write,
        SessionFault::Fabric => {
            say(output, b"fault fabric\n");
            Ending::Fabric
        }
        SessionFault::Files => {
            say(output, b"fault files\n");
            Ending::Files
        }
        SessionFault::Absent { name } => say_absent(alloc, name, output),
    }
}
