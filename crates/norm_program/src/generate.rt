//! `generate`: writes a script to try a session with. The program calls [`write_script`].

ghost use Rattle.std.specs.Prelude.{List, Option, ℕ};
ghost use Rattle.norm_endings.specs.Outside.{Called, outside};
ghost use Rattle.norm_program.specs.GenerateEnds.{GenerateEnds};

use norm_base::{Failed, Sink};
use norm_endings::Ending;
use norm_script::{generate, reads_generated};

/// Writes the script of this number and returns the ending: `Write` if a write fails. Reads nothing, and calls no network, files or clock.
pub(crate) fn write_script<K: Sink>(number: u32, output: &mut K) -> Ending
    ensures { (input : Option (List ℕ)) (read_faults : ℕ) (called : Called) → GenerateEnds number result
        (outside input (K.pieces output.old) read_faults (K.fault_count output.old) called)
        (outside input (K.pieces output.new) read_faults (K.fault_count output.new) called) }
{
    reads_generated();
    match generate(number, output) {
        Ok(()) => Ending::Done,
        Err(Failed) => Ending::Write,
    }
}
