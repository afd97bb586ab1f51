//! Reads the script of a sender whose profile is given. `send` calls [`prepare_commands`].

ghost use Rattle.std.specs.Prelude.{◌≡◌, Err, Ok, IfOk, IfErr, OnOk};
ghost use Rattle.norm_base.specs.Settings.{InRange};
ghost use Rattle.norm_script.specs.Reading.{commands_of};
ghost use Rattle.norm_script.specs.Scripts.{CanRun};
ghost use Rattle.norm_program.specs.Asked.{Sender};
ghost use Rattle.norm_program.specs.Ends.{EndsEarly, IsTextEnding, Prepared};

use norm_base::{Memory, Profile, Sink, Source};
use norm_endings::{Ending, read_input, refused_line, say};
use norm_script::{Refusal, Script, read_under};
use std::alloc::Global;

// Proof: a profile's numbers are in their ranges, once one of them is read.
fn is_in_range(profile: &Profile)
    ensures { InRange profile.now }
{
    let _producers = profile.producers;
}

/// Reads the text as a script for a sender of this profile. Returns the first refused line and its reason if there is one.
///
/// # Errors
///
/// `Memory` if memory runs out.
fn commands_in(
    alloc: Global,
    profile: &Profile,
    text: &[u8],
) -> Result<Result<Script, Refusal>, Memory>
    ensures script { IfOk result (λ read. IfOk read (λ script. (commands_of profile.now text.now ≡ Ok script) × CanRun script)) }
    ensures refused { IfOk result (λ read. IfErr read (λ refusal. commands_of profile.now text.now ≡ Err refusal)) }
{
    let read = read_under(alloc, text, profile)?;
    match read {
        Ok(script) => {
            is_in_range(profile);
            Ok(Ok(script))
        }
        Err(refusal) => Ok(Err(refusal)),
    }
}

/// Reads the text as a script for a sender of this profile. If a line is refused, writes the last line and returns the ending; if memory runs out,
/// writes nothing and returns `Memory`.
fn read_commands_in<K: Sink>(
    alloc: Global,
    profile: &Profile,
    text: &[u8],
    output: &mut K,
) -> Result<Script, Ending>
    ensures script { IfOk result (λ script. (commands_of profile.now text.now ≡ Ok script) × CanRun script) }
    ensures unwritten { OnOk result (K.pieces output.new ≡ K.pieces output.old) }
    ensures quiet { OnOk result (K.fault_count output.new ≡ K.fault_count output.old) }
    ensures ending { IfErr result (λ ending. IsTextEnding (Sender profile.now) ending text.now (K.pieces output.old) (K.pieces output.new)
        (K.fault_count output.old) (K.fault_count output.new)) }
{
    match commands_in(alloc, profile, text) {
        Ok(Ok(script)) => Ok(script),
        Ok(Err(refusal)) => {
            let line = refused_line(alloc, u64::from(refusal.line))?;
            say(output, line.as_bytes());
            Err(Ending::Refused { refusal })
        }
        Err(Memory) => Err(Ending::Memory),
    }
}

/// Reads the input whole, as a script for a sender of this profile. If that fails, writes the last line, if the ending has one, and returns the
/// ending.
pub(crate) fn prepare_commands<S: Source, K: Sink>(
    alloc: Global,
    profile: &Profile,
    input: &mut S,
    output: &mut K,
) -> Result<Script, Ending>
    ensures ready { IfOk result (λ script. Prepared (Sender profile.now) script (S.left input.old) (S.left input.new)) }
    ensures runnable { IfOk result CanRun }
    ensures unwritten { OnOk result (K.pieces output.new ≡ K.pieces output.old) }
    ensures quiet { OnOk result ((S.fault_count input.new ≡ S.fault_count input.old) × (K.fault_count output.new ≡ K.fault_count output.old)) }
    ensures ending { IfErr result (λ ending. EndsEarly (Sender profile.now) ending (S.left input.old) (S.left input.new)
        (K.pieces output.old) (K.pieces output.new) (S.fault_count input.old) (S.fault_count input.new)
        (K.fault_count output.old) (K.fault_count output.new)) }
{
    let text = read_input(alloc, input, output)?;
    read_commands_in(alloc, profile, &text, output)
}
