//! `session`: reads the input as a script, overrides its keys with the options, and runs the session with all members. The program calls
//! [`run_input`].

ghost use Rattle.std.specs.Prelude.{◌≡◌, Ok, IfOk, IfErr, OnOk};
ghost use Rattle.norm_script.specs.Scripts.{CanRun};
ghost use Rattle.norm_args.specs.Fits.{FitsOptions};
ghost use Rattle.norm_program.specs.Asked.{Members, profile_with, script_asked, script_with};
ghost use Rattle.norm_program.specs.Ends.{Prepared, IsTextEnding, EndsEarly};
ghost use Rattle.norm_program.specs.Lending.{GivesBack};
ghost use Rattle.norm_program.specs.TailEnds.{EndsSession};

use crate::boarded::{Part, run_session, run_until};
use crate::lent::Lent;
use crate::tail::end_tails;
use norm_args::Options;
use norm_base::{Clock, Fabric, Files, Memory, Profile, Sink, Source};
use norm_endings::{Ending, end_session, read_input, refused_line, say, stop_session};
use norm_script::{Script, read};
use std::alloc::Global;
use std::sync::Wait;
use std::thread::Threads;

/// Overrides `chance` and `turns`, each only if its option is given. No other key has an option of `session`.
// The options stand in the profile that is run, so that the clauses of a session speak of one profile and know of no options.
fn profile_with(profile: Profile, options: Options) -> Profile
    requires { FitsOptions options }
    ensures { result ≡ profile_with options profile }
{
    Profile {
        chance: options.chance.unwrap_or(profile.chance),
        turns: options.turns.unwrap_or(profile.turns),
        ..profile
    }
}

/// Overrides the profile of a script by the options, and leaves its lines as they are.
fn script_with(script: Script, options: Options) -> Script
    requires { FitsOptions options }
    ensures { result ≡ script_with options script }
{
    let Script { profile, lines } = script;
    let profile = profile_with(profile, options);
    Script { profile, lines }
}

/// Reads the text as a script and overrides its keys with the options. If a line is refused, writes the last line and returns the ending; if memory
/// runs out, writes nothing and returns `Memory`.
fn read_text<K: Sink>(
    alloc: Global,
    text: &[u8],
    options: Options,
    output: &mut K,
) -> Result<Script, Ending>
    requires { FitsOptions options }
    ensures script { IfOk result (λ script. (script_asked options text.now ≡ Ok script) × CanRun script) }
    ensures unwritten { OnOk result (K.pieces output.new ≡ K.pieces output.old) }
    ensures quiet { OnOk result (K.fault_count output.new ≡ K.fault_count output.old) }
    ensures ending { IfErr result (λ ending. IsTextEnding (Members options) ending text.now (K.pieces output.old) (K.pieces output.new)
        (K.fault_count output.old) (K.fault_count output.new)) }
{
    match read(alloc, text) {
        Ok(Ok(script)) => Ok(script_with(script, options)),
        Ok(Err(refusal)) => {
            let line = refused_line(alloc, u64::from(refusal.line))?;
            say(output, line.as_bytes());
            Err(Ending::Refused { refusal })
        }
        Err(Memory) => Err(Ending::Memory),
    }
}

/// Reads the input whole, as a script overridden by the options. If that fails, writes the last line, if the ending has one, and returns the
/// ending.
fn prepare<S: Source, K: Sink>(
    alloc: Global,
    options: Options,
    input: &mut S,
    output: &mut K,
) -> Result<Script, Ending>
    requires { FitsOptions options }
    ensures ready { IfOk result (λ script. Prepared (Members options) script (S.left input.old) (S.left input.new)) }
    ensures runnable { IfOk result CanRun }
    ensures unwritten { OnOk result (K.pieces output.new ≡ K.pieces output.old) }
    ensures quiet { OnOk result ((S.fault_count input.new ≡ S.fault_count input.old) × (K.fault_count output.new ≡ K.fault_count output.old)) }
    ensures ending { IfErr result (λ ending. EndsEarly (Members options) ending (S.left input.old) (S.left input.new)
        (K.pieces output.old) (K.pieces output.new) (S.fault_count input.old) (S.fault_count input.new)
        (K.fault_count output.old) (K.fault_count output.new)) }
{
    let text = read_input(alloc, input, output)?;
    read_text(alloc, &text, options, output)
}

/// Runs a session with these options and returns the ending; what each ending says is in `EndsSession`. The files keep their contents. Only the
/// session itself gets the runtime.
pub(crate) fn run_input<
    R: Threads + Wait + Sync,
    S: Source,
    K: Sink,
    F: Fabric,
    D: Files,
    C: Clock,
>(rt: &R, alloc: Global, options: Options, lent: &mut Lent<'_, S, K, F, D, C>) -> Ending
    requires { FitsOptions options }
    ensures ends { GivesBack S.Source K.Sink F.Fabric D.Files C.Clock (EndsSession options result) lent.old lent.new }
    ensures files { D.contents lent.new.files.now ≡ D.contents lent.old.files.now }
{
    let script = match prepare(alloc, options, lent.input, lent.output) {
        Ok(script) => script,
        Err(ending) => return ending,
    };
    let Some(until) = options.tail else {
        match run_session(
            rt,
            alloc,
            &script,
            lent.output,
            lent.fabric,
            lent.files,
            lent.clock,
        ) {
            Ok(ended) => return end_session(ended.whole, lent.output),
            Err(fault) => return stop_session(alloc, fault, lent.output),
        }
    };
    let part = Part {
        script: &script,
        until,
    };
    match run_until(
        rt,
        alloc,
        part,
        lent.output,
        lent.fabric,
        lent.files,
        lent.clock,
    ) {
        Ok(paused) => end_tails(alloc, &script.profile, paused, lent.output),
        Err(fault) => stop_session(alloc, fault, lent.output),
    }
}
