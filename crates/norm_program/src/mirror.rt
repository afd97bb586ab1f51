//! `mirror`: sends the folder that the input names to all receivers of a session, checks what each hands up, and puts the copies. The program calls
//! [`end_mirror`].

ghost use Rattle.std.specs.Prelude.{◌≡◌, Ok, string_bytes, IfOk, IfErr, OnOk};
ghost use Rattle.norm_base.specs.Members.{receivers_of};
ghost use Rattle.norm_journal.specs.Jobs.{Told};
ghost use Rattle.norm_record.specs.HandedUp.{handed_up};
ghost use Rattle.norm_script.specs.Folder.{folder_of};
ghost use Rattle.norm_script.specs.Scripts.{CanRun};
ghost use Rattle.norm_folder.specs.Copies.{copies};
ghost use Rattle.norm_folder.specs.Entries.{IsFolder, IsUnready, ReadyCause, ordered};
ghost use Rattle.norm_program.specs.Asked.{Mirror};
ghost use Rattle.norm_program.specs.Ends.{EndsEarly, IsTextEnding};
ghost use Rattle.norm_program.specs.Lending.{GivesBack};
ghost use Rattle.norm_program.specs.MirrorEnds.{EndsMirror, unlike_line, unmirrored, unmirrored_line, unsendable_line, mirrored_line};
ghost use Rattle.norm_endings.specs.declared.status.Ending.TheVariants.{Done};
ghost use Rattle.norm_program.specs.Mirroring.{EndsCopies, EndsSending, EndsWhole, IsLastIn, IsLastOf, IsSending, IsUnreadyEnding, Named, left};

use crate::boarded::run_session;
use crate::lent::Lent;
use norm_base::{Clock, Fabric, Failed, Files, Memory, Profile, Sink, Source, Text};
use norm_endings::{Ending, end_session, read_input, refused_line, say, stop_session};
use norm_folder::{
    Unready, first_unaccepted, first_unlike, first_unsatisfied, put_copies, ready, script_of,
};
use norm_record::Journal;
use norm_script::{Folder, Script, read_folder};
use std::alloc::{AllocError, Global};
use std::sync::Wait;
use std::thread::Threads;

/// A folder as it is sent.
#[derive(Drop)]
struct Sending {
    script: Script,
    /// How many files it has.
    files: usize,
}

/// Returns the last line that names a file which cannot stand in a folder.
#[tactic(auto, unfolding(crate::specs::MirrorEnds::unsendable_line))]
fn unsendable_line(alloc: Global, name: &str) -> Result<String, AllocError>
    ensures { IfOk result (λ text. string_bytes text ≡ unsendable_line name.now) }
{
    format!(in alloc; "not accepted {name}\n")
}

/// Returns the last line that names the first receiver which handed up something else.
#[tactic(auto, unfolding(crate::specs::MirrorEnds::unlike_line))]
fn unlike_line(alloc: Global, node: u32) -> Result<String, AllocError>
    ensures { IfOk result (λ text. string_bytes text ≡ unlike_line node) }
{
    format!(in alloc; "refused node {node}\n")
}

/// Returns the last line of a folder that was mirrored.
#[tactic(auto, unfolding(crate::specs::MirrorEnds::mirrored_line))]
fn mirrored_line(alloc: Global, files: usize, receivers: u8) -> Result<String, AllocError>
    ensures { IfOk result (λ text. string_bytes text ≡ mirrored_line files receivers) }
{
    format!(in alloc; "mirrored {files} files to {receivers} receivers\n")
}

/// Writes a last line and returns the ending that it belongs to. If the write fails, the ending is `Write`.
fn write_last<K: Sink>(ending: Ending, line: &[u8], output: &mut K) -> Ending
    ensures { IsLastOf ending line.now result (K.pieces output.old) (K.pieces output.new) (K.fault_count output.old) (K.fault_count output.new) }
{
    match output.write(line) {
        Ok(()) => ending,
        Err(Failed) => Ending::Write,
    }
}

/// Reads a text as the names of a folder. If a line is refused, writes the last line and returns the ending; if memory runs out, writes nothing and
/// returns `Memory`.
fn read_names<K: Sink>(alloc: Global, text: &[u8], output: &mut K) -> Result<Folder, Ending>
    ensures folder { IfOk result (λ folder. (folder_of text.now ≡ Ok folder) × IsFolder folder) }
    ensures unwritten { OnOk result (K.pieces output.new ≡ K.pieces output.old) }
    ensures quiet { OnOk result (K.fault_count output.new ≡ K.fault_count output.old) }
    ensures ending { (files : Told) → IfErr result (λ ending. IsTextEnding (Mirror files) ending text.now (K.pieces output.old) (K.pieces output.new)
        (K.fault_count output.old) (K.fault_count output.new)) }
{
    match read_folder(alloc, text) {
        Ok(Ok(folder)) => Ok(folder),
        Ok(Err(refusal)) => {
            let line = refused_line(alloc, u64::from(refusal.line))?;
            say(output, line.as_bytes());
            Err(Ending::Refused { refusal })
        }
        Err(Memory) => Err(Ending::Memory),
    }
}

/// Writes the last line if a folder is not sent, and returns the ending.
fn end_unready<K: Sink>(alloc: Global, why: Unready, output: &mut K) -> Ending
    ensures { IsUnreadyEnding why result (K.pieces output.old) (K.pieces output.new) (K.fault_count output.old) (K.fault_count output.new) }
{
    match why {
        Unready::Unread { why } => stop_session(alloc, why, output),
        Unready::Unsendable { name, len } => {
            let text = name.into_inner();
            match unsendable_line(alloc, &text) {
                Ok(line) => {
                    let name = Text::of(text);
                    write_last(Ending::Unsendable { name, len }, line.as_bytes(), output)
                }
                Err(_) => Ending::Memory,
            }
        }
    }
}

/// Makes the script of a folder from its files.
fn sending_of<D: Files>(alloc: Global, folder: &Folder, files: &mut D) -> Result<Sending, Unready>
    requires { IsFolder folder.now }
    ensures same { D.contents files.new ≡ D.contents files.old }
    ensures script { IfOk result (IsSending (D.contents files.old) folder.now) }
    ensures runs { IfOk result (λ sending. CanRun sending.script) }
    ensures stops { IfErr result (IsUnready (D.contents files.old) (ordered folder.now)) }
    ensures cause { ReadyCause result (D.fault_count files.old) (D.fault_count files.new) }
{
    let entries = ready(alloc, folder, files)?;
    let script = script_of(alloc, &folder.profile, &entries)?;
    Ok(Sending {
        script,
        files: entries.len(),
    })
}

/// Why a folder was not mirrored, by the journal of its session, which was whole: a command was refused for good, or a watermark expired, or a
/// receiver handed up something else. `None` if it may be put.
fn unmirrored<R: Threads + Sync>(
    rt: &R,
    alloc: Global,
    journal: &Journal,
    profile: &Profile,
) -> Result<Option<Ending>, Memory>
    ensures { IfOk result (λ why. why ≡ unmirrored journal.now (receivers_of profile.now profile.now.receivers)) }
{
    if journal.refused() > 0 {
        let what = first_unaccepted(alloc, journal)?;
        return Ok(Some(Ending::NotAccepted { what }));
    }
    if journal.expired() > 0 {
        let which = first_unsatisfied(journal);
        return Ok(Some(Ending::NotSatisfied { which }));
    }
    match first_unlike(rt, alloc, journal, profile)? {
        Some(why) => Ok(Some(Ending::Unlike { why })),
        None => Ok(None),
    }
}

/// Writes the last line of a folder that was not mirrored, and returns the ending.
fn end_unmirrored<K: Sink>(alloc: Global, why: Ending, output: &mut K) -> Ending
    ensures { IsLastIn why (unmirrored_line why) result (K.pieces output.old) (K.pieces output.new) (K.fault_count output.old) (K.fault_count output.new) }
{
    match &why {
        Ending::NotAccepted { .. } => write_last(why, b"not accepted\n", output),
        Ending::NotSatisfied { .. } => write_last(why, b"not satisfied\n", output),
        Ending::Unlike { why: found } => match unlike_line(alloc, found.node.number()) {
            Ok(line) => write_last(why, line.as_bytes(), output),
            Err(_) => Ending::Memory,
        },
        // Never taken: a folder is not mirrored for these three reasons.
        _ => Ending::Memory,
    }
}

/// Writes the last line of a folder that was mirrored, and returns the ending.
fn end_mirrored<K: Sink>(alloc: Global, sending: &Sending, output: &mut K) -> Ending
    ensures { IsLastIn Done (mirrored_line sending.now.files sending.now.script.profile.receivers) result (K.pieces output.old) (K.pieces output.new)
        (K.fault_count output.old) (K.fault_count output.new) }
{
    match mirrored_line(alloc, sending.files, sending.script.profile.receivers) {
        Ok(line) => write_last(Ending::Done, line.as_bytes(), output),
        Err(_) => Ending::Memory,
    }
}

/// Puts the copies of a folder that each receiver handed up, writes the last line and returns the ending.
fn end_copies<K: Sink, D: Files>(
    alloc: Global,
    sending: &Sending,
    journal: &Journal,
    output: &mut K,
    files: &mut D,
) -> Ending
    ensures { let p = sending.now.script.profile in
        EndsCopies (copies (handed_up journal.now) (receivers_of p p.receivers)) (mirrored_line sending.now.files p.receivers) result
        (left (K.pieces output.old) (K.fault_count output.old) (D.contents files.old) (D.fault_count files.old))
        (left (K.pieces output.new) (K.fault_count output.new) (D.contents files.new) (D.fault_count files.new)) }
{
    match put_copies(alloc, journal, &sending.script.profile, files) {
        Ok(()) => end_mirrored(alloc, sending, output),
        Err(fault) => stop_session(alloc, fault, output),
    }
}

/// Ends the mirror of a folder whose session was whole.
fn end_whole<R: Threads + Sync, K: Sink, D: Files>(
    rt: &R,
    alloc: Global,
    sending: &Sending,
    journal: &Journal,
    output: &mut K,
    files: &mut D,
) -> Ending
    ensures { let p = sending.now.script.profile in
        EndsWhole journal.now (receivers_of p p.receivers) (mirrored_line sending.now.files p.receivers) result
        (left (K.pieces output.old) (K.fault_count output.old) (D.contents files.old) (D.fault_count files.old))
        (left (K.pieces output.new) (K.fault_count output.new) (D.contents files.new) (D.fault_count files.new)) }
{
    match unmirrored(rt, alloc, journal, &sending.script.profile) {
        Ok(Some(why)) => end_unmirrored(alloc, why, output),
        Ok(None) => end_copies(alloc, sending, journal, output, files),
        Err(Memory) => Ending::Memory,
    }
}

/// Reads the input whole, as the names of a folder. If that fails, writes the last line, if the ending has one, and returns the ending.
fn prepare<S: Source, K: Sink>(
    alloc: Global,
    input: &mut S,
    output: &mut K,
) -> Result<Folder, Ending>
    ensures folder { IfOk result IsFolder }
    ensures named { IfOk result (λ folder. Named folder (S.left input.old) (S.left input.new)) }
    ensures unwritten { OnOk result (K.pieces output.new ≡ K.pieces output.old) }
    ensures quiet { OnOk result ((S.fault_count input.new ≡ S.fault_count input.old) × (K.fault_count output.new ≡ K.fault_count output.old)) }
    ensures ending { (files : Told) → IfErr result (λ ending. EndsEarly (Mirror files) ending (S.left input.old) (S.left input.new)
        (K.pieces output.old) (K.pieces output.new) (S.fault_count input.old) (S.fault_count input.new)
        (K.fault_count output.old) (K.fault_count output.new)) }
{
    let text = read_input(alloc, input, output)?;
    read_names(alloc, &text, output)
}

/// Sends a folder and puts the copies. The folder is ready.
fn send<R: Threads + Wait + Sync, S: Source, K: Sink, F: Fabric, D: Files, C: Clock>(
    rt: &R,
    alloc: Global,
    sending: &Sending,
    lent: &mut Lent<'_, S, K, F, D, C>,
) -> Ending
    requires { CanRun sending.now.script }
    ensures { GivesBack S.Source K.Sink F.Fabric D.Files C.Clock (EndsSending sending.now result) lent.old lent.new }
{
    match run_session(
        rt,
        alloc,
        &sending.script,
        lent.output,
        lent.fabric,
        lent.files,
        lent.clock,
    ) {
        Ok(ended) => {
            if !ended.whole {
                return end_session(false, lent.output);
            }
            end_whole(rt, alloc, sending, &ended.journal, lent.output, lent.files)
        }
        Err(fault) => stop_session(alloc, fault, lent.output),
    }
}

/// Sends the folder that the input names to all receivers of a session in this process, checks what each hands up, puts the copies, and returns the
/// ending; what each ending says is in `EndsMirror`. Only the session itself and the check get the runtime.
pub(crate) fn end_mirror<
    R: Threads + Wait + Sync,
    S: Source,
    K: Sink,
    F: Fabric,
    D: Files,
    C: Clock,
>(rt: &R, alloc: Global, lent: &mut Lent<'_, S, K, F, D, C>) -> Ending
    ensures { GivesBack S.Source K.Sink F.Fabric D.Files C.Clock (EndsMirror result) lent.old lent.new }
{
    let folder = match prepare(alloc, lent.input, lent.output) {
        Ok(folder) => folder,
        Err(ending) => return ending,
    };
    match sending_of(alloc, &folder, lent.files) {
        Ok(sending) => send(rt, alloc, &sending, lent),
        Err(why) => end_unready(alloc, why, lent.output),
    }
}
