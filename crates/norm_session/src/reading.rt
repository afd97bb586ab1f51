//! Files that commands name. A run asks a file's length, offers the file to the sender, and reads its octets in pieces if it is accepted.

ghost use Rattle.std.specs.Prelude.{◌≡◌, ◌<◌, ◌++◌, [], ℕ, List, Bool, Err, length, string_bytes, IfOk, IfErr, OnOk};
ghost use Rattle.std.specs.Option.{option_map};
ghost use Rattle.norm_base.specs.Network.{Network};
ghost use Rattle.norm_base.specs.Octets.{AreOctets};
ghost use Rattle.norm_journal.specs.Follows.{IsLength};
ghost use Rattle.norm_journal.specs.Lines.{no_line, reason_of};
ghost use Rattle.norm_journal.specs.declared.event.Event.TheVariants as event;
ghost use Rattle.norm_script.specs.declared.script.Line.{Line as Command};
ghost use Rattle.norm_script.specs.declared.script.Verb.TheVariants as verb;
ghost use Rattle.norm_journal.specs.Places.{Sending};
ghost use Rattle.norm_journal.specs.Pulling.{origin_of};
ghost use Rattle.norm_world.specs.WorldKept.{WorldKept, IsReady, IsBegun, IsFilling};
ghost use Rattle.norm_turns.specs.Causes.{FilesCause, WriteCause};
ghost use Rattle.norm_session.specs.Commanding.{IsDue, CommandCause, Notes, StopsNoting};
ghost use Rattle.norm_session.specs.Context.{Context};
ghost use Rattle.norm_session.specs.Reading.{IsOfFile, IsFaultOf, HasPart, HasRead, ReadsOn, ReadsJob, AcceptsFile, IsFileGave, octets_at, octets_there, refusal_of};
ghost use Rattle.norm_session.specs.SoFar.{IsTelling};
ghost use Rattle.norm_session.specs.Stopping.{Stopped};

use crate::commanding::{Gives, origin_of, waits_at};
use crate::run::Run;
use norm_base::{FileFault, Files, Memory, Moment, Notice, Octets, Origin, Sink, Text};
use norm_journal::refusal_line;
use norm_script::Line;
use norm_send_rules::{Job, Receipt, SendFault};
use norm_turns::{SessionFault, write_line};
use norm_world::World;
use std::alloc::Global;
use std::marker::Model;

/// What the sender answers to a file.
#[derive(Drop)]
pub(crate) enum FileGave {
    /// It was accepted. If a journal is kept, `job` has the octets that were read.
    Accepted { job: Option<Job>, receipt: Receipt },
    /// It was refused before any octet was read.
    Refused { name: Octets, fault: SendFault },
}

/// The octets of a file that were read already, if they are kept for its job. Otherwise only the sender has them.
#[derive(Drop)]
struct Copied {
    octets: Option<Vec<u8>>,
}

impl Model for Copied {
    ghost use Rattle.std.specs.Prelude.{ℕ, List, Option};
    ghost use Rattle.std.specs.Option.{option_map};

    ghost Value = { Option (List ℕ) };

    ghost view = { λ copied. option_map (λ v. v.items) copied.octets };
}

impl Copied {
    /// No octets yet, with room for `len` of them if they are kept. `Memory` if memory runs out.
    fn of(alloc: Global, keeps: bool, len: u64) -> Result<Copied, Memory>
        ensures { IfOk result (λ copied. copied ≡ octets_at keeps []) }
    {
        if !keeps {
            return Ok(Copied { octets: None });
        }
        let mut octets = Vec::new(alloc);
        // All room before the first read, so that a lack of memory for it is reported before a large file is read in vain.
        octets.reserve(len as usize)?;
        Ok(Copied {
            octets: Some(octets),
        })
    }

    /// Adds the octets that were read next, if they are kept. They fit in the room that [`of`](Copied::of) took.
    fn add(&mut self, piece: &[u8]) -> Result<(), Memory>
        ensures { OnOk result (self.new ≡ option_map (λ (octets : List ℕ). octets ++ piece.now) self.old) }
    {
        match &mut self.octets {
            Some(octets) => {
                octets.extend_from_slice(piece)?;
                Ok(())
            }
            None => Ok(()),
        }
    }

    /// Returns all octets, or `None` if they are not kept.
    fn into_octets(self) -> Option<Octets>
        ensures { result ≡ self }
    {
        match self.octets {
            Some(octets) => Some(Octets::of(octets)),
            None => None,
        }
    }
}

fn string_of(name: &Text) -> Result<String, Memory>
    ensures { IfOk result (λ string. string_bytes string ≡ name.now) }
{
    let copy = name.clone()?;
    Ok(copy.into_inner())
}

/// The fault of a run for a fault of the files. An absent file becomes `Memory` if its name cannot be copied.
fn fault_of(alloc: Global, fault: FileFault, name: &str) -> SessionFault
    ensures { IsFaultOf fault name.now result }
{
    match fault {
        FileFault::Failed => SessionFault::Files,
        FileFault::Absent => match String::from_str(alloc, name) {
            Ok(name) => SessionFault::Absent {
                name: Text::of(name),
            },
            Err(_) => SessionFault::Memory,
        },
    }
}

/// Returns the length of a file in octets.
// Asked each time a file is offered, also while its command waits: the file may change before it is accepted.
// `FolderFiles` may repeat an old length up to 64 times.
fn length_of<D: Files>(alloc: Global, files: &mut D, name: &str) -> Result<u64, SessionFault>
    ensures same { D.contents files.new ≡ D.contents files.old }
    ensures value { IfOk result (λ len. IsLength (D.contents files.old) name.now len) }
    ensures stops { IfErr result (λ fault. IsOfFile (D.contents files.old) name.now fault) }
    ensures cause { FilesCause result (D.fault_count files.old) (D.fault_count files.new) }
{
    match files.length(name) {
        Ok(len) => Ok(len),
        Err(fault) => Err(fault_of(alloc, fault, name)),
    }
}

// Proof: a slice of octets has octets alone.
fn hold_octets(bytes: &[u8])
    ensures { AreOctets bytes.now }
{}

/// Reads the next octets of the file that was begun, at most as many as the buffer holds, and hands them to the world. Returns how many
/// octets were read in all.
fn read_piece<D: Files>(
    alloc: Global,
    world: &mut World,
    files: &mut D,
    name: &str,
    len: u64,
    done: u64,
    buf: &mut [u8],
    copied: &mut Copied,
) -> Result<u64, SessionFault>
    requires room { 0 < length buf.old }
    requires more { done < len }
    requires told { IsLength (D.contents files.old) name.now len }
    requires part { HasPart world.old name.now len done }
    ensures same { D.contents files.new ≡ D.contents files.old }
    ensures begun { IsBegun world.new }
    ensures part { IfOk result (λ done. HasPart world.new name.now len done) }
    ensures goes { OnOk result (ReadsOn world.old world.new (D.contents files.old) name.now len (octets_there world.old) (octets_there world.new)) }
    ensures copies { OnOk result ((keeps : Bool) → copied.old ≡ octets_at keeps (octets_there world.old)
        → copied.new ≡ octets_at keeps (octets_there world.new)) }
    ensures stops { IfErr result (λ fault. IsOfFile (D.contents files.old) name.now fault) }
    ensures cause { FilesCause result (D.fault_count files.old) (D.fault_count files.new) }
{
    let room = buf.len().min((len - done) as usize);
    let buf = &mut buf[..room];
    match files.read_at(name, done, buf) {
        Ok(n) => {
            hold_octets(&buf[..n]);
            copied.add(&buf[..n])?;
            world.file_piece(&buf[..n]);
            Ok(done + n as u64)
        }
        Err(fault) => Err(fault_of(alloc, fault, name)),
    }
}

/// Reads all octets of the file that was begun, in pieces that are at most as long as the buffer, and hands them to the world. Returns the
/// octets if they are kept.
fn read_all<D: Files>(
    alloc: Global,
    world: &mut World,
    files: &mut D,
    name: &str,
    len: u64,
    buf: &mut [u8],
    keeps: bool,
) -> Result<Option<Octets>, SessionFault>
    requires room { 0 < length buf.old }
    requires told { IsLength (D.contents files.old) name.now len }
    requires filling { IsFilling world.old name.now len [] }
    ensures same { D.contents files.new ≡ D.contents files.old }
    ensures begun { IsBegun world.new }
    ensures read { OnOk result (HasRead world.old world.new (D.contents files.old) name.now len (octets_there world.new)) }
    ensures octets { OnOk result (AreOctets (octets_there world.new)) }
    ensures copy { IfOk result (λ copy. copy ≡ octets_at keeps (octets_there world.new)) }
    ensures stops { IfErr result (λ fault. IsOfFile (D.contents files.old) name.now fault) }
    ensures cause { FilesCause result (D.fault_count files.old) (D.fault_count files.new) }
{
    let mut copied = Copied::of(alloc, keeps, len)?;
    let mut done = 0;
    // Proof: the label names the loop for its invariant.
    'pieces: while done < len {
        done = read_piece(alloc, world, files, name, len, done, buf, &mut copied)?;
    }
    Ok(copied.into_octets())
}

/// Returns the job of a file if its octets are kept.
fn job_of_file(alloc: Global, name: &str, octets: Option<Octets>) -> Result<Option<Job>, Memory>
    ensures { IfOk result (λ job. job ≡ option_map (λ (bytes : List ℕ). Job.File name.now bytes) octets) }
{
    match octets {
        Some(bytes) => {
            let name = Octets::of(Vec::from_slice(alloc, name.as_bytes())?);
            Ok(Some(Job::File { name, bytes }))
        }
        None => Ok(None),
    }
}

/// The most octets of one read of a file.
// Our own choice: one read for each symbol would cost a call of the system each, or a copy out of what was read ahead.
const PIECE: u64 = 262_144;

/// Returns how many octets the buffer for a file of this length has: as many as the file, and [`PIECE`] at most.
fn room_for(len: u64) -> usize
    ensures { 0 < result }
{
    // At least one, so that the reads of any file end.
    len.min(PIECE).max(1) as usize
}

/// Reads a file that was begun, in pieces of at most [`PIECE`]. Returns the job for the journal if its octets are kept.
fn read_job<D: Files>(
    alloc: Global,
    world: &mut World,
    files: &mut D,
    name: &str,
    len: u64,
    keeps: bool,
) -> Result<Option<Job>, SessionFault>
    requires told { IsLength (D.contents files.old) name.now len }
    requires filling { IsFilling world.old name.now len [] }
    ensures same { D.contents files.new ≡ D.contents files.old }
    ensures begun { IsBegun world.new }
    ensures read { IfOk result (λ job. ReadsJob world.old world.new (D.contents files.old) name.now len keeps job) }
    ensures stops { IfErr result (λ fault. IsOfFile (D.contents files.old) name.now fault) }
    ensures cause { FilesCause result (D.fault_count files.old) (D.fault_count files.new) }
{
    let mut buf = vec![in alloc; 0u8; room_for(len)]?;
    let octets = read_all(alloc, world, files, name, len, &mut buf, keeps)?;
    let job = job_of_file(alloc, name, octets)?;
    Ok(job)
}

/// Reads a file that was begun and adds it to the transport order. If reading fails or memory runs out, the file is given up.
fn accept_file<D: Files>(
    alloc: Global,
    world: &mut World,
    files: &mut D,
    by: Origin,
    name: &str,
    len: u64,
    now: Moment,
    keeps: bool,
) -> Result<FileGave, SessionFault>
    requires told { IsLength (D.contents files.old) name.now len }
    requires filling { IsFilling world.old name.now len [] }
    ensures ready { IsReady world.new }
    ensures profile { IfOk result (λ _. world.new.p ≡ world.old.p) }
    ensures same { D.contents files.new ≡ D.contents files.old }
    ensures gave { IfOk result (λ gave. AcceptsFile world.old world.new (D.contents files.old) by name.now len now keeps gave) }
    ensures stops { IfErr result (λ fault. IsOfFile (D.contents files.old) name.now fault) }
    ensures cause { FilesCause result (D.fault_count files.old) (D.fault_count files.new) }
{
    match read_job(alloc, world, files, name, len, keeps) {
        Ok(job) => {
            let receipt = world.end_file(by, now);
            Ok(FileGave::Accepted { job, receipt })
        }
        Err(fault) => {
            // The sender's condition is that no file is begun. The session ends with the fault all the same.
            world.leave_file();
            Err(fault)
        }
    }
}

/// The answer for a file that was not begun. If the sender did not give the name back, memory ran out.
fn refusal_of(back: Option<Octets>, fault: SendFault) -> Result<FileGave, SessionFault>
    ensures { result ≡ refusal_of back fault }
{
    match back {
        Some(name) => Ok(FileGave::Refused { name, fault }),
        // The sender gives the name back with every refusal except `Memory`.
        None => Err(SessionFault::Memory),
    }
}

/// Offers a file to the sender, and reads it unless the sender refuses it. If `keeps` is true, the octets are
/// kept for the job in the journal.
fn offer_file<D: Files>(
    alloc: Global,
    world: &mut World,
    files: &mut D,
    by: Origin,
    name: &str,
    len: u64,
    now: Moment,
    keeps: bool,
) -> Result<FileGave, SessionFault>
    requires ready { IsReady world.old }
    requires told { IsLength (D.contents files.old) name.now len }
    ensures ready { IsReady world.new }
    ensures profile { IfOk result (λ _. world.new.p ≡ world.old.p) }
    ensures same { D.contents files.new ≡ D.contents files.old }
    ensures gave { IfOk result (λ gave. IsFileGave world.old world.new (D.contents files.old) by name.now len now keeps gave) }
    ensures stops { IfErr result (λ fault. IsOfFile (D.contents files.old) name.now fault) }
    ensures cause { FilesCause result (D.fault_count files.old) (D.fault_count files.new) }
{
    let copy = Octets::of(Vec::from_slice(alloc, name.as_bytes())?);
    match world.begin_file(copy, len) {
        Ok(()) => accept_file(alloc, world, files, by, name, len, now, keeps),
        Err((back, fault)) => refusal_of(back, fault),
    }
}

impl Run {
    /// Notes a file that the sender refused before any octet was read, and writes the refusal's line if it has one.
    fn note_length<K: Sink>(
        &mut self,
        by: Origin,
        place: usize,
        name: Octets,
        len: u64,
        fault: SendFault,
        output: &mut K,
    ) -> Result<(), SessionFault>
        ensures goes { OnOk result ((line : Command) → Notes self.old self.new place line (event.Length by name len fault) (Err fault)
            (option_map (no_line by) (reason_of fault)) (K.pieces output.old) (K.pieces output.new)) }
        ensures stops { IfErr result (λ stop. (line : Command) → StopsNoting self.old stop place line (event.Length by name len fault) (Err fault)
            (option_map (no_line by) (reason_of fault)) (K.pieces output.old) (K.pieces output.new)) }
        ensures cause { WriteCause result (K.fault_count output.old) (K.fault_count output.new) }
    {
        let has = refusal_line(&mut self.line, by, &fault)?;
        let gave: Gives = Err(fault);
        self.waiting = waits_at(place, &gave);
        self.journal.push_length(by, name, len, fault)?;
        write_line(has, &self.line, &Notice::Other, output)
    }

    /// Offers the command of a file: asks its length, and reads its octets in pieces if the sender accepts it.
    pub(crate) fn give_file<K: Sink, D: Files>(
        &mut self,
        line: &Line,
        name: &Text,
        place: usize,
        files: &mut D,
        output: &mut K,
    ) -> Result<(), SessionFault>
        requires { line.now.verb ≡ verb.File name.now }
        ensures goes { OnOk result ((x : Context) (network : Network) (first : Bool) → x.files ≡ D.contents files.old
            → IsDue x self.old place line.now first network (K.pieces output.old) → IsTelling x self.new Sending network (K.pieces output.new)) }
        ensures stops { IfErr result (λ fault. (x : Context) (network : Network) (first : Bool) → x.files ≡ D.contents files.old
            → IsDue x self.old place line.now first network (K.pieces output.old) → Stopped x fault network (K.pieces output.new)) }
        ensures same { D.contents files.new ≡ D.contents files.old }
        ensures cause { CommandCause result (K.fault_count output.old) (K.fault_count output.new) (D.fault_count files.old) (D.fault_count files.new) }
    {
        let name = string_of(name)?;
        let by = origin_of(line);
        let instance = self.world.sender().instance();
        let keeps = self.journal.is_kept();
        let len = length_of(self.alloc, files, name.as_str())?;
        match offer_file(
            self.alloc,
            &mut self.world,
            files,
            by,
            name.as_str(),
            len,
            self.now,
            keeps,
        )? {
            FileGave::Accepted { job, receipt } => {
                self.note_job(line, place, instance, job, Ok(receipt), output)
            }
            FileGave::Refused { name, fault } => {
                self.note_length(by, place, name, len, fault, output)
            }
        }
    }
}
