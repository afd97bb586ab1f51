//! The command of a turn: [`Run::command`] pulls the next line from the producers, and offers it to the sender. If the sender has no room
//! for it, the command waits, and is offered again in each turn while it waits.

ghost use Rattle.std.specs.Prelude.{◌≡◌, ◌≢◌, ◌<◌, true, false, None, Some, Err, Option, length, IfOk, IfErr, IfNone, IfSome, OnOk};
ghost use Rattle.norm_base.specs.Network.{Network};
ghost use Rattle.norm_base.specs.Told.{Pieces};
ghost use Rattle.norm_journal.specs.Jobs.{job_of};
ghost use Rattle.norm_journal.specs.Lines.{gave_line};
ghost use Rattle.norm_journal.specs.Places.{Pulling, Sending, command_due};
ghost use Rattle.norm_journal.specs.Pulling.{origin_of};
ghost use Rattle.norm_journal.specs.Totals.{with_gave};
ghost use Rattle.norm_journal.specs.declared.event.Event.TheVariants as event;
ghost use Rattle.norm_safety.specs.Events.{Commanded, Gave};
ghost use Rattle.norm_sender.specs.Commands.{answer_of};
ghost use Rattle.norm_world.specs.WorldKept.{IsReady};
ghost use Rattle.norm_world.specs.WorldMoves.{IsEvent};
ghost use Rattle.norm_turns.specs.Causes.{WriteCause, NeedsMemory};
ghost use Rattle.norm_session.specs.Commanding.{IsDue, IsAtLine, CommandCause, Notes, StopsNoting, told_at, waits_at, within_lines};
ghost use Rattle.norm_session.specs.Context.{Context};
ghost use Rattle.norm_session.specs.Left.{lines_at};
ghost use Rattle.norm_session.specs.Noting.{IsAtHand};
ghost use Rattle.norm_session.specs.SoFar.{At, IsTelling};
ghost use Rattle.norm_session.specs.Stopping.{Stopped};
ghost use Rattle.norm_session.specs.Turning.{IsOver, command_next};

use crate::arrivals::{Arrivals, Arrived};
use crate::run::Run;
use norm_base::{Files, InstanceId, Memory, Moment, Octets, Origin, Sink};
use norm_journal::{Totals, gave_line};
use norm_order::copy_of_octets;
use norm_script::{Line, Script, Verb};
use norm_send_rules::{Job, Receipt, SendFault, copy_of_job};
use norm_turns::{SessionFault, gave_notice, write_line};
use norm_world::World;
use std::sync::Wait;
use std::thread;

/// What the sender answers to a command, without the job that a refusal gives back.
pub(crate) type Gives = Result<Receipt, SendFault>;

/// The name of a line's command: its producer, and that producer's number of it.
pub(crate) fn origin_of(line: &Line) -> Origin
    ensures { result ≡ origin_of line.now }
{
    Origin {
        producer: line.producer,
        number: line.number,
    }
}

/// The job of a data object, with a copy of its octets.
fn data_of(info: &Option<Octets>, bytes: &Octets) -> Result<Job, Memory>
    ensures { IfOk result (λ job. job ≡ Job.Data info.now bytes.now) }
{
    let bytes = copy_of_octets(bytes)?;
    match info {
        Some(info) => {
            let info = copy_of_octets(info)?;
            Ok(Job::Data {
                info: Some(info),
                bytes,
            })
        }
        None => Ok(Job::Data { info: None, bytes }),
    }
}

/// The job of a write, with a copy of its octets.
fn write_of(bytes: &Octets) -> Result<Job, Memory>
    ensures { IfOk result (λ job. job ≡ Job.Write bytes.now) }
{
    let bytes = copy_of_octets(bytes)?;
    Ok(Job::Write { bytes })
}

/// Returns the job of a command, with a copy of its octets, or `None` if the command names a file.
///
/// # Errors
///
/// `Memory` if memory runs out.
// A copy for each offer, since the sender takes the job.
fn job_of(verb: &Verb) -> Result<Option<Job>, Memory>
    ensures job { IfOk result (λ job. job ≡ job_of verb.now) }
{
    match verb {
        Verb::Data { info, bytes } => {
            let job = data_of(info, bytes)?;
            Ok(Some(job))
        }
        Verb::File { .. } => Ok(None),
        Verb::Open => Ok(Some(Job::Open)),
        Verb::Write { bytes } => {
            let job = write_of(bytes)?;
            Ok(Some(job))
        }
        Verb::Close => Ok(Some(Job::Close)),
        Verb::Mark { quorum } => Ok(Some(Job::Mark { quorum: *quorum })),
        Verb::Restart { instance } => Ok(Some(Job::Restart {
            instance: InstanceId(*instance),
        })),
        Verb::Strike { node } => Ok(Some(Job::Strike { node: *node })),
    }
}

/// Returns a copy of the job for the journal if `tells` is true. `Memory` if memory runs out.
fn told_of(tells: bool, job: &Job) -> Result<Option<Job>, Memory>
    ensures { IfOk result (λ told. told ≡ told_at tells job.now) }
{
    if !tells {
        return Ok(None);
    }
    let copy = copy_of_job(job)?;
    Ok(Some(copy))
}

/// Drops the job of a refused command: each offer makes another copy.
fn without_job(answer: Result<Receipt, (Option<Job>, SendFault)>) -> Gives
    ensures { result ≡ answer_of answer }
{
    match answer {
        Ok(receipt) => Ok(receipt),
        Err((_back, fault)) => Err(fault),
    }
}

/// Whether the sender refused a command because memory ran out.
fn lacks_memory(gave: &Gives) -> bool
    ensures { result ≡ false → gave.now ≢ Err SendFault.Memory }
{
    match gave {
        Ok(_) => false,
        Err(fault) => match fault {
            SendFault::Memory => true,
            SendFault::Enqueue(_)
            | SendFault::Mark(_)
            | SendFault::Strike(_)
            | SendFault::IdUsed { .. } => false,
        },
    }
}

/// Offers a job to the sender, and returns its answer. If the sender ran out of memory, that is the error `Memory`.
fn offer_job(world: &mut World, by: Origin, job: Job, now: Moment) -> Result<Gives, Memory>
    requires ready { IsReady world.old }
    ensures profile { world.new.p ≡ world.old.p }
    ensures ready { IsReady world.new }
    ensures gives { IfOk result (λ gave. IsEvent world.old world.new (Commanded by job now) (λ answer. answer ≡ Gave gave)) }
{
    let answer = world.job(by, job, now);
    let gave = without_job(answer);
    if lacks_memory(&gave) {
        return Err(Memory);
    }
    Ok(gave)
}

/// Counts an object or a stream that the sender accepted, and the octets of an object or a write.
///
/// # Errors
///
/// `Memory` if a count does not fit 64 bits.
fn count(totals: &mut Totals, gave: &Gives) -> Result<(), Memory>
    ensures { OnOk result (totals.new ≡ with_gave gave.now totals.old) }
{
    // The counts are exact, so one that does not fit 64 bits ends the run with `Memory`. No script has lines enough for that.
    if !totals.has_room_for_gave(gave) {
        return Err(Memory);
    }
    totals.count_gave(gave);
    Ok(())
}

/// Returns the index of the line if its command waits after this answer: the sender only had no room for it.
pub(crate) fn waits_at(place: usize, gave: &Gives) -> Option<usize>
    ensures { result ≡ waits_at place gave.now }
{
    match gave {
        Ok(_) => None,
        Err(fault) => { if fault.may_wait() { Some(place) } else { None } }
    }
}

/// Returns the index of the waiting line if the script has such a line.
fn within_lines(waiting: Option<usize>, lines: usize) -> Option<usize>
    ensures same { result ≡ within_lines waiting lines }
    ensures within { IfSome result (λ place. place < lines) }
{
    match waiting {
        Some(place) => { if place < lines { Some(place) } else { None } }
        None => None,
    }
}

impl Run {
    /// Pulls a line that was handed over, if it is the next one of its producer, and returns its index. Otherwise passes over it and
    /// returns `None`.
    fn pull_one(&mut self, script: &Script, arrived: Arrived) -> Result<Option<usize>, SessionFault>
        ensures place { IfOk result (λ pulled. IfSome pulled (λ place. place < length script.now.lines)) }
        ensures goes { IfOk result (λ pulled. IfSome pulled (λ place. (x : Context) (network : Network) (written : Pieces) → x.script ≡ script.now
            → At x self.old Pulling network written → IsAtLine x self.new place true network written)) }
        ensures same { IfOk result (λ pulled. IfNone pulled (self.new ≡ self.old)) }
        ensures stops { IfErr result (λ fault. (x : Context) (network : Network) (written : Pieces) → At x self.old Pulling network written
            → Stopped x fault network written) }
        ensures cause { NeedsMemory result }
    {
        let place = arrived.place as usize;
        // A producer may hand over any number: what is no index of a line is passed over, so the clause needs no fact about the ring.
        if place >= script.lines.len() {
            return Ok(None);
        }
        if !self.left.take(&script.lines, arrived.producer, place) {
            return Ok(None);
        }
        self.journal.push_pull(origin_of(&script.lines[place]))?;
        Ok(Some(place))
    }

    /// Pulls the next line and returns its index in the script. Waits until a producer has handed over its next line, for ever if none
    /// does.
    ///
    /// # Errors
    ///
    /// `Memory` if memory runs out.
    pub fn pull<R: Wait, A: Arrivals>(
        &mut self,
        rt: &R,
        script: &Script,
        arrivals: &mut A,
    ) -> Result<usize, SessionFault>
        ensures place { IfOk result (λ place. place < length script.now.lines) }
        ensures goes { IfOk result (λ place. (x : Context) (network : Network) (written : Pieces) → x.script ≡ script.now
            → At x self.old Pulling network written → IsAtLine x self.new place true network written) }
        ensures stops { IfErr result (λ fault. (x : Context) (network : Network) (written : Pieces) → At x self.old Pulling network written
            → Stopped x fault network written) }
        ensures cause { NeedsMemory result }
    {
        // Proof: the label names the loop for its invariant.
        'tries: for _ in rt.forever() {
            let Some(arrived) = arrivals.arrive() else {
                thread::yield_now();
                continue;
            };
            if let Some(place) = self.pull_one(script, arrived)? {
                return Ok(place);
            }
        }
        // `forever` does not end; the loop does by its return.
        unreachable!()
    }

    /// Counts and notes what the sender gave to a command, and writes its line if it has one. `job` is for the journal, if one is kept.
    pub(crate) fn note_job<K: Sink>(
        &mut self,
        line: &Line,
        place: usize,
        instance: InstanceId,
        job: Option<Job>,
        gave: Gives,
        output: &mut K,
    ) -> Result<(), SessionFault>
        ensures goes { OnOk result ((told : Option Job) → IsAtHand self.old.journal job told
            → Notes self.old self.new place line.now (event.Job (origin_of line.now) told gave) gave
            (gave_line (origin_of line.now) instance line.now.verb gave) (K.pieces output.old) (K.pieces output.new)) }
        ensures stops { IfErr result (λ fault. (told : Option Job)
            → StopsNoting self.old fault place line.now (event.Job (origin_of line.now) told gave) gave
            (gave_line (origin_of line.now) instance line.now.verb gave) (K.pieces output.old) (K.pieces output.new)) }
        ensures cause { WriteCause result (K.fault_count output.old) (K.fault_count output.new) }
    {
        let by = origin_of(line);
        let has = gave_line(&mut self.line, by, instance, &line.verb, &gave)?;
        count(&mut self.totals, &gave)?;
        // Noted and counted before the line is written: after the write nothing can fail, so no printed line lacks its event.
        self.waiting = waits_at(place, &gave);
        let notice = gave_notice(&gave);
        self.journal.push_job(by, job, gave)?;
        write_line(has, &self.line, &notice, output)
    }

    /// Offers a command that names no file to the sender as this job, and notes the answer.
    fn give_job<K: Sink>(
        &mut self,
        line: &Line,
        place: usize,
        first: bool,
        job: Job,
        output: &mut K,
    ) -> Result<(), SessionFault>
        requires job { job_of line.now.verb ≡ Some job }
        ensures goes { OnOk result ((x : Context) (network : Network) → IsDue x self.old place line.now first network (K.pieces output.old)
            → IsTelling x self.new Sending network (K.pieces output.new)) }
        ensures stops { IfErr result (λ fault. (x : Context) (network : Network) → IsDue x self.old place line.now first network (K.pieces output.old)
            → Stopped x fault network (K.pieces output.new)) }
        ensures cause { WriteCause result (K.fault_count output.old) (K.fault_count output.new) }
    {
        let told = told_of(self.journal.tells(first), &job)?;
        let instance = self.world.sender().instance();
        let gave = offer_job(&mut self.world, origin_of(line), job, self.now)?;
        self.note_job(line, place, instance, told, gave, output)
    }

    /// Offers the command of the line with this index, for the first time or again.
    fn offer_command<K: Sink, D: Files>(
        &mut self,
        script: &Script,
        place: usize,
        first: bool,
        files: &mut D,
        output: &mut K,
    ) -> Result<(), SessionFault>
        requires { place < length script.now.lines }
        ensures goes { OnOk result ((x : Context) (network : Network) → IsOver x script.now (D.contents files.old)
            → IsAtLine x self.old place first network (K.pieces output.old) → IsTelling x self.new Sending network (K.pieces output.new)) }
        ensures stops { IfErr result (λ fault. (x : Context) (network : Network) → IsOver x script.now (D.contents files.old)
            → IsAtLine x self.old place first network (K.pieces output.old) → Stopped x fault network (K.pieces output.new)) }
        ensures same { D.contents files.new ≡ D.contents files.old }
        ensures cause { CommandCause result (K.fault_count output.old) (K.fault_count output.new) (D.fault_count files.old) (D.fault_count files.new) }
    {
        let line = &script.lines[place];
        if let Verb::File { name } = &line.verb {
            return self.give_file(line, name, place, files, output);
        }
        match job_of(&line.verb)? {
            Some(job) => self.give_job(line, place, first, job, output),
            // Proof: only a file has its octets elsewhere.
            None => Err(SessionFault::Memory),
        }
    }

    /// Pulls and offers the next command if one is left. Call it only if none waits.
    fn next_command<R: Wait, A: Arrivals, K: Sink, D: Files>(
        &mut self,
        rt: &R,
        script: &Script,
        arrivals: &mut A,
        files: &mut D,
        output: &mut K,
    ) -> Result<(), SessionFault>
        ensures goes { OnOk result ((x : Context) (network : Network) → IsOver x script.now (D.contents files.old)
            → At x self.old (command_due None (lines_at script.now.lines self.old.left)) network (K.pieces output.old)
            → IsTelling x self.new Sending network (K.pieces output.new)) }
        ensures stops { IfErr result (λ fault. (x : Context) (network : Network) → IsOver x script.now (D.contents files.old)
            → At x self.old (command_due None (lines_at script.now.lines self.old.left)) network (K.pieces output.old)
            → Stopped x fault network (K.pieces output.new)) }
        ensures same { D.contents files.new ≡ D.contents files.old }
        ensures cause { CommandCause result (K.fault_count output.old) (K.fault_count output.new) (D.fault_count files.old) (D.fault_count files.new) }
    {
        if self.has_pulled_all(script) {
            return Ok(());
        }
        let place = self.pull(rt, script, arrivals)?;
        self.offer_command(script, place, true, files, output)
    }

    /// Does the command of a turn: offers the one that waits again, or else pulls and offers the next, if one is left.
    ///
    /// # Errors
    ///
    /// `Write` if the write of the command's line failed, `Files` if a call of the files failed, `Absent` if the command's file is not
    /// there, or `Memory` if memory runs out or a count does not fit 64 bits.
    pub fn command<R: Wait, A: Arrivals, K: Sink, D: Files>(
        &mut self,
        rt: &R,
        script: &Script,
        arrivals: &mut A,
        files: &mut D,
        output: &mut K,
    ) -> Result<(), SessionFault>
        ensures goes { OnOk result ((x : Context) (network : Network) → IsOver x script.now (D.contents files.old)
            → At x self.old (command_next x self.old) network (K.pieces output.old) → IsTelling x self.new Sending network (K.pieces output.new)) }
        ensures stops { IfErr result (λ fault. (x : Context) (network : Network) → IsOver x script.now (D.contents files.old)
            → At x self.old (command_next x self.old) network (K.pieces output.old) → Stopped x fault network (K.pieces output.new)) }
        ensures same { D.contents files.new ≡ D.contents files.old }
        ensures cause { CommandCause result (K.fault_count output.old) (K.fault_count output.new) (D.fault_count files.old) (D.fault_count files.new) }
    {
        match within_lines(self.waiting, script.lines.len()) {
            Some(place) => self.offer_command(script, place, false, files, output),
            None => self.next_command(rt, script, arrivals, files, output),
        }
    }
}
