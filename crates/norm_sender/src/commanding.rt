//! Passes each command to its rule (RFC 5740 section 5.1).

ghost use Rattle.std.specs.Prelude.{ℕ, ◌≡◌, ◌≢◌, List, [], length, Some, Err, IfOk, IfErr, IsErr};
ghost use Rattle.norm_base.specs.Settings.{InRange};
ghost use Rattle.norm_base.specs.declared.node.Origin.{Origin};
ghost use Rattle.norm_send_rules.specs.SenderState.{SenderState};
ghost use Rattle.norm_send_rules.specs.Commanding.{commanded};
ghost use Rattle.norm_send_rules.specs.declared.fault.SendFault.TheVariants as send_fault;
ghost use Rattle.norm_send_rules.specs.declared.job.Job.TheVariants as job;
ghost use Rattle.norm_sender.specs.Commands.{open_refusal, mark_refusal, GivesBack, Obeys};
ghost use Rattle.norm_sender.specs.SenderKept.{Agrees};
ghost use Rattle.norm_sender.specs.Filling.{Fills, file_of};
ghost use Rattle.norm_sender.specs.Inside.{kept_of};
ghost use Rattle.norm_sender.specs.Wanted.{IsStanding};

use crate::parts::{Parts, hold_range};
use norm_base::{InstanceId, Kind, NodeId, Octets};
use norm_send_rules::{EnqueueFault, Job, MarkFault, Receipt, SendFault};

/// The receipt of a command, or the command and the fault. The command is `None` if memory ran out.
pub(crate) type Answer = Result<Receipt, (Option<Job>, SendFault)>;

/// Returns the opening and why it was refused, or `Memory` alone.
fn open_refusal(fault: EnqueueFault) -> (Option<Job>, SendFault)
    ensures { result ≡ open_refusal fault }
{
    match fault {
        EnqueueFault::Memory => (None, SendFault::Memory),
        EnqueueFault::Empty
        | EnqueueFault::TooBig { .. }
        | EnqueueFault::InfoTooBig { .. }
        | EnqueueFault::StreamOpen { .. }
        | EnqueueFault::NoStream
        | EnqueueFault::IdsSpent
        | EnqueueFault::Stream(_)
        | EnqueueFault::WindowFull { .. } => (Some(Job::Open), SendFault::Enqueue(fault)),
    }
}

/// Returns the mark and why it was refused, or `Memory` alone.
fn mark_refusal(quorum: Option<u32>, fault: MarkFault) -> (Option<Job>, SendFault)
    ensures { result ≡ mark_refusal quorum fault }
{
    match fault {
        MarkFault::Memory => (None, SendFault::Memory),
        MarkFault::Quorum { .. } | MarkFault::NothingEnqueued | MarkFault::TooMany { .. } => {
            (Some(Job::Mark { quorum }), SendFault::Mark(fault))
        }
    }
}

impl Parts {
    fn enqueue_data(&mut self, info: Option<Octets>, bytes: Octets) -> Answer
        requires { IsStanding (kept_of self.old) }
        ensures profile { self.new.profile ≡ self.old.profile }
        ensures obeys { Obeys (kept_of self.old) (kept_of self.new) (job.Data info bytes) result }
    {
        match self.enqueue(Kind::Data, info, bytes) {
            Ok(receipt) => Ok(receipt),
            Err((back, fault)) => match back {
                Some((info, bytes)) => {
                    Err((Some(Job::Data { info, bytes }), SendFault::Enqueue(fault)))
                }
                // `Memory`: the one fault with which the octets do not come back.
                None => Err((None, SendFault::Memory)),
            },
        }
    }

    /// Enqueues a file. Its name is the object's info.
    fn enqueue_file(&mut self, name: Octets, bytes: Octets) -> Answer
        requires { IsStanding (kept_of self.old) }
        ensures profile { self.new.profile ≡ self.old.profile }
        ensures obeys { Obeys (kept_of self.old) (kept_of self.new) (job.File name bytes) result }
    {
        match self.enqueue(Kind::File, Some(name), bytes) {
            Ok(receipt) => Ok(receipt),
            Err((back, fault)) => match back {
                Some((info, bytes)) => match info {
                    Some(name) => Err((Some(Job::File { name, bytes }), SendFault::Enqueue(fault))),
                    // Not taken: the info comes back as it was given, and a file has its name for one. `Memory` is the one answer that needs no
                    // command.
                    None => Err((None, SendFault::Memory)),
                },
                None => Err((None, SendFault::Memory)),
            },
        }
    }

    /// Begins a file of `len` octets. Its name is the object's info.
    pub(crate) fn begin_file(
        &mut self,
        name: Octets,
        len: u64,
    ) -> Result<(), (Option<Octets>, SendFault)>
        requires { IsStanding (kept_of self.old) }
        ensures range { InRange self.old.profile }
        ensures profile { self.new.profile ≡ self.old.profile }
        ensures filling { IfOk result (λ _. self.new.window.filling ≡ Some (file_of name len [])) }
        ensures begun { IfOk result (λ _. (s : SenderState) → Agrees (kept_of self.old) s → Fills (kept_of self.new) s (file_of name len [])) }
        ensures refused { IfErr result (λ refusal. (s : SenderState) (by : Origin) (octets : List ℕ) → Agrees (kept_of self.old) s
            → length octets ≡ len → refusal.1 ≢ send_fault.Memory → commanded self.old.profile s by (job.File name octets) ≡ (s, Err refusal.1)) }
        ensures back { IfErr result (λ refusal. GivesBack name refusal) }
        ensures same { IsErr result → kept_of self.new ≡ kept_of self.old }
    {
        match self.begin(Kind::File, Some(name), len) {
            Ok(()) => Ok(()),
            Err((back, fault)) => match back {
                Some(info) => match info {
                    Some(name) => Err((Some(name), SendFault::Enqueue(fault))),
                    // Not taken, as in `enqueue_file`.
                    None => Err((None, SendFault::Memory)),
                },
                None => Err((None, SendFault::Memory)),
            },
        }
    }

    fn mark_for(&mut self, quorum: Option<u32>) -> Answer
        requires { IsStanding (kept_of self.old) }
        ensures profile { self.new.profile ≡ self.old.profile }
        ensures obeys { Obeys (kept_of self.old) (kept_of self.new) (job.Mark quorum) result }
    {
        match self.mark(quorum) {
            Ok(receipt) => Ok(receipt),
            Err(fault) => Err(mark_refusal(quorum, fault)),
        }
    }

    fn restart_in(&mut self, instance: InstanceId) -> Answer
        requires { IsStanding (kept_of self.old) }
        ensures profile { self.new.profile ≡ self.old.profile }
        ensures obeys { Obeys (kept_of self.old) (kept_of self.new) (job.Restart instance) result }
    {
        match self.restart(instance) {
            Ok(receipt) => Ok(receipt),
            Err(fault) => Err((Some(Job::Restart { instance }), fault)),
        }
    }

    fn strike_off(&mut self, node: NodeId) -> Answer
        ensures profile { self.new.profile ≡ self.old.profile }
        ensures obeys { Obeys (kept_of self.old) (kept_of self.new) (job.Strike node) result }
    {
        match self.strike(node) {
            Ok(receipt) => Ok(receipt),
            Err(fault) => Err((Some(Job::Strike { node }), SendFault::Strike(fault))),
        }
    }

    fn open_up(&mut self) -> Answer
        requires { IsStanding (kept_of self.old) }
        ensures profile { self.new.profile ≡ self.old.profile }
        ensures obeys { Obeys (kept_of self.old) (kept_of self.new) job.Open result }
    {
        match self.open() {
            Ok(receipt) => Ok(receipt),
            Err(fault) => Err(open_refusal(fault)),
        }
    }

    fn write_all(&mut self, bytes: Octets) -> Answer
        requires { IsStanding (kept_of self.old) }
        ensures profile { self.new.profile ≡ self.old.profile }
        ensures obeys { Obeys (kept_of self.old) (kept_of self.new) (job.Write bytes) result }
    {
        match self.write(bytes.bytes()) {
            Ok(receipt) => Ok(receipt),
            Err(fault) => Err((Some(Job::Write { bytes }), SendFault::Enqueue(fault))),
        }
    }

    fn close_off(&mut self) -> Answer
        requires { IsStanding (kept_of self.old) }
        ensures profile { self.new.profile ≡ self.old.profile }
        ensures obeys { Obeys (kept_of self.old) (kept_of self.new) job.Close result }
    {
        match self.close() {
            Ok(receipt) => Ok(receipt),
            Err(fault) => Err((Some(Job::Close), SendFault::Enqueue(fault))),
        }
    }

    /// Obeys a command. A refusal gives back the command as it came, without a copy, unless memory ran out.
    pub(crate) fn command(&mut self, job: Job) -> Answer
        requires { IsStanding (kept_of self.old) }
        ensures range { InRange self.old.profile }
        ensures profile { self.new.profile ≡ self.old.profile }
        ensures obeys { Obeys (kept_of self.old) (kept_of self.new) job result }
    {
        hold_range(&self.profile);
        // Proof: each arm ensures Obeys of its own command, so the match needs no answer.
        match job {
            Job::Data { info, bytes } => self.enqueue_data(info, bytes),
            Job::File { name, bytes } => self.enqueue_file(name, bytes),
            Job::Open => self.open_up(),
            Job::Write { bytes } => self.write_all(bytes),
            Job::Close => self.close_off(),
            Job::Mark { quorum } => self.mark_for(quorum),
            Job::Restart { instance } => self.restart_in(instance),
            Job::Strike { node } => self.strike_off(node),
        }
    }
}
