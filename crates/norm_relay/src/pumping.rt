//! Pumping: what waits becomes jobs of the session below, and its members are asked to confirm it.

ghost use Rattle.std.specs.Prelude.{◌≡◌, ◌≢◌, ◌+◌, ◌%◌, List, map, Err, IfOk, IfErr, IsSome, if◌then◌else◌};
ghost use Rattle.norm_ext.specs.Written.{Written};
ghost use Rattle.norm_order.specs.declared.up.Up.{Up as HandUp};
ghost use Rattle.norm_relay.specs.Offering.{offers, IsOffered, IsRefused, IsEnqueued, stop_of, without_receipt, given_struck};
ghost use Rattle.norm_relay.specs.Pumping.{Emptied, commands, enqueues, begins_anew, marks_for, marks_for_room, asks_for, asks, pumped, stop_by, told_of, told_unless};
ghost use Rattle.norm_relay.specs.RelayKept.{RelayKept, Agrees, StandsFor, IsReady, below, holding, having};
ghost use Rattle.norm_relay.specs.RelayState.{Relaying};
ghost use Rattle.norm_relay.specs.Waiting.{waiting_of};
ghost use Rattle.norm_relay.specs.declared.waiting.Waiting.TheVariants as waits;
ghost use Rattle.norm_send_rules.specs.declared.fault.SendFault.TheVariants as fault;
ghost use Rattle.norm_send_rules.specs.declared.job.Job.TheVariants as job;
ghost use Rattle.norm_sender.specs.Commands.{answer_of, GivesBack};

use crate::ticking::{ACK_LEN, Held, is_past};
use crate::waiting::{Waiting, job_opens};
use norm_base::{ID_COUNT, InstanceId, Memory, Moment, NodeId, Origin};
use norm_send_rules::{Job, Receipt, SendFault};
use norm_sender::Sender;
use std::collections::VecDeque;

/// The producer of all jobs of a relay. Our own choice: nobody else gives jobs to its sender.
const PRODUCER: u32 = 1;

/// The sender of the session below, and what the relay knows of what it enqueued there.
#[derive(Debug, Drop)]
pub struct Lower {
    pub sender: Sender,
    /// What was enqueued leaves a stream open.
    pub opened: bool,
    /// How many jobs were accepted.
    pub jobs: u64,
}

/// Why enqueuing ended.
#[derive(Clone, Copy)]
pub(crate) enum Stop {
    /// Nothing waits any more.
    Emptied,
    /// The session below has no room yet.
    Crowded,
    /// The session below refused a job for good.
    Refused { fault: SendFault },
}

/// What became of the first hand-up that waited.
#[derive(Drop)]
pub(crate) enum Offer {
    /// It is done with, after this many jobs: one, or none if it is a loss of nothing.
    Done { jobs: u32 },
    /// Its job was refused, and it waits again.
    Refused { first: Waiting, fault: SendFault },
}

/// What enqueuing led to: how many jobs were accepted, and why it ended.
#[derive(Clone, Copy)]
pub(crate) struct Enqueued {
    pub jobs: u32,
    pub stop: Stop,
}

fn counted(accepted: bool, number: u64, before: u64) -> u64
    ensures { result ≡ (if accepted then number else before) }
{
    if accepted {
        return number;
    }
    before
}

fn sum(jobs: u32, more: u32) -> Result<u32, Memory>
    ensures { IfOk result (λ sum. sum ≡ jobs + more) }
{
    match jobs.checked_add(more) {
        Some(sum) => Ok(sum),
        None => Err(Memory),
    }
}

/// The instance after this one. It goes round at 65,536 (RFC 5740 section 4.2.1).
fn next_id(id: InstanceId) -> InstanceId
    ensures { result ≡ (id + 1) % 65536 }
{
    InstanceId(((u32::from(id.0) + 1) % ID_COUNT) as u16)
}

fn stop_by(fault: SendFault) -> Stop
    ensures { stop_of result ≡ stop_by fault }
{
    if fault.may_wait() {
        return Stop::Crowded;
    }
    Stop::Refused { fault }
}

fn told_unless(jobs: u32, refused: Option<SendFault>) -> Result<u32, SendFault>
    ensures { result ≡ told_unless jobs refused }
{
    match refused {
        Some(fault) => Err(fault),
        None => Ok(jobs),
    }
}

fn told_of(jobs: u32, stop: Stop, refused: Option<SendFault>) -> Result<u32, SendFault>
    ensures { result ≡ told_of jobs (stop_of stop) refused }
{
    match stop {
        Stop::Emptied => told_unless(jobs, refused),
        Stop::Crowded => told_unless(jobs, refused),
        Stop::Refused { fault } => Err(fault),
    }
}

fn without_receipt(answer: Result<Receipt, SendFault>) -> Result<(), SendFault>
    ensures { result ≡ without_receipt answer }
{
    match answer {
        Ok(_) => Ok(()),
        Err(fault) => Err(fault),
    }
}

/// Returns the fault of a refusal, without the job.
///
/// # Errors
///
/// `Memory` if there is no job: then memory ran out.
fn fault_alone(refusal: (Option<Job>, SendFault)) -> Result<SendFault, Memory>
    ensures { IfOk result (λ why. (why ≡ refusal.1) × IsSome refusal.0) }
{
    if refusal.0.is_none() {
        return Err(Memory);
    }
    Ok(refusal.1)
}

/// Returns a refusal of the first that waited.
///
/// # Errors
///
/// `Memory` if there is no job: then memory ran out.
fn refused(refusal: (Option<Job>, SendFault)) -> Result<Offer, Memory>
    ensures { IfOk result (λ offer. IsRefused refusal offer) }
{
    let (back, fault) = refusal;
    match back {
        Some(job) => Ok(Offer::Refused {
            first: Waiting::Given(job),
            fault,
        }),
        None => Err(Memory),
    }
}

impl Lower {
    /// Gives a job to the sender, as the next one.
    ///
    /// # Errors
    ///
    /// As those of [`Sender::command`]. A job that is refused does not count.
    fn give(&mut self, job: Job, now: Moment) -> Result<Receipt, (Option<Job>, SendFault)>
        requires { IsReady self.old }
        ensures ready { IsReady self.new }
        ensures gives { (k : RelayKept) (x : Relaying) → Agrees (below self.old k) x → answer_of result ≢ Err fault.Memory
            → Agrees (below self.new k) (commands now job x).0 × (answer_of result ≡ (commands now job x).1) }
        ensures back { IfErr result (λ refusal. GivesBack job refusal) }
    {
        // Never reached by counting. It is want of memory, as other counts that end.
        let Some(number) = self.jobs.checked_add(1) else {
            return Err((None, SendFault::Memory));
        };
        let by = Origin {
            producer: PRODUCER,
            number,
        };
        let answer = self.sender.command(by, job, now);
        let jobs = counted(answer.is_ok(), number, self.jobs);
        self.jobs = jobs;
        answer
    }

    /// Gives a job without octets to the sender: if it is refused, it is dropped.
    ///
    /// # Errors
    ///
    /// `Memory` if memory runs out.
    pub(crate) fn command(
        &mut self,
        job: Job,
        now: Moment,
    ) -> Result<Result<Receipt, SendFault>, Memory>
        requires { IsReady self.old }
        ensures ready { IsReady self.new }
        ensures commands { IfOk result (λ answer. (k : RelayKept) (x : Relaying) → Agrees (below self.old k) x
            → Agrees (below self.new k) (commands now job x).0 × (answer ≡ (commands now job x).1)) }
    {
        match self.give(job, now) {
            Ok(receipt) => Ok(Ok(receipt)),
            Err(refusal) => {
                let fault = fault_alone(refusal)?;
                Ok(Err(fault))
            }
        }
    }

    /// Strikes a member, or returns why it is not struck.
    ///
    /// # Errors
    ///
    /// `Memory` if no number is left for a job.
    pub(crate) fn strike(
        &mut self,
        node: NodeId,
        now: Moment,
    ) -> Result<Result<(), SendFault>, Memory>
        requires { IsReady self.old }
        ensures ready { IsReady self.new }
        ensures strikes { IfOk result (λ told. (k : RelayKept) (x : Relaying) → Agrees (below self.old k) x
            → Agrees (below self.new k) (commands now (job.Strike node) x).0 × (given_struck node told ≡ (commands now (job.Strike node) x).1)) }
    {
        let answer = self.command(Job::Strike { node }, now)?;
        Ok(without_receipt(answer))
    }

    fn offer_job(&mut self, job: Job, now: Moment) -> Result<Offer, Memory>
        requires { IsReady self.old }
        ensures ready { IsReady self.new }
        ensures offers { IfOk result (λ offer. (k : RelayKept) (x : Relaying) (u : HandUp) → Agrees (below self.old k) x → waits.Given job ≡ waiting_of u
            → IsOffered k self.new (waits.Given job) offer (offers now u x)) }
    {
        let opens = job_opens(&job);
        match self.give(job, now) {
            Ok(_) => {
                self.opened = opens;
                Ok(Offer::Done { jobs: 1 })
            }
            Err(refusal) => refused(refusal),
        }
    }

    fn offer_loss(&mut self, index: u32, now: Moment) -> Result<Offer, Memory>
        requires { IsReady self.old }
        ensures ready { IsReady self.new }
        ensures offers { IfOk result (λ offer. (k : RelayKept) (x : Relaying) (u : HandUp) → Agrees (below self.old k) x → waits.Lost index ≡ waiting_of u
            → IsOffered k self.new (waits.Lost index) offer (offers now u x)) }
    {
        if !self.opened {
            return Ok(Offer::Done { jobs: 0 });
        }
        // The rest of a stream is lost: below it ends where it was lost.
        let answer = self.command(Job::Close, now)?;
        match answer {
            Ok(_) => {
                self.opened = false;
                Ok(Offer::Done { jobs: 1 })
            }
            Err(fault) => Ok(Offer::Refused {
                first: Waiting::Lost { index },
                fault,
            }),
        }
    }

    /// Offers the first hand-up that waits.
    ///
    /// # Errors
    ///
    /// `Memory` if memory runs out.
    fn offer(&mut self, first: Waiting, now: Moment) -> Result<Offer, Memory>
        requires { IsReady self.old }
        ensures ready { IsReady self.new }
        ensures offers { IfOk result (λ offer. (k : RelayKept) (x : Relaying) (u : HandUp) → Agrees (below self.old k) x → first ≡ waiting_of u
            → IsOffered k self.new first offer (offers now u x)) }
    {
        match first {
            Waiting::Given(job) => self.offer_job(job, now),
            Waiting::Lost { index } => self.offer_loss(index, now),
        }
    }

    /// Enqueues what waits, in order, for as long as the session below takes it.
    ///
    /// # Errors
    ///
    /// `Memory` if memory runs out.
    fn enqueue(&mut self, waiting: &mut VecDeque<Waiting>, now: Moment) -> Result<Enqueued, Memory>
        requires { IsReady self.old }
        ensures ready { IsReady self.new }
        ensures enqueues { IfOk result (λ done. (k : RelayKept) (x : Relaying) (ups : List HandUp) → Agrees (below self.old k) x
            → waiting.old.items ≡ map waiting_of ups → IsEnqueued k self.new waiting.new.items done (enqueues now ups x)) }
    {
        let mut jobs = 0;
        while let Some(first) = waiting.pop_front() {
            let offer = self.offer(first, now)?;
            match offer {
                Offer::Done { jobs: more } => {
                    jobs = sum(jobs, more)?;
                }
                Offer::Refused {
                    first: again,
                    fault,
                } => {
                    // It does not fail: what was taken out left its room.
                    waiting.push_front(again)?;
                    return Ok(Enqueued {
                        jobs,
                        stop: stop_by(fault),
                    });
                }
            }
        }
        Ok(Enqueued {
            jobs,
            stop: Stop::Emptied,
        })
    }

    /// Begins the session below anew if the one above did.
    ///
    /// # Errors
    ///
    /// `Memory` if memory runs out.
    fn begin_anew(&mut self, held: &mut Held, now: Moment) -> Result<Option<SendFault>, Memory>
        requires { IsReady self.old }
        ensures ready { IsReady self.new }
        ensures begins { IfOk result (λ why. (k : RelayKept) (x : Relaying) → Agrees (holding held.old (below self.old k)) x
            → Agrees (holding held.new (below self.new k)) (begins_anew now x).0 × (why ≡ (begins_anew now x).1)) }
    {
        if !held.anew {
            return Ok(None);
        }
        let instance = next_id(self.sender.instance());
        let answer = self.command(Job::Restart { instance }, now)?;
        match answer {
            Ok(_) => {
                held.anew = false;
                self.opened = false;
                Ok(None)
            }
            Err(fault) => Ok(Some(fault)),
        }
    }

    /// Makes a watermark, so that what was confirmed may go. Nothing is acknowledged above for it.
    ///
    /// # Errors
    ///
    /// `Memory` if memory runs out.
    fn mark_for_room(&mut self, now: Moment) -> Result<Option<SendFault>, Memory>
        requires { IsReady self.old }
        ensures ready { IsReady self.new }
        ensures marks { IfOk result (λ why. (k : RelayKept) (x : Relaying) → Agrees (below self.old k) x
            → Agrees (below self.new k) (marks_for_room now x).0 × (why ≡ (marks_for_room now x).1)) }
    {
        let answer = self.command(Job::Mark { quorum: None }, now)?;
        match answer {
            Ok(_) => Ok(None),
            Err(fault) => Ok(Some(fault)),
        }
    }

    /// Makes a watermark for an acknowledgement.
    ///
    /// # Errors
    ///
    /// `Memory` if memory runs out.
    fn mark_for(
        &mut self,
        held: &mut Held,
        ack: [u8; ACK_LEN],
        now: Moment,
    ) -> Result<Option<SendFault>, Memory>
        requires { IsReady self.old }
        ensures ready { IsReady self.new }
        ensures marks { IfOk result (λ why. (k : RelayKept) (x : Relaying) (datagram : Written) → datagram.octets ≡ ack
            → Agrees (holding held.old (below self.old k)) x
            → Agrees (holding held.new (below self.new k)) (marks_for now datagram x).0 × (why ≡ (marks_for now datagram x).1)) }
    {
        let answer = self.command(Job::Mark { quorum: None }, now)?;
        match answer {
            Ok(receipt) => {
                held.note_mark(ack, receipt);
                Ok(None)
            }
            Err(fault) => Ok(Some(fault)),
        }
    }

    /// Makes a watermark for the acknowledgement that waits for one, or for the one whose watermark expired.
    ///
    /// # Errors
    ///
    /// `Memory` if memory runs out.
    fn mark_for_held(&mut self, held: &mut Held, now: Moment) -> Result<Option<SendFault>, Memory>
        requires { IsReady self.old }
        ensures ready { IsReady self.new }
        ensures asks { IfOk result (λ why. (k : RelayKept) (x : Relaying) → Agrees (holding held.old (below self.old k)) x
            → Agrees (holding held.new (below self.new k)) (asks_for now Emptied x).0 × (why ≡ (asks_for now Emptied x).1)) }
    {
        if let Some(ack) = held.unmarked {
            return self.mark_for(held, ack, now);
        }
        let Some(promise) = held.promise else {
            return Ok(None);
        };
        if is_past(&self.sender, promise.at) {
            return Ok(None);
        }
        self.mark_for(held, promise.ack, now)
    }

    /// Asks the members below to confirm, if no watermark is open and there is a reason.
    ///
    /// # Errors
    ///
    /// `Memory` if memory runs out.
    fn ask(&mut self, held: &mut Held, stop: Stop, now: Moment) -> Result<Option<SendFault>, Memory>
        requires { IsReady self.old }
        ensures ready { IsReady self.new }
        ensures asks { IfOk result (λ why. (k : RelayKept) (x : Relaying) → Agrees (holding held.old (below self.old k)) x
            → Agrees (holding held.new (below self.new k)) (asks now (stop_of stop) x).0 × (why ≡ (asks now (stop_of stop) x).1)) }
    {
        // Each open watermark confirms all that an earlier one would, and one at a time is enough.
        if self.sender.book().oldest().is_some() {
            return Ok(None);
        }
        match stop {
            Stop::Emptied => self.mark_for_held(held, now),
            // Without a mark nobody below confirms anything, so nothing could go, and nothing above would be heard any more.
            Stop::Crowded => self.mark_for_room(now),
            Stop::Refused { .. } => Ok(None),
        }
    }

    /// Enqueues what waits, after a restart if the session above began anew, and asks the members below to confirm it. Returns how many hand-ups
    /// became jobs, or why one was refused for good.
    ///
    /// # Errors
    ///
    /// `Memory` if memory runs out.
    pub(crate) fn pump(
        &mut self,
        held: &mut Held,
        waiting: &mut VecDeque<Waiting>,
        now: Moment,
    ) -> Result<Result<u32, SendFault>, Memory>
        requires { IsReady self.old }
        ensures ready { IsReady self.new }
        ensures pumps { IfOk result (λ told. (k : RelayKept) (x : Relaying)
            → StandsFor (having waiting.old.items (holding held.old (below self.old k))) x
            → StandsFor (having waiting.new.items (holding held.new (below self.new k))) (pumped now x).0 × (told ≡ (pumped now x).1)) }
    {
        if let Some(fault) = self.begin_anew(held, now)? {
            return Ok(Err(fault));
        }
        let done = self.enqueue(waiting, now)?;
        let refused = self.ask(held, done.stop, now)?;
        Ok(told_of(done.jobs, done.stop, refused))
    }
}
