//! Hand-ups that wait for the session below, as the jobs that they become.

ghost use Rattle.std.specs.Prelude.{◌≡◌};
ghost use Rattle.norm_relay.specs.Pumping.{object_job};
ghost use Rattle.norm_relay.specs.Waiting.{waiting_of, job_opens};

use norm_base::{Kind, Octets};
use norm_order::Up;
use norm_send_rules::Job;

/// A hand-up that waits.
// It waits as the job that it becomes: `Sender::command` takes a job, and gives it back if it refuses, so no octets are copied.
#[derive(Debug, Drop)]
pub enum Waiting {
    Given(Job),
    /// An object, or the rest of a stream, was lost. Whether that is a job is known only once everything before it was enqueued: it closes the
    /// stream if one is open then.
    Lost { index: u32 },
}

fn object_job(kind: Kind, info: Option<Octets>, bytes: Octets) -> Job
    ensures { result ≡ object_job kind info bytes }
{
    match kind {
        Kind::Data => Job::Data { info, bytes },
        Kind::File => match info {
            Some(name) => Job::File { name, bytes },
            // Not in a lawful session: there each file has a name.
            None => Job::Data { info: None, bytes },
        },
    }
}

/// Returns a hand-up as it waits. Takes no memory.
pub(crate) fn waiting_of(up: Up) -> Waiting
    ensures { result ≡ waiting_of up }
{
    match up {
        Up::Object {
            kind,
            info,
            bytes,
            ..
        } => Waiting::Given(object_job(kind, info, bytes)),
        Up::StreamOpen { .. } => Waiting::Given(Job::Open),
        Up::StreamBytes { bytes, .. } => Waiting::Given(Job::Write { bytes }),
        Up::StreamEnd { .. } => Waiting::Given(Job::Close),
        Up::Lost { index } => Waiting::Lost { index },
    }
}

/// Whether a stream is open after this job, if it is a hand-up's.
pub(crate) fn job_opens(job: &Job) -> bool
    ensures { result ≡ job_opens job.now }
{
    match job {
        Job::Open => true,
        Job::Write { .. } => true,
        Job::Data { .. }
        | Job::File { .. }
        | Job::Close
        | Job::Mark { .. }
        | Job::Restart { .. }
        | Job::Strike { .. } => false,
    }
}
