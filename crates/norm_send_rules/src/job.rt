//! The commands of a sender and the answers if it accepts them. Scripts and producers make a [`Job`], the sender returns a [`Receipt`].

ghost use Rattle.std.specs.Prelude.{◌≡◌, IfOk};

use fec_plan::Position;
use norm_base::{InstanceId, Memory, NodeId, Octets};
use norm_order::copy_of_octets;

/// A command for a sender.
#[derive(Debug, Drop)]
pub enum Job {
    /// Enqueues a data object. Its info, if it has one, goes out in a message of its own.
    Data { info: Option<Octets>, bytes: Octets },
    /// Enqueues a file. Its info is its name.
    File { name: Octets, bytes: Octets },
    /// Opens a stream. Nothing else can be enqueued until it is closed, or another instance begins.
    Open,
    /// Appends octets, at least one, to the open stream.
    Write { bytes: Octets },
    /// Closes the open stream. Another object or stream can be enqueued after that.
    Close,
    /// Cuts the open stream, and asks this many members, or all if `None`, to confirm everything that was enqueued before. If there are fewer members
    /// left, all of them.
    Mark { quorum: Option<u32> },
    /// Begins a new instance with this id. Open watermarks end with [`Outcome::Cut`](crate::Outcome::Cut).
    Restart { instance: InstanceId },
    /// Removes a receiver from the members for good: nothing waits for it any more.
    Strike { node: NodeId },
}

/// Returns a copy of the command with buffers of its own.
///
/// # Errors
///
/// `Memory` if memory runs out.
pub fn copy_of_job(job: &Job) -> Result<Job, Memory>
    ensures { IfOk result (λ copy. copy ≡ job.now) }
{
    match job {
        Job::Data { info: None, bytes } => {
            let bytes = copy_of_octets(bytes)?;
            Ok(Job::Data { info: None, bytes })
        }
        Job::Data {
            info: Some(info),
            bytes,
        } => {
            let info = copy_of_octets(info)?;
            let bytes = copy_of_octets(bytes)?;
            Ok(Job::Data {
                info: Some(info),
                bytes,
            })
        }
        Job::File { name, bytes } => {
            let name = copy_of_octets(name)?;
            let bytes = copy_of_octets(bytes)?;
            Ok(Job::File { name, bytes })
        }
        Job::Open => Ok(Job::Open),
        Job::Write { bytes } => {
            let bytes = copy_of_octets(bytes)?;
            Ok(Job::Write { bytes })
        }
        Job::Close => Ok(Job::Close),
        Job::Mark { quorum } => Ok(Job::Mark { quorum: *quorum }),
        Job::Restart { instance } => Ok(Job::Restart {
            instance: *instance,
        }),
        Job::Strike { node } => Ok(Job::Strike { node: *node }),
    }
}

/// What a sender did for a command.
#[derive(Clone, Copy, Debug, PartialEq, Eq)]
pub enum Receipt {
    /// The object was enqueued with this index in the transport order. `len` is its octets.
    Object { index: u32, len: u64 },
    /// The stream was opened with this index in the transport order.
    Opened { index: u32 },
    /// This many octets were appended to this stream. `offset` is that of the first one.
    Wrote { index: u32, offset: u32, len: u64 },
    Closed { index: u32 },
    /// The watermark was made with this number. It asks for everything up to `at`.
    Mark { mark: u32, at: Position },
    Restarted { instance: InstanceId },
    /// This node is not a member any more.
    Struck { node: NodeId },
}
