//! Why a sender refuses a command. If several faults apply, the first in the order of these lists is returned.

ghost use Rattle.std.specs.Prelude.{◌≡◌};
ghost use Rattle.norm_send_rules.specs.Waiting.{may_wait};

use norm_base::{InstanceId, NodeId};
use thiserror::Error;

/// Why a stream takes no more octets, or no end. The stream stays as it was.
#[derive(Clone, Copy, Debug, PartialEq, Eq, Error)]
pub enum StreamFault {
    #[error("the stream was closed")]
    Closed,
    #[error("after {octets} octets the stream can't take so many more")]
    Spent { octets: u32 },
    #[error("no room: the first block that is kept is {first}")]
    Full { first: u32 },
}

/// Why an object is not enqueued, or a stream not opened, written or closed.
#[derive(Clone, Copy, Debug, PartialEq, Eq)]
pub enum EnqueueFault {
    /// The object or the write has no octets.
    Empty,
    /// The object, the write or the stream's buffer would be larger than the profile allows. `len` is in octets.
    TooBig { len: u64 },
    /// The info is longer than a symbol.
    InfoTooBig { len: u64 },
    /// The stream with this index is open, so nothing else can be enqueued.
    StreamOpen { index: u32 },
    /// A write or a close finds no open stream.
    NoStream,
    /// The instance has used up its object indices.
    IdsSpent,
    /// The open stream takes no more octets, or no end, for this reason.
    Stream(StreamFault),
    /// There is no room in the window, and not enough entries may be dropped yet. `first` is the index of the window's first entry.
    WindowFull { first: u32 },
    Memory,
}

/// Why a watermark is not made. The open stream is cut all the same, except after `Quorum` and `Memory`.
#[derive(Clone, Copy, Debug, PartialEq, Eq)]
pub enum MarkFault {
    /// The quorum is 0, or more than the receivers of the profile.
    Quorum { q: u32 },
    /// The instance has nothing to confirm: no source symbol of it is closed, even after the open stream was cut.
    NothingEnqueued,
    /// This many watermarks are open, the most that can be.
    TooMany { count: u32 },
    Memory,
}

/// Why a node is not struck. Nothing changes then.
#[derive(Clone, Copy, Debug, PartialEq, Eq)]
pub enum StrikeFault {
    /// The node is not a receiver, or was struck already.
    NotMember { node: NodeId },
    /// The node is the only member left.
    LastMember { node: NodeId },
}

/// Why a sender refuses a command.
#[derive(Clone, Copy, Debug, PartialEq, Eq)]
pub enum SendFault {
    Enqueue(EnqueueFault),
    Mark(MarkFault),
    Strike(StrikeFault),
    /// The id is not above that of the current instance, or it is more than 32,767 above that of the first one. Both limits are our own.
    IdUsed { instance: InstanceId },
    /// Memory ran out. The sender returns this for the `Memory` of any part.
    Memory,
}

impl SendFault {
    /// Whether the command is only refused for want of room. If so, offer it again later.
    pub fn may_wait(&self) -> bool
        ensures { result ≡ may_wait self.now }
    {
        matches!(
            self,
            // These three can end without another command: as symbols are sent, members confirm, or watermarks end. In the mode
            // `hold` nobody confirms without a watermark, so then a full window may stay full until a mark. Lack of memory may
            // pass too, but is no want of room. Every other refusal stays until another command ends it, if one can.
            SendFault::Enqueue(EnqueueFault::WindowFull { .. })
                | SendFault::Enqueue(EnqueueFault::Stream(StreamFault::Full { .. }))
                | SendFault::Mark(MarkFault::TooMany { .. })
        )
    }
}
