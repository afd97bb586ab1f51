//! What the line of an event says to whoever counts: [`Notice`].

use crate::node::{InstanceId, NodeId};

/// What the line of an event says of how far a node is. Whoever writes such a line tells its sink so by [`note`](crate::Sink::note), and the sink
/// need not read the line.
// Only what somebody counts. The events themselves belong to crates above this one, so a position is its three numbers here.
#[derive(Clone, Copy, Debug)]
pub enum Notice {
    /// An object with this many octets was enqueued or handed up. A stream is one too, which begins without octets.
    Object {
        octets: u64,
    },
    /// This many octets of a stream were enqueued or handed up.
    Octets {
        octets: u64,
    },
    /// A watermark was opened. It asks for everything up to this position.
    Mark {
        mark: u32,
        index: u32,
        block: u32,
        symbol: u8,
    },
    /// This receiver is now listed past this position.
    Past {
        node: NodeId,
        index: u32,
        block: u32,
        symbol: u8,
    },
    /// This receiver is not a member any more.
    Struck {
        node: NodeId,
    },
    /// This watermark ended, because it expired or otherwise.
    Done {
        mark: u32,
        has_expired: bool,
    },
    /// The sender restarted, and goes on in this instance.
    Restarted {
        instance: InstanceId,
    },
    /// Nothing that is counted, such as a refusal or the end of a stream.
    Other,
}
