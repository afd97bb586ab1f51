//! Why two sessions are not relayed, why a line of `relay` is no event, and how its lines end.

use norm_base::{InstanceId, Key, NodeId};
use norm_script::Why;
use norm_send_rules::SendFault;
use norm_show::NoDatagram;

/// Why a line of `relay` is no event.
#[derive(Clone, Copy, Debug)]
pub enum NoEvent {
    /// An editor spelt it so.
    Spelt { why: Why },
    /// It is neither `up HEX` nor `down HEX` nor `tick`.
    Form,
    /// What is behind `up` or `down` spells no datagram.
    Digits { why: NoDatagram },
}

/// What the sender above a relay dropped.
#[derive(Clone, Copy, Debug)]
pub struct Losses {
    /// How many objects and streams.
    pub count: u64,
    /// The instance of the first one. 0 if there is none.
    pub instance: InstanceId,
    /// The index of the first one in its instance. 0 if there is none.
    pub index: u32,
}

/// How the lines of `relay` end.
#[derive(Clone, Copy, Debug)]
pub enum RelayEnd {
    /// All were events, and were relayed. The sender above dropped this.
    All { lost: Losses },
    /// Line `number` is no event. Those before were relayed.
    NoEvent { number: u64, why: NoEvent },
    /// The session below refused a job for good.
    Refused { fault: SendFault },
}

/// Why two sessions are not relayed. If several apply, the first in this order.
#[derive(Clone, Copy, Debug)]
pub enum NoRelay {
    /// The sessions differ in this key, which is `e`, `b`, `blocks` or `octets`: what fits above has to fit below.
    Size { key: Key, up: u32, down: u32 },
    /// The mode below is `drop`: what was not confirmed could be dropped.
    Mode,
    /// The node is not one of the receivers above, whose ids are `first` to `last`.
    Node { node: NodeId, first: u32, last: u32 },
    /// This id is a member of both sessions.
    Shared { node: NodeId },
}

/// How long two sessions that a relay joins may take, in microseconds.
#[derive(Clone, Copy, Debug)]
pub struct Patience {
    /// 40 round trips above. After so long without an acknowledgement the sender above gives a watermark up.
    pub above: u64,
    /// A gap below for each symbol of the most octets that the sender below keeps. An object is handed on only once it is whole.
    pub below: u64,
}
