//! An event as a reader of a journal gets it.

use norm_base::{InstanceId, Moment, NodeId, Origin, Sent};
use norm_order::Up;
use norm_send_rules::{Job, News, Receipt, SendFault};

/// An event of a journal, borrowed. Each variant is the one of `norm_journal::Event` with its name.
#[derive(Clone, Copy)]
pub enum Seen<'a> {
    Start,
    Turn {
        t: u32,
        now: Moment,
    },
    Pull {
        by: Origin,
    },
    Job {
        by: Origin,
        job: &'a Option<Job>,
        gave: &'a Result<Receipt, SendFault>,
    },
    Length {
        by: Origin,
        name: &'a [u8],
        len: u64,
        fault: &'a SendFault,
    },
    Tick {
        node: NodeId,
        sent: Sent,
    },
    Offer {
        from: NodeId,
        bytes: &'a [u8],
    },
    Took {
        to: NodeId,
        bytes: &'a [u8],
    },
    Empty,
    Up {
        node: NodeId,
        instance: InstanceId,
        up: &'a Up,
    },
    News(&'a News),
    End,
}
