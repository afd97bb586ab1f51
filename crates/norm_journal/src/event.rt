//! The events of a session. Contracts see a journal as the list of its [`Event`]s; `norm_record` keeps one.

use norm_base::{InstanceId, Moment, NodeId, Octets, Origin, Sent};
use norm_order::Up;
use norm_send_rules::{Job, News, Receipt, SendFault};

/// What happened in a session, with what it gave. `specs/Accepting` says which may come after which.
#[derive(Debug, Drop)]
pub enum Event {
    /// The network was started. Always the first event.
    Start,
    /// A turn began. `now` is `t` times the profile's `step`, or what the clock gave if `step` is 0. It never falls.
    Turn {
        t: u32,
        now: Moment,
    },
    /// A command was pulled from its producer. It comes only if no earlier one waits.
    Pull {
        by: Origin,
    },
    /// A command was offered to the sender. If it had to wait, it is offered again in the next turn. `job` comes with the first offer, or,
    /// for a file, with the offer that accepts it.
    // A command that waits is offered in each turn, and would otherwise stand in the journal with all its octets each time. A file's octets come
    // with the offer that accepts it, because a sender refuses by name and length alone.
    Job {
        by: Origin,
        job: Option<Job>,
        gave: Result<Receipt, SendFault>,
    },
    /// A file of `len` octets was offered to the sender, which refused it for good or for now. Its octets were not read.
    Length {
        by: Origin,
        name: Octets,
        len: u64,
        fault: SendFault,
    },
    /// A node ticked. If it made a datagram, [`Offer`](Event::Offer) follows.
    Tick {
        node: NodeId,
        sent: Sent,
    },
    /// The datagram of the last tick was offered to the network.
    Offer {
        from: NodeId,
        bytes: Octets,
    },
    /// A datagram was taken from the network. It was delivered if the run has that node.
    // The judge accepts any, also octets that nobody offered: whether takes are honest is a definition of its own. A run of a sender alone has no
    // receivers, so what it takes for another node is delivered to nobody.
    Took {
        to: NodeId,
        bytes: Octets,
    },
    /// A take gave no datagram. A network may answer so at any time.
    Empty,
    /// A receiver handed something up. `instance` is the one in which the sender sent it.
    Up {
        node: NodeId,
        instance: InstanceId,
        up: Up,
    },
    /// The sender reported a change: a receiver is past a position, or a watermark ended.
    News(News),
    /// The run ended with its summary.
    // The summary is an event, so that every printed line of a journal is that of one. A file that is not there is no event: the journal stops
    // before the offer of its command.
    End,
}
