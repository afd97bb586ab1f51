//! The rows of `watch`: what a node does, and what it tells its user.

use norm_base::FabricKind;
use norm_watch::{Log, Says};

/// What a group reports, in numbers.
#[derive(Clone, Copy)]
pub(crate) enum News {
    /// Nothing yet.
    Joined,
    /// A second machine sends as node 3.
    Second,
    /// The network cannot be reached (ENETUNREACH).
    Unsent,
}

/// A `Notice` in plain numbers, since a constant cannot lend one.
#[derive(Clone, Copy)]
pub(crate) enum Told {
    Object(u64),
    Octets(u64),
    /// The watermark, and the object whose first symbol it asks for.
    Mark(u32, u32),
    /// The member, the object, and the symbol of its block 0.
    Past(u32, u32, u8),
    Struck(u32),
    /// The watermark, and whether it expired.
    Done(u32, bool),
    Restarted(u16),
    Other,
}

/// A step of a row.
#[derive(Clone, Copy)]
pub(crate) enum Step {
    /// This many seconds pass.
    Waits(u64),
    /// The node takes until the clock was read once. Nothing arrives.
    Looks,
    /// The node takes this datagram.
    Takes(&'static [u8]),
    /// The network ignores a datagram, and the node takes nothing.
    PassesOver,
    /// The network reports this of a group, and the node takes nothing.
    Tells(News),
    /// Member 2 offers a datagram.
    Offers(&'static [u8]),
    /// The node writes this line to its output.
    Writes(&'static [u8]),
    /// The node wrote a line that says this.
    Notes(Told),
    /// The node's turns are spent.
    Spends,
    /// The node is done.
    Ends,
}

/// The network and step of the profile, the node or 0 for the hub, the options, the steps, and all that is then on standard error.
pub(crate) struct Row {
    pub(crate) fabric: FabricKind,
    pub(crate) step: u32,
    pub(crate) node: u32,
    pub(crate) says: Says,
    pub(crate) steps: &'static [Step],
    pub(crate) said: &'static str,
}

pub(crate) const NOTHING: Says = Says {
    progress: false,
    log: Log::Off,
    beside: false,
};

pub(crate) const TRACE: Says = Says {
    log: Log::Trace,
    ..NOTHING
};

pub(crate) const RECORD: Says = Says {
    log: Log::Record,
    ..NOTHING
};

pub(crate) const PROGRESS: Says = Says {
    progress: true,
    ..NOTHING
};

/// The header of DATA, here with the flag of a repair, and in `SOURCE` without.
pub(crate) const REPAIR: &[u8] = b"\x12\x08\0\0\0\0\0\x01\0\x07\0\x01\x01\x05\0\0";

pub(crate) const SOURCE: &[u8] = b"\x12\x08\0\0\0\0\0\x01\0\x07\0\x01\0\x05\0\0";

pub(crate) const ROWS: [Row; 11] = [
    // Nine seconds are no silence; it is said once, and again after something came.
    Row {
        fabric: FabricKind::Udp,
        step: 0,
        node: 2,
        says: NOTHING,
        steps: &[
            Step::Looks,
            Step::Waits(9),
            Step::Looks,
            Step::Waits(1),
            Step::Looks,
            Step::Waits(20),
            Step::Looks,
            Step::Takes(SOURCE),
            Step::Looks,
            Step::Waits(10),
            Step::Looks,
            Step::Ends,
        ],
        said: "nothing came to 127.0.0.1:7002 for ten seconds\nthe hub is to be at 127.0.0.1:7000\nnothing came to 127.0.0.1:7002 for ten seconds\nthe hub is to be at 127.0.0.1:7000\n",
    },
    // The hub does nothing by the moments of its turns, so nothing is said of the step.
    Row {
        fabric: FabricKind::Udp,
        step: 1000,
        node: 0,
        says: NOTHING,
        steps: &[Step::Waits(10), Step::Looks],
        said: "nothing came to 127.0.0.1:7000 for ten seconds\n",
    },
    Row {
        fabric: FabricKind::Udp,
        step: 1000,
        node: 1,
        says: NOTHING,
        steps: &[],
        said: "the profile's step is 1000: over sockets it is to be 0, so that the clock gives the moments\n",
    },
    // In memory nobody waits for anyone.
    Row {
        fabric: FabricKind::Direct,
        step: 1000,
        node: 2,
        says: PROGRESS,
        steps: &[Step::Waits(20), Step::Looks, Step::Ends],
        said: "",
    },
    Row {
        fabric: FabricKind::Udp,
        step: 0,
        node: 2,
        says: TRACE,
        steps: &[Step::Takes(b"\x12\xab"), Step::Offers(b"\x00\x0f")],
        said: "take 2 12ab\noffer 2 000f\n",
    },
    Row {
        fabric: FabricKind::Udp,
        step: 0,
        node: 2,
        says: NOTHING,
        steps: &[
            Step::Takes(REPAIR),
            Step::Offers(SOURCE),
            Step::Notes(Told::Object(5)),
            Step::Waits(5),
            Step::Looks,
            Step::Ends,
        ],
        said: "",
    },
    // A receiver counts repairs as it takes them, and draws once a second.
    Row {
        fabric: FabricKind::Udp,
        step: 0,
        node: 2,
        says: PROGRESS,
        steps: &[
            Step::Waits(5),
            Step::Takes(SOURCE),
            Step::Takes(REPAIR),
            Step::Notes(Told::Object(5)),
            Step::Looks,
            Step::Waits(1),
            Step::Looks,
            Step::Notes(Told::Object(0)),
            Step::Notes(Told::Octets(3)),
            Step::Notes(Told::Other),
            Step::Waits(1),
            Step::Looks,
            Step::Ends,
            Step::Ends,
        ],
        said: "\r\x1b[K0 octets, 0 objects, 0 repairs, 0 receivers past the oldest watermark\r\x1b[K5 octets, 1 objects, 1 repairs, 0 receivers past the oldest watermark\r\x1b[K8 octets, 2 objects, 1 repairs, 0 receivers past the oldest watermark\n",
    },
    // Of two receivers one is past the watermark, and both are once it is done; then one is struck.
    Row {
        fabric: FabricKind::Udp,
        step: 0,
        node: 1,
        says: PROGRESS,
        steps: &[
            Step::Looks,
            Step::Notes(Told::Object(256)),
            Step::Notes(Told::Object(0)),
            Step::Notes(Told::Octets(4)),
            Step::Notes(Told::Mark(1, 1)),
            Step::Notes(Told::Past(2, 0, 3)),
            Step::Notes(Told::Past(3, 1, 0)),
            Step::Offers(SOURCE),
            Step::Offers(REPAIR),
            Step::Waits(1),
            Step::Looks,
            Step::Notes(Told::Done(1, false)),
            Step::Waits(1),
            Step::Looks,
            Step::Notes(Told::Struck(2)),
            Step::Waits(1),
            Step::Looks,
            Step::Ends,
        ],
        said: "\r\x1b[K260 octets, 2 objects, 1 repairs, 1 receivers past the oldest watermark\r\x1b[K260 octets, 2 objects, 1 repairs, 2 receivers past the oldest watermark\r\x1b[K260 octets, 2 objects, 1 repairs, 1 receivers past the oldest watermark\n",
    },
    // What is said beside progress comes in its place.
    Row {
        fabric: FabricKind::Udp,
        step: 0,
        node: 2,
        says: Says {
            log: Log::Trace,
            ..PROGRESS
        },
        steps: &[
            Step::Waits(1),
            Step::Looks,
            Step::Offers(b"\x0f"),
            Step::Ends,
        ],
        said: "\r\x1b[K0 octets, 0 objects, 0 repairs, 0 receivers past the oldest watermark\r\x1b[Koffer 2 0f\n",
    },
    // A restart is reported once its line was written, with the instance that it begins, and no other line is.
    Row {
        fabric: FabricKind::Udp,
        step: 0,
        node: 1,
        says: PROGRESS,
        steps: &[
            Step::Notes(Told::Object(5)),
            Step::Notes(Told::Restarted(8)),
            Step::Notes(Told::Other),
            Step::Looks,
            Step::Waits(1),
            Step::Looks,
            Step::Notes(Told::Restarted(65535)),
            Step::Ends,
        ],
        said: "restarted 8\n\r\x1b[K5 octets, 1 objects, 0 repairs, 0 receivers past the oldest watermark\r\x1b[Krestarted 65535\n",
    },
    // Lines of output that go to the same terminal come in the place of progress too.
    Row {
        fabric: FabricKind::Udp,
        step: 0,
        node: 2,
        says: Says {
            beside: true,
            ..PROGRESS
        },
        steps: &[
            Step::Waits(1),
            Step::Looks,
            Step::Writes(b"up 2 7 0 lost\n"),
            Step::Ends,
        ],
        said: "\r\x1b[K0 octets, 0 objects, 0 repairs, 0 receivers past the oldest watermark\r\x1b[K",
    },
];

/// A FLUSH of sender 1 in instance 12. Then EOTs (RFC 5740 section 4.2.3): in instance 12, in 5 and in 13, and one of sender 9.
pub(crate) const FLUSH: &[u8] = b"\x13\x05\0\0\0\0\0\x01\0\x0c\x40\x41\x01\x05\0\0\0\0\0\0";

pub(crate) const EOT: &[u8] = b"\x13\x04\0\0\0\0\0\x01\0\x0c\x40\x41\x02\0\0\0";

pub(crate) const BELOW: &[u8] = b"\x13\x04\0\0\0\0\0\x01\0\x05\x40\x41\x02\0\0\0";

pub(crate) const ABOVE: &[u8] = b"\x13\x04\0\0\0\0\0\x01\0\x0d\x40\x41\x02\0\0\0";

pub(crate) const OTHER: &[u8] = b"\x13\x04\0\0\0\0\0\x09\0\x02\x40\x41\x02\0\0\0";

/// Rows about what is said only once: ignored datagrams, and the end of the turns.
pub(crate) const ONCE: [Row; 6] = [
    // What comes again within a second may be late. What is above the receiver's instance, or is before it has one, is nothing old.
    Row {
        fabric: FabricKind::Udp,
        step: 0,
        node: 2,
        says: NOTHING,
        steps: &[
            Step::Takes(BELOW),
            Step::Waits(5),
            Step::Takes(BELOW),
            Step::Takes(FLUSH),
            Step::Takes(BELOW),
            Step::Takes(BELOW),
            Step::Waits(1),
            Step::Takes(ABOVE),
            Step::Takes(EOT),
            Step::Takes(BELOW),
            Step::Waits(1),
            Step::Takes(BELOW),
        ],
        said: "datagrams of instance 5 come, and this receiver is in 12: they are passed over\n",
    },
    // A sender says nothing of other senders. A receiver does, once.
    Row {
        fabric: FabricKind::Udp,
        step: 0,
        node: 1,
        says: NOTHING,
        steps: &[
            Step::Takes(OTHER),
            Step::Waits(1),
            Step::Takes(OTHER),
            Step::Spends,
        ],
        said: "",
    },
    Row {
        fabric: FabricKind::Udp,
        step: 0,
        node: 3,
        says: NOTHING,
        steps: &[
            Step::Takes(OTHER),
            Step::Takes(OTHER),
            Step::Waits(1),
            Step::Takes(OTHER),
            Step::Waits(1),
            Step::Takes(OTHER),
            Step::Waits(9),
            Step::Spends,
        ],
        said: "datagrams of sender 9 come, and the profile's sender is 1\nthe 1000000 turns are spent, and datagrams still came\n",
    },
    // What the network passes over counts as something that came.
    Row {
        fabric: FabricKind::Udp,
        step: 0,
        node: 2,
        says: NOTHING,
        steps: &[
            Step::Looks,
            Step::Waits(9),
            Step::PassesOver,
            Step::PassesOver,
            Step::Looks,
            Step::Waits(9),
            Step::Looks,
            Step::Waits(1),
            Step::Spends,
        ],
        said: "sender 1 sends with e 1400, b 100, max_n 255, and this profile has 1400, 64, 255: nothing of instance 12 is taken\nthe 1000000 turns are spent\n",
    },
    // A watermark expired at a sender to which nothing ever came, and one at a sender to which something had come.
    Row {
        fabric: FabricKind::Udp,
        step: 0,
        node: 1,
        says: NOTHING,
        steps: &[
            Step::Looks,
            Step::Notes(Told::Done(1, false)),
            Step::Looks,
            Step::Notes(Told::Done(2, true)),
            Step::Looks,
            Step::Waits(10),
            Step::Looks,
        ],
        said: "nothing came to 127.0.0.1:7001\nthe hub is to be at 127.0.0.1:7000\n",
    },
    Row {
        fabric: FabricKind::Udp,
        step: 0,
        node: 1,
        says: NOTHING,
        steps: &[
            Step::Takes(SOURCE),
            Step::Notes(Told::Done(1, true)),
            Step::Looks,
        ],
        said: "",
    },
];

/// What a node in a group says: a second machine once, and each time that sending begins or ends to fail.
pub(crate) const GROUPS: [Row; 2] = [
    Row {
        fabric: FabricKind::Udp,
        step: 0,
        node: 1,
        says: NOTHING,
        steps: &[
            Step::Tells(News::Joined),
            Step::Tells(News::Second),
            Step::Tells(News::Unsent),
            Step::Tells(News::Unsent),
            Step::Tells(News::Joined),
            Step::Tells(News::Unsent),
        ],
        said: "node 3 also sends from 192.0.2.15; only 192.0.2.14, which came first, is accepted\ncannot send to 192.0.2.255:7000 now: Network is unreachable (os error 101)\nsending to 192.0.2.255:7000 works again\ncannot send to 192.0.2.255:7000 now: Network is unreachable (os error 101)\n",
    },
    // There is no hub that could be named.
    Row {
        fabric: FabricKind::Udp,
        step: 0,
        node: 1,
        says: NOTHING,
        steps: &[
            Step::Tells(News::Joined),
            Step::Looks,
            Step::Waits(10),
            Step::Looks,
        ],
        said: "nothing came to 192.0.2.255:7001 for ten seconds\n",
    },
];

/// What a record has: each datagram, and each line of output without its contents, after the clock's microseconds. Of a stream's octets the
/// offset and length stay. A line is said once its end was written, in one piece or several.
pub(crate) const RECORDS: [Row; 2] = [
    Row {
        fabric: FabricKind::Udp,
        step: 0,
        node: 2,
        says: RECORD,
        steps: &[
            Step::Offers(b"\x0f\xa0"),
            Step::Waits(2),
            Step::Takes(SOURCE),
            Step::Writes(b"up 2 7 0 data 5 - 68656c6c6f\n"),
            Step::Writes(b"up 2 7 1 file 700000000 6e616d65 "),
            Step::Waits(1),
            Step::Writes(b"00112233"),
            Step::Writes(b"\nup 2 7 2 open\nup 2 7 2 bytes 10 3 616263\nup 2 7 2 end\n"),
            Step::Writes(b"past 2 7 0 0 0\ndone 1 expired 2 3\nno 1 4 full\n"),
        ],
        said: "0 offer 2 0fa0\n2000000 take 2 12080000000000010007000100050000\n2000000 up 2 7 0 data 5\n3000000 up 2 7 1 file 700000000\n3000000 up 2 7 2 open\n3000000 up 2 7 2 bytes 10 3\n3000000 up 2 7 2 end\n3000000 past 2 7 0 0 0\n3000000 done 1 expired 2 3\n3000000 no 1 4 full\n",
    },
    // A line that does not end is not said, and the line of progress is wiped before what is.
    Row {
        fabric: FabricKind::Udp,
        step: 0,
        node: 2,
        says: Says {
            log: Log::Record,
            ..PROGRESS
        },
        steps: &[
            Step::Waits(1),
            Step::Looks,
            Step::Writes(b"past 2 7 0 0 0\npast 2 7"),
            Step::Ends,
        ],
        said: "\r\x1b[K0 octets, 0 objects, 0 repairs, 0 receivers past the oldest watermark\r\x1b[K1000000 past 2 7 0 0 0\n",
    },
];
