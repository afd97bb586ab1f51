//! Tests of files that a sender gets in two pieces, and of one that is given up. The expected datagrams are written in hexadecimal, after the
//! formats of their messages.

use crate::spelled::{Runs, filled, octets_of, profile_of};
use driven_sender::Driven;
use fec_plan::Position;
use norm_base::{Datagram, InstanceId, Key, Memory, Moment, NodeId, Origin, Sent};
use norm_send_rules::{EnqueueFault, MarkFault, News, Outcome, Receipt, SendFault};
use std::alloc::Global;
use std::process::Abort;
use std::test::Fail;

/// The origin of each file.
const BY: Origin = Origin {
    producer: 1,
    number: 1,
};

/// News of the sender, as a step compares them.
#[derive(Clone, Copy, PartialEq, Eq)]
enum Told {
    /// The member with this id is listed past the last symbol of the file with this index.
    Past(u32, u32),
    /// The watermark with this number ended.
    Done(u32, Outcome),
    Nothing,
    /// News that no step expects.
    Other,
}

/// A call of a sender, and the result that it has to have. Times are in milliseconds.
#[derive(Clone, Copy)]
enum Step {
    /// Enqueues a file with these octets in two pieces. Its name is this one letter, and its first piece has this many octets. The file gets this
    /// index. If there is none, it is refused because object 0 cannot be dropped.
    InTwo(u8, Runs, usize, Option<u32>),
    /// Begins a file, adds these octets, and gives it up with this many octets missing.
    GivesUp(Runs, u32),
    /// A mark makes the watermark with this number, at the last symbol of the file with this index.
    Mark(u32, u32),
    /// A mark is refused because nothing was enqueued.
    Unmarked,
    Restart(u16),
    /// A tick at this time sends the octets of the hexadecimal text, and then this many octets of one value.
    Sends(u64, &'static str, (usize, u8)),
    /// Ticks send this many datagrams, one each millisecond, and the first at this time.
    SendsMany(u64, u64),
    /// A tick at this time sends nothing.
    Waits(u64),
    /// A datagram arrives at this time.
    Hears(u64, &'static str),
    Tells(Told),
}

/// A sender, and the datagram into which it writes.
#[derive(Drop)]
struct Files {
    sender: Driven,
    out: Datagram,
}

/// Returns the moment at this many milliseconds.
fn moment(milliseconds: u64) -> Moment {
    Moment(milliseconds.saturating_mul(1000))
}

/// Returns the last symbol of the file with this index, if that has 1,048,576 octets.
fn last_of(index: u32) -> Position {
    Position {
        index,
        block: 3,
        symbol: 186,
    }
}

/// Returns the listing of a member past this position as a step compares it. It is `Other` if this is not the last symbol of such a file.
fn past_of(node: NodeId, at: Position) -> Told {
    if at == last_of(at.index) {
        return Told::Past(node.number(), at.index);
    }
    Told::Other
}

/// Returns news as a step compares them.
fn told_by(news: News) -> Told {
    match news {
        News::Past { node, at } => past_of(node, at),
        News::Done { mark, outcome } => Told::Done(mark, outcome),
    }
}

/// Returns news as a step compares them, or `Nothing` if there are none.
fn told_of(news: Option<News>) -> Told {
    match news {
        Some(news) => told_by(news),
        None => Told::Nothing,
    }
}

/// Returns the result that a file of `len` octets has to have: this index, or a refusal if there is none.
fn answer_of(wanted: Option<u32>, len: u64) -> Result<Receipt, SendFault> {
    match wanted {
        Some(index) => Ok(Receipt::Object { index, len }),
        None => Err(SendFault::Enqueue(EnqueueFault::WindowFull { first: 0 })),
    }
}

impl Files {
    /// Whether a file in two pieces gets this index, or is refused if there is none.
    fn in_two(
        &mut self,
        alloc: Global,
        letter: u8,
        runs: Runs,
        first: usize,
        wanted: Option<u32>,
    ) -> Result<bool, Memory> {
        let name = filled(alloc, &[(1, letter)])?;
        let octets = filled(alloc, runs)?;
        let wanted = answer_of(wanted, octets.bytes().len() as u64);
        Ok(self.sender.file_in_two(BY, name, octets.bytes(), first) == wanted)
    }

    fn gives_up(&mut self, alloc: Global, runs: Runs, missing: u32) -> Result<bool, Memory> {
        let name = filled(alloc, &[(1, 0x61)])?;
        let octets = filled(alloc, runs)?;
        Ok(self.sender.file_given_up(name, octets.bytes(), missing))
    }

    /// Whether a tick sends exactly these octets.
    fn sends(&mut self, now: Moment, wanted: &[u8]) -> bool {
        self.sender.tick(now, &mut self.out) == Sent::Datagram && self.out.bytes() == wanted
    }

    /// Whether ticks send `count` datagrams, one each millisecond, and the first at this time.
    fn sends_many(&mut self, first: u64, count: u64) -> bool {
        for number in 0..count {
            let now = moment(first.saturating_add(number));
            if self.sender.tick(now, &mut self.out) != Sent::Datagram {
                return false;
            }
        }
        true
    }

    fn waits(&mut self, now: Moment) -> bool {
        self.sender.tick(now, &mut self.out) == Sent::Nothing
    }

    fn marks(&mut self, mark: u32, at: Position) -> bool {
        self.sender.mark() == Ok(Receipt::Mark { mark, at })
    }

    fn restarts(&mut self, instance: InstanceId) -> bool {
        self.sender.restart(instance) == Ok(Receipt::Restarted { instance })
    }

    fn tells(&mut self, wanted: Told) -> bool {
        told_of(self.sender.news()) == wanted
    }

    /// Makes a call. Returns whether its result is the expected one.
    fn does(&mut self, alloc: Global, step: Step) -> Result<bool, Memory> {
        match step {
            Step::InTwo(letter, runs, first, wanted) => {
                self.in_two(alloc, letter, runs, first, wanted)
            }
            Step::GivesUp(runs, missing) => self.gives_up(alloc, runs, missing),
            Step::Mark(mark, index) => Ok(self.marks(mark, last_of(index))),
            Step::Unmarked => Ok(self.sender.mark() == Err(MarkFault::NothingEnqueued)),
            Step::Restart(id) => Ok(self.restarts(InstanceId(id))),
            Step::Sends(at, front, behind) => {
                let wanted = octets_of(alloc, front, behind)?;
                Ok(self.sends(moment(at), wanted.as_slice()))
            }
            Step::SendsMany(first, count) => Ok(self.sends_many(first, count)),
            Step::Waits(at) => Ok(self.waits(moment(at))),
            Step::Hears(at, text) => {
                let octets = octets_of(alloc, text, (0, 0))?;
                self.sender.deliver(octets.as_slice(), moment(at));
                Ok(true)
            }
            Step::Tells(wanted) => Ok(self.tells(wanted)),
        }
    }
}

/// Makes calls in order. The test fails at the first one whose result is not the expected one.
fn plays(rt: &impl Abort, alloc: Global, keys: &[(Key, u32)], steps: &[Step]) -> Result<(), Fail> {
    let Some(profile) = profile_of(keys) else {
        panic!(rt; "no profile");
    };
    let mut files = Files {
        sender: Driven::new(alloc, &profile, InstanceId(7))?,
        out: Datagram::new(alloc)?,
    };
    for (place, step) in steps.iter().enumerate() {
        let is_so = files.does(alloc, *step)?;
        assert!(rt; is_so, "call {place}");
    }
    Ok(())
}

/// A file in two pieces, one that is given up, and a restart. After the restart, the first file is sent again as object 0.
const MID_FILE: [Step; 11] = [
    Step::InTwo(0x61, &[(1, 0x68), (1, 0x69)], 1, Some(0)),
    Step::Sends(
        1,
        "11070000 00000001 00074041 14050000 40030000 00000002 00400406 61",
        (0, 0),
    ),
    Step::Sends(
        2,
        "12080001 00000001 00074041 14050000 00000000 40030000 00000002 00400406 6869",
        (0, 0),
    ),
    Step::GivesUp(&[(64, 1)], 66),
    Step::Waits(3),
    Step::Restart(8),
    Step::Unmarked,
    Step::Waits(4),
    Step::InTwo(0x61, &[(1, 0x68), (1, 0x69)], 2, Some(0)),
    Step::Sends(
        5,
        "11070002 00000001 00084041 14050000 40030000 00000002 00400406 61",
        (0, 0),
    ),
    Step::Sends(
        6,
        "12080003 00000001 00084041 14050000 00000000 40030000 00000002 00400406 6869",
        (0, 0),
    ),
];

#[test]
fn a_file_that_is_given_up_leaves_nothing(rt: HostRuntime) -> Result<(), Fail> {
    let steps = MID_FILE;
    plays(&rt, rt.alloc(), &[(Key::E, 64), (Key::B, 4)], &steps)
}

/// Files of 1,048,576 octets. The first symbol, the second, the last, and all between have one octet value each.
const FILE_A: Runs = &[(1400, 0xa0), (1400, 0xa1), (1_044_400, 0xa2), (1376, 0xa3)];

const FILE_B: Runs = &[(1400, 0xb0), (1400, 0xb1), (1_044_400, 0xb2), (1376, 0xb3)];

const FILE_C: Runs = &[(1400, 0xc0), (1400, 0xc1), (1_044_400, 0xc2), (1376, 0xc3)];

/// A window of two such files, whose ring has 1,499 slots. The third file is refused until the first one is confirmed. Then it takes the last slot
/// and the first 748.
const THREE_FILES: [Step; 35] = [
    Step::InTwo(0x61, FILE_A, 700_001, Some(0)),
    Step::Mark(1, 0),
    Step::InTwo(0x62, FILE_B, 1400, Some(1)),
    Step::Mark(2, 1),
    Step::InTwo(0x63, FILE_C, 1399, None),
    Step::Sends(
        1,
        "11070000 00000001 00074041 14050000 40030000 00100000 0578c8ff 61",
        (0, 0),
    ),
    Step::Sends(
        2,
        "12080001 00000001 00074041 14050000 00000000 40030000 00100000 0578c8ff",
        (1400, 0xa0),
    ),
    Step::SendsMany(3, 747),
    Step::Sends(
        750,
        "120802ed 00000001 00074041 14050000 000003ba 40030000 00100000 0578c8ff",
        (1376, 0xa3),
    ),
    Step::SendsMany(751, 749),
    Step::Sends(
        1500,
        "120805db 00000001 00074041 14050001 000003ba 40030000 00100000 0578c8ff",
        (1376, 0xb3),
    ),
    Step::Sends(
        1501,
        "130505dc 00000001 00074041 01050000 000003ba 00000002",
        (0, 0),
    ),
    Step::InTwo(0x63, FILE_C, 1399, None),
    Step::Hears(
        1502,
        "15060000 00000002 00000001 00070200 00000000 00000000 05000000 000003ba",
    ),
    Step::Tells(Told::Past(2, 0)),
    Step::Tells(Told::Done(1, Outcome::Satisfied)),
    Step::InTwo(0x63, FILE_C, 1399, Some(2)),
    Step::Mark(3, 2),
    Step::Sends(
        1502,
        "110705dd 00000001 00074041 14050002 40030000 00100000 0578c8ff 63",
        (0, 0),
    ),
    Step::Sends(
        1503,
        "120805de 00000001 00074041 14050002 00000000 40030000 00100000 0578c8ff",
        (1400, 0xc0),
    ),
    Step::Sends(
        1504,
        "120805df 00000001 00074041 14050002 00000001 40030000 00100000 0578c8ff",
        (1400, 0xc1),
    ),
    Step::SendsMany(1505, 746),
    Step::Sends(
        2251,
        "120808ca 00000001 00074041 14050002 000003ba 40030000 00100000 0578c8ff",
        (1376, 0xc3),
    ),
    Step::Sends(
        2252,
        "130508cb 00000001 00074041 01050001 000003ba 00000002",
        (0, 0),
    ),
    Step::Hears(
        2253,
        "15060001 00000002 00000001 00070200 00000000 00000000 05000001 000003ba",
    ),
    Step::Tells(Told::Past(2, 1)),
    Step::Tells(Told::Done(2, Outcome::Satisfied)),
    Step::Waits(2271),
    Step::Sends(
        2272,
        "130508cc 00000001 00074041 01050002 000003ba 00000002",
        (0, 0),
    ),
    Step::Tells(Told::Nothing),
    Step::Hears(
        2273,
        "15060002 00000002 00000001 00070200 00000000 00000000 05000002 000003ba",
    ),
    Step::Tells(Told::Past(2, 2)),
    Step::Tells(Told::Done(3, Outcome::Satisfied)),
    Step::Tells(Told::Nothing),
    Step::Waits(2293),
];

#[test]
fn a_third_file_waits_for_the_first(rt: HostRuntime) -> Result<(), Fail> {
    let steps = THREE_FILES;
    let keys = [
        (Key::E, 1400),
        (Key::B, 200),
        (Key::Octets, 2_097_152),
        (Key::Window, 2),
    ];
    plays(&rt, rt.alloc(), &keys, &steps)
}
