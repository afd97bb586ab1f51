//! Tests `norm_watch`: what a node at work tells its user. Each row is a list of calls of a watched network and a watched sink. Standard
//! error is kept in memory, and the clock stands until a row sets it.

ghost use Rattle.std.specs.Prelude.{None, false};

use crate::watch_rows::{GROUPS, News, ONCE, RECORDS, ROWS, Row, Step, Told};
use norm_base::{
    DATAGRAM_ROOM, Datagram, Fabric, FabricFault, Given, InstanceId, Key, Local, NodeId, Notice,
    Profile, Sink,
};
use norm_memory::MemSink;
use norm_watch::{Restarts, Tally, WatchedFabric, WatchedSink, end_progress};
use std::alloc::Global;
use std::cell::{Cell, RefCell};
use std::fmt::{Display, Write};
use std::io::{self, ErrorKind};
use std::net::{Ipv4Addr, SocketAddr, SocketAddrV4};
use std::test::Fail;
use std::time::{Clock, Duration};
use udp_rules::{
    Difference, GroupNews, Misfit, PassesOver, SecondMachine, Sizes, TellsGroup, Unsent,
};

/// What was written to standard error, and a clock that stands until it is set.
#[derive(Drop)]
struct Seen {
    said: RefCell<String>,
    seconds: Cell<u64>,
}

impl Seen {
    /// Adds a value, and `end` after it.
    fn add<D: Display + Drop>(&self, value: D, end: &str) -> io::Result<()> {
        let Ok(mut said) = self.said.try_borrow_mut() else {
            return Err(io::Error::from(ErrorKind::Other));
        };
        match write!(said, "{value}{end}") {
            Ok(()) => Ok(()),
            Err(_) => Err(io::Error::from(ErrorKind::OutOfMemory)),
        }
    }
}

impl Eprint for Seen {
    fn eprint<D: Display + Drop>(&self, value: D) -> io::Result<()> {
        self.add(value, "")
    }

    fn eprintln<D: Display + Drop>(&self, value: D) -> io::Result<()> {
        self.add(value, "\n")
    }
}

impl Clock for Seen {
    fn monotonic(&self) -> io::Result<Duration> {
        Ok(Duration::from_secs(self.seconds.get()))
    }

    fn since_1970(&self) -> io::Result<Duration> {
        self.monotonic()
    }
}

/// A network that gives the datagram in `next` once, and drops what is offered. It reports that it ignored `passed` datagrams, and news of a
/// group.
#[derive(Drop)]
struct Laid<'a> {
    next: &'a Cell<&'static [u8]>,
    passed: &'a Cell<u64>,
    group: &'a Cell<Option<Group>>,
}

impl TellsGroup for Laid<'_> {
    fn group_news(&self) -> Option<GroupNews> {
        self.group.get().map(news_of)
    }
}

/// Returns an address of the documents' subnet (RFC 5737) whose last number is this, with this port.
fn address_at(last: u8, port: u16) -> SocketAddr {
    SocketAddr::V4(SocketAddrV4::new(Ipv4Addr::new(192, 0, 2, last), port))
}

/// What a group reports so far: whether a second machine sends as member 3, and whether nothing can be sent now.
#[derive(Clone, Copy)]
struct Group {
    has_second: bool,
    is_unsent: bool,
}

/// Returns what a group reports after this. A second machine stays reported.
fn group_after(news: News, before: Option<Group>) -> Group {
    let had_second = match before {
        Some(before) => before.has_second,
        None => false,
    };
    match news {
        News::Joined => Group {
            has_second: had_second,
            is_unsent: false,
        },
        News::Second => Group {
            has_second: true,
            is_unsent: false,
        },
        News::Unsent => Group {
            has_second: had_second,
            is_unsent: true,
        },
    }
}

/// Returns the machine that sends as member 3 too.
fn second() -> Option<SecondMachine> {
    Some(SecondMachine {
        node: NodeId::of(3)?,
        address: Ipv4Addr::new(192, 0, 2, 15),
        kept: Ipv4Addr::new(192, 0, 2, 14),
    })
}

/// Returns the news of a group at port 7000 of the documents' subnet.
fn news_of(group: Group) -> GroupNews {
    GroupNews {
        hears_at: address_at(255, 7_001),
        second: if group.has_second { second() } else { None },
        unsent: if group.is_unsent {
            Some(Unsent {
                address: address_at(255, 7_000),
                code: 101,
            })
        } else {
            None
        },
    }
}

impl PassesOver for Laid<'_> {
    fn passed_over(&self) -> u64 {
        self.passed.get()
    }

    fn misfit(&self) -> Option<Misfit> {
        Some(Misfit {
            sender: NodeId::of(1)?,
            instance: InstanceId(12),
            difference: MISFIT,
        })
    }
}

/// The difference that `Laid` reports between a sender's sizes and the profile's.
const MISFIT: Difference = Difference::Sizes {
    theirs: Sizes {
        e: 1400,
        b: 100,
        max_n: 255,
    },
    own: Sizes {
        e: 1400,
        b: 64,
        max_n: 255,
    },
};

impl Fabric for Laid<'_> {
    ghost told = { λ _. record { starts = None; offered = None; answers = None; honest = false; direct = false } };

    ghost fault_count = { λ _. 0 };

    fn start(&mut self, _profile: &Profile, _local: Local) -> Result<(), FabricFault> {
        Ok(())
    }

    fn offer(&mut self, _from: NodeId, _bytes: &[u8]) -> Result<(), FabricFault> {
        Ok(())
    }

    fn take(&mut self, into: &mut Datagram) -> Result<Option<NodeId>, FabricFault> {
        into.clear();
        let octets = self.next.get();
        let Some(node) = NodeId::of(2) else {
            return Ok(None);
        };
        if octets.is_empty() || octets.len() > into.room() {
            return Ok(None);
        }
        into.push(octets);
        self.next.set(b"");
        Ok(Some(node))
    }

    fn faults(&self) -> u64 {
        0
    }
}

/// Prints each instance that a sender begins by a restart.
#[derive(Drop)]
struct Noted<'a> {
    seen: &'a Seen,
}

impl Restarts for Noted<'_> {
    fn restarted(&mut self, instance: InstanceId) {
        let instance = instance.0;
        let _ = eprintln!(self.seen; "restarted {instance}");
    }
}

/// The hub's port. The sender has the next one, and the receivers those after it.
const PORT: u32 = 7_000;

/// How many takes there are for each reading of the clock.
const TAKES: u32 = 64;

/// Returns the profile of a row.
// Each key comes through the loop: a call of `set` that names its key costs much to prove.
fn profile_of(row: &Row) -> Result<Profile, Fail> {
    let mut given = Given::new();
    for (key, value) in [
        (Key::Receivers, 2),
        (Key::Fabric, row.fabric as u32),
        (Key::Port, PORT),
        (Key::Step, row.step),
    ] {
        given.set(key, value);
    }
    Ok(Profile::of(&given).ok_or("no profile")?)
}

/// Returns what a line says. `None` if it names a member by a number that is none.
fn notice_of(told: &Told) -> Option<Notice> {
    Some(match told {
        Told::Object(octets) => Notice::Object { octets: *octets },
        Told::Octets(octets) => Notice::Octets { octets: *octets },
        Told::Mark(mark, index) => Notice::Mark {
            mark: *mark,
            index: *index,
            block: 0,
            symbol: 0,
        },
        Told::Past(node, index, symbol) => Notice::Past {
            node: NodeId::of(*node)?,
            index: *index,
            block: 0,
            symbol: *symbol,
        },
        Told::Struck(node) => Notice::Struck {
            node: NodeId::of(*node)?,
        },
        Told::Done(mark, has_expired) => Notice::Done {
            mark: *mark,
            has_expired: *has_expired,
        },
        Told::Restarted(instance) => Notice::Restarted {
            instance: InstanceId(*instance),
        },
        Told::Other => Notice::Other,
    })
}

/// A watched node of a row, and the cells by which a row drives it.
#[derive(Drop)]
struct Watched<'a> {
    seen: &'a Seen,
    next: &'a Cell<&'static [u8]>,
    passed: &'a Cell<u64>,
    group: &'a Cell<Option<Group>>,
    tally: &'a Tally,
    fabric: WatchedFabric<'a, &'a Seen, Laid<'a>>,
    sink: WatchedSink<'a, &'a Seen, MemSink, Noted<'a>>,
    into: Datagram,
}

impl Watched<'_> {
    /// Takes once.
    fn takes(&mut self) -> Result<(), FabricFault> {
        self.fabric.take(&mut self.into)?;
        Ok(())
    }

    /// Offers a datagram of member 2, unless it is too long.
    fn offers(&mut self, octets: &[u8]) -> Result<(), FabricFault> {
        match NodeId::of(2) {
            Some(node) if octets.len() <= DATAGRAM_ROOM => self.fabric.offer(node, octets),
            _ => Ok(()),
        }
    }

    /// Notes what a line says.
    fn notes(&mut self, told: &Told) {
        if let Some(notice) = notice_of(told) {
            self.sink.note(&notice);
        }
    }

    /// Makes one step.
    fn does(&mut self, step: &Step) -> Result<(), Fail> {
        match step {
            Step::Waits(seconds) => {
                let now = self.seen.seconds.get();
                self.seen.seconds.set(now.saturating_add(*seconds));
            }
            Step::Looks => {
                for _ in 0..TAKES {
                    self.takes()?;
                }
            }
            Step::Takes(octets) => {
                self.next.set(*octets);
                self.takes()?;
            }
            Step::PassesOver => {
                self.passed.set(self.passed.get().saturating_add(1));
                self.takes()?;
            }
            Step::Tells(news) => {
                self.group.set(Some(group_after(*news, self.group.get())));
                self.takes()?;
            }
            Step::Offers(octets) => self.offers(*octets)?,
            Step::Writes(line) => {
                let _ = self.sink.write(*line);
            }
            Step::Notes(told) => self.notes(told),
            Step::Spends => self.fabric.say_spent(),
            Step::Ends => end_progress(&self.seen, self.tally),
        }
        Ok(())
    }
}

/// Makes the steps of a row, and returns what is then on standard error.
fn said_by(alloc: Global, row: &Row) -> Result<String, Fail> {
    let seen = Seen {
        said: RefCell::new(String::new(alloc)),
        seconds: Cell::new(0),
    };
    let next: Cell<&'static [u8]> = Cell::new(b"");
    let passed = Cell::new(0);
    let group: Cell<Option<Group>> = Cell::new(None);
    let tally = Tally::new();
    let sink = MemSink::of(Vec::new(alloc), Vec::new(alloc));
    let laid = Laid {
        next: &next,
        passed: &passed,
        group: &group,
    };
    let mut watched = Watched {
        seen: &seen,
        next: &next,
        passed: &passed,
        group: &group,
        tally: &tally,
        fabric: WatchedFabric::of(&seen, laid, row.says, &tally),
        sink: WatchedSink::of(&seen, sink, row.says, &tally, Noted { seen: &seen }),
        into: Datagram::new(alloc)?,
    };
    let local = NodeId::of(row.node).map_or(Local::Hub, Local::One);
    watched.fabric.start(&profile_of(row)?, local)?;
    for step in row.steps {
        watched.does(step)?;
    }
    drop(watched);
    Ok(seen.said.into_inner())
}

#[test]
fn a_node_says_how_it_is(rt: HostRuntime) -> Result<(), Fail> {
    for (at, row) in ROWS.iter().enumerate() {
        let said = said_by(rt.alloc(), row)?;
        assert!(rt; said.as_str() == row.said, "row {at}: {said:?}");
    }
    Ok(())
}

#[test]
fn a_node_says_once_what_is_passed_over(rt: HostRuntime) -> Result<(), Fail> {
    for (at, row) in ONCE.iter().enumerate() {
        let said = said_by(rt.alloc(), row)?;
        assert!(rt; said.as_str() == row.said, "row {at}: {said:?}");
    }
    Ok(())
}

#[test]
fn a_node_says_what_becomes_of_its_group(rt: HostRuntime) -> Result<(), Fail> {
    for (at, row) in GROUPS.iter().enumerate() {
        let said = said_by(rt.alloc(), row)?;
        assert!(rt; said.as_str() == row.said, "row {at}: {said:?}");
    }
    Ok(())
}

#[test]
fn a_record_has_datagrams_and_lines_without_contents(rt: HostRuntime) -> Result<(), Fail> {
    for (at, row) in RECORDS.iter().enumerate() {
        let said = said_by(rt.alloc(), row)?;
        assert!(rt; said.as_str() == row.said, "row {at}: {said:?}");
    }
    Ok(())
}
