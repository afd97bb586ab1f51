//! Tests of tails: one in which two receivers each miss another symbol, and what decides whether one may begin.

ghost use Rattle.std.specs.Prelude.{◌≡◌, true};
ghost use Rattle.norm_base.specs.Members.{is_receiver};
ghost use Rattle.norm_base.specs.Settings.{InRange};
ghost use Rattle.norm_world.specs.WorldMoves.{AreTaken, receiver_of};

use crate::spelled::{Runs, filled};
use fec_plan::Position;
use norm_base::{Datagram, Given, Key, Memory, Moment, NodeId, Origin, Profile, Sent};
use norm_order::Up;
use norm_send_rules::{Job, News, Outcome};
use norm_tail::{TailEnd, TailFault, TailStep, run_tail};
use norm_turns::{first_draws, next_draw};
use norm_world::World;
use rand_pcg::Lcg64Xsh32;
use std::alloc::Global;
use std::marker::Model;
use std::process::Abort;
use std::test::Fail;

/// The origin of each command.
const BY: Origin = Origin {
    producer: 1,
    number: 1,
};

/// The octets of the object. Each symbol has one octet value.
const OBJECT: Runs = &[(64, 1), (64, 2), (64, 4), (64, 8)];

/// A sender and its receivers, and the last datagram that one of them wrote.
#[derive(Drop)]
struct Nodes {
    profile: Profile,
    out: Datagram,
    world: World,
}

impl Model for Nodes {
    ghost use Rattle.norm_world.specs.WorldKept.{WorldKept};
    ghost use Rattle.tests_nodes.specs.Leading.{IsLed};

    ghost Value = { WorldKept };

    ghost view = { λ n. n.world };

    ghost invariant = { λ n. IsLed n.profile n.world };
}

/// A command or an event. Times are in microseconds, and nodes are named by their numbers.
#[derive(Clone, Copy)]
enum Call {
    /// The sender gets the object.
    Object(u64),
    Opens,
    /// The sender gets 64 octets for the open stream.
    Writes,
    Closes,
    Marks(u64),
    /// The sender writes a datagram.
    Sends(u64),
    /// The receiver has no hand-up, and its tick writes a datagram, or nothing.
    Ticks(u32, u64, Sent),
    /// The last datagram comes to the receiver.
    Comes(u32, u64),
}

/// A hand-up or news, as a test compares them.
#[derive(Clone, Copy, PartialEq, Eq)]
enum Seen {
    /// The receiver hands up the whole object.
    Up(u32),
    /// The member is listed past the last symbol of the object.
    Past(u32),
    /// Watermark 1 is satisfied.
    Done,
    Other,
}

/// The end of a tail.
#[derive(Clone, Copy, PartialEq, Eq)]
enum End {
    /// It takes this many turns of at most this many, with the steps of [`STEPS`]. Then this is the next draw.
    Takes(u64, u64, u32),
    Refused(TailFault),
    /// It takes other steps.
    Other,
}

/// Calls, then flushes that are lost, and then a tail.
#[derive(Clone, Copy)]
struct Row {
    /// Values in place of those of [`KEYS`].
    more: &'static [(Key, u32)],
    calls: &'static [Call],
    /// How many flushes are lost, two round trips of 10 ms apart, the first at 1,250 microseconds.
    flushes: u32,
    end: End,
}

/// The profile of all rows: two receivers, and 6 encoded symbols of an object with 4 source symbols.
const KEYS: [(Key, u32); 8] = [
    (Key::Receivers, 2),
    (Key::E, 64),
    (Key::B, 4),
    (Key::MaxN, 6),
    (Key::Octets, 4096),
    (Key::Gap, 250),
    (Key::Step, 250),
    (Key::K, 0),
];

fn set_all(given: &mut Given, keys: &[(Key, u32)]) {
    for (key, value) in keys {
        given.set(*key, *value);
    }
}

/// Returns the profile of [`KEYS`] with these values in place of theirs. Returns `None` if they break a rule.
fn profile_with(more: &[(Key, u32)]) -> Option<Profile> {
    let keys = KEYS;
    let mut given = Given::new();
    set_all(&mut given, &keys);
    set_all(&mut given, more);
    Profile::of(&given)
}

// Proof: a profile's numbers are in their ranges, once one of them is read.
fn is_in_range(profile: &Profile)
    ensures { InRange profile.now }
{
    let _step = profile.step;
}

/// Whether a receiver has no hand-up.
fn are_taken(world: &World, node: NodeId) -> bool
    requires { is_receiver world.now.p node ≡ true }
    ensures { result ≡ true → AreTaken (receiver_of world.now node) }
{
    world.receiver(node).ups() == 0
}

impl Nodes {
    fn new(alloc: Global, profile: &Profile) -> Result<Nodes, Memory> {
        let out = Datagram::new(alloc)?;
        let world = World::new(alloc, profile)?;
        let nodes = Nodes {
            profile: *profile,
            out,
            world,
        };
        Ok(nodes)
    }

    /// Whether the sender accepts a command.
    fn accepts(&mut self, job: Job, now: Moment) -> bool {
        self.world.job(BY, job, now).is_ok()
    }

    fn tick_sender(&mut self, now: Moment) -> Sent {
        self.world.tick_sender(now, &mut self.out)
    }

    /// Lets a receiver tick. Returns `None` if it has a hand-up, or is no receiver.
    fn tick_receiver(&mut self, node: NodeId, now: Moment) -> Option<Sent> {
        if !self.world.is_receiver(node) {
            return None;
        }
        if !are_taken(&self.world, node) {
            return None;
        }
        Some(self.world.tick_receiver(node, now, &mut self.out))
    }

    /// Delivers the last datagram to a member.
    fn deliver(&mut self, to: NodeId, now: Moment, draw: u32) -> Result<(), Memory> {
        if !self.world.is_member(to) {
            return Ok(());
        }
        self.world.deliver(to, self.out.bytes(), now, draw)
    }

    fn tail(self, alloc: Global, last: u32, draws: &mut Lcg64Xsh32) -> Result<TailEnd, TailFault> {
        let profile = self.profile;
        is_in_range(&profile);
        let mut world = self.world;
        run_tail(alloc, &mut world, &profile, Moment(u64::from(last)), draws)
    }
}

/// Whether a receiver's tick gives this.
fn ticks(nodes: &mut Nodes, number: u32, at: u64, wanted: Sent) -> bool {
    match NodeId::of(number) {
        Some(node) => nodes.tick_receiver(node, Moment(at)) == Some(wanted),
        None => false,
    }
}

/// Delivers the last datagram to a receiver with the next draw.
fn comes(nodes: &mut Nodes, number: u32, at: u64, draws: &mut Lcg64Xsh32) -> Result<bool, Memory> {
    let Some(node) = NodeId::of(number) else {
        return Ok(false);
    };
    let draw = next_draw(draws);
    nodes.deliver(node, Moment(at), draw)?;
    Ok(true)
}

/// Makes a call. Returns whether its result is the expected one.
fn does(
    nodes: &mut Nodes,
    alloc: Global,
    call: Call,
    draws: &mut Lcg64Xsh32,
) -> Result<bool, Memory> {
    match call {
        Call::Object(at) => {
            let bytes = filled(alloc, OBJECT)?;
            Ok(nodes.accepts(Job::Data { info: None, bytes }, Moment(at)))
        }
        Call::Opens => Ok(nodes.accepts(Job::Open, Moment(0))),
        Call::Writes => {
            let bytes = filled(alloc, &[(64, 1)])?;
            Ok(nodes.accepts(Job::Write { bytes }, Moment(0)))
        }
        Call::Closes => Ok(nodes.accepts(Job::Close, Moment(0))),
        Call::Marks(at) => Ok(nodes.accepts(Job::Mark { quorum: None }, Moment(at))),
        Call::Sends(at) => Ok(nodes.tick_sender(Moment(at)) == Sent::Datagram),
        Call::Ticks(number, at, wanted) => Ok(ticks(nodes, number, at, wanted)),
        Call::Comes(number, at) => comes(nodes, number, at, draws),
    }
}

/// Returns when the flush with this number comes, from 0, in microseconds.
fn flush_at(number: u32) -> u32 {
    number.saturating_mul(20_000).saturating_add(1250)
}

/// Lets the sender write flushes, which come to nobody. Returns whether it writes one each time.
fn flushes(nodes: &mut Nodes, count: u32) -> bool {
    for number in 0..count {
        let now = Moment(u64::from(flush_at(number)));
        if nodes.tick_sender(now) != Sent::Datagram {
            return false;
        }
    }
    true
}

/// Leads nodes by the calls and flushes of a row. Returns `None` if a result is not the expected one.
fn led(
    alloc: Global,
    profile: &Profile,
    row: &Row,
    draws: &mut Lcg64Xsh32,
) -> Result<Option<Nodes>, Memory> {
    let mut nodes = Nodes::new(alloc, profile)?;
    for call in row.calls {
        if !does(&mut nodes, alloc, *call, draws)? {
            return Ok(None);
        }
    }
    if !flushes(&mut nodes, row.flushes) {
        return Ok(None);
    }
    Ok(Some(nodes))
}

/// Whether a hand-up is the whole object.
fn is_object(up: &Up, wanted: &[u8]) -> bool {
    match up {
        Up::Object { index, bytes, .. } => *index == 0 && bytes.bytes() == wanted,
        _ => false,
    }
}

/// Returns news as a test compares them.
fn news_seen(news: News) -> Seen {
    match news {
        News::Past { node, at } => {
            let last = Position {
                index: 0,
                block: 0,
                symbol: 3,
            };
            if at == last {
                return Seen::Past(node.number());
            }
            Seen::Other
        }
        News::Done { mark, outcome } => {
            if mark == 1 && outcome == Outcome::Satisfied {
                return Seen::Done;
            }
            Seen::Other
        }
    }
}

/// Returns a step as a test compares it.
fn step_seen(step: &TailStep, wanted: &[u8]) -> Seen {
    match step {
        TailStep::Up { node, up } => {
            if is_object(up, wanted) {
                return Seen::Up(node.number());
            }
            Seen::Other
        }
        TailStep::News(news) => news_seen(*news),
    }
}

/// What a tail hands up and reports in which all goes well.
const STEPS: [Seen; 5] = [
    Seen::Up(2),
    Seen::Up(3),
    Seen::Past(2),
    Seen::Past(3),
    Seen::Done,
];

/// Whether the steps are those of [`STEPS`].
fn are_steps(steps: &[TailStep], object: &[u8]) -> bool {
    let wanted = STEPS;
    if steps.len() != wanted.len() {
        return false;
    }
    for (step, wanted) in steps.iter().zip(wanted.iter()) {
        if step_seen(step, object) != *wanted {
            return false;
        }
    }
    true
}

/// Returns the end of a tail as a row has it. `next` is the next draw.
fn end_of(alloc: Global, tail: Result<TailEnd, TailFault>, next: u32) -> Result<End, Memory> {
    match tail {
        Ok(end) => {
            let object = filled(alloc, OBJECT)?;
            if are_steps(end.steps.as_slice(), object.bytes()) {
                return Ok(End::Takes(end.turns, end.bound, next));
            }
            Ok(End::Other)
        }
        Err(fault) => Ok(End::Refused(fault)),
    }
}

/// Returns how the tail of a row ends. Returns `None` if a call before it has not the expected result.
fn ends(alloc: Global, row: &Row) -> Result<Option<End>, Memory> {
    let Some(profile) = profile_with(row.more) else {
        return Ok(None);
    };
    let mut draws = first_draws(&profile);
    match led(alloc, &profile, row, &mut draws)? {
        Some(nodes) => {
            let last = flush_at(row.flushes.saturating_sub(1));
            let tail = nodes.tail(alloc, last, &mut draws);
            let next = next_draw(&mut draws);
            Ok(Some(end_of(alloc, tail, next)?))
        }
        None => Ok(None),
    }
}

/// Lets the tail of each row end. The test fails at the first one whose end is not the expected one.
fn play(rt: &impl Abort, alloc: Global, rows: &[Row]) -> Result<(), Fail> {
    for (place, row) in rows.iter().enumerate() {
        let end = ends(alloc, row)?;
        assert!(rt; end == Some(row.end), "row {place}");
    }
    Ok(())
}

/// Both receivers miss a symbol, but not the same one. They say so in reply to the first flush, and their NACKs are lost.
const WORKED: &[Call] = &[
    Call::Object(250),
    Call::Sends(250),
    Call::Comes(2, 250),
    Call::Comes(3, 250),
    Call::Ticks(2, 250, Sent::Nothing),
    Call::Ticks(3, 250, Sent::Nothing),
    Call::Marks(500),
    Call::Sends(500),
    Call::Comes(3, 500),
    Call::Ticks(2, 500, Sent::Nothing),
    Call::Ticks(3, 500, Sent::Nothing),
    Call::Sends(750),
    Call::Comes(2, 750),
    Call::Ticks(2, 750, Sent::Nothing),
    Call::Ticks(3, 750, Sent::Nothing),
    Call::Sends(1000),
    Call::Comes(2, 1000),
    Call::Comes(3, 1000),
    Call::Ticks(2, 1000, Sent::Nothing),
    Call::Ticks(3, 1000, Sent::Nothing),
    Call::Sends(1250),
    Call::Comes(2, 1250),
    Call::Comes(3, 1250),
    Call::Ticks(2, 1250, Sent::Datagram),
    Call::Ticks(3, 1250, Sent::Datagram),
];

/// All symbols come to both receivers, which do not tick.
const REACHED: &[Call] = &[
    Call::Object(0),
    Call::Marks(0),
    Call::Sends(250),
    Call::Comes(2, 250),
    Call::Comes(3, 250),
    Call::Sends(500),
    Call::Comes(2, 500),
    Call::Comes(3, 500),
    Call::Sends(750),
    Call::Comes(2, 750),
    Call::Comes(3, 750),
    Call::Sends(1000),
    Call::Comes(2, 1000),
    Call::Comes(3, 1000),
];

const UNMARKED: &[Call] = &[Call::Object(0)];

const MARKED: &[Call] = &[Call::Object(0), Call::Marks(0)];

const STREAM: &[Call] = &[Call::Opens, Call::Writes, Call::Marks(0)];

const CLOSED: &[Call] = &[Call::Opens, Call::Writes, Call::Closes, Call::Marks(0)];

const TAKEN: [Row; 3] = [
    // A bound is 7 phases of 10 round trips.
    Row {
        more: &[],
        calls: WORKED,
        flushes: 0,
        end: End::Takes(160, 2800, 1_026_741_763),
    },
    // The next flush is 20 ms after the last one.
    Row {
        more: &[],
        calls: REACHED,
        flushes: 15,
        end: End::Takes(80, 2800, 3_233_537_623),
    },
    // 14 times 500 microseconds are just a round trip.
    Row {
        more: &[(Key::Grtt, 7000)],
        calls: MARKED,
        flushes: 0,
        end: End::Takes(5, 1960, 3_233_537_623),
    },
];

/// Where two faults apply, the first in the order of [`TailFault`] is the answer.
const REFUSED: [Row; 13] = [
    Row {
        more: &[],
        calls: UNMARKED,
        flushes: 0,
        end: End::Refused(TailFault::NoRequest),
    },
    Row {
        more: &[(Key::Mode, 1), (Key::Step, 0)],
        calls: UNMARKED,
        flushes: 0,
        end: End::Refused(TailFault::NoRequest),
    },
    Row {
        more: &[(Key::Mode, 1)],
        calls: MARKED,
        flushes: 0,
        end: End::Refused(TailFault::Mode),
    },
    Row {
        more: &[(Key::Mode, 1)],
        calls: STREAM,
        flushes: 0,
        end: End::Refused(TailFault::Mode),
    },
    Row {
        more: &[],
        calls: STREAM,
        flushes: 0,
        end: End::Refused(TailFault::Streams { count: 1 }),
    },
    Row {
        more: &[(Key::Step, 0)],
        calls: CLOSED,
        flushes: 0,
        end: End::Refused(TailFault::Streams { count: 1 }),
    },
    Row {
        more: &[(Key::Step, 0)],
        calls: MARKED,
        flushes: 0,
        end: End::Refused(TailFault::Step { step: 0 }),
    },
    Row {
        more: &[(Key::Step, 251), (Key::Grtt, 6999)],
        calls: MARKED,
        flushes: 0,
        end: End::Refused(TailFault::Step { step: 251 }),
    },
    Row {
        more: &[(Key::Grtt, 6999)],
        calls: MARKED,
        flushes: 0,
        end: End::Refused(TailFault::Pace { symbols: 6 }),
    },
    Row {
        more: &[(Key::Grtt, 6999), (Key::K, 8)],
        calls: MARKED,
        flushes: 0,
        end: End::Refused(TailFault::Pace { symbols: 6 }),
    },
    Row {
        more: &[(Key::K, 8)],
        calls: MARKED,
        flushes: 0,
        end: End::Refused(TailFault::Flushes { count: 0 }),
    },
    Row {
        more: &[],
        calls: REACHED,
        flushes: 16,
        end: End::Refused(TailFault::Flushes { count: 16 }),
    },
    Row {
        more: &[],
        calls: REACHED,
        flushes: 20,
        end: End::Refused(TailFault::Flushes { count: 20 }),
    },
];

#[test]
fn tails_take_turns(rt: HostRuntime) -> Result<(), Fail> {
    let rows = TAKEN;
    play(&rt, rt.alloc(), &rows)
}

#[test]
fn tails_are_refused(rt: HostRuntime) -> Result<(), Fail> {
    let rows = REFUSED;
    play(&rt, rt.alloc(), &rows)
}
