//! Tests of a book of one receiver and of more: what each call answers, what is reported and in which order, what a quorum needs, and what
//! remains after a strike and a restart.

use fec_plan::Position;
use mark_book::{Book, OpenWatermark};
use norm_base::{Datagram, Memory, NodeId};
use norm_send_rules::{MarkFault, News, Outcome, StrikeFault};
use std::alloc::Global;
use std::process::Abort;

/// A symbol of an object's first block: the index of the object, and the symbol.
type At = (u32, u8);

fn position(at: At) -> Position {
    let (index, symbol) = at;
    Position {
        index,
        block: 0,
        symbol,
    }
}

/// A call of a book, with its expected answer. Nodes and watermarks are told by their numbers.
#[derive(Clone, Copy)]
enum Call {
    /// Asks for a watermark up to a position, for all members.
    Request(Option<At>, Result<u32, MarkFault>),
    /// Asks for a watermark up to a position, for this many members.
    Quorum(u32, Option<At>, Result<u32, MarkFault>),
    /// Expects whether this quorum is refused before anything else.
    IsNone(u32, bool),
    Ack(u32, At),
    Expire(u32),
    CutAll,
    /// Strikes a member. The next two expect that the node is not a member, or that it is the only one.
    Strikes(u32),
    IsNoMember(u32),
    IsLastMember(u32),
    Lists(u32, bool),
    Outcome(u32, Option<Outcome>),
    /// Expects a node that a watermark waits for, by its index among them.
    Pending(u32, u32, Option<u32>),
    Past(u32, Option<At>),
    Least(Option<At>),
    /// Expects the oldest open watermark, with its position.
    Oldest(Option<(u32, At)>),
    Open(u32),
    Untold(usize),
    Position(u32, Option<At>),
    /// Expects as the next news that a node is past a position.
    TellsPast(u32, At),
    TellsDone(u32, Outcome),
    TellsNothing,
}

/// Asks for a watermark, and tries again if memory ran out: the book is unchanged then.
fn request(book: &mut Book, at: Option<At>, quorum: Option<u32>) -> Result<u32, MarkFault> {
    match book.request(at.map(position), quorum) {
        Err(MarkFault::Memory) => book.request(at.map(position), quorum),
        answer => answer,
    }
}

fn strike(book: &mut Book, node: NodeId) -> Result<(), StrikeFault> {
    book.strike(node)
}

fn is_none(book: &Book, quorum: u32) -> bool {
    book.quorum_fault(Some(quorum)).is_some()
}

fn lists(book: &Book, node: NodeId) -> bool {
    book.lists(node)
}

fn open(book: &Book) -> u32 {
    book.open()
}

fn untold(book: &Book) -> usize {
    book.untold()
}

fn ack(book: &mut Book, node: NodeId, at: At) {
    book.ack(node, position(at));
}

fn expire(book: &mut Book, mark: u32) {
    book.expire(mark);
}

fn cut_all(book: &mut Book) {
    book.cut_all();
}

fn outcome(book: &Book, mark: u32) -> Option<Outcome> {
    book.outcome(mark)
}

fn pending(book: &Book, mark: u32, place: u32) -> Option<NodeId> {
    book.pending(mark, place)
}

fn past(book: &Book, node: NodeId) -> Option<Position> {
    book.past(node)
}

fn least(book: &Book) -> Option<Position> {
    book.least()
}

fn oldest(book: &Book) -> Option<OpenWatermark> {
    book.oldest()
}

/// Returns an open watermark with this number and position.
fn watermark(open: (u32, At)) -> OpenWatermark {
    let (mark, at) = open;
    OpenWatermark {
        mark,
        at: position(at),
    }
}

fn position_of(book: &Book, mark: u32) -> Option<Position> {
    book.position(mark)
}

fn news(book: &mut Book) -> Option<News> {
    book.news()
}

/// Returns the id with this number.
fn node(rt: &impl Abort, n: u32) -> NodeId {
    NodeId::of(n).expect(rt, "a member's id")
}

/// Makes a call that reads. Returns whether it gave the expected answer.
fn is_answered(rt: &impl Abort, book: &Book, call: Call) -> bool {
    match call {
        Call::Outcome(mark, answer) => outcome(book, mark) == answer,
        Call::Pending(mark, place, answer) => {
            pending(book, mark, place).map(|node| node.number()) == answer
        }
        Call::Past(n, answer) => past(book, node(rt, n)) == answer.map(position),
        Call::Least(answer) => least(book) == answer.map(position),
        Call::Oldest(answer) => oldest(book) == answer.map(watermark),
        Call::IsNone(quorum, answer) => is_none(book, quorum) == answer,
        Call::Lists(n, answer) => lists(book, node(rt, n)) == answer,
        Call::Open(answer) => open(book) == answer,
        Call::Untold(answer) => untold(book) == answer,
        Call::Position(mark, answer) => position_of(book, mark) == answer.map(position),
        _ => false,
    }
}

/// Makes a strike, or a call that reads. Returns whether it gave the expected answer.
fn is_struck(rt: &impl Abort, book: &mut Book, call: Call) -> bool {
    match call {
        Call::Strikes(n) => strike(book, node(rt, n)).is_ok(),
        Call::IsNoMember(n) => {
            let node = node(rt, n);
            strike(book, node) == Err(StrikeFault::NotMember { node })
        }
        Call::IsLastMember(n) => {
            let node = node(rt, n);
            strike(book, node) == Err(StrikeFault::LastMember { node })
        }
        _ => is_answered(rt, book, call),
    }
}

/// Makes a call. Returns whether it gave the expected answer.
fn does(rt: &impl Abort, book: &mut Book, call: Call) -> bool {
    match call {
        Call::Request(at, answer) => request(book, at, None) == answer,
        Call::Quorum(q, at, answer) => request(book, at, Some(q)) == answer,
        Call::Ack(n, at) => {
            ack(book, node(rt, n), at);
            true
        }
        Call::Expire(mark) => {
            expire(book, mark);
            true
        }
        Call::CutAll => {
            cut_all(book);
            true
        }
        Call::TellsPast(n, at) => {
            let node = node(rt, n);
            let at = position(at);
            news(book) == Some(News::Past { node, at })
        }
        Call::TellsDone(mark, outcome) => news(book) == Some(News::Done { mark, outcome }),
        Call::TellsNothing => news(book).is_none(),
        _ => is_struck(rt, book, call),
    }
}

/// Returns a book of these receivers.
fn book_over(rt: &impl Abort, alloc: Global, nodes: &[NodeId]) -> Book {
    assert!(rt; 1 <= nodes.len() && nodes.len() <= 16);
    match Book::new(alloc, nodes) {
        Ok(book) => book,
        Err(Memory) => panic!(rt; "no memory for a book"),
    }
}

/// Makes the calls in order. A wrong answer fails the test.
fn play(rt: &impl Abort, book: &mut Book, calls: &[Call]) {
    for (place, call) in calls.iter().enumerate() {
        let is_so = does(rt, book, *call);
        assert!(rt; is_so, "call {place}");
    }
}

/// A watermark is satisfied once its only receiver is past it. An acknowledgement of another node changes nothing.
const ONE: [Call; 13] = [
    Call::Request(None, Err(MarkFault::NothingEnqueued)),
    Call::Request(Some((0, 0)), Ok(1)),
    Call::Outcome(1, Some(Outcome::Open { left: 1 })),
    Call::Pending(1, 0, Some(2)),
    Call::Ack(2, (0, 0)),
    Call::Outcome(1, Some(Outcome::Satisfied)),
    Call::Pending(1, 0, None),
    Call::Request(Some((0, 0)), Ok(2)),
    Call::Outcome(2, Some(Outcome::Satisfied)),
    Call::Ack(9, (7, 0)),
    Call::Past(9, None),
    Call::Least(Some((0, 0))),
    Call::Outcome(3, None),
];

/// After `ONE` and sixteen watermarks more, which wait for a later object.
const FULL: [Call; 5] = [
    Call::Request(Some((1, 0)), Err(MarkFault::TooMany { count: 16 })),
    Call::Oldest(Some((3, (1, 0)))),
    Call::Open(16),
    Call::Position(18, Some((1, 0))),
    Call::Outcome(19, None),
];

#[test]
fn a_watermark_is_satisfied_once_its_one_receiver_is_past_it(rt: HostRuntime) {
    let (first, last) = (ONE, FULL);
    let mut book = book_over(&rt, rt.alloc(), &[node(&rt, 2)]);
    play(&rt, &mut book, &first);
    for mark in 3..19u32 {
        play(&rt, &mut book, &[Call::Request(Some((1, 0)), Ok(mark))]);
    }
    play(&rt, &mut book, &last);
}

/// Receivers 5, 2 and 3. Listings are reported before outcomes, in order of node, each once and with its latest position.
const TOLD: [Call; 17] = [
    Call::Request(Some((1, 3)), Ok(1)),
    Call::Request(Some((0, 1)), Ok(2)),
    Call::Ack(5, (0, 1)),
    Call::Outcome(2, Some(Outcome::Open { left: 2 })),
    Call::Ack(5, (1, 3)),
    Call::Ack(5, (0, 0)),
    Call::Ack(2, (2, 0)),
    Call::Least(None),
    Call::Outcome(1, Some(Outcome::Open { left: 1 })),
    Call::Ack(3, (1, 3)),
    Call::Untold(5),
    Call::TellsPast(2, (2, 0)),
    Call::TellsPast(3, (1, 3)),
    Call::TellsPast(5, (1, 3)),
    Call::TellsDone(1, Outcome::Satisfied),
    Call::TellsDone(2, Outcome::Satisfied),
    Call::TellsNothing,
];

#[test]
fn listings_are_told_before_outcomes_and_each_change_once(rt: HostRuntime) {
    let calls = TOLD;
    let nodes = [node(&rt, 5), node(&rt, 2), node(&rt, 3)];
    let mut book = book_over(&rt, rt.alloc(), &nodes);
    play(&rt, &mut book, &calls);
}

/// Receivers 2 and 3. A restart cuts open watermarks and forgets listings.
const RESTARTED: [Call; 12] = [
    Call::Request(Some((0, 0)), Ok(1)),
    Call::Request(Some((4, 0)), Ok(2)),
    Call::Ack(3, (0, 0)),
    Call::Expire(1),
    Call::Expire(1),
    Call::CutAll,
    Call::Past(3, None),
    Call::Request(Some((0, 0)), Ok(3)),
    Call::Oldest(Some((3, (0, 0)))),
    Call::TellsDone(1, Outcome::Expired { left: 1 }),
    Call::TellsDone(2, Outcome::Cut),
    Call::TellsNothing,
];

#[test]
fn a_restart_cuts_watermarks_and_forgets_listings(rt: HostRuntime) {
    let calls = RESTARTED;
    let mut book = book_over(&rt, rt.alloc(), &[node(&rt, 2), node(&rt, 3)]);
    play(&rt, &mut book, &calls);
}

/// Receivers 2, 3 and 4. A quorum is met by that many members, whichever they are. It is refused if it is 0 or more than there are
/// receivers.
const QUORUMS: [Call; 16] = [
    Call::Quorum(0, None, Err(MarkFault::Quorum { q: 0 })),
    Call::Quorum(4, Some((0, 0)), Err(MarkFault::Quorum { q: 4 })),
    Call::Quorum(3, None, Err(MarkFault::NothingEnqueued)),
    Call::IsNone(4, true),
    Call::IsNone(3, false),
    Call::Quorum(1, Some((0, 0)), Ok(1)),
    Call::Quorum(2, Some((0, 0)), Ok(2)),
    Call::Request(Some((0, 0)), Ok(3)),
    Call::Ack(3, (0, 0)),
    Call::Outcome(1, Some(Outcome::Satisfied)),
    Call::Outcome(2, Some(Outcome::Open { left: 2 })),
    Call::Oldest(Some((2, (0, 0)))),
    Call::Ack(2, (0, 1)),
    Call::Outcome(2, Some(Outcome::Satisfied)),
    Call::Outcome(3, Some(Outcome::Open { left: 1 })),
    Call::Quorum(2, Some((0, 0)), Ok(4)),
];

#[test]
fn a_quorum_is_met_by_so_many_members(rt: HostRuntime) {
    let calls = QUORUMS;
    let nodes = [node(&rt, 2), node(&rt, 3), node(&rt, 4)];
    let mut book = book_over(&rt, rt.alloc(), &nodes);
    play(&rt, &mut book, &calls);
}

/// Receivers 2, 3 and 4. Nothing waits for a struck node or reports it, and the last member can't be struck.
const STRUCK: [Call; 19] = [
    Call::Request(Some((0, 0)), Ok(1)),
    Call::Quorum(3, Some((0, 1)), Ok(2)),
    Call::Ack(2, (0, 0)),
    Call::Ack(3, (0, 1)),
    Call::IsNoMember(9),
    Call::Strikes(4),
    Call::Outcome(1, Some(Outcome::Satisfied)),
    Call::Outcome(2, Some(Outcome::Open { left: 1 })),
    Call::IsNoMember(4),
    Call::Lists(4, false),
    Call::Ack(4, (0, 1)),
    Call::Least(Some((0, 0))),
    Call::Strikes(2),
    Call::IsLastMember(3),
    Call::Untold(3),
    Call::TellsPast(3, (0, 1)),
    Call::TellsDone(1, Outcome::Satisfied),
    Call::TellsDone(2, Outcome::Satisfied),
    Call::TellsNothing,
];

#[test]
fn a_struck_node_is_waited_for_no_more(rt: HostRuntime) {
    let calls = STRUCK;
    let nodes = [node(&rt, 2), node(&rt, 3), node(&rt, 4)];
    let mut book = book_over(&rt, rt.alloc(), &nodes);
    play(&rt, &mut book, &calls);
}

/// Receivers 2 and 3. A struck node stays struck after a restart, and a quorum may still be as large as the profile's number of receivers.
const BEHIND: [Call; 11] = [
    Call::Request(Some((0, 0)), Ok(1)),
    Call::Ack(2, (0, 0)),
    Call::Strikes(3),
    Call::CutAll,
    Call::Lists(3, false),
    Call::Quorum(2, Some((0, 0)), Ok(2)),
    Call::Pending(2, 0, Some(2)),
    Call::Pending(2, 1, None),
    Call::Ack(3, (0, 0)),
    Call::Ack(2, (0, 0)),
    Call::Outcome(2, Some(Outcome::Satisfied)),
];

#[test]
fn a_restart_behind_a_strike_keeps_the_struck(rt: HostRuntime) {
    let calls = BEHIND;
    let mut book = book_over(&rt, rt.alloc(), &[node(&rt, 2), node(&rt, 3)]);
    play(&rt, &mut book, &calls);
}

/// Returns the octets of the nodes that are not listed past a position.
fn written(rt: &impl Abort, alloc: Global, book: &Book, at: At) -> Datagram {
    let Ok(mut out) = Datagram::new(alloc) else {
        panic!(rt; "no memory for a datagram");
    };
    book.write_pending(position(at), &mut out);
    out
}

#[test]
fn a_flush_names_all_pending_members(rt: HostRuntime) {
    let mut book = book_over(
        &rt,
        rt.alloc(),
        &[node(&rt, 258), node(&rt, 3), node(&rt, 2)],
    );
    ack(&mut book, node(&rt, 3), (0, 0));
    let out = written(&rt, rt.alloc(), &book, (0, 0));
    let octets = [0, 0, 1, 2, 0, 0, 0, 2u8];
    assert!(rt; out.bytes() == octets.as_slice());
}
