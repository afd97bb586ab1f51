//! Tests of the lines of a session: hand-ups, changes and the summary.
ghost use Rattle.std.specs.Prelude.{◌≡◌, None};

use fec_plan::Position;
use mark_book::{News, Outcome};
use norm_base::{InstanceId, Kind, Memory, Moment, NodeId, Octets, Origin, Profile};
use norm_journal::Totals;
use norm_memory::MemSink;
use norm_order::Up;
use norm_send_rules::Job;
use norm_sender::Sender;
use norm_text::Line;
use norm_turns::{SessionFault, write_end, write_news, write_up};
use std::alloc::Global;

/// Whether these octets were written, and no others. `false` if there was a fault.
fn is_written(output: Result<MemSink, SessionFault>, text: &[u8]) -> bool {
    match output {
        Ok(sink) => sink.bytes() == text,
        Err(_) => false,
    }
}

/// An empty sink.
fn empty_sink(alloc: Global) -> MemSink {
    MemSink::of(Vec::new(alloc), Vec::new(alloc))
}

/// A copy of these octets.
fn octets(alloc: Global, bytes: &[u8]) -> Result<Octets, Memory> {
    let mut list = Vec::new(alloc);
    for octet in bytes {
        list.push(*octet)?;
    }
    Ok(Octets::of(list))
}

/// A data object, handed up.
fn hello(alloc: Global) -> Result<Up, Memory> {
    let bytes = octets(alloc, b"hello")?;
    Ok(Up::Object {
        index: 0,
        kind: Kind::Data,
        info: None,
        bytes,
    })
}

/// A file, handed up.
fn file(alloc: Global) -> Result<Up, Memory> {
    let name = octets(alloc, b"hi.txt")?;
    let bytes = octets(alloc, b"hi")?;
    Ok(Up::Object {
        index: 0,
        kind: Kind::File,
        info: Some(name),
        bytes,
    })
}

/// One octet of a stream, handed up.
fn letter(alloc: Global) -> Result<Up, Memory> {
    let bytes = octets(alloc, b"A")?;
    Ok(Up::StreamBytes {
        index: 0,
        offset: 0,
        bytes,
    })
}

/// The hand-up of a row.
fn up_of(alloc: Global, row: u32) -> Result<Up, Memory> {
    match row {
        0 => hello(alloc),
        1 => file(alloc),
        2 => Ok(Up::StreamOpen { index: 0 }),
        3 => letter(alloc),
        4 => Ok(Up::StreamEnd { index: 0 }),
        _ => Ok(Up::Lost { index: 0 }),
    }
}

/// What is written of the hand-up of a row, if node 2 made it in instance 7.
fn up_written(alloc: Global, row: u32) -> Result<MemSink, SessionFault> {
    let node = NodeId::of(2).ok_or(Memory)?;
    let up = up_of(alloc, row)?;
    let mut line = Line::new(alloc);
    let mut output = empty_sink(alloc);
    write_up(&mut line, node, InstanceId(7), &up, &mut output)?;
    Ok(output)
}

/// The lines of hand-ups, by their rows.
const UPS: [(u32, &[u8]); 6] = [
    (0, b"up 2 7 0 data 5 - 68656c6c6f\n"),
    (1, b"up 2 7 0 file 2 68692e747874 6869\n"),
    (2, b"up 2 7 0 open\n"),
    (3, b"up 2 7 0 bytes 0 1 41\n"),
    (4, b"up 2 7 0 end\n"),
    (5, b"up 2 7 0 lost\n"),
];

#[test]
fn a_hand_up_is_written(rt: HostRuntime) {
    for (row, text) in UPS {
        let written = is_written(up_written(rt.alloc(), row), text);
        assert!(rt; written, "row {row}");
    }
}

/// Gives a command to a sender. Returns whether the sender took it.
fn gives(sender: &mut Sender, job: Job) -> bool
    requires { sender.old.window.filling ≡ None }
    ensures { sender.new.window.filling ≡ None }
{
    let by = Origin {
        producer: 1,
        number: 1,
    };
    sender.command(by, job, Moment(0)).is_ok()
}

/// A sender of instance 7. Its one receiver, node 2, has not confirmed its first watermark.
fn asking(alloc: Global) -> Result<Sender, Memory> {
    let bytes = octets(alloc, b"hello")?;
    let mut sender = Sender::new(alloc, &Profile::default(), InstanceId(7))?;
    let enqueued = gives(&mut sender, Job::Data { info: None, bytes });
    let marked = gives(&mut sender, Job::Mark { quorum: None });
    if enqueued && marked {
        Ok(sender)
    } else {
        Err(Memory)
    }
}

/// The change of a row.
fn news_of(node: NodeId, row: u32) -> News {
    let at = Position {
        index: 0,
        block: 0,
        symbol: 0,
    };
    let outcome = match row {
        0 => return News::Past { node, at },
        1 => Outcome::Satisfied,
        2 => Outcome::Expired { left: 1 },
        3 => Outcome::Cut,
        _ => Outcome::Open { left: 1 },
    };
    News::Done { mark: 1, outcome }
}

/// What is written of the change of a row.
fn news_written(alloc: Global, row: u32) -> Result<MemSink, SessionFault> {
    let node = NodeId::of(2).ok_or(Memory)?;
    let sender = asking(alloc)?;
    let mut line = Line::new(alloc);
    let mut output = empty_sink(alloc);
    write_news(alloc, &mut line, &sender, &news_of(node, row), &mut output)?;
    Ok(output)
}

/// The lines of changes, by their rows. A watermark that is open has none.
const NEWS: [(u32, &[u8]); 5] = [
    (0, b"past 2 7 0 0 0\n"),
    (1, b"done 1 satisfied\n"),
    (2, b"done 1 expired 2\n"),
    (3, b"done 1 cut\n"),
    (4, b""),
];

#[test]
fn a_change_is_written(rt: HostRuntime) {
    for (row, text) in NEWS {
        let written = is_written(news_written(rt.alloc(), row), text);
        assert!(rt; written, "row {row}");
    }
}

/// The summary line of these counts.
fn end_written(alloc: Global, totals: &Totals) -> Result<MemSink, SessionFault> {
    let mut line = Line::new(alloc);
    let mut output = empty_sink(alloc);
    write_end(&mut line, totals, &mut output)?;
    Ok(output)
}

#[test]
fn a_summary_is_written(rt: HostRuntime) {
    let totals = Totals {
        objects: 1,
        octets: 141,
        handed: 3,
        lost: 0,
        satisfied: 1,
        expired: 0,
        cut: 0,
    };
    let text = b"end objects 1 octets 141 handed 3 lost 0 satisfied 1 expired 0 cut 0\n";
    assert!(rt; is_written(end_written(rt.alloc(), &totals), text));
}
