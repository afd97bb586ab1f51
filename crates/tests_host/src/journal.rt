//! Tests `norm_journal`: hand-ups of a session with several senders, which no session prints, and the line of the largest object.

use norm_base::{InstanceId, Kind, Memory, NodeId, Octets};
use norm_journal::{of_line, up_line};
use norm_order::Up;
use norm_text::Line;
use std::alloc::Global;
use std::test::Fail;

/// Returns the hand-up of a row.
fn up_of(alloc: Global, row: u32) -> Result<Up, Memory> {
    match row {
        0 => Ok(Up::Object {
            index: 0,
            kind: Kind::Data,
            info: None,
            bytes: Octets::of(Vec::from_slice(alloc, b"hello")?),
        }),
        1 => Ok(Up::StreamOpen { index: 1 }),
        _ => Ok(Up::Lost { index: 3 }),
    }
}

/// Whether a row's hand-up has this line. Node 2 hands it up, and node 1 sent it.
fn says_of(alloc: Global, row: u32, text: &[u8]) -> bool {
    let (Some(sender), Some(node), Ok(up)) = (NodeId::of(1), NodeId::of(2), up_of(alloc, row))
    else {
        return false;
    };
    let mut line = Line::new(alloc);
    match of_line(&mut line, sender, node, InstanceId(7), &up) {
        Ok(()) => line.bytes() == text,
        Err(_) => false,
    }
}

/// Rows of hand-ups, and their lines for a session with several senders.
const OF_LINES: [(u32, &[u8]); 3] = [
    (0, b"of 1 up 2 7 0 data 5 - 68656c6c6f\n"),
    (1, b"of 1 up 2 7 1 open\n"),
    (2, b"of 1 up 2 7 3 lost\n"),
];

#[test]
fn a_hand_up_has_the_line_of_its_sender(rt: HostRuntime) {
    for (row, text) in OF_LINES {
        assert!(rt; says_of(rt.alloc(), row, text), "row {row}");
    }
}

#[test]
fn the_largest_object_has_a_line(rt: HostRuntime) -> Result<(), Fail> {
    let Some(node) = NodeId::of(2) else {
        return Err("no member")?;
    };
    let up = Up::Object {
        index: 0,
        kind: Kind::Data,
        info: None,
        bytes: Octets::of(vec![in rt.alloc(); 0xa5u8; 16_777_216]?),
    };
    let mut line = Line::new(rt.alloc());
    up_line(&mut line, node, InstanceId(7), &up)?;
    assert!(rt; line.bytes().len() == 33_554_432 + 26);
    Ok(())
}
