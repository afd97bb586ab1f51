//! Tests of `norm_codec` and of `RequestWriter` with worked datagrams: how they are refused, read and written.

ghost use Rattle.std.specs.Prelude.{◌≡◌, ◌≤◌, []};

use fec_plan::PayloadId;
use norm_base::{Datagram, InstanceId, Memory, NodeId};
use norm_cmdmsg::{CmdHead, CommandMsg};
use norm_codec::{Message, Refusal, decode, encode};
use norm_ext::{Form, Item, RequestWriter, flags};
use std::alloc::Global;
use std::process::Abort;
use std::test::Fail;

/// Returns a common header from source 1 with these first two octets.
fn header(first: u8, words: u8) -> [u8; 8] {
    [first, words, 0, 0, 0, 0, 0, 1]
}

/// Returns a DATA of instance 7 without extensions. `source` is its octet 7, and `encoding` its octet 13.
fn data(source: u8, encoding: u8) -> [u8; 20] {
    [
        0x12, 5, 0, 0, 0, 0, 0, source, 0, 7, 0x40, 0x41, 0, encoding, 0, 0, 0, 0, 0, 0,
    ]
}

/// Returns a DATA with one extension. `words` is the length that the extension claims, at octet 21.
fn extended(words: u8) -> [u8; 24] {
    [
        0x12, 6, 0, 0, 0, 0, 0, 1, 0, 7, 0x40, 0x41, 0, 5, 0, 0, 0, 0, 0, 0, 0x40, words, 0, 0,
    ]
}

/// Returns a NACK from node 2 to sender 1 with one request of this form. `length` is what the request claims, and `encoding` is its item's.
fn nack(form: u8, length: u8, encoding: u8) -> [u8; 36] {
    [
        0x14, 6, 0, 0, 0, 0, 0, 2, 0, 0, 0, 1, 0, 7, 0, 0, 0, 0, 0, 0, 0, 0, 0, 0, form, 1, 0,
        length, encoding, 0, 0, 0, 0, 0, 0, 1,
    ]
}

/// Returns why octets are refused, or `None` if they are read.
fn refusal_of(bytes: &[u8]) -> Option<Refusal> {
    match decode(bytes) {
        Ok(_) => None,
        Err(refusal) => Some(refusal),
    }
}

#[test]
fn headers_are_refused_as_in_worked_rows(rt: HostRuntime) {
    let seven = [0x12, 8, 0, 0, 0, 0, 0];
    assert!(rt; refusal_of(&seven) == Some(Refusal::Short { len: 7 }));
    for (first, words, refusal) in [
        (0x22, 8, Refusal::Version { v: 2 }),
        (0x19, 8, Refusal::BadType { t: 9 }),
        (0x12, 4, Refusal::HeaderLength { words: 4, least: 5 }),
        (0x12, 8, Refusal::PastEnd { words: 8, len: 8 }),
    ] {
        assert!(rt;
            refusal_of(&header(first, words)) == Some(refusal),
            "{first} and {words}"
        );
    }
    assert!(rt; refusal_of(&data(1, 129)) == Some(Refusal::FecId { id: 129 }));
    assert!(rt; refusal_of(&data(0, 5)) == Some(Refusal::BadNode));
    for words in [0, 3] {
        assert!(rt;
            refusal_of(&extended(words)) == Some(Refusal::Ext { at: 20 }),
            "{words}"
        );
    }
}

#[test]
fn requests_are_refused_as_in_worked_rows(rt: HostRuntime) {
    for (form, length, encoding, refusal) in [
        (4, 8, 5, Some(Refusal::RequestForm { at: 24 })),
        (3, 7, 5, Some(Refusal::RequestLength { at: 24 })),
        (3, 16, 5, Some(Refusal::RequestLength { at: 24 })),
        (3, 8, 129, Some(Refusal::ItemFec { at: 28, id: 129 })),
        (3, 8, 5, None),
    ] {
        let found = refusal_of(&nack(form, length, encoding));
        assert!(rt;
            found == refusal,
            "form {form}, {length} octets, encoding {encoding}"
        );
    }
}

/// A FLUSH of sender 1 and instance 7 up to the first symbol of object 0. It asks node 2 for an acknowledgement.
const FLUSH: [u8; 24] = [
    0x13, 5, 0, 1, 0, 0, 0, 1, 0, 7, 0x40, 0x41, 1, 5, 0, 0, 0, 0, 0, 0, 0, 0, 0, 2,
];

/// Returns the head of `FLUSH`.
fn flush_head(rt: &impl Abort) -> CmdHead {
    CmdHead {
        source: NodeId::of(1).expect(rt, "a member's id"),
        sequence: 1,
        instance: InstanceId(7),
        grtt: 64,
        backoff: 4,
        gsize: 1,
    }
}

/// Returns the octets of a message, or an empty datagram if the message cannot be written.
fn written(alloc: Global, msg: &Message<'_>) -> Result<Datagram, Memory> {
    let mut out = Datagram::new(alloc)?;
    if msg.fits() {
        encode(msg, &mut out);
    }
    Ok(out)
}

/// Whether octets are read as the message of `FLUSH`.
fn is_flush(rt: &impl Abort, bytes: &[u8]) -> bool {
    match decode(bytes) {
        Ok(Message::Command(msg)) => is_flush_command(rt, &msg),
        _ => false,
    }
}

/// Whether a command is the message of `FLUSH`.
fn is_flush_command(rt: &impl Abort, msg: &CommandMsg<'_>) -> bool {
    match msg {
        CommandMsg::Flush {
            head,
            object,
            id,
            exts,
            nodes,
        } => {
            *head == flush_head(rt)
                && *object == 0
                && *id == PayloadId::read([0; 4])
                && exts.octets().is_empty()
                && *nodes == [0, 0, 0, 2].as_slice()
        }
        _ => false,
    }
}

/// Reads octets and writes their message again. Returns an empty datagram if they are refused.
fn rewritten(alloc: Global, bytes: &[u8]) -> Result<Datagram, Memory> {
    match decode(bytes) {
        Ok(msg) => written(alloc, &msg),
        Err(_) => Datagram::new(alloc),
    }
}

#[test]
fn a_flush_is_read_and_written(rt: HostRuntime) -> Result<(), Fail> {
    let worked = FLUSH;
    assert!(rt; is_flush(&rt, &worked));
    let out = rewritten(rt.alloc(), &worked)?;
    assert!(rt; out.bytes() == worked.as_slice());
    Ok(())
}

/// Whether a writer with this limit accepts an erasure count of 1 for object 0, block 0.
fn takes_a_count(limit: u16, out: &mut Datagram) -> bool
    requires empty { out.old ≡ [] }
    requires limit { limit ≤ 1500 }
{
    let id = PayloadId::read([0, 0, 0, 1]);
    let item = Item { object: 0, id };
    let mut requests = RequestWriter::new(limit);
    requests.push_item(out, Form::Erasures, flags::WANT_SEGMENT, item, None)
}

#[test]
fn a_request_is_written_as_in_the_worked_row(rt: HostRuntime) -> Result<(), Fail> {
    let mut out = Datagram::new(rt.alloc())?;
    assert!(rt; !takes_a_count(11, &mut out), "eleven octets");
    out.clear();
    assert!(rt; takes_a_count(12, &mut out), "twelve octets");
    let worked = [3, 1, 0, 8, 5, 0, 0, 0, 0, 0, 0, 1];
    assert!(rt; out.bytes() == worked.as_slice());
    Ok(())
}
