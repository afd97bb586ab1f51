//! Tests of `norm_objmsg` and of transmission information: a worked NORM_DATA, and octets that are refused.

ghost use Rattle.std.specs.Prelude.{◌<◌};

use fec_plan::PayloadId;
use norm_base::{Datagram, InstanceId, NodeId};
use norm_ext::{Extensions, Fti, extensions_of, fti_words, read_fti};
use norm_objmsg::{DataMsg, ObjHead, read_data, write_data};
use std::process::Abort;
use std::test::Fail;

/// A NORM_DATA from source 1, instance 7, with sequence 0: object 0, which has 5 octets and is cut by E 64, B 4 and max_n 6.
const WORKED: [u8; 37] = [
    0x12, 0x08, 0, 0, 0, 0, 0, 1, 0, 7, 0x40, 0x41, 0, 5, 0, 0, 0, 0, 0, 0, 0x40, 3, 0, 0, 0, 0, 0,
    5, 0, 0x40, 4, 6, 0x68, 0x65, 0x6c, 0x6c, 0x6f,
];

/// Returns the head of `WORKED`.
fn worked_head(rt: &impl Abort) -> ObjHead
    ensures { (result.backoff < 16) × (result.gsize < 16) }
{
    ObjHead {
        source: NodeId::of(1).expect(rt, "a member's id"),
        sequence: 0,
        instance: InstanceId(7),
        grtt: 64,
        backoff: 4,
        gsize: 1,
        flags: 0,
        object: 0,
    }
}

/// The transmission information of `WORKED`.
const FTI: Fti = Fti {
    l: 5,
    e: 64,
    b: 4,
    max_n: 6,
};

#[test]
fn the_worked_message_is_written(rt: HostRuntime) -> Result<(), Fail> {
    let words = fti_words(&FTI);
    let exts = extensions_of(&words);
    let msg = DataMsg {
        head: worked_head(&rt),
        id: PayloadId::read([0, 0, 0, 0]),
        exts,
        payload: b"hello",
    };
    let mut out = Datagram::new(rt.alloc())?;
    out.clear();
    write_data(&msg, &mut out);
    assert!(rt; out.bytes() == WORKED.as_slice());
    Ok(())
}

/// Whether extensions have the transmission information of `WORKED`.
fn is_fti(exts: &Extensions<'_>) -> bool {
    read_fti(exts.iter()) == Some(FTI)
}

/// Whether octets are read as the message of `WORKED`.
fn is_worked(rt: &impl Abort, bytes: &[u8]) -> bool {
    match read_data(bytes) {
        Ok(msg) => {
            msg.head == worked_head(rt)
                && msg.id == PayloadId::read([0; 4])
                && msg.payload == b"hello".as_slice()
                && is_fti(&msg.exts)
        }
        Err(_) => false,
    }
}

#[test]
fn the_worked_message_is_read(rt: HostRuntime) {
    let bytes = WORKED;
    assert!(rt; is_worked(&rt, &bytes));
}

/// Whether octets are read as a NORM_DATA.
fn is_read(bytes: &[u8]) -> bool {
    read_data(bytes).is_ok()
}

#[test]
fn other_octets_are_not_read(rt: HostRuntime) {
    for (place, octet) in [
        (0, 0x22),
        (0, 0x11),
        (1, 4),
        (1, 10),
        (7, 0),
        (13, 129),
        (21, 4),
    ] {
        let mut bytes = WORKED;
        bytes[place] = octet;
        assert!(rt; !is_read(&bytes), "octet {place} is {octet}");
    }
    assert!(rt; !is_read(&WORKED[..31]), "31 octets");
    assert!(rt; is_read(&WORKED[..32]), "no payload");
}
