//! Writes what messages have in common. Each call appends to the datagram, which needs room for it.

ghost use Rattle.std.specs.Prelude.{◌≡◌, ◌+◌, ◌*◌, ◌≤◌, ◌<◌, ◌++◌, length};
ghost use Rattle.norm_base.specs.Sizes.{datagram_room};
ghost use Rattle.fec_plan.specs.Payload.{name_octets};
ghost use Rattle.norm_ext.specs.Octets.{front_octets, object_octets, command_octets};
ghost use Rattle.byteorder.specs.Endian.{big_bytes};

use crate::head::{CmdHead, ObjHead};
use crate::header::{ENCODING_ID, VERSION};
use byteorder::{BigEndian, ByteOrder};
use fec_plan::PayloadId;
use norm_base::{Datagram, InstanceId, NodeId};

/// Appends a number in two octets, the high one first.
pub fn push_16(n: u16, out: &mut Datagram)
    requires { length out.old + 2 ≤ datagram_room }
    ensures { out.new ≡ out.old ++ big_bytes 2 n }
{
    let mut octets = [0u8; 2];
    BigEndian::write_u16(&mut octets, n);
    out.push(&octets);
}

/// Appends a number in four octets, the highest first.
pub fn push_32(n: u32, out: &mut Datagram)
    requires { length out.old + 4 ≤ datagram_room }
    ensures { out.new ≡ out.old ++ big_bytes 4 n }
{
    let mut octets = [0u8; 4];
    BigEndian::write_u32(&mut octets, n);
    out.push(&octets);
}

pub fn push_node(node: NodeId, out: &mut Datagram)
    requires { length out.old + 4 ≤ datagram_room }
    ensures { out.new ≡ out.old ++ big_bytes 4 node }
{
    push_32(node.number(), out);
}

pub fn push_instance(instance: InstanceId, out: &mut Datagram)
    requires { length out.old + 2 ≤ datagram_room }
    ensures { out.new ≡ out.old ++ big_bytes 2 instance }
{
    push_16(instance.0, out);
}

/// Appends the name of a symbol: three octets of block and one of symbol.
pub fn push_name(id: &PayloadId, out: &mut Datagram)
    requires { length out.old + 4 ≤ datagram_room }
    ensures { out.new ≡ out.old ++ name_octets id.now }
{
    out.push(&id.bytes());
}

/// Appends the common header: eight octets. `kind` is the code of the type, and `words` the length of the whole header.
pub fn push_front(kind: u8, words: u8, sequence: u16, source: NodeId, out: &mut Datagram)
    requires kind { kind < 16 }
    requires room { length out.old + 8 ≤ datagram_room }
    ensures { out.new ≡ out.old ++ front_octets kind words sequence source }
{
    out.push(&[16 * VERSION + kind, words]);
    push_16(sequence, out);
    push_32(source.number(), out);
}

/// Appends the eight octets that follow the common header in INFO and DATA. Among them is the FEC Encoding ID, 5.
pub fn push_object_head(head: &ObjHead, out: &mut Datagram)
    requires backoff { head.now.backoff < 16 }
    requires gsize { head.now.gsize < 16 }
    requires room { length out.old + 8 ≤ datagram_room }
    ensures { out.new ≡ out.old ++ object_octets head.now }
{
    push_16(head.instance.0, out);
    out.push(&[
        head.grtt,
        16 * head.backoff + head.gsize,
        head.flags,
        ENCODING_ID,
    ]);
    push_16(head.object, out);
}

/// Appends the five octets that follow the common header in a command, up to its sub-type.
pub fn push_command_head(head: &CmdHead, sub_type: u8, out: &mut Datagram)
    requires backoff { head.now.backoff < 16 }
    requires gsize { head.now.gsize < 16 }
    requires room { length out.old + 5 ≤ datagram_room }
    ensures { out.new ≡ out.old ++ command_octets head.now sub_type }
{
    push_16(head.instance.0, out);
    out.push(&[head.grtt, 16 * head.backoff + head.gsize, sub_type]);
}
