//! Reads numbers at an offset of a slice: big-endian, as all numbers of messages are.

ghost use Rattle.std.specs.Prelude.{◌≡◌, ◌+◌, ◌≤◌, ◌<◌, length};
ghost use Rattle.norm_ext.specs.Numbers.{number, name_at};

use byteorder::{BigEndian, ByteOrder};
use fec_plan::PayloadId;

pub fn read_16(bytes: &[u8], at: usize) -> u16
    requires { at + 2 ≤ length bytes.now }
    ensures { result ≡ number 2 at bytes.now }
{
    BigEndian::read_u16(bytes.split_at(at).1)
}

pub fn read_32(bytes: &[u8], at: usize) -> u32
    requires { at + 4 ≤ length bytes.now }
    ensures { result ≡ number 4 at bytes.now }
{
    BigEndian::read_u32(bytes.split_at(at).1)
}

pub(crate) fn read_48(bytes: &[u8], at: usize) -> u64
    requires { at + 6 ≤ length bytes.now }
    ensures { result ≡ number 6 at bytes.now }
{
    BigEndian::read_u48(bytes.split_at(at).1)
}

/// Returns the symbol name at an offset: 24 bits of block and 8 of symbol.
pub fn read_name(bytes: &[u8], at: usize) -> PayloadId
    requires { at + 4 ≤ length bytes.now }
    ensures { result ≡ name_at at bytes.now }
{
    let name = read_32(bytes, at);
    PayloadId {
        block: name / 256,
        symbol: (name % 256) as u8,
    }
}
