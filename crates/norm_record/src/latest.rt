//! The name by which an offered datagram is found again. Two datagrams may share one, so whoever finds one compares its octets.

ghost use Rattle.std.specs.Prelude.{◌≡◌};
ghost use Rattle.norm_record.specs.Names.{name_of};

use byteorder::{BigEndian, ByteOrder};
use norm_ext::places::{COMMON, SEQUENCE_AT};

/// A datagram's name: its sequence number and its source as one number of 48 bits (RFC 5740 section 4.1), or 0 if it is too short for the
/// common header.
#[tactic(auto, unfolding(crate::specs::Names::name_of))]
pub(crate) fn name_of(octets: &[u8]) -> u64
    ensures { result ≡ name_of octets.now }
{
    // Octets too short for a header share the name 0, which costs a comparison.
    if octets.len() < COMMON {
        return 0;
    }
    // The source stands right after the sequence number (RFC 5740 section 4.1).
    BigEndian::read_u48(octets.split_at(SEQUENCE_AT).1)
}
