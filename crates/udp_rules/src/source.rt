//! Of which member a datagram is, by the source that it names ([`other_in`]).

ghost use Rattle.std.specs.Prelude.{◌≡◌, Some, None, if◌then◌else◌};
ghost use Rattle.norm_base.specs.Members.{is_node};
ghost use Rattle.udp_rules.specs.Groups.{source_in, other_in};

use crate::address::gets_copy;
use norm_base::{NodeId, Profile};
use norm_ext::places::{COMMON, SOURCE_AT};
use norm_ext::read_32;

/// Returns the node id of the source. `None` if there are fewer octets than the common header has.
fn source_in(octets: &[u8]) -> Option<u32>
    ensures { result ≡ source_in octets.now }
{
    if octets.len() < COMMON {
        return None;
    }
    Some(read_32(octets, SOURCE_AT))
}

/// Returns the member with this number. `None` if the profile has none.
fn member_numbered(profile: &Profile, number: u32) -> Option<NodeId>
    ensures { result ≡ (if is_node profile.now number then Some number else None) }
{
    if number < profile.sender || number > profile.sender + u32::from(profile.receivers) {
        return None;
    }
    NodeId::of(number)
}

/// Returns the member that a datagram is of. `None` if it is the node itself, or no member of the profile.
pub fn other_in(profile: &Profile, node: NodeId, octets: &[u8]) -> Option<NodeId>
    ensures { result ≡ other_in profile.now node octets.now }
{
    let source = source_in(octets)?;
    let from = member_numbered(profile, source)?;
    if gets_copy(profile, from, node) {
        Some(from)
    } else {
        None
    }
}
