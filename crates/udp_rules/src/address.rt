//! The addresses of a session's members at 127.0.0.1, and which member an address belongs to.

ghost use Rattle.std.specs.Prelude.{◌≡◌, ◌≤◌, ◌+◌, ◌<◌, true, if◌then◌else◌, IfSome, IfNone, Some, None};
ghost use Rattle.std.proofs.Props.{props};
ghost use Rattle.std.specs.Net.Addr.{ipv4_octets};
ghost use Rattle.norm_base.specs.Members.{is_node};
ghost use Rattle.udp_rules.specs.Addresses.{port_of, member_with, member_from, IsAt, everyone_here, IsForAll, gets_copy};

use norm_base::{NodeId, Profile};
use std::net::{Ipv4Addr, SocketAddr, SocketAddrV4};

/// A member and its address at 127.0.0.1.
// What is received goes up as this value: its node cannot be replaced by one that the address does not belong to.
#[derive(Clone, Copy, Debug)]
pub struct Located {
    pub profile: Profile,
    pub address: SocketAddr,
    pub node: NodeId,
    ghost known: { member_from profile address ≡ Some node } by { Prim.hlevel props },
}

/// Returns 127.0.0.1 with this port.
pub fn address_at(port: u16) -> SocketAddr
    ensures { IsAt result port }
{
    // Nothing but this machine: nobody is authenticated, so what comes from outside could speak in any member's name.
    SocketAddr::V4(SocketAddrV4::new(Ipv4Addr::new(127, 0, 0, 1), port))
}

/// Returns this machine's broadcast address, at which receivers hear what a hub sends to all.
pub fn everyone_here() -> Ipv4Addr
    ensures { ipv4_octets result ≡ everyone_here }
{
    Ipv4Addr::new(127, 255, 255, 255)
}

/// Returns this machine's broadcast address with this port.
pub fn for_all_at(port: u16) -> SocketAddr
    ensures { IsForAll result port }
{
    SocketAddr::V4(SocketAddrV4::new(everyone_here(), port))
}

/// Whether a node is a member of the profile: its sender or a receiver.
pub fn is_node(profile: &Profile, node: NodeId) -> bool
    ensures { result ≡ is_node profile.now node }
{
    node.number() == profile.sender || profile.is_receiver(node)
}

fn port_of(profile: &Profile, node: NodeId) -> u16
    requires { is_node profile.now node ≡ true }
    ensures { result ≡ port_of profile.now node }
{
    profile.port + 1 + (node.number() - profile.sender) as u16
}

pub fn address_of(profile: &Profile, node: NodeId) -> SocketAddr
    requires { is_node profile.now node ≡ true }
    ensures { IsAt result (port_of profile.now node) }
{
    address_at(port_of(profile, node))
}

/// Returns a member with its address, to which its own socket is bound.
#[tactic(auto, using(crate::proofs::AddressLemmas::known))]
pub fn with_address(profile: &Profile, node: NodeId) -> Located
    requires { is_node profile.now node ≡ true }
    ensures profile { result.profile ≡ profile.now }
    ensures node { result.node ≡ node }
{
    let address = address_of(profile, node);
    Located {
        profile: *profile,
        address,
        node,
    }
}

/// Returns the member with this index: the sender at 0, and then the receivers in the order of their ids.
pub fn member_at(profile: &Profile, place: u8) -> NodeId
    requires { place ≤ profile.now.receivers }
    ensures id { result ≡ profile.now.sender + place }
    ensures node { is_node profile.now result ≡ true }
{
    // It does not fail: the greatest sender leaves numbers for 16 receivers.
    NodeId::of(profile.sender + u32::from(place)).unwrap()
}

/// Returns the member at this port. The members have the ports after the hub's, in the order of their ids.
fn member_with(profile: &Profile, port: u16) -> Option<NodeId>
    ensures { result ≡ member_with profile.now port }
{
    let first = profile.port + 1;
    if port < first || port > first + u16::from(profile.receivers) {
        return None;
    }
    NodeId::of(profile.sender + u32::from(port - first))
}

/// Returns the member at this address. `None` unless it is 127.0.0.1 with a member's port.
fn member_from(profile: &Profile, address: &SocketAddr) -> Option<NodeId>
    ensures { result ≡ member_from profile.now address.now }
{
    match address {
        SocketAddr::V4(at) if at.ip().octets() == [127, 0, 0, 1] => member_with(profile, at.port()),
        _ => None,
    }
}

/// Returns the member that sends from this address, with the address. `None` if it is no member's.
pub fn heard_from(profile: &Profile, address: SocketAddr) -> Option<Located>
    ensures some { IfSome result (λ from. (from.profile ≡ profile.now) × (from.address ≡ address)) }
    ensures none { IfNone result (member_from profile.now address ≡ None) }
{
    match member_from(profile, &address) {
        Some(node) => Some(Located {
            profile: *profile,
            address,
            node,
        }),
        None => None,
    }
}

/// Whether `to` gets a copy of what `from` offers: both are members, and not the same one.
pub fn gets_copy(profile: &Profile, from: NodeId, to: NodeId) -> bool
    ensures { result ≡ gets_copy profile.now from to }
{
    is_node(profile, from) && is_node(profile, to) && to != from
}
