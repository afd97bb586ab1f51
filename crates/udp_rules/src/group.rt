//! A group that a node alone is to join, and the one that it then joins under its profile.

ghost use Rattle.std.specs.Prelude.{◌≡◌, ◌≤◌, min, unwrap_or};

use norm_base::Profile;
use std::net::Ipv4Addr;

/// The greatest port of a group, because the next one is used too.
const MOST_PORT: u16 = 65_534;

/// A group that a node alone is to join at its next starts: the broadcast address, and the port if it is not the profile's.
#[derive(Clone, Copy, Debug)]
pub struct Asked {
    pub address: Ipv4Addr,
    pub port: Option<u16>,
}

/// The broadcast address of a group, and the port that its sender sends to. Its receivers send to the next one.
#[derive(Clone, Copy, Debug)]
pub struct Group {
    pub address: Ipv4Addr,
    pub port: u16,
    ghost fits: { port ≤ 65534 },
}

impl Group {
    /// Returns the group that is asked for, with the profile's port if none is given. A port above [`MOST_PORT`] counts as that one.
    pub fn of(asked: &Asked, profile: &Profile) -> Group
        ensures address { result.address ≡ asked.now.address }
        ensures port { result.port ≡ min (unwrap_or asked.now.port profile.now.port) 65534 }
    {
        let address = asked.address;
        let port = asked.port.unwrap_or(profile.port).min(MOST_PORT);
        Group { address, port }
    }
}
