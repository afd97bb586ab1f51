//! A group as words name it: [`GroupAddress`].

use std::net::Ipv4Addr;

/// A group that a node of its own joins: a broadcast address, and its port. `None` is the profile's port.
#[derive(Clone, Copy, Debug)]
pub struct GroupAddress {
    pub address: Ipv4Addr,
    pub port: Option<u16>,
}
