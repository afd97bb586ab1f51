//! What a node in a group reports for people: [`GroupNews`].

use crate::machine::SecondMachine;
use std::net::SocketAddr;
use std::{fmt, io};

/// What a network in a group reports for people.
#[derive(Clone, Copy, Debug)]
pub struct GroupNews {
    /// Where the node hears: at a receiver what the sender offers.
    pub hears_at: SocketAddr,
    /// The first machine that was passed over, because it sends as a member that is taken from another.
    pub second: Option<SecondMachine>,
    /// Why the last datagram could not be sent, if the network cannot be reached now.
    pub unsent: Option<Unsent>,
}

/// What cannot be sent now: to this address, by the number of the system's error.
#[derive(Clone, Copy, Debug)]
pub struct Unsent {
    pub address: SocketAddr,
    pub code: i32,
}

impl fmt::Display for Unsent {
    fn fmt<W: fmt::Write>(&self, f: &mut fmt::Formatter<W>) -> fmt::Result {
        let address = self.address;
        let error = io::Error::from_raw_os_error(self.code);
        write!(f, "cannot send to {address} now: {error}")
    }
}

/// A network that may be in a group, and reports that for people.
pub trait TellsGroup {
    /// Returns what there is to report. `None` if this is no node in a group.
    fn group_news(&self) -> Option<GroupNews>;
}
