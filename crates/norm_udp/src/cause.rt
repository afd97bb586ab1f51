//! What a failed call was about: [`SocketCause`].

use norm_base::FabricKind;
use std::net::SocketAddr;
use std::{fmt, io};

/// What a failed call was about and why it failed, for people.
#[derive(Debug, Drop)]
pub enum SocketCause {
    /// A socket could not be made, bound to this address, or set to never wait. Also if a node alone is no member of the profile, with the
    /// hub's address.
    Bind {
        address: SocketAddr,
        error: io::Error,
    },
    /// A socket could not be connected to this address.
    Connect {
        address: SocketAddr,
        error: io::Error,
    },
    /// A group cannot be joined at this address, because it is no broadcast address of this machine.
    NoBroadcast {
        address: SocketAddr,
    },
    /// A datagram could not be sent to this address, for another reason than that it was lost.
    Send {
        address: SocketAddr,
        error: io::Error,
    },
    /// The receive failed at this address, for another reason than that nothing is there or a datagram was lost.
    Receive {
        address: SocketAddr,
        error: io::Error,
    },
    /// A member alone, or the hub, cannot start over this kind of network, which lies within one process. `norm_host` makes it.
    Within {
        fabric: FabricKind,
    },
}

/// Returns the word that a profile has for a network.
fn word_of(fabric: FabricKind) -> &'static str {
    match fabric {
        FabricKind::Direct => "direct",
        FabricKind::Chance => "chance",
        FabricKind::Udp => "udp",
    }
}

impl fmt::Display for SocketCause {
    fn fmt<W: fmt::Write>(&self, f: &mut fmt::Formatter<W>) -> fmt::Result {
        match self {
            SocketCause::Bind { address, error } => write!(f, "cannot bind {address}: {error}"),
            SocketCause::Connect { address, error } => {
                write!(f, "cannot connect to {address}: {error}")
            }
            SocketCause::NoBroadcast { address } => write!(
                f,
                "cannot join a group at {address}: it is no broadcast address of this machine"
            ),
            SocketCause::Send { address, error } => write!(f, "cannot send to {address}: {error}"),
            SocketCause::Receive { address, error } => {
                write!(f, "cannot receive at {address}: {error}")
            }
            SocketCause::Within { fabric } => {
                let word = word_of(*fabric);
                write!(
                    f,
                    "the fabric is {word}, a network within one process: a node of its own needs fabric = \"udp\""
                )
            }
        }
    }
}
