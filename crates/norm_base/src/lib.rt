//! The types and traits that most crates of normd use: ids (RFC 5740 section 4.1), moments, settings and datagrams. A reader meets [`NodeId`],
//! [`Moment`], [`Datagram`] and [`Profile`] first. The five traits of the outside are [`Source`], [`Sink`], [`Files`], [`Fabric`] and [`Clock`].
#![tactic(auto)]

// Of the outside only the traits and `Cause` stand here. A change of its objects in memory (norm_memory) or over the process (norm_host)
// then proves nothing above the traits again.
mod cause;
mod clock;
mod datagram;
mod fabric;
mod fault;
mod files;
mod given;
mod key;
mod kinds;
pub mod laws;
mod node;
mod notice;
mod octets;
mod profile;
mod sink;
mod source;

pub use crate::cause::Cause;
pub use crate::clock::Clock;
pub use crate::datagram::{DATAGRAM_ROOM, Datagram, SYMBOL_ROOM};
pub use crate::fabric::Fabric;
pub use crate::fault::{FabricFault, Failed, FileFault, Memory};
pub use crate::files::Files;
pub use crate::given::Given;
pub use crate::key::{KEYS, Key, KeyRow};
pub use crate::kinds::{FabricKind, Kind, Local, Mode, Sent};
pub use crate::node::{ID_COUNT, InstanceId, Moment, NodeId, Origin};
pub use crate::notice::Notice;
pub use crate::octets::{Octets, Text};
pub use crate::profile::Profile;
pub use crate::sink::Sink;
pub use crate::source::Source;
