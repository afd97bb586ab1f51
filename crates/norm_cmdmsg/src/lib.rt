//! The commands of a sender (RFC 5740 section 4.2.3). [`read_command`] reads octets as a [`CommandMsg`], which borrows from them, and
//! [`write_command`] writes one. A sender writes its FLUSH and SQUELCH with this crate, and a receiver asks [`names`] if a FLUSH is for it.
//! `norm_codec` reads and writes all commands with this crate.
#![tactic(auto)]

mod command;
pub mod laws;
mod lists;
mod read;
mod write;

pub use crate::command::CommandMsg;
pub use crate::lists::{Nodes, Objects, names, nodes_of, objects_of};
pub use crate::read::read_command;
pub use crate::write::write_command;
pub use norm_ext::CmdHead;
