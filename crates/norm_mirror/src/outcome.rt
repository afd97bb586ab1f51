//! Why a folder was not mirrored: what was not sent, not confirmed, or handed up otherwise.

use crate::check::CheckFault;
use norm_base::{NodeId, Text};

/// What a sender refused for good of a folder.
#[derive(Debug, Drop)]
pub enum Unaccepted {
    Manifest,
    /// A file of `len` octets.
    File { name: Text, len: u64 },
}

/// A watermark that the sender gave up, and how many receivers had not confirmed it then.
#[derive(Clone, Copy, Debug, PartialEq, Eq)]
pub struct Unsatisfied {
    pub mark: u32,
    pub left: u32,
}

/// What is wrong with the hand-ups of a receiver.
#[derive(Debug, Drop)]
pub struct Unlike {
    pub node: NodeId,
    /// What the check refused. `None` if some hand-ups are missing.
    pub fault: Option<CheckFault>,
    /// The file that was due. `None` if none was: the manifest was due, or nothing more.
    pub name: Option<Text>,
}
