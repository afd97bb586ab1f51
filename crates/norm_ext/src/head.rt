//! Header fields that several messages share.

use fec_plan::PayloadId;
use norm_base::{InstanceId, NodeId};

/// The fields at the beginning of INFO and DATA, without those that are always the same or follow from the rest: version, type, length of the
/// header and FEC Encoding ID. `backoff` and `gsize` have four bits each: what has more cannot be written.
#[derive(Clone, Copy, Debug, PartialEq, Eq)]
pub struct ObjHead {
    pub source: NodeId,
    pub sequence: u16,
    pub instance: InstanceId,
    pub grtt: u8,
    pub backoff: u8,
    pub gsize: u8,
    pub flags: u8,
    /// The object transport id.
    pub object: u16,
}

/// The fields at the beginning of a command up to its sub-type, without version, type and length of the header. `backoff` and `gsize` have four
/// bits each: what has more cannot be written.
#[derive(Clone, Copy, Debug, PartialEq, Eq)]
pub struct CmdHead {
    pub source: NodeId,
    pub sequence: u16,
    pub instance: InstanceId,
    pub grtt: u8,
    pub backoff: u8,
    pub gsize: u8,
}

/// An object, by its transport id, and one of its symbols: an item of a request, or what a flush acknowledgement confirms. In a request of form
/// erasures, `id.symbol` is how many symbols of the block are requested.
#[derive(Clone, Copy, Debug, PartialEq, Eq)]
pub struct Item {
    /// The object transport id.
    pub object: u16,
    pub id: PayloadId,
}
