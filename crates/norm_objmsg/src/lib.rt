//! The messages that carry objects (RFC 5740 sections 4.2.1 and 4.2.2): NORM_INFO as [`InfoMsg`] and NORM_DATA as [`DataMsg`], which borrow from
//! the datagram. [`read_part`] reads the segment of a stream's symbol as a [`StreamPart`]. A sender writes these messages. `norm_codec`
//! reads and writes them too.
#![tactic(auto)]

pub mod grammar;

pub use crate::grammar::{
    DataMsg, InfoMsg, StreamPart, read_data, read_info, read_part, write_data, write_info,
};
pub use norm_ext::ObjHead;
