//! A stream of a sender's window, open or closed (RFC 5740 section 4.2.1 on NORM_OBJECT_STREAM). Its blocks are coded by RFC 5510.
//!
//! `tx_window` makes a [`HeldStream`] for each stream that it opens, writes to it, marks each segment that is sent, and asks whether all
//! was sent. If the rules let it, the stream gives up blocks for room by itself.
//!
//! - `held`: the [`HeldStream`], which has a buffer and its marks, and decides which blocks go for room
//! - `marks`: a mark for each closed segment that is kept, and how many from the first on were sent without a gap
//! - `stream`: a [`StreamBuf`], which cuts what is written into segments, and appends the symbols of those that are closed
//! - `rows`: the ring of symbol buffers. That of a closed segment has its header, its octets and zeros. The parity of a block is made of
//!   its buffers.
#![tactic(auto)]

mod held;
pub mod laws;
mod marks;
mod rows;
mod stream;

pub use crate::held::HeldStream;
pub use crate::stream::StreamBuf;
pub use norm_send_rules::StreamFault;
