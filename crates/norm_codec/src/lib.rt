//! Reads and writes any NORM message (RFC 5740 section 4). [`decode`] returns the [`Message`] that octets spell, or the first thing that is wrong
//! with them. [`encode`] writes a message. Senders, receivers, `norm_multi`, `norm_udp` and `norm_show` read datagrams with [`decode`].
#![tactic(auto)]

mod message;
mod reading;
mod writing;

pub use crate::message::Message;
pub use crate::reading::decode;
pub use crate::writing::encode;
pub use norm_ext::Refusal;
