//! The grammar of NORM messages (RFC 5740 section 4), and the parts that several messages share: header extensions, the FEC Object
//! Transmission Information, and repair requests.
//!
//! `specs/` has the whole grammar. `norm_objmsg`, `norm_cmdmsg` and `norm_fbmsg` read messages with [`header`], and lists of requests with
//! [`Requests::check`]. They write messages with [`pushing`], and check with [`fitting`] if a message can be written. `norm_codec` reads
//! reports with [`header`] and writes them with [`pushing`]. What was read lends [`Extensions`] and [`Requests`], over which senders and
//! receivers iterate. A receiver writes its requests with a [`RequestWriter`].
#![tactic(auto)]

mod extensions;
pub mod fitting;
mod fti;
mod head;
pub mod header;
mod instance_ids;
pub mod items;
mod kinds;
pub mod laws;
mod numbers;
mod object_ids;
pub mod places;
pub mod pushing;
mod refusal;
mod requests;
mod writer;

pub use crate::extensions::{Extensions, extensions_of};
pub use crate::fti::{Fti, fti_words, read_fti, write_fti};
pub use crate::head::{CmdHead, Item, ObjHead};
pub use crate::instance_ids::{MOST_RISE, is_above, rise};
pub use crate::kinds::{Form, MessageType, SubType, flags};
pub use crate::numbers::{read_16, read_32, read_name};
pub use crate::object_ids::{LAST_INDEX, index_named, object_id};
pub use crate::refusal::{ExtFault, Refusal};
pub use crate::requests::{Request, Requests, check_requests, requests_of};
pub use crate::writer::RequestWriter;
