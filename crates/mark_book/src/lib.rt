//! What a NORM sender knows of its receivers (RFC 5740 section 5.5.3): past which position each member is listed, which watermarks were made, and
//! what became of them.
//!
//! Callers meet [`Book`]; `norm_sender` drives it. `listings` keeps the members and `watermarks` the watermarks. `untold` changes the list
//! of members whose listing is to be reported.
#![tactic(auto)]

mod book;
pub mod laws;
mod listings;
mod untold;
mod watermark;
mod watermarks;

pub use crate::book::Book;
pub use crate::watermark::{OpenWatermark, keeps_oldest};
pub use norm_send_rules::{MarkFault, News, Outcome, StrikeFault};
