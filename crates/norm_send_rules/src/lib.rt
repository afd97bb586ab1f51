//! The rules of a NORM sender (RFC 5740 section 5, RFC 5401) as definitions: its state, and what each command, datagram and tick changes
//! and answers. norm_sender is proved to follow them.
//!
//! The types are those of commands and their answers. A [`Job`] is answered by a [`Receipt`] or a [`SendFault`]. [`News`] reports a listing
//! or the [`Outcome`] of a watermark, and a [`Want`] is an info or a symbol to repeat or to send for the first time.
#![tactic(auto)]

mod deciding;
mod fault;
mod job;
pub mod laws;
mod news;
mod want;

pub use crate::deciding::{greater_count, needed_among};
pub use crate::fault::{EnqueueFault, MarkFault, SendFault, StreamFault, StrikeFault};
pub use crate::job::{Job, Receipt, copy_of_job};
pub use crate::news::{News, Outcome};
pub use crate::want::Want;
