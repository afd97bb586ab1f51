//! What a receiver hears others ask for while it backs off (RFC 5401 section 3.2.2, RFC 5740 section 5.3). `norm_receiver` calls it:
//! 1. [`Heard::clear`] when a back-off begins.
//! 2. [`hear_requests`] for messages of others with requests that come during the back-off. It reads them into an [`Asked`], which is a
//!    buffer for one message, and merges all or none of them into the [`Heard`].
//! 3. `has_object`, `has_info`, `has_symbols`, `has_symbol` and `has_rest` when the back-off ends. The receiver sends no NACK if others asked
//!    for everything that it would ask for.
#![tactic(auto)]

mod asked;
mod fresh;
mod heard;
mod overhearing;
mod searching;

pub use crate::asked::Asked;
pub use crate::heard::Heard;
pub use crate::overhearing::hear_requests;
