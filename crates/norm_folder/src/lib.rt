//! A folder before and after its session: what is read of its files, the script that sends it, the check of each receiver's hand-ups, and the
//! copies that are put.
//!
//! [`ready`] reads the files and returns their [`Entry`](norm_mirror::Entry)s, and [`script_of`] makes the script of these. Of the journal of its
//! session, [`first_unlike`] checks what each receiver handed up, and [`put_copies`] puts it. [`first_unaccepted`] and [`first_unsatisfied`] say
//! what was not sent, or not confirmed.
#![tactic(auto)]

mod asking;
mod checks;
mod copies;
mod entries;
pub mod laws;
mod order;
mod sending;

pub use crate::asking::{first_unaccepted, first_unsatisfied};
pub use crate::checks::first_unlike;
pub use crate::copies::put_copies;
pub use crate::entries::{Unready, ready};
pub use crate::sending::script_of;
