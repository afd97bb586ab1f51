//! Folders: the manifest that goes out before their files, and the check of what a receiver hands up.
//!
//! [`write_manifest`] spells the [`Entry`] of each file as a line, and [`read_manifest`] reads the lines back. A [`Check`] takes a receiver's hand-ups
//! one after the other, and says whether they are a manifest and then its files. [`Unaccepted`], [`Unsatisfied`] and [`Unlike`] say why a folder was
//! not mirrored. What is proved of the definitions is in [`laws`].
#![tactic(auto)]

mod check;
mod entry;
pub mod laws;
mod outcome;
mod reading;
mod writing;

pub use crate::check::{Check, CheckFault};
pub use crate::entry::Entry;
pub use crate::outcome::{Unaccepted, Unlike, Unsatisfied};
pub use crate::reading::{ManifestFault, read_manifest};
pub use crate::writing::write_manifest;
