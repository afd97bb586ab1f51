//! Profiles of the nodes of a session, as TOML documents with the keys that scripts have too. [`load_profile`] reads one from a file, and
//! [`load_document`] also returns the first instance that it gives. [`read_document`] and [`read_text`] read one from memory. A
//! [`ProfileRefusal`] says why a document is refused, and names the key if it is for one.
#![tactic(auto)]

mod document;
mod loading;
mod reader;
mod reason;
mod refusal;

pub use crate::document::Document;
pub use crate::loading::{LoadFault, load_document, load_profile};
pub use crate::reader::{read_document, read_text};
pub use crate::refusal::ProfileRefusal;
