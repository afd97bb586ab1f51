//! Scripts: what a session is asked to do, as lines of text, and their reader.
//!
//! [`read`] makes a [`Script`] (a profile and commands) of a text, or returns the first line without meaning and why it has none. [`read_script`]
//! returns only the number of that line. [`read_under`] reads a script whose profile is given, and [`read_commands`] returns only the line's
//! number then. [`generate`] writes a script to try a session with. The program reads with [`read`] and [`read_under`], and `norm_session` runs
//! what they read. [`read_folder`] reads keys and the names of a folder's files, and no program calls it yet. Readers of other lines use
//! [`split_at_first`], which cuts a text at the first of an octet, [`number_within`], [`name_of`], [`file_name_of`], and [`spelling_of`], which
//! finds what an editor did to a line.
#![tactic(auto)]

mod folder;
mod generator;
mod head;
mod laws;
mod lines;
mod meaning;
mod reader;
mod refusal;
mod script;
mod sentences;
mod setting;
mod spelling;
mod words;

pub use crate::folder::{Folder, MOST_FILES, Named, read_folder};
pub use crate::generator::generate;
pub use crate::laws::{reads_back, reads_generated, reads_scripts, scripts_can_run};
pub use crate::meaning::Meaning;
pub use crate::reader::{read, read_commands, read_script, read_under};
pub use crate::refusal::{Refusal, ScriptFault, Why};
pub use crate::script::{Line, Script, Verb};
pub use crate::setting::Setting;
pub use crate::spelling::spelling_of;
pub use crate::words::{file_name_of, name_of, number_within, split_at_first};
