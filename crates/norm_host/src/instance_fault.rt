//! [`InstanceFault`], with which `normd` stops the files of a send ([`FolderFiles::stop`](crate::FolderFiles::stop)).

use std::{fmt, io};

/// What the user can do: a given instance is used even if it cannot be kept.
const ADVICE: &str = "give --instance I, or the key instance";

/// Why no instance could be drawn for a send.
#[derive(Debug, Drop)]
pub enum InstanceFault {
    /// Neither `XDG_STATE_HOME` nor `HOME` is a UTF-8 path that begins at the root.
    NoFolder,
    /// The number could not be read from or kept in the file at this path. `error` need not be of the file itself.
    File { path: String, error: io::Error },
}

impl fmt::Display for InstanceFault {
    fn fmt<W: fmt::Write>(&self, f: &mut fmt::Formatter<W>) -> fmt::Result {
        match self {
            InstanceFault::NoFolder => write!(
                f,
                "neither XDG_STATE_HOME nor HOME is set to a path that begins with a slash: {ADVICE}"
            ),
            InstanceFault::File { path, error } => {
                write!(f, "cannot keep the instance in {path}: {error}: {ADVICE}")
            }
        }
    }
}
