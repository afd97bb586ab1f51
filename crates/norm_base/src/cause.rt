//! Why a call of an input, an output or files failed. `norm_host` keeps it for a message to the user.
//! Networks have a cause of their own, in `norm_udp`.

use std::{fmt, io};

/// What a failed call acted on, and its error. It is for people: no clause mentions it.
// Kept by the objects of the process, beside the count of faults that clauses speak of. So a cause can be said without a change of any trait or
// contract.
#[derive(Debug, Drop)]
pub enum Cause {
    /// The input could not be read.
    Input { error: io::Error },
    /// The output could not be written.
    Output { error: io::Error },
    /// The file with this path could not be opened, measured, read or written.
    File { path: String, error: io::Error },
}

impl fmt::Display for Cause {
    fn fmt<W: fmt::Write>(&self, f: &mut fmt::Formatter<W>) -> fmt::Result {
        match self {
            Cause::Input { error } => write!(f, "cannot read the input: {error}"),
            Cause::Output { error } => write!(f, "cannot write the output: {error}"),
            Cause::File { path, error } => write!(f, "cannot use the file {path}: {error}"),
        }
    }
}
