//! [`FolderCause`], which [`FolderFiles::cause`](crate::FolderFiles::cause) returns.

use crate::instance_fault::InstanceFault;
use norm_base::Cause;
use std::fmt;

/// What a failed call of a folder's files was about, for people.
#[derive(Debug, Drop)]
pub enum FolderCause {
    /// A file could not be read, measured or written.
    File(Cause),
    /// No instance could be drawn for a send ([`stop`](crate::FolderFiles::stop)).
    Instance(InstanceFault),
}

impl fmt::Display for FolderCause {
    fn fmt<W: fmt::Write>(&self, f: &mut fmt::Formatter<W>) -> fmt::Result {
        match self {
            FolderCause::File(cause) => write!(f, "{cause}"),
            FolderCause::Instance(fault) => write!(f, "{fault}"),
        }
    }
}
