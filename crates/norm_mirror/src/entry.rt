//! A file of a folder.

use norm_base::Text;

/// A file of a folder: its name, its length in octets, and the SHA-256 digest of its octets.
#[derive(Debug, Drop)]
pub struct Entry {
    pub name: Text,
    pub len: u64,
    pub digest: [u8; 32],
}
