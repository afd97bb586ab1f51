//! A line that sets a key, after it was read.

use norm_base::Key;

/// A key that a line sets. `value` is a number in its range, or the index of its word. `line` counts from 1.
#[derive(Clone, Copy, Debug, PartialEq, Eq)]
pub struct Setting {
    pub key: Key,
    pub value: u32,
    pub line: u32,
}
