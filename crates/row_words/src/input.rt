//! Reads the input whole, before any of it is done.

use crate::fault::Fault;
use norm_base::Source;
use std::alloc::Global;

/// Returns all octets of the input.
///
/// # Errors
///
/// `Read` if a read fails, and `Memory` if the octets do not fit.
pub fn read_all<S: Source>(alloc: Global, input: &mut S) -> Result<Vec<u8>, Fault> {
    let mut text = Vec::new(alloc);
    let mut buffer = [0u8; 4096];
    loop {
        let Ok(n) = input.read(&mut buffer) else {
            return Err(Fault::Read);
        };
        if n == 0 {
            return Ok(text);
        }
        text.extend_from_slice(buffer.split_at(n).0)?;
    }
}
