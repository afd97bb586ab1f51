//! Prints an answer.

use crate::fault::Fault;
use norm_base::Sink;
use norm_text::Line;

/// Ends a line and writes it.
///
/// # Errors
///
/// `Write` if the write fails, and `Memory` if memory runs out.
pub fn print<K: Sink>(line: Line, output: &mut K) -> Result<(), Fault> {
    let octets = line.end()?;
    output.write(&octets)?;
    Ok(())
}
