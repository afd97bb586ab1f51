//! Prints what the program left, as lines.

use crate::asked::Asked;
use norm_base::{NodeId, Sink};
use norm_memory::{MemFiles, MemSink};
use norm_text::Line;
use row_words::{Fault, print};
use std::alloc::Global;

/// The status of a call of the program, how many reads it asked for, what it wrote, and the files.
#[derive(Drop)]
pub(crate) struct Left {
    pub(crate) status: u8,
    pub(crate) reads: u64,
    pub(crate) output: MemSink,
    pub(crate) files: MemFiles,
}

/// Prints the name of a row.
pub(crate) fn print_name<K: Sink>(alloc: Global, name: &str, output: &mut K) -> Result<(), Fault> {
    let mut line = Line::begin(alloc, b"row", 0)?;
    line.word(name.as_bytes())?;
    print(line, output)
}

/// Whether each line of a hand-up ends with this text.
fn all_end_with(lines: &[u8], text: &[u8]) -> bool {
    for line in lines.split(|octet| *octet == b'\n') {
        if line.starts_with(b"up ") && !line.ends_with(text) {
            return false;
        }
    }
    true
}

/// Prints the status.
fn print_status<K: Sink>(alloc: Global, status: u8, output: &mut K) -> Result<(), Fault> {
    let mut line = Line::begin(alloc, b"status", 0)?;
    line.number(u64::from(status))?;
    print(line, output)
}

/// Prints whether each line of a hand-up ends with this text.
fn print_hand_ups<K: Sink>(
    alloc: Global,
    lines: &[u8],
    text: &str,
    output: &mut K,
) -> Result<(), Fault> {
    let mut line = Line::begin(alloc, b"hand-ups", 0)?;
    let is_so = all_end_with(lines, text.as_bytes());
    line.word(if is_so { b"yes" } else { b"no" })?;
    print(line, output)
}

/// Prints the status. After it, prints all that was written, or what the row asks about the hand-ups.
pub(crate) fn print_left<K: Sink>(
    alloc: Global,
    left: &Left,
    asked: &Asked,
    output: &mut K,
) -> Result<(), Fault> {
    print_status(alloc, left.status, output)?;
    let written = left.output.bytes();
    match &asked.hand_ups {
        Some(text) => print_hand_ups(alloc, written, text.as_str(), output),
        None => {
            output.write(written)?;
            Ok(())
        }
    }
}

/// Prints how many calls were made, by kind.
pub(crate) fn print_counts<K: Sink>(
    alloc: Global,
    counts: &[u64],
    output: &mut K,
) -> Result<(), Fault> {
    let mut line = Line::begin(alloc, b"calls", 0)?;
    line.numbers(counts)?;
    print(line, output)
}

/// Prints the datagram of this number, and who offered it.
pub(crate) fn print_offer<K: Sink>(
    alloc: Global,
    number: usize,
    from: NodeId,
    octets: &[u8],
    output: &mut K,
) -> Result<(), Fault> {
    let mut line = Line::begin(alloc, b"offer", 0)?;
    line.number(number as u64)?;
    line.number(u64::from(from.number()))?;
    line.contents(octets)?;
    print(line, output)
}

/// Prints that no datagram of this number was offered.
pub(crate) fn print_no_offer<K: Sink>(
    alloc: Global,
    number: usize,
    output: &mut K,
) -> Result<(), Fault> {
    let mut line = Line::begin(alloc, b"offer", 0)?;
    line.number(number as u64)?;
    print(line, output)
}

/// Prints the contents of a file, or only its name if there is no such file.
fn print_file<K: Sink>(
    alloc: Global,
    name: &str,
    content: Option<&[u8]>,
    output: &mut K,
) -> Result<(), Fault> {
    let mut line = Line::begin(alloc, b"file", 0)?;
    line.word(name.as_bytes())?;
    if let Some(octets) = content {
        line.contents(octets)?;
    }
    print(line, output)
}

/// Prints the files that the row asks for.
pub(crate) fn print_files<K: Sink>(
    alloc: Global,
    left: &Left,
    asked: &Asked,
    output: &mut K,
) -> Result<(), Fault> {
    for name in &asked.files {
        let name = name.as_str();
        print_file(alloc, name, left.files.content(name), output)?;
    }
    Ok(())
}
