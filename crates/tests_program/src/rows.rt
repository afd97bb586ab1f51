//! Reads the rows of an input and runs them, line by line. `main` calls [`play_rows`].

use crate::asked::Asked;
use crate::call::Call;
use crate::left::print_name;
use crate::net::Net;
use crate::playing::play;
use norm_base::{Sink, Source};
use row_words::{Fault, Words, read_all};
use std::alloc::Global;
use std::sync::Wait;
use std::thread::Threads;

/// What the lines of a row say, from its first line up to the one that was read last.
#[derive(Drop)]
struct Row {
    call: Call,
    net: Net,
    asked: Asked,
}

impl Row {
    /// A row before its first line.
    fn new(alloc: Global) -> Row {
        Row {
            call: Call::new(alloc),
            net: Net::new(alloc),
            asked: Asked::new(alloc),
        }
    }

    /// Adds a line to the input of the program.
    fn add_line(&mut self, text: &str) -> Result<bool, Fault> {
        self.call.add_text(text)?;
        self.call.add_text("\n")?;
        Ok(true)
    }

    /// Adds a text to the input of the program, with no line feed.
    fn add_text(&mut self, text: &str) -> Result<bool, Fault> {
        self.call.add_text(text)?;
        Ok(true)
    }

    /// From now on, asks only how the hand-ups end.
    fn ask_hand_ups(&mut self, alloc: Global, text: &str) -> Result<bool, Fault> {
        self.asked.ask_hand_ups(alloc, text)?;
        Ok(true)
    }

    /// Adds what the words of a line say. Returns `false` if they are no line of a row.
    fn add_words(&mut self, alloc: Global, what: &str, rest: &str) -> Result<bool, Fault> {
        let mut words = Words::of(rest);
        let is_one = self.call.add(alloc, what, &mut words)?
            || self.net.add(alloc, what, &mut words)?
            || self.asked.add(alloc, what, &mut words)?;
        Ok(is_one && words.are_done())
    }

    /// Adds what a line says. Returns `false` if it is no line of a row.
    fn add(&mut self, alloc: Global, what: &str, rest: &str) -> Result<bool, Fault> {
        match what {
            "in" => self.add_line(rest),
            "last" => self.add_text(rest),
            "hand-ups" => self.ask_hand_ups(alloc, rest),
            what => self.add_words(alloc, what, rest),
        }
    }
}

/// Does what a line says. Returns `false` if it is no line of a row.
fn play_line<R: Threads + Wait + Sync, K: Sink>(
    rt: &R,
    alloc: Global,
    row: &mut Row,
    line: &str,
    output: &mut K,
) -> Result<bool, Fault> {
    let (what, rest) = line.split_once(' ').unwrap_or((line, ""));
    match what {
        "" => Ok(rest.is_empty()),
        "row" => {
            *row = Row::new(alloc);
            print_name(alloc, rest, output)?;
            Ok(true)
        }
        "run" => {
            play(rt, alloc, &row.call, &row.net, &row.asked, output)?;
            Ok(rest.is_empty())
        }
        what => row.add(alloc, what, rest),
    }
}

/// Runs the rows of an input in order.
///
/// # Errors
///
/// `Line` with the first line that is no line of a row, `NotText` if the input is not UTF-8, `Read` if a read fails, `Write` if a write fails,
/// and `Memory` if memory runs out.
pub(crate) fn play_rows<R: Threads + Wait + Sync, S: Source, K: Sink>(
    rt: &R,
    alloc: Global,
    input: &mut S,
    output: &mut K,
) -> Result<(), Fault> {
    let text = read_all(alloc, input)?;
    let Ok(text) = str::from_utf8(&text) else {
        return Err(Fault::NotText);
    };
    let mut row = Row::new(alloc);
    for (place, line) in text.lines().enumerate() {
        if !play_line(rt, alloc, &mut row, line, output)? {
            return Err(Fault::Line {
                number: place.saturating_add(1),
            });
        }
    }
    Ok(())
}
