//! How the line of progress and octets in hexadecimal are printed on standard error. [`Says`] tells what is asked for.

use crate::tally::Tally;
use std::fmt;

/// What to print on standard error of datagrams and of lines of output.
#[derive(Clone, Copy, Debug)]
pub enum Log {
    /// Nothing.
    Off,
    /// Each datagram that is offered or taken, in hexadecimal.
    Trace,
    /// The same, and each line of output without the contents of objects, after the clock's microseconds. So what several nodes of a machine
    /// printed can be merged.
    Record,
}

/// What to print on standard error, beside warnings. [`asked_in`](crate::asked_in) makes it.
#[derive(Clone, Copy, Debug)]
pub struct Says {
    /// At most once a second, how far a node alone over sockets is.
    pub progress: bool,
    /// Datagrams and lines of output.
    pub log: Log,
    /// Whether lines of output go to a terminal too. If so, the line of progress is wiped before each.
    pub beside: bool,
}

/// Goes to the beginning of the line, and wipes the line (ECMA-48, EL).
// The line before may have been longer.
const BEGIN: &str = "\r\u{1b}[K";

/// How far a node is, on one line that is drawn over the one before.
#[derive(Drop)]
pub(crate) struct Progress<'a> {
    pub tally: &'a Tally,
}

impl fmt::Display for Progress<'_> {
    fn fmt<W: fmt::Write>(&self, f: &mut fmt::Formatter<W>) -> fmt::Result {
        let octets = self.tally.octets.get();
        let objects = self.tally.objects.get();
        let repairs = self.tally.repairs.get();
        let past = self.tally.past.get();
        write!(
            f,
            "{BEGIN}{octets} octets, {objects} objects, {repairs} repairs, {past} receivers past the oldest watermark"
        )
    }
}

/// Draws the line of progress over the one before.
pub(crate) fn draw<R: Eprint>(rt: &R, tally: &Tally) {
    let progress = Progress { tally };
    // What cannot be said to a person is no fault of the node.
    let _ = eprint!(rt; "{progress}");
    tally.is_drawn.set(true);
}

/// Wipes the line of progress, if one is drawn, so that something else can be printed.
pub(crate) fn wipe<R: Eprint>(rt: &R, tally: &Tally) {
    if tally.is_drawn.get() {
        let _ = eprint!(rt; "{BEGIN}");
        tally.is_drawn.set(false);
    }
}

/// Ends the line of progress, if one is drawn. Call it after the program ended, before anything else is printed.
pub fn end_progress<R: Eprint>(rt: &R, tally: &Tally) {
    if tally.is_drawn.get() {
        let _ = eprintln!(rt;);
        tally.is_drawn.set(false);
    }
}

/// Octets in lower-case hexadecimal.
#[derive(Drop)]
pub(crate) struct Hex<'a> {
    pub octets: &'a [u8],
}

/// Returns the lower-case hexadecimal digit of four bits, or `?` for more.
fn digit(bits: u8) -> char {
    match char::from_digit(u32::from(bits), 16) {
        Some(digit) => digit,
        None => '?',
    }
}

impl fmt::Display for Hex<'_> {
    fn fmt<W: fmt::Write>(&self, f: &mut fmt::Formatter<W>) -> fmt::Result {
        for octet in self.octets {
            f.write_char(digit(octet >> 4))?;
            f.write_char(digit(octet & 15))?;
        }
        Ok(())
    }
}
