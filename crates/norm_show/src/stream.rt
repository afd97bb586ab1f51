//! Shows an input while it arrives. [`show`] writes the line of each datagram as soon as its line of the input ends, and keeps only
//! the beginning of the next one. `norm_program` calls it.

ghost use Rattle.std.specs.Prelude.{◌≡◌, ◌+◌, ◌≤◌, ◌<◌, ◌^◌, ◌||◌, ℕ, List, [], ◌∷◌, ◌++◌, IfOk, IfErr, OnOk, None, length};
ghost use Rattle.norm_base.specs.Told.{Pieces};
ghost use Rattle.norm_script.specs.Text.{split_at_first};
ghost use Rattle.norm_show.specs.Showing.{Showing, datagram_in, why_none, line_shown};
ghost use Rattle.norm_show.specs.Progress.{Progress, progress_opening, shown_from, Shows, ShowsLine, ShowsEnd, Leaves, ShowsAll, ShowsLess};
ghost use Rattle.norm_show.specs.ShowCause.{WriteCause, ReadCause};

use crate::fault::{NoDatagram, ShowFault};
use crate::shown::show_line;
use hex::FromHexError;
use norm_base::{Failed, Memory, Octets, Sink, Source};
use norm_script::{spelling_of, split_at_first};
use std::alloc::Global;
use std::marker::Model;

/// The most digits of a line. A longer one ends the show as soon as it is too long.
// Two digits for each of the 1,500 octets that a datagram has at most.
const MOST_DIGITS: usize = 3000;
/// The most octets that one read of the input asks for.
// Our own choice: some lines of full size in one read, and still on the stack.
const PIECE: usize = 16_384;

const LINE_FEED: u8 = b'\n';

/// Returns the datagram that a line spells in digits of either case. `None` if it spells none, or has more than 3,000 octets.
///
/// # Errors
///
/// `Memory` if memory runs out.
pub fn datagram_in(alloc: Global, line: &[u8]) -> Result<Option<Octets>, Memory>
    ensures { IfOk result (λ datagram. datagram ≡ datagram_in line.now) }
{
    if line.len() > MOST_DIGITS {
        return Ok(None);
    }
    match hex::decode(alloc, line) {
        Ok(octets) => Ok(Some(Octets::of(octets))),
        Err(FromHexError::OutOfMemory) => Err(Memory),
        Err(_) => Ok(None),
    }
}

/// Returns why a line that is not empty is no datagram. Call it if [`datagram_in`] returned `None`.
pub fn why_none(line: &[u8]) -> NoDatagram
    requires { 1 ≤ length line.now }
    ensures { result ≡ why_none line.now }
{
    if line.len() > MOST_DIGITS {
        return NoDatagram::Long;
    }
    if let Some(why) = spelling_of(line) {
        return NoDatagram::Spelt { why };
    }
    if line.len() % 2 == 1 {
        return NoDatagram::Odd;
    }
    NoDatagram::NoDigit
}

/// Shows a line and returns whether its datagram was refused. `number` is the line's, counted from 1. An empty line shows nothing.
fn show_text<K: Sink>(
    alloc: Global,
    number: u64,
    line: &[u8],
    output: &mut K,
) -> Result<bool, ShowFault>
    ensures shown { IfOk result (λ refused. ShowsLine number line.now refused (K.pieces output.old) (K.pieces output.new)) }
    ensures left { IfErr result (λ why. (s : Showing) → Leaves why (K.pieces output.old) (K.pieces output.new) (line_shown number line.now s)) }
    ensures cause { WriteCause result (K.fault_count output.old) (K.fault_count output.new) }
{
    if line.is_empty() {
        return Ok(false);
    }
    let Some(datagram) = datagram_in(alloc, line)? else {
        return Err(ShowFault::Line {
            number,
            why: why_none(line),
        });
    };
    let shown = show_line(alloc, datagram.bytes())?;
    match output.write(shown.line.bytes()) {
        Ok(()) => Ok(shown.is_refused),
        Err(Failed) => Err(ShowFault::Write),
    }
}

fn either(a: bool, b: bool) -> bool
    ensures { result ≡ (a || b) }
{
    a || b
}

/// The beginning of the next line, its number, and whether a datagram before it was refused. In order: [`show_piece`](Reader::show_piece)
/// for each piece of the input, and [`finish`](Reader::finish) at its end.
// `rest` has no line feed: a line that ended is shown at once, and what is kept is the beginning of one line.
#[derive(Debug, Drop)]
struct Reader {
    rest: Vec<u8>,
    number: u64,
    is_refused: bool,
}

impl Model for Reader {
    ghost use Rattle.std.specs.Prelude.{◌≡◌, None};
    ghost use Rattle.norm_script.specs.Text.{split_at_first};
    ghost use Rattle.norm_show.specs.Progress.{Progress};

    ghost Value = { Progress };

    ghost view = { λ r. record { rest = r.rest.items; number = r.number; refused = r.is_refused } };

    ghost invariant = { λ r. split_at_first 10 r.rest.items ≡ None };
}

impl Reader {
    /// Returns a reader before the first line. Takes no memory.
    fn new(alloc: Global) -> Reader
        ensures { result ≡ progress_opening }
    {
        Reader {
            rest: Vec::new(alloc),
            number: 1,
            is_refused: false,
        }
    }

    /// Adds octets to the next line. Fails as soon as the line is longer than 3,000 octets, or if memory runs out.
    fn add(&mut self, front: &[u8]) -> Result<(), ShowFault>
        requires { split_at_first 10 front.now ≡ None }
        ensures shown { OnOk result ((u : Pieces) → Shows self.old front.now self.new [] u u) }
        ensures number { OnOk result (self.new.number ≡ self.old.number) }
        ensures left { IfErr result (λ why. (u : Pieces) (more : List ℕ) → Leaves why u u (shown_from self.old (front.now ++ more))) }
        ensures cause { (n : ℕ) → WriteCause result n n }
    {
        if front.len() > MOST_DIGITS.saturating_sub(self.rest.len()) {
            return Err(ShowFault::Line {
                number: self.number,
                why: NoDatagram::Long,
            });
        }
        self.rest.extend_from_slice(front)?;
        Ok(())
    }

    /// Shows the next line, which has ended, and begins the line after it in the same memory.
    fn end_line<K: Sink>(&mut self, alloc: Global, output: &mut K) -> Result<(), ShowFault>
        requires { self.old.number + 1 < 2 ^ 64 }
        ensures shown { OnOk result (Shows self.old (10 ∷ []) self.new [] (K.pieces output.old) (K.pieces output.new)) }
        ensures number { OnOk result (self.new.number ≡ self.old.number + 1) }
        ensures left { IfErr result (λ why. (more : List ℕ) → Leaves why (K.pieces output.old) (K.pieces output.new) (shown_from self.old (10 ∷ more))) }
        ensures cause { WriteCause result (K.fault_count output.old) (K.fault_count output.new) }
    {
        let refused = show_text(alloc, self.number, &self.rest, output)?;
        self.rest.clear();
        self.number += 1;
        self.is_refused = either(self.is_refused, refused);
        Ok(())
    }

    /// Shows the lines that end in a piece of the input, and keeps the rest of the piece.
    // Proof: Shows speaks of every input that may follow, so no list of lines is cut at an index.
    // Proof: shows-on joins two pieces, leaves-behind carries a fault back.
    fn show_piece<K: Sink>(
        &mut self,
        alloc: Global,
        piece: &[u8],
        output: &mut K,
    ) -> Result<(), ShowFault>
        requires { self.old.number + length piece.now < 2 ^ 64 }
        ensures shown { OnOk result (Shows self.old piece.now self.new [] (K.pieces output.old) (K.pieces output.new)) }
        ensures number { OnOk result (self.new.number ≤ self.old.number + length piece.now) }
        ensures left { IfErr result (λ why. (more : List ℕ) → Leaves why (K.pieces output.old) (K.pieces output.new) (shown_from self.old (piece.now ++ more))) }
        ensures cause { WriteCause result (K.fault_count output.old) (K.fault_count output.new) }
    {
        let mut rest = piece;
        // Proof: the label names the loop for its invariant.
        'lines: while let Some((front, behind)) = split_at_first(rest, LINE_FEED) {
            self.add(front)?;
            self.end_line(alloc, output)?;
            rest = behind;
        }
        self.add(rest)
    }

    /// Shows the last line if it has no line feed. Returns whether any datagram was refused.
    fn finish<K: Sink>(&self, alloc: Global, output: &mut K) -> Result<bool, ShowFault>
        ensures shown { IfOk result (λ refused. ShowsEnd self.now refused (K.pieces output.old) (K.pieces output.new)) }
        ensures left { IfErr result (λ why. Leaves why (K.pieces output.old) (K.pieces output.new) (shown_from self.now [])) }
        ensures cause { WriteCause result (K.fault_count output.old) (K.fault_count output.new) }
    {
        let refused = show_text(alloc, self.number, &self.rest, output)?;
        Ok(either(self.is_refused, refused))
    }
}

/// Shows the datagrams of an input, one a line, while it arrives. Each line of output is one write. Skips empty lines.
/// Returns whether any datagram was refused.
///
/// # Errors
///
/// `Line` for the first line that is no datagram, `Read` or `Write` if a call failed, `Memory` if memory ran out. The lines
/// before the fault were written. If a write failed, a prefix of the next line may be there too.
// Over any source and sink, and apart from the program: what is said of the input and the output needs no words and no network.
pub fn show<S: Source, K: Sink>(
    alloc: Global,
    input: &mut S,
    output: &mut K,
) -> Result<bool, ShowFault>
    ensures shown { IfOk result (λ refused. ShowsAll refused (S.left input.old) (S.left input.new) (K.pieces output.old) (K.pieces output.new)) }
    ensures left { IfErr result (λ why. ShowsLess why (S.left input.old) (S.left input.new) (K.pieces output.old) (K.pieces output.new)) }
    ensures reads { ReadCause result (S.fault_count input.old) (S.fault_count input.new) }
    ensures writes { WriteCause result (K.fault_count output.old) (K.fault_count output.new) }
{
    let mut reader = Reader::new(alloc);
    let mut buffer = [0u8; PIECE];
    // Proof: the label names the loop for its invariant.
    'pieces: loop {
        let Ok(n) = input.read(&mut buffer) else {
            return Err(ShowFault::Read);
        };
        if n == 0 {
            return reader.finish(alloc, output);
        }
        reader.show_piece(alloc, buffer.split_at(n).0, output)?;
    }
}
