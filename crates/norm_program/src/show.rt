//! `show`: prints the datagrams of the input, one a line. The program calls [`show`], and `gather` calls [`refuse_line`].

ghost use Rattle.norm_endings.specs.Outside.{Called, outside};
ghost use Rattle.norm_program.specs.ShowEnds.{ShowEnds, IsLineEnding};

use norm_base::{Sink, Source};
use norm_endings::{Ending, refused_line, say};
use norm_show::{NoDatagram, ShowFault};
use std::alloc::Global;

/// Writes the last line for line `number`, which spells no datagram, and returns the ending: `Memory` if memory runs out for that line.
pub(crate) fn refuse_line<K: Sink>(
    alloc: Global,
    number: u64,
    why: NoDatagram,
    output: &mut K,
) -> Ending
    ensures { IsLineEnding result number why (K.pieces output.old) (K.pieces output.new) (K.fault_count output.old) (K.fault_count output.new) }
{
    match refused_line(alloc, number) {
        Ok(line) => {
            say(output, line.as_bytes());
            Ending::Line { number, why }
        }
        // There is no memory to name the refused line. The status is 1, and the lines before it stand.
        Err(_) => Ending::Memory,
    }
}

/// Shows the datagrams that the input's lines spell, and returns the ending. Calls no network, files or clock.
pub(crate) fn show<S: Source, K: Sink>(alloc: Global, input: &mut S, output: &mut K) -> Ending
    ensures { (called : Called) → ShowEnds result
        (outside (S.left input.old) (K.pieces output.old) (S.fault_count input.old) (K.fault_count output.old) called)
        (outside (S.left input.new) (K.pieces output.new) (S.fault_count input.new) (K.fault_count output.new) called) }
{
    match norm_show::show(alloc, input, output) {
        Ok(false) => Ending::Done,
        Ok(true) => Ending::Datagram,
        Err(ShowFault::Line { number, why }) => refuse_line(alloc, number, why, output),
        Err(ShowFault::Read) => {
            say(output, b"fault read\n");
            Ending::Read
        }
        Err(ShowFault::Write) => Ending::Write,
        Err(ShowFault::Memory) => Ending::Memory,
    }
}
