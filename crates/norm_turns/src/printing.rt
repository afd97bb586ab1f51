//! Writes lines, each in one piece.

ghost use Rattle.std.specs.Prelude.{◌≡◌, ◌∷◌, [], Some, OnOk, IfErr};
ghost use Rattle.std.specs.Option.{option_to_list};
ghost use Rattle.norm_base.specs.Told.{gained};
ghost use Rattle.norm_journal.specs.Lines.{line_if, up_line, end_line};
ghost use Rattle.norm_turns.specs.Causes.{WriteCause};
ghost use Rattle.norm_turns.specs.Printing.{IsUnwritten};

use crate::fault::SessionFault;
use crate::noticing::up_notice;
use norm_base::{InstanceId, NodeId, Notice, Sink};
use norm_journal::{Totals, end_line, up_line};
use norm_order::Up;
use norm_text::Line;

/// Writes the line of an event in one piece, and then tells the sink what it says. Does nothing if `has` is false: such an event has no line.
///
/// # Errors
///
/// `Write` if the write failed. Then a prefix of the line may have been written.
pub fn write_line<K: Sink>(
    has: bool,
    line: &Line,
    notice: &Notice,
    output: &mut K,
) -> Result<(), SessionFault>
    ensures written { OnOk result (K.pieces output.new ≡ gained (K.pieces output.old) (option_to_list (line_if has line.now))) }
    ensures stops { IfErr result (λ fault. IsUnwritten fault (K.pieces output.old) (K.pieces output.new) (line_if has line.now)) }
    ensures why { IfErr result (λ fault. fault ≡ SessionFault.Write) }
    ensures cause { WriteCause result (K.fault_count output.old) (K.fault_count output.new) }
{
    if !has {
        return Ok(());
    }
    // The write first: a line that was not written counts for nothing.
    output.write(line.bytes())?;
    output.note(notice);
    Ok(())
}

/// Writes the line of a hand-up of a node that is in this instance, in one piece. The line is made in the memory of `line`.
///
/// # Errors
///
/// `Write` if the write failed, and then a prefix of the line may have been written. `Memory` if memory runs out, and then nothing was
/// written.
// For what comes without a journal: `norm_program` calls it for tails.
pub fn write_up<K: Sink>(
    line: &mut Line,
    node: NodeId,
    instance: InstanceId,
    up: &Up,
    output: &mut K,
) -> Result<(), SessionFault>
    ensures written { OnOk result (K.pieces output.new ≡ gained (K.pieces output.old) (up_line node instance up.now ∷ [])) }
    ensures stops { IfErr result (λ fault. IsUnwritten fault (K.pieces output.old) (K.pieces output.new) (Some (up_line node instance up.now))) }
    ensures cause { WriteCause result (K.fault_count output.old) (K.fault_count output.new) }
{
    up_line(line, node, instance, up)?;
    let notice = up_notice(up);
    write_line(true, line, &notice, output)
}

/// Writes the summary's line of these counts in one piece. The line is made in the memory of `line`.
///
/// # Errors
///
/// `Write` if the write failed, and then a prefix of the line may have been written. `Memory` if memory runs out, and then nothing was
/// written.
pub fn write_end<K: Sink>(
    line: &mut Line,
    totals: &Totals,
    output: &mut K,
) -> Result<(), SessionFault>
    ensures written { OnOk result (K.pieces output.new ≡ gained (K.pieces output.old) (end_line totals.now ∷ [])) }
    ensures stops { IfErr result (λ fault. IsUnwritten fault (K.pieces output.old) (K.pieces output.new) (Some (end_line totals.now))) }
    ensures cause { WriteCause result (K.fault_count output.old) (K.fault_count output.new) }
{
    end_line(line, totals)?;
    write_line(true, line, &Notice::Other, output)
}
