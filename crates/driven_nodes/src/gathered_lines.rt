//! The lines of `gather`: of what a receiver hands up, of what it sends, and the last one.

ghost use Rattle.std.specs.Prelude.{◌≡◌, [], ◌∷◌, Some, IfErr, OnOk};
ghost use Rattle.norm_base.specs.Told.{gained};
ghost use Rattle.norm_journal.specs.Lines.{of_line};
ghost use Rattle.norm_turns.specs.Causes.{WriteCause};
ghost use Rattle.norm_turns.specs.Printing.{IsUnwritten};
ghost use Rattle.driven_nodes.specs.Gathered.{send_line, last_line};

use norm_base::{InstanceId, NodeId, Notice, Sink};
use norm_journal::of_line;
use norm_order::Up;
use norm_text::Line;
use norm_turns::{SessionFault, up_notice, write_line};
use std::alloc::AllocError;

/// Makes the line of a datagram that is sent to this sender.
fn put_send(line: &mut Line, sender: NodeId, octets: &[u8]) -> Result<(), AllocError>
    ensures { OnOk result (line.new ≡ send_line sender octets.now) }
{
    line.restart(b"send", octets.len())?;
    line.number(u64::from(sender.number()))?;
    line.contents(octets)?;
    line.finish()
}

/// Makes the last line.
fn put_last(line: &mut Line, lines: u64, handed: u64) -> Result<(), AllocError>
    ensures { OnOk result (line.new ≡ last_line lines handed) }
{
    line.restart(b"end", 0)?;
    line.word(b"lines")?;
    line.number(lines)?;
    line.word(b"handed")?;
    line.number(handed)?;
    line.finish()
}

/// Writes the line of a hand-up.
pub(crate) fn write_of<K: Sink>(
    line: &mut Line,
    sender: NodeId,
    node: NodeId,
    instance: InstanceId,
    up: &Up,
    output: &mut K,
) -> Result<(), SessionFault>
    ensures written { OnOk result (K.pieces output.new ≡ gained (K.pieces output.old) (of_line sender node instance up.now ∷ [])) }
    ensures stops { IfErr result (λ fault. IsUnwritten fault (K.pieces output.old) (K.pieces output.new) (Some (of_line sender node instance up.now))) }
    ensures cause { WriteCause result (K.fault_count output.old) (K.fault_count output.new) }
{
    of_line(line, sender, node, instance, up)?;
    let notice = up_notice(up);
    write_line(true, line, &notice, output)
}

/// Writes the line of a datagram that is sent to this sender.
pub(crate) fn write_send<K: Sink>(
    line: &mut Line,
    sender: NodeId,
    octets: &[u8],
    output: &mut K,
) -> Result<(), SessionFault>
    ensures written { OnOk result (K.pieces output.new ≡ gained (K.pieces output.old) (send_line sender octets.now ∷ [])) }
    ensures stops { IfErr result (λ fault. IsUnwritten fault (K.pieces output.old) (K.pieces output.new) (Some (send_line sender octets.now))) }
    ensures cause { WriteCause result (K.fault_count output.old) (K.fault_count output.new) }
{
    put_send(line, sender, octets)?;
    write_line(true, line, &Notice::Other, output)
}

/// Writes the last line.
pub(crate) fn write_last<K: Sink>(
    line: &mut Line,
    lines: u64,
    handed: u64,
    output: &mut K,
) -> Result<(), SessionFault>
    ensures written { OnOk result (K.pieces output.new ≡ gained (K.pieces output.old) (last_line lines handed ∷ [])) }
    ensures stops { IfErr result (λ fault. IsUnwritten fault (K.pieces output.old) (K.pieces output.new) (Some (last_line lines handed))) }
    ensures cause { WriteCause result (K.fault_count output.old) (K.fault_count output.new) }
{
    put_last(line, lines, handed)?;
    write_line(true, line, &Notice::Other, output)
}
