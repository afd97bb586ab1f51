//! Lines of the input, one after the other, and the moments that they stand for. `gathering` and `chain` go over them.

ghost use Rattle.std.specs.Prelude.{◌≡◌, ◌+◌, ◌≤◌, ◌<◌, ◌∷◌, length, IfOk};
ghost use Rattle.norm_script.specs.Text.{text_lines};
ghost use Rattle.norm_turns.specs.Causes.{NeedsMemory};
ghost use Rattle.driven_nodes.specs.Gathered.{moment_of_line};

use norm_base::Moment;
use norm_script::split_at_first;
use norm_turns::SessionFault;

/// Microseconds between two lines.
// Our own choice: a thousandth of a second for each line, so that empty lines let time pass.
const LINE_TIME: u64 = 1_000;

/// Returns the first line of a text without its line feed, and what follows it. The last line may lack the line feed.
pub(crate) fn first_line(text: &[u8]) -> (&[u8], &[u8])
    requires { 1 ≤ length text.now }
    ensures lines { text_lines text.now ≡ result.0.now ∷ text_lines result.1.now }
    ensures less { length result.1.now < length text.now }
{
    match split_at_first(text, b'\n') {
        Some(parts) => parts,
        None => text.split_at(text.len()),
    }
}

/// Returns the moment of line `number`, or the last one if there is none so late.
pub(crate) fn moment_of(number: u64) -> Moment
    ensures { result ≡ moment_of_line number }
{
    Moment(number.saturating_mul(LINE_TIME))
}

/// Returns the number of the next line. `Memory` if it does not fit 64 bits: no text has so many lines.
pub(crate) fn next_number(number: u64) -> Result<u64, SessionFault>
    ensures next { IfOk result (λ next. next ≡ number + 1) }
    ensures cause { NeedsMemory result }
{
    match number.checked_add(1) {
        Some(next) => Ok(next),
        None => Err(SessionFault::Memory),
    }
}
