//! Entries of the board on which the outcomes of watermarks are published, and the two 64-bit words that keep each of them. [`outcome_of`] reads
//! what [`word_of`] wrote, so change both together.
ghost use Rattle.std.specs.Prelude.{◌≡◌};
ghost use Rattle.producer_gate.specs.Entries.{code_of, outcome_in};

use mark_book::Outcome;

/// What a reader finds of a watermark.
#[derive(Clone, Copy, Debug, PartialEq, Eq)]
pub enum Seen {
    /// None of the entries that were read is of it.
    Unknown,
    /// The outcome in the last of them that is.
    Known(Outcome),
}

/// How many variants `Outcome` has. Two bits hold which one it is.
const KINDS: u64 = 4;

/// The number of values that a count of 32 bits has.
// `left` has 32 bits. Above the two bits of the kind it fits a 64-bit word.
const COUNTS: u64 = 1 << 32;

/// Returns an outcome as a 64-bit word: its kind in the lowest two bits, and its count above them.
pub(crate) fn word_of(outcome: Outcome) -> u64
    ensures { result ≡ code_of outcome }
{
    match outcome {
        Outcome::Open { left } => KINDS * u64::from(left),
        Outcome::Satisfied => 1,
        Outcome::Expired { left } => KINDS * u64::from(left) + 2,
        Outcome::Cut => 3,
    }
}

/// Undoes [`word_of`]. Of a count, the lowest 32 bits are read, so every 64-bit word stands for an outcome.
pub(crate) fn outcome_of(word: u64) -> Outcome
    ensures { result ≡ outcome_in word }
{
    let left = (word / KINDS % COUNTS) as u32;
    let kind = word % KINDS;
    // The kinds 0 to 3 are those that `word_of` writes.
    if kind == 0 {
        return Outcome::Open { left };
    }
    if kind == 1 {
        return Outcome::Satisfied;
    }
    // The 2 that `word_of` adds to the count of an expired watermark.
    if kind == 2 {
        return Outcome::Expired { left };
    }
    Outcome::Cut
}
