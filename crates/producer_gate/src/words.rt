//! The 64-bit words of the board, which its writer and its readers share, and the rule of them. Word 0 is the number of published entries. The two
//! words of each entry follow, in the order of the entries. No value of [`Role`] is made: it is for proofs alone.
ghost use Rattle.std.specs.Prelude.{◌≡◌};

use atomic_table::{Join, Play, Seat, Split, Table, TableRule};
use std::alloc::Global;
use std::collections::LinkedList;

/// The most entries that a board holds.
// Our own choice: as many entries as a script may have commands. Beyond it `publish` answers `Memory`.
pub(crate) const MOST: u64 = 4096;

/// The number of 64-bit words of a board, with the one that counts entries.
// Two words for each of 4,096 entries, and the count in front.
pub(crate) const WORDS: usize = 8193;

/// What a seat at the words knows.
pub enum Role {
    /// The entries that it published, the two words after them, and the entries of the note that it took in last.
    Writes(LinkedList<(u64, u64)>, u64, u64, LinkedList<(u64, u64)>),
    /// The entries that it knows to be published, and those of a note that it took in.
    Reads(LinkedList<(u64, u64)>, LinkedList<(u64, u64)>),
    /// Nothing, because another seat took it in.
    Gone,
}

pub struct Posted;

impl TableRule<u8, Role, ()> for Posted {
    ghost use Rattle.std.specs.Prelude.{[]};
    ghost use Rattle.producer_gate.specs.declared.words.Role.TheVariants.{Writes};
    ghost use Rattle.producer_gate.specs.Posts.{Posts};

    ghost holds = { λ _. Posts };

    ghost first = { λ _. Writes [] 0 0 [] };
}

pub type Words = Table<u8, Role, (), Posted, Global>;

pub type Place = Seat<u8, Role>;

/// Writes the first word after the entries, the watermark's number of the next one.
pub struct PutsFirst;

impl Play<u8, Role> for PutsFirst {
    ghost use Rattle.producer_gate.specs.Plays.{PutFirst};

    ghost then = { PutFirst };
}

/// Writes the second word after the entries, the outcome of the next one.
pub struct PutsSecond;

impl Play<u8, Role> for PutsSecond {
    ghost use Rattle.producer_gate.specs.Plays.{PutSecond};

    ghost then = { PutSecond };
}

/// Raises the count, which makes the two words an entry.
pub struct Shows;

impl Play<u8, Role> for Shows {
    ghost use Rattle.producer_gate.specs.Plays.{Shown};

    ghost then = { Shown };
}

/// Reads the count. The reader then knows as many entries, with all that it knew and was told of.
pub struct Looks;

impl Play<u8, Role> for Looks {
    ghost use Rattle.producer_gate.specs.Plays.{Looked};

    ghost then = { Looked };
}

/// Reads a word of an entry. A reader learns something by it only if it knows the entry.
pub struct Reads;

impl Play<u8, Role> for Reads {
    ghost use Rattle.producer_gate.specs.Plays.{Read};

    ghost then = { Read };
}

/// Reads the count, and does nothing with it. The writer then knows that it published the entries of the note that it took in last.
pub struct Compares;

impl Play<u8, Role> for Compares {
    ghost use Rattle.producer_gate.specs.Plays.{Compared};

    ghost then = { Compared };
}

/// Makes a seat for reading that knows the entries that this one knows.
pub struct Notes;

impl Split<Role> for Notes {
    ghost use Rattle.producer_gate.specs.Plays.{noted};

    ghost left = { λ v. v };

    ghost right = { noted };
}

/// Takes in a note, whose own seat knows nothing after that.
pub struct Hears;

impl Join<Role> for Hears {
    ghost use Rattle.producer_gate.specs.declared.words.Role.TheVariants.{Gone};
    ghost use Rattle.producer_gate.specs.Plays.{heard};

    ghost both = { heard };

    ghost spent = { Gone };
}
