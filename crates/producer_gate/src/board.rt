//! The [`Board`], on which one thread publishes what became of watermarks, and its readers.
ghost use Rattle.std.specs.Prelude.{◌≡◌, ◌≤◌, [], All, IfOk, length, replicate, vec_len};
ghost use mathlib.Core.List.{IsPrefix};
ghost use Rattle.producer_gate.specs.Boards.{PublishEnds, front_of, new_reader};
ghost use Rattle.producer_gate.specs.Entries.{last_of};

use crate::entries::{Seen, word_of};
use crate::lookup::{find_last, post, readers_of};
use crate::steps::{compare, hear, look, note};
use crate::words::{MOST, Place, WORDS, Words};
use mark_book::Outcome;
use norm_base::Memory;
use std::alloc::Global;
use std::marker::Model;
use std::sync::Arc;

/// The board of outcomes. One thread owns it.
///
/// [`publish`](Board::publish) each outcome. It returns a [`Front`]; send it to a reader's thread, and [`learn`](BoardReader::learn) it
/// there before that thread asks for an [`outcome`](BoardReader::outcome) that it has to see.
// `count` is the number of entries that were published, and the next one is written there. A smaller one would write over an entry that readers
// may know.
#[derive(Drop)]
pub struct Board {
    words: Arc<Words, Global>,
    place: Place,
    count: u64,
}

impl Model for Board {
    ghost use Rattle.producer_gate.specs.Boards.{BoardState};

    ghost Value = { BoardState };

    ghost use Rattle.producer_gate.specs.BoardInside.{board_state, IsBoard};

    ghost view = { board_state };

    ghost invariant = { IsBoard };
}

/// A reader of a board. One thread owns it. It never waits. Once it saw an entry or learned of it, it knows that entry.
// Only tests ask one: the program makes one with its board, and drops it. It stays for programs whose producers ask what became of their marks.
#[derive(Drop)]
pub struct BoardReader {
    pub(crate) words: Arc<Words, Global>,
    pub(crate) place: Place,
}

impl Model for BoardReader {
    ghost use Rattle.producer_gate.specs.Boards.{ReaderState};

    ghost Value = { ReaderState };

    ghost use Rattle.producer_gate.specs.BoardInside.{reader_state, IsBoardReader};

    ghost view = { reader_state };

    ghost invariant = { IsBoardReader };
}

/// How many entries a board had published at some moment. A reader's thread may [`learn`](BoardReader::learn) it.
#[derive(Drop)]
pub struct Front {
    place: Place,
    count: u64,
}

impl Model for Front {
    ghost use Rattle.producer_gate.specs.Boards.{FrontState};

    ghost Value = { FrontState };

    ghost use Rattle.producer_gate.specs.BoardInside.{front_state, IsFrontSeat};

    ghost view = { front_state };

    ghost invariant = { IsFrontSeat };
}

impl Front {
    /// Returns how many entries the board had published when it made this front.
    pub fn count(&self) -> u64
        ensures { result ≡ length self.now.entries }
    {
        self.count
    }
}

impl Board {
    /// Creates a board without entries, and 1 to 16 readers of it. All memory that a board needs is taken here.
    ///
    /// # Errors
    ///
    /// `Memory` if memory runs out.
    pub fn new(alloc: Global, readers: u32) -> Result<(Board, Vec<BoardReader>), Memory>
        requires { (1 ≤ readers) × (readers ≤ 16) }
        ensures board { IfOk result (λ made. made.0.entries ≡ []) }
        ensures readers { IfOk result (λ made. made.1.items ≡ replicate readers (new_reader made.0.id)) }
        ensures own { IfOk result (λ made. All (λ r. r.board ≡ made.0.id) made.1.items × (vec_len made.1 ≡ readers)) }
    {
        let cells = Vec::from_elem(alloc, 0u64, WORDS)?;
        let (table, mut place) = Words::of_words(alloc, &cells, &())?;
        let words = Arc::new(alloc, table)?;
        let readers = readers_of(alloc, &words, &mut place, readers)?;
        let board = Board {
            words,
            place,
            count: 0,
        };
        Ok((board, readers))
    }

    /// Publishes an entry after the others. Returns a front that includes it. It takes no memory.
    ///
    /// # Errors
    ///
    /// `Memory` if the board is full, with 4,096 entries. Nothing changes then.
    pub fn publish(&mut self, mark: u32, outcome: Outcome) -> Result<Front, Memory>
        ensures same { self.new.id ≡ self.old.id }
        ensures ends { PublishEnds self.old mark outcome result self.new }
    {
        // All memory is taken when the board is made, so `Memory` means a full board here. It has room for as many entries as a script
        // may have commands.
        if self.count >= MOST {
            return Err(Memory);
        }
        let (mark, outcome) = (u64::from(mark), word_of(outcome));
        post(&self.words, &mut self.place, self.count, mark, outcome);
        self.count += 1;
        Ok(self.front())
    }

    /// Returns the front of all entries that are published by now.
    pub fn front(&mut self) -> Front
        ensures same { self.new ≡ self.old }
        ensures front { result ≡ front_of self.old }
    {
        let place = note(&self.words, &mut self.place);
        Front {
            place,
            count: self.count,
        }
    }

    /// Changes nothing: a caller has no need of it except for its contract, which says that all that a reader saw or learned of was published by this
    /// board. It never waits.
    pub fn hear(&mut self, reader: &mut BoardReader)
        requires { reader.old.board ≡ self.old.id }
        ensures published { IsPrefix reader.old.known self.old.entries }
        ensures same { (self.new ≡ self.old) × (reader.new ≡ reader.old) }
    {
        let theirs = note(&reader.words, &mut reader.place);
        hear(&self.words, &mut self.place, theirs);
        compare(&self.words, &mut self.place);
    }
}

impl BoardReader {
    /// Learns of a front of the reader's board. From now on the reader knows at least the entries of this front.
    pub fn learn(&mut self, front: Front)
        requires { front.board ≡ self.old.board }
        ensures same { self.new.board ≡ self.old.board }
        ensures before { IsPrefix self.old.known self.new.known }
        ensures told { IsPrefix front.entries self.new.known }
    {
        let Front {
            place: theirs,
            count: _,
        } = front;
        hear(&self.words, &mut self.place, theirs);
        // The count is read as the front is taken in. So one list says both what a reader saw and what it was told of.
        let _count = look(&self.words, &mut self.place);
    }

    /// Returns what the last entry of a watermark says, among those that this call finds published, or `Unknown` if none of them is of it.
    /// They include each entry that this reader saw before or learned of. One that was published just now may be missing. Reads them from
    /// the last one back.
    pub fn outcome(&mut self, mark: u32) -> Seen
        ensures same { self.new.board ≡ self.old.board }
        ensures before { IsPrefix self.old.known self.new.known }
        ensures seen { result ≡ last_of mark self.new.known }
    {
        let count = look(&self.words, &mut self.place);
        find_last(&self.words, &mut self.place, count, u64::from(mark))
    }
}
