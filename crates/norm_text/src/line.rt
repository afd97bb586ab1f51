//! Builds a printed line word by word. [`Line`] is the type that callers use.

ghost use Rattle.std.specs.Prelude.{◌≡◌, ◌++◌, ◌∷◌, [], codes, decimal, map, IfOk, OnOk};
ghost use Rattle.hex.specs.Hex.{encode_lower};
ghost use Rattle.norm_text.specs.Words.{with_piece, with_pieces, with_word, with_words, joined, contents_word, info_word};

use crate::digits::push_digits;
use itoa::Buffer;
use norm_base::Octets;
use std::alloc::{AllocError, Global};
use std::marker::Model;

/// How many octets are reserved for the words of a line, except its contents.
// Our own choice: a guess of the room, so that most lines take memory once. A longer line takes more as it grows.
const WORDS: usize = 128;

const SPACE: u8 = b' ';

/// A printed line while it is built. Contracts see its octets. Order of calls: [`begin`](Line::begin) with the first word, then words and
/// pieces of words, then [`end`](Line::end). To keep the memory for the next line: [`new`](Line::new) once, then for each line
/// [`restart`](Line::restart), words, [`finish`](Line::finish) and [`bytes`](Line::bytes).
///
/// A call fails only if memory runs out. A prefix of what it adds may then be in the line.
// One buffer, to which words are put one by one. Its value is then a fold of words onto a text, and no word needs a string of its own.
#[derive(Debug, Drop)]
pub struct Line {
    octets: Vec<u8>,
}

impl Model for Line {
    ghost use Rattle.std.specs.Prelude.{ℕ, List};

    ghost Value = { List ℕ };

    ghost view = { λ line. line.octets.items };
}

impl Line {
    /// Returns an empty line for [`restart`](Line::restart). Takes no memory.
    pub fn new(alloc: Global) -> Line
        ensures { result ≡ [] }
    {
        Line {
            octets: Vec::new(alloc),
        }
    }

    /// Returns a line with its first word, and room for this many octets of contents in hexadecimal.
    pub fn begin(alloc: Global, first: &[u8], contents: usize) -> Result<Line, AllocError>
        ensures { IfOk result (λ line. line ≡ first.now) }
    {
        let room = contents.saturating_mul(2).saturating_add(WORDS);
        let mut octets = Vec::with_capacity(alloc, room)?;
        octets.extend_from_slice(first)?;
        Ok(Line { octets })
    }

    /// Begins another line, which reuses the memory, with its first word and room for this many octets of contents in hexadecimal.
    pub fn restart(&mut self, first: &[u8], contents: usize) -> Result<(), AllocError>
        ensures { OnOk result (self.new ≡ first.now) }
    {
        self.octets.clear();
        self.octets
            .reserve(contents.saturating_mul(2).saturating_add(WORDS))?;
        self.octets.extend_from_slice(first)
    }

    /// Borrows the octets of the line, with the line feed if [`finish`](Line::finish) was called.
    pub fn bytes(&self) -> &[u8]
        ensures { result.now ≡ self.now }
    {
        self.octets.as_slice()
    }

    /// Removes all octets. Keeps the memory for what comes next.
    pub fn clear(&mut self)
        ensures { self.new ≡ [] }
    {
        self.octets.clear();
    }

    /// Adds a separator and a piece of a word.
    pub fn piece(&mut self, by: u8, piece: &[u8]) -> Result<(), AllocError>
        ensures { OnOk result (self.new ≡ with_piece by self.old piece.now) }
    {
        self.octets.extend_from_slice(&[by])?;
        self.octets.extend_from_slice(piece)
    }

    /// Adds a separator and a decimal number.
    pub fn number_piece(&mut self, by: u8, n: u64) -> Result<(), AllocError>
        ensures { OnOk result (self.new ≡ with_piece by self.old (decimal n)) }
    {
        let mut buffer = Buffer::new();
        self.piece(by, buffer.format(n).as_bytes())
    }

    /// Adds decimal numbers, with the separator before each.
    fn number_pieces(&mut self, by: u8, numbers: &[u64]) -> Result<(), AllocError>
        ensures { OnOk result (self.new ≡ with_pieces by self.old (map decimal numbers.now)) }
    {
        for n in numbers {
            self.number_piece(by, *n)?;
        }
        Ok(())
    }

    /// Adds the separator `by`, and numbers with the separator `within` between them, such as `64.4.1`.
    #[tactic(auto, using(crate::proofs::WordLemmas::joined_put))]
    pub fn joined_piece(
        &mut self,
        by: u8,
        within: u8,
        first: u64,
        others: &[u64],
    ) -> Result<(), AllocError>
        ensures { OnOk result (self.new ≡ with_piece by self.old (joined within (decimal first ∷ map decimal others.now))) }
    {
        self.number_piece(by, first)?;
        self.number_pieces(within, others)?;
        Ok(())
    }

    /// Adds a space and a word.
    pub fn word(&mut self, word: &[u8]) -> Result<(), AllocError>
        ensures { OnOk result (self.new ≡ with_word self.old word.now) }
    {
        self.piece(SPACE, word)
    }

    /// Adds a space and a decimal number.
    pub fn number(&mut self, n: u64) -> Result<(), AllocError>
        ensures { OnOk result (self.new ≡ with_word self.old (decimal n)) }
    {
        self.number_piece(SPACE, n)
    }

    /// Adds decimal numbers, with a space before each.
    pub fn numbers(&mut self, numbers: &[u64]) -> Result<(), AllocError>
        ensures { OnOk result (self.new ≡ with_words self.old (map decimal numbers.now)) }
    {
        self.number_pieces(SPACE, numbers)
    }

    /// Adds a space and the octets in lower-case hexadecimal. If there are no octets, only the space is added.
    pub fn contents(&mut self, octets: &[u8]) -> Result<(), AllocError>
        ensures { OnOk result (self.new ≡ with_word self.old (encode_lower octets.now)) }
    {
        self.octets.extend_from_slice(&[SPACE])?;
        push_digits(&mut self.octets, octets)
    }

    /// Adds a space and the octets in lower-case hexadecimal, or a dash if there are none.
    pub fn contents_or_dash(&mut self, octets: &[u8]) -> Result<(), AllocError>
        ensures { OnOk result (self.new ≡ with_word self.old (contents_word octets.now)) }
    {
        if octets.is_empty() {
            return self.word(b"-");
        }
        self.contents(octets)
    }

    /// Adds a space and an info in lower-case hexadecimal, or a dash if there is no info.
    pub fn info(&mut self, info: &Option<Octets>) -> Result<(), AllocError>
        ensures { OnOk result (self.new ≡ with_word self.old (info_word info.now)) }
    {
        match info {
            Some(octets) => self.contents(octets.bytes()),
            None => self.word(b"-"),
        }
    }

    /// Adds the line feed. Then [`bytes`](Line::bytes) gives the whole line.
    pub fn finish(&mut self) -> Result<(), AllocError>
        ensures { OnOk result (self.new ≡ self.old ++ codes "\n") }
    {
        self.octets.extend_from_slice(b"\n")
    }

    /// Returns the line with its line feed. Its memory goes to the caller.
    pub fn end(self) -> Result<Vec<u8>, AllocError>
        ensures { IfOk result (λ line. line.items ≡ self ++ codes "\n") }
    {
        let mut octets = self.octets;
        octets.extend_from_slice(b"\n")?;
        Ok(octets)
    }
}
