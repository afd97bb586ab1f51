//! What a record has of a line of output: [`Line`].

use std::fmt;

/// The most octets that are kept of a line.
// Our own choice. The longest line without contents is the outcome of a watermark that waits for sixteen receivers, with some 210.
const KEPT: usize = 256;

/// How many words of an `up` line are kept. The contents follow: info and octets of an object, or octets of a stream.
const WORDS_OF_OBJECT: u32 = 6;

const WORDS_OF_STREAM: u32 = 7;

/// A line of output as it is written, without contents. The end of a line of more than [`KEPT`] octets is left out.
#[derive(Drop)]
pub(crate) struct Line {
    octets: [u8; KEPT],
    len: usize,
    /// Where the last word begins in `octets`.
    word: usize,
    /// How many words ended.
    ended: u32,
    /// The most words that are kept.
    most: u32,
}

impl Line {
    pub(crate) fn new() -> Line {
        Line {
            octets: [0; KEPT],
            len: 0,
            word: 0,
            ended: 0,
            most: u32::MAX,
        }
    }

    /// Whether the last word is this one.
    fn is_at(&self, word: &[u8]) -> bool {
        match self.octets.get(self.word..self.len) {
            Some(last) => last == word,
            None => false,
        }
    }

    /// Notes that a word ends, and what it says of the words that are kept.
    fn end_word(&mut self) {
        if self.ended == 0 && self.is_at(b"up") {
            self.most = WORDS_OF_OBJECT;
        } else if self.most == WORDS_OF_OBJECT && self.is_at(b"bytes") {
            self.most = WORDS_OF_STREAM;
        }
        self.ended = self.ended.saturating_add(1);
        self.word = self.len.saturating_add(1);
    }

    /// Takes the next octet of the output. Returns whether it ends the line.
    pub(crate) fn push(&mut self, octet: u8) -> bool {
        if octet == b'\n' {
            return true;
        }
        if octet == b' ' {
            self.end_word();
        }
        if self.ended < self.most && self.len < KEPT {
            self.octets[self.len] = octet;
            self.len += 1;
        }
        false
    }
}

impl fmt::Display for Line {
    fn fmt<W: fmt::Write>(&self, f: &mut fmt::Formatter<W>) -> fmt::Result {
        // Lines of output are ASCII.
        for octet in self.octets.iter().take(self.len) {
            f.write_char(char::from(*octet))?;
        }
        Ok(())
    }
}
