//! The words of one line of the input. Each call of [`Words`] reads the next word.

use hex::FromHexError;
use norm_base::{Memory, NodeId, Octets};
use std::alloc::Global;
use std::str::SplitWhitespace;

/// The word for no octets.
// Empty octets have no digits, and a word that is empty would be none.
const DASH: &str = "-";

/// The words of a line that were not read yet. After the last word, call [`are_done`](Words::are_done): further words make
/// the line a fault.
#[derive(Drop)]
pub struct Words<'a> {
    rest: SplitWhitespace<'a>,
}

impl<'a> Words<'a> {
    /// Returns the words of a line, none of them read.
    pub fn of(line: &'a str) -> Words<'a> {
        Words {
            rest: line.split_whitespace(),
        }
    }

    /// Returns the next word as it is, or `None` if there is none.
    pub fn word(&mut self) -> Option<&'a str> {
        self.rest.next()
    }

    /// Returns the next word as a decimal number, or `None` if it is none below 2^64.
    pub fn number(&mut self) -> Option<u64> {
        self.rest.next()?.parse::<u64>().ok()
    }

    /// Returns the next word as a decimal number, or `None` if it is none below 2^32.
    pub fn number32(&mut self) -> Option<u32> {
        self.rest.next()?.parse::<u32>().ok()
    }

    /// Returns the next word as a decimal number, or `None` if it is none below 2^16.
    pub fn number16(&mut self) -> Option<u16> {
        self.rest.next()?.parse::<u16>().ok()
    }

    /// Returns the next word as an index of a list, or `None` if it is none.
    pub fn index(&mut self) -> Option<usize> {
        self.rest.next()?.parse::<usize>().ok()
    }

    /// Returns the next word as the id of a node, or `None` if it is none.
    pub fn node(&mut self) -> Option<NodeId> {
        NodeId::of(self.number32()?)
    }

    /// Returns the octets that the next word spells in hexadecimal. A dash spells no octets. Returns `None` if there is no such word.
    ///
    /// # Errors
    ///
    /// `Memory` if the octets do not fit.
    pub fn octets(&mut self, alloc: Global) -> Result<Option<Octets>, Memory> {
        let Some(word) = self.rest.next() else {
            return Ok(None);
        };
        let digits = if word == DASH { "" } else { word };
        match hex::decode(alloc, digits.as_bytes()) {
            Ok(octets) => Ok(Some(Octets::of(octets))),
            Err(FromHexError::OutOfMemory) => Err(Memory),
            Err(_) => Ok(None),
        }
    }

    /// Whether no word is left. If one is left, this reads it.
    pub fn are_done(&mut self) -> bool {
        self.rest.next().is_none()
    }
}
