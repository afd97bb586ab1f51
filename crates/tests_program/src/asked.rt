//! What a row asks of the objects after the program has ended.

use row_words::{Fault, Words};
use std::alloc::Global;

/// What is printed of the objects after each call, in addition to the status and the lines.
#[derive(Drop)]
pub(crate) struct Asked {
    /// Whether to print how many calls were made.
    pub(crate) counts: bool,
    /// The datagrams with these numbers, from 1, and who offered them.
    pub(crate) offers: Vec<usize>,
    /// The contents of the files with these names.
    pub(crate) files: Vec<String>,
    /// If it is given, whether each line of a hand-up ends with this text is printed instead of the lines.
    pub(crate) hand_ups: Option<String>,
}

impl Asked {
    /// Nothing is asked for.
    pub(crate) fn new(alloc: Global) -> Asked {
        Asked {
            counts: false,
            offers: Vec::new(alloc),
            files: Vec::new(alloc),
            hand_ups: None,
        }
    }

    /// Adds what a line asks for. Returns `false` if it asks for nothing.
    pub(crate) fn add(
        &mut self,
        alloc: Global,
        what: &str,
        words: &mut Words<'_>,
    ) -> Result<bool, Fault> {
        match what {
            "ask-calls" => Ok(self.ask_calls()),
            "ask-offer" => self.ask_offer(words),
            "ask-file" => self.ask_file(alloc, words),
            _ => Ok(false),
        }
    }

    /// Asks how many calls were made.
    fn ask_calls(&mut self) -> bool {
        self.counts = true;
        true
    }

    /// Asks for the datagram of a number.
    fn ask_offer(&mut self, words: &mut Words<'_>) -> Result<bool, Fault> {
        let Some(number) = words.index() else {
            return Ok(false);
        };
        self.offers.push(number)?;
        Ok(true)
    }

    /// Asks for the contents of a file.
    fn ask_file(&mut self, alloc: Global, words: &mut Words<'_>) -> Result<bool, Fault> {
        let Some(name) = words.word() else {
            return Ok(false);
        };
        self.files.push(String::from_str(alloc, name)?)?;
        Ok(true)
    }

    /// From now on, asks only whether the hand-ups end with this text.
    pub(crate) fn ask_hand_ups(&mut self, alloc: Global, text: &str) -> Result<(), Fault> {
        self.hand_ups = Some(String::from_str(alloc, text)?);
        Ok(())
    }
}
