//! What the program is called with. The lines of a row fill a [`Call`], and `playing` makes the objects from it.

use crate::changing::{Change, ChangingFiles};
use norm_memory::{MemFiles, MemSink, MemSource};
use row_words::{Fault, Words};
use std::alloc::{AllocError, Global};

/// The most words of the program's command line. Its longest forms have five.
const MOST_WORDS: u32 = 16;

/// The one call of the outside that fails, by its number from 1.
#[derive(Clone, Copy, Debug, PartialEq, Eq)]
pub(crate) enum Fails {
    Nothing,
    Read(u64),
    Write(u64),
    Offer(u64),
    Take(u64),
    File(u64),
}

impl Fails {
    /// The failing call that a line names, if it names one.
    fn named(words: &mut Words<'_>) -> Option<Fails> {
        let kind = words.word()?;
        let number = words.number()?;
        match kind {
            "read" => Some(Fails::Read(number)),
            "write" => Some(Fails::Write(number)),
            "offer" => Some(Fails::Offer(number)),
            "take" => Some(Fails::Take(number)),
            "file" => Some(Fails::File(number)),
            _ => None,
        }
    }

    /// The number of the failing read, if a read fails.
    fn read(self) -> Option<u64> {
        match self {
            Fails::Read(number) => Some(number),
            _ => None,
        }
    }

    /// The number of the failing write, if a write fails.
    fn write(self) -> Option<u64> {
        match self {
            Fails::Write(number) => Some(number),
            _ => None,
        }
    }

    /// The number of the failing offer, if an offer fails.
    pub(crate) fn offer(self) -> Option<u64> {
        match self {
            Fails::Offer(number) => Some(number),
            _ => None,
        }
    }

    /// The number of the failing take, if a take fails.
    pub(crate) fn take(self) -> Option<u64> {
        match self {
            Fails::Take(number) => Some(number),
            _ => None,
        }
    }

    /// The number of the failing call of the files, if one fails.
    fn file(self) -> Option<u64> {
        match self {
            Fails::File(number) => Some(number),
            _ => None,
        }
    }
}

/// The most octets of a file of zeros.
// As many as the largest object has.
const MOST_ZEROS: u64 = 16_777_216;

/// A list of this number, or an empty one if there is none.
pub(crate) fn numbers(alloc: Global, number: Option<u64>) -> Result<Vec<u64>, AllocError> {
    let mut numbers = Vec::new(alloc);
    if let Some(number) = number {
        numbers.push(number)?;
    }
    Ok(numbers)
}

/// The file that a line names, and its octets.
fn named_file(alloc: Global, words: &mut Words<'_>) -> Result<Option<(String, Vec<u8>)>, Fault> {
    let Some(name) = words.word() else {
        return Ok(None);
    };
    let name = String::from_str(alloc, name)?;
    match words.octets(alloc)? {
        Some(octets) => Ok(Some((name, octets.into_inner()))),
        None => Ok(None),
    }
}

/// The words, the input and the files of a call, and which call of the outside fails.
#[derive(Drop)]
pub(crate) struct Call {
    words: Vec<String>,
    input: Vec<u8>,
    files: Vec<(String, Vec<u8>)>,
    change: Option<Change>,
    pub(crate) fails: Fails,
}

impl Call {
    /// A call with no words.
    pub(crate) fn new(alloc: Global) -> Call {
        Call {
            words: Vec::new(alloc),
            input: Vec::new(alloc),
            files: Vec::new(alloc),
            change: None,
            fails: Fails::Nothing,
        }
    }

    /// Adds what a line says of the call. Returns `false` if it says nothing of it.
    pub(crate) fn add(
        &mut self,
        alloc: Global,
        what: &str,
        words: &mut Words<'_>,
    ) -> Result<bool, Fault> {
        match what {
            "words" => self.add_words(alloc, words),
            "file" => self.add_file(alloc, words),
            "zeros" => self.add_zeros(alloc, words),
            "change" => self.change(alloc, words),
            "fail" => Ok(self.fail(words)),
            _ => Ok(false),
        }
    }

    /// Adds a text to the input.
    pub(crate) fn add_text(&mut self, text: &str) -> Result<(), AllocError> {
        self.input.extend_from_slice(text.as_bytes())
    }

    /// Adds words of the command line, at most `MOST_WORDS` of them from one line.
    fn add_words(&mut self, alloc: Global, words: &mut Words<'_>) -> Result<bool, Fault> {
        for _ in 0..MOST_WORDS {
            let Some(word) = words.word() else {
                return Ok(true);
            };
            self.words.push(String::from_str(alloc, word)?)?;
        }
        Ok(true)
    }

    /// Adds a file. Returns `false` if the line names none.
    fn add_file(&mut self, alloc: Global, words: &mut Words<'_>) -> Result<bool, Fault> {
        let Some(file) = named_file(alloc, words)? else {
            return Ok(false);
        };
        self.files.push(file)?;
        Ok(true)
    }

    /// Adds a file of zeros, at most [`MOST_ZEROS`]. Returns `false` if the line names none.
    fn add_zeros(&mut self, alloc: Global, words: &mut Words<'_>) -> Result<bool, Fault> {
        let Some(name) = words.word() else {
            return Ok(false);
        };
        let name = String::from_str(alloc, name)?;
        let Some(len) = words.number() else {
            return Ok(false);
        };
        let len = len.min(MOST_ZEROS) as usize;
        self.files.push((name, vec![in alloc; 0u8; len]?))?;
        Ok(true)
    }

    /// Lets a file have other octets from a call of the files on. Returns `false` if the line names none.
    fn change(&mut self, alloc: Global, words: &mut Words<'_>) -> Result<bool, Fault> {
        let Some(at) = words.number() else {
            return Ok(false);
        };
        let Some((name, octets)) = named_file(alloc, words)? else {
            return Ok(false);
        };
        self.change = Some(Change { at, name, octets });
        Ok(true)
    }

    /// Lets this call of the outside fail from now on, and no other. Returns `false` if the line names none.
    fn fail(&mut self, words: &mut Words<'_>) -> bool {
        let Some(fails) = Fails::named(words) else {
            return false;
        };
        self.fails = fails;
        true
    }

    /// A copy of the words.
    pub(crate) fn words(&self, alloc: Global) -> Result<Vec<String>, AllocError> {
        let mut words = Vec::new(alloc);
        for word in &self.words {
            words.push(String::from_str(alloc, word.as_str())?)?;
        }
        Ok(words)
    }

    /// The input. The read that the row names fails.
    pub(crate) fn source(&self, alloc: Global) -> Result<MemSource, AllocError> {
        let input = Vec::from_slice(alloc, self.input.as_slice())?;
        Ok(MemSource::of(input, numbers(alloc, self.fails.read())?))
    }

    /// An empty output. The write that the row names fails.
    pub(crate) fn sink(&self, alloc: Global) -> Result<MemSink, AllocError> {
        let failing = numbers(alloc, self.fails.write())?;
        Ok(MemSink::of(Vec::new(alloc), failing))
    }

    /// A copy of the files.
    fn copied(&self, alloc: Global) -> Result<Vec<(String, Vec<u8>)>, AllocError> {
        let mut files = Vec::new(alloc);
        for (name, octets) in &self.files {
            let name = String::from_str(alloc, name.as_str())?;
            let octets = Vec::from_slice(alloc, octets.as_slice())?;
            files.push((name, octets))?;
        }
        Ok(files)
    }

    /// The files. The call of them that the row names fails.
    pub(crate) fn files(&self, alloc: Global) -> Result<MemFiles, AllocError> {
        let files = self.copied(alloc)?;
        Ok(MemFiles::of(files, numbers(alloc, self.fails.file())?))
    }

    /// The files, of which one changes, if the row says so. No call of them fails for its number then.
    pub(crate) fn changing_files(
        &self,
        alloc: Global,
    ) -> Result<Option<ChangingFiles>, AllocError> {
        match &self.change {
            Some(change) => {
                let files = self.copied(alloc)?;
                Ok(Some(ChangingFiles::of(alloc, files, change.copy(alloc)?)))
            }
            None => Ok(None),
        }
    }
}
