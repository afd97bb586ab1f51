//! Tests of `norm_text`: printed lines, one call at a time, and octets as digits at each length at which the code takes another way.

use norm_base::{Kind, Octets};
use norm_text::{Line, kind_word, push_digits};
use std::alloc::{AllocError, Global};
use std::test::Fail;

/// What is appended to a line, and by which call.
#[derive(Clone, Copy)]
enum What {
    Word(&'static [u8]),
    Piece(u8, &'static [u8]),
    Number(u64),
    Numbers(&'static [u64]),
    Joined(u64, &'static [u64]),
    Contents(&'static [u8]),
    ContentsOrDash(&'static [u8]),
    Info(Option<&'static [u8]>),
}

/// Appends an info, or what a line has if there is none.
fn put_info(alloc: Global, line: &mut Line, info: Option<&'static [u8]>) -> Result<(), AllocError> {
    match info {
        Some(octets) => line.info(&Some(Octets::of(Vec::from_slice(alloc, octets)?))),
        None => line.info(&None),
    }
}

fn put(alloc: Global, line: &mut Line, what: What) -> Result<(), AllocError> {
    match what {
        What::Word(word) => line.word(word),
        What::Piece(by, piece) => line.piece(by, piece),
        What::Number(n) => line.number(n),
        What::Numbers(numbers) => line.numbers(numbers),
        What::Joined(first, others) => line.joined_piece(b' ', b'.', first, others),
        What::Contents(octets) => line.contents(octets),
        What::ContentsOrDash(octets) => line.contents_or_dash(octets),
        What::Info(info) => put_info(alloc, line, info),
    }
}

/// Returns a line of the word `data` and what is appended to it.
fn line_of(alloc: Global, what: What) -> Result<Vec<u8>, AllocError> {
    let mut line = Line::begin(alloc, b"data", 8)?;
    put(alloc, &mut line, what)?;
    line.end()
}

/// Whether the line with this after its first word is `text`.
fn reads(alloc: Global, what: What, text: &[u8]) -> Result<bool, AllocError> {
    let line = line_of(alloc, what)?;
    Ok(line.as_slice() == text)
}

/// What is appended, and the line that this gives.
const LINES: [(What, &[u8]); 12] = [
    (What::Word(b"x"), b"data x\n"),
    (What::Word(b""), b"data \n"),
    (What::Piece(b':', b"x"), b"data:x\n"),
    (What::Number(0), b"data 0\n"),
    (
        What::Number(18_446_744_073_709_551_615),
        b"data 18446744073709551615\n",
    ),
    (What::Numbers(&[]), b"data\n"),
    (What::Numbers(&[7, 10]), b"data 7 10\n"),
    (What::Joined(64, &[4, 1]), b"data 64.4.1\n"),
    (What::Joined(64, &[]), b"data 64\n"),
    (What::Contents(b"hello"), b"data 68656c6c6f\n"),
    (What::ContentsOrDash(b""), b"data -\n"),
    (What::Info(None), b"data -\n"),
];

#[test]
fn words_stand_behind_a_line(rt: HostRuntime) -> Result<(), Fail> {
    for (place, (what, text)) in LINES.iter().enumerate() {
        let is_so = reads(rt.alloc(), *what, text)?;
        assert!(&rt; is_so, "line {place}");
    }
    Ok(())
}

/// Whether `push_digits` appends two digits for each of `count` octets `a5`.
fn are_digits(alloc: Global, count: usize) -> Result<bool, AllocError> {
    let octets = vec![in alloc; 0xa5; count]?;
    let mut text = Vec::from_slice(alloc, b">")?;
    push_digits(&mut text, &octets)?;
    let mut wanted = Vec::from_slice(alloc, b">")?;
    for _ in 0..count {
        wanted.extend_from_slice(b"a5")?;
    }
    Ok(text.as_slice() == wanted.as_slice())
}

#[test]
fn octets_are_two_digits_each(rt: HostRuntime) -> Result<(), Fail> {
    for count in [0usize, 1, 63, 64, 65, 127, 128, 200] {
        let is_so = are_digits(rt.alloc(), count)?;
        assert!(&rt; is_so, "{count} octets");
    }
    Ok(())
}

/// Thirty-two octets in which each digit occurs as a high and as a low half.
const EACH: [u8; 32] = [
    0x01, 0x23, 0x45, 0x67, 0x89, 0xab, 0xcd, 0xef, 0x10, 0x32, 0x54, 0x76, 0x98, 0xba, 0xdc, 0xfe,
    0x0f, 0x1e, 0x2d, 0x3c, 0x4b, 0x5a, 0x69, 0x78, 0x87, 0x96, 0xa5, 0xb4, 0xc3, 0xd2, 0xe1, 0xf0,
];

/// Returns the digits of `EACH`.
fn digits_of_each(alloc: Global) -> Result<Vec<u8>, AllocError> {
    let mut text = Vec::new(alloc);
    push_digits(&mut text, &EACH)?;
    Ok(text)
}

#[test]
fn each_digit_is_lower_case(rt: HostRuntime) -> Result<(), Fail> {
    let text = digits_of_each(rt.alloc())?;
    assert!(&rt;
        text.as_slice()
            == b"0123456789abcdef1032547698badcfe0f1e2d3c4b5a69788796a5b4c3d2e1f0".as_slice()
    );
    Ok(())
}

#[test]
fn kinds_have_their_words(rt: HostRuntime) {
    assert!(&rt; kind_word(Kind::Data) == "data");
    assert!(&rt; kind_word(Kind::File) == "file");
}
