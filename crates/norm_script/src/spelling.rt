//! Finds what an editor did to a line, such as a carriage return at its end. [`spelling_of`] is called if a line has no meaning, because this may
//! be the cause.

ghost use Rattle.std.specs.Prelude.{◌≡◌, ◌≤◌, ◌==◌, false, length};
ghost use Rattle.std.specs.List.{list_any};
ghost use Rattle.norm_script.specs.Spelling.{begins_with_mark, is_wide, last_octet, has_two_spaces, spelling_of};

use crate::refusal::Why;

/// Whether a line begins with the byte order mark of UTF-8.
fn begins_with_mark(line: &[u8]) -> bool
    ensures { result ≡ begins_with_mark line.now }
{
    3 <= line.len() && line[0] == 0xef && line[1] == 0xbb && line[2] == 0xbf
}

/// Whether a line has an octet 0, 254 or 255.
// UTF-16 has 254 and 255 in its mark, and 0 beside each ASCII letter. A text in UTF-8 has none of these unless it has a NUL.
fn is_wide(line: &[u8]) -> bool
    ensures { result ≡ list_any is_wide line.now }
{
    line.iter().any(|octet| *octet == 0 || 254 <= *octet)
}

fn has_two_spaces(line: &[u8]) -> bool
    ensures { result ≡ has_two_spaces false line.now }
{
    let mut behind = false;
    for octet in line {
        let space = *octet == b' ';
        if behind && space {
            return true;
        }
        behind = space;
    }
    false
}

fn ends_with(line: &[u8], octet: u8) -> bool
    requires { 1 ≤ length line.now }
    ensures { result ≡ (last_octet line.now == octet) }
{
    line[line.len() - 1] == octet
}

/// Returns what an editor did to a line: a byte order mark, UTF-16, a carriage return, a space at the end, or two spaces in a row. If it has several,
/// the first of these. `None` if it has none.
pub fn spelling_of(line: &[u8]) -> Option<Why>
    requires { 1 ≤ length line.now }
    ensures { result ≡ spelling_of line.now }
{
    // A mark and UTF-16 first: the tests below would name only what they look like.
    if begins_with_mark(line) {
        return Some(Why::ByteOrderMark);
    }
    if is_wide(line) {
        return Some(Why::Utf16);
    }
    if ends_with(line, b'\r') {
        return Some(Why::CarriageReturn);
    }
    if ends_with(line, b' ') {
        return Some(Why::SpaceAtEnd);
    }
    if has_two_spaces(line) {
        return Some(Why::TwoSpaces);
    }
    None
}
