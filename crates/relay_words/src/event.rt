//! The lines of `relay`: `up HEX` and `down HEX` are datagrams from above and below, and `tick` lets a moment pass. `driven_nodes`
//! calls [`event_in`] and [`why_no_event`].

ghost use Rattle.std.specs.Prelude.{◌≡◌, ◌||◌, IfOk};
ghost use Rattle.relay_words.specs.Events.{digits_in, tick_in, event_in, is_side, why_digits, why_form, why_no_event};

use crate::ends::NoEvent;
use norm_base::{Memory, Octets};
use norm_script::{spelling_of, split_at_first};
use norm_show::{datagram_in, why_none};
use std::alloc::Global;

/// What a line of `relay` is.
#[derive(Debug, Drop)]
pub enum LineEvent {
    /// This datagram comes from the session above.
    Up(Octets),
    /// This datagram comes from the session below.
    Down(Octets),
    /// Nothing comes.
    Tick,
}

/// Returns the datagram that digits spell. `None` if there are no digits, or if they spell none.
fn digits_in(alloc: Global, digits: &[u8]) -> Result<Option<Octets>, Memory>
    ensures { IfOk result (λ datagram. datagram ≡ digits_in digits.now) }
{
    if digits.is_empty() {
        return Ok(None);
    }
    datagram_in(alloc, digits)
}

fn tick_in(line: &[u8]) -> Option<LineEvent>
    ensures { result ≡ tick_in line.now }
{
    if line == b"tick".as_slice() {
        return Some(LineEvent::Tick);
    }
    None
}

/// Returns the event that a line is, or `None` if it is none.
///
/// # Errors
///
/// `Memory` if memory runs out.
#[tactic(auto, unfolding(crate::specs::Events::event_in))]
pub fn event_in(alloc: Global, line: &[u8]) -> Result<Option<LineEvent>, Memory>
    ensures { IfOk result (λ event. event ≡ event_in line.now) }
{
    let Some((word, digits)) = split_at_first(line, b' ') else {
        return Ok(tick_in(line));
    };
    if word == b"up".as_slice() {
        return match digits_in(alloc, digits)? {
            Some(datagram) => Ok(Some(LineEvent::Up(datagram))),
            None => Ok(None),
        };
    }
    if word == b"down".as_slice() {
        return match digits_in(alloc, digits)? {
            Some(datagram) => Ok(Some(LineEvent::Down(datagram))),
            None => Ok(None),
        };
    }
    Ok(None)
}

fn is_side(word: &[u8]) -> bool
    ensures { result ≡ is_side word.now }
{
    word == b"up".as_slice() || word == b"down".as_slice()
}

fn why_digits(digits: &[u8]) -> NoEvent
    ensures { result ≡ why_digits digits.now }
{
    if digits.is_empty() {
        return NoEvent::Form;
    }
    NoEvent::Digits {
        why: why_none(digits),
    }
}

fn why_form(line: &[u8]) -> NoEvent
    ensures { result ≡ why_form line.now }
{
    let Some((word, digits)) = split_at_first(line, b' ') else {
        return NoEvent::Form;
    };
    if is_side(word) {
        return why_digits(digits);
    }
    NoEvent::Form
}

/// Returns why a line is no event. Call it if [`event_in`] returned `None`.
#[tactic(auto, unfolding(crate::specs::Events::why_no_event))]
pub fn why_no_event(line: &[u8]) -> NoEvent
    ensures { result ≡ why_no_event line.now }
{
    if line.is_empty() {
        return NoEvent::Form;
    }
    if let Some(why) = spelling_of(line) {
        return NoEvent::Spelt { why };
    }
    why_form(line)
}
