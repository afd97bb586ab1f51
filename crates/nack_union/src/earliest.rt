//! The first point from which repair requests count (RFC 5740 section 5.4). If it lies before the window, a squelch is due.

ghost use Rattle.std.specs.Prelude.{◌≡◌, [], None, Some};
ghost use Rattle.norm_ext.specs.Asking.{span};
ghost use Rattle.norm_send_rules.specs.Closing.{gives_something, counts_from};
ghost use Rattle.nack_union.specs.Earliest.{lesser, is_before_window, least_where, lesser_span};

use fec_plan::{Point, Position};
use norm_ext::flags::{WANT_BLOCK, WANT_INFO, WANT_OBJECT, WANT_SEGMENT};
use norm_ext::items::has_flag;
use norm_ext::{Form, Request};

fn nearer(a: Point, b: Point) -> Point
    ensures { lesser (Some a) (Some b) ≡ Some result }
{
    if b.is_before(&a) { b } else { a }
}

/// Returns the earlier of two points, or the only one. `None` if there is none.
pub fn lesser(a: Option<Point>, b: Option<Point>) -> Option<Point>
    ensures { result ≡ lesser a b }
{
    match (a, b) {
        (None, other) => other,
        (Some(at), None) => Some(at),
        (Some(at), Some(other)) => Some(nearer(at, other)),
    }
}

/// Whether there is a point and it lies before `first`, with which the window begins.
pub fn is_early(at: Option<Point>, first: Point) -> bool
    ensures { result ≡ is_before_window at first }
{
    match at {
        None => false,
        Some(at) => at.is_before(&first),
    }
}

/// Returns the point from which a request at a position counts. With OBJECT or INFO among the flags, that is the object's first block.
fn counts_from(flags: u8, at: Position) -> Point
    ensures { result ≡ counts_from flags at }
{
    let whole = has_flag(flags, WANT_OBJECT) || has_flag(flags, WANT_INFO);
    Point {
        index: at.index,
        block: if whole { 0 } else { at.block },
    }
}

/// Whether the form and flags of a request ask for anything. Its items are not read.
pub fn gives_something(request: &Request<'_>) -> bool
    ensures { result ≡ gives_something (record { form = request.now.form; flags = request.now.flags; spans = [] }) }
{
    if has_flag(request.flags, WANT_SEGMENT) || has_flag(request.flags, WANT_BLOCK) {
        return true;
    }
    match request.form {
        Form::Items | Form::Ranges => {
            has_flag(request.flags, WANT_OBJECT) || has_flag(request.flags, WANT_INFO)
        }
        Form::Erasures => false,
    }
}

/// Returns the point that was found if `gives`, else `None`.
pub fn least_where(gives: bool, least: Option<Point>) -> Option<Point>
    ensures { result ≡ least_where gives least }
{
    if gives { least } else { None }
}

/// Returns the earlier of a point, if there is one, and the point from which a request at a position counts.
pub fn lesser_from(flags: u8, least: Option<Point>, at: Position) -> Option<Point>
    ensures { result ≡ lesser least (Some (counts_from flags at)) }
{
    lesser(least, Some(counts_from(flags, at)))
}

/// Returns the earlier of a point, if there is one, and the point from which a range counts. A range that ends before it begins counts from none.
pub fn lesser_span(
    flags: u8,
    least: Option<Point>,
    first: Position,
    last: Position,
) -> Option<Point>
    ensures { result ≡ lesser_span flags least (span first last) }
{
    if last.is_before(&first) {
        return least;
    }
    lesser_from(flags, least, first)
}
