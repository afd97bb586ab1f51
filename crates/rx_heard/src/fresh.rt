//! What of a message's requests may need room: everything from the first item on that adds something.

ghost use Rattle.std.specs.Prelude.{◌≡◌, fold, true, IsTrue};
ghost use Rattle.std.specs.List.{AllWithin};
ghost use Rattle.fec_plan.specs.Points.{position_before};
ghost use Rattle.norm_ext.specs.Asking.{is_proper};
ghost use Rattle.norm_receive_rules.specs.Heard.{with_proper, with_count};
ghost use Rattle.rx_heard.specs.Orderly.{AreApart, Rise};

use crate::heard::{Count, Span};
use crate::searching::{first_count, first_span};

/// Whether the span at index `place` takes in all of this span, which then adds nothing. All spans before the index end before this one begins.
pub(crate) fn has_at(spans: &[Span], place: usize, span: &Span) -> bool
    requires ordered { AreApart spans.now }
    requires before { AllWithin (λ other. position_before other.last span.now.first ≡ true) spans.now 0 place }
    requires proper { is_proper span.now ≡ true }
    ensures { IsTrue result → with_proper spans.now span.now ≡ spans.now }
{
    if place >= spans.len() {
        return false;
    }
    let other = spans[place];
    other.takes_in(span)
}

/// Whether a span adds nothing: all of it lies in one of these spans, or it ends before it begins.
fn has_span(spans: &[Span], span: &Span) -> bool
    requires { AreApart spans.now }
    ensures { IsTrue result → with_proper spans.now span.now ≡ spans.now }
{
    if span.last.is_before(&span.first) {
        return true;
    }
    has_at(spans, first_span(spans, span.first), span)
}

/// Whether a count adds nothing: one of these counts asks for at least as many symbols of its block.
fn has_count(counts: &[Count], count: &Count) -> bool
    requires { Rise counts.now }
    ensures { IsTrue result → with_count count.now counts.now ≡ counts.now }
{
    let place = first_count(counts, count.of);
    if place >= counts.len() {
        return false;
    }
    counts[place].asks_for(count.of, count.lacking)
}

/// Returns the rest of `asked` from the first span on that adds something to `spans`. Later ones may add nothing.
pub(crate) fn fresh_spans<'a>(spans: &[Span], asked: &'a [Span]) -> &'a [Span]
    requires { AreApart spans.now }
    ensures same { fold with_proper spans.now result.now ≡ fold with_proper spans.now asked.now }
{
    let mut rest = asked;
    // Proof: the label names the loop for its invariant.
    'known: while let Some((span, behind)) = rest.split_first() {
        if !has_span(spans, span) {
            return rest;
        }
        rest = behind;
    }
    rest
}

/// Returns the rest of `asked` from the first count on for whose block `counts` has none, or a lower one. Later ones may add nothing.
pub(crate) fn fresh_counts<'a>(counts: &[Count], asked: &'a [Count]) -> &'a [Count]
    requires { Rise counts.now }
    ensures same { fold (λ counts c. with_count c counts) counts.now result.now ≡ fold (λ counts c. with_count c counts) counts.now asked.now }
{
    let mut rest = asked;
    // Proof: the label names the loop for its invariant.
    'known: while let Some((count, behind)) = rest.split_first() {
        if !has_count(counts, count) {
            return rest;
        }
        rest = behind;
    }
    rest
}
