//! [`Heard`]: what a receiver heard others ask for while it backs off (RFC 5401 section 3.2.2).

ghost use Rattle.std.specs.Prelude.{◌≡◌, ◌≤◌, ◌<◌, ◌+◌, ◌&&◌, nat_le, length, fold, vec_capacity, IfOk, OnErr, true, max, not};
ghost use Rattle.fec_plan.specs.Points.{position_before, point_before, same_point};
ghost use Rattle.norm_ext.specs.Asking.{is_proper};
ghost use Rattle.norm_receive_rules.specs.Heard.{heard_nothing, joined, with_span, with_proper, with_count};
ghost use Rattle.norm_receive_rules.specs.Overhearing.{most_heard, can_hear, heard_whole};
ghost use Rattle.rx_heard.specs.Orderly.{AreApart, Rise};

use crate::asked::Asked;
use crate::fresh::{fresh_counts, fresh_spans, has_at};
use crate::searching::{first_count, first_span};
use fec_plan::{Point, Position};
use norm_base::Memory;
use std::alloc::Global;
use std::marker::Model;

/// The most spans of symbols, the most spans of infos, and the most counts that are kept.
// Our own choice. A message that might exceed it is not heard at all: at worst the receiver asks for what others asked for.
const MOST_HEARD: usize = 4096;

/// The positions from `first` to `last`, both included.
#[derive(Clone, Copy, Debug)]
pub(crate) struct Span {
    pub first: Position,
    pub last: Position,
}

impl Model for Span {
    ghost use Rattle.norm_ext.specs.Asking.{Span as Stretch, span};

    ghost Value = { Stretch };

    ghost view = { λ x. span x.first x.last };

    ghost inverse = { λ x. record { first = x.first; last = x.last } };
}

impl Span {
    /// Returns this span and one that shares a position with it, merged.
    fn joined(&self, other: &Span) -> Span
        ensures { result ≡ joined self.now other.now }
    {
        let last = if self.last.is_before(&other.last) {
            other.last
        } else {
            self.last
        };
        Span {
            first: self.first.nearer(other.first),
            last,
        }
    }

    pub fn takes_in(&self, other: &Span) -> bool
        ensures { result ≡ (not (position_before other.now.first self.now.first) && not (position_before self.now.last other.now.last)) }
    {
        !other.first.is_before(&self.first) && !self.last.is_before(&other.last)
    }

    fn ends_before(&self, other: &Span) -> bool
        ensures { result ≡ position_before self.now.last other.now.first }
    {
        self.last.is_before(&other.first)
    }
}

/// Inserts a span, and merges it with all spans that share a position with it. There is room for it. Nothing moves if the span lies in one
/// that is there.
fn put_span(spans: &mut Vec<Span>, span: Span)
    requires ordered { AreApart spans.old.items }
    requires proper { is_proper span ≡ true }
    requires room { length spans.old.items < vec_capacity spans.old }
    ensures put { spans.new.items ≡ with_span span spans.old.items }
    ensures few { length spans.new.items ≤ length spans.old.items + 1 }
    ensures room { vec_capacity spans.old ≤ vec_capacity spans.new }
{
    let mut place = first_span(spans.as_slice(), span.first);
    if has_at(spans.as_slice(), place, &span) {
        return;
    }
    let mut more = span;
    while place < spans.len() {
        let other = spans[place];
        if other.ends_before(&more) {
            place += 1;
        } else if more.ends_before(&other) {
            // The clause says that there is room.
            spans.insert(place, more).unwrap();
            return;
        } else {
            more = more.joined(&other);
            spans.remove(place);
        }
    }
    spans.push(more).unwrap();
}

/// Inserts a span unless it ends before it begins. There is room for it.
fn put_proper(spans: &mut Vec<Span>, span: Span)
    requires ordered { AreApart spans.old.items }
    requires room { length spans.old.items < vec_capacity spans.old }
    ensures put { spans.new.items ≡ with_proper spans.old.items span }
    ensures ordered { AreApart spans.new.items }
    ensures few { length spans.new.items ≤ length spans.old.items + 1 }
    ensures room { vec_capacity spans.old ≤ vec_capacity spans.new }
{
    if span.last.is_before(&span.first) {
        return;
    }
    put_span(spans, span);
}

/// Inserts these spans, except those that end before they begin. There is room for them.
fn note_spans(spans: &mut Vec<Span>, more: &[Span])
    requires ordered { AreApart spans.old.items }
    requires room { length spans.old.items + length more.now ≤ vec_capacity spans.old }
    ensures noted { spans.new.items ≡ fold with_proper spans.old.items more.now }
    ensures ordered { AreApart spans.new.items }
    ensures few { length spans.new.items ≤ length spans.old.items + length more.now }
{
    let mut rest = more;
    // Proof: the label names the loop for its invariant.
    'noting: while let Some((span, behind)) = rest.split_first() {
        put_proper(spans, *span);
        rest = behind;
    }
}

/// How many symbols of a block a request asks for.
#[derive(Clone, Copy, Debug)]
pub(crate) struct Count {
    pub of: Point,
    pub lacking: u8,
}

impl Model for Count {
    ghost use Rattle.norm_ext.specs.Asking.{Count as Lacking};

    ghost Value = { Lacking };

    ghost view = { λ x. record { of = x.of; lacking = x.lacking } };

    ghost inverse = { λ x. record { of = x.of; lacking = x.lacking } };
}

impl Count {
    /// Returns the greater of this count and another one of the same block.
    fn greater(&self, other: &Count) -> Count
        ensures { result ≡ record { of = self.now.of; lacking = max self.now.lacking other.now.lacking } }
    {
        Count {
            of: self.of,
            lacking: self.lacking.max(other.lacking),
        }
    }

    fn is_of(&self, other: &Count) -> bool
        ensures { result ≡ same_point self.now.of other.now.of }
    {
        self.of.is(&other.of)
    }

    fn is_before(&self, other: &Count) -> bool
        ensures { result ≡ point_before self.now.of other.now.of }
    {
        self.of.is_before(&other.of)
    }

    /// Whether it asks for at least `wanted` symbols of a block. `false` for another block than its own, even if `wanted` is 0.
    pub fn asks_for(&self, at: Point, wanted: u8) -> bool
        ensures { result ≡ (same_point self.now.of at && nat_le wanted self.now.lacking) }
    {
        self.of.is(&at) && wanted <= self.lacking
    }
}

/// Inserts a count, or raises the one of the same block if that is lower. There is room for it.
fn put_count(counts: &mut Vec<Count>, count: Count)
    requires ordered { Rise counts.old.items }
    requires room { length counts.old.items < vec_capacity counts.old }
    ensures put { counts.new.items ≡ with_count count counts.old.items }
    ensures ordered { Rise counts.new.items }
    ensures few { length counts.new.items ≤ length counts.old.items + 1 }
    ensures room { vec_capacity counts.old ≤ vec_capacity counts.new }
{
    let mut place = first_count(counts.as_slice(), count.of);
    while place < counts.len() {
        let other = counts[place];
        if count.is_of(&other) {
            counts[place] = other.greater(&count);
            return;
        }
        if count.is_before(&other) {
            counts.insert(place, count).unwrap();
            return;
        }
        place += 1;
    }
    counts.push(count).unwrap();
}

/// Inserts these counts, or raises those of the same blocks. There is room for them.
fn note_counts(counts: &mut Vec<Count>, more: &[Count])
    requires ordered { Rise counts.old.items }
    requires room { length counts.old.items + length more.now ≤ vec_capacity counts.old }
    ensures noted { counts.new.items ≡ fold (λ counts c. with_count c counts) counts.old.items more.now }
    ensures ordered { Rise counts.new.items }
    ensures few { length counts.new.items ≤ length counts.old.items + length more.now }
{
    let mut rest = more;
    // Proof: the label names the loop for its invariant.
    'noting: while let Some((count, behind)) = rest.split_first() {
        put_count(counts, *count);
        rest = behind;
    }
}

/// Whether a list of `kept` items may grow by `more`.
fn are_kept(kept: usize, more: usize) -> bool
    ensures { result ≡ nat_le (kept + more) most_heard }
{
    kept <= MOST_HEARD && more <= MOST_HEARD - kept
}

/// What others asked for: source symbols and infos as spans of which no two share a position, and for each block the greatest count. All
/// lists are in ascending order, so that binary search finds an item.
#[derive(Debug, Drop)]
pub struct Heard {
    alloc: Global,
    pub(crate) symbols: Vec<Span>,
    pub(crate) infos: Vec<Span>,
    pub(crate) counts: Vec<Count>,
}

impl Model for Heard {
    ghost use Rattle.norm_receive_rules.specs.Heard.{Heard as Meaning};
    ghost use Rattle.rx_heard.specs.Orderly.{IsOrderly};

    ghost Value = { Meaning };

    ghost view = { λ h. record { symbols = h.symbols.items; infos = h.infos.items; counts = h.counts.items } };

    // If two spans shared a position, or did not rise, binary search could miss what was heard.
    ghost invariant = { λ h. IsOrderly (record { symbols = h.symbols.items; infos = h.infos.items; counts = h.counts.items }) };
}

impl Heard {
    /// Creates an empty one. It takes no memory.
    pub fn new(alloc: Global) -> Heard
        ensures { result ≡ heard_nothing }
    {
        Heard {
            alloc,
            symbols: Vec::new(alloc),
            infos: Vec::new(alloc),
            counts: Vec::new(alloc),
        }
    }

    /// Creates an empty one that takes its memory from the same allocator. It takes none yet.
    pub fn anew(&self) -> Heard
        ensures { result ≡ heard_nothing }
    {
        Heard::new(self.alloc)
    }

    /// Forgets everything. It keeps its memory.
    pub fn clear(&mut self)
        ensures { self.new ≡ heard_nothing }
    {
        self.symbols.clear();
        self.infos.clear();
        self.counts.clear();
    }

    /// Whether no list can exceed its bound by this message, even if nothing in it was heard before.
    fn can_hear(&self, asked: &Asked) -> bool
        ensures { result ≡ can_hear self.now asked.now }
    {
        are_kept(self.symbols.len(), asked.symbols.len())
            && are_kept(self.infos.len(), asked.infos.len())
            && are_kept(self.counts.len(), asked.counts.len())
    }

    /// Merges everything that a message asks for, or nothing if a list might exceed its bound. It takes no memory if it changes nothing.
    ///
    /// # Errors
    ///
    /// `Memory` if memory runs out; then nothing changes.
    pub(crate) fn note(&mut self, asked: &Asked) -> Result<(), Memory>
        ensures heard { IfOk result (λ _. self.new ≡ heard_whole self.old asked.now) }
        ensures refused { OnErr result (self.new ≡ self.old) }
    {
        if !self.can_hear(asked) {
            return Ok(());
        }
        let symbols = fresh_spans(self.symbols.as_slice(), asked.symbols.as_slice());
        let infos = fresh_spans(self.infos.as_slice(), asked.infos.as_slice());
        let counts = fresh_counts(self.counts.as_slice(), asked.counts.as_slice());
        self.symbols.reserve(symbols.len())?;
        self.infos.reserve(infos.len())?;
        self.counts.reserve(counts.len())?;
        note_spans(&mut self.symbols, symbols);
        note_spans(&mut self.infos, infos);
        note_counts(&mut self.counts, counts);
        Ok(())
    }
}
