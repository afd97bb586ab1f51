//! Whether others asked for what is needed (RFC 5401 section 3.2.2), by a search in what was heard.

ghost use Rattle.std.specs.Prelude.{◌≡◌, ◌+◌, ◌-◌, ◌≤◌, ◌<◌, ◌&&◌, ◌||◌, true, false, length};
ghost use Rattle.std.specs.List.{AllWithin};
ghost use Rattle.fec_plan.specs.Partition.{most_blocks};
ghost use Rattle.fec_plan.specs.Points.{IsBlock, position_before, point_before};
ghost use Rattle.norm_receive_rules.specs.HeardNeeds.{is_asked, symbol_behind, covers, asks_as_many, blocks_heard, info_heard};
ghost use Rattle.norm_receive_rules.specs.StreamNeeds.{last_block};
ghost use Rattle.rx_heard.specs.Orderly.{AreApart, Rise};

use crate::heard::{Count, Heard, Span};
use fec_plan::{LAST_BLOCK, Point, Position};

/// The most symbols that a block may have if nothing is known of its object.
// One more than the greatest number of a symbol: without a plan nothing says how many symbols a block has.
const WIDEST: u16 = 256;

/// Returns the index of the first span that does not end before a position, or the number of spans if all do.
// Proof: the closure has a clause and the list is ordered, so partition_point decides all before and all after the index.
pub(crate) fn first_span(spans: &[Span], at: Position) -> usize
    requires { AreApart spans.now }
    ensures bound { result ≤ length spans.now }
    ensures before { AllWithin (λ span. position_before span.last at ≡ true) spans.now 0 result }
    ensures from { AllWithin (λ span. position_before span.last at ≡ false) spans.now result (length spans.now) }
{
    spans.partition_point(
        |span: &Span| -> bool
            ensures { result ≡ position_before span.now.last at }
        { span.last.is_before(&at) },
    )
}

/// Returns the index of the first count whose block is this one or a later one, or the number of counts if there is none.
pub(crate) fn first_count(counts: &[Count], at: Point) -> usize
    requires { Rise counts.now }
    ensures bound { result ≤ length counts.now }
    ensures before { AllWithin (λ count. point_before count.of at ≡ true) counts.now 0 result }
    ensures from { AllWithin (λ count. point_before count.of at ≡ false) counts.now result (length counts.now) }
{
    counts.partition_point(
        |count: &Count| -> bool
            ensures { result ≡ point_before count.now.of at }
        { count.of.is_before(&at) },
    )
}

/// Whether a position lies in one of these spans, by binary search.
fn is_asked(spans: &[Span], at: Position) -> bool
    requires { AreApart spans.now }
    ensures { result ≡ is_asked spans.now at }
{
    let place = first_span(spans, at);
    if place >= spans.len() {
        return false;
    }
    let span = spans[place];
    !at.is_before(&span.first)
}

/// Whether one of these counts asks for at least `wanted` symbols of a block, by binary search.
fn asks_as_many(counts: &[Count], at: Point, wanted: u8) -> bool
    requires { Rise counts.now }
    ensures { result ≡ asks_as_many counts.now at wanted }
{
    let place = first_count(counts, at);
    if place >= counts.len() {
        return false;
    }
    counts[place].asks_for(at, wanted)
}

/// Returns the source symbol after a position if blocks have `width` of them.
// Proof: a span that ends between two positions of one object ends before the last one's block does, so the next block has a number.
fn symbol_behind(width: u16, at: Position) -> Position
    requires few { width ≤ 256 }
    requires block { width ≤ at.symbol + 1 → at.block + 1 < most_blocks }
    ensures { result ≡ symbol_behind width at }
{
    if u16::from(at.symbol) + 1 < width {
        return Position {
            symbol: at.symbol + 1,
            ..at
        };
    }
    Position {
        index: at.index,
        block: at.block + 1,
        symbol: 0,
    }
}

/// Whether these spans have all source symbols of an object from `first` to `last`, if its blocks have `width` of them.
fn covers(spans: &[Span], width: u16, first: Position, last: Position) -> bool
    requires ordered { AreApart spans.now }
    requires few { width ≤ 256 }
    requires object { first.index ≡ last.index }
    requires symbol { last.symbol ≡ width - 1 }
    ensures { result ≡ covers width first last spans.now }
{
    let mut next = first;
    let mut place = first_span(spans, first);
    while place < spans.len() {
        let span = spans[place];
        if span.last.is_before(&next) {
            place += 1;
        } else if next.is_before(&span.first) {
            return false;
        } else if !span.last.is_before(&last) {
            return true;
        } else {
            next = symbol_behind(width, span.last);
            place += 1;
        }
    }
    false
}

impl Heard {
    /// Whether others asked for the info of an object. The cost is a binary search.
    pub fn has_info(&self, index: u32) -> bool
        ensures { result ≡ info_heard self.now index }
    {
        let at = Position {
            index,
            block: 0,
            symbol: 0,
        };
        is_asked(self.infos.as_slice(), at)
    }

    /// Whether others asked for a source symbol by a span of symbols, blocks or objects. Counts are not looked at.
    pub fn has_symbol(&self, at: Position) -> bool
        ensures { result ≡ is_asked self.now.symbols at }
    {
        is_asked(self.symbols.as_slice(), at)
    }

    /// Whether others asked for all source symbols of the blocks `first` to `last` of an object, if blocks have `width` of them.
    fn has_blocks(&self, width: u16, index: u32, first: u32, last: u32) -> bool
        requires few { width ≤ 256 }
        requires first { IsBlock first }
        requires last { IsBlock last }
        ensures { result ≡ blocks_heard self.now width index first last }
    {
        let begin = Position {
            index,
            block: first,
            symbol: 0,
        };
        let end = Position {
            index,
            block: last,
            symbol: width.saturating_sub(1) as u8,
        };
        covers(self.symbols.as_slice(), width, begin, end)
    }

    /// Whether others asked for all of an object and its info. Nothing is known of the object, so its blocks may have any width.
    pub fn has_object(&self, index: u32) -> bool
        ensures { result ≡ (blocks_heard self.now 256 index 0 last_block && info_heard self.now index) }
    {
        self.has_blocks(WIDEST, index, 0, LAST_BLOCK) && self.has_info(index)
    }

    /// Whether others asked for at least `wanted` symbols of a block, or for all its `width` source symbols.
    pub fn has_symbols(&self, at: Point, width: u8, wanted: u8) -> bool
        requires { IsBlock at.block }
        ensures { result ≡ (asks_as_many self.now.counts at wanted || blocks_heard self.now width at.index at.block at.block) }
    {
        asks_as_many(self.counts.as_slice(), at, wanted)
            || self.has_blocks(u16::from(width), at.index, at.block, at.block)
    }

    /// Whether others asked for all source symbols of a stream from a block on. Its blocks have `width` of them.
    pub fn has_rest(&self, width: u8, index: u32, block: u32) -> bool
        requires { IsBlock block }
        ensures { result ≡ blocks_heard self.now width index block last_block }
    {
        self.has_blocks(u16::from(width), index, block, LAST_BLOCK)
    }
}
