//! Hearing what others ask for while the receiver backs off (RFC 5401 section 3.2.2, RFC 5740 section 5.3). The requests of a message are
//! first read as a whole, and then merged.

ghost use Rattle.std.specs.Prelude.{◌≡◌, ◌<◌, ◌||◌, [], ◌∷◌, ◌++◌, IfOk, OnErr, filter, fold, map};
ghost use Rattle.norm_ext.specs.Asking.{span, is_proper, named, named_spans, asked_spans, asked_counts, where_flag, has_flag, segment_flag, block_flag};
ghost use Rattle.fec_plan.specs.Points.{point_of};
ghost use Rattle.norm_ext.specs.RequestView.{request_of};
ghost use Rattle.norm_ext.specs.Requests.{items_named};
ghost use Rattle.norm_receive_rules.specs.Heard.{asked_infos};
ghost use Rattle.norm_receive_rules.specs.Overhearing.{asked_also, asked_all, heard_whole};
ghost use Rattle.rx_heard.specs.Overhearing.{widened, with_spans, with_counts, with_named, naming, items_spans, pairs_spans};

use crate::asked::Asked;
use crate::heard::{Count, Heard, Span};
use fec_plan::{LAST_BLOCK, Point, Position};
use norm_base::{Memory, Profile};
use norm_ext::flags::{WANT_BLOCK, WANT_INFO, WANT_OBJECT, WANT_SEGMENT};
use norm_ext::items::{ends_of, has_flag, position_of, split_item, split_pair};
use norm_ext::{Form, Request, Requests};

/// The greatest symbol number that a message can name.
// RFC 5510 section 5.1: 8 bits name a symbol. Encoding symbols go up to 254, so a span up to it reaches the end of any block.
const LAST_SYMBOL: u8 = 255;

/// How much a request means by what it names: the symbols themselves, their blocks, or their objects.
#[derive(Clone, Copy, Debug)]
pub(crate) enum Width {
    Symbols,
    Blocks,
    Objects,
}

/// Returns the span from one position to another, widened to whole blocks or objects if the request means those.
fn widened(width: Width, first: Position, last: Position) -> Span
    ensures { result ≡ widened width (span first last) }
{
    match width {
        Width::Symbols => Span { first, last },
        Width::Blocks => Span {
            first: Position { symbol: 0, ..first },
            last: Position {
                symbol: LAST_SYMBOL,
                ..last
            },
        },
        Width::Objects => Span {
            first: Position {
                index: first.index,
                block: 0,
                symbol: 0,
            },
            last: Position {
                index: last.index,
                block: LAST_BLOCK,
                symbol: LAST_SYMBOL,
            },
        },
    }
}

/// Appends the span of each item. Skips an item whose object id stands for no index.
fn hear_items(
    spans: &mut Vec<Span>,
    profile: &Profile,
    known: u32,
    width: Width,
    items: &[u8],
) -> Result<(), Memory>
    ensures { IfOk result (λ _. spans.new.items ≡ with_spans width spans.old.items (items_spans profile.now known (items_named items.now))) }
{
    let mut rest = items;
    // Proof: the label names the loop for its invariant.
    'items: while let Some((item, behind)) = split_item(rest) {
        if let Some(at) = position_of(profile, known, item) {
            spans.push(widened(width, at, at))?;
        }
        rest = behind;
    }
    Ok(())
}

/// Appends the span of a range, unless that ends before it begins.
fn put_pair(
    spans: &mut Vec<Span>,
    width: Width,
    first: Position,
    last: Position,
) -> Result<(), Memory>
    ensures { IfOk result (λ _. spans.new.items ≡ with_spans width spans.old.items (filter is_proper (span first last ∷ []))) }
{
    if last.is_before(&first) {
        return Ok(());
    }
    spans.push(widened(width, first, last))?;
    Ok(())
}

/// Appends the span of each pair of items, which are the ends of a range. Skips a pair if the object id of one of them stands for no index, or if
/// the range ends before it begins.
fn hear_ranges(
    spans: &mut Vec<Span>,
    profile: &Profile,
    known: u32,
    width: Width,
    items: &[u8],
) -> Result<(), Memory>
    ensures { IfOk result (λ _. spans.new.items ≡ with_spans width spans.old.items (filter is_proper (pairs_spans profile.now known (items_named items.now)))) }
{
    let mut rest = items;
    // Proof: the label names the loop for its invariant.
    'pairs: while let Some((first, last, behind)) = split_pair(rest) {
        if let Some(ends) = ends_of(profile, known, first, last) {
            put_pair(spans, width, ends.0, ends.1)?;
        }
        rest = behind;
    }
    Ok(())
}

/// Appends the spans of a request's items or ranges. Erasures have none.
fn hear_named(
    spans: &mut Vec<Span>,
    profile: &Profile,
    known: u32,
    width: Width,
    request: &Request<'_>,
) -> Result<(), Memory>
    ensures { IfOk result (λ _. spans.new.items ≡ with_spans width spans.old.items (named_spans (named profile.now known (request_of request.now)))) }
{
    match request.form {
        Form::Items => hear_items(spans, profile, known, width, request.items),
        Form::Ranges => hear_ranges(spans, profile, known, width, request.items),
        Form::Erasures => Ok(()),
    }
}

/// Returns the count that an item of erasures means: its symbol number is how many symbols its block lacks.
fn count_at(at: Position) -> Count
    ensures { result ≡ record { of = point_of at; lacking = at.symbol } }
{
    Count {
        of: at.point(),
        lacking: at.symbol,
    }
}

/// Appends the count of each item of erasures. Skips an item whose object id stands for no index.
fn hear_counts(
    counts: &mut Vec<Count>,
    profile: &Profile,
    known: u32,
    items: &[u8],
) -> Result<(), Memory>
    ensures { IfOk result (λ _. counts.new.items ≡ with_counts counts.old.items (items_spans profile.now known (items_named items.now))) }
{
    let mut rest = items;
    // Proof: the label names the loop for its invariant.
    'items: while let Some((item, behind)) = split_item(rest) {
        if let Some(at) = position_of(profile, known, item) {
            counts.push(count_at(at))?;
        }
        rest = behind;
    }
    Ok(())
}

/// Appends the spans of a request if its flags have this one. `kind` is the flag, and how much the request means by it.
fn hear_where(
    spans: &mut Vec<Span>,
    profile: &Profile,
    known: u32,
    kind: (u8, Width),
    request: &Request<'_>,
) -> Result<(), Memory>
    requires { 0 < kind.0 }
    ensures { IfOk result (λ _. spans.new.items ≡ spans.old.items ++ (where_flag request.now.flags kind.0 (map (widened kind.1) (named_spans (named profile.now known (request_of request.now)))))) }
{
    if !has_flag(request.flags, kind.0) {
        return Ok(());
    }
    hear_named(spans, profile, known, kind.1, request)
}

/// Appends the spans of source symbols that a request asks for, once for each of SEGMENT, BLOCK and OBJECT that its flags have.
fn hear_symbols(
    spans: &mut Vec<Span>,
    profile: &Profile,
    known: u32,
    request: &Request<'_>,
) -> Result<(), Memory>
    ensures { IfOk result (λ _. spans.new.items ≡ spans.old.items ++ (asked_spans (named profile.now known (request_of request.now)))) }
{
    hear_where(
        spans,
        profile,
        known,
        (WANT_SEGMENT, Width::Symbols),
        request,
    )?;
    hear_where(spans, profile, known, (WANT_BLOCK, Width::Blocks), request)?;
    hear_where(
        spans,
        profile,
        known,
        (WANT_OBJECT, Width::Objects),
        request,
    )?;
    Ok(())
}

/// Appends the infos that a request asks for, as spans of whole objects.
fn hear_infos(
    spans: &mut Vec<Span>,
    profile: &Profile,
    known: u32,
    request: &Request<'_>,
) -> Result<(), Memory>
    ensures { IfOk result (λ _. spans.new.items ≡ spans.old.items ++ (asked_infos (named profile.now known (request_of request.now)))) }
{
    hear_where(spans, profile, known, (WANT_INFO, Width::Objects), request)
}

/// Whether the flags of erasures ask for symbols of blocks.
fn wants_symbols(flags: u8) -> bool
    ensures { result ≡ (has_flag flags segment_flag || has_flag flags block_flag) }
{
    has_flag(flags, WANT_SEGMENT) || has_flag(flags, WANT_BLOCK)
}

/// Appends the counts that a request asks for. Only erasures have some, if SEGMENT or BLOCK is set.
fn hear_lacking(
    counts: &mut Vec<Count>,
    profile: &Profile,
    known: u32,
    request: &Request<'_>,
) -> Result<(), Memory>
    ensures { IfOk result (λ _. counts.new.items ≡ counts.old.items ++ (asked_counts (named profile.now known (request_of request.now)))) }
{
    match request.form {
        Form::Items | Form::Ranges => Ok(()),
        Form::Erasures => {
            if !wants_symbols(request.flags) {
                return Ok(());
            }
            hear_counts(counts, profile, known, request.items)
        }
    }
}

/// Whether the flags of a request have at most one of SEGMENT, BLOCK, INFO and OBJECT.
// Both ways of reading give the same, so it needs no clause.
fn is_single(flags: u8) -> bool {
    let known = flags & (WANT_SEGMENT | WANT_BLOCK | WANT_INFO | WANT_OBJECT);
    known.count_ones() <= 1
}

/// Appends these spans, each one widened.
fn note_named(spans: &mut Vec<Span>, width: Width, named: &[Span]) -> Result<(), Memory>
    ensures { IfOk result (λ _. spans.new.items ≡ with_spans width spans.old.items named.now) }
{
    let mut rest = named;
    // Proof: the label names the loop for its invariant.
    'noting: while let Some((span, behind)) = rest.split_first() {
        spans.push(widened(width, span.first, span.last))?;
        rest = behind;
    }
    Ok(())
}

/// Appends these spans if a request's flags have this one. `kind` is as at [`hear_where`].
fn note_where(
    spans: &mut Vec<Span>,
    flags: u8,
    kind: (u8, Width),
    named: &[Span],
) -> Result<(), Memory>
    requires { 0 < kind.0 }
    ensures { IfOk result (λ _. spans.new.items ≡ spans.old.items ++ (where_flag flags kind.0 (map (widened kind.1) named.now))) }
{
    if !has_flag(flags, kind.0) {
        return Ok(());
    }
    note_named(spans, kind.1, named)
}

/// Appends the spans of source symbols that a request of these flags asks for, if it names `named`.
fn note_symbols(spans: &mut Vec<Span>, flags: u8, named: &[Span]) -> Result<(), Memory>
    ensures { IfOk result (λ _. spans.new.items ≡ spans.old.items ++ (asked_spans (naming flags named.now))) }
{
    note_where(spans, flags, (WANT_SEGMENT, Width::Symbols), named)?;
    note_where(spans, flags, (WANT_BLOCK, Width::Blocks), named)?;
    note_where(spans, flags, (WANT_OBJECT, Width::Objects), named)?;
    Ok(())
}

/// Appends the infos that a request of these flags asks for, as spans of whole objects, if it names `named`.
fn note_infos(spans: &mut Vec<Span>, flags: u8, named: &[Span]) -> Result<(), Memory>
    ensures { IfOk result (λ _. spans.new.items ≡ spans.old.items ++ (asked_infos (naming flags named.now))) }
{
    note_where(spans, flags, (WANT_INFO, Width::Objects), named)
}

impl Asked {
    /// Reads the spans of a request of any flags. Its items are read once, into the buffer, and copied from there for each flag. If memory runs
    /// out, some of them may have been read.
    fn read_once(
        &mut self,
        profile: &Profile,
        known: u32,
        request: &Request<'_>,
    ) -> Result<(), Memory>
        ensures { IfOk result (λ _. self.new ≡ with_named self.old (named profile.now known (request_of request.now))) }
    {
        let flags = request.flags;
        self.named.clear();
        hear_named(&mut self.named, profile, known, Width::Symbols, request)?;
        note_symbols(&mut self.symbols, flags, self.named.as_slice())?;
        note_infos(&mut self.infos, flags, self.named.as_slice())?;
        Ok(())
    }

    /// Reads the spans of a request. If memory runs out, some of them may have been read.
    // To read an item is to find which index its object id stands for, so another flag should not cost another reading. With a single flag the
    // buffer would cost a copy and save nothing.
    fn read_spans(
        &mut self,
        profile: &Profile,
        known: u32,
        request: &Request<'_>,
    ) -> Result<(), Memory>
        ensures { IfOk result (λ _. self.new ≡ with_named self.old (named profile.now known (request_of request.now))) }
    {
        if !is_single(request.flags) {
            return self.read_once(profile, known, request);
        }
        hear_symbols(&mut self.symbols, profile, known, request)?;
        hear_infos(&mut self.infos, profile, known, request)
    }

    /// Reads a request. If memory runs out, some of it may have been read.
    fn read_request(
        &mut self,
        profile: &Profile,
        known: u32,
        request: &Request<'_>,
    ) -> Result<(), Memory>
        ensures { IfOk result (λ _. self.new ≡ asked_also self.old (named profile.now known (request_of request.now))) }
    {
        self.read_spans(profile, known, request)?;
        hear_lacking(&mut self.counts, profile, known, request)
    }

    /// Reads these requests. If memory runs out, some of them may have been read.
    fn read_requests(
        &mut self,
        profile: &Profile,
        known: u32,
        requests: Requests<'_>,
    ) -> Result<(), Memory>
        ensures { IfOk result (λ _. self.new ≡ fold asked_also self.old (map (named profile.now known) requests.entry)) }
    {
        // Proof: the label names the loop for its invariant.
        'requests: for request in requests {
            self.read_request(profile, known, &request)?;
        }
        Ok(())
    }

    /// Reads all these requests, after forgetting what was read before.
    ///
    /// # Errors
    ///
    /// `Memory` if memory runs out; some requests may have been read then.
    pub(crate) fn read(
        &mut self,
        profile: &Profile,
        known: u32,
        requests: Requests<'_>,
    ) -> Result<(), Memory>
        ensures { IfOk result (λ _. self.new ≡ asked_all (map (named profile.now known) requests.entry)) }
    {
        self.clear();
        self.read_requests(profile, known, requests)
    }
}

/// Merges the requests of a message into `heard`: all of them, or none if a list might exceed its bound. `asked` is only a buffer. `known`
/// tells which index an object id stands for.
///
/// # Errors
///
/// `Memory` if memory runs out; `heard` is unchanged then.
pub fn hear_requests(
    heard: &mut Heard,
    asked: &mut Asked,
    profile: &Profile,
    known: u32,
    requests: Requests<'_>,
) -> Result<(), Memory>
    ensures heard { IfOk result (λ _. heard.new ≡ heard_whole heard.old (asked_all (map (named profile.now known) requests.entry))) }
    ensures refused { OnErr result (heard.new ≡ heard.old) }
{
    asked.read(profile, known, requests)?;
    heard.note(asked)
}
