//! The window of a [`Union`](crate::Union). It keeps no profile: calls that need one take it.

ghost use Rattle.std.specs.Prelude.{◌≡◌, ◌<◌, ◌≤◌, ◌+◌, ◌-◌, ◌^◌, ◌∷◌, ◌++◌, [], length, IfOk, IsErr, MatchOption, None, Some, false, ℕ, List, nat_lt, position, slice_get, drop, take, not, map, min, max, filter};
ghost use Rattle.norm_base.specs.Settings.{Settings};
ghost use Rattle.fec_plan.specs.Partition.{IsSound};
ghost use Rattle.norm_order.specs.Entries.{Entry};
ghost use Rattle.norm_order.specs.Shapes.{shape_of};
ghost use Rattle.norm_send_rules.specs.SenderState.{SenderState, Asked, Round, sender_opening};
ghost use Rattle.norm_send_rules.specs.Enqueuing.{with_entry};
ghost use Rattle.norm_send_rules.specs.Restarting.{begun_anew};
ghost use Rattle.norm_send_rules.specs.Hearing.{asked_now};
ghost use Rattle.norm_send_rules.specs.Sending.{noted};
ghost use Rattle.norm_send_rules.specs.Dropping.{dropped_to};
ghost use Rattle.norm_send_rules.specs.Closing.{round_closed, asks_early};
ghost use Rattle.norm_send_rules.specs.InWindow.{stands_behind};
ghost use Rattle.fec_plan.specs.Points.{point};
ghost use Rattle.std.specs.List.{list_any, AllByRecursion};
ghost use Rattle.norm_send_rules.specs.declared.want.Want.{Want as Wanted};
ghost use Rattle.norm_send_rules.specs.declared.want.Want.TheVariants.{Symbol};
ghost use Rattle.norm_order.specs.Sets.{with_member};
ghost use Rattle.nack_union.specs.Slots.{symbol_slot};
ghost use Rattle.nack_union.specs.Kept.{Kept, Marked, Holds, IsEncodedIn, known_of, begun_union, admitted, admitted_stream, IsFresh, HasRoom, CanGrow, OfLast, grown_to, with_object, shape_of_marked, closed_marks, closed_union, IsCounted, with_marks, retired, moved_front, any_gone, first_block, MayRetire, MayMoveOn};
ghost use Rattle.nack_union.specs.More.{HasPart, named_part, symbol_part, count_part, part_where, item_part, items_part, ranges_part, counts_part, request_part, requests_part};
ghost use Rattle.nack_union.specs.Adding.{HasAdded, IsPlanned};
ghost use Rattle.norm_ext.specs.Requests.{items_named};
ghost use Rattle.norm_ext.specs.RequestView.{request_of};
ghost use Rattle.norm_ext.specs.Asking.{span, is_proper, named};
ghost use Rattle.std.specs.Bool.{MatchBool};
ghost use Rattle.nack_union.specs.Rounds.{new_wants, wants_closed};
ghost use Rattle.nack_union.specs.Earliest.{is_before_window, earliest, earliest_with, firsts, least_with, items_spans, pairs_spans};
ghost use Rattle.nack_union.specs.Collected.{Collects};
ghost use Rattle.nack_union.specs.CollectionSound.{AreQuiet, wanting};

use crate::asking::ask_range;
use crate::earliest::{gives_something, is_early, least_where, lesser, lesser_from, lesser_span};
use crate::marks::{Marks, Named};
use crate::slots::{slot_of, want_of};
use fec_plan::{Plan, Point, Position};
use norm_base::{Memory, Profile};
use norm_ext::flags::WANT_SEGMENT;
use norm_ext::items::{ends_of, has_flag, position_of, split_item, split_pair};
use norm_ext::{Form, Request, Requests};
use norm_send_rules::Want;
use std::alloc::Global;
use std::marker::Model;

/// What is wanted of the objects of a window, what of them was sent, and what the open round asks for.
///
/// `first` is the transport index of the first object, or of the next one if there is none. `low`, `high` and `quiet` are list indexes of
/// `objects`. The round asks for nothing outside of `low..high`, and `earliest` is the first point from which one of its requests counts, if
/// any. Nothing is wanted of the objects before `quiet`. Something is wanted of `wanting` objects.
#[derive(Debug, Drop)]
pub struct Collection {
    alloc: Global,
    first: u32,
    objects: Vec<Marks>,
    // Proof: outside of low .. high the round asks for nothing (AreIdle), so most methods keep this without an answer.
    low: usize,
    high: usize,
    earliest: Option<Point>,
    quiet: usize,
    // Exact, because by it alone, without a look at the objects, `is_wanted` answers and `next` returns `None`.
    wanting: usize,
}

/// What a repair round gave when it was closed. The wants themselves stay in the union.
#[derive(Clone, Copy, Debug, PartialEq, Eq)]
pub struct Closed {
    /// How many wants were not there before the round closed, at most `u32::MAX`.
    pub queued: u32,
    /// Whether a request of the round counts from a point before the first block that the window keeps. If so, the sender owes a squelch.
    pub early: bool,
}

impl Model for Collection {
    ghost use Rattle.nack_union.specs.Kept.{Kept};

    ghost Value = { Kept };

    ghost use Rattle.nack_union.specs.CollectionSound.{CollectionSound, collection_view};

    ghost view = { collection_view };

    ghost invariant = { CollectionSound };
}

/// Returns the list index of the first object of which something is wanted. `None` if there is none. Nothing is wanted before `from`.
fn first_wanted(objects: &[Marks], from: usize) -> Option<usize>
    requires { AreQuiet from objects.now }
    ensures { result ≡ position (λ m. nat_lt 0 (length m.wants)) objects.now }
{
    // Proof: the label names the loop for its invariant.
    'objects: for place in from..objects.len() {
        if objects[place].is_wanted() {
            return Some(place);
        }
    }
    None
}

/// Returns the number of objects of which something is wanted.
fn count_wanted(objects: &[Marks]) -> usize
    ensures { result ≡ wanting objects.now }
{
    objects.iter().filter(|object| object.is_wanted()).count()
}

fn drop_front(objects: &mut Vec<Marks>, count: usize)
    requires { count ≤ length objects.old.items }
    ensures { objects.new.items ≡ drop count objects.old.items }
{
    objects.drain(..count);
}

/// Closes the round of each object. Returns how many wants are new, at most `u32::MAX`.
fn close_all(objects: &mut [Marks]) -> u32
    ensures closed { objects.new ≡ map closed_marks objects.old }
    ensures counted { AllByRecursion IsCounted objects.old }
    ensures queued { result ≡ min (new_wants objects.old) 4294967295 }
{
    let mut queued = 0u64;
    // Proof: the label names the loop for its invariant.
    'objects: for object in objects.iter_mut() {
        queued = queued.saturating_add(object.close() as u64);
    }
    // The sender asks only whether there are any, so the number may stop at the greatest of 32 bits. The wants themselves are exact.
    queued.min(u32::MAX as u64) as u32
}

/// Returns the first kept block of the first object, or 0 if there is none.
fn first_block(objects: &[Marks]) -> u32
    ensures { result ≡ first_block objects.now }
{
    if objects.is_empty() {
        return 0;
    }
    objects[0].first_block()
}

/// Returns the list index at which a named span begins, in a window that begins with the object `first`. It is 0 if the span begins earlier.
fn place_from(first: u32, named: &Named) -> usize
    ensures { result ≡ named.now.first.index - first }
{
    named.first.index.saturating_sub(first) as usize
}

/// Returns the list index just after a named span, in a window that begins with the object `first`. It is 0 if the span ends before the window.
fn place_behind(first: u32, named: &Named) -> usize
    ensures { result ≡ named.now.last.index + 1 - first }
{
    (named.last.index as usize + 1).saturating_sub(first as usize)
}

impl Collection {
    /// Creates an empty window.
    pub fn new(alloc: Global) -> Collection
        ensures begun { result ≡ begun_union }
        ensures stands { (p : Settings) (instance : ℕ) → Holds p result (sender_opening p instance) }
        ensures collects { (p : Settings) (s : SenderState) → Collects p result s [] }
    {
        Collection {
            alloc,
            first: 0,
            objects: Vec::new(alloc),
            low: 0,
            high: 0,
            earliest: None,
            quiet: 0,
            wanting: 0,
        }
    }

    /// Appends an object, as [`Union::admit`](crate::Union::admit) says.
    ///
    /// # Errors
    ///
    /// `Memory` if memory runs out. The window stays as it was.
    pub fn admit(&mut self, index: u32, plan: &Plan, info: bool) -> Result<(), Memory>
        requires { index ≡ self.old.first + length self.old.objects }
        ensures exact { IfOk result (λ _. self.new ≡ with_object (admitted plan.now info) self.old) }
        ensures stands { IfOk result (λ _. (p : Settings) (s : SenderState) (entry : Entry) → Holds p self.old s
            → shape_of p entry.object ≡ shape_of_marked (admitted plan.now info) → HasRoom p (admitted plan.now info) → Holds p self.new (with_entry entry s)) }
        ensures collects { IfOk result (λ _. (p : Settings) (s : SenderState) (asked : List Asked) (entry : Entry) → Holds p self.old s
            → Collects p self.old s asked → Collects p self.new (with_entry entry s) asked) }
        ensures memory { IsErr result → self.new ≡ self.old }
    {
        let marks = Marks::of_object(self.alloc, plan, info)?;
        self.join(marks)
    }

    /// Appends a stream without closed segments, with room for `profile.blocks` blocks.
    ///
    /// # Errors
    ///
    /// `Memory` if memory runs out. The window stays as it was.
    pub fn admit_stream(&mut self, profile: &Profile, index: u32, plan: &Plan) -> Result<(), Memory>
        requires index { index ≡ self.old.first + length self.old.objects }
        requires stream { plan.now.l ≡ None }
        ensures exact { IfOk result (λ _. self.new ≡ with_object (admitted_stream plan.now profile.now.blocks) self.old) }
        ensures stands { IfOk result (λ _. (p : Settings) (s : SenderState) (entry : Entry) → Holds p self.old s
            → shape_of p entry.object ≡ shape_of_marked (admitted_stream plan.now profile.now.blocks) → HasRoom p (admitted_stream plan.now profile.now.blocks) → Holds p self.new (with_entry entry s)) }
        ensures collects { IfOk result (λ _. (p : Settings) (s : SenderState) (asked : List Asked) (entry : Entry) → Holds p self.old s
            → Collects p self.old s asked → Collects p self.new (with_entry entry s) asked) }
        ensures memory { IsErr result → self.new ≡ self.old }
    {
        let marks = Marks::of_stream(self.alloc, plan, profile.blocks)?;
        self.join(marks)
    }

    /// Appends an object of which nothing is wanted, sent or asked for.
    ///
    /// # Errors
    ///
    /// `Memory` if memory runs out. The window stays as it was.
    fn join(&mut self, marks: Marks) -> Result<(), Memory>
        requires few { self.old.first + length self.old.objects < 2 ^ 32 }
        requires fresh { IsFresh marks }
        ensures exact { IfOk result (λ _. self.new ≡ with_object marks self.old) }
        ensures stands { IfOk result (λ _. (p : Settings) (s : SenderState) (entry : Entry) → Holds p self.old s
            → shape_of p entry.object ≡ shape_of_marked marks → HasRoom p marks → Holds p self.new (with_entry entry s)) }
        ensures collects { IfOk result (λ _. (p : Settings) (s : SenderState) (asked : List Asked) (entry : Entry) → Holds p self.old s
            → Collects p self.old s asked → Collects p self.new (with_entry entry s) asked) }
        ensures memory { IsErr result → self.new ≡ self.old }
    {
        marks.hold();
        self.objects.push(marks)?;
        Ok(())
    }

    /// Sets how many source symbols of the last object, a stream, are closed. `index` is the stream's.
    pub fn grow(&mut self, index: u32, closed: u64)
        requires index { index + 1 ≡ self.old.first + length self.old.objects }
        requires last { OfLast (CanGrow closed) self.old }
        ensures { (m : Marked) → slice_get self.old.objects (length self.old.objects - 1) ≡ Some m → self.new ≡ grown_to closed m self.old }
    {
        let object = &mut self.objects[(index - self.first) as usize];
        object.grow(closed);
        object.hold();
    }

    /// Removes the last object, as [`Union::withdraw`](crate::Union::withdraw) says.
    pub fn withdraw(&mut self)
        requires { 0 < length self.old.objects }
        ensures { (m : Marked) (u : Kept) → self.old ≡ with_object m u → self.new ≡ u }
    {
        let last = self.objects.len() - 1;
        self.wanting -= usize::from(self.objects[last].is_wanted());
        self.objects.pop();
    }

    /// Empties the window and the open round for another instance.
    pub fn clear(&mut self)
        ensures begun { self.new ≡ begun_union }
        ensures stands { (p : Settings) (s : SenderState) (id : ℕ) → Holds p self.new (begun_anew id s) }
        ensures collects { (p : Settings) (s : SenderState) → Collects p self.new s [] }
    {
        self.first = 0;
        self.objects.clear();
        self.low = 0;
        self.high = 0;
        self.earliest = None;
        self.quiet = 0;
        self.wanting = 0;
    }

    /// Drops all objects before an index, with their memory. Returns whether something of them was wanted.
    fn drop_objects(&mut self, index: u32) -> bool
        requires not_back { self.old.first ≤ index }
        requires within { index ≤ self.old.first + length self.old.objects }
        ensures exact { self.new ≡ retired index 0 self.old }
        ensures dropped { result ≡ list_any (λ m. nat_lt 0 (length m.wants)) (take (index - self.old.first) self.old.objects) }
    {
        let count = (index - self.first) as usize;
        let gone = count_wanted(&self.objects[..count]);
        drop_front(&mut self.objects, count);
        self.first = index;
        self.low = self.low.saturating_sub(count);
        self.high = self.high.saturating_sub(count);
        self.quiet = self.quiet.saturating_sub(count);
        // What goes with a drop is wanted no more. If it still counted, `is_wanted` would be true with nothing wanted.
        self.wanting -= gone;
        gone > 0
    }

    /// Keeps the first object, a stream, from `block` on. Returns whether something before was wanted.
    fn move_first(&mut self, block: u32) -> bool
        requires some { 0 < length self.old.objects }
        requires later { 0 < block }
        requires first { (m : Marked) → slice_get self.old.objects 0 ≡ Some m → (m.first ≤ block) × MayMoveOn block m }
        ensures exact { self.new ≡ record self.old { objects = moved_front block self.old.objects } }
        ensures gone { result ≡ any_gone block self.old.objects }
    {
        let object = &mut self.objects[0];
        let before = usize::from(object.is_wanted());
        let gone = object.move_on(block);
        object.hold();
        let after = usize::from(object.is_wanted());
        self.wanting = self.wanting - before + after;
        gone
    }

    /// Keeps the first object from `block` on, which changes nothing if that is 0. Returns whether something before was wanted.
    fn move_to(&mut self, block: u32) -> bool
        requires some { 0 < block → 0 < length self.old.objects }
        requires first { 0 < block → (m : Marked) → slice_get self.old.objects 0 ≡ Some m → (m.first ≤ block) × MayMoveOn block m }
        ensures exact { self.new ≡ record self.old { objects = moved_front block self.old.objects } }
        ensures gone { result ≡ any_gone block self.old.objects }
    {
        if block == 0 {
            return false;
        }
        self.move_first(block)
    }

    /// Drops everything before a block of an object, as [`Union::retire`](crate::Union::retire) says. Returns whether something of that was
    /// wanted.
    pub fn retire(&mut self, index: u32, block: u32) -> bool
        requires { MayRetire index block self.old }
        ensures exact { self.new ≡ retired index block self.old }
        ensures collects { (p : Settings) (s : SenderState) (asked : List Asked) → Holds p self.old s → Collects p self.old s asked
            → Collects p self.new (dropped_to (point index block) s) asked }
        ensures stands { (p : Settings) (s : SenderState) → Holds p self.old s
            → Holds p self.new (dropped_to (point index block) s)
            × (result ≡ list_any (λ want. not (stands_behind (point index block) want)) s.wants) }
    {
        let dropped = self.drop_objects(index);
        let gone = self.move_to(block);
        dropped || gone
    }

    /// Notes that an encoded symbol of the window was sent.
    pub fn note_sent(&mut self, at: Position)
        requires { IsEncodedIn self.old at }
        ensures exact { (m : Marked) → slice_get self.old.objects (at.index - self.old.first) ≡ Some m
            → self.new ≡ with_marks at.index (record m { sent = with_member nat_lt (symbol_slot at.block at.symbol) m.sent }) self.old }
        ensures sound { (m : Marked) → slice_get self.old.objects (at.index - self.old.first) ≡ Some m → IsSound m.cut }
        ensures stands { (p : Settings) (s : SenderState) → Holds p self.old s → Holds p self.new (noted (Symbol at) s) }
        ensures collects { (p : Settings) (s : SenderState) (asked : List Asked) → Collects p self.old s asked → Collects p self.new (noted (Symbol at) s) asked }
    {
        let object = &mut self.objects[(at.index - self.first) as usize];
        object.note_sent(slot_of(at.block, at.symbol));
    }

    /// Asks for what is named, as far as the window has it.
    fn ask_named(&mut self, named: Named)
        ensures { HasPart (named_part named.flags (span named.first named.last)) self.old self.new }
    {
        let from = place_from(self.first, &named);
        let to = place_behind(self.first, &named).min(self.objects.len());
        self.low = self.low.min(from);
        self.high = self.high.max(to);
        ask_range(&mut self.objects, self.first, from, to, named);
    }

    /// Asks for a symbol, which may be parity, if it is encoded and the window has it.
    fn ask_symbol(&mut self, at: Position)
        ensures { HasPart (symbol_part at) self.old self.new }
    {
        if self.has(at.index) {
            let place = (at.index - self.first) as usize;
            self.low = self.low.min(place);
            self.high = self.high.max(place + 1);
            let object = &mut self.objects[place];
            object.ask_symbol(at.block, at.symbol);
            object.hold();
        }
    }

    /// Counts a block for as many symbols as the symbol id of a position says, if the window has the block and some symbol of it is closed.
    fn count_block(&mut self, at: Position)
        ensures { HasPart (count_part at) self.old self.new }
    {
        if !self.has(at.index) {
            return;
        }
        let place = (at.index - self.first) as usize;
        self.low = self.low.min(place);
        self.high = self.high.max(place + 1);
        let object = &mut self.objects[place];
        object.count_block(at.block, at.symbol);
        object.hold();
    }

    fn ask_symbol_where(&mut self, wanted: bool, at: Position)
        ensures { HasPart (part_where wanted (symbol_part at)) self.old self.new }
    {
        if wanted {
            self.ask_symbol(at);
        }
    }

    /// Asks for what an item names. With SEGMENT this may be a parity symbol.
    fn ask_item(&mut self, flags: u8, at: Position)
        ensures { HasPart (item_part flags (span at at)) self.old self.new }
    {
        let (first, last) = (at, at);
        self.ask_named(Named { first, last, flags });
        self.ask_symbol_where(has_flag(flags, WANT_SEGMENT), at);
    }

    /// Asks for what a range names. A range that ends before it begins names nothing.
    fn ask_pair(&mut self, flags: u8, first: Position, last: Position)
        ensures { HasPart (part_where (is_proper (span first last)) (named_part flags (span first last))) self.old self.new }
    {
        if !last.is_before(&first) {
            self.ask_named(Named { first, last, flags });
        }
    }

    /// Asks for what items name. Ignores an item whose object id stands for no index. Returns the first point from which the others count, or
    /// `None` if there is no other.
    // Proof: the least point is a fold, so the loop's invariant is short.
    fn ask_items(&mut self, profile: &Profile, known: u32, flags: u8, items: &[u8]) -> Option<Point>
        ensures asked { HasPart (items_part flags (items_spans profile.now known (items_named items.now))) self.old self.new }
        ensures least { result ≡ least_with None (firsts flags (items_spans profile.now known (items_named items.now))) }
    {
        // Proof: what is kept is looked at, and with it that it is sound.
        let _ = &self.objects;
        let mut least = None;
        let mut rest = items;
        // Proof: the label names the loop for its invariant.
        'items: while let Some((item, behind)) = split_item(rest) {
            if let Some(at) = position_of(profile, known, item) {
                self.ask_item(flags, at);
                least = lesser_from(flags, least, at);
            }
            rest = behind;
        }
        least
    }

    /// Asks for what pairs of items name. Ignores a pair if one of its object ids stands for no index. Returns the first point from which the
    /// others count, except those that end before they begin. `None` if none is left.
    // Proof: as at `ask_items`.
    fn ask_ranges(
        &mut self,
        profile: &Profile,
        known: u32,
        flags: u8,
        items: &[u8],
    ) -> Option<Point>
        ensures asked { HasPart (ranges_part flags (pairs_spans profile.now known (items_named items.now))) self.old self.new }
        ensures least { result ≡ least_with None (firsts flags (filter is_proper (pairs_spans profile.now known (items_named items.now)))) }
    {
        // Proof: what is kept is looked at, and with it that it is sound.
        let _ = &self.objects;
        let mut least = None;
        let mut rest = items;
        // Proof: the label names the loop for its invariant.
        'pairs: while let Some((first, last, behind)) = split_pair(rest) {
            if let Some(ends) = ends_of(profile, known, first, last) {
                self.ask_pair(flags, ends.0, ends.1);
                least = lesser_span(flags, least, ends.0, ends.1);
            }
            rest = behind;
        }
        least
    }

    /// Counts blocks for as many symbols as items say. Ignores an item whose object id stands for no index. Returns the first point from which the
    /// others count, or `None` if there is no other.
    fn ask_counts(
        &mut self,
        profile: &Profile,
        known: u32,
        flags: u8,
        items: &[u8],
    ) -> Option<Point>
        ensures asked { HasPart (counts_part (items_spans profile.now known (items_named items.now))) self.old self.new }
        ensures least { result ≡ least_with None (firsts flags (items_spans profile.now known (items_named items.now))) }
    {
        // Proof: what is kept is looked at, and with it that it is sound.
        let _ = &self.objects;
        let mut least = None;
        let mut rest = items;
        // Proof: the label names the loop for its invariant.
        'items: while let Some((item, behind)) = split_item(rest) {
            if let Some(at) = position_of(profile, known, item) {
                self.count_block(at);
                least = lesser_from(flags, least, at);
            }
            rest = behind;
        }
        least
    }

    /// Asks for what a request asks for. Erasures count blocks if SEGMENT or BLOCK is set, and else ask for nothing. Returns the first point from
    /// which the request counts, or `None` if it asks for nothing.
    fn ask_request(&mut self, profile: &Profile, known: u32, request: &Request<'_>) -> Option<Point>
        ensures asked { HasPart (request_part (named profile.now known (request_of request.now))) self.old self.new }
        ensures earliest { result ≡ earliest (named profile.now known (request_of request.now)) }
    {
        let flags = request.flags;
        let gives = gives_something(request);
        match request.form {
            Form::Items => {
                let least = self.ask_items(profile, known, flags, request.items);
                least_where(gives, least)
            }
            Form::Ranges => {
                let least = self.ask_ranges(profile, known, flags, request.items);
                least_where(gives, least)
            }
            Form::Erasures => {
                if !gives {
                    return None;
                }
                self.ask_counts(profile, known, flags, request.items)
            }
        }
    }

    /// Asks for what requests ask for. `earliest` becomes the first point from which they or earlier requests of the round count.
    fn ask_requests(&mut self, profile: &Profile, known: u32, requests: Requests<'_>)
        ensures asked { HasPart (requests_part (map (named profile.now known) requests.entry)) self.old self.new }
        ensures earliest { self.new.earliest ≡ earliest_with self.old.earliest (map (named profile.now known) requests.entry) }
    {
        let mut earliest = self.earliest;
        // Proof: the label names the loop for its invariant.
        'requests: for request in requests {
            let least = self.ask_request(profile, known, &request);
            earliest = lesser(earliest, least);
        }
        self.count_from(earliest);
    }

    fn count_from(&mut self, earliest: Option<Point>)
        ensures { self.new ≡ record self.old { earliest = earliest } }
    {
        self.earliest = earliest;
    }

    /// Whether the window has the object with this index.
    fn has(&self, index: u32) -> bool
        ensures { MatchBool result ((self.now.first ≤ index) × (index < self.now.first + length self.now.objects))
            ((self.now.first ≤ index → self.now.first + length self.now.objects ≤ index)) }
    {
        self.first <= index && ((index - self.first) as usize) < self.objects.len()
    }

    /// Returns the last index, as [`Union::known`](crate::Union::known) says.
    // Computed from the union's own objects, so that nobody has to tell it how far the order goes.
    pub fn known(&self) -> u32
        ensures { result ≡ known_of self.now }
    {
        (u64::from(self.first) + self.objects.len() as u64).saturating_sub(1) as u32
    }

    /// Adds the requests of a NACK to the open round, as [`Union::add`](crate::Union::add) says.
    // Proof: for a request that comes now, the order as it came (as_it_came) is the order as it stands.
    // Proof: marks then decide every test of the rules.
    pub fn add(&mut self, profile: &Profile, requests: Requests<'_>)
        ensures added { HasAdded (map (named profile.now (known_of self.old)) requests.entry) self.old self.new }
        ensures planned { AllByRecursion IsPlanned self.old.objects }
        ensures stands { (s : SenderState) → Holds profile.now self.old s → Holds profile.now self.new s }
        ensures collects { (s : SenderState) (asked : List Asked) → Holds profile.now self.old s → Collects profile.now self.old s asked
            → Collects profile.now self.new s (asked ++ map (asked_now profile.now s) requests.entry) }
    {
        // Proof: what is kept is looked at before and after, and with it that it is sound.
        let _ = &self.objects;
        let known = self.known();
        self.ask_requests(profile, known, requests);
        let _ = &self.objects;
    }

    /// Whether anything is wanted.
    pub fn is_wanted(&self) -> bool
        ensures { (p : Settings) (s : SenderState) → Holds p self.now s → result ≡ nat_lt 0 (length s.wants) }
    {
        self.wanting > 0
    }

    /// Takes out the first want in transport order. `None` if nothing is wanted.
    pub fn next(&mut self) -> Option<Want>
        ensures collects { (p : Settings) (s : SenderState) (asked : List Asked) (rest : List Wanted) → Collects p self.old s asked
            → Collects p self.new (record s { wants = rest }) asked }
        ensures first { (p : Settings) (s : SenderState) → Holds p self.old s
            → MatchOption result ((s.wants ≡ []) × Holds p self.new s)
            (λ want. (rest : List Wanted) × (s.wants ≡ want ∷ rest) × Holds p self.new (record s { wants = rest })) }
    {
        if self.wanting == 0 {
            return None;
        }
        let place = first_wanted(&self.objects, self.quiet)?;
        self.quiet = place;
        let object = &mut self.objects[place];
        let slot = object.take_lowest()?;
        self.wanting -= usize::from(!object.is_wanted());
        Some(want_of(self.first + place as u32, slot))
    }

    /// Closes the open round, as [`Union::close_round`](crate::Union::close_round) says.
    // Proof: each object's slots come first. all_closed lifts that to the listed wants, and closed_range leads from low .. high to all.
    pub fn close_round(&mut self) -> Closed
        ensures exact { self.new ≡ closed_union self.old }
        ensures closed { (p : Settings) (s : SenderState) → Holds p self.old s → Holds p self.new (record s { wants = wants_closed self.old s }) }
        ensures queued { (p : Settings) (s : SenderState) → Holds p self.old s
            → result.queued ≡ min (length (wants_closed self.old s) - length s.wants) 4294967295 }
        ensures early { result.early ≡ is_before_window self.old.earliest (point self.old.first (first_block self.old.objects)) }
        ensures rules { (p : Settings) (s : SenderState) (r : Round) → Holds p self.old s → Collects p self.old s r.asked
            → Holds p self.new (round_closed p r s) × (result.queued ≡ min (length (round_closed p r s).wants - length s.wants) 4294967295)
            × (result.early ≡ list_any (λ (a : Asked). asks_early s.current.drop a.request) r.asked) }
        ensures begun { (p : Settings) (s : SenderState) → Collects p self.new s [] }
    {
        let high = self.high.min(self.objects.len());
        let low = self.low.min(high);
        let before = count_wanted(&self.objects[low..high]);
        let queued = close_all(&mut self.objects[low..high]);
        let after = count_wanted(&self.objects[low..high]);
        self.wanting = self.wanting - before + after;
        self.low = high;
        self.high = high;
        // Objects of the round may be wanted now, so the search has to begin with them again.
        self.quiet = self.quiet.min(low);
        let block = first_block(&self.objects);
        let first = Point {
            index: self.first,
            block,
        };
        let early = is_early(self.earliest, first);
        self.earliest = None;
        Closed { queued, early }
    }
}
