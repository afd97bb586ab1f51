//! The watermarks of a book, in the order of their numbers.

ghost use Rattle.std.specs.Prelude.{◌≡◌, ◌==◌, ◌<◌, ◌+◌, ◌^◌, ◌++◌, [], ◌∷◌, is_none, map, length, filter, find, MatchResult};
ghost use Rattle.std.specs.List.{prefix_len};
ghost use Rattle.mark_book.specs.BookMoves.{settled_by, expired_by, cut_off, is_finished, opened, open_count, told_first};
ghost use Rattle.mark_book.specs.BookSound.{AreNumbered};

use crate::listings::Listings;
use crate::watermark::Watermark;
use fec_plan::Position;
use norm_base::Memory;
use std::alloc::Global;
use std::marker::Model;

/// The most watermarks that 32 bits can number.
// One more is answered by `Memory`: so many watermarks take more than 80 GB.
const MOST_WATERMARKS: usize = 4_294_967_295;

/// All watermarks that were ever made.
///
/// The first `done` of them ended and were reported. `still_open` of all are open. It is kept because one that stays open keeps all later
/// ones out of that prefix.
// What ended and was reported is never changed again, so a sender that runs for long need not look at all its old watermarks in each turn.
// `still_open` is exact: a greater number would refuse marks too early.
#[derive(Debug, Drop)]
pub struct Watermarks {
    all: Vec<Watermark>,
    done: usize,
    still_open: usize,
}

impl Model for Watermarks {
    ghost use Rattle.std.specs.Prelude.{List};
    ghost use Rattle.mark_book.specs.BookState.{Kept};

    ghost Value = { List Kept };

    ghost view = { λ w. w.all.items };

    ghost use Rattle.mark_book.specs.BookSound.{AreKept};

    ghost invariant = { AreKept };
}

impl Watermarks {
    /// Creates an empty list.
    pub fn new(alloc: Global) -> Watermarks
        ensures { result ≡ [] }
    {
        Watermarks {
            all: Vec::new(alloc),
            done: 0,
            still_open: 0,
        }
    }

    /// Returns the watermark with this number. `None` if there is none. The numbers count up from 1.
    pub fn find(&self, mark: u32) -> Option<Watermark>
        ensures { result ≡ find (λ k. k.mark == mark) self.now }
    {
        if mark as usize > self.all.len() {
            return None;
        }
        if mark == 0 {
            return None;
        }
        Some(self.all[mark as usize - 1])
    }

    /// Returns the oldest open watermark. `None` if none is open.
    pub fn oldest(&self) -> Option<Watermark>
        ensures { result ≡ find (λ k. is_none k.ended) self.now }
    {
        first_open(&self.all[self.done..])
    }

    /// Returns how many watermarks are open.
    pub fn count_open(&self) -> u32
        ensures { result ≡ length (filter (λ k. is_none k.ended) self.now) }
    {
        self.still_open as u32
    }

    /// Returns how many outcomes are to be reported.
    pub fn count_untold(&self) -> u32
        ensures { result ≡ length (filter (λ k. k.untold) self.now) }
    {
        count_untold(&self.all[self.done..]) as u32
    }

    /// Appends an open watermark. Returns its number, which is one above the last one's, or 1.
    ///
    /// # Errors
    ///
    /// `Memory` if memory runs out, or all numbers are used. Nothing changes then.
    pub fn push(&mut self, at: Position, quorum: Option<u32>) -> Result<u32, Memory>
        ensures pushed { MatchResult result
            (λ mark. (mark ≡ length self.old + 1) × (self.new ≡ self.old ++ opened mark at quorum ∷ []))
            (λ e. self.new ≡ self.old) }
        ensures numbered { AreNumbered 1 self.new }
    {
        if self.all.len() >= MOST_WATERMARKS {
            return Err(Memory);
        }
        let mark = self.all.len() as u32 + 1;
        if self.all.push(Watermark::new(mark, at, quorum)).is_err() {
            return Err(Memory);
        }
        self.still_open += 1;
        Ok(mark)
    }

    /// Satisfies each open watermark that enough members are past.
    // Proof: only those from done on are written. The rule leaves those before as they are (rest_written).
    pub fn settle(&mut self, listings: &Listings)
        requires { length listings.now < 2 ^ 32 }
        ensures settled { self.new ≡ map (settled_by listings.now) self.old }
        ensures numbered { AreNumbered 1 self.old }
    {
        let still_open = settle(&mut self.all[self.done..], listings);
        self.still_open = still_open;
    }

    /// Gives up the open watermark with this number, if there is one.
    pub fn expire(&mut self, listings: &Listings, mark: u32)
        requires { length listings.now < 2 ^ 32 }
        ensures expired { self.new ≡ map (expired_by listings.now mark) self.old }
        ensures numbered { AreNumbered 1 self.old }
    {
        let still_open = expire(&mut self.all[self.done..], listings, mark);
        self.still_open = still_open;
    }

    /// Cuts each open watermark.
    pub fn cut(&mut self)
        ensures cut { self.new ≡ map cut_off self.old }
        ensures numbered { AreNumbered 1 self.old }
    {
        cut(&mut self.all[self.done..]);
        self.still_open = 0;
    }

    /// Takes out the first outcome to report: returns its watermark as it was before. `None` if there is none.
    pub fn tell_first(&mut self) -> Option<Watermark>
        ensures first { result ≡ find (λ k. k.untold) self.old }
        ensures told { self.new ≡ told_first self.old }
        ensures numbered { AreNumbered 1 self.old }
    {
        let first = tell_first(&mut self.all[self.done..])?;
        self.done += count_finished(&self.all[self.done..]);
        Some(first)
    }
}

/// Satisfies each open watermark that enough members are past. Returns how many are open then.
fn settle(watermarks: &mut [Watermark], listings: &Listings) -> usize
    requires { length listings.now < 2 ^ 32 }
    ensures settled { watermarks.new ≡ map (settled_by listings.now) watermarks.old }
    ensures still_open { result ≡ open_count watermarks.new }
{
    let mut still_open = 0;
    for watermark in watermarks.iter_mut() {
        let settled = watermark.settled(listings);
        still_open += settled.count_open();
        *watermark = settled;
    }
    still_open
}

/// Gives up the open watermark with this number, if there is one. Returns how many are open then.
fn expire(watermarks: &mut [Watermark], listings: &Listings, mark: u32) -> usize
    requires { length listings.now < 2 ^ 32 }
    ensures expired { watermarks.new ≡ map (expired_by listings.now mark) watermarks.old }
    ensures still_open { result ≡ open_count watermarks.new }
{
    let mut still_open = 0;
    for watermark in watermarks.iter_mut() {
        let expired = watermark.expired(listings, mark);
        still_open += expired.count_open();
        *watermark = expired;
    }
    still_open
}

fn cut(watermarks: &mut [Watermark])
    ensures { watermarks.new ≡ map cut_off watermarks.old }
{
    for watermark in watermarks.iter_mut() {
        *watermark = watermark.cut();
    }
}

fn count_untold(watermarks: &[Watermark]) -> usize
    ensures { result ≡ length (filter (λ k. k.untold) watermarks.now) }
{
    watermarks
        .iter()
        .filter(|watermark| watermark.untold)
        .count()
}

/// Returns the first open watermark, which is the oldest. `None` if none is open.
fn first_open(watermarks: &[Watermark]) -> Option<Watermark>
    ensures { result ≡ find (λ k. is_none k.ended) watermarks.now }
{
    let watermark = watermarks.iter().find(|watermark| watermark.is_open())?;
    Some(*watermark)
}

fn tell_first(watermarks: &mut [Watermark]) -> Option<Watermark>
    ensures first { result ≡ find (λ k. k.untold) watermarks.old }
    ensures told { watermarks.new ≡ told_first watermarks.old }
{
    for watermark in watermarks.iter_mut() {
        if watermark.untold {
            let first = *watermark;
            *watermark = first.told();
            return Some(first);
        }
    }
    None
}

fn count_finished(watermarks: &[Watermark]) -> usize
    ensures { result ≡ prefix_len is_finished watermarks.now }
{
    for (place, watermark) in watermarks.iter().enumerate() {
        if !watermark.is_finished() {
            return place;
        }
    }
    watermarks.len()
}
