//! A set of numbers below a size, as bits of 64-bit words.

ghost use Rattle.std.specs.Prelude.{◌≡◌, ◌+◌, ◌-◌, ◌*◌, ◌/◌, ◌^◌, ◌<◌, ◌≤◌, ◌∷◌, [], not, nat_lt, false, length, IfOk, MatchOption, slice_index, ◌≢◌, ℕ, IfSome, ◌||◌, ◌&&◌, filter};
ghost use Rattle.norm_order.specs.Sets.{with_member, with_members, is_member, Rises};
ghost use Rattle.symbol_mask.specs.Words.{in_run};
ghost use Rattle.symbol_mask.specs.Words.{has_bit};

use norm_base::Memory;
use std::alloc::Global;
use std::marker::Model;

/// How many numbers one 64-bit word has bits for.
// The width of u64.
const WORD: usize = 64;

/// A set of numbers below a size. `with_room` takes all its memory. Members come out lowest first, with `take_lowest`.
// No word before `lowest` has a member. If one had, `take_lowest` would pass it over, and what it stands for might never be sent.
#[derive(Debug, Drop)]
pub struct Mask {
    size: usize,
    words: Vec<u64>,
    lowest: usize,
}

// Proof: the set is the filter of a range by a bit's test, so one bit's change gives one member's.
impl Model for Mask {
    ghost use Rattle.symbol_mask.specs.Places.{Places};

    ghost Value = { Places };

    ghost use Rattle.symbol_mask.specs.Words.{IsSound, mask_view};

    ghost view = { mask_view };

    ghost invariant = { IsSound };
}

/// Returns the index of the first 64-bit word, from `from` on, that has a member. `None` if there is none.
fn first_filled(words: &[u64], from: usize) -> Option<usize>
    ensures found { IfSome result (λ i. (from ≤ i) × (i < length words.now) × (slice_index words.now i ≢ 0)) }
    ensures before { MatchOption result ((k : ℕ) → from ≤ k → slice_index words.now k ≡ 0) (λ i. (k : ℕ) → from ≤ k → k < i → slice_index words.now k ≡ 0) }
{
    for i in from..words.len() {
        if words[i] != 0 {
            return Some(i);
        }
    }
    None
}

/// Returns a 64-bit word with bits `from` to `to - 1` set.
fn run_bits(from: usize, to: usize) -> u64
    requires some { from < to }
    requires word { to ≤ 64 }
    ensures { result ≡ 2 ^ to - 2 ^ from }
{
    let below = (1u64 << from) - 1;
    // A shift by 64 is an error, so the whole rest of the word is a case of its own.
    if to == WORD {
        return u64::MAX - below;
    }
    ((1u64 << to) - 1) - below
}

/// Sets the bits of the numbers `from` to `to - 1`, 64 at a time.
fn set_run(words: &mut [u64], from: usize, to: usize)
    requires some { from < to }
    requires room { to ≤ 64 * length words.old }
    requires small { length words.old ≤ 2 ^ 58 }
    ensures bits { (place : ℕ) → has_bit words.new place ≡ (has_bit words.old place || in_run from to place) }
    ensures before { (k : ℕ) → k < from / 64 → slice_index words.new k ≡ slice_index words.old k }
{
    let first = from / WORD;
    let behind = to.div_ceil(WORD);
    // Proof: the label names the loop for its invariant.
    'words: for word in first..behind {
        let start = WORD * word;
        let low = from.saturating_sub(start);
        let high = (to - start).min(WORD);
        words[word] |= run_bits(low, high);
    }
}

/// Returns the 64-bit word at this index, or 0 if there are fewer.
fn word_at(words: &[u64], place: usize) -> u64
    ensures { result ≡ slice_index words.now place }
{
    if place < words.len() { words[place] } else { 0 }
}

/// Moves 64-bit words down by this many indexes. The lowest are dropped, and 0 follows at the end.
fn move_words(words: &mut [u64], count: usize)
    requires small { length words.old ≤ 2 ^ 58 }
    ensures { (k : ℕ) → slice_index words.new k ≡ slice_index words.old (k + count) }
{
    let gone = count.min(words.len());
    // Proof: the label names the loop for its invariant.
    'moved: for place in 0..words.len() {
        words[place] = word_at(words, place + gone);
    }
}

impl Mask {
    /// Returns the empty set of numbers below `places`. It takes one bit for each, in 64-bit words.
    ///
    /// # Errors
    ///
    /// `Memory` if memory runs out.
    pub fn with_room(alloc: Global, places: usize) -> Result<Mask, Memory>
        ensures empty { IfOk result (λ mask. mask.members ≡ []) }
        ensures size { IfOk result (λ mask. mask.size ≡ places) }
    {
        let words = vec![in alloc; 0; places.div_ceil(WORD)]?;
        Ok(Mask {
            size: places,
            words,
            lowest: 0,
        })
    }

    pub fn contains(&self, place: usize) -> bool
        requires { place < self.now.size }
        ensures { result ≡ is_member nat_lt place self.now.members }
    {
        self.words[place / WORD] >> (place % WORD) & 1 == 1
    }

    /// The members rise and are below the size. This call does nothing: it is for its contract.
    pub fn rises(&self)
        ensures rises { Rises self.now.members }
        ensures within { (place : ℕ) → self.now.size ≤ place → is_member nat_lt place self.now.members ≡ false }
    {
        // Proof: what is kept is looked at, and with it that it is sound.
        let _ = &self.words;
    }

    /// Adds a number. Returns whether it is new.
    pub fn insert(&mut self, place: usize) -> bool
        requires { place < self.old.size }
        ensures new { result ≡ not (is_member nat_lt place self.old.members) }
        ensures members { self.new.members ≡ with_member nat_lt place self.old.members }
        ensures few { length self.new.members ≤ self.old.size }
        ensures size { self.new.size ≡ self.old.size }
    {
        let is_new = !self.contains(place);
        let word = place / WORD;
        self.words[word] |= 1 << (place % WORD);
        // Otherwise the search for the lowest member would begin after it.
        if word < self.lowest {
            self.lowest = word;
        }
        is_new
    }

    /// Adds the numbers `from` to `to - 1`, if there are any, 64 at a time.
    pub fn insert_run(&mut self, from: usize, to: usize)
        requires { to ≤ self.old.size }
        ensures members { (place : ℕ) → is_member nat_lt place self.new.members ≡ (is_member nat_lt place self.old.members || in_run from to place) }
        ensures size { self.new.size ≡ self.old.size }
    {
        if from < to {
            set_run(&mut self.words, from, to);
            self.lowest = self.lowest.min(from / WORD);
        }
    }

    /// Subtracts 64 times `count` from each member. Members that would be below 0 are dropped.
    pub fn move_down(&mut self, count: usize)
        ensures members { (place : ℕ) → is_member nat_lt place self.new.members ≡ is_member nat_lt (place + 64 * count) self.old.members }
        ensures size { self.new.size ≡ self.old.size }
    {
        move_words(&mut self.words, count);
        self.lowest = self.lowest.saturating_sub(count);
    }

    /// Subtracts 64 times `count` from each member. Members that would be 0 or below are dropped.
    pub fn move_on(&mut self, count: usize)
        requires some { 0 < self.old.size }
        ensures members { (place : ℕ) → is_member nat_lt place self.new.members ≡ (is_member nat_lt (place + 64 * count) self.old.members && nat_lt 0 place) }
        ensures size { self.new.size ≡ self.old.size }
    {
        self.move_down(count);
        self.rises();
        // With slots of 256 a block that begin at 1, the last slot of the last block that goes falls on 0, which is no slot of a block.
        if self.contains(0) {
            self.take_lowest();
        }
    }

    /// Removes all members below `limit`, one by one. Returns how many.
    pub fn take_below(&mut self, limit: usize) -> usize
        requires few { self.old.size < 2 ^ 64 }
        ensures members { self.new.members ≡ filter (λ place. not (nat_lt place limit)) self.old.members }
        ensures taken { length self.old.members ≡ length self.new.members + result }
        ensures size { self.new.size ≡ self.old.size }
    {
        // Proof: what is kept is looked at, and with it that it is sound.
        let _ = &self.words;
        self.rises();
        let mut taken = 0usize;
        // Proof: the label names the loop for its invariant.
        'places: while let Some(place) = self.take_lowest() {
            if place >= limit {
                // It was taken out to be looked at, and belongs to what stays.
                self.insert(place);
                return taken;
            }
            taken += 1;
        }
        taken
    }

    /// Removes the lowest member and returns it, or `None` if there is none. Looks at no 64-bit word before the first that may have a member.
    pub fn take_lowest(&mut self) -> Option<usize>
        ensures members { MatchOption result ((self.old.members ≡ []) × (self.new.members ≡ []))
            (λ place. self.old.members ≡ place ∷ self.new.members) }
        ensures within { IfSome result (λ place. place < self.old.size) }
        ensures size { self.new.size ≡ self.old.size }
    {
        let word = first_filled(&self.words, self.lowest)?;
        self.lowest = word;
        let bits = self.words[word];
        let bit = bits.trailing_zeros() as usize;
        self.words[word] = bits & !(1 << bit);
        Some(WORD * word + bit)
    }

    /// Moves all members of another set of the same size into this one. Returns how many are new here.
    // One by one and not word by word, so that the count of the new ones comes with it.
    pub fn take_all(&mut self, other: &mut Mask) -> usize
        requires same { other.old.size ≡ self.old.size }
        requires few { self.old.size < 2 ^ 64 }
        ensures members { self.new.members ≡ with_members nat_lt other.old.members self.old.members }
        ensures emptied { other.new.members ≡ [] }
        ensures new { length self.new.members ≡ length self.old.members + result }
        ensures few { length self.new.members ≤ self.old.size }
        ensures size { self.new.size ≡ self.old.size }
        ensures other_size { other.new.size ≡ other.old.size }
    {
        // Proof: what is kept is looked at, and with it that it is sound.
        let _ = &self.words;
        let mut new = 0;
        // Proof: the label names the loop for its invariant.
        'places: while let Some(place) = other.take_lowest() {
            if self.insert(place) {
                new += 1;
            }
        }
        new
    }
}
