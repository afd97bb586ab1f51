//! The window of a sender, and what the sender asks it.

ghost use Rattle.std.specs.Prelude.{ℕ, ⊤, ◌^◌, ◌≡◌, ◌+◌, ◌<◌, ◌≤◌, Option, None, IfOk, MatchOption, length, option_map, option_copied};
ghost use Rattle.norm_base.specs.Settings.{InRange};
ghost use Rattle.norm_base.specs.Sizes.{datagram_room, symbol_room};
ghost use Rattle.fec_plan.specs.Partition.{IsSound};
ghost use Rattle.norm_order.specs.Shapes.{shape_of, last_source, is_source};
ghost use Rattle.norm_ext.specs.Laws.{IsNear};
ghost use Rattle.norm_send_rules.specs.SenderState.{SenderState, sender_opening};
ghost use Rattle.norm_send_rules.specs.InWindow.{current_shapes, last_index, next_index as next_index_of};
ghost use Rattle.norm_send_rules.specs.Repairable.{streams, repairable};
ghost use Rattle.norm_send_rules.specs.Laws.{next_at};
ghost use Rattle.norm_send_rules.specs.Sending.{next_new};
ghost use Rattle.norm_send_rules.specs.declared.want.Want.TheVariants.{Symbol};
ghost use Rattle.tx_window.specs.EntryAsked.{IsNext};
ghost use Rattle.tx_window.specs.EntryState.{EntryReads, first_of, StandsFor as StandsForEntry};
ghost use Rattle.tx_window.specs.Asked.{from_first, kept_at, info_at, about_of, AnswersAt, IsOpenAt, later_of};
ghost use Rattle.tx_window.specs.Next.{HasNext};
ghost use Rattle.tx_window.specs.WindowState.{Stands, drop_of};

use crate::entry::HeldEntry;
use crate::extent::{Extent, extent_at, is_closed};
use crate::room::{count_repairable, count_streams, hold_range};
use fec_plan::{Plan, Position};
use norm_base::{Datagram, Memory, Profile};
use norm_ext::Fti;
use norm_send_rules::Want;
use obj_buffer::CodeTable;
use std::alloc::Global;
use std::collections::VecDeque;
use std::marker::Model;
use tx_object::{Held, Ring};

/// The window of a sender. The octets of its objects lie in one ring, made once; a stream takes its memory as it is opened.
///
/// - An object: [`enqueue`](Window::enqueue). Or piece by piece: [`begin`](Window::begin), then [`fill`](Window::fill) until all its octets are
///   there, then [`finish`](Window::finish). [`leave`](Window::leave) gives it up at any time before that.
/// - A stream: [`open_stream`](Window::open_stream), then [`write`](Window::write) and [`cut`](Window::cut) in any order, and
///   [`close_stream`](Window::close_stream) at the end.
/// - [`note_sent`](Window::note_sent) after a symbol was sent, [`note_info`](Window::note_info) after an info, and
///   [`note_past`](Window::note_past) after the listings changed. Before that, the window may not know that an entry may go.
///
/// Entries are dropped only by calls that need room, the first ones first. [`clear`](Window::clear) empties the window for another
/// instance.
// Objects lie in the ring one after the other, up to `free`, and `octets` is exact. Otherwise a new object could be written over one that
// may still be repaired.
#[derive(Debug, Drop)]
pub struct Window {
    pub(crate) alloc: Global,
    pub(crate) profile: Profile,
    pub(crate) ring: Ring,
    pub(crate) held: VecDeque<HeldEntry>,
    /// How many of the first entries have no extent any more. No id names one of them.
    pub(crate) forgotten: u32,
    /// How far each of the other entries reaches, dropped or not.
    pub(crate) extents: VecDeque<Extent>,
    /// How many octets all entries of the window take, streams included, with the object that is being filled.
    pub(crate) octets: u32,
    /// The offset in the ring of the octet after the objects, with the one that is being filled.
    pub(crate) free: usize,
    /// The object that is being filled. It is no entry yet.
    pub(crate) begun: Option<Held>,
    /// How many of its octets are there. If none is being filled, the number says nothing.
    pub(crate) filled: usize,
    /// How many entries were dropped: the index of the first one in `held`.
    pub(crate) dropped: u32,
    /// The last closed source symbol of the order, even if its entry was dropped.
    pub(crate) last: Option<Position>,
    /// The least position that members are listed past. `None` if a member is listed past nothing.
    pub(crate) past: Option<Position>,
    /// The codes of the blocks of its objects. Those of dropped objects stay.
    pub(crate) codes: CodeTable,
}

// Proof: it stands for what it reads of a state (WindowReads) and not for the state.
// Proof: whatever else a rule changes, the same proof holds, and who stands above names no field of it.
impl Model for Window {
    ghost use Rattle.tx_window.specs.WindowState.{WindowState};
    ghost use Rattle.tx_window.specs.WindowSound.{window_view, WindowSound};

    ghost Value = { WindowState };

    ghost view = { window_view };

    ghost invariant = { WindowSound };
}

/// What each message of an entry says of the entry: its transmission information and its flags.
#[derive(Clone, Copy, Debug, PartialEq, Eq)]
pub struct About {
    pub fti: Fti,
    pub flags: u8,
}

/// How many parity symbols of a closed block are sent by themselves, if it has as many.
fn auto_of(profile: &Profile) -> u8
    ensures exact { result ≡ profile.now.auto }
    ensures range { InRange profile.now }
{
    profile.auto
}

/// The first kept symbol of an entry from `from` on that is sent by itself, with up to `auto` parity symbols of a closed block. `None` if
/// there is none.
fn next_of(entry: &HeldEntry, auto: u8, from: Position) -> Option<Position>
    ensures next { (r : EntryReads) → StandsForEntry r entry.now → r.p.auto ≡ auto → IsNext r.p (shape_of r.p r.object) (later_of from (first_of entry.now)) result }
    ensures id { MatchOption result ⊤ (λ next. next.symbol < 255) }
{
    if from.block < entry.first_block() {
        return entry.first_in(auto, from.index);
    }
    entry.next_in(auto, from)
}

/// The entry with this index. `None` if it is among the first `dropped`, or was not enqueued.
fn entry_at(held: &VecDeque<HeldEntry>, dropped: u32, index: u32) -> Option<&HeldEntry>
    ensures { option_copied result ≡ from_first dropped held.now.items index }
{
    if index < dropped {
        return None;
    }
    held.get((index - dropped) as usize)
}

impl Window {
    /// Returns an empty window. Takes the ring for the octets of all objects. What else an entry needs is taken when it is begun or opened.
    ///
    /// # Errors
    ///
    /// `Memory` if memory runs out.
    pub fn new(alloc: Global, profile: &Profile) -> Result<Window, Memory>
        ensures profile { IfOk result (λ window. window.p ≡ profile.now) }
        ensures finished { IfOk result (λ window. window.filling ≡ None) }
        ensures begun { IfOk result (λ window. (instance : ℕ) → Stands window (sender_opening profile.now instance)) }
    {
        let e = u64::from(profile.e);
        // Each object begins at a whole symbol, and so may leave its last one partly empty: one symbol more for each object of the window.
        let slots = u64::from(profile.octets) / e + u64::from(profile.window);
        let ring = Ring::new(alloc, (slots * e) as usize)?;
        let held = VecDeque::with_capacity(alloc, usize::from(profile.window))?;
        Ok(Window {
            alloc,
            profile: *profile,
            ring,
            held,
            forgotten: 0,
            extents: VecDeque::new(alloc),
            octets: 0,
            free: 0,
            begun: None,
            filled: 0,
            dropped: 0,
            last: None,
            past: None,
            codes: CodeTable::new(alloc),
        })
    }

    /// The index of the first kept entry, and its first kept block. Everything before them was dropped. If none is kept, the index of the next
    /// entry and 0.
    // A point and not an index, since the first entry may be a stream that lacks its first blocks.
    pub fn first(&self) -> (u32, u32)
        ensures exact { (s : SenderState) → Stands self.now s → (result.0 ≡ s.current.drop.index) × (result.1 ≡ s.current.drop.block) }
        ensures number { (result.0 ≡ (drop_of self.now).index) × (result.1 ≡ (drop_of self.now).block) }
    {
        if self.held.is_empty() {
            return (self.dropped, 0);
        }
        let entry = &self.held[0];
        (self.dropped, entry.first_block())
    }

    /// The last closed source symbol of the order, even if its entry was dropped. `None` if no source symbol was closed.
    // Only tests call it. It stays for programs that ask a sender for its window.
    pub fn end(&self) -> Option<Position>
        ensures { (s : SenderState) → Stands self.now s → result ≡ last_source (current_shapes self.now.p s) }
    {
        self.last
    }

    /// The index that the next entry gets: how many entries this instance had, dropped ones among them.
    pub fn next_index(&self) -> u32
        ensures exact { (s : SenderState) → Stands self.now s → result ≡ next_index_of s }
        ensures number { result ≡ self.now.dropped + length self.now.entries }
    {
        self.dropped + self.held.len() as u32
    }

    /// The index of the open stream, which is the last entry. `None` if no stream is open.
    pub fn open_index(&self) -> Option<u32>
        ensures { (s : SenderState) → Stands self.now s → IsOpenAt s result }
    {
        if self.held.is_empty() {
            return None;
        }
        let place = self.held.len() - 1;
        let entry = &self.held[place];
        if !entry.is_open() {
            return None;
        }
        Some(self.dropped + place as u32)
    }

    /// Appends a symbol, and returns how many octets it has. `None` if it was dropped or not enqueued, or if its entry has no such encoded
    /// symbol; then nothing is appended.
    pub fn symbol(&self, at: Position, out: &mut Datagram) -> Option<u16>
        requires { length out.old + symbol_room ≤ datagram_room }
        ensures { (s : SenderState) → Stands self.now s → AnswersAt self.now.p s at out.old out.new result }
    {
        let Some(entry) = entry_at(&self.held, self.dropped, at.index) else {
            return None;
        };
        entry.symbol(&self.ring, at.block, at.symbol, out)
    }

    /// Returns the info of an object. That of a file is its name. `None` if the object was dropped or not enqueued, or if it has no info.
    pub fn info(&self, index: u32) -> Option<&[u8]>
        ensures exact { (s : SenderState) → Stands self.now s → option_copied result ≡ info_at s index }
        ensures short { MatchOption (option_copied result) ⊤ (λ info. length info ≤ self.now.p.e) }
    {
        let Some(entry) = entry_at(&self.held, self.dropped, index) else {
            return None;
        };
        entry.info()
    }

    /// What each message of an entry says of it. `None` if the entry was dropped or not enqueued.
    pub fn about(&self, index: u32) -> Option<About>
        ensures exact { (s : SenderState) → Stands self.now s → result ≡ option_map (about_of self.now.p) (kept_at s index) }
        ensures long { MatchOption result ⊤ (λ about. about.fti.l < 2 ^ 48) }
    {
        let Some(entry) = entry_at(&self.held, self.dropped, index) else {
            return None;
        };
        let fti = entry.fti(&self.profile);
        let flags = entry.flags();
        Some(About { fti, flags })
    }

    /// How an entry is cut into blocks and symbols. `None` if it was dropped or not enqueued.
    pub fn plan(&self, index: u32) -> Option<Plan>
        ensures exact { (s : SenderState) → Stands self.now s → result ≡ option_map (λ object. (shape_of self.now.p object).cut) (kept_at s index) }
        ensures sound { MatchOption result ⊤ IsSound }
    {
        let Some(entry) = entry_at(&self.held, self.dropped, index) else {
            return None;
        };
        let plan = entry.plan();
        // Proof: that it is sound is known of each plan that was asked.
        let _ = plan.e();
        Some(plan)
    }

    /// The info of an entry, or else its first kept symbol that is sent by itself. `None` if it has neither.
    fn new_of(&self, index: u32) -> Option<Want>
        requires { self.now.dropped ≤ index }
        ensures exact { (s : SenderState) → Stands self.now s → index < next_index_of s
            → next_new self.now.p (next_at index s) ≡ elim result [ Some w ↦ Some w | None ↦ next_new self.now.p (next_at (index + 1) s) ] }
        ensures id { MatchOption result ⊤ HasNext }
    {
        let Some(entry) = entry_at(&self.held, self.dropped, index) else {
            return None;
        };
        if entry.has_info() {
            return Some(Want::Info { index });
        }
        match entry.first_in(auto_of(&self.profile), index) {
            Some(at) => Some(Want::Symbol { at }),
            None => None,
        }
    }

    /// The first info or kept symbol that is sent by itself, of the entries from this index on. `None` if there is none.
    fn first_new(&self, index: u32) -> Option<Want>
        requires { self.now.dropped ≤ index }
        ensures exact { (s : SenderState) → Stands self.now s → result ≡ next_new self.now.p (next_at index s) }
        ensures id { MatchOption result ⊤ HasNext }
    {
        for next in index..self.next_index() {
            if let Some(want) = self.new_of(next) {
                return Some(want);
            }
        }
        None
    }

    /// The first info or kept symbol from the symbol `from` on that is sent by itself. `None` if there is none.
    fn next_symbol(&self, from: Position) -> Option<Want>
        ensures exact { (s : SenderState) → Stands self.now s → s.next ≡ Symbol from → result ≡ next_new self.now.p s }
        ensures id { MatchOption result ⊤ HasNext }
    {
        if from.index < self.dropped {
            return self.first_new(self.dropped);
        }
        let Some(entry) = entry_at(&self.held, self.dropped, from.index) else {
            return None;
        };
        match next_of(entry, auto_of(&self.profile), from) {
            Some(at) => Some(Want::Symbol { at }),
            None => self.first_new(from.index + 1),
        }
    }

    /// The first info or symbol from `from` on that is sent by itself and was not dropped. `None` if there is none. Looks at two entries at
    /// most.
    pub fn next_new(&self, from: Want) -> Option<Want>
        ensures exact { (s : SenderState) → Stands self.now s → s.next ≡ from → result ≡ next_new self.now.p s }
        ensures id { MatchOption result ⊤ HasNext }
    {
        match from {
            Want::Info { index } => self.first_new(index.max(self.dropped)),
            Want::Symbol { at } => self.next_symbol(at),
        }
    }

    /// Whether a position is a closed source symbol of the order, even if its entry was dropped. The entry has to be one that an id can name.
    pub fn is_source(&self, at: Position) -> bool
        ensures { (s : SenderState) → Stands self.now s → IsNear (last_index s) at.index
            → result ≡ is_source (current_shapes self.now.p s) at }
    {
        let Some(extent) = extent_at(&self.extents, self.forgotten, at.index) else {
            return false;
        };
        is_closed(&self.profile, extent, at.block, at.symbol)
    }

    /// How many streams are enqueued and not wholly dropped.
    pub fn streams(&self) -> u32
        ensures { (s : SenderState) → Stands self.now s → result ≡ streams s }
    {
        count_streams(&self.held)
    }

    /// How many infos and encoded symbols the window has.
    pub fn repairable(&self) -> u64
        ensures { (s : SenderState) → Stands self.now s → result ≡ repairable self.now.p s }
    {
        hold_range(&self.profile);
        count_repairable(&self.held)
    }
}
