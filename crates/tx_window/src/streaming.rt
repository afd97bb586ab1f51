//! Streams of the window (RFC 5740 section 5.1 on NORM_OBJECT_STREAM): how one is opened, and how the open one goes on.

ghost use Rattle.std.specs.Prelude.{⊤, ◌≡◌, ◌+◌, ◌-◌, ◌*◌, ◌<◌, ◌≤◌, List, None, Some, IfOk, IsErr, MatchResult, length, min, slice_get, slice_set};
ghost use Rattle.std.specs.VecDeque.{deque_capacity};
ghost use Rattle.norm_base.specs.declared.node.Origin.{Origin};
ghost use Rattle.norm_order.specs.Entries.{Part, Stream as Streamed};
ghost use Rattle.norm_order.specs.Shapes.{shape_of, last_source};
ghost use Rattle.norm_send_rules.specs.SenderState.{SenderState};
ghost use Rattle.norm_send_rules.specs.InWindow.{current_shapes, last_index};
ghost use Rattle.norm_send_rules.specs.Room.{first_kept};
ghost use Rattle.norm_send_rules.specs.Streaming.{cut};
ghost use Rattle.tx_window.specs.EntryState.{EntryReads, StandsFor as StandsForEntry};
ghost use Rattle.tx_window.specs.declared.entry.HeldEntry.{HeldEntry as Kept};
ghost use Rattle.tx_window.specs.WindowState.{Stands, drop_of};
ghost use Rattle.tx_window.specs.WindowMoves.{WindowMoves};
ghost use Rattle.tx_window.specs.Taking.{IsOpened, IsUnopened};
ghost use Rattle.tx_window.specs.Streams.{IsWritten, IsClosed, EndsIn, followed, last_or, write_size_fault};

use crate::entry::{HeldEntry, close_last, cut_last, write_last};
use crate::extent::Extent;
use crate::room::{buffer_len, drop_front, hold_range, join, make_room};
use crate::window::Window;
use fec_plan::Position;
use norm_base::Profile;
use norm_send_rules::EnqueueFault;
use std::collections::VecDeque;
use stream_buffer::HeldStream;

fn set_last(extents: &mut VecDeque<Extent>, extent: Extent)
    ensures items { extents.new.items ≡ slice_set extents.old.items (length extents.old.items - 1) extent }
    ensures room { deque_capacity extents.new ≡ deque_capacity extents.old }
{
    if extents.is_empty() {
        return;
    }
    let last = extents.len() - 1;
    extents[last] = extent;
}

/// `Empty` for a write of no octets. `TooBig` if it has more octets than the stream's buffer without one block.
#[tactic(auto, unfolding(norm_order::specs::First::first_where))]
fn write_size_fault(profile: &Profile, len: usize) -> Option<EnqueueFault>
    ensures exact { result ≡ write_size_fault profile.now len }
    ensures free { result ≡ None → 1 ≤ len }
{
    // One block less than the buffer: so a write that is not refused here has room once older blocks may go, wherever in a block it begins.
    let most = (u64::from(profile.blocks) - 1) * u64::from(profile.b) * u64::from(profile.e);
    let len = len as u64;
    if len == 0 {
        return Some(EnqueueFault::Empty);
    }
    if len > most {
        return Some(EnqueueFault::TooBig { len });
    }
    None
}

/// The last position of an order: the last entry's (`at`) if it has one, or else the last one before (`found`).
fn last_of(at: Option<Position>, found: Option<Position>) -> Option<Position>
    ensures { result ≡ last_or at found }
{
    match at {
        Some(at) => Some(at),
        None => found,
    }
}

impl Window {
    /// Opens a stream at the end of the order, and returns its index. Drops what has to go for its buffer. Takes all its memory before anything is
    /// dropped.
    ///
    /// # Errors
    ///
    /// The first of `TooBig`, `StreamOpen`, `IdsSpent` and `WindowFull` that applies, or `Memory`. Then the window is as it was.
    pub fn open_stream(&mut self) -> Result<u32, EnqueueFault>
        requires { self.old.filling ≡ None }
        ensures opened { IfOk result (λ index. (s : SenderState) (by : Origin) → Stands self.old s → IsOpened self.old.p s by index self.new) }
        ensures refused { MatchResult result (λ _. ⊤) (λ fault. (s : SenderState) → Stands self.old s → IsUnopened self.old.p s fault) }
        ensures same { IsErr result → self.new ≡ self.old }
        ensures finished { self.new.filling ≡ None }
        ensures profile { self.new.p ≡ self.old.p }
    {
        if let Some(fault) = self.open_fault() {
            return Err(fault);
        }
        let Ok(stream) = HeldStream::new(self.alloc, &self.profile) else {
            return Err(EnqueueFault::Memory);
        };
        let index = self.next_index();
        let len = buffer_len(&self.profile) as u32;
        let Some(made) = make_room(
            &self.profile,
            &mut self.held,
            &mut self.extents,
            self.octets,
            len,
        ) else {
            return Err(EnqueueFault::Memory);
        };
        self.octets = made.1 + len;
        self.dropped += made.0 as u32;
        let forgotten = join(
            &mut self.held,
            &mut self.extents,
            self.forgotten,
            HeldEntry::Stream(stream),
            Extent::Stream { segments: 0 },
        );
        self.forgotten = forgotten;
        Ok(index)
    }

    /// Call after the last entry went on; returns its index. Notes how far it reaches now. If it gave up blocks, drops all entries before it.
    fn follow(&mut self) -> u32
        requires { self.old.filling ≡ None }
        ensures index { 0 < length self.old.entries → result ≡ self.old.dropped + (length self.old.entries - 1) }
        ensures follows { (r : EntryReads) (parts : List Part) (e : Kept) → slice_get self.old.entries (length self.old.entries - 1) ≡ Some e
            → StandsForEntry r e → r.object ≡ Streamed parts → r.p ≡ self.old.p → self.new ≡ followed e (shape_of r.p r.object) self.old }
        ensures profile { self.new.p ≡ self.old.p }
        ensures finished { self.new.filling ≡ None }
    {
        if self.held.is_empty() {
            return self.dropped;
        }
        hold_range(&self.profile);
        let place = self.held.len() - 1;
        let index = self.dropped + place as u32;
        let entry = &self.held[place];
        let segments = entry.segments();
        let first = entry.first_block();
        let size = entry.size(&self.profile);
        let last = last_of(entry.last(index), self.last);
        self.last = last;
        set_last(&mut self.extents, Extent::Stream { segments });
        if first == 0 {
            return index;
        }
        // Blocks of a stream go only if all entries before it may go. Those go here.
        drop_front(&mut self.held, place);
        self.dropped = index;
        self.octets = size as u32;
        index
    }

    /// Writes octets to the open stream. Returns its index and the offset of the first octet. If there is no room, the first blocks of the stream go,
    /// and before them all entries before it, if all of them may. Takes no memory.
    ///
    /// # Errors
    ///
    /// The first of `Empty`, `TooBig`, `NoStream` and the stream's `Spent` and `Full` that applies. Then the window is as it was. `TooBig` means more
    /// octets than the stream's buffer has without one block.
    pub fn write(&mut self, bytes: &[u8]) -> Result<(u32, u32), EnqueueFault>
        requires { self.old.filling ≡ None }
        ensures written { (s : SenderState) (by : Origin) → Stands self.old s → IsWritten self.old.p s by bytes.now result self.new }
        ensures same { IsErr result → self.new ≡ self.old }
        ensures finished { self.new.filling ≡ None }
        ensures profile { self.new.p ≡ self.old.p }
    {
        if let Some(fault) = write_size_fault(&self.profile, bytes.len()) {
            return Err(fault);
        }
        hold_range(&self.profile);
        let first = self.dropped;
        match write_last(&mut self.held, &self.profile, first, &self.past, bytes) {
            Ok(offset) => Ok((self.follow(), offset)),
            Err(fault) => Err(fault),
        }
    }

    /// Ends the open stream, and returns its index. Blocks go for room as in [`write`](Window::write). Takes no memory.
    ///
    /// # Errors
    ///
    /// The first of `NoStream` and the stream's `Spent` and `Full` that applies. Then the window is as it was.
    pub fn close_stream(&mut self) -> Result<u32, EnqueueFault>
        requires { self.old.filling ≡ None }
        ensures closed { (s : SenderState) → Stands self.old s → IsClosed self.old.p s result self.new }
        ensures same { IsErr result → self.new ≡ self.old }
        ensures finished { self.new.filling ≡ None }
        ensures profile { self.new.p ≡ self.old.p }
    {
        hold_range(&self.profile);
        let first = self.dropped;
        match close_last(&mut self.held, &self.profile, first, &self.past) {
            Ok(()) => Ok(self.follow()),
            Err(fault) => Err(fault),
        }
    }

    /// The last closed source symbol once the open stream is cut, even if its entry was dropped. Cuts nothing. `None` if there is none.
    // Asked before the cut: what takes memory for a mark comes first, so that a lack of memory leaves the whole sender as it was.
    pub fn end_cut(&self) -> Option<Position>
        ensures { (s : SenderState) → Stands self.now s → result ≡ last_source (current_shapes self.now.p (cut self.now.p s)) }
    {
        if self.held.is_empty() {
            return self.last;
        }
        hold_range(&self.profile);
        let place = self.held.len() - 1;
        let entry = &self.held[place];
        if !entry.is_open() {
            return self.last;
        }
        last_of(entry.last_cut(self.dropped + place as u32), self.last)
    }

    /// How many segments of the last entry, a stream, are closed, given up or not. 0 if the last entry is an object, or there is none.
    pub fn segments(&self) -> u32
        ensures exact { (s : SenderState) (parts : List Part) → Stands self.now s → EndsIn parts s → result ≡ (shape_of self.now.p (Streamed parts)).closed }
        ensures room { (s : SenderState) (parts : List Part) → Stands self.now s → EndsIn parts s
            → result ≤ min (first_kept s (last_index s) + self.now.p.blocks) 16777216 * self.now.p.b }
    {
        if self.held.is_empty() {
            return 0;
        }
        let place = self.held.len() - 1;
        let entry = &self.held[place];
        entry.fits();
        entry.segments()
    }

    /// Does nothing. Its contract says that 24 bits number the blocks before the first kept one.
    pub fn fits(&self)
        ensures { (drop_of self.now).block ≤ 16777216 }
    {
        if self.held.is_empty() {
            return;
        }
        let entry = &self.held[0];
        entry.fits();
    }

    /// Closes the open stream's segment that fills, if it holds octets. Without an open stream nothing changes.
    pub fn cut(&mut self)
        requires { self.old.filling ≡ None }
        ensures stands { WindowMoves self.old self.new (cut self.old.p) }
        ensures finished { self.new.filling ≡ None }
        ensures profile { self.new.p ≡ self.old.p }
    {
        let Some(_) = self.open_index() else {
            return;
        };
        hold_range(&self.profile);
        cut_last(&mut self.held);
        self.follow();
    }
}
