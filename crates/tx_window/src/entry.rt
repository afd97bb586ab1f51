//! An entry of the window: an object that lies in the window's ring, or a stream whose first blocks may be gone.

ghost use Rattle.std.specs.Prelude.{ℕ, true, ◌≡◌, ◌+◌, ◌*◌, ◌<◌, ◌≤◌, ◌^◌, List, Option, Some, None, MatchOption, ⊤, length, nat_lt, option_copied, is_some};
ghost use Rattle.norm_base.specs.Sizes.{datagram_room, symbol_room};
ghost use Rattle.fec_plan.specs.Points.{Position as Place, position, position_before, reached_by};
ghost use Rattle.norm_base.specs.Settings.{Settings};
ghost use Rattle.fec_plan.specs.Partition.{stream_cut};
ghost use Rattle.norm_order.specs.Entries.{Part, Object as Entered, Stream};
ghost use Rattle.norm_order.specs.Sets.{with_member};
ghost use Rattle.norm_order.specs.Shapes.{shape_of, encoded_in, last_in};
ghost use Rattle.norm_send_rules.specs.Messages.{fti_of_object, object_flags};
ghost use Rattle.norm_send_rules.specs.SenderState.{SenderState};
ghost use Rattle.norm_send_rules.specs.Watermarks.{all_past};
ghost use Rattle.norm_send_rules.specs.Room.{size_of, may_go, is_released};
ghost use Rattle.norm_send_rules.specs.Sending.{sent_once};
ghost use Rattle.stream_buffer.specs.StreamState.{StandsFor as KeepsStream, with_cut};
ghost use Rattle.tx_object.specs.Held.{info_of};
ghost use Rattle.tx_window.specs.EntryState.{EntryReads, reads_of, StandsFor, first_of};
ghost use Rattle.tx_window.specs.EntryAsked.{is_sent, Lies, IsKept, AnswersKept, IsNext};
ghost use Rattle.tx_window.specs.EntryPlaces.{Stays, held_size, held_info};
ghost use Rattle.norm_send_rules.specs.Enqueuing.{open_parts};

mod front;
mod growing;
mod repairable;

pub use crate::entry::front::{close_last, cut_last, may_all_go, write_last};
use fec_plan::{Plan, Position, reached_by};
use norm_base::{Datagram, Mode, Profile};
use norm_ext::{Fti, flags};
use stream_buffer::HeldStream;
use tx_object::{Held, Ring};

/// An entry of the window, with one set of calls for an object and a stream.
// An enum, because the window keeps both kinds in one list in the transport order: the entries that go for room are a prefix of that list.
#[derive(Debug, Drop)]
pub enum HeldEntry {
    /// A data object or a file, which lies in the window's ring.
    Object(Held),
    /// A stream, open or closed, whose first blocks may be gone.
    Stream(HeldStream),
}

/// How many octets of the window a stream takes: those of its buffer's segments, without their headers.
fn buffer_len(profile: &Profile) -> u64
    ensures exact { result ≡ profile.now.blocks * profile.now.b * profile.now.e }
    ensures most { result < 2 ^ 48 }
{
    u64::from(profile.blocks) * u64::from(profile.b) * u64::from(profile.e)
}

/// Whether every member is listed past `last`, or need not be: in drop mode, or if there is no such position.
fn is_released(profile: &Profile, past: &Option<Position>, last: &Option<Position>) -> bool
    ensures { (s : SenderState) → ((at : Place) → all_past s at ≡ reached_by past.now at) → result ≡ is_released profile.now s last.now }
{
    let Some(last) = last else {
        return true;
    };
    match profile.mode {
        Mode::Drop => true,
        Mode::Hold => reached_by(*past, last),
    }
}

/// How many symbols of a stream's block are sent by themselves, if this many segments of the stream are closed: the block's closed segments, and once
/// all are closed, also `auto` parity symbols, or all if it has fewer.
fn once(plan: &Plan, auto: u8, segments: u64, block: u32) -> u8
    ensures { (p : Settings) (parts : List Part) → plan.now ≡ stream_cut p.e p.b p.max_n → p.auto ≡ auto → segments ≡ (shape_of p (Stream parts)).closed
        → result ≡ sent_once p (shape_of p (Stream parts)) block }
{
    let sources = plan.source_len(block);
    let before = u64::from(block) * u64::from(sources);
    let closed = segments.saturating_sub(before);
    // A code takes all source symbols of a block, so an open block has no parity.
    if closed < u64::from(sources) {
        return closed as u8;
    }
    sources.saturating_add(auto).min(plan.encoded_len(block))
}

/// The first symbol of a stream from `at` on that is sent by itself: `at` itself, or the next block's first. `None` if there is none.
fn next_segment(stream: &HeldStream, auto: u8, at: Position) -> Option<Position>
    ensures next { (p : Settings) (parts : List Part) → KeepsStream p parts stream.now.buffer → p.auto ≡ auto
        → IsNext p (shape_of p (Stream parts)) at result }
    ensures id { MatchOption result ⊤ (λ next. next.symbol < 255) }
{
    let plan = stream.plan();
    let segments = u64::from(stream.segments());
    let blocks = segments.div_ceil(u64::from(plan.source_len(at.block)));
    if u64::from(at.block) >= blocks {
        return None;
    }
    if at.symbol < once(&plan, auto, segments, at.block) {
        return Some(at);
    }
    if u64::from(at.block) + 1 == blocks {
        return None;
    }
    Some(Position {
        index: at.index,
        block: at.block + 1,
        symbol: 0,
    })
}

/// The first kept symbol that is sent by itself, of a stream with this index. `None` if there is none.
fn first_segment(stream: &HeldStream, auto: u8, index: u32) -> Option<Position>
    ensures next { (p : Settings) (parts : List Part) → KeepsStream p parts stream.now.buffer → p.auto ≡ auto
        → IsNext p (shape_of p (Stream parts)) (position index stream.now.buffer.first 0) result }
    ensures id { MatchOption result ⊤ (λ next. next.symbol < 255) }
{
    let block = stream.first_block();
    let plan = stream.plan();
    let segments = u64::from(stream.segments());
    let blocks = segments.div_ceil(u64::from(plan.source_len(block)));
    if u64::from(block) >= blocks {
        return None;
    }
    let at = Position {
        index,
        block,
        symbol: 0,
    };
    next_segment(stream, auto, at)
}

/// Appends a symbol of a stream, and returns how many octets it has. `None` if it is not there; then nothing is appended.
fn stream_symbol(stream: &HeldStream, block: u32, symbol: u8, out: &mut Datagram) -> Option<u16>
    requires { length out.old + symbol_room ≤ datagram_room }
    ensures { (p : Settings) (parts : List Part) → KeepsStream p parts stream.now.buffer
        → AnswersKept p (Stream parts) stream.now.buffer.first block symbol out.old out.new result }
{
    let plan = stream.plan();
    // Proof: what is kept of its symbols is looked at, and with it that the plan is sound.
    let _ = plan.e();
    if symbol >= plan.encoded_len(block) {
        return None;
    }
    let before = out.room();
    if !stream.symbol(block, symbol, out) {
        return None;
    }
    Some(before.saturating_sub(out.room()) as u16)
}

impl HeldEntry {
    /// How the entry is cut into blocks and symbols. The plan of a stream has no length.
    pub fn plan(&self) -> Plan
        ensures { (r : EntryReads) → StandsFor r self.now → result ≡ (shape_of r.p r.object).cut }
    {
        match self {
            HeldEntry::Object(held) => held.plan(),
            HeldEntry::Stream(stream) => stream.plan(),
        }
    }

    /// How many octets of the window the entry takes: an object's own, or those of a stream's buffer.
    pub fn size(&self, profile: &Profile) -> u64
        ensures exact { (r : EntryReads) → StandsFor r self.now → r.p ≡ profile.now → result ≡ size_of profile.now r.object }
        ensures held { result ≡ held_size profile.now self.now }
        ensures most { result < 2 ^ 48 }
    {
        match self {
            HeldEntry::Object(held) => u64::from(held.len()),
            HeldEntry::Stream(_) => buffer_len(profile),
        }
    }

    /// The transmission information in each of its messages. Its length is the size of the object, or of the stream's buffer.
    pub fn fti(&self, profile: &Profile) -> Fti
        ensures exact { (r : EntryReads) → StandsFor r self.now → r.p ≡ profile.now → result ≡ fti_of_object profile.now r.object }
        ensures long { result.l < 2 ^ 48 }
    {
        let len = self.size(profile);
        Fti {
            l: len,
            e: profile.e,
            b: profile.b,
            max_n: profile.max_n,
        }
    }

    /// The flags that all of its messages have (RFC 5740 section 4.2.1): FILE if it is a file, INFO if it has info, STREAM if it is a
    /// stream.
    pub fn flags(&self) -> u8
        ensures { (r : EntryReads) → StandsFor r self.now → result ≡ object_flags r.object }
    {
        match self {
            HeldEntry::Object(held) => held.flags(),
            HeldEntry::Stream(_) => flags::STREAM,
        }
    }

    /// Returns the info, or `None` if it has none. That of a file is its name; a stream has none.
    pub fn info(&self) -> Option<&[u8]>
        ensures exact { (r : EntryReads) → StandsFor r self.now → option_copied result ≡ info_of r.object }
        ensures short { (r : EntryReads) → StandsFor r self.now → MatchOption (option_copied result) ⊤ (λ info. length info ≤ r.p.e) }
        ensures held { option_copied result ≡ held_info self.now }
    {
        match self {
            HeldEntry::Object(held) => held.info(),
            HeldEntry::Stream(_) => None,
        }
    }

    /// Whether it has info.
    pub fn has_info(&self) -> bool
        ensures { result ≡ is_some (held_info self.now) }
    {
        match self {
            HeldEntry::Object(held) => held.has_info(),
            HeldEntry::Stream(_) => false,
        }
    }

    /// The first block that is kept. An object keeps all blocks.
    pub fn first_block(&self) -> u32
        ensures { result ≡ first_of self.now }
    {
        match self {
            HeldEntry::Object(_) => 0,
            HeldEntry::Stream(stream) => stream.first_block(),
        }
    }

    /// Whether it is a stream that was not closed. Only the last entry of a window can be one.
    pub fn is_open(&self) -> bool
        ensures { (r : EntryReads) → StandsFor r self.now → result ≡ is_some (open_parts r.object) }
    {
        match self {
            HeldEntry::Object(_) => false,
            HeldEntry::Stream(stream) => !stream.is_ended(),
        }
    }

    /// How many segments of a stream are closed, given up or not. 0 for an object.
    pub fn segments(&self) -> u32
        ensures { (r : EntryReads) (parts : List Part) → StandsFor r self.now → r.object ≡ Stream parts → result ≡ (shape_of r.p r.object).closed }
    {
        match self {
            HeldEntry::Object(_) => 0,
            HeldEntry::Stream(stream) => stream.segments(),
        }
    }

    /// The last closed source symbol of the entry, which has this index. `None` if no source symbol is closed.
    pub fn last(&self, index: u32) -> Option<Position>
        ensures { (r : EntryReads) → StandsFor r self.now → result ≡ last_in index (shape_of r.p r.object) }
    {
        match self {
            HeldEntry::Object(held) => Some(held.last(index)),
            HeldEntry::Stream(stream) => stream.last(index),
        }
    }

    /// The last closed source symbol that the entry with this index would have after a [`cut`](HeldEntry::cut). `None` if there would be
    /// none.
    pub fn last_cut(&self, index: u32) -> Option<Position>
        ensures { (r : EntryReads) (parts : List Part) → StandsFor r self.now → r.object ≡ Stream parts
            → result ≡ last_in index (shape_of r.p (Stream (with_cut r.p.e parts))) }
    {
        match self {
            HeldEntry::Object(held) => Some(held.last(index)),
            HeldEntry::Stream(stream) => stream.last_cut(index),
        }
    }

    /// Does nothing. Its contract says that the segments of a stream have room, and that 24 bits number its blocks.
    pub fn fits(&self)
        ensures segments { (r : EntryReads) (parts : List Part) → StandsFor r self.now → r.object ≡ Stream parts
            → ((shape_of r.p (Stream parts)).closed ≤ (first_of self.now + r.p.blocks) * r.p.b) × ((shape_of r.p (Stream parts)).closed ≤ 16777216 * r.p.b) }
        ensures first { first_of self.now ≤ 16777216 }
    {
        match self {
            HeldEntry::Object(_) => (),
            HeldEntry::Stream(stream) => stream.fits(),
        }
    }

    /// Whether all closed source symbols were sent, given up ones of a stream among them, and the info if there is one.
    pub fn is_sent(&self) -> bool
        ensures { (ring : List ℕ) (p : Settings) (index : ℕ) (object : Entered) (s : SenderState) → StandsFor (reads_of ring p index object s) self.now
            → result ≡ is_sent s index (shape_of p object) }
    {
        match self {
            HeldEntry::Object(held) => held.is_sent(),
            HeldEntry::Stream(stream) => stream.is_sent(),
        }
    }

    /// Whether the entry with this index may go: its closed source symbols and its info, if it has them, were sent, and in hold mode every member is
    /// listed past the last of those symbols. `past` is the least position that members are listed past.
    pub fn may_go(&self, profile: &Profile, index: u32, past: &Option<Position>) -> bool
        ensures { (ring : List ℕ) (object : Entered) (s : SenderState) → StandsFor (reads_of ring profile.now index object s) self.now
            → ((at : Place) → all_past s at ≡ reached_by past.now at) → result ≡ may_go profile.now s index (shape_of profile.now object) }
    {
        let last = self.last(index);
        if !is_released(profile, past, &last) {
            return false;
        }
        self.is_sent()
    }

    /// The first symbol from `at` on that is sent by itself: `at` itself, or the next block's first. `auto` parity symbols of each closed block are
    /// sent by themselves, or all if it has fewer. Of an open block only the closed segments are sent. `None` if there is none.
    pub fn next_in(&self, auto: u8, at: Position) -> Option<Position>
        ensures next { (r : EntryReads) → StandsFor r self.now → r.p.auto ≡ auto → IsNext r.p (shape_of r.p r.object) at result }
        ensures id { MatchOption result ⊤ (λ next. next.symbol < 255) }
    {
        match self {
            HeldEntry::Object(held) => held.next_in(auto, at),
            HeldEntry::Stream(stream) => next_segment(stream, auto, at),
        }
    }

    /// The first kept symbol of the entry with this index that is sent by itself, as by [`next_in`](HeldEntry::next_in). `None` if there is
    /// none.
    pub fn first_in(&self, auto: u8, index: u32) -> Option<Position>
        ensures next { (r : EntryReads) → StandsFor r self.now → r.p.auto ≡ auto
            → IsNext r.p (shape_of r.p r.object) (position index (first_of self.now) 0) result }
        ensures id { MatchOption result ⊤ (λ next. next.symbol < 255) }
    {
        match self {
            HeldEntry::Object(held) => {
                let at = Position {
                    index,
                    block: 0,
                    symbol: 0,
                };
                held.next_in(auto, at)
            }
            HeldEntry::Stream(stream) => first_segment(stream, auto, index),
        }
    }

    /// Appends a symbol, and returns how many octets it has. `None` if its block is gone, or if there is no such encoded symbol; then
    /// nothing is appended.
    pub fn symbol(&self, ring: &Ring, block: u32, symbol: u8, out: &mut Datagram) -> Option<u16>
        requires lies { Lies ring.now self.now }
        requires room { length out.old + symbol_room ≤ datagram_room }
        ensures { (r : EntryReads) → StandsFor r self.now → r.ring ≡ ring.now
            → AnswersKept r.p r.object (first_of self.now) block symbol out.old out.new result }
    {
        match self {
            HeldEntry::Object(held) => held.symbol(ring, block, symbol, out),
            HeldEntry::Stream(stream) => stream_symbol(stream, block, symbol, out),
        }
    }

    /// Marks an encoded symbol of a kept block as sent. For parity nothing changes.
    pub fn note_sent(&mut self, block: u32, symbol: u8)
        requires { IsKept self.old block }
        ensures stays { Stays self.old self.new }
        ensures first { first_of self.new ≡ first_of self.old }
        ensures noted { (r : EntryReads) → StandsFor r self.old → nat_lt symbol (encoded_in (shape_of r.p r.object) block) ≡ true
            → StandsFor (record r { sent = with_member position_before (position r.index block symbol) r.sent }) self.new }
    {
        match self {
            HeldEntry::Object(held) => held.note_sent(block, symbol),
            HeldEntry::Stream(stream) => stream.note_sent(block, symbol),
        }
    }

    /// Marks the info as sent. For a stream nothing changes.
    pub fn note_info(&mut self)
        ensures stays { Stays self.old self.new }
        ensures first { first_of self.new ≡ first_of self.old }
        ensures noted { (r : EntryReads) → StandsFor r self.old
            → StandsFor (record r { infos = with_member nat_lt r.index r.infos }) self.new }
    {
        match self {
            HeldEntry::Object(held) => held.note_info(),
            HeldEntry::Stream(_) => (),
        }
    }
}
