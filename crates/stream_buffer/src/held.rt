//! A stream of the window, open or closed. It knows which of its segments were sent, and decides which blocks go for room.

ghost use Rattle.std.specs.Prelude.{ℕ, true, ◌≡◌, ◌<◌, ◌≤◌, ◌+◌, ◌-◌, ◌*◌, ◌++◌, List, [], ◌∷◌, IfOk, OnErr, OnOk, length, nat_lt, max, not, false, None};
ghost use Rattle.std.specs.List.{list_all, range_with_len};
ghost use Rattle.norm_base.specs.Sizes.{datagram_room};
ghost use Rattle.norm_base.specs.declared.kinds.Mode.TheVariants.{Hold, Drop as Dropping};
ghost use Rattle.norm_base.specs.Settings.{Settings};
ghost use Rattle.norm_base.specs.declared.node.Origin.{Origin};
ghost use Rattle.fec_plan.specs.Partition.{place_octets};
ghost use Rattle.fec_plan.specs.Points.{Position as Place, position, position_before, reached_by};
ghost use Rattle.norm_order.specs.Entries.{Part, Write, End, Stream};
ghost use Rattle.norm_order.specs.Segments.{has_end, written};
ghost use Rattle.norm_order.specs.Sets.{is_member, with_member};
ghost use Rattle.norm_order.specs.Shapes.{shape_of, encoded_in, sources_in, last_in};
ghost use Rattle.norm_send_rules.specs.SenderState.{SenderState};
ghost use Rattle.norm_send_rules.specs.Watermarks.{all_past};
ghost use Rattle.norm_send_rules.specs.Room.{all_sent, block_may_go};
ghost use Rattle.stream_buffer.specs.StreamState.{StandsFor, Answers, closed_segments, with_cut, is_there, octets_of};
ghost use Rattle.stream_buffer.specs.HeldState.{HeldState, Knows, AllSent, run_of};
ghost use Rattle.stream_buffer.specs.Growing.{has_room, Grows};

use crate::marks::Marks;
use crate::stream::StreamBuf;
use fec_plan::{Plan, Position, reached_by};
use norm_base::{Datagram, Memory, Mode, Profile};
use norm_send_rules::StreamFault;
use std::alloc::Global;
use std::marker::Model;

/// A stream of the window.
///
/// Call [`write`](HeldStream::write) and [`cut`](HeldStream::cut) in any order until [`close`](HeldStream::close) succeeds. Call
/// [`note_sent`](HeldStream::note_sent) after each symbol that was sent. The other calls may come at any time. [`new`](HeldStream::new) takes all
/// the memory.
// Beside the buffer and not in it, since it decides itself which blocks go for room. The window says where the stream stands, what all
// members are listed past, and whether the entries before it may go.
#[derive(Debug, Drop)]
pub struct HeldStream {
    buffer: StreamBuf,
    /// For each closed segment from the first kept block on, whether it was sent.
    marks: Marks,
    /// How many segments a block has, as in the buffer.
    b: u8,
}

impl Model for HeldStream {
    ghost use Rattle.stream_buffer.specs.HeldState.{HeldState};
    ghost use Rattle.stream_buffer.specs.HeldSound.{held_view, HeldSound};

    ghost Value = { HeldState };

    ghost view = { held_view };

    ghost invariant = { HeldSound };
}

/// Whether every member is listed past `last`, or the mode does not ask for that: only hold mode does.
fn is_released(profile: &Profile, past: &Option<Position>, last: Position) -> bool
    ensures { result ≡ (elim profile.now.mode [ Hold ↦ reached_by past.now last | Dropping ↦ true ]) }
{
    match profile.mode {
        Mode::Drop => true,
        Mode::Hold => reached_by(*past, &last),
    }
}

impl HeldStream {
    /// Returns a stream to which nothing was written, with room for the profile's `blocks` blocks of segments and their marks.
    ///
    /// # Errors
    ///
    /// `Memory` if memory runs out.
    pub fn new(alloc: Global, profile: &Profile) -> Result<HeldStream, Memory>
        ensures { IfOk result (λ stream. (index : ℕ) (sent : List Place)
            → ((at : Place) → is_member position_before at sent ≡ true → at.index ≡ index → ⊥) → Knows profile.now index [] sent stream) }
    {
        let buffer = StreamBuf::new(alloc, profile)?;
        let room = usize::from(profile.blocks) * usize::from(profile.b);
        let marks = Marks::new(alloc, room)?;
        Ok(HeldStream {
            buffer,
            marks,
            b: profile.b,
        })
    }

    /// How the stream is cut into blocks. It never changes: the plan of a stream has no length.
    pub fn plan(&self) -> Plan
        ensures exact { result ≡ self.now.buffer.cut }
        ensures stream { self.now.buffer.cut.l ≡ None }
    {
        self.buffer.plan()
    }

    /// The first block that was not given up. Only [`write`](HeldStream::write) and [`close`](HeldStream::close) raise it.
    pub fn first_block(&self) -> u32
        ensures { result ≡ self.now.buffer.first }
    {
        self.buffer.first_block()
    }

    /// How many segments were closed, given up or not: the number of the next one.
    pub fn segments(&self) -> u32
        ensures exact { result ≡ closed_segments self.now.buffer }
        ensures few { result ≤ 16777216 * self.now.buffer.cut.b }
    {
        self.buffer.segments()
    }

    /// Does nothing. Its contract says that the segments that were not given up have room, and that 24 bits number the blocks of all.
    pub fn fits(&self)
        ensures room { closed_segments self.now.buffer ≤ (self.now.buffer.first + self.now.buffer.blocks) * self.now.buffer.cut.b }
        ensures few { closed_segments self.now.buffer ≤ 16777216 * self.now.buffer.cut.b }
        ensures first { self.now.buffer.first ≤ 16777216 }
    {
        let _kept = self.buffer.kept();
        let _closed = self.buffer.segments();
    }

    /// Whether [`close`](HeldStream::close) succeeded. Nothing is written after that.
    pub fn is_ended(&self) -> bool
        ensures { result ≡ self.now.buffer.ended }
    {
        self.buffer.is_ended()
    }

    /// Appends a symbol if it is there, and returns whether it is. A segment is there if it is closed and its block was not given up. Parity is there
    /// if all segments of its block are. Takes no memory.
    pub fn symbol(&self, block: u32, symbol: u8, out: &mut Datagram) -> bool
        requires symbol { symbol < self.now.buffer.cut.max_n }
        requires room { length out.old + self.now.buffer.cut.e + place_octets ≤ datagram_room }
        ensures { (p : Settings) (parts : List Part) → StandsFor p parts self.now.buffer
            → (result ≡ is_there p parts self.now.buffer.first block symbol) × (out.new ≡ out.old ++ octets_of p parts self.now.buffer.first block symbol) }
    {
        self.buffer.symbol(block, symbol, out)
    }

    /// Writes octets. Blocks below `may_go`, whose segments were all sent, may be given up for room.
    fn put(&mut self, bytes: &[u8], may_go: u32) -> Result<u32, StreamFault>
        requires some { 1 ≤ length bytes.now }
        requires closed { may_go * self.old.buffer.cut.b ≤ closed_segments self.old.buffer }
        requires sent { (may_go - self.old.buffer.first) * self.old.buffer.cut.b ≤ run_of self.old.sent }
        ensures answer { (p : Settings) (parts : List Part) (by : Origin) → StandsFor p parts self.old.buffer
            → Answers p parts (Write by bytes.now ∷ []) may_go self.old.buffer.octets self.old.buffer self.new.buffer result }
        ensures knows { OnOk result ((p : Settings) (index : ℕ) (parts : List Part) (by : Origin) (sent : List Place) → Knows p index parts sent self.old
            → AllSent p index sent may_go → Knows p index (parts ++ Write by bytes.now ∷ []) sent self.new) }
        ensures refused { OnErr result (self.new ≡ self.old) }
    {
        let first = self.buffer.first_block();
        match self.buffer.write(bytes, may_go) {
            Err(fault) => Err(fault),
            Ok(offset) => {
                let gone = (self.buffer.first_block() - first) as usize * usize::from(self.b);
                let kept = self.buffer.kept();
                self.marks.follow(gone, kept);
                Ok(offset)
            }
        }
    }

    /// Closes the segment that fills, if it holds octets. Takes no room, and so cannot fail.
    pub fn cut(&mut self)
        ensures knows { (p : Settings) (index : ℕ) (parts : List Part) (sent : List Place) → Knows p index parts sent self.old
            → Knows p index (with_cut p.e parts) sent self.new }
        ensures first { self.new.buffer.first ≡ self.old.buffer.first }
    {
        self.buffer.cut();
        let kept = self.buffer.kept();
        self.marks.follow(0, kept);
    }

    /// Ends the stream. Blocks below `may_go`, whose segments were all sent, may be given up for room.
    fn end(&mut self, may_go: u32) -> Result<(), StreamFault>
        requires closed { may_go * self.old.buffer.cut.b ≤ closed_segments self.old.buffer }
        requires sent { (may_go - self.old.buffer.first) * self.old.buffer.cut.b ≤ run_of self.old.sent }
        ensures answer { (p : Settings) (parts : List Part) → StandsFor p parts self.old.buffer
            → Answers p parts (End ∷ []) may_go tt self.old.buffer self.new.buffer result }
        ensures knows { OnOk result ((p : Settings) (index : ℕ) (parts : List Part) (sent : List Place) → Knows p index parts sent self.old
            → AllSent p index sent may_go → Knows p index (parts ++ End ∷ []) sent self.new) }
        ensures refused { OnErr result (self.new ≡ self.old) }
    {
        let first = self.buffer.first_block();
        match self.buffer.close(may_go) {
            Err(fault) => Err(fault),
            Ok(()) => {
                let gone = (self.buffer.first_block() - first) as usize * usize::from(self.b);
                let kept = self.buffer.kept();
                self.marks.follow(gone, kept);
                Ok(())
            }
        }
    }

    /// Marks an encoded symbol of a kept block as sent. Parity has no mark: for it, nothing changes.
    pub fn note_sent(&mut self, block: u32, symbol: u8)
        requires { self.old.buffer.first ≤ block }
        ensures first { self.new.buffer.first ≡ self.old.buffer.first }
        ensures knows { (p : Settings) (index : ℕ) (parts : List Part) (sent : List Place) → Knows p index parts sent self.old
            → nat_lt symbol (encoded_in (shape_of p (Stream parts)) block) ≡ true
            → Knows p index parts (with_member position_before (position index block symbol) sent) self.new }
    {
        if symbol >= self.b {
            return;
        }
        let first = self.buffer.first_block();
        let place = (block - first) as usize * usize::from(self.b) + usize::from(symbol);
        if place >= self.marks.len() {
            return;
        }
        self.marks.note(place);
    }

    /// Whether all kept blocks before `to`, at least one, may go: all their segments are closed and were sent, and in hold mode every member is listed
    /// past them. `index` is the stream's, and `past` the least position that members are listed past. Looks at all of them at once: how many segments
    /// were sent in a row, and whether every member is listed past the last one.
    fn front_may_go(&self, profile: &Profile, index: u32, past: &Option<Position>, to: u32) -> bool
        requires { self.now.buffer.first < to }
        ensures exact { (s : SenderState) (parts : List Part) → Knows profile.now index parts s.sent self.now
            → ((at : Place) → all_past s at ≡ reached_by past.now at)
            → result ≡ list_all (block_may_go profile.now s index (shape_of profile.now (Stream parts))) (range_with_len self.now.buffer.first (to - self.now.buffer.first)) }
        ensures run { result ≡ true → (to - self.now.buffer.first) * self.now.buffer.cut.b ≤ run_of self.now.sent }
        ensures closed { result ≡ true → to * self.now.buffer.cut.b ≤ closed_segments self.now.buffer }
    {
        let blocks = to - self.buffer.first_block();
        if !self.marks.are_sent(blocks as usize * usize::from(self.b)) {
            return false;
        }
        // Proof: how many segments can be closed is known of each buffer that was asked, and so that 24 bits number the last block.
        let _closed = self.buffer.segments();
        // Positions rise within a stream, so a member that is past the last segment is past all of them.
        let last = Position {
            index,
            block: to - 1,
            symbol: self.b - 1,
        };
        is_released(profile, past, last)
    }

    /// Returns `least` if the blocks before it have to go for room and may go. Returns 0 otherwise: no block may be given up. `before` says whether
    /// all entries before the stream may go.
    fn may_go(
        &self,
        profile: &Profile,
        index: u32,
        past: &Option<Position>,
        before: bool,
        least: u32,
    ) -> u32
        ensures exact { (s : SenderState) (parts : List Part) → Knows profile.now index parts s.sent self.now
            → ((at : Place) → all_past s at ≡ reached_by past.now at)
            → nat_lt (max self.now.buffer.first result) least ≡ not (has_room profile.now s index parts self.now.buffer.first before least) }
        ensures closed { result * self.now.buffer.cut.b ≤ closed_segments self.now.buffer }
        ensures run { (result - self.now.buffer.first) * self.now.buffer.cut.b ≤ run_of self.now.sent }
        ensures sent { (s : SenderState) (parts : List Part) → Knows profile.now index parts s.sent self.now
            → ((at : Place) → all_past s at ≡ reached_by past.now at) → AllSent profile.now index s.sent result }
    {
        // 0 lets no block go. The drop point moves in the order, so nothing of a stream may go before the entries before it.
        if !before {
            return 0;
        }
        if least <= self.buffer.first_block() {
            return 0;
        }
        if !self.front_may_go(profile, index, past, least) {
            return 0;
        }
        least
    }

    /// Writes octets, at least one, to the stream with this index. Returns the offset of the first octet. If there is no room, blocks go for it,
    /// oldest first and no more than needed, if they may go and all entries before the stream may (`before`). Takes no memory.
    ///
    /// # Errors
    ///
    /// - `Closed` after [`close`](HeldStream::close).
    /// - `Spent` if the stream would have more octets than 32 bits count, or more segments than 2^24 blocks.
    /// - `Full` if a block would have to go that may not, or any while `before` is false.
    ///
    /// Then nothing changes.
    pub fn write(
        &mut self,
        profile: &Profile,
        index: u32,
        past: &Option<Position>,
        before: bool,
        bytes: &[u8],
    ) -> Result<u32, StreamFault>
        requires { 1 ≤ length bytes.now }
        ensures answer { (s : SenderState) (parts : List Part) (by : Origin) → Knows profile.now index parts s.sent self.old → has_end parts ≡ false
            → ((at : Place) → all_past s at ≡ reached_by past.now at)
            → Grows profile.now s index parts (Write by bytes.now ∷ []) before (length (written parts)) self.old self.new result }
        ensures refused { OnErr result (self.new ≡ self.old) }
    {
        let least = self.buffer.least_for(bytes);
        let may_go = self.may_go(profile, index, past, before, least);
        self.put(bytes, may_go)
    }

    /// Ends the stream with this index: closes the segment that fills, if it holds octets, and adds one without octets. Blocks go for room as in
    /// [`write`](HeldStream::write). Takes no memory.
    ///
    /// # Errors
    ///
    /// As in [`write`](HeldStream::write).
    pub fn close(
        &mut self,
        profile: &Profile,
        index: u32,
        past: &Option<Position>,
        before: bool,
    ) -> Result<(), StreamFault>
        ensures answer { (s : SenderState) (parts : List Part) → Knows profile.now index parts s.sent self.old → has_end parts ≡ false
            → ((at : Place) → all_past s at ≡ reached_by past.now at)
            → Grows profile.now s index parts (End ∷ []) before tt self.old self.new result }
        ensures refused { OnErr result (self.new ≡ self.old) }
    {
        let least = self.buffer.least_for_end();
        let may_go = self.may_go(profile, index, past, before, least);
        self.end(may_go)
    }

    /// Whether all closed segments were sent, given up ones among them. True if none is closed.
    pub fn is_sent(&self) -> bool
        ensures { (p : Settings) (s : SenderState) (index : ℕ) (parts : List Part) → Knows p index parts s.sent self.now
            → result ≡ all_sent s (sources_in index (shape_of p (Stream parts))) }
    {
        self.marks.all_sent()
    }

    /// The position of the last of `segments` segments. `index` is the stream's. `None` if there are none.
    fn last_of(&self, index: u32, segments: u32) -> Option<Position>
        requires { segments ≤ 16777216 * self.now.buffer.cut.b }
        ensures { (p : Settings) (parts more : List Part) → StandsFor p parts self.now.buffer → segments ≡ (shape_of p (Stream more)).closed
            → result ≡ last_in index (shape_of p (Stream more)) }
    {
        if segments == 0 {
            return None;
        }
        let b = u32::from(self.b);
        let last = segments - 1;
        Some(Position {
            index,
            block: last / b,
            symbol: (last % b) as u8,
        })
    }

    /// The position of the last closed segment. `index` is the stream's. `None` if no segment is closed.
    pub fn last(&self, index: u32) -> Option<Position>
        ensures { (p : Settings) (parts : List Part) → StandsFor p parts self.now.buffer → result ≡ last_in index (shape_of p (Stream parts)) }
    {
        self.last_of(index, self.buffer.segments())
    }

    /// The position of the last closed segment after a [`cut`](HeldStream::cut). Cuts nothing. `None` if even then no segment is closed.
    pub fn last_cut(&self, index: u32) -> Option<Position>
        ensures { (p : Settings) (parts : List Part) → StandsFor p parts self.now.buffer
            → result ≡ last_in index (shape_of p (Stream (with_cut p.e parts))) }
    {
        self.last_of(index, self.buffer.segments_cut())
    }
}
