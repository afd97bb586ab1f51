//! The octets of a stream: cuts them into segments, and makes the symbols of those.

ghost use Rattle.std.specs.Prelude.{true, false, None, List, [], ◌∷◌, ◌≡◌, ◌<◌, ◌≤◌, ◌+◌, ◌-◌, ◌*◌, ◌++◌, IfOk, OnErr, OnOk, MatchOption, Ok, Err, length, min, max, slice_get};
ghost use Rattle.std.specs.Int.{div_ceil};
ghost use Rattle.std.specs.List.{concat};
ghost use Rattle.norm_base.specs.Octets.{AreOctets};
ghost use Rattle.obj_buffer.specs.Pieces.{AppendsSymbol};
ghost use Rattle.norm_base.specs.Sizes.{datagram_room};
ghost use Rattle.norm_base.specs.Settings.{Settings};
ghost use Rattle.norm_base.specs.declared.node.Origin.{Origin};
ghost use Rattle.fec_plan.specs.Partition.{place_octets};
ghost use Rattle.norm_order.specs.Entries.{Part, Write, End, Stream};
ghost use Rattle.norm_order.specs.Segments.{has_end};
ghost use Rattle.norm_order.specs.Shapes.{shape_of};
ghost use Rattle.norm_send_rules.specs.Room.{least_kept};
ghost use Rattle.norm_send_rules.specs.Streaming.{used_segments, is_spent};
ghost use Rattle.stream_buffer.specs.StreamState.{StreamState, StandsFor, Answers, empty_stream, kept_from, closed_segments, with_cut, is_there, octets_of, sent_of, block_code, rows_of_block};
ghost use Rattle.stream_buffer.specs.StreamMoves.{with_octets, wrote_here, cut_here, ended_here, closed_here, kept_for, from_block, room_fault};

use crate::rows::Rows;
use fec_plan::{MOST_BLOCKS, PLACE, Plan};
use norm_base::{Datagram, Memory, Profile, SYMBOL_ROOM};
use norm_send_rules::StreamFault;
use rs_block::Code;
use std::alloc::Global;
use std::marker::Model;

/// The octets of a stream: the segments of its last blocks, the one that fills, and the code of its blocks.
///
/// Call [`write`](StreamBuf::write) and [`cut`](StreamBuf::cut) in any order until [`close`](StreamBuf::close) succeeds. A segment has a
/// symbol once it is closed: when it is full, is cut, or is the end. [`new`](StreamBuf::new) takes all the memory.
// The open segment has a symbol buffer too, so a cut never needs room that a write did not ask for.
#[derive(Debug, Drop)]
pub struct StreamBuf {
    code: Code,
    rows: Rows,
    /// How many octets a full segment has, without its header.
    e: u16,
    /// How many segments a block has. They are its source symbols.
    b: u8,
    /// How many encoding symbols a block has, source and parity.
    max_n: u8,
    /// How many blocks the ring has room for. For more, the oldest are given up if they may go.
    blocks: u16,
    /// The first block that was not given up. It never falls.
    first: u32,
    /// How many octets were written, given up or not: the offset of the next one.
    octets: u32,
    ended: bool,
}

// Proof: it is related to a stream's parts, of which it keeps the segments from its first kept block on (StandsFor).
// Proof: each call says what it stands for afterwards.
impl Model for StreamBuf {
    ghost use Rattle.stream_buffer.specs.StreamState.{StreamState};
    ghost use Rattle.stream_buffer.specs.StreamSound.{stream_view, StreamSound};

    ghost Value = { StreamState };

    ghost view = { stream_view };

    ghost invariant = { StreamSound };
}

impl StreamBuf {
    /// Returns a stream to which nothing was written. It has room for the profile's `blocks` blocks of `b` segments.
    ///
    /// # Errors
    ///
    /// `Memory` if memory runs out.
    pub fn new(alloc: Global, profile: &Profile) -> Result<StreamBuf, Memory>
        ensures empty { IfOk result (λ stream. stream ≡ empty_stream profile.now) }
        ensures stands { IfOk result (λ stream. StandsFor profile.now [] stream) }
    {
        let size = usize::from(profile.e) + PLACE;
        let room = usize::from(profile.blocks) * usize::from(profile.b);
        let code = Code::new(alloc, profile.b, profile.max_n)?;
        let rows = Rows::new(alloc, size, room)?;
        Ok(StreamBuf {
            code,
            rows,
            e: profile.e,
            b: profile.b,
            max_n: profile.max_n,
            blocks: profile.blocks,
            first: 0,
            octets: 0,
            ended: false,
        })
    }

    /// How the stream is cut into blocks. It never changes: the plan of a stream has no length.
    pub fn plan(&self) -> Plan
        ensures exact { result ≡ self.now.cut }
        ensures stream { self.now.cut.l ≡ None }
    {
        // It does not fail: a profile's sizes are in the ranges of a plan.
        Plan::stream(self.e, self.b, self.max_n).unwrap()
    }

    /// The first block that was not given up. Only [`write`](StreamBuf::write) and [`close`](StreamBuf::close) raise it.
    pub fn first_block(&self) -> u32
        ensures { result ≡ self.now.first }
    {
        self.first
    }

    /// How many segments were closed, given up or not: the number of the next one.
    pub fn segments(&self) -> u32
        ensures exact { result ≡ closed_segments self.now }
        ensures few { result ≤ 16777216 * self.now.cut.b }
    {
        self.rows.closed() as u32
    }

    /// How many segments would be closed after a [`cut`](StreamBuf::cut). Cuts nothing.
    pub fn segments_cut(&self) -> u32
        ensures exact { (p : Settings) (parts : List Part) → StandsFor p parts self.now → result ≡ (shape_of p (Stream (with_cut p.e parts))).closed }
        ensures few { result ≤ 16777216 * self.now.cut.b }
    {
        let filling = self.rows.filled().min(1);
        (self.rows.closed() + filling) as u32
    }

    /// How many closed segments are kept: those of the first block that was not given up, and all after them.
    pub fn kept(&self) -> usize
        ensures exact { result ≡ length self.now.rows }
        ensures few { result ≤ self.now.blocks * self.now.cut.b }
    {
        self.rows.closed() - self.first as usize * usize::from(self.b)
    }

    /// How many octets were written, given up or not: the offset of the next one.
    // Only tests call it. It stays for programs over this crate: a stream has at most 2^32 - 1 octets, and then a write is `Spent`.
    pub fn octets(&self) -> u32
        ensures { result ≡ self.now.octets }
    {
        self.octets
    }

    /// Whether [`close`](StreamBuf::close) succeeded. Nothing is written after that.
    pub fn is_ended(&self) -> bool
        ensures { result ≡ self.now.ended }
    {
        self.ended
    }

    /// Adds octets to the segment that fills, and closes it if it is full then.
    fn fill(&mut self, piece: &[u8])
        requires free { length self.old.rows < self.old.blocks * self.old.cut.b }
        requires named { closed_segments self.old < 16777216 * self.old.cut.b }
        requires fits { length self.old.filling + length piece.now ≤ self.old.cut.e }
        requires few { self.old.octets + length piece.now ≤ 4294967295 }
        requires open { self.old.ended ≡ false }
        ensures { self.new ≡ with_octets piece.now self.old }
    {
        self.rows.fill(piece);
        self.octets += piece.len() as u32;
        if self.rows.filled() == usize::from(self.e) {
            self.rows.seal(self.octets - u32::from(self.e));
        }
    }

    /// Writes octets that [`make_room`](StreamBuf::make_room) made room for. Each segment closes as soon as it is full.
    fn pour(&mut self, bytes: &[u8])
        requires free { length self.old.rows + div_ceil (length self.old.filling + length bytes.now) self.old.cut.e ≤ self.old.blocks * self.old.cut.b }
        requires named { closed_segments self.old + div_ceil (length self.old.filling + length bytes.now) self.old.cut.e ≤ 16777216 * self.old.cut.b }
        requires few { self.old.octets + length bytes.now ≤ 4294967295 }
        requires open { self.old.ended ≡ false }
        ensures { self.new ≡ with_octets bytes.now self.old }
    {
        let mut rest = bytes;
        'rest: while !rest.is_empty() {
            let free = usize::from(self.e) - self.rows.filled();
            let (piece, behind) = rest.split_at(free.min(rest.len()));
            self.fill(piece);
            rest = behind;
        }
        // Proof: what is kept is looked at, and with it that it is sound.
        let _ = &self.rows;
    }

    /// Makes room for `used` segments in all, given up ones among them. Gives up blocks below `may_go` for that, no more than needed. `Spent` if 24
    /// bits cannot number the blocks, `Full` if blocks would have to go that may not. Then nothing changes.
    #[tactic(auto, unfolding(norm_order::specs::First::first_where))]
    fn make_room(&mut self, used: u64, may_go: u32) -> Result<(), StreamFault>
        requires closed { may_go * self.old.cut.b ≤ closed_segments self.old }
        requires more { closed_segments self.old + min 1 (length self.old.filling) ≤ used }
        ensures { MatchOption (room_fault self.old used may_go)
            ((result ≡ Ok tt) × (self.new ≡ from_block (kept_for self.old used) self.old))
            (λ fault. (result ≡ Err fault) × (self.new ≡ self.old)) }
    {
        let b = u64::from(self.b);
        if used > u64::from(MOST_BLOCKS) * b {
            return Err(StreamFault::Spent {
                octets: self.octets,
            });
        }
        let least = used.div_ceil(b).saturating_sub(u64::from(self.blocks)) as u32;
        if least > self.first.max(may_go) {
            return Err(StreamFault::Full { first: self.first });
        }
        self.first = self.first.max(least);
        self.rows.give_up(self.first as usize * usize::from(self.b));
        Ok(())
    }

    /// The blocks before this one have to go if `used` segments are to have room. 0 if none has to, and also if 24 bits cannot number their
    /// blocks: [`make_room`](StreamBuf::make_room) refuses those.
    fn least(&self, used: u64) -> u32
        ensures { used ≤ 16777216 * self.now.cut.b → result ≡ div_ceil used self.now.cut.b - self.now.blocks }
    {
        let b = u64::from(self.b);
        if used > u64::from(MOST_BLOCKS) * b {
            return 0;
        }
        used.div_ceil(b).saturating_sub(u64::from(self.blocks)) as u32
    }

    /// The blocks before this one have to go if these octets are to have room. Of an ended stream, or one that cannot have them, it says
    /// nothing: [`write`](StreamBuf::write) refuses them then.
    pub fn least_for(&self, bytes: &[u8]) -> u32
        ensures { (p : Settings) (parts : List Part) (by : Origin) → StandsFor p parts self.now → has_end parts ≡ false
            → is_spent p (parts ++ Write by bytes.now ∷ []) ≡ false → result ≡ least_kept p (used_segments p (parts ++ Write by bytes.now ∷ [])) }
    {
        let segments = (self.rows.filled() + bytes.len()).div_ceil(usize::from(self.e));
        let used = (self.rows.closed() + segments) as u64;
        self.least(used)
    }

    /// The blocks before this one have to go if the end is to have room. Of an ended stream, or one that cannot have it, it says nothing:
    /// [`close`](StreamBuf::close) refuses then.
    pub fn least_for_end(&self) -> u32
        ensures { (p : Settings) (parts : List Part) → StandsFor p parts self.now → has_end parts ≡ false
            → is_spent p (parts ++ End ∷ []) ≡ false → result ≡ least_kept p (used_segments p (parts ++ End ∷ [])) }
    {
        let filling = self.rows.filled().min(1);
        let used = (self.rows.closed() + filling + 1) as u64;
        self.least(used)
    }

    /// Writes octets, at least one, and returns the offset of the first. Blocks below `may_go`, whose segments are all closed, may be given up for
    /// room, oldest first and no more than needed. Takes no memory.
    ///
    /// # Errors
    ///
    /// - `Closed` after [`close`](StreamBuf::close).
    /// - `Spent` if the stream would have more octets than 32 bits count, or more segments than 2^24 blocks.
    /// - `Full` if there is no room, even if every block below `may_go` goes.
    ///
    /// Then nothing changes.
    pub fn write(&mut self, bytes: &[u8], may_go: u32) -> Result<u32, StreamFault>
        requires some { 1 ≤ length bytes.now }
        requires closed { may_go * self.old.cut.b ≤ closed_segments self.old }
        ensures answer { (p : Settings) (parts : List Part) (by : Origin) → StandsFor p parts self.old
            → Answers p parts (Write by bytes.now ∷ []) may_go self.old.octets self.old self.new result }
        ensures exact { OnOk result (self.new ≡ wrote_here bytes.now self.old) }
        ensures kept { OnOk result (kept_from self.new ≤ closed_segments self.old) }
        ensures first { OnOk result (self.new.first ≤ max self.old.first may_go) }
        ensures refused { OnErr result (self.new ≡ self.old) }
    {
        if self.ended {
            return Err(StreamFault::Closed);
        }
        let offset = self.octets;
        // payload_offset has 32 bits (RFC 5740 section 4.2.1).
        if bytes.len() as u64 > u64::from(u32::MAX - offset) {
            return Err(StreamFault::Spent { octets: offset });
        }
        // A segment that is not full takes room too: a cut may not fail, so the write asks room for it.
        let segments = (self.rows.filled() + bytes.len()).div_ceil(usize::from(self.e));
        let used = (self.rows.closed() + segments) as u64;
        match self.make_room(used, may_go) {
            Err(fault) => Err(fault),
            Ok(()) => {
                self.pour(bytes);
                Ok(offset)
            }
        }
    }

    /// Closes the segment that fills, if it holds octets. Takes no room, and so cannot fail.
    pub fn cut(&mut self)
        ensures cut { (p : Settings) (parts : List Part) → StandsFor p parts self.old → StandsFor p (with_cut p.e parts) self.new }
        ensures first { self.new.first ≡ self.old.first }
        ensures exact { self.new ≡ cut_here self.old }
    {
        let filled = self.rows.filled();
        // It needs no room: the write that began the segment asked for it.
        if filled > 0 {
            self.rows.seal(self.octets - filled as u32);
        }
    }

    /// Ends the stream: closes the segment that fills, if it holds octets, and adds one without octets. There has to be room.
    fn end(&mut self)
        requires short { length self.old.filling < self.old.cut.e }
        requires counted { length self.old.filling ≤ self.old.octets }
        requires free { length self.old.rows + min 1 (length self.old.filling) + 1 ≤ self.old.blocks * self.old.cut.b }
        requires named { closed_segments self.old + min 1 (length self.old.filling) + 1 ≤ 16777216 * self.old.cut.b }
        ensures { self.new ≡ ended_here self.old }
    {
        self.cut();
        self.rows.seal(self.octets);
        self.ended = true;
    }

    /// Ends the stream: closes the segment that fills, if it holds octets, and adds one without octets. `may_go` is as in
    /// [`write`](StreamBuf::write). Takes no memory.
    ///
    /// # Errors
    ///
    /// As in [`write`](StreamBuf::write).
    pub fn close(&mut self, may_go: u32) -> Result<(), StreamFault>
        requires closed { may_go * self.old.cut.b ≤ closed_segments self.old }
        ensures answer { (p : Settings) (parts : List Part) → StandsFor p parts self.old
            → Answers p parts (End ∷ []) may_go tt self.old self.new result }
        ensures exact { OnOk result (self.new ≡ closed_here self.old) }
        ensures kept { OnOk result (kept_from self.new ≤ closed_segments self.old) }
        ensures first { OnOk result (self.new.first ≤ max self.old.first may_go) }
        ensures refused { OnErr result (self.new ≡ self.old) }
    {
        if self.ended {
            return Err(StreamFault::Closed);
        }
        let filling = self.rows.filled().min(1);
        let used = (self.rows.closed() + filling + 1) as u64;
        match self.make_room(used, may_go) {
            Err(fault) => Err(fault),
            Ok(()) => {
                self.end();
                Ok(())
            }
        }
    }

    /// Appends a source symbol: the header and the octets of a segment, without the zeros after them.
    fn push_segment(&self, number: usize, out: &mut Datagram)
        requires from { kept_from self.now ≤ number }
        requires to { number < closed_segments self.now }
        requires room { length out.old + self.now.cut.e + place_octets ≤ datagram_room }
        ensures { MatchOption (slice_get self.now.rows (number - kept_from self.now)) ⊥ (λ row. out.new ≡ out.old ++ sent_of row) }
    {
        let row = self.rows.row(number);
        let len = PLACE + usize::from(u16::from_be_bytes([row[0], row[1]]));
        // The lesser of the two is always `len`: `seal` wrote the segment's length into the header, and a segment has at most the octets that the
        // symbol buffer has after its header.
        out.push(row.split_at(len.min(row.len())).0);
    }

    /// Appends a parity symbol. Each call makes it anew, of all symbol buffers of the block.
    fn push_parity(&self, block: u32, symbol: u8, out: &mut Datagram)
        requires from { self.now.first ≤ block }
        requires to { block * self.now.cut.b + self.now.cut.b ≤ closed_segments self.now }
        requires parity { self.now.cut.b ≤ symbol }
        requires encoded { symbol < self.now.cut.max_n }
        requires room { length out.old + self.now.cut.e + place_octets ≤ datagram_room }
        ensures symbol { AppendsSymbol (block_code self.now) (self.now.cut.e + place_octets) (concat (rows_of_block self.now block)) symbol out.old out.new }
        ensures octets { AreOctets (concat (rows_of_block self.now block)) }
    {
        let b = usize::from(self.b);
        let size = usize::from(self.e) + PLACE;
        let sources = self.rows.run(block as usize * b, b);
        // On the stack: parity is made while a datagram is written, and a sender cannot report there that memory ran out.
        let mut room = [0; SYMBOL_ROOM];
        let parity = &mut room[..size];
        self.code.parity(sources, size, symbol, parity);
        out.push(parity);
    }

    /// Appends a symbol if it is there, and returns whether it is. A segment is there if it is closed and its block was not given up. Parity is there
    /// if all segments of its block are; each call makes it anew. Takes no memory.
    pub fn symbol(&self, block: u32, symbol: u8, out: &mut Datagram) -> bool
        requires symbol { symbol < self.now.cut.max_n }
        requires room { length out.old + self.now.cut.e + place_octets ≤ datagram_room }
        ensures { (p : Settings) (parts : List Part) → StandsFor p parts self.now
            → (result ≡ is_there p parts self.now.first block symbol) × (out.new ≡ out.old ++ octets_of p parts self.now.first block symbol) }
    {
        let b = usize::from(self.b);
        let number = block as usize * b;
        if block < self.first {
            return false;
        }
        if symbol < self.b {
            let number = number + usize::from(symbol);
            if number >= self.rows.closed() {
                return false;
            }
            self.push_segment(number, out);
            return true;
        }
        if number + b > self.rows.closed() {
            return false;
        }
        self.push_parity(block, symbol, out);
        true
    }
}
