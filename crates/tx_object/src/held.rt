//! An object of the window: what it is, its offset in the ring, and what of it was sent.

ghost use Rattle.std.specs.Prelude.{ℕ, ◌≡◌, ◌+◌, ◌<◌, ◌≤◌, List, Option, Bool, true, ◌||◌, ◌&&◌, is_none, option_copied, IfOk, Some, ◌*◌, length, MatchOption, ⊤, is_some, replicate, false};
ghost use Rattle.std.specs.List.{list_all};
ghost use Rattle.norm_base.specs.Sizes.{datagram_room};
ghost use Rattle.norm_base.specs.Settings.{Settings};
ghost use Rattle.fec_plan.specs.Partition.{IsSound, all_symbols, blocks, cut_of};
ghost use Rattle.tx_object.specs.Held.{octets_of};
ghost use Rattle.norm_order.specs.Entries.{Whole};
ghost use Rattle.norm_order.specs.Shapes.{last_in};
ghost use Rattle.obj_buffer.specs.Pieces.{HoldsObject};
ghost use Rattle.tx_object.specs.NextIn.{once, IsNextIn};
ghost use Rattle.norm_send_rules.specs.Messages.{object_flags};
ghost use Rattle.tx_object.specs.Held.{HeldObject, begun_at, with_sent, octets_in, LiesIn, AnswersSymbol};

use crate::ring::Ring;
use fec_plan::{Plan, Position};
use norm_base::{Datagram, Kind, Memory, Octets, Profile};
use norm_ext::flags;
use obj_buffer::{CodeTable, Codes, symbol_of};
use std::alloc::Global;
use std::marker::Model;

/// A data object or a file whose octets lie in the window's ring.
///
/// Call [`note_sent`](Held::note_sent) after a symbol was sent, and [`note_info`](Held::note_info) after the info. [`is_sent`](Held::is_sent) then
/// tells whether its source symbols and its info were sent.
// `unsent` is counted because the window asks for it at each object that it wants to drop. It is the number of marks in `sent` that are not set:
// with any other number an object could go before all of it was sent, or never.
#[derive(Debug, Drop)]
pub struct Held {
    plan: Plan,
    codes: Codes,
    kind: Kind,
    info: Option<Octets>,
    /// In octets, without the padding of the last symbol.
    len: u32,
    /// The offset of its first octet in the ring.
    start: usize,
    /// For each source symbol, whether it was sent.
    sent: Vec<bool>,
    /// How many of the marks in `sent` are not set.
    unsent: usize,
    /// The block and the id of the last source symbol.
    last_block: u32,
    last_symbol: u8,
    info_sent: bool,
}

impl Model for Held {
    ghost use Rattle.tx_object.specs.Held.{HeldObject};

    ghost Value = { HeldObject };

    ghost use Rattle.tx_object.specs.HeldSound.{HeldSound};

    ghost view = { λ h. record {
      cut = h.plan;
      kind = h.kind;
      info = h.info;
      start = h.start;
      sent = h.sent.items;
      info_sent = h.info_sent;
    } };

    ghost invariant = { HeldSound };
}

/// How an object of `len` octets is cut into blocks and symbols, 1 to 16,777,216 octets.
pub fn plan_of(profile: &Profile, len: u32) -> Plan
    requires some { 1 ≤ len }
    requires most { len ≤ 16777216 }
    ensures { result ≡ cut_of len profile.now.e profile.now.b profile.now.max_n }
{
    // It does not fail: a profile's sizes are in their ranges, and 16,777,216 octets never need more blocks than 24 bits name.
    Plan::of(u64::from(len), profile.e, profile.b, profile.max_n).unwrap()
}

fn unsent_marks(alloc: Global, count: usize) -> Result<Vec<bool>, Memory>
    ensures { IfOk result (λ marks. marks.items ≡ replicate count false) }
{
    let marks = vec![in alloc; false; count]?;
    Ok(marks)
}

impl Held {
    /// Returns an object of `len` octets, 1 to 16,777,216, that lies in the ring from offset `start` on. Nothing of it was sent. Its codes are those
    /// of the table; one that is not there is made and kept.
    ///
    /// # Errors
    ///
    /// `Memory` if memory runs out. Then the info is gone.
    pub fn new(
        alloc: Global,
        profile: &Profile,
        table: &mut CodeTable,
        kind: Kind,
        info: Option<Octets>,
        len: u32,
        start: usize,
    ) -> Result<Held, Memory>
        requires some { 1 ≤ len }
        requires most { len ≤ 16777216 }
        ensures { IfOk result (λ held. held ≡ begun_at (cut_of len profile.now.e profile.now.b profile.now.max_n) kind info start) }
    {
        let plan = plan_of(profile, len);
        let codes = Codes::of(alloc, table, &plan)?;
        let symbols = len.div_ceil(u32::from(profile.e));
        let sent = unsent_marks(alloc, symbols as usize)?;
        let last_block = plan.blocks() - 1;
        let last_symbol = plan.source_len(last_block) - 1;
        Ok(Held {
            plan,
            codes,
            kind,
            info,
            len,
            start,
            sent,
            unsent: symbols as usize,
            last_block,
            last_symbol,
            info_sent: false,
        })
    }

    /// How the object is cut into blocks and symbols: [`plan_of`] its length. It never changes.
    pub fn plan(&self) -> Plan
        ensures { result ≡ self.now.cut }
    {
        self.plan
    }

    /// The flags that all of its messages have (RFC 5740 section 4.2.1): FILE if it is a file, and INFO if it has info. A repair has others
    /// too.
    pub fn flags(&self) -> u8
        ensures { (octets : List ℕ) → result ≡ object_flags (Whole self.now.kind self.now.info octets) }
    {
        let info = if self.info.is_some() { flags::INFO } else { 0 };
        match self.kind {
            Kind::Data => info,
            Kind::File => flags::FILE + info,
        }
    }

    /// How many symbols of a block are sent by themselves: its source symbols and `auto` parity symbols, or all if it has fewer.
    fn once(&self, auto: u8, block: u32) -> u8
        ensures { result ≡ once auto self.now.cut block }
    {
        let sources = self.plan.source_len(block);
        sources
            .saturating_add(auto)
            .min(self.plan.encoded_len(block))
    }

    /// The first symbol from `at` on that is sent by itself, with `auto` parity symbols of each block: `at` itself, or the next block's first. `None`
    /// if there is none.
    pub fn next_in(&self, auto: u8, at: Position) -> Option<Position>
        ensures next { IsNextIn auto self.now.cut at result }
        ensures id { MatchOption result ⊤ (λ next. next.symbol < 255) }
    {
        if at.block > self.last_block {
            return None;
        }
        if at.symbol < self.once(auto, at.block) {
            return Some(at);
        }
        if at.block == self.last_block {
            return None;
        }
        Some(Position {
            index: at.index,
            block: at.block + 1,
            symbol: 0,
        })
    }

    pub fn has_info(&self) -> bool
        ensures { result ≡ is_some self.now.info }
    {
        self.info.is_some()
    }

    /// How many octets it has, without the padding of its last symbol.
    pub fn len(&self) -> u32
        ensures exact { result ≡ octets_of self.now.cut }
        ensures object { self.now.cut.l ≡ Some result }
    {
        self.len
    }

    /// The offset of its first octet in the ring.
    pub fn start(&self) -> usize
        ensures { result ≡ self.now.start }
    {
        self.start
    }

    /// The position of the last source symbol. `index` is the object's.
    pub fn last(&self, index: u32) -> Position
        ensures { (info : Bool) → last_in index (record { cut = self.now.cut; closed = all_symbols self.now.cut; info = info }) ≡ Some result }
    {
        Position {
            index,
            block: self.last_block,
            symbol: self.last_symbol,
        }
    }

    /// How many octets of the ring it takes, which are those of whole symbols.
    pub fn taken(&self) -> usize
        ensures exact { result ≡ all_symbols self.now.cut * self.now.cut.e }
        ensures sound { IsSound self.now.cut }
    {
        self.sent.len() * usize::from(self.plan.e())
    }

    /// Appends a symbol, and returns how many octets it has. `None` if the object has no such encoded symbol; then nothing is appended. Parity is
    /// made anew at each call, on the stack.
    pub fn symbol(&self, ring: &Ring, block: u32, symbol: u8, out: &mut Datagram) -> Option<u16>
        requires lies { LiesIn ring.now self.now }
        requires room { length out.old + self.now.cut.e ≤ datagram_room }
        ensures { (p : Settings) (octets : List ℕ) → HoldsObject self.now.cut (octets_in ring.now self.now) p octets
            → AnswersSymbol p (Whole self.now.kind self.now.info octets) block symbol out.old out.new result }
    {
        if block >= self.plan.blocks() {
            return None;
        }
        if symbol >= self.plan.encoded_len(block) {
            return None;
        }
        let (front, back) = ring.pieces(self.start, self.taken());
        symbol_of(&self.plan, &self.codes, front, back, block, symbol, out);
        Some(self.plan.symbol_octets(block, symbol))
    }

    /// Marks an encoded symbol as sent. Parity has no mark: for it, nothing changes. Nor does a symbol that is sent again.
    pub fn note_sent(&mut self, block: u32, symbol: u8)
        requires { block < blocks self.old.cut }
        ensures { self.new ≡ with_sent self.old block symbol }
    {
        // Parity is no part of what has to be sent before an object may go.
        if symbol >= self.plan.source_len(block) {
            return;
        }
        let number = self.plan.symbol_number(block, symbol) as usize;
        // A repeated symbol counts once; otherwise `unsent` would fall below what is left.
        if self.sent[number] {
            return;
        }
        self.sent[number] = true;
        self.unsent -= 1;
    }

    /// Marks the info as sent. Without info, no answer depends on it.
    pub fn note_info(&mut self)
        ensures { self.new ≡ record self.old { info_sent = true } }
    {
        self.info_sent = true;
    }

    fn is_info_sent(&self) -> bool
        ensures { result ≡ (is_none self.now.info || self.now.info_sent) }
    {
        self.info.is_none() || self.info_sent
    }

    /// Whether all source symbols were sent. Looks at no mark, because those that are not set are counted.
    fn are_symbols_sent(&self) -> bool
        ensures { result ≡ list_all (λ b. b) self.now.sent }
    {
        self.unsent == 0
    }

    /// Whether all source symbols were sent, and the info if there is one. Parity does not matter.
    pub fn is_sent(&self) -> bool
        ensures { result ≡ ((is_none self.now.info || self.now.info_sent) && list_all (λ b. b) self.now.sent) }
    {
        self.is_info_sent() && self.are_symbols_sent()
    }

    /// Returns the info. That of a file is its name.
    pub fn info(&self) -> Option<&[u8]>
        ensures { option_copied result ≡ self.now.info }
    {
        match &self.info {
            Some(info) => Some(info.bytes()),
            None => None,
        }
    }
}
