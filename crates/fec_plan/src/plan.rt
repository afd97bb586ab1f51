//! How an object or a stream is cut into symbols and blocks (RFC 5052 section 9.1). Make a [`Plan`] with `of` or `stream`, then ask it for
//! sizes.

ghost use Rattle.std.specs.Prelude.{◌≡◌, ◌^◌, ◌<◌, None, Some, MatchResult, ◌≤◌};
ghost use Rattle.fec_plan.specs.Partition.{IsSound, most_blocks, cut_of, stream_cut, first_fault, first_shape_fault, symbols_in, blocks_in, large_block, small_block, larger_blocks, block_size, symbols_before, blocks, source_symbols, encoding_symbols, symbol_number, sent_octets};

use std::marker::Model;
use thiserror::Error;

/// The most blocks that an object or a stream can have: 24 bits number them.
// RFC 5510 section 5.1: a payload id has 24 bits for the block. An object that needs more blocks is refused with `TooManyBlocks`.
pub const MOST_BLOCKS: u32 = 16_777_216;

/// The greatest number of a block of an object or a stream. The first has 0.
// A span up to it reaches the end of any object.
pub const LAST_BLOCK: u32 = MOST_BLOCKS - 1;

/// The shortest symbol, in octets.
// Our own choice: with less, about half of a datagram or more would be headers (32 octets of NORM, 28 of UDP and IP). A plan with less is refused.
pub const LEAST_SYMBOL: u16 = 64;

/// The longest symbol, in octets.
// Our own choice: with its headers and a segment's place a datagram then has 1,468 octets on the wire, and fits an Ethernet frame of 1,500.
pub const MOST_SYMBOL: u16 = 1400;

/// The most source symbols of a block.
// Our own choice: a block has at most 255 encoded symbols (RFC 5510 section 8), so 55 are left for parity. A greater `b` is refused.
pub const MOST_SOURCES: u8 = 200;

/// The octets of the header before a stream segment in its symbol: length, start of a message, and offset.
// RFC 5740 section 4.2.1: 16 bits of length, 16 of where a message starts, 32 of offset.
pub const PLACE_OCTETS: u16 = 8;

/// `PLACE_OCTETS` as a `usize`, to index octets.
pub const PLACE: usize = PLACE_OCTETS as usize;

/// Why [`Plan::of`] or [`Plan::stream`] refuses. If several faults apply, the first in this order is reported.
#[derive(Clone, Copy, Debug, PartialEq, Eq, Error)]
pub enum PlanFault {
    #[error("an object of no octets")]
    ZeroLength,
    #[error("a symbol length of {e} is outside 64 to 1400")]
    BadSymbol { e: u16 },
    #[error("a block length of {b} is outside 1 to 200")]
    BadBlock { b: u8 },
    #[error("{max_n} encoding symbols for {b} source symbols")]
    BadMaxN { b: u8, max_n: u8 },
    #[error("{blocks} blocks are above 16777216")]
    TooManyBlocks { blocks: u64 },
}

/// How an object of `l` octets, or a stream, is cut into symbols of `e` octets and blocks of at most `b` source symbols. A block of `b` has
/// `max_n` encoding symbols, a shorter one proportionally fewer, rounded down.
// Only a sound cut is ever made. An `e` or a `b` of 0 would divide by 0 as blocks are counted, and an `l` of 0 as their sizes are computed.
#[derive(Clone, Copy, Debug, PartialEq, Eq)]
pub struct Plan {
    l: Option<u64>,
    e: u16,
    b: u8,
    max_n: u8,
}

impl Model for Plan {
    ghost use Rattle.fec_plan.specs.Partition.{Cut, IsSound};

    ghost Value = { Cut };

    ghost view = { λ p. record { l = p.l; e = p.e; b = p.b; max_n = p.max_n } };

    ghost invariant = { λ p. IsSound (record { l = p.l; e = p.e; b = p.b; max_n = p.max_n }) };

    ghost inverse = { λ c. record { l = c.l; e = c.e; b = c.b; max_n = c.max_n } };
}

/// Checks what objects and streams have in common.
///
/// # Errors
///
/// The first fault in the order of `PlanFault`.
fn check_shape(e: u16, b: u8, max_n: u8) -> Result<(), PlanFault>
    ensures { MatchResult result (λ _. first_shape_fault e b max_n ≡ None) (λ fault. first_shape_fault e b max_n ≡ Some fault) }
{
    if e < LEAST_SYMBOL || e > MOST_SYMBOL {
        return Err(PlanFault::BadSymbol { e });
    }
    if b < 1 || b > MOST_SOURCES {
        return Err(PlanFault::BadBlock { b });
    }
    if max_n < b {
        return Err(PlanFault::BadMaxN { b, max_n });
    }
    Ok(())
}

fn blocks_of(l: u64, e: u16, b: u8) -> u64
    requires symbol { 0 < e }
    requires block { 0 < b }
    ensures { result ≡ blocks_in (symbols_in l e) b }
{
    l.div_ceil(u64::from(e)).div_ceil(u64::from(b))
}

/// Returns the size of a larger block, in source symbols. `symbols` is the number of the object's source symbols, here and below.
fn large_size(symbols: u64, b: u8) -> u8
    requires some { 0 < symbols }
    requires block { 0 < b }
    ensures exact { result ≡ large_block symbols (blocks_in symbols b) }
    ensures most { result ≤ b }
{
    symbols.div_ceil(symbols.div_ceil(u64::from(b))) as u8
}

/// Returns the size of a smaller block, in source symbols. If all blocks are equal, they are of this size.
fn small_size(symbols: u64, b: u8) -> u8
    requires some { 0 < symbols }
    requires block { 0 < b }
    ensures exact { result ≡ small_block symbols (blocks_in symbols b) }
    ensures most { result ≤ b }
{
    (symbols / symbols.div_ceil(u64::from(b))) as u8
}

/// Returns the number of larger blocks. They are the first ones.
fn larger_count(symbols: u64, b: u8) -> u64
    requires some { 0 < symbols }
    requires block { 0 < b }
    ensures { result ≡ larger_blocks symbols (blocks_in symbols b) }
{
    let blocks = symbols.div_ceil(u64::from(b));
    symbols - symbols / blocks * blocks
}

/// Returns the size of a block, in source symbols. A number after the last block gives a smaller block's.
fn size_of_block(symbols: u64, b: u8, block: u32) -> u8
    requires some { 0 < symbols }
    requires block { 0 < b }
    ensures exact { result ≡ block_size symbols (blocks_in symbols b) block }
    ensures most { result ≤ b }
{
    if u64::from(block) < larger_count(symbols, b) {
        large_size(symbols, b)
    } else {
        small_size(symbols, b)
    }
}

/// Returns the number of source symbols in all blocks before `block`, which is not checked. Needs no walk over them.
fn count_before(symbols: u64, b: u8, block: u32) -> u64
    requires some { 0 < symbols }
    requires block { 0 < b }
    ensures exact { result ≡ symbols_before symbols (blocks_in symbols b) block }
    ensures most { result < 2 ^ 42 }
{
    let larger = larger_count(symbols, b);
    let first = u64::from(block).min(larger);
    let last = u64::from(block).saturating_sub(larger);
    let in_first = first * u64::from(large_size(symbols, b));
    let in_last = last * u64::from(small_size(symbols, b));
    in_first + in_last
}

impl Plan {
    /// Returns the plan of an object of `l` octets.
    ///
    /// # Errors
    ///
    /// The first fault in the order of `PlanFault`.
    pub fn of(l: u64, e: u16, b: u8, max_n: u8) -> Result<Plan, PlanFault>
        requires { l < 2 ^ 48 }
        ensures { let cut = cut_of l e b max_n in
            MatchResult result (λ plan. (first_fault cut ≡ None) × (plan ≡ cut)) (λ fault. first_fault cut ≡ Some fault) }
    {
        if l == 0 {
            return Err(PlanFault::ZeroLength);
        }
        check_shape(e, b, max_n)?;
        let symbols = l.div_ceil(u64::from(e));
        let blocks = symbols.div_ceil(u64::from(b));
        if blocks > u64::from(MOST_BLOCKS) {
            return Err(PlanFault::TooManyBlocks { blocks });
        }
        Ok(Plan {
            l: Some(l),
            e,
            b,
            max_n,
        })
    }

    /// Returns the plan of a stream.
    ///
    /// # Errors
    ///
    /// The first fault in the order of `PlanFault`. `ZeroLength` and `TooManyBlocks` do not occur.
    pub fn stream(e: u16, b: u8, max_n: u8) -> Result<Plan, PlanFault>
        ensures { let cut = stream_cut e b max_n in
            MatchResult result (λ plan. (first_fault cut ≡ None) × (plan ≡ cut)) (λ fault. first_fault cut ≡ Some fault) }
    {
        check_shape(e, b, max_n)?;
        Ok(Plan {
            l: None,
            e,
            b,
            max_n,
        })
    }

    /// Returns `e`, the most octets of a symbol of an object. A symbol of a stream may have `PLACE_OCTETS` more.
    pub fn e(&self) -> u16
        ensures exact { result ≡ self.now.e }
        ensures sound { IsSound self.now }
    {
        self.e
    }

    /// Returns the number of blocks. A stream has 16,777,216 from the beginning.
    pub fn blocks(&self) -> u32
        ensures exact { result ≡ blocks self.now }
        ensures most { result ≤ most_blocks }
        ensures sound { IsSound self.now }
    {
        match self.l {
            // It fits: a plan with more blocks than 24 bits name is not made.
            Some(l) => blocks_of(l, self.e, self.b) as u32,
            None => MOST_BLOCKS,
        }
    }

    /// Returns the number of source symbols of a block. For a stream it is `b`, for any block. `block` is not checked: a number after an object's
    /// last block gives a smaller block's.
    pub fn source_len(&self, block: u32) -> u8
        ensures exact { result ≡ source_symbols self.now block }
        ensures most { result ≤ self.now.b }
        ensures sound { IsSound self.now }
    {
        match self.l {
            Some(l) => {
                let symbols = l.div_ceil(u64::from(self.e));
                size_of_block(symbols, self.b, block)
            }
            None => self.b,
        }
    }

    /// Returns the number of encoding symbols of a block: source symbols and parity. `block` is not checked, as for `source_len`.
    pub fn encoded_len(&self, block: u32) -> u8
        ensures { result ≡ encoding_symbols self.now block }
    {
        let sources = self.source_len(block);
        // A short block has parity in proportion (RFC 5510 section 6.2). In 16 bits, since 200 * 255 does not fit 8.
        (u16::from(sources) * u16::from(self.max_n) / u16::from(self.b)) as u8
    }

    /// Returns a source symbol's number in the whole object or stream, from 0. Whether there is such a symbol is not checked.
    pub fn symbol_number(&self, block: u32, symbol: u8) -> u64
        ensures exact { result ≡ symbol_number self.now block symbol }
        ensures most { result < 2 ^ 43 }
    {
        match self.l {
            Some(l) => {
                let symbols = l.div_ceil(u64::from(self.e));
                count_before(symbols, self.b, block) + u64::from(symbol)
            }
            None => u64::from(block) * u64::from(self.b) + u64::from(symbol),
        }
    }

    /// Returns the length of a symbol as it is sent, in octets. The last source symbol of an object may be shorter than `e`; parity never is. For a
    /// stream it is the most that a symbol can have: the header of a segment and `e` octets. Whether there is such a symbol is not checked.
    pub fn symbol_octets(&self, block: u32, symbol: u8) -> u16
        ensures { result ≡ sent_octets self.now block symbol }
    {
        let Some(l) = self.l else {
            return self.e + PLACE_OCTETS;
        };
        if symbol >= self.source_len(block) {
            return self.e;
        }
        let number = self.symbol_number(block, symbol);
        let left = l.saturating_sub(number * u64::from(self.e));
        u64::from(self.e).min(left) as u16
    }
}
