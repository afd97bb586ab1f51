//! One symbol of an object whose octets lie in two pieces: [`symbol_of`].

ghost use Rattle.std.specs.Prelude.{ℕ, ◌≡◌, ◌+◌, ◌-◌, ◌*◌, ◌%◌, ◌<◌, ◌≤◌, ◌++◌, List, Option, IsSome, length, take, drop, min};
ghost use Rattle.norm_base.specs.Sizes.{datagram_room};
ghost use Rattle.norm_base.specs.Settings.{Settings};
ghost use Rattle.norm_base.specs.declared.kinds.Kind.{Kind as AnyKind};
ghost use Rattle.fec_plan.specs.Partition.{blocks, all_symbols, source_symbols, encoding_symbols, symbol_number, sent_octets};
ghost use Rattle.norm_order.specs.Entries.{Whole};
ghost use Rattle.norm_order.specs.Symbols.{symbol_octets};
ghost use Rattle.obj_buffer.specs.Codes.{IsCodeOf};
ghost use Rattle.obj_buffer.specs.Pieces.{HoldsObject, AppendsSymbol};

use crate::codes::Codes;
use fec_plan::Plan;
use norm_base::{Datagram, SYMBOL_ROOM};
use rs_block::Code;

/// Returns `len` octets from octet `start` on of `front` followed by `back`, as the part in `front` and the part in `back`. Either may be empty.
fn range_of<'a>(front: &'a [u8], back: &'a [u8], start: usize, len: usize) -> (&'a [u8], &'a [u8])
    requires { start + len ≤ length front.now + length back.now }
    ensures octets { result.0.now ++ result.1.now ≡ take len (drop start (front.now ++ back.now)) }
    ensures front_len { length result.0.now ≡ min len (length front.now - start) }
    ensures all { length result.0.now + length result.1.now ≡ len }
{
    let after_front = start.saturating_sub(front.len());
    let front = front.split_at(start.min(front.len())).1;
    let in_front = len.min(front.len());
    (
        &front[..in_front],
        &back[after_front..after_front + (len - in_front)],
    )
}

/// Appends a source symbol without its padding. Only the last one of an object may have less than `e` octets.
fn push_source(plan: &Plan, front: &[u8], back: &[u8], block: u32, symbol: u8, out: &mut Datagram)
    requires object { IsSome plan.now.l }
    requires block { block < blocks plan.now }
    requires symbol { symbol < source_symbols plan.now block }
    requires pieces { length front.now + length back.now ≡ all_symbols plan.now * plan.now.e }
    requires room { length out.old + plan.now.e ≤ datagram_room }
    ensures { let start = symbol_number plan.now block symbol * plan.now.e in
        out.new ≡ out.old ++ take (sent_octets plan.now block symbol) (drop start (front.now ++ back.now)) }
{
    let start = plan.symbol_number(block, symbol) as usize * usize::from(plan.e());
    let len = usize::from(plan.symbol_octets(block, symbol));
    let (first, rest) = range_of(front, back, start, len);
    out.push(first);
    out.push(rest);
}

/// Appends a parity symbol, of `e` octets. It is made of all source symbols of its block, and not kept.
fn push_parity(
    plan: &Plan,
    code: &Code,
    front: &[u8],
    back: &[u8],
    block: u32,
    symbol: u8,
    out: &mut Datagram,
)
    requires object { IsSome plan.now.l }
    requires code { IsCodeOf plan.now block code.now }
    requires block { block < blocks plan.now }
    requires parity { source_symbols plan.now block ≤ symbol }
    requires encoded { symbol < encoding_symbols plan.now block }
    requires pieces { length front.now + length back.now ≡ all_symbols plan.now * plan.now.e }
    requires whole { length front.now % plan.now.e ≡ 0 }
    requires room { length out.old + plan.now.e ≤ datagram_room }
    ensures { let e = plan.now.e in
        let sources = take (code.now.k * e) (drop (symbol_number plan.now block 0 * e) (front.now ++ back.now)) in
        AppendsSymbol code.now e sources symbol out.old out.new }
{
    let e = usize::from(plan.e());
    let start = plan.symbol_number(block, 0) as usize * e;
    let len = usize::from(plan.source_len(block)) * e;
    let (first, rest) = range_of(front, back, start, len);
    // On the stack: a symbol is made while a datagram is written, and a sender cannot report there that memory ran out.
    let mut room = [0; SYMBOL_ROOM];
    let parity = &mut room[..e];
    code.parity_in_two(first, rest, e, symbol, parity);
    out.push(parity);
}

/// Appends a symbol of an object. It has `e` octets, except that the object's last source symbol may have less. Parity is made anew at each call.
/// It takes no memory.
///
/// `front` followed by `back` is the object's octets, padded with zeros to whole symbols. `front` is whole symbols.
// Proof: it holds for every object whose octets the two pieces are. Callers bring that fact, and no ghost value is needed.
pub fn symbol_of(
    plan: &Plan,
    codes: &Codes,
    front: &[u8],
    back: &[u8],
    block: u32,
    symbol: u8,
    out: &mut Datagram,
)
    requires object { IsSome plan.now.l }
    requires codes { codes.now ≡ plan.now }
    requires block { block < blocks plan.now }
    requires symbol { symbol < encoding_symbols plan.now block }
    requires pieces { length front.now + length back.now ≡ all_symbols plan.now * plan.now.e }
    requires whole { length front.now % plan.now.e ≡ 0 }
    requires room { length out.old + plan.now.e ≤ datagram_room }
    ensures { (p : Settings) (kind : AnyKind) (info : Option (List ℕ)) (octets : List ℕ)
        → HoldsObject plan.now (front.now ++ back.now) p octets
        → out.new ≡ out.old ++ symbol_octets p (Whole kind info octets) block symbol }
{
    if symbol < plan.source_len(block) {
        push_source(plan, front, back, block, symbol, out);
    } else {
        push_parity(plan, codes.code(block), front, back, block, symbol, out);
    }
}
