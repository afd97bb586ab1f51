//! The symbols that a count of lacking symbols asks for (RFC 5740 section 5.4).

ghost use Rattle.std.specs.Prelude.{◌≡◌, ◌+◌, ◌-◌, ◌<◌, ◌≤◌, min, nat_lt, length, map, take, ℕ, slice_index};
ghost use Rattle.std.specs.List.{range_with_len};
ghost use Rattle.fec_plan.specs.Partition.{blocks, source_symbols};
ghost use Rattle.norm_order.specs.Sets.{with_members};
ghost use Rattle.nack_union.specs.Slots.{symbol_slot, slots};
ghost use Rattle.nack_union.specs.Kept.{IsRepairable};
ghost use Rattle.nack_union.specs.Repairs.{shape_closed, fresh_symbols, repair_slots, counted_slots};

use crate::closed::{closed_len, encoded_len};
use crate::slots::slot_of;
use fec_plan::Plan;
use symbol_mask::Mask;

/// Returns how many symbols in `from..to` of a block were never sent.
fn count_fresh(sent: &Mask, block: u32, from: u8, to: u8) -> u8
    requires { symbol_slot block to ≤ sent.now.size }
    ensures { result ≡ length (fresh_symbols sent.now.members block from (to - from)) }
{
    let mut fresh = 0;
    // Proof: the label names the loop for its invariant.
    'symbols: for symbol in from..to {
        if !sent.contains(slot_of(block, symbol)) {
            fresh += 1;
        }
    }
    fresh
}

/// Asks for the first `count` symbols in `from..to` of a block that were never sent, or for all of them if there are fewer.
// Proof: the invariant: to put what is left to ask for into the set as it is gives the same as to put all of it into the set as it was.
fn ask_fresh(asked: &mut Mask, sent: &Mask, block: u32, from: u8, to: u8, count: u8)
    requires asked { symbol_slot block to ≤ asked.old.size }
    requires sent { symbol_slot block to ≤ sent.now.size }
    ensures members { asked.new.members ≡ with_members nat_lt (map (symbol_slot block) (take count (fresh_symbols sent.now.members block from (to - from)))) asked.old.members }
    ensures size { asked.new.size ≡ asked.old.size }
{
    let mut left = count;
    // Proof: the label names the loop for its invariant.
    'symbols: for symbol in from..to {
        let slot = slot_of(block, symbol);
        if left == 0 {
            return;
        }
        if !sent.contains(slot) {
            asked.insert(slot);
            left -= 1;
        }
    }
}

/// Asks for the symbols of a block below `to`, also for those that were sent.
fn ask_below(asked: &mut Mask, block: u32, to: u8)
    requires { symbol_slot block to ≤ asked.old.size }
    ensures members { asked.new.members ≡ with_members nat_lt (map (symbol_slot block) (range_with_len 0 to)) asked.old.members }
    ensures size { asked.new.size ≡ asked.old.size }
{
    // Proof: the label names the loop for its invariant.
    'symbols: for symbol in 0..to {
        asked.insert(slot_of(block, symbol));
    }
}

/// Asks for repairs of a block that lacks `lacking` symbols. More than its number of source symbols are never asked for. `closed` source symbols
/// of the object are closed.
fn ask_repairs(asked: &mut Mask, sent: &Mask, plan: &Plan, closed: u64, block: u32, lacking: u8)
    requires block { block < blocks plan.now }
    requires asked { slots (block + 1) ≤ asked.old.size }
    requires sent { slots (block + 1) ≤ sent.now.size }
    ensures members { asked.new.members ≡ with_members nat_lt (repair_slots (shape_closed plan.now closed) sent.now.members block (min lacking (source_symbols plan.now block))) asked.old.members }
    ensures size { asked.new.size ≡ asked.old.size }
    ensures repairable { IsRepairable plan.now block }
{
    let sources = plan.source_len(block);
    let encoded = encoded_len(plan, closed, block);
    // As many symbols as it has sources decode a block, whatever a NACK claims.
    let count = lacking.min(sources);
    // No receiver has parity that was never sent. Anything else a receiver may have, so if too little is left all sources come again.
    if count <= count_fresh(sent, block, sources, encoded) {
        ask_fresh(asked, sent, block, sources, encoded, count);
    } else {
        ask_below(asked, block, closed_len(plan, closed, block));
    }
}

/// Asks for the repairs that the counts of the first blocks ask for. A count of 0 asks for none. `closed` source symbols of the object are closed.
pub fn ask_counted(asked: &mut Mask, sent: &Mask, plan: &Plan, closed: u64, counts: &[u8])
    requires counts { length counts.now ≤ blocks plan.now }
    requires asked { slots (length counts.now) ≤ asked.old.size }
    requires sent { slots (length counts.now) ≤ sent.now.size }
    ensures members { asked.new.members ≡ with_members nat_lt (counted_slots (shape_closed plan.now closed) sent.now.members 0 counts.now) asked.old.members }
    ensures size { asked.new.size ≡ asked.old.size }
    ensures repairable { (block : ℕ) → 0 < slice_index counts.now block → IsRepairable plan.now block }
{
    let behind = (plan.blocks() as usize).min(counts.len()) as u32;
    // Proof: the label names the loop for its invariant.
    'counted: for block in 0..behind {
        let lacking = counts[block as usize];
        if lacking > 0 {
            ask_repairs(asked, sent, plan, closed, block, lacking);
        }
    }
}
