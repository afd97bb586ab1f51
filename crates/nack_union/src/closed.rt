//! How many symbols a block has while not all source symbols of its object are closed, as in an open stream.

ghost use Rattle.std.specs.Prelude.{◌≡◌, ◌<◌, ◌≤◌, ℕ, true};
ghost use Rattle.fec_plan.specs.Partition.{all_symbols, blocks, encoding_symbols, most_blocks};
ghost use Rattle.norm_order.specs.Shapes.{closed_in, encoded_in, is_full};
ghost use Rattle.nack_union.specs.Repairs.{shape_closed};

use fec_plan::Plan;

/// Returns how many source symbols an object has. For a stream, this is how many can be numbered.
pub fn all_symbols(plan: &Plan) -> u64
    ensures { result ≡ all_symbols plan.now }
{
    let last = plan.blocks() - 1;
    plan.symbol_number(last, 0) + u64::from(plan.source_len(last))
}

/// Returns a number of first blocks of which all source symbols are closed, if `closed` of the object's are. If blocks differ in length, there may
/// be more such blocks.
pub fn whole_blocks(plan: &Plan, closed: u64) -> u32
    ensures whole { (block : ℕ) → block < result → is_full (shape_closed plan.now closed) block ≡ true }
    ensures few { blocks plan.now ≤ most_blocks }
{
    let blocks = plan.blocks();
    if all_symbols(plan) <= closed {
        return blocks;
    }
    let largest = u64::from(plan.source_len(0));
    (closed / largest).min(u64::from(blocks)) as u32
}

/// Returns how many source symbols of a block are closed, if `closed` of the object's are.
pub fn closed_len(plan: &Plan, closed: u64, block: u32) -> u8
    ensures { result ≡ closed_in (shape_closed plan.now closed) block }
{
    let sources = u64::from(plan.source_len(block));
    let behind = closed.saturating_sub(plan.symbol_number(block, 0));
    sources.min(behind) as u8
}

/// Returns how many encoded symbols a block has. It has parity only if all its source symbols are closed.
pub fn encoded_len(plan: &Plan, closed: u64, block: u32) -> u8
    ensures exact { result ≡ encoded_in (shape_closed plan.now closed) block }
    ensures named { encoding_symbols plan.now block ≤ 255 }
{
    let most = plan.encoded_len(block);
    let len = closed_len(plan, closed, block);
    if len == plan.source_len(block) {
        most
    } else {
        len
    }
}
