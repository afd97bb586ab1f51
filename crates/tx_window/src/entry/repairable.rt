//! Counts how much of an entry may still have to be repaired.

ghost use Rattle.std.specs.Prelude.{◌≡◌, ◌^◌, ◌<◌, List};
ghost use Rattle.std.specs.List.{sum_by, range_with_len};
ghost use Rattle.norm_base.specs.Settings.{Settings};
ghost use Rattle.fec_plan.specs.Partition.{blocks, encoding_symbols};
ghost use Rattle.norm_order.specs.Entries.{Part, Stream};
ghost use Rattle.norm_order.specs.Shapes.{shape_of};
ghost use Rattle.stream_buffer.specs.StreamState.{StandsFor as KeepsStream};
ghost use Rattle.tx_window.specs.EntryState.{EntryReads, IsObject, StandsFor, first_of};
ghost use Rattle.tx_window.specs.EntryRepairable.{repairable_from};

use crate::entry::HeldEntry;
use stream_buffer::HeldStream;
use tx_object::Held;

/// How many encoded symbols an object has. Its larger blocks come first, and all blocks of a size have equally many.
// By sizes and not block by block: an object may have 262,144 blocks.
fn encoded_blocks(held: &Held) -> u64
    ensures exact { result ≡ sum_by (encoding_symbols held.now.cut) (range_with_len 0 (blocks held.now.cut)) }
    ensures most { result < 2 ^ 41 }
{
    let plan = held.plan();
    let blocks = plan.blocks();
    let symbols = held.len().div_ceil(u32::from(plan.e()));
    let larger = symbols % blocks;
    let in_larger = u64::from(larger) * u64::from(plan.encoded_len(0));
    let in_smaller = u64::from(blocks - larger) * u64::from(plan.encoded_len(blocks - 1));
    in_larger + in_smaller
}

/// How many encoded symbols an object has, and one more if it has info.
fn of_object(held: &Held) -> u64
    ensures exact { (r : EntryReads) → IsObject r held.now → result ≡ repairable_from (shape_of r.p r.object) 0 }
    ensures most { result < 2 ^ 42 }
{
    let encoded = encoded_blocks(held);
    if !held.has_info() {
        return encoded;
    }
    encoded + 1
}

/// How many encoded symbols the kept blocks of a stream have. An open block has its closed segments.
fn of_stream(stream: &HeldStream) -> u64
    ensures exact { (p : Settings) (parts : List Part) → KeepsStream p parts stream.now.buffer
        → result ≡ repairable_from (shape_of p (Stream parts)) stream.now.buffer.first }
    ensures most { result < 2 ^ 42 }
{
    let plan = stream.plan();
    let first = stream.first_block();
    let b = u64::from(plan.source_len(first));
    let kept = u64::from(stream.segments()) - u64::from(first) * b;
    kept / b * u64::from(plan.encoded_len(first)) + kept % b
}

impl HeldEntry {
    /// How many infos and encoded symbols the entry has from its first kept block on.
    pub fn repairable(&self) -> u64
        ensures exact { (r : EntryReads) → StandsFor r self.now → result ≡ repairable_from (shape_of r.p r.object) (first_of self.now) }
        ensures most { result < 2 ^ 42 }
    {
        match self {
            HeldEntry::Object(held) => of_object(held),
            HeldEntry::Stream(stream) => of_stream(stream),
        }
    }
}
