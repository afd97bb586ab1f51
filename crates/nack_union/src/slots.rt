//! The slots of an object, by which the sets of a union are numbered: its info first, and then 256 for each block.

ghost use Rattle.std.specs.Prelude.{◌≡◌, ◌<◌};
ghost use Rattle.fec_plan.specs.Partition.{most_blocks};
ghost use Rattle.nack_union.specs.Slots.{slots, symbol_slot, want_at};

use fec_plan::Position;
use norm_send_rules::Want;

/// The number of slots of a block: one for each id that a symbol can have.
// RFC 5510 section 5.1: an id has 8 bits. All ids get a slot, also those past max_n, so that a slot is computed without a plan.
pub const BLOCK: usize = 256;

/// Returns the slot of a symbol. It is above 0, the slot of the info.
pub fn slot_of(block: u32, symbol: u8) -> usize
    ensures slot { result ≡ symbol_slot block symbol }
    ensures named { symbol < 256 }
{
    BLOCK * block as usize + usize::from(symbol) + 1
}

/// Returns what is at a slot of the object with this index: the info at 0, or else a symbol.
pub fn want_of(index: u32, slot: usize) -> Want
    requires { slot < slots most_blocks }
    ensures { result ≡ want_at index slot }
{
    if slot == 0 {
        return Want::Info { index };
    }
    let place = slot - 1;
    Want::Symbol {
        at: Position {
            index,
            block: (place / BLOCK) as u32,
            symbol: (place % BLOCK) as u8,
        },
    }
}
