//! How far each entry of the order reaches that an id can name. It stays after a drop, so that acknowledgements of the entry can be
//! checked.

ghost use Rattle.std.specs.Prelude.{◌≡◌, ◌+◌, ◌-◌, ◌<◌, ◌≤◌, ◌++◌, [], ◌∷◌, nat_lt, ◌⊎◌, length, drop};
ghost use Rattle.std.specs.VecDeque.{deque_capacity};
ghost use Rattle.norm_order.specs.Shapes.{closed_in};
ghost use Rattle.tx_window.specs.WindowState.{most_kept};
ghost use Rattle.tx_window.specs.Asked.{from_first};
ghost use Rattle.tx_window.specs.Extents.{shape_of_extent, IsSized};
ghost use Rattle.tx_window.specs.declared.extent.Extent.TheVariants.{Object as OfObject, Stream as OfStream};

use norm_base::Profile;
use std::collections::VecDeque;
use tx_object::plan_of;

/// The extents of this many entries are kept, the last ones. No id names an entry before them.
// RFC 5740 section 4.2.1: an id has 16 bits. It names the last index, one of the 32,768 before it, or a later one (`index_named`).
const MOST_KEPT: usize = 32_769;

/// How far an entry reaches: how many octets an object has, or how many segments of a stream are closed.
#[derive(Clone, Copy, Debug, PartialEq, Eq)]
pub enum Extent {
    Object { len: u32 },
    Stream { segments: u32 },
}

/// Whether an object of `len` octets has this source symbol.
fn is_of_object(profile: &Profile, len: u32, block: u32, symbol: u8) -> bool
    requires { IsSized (OfObject len) }
    ensures { result ≡ nat_lt symbol (closed_in (shape_of_extent profile.now (OfObject len)) block) }
{
    let plan = plan_of(profile, len);
    block < plan.blocks() && symbol < plan.source_len(block)
}

/// Whether this source symbol of a stream is among the first `segments`, which are closed.
fn is_of_stream(profile: &Profile, segments: u32, block: u32, symbol: u8) -> bool
    ensures { result ≡ nat_lt symbol (closed_in (shape_of_extent profile.now (OfStream segments)) block) }
{
    let number = u64::from(block) * u64::from(profile.b) + u64::from(symbol);
    symbol < profile.b && number < u64::from(segments)
}

/// Whether an entry of this extent has this source symbol, and it is closed. All of an object's are, and a stream's first `segments`.
pub(crate) fn is_closed(profile: &Profile, extent: Extent, block: u32, symbol: u8) -> bool
    requires { IsSized extent }
    ensures { result ≡ nat_lt symbol (closed_in (shape_of_extent profile.now extent) block) }
{
    match extent {
        Extent::Object { len } => is_of_object(profile, len, block, symbol),
        Extent::Stream { segments } => is_of_stream(profile, segments, block, symbol),
    }
}

/// The extent of the entry with this index. `None` if it is among the first `forgotten`, or was not enqueued.
pub(crate) fn extent_at(extents: &VecDeque<Extent>, forgotten: u32, index: u32) -> Option<Extent>
    ensures { result ≡ from_first forgotten extents.now.items index }
{
    if index < forgotten {
        return None;
    }
    extents.get((index - forgotten) as usize).copied()
}

/// Adds an extent, and forgets the first one if there are more than ids can name. Returns how many are forgotten in all.
pub(crate) fn keep_extent(extents: &mut VecDeque<Extent>, forgotten: u32, extent: Extent) -> u32
    requires room { length extents.old.items < deque_capacity extents.old }
    requires number { forgotten < 4294967295 }
    ensures items { extents.new.items ≡ drop (result - forgotten) (extents.old.items ++ extent ∷ []) }
    ensures kept { (result ≡ forgotten) ⊎ ((result ≡ forgotten + 1) × (most_kept ≤ length extents.old.items)) }
{
    // It does not fail: `make_room` took the room.
    extents.push_back(extent).unwrap();
    if extents.len() <= MOST_KEPT {
        return forgotten;
    }
    extents.pop_front();
    forgotten + 1
}
