//! Object transport ids and the indices that they name (RFC 5740 section 4.2.1). An index counts all objects from 0; its id has only 16 bits.

ghost use Rattle.std.specs.Prelude.{◌≡◌, ◌^◌, ◌<◌};
ghost use Rattle.norm_base.specs.Sizes.{id_count};
ghost use Rattle.norm_ext.specs.ObjectIds.{object_id as id_of_index, index_named as index_of_id};

use norm_base::{ID_COUNT, Profile};

// RFC 5740 section 4.2.1: an object transport id has 16 bits.
const ALL_IDS: u64 = ID_COUNT as u64;
/// How far below the known index an id still names an index.
// Our own choice: half of all ids name indices below what is known, the others what is known and indices above. What lies further away would be
// taken for another object.
const BELOW: u64 = 32_768;
/// The greatest index that an object can have.
// Our own choice: the next index still fits in 32 bits. One more object is refused with `IdsSpent`.
pub const LAST_INDEX: u32 = 4_294_967_294;

/// Like `object_id`, for an index that may be above [`LAST_INDEX`].
fn id_of(profile: &Profile, index: u64) -> u64
    requires { index < 2 ^ 33 }
    ensures exact { result ≡ id_of_index profile.now index }
    ensures small { result < id_count }
{
    (u64::from(profile.first) + index) % ALL_IDS
}

/// Returns the id of the object with this index: the profile's `first` and the index, modulo 65,536.
pub fn object_id(profile: &Profile, index: u32) -> u16
    ensures { result ≡ id_of_index profile.now index }
{
    id_of(profile, u64::from(index)) as u16
}

/// Returns the index that an id names for a node that knows indices up to `known`: the one with this id from 32,768 below to 32,767 above.
/// Returns `None` if it would be below 0 or above the last index.
pub fn index_named(profile: &Profile, known: u32, object: u16) -> Option<u32>
    ensures { result ≡ index_of_id profile.now known object }
{
    // One round of ids (65,536) too high: `known` may be less than 32,768, and the numbers have no sign. The last line takes it off again.
    let lowest = u64::from(known) + BELOW;
    let steps = (ALL_IDS + u64::from(object) - id_of(profile, lowest)) % ALL_IDS;
    let named = lowest + steps;
    if named < ALL_IDS || u64::from(LAST_INDEX) + ALL_IDS < named {
        return None;
    }
    Some((named - ALL_IDS) as u32)
}
