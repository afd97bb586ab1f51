//! Compares instance ids, which wrap around (RFC 5740 section 4.2.1). Of two ids, at most one lies above the other. A sender that restarts takes an
//! id above its last one.

ghost use Rattle.std.specs.Prelude.{◌≡◌};
ghost use Rattle.norm_ext.specs.InstanceIds.{is_above, rise};

use norm_base::{ID_COUNT, InstanceId};

/// How far an id can lie above another one: less than half of all ids.
// Our own choice: of two ids never more than one lies above the other, going round. A sender refuses a restart that is further above its
// first instance with `IdUsed`.
pub const MOST_RISE: u32 = 32_767;

/// Returns how far `id` lies above `from`, modulo 65,536. Beyond [`MOST_RISE`] it is not above.
pub fn rise(from: InstanceId, id: InstanceId) -> u32
    ensures { result ≡ rise from id }
{
    // One round is added so that the difference has no sign.
    (ID_COUNT + u32::from(id.0) - u32::from(from.0)) % ID_COUNT
}

/// Whether `id` lies above `from`: by 1 to `MOST_RISE`. So it is false if they are equal.
pub fn is_above(from: InstanceId, id: InstanceId) -> bool
    ensures { result ≡ is_above from id }
{
    let rise = rise(from, id);
    1 <= rise && rise <= MOST_RISE
}
