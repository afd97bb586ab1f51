//! Makes profiles for the tables of calls.

use norm_base::{Given, Key, Profile};
use std::process::Abort;

/// Returns a profile with these values, and the defaults of all other keys.
// One function for all tables: each that sets keys of its own takes six seconds to prove.
pub fn profile_of(rt: &impl Abort, values: &[(Key, u32)]) -> Profile {
    let mut given = Given::new();
    for (key, value) in values {
        given.set(*key, *value);
    }
    Profile::of(&given).expect(rt, "a profile")
}
