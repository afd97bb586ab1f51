//! Octets and profiles in the short forms of these tests.

use norm_base::{Given, Key, Memory, Octets, Profile};
use std::alloc::Global;

/// Spans of equal octets: how many, and their value.
pub(crate) type Runs = &'static [(usize, u8)];

/// Returns the octets of these spans. `Memory` if memory runs out.
pub(crate) fn filled(alloc: Global, runs: &[(usize, u8)]) -> Result<Octets, Memory> {
    let mut octets = Vec::new(alloc);
    for (count, octet) in runs {
        for _ in 0..*count {
            octets.push(*octet)?;
        }
    }
    Ok(Octets::of(octets))
}

/// Returns the octets of a hexadecimal text, in which spaces are ignored. Returns none if it is not hexadecimal.
fn decoded(alloc: Global, text: &str) -> Result<Vec<u8>, Memory> {
    let mut digits = Vec::new(alloc);
    for digit in text.as_bytes() {
        if *digit != b' ' {
            digits.push(*digit)?;
        }
    }
    match hex::decode(alloc, digits.as_slice()) {
        Ok(octets) => Ok(octets),
        Err(_) => Ok(Vec::new(alloc)),
    }
}

/// Returns the octets of a hexadecimal text, and then `behind.0` octets of the value `behind.1`.
pub(crate) fn octets_of(
    alloc: Global,
    front: &str,
    behind: (usize, u8),
) -> Result<Vec<u8>, Memory> {
    let mut octets = decoded(alloc, front)?;
    for _ in 0..behind.0 {
        octets.push(behind.1)?;
    }
    Ok(octets)
}

/// Returns the profile with these values and otherwise the defaults. Returns `None` if they break a rule.
// Each key comes through the loop: a call of `set` that names its key costs much to prove.
pub(crate) fn profile_of(keys: &[(Key, u32)]) -> Option<Profile> {
    let mut given = Given::new();
    for (key, value) in keys {
        given.set(*key, *value);
    }
    Profile::of(&given)
}
