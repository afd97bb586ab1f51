//! Writes octets in lower-case hexadecimal, 64 octets at a time: both halves of each octet are looked up in a table of sixteen
//! digits. `Line` writes its contents with [`push_digits`].

ghost use Rattle.std.specs.Prelude.{◌≡◌, ◌+◌, ◌*◌, ◌/◌, ◌%◌, ◌<◌, ◌≤◌, ◌++◌, length, map, replicate, slice_index, OnOk, OnErr, ◌-◌};
ghost use Rattle.std.specs.Vec.{vec_len, vec_capacity};
ghost use Rattle.hex.specs.Hex.{encode_lower, lower_digits};

use std::alloc::AllocError;
use std::simd::prelude::*;

/// How many octets are converted at once.
// Our own choice: 64 octets are one vector of the widest machines, and the compiler splits it for others.
const LANES: usize = 64;

/// The sixteen digits, repeated four times.
// The look-up stays within sixteen lanes, so each of the four groups of lanes needs the table.
const DIGITS: [u8; 64] = *b"0123456789abcdef0123456789abcdef0123456789abcdef0123456789abcdef";

/// Returns the lower-case hexadecimal digit of each lane's high four bits. One table look-up for all lanes.
#[inline(always)]
fn high_digits(lanes: u8x64) -> u8x64
    ensures { result ≡ map (λ x. slice_index lower_digits (x / 16)) lanes }
{
    u8x64::from_array(DIGITS).swizzle_dyn_within::<16>(lanes >> u8x64::splat(4))
}

#[inline(always)]
fn low_digits(lanes: u8x64) -> u8x64
    ensures { result ≡ map (λ x. slice_index lower_digits (x % 16)) lanes }
{
    u8x64::from_array(DIGITS).swizzle_dyn_within::<16>(lanes & u8x64::splat(15))
}

/// Returns the two digits of each lane in order: first those of lanes 0 to 31, then those of lanes 32 to 63.
// Proof: interleaved lanes are one map over the indexes 0, 64, 1, 65, .., which computes to the digits of each lane in turn.
#[inline(always)]
fn halves_of(lanes: u8x64) -> (u8x64, u8x64)
    ensures digits { result.0 ++ result.1 ≡ encode_lower lanes }
    ensures front { length result.0 ≡ 64 }
    ensures behind { length result.1 ≡ 64 }
{
    high_digits(lanes).interleave(low_digits(lanes))
}

/// Returns the two digits of each lane, the one of its high four bits first.
#[inline(always)]
fn digits_of(lanes: u8x64) -> [u8; 128]
    ensures { result ≡ encode_lower lanes }
{
    let (front, behind) = halves_of(lanes);
    let mut digits = [0; 128];
    digits[..64].copy_from_slice(&front.to_array());
    digits[64..].copy_from_slice(&behind.to_array());
    digits
}

/// Returns fewer than 64 octets, padded with zeros, so that they take the way of 64.
fn padded(octets: &[u8]) -> u8x64
    requires { length octets.now < 64 }
    ensures { result ≡ octets.now ++ replicate (64 - length octets.now) 0 }
{
    let mut lanes = [0; LANES];
    lanes[..octets.len()].copy_from_slice(octets);
    u8x64::from_array(lanes)
}

/// Appends the digits of fewer than 64 octets, which are padded to 64. It never fails, since the text has room for them.
// No form of its own for few octets: time counts where contents are long, and there this does only their end.
fn put_few(text: &mut Vec<u8>, octets: &[u8])
    requires few { length octets.now < 64 }
    requires room { vec_len text.old + 2 * length octets.now ≤ vec_capacity text.old }
    ensures { text.new.items ≡ text.old.items ++ encode_lower octets.now }
{
    if octets.is_empty() {
        return;
    }
    let digits = digits_of(padded(octets));
    // It does not fail: the clause asks for the room.
    text.extend_from_slice(&digits[..2 * octets.len()]).unwrap();
}

/// Appends the lower-case digits of 64 octets. It never fails, since the text has room for them.
#[inline(always)]
fn put_lanes(text: &mut Vec<u8>, octets: &[u8])
    requires whole { length octets.now ≡ 64 }
    requires room { vec_len text.old + 128 ≤ vec_capacity text.old }
    ensures digits { text.new.items ≡ text.old.items ++ encode_lower octets.now }
    ensures len { vec_len text.new ≡ vec_len text.old + 128 }
    ensures capacity { vec_capacity text.old ≤ vec_capacity text.new }
{
    text.extend_from_slice(&digits_of(u8x64::from_slice(octets)))
        .unwrap();
}

/// Appends the digits of octets, two lower-case ones for each, to a text that has room for them. Takes no memory.
pub fn put_digits(text: &mut Vec<u8>, octets: &[u8])
    requires { vec_len text.old + 2 * length octets.now ≤ vec_capacity text.old }
    ensures { text.new.items ≡ text.old.items ++ encode_lower octets.now }
{
    let mut rest = octets;
    // Proof: the label names the loop for its invariant.
    'lanes: while rest.len() >= LANES {
        let (front, behind) = rest.split_at(LANES);
        put_lanes(text, front);
        rest = behind;
    }
    put_few(text, rest);
}

/// Appends the digits of octets to a text, two lower-case ones for each. If memory runs out, the text is unchanged.
pub fn push_digits(text: &mut Vec<u8>, octets: &[u8]) -> Result<(), AllocError>
    ensures digits { OnOk result (text.new.items ≡ text.old.items ++ encode_lower octets.now) }
    ensures refused { OnErr result (text.new.items ≡ text.old.items) }
{
    // Never `None`: what lies in memory has fewer than 2^63 octets.
    let Some(room) = octets.len().checked_mul(2) else {
        return Err(AllocError);
    };
    text.reserve(room)?;
    put_digits(text, octets);
    Ok(())
}
