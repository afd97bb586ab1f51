//! Which instance (RFC 5740 section 4.2.1) a send draws, and the line that keeps one. A drawn one lies above the one that is kept for this
//! user, sender and port. Our own choice: our receivers that run on may pass over another, or take its objects for those that they have.

ghost use Rattle.std.specs.Prelude.{◌≡◌, ◌<◌, ◌^◌, ℕ, decimal, string_bytes, IfNone, IfOk, IfSome};
ghost use Rattle.std.specs.Duration.{as_nanos};
ghost use Rattle.norm_host.specs.Instances.{minute_at, id_after, next_instance, passed_by, number_line};

use itoa::Buffer;
use norm_base::{ID_COUNT, InstanceId};
use norm_ext::is_above;
use std::alloc::{AllocError, Global};
use std::str;
use std::time::Duration;

/// Returns the minute since 1970 as an instance id. After the last id it begins again at 0.
// Minutes go round in 45 days, so a receiver may miss every send of 22 days. Seconds would go round in 18 hours.
pub fn minute_at(since_1970: Duration) -> InstanceId
    ensures { result ≡ minute_at (as_nanos since_1970) }
{
    InstanceId((since_1970.as_secs() / 60 % u64::from(ID_COUNT)) as u16)
}

/// Returns `last` if `instance` does not lie above it: receivers that know `last` may pass `instance` over, or take it for that one. `None`
/// also if there is no `last`.
pub(crate) fn passed_by(last: Option<InstanceId>, instance: InstanceId) -> Option<InstanceId>
    ensures { result ≡ passed_by last instance }
{
    match last {
        Some(last) => {
            if is_above(last, instance) {
                None
            } else {
                Some(last)
            }
        }
        None => None,
    }
}

/// Returns the id after another: 0 after the last one.
fn id_after(id: InstanceId) -> InstanceId
    ensures { result ≡ id_after id }
{
    InstanceId(id.0.wrapping_add(1))
}

/// Returns the instance that a send draws in this minute. `last` is the one that is kept, if one is, and the result lies above it
/// ([`next_is_above`](crate::laws::next_is_above)).
// By the minute and a kept number. The minute alone would be shared by two sends within it, and falls with the clock. A number alone begins
// anew if its folder is lost, and may then be one that receivers had.
pub fn next_instance(last: Option<InstanceId>, minute: InstanceId) -> InstanceId
    ensures { result ≡ next_instance last minute }
{
    match last {
        Some(last) => {
            if is_above(last, minute) {
                minute
            } else {
                id_after(last)
            }
        }
        None => minute,
    }
}

/// Returns the line that keeps a number: the only one from which [`number_in`] reads it.
pub(crate) fn number_line(alloc: Global, number: InstanceId) -> Result<String, AllocError>
    ensures { IfOk result (λ line. string_bytes line ≡ number_line number) }
{
    let number = number.0;
    format!(in alloc; "{number}\n")
}

/// Returns the number that these digits spell. `None` if they spell none of 16 bits, or have a sign or a leading zero.
fn number_of(digits: &str) -> Option<InstanceId>
    ensures some { IfSome result (λ number. digits.now ≡ decimal number) }
    ensures none { IfNone result ((number : ℕ) → number < 2 ^ 16 → digits.now ≡ decimal number → ⊥) }
{
    let Ok(number) = digits.parse::<u16>() else {
        return None;
    };
    let mut buffer = Buffer::new();
    // The standard parse takes a sign and leading zeros. What is not the line that `number_line` makes was written by something else.
    if buffer.format(number) == digits {
        return Some(InstanceId(number));
    }
    None
}

/// Returns the number that a line of [`number_line`] keeps. `None` for any other text.
pub(crate) fn number_in(line: &[u8]) -> Option<InstanceId>
    ensures some { IfSome result (λ number. line.now ≡ number_line number) }
    ensures none { IfNone result ((number : ℕ) → number < 2 ^ 16 → line.now ≡ number_line number → ⊥) }
{
    let (end, digits) = line.split_last()?;
    if *end != b'\n' {
        return None;
    }
    match str::from_utf8(digits) {
        Ok(digits) => number_of(digits),
        Err(_) => None,
    }
}
