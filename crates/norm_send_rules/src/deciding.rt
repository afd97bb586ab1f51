//! The two numbers that a sender decides by: how many members a watermark needs, and how many symbols a repair round sends of a block. `mark_book`
//! and `nack_union` call these functions.

ghost use Rattle.std.specs.Prelude.{◌≡◌, max};
ghost use Rattle.norm_send_rules.specs.Watermarks.{needed_among};

/// Returns how many of this many members have to be listed: the quorum, or all if there is none or it is above their number.
pub fn needed_among(members: u32, quorum: Option<u32>) -> u32
    ensures { result ≡ needed_among members quorum }
{
    match quorum {
        Some(q) => q.min(members),
        None => members,
    }
}

/// Returns the greater of two counts of symbols that receivers lack of a block.
// Parity repairs any loss, so as many symbols as the receiver needs that lacks most are enough for all (RFC 5740 section 5.4).
pub fn greater_count(count: u8, other: u8) -> u8
    ensures { result ≡ max count other }
{
    count.max(other)
}
