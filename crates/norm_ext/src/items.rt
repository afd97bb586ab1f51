//! The items of repair requests (RFC 5740 section 4.3.1): splits a list of them and says which symbols they name. A sender reads NACKs with
//! these, and a receiver reads what others requested. `norm_show` splits lists to print them. `item_of` makes the items that a receiver
//! writes. `has_flag` tests flags, those of INFO and DATA too.

ghost use Rattle.std.specs.Prelude.{◌≡◌, ◌<◌, ◌∷◌, [], MatchOption, length};
ghost use Rattle.norm_ext.specs.Requests.{items_named};
ghost use Rattle.norm_ext.specs.Asking.{has_flag as has_this, item_named};
ghost use Rattle.norm_ext.specs.Items.{both_of, item_of as item_at};

use crate::head::Item;
use crate::numbers::{read_16, read_name};
use crate::object_ids::{index_named, object_id};
use crate::places::{ITEM, ITEM_NAME_AT, ITEM_OBJECT_AT};
use fec_plan::{PayloadId, Position};
use norm_base::Profile;

/// Splits off the first item. `None` if fewer than eight octets are left. The FEC Encoding ID and the reserved octet are not looked at.
pub fn split_item(items: &[u8]) -> Option<(Item, &[u8])>
    ensures { MatchOption result (items_named items.now ≡ [])
        (λ x. items_named items.now ≡ x.0 ∷ items_named x.1.now) }
{
    if items.len() < ITEM {
        return None;
    }
    let item = Item {
        object: read_16(items, ITEM_OBJECT_AT),
        id: read_name(items, ITEM_NAME_AT),
    };
    Some((item, items.split_at(ITEM).1))
}

/// Splits off the first two items: of a request of form ranges, both ends of the next range. `None` if there are fewer than two.
pub fn split_pair(items: &[u8]) -> Option<(Item, Item, &[u8])>
    ensures { MatchOption result (length (items_named items.now) < 2)
        (λ x. items_named items.now ≡ x.0 ∷ x.1 ∷ items_named x.2.now) }
{
    let Some((first, rest)) = split_item(items) else {
        return None;
    };
    let Some((second, rest)) = split_item(rest) else {
        return None;
    };
    Some((first, second, rest))
}

/// Returns the symbol that an item names for a node that knows indices up to `known`. Returns `None` if its id names no index.
// Call it when the item is heard, and keep the position: what an id names depends on what its hearer knows at that moment.
pub fn position_of(profile: &Profile, known: u32, item: Item) -> Option<Position>
    ensures { result ≡ item_named profile.now known item }
{
    match index_named(profile, known, item.object) {
        None => None,
        Some(index) => Some(Position {
            index,
            block: item.id.block,
            symbol: item.id.symbol,
        }),
    }
}

/// Returns both ends of the range that two items name, as [`position_of`] does for each. Returns `None` if one of them names no index.
pub fn ends_of(
    profile: &Profile,
    known: u32,
    first: Item,
    last: Item,
) -> Option<(Position, Position)>
    ensures { result ≡ both_of (item_named profile.now known first) (item_named profile.now known last) }
{
    match (
        position_of(profile, known, first),
        position_of(profile, known, last),
    ) {
        (Some(first), Some(last)) => Some((first, last)),
        (Some(_), None) => None,
        (None, _) => None,
    }
}

/// Returns the item that names a symbol. To a node that knows an index within 32,767 of `at.index`, it names this symbol if
/// an object can have that index.
pub fn item_of(profile: &Profile, at: Position) -> Item
    ensures { result ≡ item_at profile.now at }
{
    Item {
        object: object_id(profile, at.index),
        id: PayloadId {
            block: at.block,
            symbol: at.symbol,
        },
    }
}

/// Whether flags, of a request or of INFO and DATA, include `flag`, which is a single bit.
pub fn has_flag(flags: u8, flag: u8) -> bool
    requires { 0 < flag }
    ensures { result ≡ has_this flags flag }
{
    flags / flag % 2 == 1
}
