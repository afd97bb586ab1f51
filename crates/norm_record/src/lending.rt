//! Makes the view of an event or of a hand-up from what is kept.

ghost use Rattle.std.specs.Prelude.{◌≡◌, All, slice_get};
ghost use Rattle.std.specs.Option.{option_map};
ghost use Rattle.norm_record.specs.Events.{IsThere, event_of, kept_in};
ghost use Rattle.norm_record.specs.HandedUp.{IsAmong, hand_of};
ghost use Rattle.norm_record.specs.Told.{told_of};

use crate::entry::{Entry, Hand, Rare, Turn};
use crate::offers::Offers;
use crate::row::Row;
use crate::seen::Seen;
use crate::ups::Ups;
use norm_base::NodeId;
use norm_order::Up;

/// Returns the event of an entry. It takes no memory: the result borrows from the stores.
// It takes the stores one by one: a proof about each kind of entry then opens none of the journal's own invariant.
pub(crate) fn lent<'a>(
    offers: &'a Offers,
    apart: &'a Row,
    ups: &'a Ups,
    rares: &'a [Rare],
    turns: &[Turn],
    entry: Entry,
) -> Seen<'a>
    requires { IsThere (kept_in offers.now apart.now ups.now rares.now turns.now) entry }
    ensures { event_of (kept_in offers.now apart.now ups.now rares.now turns.now) entry ≡ told_of result }
{
    match entry {
        Entry::Turn { at } => {
            let Turn { t, now } = turns[at as usize];
            Seen::Turn { t, now }
        }
        Entry::Tick { node, sent } => Seen::Tick { node, sent },
        Entry::Offer { from, at } => Seen::Offer {
            from,
            bytes: offers.offer(at),
        },
        Entry::Took { to, at } => Seen::Took {
            to,
            bytes: offers.offer(at),
        },
        Entry::Apart { to, at } => Seen::Took {
            to,
            bytes: apart.piece(at as usize),
        },
        Entry::Empty => Seen::Empty,
        Entry::Up { node, at } => {
            let hand_up = ups.hand_up(at);
            Seen::Up {
                node,
                instance: hand_up.instance,
                up: &hand_up.up,
            }
        }
        Entry::Rare { at } => rares[at as usize].seen(),
    }
}

/// Returns hand-up `i`, from 0, in the order of the events, with its node. `None` if there are no more. It takes no memory.
pub(crate) fn hand_at<'a>(ups: &'a Ups, hands: &[Hand], i: u64) -> Option<(NodeId, &'a Up)>
    requires { All (IsAmong ups.now) hands.now }
    ensures { option_map (λ hand. (hand.0, hand.1.now)) result ≡ option_map (hand_of ups.now) (slice_get hands.now i) }
{
    let Some(hand) = hands.get(i as usize) else {
        return None;
    };
    let hand_up = ups.hand_up(hand.at);
    Some((hand.node, &hand_up.up))
}
