//! The datagrams that were offered: [`Offers`]. The networks in memory keep them.

ghost use Rattle.std.specs.Prelude.{◌≡◌, ◌++◌, ◌∷◌, ◌<◌, ◌≤◌, ◌^◌, [], length, OnOk, OnErr};
ghost use Rattle.norm_memory.specs.Offers.{offer_at};

use norm_base::NodeId;
use std::alloc::{AllocError, Global};
use std::marker::Model;

/// Who offered a datagram, and where it begins and ends in the octets of all.
#[derive(Clone, Copy, Debug)]
struct Offer {
    from: NodeId,
    start: usize,
    stop: usize,
}

/// Datagrams of at most 1,500 octets, with the members that offered them. The octets of all are in one vector.
// One vector for all octets and none for each datagram, so that `push` takes memory only as the vectors grow.
#[derive(Debug, Drop)]
pub(crate) struct Offers {
    octets: Vec<u8>,
    offers: Vec<Offer>,
}

impl Model for Offers {
    ghost use Rattle.std.specs.Prelude.{List, ℕ, length};

    ghost Value = { List (ℕ × List ℕ) };

    ghost use Rattle.norm_memory.specs.Offers.{offered_in, AreWithin};

    ghost view = { λ o. offered_in o.octets.items o.offers.items };

    ghost invariant = { λ o. AreWithin (length o.octets.items) o.offers.items };
}

impl Offers {
    /// Returns no datagrams. It takes no memory.
    pub(crate) fn new(alloc: Global) -> Offers
        ensures { result ≡ [] }
    {
        Offers {
            octets: Vec::new(alloc),
            offers: Vec::new(alloc),
        }
    }

    pub(crate) fn len(&self) -> usize
        ensures len { result ≡ length self.now }
        ensures limit { result < 2 ^ 63 }
    {
        self.offers.len()
    }

    pub(crate) fn from(&self, place: usize) -> NodeId
        requires { place < length self.now }
        ensures { result ≡ (offer_at self.now place).0 }
    {
        self.offers[place].from
    }

    /// It takes constant time, and no memory.
    pub(crate) fn bytes(&self, place: usize) -> &[u8]
        requires { place < length self.now }
        ensures octets { result.now ≡ (offer_at self.now place).1 }
        ensures most { length result.now ≤ 1500 }
    {
        let offer = self.offers[place];
        &self.octets[offer.start..offer.stop]
    }

    /// Adds a datagram after all others, and copies its octets.
    pub(crate) fn push(&mut self, from: NodeId, bytes: &[u8]) -> Result<(), AllocError>
        requires { length bytes.now ≤ 1500 }
        ensures ok { OnOk result (self.new ≡ self.old ++ (from, bytes.now) ∷ []) }
        ensures err { OnErr result (self.new ≡ self.old) }
    {
        self.octets.reserve(bytes.len())?;
        let start = self.octets.len();
        let stop = start + bytes.len();
        self.offers.push(Offer { from, start, stop })?;
        // It does not fail: the room was reserved before the offer was noted.
        self.octets.extend_from_slice(bytes).unwrap();
        Ok(())
    }

    /// Removes all, and keeps their memory for the next.
    pub(crate) fn clear(&mut self)
        ensures { self.new ≡ [] }
    {
        self.octets.clear();
        self.offers.clear();
    }
}
