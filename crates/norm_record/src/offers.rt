//! The datagrams that were offered, once for each offer. A take finds the latest offer with its name again.

ghost use Rattle.std.specs.Prelude.{◌≡◌, ◌<◌, ◌++◌, ◌∷◌, [], ℕ, length, slice_get, Some, sum_by, OnOk, OnErr, IfOk, IfSome, IfNone};
ghost use Rattle.norm_record.specs.Latest.{IsLatest};

use crate::latest::name_of;
use crate::row::Row;
use norm_base::Memory;
use std::alloc::Global;
use std::collections::HashMap;
use std::marker::Model;

/// Offered datagrams. Contracts see the list of them. Of each name, the index of the latest one is known.
// The last one: with an older one, a datagram whose sequence number was used before would be kept once more as it is taken.
#[derive(Drop)]
pub(crate) struct Offers {
    row: Row,
    latest: HashMap<u64, u32>,
}

impl Model for Offers {
    ghost use Rattle.std.specs.Prelude.{ℕ, List, map};
    ghost use Rattle.norm_record.specs.Names.{name_of};
    ghost use Rattle.norm_record.specs.Latest.{FindsLast};

    ghost Value = { List (List ℕ) };

    ghost view = { λ offers. offers.row };

    ghost invariant = { λ offers. FindsLast (map name_of offers.row) offers.latest };
}

impl Offers {
    /// No offers. It takes no memory.
    pub(crate) fn new(alloc: Global) -> Offers
        ensures { result ≡ [] }
    {
        Offers {
            row: Row::new(alloc),
            latest: HashMap::new(alloc),
        }
    }

    /// How many octets all offers have. It takes constant time.
    pub(crate) fn octets(&self) -> usize
        ensures { result ≡ sum_by length self.now }
    {
        self.row.octets()
    }

    pub(crate) fn offer(&self, at: u32) -> &[u8]
        requires { at < length self.now }
        ensures { slice_get self.now at ≡ Some result.now }
    {
        self.row.piece(at as usize)
    }

    /// Returns the index of these octets if they are the latest offer with their name. It looks at no earlier offer.
    pub(crate) fn find(&self, octets: &[u8]) -> Option<u32>
        ensures found { IfSome result (λ at. slice_get self.now at ≡ Some octets.now) }
        ensures latest { IfNone result ((at : ℕ) → ¬ IsLatest self.now octets.now at) }
    {
        let at = *self.latest.get(&name_of(octets))?;
        // Never taken: each index that is kept is one of the row. No clause says so. If it were wrong, the octets would only be kept twice.
        if at as usize >= self.row.len() {
            return None;
        }
        if self.row.piece(at as usize) == octets {
            return Some(at);
        }
        None
    }

    /// Keeps one more offer and returns its index. If memory runs out or the index does not fit 32 bits, nothing changes.
    pub(crate) fn keep(&mut self, octets: &[u8]) -> Result<u32, Memory>
        ensures kept { OnOk result (self.new ≡ self.old ++ octets.now ∷ []) }
        ensures place { IfOk result (λ at. at ≡ length self.old) }
        ensures refused { OnErr result (self.new ≡ self.old) }
    {
        // As in `push_turn` of the journal: 32 bits keep an entry small.
        let Ok(at) = u32::try_from(self.row.len()) else {
            return Err(Memory);
        };
        self.latest.reserve(1)?;
        self.row.keep(octets)?;
        let put: Result<_, _> = self.latest.insert(name_of(octets), at);
        // It does not fail: the map has room for one more.
        put.unwrap();
        Ok(at)
    }
}
