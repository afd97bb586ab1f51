//! A copy that waits in a network in memory, and the order in which copies are taken: [`WaitingCopy`].

ghost use Rattle.std.proofs.Common.{rules};
ghost use Rattle.std.specs.Cmp.{partial_order_from_own_ties};
ghost use Rattle.std.specs.Cmp.Rules.{comparing};
ghost use Rattle.std.specs.Ordering.{nat_cmp, on, flip_args, then_cmp, as_partial_cmp};

use norm_base::NodeId;
use std::cmp::Ordering;

/// A copy of an offered datagram, which waits for the member that it is for. The greatest is taken first: the one that became ready first, then the
/// one of the earlier offer, then the one for the lower node.
#[derive(Clone, Copy, Debug, PartialEq, Eq)]
pub struct WaitingCopy {
    /// It is ready after this many kept offers since the start.
    pub ready: u64,
    /// The index of its offer, from 0, among those kept since the start.
    pub offer: usize,
    pub to: NodeId,
}

// The other way round than the order of takes, since a heap gives its greatest first.
impl Ord for WaitingCopy {
    ghost cmp = { flip_args (then_cmp (on (λ c. c.ready) nat_cmp) (then_cmp (on (λ c. c.offer) nat_cmp) (on (λ c. c.to) nat_cmp))) };

    ghost total = { Prim.search (comparing, rules) };

    ghost matches_partial_cmp = { Prim.search (comparing, rules) };

    ghost matches_eq = { Prim.search (comparing, rules) };

    fn cmp(&self, other: &WaitingCopy) -> Ordering {
        other
            .ready
            .cmp(&self.ready)
            .then(other.offer.cmp(&self.offer))
            .then(other.to.cmp(&self.to))
    }
}

impl PartialOrd for WaitingCopy {
    ghost partial_cmp = { as_partial_cmp (flip_args (then_cmp (on (λ c. c.ready) nat_cmp) (then_cmp (on (λ c. c.offer) nat_cmp) (on (λ c. c.to) nat_cmp)))) };

    ghost laws = { partial_order_from_own_ties (Prim.search (comparing, rules)) (Prim.search (comparing, rules)) };

    fn partial_cmp(&self, other: &WaitingCopy) -> Option<Ordering> {
        Some(self.cmp(other))
    }
}
