//! The rules by which a network in memory loses, repeats and delays datagrams: [`Rule`].

ghost use Rattle.std.specs.Prelude.{◌≡◌, IfOk};
ghost use Rattle.norm_memory.specs.Rules.{fate_by_rules};
ghost use Rattle.norm_memory.specs.Fates.{plan_by, AreForOthers};

use crate::fate::Fate;
use norm_base::NodeId;
use std::alloc::{AllocError, Global};

/// What becomes of some datagrams. If several rules name an offer and a member, the first one counts.
#[derive(Clone, Copy, Debug, PartialEq, Eq)]
pub enum Rule {
    /// The offer of this number, from 1 since the last `Ok` start and with those that failed, comes `copies` times to this member. It is
    /// ready after `after` further offers that were `Ok`.
    Copies {
        offer: u64,
        to: NodeId,
        copies: u8,
        after: u32,
    },
    /// Offers of this member with this number or a greater one are lost.
    Mute {
        from: NodeId,
        since: u64,
    },
}

/// Returns what becomes of the offer of this number on its way to a member. If no rule names it, it comes once, at once.
fn fate_by_rules(rules: &[Rule], number: u64, from: NodeId, to: NodeId) -> Fate
    ensures { result ≡ fate_by_rules rules.now number from to }
{
    for rule in rules {
        match *rule {
            Rule::Copies {
                offer,
                to: named,
                copies,
                after,
            } => {
                if offer == number && named == to {
                    return Fate { copies, after };
                }
            }
            Rule::Mute { from: named, since } => {
                if named == from && since <= number {
                    return Fate {
                        copies: 0,
                        after: 0,
                    };
                }
            }
        }
    }
    Fate {
        copies: 1,
        after: 0,
    }
}

/// Returns what becomes of the offer of this number: a fate for each other member.
pub(crate) fn plan_by_rules(
    alloc: Global,
    rules: &[Rule],
    number: u64,
    from: NodeId,
    members: &[NodeId],
) -> Result<Vec<(NodeId, Fate)>, AllocError>
    ensures plan { IfOk result (λ plan. plan.items ≡ plan_by (fate_by_rules rules.now number from) from members.now) }
    ensures others { IfOk result (λ plan. AreForOthers from plan.items) }
{
    let mut plan = Vec::with_capacity(alloc, members.len())?;
    for to in members {
        if *to != from {
            plan.push((*to, fate_by_rules(rules, number, from, *to)))?;
        }
    }
    Ok(plan)
}
