//! [`RelayRun`]: what `relay` makes of a text. `norm_program` calls it.

ghost use Rattle.std.specs.Prelude.{◌≡◌, true, IfOk, IfErr};
ghost use Rattle.norm_relay.specs.RelayMoves.{IsRefusal};
ghost use Rattle.norm_relay.specs.RelayState.{can_relay};
ghost use Rattle.norm_turns.specs.Causes.{WriteCause};
ghost use Rattle.driven_nodes.specs.Relayed.{joined, relayed};
ghost use Rattle.driven_nodes.specs.Writing.{Ends, LeavesLines};

use crate::chain::Chain;
use norm_base::{NodeId, Profile, Sink};
use norm_relay::RelayFault;
use norm_turns::SessionFault;
use relay_words::RelayEnd;
use std::alloc::Global;
use std::marker::Model;

/// A relay that heard nothing yet. For contracts it is its two profiles and its node.
#[derive(Drop)]
pub struct RelayRun {
    up: Profile,
    node: NodeId,
    down: Profile,
    chain: Chain,
}

impl Model for RelayRun {
    ghost use Rattle.driven_nodes.specs.Chaining.{StandsFor};
    ghost use Rattle.driven_nodes.specs.Relayed.{Joined, joined, opening};

    ghost Value = { Joined };

    ghost view = { λ r. joined r.up r.node r.down };

    ghost invariant = { λ r. StandsFor r.chain (opening r.up r.node r.down) };
}

impl RelayRun {
    /// Begins to relay between these sessions, as this node of the one above.
    ///
    /// # Errors
    ///
    /// `Profiles` if they cannot be relayed, or `Memory`.
    pub fn begin(
        alloc: Global,
        up: &Profile,
        node: NodeId,
        down: &Profile,
    ) -> Result<RelayRun, RelayFault>
        ensures begun { IfOk result (λ run. run ≡ joined up.now node down.now) }
        ensures fits { IfOk result (λ _. can_relay up.now node down.now ≡ true) }
        ensures fault { IfErr result (λ why. IsRefusal why (can_relay up.now node down.now)) }
    {
        let chain = Chain::begin(alloc, up, node, down)?;
        Ok(RelayRun {
            up: *up,
            node,
            down: *down,
            chain,
        })
    }

    /// Takes the lines of a text in order, as far as they are events and no job is refused, and writes what is printed of them. Returns how the run
    /// ends. If all were taken, writes the last line.
    ///
    /// # Errors
    ///
    /// `Write` if a write failed, or `Memory`.
    pub fn take_lines<K: Sink>(
        self,
        alloc: Global,
        text: &[u8],
        output: &mut K,
    ) -> Result<RelayEnd, SessionFault>
        ensures goes { IfOk result (λ end. Ends (relayed self.up self.node self.down text.now) end (K.pieces output.old) (K.pieces output.new)) }
        ensures stops { IfErr result (λ fault. LeavesLines fault (K.pieces output.old) (K.pieces output.new)
            (relayed self.up self.node self.down text.now).lines) }
        ensures cause { WriteCause result (K.fault_count output.old) (K.fault_count output.new) }
    {
        let RelayRun { mut chain, .. } = self;
        chain.take_lines(alloc, text, output)
    }
}
