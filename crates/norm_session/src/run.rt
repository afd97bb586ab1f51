//! The state of a run between its calls.

ghost use Rattle.std.specs.Prelude.{◌≡◌};

use crate::left::Left;
use crate::noting::KeptJournal;
use norm_base::{Moment, NodeId, Profile};
use norm_journal::Totals;
use norm_text::Line;
use norm_world::World;
use rand_pcg::Lcg64Xsh32;
use std::alloc::Global;
use std::marker::Model;

/// A run of a script: its nodes, and its journal unless its sender is alone. The order of calls:
/// 1. [`start`](Run::start), which starts the network.
/// 2. [`turns`](Run::turns), which does all turns, or those up to a given one, over a [`Lent`](crate::Lent). It begins each with
///    [`begin_turn`](Run::begin_turn) and [`command`](Run::command). Then come [`tick_sender`](Run::tick_sender) and the offer,
///    [`take_all`](Run::take_all) and [`serve_all`](Run::serve_all). After the command, the sender's tick and each
///    datagram that was taken, [`tell_all`](Run::tell_all) reports the sender's news.
/// 3. [`summarize`](Run::summarize), which ends the run.
// Proof: a function's clause is said of every context (Context), from one stage of a turn to another.
// Proof: so a run keeps nothing of what it was begun over, and the clause of a turn is that of its functions, one after the other.
#[derive(Drop)]
pub struct Run {
    pub(crate) alloc: Global,
    pub(crate) profile: Profile,
    /// Whether the receivers are elsewhere.
    pub(crate) alone: bool,
    pub(crate) world: World,
    pub(crate) journal: KeptJournal,
    /// The line that is printed. Its memory is used again for the next one.
    // A run prints many short lines.
    pub(crate) line: Line,
    pub(crate) totals: Totals,
    pub(crate) draws: Lcg64Xsh32,
    pub(crate) turn: u32,
    pub(crate) now: Moment,
    pub(crate) left: Left,
    pub(crate) waiting: Option<usize>,
}

impl Model for Run {
    ghost use Rattle.norm_session.specs.RunKept.{RunKept};

    ghost Value = { RunKept };

    ghost use Rattle.norm_world.specs.WorldKept.{IsReady};

    ghost view = { λ r. record {
      p = r.profile;
      alone = r.alone;
      world = r.world;
      journal = r.journal;
      totals = r.totals;
      draws = r.draws;
      turn = r.turn;
      now = r.now;
      left = r.left;
      waiting = r.waiting;
    } };

    ghost invariant = { λ r. IsReady r.world };
}

pub(crate) fn sender_node(profile: &Profile) -> NodeId
    ensures { result ≡ profile.now.sender }
{
    // It does not fail: a profile's sender is a node.
    NodeId::of(profile.sender).unwrap()
}
