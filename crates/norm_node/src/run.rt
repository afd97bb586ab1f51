//! The state of a receiver's run between its calls.

ghost use Rattle.std.specs.Prelude.{◌≡◌, IfOk};
ghost use Rattle.norm_node.specs.Lone.{Between};
ghost use Rattle.norm_node.specs.RunKept.{At};
ghost use Rattle.norm_node.specs.Runs.{begun};
ghost use Rattle.norm_node.specs.Shown.{Outside};

use norm_base::{Memory, Moment, NodeId, Profile};
use norm_receiver::Receiver;
use norm_text::Line;
use norm_turns::first_draws;
use rand_pcg::Lcg64Xsh32;
use std::alloc::Global;
use std::marker::Model;

/// A receiver that runs alone. Start the network for its node, then call [`turns`](ReceiverRun::turns), or in each turn:
/// 1. [`begin_turn`](ReceiverRun::begin_turn), which gives the turn its moment.
/// 2. [`take_all`](ReceiverRun::take_all), which delivers what the network has.
/// 3. [`hand_all`](ReceiverRun::hand_all), which puts the files that were handed up, and prints a line for each hand-up.
/// 4. [`answer`](ReceiverRun::answer), which sends what the receiver has to say.
#[derive(Drop)]
pub struct ReceiverRun {
    pub(crate) alloc: Global,
    pub(crate) profile: Profile,
    pub(crate) node: NodeId,
    pub(crate) receiver: Receiver,
    /// The line that is printed. Its memory is used again for the next one.
    pub(crate) line: Line,
    pub(crate) draws: Lcg64Xsh32,
    pub(crate) turn: u32,
    pub(crate) now: Moment,
}

impl Model for ReceiverRun {
    ghost use Rattle.norm_node.specs.RunKept.{RunKept};

    ghost Value = { RunKept };

    ghost view = { λ r. record {
      p = r.profile;
      node = r.node;
      receiver = r.receiver;
      draws = r.draws;
      turn = r.turn;
      now = r.now;
    } };
}

impl ReceiverRun {
    /// A node's receiver before its first turn. The network is not started.
    ///
    /// # Errors
    ///
    /// `Memory` if memory runs out.
    pub fn new(alloc: Global, profile: &Profile, node: NodeId) -> Result<ReceiverRun, Memory>
        ensures begun { IfOk result (λ run. (o : Outside) → At (begun profile.now node o) run Between o) }
        ensures turn { IfOk result (λ run. run.turn ≡ 0) }
        ensures profile { IfOk result (λ run. run.p ≡ profile.now) }
    {
        let receiver = Receiver::new(alloc, profile, node)?;
        let draws = first_draws(profile);
        Ok(ReceiverRun {
            alloc,
            profile: *profile,
            node,
            receiver,
            line: Line::new(alloc),
            draws,
            turn: 0,
            now: Moment(0),
        })
    }
}
