//! [`GatherRun`]: what `gather` makes of a text. `norm_program` calls it.

ghost use Rattle.std.specs.Prelude.{◌≡◌, ◌≤◌, length, IfOk, IfErr};
ghost use Rattle.norm_multi.specs.Beginning.{IsFault};
ghost use Rattle.norm_turns.specs.Causes.{WriteCause};
ghost use Rattle.driven_nodes.specs.Gathered.{gathered};
ghost use Rattle.driven_nodes.specs.Writing.{LeavesLines, TookLines};

use crate::gathering::Gathering;
use norm_base::{NodeId, Profile, Sink};
use norm_multi::MultiFault;
use norm_show::NoDatagram;
use norm_turns::SessionFault;
use std::alloc::Global;
use std::marker::Model;

/// The receivers of several senders, which heard nothing yet. For contracts it is its profiles and nodes.
#[derive(Drop)]
pub struct GatherRun {
    members: Vec<(Profile, NodeId)>,
    gathering: Gathering,
}

impl Model for GatherRun {
    ghost use Rattle.std.specs.Prelude.{ℕ, List};
    ghost use Rattle.norm_base.specs.Settings.{Settings};
    ghost use Rattle.driven_nodes.specs.Gathered.{opening};
    ghost use Rattle.driven_nodes.specs.Hearing.{StandsFor};

    ghost Value = { List (Settings × ℕ) };

    ghost view = { λ r. r.members.items };

    ghost invariant = { λ r. StandsFor r.members.items r.gathering (opening r.members.items) };
}

impl GatherRun {
    /// Begins to hear the senders of these profiles, each as the node beside its profile.
    ///
    /// # Errors
    ///
    /// `NotReceiver` or `SameId`, the first that applies, or `Memory`.
    pub fn begin(alloc: Global, members: Vec<(Profile, NodeId)>) -> Result<GatherRun, MultiFault>
        requires { length members.items ≤ 8 }
        ensures begun { IfOk result (λ run. run ≡ members.items) }
        ensures fault { IfErr result (λ why. IsFault why members.items) }
    {
        let gathering = Gathering::begin(alloc, &members)?;
        Ok(GatherRun { members, gathering })
    }

    /// Takes the lines of a text, and writes what is printed of them, with the last line. If a line spells no datagram, returns its number, counted
    /// from 1, and why, and takes no further one.
    ///
    /// # Errors
    ///
    /// `Write` if a write failed, or `Memory`.
    pub fn take_lines<K: Sink>(
        self,
        alloc: Global,
        text: &[u8],
        output: &mut K,
    ) -> Result<Option<(u64, NoDatagram)>, SessionFault>
        ensures goes { IfOk result (λ stop. TookLines (gathered self text.now) (K.pieces output.old) (K.pieces output.new) stop) }
        ensures stops { IfErr result (λ fault. LeavesLines fault (K.pieces output.old) (K.pieces output.new) (gathered self text.now).lines) }
        ensures cause { WriteCause result (K.fault_count output.old) (K.fault_count output.new) }
    {
        let GatherRun {
            members,
            mut gathering,
        } = self;
        gathering.take_lines(alloc, &members, text, output)
    }
}
