//! A run that is taken apart.

ghost use Rattle.std.specs.Prelude.{◌≡◌};
ghost use Rattle.norm_world.specs.WorldKept.{IsReady};

use crate::run::Run;
use norm_base::Moment;
use norm_journal::Totals;
use norm_record::Journal;
use norm_world::World;
use rand_pcg::Lcg64Xsh32;

/// What a run made up to its last event, and what a caller needs to go on with its nodes.
#[derive(Drop)]
pub struct Parts {
    /// The run's journal, or `None` if its sender is alone.
    pub journal: Option<Journal>,
    pub draws: Lcg64Xsh32,
    pub totals: Totals,
    /// The last turn that began, 0 before the first.
    pub turn: u32,
    /// That turn's moment, 0 before the first.
    pub now: Moment,
    /// The index in the script of the line whose command waits: it was offered, and the sender had no room for it.
    pub waiting: Option<usize>,
    pub world: World,
}

impl Run {
    /// Takes a run apart. Which lines were not pulled yet is lost.
    pub fn into_parts(self) -> Parts
        ensures journal { result.journal ≡ self.journal }
        ensures draws { result.draws ≡ self.draws }
        ensures totals { result.totals ≡ self.totals }
        ensures turn { result.turn ≡ self.turn }
        ensures now { result.now ≡ self.now }
        ensures waiting { result.waiting ≡ self.waiting }
        ensures world { result.world ≡ self.world }
        ensures ready { IsReady result.world }
    {
        Parts {
            journal: self.journal.into_journal(),
            draws: self.draws,
            totals: self.totals,
            turn: self.turn,
            now: self.now,
            waiting: self.waiting,
            // Proof: the nodes come last, since each statement is dear while they are owned.
            world: self.world,
        }
    }
}
