//! The summary of a run, after its last turn.

ghost use Rattle.std.specs.Prelude.{◌≡◌, true, IfErr, OnOk};
ghost use Rattle.norm_base.specs.Network.{Network};
ghost use Rattle.norm_journal.specs.Judged.{is_done};
ghost use Rattle.norm_journal.specs.Places.{Between, Over};
ghost use Rattle.norm_turns.specs.Causes.{WriteCause};
ghost use Rattle.norm_session.specs.Context.{Context, judged_of};
ghost use Rattle.norm_session.specs.SoFar.{At};
ghost use Rattle.norm_session.specs.Stopping.{Stopped};

use crate::run::Run;
use norm_base::Sink;
use norm_turns::{SessionFault, write_end};

impl Run {
    /// Writes the summary, which is the last line of a run. Call it after the last turn ([`is_done`](Run::is_done)).
    ///
    /// # Errors
    ///
    /// `Write` if the write failed, or `Memory`, after which nothing was written.
    pub fn summarize<K: Sink>(&mut self, output: &mut K) -> Result<(), SessionFault>
        ensures goes { OnOk result ((x : Context) (network : Network) (here : At x self.old Between network (K.pieces output.old))
            → is_done (judged_of x self.old here.world Between) ≡ true → At x self.new Over network (K.pieces output.new)) }
        ensures stops { IfErr result (λ fault. (x : Context) (network : Network) (here : At x self.old Between network (K.pieces output.old))
            → is_done (judged_of x self.old here.world Between) ≡ true → Stopped x fault network (K.pieces output.new)) }
        ensures cause { WriteCause result (K.fault_count output.old) (K.fault_count output.new) }
    {
        self.journal.push_end()?;
        write_end(&mut self.line, &self.totals, output)
    }
}
