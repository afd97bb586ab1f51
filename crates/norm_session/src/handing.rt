//! A receiver's hand-ups, and its tick.

ghost use Rattle.std.specs.Prelude.{◌≡◌, ℕ, List, true, false, IfOk, IfErr, OnOk};
ghost use Rattle.norm_base.specs.Members.{is_receiver};
ghost use Rattle.norm_base.specs.Network.{Network};
ghost use Rattle.norm_base.specs.Told.{Pieces};
ghost use Rattle.norm_journal.specs.Places.{Handing, handing};
ghost use Rattle.norm_journal.specs.Totals.{with_up};
ghost use Rattle.norm_journal.specs.declared.event.Event.TheVariants as event;
ghost use Rattle.norm_turns.specs.Causes.{WriteCause, NeedsMemory};
ghost use Rattle.norm_session.specs.Context.{Context};
ghost use Rattle.norm_session.specs.Handing.{HasTakenAll};
ghost use Rattle.norm_session.specs.Noting.{noted};
ghost use Rattle.norm_session.specs.SoFar.{At, after_sent};
ghost use Rattle.norm_session.specs.Stopping.{Stopped};
ghost use Rattle.norm_world.specs.WorldMoves.{AreTaken, receiver_of};

use crate::noting::KeptJournal;
use crate::run::Run;
use norm_base::{Datagram, InstanceId, NodeId, Sent, Sink};
use norm_journal::{Totals, up_line};
use norm_order::Up;
use norm_turns::{SessionFault, up_notice, write_line};

/// Adds a hand-up to the journal, and counts it if it is an object, the end of a stream or a loss. `Memory` also if a count does not fit 64
/// bits.
fn note_up(
    totals: &mut Totals,
    journal: &mut KeptJournal,
    node: NodeId,
    instance: InstanceId,
    up: Up,
) -> Result<(), SessionFault>
    ensures counted { OnOk result (totals.new ≡ with_up up totals.old) }
    ensures noted { OnOk result (journal.new ≡ noted journal.old (event.Up node instance up)) }
    ensures cause { NeedsMemory result }
{
    // The counts are exact, so one that does not fit 64 bits ends the run. It has no fault of its own: that takes 2^64 hand-ups.
    if !totals.has_room_for_up(&up) {
        return Err(SessionFault::Memory);
    }
    totals.count_up(&up);
    journal.push_up(node, instance, up)?;
    Ok(())
}

impl Run {
    /// Takes a receiver's next hand-up, notes it, and writes its line. Counts it if it is an object, the end of a stream or a loss. Returns
    /// false if none is left.
    ///
    /// # Errors
    ///
    /// `Write` if the write failed, or `Memory`, also if a count does not fit 64 bits.
    pub fn hand_up<K: Sink>(&mut self, output: &mut K, node: NodeId) -> Result<bool, SessionFault>
        requires { is_receiver self.old.world.p node ≡ true }
        ensures goes { IfOk result (λ more. (x : Context) (nodes : List ℕ) (network : Network)
            → At x self.old (Handing node nodes) network (K.pieces output.old) → At x self.new (Handing node nodes) network (K.pieces output.new)) }
        ensures stops { IfErr result (λ fault. (x : Context) (nodes : List ℕ) (network : Network)
            → At x self.old (Handing node nodes) network (K.pieces output.old) → Stopped x fault network (K.pieces output.new)) }
        ensures none { IfOk result (λ more. more ≡ false → AreTaken (receiver_of self.new.world node) × (self.new ≡ self.old)) }
        ensures nodes { OnOk result (self.new.world.p ≡ self.old.world.p) }
        ensures cause { WriteCause result (K.fault_count output.old) (K.fault_count output.new) }
    {
        let within = self.world.instance_at(node);
        let Some(up) = self.world.take_up(node) else {
            return Ok(false);
        };
        // A receiver that hands something up is in an instance.
        let Some(instance) = within else {
            return Err(SessionFault::Memory);
        };
        up_line(&mut self.line, node, instance, &up)?;
        let notice = up_notice(&up);
        note_up(&mut self.totals, &mut self.journal, node, instance, up)?;
        write_line(true, &self.line, &notice, output)?;
        Ok(true)
    }

    /// Takes all hand-ups of a receiver and writes a line for each.
    ///
    /// # Errors
    ///
    /// As for [`hand_up`](Run::hand_up).
    pub fn hand_all<K: Sink>(&mut self, output: &mut K, node: NodeId) -> Result<(), SessionFault>
        requires { is_receiver self.old.world.p node ≡ true }
        ensures goes { OnOk result ((x : Context) (nodes : List ℕ) (network : Network)
            → At x self.old (Handing node nodes) network (K.pieces output.old) → At x self.new (Handing node nodes) network (K.pieces output.new)) }
        ensures stops { IfErr result (λ fault. (x : Context) (nodes : List ℕ) (network : Network)
            → At x self.old (Handing node nodes) network (K.pieces output.old) → Stopped x fault network (K.pieces output.new)) }
        ensures taken { OnOk result (HasTakenAll self.new.world node) }
        ensures nodes { OnOk result (self.new.world.p ≡ self.old.world.p) }
        ensures cause { WriteCause result (K.fault_count output.old) (K.fault_count output.new) }
    {
        for _ in 0..self.world.receiver(node).ups() {
            self.hand_up(output, node)?;
        }
        // Never taken: the loop took as many as there were.
        if self.world.receiver(node).ups() > 0 {
            return Err(SessionFault::Memory);
        }
        Ok(())
    }

    /// Ticks a receiver. Call it after [`hand_all`](Run::hand_all) took all its hand-ups. If it returns `Sent::Datagram`,
    /// [`offer`](Run::offer) the datagram in `out` next.
    ///
    /// # Errors
    ///
    /// `Memory` if memory runs out.
    pub fn tick_receiver(&mut self, node: NodeId, out: &mut Datagram) -> Result<Sent, SessionFault>
        requires receiver { is_receiver self.old.world.p node ≡ true }
        requires taken { HasTakenAll self.old.world node }
        ensures goes { IfOk result (λ said. (x : Context) (nodes : List ℕ) (network : Network) (written : Pieces)
            → At x self.old (Handing node nodes) network written → At x self.new (after_sent node said out.new (handing nodes)) network written) }
        ensures stops { IfErr result (λ fault. (x : Context) (nodes : List ℕ) (network : Network) (written : Pieces)
            → At x self.old (Handing node nodes) network written → Stopped x fault network written) }
        ensures cause { NeedsMemory result }
    {
        let sent = self.world.tick_receiver(node, self.now, out);
        self.journal.push_tick(node, sent)?;
        Ok(sent)
    }
}
