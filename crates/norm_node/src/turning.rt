//! The turns of a receiver's run. [`ReceiverRun::turn`] has the order of its parts.

ghost use Rattle.std.specs.Prelude.{◌≡◌, ◌+◌, ◌<◌, IfErr, OnOk};
ghost use Rattle.norm_turns.specs.Causes.{HasCause, counted};
ghost use Rattle.norm_node.specs.Lone.{Between, Taking};
ghost use Rattle.norm_node.specs.RunKept.{Begun, At, asked};
ghost use Rattle.norm_node.specs.Shown.{Outside, outside};
ghost use Rattle.norm_node.specs.Turning.{TakesTurn, StopsTurn, TakesTurns, StopsTurns, IsNextTurn};

use crate::run::ReceiverRun;
use norm_base::{Clock, Datagram, Fabric, Files, Sink};
use norm_turns::{SessionFault, moment_of};

impl ReceiverRun {
    // Proof: a number of the profile, read by itself.
    fn step(&self) -> u32
        ensures { result ≡ self.entry.now.p.step }
    {
        self.profile.step
    }

    /// Begins the turn with this number. Its moment is that number times the profile's step. If the step is 0, it is the clock's, or the
    /// moment before if the clock went backwards.
    pub fn begin_turn<C: Clock>(&mut self, number: u32, clock: &mut C)
        requires number { number ≡ self.old.turn + 1 }
        requires left { self.old.turn < self.old.p.turns }
        ensures goes { (x : Begun) (o : Outside) → At x self.old Between (asked o (C.moments clock.old))
            → At x self.new (Taking 0) (asked o (C.moments clock.new)) }
        ensures turn { IsNextTurn self.old self.new }
    {
        let step = self.step();
        let moment = moment_of(number, step, self.now, clock);
        self.turn = number;
        self.now = moment;
    }

    /// Does the turn with this number: begins it, takes datagrams, reports what is handed up, and sends the receiver's answer.
    ///
    /// # Errors
    ///
    /// `Write`, `Fabric` or `Files` if a call failed, or `Memory`.
    pub fn turn<K: Sink, F: Fabric, D: Files, C: Clock>(
        &mut self,
        number: u32,
        output: &mut K,
        fabric: &mut F,
        files: &mut D,
        clock: &mut C,
        datagram: &mut Datagram,
    ) -> Result<(), SessionFault>
        requires number { number ≡ self.old.turn + 1 }
        requires left { self.old.turn < self.old.p.turns }
        ensures goes { OnOk result (TakesTurn self.old self.new
            (outside (F.told fabric.old) (K.pieces output.old) (D.contents files.old) (C.moments clock.old))
            (outside (F.told fabric.new) (K.pieces output.new) (D.contents files.new) (C.moments clock.new))) }
        ensures stops { IfErr result (λ fault. StopsTurn self.old fault
            (outside (F.told fabric.old) (K.pieces output.old) (D.contents files.old) (C.moments clock.old))
            (outside (F.told fabric.new) (K.pieces output.new) (D.contents files.new) (C.moments clock.new))) }
        ensures turn { OnOk result (IsNextTurn self.old self.new) }
        ensures cause { HasCause result (counted (K.fault_count output.old) (F.fault_count fabric.old) (D.fault_count files.old))
            (counted (K.fault_count output.new) (F.fault_count fabric.new) (D.fault_count files.new)) }
    {
        self.begin_turn(number, clock);
        self.take_all(fabric, datagram)?;
        self.hand_all(output, files)?;
        self.answer(fabric, datagram)?;
        Ok(())
    }

    fn last_turn(&self) -> u32
        ensures { result ≡ self.entry.now.p.turns }
    {
        self.profile.turns
    }

    /// Does all turns of the profile. Call it before any turn was done.
    ///
    /// # Errors
    ///
    /// As for [`turn`](ReceiverRun::turn).
    pub fn turns<K: Sink, F: Fabric, D: Files, C: Clock>(
        &mut self,
        output: &mut K,
        fabric: &mut F,
        files: &mut D,
        clock: &mut C,
        datagram: &mut Datagram,
    ) -> Result<(), SessionFault>
        requires { self.old.turn ≡ 0 }
        ensures goes { OnOk result (TakesTurns self.old self.new
            (outside (F.told fabric.old) (K.pieces output.old) (D.contents files.old) (C.moments clock.old))
            (outside (F.told fabric.new) (K.pieces output.new) (D.contents files.new) (C.moments clock.new))) }
        ensures stops { IfErr result (λ fault. StopsTurns self.old fault
            (outside (F.told fabric.old) (K.pieces output.old) (D.contents files.old) (C.moments clock.old))
            (outside (F.told fabric.new) (K.pieces output.new) (D.contents files.new) (C.moments clock.new))) }
        ensures cause { HasCause result (counted (K.fault_count output.old) (F.fault_count fabric.old) (D.fault_count files.old))
            (counted (K.fault_count output.new) (F.fault_count fabric.new) (D.fault_count files.new)) }
    {
        for i in 0..self.last_turn() {
            self.turn(i + 1, output, fabric, files, clock, datagram)?;
        }
        Ok(())
    }
}
