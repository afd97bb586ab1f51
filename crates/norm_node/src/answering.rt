//! What a receiver sends: [`ReceiverRun::answer`] is the last part of a turn.

ghost use Rattle.std.specs.Prelude.{◌≡◌, ◌≤◌, [], length, IfErr, OnOk};
ghost use Rattle.norm_base.specs.Sizes.{datagram_room};
ghost use Rattle.norm_turns.specs.Causes.{NetworkCause};
ghost use Rattle.norm_node.specs.Lone.{Between, Handing, Offering};
ghost use Rattle.norm_node.specs.RunKept.{Begun, At, IsSameTurn, over};
ghost use Rattle.norm_node.specs.Shown.{Outside};
ghost use Rattle.norm_node.specs.Stopping.{Stopped};
ghost use Rattle.norm_node.specs.Taking.{after_sent};

use crate::run::ReceiverRun;
use norm_base::{Datagram, Fabric, Sent};
use norm_turns::SessionFault;

impl ReceiverRun {
    /// Ticks the receiver at the turn's moment. If it has a datagram to send, that is in `out` afterwards.
    fn tick(&mut self, out: &mut Datagram) -> Sent
        requires { self.old.receiver.hold.ups ≡ [] }
        ensures goes { (x : Begun) (o : Outside) → At x self.old Handing o → At x self.new (after_sent result out.new) o }
        ensures turn { IsSameTurn self.old self.new }
    {
        self.receiver.tick(self.now, out)
    }

    fn offer<F: Fabric>(&self, fabric: &mut F, bytes: &[u8]) -> Result<(), SessionFault>
        requires { length bytes.now ≤ datagram_room }
        ensures goes { OnOk result ((x : Begun) (o : Outside) → At x self.entry.now (Offering bytes.now) (over o (F.told fabric.old))
            → At x self.entry.now Between (over o (F.told fabric.new))) }
        ensures stops { IfErr result (λ fault. (x : Begun) (o : Outside) → At x self.entry.now (Offering bytes.now) (over o (F.told fabric.old))
            → Stopped x fault (over o (F.told fabric.new))) }
        ensures cause { NetworkCause result (F.fault_count fabric.old) (F.fault_count fabric.new) }
    {
        fabric.offer(self.node, bytes)?;
        Ok(())
    }

    /// Ticks the receiver and offers its datagram if it has one. Call it after [`hand_all`](ReceiverRun::hand_all): an acknowledgement may leave
    /// only after the user has what it confirms.
    ///
    /// # Errors
    ///
    /// `Fabric` if the network failed, or `Memory`.
    pub fn answer<F: Fabric>(
        &mut self,
        fabric: &mut F,
        datagram: &mut Datagram,
    ) -> Result<(), SessionFault>
        requires { self.old.receiver.hold.ups ≡ [] }
        ensures turn { OnOk result (IsSameTurn self.old self.new) }
        ensures goes { OnOk result ((x : Begun) (o : Outside) → At x self.old Handing (over o (F.told fabric.old))
            → At x self.new Between (over o (F.told fabric.new))) }
        ensures stops { IfErr result (λ fault. (x : Begun) (o : Outside) → At x self.old Handing (over o (F.told fabric.old))
            → Stopped x fault (over o (F.told fabric.new))) }
        ensures cause { NetworkCause result (F.fault_count fabric.old) (F.fault_count fabric.new) }
    {
        match self.tick(datagram) {
            Sent::Nothing => Ok(()),
            Sent::Datagram => self.offer(fabric, datagram.bytes()),
        }
    }
}
