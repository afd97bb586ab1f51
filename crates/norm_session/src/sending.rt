//! The sender's tick, and offers of datagrams to the network.

ghost use Rattle.std.specs.Prelude.{◌≡◌, ◌≤◌, ℕ, length, IfOk, IfErr, OnOk};
ghost use Rattle.norm_base.specs.Network.{Network};
ghost use Rattle.norm_base.specs.Sizes.{datagram_room};
ghost use Rattle.norm_base.specs.Told.{Pieces};
ghost use Rattle.norm_journal.specs.Places.{Place, Sending, Offering, Taking};
ghost use Rattle.norm_turns.specs.Causes.{NetworkCause, NeedsMemory};
ghost use Rattle.norm_session.specs.Context.{Context};
ghost use Rattle.norm_session.specs.SoFar.{At, IsTelling, after_sent};
ghost use Rattle.norm_session.specs.Stopping.{Stopped};

use crate::run::{Run, sender_node};
use norm_base::{Datagram, Fabric, NodeId, Sent};
use norm_turns::SessionFault;

impl Run {
    /// Ticks the sender. Report its news next ([`tell_all`](Run::tell_all)). If this returns `Sent::Datagram`, [`offer`](Run::offer) the
    /// datagram in `out` after that.
    ///
    /// # Errors
    ///
    /// `Memory` if memory runs out.
    pub fn tick_sender(&mut self, out: &mut Datagram) -> Result<Sent, SessionFault>
        ensures goes { IfOk result (λ said. (x : Context) (network : Network) (written : Pieces) → At x self.old Sending network written
            → IsTelling x self.new (after_sent self.old.p.sender said out.new (Taking 0)) network written) }
        ensures stops { IfErr result (λ fault. (x : Context) (network : Network) (written : Pieces) → At x self.old Sending network written
            → Stopped x fault network written) }
        ensures cause { NeedsMemory result }
    {
        let sent = self.world.tick_sender(self.now, out);
        let node = sender_node(&self.profile);
        self.journal.push_tick(node, sent)?;
        Ok(sent)
    }

    /// Offers a node's datagram to the network, and notes the offer if a journal is kept.
    ///
    /// # Errors
    ///
    /// `Fabric` if the network failed, or `Memory`. After `Memory` the datagram may have been offered.
    pub fn offer<F: Fabric>(
        &mut self,
        fabric: &mut F,
        from: NodeId,
        bytes: &[u8],
    ) -> Result<(), SessionFault>
        requires { length bytes.now ≤ datagram_room }
        ensures goes { OnOk result ((x : Context) (written : Pieces) (after : Place) → At x self.old (Offering from bytes.now after) (F.told fabric.old) written
            → At x self.new after (F.told fabric.new) written) }
        ensures stops { IfErr result (λ fault. (x : Context) (written : Pieces) (after : Place)
            → At x self.old (Offering from bytes.now after) (F.told fabric.old) written → Stopped x fault (F.told fabric.new) written) }
        ensures cause { NetworkCause result (F.fault_count fabric.old) (F.fault_count fabric.new) }
    {
        fabric.offer(from, bytes)?;
        self.journal.push_offer(from, bytes)?;
        Ok(())
    }

    /// Offers the datagram of a tick, if the tick gave one.
    ///
    /// # Errors
    ///
    /// As for [`offer`](Run::offer).
    pub(crate) fn offer_sent<F: Fabric>(
        &mut self,
        fabric: &mut F,
        node: NodeId,
        sent: Sent,
        datagram: &Datagram,
    ) -> Result<(), SessionFault>
        ensures goes { OnOk result ((x : Context) (written : Pieces) (after : Place) → At x self.old (after_sent node sent datagram.now after) (F.told fabric.old) written
            → At x self.new after (F.told fabric.new) written) }
        ensures stops { IfErr result (λ fault. (x : Context) (written : Pieces) (after : Place)
            → At x self.old (after_sent node sent datagram.now after) (F.told fabric.old) written → Stopped x fault (F.told fabric.new) written) }
        ensures cause { NetworkCause result (F.fault_count fabric.old) (F.fault_count fabric.new) }
    {
        match sent {
            Sent::Nothing => Ok(()),
            Sent::Datagram => self.offer(fabric, node, datagram.bytes()),
        }
    }
}
