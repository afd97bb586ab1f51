//! The receivers' parts of a turn.

ghost use Rattle.std.specs.Prelude.{◌≡◌, ℕ, List, true, IfErr, OnOk};
ghost use Rattle.norm_base.specs.Members.{is_receiver};
ghost use Rattle.norm_journal.specs.Places.{Handing, Between, handing};
ghost use Rattle.norm_turns.specs.Causes.{HasCause, counted};
ghost use Rattle.norm_session.specs.Context.{Context};
ghost use Rattle.norm_session.specs.SoFar.{At};
ghost use Rattle.norm_session.specs.Stopping.{Stopped};

use crate::run::Run;
use norm_base::{Datagram, Fabric, NodeId, Sent, Sink};
use norm_turns::SessionFault;

impl Run {
    /// Does a receiver's part of a turn: takes all its hand-ups, ticks it, and offers its datagram if it gave one. Does nothing if the node
    /// is not a receiver.
    ///
    /// # Errors
    ///
    /// `Write` or `Fabric` if a call failed, or `Memory`.
    pub fn serve<F: Fabric, K: Sink>(
        &mut self,
        fabric: &mut F,
        output: &mut K,
        node: NodeId,
        datagram: &mut Datagram,
    ) -> Result<(), SessionFault>
        ensures goes { OnOk result ((x : Context) (nodes : List ℕ) → is_receiver self.old.p node ≡ true
            → At x self.old (Handing node nodes) (F.told fabric.old) (K.pieces output.old)
            → At x self.new (handing nodes) (F.told fabric.new) (K.pieces output.new)) }
        ensures stops { IfErr result (λ fault. (x : Context) (nodes : List ℕ)
            → At x self.old (Handing node nodes) (F.told fabric.old) (K.pieces output.old) → Stopped x fault (F.told fabric.new) (K.pieces output.new)) }
        ensures cause { (files : ℕ) → HasCause result (counted (K.fault_count output.old) (F.fault_count fabric.old) files)
            (counted (K.fault_count output.new) (F.fault_count fabric.new) files) }
    {
        if !self.world.is_receiver(node) {
            return Ok(());
        }
        self.hand_all(output, node)?;
        let sent = self.tick_receiver(node, datagram)?;
        match sent {
            Sent::Nothing => Ok(()),
            Sent::Datagram => self.offer(fabric, node, datagram.bytes()),
        }
    }

    /// Does the parts of all receivers, in the order of their ids. Does nothing if the sender is alone.
    ///
    /// # Errors
    ///
    /// As for [`serve`](Run::serve).
    pub fn serve_all<F: Fabric, K: Sink>(
        &mut self,
        fabric: &mut F,
        output: &mut K,
        datagram: &mut Datagram,
    ) -> Result<(), SessionFault>
        ensures goes { OnOk result ((x : Context) → At x self.old (handing x.nodes) (F.told fabric.old) (K.pieces output.old)
            → At x self.new Between (F.told fabric.new) (K.pieces output.new)) }
        ensures stops { IfErr result (λ fault. (x : Context) → At x self.old (handing x.nodes) (F.told fabric.old) (K.pieces output.old)
            → Stopped x fault (F.told fabric.new) (K.pieces output.new)) }
        ensures cause { (files : ℕ) → HasCause result (counted (K.fault_count output.old) (F.fault_count fabric.old) files)
            (counted (K.fault_count output.new) (F.fault_count fabric.new) files) }
    {
        if self.alone {
            return Ok(());
        }
        let profile = self.profile;
        for i in 0..u32::from(profile.receivers) {
            self.serve(fabric, output, profile.receiver(i), datagram)?;
        }
        Ok(())
    }
}
