//! The takes of a turn: datagrams come from the network to the receiver.

ghost use Rattle.std.specs.Prelude.{◌≡◌, ℕ, Some, None, IfOk, IfErr, OnOk};
ghost use Rattle.norm_turns.specs.Causes.{NetworkCause, NeedsMemory};
ghost use Rattle.norm_node.specs.Lone.{Taking, Handing, reaches};
ghost use Rattle.norm_node.specs.RunKept.{Begun, At, IsSameTurn, over};
ghost use Rattle.norm_node.specs.Shown.{Outside};
ghost use Rattle.norm_node.specs.Stopping.{Stopped};
ghost use Rattle.norm_node.specs.Taking.{Delivers, HasTaken};

use crate::run::ReceiverRun;
use norm_base::{Datagram, Fabric, NodeId};
use norm_turns::{MOST_TAKES, SessionFault, next_draw};

fn reaches(to: NodeId, node: NodeId) -> bool
    ensures { result ≡ reaches to node }
{
    to.number() == node.number()
}

impl ReceiverRun {
    /// Delivers a datagram to the receiver with the next draw. Does nothing and uses no draw if it is for another node.
    fn deliver(&mut self, to: NodeId, bytes: &[u8]) -> Result<(), SessionFault>
        ensures goes { OnOk result (Delivers self.old self.new to bytes.now) }
        ensures turn { OnOk result (IsSameTurn self.old self.new) }
        ensures cause { NeedsMemory result }
    {
        if !reaches(to, self.node) {
            return Ok(());
        }
        let draw = next_draw(&mut self.draws);
        self.receiver.deliver(bytes, self.now, draw)?;
        Ok(())
    }

    /// Takes a datagram from the network and delivers it, or passes over it if it is for another node. Returns false if the network has none ready.
    ///
    /// # Errors
    ///
    /// `Fabric` if the network failed, or `Memory`.
    pub fn take<F: Fabric>(
        &mut self,
        fabric: &mut F,
        into: &mut Datagram,
    ) -> Result<bool, SessionFault>
        ensures goes { IfOk result (λ took. (x : Begun) (o : Outside) (count : ℕ) → At x self.old (Taking count) (over o (F.told fabric.old))
            → HasTaken took x self.new count (over o (F.told fabric.new))) }
        ensures stops { IfErr result (λ fault. (x : Begun) (o : Outside) (count : ℕ) → At x self.old (Taking count) (over o (F.told fabric.old))
            → Stopped x fault (over o (F.told fabric.new))) }
        ensures turn { OnOk result (IsSameTurn self.old self.new) }
        ensures cause { NetworkCause result (F.fault_count fabric.old) (F.fault_count fabric.new) }
    {
        match fabric.take(into)? {
            Some(to) => {
                self.deliver(to, into.bytes())?;
                Ok(true)
            }
            None => Ok(false),
        }
    }

    /// Takes and delivers datagrams until the network has none ready, at most `MOST_TAKES` of them, those for other nodes included.
    ///
    /// # Errors
    ///
    /// As for [`take`](ReceiverRun::take).
    pub fn take_all<F: Fabric>(
        &mut self,
        fabric: &mut F,
        datagram: &mut Datagram,
    ) -> Result<(), SessionFault>
        ensures goes { OnOk result ((x : Begun) (o : Outside) → At x self.old (Taking 0) (over o (F.told fabric.old))
            → At x self.new Handing (over o (F.told fabric.new))) }
        ensures stops { IfErr result (λ fault. (x : Begun) (o : Outside) → At x self.old (Taking 0) (over o (F.told fabric.old))
            → Stopped x fault (over o (F.told fabric.new))) }
        ensures turn { OnOk result (IsSameTurn self.old self.new) }
        ensures cause { NetworkCause result (F.fault_count fabric.old) (F.fault_count fabric.new) }
    {
        for _ in 0..MOST_TAKES {
            if !self.take(fabric, datagram)? {
                return Ok(());
            }
        }
        Ok(())
    }
}
