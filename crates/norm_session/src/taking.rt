//! Takes datagrams from the network, and delivers those for nodes of this run.

ghost use Rattle.std.specs.Prelude.{◌≡◌, ℕ, Some, None, IfOk, IfErr, OnOk};
ghost use Rattle.norm_base.specs.Network.{Network};
ghost use Rattle.norm_base.specs.Told.{Pieces};
ghost use Rattle.norm_journal.specs.Places.{Taking};
ghost use Rattle.norm_turns.specs.Causes.{HasCause, NetworkCause, NeedsMemory, counted};
ghost use Rattle.norm_session.specs.Context.{Context, with_posted};
ghost use Rattle.norm_session.specs.SoFar.{At, HasTaken, hands_next};
ghost use Rattle.norm_session.specs.Stopping.{Stopped};
ghost use Rattle.norm_session.specs.Taking.{Delivers, GoesOn, StopsAfter};

use crate::run::Run;
use norm_base::{Datagram, Fabric, NodeId, Sink};
use norm_turns::{MOST_TAKES, SessionFault, next_draw};
use producer_gate::Board;

impl Run {
    /// Delivers a datagram to the sender, or to a receiver with the next draw. Does nothing if the node is no member, or a receiver while
    /// the sender is alone.
    fn deliver(&mut self, to: NodeId, bytes: &[u8]) -> Result<(), SessionFault>
        ensures goes { OnOk result (Delivers self.old self.new to bytes.now) }
        ensures memory { IfErr result (λ fault. fault ≡ SessionFault.Memory) }
    {
        if !self.world.is_member(to) {
            return Ok(());
        }
        if !self.world.is_receiver(to) {
            // The draw is not used: the sender backs off from nothing.
            self.world.deliver(to, bytes, self.now, 0)?;
            return Ok(());
        }
        if self.alone {
            return Ok(());
        }
        let draw = next_draw(&mut self.draws);
        self.world.deliver(to, bytes, self.now, draw)?;
        Ok(())
    }

    /// Delivers a datagram that was taken, if its node is in this run, and notes the take. Returns true.
    fn take_in(&mut self, to: NodeId, bytes: &[u8]) -> Result<bool, SessionFault>
        ensures goes { IfOk result (λ took. GoesOn self.old self.new (Some (to, bytes.now)) took) }
        ensures stops { IfErr result (λ fault. StopsAfter self.old (Some (to, bytes.now)) fault) }
        ensures cause { NeedsMemory result }
    {
        self.deliver(to, bytes)?;
        self.journal.push_took(to, bytes)?;
        Ok(true)
    }

    /// Notes that the network had no datagram ready. Returns false.
    fn find_none(&mut self) -> Result<bool, SessionFault>
        ensures goes { IfOk result (λ took. GoesOn self.old self.new None took) }
        ensures stops { IfErr result (λ fault. StopsAfter self.old None fault) }
        ensures cause { NeedsMemory result }
    {
        self.journal.push_empty()?;
        Ok(false)
    }

    /// Takes a datagram from the network and delivers it, or passes over it if its node is not in this run. Returns false if the network
    /// has none ready.
    ///
    /// # Errors
    ///
    /// `Fabric` if the network failed, or `Memory`.
    // Proof: each arm is a function with a clause for every network, so what is left of the call itself is short.
    pub fn take<F: Fabric>(
        &mut self,
        fabric: &mut F,
        into: &mut Datagram,
    ) -> Result<bool, SessionFault>
        ensures goes { IfOk result (λ took. (x : Context) (written : Pieces) (count : ℕ) → At x self.old (Taking count) (F.told fabric.old) written
            → HasTaken took x self.new count (F.told fabric.new) written) }
        ensures stops { IfErr result (λ fault. (x : Context) (written : Pieces) (count : ℕ) → At x self.old (Taking count) (F.told fabric.old) written
            → Stopped x fault (F.told fabric.new) written) }
        ensures cause { NetworkCause result (F.fault_count fabric.old) (F.fault_count fabric.new) }
    {
        match fabric.take(into)? {
            Some(to) => self.take_in(to, into.bytes()),
            None => self.find_none(),
        }
    }

    /// Calls [`take`](Run::take) until the network has none ready, at most `MOST_TAKES` times. After each datagram it reports the sender's
    /// news ([`tell_all`](Run::tell_all)).
    ///
    /// # Errors
    ///
    /// `Write` or `Fabric` if a call failed, or `Memory`.
    pub fn take_all<F: Fabric, K: Sink>(
        &mut self,
        fabric: &mut F,
        board: &mut Board,
        output: &mut K,
        datagram: &mut Datagram,
    ) -> Result<(), SessionFault>
        ensures goes { OnOk result ((x : Context) → At (with_posted x board.old) self.old (Taking 0) (F.told fabric.old) (K.pieces output.old)
            → At (with_posted x board.new) self.new (hands_next x) (F.told fabric.new) (K.pieces output.new)) }
        ensures stops { IfErr result (λ fault. (x : Context) → At (with_posted x board.old) self.old (Taking 0) (F.told fabric.old) (K.pieces output.old)
            → Stopped (with_posted x board.new) fault (F.told fabric.new) (K.pieces output.new)) }
        ensures cause { (files : ℕ) → HasCause result (counted (K.fault_count output.old) (F.fault_count fabric.old) files)
            (counted (K.fault_count output.new) (F.fault_count fabric.new) files) }
    {
        for _ in 0..MOST_TAKES {
            if !self.take(fabric, datagram)? {
                return Ok(());
            }
            // After each datagram and not after all of them: of two rises of one member only the last would be reported then.
            self.tell_all(board, output)?;
        }
        Ok(())
    }
}
