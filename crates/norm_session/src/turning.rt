//! The turns of a run. A caller that does them itself, and not by [`Run::turns`], asks [`Run::is_done`] after each.

ghost use Rattle.std.specs.Prelude.{◌≡◌, ◌≤◌, ℕ, ◌==◌, ◌&&◌, ◌||◌, not, length, min, nat_le, is_none, slice_get, option_and_then, OnOk, IfErr};
ghost use Rattle.norm_journal.specs.Judged.{is_done, is_whole};
ghost use Rattle.norm_journal.specs.Places.{Place, Sending, Taking, Between};
ghost use Rattle.norm_safety.specs.World.{World as Rules};
ghost use Rattle.norm_turns.specs.Causes.{NeedsMemory, HasCause, counted};
ghost use Rattle.norm_send_rules.specs.Ticking.{is_idle};
ghost use Rattle.norm_send_rules.specs.Watermarks.{open_watermarks};
ghost use Rattle.norm_session.specs.Context.{Context, judged_of, with_posted};
ghost use Rattle.norm_session.specs.Left.{lines_at};
ghost use Rattle.norm_session.specs.Lending.{failures, names, spanned};
ghost use Rattle.norm_session.specs.SoFar.{HasAll, At};
ghost use Rattle.norm_session.specs.Stopping.{Stopped};
ghost use Rattle.norm_session.specs.Turning.{BeginsTurn, StopsBeginning, OpensTurn, StopsOpening, TakesTurn, StopsTurn, TakesTurns, StopsTurns};
ghost use Rattle.norm_world.specs.WorldKept.{StandsFor};

use crate::arrivals::Arrivals;
use crate::lent::Lent;
use crate::run::{Run, sender_node};
use norm_base::{Clock, Datagram, Fabric, Files, Profile, Sink};
use norm_script::Script;
use norm_turns::{SessionFault, moment_of};
use producer_gate::Board;
use std::sync::Wait;

/// The number of the profile's last turn, counted from 1.
pub(crate) fn turns_of(profile: &Profile) -> u32
    ensures value { result ≡ profile.now.turns }
    ensures least { 1 ≤ result }
{
    profile.turns
}

/// The last turn that a run may do if it goes no further than turn `until`.
fn last_turn(profile: &Profile, until: u32) -> u32
    requires { 1 ≤ until }
    ensures value { result ≡ min until profile.now.turns }
    ensures least { 1 ≤ result }
{
    until.min(turns_of(profile))
}

fn not_both(first: bool, second: bool) -> bool
    ensures { result ≡ not (first && second) }
{
    !(first && second)
}

fn all_three(first: bool, second: bool, third: bool) -> bool
    ensures { result ≡ (first && (second && third)) }
{
    first && second && third
}

fn with_either(first: bool, second: bool, third: bool) -> bool
    ensures { result ≡ (first && (second || third)) }
{
    first && (second || third)
}

impl Run {
    pub(crate) fn has_pulled_all(&self, script: &Script) -> bool
        ensures { result ≡ (length (lines_at script.now.lines self.entry.now.left) == 0) }
    {
        self.left.is_empty(&script.lines)
    }

    fn has_none_waiting(&self, script: &Script) -> bool
        ensures { result ≡ is_none (option_and_then (slice_get script.now.lines) self.entry.now.waiting) }
    {
        match self.waiting {
            Some(place) => script.lines.get(place).is_none(),
            None => true,
        }
    }

    /// Whether a command was not pulled yet, or waits.
    pub(crate) fn has_commands(&self, script: &Script) -> bool
        ensures { result ≡ not (length (lines_at script.now.lines self.entry.now.left) == 0
            && is_none (option_and_then (slice_get script.now.lines) self.entry.now.waiting)) }
    {
        let pulled = self.has_pulled_all(script);
        let none = self.has_none_waiting(script);
        not_both(pulled, none)
    }

    /// Whether no watermark is open and the sender is idle.
    fn is_idle(&self) -> bool
        ensures { (w : Rules) → StandsFor self.entry.now.world w
            → result ≡ (length (open_watermarks w.sender) == 0 && is_idle self.entry.now.world.sender.p w.sender) }
    {
        let sender = self.world.sender();
        sender.open_requests() == 0 && sender.idle()
    }

    /// Whether all commands were pulled, none waits, no watermark is open, and the sender is idle.
    pub fn is_whole(&self, script: &Script) -> bool
        ensures { (x : Context) (w : Rules) (place : Place) → HasAll x self.entry.now → x.script ≡ script.now → StandsFor self.entry.now.world w
            → result ≡ is_whole (judged_of x self.entry.now w place) }
    {
        let pulled = self.has_pulled_all(script);
        let none = self.has_none_waiting(script);
        let idle = self.is_idle();
        all_three(pulled, none, idle)
    }

    /// Whether the profile's last turn began.
    fn is_last(&self) -> bool
        ensures { result ≡ (self.entry.now.turn == self.entry.now.p.turns) }
    {
        self.turn == self.profile.turns
    }

    fn has_turned(&self) -> bool
        ensures { result ≡ nat_le 1 self.entry.now.turn }
    {
        1 <= self.turn
    }

    /// Whether the last turn was done: the first after which the run is whole, or the profile's last. Call it between turns.
    pub fn is_done(&self, script: &Script) -> bool
        ensures { (x : Context) (w : Rules) (place : Place) → HasAll x self.entry.now → x.script ≡ script.now → StandsFor self.entry.now.world w
            → result ≡ is_done (judged_of x self.entry.now w place) }
    {
        let turned = self.has_turned();
        let whole = self.is_whole(script);
        let last = self.is_last();
        // At least one turn, since a script without commands is whole before any.
        with_either(turned, whole, last)
    }

    // Proof: a number of the profile, read by itself.
    fn step(&self) -> u32
        ensures { result ≡ self.entry.now.p.step }
    {
        self.profile.step
    }

    /// Begins the next turn. Its moment is its number times the profile's `step`. If `step` is 0, it is the clock's, which is asked once,
    /// or that of the turn before if the clock went backwards.
    ///
    /// # Errors
    ///
    /// `Memory` if memory runs out.
    pub fn begin_turn<C: Clock>(&mut self, clock: &mut C) -> Result<(), SessionFault>
        ensures goes { OnOk result (BeginsTurn self.old self.new (C.moments clock.old) (C.moments clock.new)) }
        ensures stops { IfErr result (λ fault. StopsBeginning self.old fault (C.moments clock.old) (C.moments clock.new)) }
        ensures cause { NeedsMemory result }
    {
        // `None` is beyond any profile's last turn: a profile has at most 4,000,000 turns.
        let Some(turn) = self.turn.checked_add(1) else {
            return Err(SessionFault::Memory);
        };
        let step = self.step();
        let moment = moment_of(turn, step, self.now, clock);
        // Before the turn begins: if memory runs out here, the run is still in the turn before.
        self.journal.push_turn(turn, moment)?;
        self.turn = turn;
        self.now = moment;
        Ok(())
    }

    /// Begins a turn, does its command, and reports the sender's news.
    fn open_turn<R: Wait, A: Arrivals, K: Sink, D: Files, C: Clock>(
        &mut self,
        rt: &R,
        script: &Script,
        arrivals: &mut A,
        board: &mut Board,
        output: &mut K,
        files: &mut D,
        clock: &mut C,
    ) -> Result<(), SessionFault>
        ensures goes { OnOk result (OpensTurn script.now (D.contents files.old) self.old self.new board.old board.new
            (K.pieces output.old) (K.pieces output.new) (C.moments clock.old) (C.moments clock.new)) }
        ensures stops { IfErr result (λ fault. StopsOpening script.now (D.contents files.old) self.old fault board.old board.new
            (K.pieces output.old) (K.pieces output.new) (C.moments clock.old) (C.moments clock.new)) }
        ensures same { D.contents files.new ≡ D.contents files.old }
        ensures cause { (network : ℕ) → HasCause result (counted (K.fault_count output.old) network (D.fault_count files.old))
            (counted (K.fault_count output.new) network (D.fault_count files.new)) }
    {
        self.begin_turn(clock)?;
        self.command(rt, script, arrivals, files, output)?;
        self.tell_all(board, output)?;
        Ok(())
    }

    /// Ticks the sender, reports its news, and offers what it sent.
    fn send<F: Fabric, K: Sink>(
        &mut self,
        fabric: &mut F,
        board: &mut Board,
        output: &mut K,
        datagram: &mut Datagram,
    ) -> Result<(), SessionFault>
        ensures goes { OnOk result ((x : Context) → At (with_posted x board.old) self.old Sending (F.told fabric.old) (K.pieces output.old)
            → At (with_posted x board.new) self.new (Taking 0) (F.told fabric.new) (K.pieces output.new)) }
        ensures stops { IfErr result (λ fault. (x : Context) → At (with_posted x board.old) self.old Sending (F.told fabric.old) (K.pieces output.old)
            → Stopped (with_posted x board.new) fault (F.told fabric.new) (K.pieces output.new)) }
        ensures cause { (files : ℕ) → HasCause result (counted (K.fault_count output.old) (F.fault_count fabric.old) files)
            (counted (K.fault_count output.new) (F.fault_count fabric.new) files) }
    {
        let node = sender_node(&self.profile);
        // The news before the offer: what the tick changed is printed before any member can answer to the datagram.
        let sent = self.tick_sender(datagram)?;
        self.tell_all(board, output)?;
        self.offer_sent(fabric, node, sent, datagram)?;
        Ok(())
    }

    /// Does what a turn does with the network: the sender's tick, the takes, and the receivers' parts.
    fn exchange<F: Fabric, K: Sink>(
        &mut self,
        fabric: &mut F,
        board: &mut Board,
        output: &mut K,
        datagram: &mut Datagram,
    ) -> Result<(), SessionFault>
        ensures goes { OnOk result ((x : Context) → At (with_posted x board.old) self.old Sending (F.told fabric.old) (K.pieces output.old)
            → At (with_posted x board.new) self.new Between (F.told fabric.new) (K.pieces output.new)) }
        ensures stops { IfErr result (λ fault. (x : Context) → At (with_posted x board.old) self.old Sending (F.told fabric.old) (K.pieces output.old)
            → Stopped (with_posted x board.new) fault (F.told fabric.new) (K.pieces output.new)) }
        ensures cause { (files : ℕ) → HasCause result (counted (K.fault_count output.old) (F.fault_count fabric.old) files)
            (counted (K.fault_count output.new) (F.fault_count fabric.new) files) }
    {
        self.send(fabric, board, output, datagram)?;
        // The sender first, then the takes, then the receivers: so in one turn a datagram of the sender may be handed up and answered.
        self.take_all(fabric, board, output, datagram)?;
        self.serve_all(fabric, output, datagram)?;
        Ok(())
    }

    /// Does one turn: its command, and then what it does with the network.
    fn turn<R: Wait, A: Arrivals, K: Sink, F: Fabric, D: Files, C: Clock>(
        &mut self,
        rt: &R,
        script: &Script,
        arrivals: &mut A,
        board: &mut Board,
        lent: &mut Lent<'_, K, F, D, C>,
        datagram: &mut Datagram,
    ) -> Result<(), SessionFault>
        ensures goes { OnOk result (TakesTurn script.now (D.contents lent.old.files.now) self.old self.new
            (spanned K.Sink F.Fabric C.Clock lent.old lent.new board.old board.new)) }
        ensures stops { IfErr result (λ fault. StopsTurn script.now (D.contents lent.old.files.now) self.old fault
            (spanned K.Sink F.Fabric C.Clock lent.old lent.new board.old board.new)) }
        ensures same { D.contents lent.new.files.now ≡ D.contents lent.old.files.now }
        ensures lent { names lent.new ≡ names lent.old }
        ensures cause { HasCause result (failures K.Sink F.Fabric D.Files lent.old) (failures K.Sink F.Fabric D.Files lent.new) }
    {
        self.open_turn(
            rt,
            script,
            arrivals,
            board,
            lent.output,
            lent.files,
            lent.clock,
        )?;
        self.exchange(lent.fabric, board, lent.output, datagram)?;
        Ok(())
    }

    /// Does all turns up to turn `until`, or to the first after which the run is whole, or to the profile's last. Call it before any other
    /// turn.
    ///
    /// # Errors
    ///
    /// `Write`, `Fabric` or `Files` if a call failed, `Absent` if a command's file is not there, or `Memory`.
    // Proof: only the states know the end, so the loop has a bound, and the judge's state says how many turns there were.
    pub fn turns<R: Wait, A: Arrivals, K: Sink, F: Fabric, D: Files, C: Clock>(
        &mut self,
        rt: &R,
        script: &Script,
        until: u32,
        arrivals: &mut A,
        board: &mut Board,
        lent: &mut Lent<'_, K, F, D, C>,
        datagram: &mut Datagram,
    ) -> Result<(), SessionFault>
        requires { 1 ≤ until }
        ensures goes { OnOk result (TakesTurns script.now (D.contents lent.old.files.now) until self.old self.new
            (spanned K.Sink F.Fabric C.Clock lent.old lent.new board.old board.new)) }
        ensures stops { IfErr result (λ fault. StopsTurns script.now (D.contents lent.old.files.now) self.old fault
            (spanned K.Sink F.Fabric C.Clock lent.old lent.new board.old board.new)) }
        ensures same { D.contents lent.new.files.now ≡ D.contents lent.old.files.now }
        ensures lent { names lent.new ≡ names lent.old }
        ensures cause { HasCause result (failures K.Sink F.Fabric D.Files lent.old) (failures K.Sink F.Fabric D.Files lent.new) }
    {
        for _ in 0..last_turn(&script.profile, until) {
            if self.is_done(script) {
                return Ok(());
            }
            self.turn(rt, script, arrivals, board, lent, datagram)?;
        }
        Ok(())
    }
}
