//! A session that stops after a turn, without its summary: [`run_until`].

ghost use Rattle.std.specs.Prelude.{◌≡◌, ◌≤◌, IfOk, IfErr, IsSome};
ghost use Rattle.norm_script.specs.Scripts.{CanRun};
ghost use Rattle.norm_session.specs.Pausing.{IsTakenApart, PausesSession};
ghost use Rattle.norm_session.specs.Session.{StopsSession};
ghost use Rattle.norm_session.specs.Turning.{span};
ghost use Rattle.norm_turns.specs.Causes.{HasCause, counted};

use crate::parts::Parts;
use crate::producing::run_produced;
use crate::run::Run;
use norm_base::{Clock, Fabric, Files, Moment, Sink};
use norm_journal::Totals;
use norm_record::Journal;
use norm_script::Script;
use norm_turns::SessionFault;
use norm_world::World;
use producer_gate::{Board, Turnstile};
use rand_pcg::Lcg64Xsh32;
use std::alloc::Global;
use std::sync::Wait;
use std::thread::Threads;

/// A session that stopped after a turn: what a caller needs to go on with its nodes, and what its summary would have said.
#[derive(Drop)]
pub struct Paused {
    pub journal: Journal,
    /// They go on where those that the turns used end.
    pub draws: Lcg64Xsh32,
    /// Whether all commands were pulled, none waits, no watermark is open, and the sender is idle.
    pub whole: bool,
    /// Whether a command was not pulled yet, or waits.
    pub waiting: bool,
    /// The last turn, counted from 1.
    pub turn: u32,
    /// That turn's moment.
    pub last: Moment,
    /// The counts of the summary that was not written.
    pub counts: Totals,
    /// The nodes, which stand for the journal's events.
    pub world: World,
}

/// Runs a script's session as [`run_session`](crate::run_session) does, but no further than turn `until`, and writes no summary.
///
/// # Errors
///
/// Those of [`run_session`](crate::run_session).
pub fn run_until<
    R: Threads + Wait + Sync,
    K: Sink,
    F: Fabric,
    D: Files,
    C: Clock,
    G: Turnstile + Sync,
>(
    rt: &R,
    alloc: Global,
    script: &Script,
    gate: &G,
    board: &mut Board,
    until: u32,
    output: &mut K,
    fabric: &mut F,
    files: &mut D,
    clock: &mut C,
) -> Result<Paused, SessionFault>
    requires script { CanRun script.now }
    requires turn { 1 ≤ until }
    ensures run { IfOk result (λ paused. PausesSession script.now (D.contents files.old) until paused
        (span (F.told fabric.old) (F.told fabric.new) (K.pieces output.old) (K.pieces output.new) (C.moments clock.old) (C.moments clock.new) board.old board.new)) }
    ensures stops { IfErr result (λ fault. StopsSession fault script.now (D.contents files.old)
        (span (F.told fabric.old) (F.told fabric.new) (K.pieces output.old) (K.pieces output.new) (C.moments clock.old) (C.moments clock.new) board.old board.new)) }
    ensures files { D.contents files.new ≡ D.contents files.old }
    ensures cause { HasCause result (counted (K.fault_count output.old) (F.fault_count fabric.old) (D.fault_count files.old))
        (counted (K.fault_count output.new) (F.fault_count fabric.new) (D.fault_count files.new)) }
{
    let run = run_produced(
        rt, alloc, script, false, until, gate, board, output, fabric, files, clock,
    )?;
    Ok(run.pause(script))
}

impl Run {
    /// Takes a run apart after a turn.
    fn pause(self, script: &Script) -> Paused
        requires { IsSome self.journal }
        ensures { IsTakenApart script.now self result }
    {
        let whole = self.is_whole(script);
        let waiting = self.has_commands(script);
        let Parts {
            journal,
            draws,
            totals,
            turn,
            now,
            waiting: _place,
            world,
        } = self.into_parts();
        Paused {
            journal: journal.unwrap(),
            draws,
            whole,
            waiting,
            turn,
            last: now,
            counts: totals,
            // Proof: the nodes come last, since each statement is dear while they are owned.
            world,
        }
    }
}
