//! Runs a script as the program does: with a board of its own that has one reader, and with producers that nothing holds up (`Through`).
//! `session` calls [`run_session`], with a tail [`run_until`], and `send` calls [`run_send`].

ghost use Rattle.std.specs.Prelude.{◌≡◌, ◌≤◌, List, IfOk, IfErr, true, false};
ghost use Rattle.norm_journal.specs.declared.event.Event.{Event};
ghost use Rattle.norm_turns.specs.Causes.{HasCause, counted};
ghost use Rattle.norm_script.specs.Scripts.{CanRun};
ghost use Rattle.norm_program.specs.Boarded.{PausesScript, RunsScript, StopsScript, span};

use norm_base::{Clock, Fabric, Files, Memory, Sink};
use norm_script::Script;
use norm_session::{Ended, Paused};
use norm_turns::SessionFault;
use producer_gate::{Board, Through};
use std::alloc::Global;
use std::sync::Wait;
use std::thread::Threads;

/// A script, and the turn up to which it is run, from 1.
#[derive(Clone, Copy)]
pub(crate) struct Part<'a> {
    pub script: &'a Script,
    pub until: u32,
}

/// A board with one reader, which is dropped: the program asks no board what became of its marks. `Memory` if memory runs out.
fn board_of(alloc: Global) -> Result<Board, Memory> {
    let (board, _readers) = Board::new(alloc, 1)?;
    Ok(board)
}

/// Runs a script's session and returns how it ended, with its journal. If memory runs out for the board, nothing is called.
pub(crate) fn run_session<R: Threads + Wait + Sync, K: Sink, F: Fabric, D: Files, C: Clock>(
    rt: &R,
    alloc: Global,
    script: &Script,
    output: &mut K,
    fabric: &mut F,
    files: &mut D,
    clock: &mut C,
) -> Result<Ended, SessionFault>
    requires { CanRun script.now }
    ensures run { IfOk result (λ ended. RunsScript false script.now (D.contents files.old) ended.journal ended.whole
        (span (F.told fabric.old) (F.told fabric.new) (K.pieces output.old) (K.pieces output.new) (C.moments clock.old) (C.moments clock.new))) }
    ensures stops { IfErr result (λ fault. StopsScript false fault script.now (D.contents files.old)
        (span (F.told fabric.old) (F.told fabric.new) (K.pieces output.old) (K.pieces output.new) (C.moments clock.old) (C.moments clock.new))) }
    ensures files { D.contents files.new ≡ D.contents files.old }
    ensures cause { HasCause result (counted (K.fault_count output.old) (F.fault_count fabric.old) (D.fault_count files.old))
        (counted (K.fault_count output.new) (F.fault_count fabric.new) (D.fault_count files.new)) }
{
    let mut board = match board_of(alloc) {
        Ok(board) => board,
        Err(Memory) => return Err(SessionFault::Memory),
    };
    norm_session::run_session(
        rt, alloc, script, &Through, &mut board, output, fabric, files, clock,
    )
}

/// Runs a script's session as far as its part goes, without its summary. If memory runs out for the board, nothing is called.
pub(crate) fn run_until<R: Threads + Wait + Sync, K: Sink, F: Fabric, D: Files, C: Clock>(
    rt: &R,
    alloc: Global,
    part: Part<'_>,
    output: &mut K,
    fabric: &mut F,
    files: &mut D,
    clock: &mut C,
) -> Result<Paused, SessionFault>
    requires script { CanRun part.script.now }
    requires turn { 1 ≤ part.until }
    ensures run { IfOk result (λ paused. PausesScript part.entry.script.now (D.contents files.old) part.entry.until paused
        (span (F.told fabric.old) (F.told fabric.new) (K.pieces output.old) (K.pieces output.new) (C.moments clock.old) (C.moments clock.new))) }
    ensures stops { IfErr result (λ fault. StopsScript false fault part.entry.script.now (D.contents files.old)
        (span (F.told fabric.old) (F.told fabric.new) (K.pieces output.old) (K.pieces output.new) (C.moments clock.old) (C.moments clock.new))) }
    ensures files { D.contents files.new ≡ D.contents files.old }
    ensures cause { HasCause result (counted (K.fault_count output.old) (F.fault_count fabric.old) (D.fault_count files.old))
        (counted (K.fault_count output.new) (F.fault_count fabric.new) (D.fault_count files.new)) }
{
    let mut board = match board_of(alloc) {
        Ok(board) => board,
        Err(Memory) => return Err(SessionFault::Memory),
    };
    norm_session::run_until(
        rt,
        alloc,
        part.script,
        &Through,
        &mut board,
        part.until,
        output,
        fabric,
        files,
        clock,
    )
}

/// Runs only the sender of a script's session. Returns whether everything was done. If memory runs out for the board, nothing is called.
pub(crate) fn run_send<R: Threads + Wait + Sync, K: Sink, F: Fabric, D: Files, C: Clock>(
    rt: &R,
    alloc: Global,
    script: &Script,
    output: &mut K,
    fabric: &mut F,
    files: &mut D,
    clock: &mut C,
) -> Result<bool, SessionFault>
    requires { CanRun script.now }
    ensures run { IfOk result (λ whole. (journal : List Event) × RunsScript true script.now (D.contents files.old) journal whole
        (span (F.told fabric.old) (F.told fabric.new) (K.pieces output.old) (K.pieces output.new) (C.moments clock.old) (C.moments clock.new))) }
    ensures stops { IfErr result (λ fault. StopsScript true fault script.now (D.contents files.old)
        (span (F.told fabric.old) (F.told fabric.new) (K.pieces output.old) (K.pieces output.new) (C.moments clock.old) (C.moments clock.new))) }
    ensures files { D.contents files.new ≡ D.contents files.old }
    ensures cause { HasCause result (counted (K.fault_count output.old) (F.fault_count fabric.old) (D.fault_count files.old))
        (counted (K.fault_count output.new) (F.fault_count fabric.new) (D.fault_count files.new)) }
{
    let mut board = match board_of(alloc) {
        Ok(board) => board,
        Err(Memory) => return Err(SessionFault::Memory),
    };
    norm_session::run_send(
        rt, alloc, script, &Through, &mut board, output, fabric, files, clock,
    )
}
