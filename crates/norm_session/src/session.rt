//! A whole session (RFC 5740 section 5): [`run_session`] for all members, [`run_send`] for the sender alone.

ghost use Rattle.std.specs.Prelude.{◌≡◌, ◌≤◌, List, Ok, Err, IfOk, IfErr};
ghost use Rattle.norm_journal.specs.declared.event.Event.{Event};
ghost use Rattle.norm_base.specs.Network.{Network};
ghost use Rattle.norm_turns.specs.Causes.{HasCause, WriteCause, counted};
ghost use Rattle.norm_session.specs.Context.{Context};
ghost use Rattle.norm_session.specs.Finishing.{HasEnded, TurnedScript};
ghost use Rattle.norm_session.specs.Lending.{failures, names, spanned};
ghost use Rattle.norm_script.specs.Scripts.{CanRun};
ghost use Rattle.norm_session.specs.Session.{RunsSession, RunsSender, RunsKept, StopsSession, StopsSender, StopsScript};
ghost use Rattle.norm_session.specs.Stopping.{Stopped};
ghost use Rattle.norm_session.specs.Turning.{AtLast, span};

use crate::arrivals::Arrivals;
use crate::lent::Lent;
use crate::producing::run_produced;
use crate::run::Run;
use crate::turning::turns_of;
use norm_base::{Clock, Datagram, Fabric, Files, Sink};
use norm_record::Journal;
use norm_script::Script;
use norm_turns::SessionFault;
use producer_gate::{Board, Turnstile};
use std::alloc::Global;
use std::sync::Wait;
use std::thread::Threads;

/// How a session ended. `whole` is false if the profile's turns were spent before everything was done.
#[derive(Drop)]
pub struct Ended {
    pub journal: Journal,
    pub whole: bool,
}

/// How a run of a script ended: its journal, or `None` if its sender is alone, and whether it was whole.
#[derive(Drop)]
struct Made {
    journal: Option<Journal>,
    whole: bool,
}

/// Runs a script's session, turn by turn. It ends when all commands were pulled, none waits, no watermark is open and the sender is idle,
/// or when the profile's turns are spent. It does at least one turn. Each line is one write of the output, and the summary is the last
/// line. The producers run beside it in other threads. If none can be started, they submit all their lines before the first turn.
///
/// # Errors
///
/// `Write`, `Fabric` or `Files` if a call of the output, the network or the files failed; `Absent` if a command's file is not there; or
/// `Memory`, also if the board has no room for an outcome or a count does not fit 64 bits.
// Proof: a prefix of a lawful run is lawful, so takes and files of a prefix are not looked at again (safe_throughout).
pub fn run_session<
    R: Threads + Wait + Sync,
    K: Sink,
    F: Fabric,
    D: Files,
    C: Clock,
    G: Turnstile + Sync,
>(
    rt: &R,
    alloc: Global,
    script: &Script,
    gate: &G,
    board: &mut Board,
    output: &mut K,
    fabric: &mut F,
    files: &mut D,
    clock: &mut C,
) -> Result<Ended, SessionFault>
    requires { CanRun script.now }
    ensures run { IfOk result (λ ended. RunsSession script.now (D.contents files.old) ended.journal ended.whole
        (span (F.told fabric.old) (F.told fabric.new) (K.pieces output.old) (K.pieces output.new) (C.moments clock.old) (C.moments clock.new) board.old board.new)) }
    ensures stops { IfErr result (λ fault. StopsSession fault script.now (D.contents files.old)
        (span (F.told fabric.old) (F.told fabric.new) (K.pieces output.old) (K.pieces output.new) (C.moments clock.old) (C.moments clock.new) board.old board.new)) }
    ensures files { D.contents files.new ≡ D.contents files.old }
    ensures cause { HasCause result (counted (K.fault_count output.old) (F.fault_count fabric.old) (D.fault_count files.old))
        (counted (K.fault_count output.new) (F.fault_count fabric.new) (D.fault_count files.new)) }
{
    match run_script(
        rt, alloc, script, false, gate, board, output, fabric, files, clock,
    ) {
        Ok(Made { journal, whole }) => Ok(Ended {
            // It does not fail: a run that is not alone keeps its journal.
            journal: journal.unwrap(),
            whole,
        }),
        // Only the fault: the events that were kept are dropped.
        Err(fault) => Err(fault),
    }
}

/// Runs only the sender of a script's session, whose receivers are elsewhere, as [`run_session`] does with all members. The network is
/// started for the sender's node. A datagram for any other node is passed over, and the summary counts no hand-up. No journal is kept.
/// Returns whether everything was done. If not, the turns were spent.
///
/// # Errors
///
/// Those of [`run_session`].
// No journal is kept, since nobody would read it and it would grow with each datagram. The clause says that a journal fits what
// was offered, taken and written.
pub fn run_send<
    R: Threads + Wait + Sync,
    K: Sink,
    F: Fabric,
    D: Files,
    C: Clock,
    G: Turnstile + Sync,
>(
    rt: &R,
    alloc: Global,
    script: &Script,
    gate: &G,
    board: &mut Board,
    output: &mut K,
    fabric: &mut F,
    files: &mut D,
    clock: &mut C,
) -> Result<bool, SessionFault>
    requires { CanRun script.now }
    ensures run { IfOk result (λ whole. (journal : List Event) × RunsSender script.now (D.contents files.old) journal whole
        (span (F.told fabric.old) (F.told fabric.new) (K.pieces output.old) (K.pieces output.new) (C.moments clock.old) (C.moments clock.new) board.old board.new)) }
    ensures stops { IfErr result (λ fault. StopsSender fault script.now (D.contents files.old)
        (span (F.told fabric.old) (F.told fabric.new) (K.pieces output.old) (K.pieces output.new) (C.moments clock.old) (C.moments clock.new) board.old board.new)) }
    ensures files { D.contents files.new ≡ D.contents files.old }
    ensures cause { HasCause result (counted (K.fault_count output.old) (F.fault_count fabric.old) (D.fault_count files.old))
        (counted (K.fault_count output.new) (F.fault_count fabric.new) (D.fault_count files.new)) }
{
    match run_script(
        rt, alloc, script, true, gate, board, output, fabric, files, clock,
    ) {
        Ok(made) => Ok(made.whole),
        Err(fault) => Err(fault),
    }
}

/// Runs a script up to turn `until` at the latest, over what its producers hand over.
pub(crate) fn run_turns<R: Wait, A: Arrivals, K: Sink, F: Fabric, D: Files, C: Clock>(
    rt: &R,
    alloc: Global,
    script: &Script,
    alone: bool,
    until: u32,
    arrivals: &mut A,
    board: &mut Board,
    lent: &mut Lent<'_, K, F, D, C>,
) -> Result<Run, SessionFault>
    requires script { CanRun script.now }
    requires turn { 1 ≤ until }
    ensures goes { IfOk result (λ run. TurnedScript alone script.now (D.contents lent.old.files.now) until run
        (spanned K.Sink F.Fabric C.Clock lent.old lent.new board.old board.new)) }
    ensures stops { IfErr result (λ fault. StopsScript alone fault script.now (D.contents lent.old.files.now)
        (spanned K.Sink F.Fabric C.Clock lent.old lent.new board.old board.new)) }
    ensures files { D.contents lent.new.files.now ≡ D.contents lent.old.files.now }
    ensures lent { names lent.new ≡ names lent.old }
    ensures cause { HasCause result (failures K.Sink F.Fabric D.Files lent.old) (failures K.Sink F.Fabric D.Files lent.new) }
{
    let mut datagram = Datagram::new(alloc)?;
    let mut run = Run::start(alloc, script, alone, lent.fabric)?;
    // Proof: no `?` here, since an exit that drops a run is dear.
    let turned = run.turns(rt, script, until, arrivals, board, lent, &mut datagram);
    turned.and(Ok(run))
}

/// Runs a script: its turns, and then the summary.
fn run_script<
    R: Threads + Wait + Sync,
    K: Sink,
    F: Fabric,
    D: Files,
    C: Clock,
    G: Turnstile + Sync,
>(
    rt: &R,
    alloc: Global,
    script: &Script,
    alone: bool,
    gate: &G,
    board: &mut Board,
    output: &mut K,
    fabric: &mut F,
    files: &mut D,
    clock: &mut C,
) -> Result<Made, SessionFault>
    requires { CanRun script.now }
    ensures run { IfOk result (λ made. RunsKept alone script.now (D.contents files.old) made.journal made.whole
        (span (F.told fabric.old) (F.told fabric.new) (K.pieces output.old) (K.pieces output.new) (C.moments clock.old) (C.moments clock.new) board.old board.new)) }
    ensures stops { IfErr result (λ fault. StopsScript alone fault script.now (D.contents files.old)
        (span (F.told fabric.old) (F.told fabric.new) (K.pieces output.old) (K.pieces output.new) (C.moments clock.old) (C.moments clock.new) board.old board.new)) }
    ensures files { D.contents files.new ≡ D.contents files.old }
    ensures cause { HasCause result (counted (K.fault_count output.old) (F.fault_count fabric.old) (D.fault_count files.old))
        (counted (K.fault_count output.new) (F.fault_count fabric.new) (D.fault_count files.new)) }
{
    let turns = turns_of(&script.profile);
    let mut run = run_produced(
        rt, alloc, script, alone, turns, gate, board, output, fabric, files, clock,
    )?;
    // Proof: no `?` here, since an exit that drops a run is dear.
    let whole = run.finish(script, output);
    made_of(run.into_journal(), whole)
}

/// What a run made, or the fault that stopped it.
fn made_of(
    journal: Option<Journal>,
    whole: Result<bool, SessionFault>,
) -> Result<Made, SessionFault>
    ensures made { IfOk result (λ made. (made.journal ≡ journal) × (whole ≡ Ok made.whole)) }
    ensures fault { IfErr result (λ fault. whole ≡ Err fault) }
{
    match whole {
        Ok(whole) => Ok(Made { journal, whole }),
        Err(fault) => Err(fault),
    }
}

impl Run {
    /// Returns the journal of the run, or `None` if its sender is alone.
    fn into_journal(self) -> Option<Journal>
        ensures { result ≡ self.journal }
    {
        self.into_parts().journal
    }

    /// Writes the summary after the last turn. Returns whether everything was done.
    fn finish<K: Sink>(&mut self, script: &Script, output: &mut K) -> Result<bool, SessionFault>
        ensures goes { IfOk result (λ whole. (x : Context) (network : Network) → AtLast x self.old network (K.pieces output.old) → x.script ≡ script.now
            → HasEnded x self.new whole network (K.pieces output.new)) }
        ensures stops { IfErr result (λ fault. (x : Context) (network : Network) → AtLast x self.old network (K.pieces output.old)
            → Stopped x fault network (K.pieces output.new)) }
        ensures cause { WriteCause result (K.fault_count output.old) (K.fault_count output.new) }
    {
        self.summarize(output)?;
        Ok(self.is_whole(script))
    }
}
