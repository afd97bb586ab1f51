//! Producers beside a session. Each submits the indices of its lines to a ring, and the thread that runs the session pulls from it.

ghost use Rattle.std.specs.Prelude.{◌≡◌, ◌≤◌, All, IfErr, IfOk, length, max};
ghost use Rattle.norm_turns.specs.Causes.{HasCause, counted};
ghost use Rattle.norm_script.specs.Scripts.{CanRun};
ghost use Rattle.norm_session.specs.Finishing.{TurnedScript};
ghost use Rattle.norm_session.specs.Session.{StopsScript};
ghost use Rattle.norm_session.specs.Turning.{span};

use crate::arrivals::{Arrivals, Arrived};
use crate::beside::{Lent, Work, take_back};
use crate::run::Run;
use crate::session::run_turns;
use norm_base::{Clock, Fabric, Files, Memory, Sink};
use norm_script::{Line, Script};
use norm_turns::SessionFault;
use producer_gate::{Board, Gate, GateFault, PullSeat, Seat, Turnstile};
use std::alloc::Global;
use std::sync::Wait;
use std::thread;
use std::thread::Threads;

/// The most producers of a session.
// The key `producers` goes up to 4. A script with a greater number is refused.
const MOST_PRODUCERS: usize = 4;

/// The ring's end at which the session pulls.
#[derive(Drop)]
struct Pulled<'g, R: Wait> {
    rt: &'g R,
    ring: &'g Gate,
    pull: &'g mut PullSeat,
    ghost own: { pull.now.gate ≡ ring.now.id },
}

impl<R: Wait> Arrivals for Pulled<'_, R> {
    fn arrive(&mut self) -> Option<Arrived> {
        let command = self.ring.pull(self.rt, self.pull)?;
        Some(Arrived {
            producer: command.producer,
            place: command.item,
        })
    }
}

/// Submits a line's index. Tries again while the ring is full, and gives up if the seat has no submission left.
fn insist<R: Wait>(rt: &R, ring: &Gate, seat: &mut Seat, place: u32)
    requires { seat.old.gate ≡ ring.now.id }
    ensures { seat.new.gate ≡ seat.old.gate }
{
    // Proof: the label names the loop for its invariant.
    'tries: for _ in rt.forever() {
        match ring.submit(rt, seat, place) {
            // Not taken: the ring has a slot for each line. With a smaller ring the producer would try again.
            Err((_place, GateFault::Full)) => thread::yield_now(),
            // Not taken: a script has at most 4,096 commands, which a seat may submit.
            Err((_place, GateFault::TooMany)) => break,
            Ok(_number) => break,
        }
    }
}

/// Submits the indices of one producer's lines in their order, and passes the turnstile before each.
fn produce<R: Wait, G: Turnstile>(
    rt: &R,
    lines: &[Line],
    gate: &G,
    ring: &Gate,
    seat: &mut Seat,
    producer: u64,
)
    requires own { seat.old.gate ≡ ring.now.id }
    requires few { length lines.now ≤ 4096 }
    ensures { seat.new.gate ≡ seat.old.gate }
{
    // Proof: the label names the loop for its invariant.
    'lines: for place in 0..lines.len() {
        let line = &lines[place];
        if u64::from(line.producer) == producer {
            gate.pass(line.producer, line.number);
            insist(rt, ring, seat, place as u32);
        }
    }
}

/// Runs all producers, each in a thread of its own if that can be started, one of them in this thread.
fn produce_all<R: Threads + Wait + Sync, G: Turnstile + Sync>(
    rt: &R,
    lines: &[Line],
    gate: &G,
    ring: &Gate,
    seats: &mut [Seat],
)
    requires own { All (λ s. s.gate ≡ ring.now.id) seats.old }
    requires few { length lines.now ≤ 4096 }
{
    thread::for_each_mut(
        rt,
        seats,
        MOST_PRODUCERS,
        &|at, seat| produce(rt, lines, gate, ring, seat, at as u64 + 1),
    );
}

/// Does the work while another thread runs the producers, or after they ran if that thread cannot be started.
fn work_beside<R: Threads + Wait + Sync, G: Turnstile + Sync, W: Work<Given = A> + Drop, A>(
    rt: &R,
    lines: &[Line],
    gate: &G,
    ring: &Gate,
    seats: &mut [Seat],
    work: W,
) -> A
    requires own { All (λ s. s.gate ≡ ring.now.id) seats.old }
    requires few { length lines.now ≤ 4096 }
    requires can { W.can_run work }
    ensures { W.run_gives work result }
{
    let list = &mut *seats;
    thread::scope(
        thread::scope_env(),
        rt,
        move |scope| -> A
            requires { All (λ s. s.gate ≡ ring.now.id) list.now × (length lines.now ≤ 4096) × W.can_run work }
            ensures { W.run_gives work result }
        {
            let started = scope.spawn(
                move ||
                    requires { All (λ s. s.gate ≡ ring.now.id) list.now × (length lines.now ≤ 4096) }
                { produce_all(rt, lines, gate, ring, list) },
            );
            // Without a thread the producers run here and now. After the work would be too late: it would wait for ever for their lines.
            match started {
                Ok(thread) => drop(thread),
                Err(refused) => (refused.value)(),
            }
            work.run()
        },
    )
}

/// As [`work_beside`], for a closure.
fn beside_producers<R: Threads + Wait + Sync, G: Turnstile + Sync, F: FnMut() -> A, A>(
    rt: &R,
    lines: &[Line],
    gate: &G,
    ring: &Gate,
    seats: &mut [Seat],
    work: &mut F,
) -> A
    requires own { All (λ s. s.gate ≡ ring.now.id) seats.old }
    requires few { length lines.now ≤ 4096 }
    requires can { F.pre work.old }
    ensures { F.step work.old result work.new }
{
    let (back, made) = work_beside(rt, lines, gate, ring, seats, Lent { f: work });
    take_back(back);
    made
}

/// A ring with a slot for each line, so that producers can end before anything is pulled, with a seat for each producer. `Memory` if memory
/// runs out.
fn ring_for(alloc: Global, script: &Script) -> Result<(Gate, Vec<Seat>, PullSeat), Memory>
    requires { CanRun script.now }
    ensures seats { IfOk result (λ made. All (λ s. s.gate ≡ made.0.id) made.1.items) }
    ensures pull { IfOk result (λ made. made.2.gate ≡ made.0.id) }
    ensures capacity { IfOk result (λ made. made.0.capacity ≡ max (length script.now.lines) 1) }
{
    // The ring takes no capacity of 0.
    let places = script.lines.len().max(1) as u32;
    Gate::new(alloc, u32::from(script.profile.producers), places)
}

/// Runs a script up to turn `until` at the latest, in this thread. Its lines come out of the ring.
fn run_pulled<R: Wait, K: Sink, F: Fabric, D: Files, C: Clock>(
    rt: &R,
    alloc: Global,
    script: &Script,
    alone: bool,
    until: u32,
    ring: &Gate,
    pull: &mut PullSeat,
    board: &mut Board,
    output: &mut K,
    fabric: &mut F,
    files: &mut D,
    clock: &mut C,
) -> Result<Run, SessionFault>
    requires script { CanRun script.now }
    requires turn { 1 ≤ until }
    requires own { pull.old.gate ≡ ring.now.id }
    ensures goes { IfOk result (λ run. TurnedScript alone script.now (D.contents files.old) until run
        (span (F.told fabric.old) (F.told fabric.new) (K.pieces output.old) (K.pieces output.new) (C.moments clock.old) (C.moments clock.new) board.old board.new)) }
    ensures stops { IfErr result (λ fault. StopsScript alone fault script.now (D.contents files.old)
        (span (F.told fabric.old) (F.told fabric.new) (K.pieces output.old) (K.pieces output.new) (C.moments clock.old) (C.moments clock.new) board.old board.new)) }
    ensures files { D.contents files.new ≡ D.contents files.old }
    ensures cause { HasCause result (counted (K.fault_count output.old) (F.fault_count fabric.old) (D.fault_count files.old))
        (counted (K.fault_count output.new) (F.fault_count fabric.new) (D.fault_count files.new)) }
{
    let mut arrivals = Pulled { rt, ring, pull };
    let mut lent = crate::lent::Lent::of(output, fabric, files, clock);
    run_turns(
        rt,
        alloc,
        script,
        alone,
        until,
        &mut arrivals,
        board,
        &mut lent,
    )
}

/// Runs a script up to turn `until` at the latest, with its producers in other threads, or before if none can be started.
pub(crate) fn run_produced<
    R: Threads + Wait + Sync,
    K: Sink,
    F: Fabric,
    D: Files,
    C: Clock,
    G: Turnstile + Sync,
>(
    rt: &R,
    alloc: Global,
    script: &Script,
    alone: bool,
    until: u32,
    gate: &G,
    board: &mut Board,
    output: &mut K,
    fabric: &mut F,
    files: &mut D,
    clock: &mut C,
) -> Result<Run, SessionFault>
    requires script { CanRun script.now }
    requires turn { 1 ≤ until }
    ensures goes { IfOk result (λ run. TurnedScript alone script.now (D.contents files.old) until run
        (span (F.told fabric.old) (F.told fabric.new) (K.pieces output.old) (K.pieces output.new) (C.moments clock.old) (C.moments clock.new) board.old board.new)) }
    ensures stops { IfErr result (λ fault. StopsScript alone fault script.now (D.contents files.old)
        (span (F.told fabric.old) (F.told fabric.new) (K.pieces output.old) (K.pieces output.new) (C.moments clock.old) (C.moments clock.new) board.old board.new)) }
    ensures files { D.contents files.new ≡ D.contents files.old }
    ensures cause { HasCause result (counted (K.fault_count output.old) (F.fault_count fabric.old) (D.fault_count files.old))
        (counted (K.fault_count output.new) (F.fault_count fabric.new) (D.fault_count files.new)) }
{
    let (ring, mut seats, mut pull) = ring_for(alloc, script)?;
    let (shared, list) = (&ring, seats.as_mut_slice());
    let lines = script.lines.as_slice();
    beside_producers(
        rt,
        lines,
        gate,
        shared,
        list,
        &mut || {
            run_pulled(
                rt, alloc, script, alone, until, shared, &mut pull, board, output, fabric, files,
                clock,
            )
        },
    )
}
