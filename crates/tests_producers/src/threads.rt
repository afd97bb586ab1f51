//! Tests of producers and the one who pulls, each in its own thread.
ghost use Rattle.std.specs.Prelude.{◌≡◌, ◌≤◌, All};

use norm_base::Memory;
use producer_gate::{Gate, PullSeat, Seat, Submitted};
use std::alloc::Global;
use std::sync::Wait;
use std::test::Fail;
use std::thread;
use std::thread::{Threads, join_mut};

/// How many items each producer submits. A producer may submit no more.
const EACH: u32 = 4096;

/// Submits an item again and again until it is taken.
fn insist<R: Wait>(rt: &R, gate: &Gate, seat: &mut Seat, item: u32)
    requires { seat.old.gate ≡ gate.now.id }
    ensures { seat.new.gate ≡ seat.old.gate }
{
    // Proof: the label names the loop for its invariant.
    'tries: for _ in rt.forever() {
        if gate.submit(rt, seat, item).is_ok() {
            break;
        }
        thread::yield_now();
    }
}

/// Submits the items 1 to `EACH` in order.
fn produce<R: Wait>(rt: &R, gate: &Gate, seat: &mut Seat)
    requires { seat.old.gate ≡ gate.now.id }
    ensures { seat.new.gate ≡ seat.old.gate }
{
    // Proof: the label names the loop for its invariant.
    'items: for item in 0..EACH {
        insist(rt, gate, seat, item + 1);
    }
}

/// Pulls until `into` has this many commands, or until memory runs out.
fn pull_all<R: Wait>(
    rt: &R,
    gate: &Gate,
    seat: &mut PullSeat,
    into: &mut Vec<Submitted>,
    count: usize,
)
    requires { seat.old.gate ≡ gate.now.id }
{
    // Proof: the label names the loop for its invariant.
    'pulls: for _ in rt.forever() {
        if into.len() >= count {
            break;
        }
        match gate.pull(rt, seat) {
            Some(command) => {
                if into.push(command).is_err() {
                    break;
                }
            }
            None => thread::yield_now(),
        }
    }
}

/// Runs all producers, each in its own thread.
fn produce_all<R: Threads + Wait + Sync>(rt: &R, gate: &Gate, seats: &mut [Seat])
    requires { All (λ s. s.gate ≡ gate.now.id) seats.old }
{
    thread::for_each_mut(rt, seats, 4, &|_, seat| produce(rt, gate, seat));
}

/// What was pulled of this many producers, at a ring of this many slots.
///
/// # Errors
///
/// `Memory` if memory runs out before the producers begin.
fn pulled_of<R: Threads + Wait + Sync>(
    rt: &R,
    alloc: Global,
    producers: u32,
    capacity: u32,
) -> Result<Vec<Submitted>, Memory>
    requires producers { (1 ≤ producers) × (producers ≤ 4) }
    requires capacity { (1 ≤ capacity) × (capacity ≤ 16384) }
{
    let (gate, mut seats, mut pull) = Gate::new(alloc, producers, capacity)?;
    let mut into = Vec::new(alloc);
    let count = producers as usize * EACH as usize;
    let (shared, list) = (&gate, seats.as_mut_slice());
    join_mut(
        rt,
        &mut ||
            requires { All (λ s. s.gate ≡ shared.now.id) list.now }
        { produce_all(rt, shared, list) },
        &mut || pull_all(rt, shared, &mut pull, &mut into, count),
    );
    Ok(into)
}

/// Whether these are all commands of this many producers: each once, and those of each producer in its order and with its items.
fn all_in_order(pulled: &[Submitted], producers: u32) -> bool {
    let mut counts = [0u32; 5];
    for command in pulled {
        let producer = command.producer as usize;
        if producer == 0 || producer >= counts.len() || counts[producer] >= EACH {
            return false;
        }
        counts[producer] += 1;
        if command.number != u64::from(counts[producer]) || command.item != counts[producer] {
            return false;
        }
    }
    (1..5).all(|producer| counts[producer]
        == if producer <= producers as usize {
            EACH
        } else {
            0
        })
}

/// Runs this many producers at a ring of 64 slots. Returns whether all commands came, in order.
fn come_in_order<R: Threads + Wait + Sync>(rt: &R, alloc: Global, producers: u32) -> bool
    requires { (1 ≤ producers) × (producers ≤ 4) }
{
    match pulled_of(rt, alloc, producers, 64) {
        Ok(pulled) => all_in_order(&pulled, producers),
        Err(Memory) => false,
    }
}

#[test]
fn nothing_is_lost_doubled_or_out_of_order(rt: HostRuntime) {
    for run in 0..50 {
        for producers in 2..5 {
            let whole = come_in_order(&rt, rt.alloc(), producers);
            assert!(rt; whole, "run {run} of {producers} producers");
        }
    }
}
