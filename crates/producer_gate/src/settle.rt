//! How the seats of a gate are created, how one submits, and how many of their commands are left at the end. [`Gate`](crate::Gate) calls these.
ghost use Rattle.std.specs.Prelude.{◌≡◌, ◌==◌, ◌+◌, ◌<◌, ◌≤◌, All, IfOk, MatchBool, [], ◌∷◌, ◌++◌, count_by, length, map, sum_by, vec_len};
ghost use Rattle.crossbeam_queue.specs.Fifo.{Held};
ghost use Rattle.crossbeam_queue.specs.Passes.{view, IsPassOf, ruled_capacity};
ghost use Rattle.producer_gate.specs.declared.knows.Knows.TheVariants.{Pulls, Submits};
ghost use Rattle.producer_gate.specs.Commands.{named};
ghost use Rattle.producer_gate.specs.Inside.{items_in, pulled_in};
ghost use Rattle.producer_gate.specs.Ring.{WasSo};
ghost use Rattle.producer_gate.specs.Seats.{new_seat, new_seats, IsFront, left_of};
ghost use Rattle.producer_gate.specs.Views.{IsPulling};

use crate::command::Submitted;
use crate::gate::Seat;
use crate::knows::{Adds, Compares, Gives, Own, Ring, TakesIn};
use std::alloc::{AllocError, Global};
use std::sync::Wait;

/// Pushes the next command of a producer. Returns whether the ring had room for it.
pub(crate) fn push<R: Wait>(ring: &Ring, rt: &R, pass: &mut Own, command: Submitted) -> bool
    requires pass { IsPassOf ring.now pass.old × (view pass.old ≡ Submits command.producer (items_in (view pass.old))) }
    requires next { (length (items_in (view pass.old)) < 4096) × (command.number ≡ length (items_in (view pass.old)) + 1) }
    ensures pass { IsPassOf ring.now pass.new × (pass.new.table_id ≡ pass.old.table_id) }
    ensures pushed { MatchBool result
        (view pass.new ≡ Submits command.producer (items_in (view pass.old) ++ command.item ∷ []))
        ((view pass.new ≡ view pass.old) × Held (ruled_capacity ring.now) (WasSo (view pass.old))) }
{
    match ring.push_as::<Adds, R>(rt, pass, command) {
        Ok(()) => true,
        Err(_) => false,
    }
}

fn seated(pass: Own, producer: u32) -> Seat
    requires { (pass.me.1 ≡ []) × (view pass ≡ Submits producer []) }
    ensures { result ≡ new_seat pass.table_id producer }
{
    Seat {
        pass,
        producer,
        count: 0,
    }
}

/// Creates the seats of this many producers, numbered from 1. The pull seat's pass gives out their passes.
///
/// # Errors
///
/// `AllocError` if memory runs out.
pub(crate) fn seats_of(
    alloc: Global,
    ring: &Ring,
    pull: &mut Own,
    producers: u32,
) -> Result<Vec<Seat>, AllocError>
    requires { IsPassOf ring.now pull.old × (view pull.old ≡ Pulls 0 [] 0 []) }
    ensures pull { IfOk result (λ seats. IsPassOf ring.now pull.new × (view pull.new ≡ Pulls producers [] 0 [])) }
    ensures seats { IfOk result (λ seats. seats.items ≡ new_seats pull.new.table_id producers) }
    ensures own { IfOk result (λ seats. All (λ s. s.gate ≡ pull.new.table_id) seats.items × (vec_len seats ≡ producers)) }
{
    let mut seats = Vec::with_capacity(alloc, producers as usize)?;
    for made in 0..producers {
        let pass = ring.another::<Gives>(pull);
        seats.push_reserved(seated(pass, made + 1));
    }
    Ok(seats)
}

fn count_of(names: &[(u32, u64)], producer: u32) -> usize
    ensures { result ≡ count_by (λ e. e.0 == producer) names.now }
{
    names.iter().filter(|e| e.0 == producer).count()
}

/// Takes a seat in, and returns how many of its commands were not pulled.
fn left_behind(ring: &Ring, pull: &mut Own, names: &[(u32, u64)], seat: Seat) -> u32
    requires ring { IsPassOf ring.now pull.old × IsPulling (view pull.old) × (seat.gate ≡ pull.old.table_id) }
    requires names { names.now ≡ map named (pulled_in (view pull.old)) }
    ensures ring { IsPassOf ring.now pull.new × IsPulling (view pull.new) × (pulled_in (view pull.new) ≡ pulled_in (view pull.old)) × (pull.new.table_id ≡ pull.old.table_id) }
    ensures front { IsFront (pulled_in (view pull.old)) seat }
    ensures left { (result ≡ left_of (pulled_in (view pull.old)) seat) × (result ≤ 4096) }
{
    let Seat {
        pass,
        producer,
        count,
    } = seat;
    ring.absorb::<TakesIn>(pull, pass);
    ring.learn_as::<Compares>(pull);
    let pulled = count_of(names, producer) as u64;
    (count - pulled) as u32
}

/// Takes all seats in. Returns how many of their commands were not pulled.
pub(crate) fn rest_of(
    ring: &Ring,
    pull: &mut Own,
    names: &[(u32, u64)],
    mut seats: Vec<Seat>,
) -> u32
    requires ring { IsPassOf ring.now pull.old × IsPulling (view pull.old) × All (λ s. s.gate ≡ pull.old.table_id) seats.items }
    requires names { names.now ≡ map named (pulled_in (view pull.old)) }
    requires few { vec_len seats ≤ 4 }
    ensures front { All (IsFront (pulled_in (view pull.old))) seats.items }
    ensures rest { result ≡ sum_by (left_of (pulled_in (view pull.old))) seats.items }
{
    let mut rest = 0;
    while let Some(seat) = seats.pop() {
        rest += left_behind(ring, pull, names, seat);
    }
    rest
}
