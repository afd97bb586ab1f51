//! Tests of a gate and a board in one thread.
ghost use Rattle.std.specs.Prelude.{◌≡◌, All, IfSome};

use mark_book::Outcome;
use norm_base::Memory;
use producer_gate::{
    Board, BoardReader, Gate, GateFault, Order, PullSeat, Seat, Seen, Submitted, Through, Turnstile,
};
use std::alloc::Global;
use std::sync::Wait;
use std::test::Fail;

/// What each call of the small ring returned: three submits, three pulls, and the order at the end.
#[derive(Debug, Drop)]
struct Answers {
    submits: [Result<u64, (u32, GateFault)>; 3],
    pulls: [Option<(u32, u64)>; 3],
    order: Order,
}

/// The producer and the number of what was pulled.
fn name_of(pulled: Option<Submitted>) -> Option<(u32, u64)> {
    pulled.map(|command| (command.producer, command.number))
}

/// Passes the turnstile, and then submits.
fn submit<R: Wait>(
    rt: &R,
    gate: &Gate,
    seat: &mut Seat,
    producer: u32,
    item: u32,
) -> Result<u64, (u32, GateFault)>
    requires { seat.old.gate ≡ gate.now.id }
    ensures { seat.new.gate ≡ seat.old.gate }
{
    Through.pass(producer, 1);
    gate.submit(rt, seat, item)
}

/// Pulls, and returns the producer and the number of the command, if one came.
fn pull<R: Wait>(rt: &R, gate: &Gate, seat: &mut PullSeat) -> Option<(u32, u64)>
    requires { seat.old.gate ≡ gate.now.id }
    ensures { seat.new.gate ≡ seat.old.gate }
{
    name_of(gate.pull(rt, seat))
}

/// Both seats of a list of two.
fn both(gate: &Gate, mut seats: Vec<Seat>) -> Option<(Seat, Seat)>
    requires { All (λ s. s.gate ≡ gate.now.id) seats.items }
    ensures { IfSome result (λ pair. (pair.0.gate ≡ gate.now.id) × (pair.1.gate ≡ gate.now.id)) }
{
    let second = seats.pop()?;
    let first = seats.pop()?;
    Some((first, second))
}

/// Runs two producers at a ring of one slot.
fn small_ring<R: Wait>(rt: &R, alloc: Global) -> Result<Option<Answers>, Memory> {
    let (gate, seats, mut all) = Gate::new(alloc, 2, 1)?;
    let Some((mut first, mut second)) = both(&gate, seats) else {
        return Ok(None);
    };
    let one = submit(rt, &gate, &mut first, 1, 7);
    let full = submit(rt, &gate, &mut second, 2, 8);
    let pulled = pull(rt, &gate, &mut all);
    let again = submit(rt, &gate, &mut second, 2, 8);
    let next = pull(rt, &gate, &mut all);
    let none = pull(rt, &gate, &mut all);
    let seats = Vec::from_array(alloc, [first, second])?;
    let order = gate.close(seats, all);
    Ok(Some(Answers {
        submits: [one, full, again],
        pulls: [pulled, next, none],
        order,
    }))
}

#[test]
fn a_full_ring_hands_the_item_back_and_it_comes_once(rt: HostRuntime) -> Result<(), Fail> {
    let answers = small_ring(&rt, rt.alloc())?.ok_or("two seats")?;
    assert!(rt; answers.submits == [Ok(1), Err((8, GateFault::Full)), Ok(1)]);
    assert!(rt; answers.pulls == [Some((1, 1)), Some((2, 1)), None]);
    assert!(rt; answers.order.pulled.as_slice() == [(1, 1), (2, 1)].as_slice());
    assert!(rt; answers.order.rest == 0);
    Ok(())
}

/// Publishes an outcome, and reports it to the reader. Returns how many were published.
fn tell(
    board: &mut Board,
    reader: &mut BoardReader,
    mark: u32,
    outcome: Outcome,
) -> Result<u64, Memory>
    requires { reader.old.board ≡ board.old.id }
    ensures { (board.new.id ≡ board.old.id) × (reader.new.board ≡ reader.old.board) }
{
    let front = board.publish(mark, outcome)?;
    let count = front.count();
    reader.learn(front);
    Ok(count)
}

/// What one reader finds of two marks, before and after each outcome was reported to it.
fn looks_of(alloc: Global) -> Result<Option<[Seen; 5]>, Memory> {
    let (mut board, mut readers) = Board::new(alloc, 1)?;
    let Some(mut reader) = readers.pop() else {
        return Ok(None);
    };
    let before = reader.outcome(1);
    let _one = tell(&mut board, &mut reader, 1, Outcome::Satisfied)?;
    let after = reader.outcome(1);
    let other = reader.outcome(2);
    let _two = tell(&mut board, &mut reader, 2, Outcome::Expired { left: 3 })?;
    let second = reader.outcome(2);
    let _three = tell(&mut board, &mut reader, 2, Outcome::Cut)?;
    let last = reader.outcome(2);
    Ok(Some([before, after, other, second, last]))
}

#[test]
fn a_reader_finds_the_last_entry_of_a_mark(rt: HostRuntime) -> Result<(), Fail> {
    let looks = looks_of(rt.alloc())?.ok_or("one reader")?;
    let expected = [
        Seen::Unknown,
        Seen::Known(Outcome::Satisfied),
        Seen::Unknown,
        Seen::Known(Outcome::Expired { left: 3 }),
        Seen::Known(Outcome::Cut),
    ];
    assert!(rt; looks == expected);
    Ok(())
}
