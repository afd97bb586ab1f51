//! The [`Gate`]: a ring between the threads of producers and the one that pulls.
ghost use Rattle.std.specs.Prelude.{◌≡◌, ◌≤◌, All, IfOk, map, sum_by, vec_len};
ghost use Rattle.producer_gate.specs.Commands.{named};
ghost use Rattle.producer_gate.specs.Seats.{SubmitEnds, PullEnds, HasNumbers, IsFront, left_of, new_seats, new_pull};

use crate::command::{GateFault, Order, Submitted};
use crate::knows::{Own, Ring, Takes};
use crate::settle::{push, rest_of, seats_of};
use norm_base::Memory;
use std::alloc::Global;
use std::marker::Model;
use std::sync::Wait;

/// The most commands that one producer submits.
// As many commands as a script may have (`MOST_COMMANDS` of norm_script). One more is refused with `TooMany`.
const MOST: u64 = 4096;

/// A ring of commands. Threads share it by reference.
///
/// 1. [`new`](Gate::new) creates it with a [`Seat`] for each producer and one [`PullSeat`].
/// 2. Each thread takes its own seat and calls [`submit`](Gate::submit) or [`pull`](Gate::pull) with it.
/// 3. [`close`](Gate::close) takes all seats back when the threads have ended.
#[derive(Drop)]
pub struct Gate {
    ring: Ring,
    producers: u32,
}

impl Model for Gate {
    ghost use Rattle.producer_gate.specs.Seats.{GateState};

    ghost Value = { GateState };

    ghost use Rattle.producer_gate.specs.Inside.{gate_state, IsGate};

    ghost view = { gate_state };

    ghost invariant = { IsGate };
}

/// The seat with which one producer submits. One thread owns it.
// A number and no list: what was submitted stands in the seat's view, which exists in proofs alone.
#[derive(Drop)]
pub struct Seat {
    pub(crate) pass: Own,
    pub(crate) producer: u32,
    pub(crate) count: u64,
}

impl Model for Seat {
    ghost use Rattle.producer_gate.specs.Seats.{SeatState};

    ghost Value = { SeatState };

    ghost use Rattle.producer_gate.specs.Inside.{seat_state, IsSeat};

    ghost view = { seat_state };

    ghost invariant = { IsSeat };
}

/// The seat with which commands are pulled. One thread owns it.
// The names are those of what was pulled, in that order: the pass knows it in proofs alone, and `close` has to answer it.
#[derive(Drop)]
pub struct PullSeat {
    pass: Own,
    names: Vec<(u32, u64)>,
}

impl Model for PullSeat {
    ghost use Rattle.producer_gate.specs.Seats.{PullState};

    ghost Value = { PullState };

    ghost use Rattle.producer_gate.specs.Inside.{pull_state, IsPullSeat};

    ghost view = { pull_state };

    ghost invariant = { IsPullSeat };
}

impl Gate {
    /// Creates a gate for 1 to 4 producers, over a ring of 1 to 16,384 commands. Returns it with the seats of the producers 1, 2, .. in order,
    /// and the pull seat. All memory that a gate needs is taken here.
    ///
    /// # Errors
    ///
    /// `Memory` if memory runs out.
    pub fn new(
        alloc: Global,
        producers: u32,
        capacity: u32,
    ) -> Result<(Gate, Vec<Seat>, PullSeat), Memory>
        requires producers { (1 ≤ producers) × (producers ≤ 4) }
        requires capacity { (1 ≤ capacity) × (capacity ≤ 16384) }
        ensures gate { IfOk result (λ made. (made.0.producers ≡ producers) × (made.0.capacity ≡ capacity)) }
        ensures seats { IfOk result (λ made. made.1.items ≡ new_seats made.0.id producers) }
        ensures pull { IfOk result (λ made. made.2 ≡ new_pull made.0.id producers) }
        ensures own { IfOk result (λ made. All (λ s. s.gate ≡ made.0.id) made.1.items × (vec_len made.1 ≡ producers)) }
    {
        let (ring, mut pass) = Ring::ruled(alloc, capacity as usize)?;
        // Room for all that can ever be pulled, so that a pull takes no memory.
        let names = Vec::with_capacity(alloc, producers as usize * MOST as usize)?;
        let seats = seats_of(alloc, &ring, &mut pass, producers)?;
        Ok((Gate { ring, producers }, seats, PullSeat { pass, names }))
    }

    /// Submits an item. Returns its number among those of this seat, from 1. It may spin while another thread is stalled in a call.
    ///
    /// # Errors
    ///
    /// The item comes back and the seat stays as it was. `TooMany` if the seat has submitted 4,096 items. `Full` only if the ring was
    /// full at some moment of this call; the item may be tried again.
    pub fn submit<R: Wait>(
        &self,
        rt: &R,
        seat: &mut Seat,
        item: u32,
    ) -> Result<u64, (u32, GateFault)>
        requires { seat.old.gate ≡ self.now.id }
        ensures same { (seat.new.gate ≡ seat.old.gate) × (seat.new.producer ≡ seat.old.producer) }
        ensures ends { SubmitEnds self.now seat.old item result seat.new }
    {
        if seat.count >= MOST {
            return Err((item, GateFault::TooMany));
        }
        let number = seat.count + 1;
        let command = Submitted {
            producer: seat.producer,
            number,
            item,
        };
        // The seat's number rises only after the push: a command that is refused must get the same number again.
        if !push(&self.ring, rt, &mut seat.pass, command) {
            return Err((item, GateFault::Full));
        }
        seat.count = number;
        Ok(number)
    }

    /// Pulls the oldest command. `None` only if the ring was empty at some moment of this call. It may spin while another thread is
    /// stalled in a call.
    pub fn pull<R: Wait>(&self, rt: &R, seat: &mut PullSeat) -> Option<Submitted>
        requires { seat.old.gate ≡ self.now.id }
        ensures same { (seat.new.gate ≡ seat.old.gate) × (seat.new.producers ≡ seat.old.producers) }
        ensures ends { PullEnds seat.old result seat.new }
    {
        match self.ring.pop_as::<Takes, R>(rt, &mut seat.pass) {
            Some(command) => {
                seat.names.push_reserved((command.producer, command.number));
                Some(command)
            }
            None => None,
        }
    }

    /// Ends a gate. Call it after all threads have given their seats back. Returns what was pulled, in order, and how many commands were not.
    // Only tests call it: a session's run keeps what was pulled. It stays for programs over this crate.
    pub fn close(self, seats: Vec<Seat>, pull: PullSeat) -> Order
        requires seats { All (λ s. s.gate ≡ self.id) seats.items }
        requires every { vec_len seats ≡ self.producers }
        requires pull { pull.gate ≡ self.id }
        ensures pulled { result.pulled.items ≡ map named pull.pulled }
        ensures numbers { All (HasNumbers result.pulled.items) seats.items }
        ensures front { All (IsFront pull.pulled) seats.items }
        ensures rest { result.rest ≡ sum_by (left_of pull.pulled) seats.items }
    {
        let Gate { ring, producers: _ } = self;
        let PullSeat { mut pass, names } = pull;
        let rest = rest_of(&ring, &mut pass, &names, seats);
        Order {
            pulled: names,
            rest,
        }
    }
}
