//! What a pass of the ring knows, and the rule of the ring. No value of these types is made, except of [`Ring`] and [`Own`]: they are for
//! proofs alone.
ghost use Rattle.std.specs.Prelude.{◌≡◌, ◌+◌, ◌*◌, ◌<◌, ◌≤◌, [], ◌∷◌, ◌++◌, length};

use crate::command::Submitted;
use crossbeam_queue::protocol::{Join, Lesson, Outcome, Protocol, Split};
use crossbeam_queue::{Pass, RuledArrayQueue};
use std::collections::LinkedList;

/// What a pass of the ring knows, by the kind of its seat.
pub enum Knows {
    /// How many seats were made, what was pulled, and which seat was taken in last, with what it submitted.
    Pulls(u32, LinkedList<Submitted>, u32, LinkedList<u32>),
    /// The producer of the seat, and what it submitted.
    Submits(u32, LinkedList<u32>),
    /// Nothing, because another pass took it in.
    Spent,
}

pub struct Fair;

impl Protocol<Submitted, Knows> for Fair {
    ghost use Rattle.std.specs.Prelude.{[]};
    ghost use Rattle.producer_gate.specs.declared.knows.Knows.TheVariants.{Pulls};
    ghost use Rattle.producer_gate.specs.Ring.{Balances};

    ghost holds = { Balances };

    ghost first = { Pulls 0 [] 0 [] };
}

pub type Ring = RuledArrayQueue<Submitted, Knows, Fair>;

pub type Own = Pass<Submitted, Knows>;

/// The pull seat's pass gives out the pass of the next producer.
pub struct Gives;

impl Split<Knows> for Gives {
    ghost use Rattle.producer_gate.specs.Views.{one_more, newcomer};

    ghost left = { one_more };

    ghost right = { newcomer };
}

/// The pull seat's pass takes in a producer's.
pub struct TakesIn;

impl Join<Knows> for TakesIn {
    ghost use Rattle.producer_gate.specs.declared.knows.Knows.TheVariants.{Spent};
    ghost use Rattle.producer_gate.specs.Views.{taken_in};

    ghost both = { taken_in };

    ghost spent = { Spent };
}

/// A push. If the ring had room, its producer's pass then knows one item more.
pub struct Adds;

impl Outcome<Submitted, Knows> for Adds {
    ghost use Rattle.producer_gate.specs.Views.{Added};

    ghost then = { Added };
}

impl Lesson<Submitted, Knows> for Adds {
    ghost use Rattle.producer_gate.specs.Ring.{WasSo};

    ghost fact = { WasSo };
}

/// A pull. If it gave a command, the pull seat's pass then knows it, the next one of its producer.
pub struct Takes;

impl Outcome<Submitted, Knows> for Takes {
    ghost use Rattle.producer_gate.specs.Views.{Taken};

    ghost then = { Taken };
}

impl Lesson<Submitted, Knows> for Takes {
    ghost use Rattle.producer_gate.specs.Ring.{WasSo};

    ghost fact = { WasSo };
}

/// A comparison of what was pulled with what the seat that was taken in last submitted.
pub struct Compares;

impl Lesson<Submitted, Knows> for Compares {
    ghost use Rattle.producer_gate.specs.Views.{Compared};

    ghost fact = { Compared };
}
