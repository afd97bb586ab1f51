//! What calls of [`Gate`](crate::Gate) return: a command, a fault, or what was pulled.

/// A command as it comes out of the ring.
#[derive(Clone, Copy, Debug, PartialEq, Eq)]
pub struct Submitted {
    /// The number of its producer, from 1.
    pub producer: u32,
    /// Its number among the commands of this producer, from 1.
    pub number: u64,
    /// What the producer submitted. The gate does not read it. In a session it is the index of a line of the script.
    pub item: u32,
}

/// Why a command was not submitted. The item comes back, and the seat stays as it was.
#[derive(Clone, Copy, Debug, PartialEq, Eq)]
pub enum GateFault {
    /// The ring was full at some moment of the call. The producer may try again.
    Full,
    /// The seat has submitted 4,096 commands, the most for one producer.
    TooMany,
}

/// What was pulled from a gate, and how much was not. [`Gate::close`](crate::Gate::close) returns it.
#[derive(Debug, Drop)]
pub struct Order {
    /// The producer and the number of each command that was pulled, in the order of the pulls.
    pub pulled: Vec<(u32, u64)>,
    /// How many commands were submitted and not pulled.
    pub rest: u32,
}
