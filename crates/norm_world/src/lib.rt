//! The nodes of a session as one world (RFC 5740 section 5): [`World`] has a sender and its receivers. It stands for the list of its events,
//! except while a file comes in pieces or after one was given up. `norm_session`, `norm_tail`, `norm_program` and tests of `tests_nodes`
//! call it.
#![tactic(auto)]

mod world;

pub use crate::world::World;
/// The laws of lists of events: when they are lawful, and that lawful ones are safe.
pub use norm_safety::laws;
