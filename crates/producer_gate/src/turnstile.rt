//! What a producer passes before it submits a command: [`Through`] in the program, and in some tests a [`Turnstile`] of their own.

/// Holds producers up before they submit. A test decides with it which producer goes on first.
pub trait Turnstile {
    /// Returns when the producer may go on. A session calls it once for each command, before it first tries to submit it, with the
    /// command's number among those of the producer.
    fn pass(&self, producer: u32, number: u64);
}

/// Holds nobody up.
#[derive(Clone, Copy, Debug)]
pub struct Through;

impl Turnstile for Through {
    fn pass(&self, _producer: u32, _number: u64) {}
}
