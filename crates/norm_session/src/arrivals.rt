//! How commands reach a session: [`Run::pull`](crate::Run::pull) takes them from an [`Arrivals`].

/// A line that a producer handed over, by its index in the script.
#[derive(Clone, Copy, Debug)]
pub struct Arrived {
    /// The producer that handed it over, counted from 1.
    pub producer: u32,
    pub place: u32,
}

/// The source of a session's commands. A session passes over a line unless it is the next one of the producer that handed it over.
pub trait Arrivals {
    /// Returns the next line that was handed over, or `None` if there is none now.
    fn arrive(&mut self) -> Option<Arrived>;
}
