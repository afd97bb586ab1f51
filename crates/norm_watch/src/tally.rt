//! What the watched sink and the watched network share: [`Tally`].

use std::cell::Cell;

/// What the sink and the network of a node count together. Lend it to `WatchedFabric::of` and `WatchedSink::of`, and then to
/// `end_progress`.
// Cells, because the sink and the network share it.
#[derive(Drop)]
pub struct Tally {
    pub(crate) octets: Cell<u64>,
    pub(crate) objects: Cell<u64>,
    pub(crate) repairs: Cell<u64>,
    /// How many listed members are past the oldest open watermark, or all of them if none is open.
    pub(crate) past: Cell<u64>,
    /// Whether a watermark expired. The sink sets it, and the network reads it.
    pub(crate) has_expired: Cell<bool>,
    /// Whether a line of progress stands on standard error, with nothing after it.
    pub(crate) is_drawn: Cell<bool>,
}

impl Tally {
    pub fn new() -> Tally {
        Tally {
            octets: Cell::new(0),
            objects: Cell::new(0),
            repairs: Cell::new(0),
            past: Cell::new(0),
            has_expired: Cell::new(false),
            is_drawn: Cell::new(false),
        }
    }

    /// Counts an object or a stream, without its octets.
    pub(crate) fn object(&self) {
        self.objects.set(self.objects.get().saturating_add(1));
    }

    /// Counts this many octets, of an object or of a stream.
    pub(crate) fn octets(&self, octets: u64) {
        self.octets.set(self.octets.get().saturating_add(octets));
    }

    pub(crate) fn repair(&self) {
        self.repairs.set(self.repairs.get().saturating_add(1));
    }
}
