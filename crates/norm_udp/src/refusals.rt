//! How often it was said that no hub is there: [`Refusals`].

use norm_base::Memory;
use std::alloc::Global;
use std::io;
use std::sync::Arc;
use std::sync::atomic::{AtomicU64, Ordering};
use udp_rules::is_refused;

/// How many sends and receives of a sender said that nobody is at the hub's address. The sender and the thread that sends for it share one.
// The system says it once for a datagram that came back, to whichever call is next.
#[derive(Drop)]
pub(crate) struct Refusals(Arc<AtomicU64>);

impl Refusals {
    /// Returns one that counts from 0.
    pub(crate) fn new(alloc: Global) -> Result<Refusals, Memory> {
        Ok(Refusals(Arc::new(alloc, AtomicU64::new(0))?))
    }

    /// Returns another part of the same.
    pub(crate) fn shared(&self) -> Result<Refusals, Memory> {
        Ok(Refusals(Arc::try_clone(&self.0)?))
    }

    /// Whether an error says so. Counts it if it does.
    pub(crate) fn note(&self, error: &io::Error) -> bool {
        let refused = is_refused(error);
        if refused {
            self.0.fetch_add(1, Ordering::SeqCst);
        }
        refused
    }

    pub(crate) fn count(&self) -> u64 {
        self.0.load(Ordering::SeqCst)
    }
}
