//! Whether anything comes to a node: [`Silence`].

use std::time::Duration;

/// After this many seconds without a datagram it is said that nothing came.
// Our own choice: far longer than the usual pause between two flushes, which is twice `grtt`.
const SILENCE: u64 = 10;

/// When a node heard something last, and whether it was said that it hears nothing. Call [`note`](Silence::note) for each datagram, and
/// [`read`](Silence::read) from time to time.
#[derive(Clone, Copy)]
pub(crate) struct Silence {
    /// Whether a datagram came after the last [`read`](Silence::read).
    has_heard: bool,
    /// Whether one ever came since the network started.
    ever: bool,
    /// The moment of the last [`read`](Silence::read) that found that a datagram came, or else the one at which the network started.
    heard: Duration,
    /// Whether it was said in this silence that nothing came.
    is_said: bool,
}

impl Silence {
    /// Counts the first silence from this moment, at which a network starts.
    pub(crate) fn from(now: Duration) -> Silence {
        Silence {
            has_heard: false,
            ever: false,
            heard: now,
            is_said: false,
        }
    }

    /// Notes that a datagram came.
    pub(crate) fn note(&mut self) {
        self.has_heard = true;
        self.ever = true;
    }

    /// Notes the clock's moment. Returns whether to say now that nothing came for ten seconds: at most once for each silence, and not if
    /// [`expire`](Silence::expire) was true in it.
    pub(crate) fn read(&mut self, now: Duration) -> bool {
        if self.has_heard {
            self.heard = now;
            self.has_heard = false;
            self.is_said = false;
            return false;
        }
        if self.is_said || now.saturating_sub(self.heard) < Duration::from_secs(SILENCE) {
            return false;
        }
        self.is_said = true;
        true
    }

    /// Notes that a watermark expired. Returns whether to say now that nothing ever came: once at most, and not if [`read`](Silence::read)
    /// was true before.
    pub(crate) fn expire(&mut self) -> bool {
        if self.ever || self.is_said {
            return false;
        }
        self.is_said = true;
        true
    }

    /// Whether a datagram came after the last [`read`](Silence::read), or one in the ten seconds before `now` found that one came.
    pub(crate) fn is_broken(&self, now: Duration) -> bool {
        self.has_heard
            || (self.ever && now.saturating_sub(self.heard) < Duration::from_secs(SILENCE))
    }
}
