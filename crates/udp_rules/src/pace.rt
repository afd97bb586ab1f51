//! How a network of sockets pauses if nothing is there: [`Pace`].

ghost use Rattle.std.specs.Prelude.{◌≡◌};
ghost use Rattle.udp_rules.specs.Pausing.{wait_until, rest_of, is_idle, pause_of, found_by_poll, waited_by_poll, is_look_due, new_pace, with_offer_at, made_busy, found_empty, looked_at};

use std::time::Clock;

/// The most microseconds for which a sender waits after an offer.
// Our own choice: a node that waits longer for one datagram would come too late to its turn.
const LONGEST_WAIT: u64 = 1_000;

/// A sender sleeps if at least this many microseconds of its gap are left.
// Our own choice: a sleep takes some 50 more, which the clock makes up, and a sender that reads the clock takes a whole processor.
const LEAST_REST: u64 = 60;

/// Microseconds from one look of a sender at its socket to the next.
// Our own choice: a look at an empty socket costs as much as a send, and a request may well wait so long.
const LOOK_GAP: u64 = 50;

/// A node is idle after this many microseconds from [`Pace::last`].
// Our own choice: within ten milliseconds of a datagram the next one is mostly near. A node that polls under load is woken for each
// datagram, and its buffer fills while it wakes.
const RECENT: u64 = 10_000;

/// Microseconds of the sleep of a node that is not idle.
// Our own choice: how late a sleep may make an answer while datagrams come. A shorter one takes processor time from other nodes here.
const SLEEP: u64 = 250;

/// Returns the clock's microseconds, or 0 if it fails.
pub fn moment<R: Clock>(rt: &R) -> u64 {
    match rt.monotonic() {
        Ok(time) => u64::try_from(time.as_micros()).unwrap_or(0),
        // A clock that fails costs pauses of another length, and a receiver then keeps its sender's machine.
        Err(_) => 0,
    }
}

/// What to do if nothing is there to take.
#[derive(Clone, Copy, Debug, PartialEq, Eq)]
pub enum Pause {
    /// Look until this moment, in microseconds of the clock.
    Look(u64),
    /// Sleep for this many microseconds, until the gap is over, and look once more.
    Rest(u64),
    /// Answer at once that nothing is there.
    Answer,
    /// Wait until a datagram comes, for a millisecond at most, and look once more.
    Poll,
    /// Sleep for this many microseconds, and look once more.
    Sleep(u64),
}

/// What decides how a node pauses. Moments are microseconds of the clock. Note each offer ([`note_offer_at`](Pace::note_offer_at) with a
/// gap, else [`note_busy`](Pace::note_busy)) and each datagram that was taken (`note_busy`). With a gap look only if
/// [`is_look_due`](Pace::is_look_due), and note it ([`note_look`](Pace::note_look)). After a look that found nothing, do what
/// [`pause`](Pace::pause) says, and call [`note_empty`](Pace::note_empty) if it ends with the answer that nothing is there; after a sleep
/// this call may be left out.
#[derive(Clone, Copy, Debug)]
pub struct Pace {
    /// Microseconds between the datagrams of a sender alone. 0 at any other node.
    pub gap: u64,
    /// When a sender with a gap offered last, by its own clock. `None` if it offered nothing since the last answer that nothing is there, and
    /// without a gap.
    pub offered: Option<u64>,
    /// Whether anything was offered or taken since the last answer that nothing is there.
    pub busy: bool,
    /// When it last answered that nothing is there after it had been busy.
    pub last: Option<u64>,
    /// When a sender with a gap looked last. `None` before its first look, and without a gap.
    pub looked: Option<u64>,
}

/// Returns until when a sender waits if it offered at this moment: until its gap is over, or for [`LONGEST_WAIT`] if that is less.
fn wait_until(gap: u64, offered: u64) -> u64
    ensures { result ≡ wait_until gap offered }
{
    offered.saturating_add(gap.min(LONGEST_WAIT))
}

/// Returns how a sender waits until this moment.
fn rest_of(until: u64, now: u64) -> Pause
    ensures { result ≡ rest_of until now }
{
    let left = until.saturating_sub(now);
    if left >= LEAST_REST {
        // More is left only if the clock fell.
        return Pause::Rest(left.min(LONGEST_WAIT));
    }
    Pause::Look(until)
}

/// Whether nothing came or went for [`RECENT`]. `last` is [`Pace::last`].
fn is_idle(last: Option<u64>, now: u64) -> bool
    ensures { result ≡ is_idle last now }
{
    match last {
        Some(busy) => now.saturating_sub(busy) > RECENT,
        None => true,
    }
}

/// Whether a poll found a datagram. `count` is what it returned, and `is_readable` whether one of its sockets may be read.
// A poll that is interrupted or fails finds none, and neither does one that wakes for an error alone.
pub fn found_by_poll(count: i32, is_readable: bool) -> bool
    ensures { result ≡ found_by_poll count is_readable }
{
    count > 0 && is_readable
}

/// Whether a poll that returned this waited for its whole time. If it neither did nor found a datagram, a node that called it again at once
/// would spin.
pub fn waited_by_poll(count: i32) -> bool
    ensures { result ≡ waited_by_poll count }
{
    count == 0
}

impl Pace {
    /// Returns the pace of a node before anything was offered or taken.
    pub fn new(gap: u64) -> Pace
        ensures { result ≡ new_pace gap }
    {
        Pace {
            gap,
            offered: None,
            busy: false,
            last: None,
            looked: None,
        }
    }

    /// Notes that a sender offered a datagram at this moment. Only a node with a gap calls it.
    pub fn note_offer_at(&mut self, now: u64)
        ensures { self.new ≡ with_offer_at self.old now }
    {
        self.offered = Some(now);
        self.busy = true;
    }

    /// Notes that a datagram was taken, or offered by a node without a gap.
    pub fn note_busy(&mut self)
        ensures { self.new ≡ made_busy self.old }
    {
        self.busy = true;
    }

    /// Notes the answer, at this moment, that nothing is there.
    pub fn note_empty(&mut self, now: u64)
        ensures { self.new ≡ found_empty self.old now }
    {
        if self.busy {
            self.last = Some(now);
        }
        self.offered = None;
        self.busy = false;
    }

    /// Whether a look is due now: at a sender with a gap if it did not look for [`LOOK_GAP`], or if the clock fell since.
    pub fn is_look_due(&self, now: u64) -> bool
        ensures { result ≡ is_look_due self.now now }
    {
        match self.looked {
            Some(looked) => now < looked || now.saturating_sub(looked) >= LOOK_GAP,
            None => true,
        }
    }

    /// Notes that a sender looks at its socket now. Only a node with a gap calls it.
    pub fn note_look(&mut self, now: u64)
        ensures { self.new ≡ looked_at self.old now }
    {
        self.looked = Some(now);
    }

    /// Returns what to do after a look that found nothing: wait if [`offered`](Pace::offered) is set, answer if only [`busy`](Pace::busy)
    /// is, poll if nothing came or went for [`RECENT`], and else sleep.
    pub fn pause(&self, now: u64) -> Pause
        ensures { result ≡ pause_of self.now now }
    {
        match self.offered {
            Some(offered) => rest_of(wait_until(self.gap, offered), now),
            // The node has something to do first: it ticks, and may answer what it took.
            None if self.busy => Pause::Answer,
            None if is_idle(self.last, now) => Pause::Poll,
            None => Pause::Sleep(SLEEP),
        }
    }
}
