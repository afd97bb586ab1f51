//! A lane: datagrams on their way from a node to the thread that sends them.

ghost use Rattle.std.specs.Prelude.{◌≡◌, ◌≤◌, true, length};
ghost use Rattle.norm_base.specs.Sizes.{datagram_room};
ghost use Rattle.norm_udp.specs.Failures.{tells_sending};

use crate::cause::SocketCause;
use crate::way::Way;
use crossbeam_queue::ArrayQueue;
use norm_base::{Datagram, Memory, NodeId};
use std::alloc::Global;
use std::sync::Wait;
use std::sync::atomic::{AtomicBool, Ordering};
use std::thread;
use std::thread::Parker;
use std::time::{Clock, Duration};
use udp_rules::Listeners;

/// The slots of a lane.
// Our own choice: half a second of datagrams at the default gap of one millisecond, and under 1 MB.
const PLACES: usize = 512;

/// The most failures of a thread that are kept until they are reported.
// Our own choice: the program ends with the first failure that a call reports.
const MOST_FAILURES: usize = 1;

/// Microseconds of one sleep: of a thread that finds nothing to send, and of a node that waits for the thread.
// Our own choice: long enough that a waiting thread costs little, and short beside the default gap of one millisecond.
const SLEEP: u64 = 50;

/// The most sleeps of a thread before it rests until it is woken, and of a node before it gives up what it would post.
// Our own choice, some ten milliseconds. A thread rests after it because nothing was sent for long. A node gives up after it because it
// must not stand still for a thread that hangs.
const MOST_SLEEPS: u32 = 200;

/// The most sleeps of a node that ends, for each lane, while what it posted is sent.
// Our own choice, some five seconds: enough for a full lane if each datagram takes some milliseconds. A process that ends must not wait for
// ever.
const MOST_DRAINING: u32 = 100_000;

/// What a slot of a lane holds: a new way for the thread, or a member's datagram with who listened when it was posted. On its way back it
/// holds why sending failed, if it did.
#[derive(Drop)]
pub(crate) struct Posted {
    pub(crate) way: Option<Way>,
    pub(crate) from: NodeId,
    pub(crate) listeners: Listeners,
    pub(crate) datagram: Datagram,
    pub(crate) failed: Option<SocketCause>,
    ghost sending: { tells_sending failed ≡ true },
}

/// What a node and the thread that sends for it share. The node takes a free slot, fills it and posts it. The thread does what it says,
/// and frees it or keeps it as a failure.
// All memory is there from the start, in place of a channel that makes room as it goes. A slot is in `places`, `posted` or `failures`, or
// the node or the thread holds it. A lost one would leave less room for good, and `drain` would wait for it in vain.
#[derive(Drop)]
pub(crate) struct Lane {
    /// What the thread has to do, in the order of posting.
    posted: ArrayQueue<Box<Posted>>,
    /// Free slots, each with the room of a datagram.
    places: ArrayQueue<Box<Posted>>,
    /// The slot of a datagram that the thread failed to send, until that is reported.
    failures: ArrayQueue<Box<Posted>>,
    /// Set after `failures` got something, and cleared before [`failure`](Lane::failure) looks there.
    has_failed: AtomicBool,
    rest: Parker,
    /// Set by [`end`](Lane::end). The thread then ends after it has done what lies here.
    over: AtomicBool,
}

fn sleep<R: Clock>(rt: &R) {
    thread::sleep(rt, Duration::from_micros(SLEEP));
}

impl Lane {
    /// Returns an empty lane with all its slots.
    ///
    /// # Errors
    ///
    /// `Memory` if memory runs out.
    pub(crate) fn new<R: Wait>(rt: &R, alloc: Global) -> Result<Lane, Memory> {
        let places = ArrayQueue::new(alloc, PLACES)?;
        for _ in 0..PLACES {
            let place = Posted {
                way: None,
                // Any node: each post writes over it.
                from: NodeId::of(1).unwrap(),
                listeners: Listeners::none(),
                datagram: Datagram::new(alloc)?,
                failed: None,
            };
            places.force_push(rt, Box::new(alloc, place)?);
        }
        Ok(Lane {
            posted: ArrayQueue::new(alloc, PLACES)?,
            places,
            failures: ArrayQueue::new(alloc, MOST_FAILURES)?,
            has_failed: AtomicBool::new(false),
            rest: Parker::new(),
            over: AtomicBool::new(false),
        })
    }

    /// Takes a free slot. `None` if none becomes free in some ten milliseconds.
    fn place<R: Wait + Clock>(&self, rt: &R) -> Option<Box<Posted>> {
        for _ in 0..MOST_SLEEPS {
            if let Some(place) = self.places.pop(rt) {
                return Some(place);
            }
            sleep(rt);
        }
        None
    }

    /// Posts a slot after it was filled, and wakes the thread if it rests.
    fn put<R: Wait>(&self, rt: &R, place: Box<Posted>) {
        self.posted.force_push(rt, place);
        self.rest.unpark();
    }

    /// Tells the thread its way from here on. `false` if it is not told, because no slot becomes free in some ten milliseconds.
    pub(crate) fn tell<R: Wait + Clock>(&self, rt: &R, way: Way) -> bool {
        let Some(mut place) = self.place(rt) else {
            return false;
        };
        place.way = Some(way);
        self.put(rt, place);
        true
    }

    /// Posts a member's datagram. It is lost if no slot becomes free in some ten milliseconds.
    pub(crate) fn post<R: Wait + Clock>(
        &self,
        rt: &R,
        from: NodeId,
        listeners: Listeners,
        bytes: &[u8],
    )
        requires { length bytes.now ≤ datagram_room }
    {
        let Some(mut place) = self.place(rt) else {
            return;
        };
        place.from = from;
        place.listeners = listeners;
        place.failed = None;
        place.datagram.clear();
        place.datagram.push(bytes);
        self.put(rt, place);
    }

    /// Keeps the slot of a datagram that the thread failed to send. Frees it if an earlier failure is still kept.
    pub(crate) fn fail<R: Wait>(&self, rt: &R, place: Box<Posted>) {
        if let Err(place) = self.failures.push(rt, place) {
            self.free(rt, place);
        }
        // Set last: a node that saw it before the failure is there would clear it in vain.
        self.has_failed.store(true, Ordering::SeqCst);
    }

    /// Takes the failure that is kept, and frees its slot.
    pub(crate) fn kept<R: Wait>(&self, rt: &R) -> Option<SocketCause>
        ensures { tells_sending result ≡ true }
    {
        let Some(mut place) = self.failures.pop(rt) else {
            return None;
        };
        let cause = place.failed.take();
        self.free(rt, place);
        cause
    }

    /// As [`kept`](Lane::kept). A failure of this very moment may be found only at the next call.
    pub(crate) fn failure<R: Wait>(&self, rt: &R) -> Option<SocketCause>
        ensures { tells_sending result ≡ true }
    {
        if !self.has_failed.load(Ordering::SeqCst) {
            return None;
        }
        // Cleared before the look: if the thread keeps a failure after it, a later call looks again.
        self.has_failed.store(false, Ordering::SeqCst);
        self.kept(rt)
    }

    /// Takes the oldest slot that was posted. Give it back with [`free`](Lane::free) or [`fail`](Lane::fail).
    pub(crate) fn next<R: Wait>(&self, rt: &R) -> Option<Box<Posted>> {
        self.posted.pop(rt)
    }

    /// Frees a slot after what it held is done.
    pub(crate) fn free<R: Wait>(&self, rt: &R, place: Box<Posted>) {
        self.places.force_push(rt, place);
    }

    /// Waits until each slot is free or holds a failure that is kept, for some seconds at most.
    pub(crate) fn drain<R: Wait + Clock>(&self, rt: &R) {
        for _ in 0..MOST_DRAINING {
            if self.places.len(rt).saturating_add(self.failures.len(rt)) >= PLACES {
                return;
            }
            sleep(rt);
        }
    }

    /// Sleeps once more after this many sleeps in a row found nothing, or rests until it is woken. Returns how many sleeps there are then;
    /// 0 after a rest.
    pub(crate) fn wait<R: Wait + Clock>(&self, rt: &R, sleeps: u32) -> u32 {
        // Sleeps first, since to wake a thread that rests is a call of the system.
        if sleeps < MOST_SLEEPS {
            sleep(rt);
            return sleeps + 1;
        }
        self.rest.park(rt);
        0
    }

    /// Has the thread end after it has done what lies here. Post nothing after this.
    pub(crate) fn end(&self) {
        self.over.store(true, Ordering::SeqCst);
        self.rest.unpark();
    }

    /// Whether [`end`](Lane::end) was called. Something may still lie here.
    pub(crate) fn is_over(&self) -> bool {
        self.over.load(Ordering::SeqCst)
    }
}
