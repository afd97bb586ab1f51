//! A thread that sends for a node, from a lane: [`SendingThread`].

ghost use Rattle.std.specs.Prelude.{◌≡◌, ◌≤◌, true, length, IfErr};
ghost use Rattle.norm_base.specs.Sizes.{datagram_room};
ghost use Rattle.norm_udp.specs.Failures.{is_sending, tells_sending};

use crate::cause::SocketCause;
use crate::lane::{Lane, Posted};
use crate::way::Way;
use norm_base::{Memory, NodeId};
use std::alloc::Global;
use std::sync::{Arc, Wait};
use std::thread;
use std::thread::Threads;
use std::time::Clock;
use udp_rules::Listeners;

/// With fewer processors no thread sends.
// Our own choice: with fewer, a thread that sends may take the processor that the node would use itself.
const LEAST_PROCESSORS: usize = 4;

/// Does what was posted: takes the new way, or sends the datagram. Frees the slot, or keeps it with the error if the send failed and no
/// earlier failure is kept. Returns the way from then on.
fn follow<R: Wait>(rt: &R, lane: &Lane, way: Way, posted: Box<Posted>) -> Way {
    let mut posted = posted;
    if let Some(other) = posted.way.take() {
        lane.free(rt, posted);
        return other;
    }
    match way.send(posted.from, &posted.listeners, posted.datagram.bytes()) {
        Ok(()) => lane.free(rt, posted),
        Err(cause) => {
            posted.failed = Some(cause);
            lane.fail(rt, posted);
        }
    }
    way
}

/// Does what is posted to a lane, and returns after the lane is over and empty.
fn serve<R: Wait + Clock>(rt: &R, lane: &Lane) {
    let mut way = Way::Nowhere;
    let mut sleeps = 0;
    for _ in rt.forever() {
        // Asked first: what was posted before the lane was over is seen by the look after it.
        let over = lane.is_over();
        if let Some(posted) = lane.next(rt) {
            way = follow(rt, lane, way, posted);
            sleeps = 0;
        } else if over {
            break;
        } else {
            sleeps = lane.wait(rt, sleeps);
        }
    }
}

/// Whether the process may use as many processors as a thread that sends is worth. `false` if their number is unknown.
fn has_processors<R: Threads>(rt: &R) -> bool {
    match thread::available_parallelism(rt) {
        Ok(number) => number.get() >= LEAST_PROCESSORS,
        Err(_) => false,
    }
}

/// A thread that sends for a hub or a sender alone, by its lane, or none. Give it to [`send_by`](crate::UdpFabric::send_by). After this is
/// dropped, the thread sends what was offered, and ends.
// It stands behind the network and not in the node, because the call that sends is most of what a hub does. The node stays one thread,
// so no clause of it speaks of others: to the node, a thread that sends later is a network that delays. One is enough, since a hub sends
// what its sender offers once to all receivers that listen.
pub struct SendingThread(Option<Arc<Lane>>);

impl Drop for SendingThread {
    fn drop(self) {
        let SendingThread(lane) = self;
        if let Some(lane) = &lane {
            lane.end();
        }
    }
}

impl SendingThread {
    /// Returns no thread: a node sends by itself.
    pub fn none() -> SendingThread {
        SendingThread(None)
    }

    /// Starts a thread. Returns none below four processors, or if their number is unknown.
    ///
    /// # Errors
    ///
    /// `Memory` if memory runs out or the thread cannot be made.
    pub fn start<R: Threads + Wait + Clock + Copy + Send + Drop + 'static>(
        alloc: Global,
        rt: R,
    ) -> Result<SendingThread, Memory> {
        if !has_processors(&rt) {
            return Ok(SendingThread::none());
        }
        let lane = Arc::new(alloc, Lane::new(&rt, alloc)?)?;
        let its = Arc::try_clone(&lane)?;
        if thread::spawn(&rt, move || serve(&rt, &its)).is_err() {
            return Err(Memory);
        }
        Ok(SendingThread(Some(lane)))
    }

    /// Tells the thread its way from here on. `false` if there is none, or if its lane has no free slot for too long.
    pub(crate) fn tell<R: Wait + Clock>(&self, rt: &R, way: Way) -> bool {
        match &self.0 {
            Some(lane) => lane.tell(rt, way),
            None => false,
        }
    }

    /// Whether there is a thread.
    pub(crate) fn is_there(&self) -> bool {
        self.0.is_some()
    }

    /// Has the thread send a member's datagram its way. It is lost if there is none, or if its lane has no free slot for too long.
    pub(crate) fn post<R: Wait + Clock>(
        &self,
        rt: &R,
        from: NodeId,
        listeners: Listeners,
        bytes: &[u8],
    )
        requires { length bytes.now ≤ datagram_room }
    {
        if let Some(lane) = &self.0 {
            lane.post(rt, from, listeners, bytes);
        }
    }

    /// Takes the failure that is kept, if one is.
    ///
    /// # Errors
    ///
    /// Why the thread could not send.
    pub(crate) fn check<R: Wait>(&self, rt: &R) -> Result<(), SocketCause>
        ensures { IfErr result (λ cause. is_sending cause ≡ true) }
    {
        if let Some(lane) = &self.0 {
            if let Some(cause) = lane.failure(rt) {
                return Err(cause);
            }
        }
        Ok(())
    }

    /// Waits until all that was posted is sent, for some seconds at most. Returns why the thread could not send, if a failure is kept.
    pub(crate) fn drain<R: Wait + Clock>(&self, rt: &R) -> Option<SocketCause>
        ensures { tells_sending result ≡ true }
    {
        let Some(lane) = &self.0 else {
            return None;
        };
        lane.drain(rt);
        lane.kept(rt)
    }

    /// Tells the thread to send nowhere, after what was posted before. If its lane has no free slot for too long, it keeps its way.
    pub(crate) fn leave<R: Wait + Clock>(&self, rt: &R) {
        if let Some(lane) = &self.0 {
            lane.tell(rt, Way::Nowhere);
        }
    }
}
