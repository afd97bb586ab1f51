//! The network of sockets: [`UdpFabric`].

ghost use Rattle.std.specs.Prelude.{◌≡◌, ◌≤◌, [], true, false, length, None, IfOk, IfErr, IfSome, IfNone, OnOk, OnErr};
ghost use Rattle.norm_base.specs.Faults.{Counts, network_failed};
ghost use Rattle.norm_base.specs.Network.{Starts};
ghost use Rattle.norm_base.specs.Sizes.{datagram_room};
ghost use Rattle.norm_udp.specs.Failures.{is_sending, tells_sending};
ghost use Rattle.udp_rules.specs.Hearing.{heard_in};
ghost use Rattle.udp_rules.specs.Misfits.{is_cut_off};
ghost use Rattle.norm_udp.specs.Passing.{passed_by, misfit_by};
ghost use Rattle.udp_rules.specs.Pausing.{is_answered, is_idle, looked_if_due};
ghost use Rattle.norm_udp.specs.Untold.{untold};

use crate::cause::SocketCause;
use crate::open_fault::OpenFault;
use crate::poll::Woken;
use crate::sending_thread::SendingThread;
use crate::socket::{BUFFER, MOST_PASSED};
use crate::sockets::{Open, open_for};
use norm_base::{Datagram, Fabric, FabricFault, Local, Memory, NodeId, Profile};
use std::alloc::Global;
use std::net::{Ipv4Addr, Net};
use std::sync::Wait;
use std::thread;
use std::time::{Clock, Duration};
use udp_rules::{
    Asked, GroupNews, Lag, Located, Misfit, Pace, PassesOver, Pause, Sieve, TellsGroup, moment,
};

/// The most times that a sender reads the clock in one `take`, while its gap lasts.
// Our own choice, so that the wait ends even if the clock stands still. It lasts less than 60 microseconds, which have time for fewer.
const MOST_LOOKS: u32 = 16_384;

/// Microseconds of the sleep after a poll that ended for another reason than a datagram or its time.
// Our own choice, as long as a poll that finds nothing.
const POLL_FAILED: u64 = 1_000;

/// Returns the gap between a node's datagrams in microseconds: the profile's for a sender alone, else 0.
fn gap_of(profile: &Profile, local: &Local) -> u64 {
    match local {
        Local::One(node) => {
            if node.number() == profile.sender {
                u64::from(profile.gap)
            } else {
                0
            }
        }
        Local::All | Local::Hub => 0,
    }
}

/// Receives the next datagram that the sieve lets through. `None` if [`Open::look`] returns it, or after [`MOST_PASSED`] that the sieve
/// passed over.
fn look_through<R: Clock>(
    rt: &R,
    open: &mut Open,
    sieve: &mut Sieve,
    buffer: &mut [u8],
    into: &mut Datagram,
) -> Result<Option<Located>, SocketCause>
    requires { into.old ≡ [] }
    ensures none { IfOk result (λ found. IfNone found (into.new ≡ [])) }
    ensures sieved { IfOk result (λ found. IfSome found (λ _. is_cut_off sieve.new.profile sieve.new.cut (heard_in into.new) ≡ false)) }
    ensures err { OnErr result (into.new ≡ []) }
{
    // Bounded, because a sender of another profile that sends without end would otherwise keep the node from its turn.
    for _ in 0..MOST_PASSED {
        let Some(found) = open.look(rt, buffer, into)? else {
            return Ok(None);
        };
        if !sieve.passes_over(into.bytes()) {
            return Ok(Some(found));
        }
        into.clear();
    }
    Ok(None)
}

/// A network of UDP sockets at 127.0.0.1: the hub at the profile's port, and the members at the next ports, in the order of their ids. In
/// this order: [`send_by`](UdpFabric::send_by) if a thread is to send, `start`, `offer` and `take` at will, and [`drain`](UdpFabric::drain)
/// before the process ends. To whom datagrams go depends on the members in this process. If all are here, what one offers goes to each
/// other. A member alone offers to the hub. The hub offers a member's datagram to each other member, what the sender offers once to all
/// receivers that listen at 127.255.255.255, and its `take` returns the member that sent one. A member alone that was told to [`join`](UdpFabric::join) a group offers to all of it, and there is no hub.
///
/// A datagram is lost if nobody is there to receive it, or if a buffer or the lane of a thread is full; in a group also if the network cannot
/// be reached. Any other error of a send or a
/// receive fails the call, or may fail a later one if a thread sends. Nobody receives a datagram of more than 1,500 octets, and the hub
/// none of an address of no member. In a group a node takes what another member sent, from the machine that it heard first. A receiver alone passes over an instance of its sender that does not fit its profile ([`PassesOver`]).
/// Contracts cannot rely on what was sent or received.
#[derive(Drop)]
pub struct UdpFabric<R> {
    rt: R,
    alloc: Global,
    thread: SendingThread,
    asked: Option<Asked>,
    open: Open,
    sieve: Sieve,
    pace: Pace,
    /// What a sender's clock shares with it.
    lag: Lag,
    buffer: Vec<u8>,
    faults: u64,
    cause: Option<SocketCause>,
}

impl<R: Net + Wait + Clock + Drop> UdpFabric<R> {
    /// Returns a network that was not started: nothing is taken, and what is offered goes nowhere.
    ///
    /// # Errors
    ///
    /// `Memory` if memory runs out.
    pub fn new(alloc: Global, rt: R) -> Result<UdpFabric<R>, Memory>
        ensures faults { IfOk result (λ f. ⟦<UdpFabric<R> as Fabric>⟧.fault_count f ≡ 0) }
        ensures passed { IfOk result (λ f. passed_by f ≡ 0) }
        ensures misfit { IfOk result (λ f. misfit_by f ≡ None) }
    {
        Ok(UdpFabric {
            rt,
            alloc,
            thread: SendingThread::none(),
            asked: None,
            open: Open::Nothing,
            sieve: Sieve::open(),
            pace: Pace::new(0),
            lag: Lag::new(alloc)?,
            buffer: vec![in alloc; 0u8; BUFFER]?,
            faults: 0,
            cause: None,
        })
    }

    /// Has this thread send for a hub, to its receivers, or for a sender alone. Call it before `start`.
    // Not a part of `start`: a thread needs an `R` that may go to another thread, which a network without one does not ask for.
    pub fn send_by(&mut self, thread: SendingThread)
        ensures faults { self.new.faults ≡ self.old.faults }
        ensures passed { passed_by self.new ≡ passed_by self.old }
        ensures misfit { misfit_by self.new ≡ misfit_by self.old }
    {
        self.thread = thread;
    }

    /// Has a node alone join the group at this broadcast address, in place of a hub, at the starts from now on. `port` is that to which the
    /// sender sends, and the profile's if it is `None`. Receivers send to the next one, so one above 65534 counts as 65534. Call it before `start`.
    pub fn join(&mut self, address: Ipv4Addr, port: Option<u16>)
        ensures faults { self.new.faults ≡ self.old.faults }
        ensures passed { passed_by self.new ≡ passed_by self.old }
        ensures misfit { misfit_by self.new ≡ misfit_by self.old }
    {
        self.asked = Some(Asked { address, port });
    }

    /// Returns a part of what this network tells the clock of a sender alone, and is told by it. A clock that has none does not lag.
    ///
    /// # Errors
    ///
    /// `Memory` if there are too many.
    pub fn lag(&self) -> Result<Lag, Memory> {
        self.lag.shared()
    }

    /// Closes the node's sockets. A thread still sends what was offered before, and then closes its own; only after that is a sender's
    /// port free. If its lane stays full for some ten milliseconds it keeps them.
    pub fn close(&mut self)
        ensures faults { self.new.faults ≡ self.old.faults }
        ensures passed { passed_by self.new ≡ 0 }
        ensures misfit { misfit_by self.new ≡ None }
    {
        // Through the lane, after what was offered before. The thread has sockets of its own, so that this still goes out.
        self.thread.leave(&self.rt);
        self.open = Open::Nothing;
        self.sieve = Sieve::open();
        self.lag.start(0);
    }

    /// Waits until a thread has sent all that was offered, for some seconds at most. Call it before the process ends, because its thread
    /// ends with it. Returns why the thread could not send, if a failure was not reported yet.
    pub fn drain(&self) -> Option<SocketCause>
        ensures { tells_sending result ≡ true }
    {
        self.thread.drain(&self.rt)
    }

    /// Returns how many sends and receives of a sender alone said since its start that no hub is there. The datagrams are lost, and each call
    /// went on. A datagram may be counted some time after it was sent, or with another one.
    pub fn refused(&self) -> u64 {
        self.open.refused()
    }

    /// Returns what the last failed call was about, apart from those for want of memory. `None` if there was none.
    pub fn cause(&self) -> Option<&SocketCause> {
        self.cause.as_ref()
    }

    /// Counts a failed call, and keeps its cause in place of the last one's.
    fn keep(&mut self, cause: SocketCause)
        ensures counted { Counts self.old.faults self.new.faults true }
        ensures sieve { self.new.sieve ≡ self.old.sieve }
    {
        self.faults = self.faults.saturating_add(1);
        self.cause = Some(cause);
    }

    fn now(&self) -> u64 {
        moment(&self.rt)
    }

    /// Notes that a datagram is offered, and when by a sender's own clock if the node has a gap.
    fn note_offer(&mut self)
        ensures { self.new.faults ≡ self.old.faults }
    {
        if self.pace.gap == 0 {
            self.pace.note_busy();
        } else {
            let offered = self.lag.note_offer(self.now());
            self.pace.note_offer_at(offered);
        }
    }

    /// Looks once and does not wait. Notes nothing.
    fn look(&mut self, into: &mut Datagram) -> Result<Option<Located>, SocketCause>
        requires { into.old ≡ [] }
        ensures none { IfOk result (λ node. IfNone node (into.new ≡ [])) }
        ensures err { OnErr result (into.new ≡ []) }
        ensures pace { self.new.pace ≡ self.old.pace }
        ensures faults { self.new.faults ≡ self.old.faults }
    {
        look_through(
            &self.rt,
            &mut self.open,
            &mut self.sieve,
            &mut self.buffer,
            into,
        )
    }

    /// Looks as [`look`](UdpFabric::look) does if a look is due now, and notes it.
    fn look_if_due(&mut self, now: u64, into: &mut Datagram) -> Result<Option<Located>, SocketCause>
        requires { into.old ≡ [] }
        ensures none { IfOk result (λ node. IfNone node (into.new ≡ [])) }
        ensures err { OnErr result (into.new ≡ []) }
        ensures pace { self.new.pace ≡ looked_if_due self.old.pace now }
        ensures faults { self.new.faults ≡ self.old.faults }
    {
        if !self.pace.is_look_due(now) {
            return Ok(None);
        }
        self.pace.note_look(now);
        self.look(into)
    }

    /// Looks, at a sender with a gap only if that is due.
    fn look_in_time(&mut self, into: &mut Datagram) -> Result<Option<Located>, SocketCause>
        requires { into.old ≡ [] }
        ensures none { IfOk result (λ node. IfNone node (into.new ≡ [])) }
        ensures err { OnErr result (into.new ≡ []) }
        ensures answered { is_answered self.new.pace ≡ is_answered self.old.pace }
        ensures faults { self.new.faults ≡ self.old.faults }
    {
        // Only a sender reads the clock: a look is most of what another node does.
        if self.pace.gap == 0 {
            return self.look(into);
        }
        let now = self.now();
        self.look_if_due(now, into)
    }

    /// Looks when that is due until a datagram is there, and at most until this moment in microseconds of the clock or for [`MOST_LOOKS`]
    /// readings. If none came, it notes that.
    fn look_until(
        &mut self,
        until: u64,
        into: &mut Datagram,
    ) -> Result<Option<Located>, SocketCause>
        requires { into.old ≡ [] }
        ensures none { IfOk result (λ node. IfNone node (into.new ≡ [])) }
        ensures err { OnErr result (into.new ≡ []) }
        ensures answered { IfOk result (λ node. IfNone node (is_answered self.new.pace ≡ true)) }
        ensures faults { self.new.faults ≡ self.old.faults }
    {
        let mut now = self.now();
        for _ in 0..MOST_LOOKS {
            if now >= until {
                break;
            }
            if let Some(found) = self.look_if_due(now, into)? {
                return Ok(Some(found));
            }
            now = self.now();
        }
        self.pace.note_empty(now);
        Ok(None)
    }

    /// Sleeps for this many microseconds.
    fn sleep(&self, micros: u64) {
        thread::sleep(&self.rt, Duration::from_micros(micros));
    }

    /// Sleeps a sender's gap out, and looks once if that is due. If nothing is there, it notes that.
    fn look_after_rest(
        &mut self,
        micros: u64,
        into: &mut Datagram,
    ) -> Result<Option<Located>, SocketCause>
        requires { into.old ≡ [] }
        ensures none { IfOk result (λ node. IfNone node (into.new ≡ [])) }
        ensures err { OnErr result (into.new ≡ []) }
        ensures answered { IfOk result (λ node. IfNone node (is_answered self.new.pace ≡ true)) }
        ensures faults { self.new.faults ≡ self.old.faults }
    {
        self.sleep(micros);
        let now = self.now();
        if let Some(found) = self.look_if_due(now, into)? {
            return Ok(Some(found));
        }
        self.pace.note_empty(now);
        Ok(None)
    }

    /// Waits in a poll, and looks once if a datagram is there. `now` is there for the clause alone.
    fn look_by_poll(
        &mut self,
        now: u64,
        into: &mut Datagram,
    ) -> Result<Option<Located>, SocketCause>
        requires empty { into.old ≡ [] }
        requires idle { is_idle self.old.pace.last now ≡ true }
        ensures none { IfOk result (λ node. IfNone node (into.new ≡ [])) }
        ensures err { OnErr result (into.new ≡ []) }
        ensures answered { is_answered self.new.pace ≡ is_answered self.old.pace }
        ensures faults { self.new.faults ≡ self.old.faults }
    {
        match self.open.wait() {
            Woken::ByTime => Ok(None),
            Woken::ByDatagram => self.look_in_time(into),
            Woken::ByError => {
                // It may be so at each poll, and the node would take a whole processor.
                self.sleep(POLL_FAILED);
                self.look_in_time(into)
            }
        }
    }

    /// After a look that found nothing, does what [`Pace::pause`] says: waits until a sender's gap is over, polls or sleeps and looks once,
    /// or does not look. If it still finds nothing, it notes that, except after a poll or a sleep of a node that has no gap to wait for.
    fn look_later(&mut self, into: &mut Datagram) -> Result<Option<Located>, SocketCause>
        requires { into.old ≡ [] }
        ensures none { IfOk result (λ node. IfNone node (into.new ≡ [])) }
        ensures err { OnErr result (into.new ≡ []) }
        ensures answered { IfOk result (λ node. IfNone node (is_answered self.new.pace ≡ true)) }
        ensures faults { self.new.faults ≡ self.old.faults }
    {
        let now = self.now();
        match self.pace.pause(now) {
            Pause::Answer => {
                self.pace.note_empty(now);
                Ok(None)
            }
            Pause::Look(until) => self.look_until(until, into),
            Pause::Rest(micros) => self.look_after_rest(micros, into),
            Pause::Poll => self.look_by_poll(now, into),
            Pause::Sleep(micros) => {
                self.sleep(micros);
                self.look_in_time(into)
            }
        }
    }

    /// Sends a member's datagram, or has a thread send it. Fails, and sends nothing, if it finds the thread's failure that no call reported.
    fn send(&mut self, from: NodeId, bytes: &[u8]) -> Result<(), SocketCause>
        requires { length bytes.now ≤ datagram_room }
        ensures err { IfErr result (λ cause. is_sending cause ≡ true) }
        ensures faults { self.new.faults ≡ self.old.faults }
    {
        // So that a later call reports what a thread failed at. If none did, a fault would pass for data that the network lost.
        self.thread.check(&self.rt)?;
        self.open.send(&self.rt, &self.thread, from, bytes)
    }

    /// Takes the next datagram, at once or after a pause. Fails also if it finds the thread's failure that no call reported.
    fn find(&mut self, into: &mut Datagram) -> Result<Option<Located>, SocketCause>
        requires { into.old ≡ [] }
        ensures none { IfOk result (λ node. IfNone node (into.new ≡ [])) }
        ensures err { OnErr result (into.new ≡ []) }
        ensures answered { IfOk result (λ node. IfNone node (is_answered self.new.pace ≡ true)) }
        ensures faults { self.new.faults ≡ self.old.faults }
    {
        self.thread.check(&self.rt)?;
        let mut found = self.look_in_time(into)?;
        if found.is_none() {
            found = self.look_later(into)?;
        }
        if found.is_some() {
            self.pace.note_busy();
        }
        Ok(found)
    }
}

impl<R: Net + Wait + Clock + Drop> Fabric for UdpFabric<R> {
    ghost told = { λ _. untold };

    ghost fault_count = { λ s. s.faults };

    fn start(&mut self, profile: &Profile, local: Local) -> Result<(), FabricFault>
        ensures ok { OnOk result (Starts untold untold profile.now local) }
        ensures passed { passed_by self.new ≡ 0 }
        ensures misfit { misfit_by self.new ≡ None }
        ensures cause { Counts self.old.faults self.new.faults (network_failed result) }
    {
        self.close();
        let gap = gap_of(profile, &local);
        self.pace = Pace::new(gap);
        self.lag.start(gap);
        self.sieve = Sieve::of(profile, &local);
        match open_for(
            &self.rt,
            self.alloc,
            &self.thread,
            &self.asked,
            profile,
            local,
        ) {
            Ok(open) => {
                self.open = open;
                Ok(())
            }
            Err(OpenFault::Memory) => Err(FabricFault::Memory),
            Err(OpenFault::Socket(cause)) => {
                self.keep(cause);
                Err(FabricFault::Failed)
            }
        }
    }

    fn offer(&mut self, from: NodeId, bytes: &[u8]) -> Result<(), FabricFault> {
        self.note_offer();
        if let Err(cause) = self.send(from, bytes) {
            self.keep(cause);
            return Err(FabricFault::Failed);
        }
        Ok(())
    }

    fn take(&mut self, into: &mut Datagram) -> Result<Option<NodeId>, FabricFault> {
        into.clear();
        match self.find(into) {
            Ok(Some(found)) => Ok(Some(found.node)),
            Ok(None) => Ok(None),
            Err(cause) => {
                self.keep(cause);
                Err(FabricFault::Failed)
            }
        }
    }

    fn faults(&self) -> u64 {
        self.faults
    }
}

impl<R> PassesOver for UdpFabric<R> {
    fn passed_over(&self) -> u64
        ensures { result ≡ passed_by self.now }
    {
        self.sieve.count
    }

    fn misfit(&self) -> Option<Misfit>
        ensures { result ≡ misfit_by self.now }
    {
        self.sieve.misfit
    }
}

impl<R> TellsGroup for UdpFabric<R> {
    fn group_news(&self) -> Option<GroupNews> {
        self.open.group_news()
    }
}
