//! The network that a profile names: [`HostFabric`].

ghost use Rattle.std.specs.Prelude.{◌≡◌, ◌≤◌, false, true, length, [], None, IfOk, IfNone, IsErrOf, OnOk, OnErr, if◌then◌else◌};
ghost use Rattle.norm_base.specs.Faults.{Counts, network_failed};
ghost use Rattle.norm_base.specs.Network.{Starts, answer_of, IsHonestAnswer, IsDirectAnswer};
ghost use Rattle.norm_host.specs.Hosting.{is_chance, is_direct, is_udp, is_alone, is_within, may_fail, network_of, host_told, host_unstarted, host_started, host_failed, host_offer, host_take};
ghost use Rattle.norm_memory.specs.Chances.{chance_started};
ghost use Rattle.norm_memory.specs.Networks.{started, next_answer};
ghost use Rattle.norm_udp.specs.Failures.{tells_sending};
ghost use Rattle.norm_udp.specs.Passing.{passed_by, misfit_by};

use norm_base::{Datagram, Fabric, FabricFault, FabricKind, Local, Memory, NodeId, Profile};
use norm_memory::{ChanceFabric, DirectFabric};
use norm_udp::{SendingThread, SocketCause, UdpFabric};
use std::alloc::Global;
use std::marker::Model;
use std::net::{Ipv4Addr, Net};
use std::sync::Wait;
use std::thread::Threads;
use std::time::Clock;
use udp_rules::{GroupNews, Lag, Misfit, PassesOver, TellsGroup};

/// Closes the sockets of an earlier start, as [`UdpFabric::close`] does, and starts the network that the profile names. They stay closed
/// also if the start fails.
fn begin<R: Net + Wait + Clock + Drop>(
    direct: &mut DirectFabric,
    chance: &mut ChanceFabric,
    udp: &mut UdpFabric<R>,
    profile: &Profile,
    local: &Local,
) -> Result<(), FabricFault>
    ensures direct { OnOk result (direct.new ≡ (if is_direct profile.now.fabric then started direct.old profile.now local.now else direct.old)) }
    ensures chance { OnOk result (chance.new ≡ (if is_chance profile.now.fabric then chance_started chance.old profile.now local.now else chance.old)) }
    ensures failed { IsErrOf result FabricFault.Failed → is_udp profile.now.fabric ≡ true }
    ensures err { OnErr result ((direct.new ≡ direct.old) × (chance.new ≡ chance.old)) }
    ensures passed { passed_by udp.new ≡ 0 }
    ensures misfit { misfit_by udp.new ≡ None }
{
    // Whatever network comes next: the sockets of a run before would keep their ports.
    udp.close();
    match profile.fabric {
        FabricKind::Direct => direct.start(profile, *local),
        FabricKind::Chance => chance.start(profile, *local),
        FabricKind::Udp => udp.start(profile, *local),
    }
}

/// Whether this process has one member or the hub, and not all members.
fn is_alone(local: &Local) -> bool
    ensures { result ≡ is_alone local.now }
{
    match local {
        Local::All => false,
        Local::One(_) => true,
        Local::Hub => true,
    }
}

/// Whether a member alone, or the hub, would start over a network in memory, which no other process can join.
fn is_within(profile: &Profile, local: &Local) -> bool
    ensures { result ≡ is_within profile.now.fabric local.now }
{
    match profile.fabric {
        FabricKind::Direct => is_alone(local),
        FabricKind::Chance => is_alone(local),
        FabricKind::Udp => false,
    }
}

/// The network that a profile names: in memory, or of sockets. In this order: [`start_thread`](HostFabric::start_thread) if a thread is
/// to send, `start`, `offer` and `take` at will, and [`drain`](HostFabric::drain) before the process ends. Offers and takes go to the
/// network of the last start that was `Ok`, and before one to a direct network. A node of its own and the hub start only over sockets.
/// Over sockets contracts cannot rely on what was sent or received, and a call may fail.
#[derive(Drop)]
pub struct HostFabric<R> {
    starts: Vec<(Profile, Local)>,
    kind: FabricKind,
    direct: DirectFabric,
    chance: ChanceFabric,
    udp: UdpFabric<R>,
    /// What the last failed call was about, if it was a start that [`refuse`](HostFabric::refuse) refused.
    refused: Option<SocketCause>,
    faults: u64,
}

impl<R> Model for HostFabric<R> {
    ghost use Rattle.norm_host.specs.Hosting.{HostState, SharesMembers, PassesNothing};

    ghost Value = { HostState };

    ghost view = { λ f. record { starts = f.starts.items; kind = f.kind; direct = f.direct; chance = f.chance; faults = f.faults } };

    ghost invariant = { λ f. SharesMembers f.starts.items f.kind f.direct × PassesNothing f.kind f.udp };
}

impl<R: Net + Wait + Clock + Drop> HostFabric<R> {
    /// Returns a network that was not started, and has no member. `rt` makes its sockets.
    ///
    /// # Errors
    ///
    /// `Memory` if memory runs out.
    pub fn new(alloc: Global, rt: R) -> Result<HostFabric<R>, Memory>
        ensures { IfOk result (λ f. f ≡ host_unstarted) }
    {
        Ok(HostFabric {
            starts: Vec::new(alloc),
            kind: FabricKind::Direct,
            direct: DirectFabric::new(alloc)?,
            chance: ChanceFabric::new(alloc)?,
            udp: UdpFabric::new(alloc, rt)?,
            refused: None,
            faults: 0,
        })
    }

    /// Has a node alone over sockets join the group at this broadcast address, as [`UdpFabric::join`] does. Call it before `start`.
    pub fn join(&mut self, address: Ipv4Addr, port: Option<u16>)
        ensures { self.new ≡ self.old }
    {
        self.udp.join(address, port);
    }

    /// Returns a part of what a sender's network tells its clock, as [`UdpFabric::lag`] does.
    ///
    /// # Errors
    ///
    /// `Memory` if there are too many.
    pub fn lag(&self) -> Result<Lag, Memory> {
        self.udp.lag()
    }

    /// Returns how often it was said to a sender over sockets that no hub is there, as [`UdpFabric::refused`] does.
    pub fn refused(&self) -> u64 {
        self.udp.refused()
    }

    /// Waits until a thread has sent all that was offered, and returns why it could not, as [`UdpFabric::drain`] does. Call it before the
    /// process ends.
    pub fn drain(&self) -> Option<SocketCause>
        ensures { tells_sending result ≡ true }
    {
        self.udp.drain()
    }

    /// Returns what the last failed call was about, apart from those for want of memory. `None` if there was none.
    pub fn cause(&self) -> Option<&SocketCause> {
        match &self.refused {
            Some(cause) => Some(cause),
            None => self.udp.cause(),
        }
    }

    /// Refuses a start over a network in memory, and keeps that as the cause.
    fn refuse(&mut self, fabric: FabricKind) -> Result<(), FabricFault>
        ensures failed { IsErrOf result FabricFault.Failed }
        ensures state { self.new ≡ host_failed self.old }
        ensures counted { Counts self.old.faults self.new.faults true }
    {
        self.faults = self.faults.saturating_add(1);
        self.refused = Some(SocketCause::Within { fabric });
        Err(FabricFault::Failed)
    }

    /// Returns what a call answered. If it failed, counts it; its cause is then that of the sockets.
    fn answer<T>(&mut self, done: Result<T, FabricFault>) -> Result<T, FabricFault>
        ensures same { result ≡ done }
        ensures state { self.new ≡ (if network_failed done then host_failed self.old else self.old) }
        ensures counted { Counts self.old.faults self.new.faults (network_failed done) }
    {
        if let Err(FabricFault::Failed) = done {
            self.faults = self.faults.saturating_add(1);
            self.refused = None;
        }
        done
    }
}

impl<R: Net + Threads + Wait + Clock + Copy + Send + Drop + 'static> HostFabric<R> {
    /// Starts a thread that sends over sockets, for a hub or for a sender alone, if [`SendingThread::start`] does. Call it before `start`.
    ///
    /// # Errors
    ///
    /// `Memory` if memory runs out or the thread cannot be made. Nothing changes then.
    pub fn start_thread(&mut self, alloc: Global, rt: R) -> Result<(), Memory>
        ensures { self.new ≡ self.old }
    {
        self.udp.send_by(SendingThread::start(alloc, rt)?);
        Ok(())
    }
}

impl<R: Net + Wait + Clock + Drop> Fabric for HostFabric<R> {
    ghost told = { host_told };

    ghost fault_count = { λ s. s.faults };

    fn start(&mut self, profile: &Profile, local: Local) -> Result<(), FabricFault>
        ensures state { OnOk result (self.new ≡ host_started self.old profile.now local) }
        ensures failed { IsErrOf result FabricFault.Failed → (self.new ≡ host_failed self.old) × (may_fail profile.now.fabric local ≡ true) }
        ensures within { is_within profile.now.fabric local ≡ true → IsErrOf result FabricFault.Failed }
        ensures memory { IsErrOf result FabricFault.Memory → self.new ≡ self.old }
        ensures ok { OnOk result (Starts (host_told self.old) (host_told self.new) profile.now local) }
        ensures err { OnErr result (host_told self.new ≡ host_told self.old) }
        ensures cause { Counts self.old.faults self.new.faults (network_failed result) }
    {
        // No other process can join a network in memory. The node would run alone.
        if is_within(profile, &local) {
            return self.refuse(profile.fabric);
        }
        // Before the network starts: what is started has to be kept, and that may then not fail.
        if self.starts.reserve(1).is_err() {
            return Err(FabricFault::Memory);
        }
        let begun = begin(
            &mut self.direct,
            &mut self.chance,
            &mut self.udp,
            profile,
            &local,
        );
        if let Err(fault) = begun {
            return self.answer(Err(fault));
        }
        self.kind = profile.fabric;
        // It does not fail: the room was taken before.
        self.starts.push((*profile, local)).unwrap();
        Ok(())
    }

    fn offer(&mut self, from: NodeId, bytes: &[u8]) -> Result<(), FabricFault>
        requires { length bytes.now ≤ 1500 }
        ensures state { OnOk result (self.new ≡ host_offer self.old from bytes.now) }
        ensures failed { IsErrOf result FabricFault.Failed → (self.new ≡ host_failed self.old) × (is_udp self.old.kind ≡ true) }
        ensures memory { IsErrOf result FabricFault.Memory → self.new ≡ self.old }
        ensures cause { Counts self.old.faults self.new.faults (network_failed result) }
    {
        match self.kind {
            FabricKind::Direct => self.direct.offer(from, bytes),
            FabricKind::Chance => self.chance.offer(from, bytes),
            FabricKind::Udp => {
                let done = self.udp.offer(from, bytes);
                self.answer(done)
            }
        }
    }

    fn take(&mut self, into: &mut Datagram) -> Result<Option<NodeId>, FabricFault>
        ensures answer { is_udp self.old.kind ≡ false → IfOk result (λ node. answer_of node into.new ≡ next_answer (network_of self.old)) }
        ensures none { IfOk result (λ node. IfNone node (into.new ≡ [])) }
        ensures honest { IfOk result (λ node. IsHonestAnswer (host_told self.old) (answer_of node into.new)) }
        ensures direct { IfOk result (λ node. IsDirectAnswer (host_told self.old) (answer_of node into.new)) }
        ensures state { OnOk result (self.new ≡ host_take self.old) }
        ensures failed { IsErrOf result FabricFault.Failed → (self.new ≡ host_failed self.old) × (is_udp self.old.kind ≡ true) }
        ensures memory { IsErrOf result FabricFault.Memory → self.new ≡ self.old }
        ensures empty { OnErr result (into.new ≡ []) }
        ensures cause { Counts self.old.faults self.new.faults (network_failed result) }
    {
        match self.kind {
            FabricKind::Direct => self.direct.take(into),
            FabricKind::Chance => self.chance.take(into),
            FabricKind::Udp => {
                let done = self.udp.take(into);
                self.answer(done)
            }
        }
    }

    fn faults(&self) -> u64 {
        self.faults
    }
}

impl<R: Net + Wait + Clock + Drop> PassesOver for HostFabric<R> {
    fn passed_over(&self) -> u64
        ensures { is_udp self.now.kind ≡ false → result ≡ 0 }
    {
        self.udp.passed_over()
    }

    fn misfit(&self) -> Option<Misfit>
        ensures { is_udp self.now.kind ≡ false → result ≡ None }
    {
        self.udp.misfit()
    }
}

impl<R: Net + Wait + Clock + Drop> TellsGroup for HostFabric<R> {
    fn group_news(&self) -> Option<GroupNews> {
        self.udp.group_news()
    }
}
