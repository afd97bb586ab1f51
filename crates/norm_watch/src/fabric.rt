//! A network that is watched: [`WatchedFabric`].

ghost use Rattle.std.specs.Prelude.{◌≡◌};
ghost use Rattle.norm_watch.specs.Spending.{is_ended_by_turns, spent_by};
ghost use Rattle.norm_watch.specs.Watched.{watched_by};

use crate::saying::{Hex, Log, Says, draw, wipe};
use crate::silence::Silence;
use crate::stray::Strays;
use crate::tally::Tally;
use norm_base::{Datagram, Fabric, FabricFault, FabricKind, Local, NodeId, Profile};
use norm_ext::MessageType;
use norm_ext::flags::REPAIR;
use norm_ext::items::has_flag;
use norm_ext::places::FLAGS_AT;
use std::fmt;
use std::time::{Clock, Duration};
use udp_rules::{PassesOver, SecondMachine, TellsGroup, Unsent};

/// At least this many seconds pass from one line of progress to the next.
// Our own choice: as often as a person can read it.
const PAUSE: u64 = 1;

/// At one take in this many the clock is read for progress and for silence.
// Our own choice. While datagrams come, a read of the clock at each would show in the rate.
const TAKES: u32 = 64;

#[derive(Clone, Copy)]
enum Role {
    Sender,
    Receiver,
    Hub,
}

/// A member or the hub over sockets, in a process of its own.
#[derive(Clone, Copy)]
struct Node {
    role: Role,
    /// The port at which it receives.
    port: u32,
    /// The profile's `port`, at which the hub receives.
    hub: u32,
    /// The profile's `turns`: after this many a receiver and the hub end.
    turns: u32,
}

/// What to say after all turns were made.
#[derive(Clone, Copy)]
struct Spent {
    turns: u32,
    /// Whether datagrams still came, by [`Silence::is_broken`].
    is_busy: bool,
}

impl fmt::Display for Spent {
    fn fmt<W: fmt::Write>(&self, f: &mut fmt::Formatter<W>) -> fmt::Result {
        let turns = self.turns;
        write!(f, "the {turns} turns are spent")?;
        if self.is_busy {
            write!(f, ", and datagrams still came")?;
        }
        Ok(())
    }
}

/// Whether only its turns end a node of this role, if it ends well.
fn is_ended_by_turns(role: Role) -> bool
    ensures { result ≡ is_ended_by_turns role }
{
    match role {
        Role::Sender => false,
        Role::Receiver => true,
        Role::Hub => true,
    }
}

/// Returns what to say of a node that ended well. `None` if its turns did not end it, or this process is no node alone over sockets.
fn spent_by(node: &Option<Node>, is_busy: bool) -> Option<Spent>
    ensures { result ≡ spent_by node.now is_busy }
{
    match node {
        Some(node) if is_ended_by_turns(node.role) => Some(Spent {
            turns: node.turns,
            is_busy,
        }),
        _ => None,
    }
}

/// Returns what the one node of a process is. `None` if all members are in it.
fn role_of(profile: &Profile, local: &Local) -> Option<Role> {
    match local {
        Local::One(node) => {
            if node.number() == profile.sender {
                Some(Role::Sender)
            } else {
                Some(Role::Receiver)
            }
        }
        Local::Hub => Some(Role::Hub),
        Local::All => None,
    }
}

/// Returns how far a node's port is above the hub's: 1 for the sender, and then the receivers by their ids.
fn place_of(profile: &Profile, local: &Local) -> u32 {
    match local {
        Local::One(node) => node.number().wrapping_sub(profile.sender).wrapping_add(1),
        Local::All | Local::Hub => 0,
    }
}

fn is_of_sockets(fabric: FabricKind) -> bool {
    match fabric {
        FabricKind::Direct | FabricKind::Chance => false,
        FabricKind::Udp => true,
    }
}

/// Returns the node that a process is over sockets. `None` in memory, and if all members are in it.
fn node_of(profile: &Profile, local: &Local) -> Option<Node> {
    if !is_of_sockets(profile.fabric) {
        return None;
    }
    let role = role_of(profile, local)?;
    let hub = u32::from(profile.port);
    Some(Node {
        role,
        port: hub.wrapping_add(place_of(profile, local)),
        hub,
        turns: profile.turns,
    })
}

/// Returns the clock's moment, or 0 if the clock fails.
fn moment<R: Clock>(rt: &R) -> Duration {
    match rt.monotonic() {
        Ok(now) => now,
        Err(_) => Duration::ZERO,
    }
}

/// Whether a datagram is INFO or DATA with the flag of a repair (RFC 5740 section 4.2.1).
fn is_repair(datagram: &[u8]) -> bool {
    if datagram.len() <= FLAGS_AT {
        return false;
    }
    // By two octets and not by a reading of the message, because it is asked of each datagram.
    let kind = MessageType::of(datagram[0] % 16);
    matches!(kind, Some(MessageType::Info | MessageType::Data))
        && has_flag(datagram[FLAGS_AT], REPAIR)
}

/// Whether repairs are counted as they are taken too, not only as they are offered.
fn counts_takes(local: &Local) -> bool {
    match local {
        Local::One(_) => true,
        Local::All | Local::Hub => false,
    }
}

/// A network that a person watches. It passes each call on, and says on standard error what it sees.
// Around the outside, and not in the objects of norm_host: a network of any kind is watched as it stands.
#[derive(Drop)]
pub struct WatchedFabric<'a, R, F> {
    rt: R,
    fabric: F,
    says: Says,
    tally: &'a Tally,
    /// The node that this process is, if it is one alone over sockets.
    node: Option<Node>,
    /// What a receiver's rules pass over, if this is a receiver alone.
    strays: Option<Strays>,
    /// How many datagrams the network itself had passed over at the last look.
    passed: u64,
    /// Whether repairs are counted as they are taken too.
    counts_takes: bool,
    /// How many more takes go by before the clock is read.
    takes_left: u32,
    silence: Silence,
    /// Whether a group's second machine was said.
    has_said_second: bool,
    /// What was said last of a group to which nothing can be sent. `None` if it was said since that sending works again.
    unsent: Option<Unsent>,
    /// The clock's moment when a line of progress was drawn last. 0 before the first.
    drawn: Duration,
}

impl<'a, R: Eprint + Clock, F: Fabric + PassesOver + TellsGroup> WatchedFabric<'a, R, F> {
    /// Returns a network around this one. `says` tells whether to print the line of progress and each datagram. Warnings do not depend on
    /// it.
    pub fn of(rt: R, fabric: F, says: Says, tally: &'a Tally) -> WatchedFabric<'a, R, F>
        ensures { watched_by result ≡ fabric }
    {
        WatchedFabric {
            rt,
            fabric,
            says,
            tally,
            node: None,
            strays: None,
            passed: 0,
            counts_takes: false,
            takes_left: 0,
            silence: Silence::from(Duration::ZERO),
            has_said_second: false,
            unsent: None,
            drawn: Duration::ZERO,
        }
    }

    /// Returns the network that is watched, for what the trait does not have: its cause, and a wait before the process ends.
    pub fn watched(&self) -> &F {
        &self.fabric
    }

    /// Says something on a line of its own. If standard error fails, it goes unsaid.
    fn say<D: fmt::Display>(&self, what: &D) {
        wipe(&self.rt, self.tally);
        let _ = eprintln!(self.rt; "{what}");
    }

    /// Says that nothing came to a node, and if it is a member, at which address the hub is to be. In a group there is none.
    fn say_unheard(&self, node: &Node, how_long: &str) {
        wipe(&self.rt, self.tally);
        if let Some(news) = self.fabric.group_news() {
            let address = news.hears_at;
            let _ = eprintln!(self.rt; "nothing came to {address}{how_long}");
            return;
        }
        let port = node.port;
        let _ = eprintln!(self.rt; "nothing came to 127.0.0.1:{port}{how_long}");
        if !matches!(node.role, Role::Hub) {
            let hub = node.hub;
            let _ = eprintln!(self.rt; "the hub is to be at 127.0.0.1:{hub}");
        }
    }

    /// Says that all turns were made, if this is a receiver or the hub, alone over sockets. Call it only if the program ended well, and
    /// after [`end_progress`](crate::end_progress).
    pub fn say_spent(&self) {
        let is_busy = self.silence.is_broken(moment(&self.rt));
        if let Some(spent) = spent_by(&self.node, is_busy) {
            let _ = eprintln!(self.rt; "{spent}");
        }
    }

    /// Begins to watch a node, after a start that was `Ok`. Warns if a member alone over sockets has a `step` that is not 0.
    fn begin(&mut self, profile: &Profile, local: &Local)
        ensures { watched_by self.new ≡ watched_by self.old }
    {
        self.node = node_of(profile, local);
        self.strays = Strays::of(profile, local);
        self.passed = 0;
        self.has_said_second = false;
        self.unsent = None;
        self.counts_takes = counts_takes(local);
        self.takes_left = 0;
        self.silence = Silence::from(moment(&self.rt));
        if self.node.is_some() && !matches!(local, Local::Hub) && profile.step != 0 {
            let step = profile.step;
            wipe(&self.rt, self.tally);
            let _ = eprintln!(self.rt;
                "the profile's step is {step}: over sockets it is to be 0, so that the clock gives the moments"
            );
        }
    }

    /// Says on a line what became of a datagram, its node and its octets, if each is to be said.
    fn trace(&self, what: &str, node: NodeId, octets: &[u8]) {
        let node = node.number();
        let datagram = Hex { octets };
        match self.says.log {
            Log::Off => {}
            Log::Trace => {
                wipe(&self.rt, self.tally);
                let _ = eprintln!(self.rt; "{what} {node} {datagram}");
            }
            Log::Record => {
                wipe(&self.rt, self.tally);
                let moment = udp_rules::moment(&self.rt);
                let _ = eprintln!(self.rt; "{moment} {what} {node} {datagram}");
            }
        }
    }

    fn count(&self, octets: &[u8]) {
        if is_repair(octets) {
            self.tally.repair();
        }
    }

    /// Draws the line of progress, if it is asked for and a second went by.
    fn draw(&mut self, now: Duration)
        ensures { watched_by self.new ≡ watched_by self.old }
    {
        if self.says.progress && now.saturating_sub(self.drawn) >= Duration::from_secs(PAUSE) {
            self.drawn = now;
            draw(&self.rt, self.tally);
        }
    }

    /// Notes what a receiver alone took. Says what [`Strays`] reports of it.
    fn hear(&mut self, octets: &[u8])
        ensures { watched_by self.new ≡ watched_by self.old }
    {
        let Some(strays) = &mut self.strays else {
            return;
        };
        let Some(heard) = strays.unusual(octets) else {
            return;
        };
        let stray = strays.hear(&heard, moment(&self.rt));
        if let Some(stray) = stray {
            self.say(&stray);
        }
    }

    /// If the network itself passed over datagrams since the last look, notes that something came. The first time, says why they were
    /// passed over.
    fn look_passed(&mut self)
        ensures { watched_by self.new ≡ watched_by self.old }
    {
        let passed = self.fabric.passed_over();
        if passed == self.passed {
            return;
        }
        if self.passed == 0 {
            if let Some(misfit) = self.fabric.misfit() {
                self.say(&misfit);
            }
        }
        self.passed = passed;
        self.silence.note();
    }

    /// Says of a group that datagrams cannot be sent now, and that they can again.
    fn look_unsent(&mut self, unsent: Option<Unsent>)
        ensures { watched_by self.new ≡ watched_by self.old }
    {
        match (unsent, self.unsent) {
            (Some(now), None) => self.say(&now),
            (None, Some(before)) => {
                let address = before.address;
                wipe(&self.rt, self.tally);
                let _ = eprintln!(self.rt; "sending to {address} works again");
            }
            _ => return,
        }
        self.unsent = unsent;
    }

    /// Says once that a group passes over a machine.
    fn look_second(&mut self, second: Option<SecondMachine>)
        ensures { watched_by self.new ≡ watched_by self.old }
    {
        if self.has_said_second {
            return;
        }
        if let Some(second) = second {
            self.say(&second);
            self.has_said_second = true;
        }
    }

    /// Says what a group reports: a machine that is passed over once, and each time that sending begins or ends to fail.
    fn look_group(&mut self)
        ensures { watched_by self.new ≡ watched_by self.old }
    {
        if let Some(news) = self.fabric.group_news() {
            self.look_second(news.second);
            self.look_unsent(news.unsent);
        }
    }

    /// If a watermark expired and nothing ever came, says so, unless it was said already that nothing comes.
    fn look_expired(&mut self, node: &Node)
        ensures { watched_by self.new ≡ watched_by self.old }
    {
        if self.tally.has_expired.get() && self.silence.expire() {
            self.say_unheard(node, "");
        }
    }

    /// Reads the clock. Says so if nothing came for ten seconds, at most once for each silence, and draws progress if it is due.
    fn watch(&mut self, node: &Node)
        ensures { watched_by self.new ≡ watched_by self.old }
    {
        let now = moment(&self.rt);
        if self.silence.read(now) {
            self.say_unheard(node, " for ten seconds");
        }
        self.draw(now);
    }

    /// Call after a take that did not fail. `is_some` is whether it gave something. Does nothing if this process is no node alone over
    /// sockets, which then draws no progress.
    fn took(&mut self, is_some: bool)
        ensures { watched_by self.new ≡ watched_by self.old }
    {
        let Some(node) = self.node else {
            return;
        };
        if is_some {
            self.silence.note();
        }
        self.look_passed();
        self.look_group();
        self.look_expired(&node);
        if self.takes_left > 0 {
            self.takes_left -= 1;
            return;
        }
        self.takes_left = TAKES - 1;
        self.watch(&node);
    }
}

impl<R: Eprint + Clock, F: Fabric + PassesOver + TellsGroup> Fabric for WatchedFabric<'_, R, F> {
    ghost told = { λ w. F.told (watched_by w) };

    ghost fault_count = { λ w. F.fault_count (watched_by w) };

    fn start(&mut self, profile: &Profile, local: Local) -> Result<(), FabricFault> {
        // The watched network first: nothing is said of a start that failed.
        self.fabric.start(profile, local)?;
        self.begin(profile, &local);
        Ok(())
    }

    fn offer(&mut self, from: NodeId, bytes: &[u8]) -> Result<(), FabricFault> {
        self.fabric.offer(from, bytes)?;
        self.trace("offer", from, bytes);
        self.count(bytes);
        Ok(())
    }

    fn take(&mut self, into: &mut Datagram) -> Result<Option<NodeId>, FabricFault> {
        let taken = self.fabric.take(into)?;
        if let Some(node) = taken {
            self.trace("take", node, into.bytes());
            if self.counts_takes {
                self.count(into.bytes());
            }
            self.hear(into.bytes());
        }
        self.took(taken.is_some());
        Ok(taken)
    }

    fn faults(&self) -> u64 {
        self.fabric.faults()
    }
}
