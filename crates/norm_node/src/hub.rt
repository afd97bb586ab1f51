//! The hub between nodes that are in processes of their own: [`run_hub`].

ghost use Rattle.std.specs.Prelude.{◌≡◌, ◌<◌, ◌+◌, ℕ, Option, List, Bool, IfOk, IfErr, OnOk};
ghost use Rattle.norm_base.specs.Network.{Network};
ghost use Rattle.norm_base.specs.Settings.{Settings};
ghost use Rattle.norm_turns.specs.Causes.{NetworkCause};
ghost use Rattle.norm_node.specs.Hub.{Around, around, HubAt, HubKept, HubStopped, Idle, Listening, RunsHub, StopsHub};
ghost use Rattle.norm_node.specs.Passing.{HasPassed, IsNextHubTurn, HubTurns, HubStopsTurn, HubTakesTurns};

use norm_base::{Clock, Datagram, Fabric, Local, Moment, Profile};
use norm_turns::{MOST_TAKES, SessionFault, moment_of};
use std::alloc::Global;
use std::marker::Model;

/// A hub's run between two turns. It keeps nothing of what it passed on.
#[derive(Drop)]
struct HubRun {
    profile: Profile,
    turn: u32,
    now: Moment,
}

impl Model for HubRun {
    ghost use Rattle.norm_node.specs.Hub.{HubKept};

    ghost Value = { HubKept };

    ghost view = { λ r. record { p = r.profile; turn = r.turn; now = r.now } };
}

/// Takes a datagram from the network and offers it again, as from its member. Returns false if the network has none ready.
fn pass<F: Fabric>(fabric: &mut F, datagram: &mut Datagram) -> Result<bool, SessionFault>
    ensures goes { IfOk result (λ more. (p : Settings) (o : Around) (k : HubKept) (count : ℕ) (moments : Option (List ℕ))
        → HubAt p o k (Listening count) (around (F.told fabric.old) moments) → HasPassed more p o k count (around (F.told fabric.new) moments)) }
    ensures stops { IfErr result (λ fault. (p : Settings) (o : Around) (k : HubKept) (count : ℕ) (moments : Option (List ℕ))
        → HubAt p o k (Listening count) (around (F.told fabric.old) moments) → HubStopped p o fault (around (F.told fabric.new) moments)) }
    ensures cause { NetworkCause result (F.fault_count fabric.old) (F.fault_count fabric.new) }
{
    match fabric.take(datagram)? {
        Some(from) => {
            fabric.offer(from, datagram.bytes())?;
            Ok(true)
        }
        None => Ok(false),
    }
}

/// Passes datagrams on until the network has none ready, at most `MOST_TAKES` of them.
fn pass_all<F: Fabric>(fabric: &mut F, datagram: &mut Datagram) -> Result<(), SessionFault>
    ensures goes { OnOk result ((p : Settings) (o : Around) (k : HubKept) (moments : Option (List ℕ))
        → HubAt p o k (Listening 0) (around (F.told fabric.old) moments) → HubAt p o k Idle (around (F.told fabric.new) moments)) }
    ensures stops { IfErr result (λ fault. (p : Settings) (o : Around) (k : HubKept) (moments : Option (List ℕ))
        → HubAt p o k (Listening 0) (around (F.told fabric.old) moments) → HubStopped p o fault (around (F.told fabric.new) moments)) }
    ensures cause { NetworkCause result (F.fault_count fabric.old) (F.fault_count fabric.new) }
{
    for _ in 0..MOST_TAKES {
        if !pass(fabric, datagram)? {
            return Ok(());
        }
    }
    Ok(())
}

impl HubRun {
    // Proof: a number of the profile, read by itself.
    fn step(&self) -> u32
        ensures { result ≡ self.entry.now.p.step }
    {
        self.profile.step
    }

    /// Begins the turn with this number. Its moment is that number times the profile's step. If the step is 0, it is the clock's, or the
    /// moment before if the clock went backwards.
    fn begin_turn<C: Clock>(&mut self, number: u32, clock: &mut C)
        requires number { number ≡ self.old.turn + 1 }
        requires left { self.old.turn < self.old.p.turns }
        ensures goes { (p : Settings) (o : Around) (network : Network) → HubAt p o self.old Idle (around network (C.moments clock.old))
            → HubAt p o self.new (Listening 0) (around network (C.moments clock.new)) }
        ensures turn { IsNextHubTurn self.old self.new }
    {
        let step = self.step();
        let moment = moment_of(number, step, self.now, clock);
        self.turn = number;
        self.now = moment;
    }

    /// Begins the turn with this number, and passes on what the network has ready, as [`pass_all`]. The hub itself sends nothing.
    fn turn<F: Fabric, C: Clock>(
        &mut self,
        number: u32,
        fabric: &mut F,
        clock: &mut C,
        datagram: &mut Datagram,
    ) -> Result<(), SessionFault>
        requires number { number ≡ self.old.turn + 1 }
        requires left { self.old.turn < self.old.p.turns }
        ensures goes { OnOk result (HubTurns self.old self.new (around (F.told fabric.old) (C.moments clock.old)) (around (F.told fabric.new) (C.moments clock.new))) }
        ensures stops { IfErr result (λ fault. HubStopsTurn self.old fault
            (around (F.told fabric.old) (C.moments clock.old)) (around (F.told fabric.new) (C.moments clock.new))) }
        ensures turn { IsNextHubTurn self.old self.new }
        ensures cause { NetworkCause result (F.fault_count fabric.old) (F.fault_count fabric.new) }
    {
        self.begin_turn(number, clock);
        pass_all(fabric, datagram)
    }

    fn last_turn(&self) -> u32
        ensures { result ≡ self.entry.now.p.turns }
    {
        self.profile.turns
    }

    /// Does all turns of the profile. Call it before any turn was done.
    fn turns<F: Fabric, C: Clock>(
        &mut self,
        fabric: &mut F,
        clock: &mut C,
        datagram: &mut Datagram,
    ) -> Result<(), SessionFault>
        requires { self.old.turn ≡ 0 }
        ensures goes { OnOk result (HubTakesTurns self.old self.new (around (F.told fabric.old) (C.moments clock.old)) (around (F.told fabric.new) (C.moments clock.new))) }
        ensures stops { IfErr result (λ fault. HubStopsTurn self.old fault
            (around (F.told fabric.old) (C.moments clock.old)) (around (F.told fabric.new) (C.moments clock.new))) }
        ensures cause { NetworkCause result (F.fault_count fabric.old) (F.fault_count fabric.new) }
    {
        for i in 0..self.last_turn() {
            self.turn(i + 1, fabric, clock, datagram)?;
        }
        Ok(())
    }
}

/// Runs the hub between a session's nodes, each in a process of its own, for all turns of a profile. It starts the network as the
/// hub. Then it offers each datagram that it takes again, once and in order, as from its member. It prints nothing.
///
/// # Errors
///
/// `Fabric` if a call of the network failed, or `Memory`.
// It answers nothing more: a run is all turns of the profile, and what it passed on stands in the network (`RunsHub`).
pub fn run_hub<F: Fabric, C: Clock>(
    alloc: Global,
    profile: &Profile,
    fabric: &mut F,
    clock: &mut C,
) -> Result<(), SessionFault>
    ensures run { OnOk result (RunsHub profile.now (around (F.told fabric.old) (C.moments clock.old)) (around (F.told fabric.new) (C.moments clock.new))) }
    ensures stops { IfErr result (λ fault. StopsHub fault profile.now
        (around (F.told fabric.old) (C.moments clock.old)) (around (F.told fabric.new) (C.moments clock.new))) }
    ensures cause { NetworkCause result (F.fault_count fabric.old) (F.fault_count fabric.new) }
{
    let mut datagram = Datagram::new(alloc)?;
    let mut run = HubRun {
        profile: *profile,
        turn: 0,
        now: Moment(0),
    };
    fabric.start(profile, Local::Hub)?;
    run.turns(fabric, clock, &mut datagram)
}
