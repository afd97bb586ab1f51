//! The receivers' parts of a turn.

ghost use Rattle.std.specs.Prelude.{◌≡◌, ℕ, true, OnOk, OnErr, fold};
ghost use Rattle.norm_base.specs.Members.{is_receiver, receivers_of};
ghost use Rattle.norm_safety.specs.Tail.{Course, serves, goes_round};
ghost use Rattle.norm_tail.specs.SoFar.{Context, At, AtSent, Stopped, Goes, Stops};
ghost use Rattle.norm_tail.specs.Steps.{words_of};
ghost use Rattle.norm_world.specs.WorldKept.{IsReady};

use crate::copying::pass_on;
use crate::handing::tick_receiver;
use crate::members::{receiver, sender_node};
use crate::step::TailStep;
use norm_base::{Datagram, Memory, Moment, NodeId, Profile, Sent};
use norm_world::World;
use rand_pcg::Lcg64Xsh32;

/// Takes a receiver's hand-ups, ticks it, and passes on its datagram. `Memory` if memory runs out.
fn serve(
    world: &mut World,
    profile: &Profile,
    steps: &mut Vec<TailStep>,
    draws: &mut Lcg64Xsh32,
    node: NodeId,
    now: Moment,
    datagram: &mut Datagram,
) -> Result<(), Memory>
    requires ready { IsReady world.old }
    requires profile { world.old.p ≡ profile.now }
    requires receiver { is_receiver world.old.p node ≡ true }
    ensures ready { IsReady world.new }
    ensures profile { world.new.p ≡ world.old.p }
    ensures goes { OnOk result (Goes (λ x c. serves x.p (words_of x.draws) now c node) world.old world.new
        steps.old.items steps.new.items draws.old draws.new) }
    ensures stops { OnErr result (Stops (λ x c. serves x.p (words_of x.draws) now c node) world.old world.new steps.old.items draws.old) }
{
    let sent = tick_receiver(world, steps, node, now, datagram)?;
    pass_on(world, profile, steps, draws, node, sent, datagram, now)?;
    Ok(())
}

/// Serves all receivers in their order, each before the next one ticks. `Memory` if memory runs out.
fn serve_all(
    world: &mut World,
    profile: &Profile,
    steps: &mut Vec<TailStep>,
    draws: &mut Lcg64Xsh32,
    now: Moment,
    datagram: &mut Datagram,
) -> Result<(), Memory>
    requires ready { IsReady world.old }
    requires profile { world.old.p ≡ profile.now }
    ensures ready { IsReady world.new }
    ensures profile { world.new.p ≡ world.old.p }
    ensures goes { OnOk result (Goes (λ x c. fold (serves x.p (words_of x.draws) now) c (receivers_of x.p x.p.receivers)) world.old world.new
        steps.old.items steps.new.items draws.old draws.new) }
    ensures stops { OnErr result (Stops (λ x c. fold (serves x.p (words_of x.draws) now) c (receivers_of x.p x.p.receivers)) world.old world.new
        steps.old.items draws.old) }
{
    for i in 0..u32::from(profile.receivers) {
        serve(
            world,
            profile,
            steps,
            draws,
            receiver(profile, i),
            now,
            datagram,
        )?;
    }
    Ok(())
}

/// Passes on the sender's datagram, if its tick gave one, and then serves all receivers. `Memory` if memory runs out.
pub(crate) fn go_round(
    world: &mut World,
    profile: &Profile,
    steps: &mut Vec<TailStep>,
    draws: &mut Lcg64Xsh32,
    sent: Sent,
    now: Moment,
    datagram: &mut Datagram,
) -> Result<(), Memory>
    requires ready { IsReady world.old }
    requires profile { world.old.p ≡ profile.now }
    ensures ready { IsReady world.new }
    ensures profile { world.new.p ≡ world.old.p }
    ensures goes { OnOk result ((x : Context) (c : Course) → AtSent x c x.p.sender sent datagram.old world.old steps.old.items draws.old
        → At x (goes_round x.p (words_of x.draws) now c) world.new steps.new.items draws.new) }
    ensures stops { OnErr result ((x : Context) (c : Course) → AtSent x c x.p.sender sent datagram.old world.old steps.old.items draws.old
        → Stopped x (goes_round x.p (words_of x.draws) now c) world.new) }
{
    pass_on(
        world,
        profile,
        steps,
        draws,
        sender_node(profile),
        sent,
        datagram,
        now,
    )?;
    serve_all(world, profile, steps, draws, now, datagram)?;
    Ok(())
}
