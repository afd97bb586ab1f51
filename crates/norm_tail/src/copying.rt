//! A node's datagram, delivered to each other member.

ghost use Rattle.std.specs.Prelude.{◌≡◌, ℕ, List, true, OnOk, OnErr, fold};
ghost use Rattle.norm_base.specs.Members.{is_node};
ghost use Rattle.norm_safety.specs.Events.{Offered};
ghost use Rattle.norm_safety.specs.Tail.{Course, comes, copy_comes, others_than, passes_on};
ghost use Rattle.norm_tail.specs.SoFar.{Context, At, AtSent, Stopped, Goes, Stops, copy_unless};
ghost use Rattle.norm_tail.specs.Steps.{words_of};
ghost use Rattle.norm_world.specs.WorldKept.{IsReady};

use crate::members::member;
use crate::step::TailStep;
use crate::telling::tell_all;
use norm_base::{Datagram, Memory, Moment, NodeId, Profile, Sent};
use norm_turns::next_draw;
use norm_world::World;
use rand_pcg::Lcg64Xsh32;

/// Delivers a copy of a datagram: to a receiver with the next draw, or to the sender, whose news are then noted. `Memory` if memory runs out.
fn deliver(
    world: &mut World,
    steps: &mut Vec<TailStep>,
    draws: &mut Lcg64Xsh32,
    to: NodeId,
    bytes: &[u8],
    now: Moment,
) -> Result<(), Memory>
    requires ready { IsReady world.old }
    requires member { is_node world.old.p to ≡ true }
    ensures ready { IsReady world.new }
    ensures profile { world.new.p ≡ world.old.p }
    ensures goes { OnOk result (Goes (λ x c. copy_comes x.p (words_of x.draws) now bytes.now c to) world.old world.new
        steps.old.items steps.new.items draws.old draws.new) }
    ensures stops { OnErr result (Stops (λ x c. copy_comes x.p (words_of x.draws) now bytes.now c to) world.old world.new steps.old.items draws.old) }
{
    if !world.is_receiver(to) {
        // No draw: the sender backs off from nothing.
        world.deliver(to, bytes, now, 0)?;
        tell_all(world, steps)?;
        return Ok(());
    }
    let draw = next_draw(draws);
    world.deliver(to, bytes, now, draw)?;
    Ok(())
}

/// Delivers a copy of a node's datagram to a member. Does nothing if it is that node. `Memory` if memory runs out.
fn copy_to(
    world: &mut World,
    steps: &mut Vec<TailStep>,
    draws: &mut Lcg64Xsh32,
    from: NodeId,
    to: NodeId,
    bytes: &[u8],
    now: Moment,
) -> Result<(), Memory>
    requires ready { IsReady world.old }
    requires member { is_node world.old.p to ≡ true }
    ensures ready { IsReady world.new }
    ensures profile { world.new.p ≡ world.old.p }
    ensures goes { OnOk result (Goes (λ x c. copy_unless x.p (words_of x.draws) now bytes.now from c to) world.old world.new
        steps.old.items steps.new.items draws.old draws.new) }
    ensures stops { OnErr result (Stops (λ x c. copy_unless x.p (words_of x.draws) now bytes.now from c to) world.old world.new
        steps.old.items draws.old) }
{
    if to.number() == from.number() {
        return Ok(());
    }
    deliver(world, steps, draws, to, bytes, now)?;
    Ok(())
}

/// States that a node's datagram was offered, and delivers a copy of it to each other member, the sender first. `Memory` if memory runs out.
fn copy_to_all(
    world: &mut World,
    profile: &Profile,
    steps: &mut Vec<TailStep>,
    draws: &mut Lcg64Xsh32,
    from: NodeId,
    bytes: &[u8],
    now: Moment,
) -> Result<(), Memory>
    requires ready { IsReady world.old }
    requires profile { world.old.p ≡ profile.now }
    ensures ready { IsReady world.new }
    ensures profile { world.new.p ≡ world.old.p }
    ensures goes { OnOk result (Goes (λ x c. fold (copy_comes x.p (words_of x.draws) now bytes.now) (comes x.p (Offered from bytes.now) c) (others_than x.p from))
        world.old world.new steps.old.items steps.new.items draws.old draws.new) }
    ensures stops { OnErr result (Stops (λ x c. fold (copy_comes x.p (words_of x.draws) now bytes.now) (comes x.p (Offered from bytes.now) c) (others_than x.p from))
        world.old world.new steps.old.items draws.old) }
{
    world.offered(from, bytes);
    for i in 0..u32::from(profile.receivers) + 1 {
        copy_to(world, steps, draws, from, member(profile, i), bytes, now)?;
    }
    Ok(())
}

/// Passes on the datagram of a node's last tick, if the tick gave one. `Memory` if memory runs out.
pub(crate) fn pass_on(
    world: &mut World,
    profile: &Profile,
    steps: &mut Vec<TailStep>,
    draws: &mut Lcg64Xsh32,
    from: NodeId,
    sent: Sent,
    datagram: &Datagram,
    now: Moment,
) -> Result<(), Memory>
    requires ready { IsReady world.old }
    requires profile { world.old.p ≡ profile.now }
    ensures ready { IsReady world.new }
    ensures profile { world.new.p ≡ world.old.p }
    ensures goes { OnOk result ((x : Context) (c : Course) → AtSent x c from sent datagram.now world.old steps.old.items draws.old
        → At x (passes_on x.p (words_of x.draws) now c from) world.new steps.new.items draws.new) }
    ensures stops { OnErr result ((x : Context) (c : Course) → AtSent x c from sent datagram.now world.old steps.old.items draws.old
        → Stopped x (passes_on x.p (words_of x.draws) now c from) world.new) }
{
    match sent {
        Sent::Nothing => Ok(()),
        Sent::Datagram => {
            copy_to_all(world, profile, steps, draws, from, datagram.bytes(), now)?;
            Ok(())
        }
    }
}
