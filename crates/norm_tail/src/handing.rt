//! A receiver's hand-ups, noted as steps, and its tick.

ghost use Rattle.std.specs.Prelude.{◌≡◌, true, OnOk, OnErr, IfOk, ℕ};
ghost use Rattle.rand_pcg.specs.Lcg.{Lcg};
ghost use Rattle.norm_base.specs.Members.{is_receiver};
ghost use Rattle.norm_safety.specs.Events.{UpTaken};
ghost use Rattle.norm_safety.specs.Tail.{Course, comes, takes, receiver_ticks};
ghost use Rattle.norm_tail.specs.SoFar.{Context, At, AtSent, Goes, Stops};
ghost use Rattle.norm_world.specs.WorldKept.{IsReady};
ghost use Rattle.norm_world.specs.WorldMoves.{AreTaken, receiver_of};

use crate::step::TailStep;
use norm_base::{Datagram, Memory, Moment, NodeId, Sent};
use norm_world::World;

/// Takes and notes a receiver's next hand-up, if there is one. `Memory` if memory runs out. Then the hand-up is gone.
fn take(world: &mut World, steps: &mut Vec<TailStep>, node: NodeId) -> Result<(), Memory>
    requires { is_receiver world.old.p node ≡ true }
    ensures profile { world.new.p ≡ world.old.p }
    ensures sender { world.new.sender ≡ world.old.sender }
    ensures goes { OnOk result ((g : Lcg) → Goes (λ x c. comes x.p (UpTaken node) c) world.old world.new steps.old.items steps.new.items g g) }
    ensures stops { OnErr result ((g : Lcg) → Stops (λ x c. comes x.p (UpTaken node) c) world.old world.new steps.old.items g) }
{
    let Some(up) = world.take_up(node) else {
        return Ok(());
    };
    steps.push(TailStep::Up { node, up })?;
    Ok(())
}

fn are_taken(world: &World, node: NodeId) -> bool
    requires { is_receiver world.now.p node ≡ true }
    ensures { result ≡ true → AreTaken (receiver_of world.now node) }
{
    world.receiver(node).ups() == 0
}

/// Takes and notes all hand-ups of a receiver. `Memory` if memory runs out.
fn take_all(world: &mut World, steps: &mut Vec<TailStep>, node: NodeId) -> Result<(), Memory>
    requires { is_receiver world.old.p node ≡ true }
    ensures profile { world.new.p ≡ world.old.p }
    ensures sender { world.new.sender ≡ world.old.sender }
    ensures taken { OnOk result (AreTaken (receiver_of world.new node)) }
    ensures goes { OnOk result ((g : Lcg) → Goes (λ x c. takes x.p node c) world.old world.new steps.old.items steps.new.items g g) }
    ensures stops { OnErr result ((g : Lcg) → Stops (λ x c. takes x.p node c) world.old world.new steps.old.items g) }
{
    for _ in 0..world.receiver(node).ups() {
        take(world, steps, node)?;
    }
    // Never taken: the loop took as many as there were.
    if !are_taken(world, node) {
        return Err(Memory);
    }
    Ok(())
}

/// Takes and notes all hand-ups of a receiver, and then ticks it. `Memory` if memory runs out.
pub(crate) fn tick_receiver(
    world: &mut World,
    steps: &mut Vec<TailStep>,
    node: NodeId,
    now: Moment,
    datagram: &mut Datagram,
) -> Result<Sent, Memory>
    requires ready { IsReady world.old }
    requires receiver { is_receiver world.old.p node ≡ true }
    ensures ready { IsReady world.new }
    ensures profile { world.new.p ≡ world.old.p }
    ensures goes { IfOk result (λ sent. (g : Lcg) (x : Context) (c : Course) → At x c world.old steps.old.items g
        → AtSent x (receiver_ticks x.p now c node) node sent datagram.new world.new steps.new.items g) }
    ensures stops { OnErr result ((g : Lcg) → Stops (λ x c. receiver_ticks x.p now c node) world.old world.new steps.old.items g) }
{
    take_all(world, steps, node)?;
    Ok(world.tick_receiver(node, now, datagram))
}
