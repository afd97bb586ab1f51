//! The sender's news, noted as steps.

ghost use Rattle.std.specs.Prelude.{◌≡◌, OnOk, OnErr};
ghost use Rattle.rand_pcg.specs.Lcg.{Lcg};
ghost use Rattle.norm_safety.specs.Events.{NewsAsked};
ghost use Rattle.norm_safety.specs.Tail.{comes, tells};
ghost use Rattle.norm_tail.specs.SoFar.{Goes, Stops};
ghost use Rattle.norm_world.specs.WorldKept.{IsReady};

use crate::step::TailStep;
use norm_base::Memory;
use norm_world::World;

/// Notes the sender's next change, if there is one. `Memory` if memory runs out. Then the change is gone.
fn tell(world: &mut World, steps: &mut Vec<TailStep>) -> Result<(), Memory>
    requires { IsReady world.old }
    ensures ready { IsReady world.new }
    ensures profile { world.new.p ≡ world.old.p }
    ensures goes { OnOk result ((g : Lcg) → Goes (λ x c. comes x.p NewsAsked c) world.old world.new steps.old.items steps.new.items g g) }
    ensures stops { OnErr result ((g : Lcg) → Stops (λ x c. comes x.p NewsAsked c) world.old world.new steps.old.items g) }
{
    let Some(news) = world.news() else {
        return Ok(());
    };
    steps.push(TailStep::News(news))?;
    Ok(())
}

/// Notes all changes of the sender. `Memory` if memory runs out.
pub(crate) fn tell_all(world: &mut World, steps: &mut Vec<TailStep>) -> Result<(), Memory>
    requires { IsReady world.old }
    ensures ready { IsReady world.new }
    ensures profile { world.new.p ≡ world.old.p }
    ensures goes { OnOk result ((g : Lcg) → Goes (λ x c. tells x.p c) world.old world.new steps.old.items steps.new.items g g) }
    ensures stops { OnErr result ((g : Lcg) → Stops (λ x c. tells x.p c) world.old world.new steps.old.items g) }
{
    // As often as there are changes: to report one makes no other.
    for _ in 0..world.sender().untold() {
        tell(world, steps)?;
    }
    Ok(())
}
