//! A whole tail: [`run_tail`].

ghost use Rattle.std.specs.Prelude.{◌≡◌, ◌≢◌, ◌≤◌, IfOk, IfErr};
ghost use Rattle.norm_safety.specs.Tail.{tail_fault};
ghost use Rattle.norm_safety.specs.World.{World as Rules};
ghost use Rattle.norm_tail.specs.Beginning.{CanTail, refused_by};
ghost use Rattle.norm_tail.specs.Ending.{MakesTail, BreaksOff};
ghost use Rattle.norm_tail.specs.Recovering.{RecoversRuns};
ghost use Rattle.norm_tail.specs.declared.fault.TailFault.TheVariants as fault;
ghost use Rattle.norm_world.specs.WorldKept.{IsReady, StandsFor};

use crate::beginning::{bound_of, hold_range, oldest_mark, refused, symbols};
use crate::fault::TailFault;
use crate::step::TailStep;
use crate::turning::turns_until;
use norm_base::{Datagram, Moment, Profile};
use norm_world::World;
use rand_pcg::Lcg64Xsh32;
use std::alloc::Global;

/// How long a tail took, and what came of it. The nodes stay in the world that was lent.
#[derive(Drop)]
pub struct TailEnd {
    /// How many turns it took, the one in which the watermark ended included.
    pub turns: u64,
    /// The most turns that it could take, by the profile and the window at its beginning.
    pub bound: u64,
    /// What was handed up and reported, in the order in which it came.
    pub steps: Vec<TailStep>,
}

/// Lets the nodes of a world go on over a network that loses nothing, until the oldest watermark is done. Turns are the profile's step apart, and
/// the first comes a step after `last`, which no event of the world may pass. Each delivery to a receiver uses one of `draws`.
///
/// In a turn the sender ticks. If the tick ends the watermark, the turn ends there. Otherwise a copy of its datagram,
/// if it gave one, comes to each receiver. Then each receiver in order ticks after its hand-ups were taken, and a copy of its datagram, if it gave
/// one, comes to each other member, the sender first. The sender's news are taken after its tick and after each copy that comes to it.
///
/// After a run that bounded recovery speaks of (`MayRecover`), in which no instance had more than 32,768 objects, an `Ok` left the watermark satisfied.
///
/// # Errors
///
/// The first [`TailFault`] that applies, with nothing changed, or `Memory` if memory runs out. Then what happened in the world stays, `draws`
/// may have gone on, and the steps are lost.
// It takes the allocator for the steps, which have to last after it.
pub fn run_tail(
    alloc: Global,
    world: &mut World,
    profile: &Profile,
    last: Moment,
    draws: &mut Lcg64Xsh32,
) -> Result<TailEnd, TailFault>
    requires profile { world.old.p ≡ profile.now }
    requires ready { IsReady world.old }
    requires fits { CanTail profile.now world.old last }
    ensures profile { world.new.p ≡ world.old.p }
    ensures ready { IsReady world.new }
    ensures refused { (w : Rules) → StandsFor world.old w → refused_by result ≡ tail_fault profile.now w.sender }
    ensures same { IfErr result (λ why. why ≢ fault.Memory → (world.new ≡ world.old) × (draws.new ≡ draws.old)) }
    ensures course { IfOk result (λ end. MakesTail profile.now draws.old draws.new last world.old world.new end.turns end.bound end.steps.items) }
    ensures recovers { IfOk result (λ end. RecoversRuns profile.now draws.old last world.old world.new) }
    ensures bound { IfOk result (λ end. end.turns ≤ end.bound) }
    ensures memory { IfErr result (λ why. why ≡ fault.Memory → BreaksOff profile.now draws.old last world.old world.new) }
{
    // All tests come before the first allocation: want of memory hides none of these faults.
    if let Some(fault) = refused(world, profile) {
        return Err(fault);
    }
    let Some(mark) = oldest_mark(world) else {
        // Never: one is open, since no fault applies.
        return Err(TailFault::NoRequest);
    };
    hold_range(profile);
    let bound = bound_of(profile, symbols(world));
    let mut datagram = Datagram::new(alloc)?;
    let mut steps = Vec::new(alloc);
    let turns = turns_until(
        world,
        profile,
        &mut steps,
        draws,
        mark,
        last,
        bound,
        &mut datagram,
    )?;
    Ok(TailEnd {
        turns,
        bound,
        steps,
    })
}
