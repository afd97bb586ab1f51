//! The turns of a tail.

ghost use Rattle.std.specs.Prelude.{◌≡◌, ◌+◌, ◌*◌, ◌<◌, ◌≤◌, ◌^◌, ℕ, false, OnOk, OnErr, IfOk};
ghost use Rattle.std.specs.Option.{option_map_or};
ghost use Rattle.rand_pcg.specs.Lcg.{Lcg};
ghost use Rattle.norm_safety.specs.Tail.{Course, Tail, sender_ticks, says_open, is_open_mark, cut_turn, tail_until};
ghost use Rattle.norm_safety.specs.World.{World as Rules};
ghost use Rattle.norm_tail.specs.Ending.{Ends};
ghost use Rattle.norm_tail.specs.SoFar.{Context, At, AtSent, Stopped, Goes, Stops};
ghost use Rattle.norm_tail.specs.Steps.{words_of};
ghost use Rattle.norm_world.specs.WorldKept.{IsReady, StandsFor};

use crate::serving::go_round;
use crate::step::TailStep;
use crate::telling::tell_all;
use norm_base::{Datagram, Memory, Moment, Profile, Sent};
use norm_send_rules::Outcome;
use norm_world::World;
use rand_pcg::Lcg64Xsh32;

/// Ticks the sender, and notes its news. `Memory` if memory runs out.
fn tick_sender(
    world: &mut World,
    steps: &mut Vec<TailStep>,
    now: Moment,
    datagram: &mut Datagram,
) -> Result<Sent, Memory>
    requires { IsReady world.old }
    ensures ready { IsReady world.new }
    ensures profile { world.new.p ≡ world.old.p }
    ensures goes { IfOk result (λ sent. (g : Lcg) (x : Context) (c : Course) → At x c world.old steps.old.items g
        → AtSent x (sender_ticks x.p now c) x.p.sender sent datagram.new world.new steps.new.items g) }
    ensures stops { OnErr result ((g : Lcg) → Stops (λ x c. sender_ticks x.p now c) world.old world.new steps.old.items g) }
{
    let sent = world.tick_sender(now, datagram);
    tell_all(world, steps)?;
    Ok(sent)
}

/// Whether an outcome is that the watermark is open. Without an outcome no watermark has the number.
fn says_open(outcome: Option<Outcome>) -> bool
    ensures { result ≡ option_map_or says_open outcome false }
{
    matches!(outcome, Some(Outcome::Open { .. }))
}

/// Whether a watermark is open. False also if none has this number.
fn is_open(world: &World, mark: u32) -> bool
    ensures { (w : Rules) → StandsFor world.now w → result ≡ is_open_mark w mark }
{
    says_open(world.sender().book().outcome(mark))
}

/// Does a turn. It ends after the sender's tick and news if the tick ended the watermark. `Memory` if memory runs out.
fn turn(
    world: &mut World,
    profile: &Profile,
    steps: &mut Vec<TailStep>,
    draws: &mut Lcg64Xsh32,
    mark: u32,
    now: Moment,
    datagram: &mut Datagram,
) -> Result<(), Memory>
    requires ready { IsReady world.old }
    requires profile { world.old.p ≡ profile.now }
    ensures ready { IsReady world.new }
    ensures profile { world.new.p ≡ world.old.p }
    ensures goes { OnOk result (Goes (λ x c. cut_turn x.p (words_of x.draws) mark now c) world.old world.new
        steps.old.items steps.new.items draws.old draws.new) }
    ensures stops { OnErr result (Stops (λ x c. cut_turn x.p (words_of x.draws) mark now c) world.old world.new steps.old.items draws.old) }
{
    let sent = tick_sender(world, steps, now, datagram)?;
    // A watermark that expired leaves nothing to wait for.
    if !is_open(world, mark) {
        return Ok(());
    }
    go_round(world, profile, steps, draws, sent, now, datagram)?;
    Ok(())
}

fn later(now: Moment, profile: &Profile) -> Moment
    requires { now + profile.now.step < 2 ^ 64 }
    ensures { result ≡ now + profile.now.step }
{
    Moment(now.0 + u64::from(profile.step))
}

/// Does turns until a watermark is done, at most `bound` of them, a step apart, the first a step after `last`. Returns how many, 0 if it was done
/// before. `Memory` if memory runs out.
pub(crate) fn turns_until(
    world: &mut World,
    profile: &Profile,
    steps: &mut Vec<TailStep>,
    draws: &mut Lcg64Xsh32,
    mark: u32,
    last: Moment,
    bound: u64,
    datagram: &mut Datagram,
) -> Result<u64, Memory>
    requires ready { IsReady world.old }
    requires profile { world.old.p ≡ profile.now }
    requires fits { last + bound * profile.now.step < 2 ^ 64 }
    ensures ready { IsReady world.new }
    ensures profile { world.new.p ≡ world.old.p }
    ensures within { IfOk result (λ turns. turns ≤ bound) }
    ensures goes { IfOk result (λ turns. (x : Context) (t : Tail) → t.turns ≡ 0 → t.last ≡ last → At x t.course world.old steps.old.items draws.old
        → Ends x (tail_until bound x.p (words_of x.draws) mark t) turns world.new steps.new.items draws.new) }
    ensures stops { OnErr result ((x : Context) (t : Tail) → t.turns ≡ 0 → t.last ≡ last → At x t.course world.old steps.old.items draws.old
        → Stopped x (tail_until bound x.p (words_of x.draws) mark t).course world.new) }
{
    let mut now = last;
    for turns in 0..bound {
        if !is_open(world, mark) {
            return Ok(turns);
        }
        now = later(now, profile);
        turn(world, profile, steps, draws, mark, now, datagram)?;
    }
    Ok(bound)
}
