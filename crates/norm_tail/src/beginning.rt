//! Whether a tail may begin, and how many turns it may take.

ghost use Rattle.std.specs.Prelude.{◌≡◌, ◌+◌, ◌*◌, ◌≤◌, ◌==◌, ◌||◌, ℕ, nat_lt, option_map, option_and_then, is_none};
ghost use Rattle.std.specs.Int.{div_ceil};
ghost use Rattle.norm_base.specs.Settings.{InRange};
ghost use Rattle.norm_safety.specs.Tail.{drops, most_counted, tail_fault};
ghost use Rattle.norm_safety.specs.World.{World as Rules};
ghost use Rattle.norm_send_rules.specs.Repairable.{repairable, streams as streams_in};
ghost use Rattle.norm_send_rules.specs.SenderState.{SenderState, Watermark};
ghost use Rattle.norm_send_rules.specs.Watermarks.{oldest};
ghost use Rattle.norm_tail.specs.Beginning.{refusal_of};
ghost use Rattle.norm_world.specs.WorldKept.{StandsFor};

use crate::fault::TailFault;
use norm_base::{Mode, Profile};
use norm_world::World;

/// The most flushes that may be counted before a tail, with two for each unit of the back-off factor.
// A watermark expires after 20 flushes, and a phase of repairs takes at most 2K + 5 of them.
const MOST_COUNTED: u64 = 15;

/// The number of the oldest open watermark. `None` if none is open.
pub(crate) fn oldest_mark(world: &World) -> Option<u32>
    ensures { (w : Rules) → StandsFor world.now w → result ≡ option_map (λ (m : Watermark). m.mark) (oldest w.sender) }
{
    let open = world.sender().book().oldest()?;
    Some(open.mark)
}

/// How many streams are enqueued and not wholly dropped, closed ones included.
fn streams(world: &World) -> u32
    ensures { (w : Rules) → StandsFor world.now w → result ≡ streams_in w.sender }
{
    world.sender().window().streams()
}

/// How many infos and encoded symbols the window has, parity included. Visits each entry.
pub(crate) fn symbols(world: &World) -> u64
    ensures { (w : Rules) → StandsFor world.now w → result ≡ repairable world.now.p w.sender }
{
    world.sender().repairable()
}

/// How many flushes were counted since another watermark became the oldest, a round made a want, or the instance began.
fn flushes(world: &World) -> u32
    ensures { (w : Rules) → StandsFor world.now w → result ≡ w.sender.flushes }
{
    world.sender().flushes()
}

fn drops(profile: &Profile) -> bool
    ensures { result ≡ drops profile.now }
{
    match profile.mode {
        Mode::Hold => false,
        Mode::Drop => true,
    }
}

fn is_step_out(profile: &Profile) -> bool
    ensures { result ≡ (profile.now.step == 0 || nat_lt profile.now.gap profile.now.step) }
{
    profile.step == 0 || profile.step > profile.gap
}

/// Whether this many infos and symbols, and one datagram more, sent twice, take longer than a round trip.
fn is_slow(profile: &Profile, symbols: u64) -> bool
    ensures { result ≡ nat_lt profile.now.grtt (2 * (symbols + 1) * (profile.now.gap + profile.now.step)) }
{
    // Each takes a microsecond at least. The product of more could be above 64 bits.
    if symbols > u64::from(profile.grtt) {
        return true;
    }
    let apart = u64::from(profile.gap) + u64::from(profile.step);
    u64::from(profile.grtt) < 2 * (symbols + 1) * apart
}

fn is_late(profile: &Profile, flushes: u32) -> bool
    ensures { result ≡ nat_lt most_counted (flushes + 2 * profile.now.k) }
{
    MOST_COUNTED < u64::from(flushes) + 2 * u64::from(profile.k)
}

/// The first fault that applies. `closed` says that no watermark is open, and `symbols` counts infos too.
#[tactic(auto, unfolding(norm_order::specs::First::first_where))]
fn first_fault(
    profile: &Profile,
    closed: bool,
    streams: u32,
    symbols: u64,
    flushes: u32,
) -> Option<TailFault>
    ensures { (s : SenderState) → closed ≡ is_none (oldest s) → streams ≡ streams_in s → symbols ≡ repairable profile.now s → flushes ≡ s.flushes
        → option_and_then refusal_of result ≡ tail_fault profile.now s }
{
    if closed {
        return Some(TailFault::NoRequest);
    }
    if drops(profile) {
        return Some(TailFault::Mode);
    }
    if streams > 0 {
        return Some(TailFault::Streams { count: streams });
    }
    if is_step_out(profile) {
        return Some(TailFault::Step { step: profile.step });
    }
    if is_slow(profile, symbols) {
        return Some(TailFault::Pace { symbols });
    }
    if is_late(profile, flushes) {
        return Some(TailFault::Flushes { count: flushes });
    }
    None
}

/// Why no tail may begin: the first fault that applies, in the order of [`TailFault`], and never `Memory`. `None` if one may.
pub(crate) fn refused(world: &World, profile: &Profile) -> Option<TailFault>
    requires { world.now.p ≡ profile.now }
    ensures { (w : Rules) → StandsFor world.now w → option_and_then refusal_of result ≡ tail_fault profile.now w.sender }
{
    let closed = oldest_mark(world).is_none();
    first_fault(
        profile,
        closed,
        streams(world),
        symbols(world),
        flushes(world),
    )
}

// Proof: a profile's values are within their ranges.
pub(crate) fn hold_range(profile: &Profile)
    ensures { InRange profile.now }
{
    let _value = profile.step;
}

/// The most turns of a tail, if the window has this many infos and encoded symbols.
pub(crate) fn bound_of(profile: &Profile, symbols: u64) -> u64
    requires symbols { symbols ≤ 10000000 }
    requires step { 1 ≤ profile.now.step }
    ensures { result ≡ div_ceil ((symbols + 1) * (4 * profile.now.k + 10) * profile.now.grtt) profile.now.step }
{
    let time = (symbols + 1) * (4 * u64::from(profile.k) + 10) * u64::from(profile.grtt);
    time.div_ceil(u64::from(profile.step))
}
