//! `relay`: a relay between two sessions, whose datagrams and ticks are lines of the input. It prints what the relay sends. The program calls
//! [`end_relay`].

ghost use Rattle.std.specs.Prelude.{◌≡◌};
ghost use Rattle.norm_args.specs.Fits.{FitsInstance};
ghost use Rattle.norm_relay.specs.RelayMoves.{IsRefusal};
ghost use Rattle.norm_relay.specs.RelayState.{can_relay};
ghost use Rattle.driven_nodes.specs.Chaining.{StandsFor};
ghost use Rattle.driven_nodes.specs.Misfits.{no_relay, patience_of};
ghost use Rattle.driven_nodes.specs.Relayed.{opening, relayed};
ghost use Rattle.norm_endings.specs.Outside.{Called, outside};
ghost use Rattle.norm_program.specs.Asked.{with_instance};
ghost use Rattle.norm_program.specs.Lending.{GivesBack};
ghost use Rattle.norm_program.specs.NodeEnds.{EndsUnder};
ghost use Rattle.norm_program.specs.RelayEnds.{EndsBetween, EndsRelay};
ghost use Rattle.norm_program.specs.Relaying.{IsEventEnding, IsPrintedEnding, IsSaying, IsSessionsEnding};

use crate::lent::Lent;
use crate::send::with_instance;
use driven_nodes::{RelayRun, no_relay, patience_of};
use norm_base::{Clock, Fabric, Files, NodeId, Profile, Sink, Source, Text};
use norm_endings::{
    Ending, ProfileFault, load, read_input, refuse_profile, refused_line, say, stop_session,
};
use norm_relay::RelayFault;
use relay_words::{NoEvent, Patience, RelayEnd};
use std::alloc::Global;

/// Writes the last line if the sessions are not relayed, and returns the ending. If memory ran out, writes none.
fn refuse_sessions<K: Sink>(
    why: RelayFault,
    up: &Profile,
    node: NodeId,
    down: &Profile,
    output: &mut K,
) -> Ending
    requires { IsRefusal why (can_relay up.now node down.now) }
    ensures { IsSessionsEnding up.now node down.now why result (K.pieces output.old) (K.pieces output.new) (K.fault_count output.old) (K.fault_count output.new) }
{
    match why {
        RelayFault::Profiles => {
            let why = no_relay(up, node, down);
            refuse_profile(ProfileFault::Relay { why }, output)
        }
        // `Refused` is no error of a relay that begins.
        RelayFault::Refused(_) => Ending::Memory,
        RelayFault::Memory => Ending::Memory,
    }
}

/// Writes the last line for line `number`, which is no event, and returns the ending: `Memory` if memory runs out for that line.
fn refuse_event<K: Sink>(alloc: Global, number: u64, why: NoEvent, output: &mut K) -> Ending
    ensures { IsEventEnding result number why (K.pieces output.old) (K.pieces output.new) (K.fault_count output.old) (K.fault_count output.new) }
{
    match refused_line(alloc, number) {
        Ok(line) => {
            say(output, line.as_bytes());
            Ending::Event { number, why }
        }
        Err(_) => Ending::Memory,
    }
}

/// Writes the last line if the lines ended before all were relayed, and returns the ending.
fn say_end<K: Sink>(alloc: Global, end: RelayEnd, patience: Patience, output: &mut K) -> Ending
    ensures { IsSaying end patience result (K.pieces output.old) (K.pieces output.new) (K.fault_count output.old) (K.fault_count output.new) }
{
    match end {
        RelayEnd::All { lost } => Ending::Relayed { lost, patience },
        RelayEnd::NoEvent { number, why } => refuse_event(alloc, number, why, output),
        RelayEnd::Refused { fault } => {
            say(output, b"refused command\n");
            Ending::Command { fault }
        }
    }
}

/// Takes the lines of a text, writes what is printed of them, and returns the ending.
fn end_lines<K: Sink>(
    alloc: Global,
    run: RelayRun,
    patience: Patience,
    text: &[u8],
    output: &mut K,
) -> Ending
    ensures { IsPrintedEnding result patience (relayed run.up run.node run.down text.now) (K.pieces output.old) (K.pieces output.new)
        (K.fault_count output.old) (K.fault_count output.new) }
{
    match run.take_lines(alloc, text, output) {
        Ok(end) => say_end(alloc, end, patience, output),
        Err(fault) => stop_session(alloc, fault, output),
    }
}

/// Relays between these sessions: reads the input whole, writes what is printed of its lines, and returns the ending. If the sessions are not
/// relayed, does not read the input.
fn relay<S: Source, K: Sink>(
    alloc: Global,
    up: &Profile,
    node: NodeId,
    down: &Profile,
    input: &mut S,
    output: &mut K,
) -> Ending
    ensures { (called : Called) → EndsBetween up.now node down.now result
        (outside (S.left input.old) (K.pieces output.old) (S.fault_count input.old) (K.fault_count output.old) called)
        (outside (S.left input.new) (K.pieces output.new) (S.fault_count input.new) (K.fault_count output.new) called) }
{
    let run = match RelayRun::begin(alloc, up, node, down) {
        Ok(run) => run,
        Err(why) => return refuse_sessions(why, up, node, down, output),
    };
    match read_input(alloc, input, output) {
        Ok(text) => end_lines(alloc, run, patience_of(up, down), &text, output),
        Err(ending) => ending,
    }
}

/// Loads the profile of the session below, relays, and returns the ending.
fn end_below<S: Source, K: Sink, F: Fabric, D: Files, C: Clock>(
    alloc: Global,
    up: &Profile,
    node: NodeId,
    down: Text,
    instance: Option<u32>,
    lent: &mut Lent<'_, S, K, F, D, C>,
) -> Ending
    requires { FitsInstance instance }
    ensures ends { GivesBack S.Source K.Sink F.Fabric D.Files C.Clock
        (EndsUnder down (λ q. EndsBetween up.now node (with_instance instance q)) result) lent.old lent.new }
    ensures files { D.contents lent.new.files.now ≡ D.contents lent.old.files.now }
{
    match load(alloc, down, lent.output, lent.files) {
        Ok(loaded) => {
            let profile = with_instance(loaded, instance);
            relay(alloc, up, node, &profile, lent.input, lent.output)
        }
        Err(ending) => ending,
    }
}

/// Loads the profiles at both paths, that above first, relays between their sessions, and returns the ending; what each ending says is in
/// `EndsRelay`. Starts no network.
pub(crate) fn end_relay<S: Source, K: Sink, F: Fabric, D: Files, C: Clock>(
    alloc: Global,
    up: Text,
    node: NodeId,
    down: Text,
    instance: Option<u32>,
    lent: &mut Lent<'_, S, K, F, D, C>,
) -> Ending
    requires { FitsInstance instance }
    ensures ends { GivesBack S.Source K.Sink F.Fabric D.Files C.Clock (EndsRelay up node down instance result) lent.old lent.new }
    ensures files { D.contents lent.new.files.now ≡ D.contents lent.old.files.now }
{
    match load(alloc, up, lent.output, lent.files) {
        Ok(profile) => end_below(alloc, &profile, node, down, instance, lent),
        Err(ending) => ending,
    }
}
