//! `gather`: hears several senders at once, each in a session with its own profile, and prints what each receiver hands up and sends. The datagrams
//! are lines of hexadecimal. The program calls [`end_gather`].

ghost use Rattle.std.specs.Prelude.{◌≡◌, IfOk, IfErr, OnOk};
ghost use Rattle.driven_nodes.specs.Gathered.{opening, gathered};
ghost use Rattle.driven_nodes.specs.Hearing.{StandsFor};
ghost use Rattle.norm_endings.specs.Outside.{Called, outside};
ghost use Rattle.norm_program.specs.GatherEnds.{AreLoaded, EndsAmong, EndsGather};
ghost use Rattle.norm_program.specs.Gathering.{IsLinesEnding, IsLoadingPair, IsMembersEnding};
ghost use Rattle.norm_program.specs.Lending.{GivesBack};

use crate::lent::Lent;
use crate::show::refuse_line;
use driven_nodes::GatherRun;
use norm_args::Pairs;
use norm_base::{Clock, Fabric, Files, NodeId, Profile, Sink, Source, Text};
use norm_endings::{Ending, ProfileFault, copy_of, load, read_input, refuse_profile, stop_session};
use norm_multi::MultiFault;
use std::alloc::Global;

/// The most senders that are heard at once.
// It is the limit of `Multi`. The words name no more.
const MOST_SENDERS: usize = 8;

/// Writes the last line if these senders are refused, and returns the ending. If memory ran out, it writes none.
fn refuse_members<K: Sink>(why: MultiFault, output: &mut K) -> Ending
    ensures { IsMembersEnding why result (K.pieces output.old) (K.pieces output.new) (K.fault_count output.old) (K.fault_count output.new) }
{
    match why {
        MultiFault::Memory => Ending::Memory,
        MultiFault::NotReceiver { .. } | MultiFault::SameId { .. } => {
            refuse_profile(ProfileFault::Members { why }, output)
        }
    }
}

/// Takes the lines of a text, writes what is printed of them, and returns the ending.
fn end_lines<K: Sink>(alloc: Global, run: GatherRun, text: &[u8], output: &mut K) -> Ending
    ensures { IsLinesEnding result (gathered run text.now) (K.pieces output.old) (K.pieces output.new)
        (K.fault_count output.old) (K.fault_count output.new) }
{
    match run.take_lines(alloc, text, output) {
        Ok(None) => Ending::Done,
        Ok(Some(stop)) => refuse_line(alloc, stop.0, stop.1, output),
        Err(fault) => stop_session(alloc, fault, output),
    }
}

/// Hears these senders: reads the input whole, writes what is printed of its lines, and returns the ending. If the senders are refused, does
/// not read the input.
fn gather<S: Source, K: Sink>(
    alloc: Global,
    members: Vec<(Profile, NodeId)>,
    input: &mut S,
    output: &mut K,
) -> Ending
    ensures { (called : Called) → EndsAmong members.items result
        (outside (S.left input.old) (K.pieces output.old) (S.fault_count input.old) (K.fault_count output.old) called)
        (outside (S.left input.new) (K.pieces output.new) (S.fault_count input.new) (K.fault_count output.new) called) }
{
    // Never taken: the words name at most eight.
    if members.len() > MOST_SENDERS {
        return Ending::Memory;
    }
    let run = match GatherRun::begin(alloc, members) {
        Ok(run) => run,
        Err(why) => return refuse_members(why, output),
    };
    match read_input(alloc, input, output) {
        Ok(text) => end_lines(alloc, run, &text, output),
        Err(ending) => ending,
    }
}

/// Loads the profiles of these pairs in their order. If one cannot be loaded, writes the last line, if the ending has one, and returns the ending.
fn load_all<K: Sink, D: Files>(
    alloc: Global,
    pairs: &[(Text, NodeId)],
    output: &mut K,
    files: &mut D,
) -> Result<Vec<(Profile, NodeId)>, Ending>
    ensures same { D.contents files.new ≡ D.contents files.old }
    ensures loaded { IfOk result (λ members. AreLoaded (D.contents files.old) pairs.now members.items) }
    ensures unwritten { OnOk result (K.pieces output.new ≡ K.pieces output.old) }
    ensures quiet { OnOk result ((K.fault_count output.new ≡ K.fault_count output.old) × (D.fault_count files.new ≡ D.fault_count files.old)) }
    ensures ending { IfErr result (λ ending. IsLoadingPair pairs.now ending (D.contents files.old) (K.pieces output.old) (K.pieces output.new)
        (K.fault_count output.old) (K.fault_count output.new) (D.fault_count files.old) (D.fault_count files.new)) }
{
    let mut members = Vec::new(alloc);
    for pair in pairs {
        let path = copy_of(&pair.0)?;
        let profile = load(alloc, path, output, files)?;
        members.push((profile, pair.1))?;
    }
    Ok(members)
}

/// Loads the profiles of these pairs, hears their senders, and returns the ending; what each ending says is in `EndsGather`. Starts no network.
pub(crate) fn end_gather<S: Source, K: Sink, F: Fabric, D: Files, C: Clock>(
    alloc: Global,
    pairs: Pairs,
    lent: &mut Lent<'_, S, K, F, D, C>,
) -> Ending
    ensures ends { GivesBack S.Source K.Sink F.Fabric D.Files C.Clock (EndsGather pairs result) lent.old lent.new }
    ensures files { D.contents lent.new.files.now ≡ D.contents lent.old.files.now }
{
    let pairs = pairs.into_inner();
    match load_all(alloc, &pairs, lent.output, lent.files) {
        Ok(members) => gather(alloc, members, lent.input, lent.output),
        Err(ending) => ending,
    }
}
