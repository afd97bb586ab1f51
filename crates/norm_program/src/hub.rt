//! `hub`: runs the hub between the nodes of a profile. The program calls [`end_hub`].

ghost use Rattle.std.specs.Prelude.{◌≡◌};
ghost use Rattle.norm_program.specs.Lending.{GivesBack};
ghost use Rattle.norm_program.specs.NodeEnds.{EndsUnder, EndsHub};

use crate::lent::Lent;
use norm_base::{Clock, Fabric, Files, Profile, Sink, Source, Text};
use norm_endings::{Ending, load, stop_session};
use norm_node::run_hub;
use std::alloc::Global;

/// Runs the hub and returns the ending; what each ending says is in `EndsHub`. Calls no files.
fn pass_on<S: Source, K: Sink, F: Fabric, D: Files, C: Clock>(
    alloc: Global,
    profile: &Profile,
    lent: &mut Lent<'_, S, K, F, D, C>,
) -> Ending
    ensures ends { GivesBack S.Source K.Sink F.Fabric D.Files C.Clock (EndsHub profile.now result) lent.old lent.new }
    ensures files { D.contents lent.new.files.now ≡ D.contents lent.old.files.now }
{
    match run_hub(alloc, profile, lent.fabric, lent.clock) {
        Ok(()) => Ending::Done,
        Err(fault) => stop_session(alloc, fault, lent.output),
    }
}

/// Loads the profile at a path, runs its hub, and returns the ending. If the profile cannot be loaded, starts no network.
pub(crate) fn end_hub<S: Source, K: Sink, F: Fabric, D: Files, C: Clock>(
    alloc: Global,
    path: Text,
    lent: &mut Lent<'_, S, K, F, D, C>,
) -> Ending
    ensures ends { GivesBack S.Source K.Sink F.Fabric D.Files C.Clock (EndsUnder path EndsHub result) lent.old lent.new }
    ensures files { D.contents lent.new.files.now ≡ D.contents lent.old.files.now }
{
    match load(alloc, path, lent.output, lent.files) {
        Ok(profile) => pass_on(alloc, &profile, lent),
        Err(ending) => ending,
    }
}
