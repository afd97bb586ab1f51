//! `send`: runs the sender of a profile alone, with the input as its script. The program calls [`end_send`].

ghost use Rattle.std.specs.Prelude.{◌≡◌};
ghost use Rattle.norm_args.specs.Fits.{FitsInstance};
ghost use Rattle.norm_program.specs.Asked.{Sender, with_instance};
ghost use Rattle.norm_program.specs.Ends.{EndsScript};
ghost use Rattle.norm_program.specs.Lending.{GivesBack};
ghost use Rattle.norm_program.specs.NodeEnds.{EndsUnder, EndsSender};

use crate::boarded::run_send;
use crate::commands::prepare_commands;
use crate::lent::Lent;
use norm_base::{Clock, Fabric, Files, Profile, Sink, Source, Text};
use norm_endings::{Ending, end_session, load, stop_session};
use std::alloc::Global;
use std::sync::Wait;
use std::thread::Threads;

/// Overrides the first instance of the profile, if one is given. The words give none above 65535, so none is cut.
pub(crate) fn with_instance(profile: Profile, instance: Option<u32>) -> Profile
    requires { FitsInstance instance }
    ensures { result ≡ with_instance instance profile }
{
    match instance {
        Some(instance) => Profile {
            instance: instance as u16,
            ..profile
        },
        None => profile,
    }
}

/// Runs the sender of a profile alone, with the input as its script, and returns the ending; what each ending says is in `EndsScript`.
// A sender alone is one more case of a session (`Asked`), so that what each ending says is written once for both.
fn send<R: Threads + Wait + Sync, S: Source, K: Sink, F: Fabric, D: Files, C: Clock>(
    rt: &R,
    alloc: Global,
    profile: &Profile,
    lent: &mut Lent<'_, S, K, F, D, C>,
) -> Ending
    ensures ends { GivesBack S.Source K.Sink F.Fabric D.Files C.Clock (EndsScript (Sender profile.now) result) lent.old lent.new }
    ensures files { D.contents lent.new.files.now ≡ D.contents lent.old.files.now }
{
    let script = match prepare_commands(alloc, profile, lent.input, lent.output) {
        Ok(script) => script,
        Err(ending) => return ending,
    };
    match run_send(
        rt,
        alloc,
        &script,
        lent.output,
        lent.fabric,
        lent.files,
        lent.clock,
    ) {
        Ok(whole) => end_session(whole, lent.output),
        Err(fault) => stop_session(alloc, fault, lent.output),
    }
}

/// Loads the profile at a path, runs its sender with the instance if one is given, and returns the ending. If the profile cannot be loaded, does not
/// read the input.
pub(crate) fn end_send<R: Threads + Wait + Sync, S: Source, K: Sink, F: Fabric, D: Files, C: Clock>(
    rt: &R,
    alloc: Global,
    path: Text,
    instance: Option<u32>,
    lent: &mut Lent<'_, S, K, F, D, C>,
) -> Ending
    requires { FitsInstance instance }
    ensures ends { GivesBack S.Source K.Sink F.Fabric D.Files C.Clock (EndsUnder path (EndsSender instance) result) lent.old lent.new }
    ensures files { D.contents lent.new.files.now ≡ D.contents lent.old.files.now }
{
    match load(alloc, path, lent.output, lent.files) {
        Ok(loaded) => {
            let profile = with_instance(loaded, instance);
            send(rt, alloc, &profile, lent)
        }
        Err(ending) => ending,
    }
}
