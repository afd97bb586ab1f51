//! `recv`: runs the receiver of one node of a profile, alone. The program calls [`end_receive`].

ghost use Rattle.std.specs.Prelude.{◌≡◌};
ghost use Rattle.norm_program.specs.Lending.{GivesBack};
ghost use Rattle.norm_program.specs.NodeEnds.{EndsUnder, EndsReceiver, no_receiver};

use crate::lent::Lent;
use norm_base::{Clock, Fabric, Files, NodeId, Profile, Sink, Source, Text};
use norm_endings::{Ending, ProfileFault, load, refuse_profile, stop_session};
use norm_node::run_receiver;
use std::alloc::Global;

/// Why a node is no receiver of a profile, with the ids of those that are. Call it only for such a node.
fn no_receiver(profile: &Profile, node: NodeId) -> ProfileFault
    ensures { result ≡ no_receiver profile.now node }
{
    ProfileFault::Node {
        node,
        first: profile.sender + 1,
        last: profile.sender + u32::from(profile.receivers),
    }
}

/// Runs the receiver of a node and returns the ending; what each ending says is in `EndsReceiver`. Refuses a node that is no receiver of the
/// profile.
fn receive<S: Source, K: Sink, F: Fabric, D: Files, C: Clock>(
    alloc: Global,
    profile: &Profile,
    node: NodeId,
    lent: &mut Lent<'_, S, K, F, D, C>,
) -> Ending
    ensures { GivesBack S.Source K.Sink F.Fabric D.Files C.Clock (EndsReceiver node profile.now result) lent.old lent.new }
{
    if !profile.is_receiver(node) {
        return refuse_profile(no_receiver(profile, node), lent.output);
    }
    match run_receiver(
        alloc,
        profile,
        node,
        lent.output,
        lent.fabric,
        lent.files,
        lent.clock,
    ) {
        Ok(()) => Ending::Done,
        Err(fault) => stop_session(alloc, fault, lent.output),
    }
}

/// Loads the profile at a path, runs the receiver of a node, and returns the ending. If the profile cannot be loaded, starts no network.
pub(crate) fn end_receive<S: Source, K: Sink, F: Fabric, D: Files, C: Clock>(
    alloc: Global,
    path: Text,
    node: NodeId,
    lent: &mut Lent<'_, S, K, F, D, C>,
) -> Ending
    ensures { GivesBack S.Source K.Sink F.Fabric D.Files C.Clock (EndsUnder path (EndsReceiver node) result) lent.old lent.new }
{
    match load(alloc, path, lent.output, lent.files) {
        Ok(profile) => receive(alloc, &profile, node, lent),
        Err(ending) => ending,
    }
}
