//! A whole run of a receiver: [`run_receiver`].

ghost use Rattle.std.specs.Prelude.{◌≡◌, true, IfErr, OnOk};
ghost use Rattle.norm_base.specs.Members.{is_receiver};
ghost use Rattle.norm_turns.specs.Causes.{HasCause, counted};
ghost use Rattle.norm_node.specs.Shown.{outside};
ghost use Rattle.norm_node.specs.Runs.{RunsReceiver, StopsReceiver};

use crate::run::ReceiverRun;
use norm_base::{Clock, Datagram, Fabric, Files, Local, NodeId, Profile, Sink};
use norm_turns::SessionFault;
use std::alloc::Global;

/// Runs a node's receiver for all turns of a profile. It starts the network for this node. It prints a line for each hand-up. If
/// the hand-up is a file, it puts the file first. Each line is one write of the output.
///
/// # Errors
///
/// `Write`, `Fabric` or `Files` if a call of the output, the network or the files failed, or `Memory`.
// It answers nothing more: a run is all turns of the profile, and what it did stands in the network, the lines and the files (`RunsReceiver`).
// A receiver does not know whether all was done.
pub fn run_receiver<K: Sink, F: Fabric, D: Files, C: Clock>(
    alloc: Global,
    profile: &Profile,
    node: NodeId,
    output: &mut K,
    fabric: &mut F,
    files: &mut D,
    clock: &mut C,
) -> Result<(), SessionFault>
    requires { is_receiver profile.now node ≡ true }
    ensures run { OnOk result (RunsReceiver profile.now node
        (outside (F.told fabric.old) (K.pieces output.old) (D.contents files.old) (C.moments clock.old))
        (outside (F.told fabric.new) (K.pieces output.new) (D.contents files.new) (C.moments clock.new))) }
    ensures stops { IfErr result (λ fault. StopsReceiver fault profile.now node
        (outside (F.told fabric.old) (K.pieces output.old) (D.contents files.old) (C.moments clock.old))
        (outside (F.told fabric.new) (K.pieces output.new) (D.contents files.new) (C.moments clock.new))) }
    ensures cause { HasCause result (counted (K.fault_count output.old) (F.fault_count fabric.old) (D.fault_count files.old))
        (counted (K.fault_count output.new) (F.fault_count fabric.new) (D.fault_count files.new)) }
{
    let mut datagram = Datagram::new(alloc)?;
    let mut run = ReceiverRun::new(alloc, profile, node)?;
    fabric.start(profile, Local::One(node))?;
    run.turns(output, fabric, files, clock, &mut datagram)
}
