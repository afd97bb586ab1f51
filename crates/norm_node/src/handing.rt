//! Hand-ups: a line for each, and before it the file if the hand-up is one.

ghost use Rattle.std.specs.Prelude.{◌≡◌, ℕ, [], false, IfOk, IfErr, OnOk, OnErr};
ghost use Rattle.norm_turns.specs.Causes.{HasCause, FilesCause, counted};
ghost use Rattle.norm_node.specs.Lone.{Handing};
ghost use Rattle.norm_node.specs.RunKept.{Begun, At, IsSameTurn, having};
ghost use Rattle.norm_node.specs.Shown.{Outside, file_of, IsPut};
ghost use Rattle.norm_node.specs.Stopping.{Stopped};
ghost use Rattle.norm_node.specs.Handing.{IsFailedPut};

use crate::naming::file_name;
use crate::run::ReceiverRun;
use norm_base::{Files, InstanceId, Kind, NodeId, Sink};
use norm_journal::up_line;
use norm_order::Up;
use norm_turns::{SessionFault, up_notice};
use std::alloc::Global;

/// Puts the file of a hand-up. Does nothing if the hand-up is not a file.
fn put_file<D: Files>(
    alloc: Global,
    files: &mut D,
    node: NodeId,
    instance: InstanceId,
    up: &Up,
) -> Result<(), SessionFault>
    ensures put { OnOk result (IsPut (file_of node instance up.now) (D.contents files.old) (D.contents files.new)) }
    ensures stops { IfErr result (λ fault. IsFailedPut fault (file_of node instance up.now) (D.contents files.old) (D.contents files.new)) }
    ensures cause { FilesCause result (D.fault_count files.old) (D.fault_count files.new) }
{
    match up {
        Up::Object {
            index,
            kind: Kind::File,
            bytes,
            ..
        } => {
            let name = file_name(alloc, node.number(), instance.0, *index)?;
            if files.put(&name, bytes.bytes()).is_err() {
                return Err(SessionFault::Files);
            }
            Ok(())
        }
        _ => Ok(()),
    }
}

impl ReceiverRun {
    /// Takes the next hand-up. If it is a file, it puts the file, and then it writes the hand-up's line. Returns false if none is left. Then
    /// nothing changed. After an error, the hand-up is gone.
    ///
    /// # Errors
    ///
    /// `Files` or `Write` if a call failed, or `Memory`.
    pub fn hand_up<K: Sink, D: Files>(
        &mut self,
        output: &mut K,
        files: &mut D,
    ) -> Result<bool, SessionFault>
        ensures goes { IfOk result (λ more. (x : Begun) (o : Outside) → At x self.old Handing (having o (K.pieces output.old) (D.contents files.old))
            → At x self.new Handing (having o (K.pieces output.new) (D.contents files.new))) }
        ensures stops { IfErr result (λ fault. (x : Begun) (o : Outside) → At x self.old Handing (having o (K.pieces output.old) (D.contents files.old))
            → Stopped x fault (having o (K.pieces output.new) (D.contents files.new))) }
        ensures turn { OnOk result (IsSameTurn self.old self.new) }
        ensures none { IfOk result (λ more. more ≡ false → self.new.receiver.hold.ups ≡ []) }
        ensures cause { (network : ℕ) → HasCause result (counted (K.fault_count output.old) network (D.fault_count files.old))
            (counted (K.fault_count output.new) network (D.fault_count files.new)) }
    {
        let within = self.receiver.instance();
        let Some(up) = self.receiver.take_up() else {
            return Ok(false);
        };
        // A receiver that hands something up is in an instance.
        let Some(instance) = within else {
            return Err(SessionFault::Memory);
        };
        up_line(&mut self.line, self.node, instance, &up)?;
        put_file(self.alloc, files, self.node, instance, &up)?;
        output.write(self.line.bytes())?;
        output.note(&up_notice(&up));
        Ok(true)
    }

    /// Takes all hand-ups of the receiver. Puts the file of each that is one, and writes the line of each.
    ///
    /// # Errors
    ///
    /// As for [`hand_up`](ReceiverRun::hand_up).
    pub fn hand_all<K: Sink, D: Files>(
        &mut self,
        output: &mut K,
        files: &mut D,
    ) -> Result<(), SessionFault>
        ensures goes { OnOk result ((x : Begun) (o : Outside) → At x self.old Handing (having o (K.pieces output.old) (D.contents files.old))
            → At x self.new Handing (having o (K.pieces output.new) (D.contents files.new))) }
        ensures stops { IfErr result (λ fault. (x : Begun) (o : Outside) → At x self.old Handing (having o (K.pieces output.old) (D.contents files.old))
            → Stopped x fault (having o (K.pieces output.new) (D.contents files.new))) }
        ensures turn { OnOk result (IsSameTurn self.old self.new) }
        ensures told { OnOk result (self.new.receiver.hold.ups ≡ []) }
        ensures cause { (network : ℕ) → HasCause result (counted (K.fault_count output.old) network (D.fault_count files.old))
            (counted (K.fault_count output.new) network (D.fault_count files.new)) }
    {
        for _ in 0..self.receiver.ups() {
            self.hand_up(output, files)?;
        }
        // Never taken: the loop handed up as many as there were.
        if self.receiver.ups() > 0 {
            return Err(SessionFault::Memory);
        }
        Ok(())
    }
}
