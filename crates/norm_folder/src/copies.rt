//! The copies that are put of what receivers handed up.

ghost use Rattle.std.specs.Prelude.{◌≡◌, ◌∷◌, [], All, map, string_bytes, IfOk, IfErr, OnOk};
ghost use Rattle.norm_base.specs.Members.{receivers_of};
ghost use Rattle.norm_record.specs.HandedUp.{handed_up, hand_of, IsAmong};
ghost use Rattle.norm_turns.specs.Causes.{FilesCause};
ghost use Rattle.norm_folder.specs.Copies.{ArePut, StopsPuts, copies, copies_by, copy_name, copy_of};

use norm_base::{Files, Kind, NodeId, Profile, Text};
use norm_order::Up;
use norm_record::{Hand, HandUp, Journal};
use norm_script::file_name_of;
use norm_turns::SessionFault;
use std::alloc::{AllocError, Global};

/// The name of a receiver's copy of a file: `nNODE-NAME`.
#[tactic(auto, unfolding(crate::specs::Copies::copy_name))]
fn copy_name(alloc: Global, node: u32, name: &str) -> Result<String, AllocError>
    ensures { IfOk result (λ text. string_bytes text ≡ copy_name node name.now) }
{
    format!(in alloc; "n{node}-{name}")
}

/// Puts one file under the name of a receiver's copy.
fn put<D: Files>(
    alloc: Global,
    files: &mut D,
    node: NodeId,
    name: Text,
    bytes: &[u8],
) -> Result<(), SessionFault>
    ensures put { OnOk result (ArePut ((copy_name node name, bytes.now) ∷ []) (D.contents files.old) (D.contents files.new)) }
    ensures stops { IfErr result (λ fault. StopsPuts fault ((copy_name node name, bytes.now) ∷ []) (D.contents files.old) (D.contents files.new)) }
    ensures cause { FilesCause result (D.fault_count files.old) (D.fault_count files.new) }
{
    let name = name.into_inner();
    let copy = copy_name(alloc, node.number(), &name)?;
    if files.put(&copy, bytes).is_err() {
        return Err(SessionFault::Files);
    }
    Ok(())
}

/// Puts what a node handed up if it is a file that a folder may have.
fn put_up<D: Files>(alloc: Global, files: &mut D, node: NodeId, up: &Up) -> Result<(), SessionFault>
    ensures put { OnOk result (ArePut (copy_of node up.now) (D.contents files.old) (D.contents files.new)) }
    ensures stops { IfErr result (λ fault. StopsPuts fault (copy_of node up.now) (D.contents files.old) (D.contents files.new)) }
    ensures cause { FilesCause result (D.fault_count files.old) (D.fault_count files.new) }
{
    let Up::Object {
        kind: Kind::File,
        info: Some(info),
        bytes,
        ..
    } = up
    else {
        return Ok(());
    };
    // A name that is none of a folder's is put nowhere. The check refused it before.
    match file_name_of(alloc, info.bytes())? {
        Some(name) => put(alloc, files, node, name, bytes.bytes()),
        None => Ok(()),
    }
}

/// Puts the files that a node handed up, in their order.
fn put_all<D: Files>(
    alloc: Global,
    files: &mut D,
    node: NodeId,
    ups: &[HandUp],
    hands: &[Hand],
) -> Result<(), SessionFault>
    requires { All (IsAmong ups.now) hands.now }
    ensures put { OnOk result (ArePut (copies_by (map (hand_of ups.now) hands.now) node) (D.contents files.old) (D.contents files.new)) }
    ensures stops { IfErr result (λ fault. StopsPuts fault (copies_by (map (hand_of ups.now) hands.now) node) (D.contents files.old) (D.contents files.new)) }
    ensures cause { FilesCause result (D.fault_count files.old) (D.fault_count files.new) }
{
    for hand in hands {
        if hand.node == node {
            put_up(alloc, files, node, &ups[hand.at as usize].up)?;
        }
    }
    Ok(())
}

/// Puts each file that each receiver of a profile handed up, by a session's journal, as `nNODE-NAME`: one receiver after the other, in order of node
/// id, and its files in the order of its hand-ups.
///
/// # Errors
///
/// `Files` if a put failed, or `Memory`. The copies before stay.
pub fn put_copies<D: Files>(
    alloc: Global,
    journal: &Journal,
    profile: &Profile,
    files: &mut D,
) -> Result<(), SessionFault>
    ensures put { OnOk result (ArePut (copies (handed_up journal.now) (receivers_of profile.now profile.now.receivers)) (D.contents files.old) (D.contents files.new)) }
    ensures stops { IfErr result (λ fault. StopsPuts fault (copies (handed_up journal.now) (receivers_of profile.now profile.now.receivers))
        (D.contents files.old) (D.contents files.new)) }
    ensures cause { FilesCause result (D.fault_count files.old) (D.fault_count files.new) }
{
    let (ups, hands) = journal.kept_ups();
    for i in 0..u32::from(profile.receivers) {
        put_all(alloc, files, profile.receiver(i), ups, hands)?;
    }
    Ok(())
}
