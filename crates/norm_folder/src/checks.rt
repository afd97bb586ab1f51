//! The check of what each receiver handed up in a session.

ghost use Rattle.std.specs.Prelude.{◌≡◌, ◌<◌, ℕ, None, Some, All, length, map, slice_index_or, IfOk, OnOk, if◌then◌else◌};
ghost use Rattle.norm_base.specs.Members.{receivers_of};
ghost use Rattle.norm_mirror.specs.Checking.{checked, taken, IsDigestOf};
ghost use Rattle.norm_record.specs.HandedUp.{handed_up, hand_of, IsAmong};
ghost use Rattle.norm_folder.specs.Checks.{AreDigests, first_unlike, is_like, unlike};
ghost use Rattle.norm_arrival.specs.HandedBy.{ups_of};

use norm_base::{Memory, NodeId, Profile};
use norm_mirror::{Check, CheckFault, Unlike};
use norm_order::Up;
use norm_record::{Hand, HandUp, Journal};
use sha2::{Digest, Sha256};
use std::alloc::Global;
use std::thread;
use std::thread::Threads;

/// The digest of what is handed up, if it is an object.
fn digest_of(up: &Up) -> [u8; 32]
    ensures { IsDigestOf up.now result }
{
    match up {
        Up::Object { bytes, .. } => Sha256::digest(bytes.bytes()),
        _ => [0; 32],
    }
}

/// The most threads that compute digests.
const MOST_THREADS: usize = 4;

/// Puts the digest of each of these hand-ups in its place: in several threads, if they can be started, and otherwise one after the other.
fn put_digests<R: Threads + Sync>(rt: &R, ups: &[HandUp], digests: &mut [[u8; 32]])
    requires { length digests.old ≡ length ups.now }
    ensures count { length digests.new ≡ length ups.now }
    ensures each { (i : ℕ) (h : _) (d : _) → i < length ups.now → IsDigestOf (slice_index_or ups.now i h).up (slice_index_or digests.new i d) }
{
    thread::for_each_mut(
        rt,
        digests,
        MOST_THREADS,
        &|at, digest| *digest = digest_of(&ups[at].up),
    );
}

/// The digests of these hand-ups.
// One for each that is kept, and so mostly one for all receivers: digests are most of a check's time.
fn digests_of<R: Threads + Sync>(
    rt: &R,
    alloc: Global,
    ups: &[HandUp],
) -> Result<Vec<[u8; 32]>, Memory>
    ensures { IfOk result (λ digests. AreDigests ups.now digests.items) }
{
    let mut digests = vec![in alloc; [0u8; 32]; ups.len()]?;
    put_digests(rt, ups, &mut digests);
    Ok(digests)
}

/// Takes a hand-up whose digest is known. A refusal is kept by the check.
fn take(check: &mut Check, up: &Up, digest: &[u8; 32]) -> Result<(), Memory>
    requires { IsDigestOf up.now digest.now }
    ensures { OnOk result (check.new ≡ taken check.old up.now) }
{
    match check.take_known(up, digest) {
        Err(CheckFault::Memory) => Err(Memory),
        _ => Ok(()),
    }
}

/// Checks the hand-ups of a node.
fn check_of(
    alloc: Global,
    node: NodeId,
    ups: &[HandUp],
    hands: &[Hand],
    digests: &[[u8; 32]],
) -> Result<Check, Memory>
    requires there { All (IsAmong ups.now) hands.now }
    requires digests { AreDigests ups.now digests.now }
    ensures { IfOk result (λ check. check ≡ checked (ups_of node (map (hand_of ups.now) hands.now))) }
{
    let mut check = Check::new(alloc);
    for hand in hands {
        if hand.node == node {
            let at = hand.at as usize;
            take(&mut check, &ups[at].up, &digests[at])?;
        }
    }
    Ok(check)
}

/// What is wrong with the hand-ups of a node, by its check. `None` if nothing is.
fn unlike_by(node: NodeId, check: &Check) -> Result<Option<Unlike>, Memory>
    ensures { IfOk result (λ found. found ≡ (if is_like check.now then None else Some (unlike node check.now))) }
{
    let fault = check.refused();
    if fault.is_none() && check.done() {
        return Ok(None);
    }
    let name = match check.due() {
        Some(entry) => Some(entry.name.clone()?),
        None => None,
    };
    Ok(Some(Unlike { node, fault, name }))
}

/// Checks what each receiver of a profile handed up, by a session's journal. Returns what is wrong with the hand-ups of the first that handed up
/// anything but a manifest and exactly its files. `None` if each did. Threads of the runtime compute the digests.
///
/// # Errors
///
/// `Memory` if memory runs out.
pub fn first_unlike<R: Threads + Sync>(
    rt: &R,
    alloc: Global,
    journal: &Journal,
    profile: &Profile,
) -> Result<Option<Unlike>, Memory>
    ensures { IfOk result (λ found. found ≡ first_unlike (handed_up journal.now) (receivers_of profile.now profile.now.receivers)) }
{
    let (ups, hands) = journal.kept_ups();
    let digests = digests_of(rt, alloc, ups)?;
    for i in 0..u32::from(profile.receivers) {
        let node = profile.receiver(i);
        let check = check_of(alloc, node, ups, hands, &digests)?;
        if let Some(found) = unlike_by(node, &check)? {
            return Ok(Some(found));
        }
    }
    Ok(None)
}
