//! Tests of a folder whose file changes between its two readings: the check of each receiver refuses it.

ghost use Rattle.std.specs.Prelude.{IfOk, IfSome};
ghost use Rattle.norm_folder.specs.Entries.{IsFolder};
ghost use Rattle.norm_script.specs.Scripts.{CanRun};

use norm_base::{Failed, FileFault, Files, Memory, Profile};
use norm_folder::{Unready, first_unlike, ready, script_of};
use norm_memory::{DirectFabric, MemClock, MemSink};
use norm_mirror::{Check, CheckFault};
use norm_script::{Folder, Script, read_folder};
use norm_session::{Ended, Journal, run_session};
use norm_turns::SessionFault;
use producer_gate::{Board, Through};
use std::alloc::Global;
use std::sync::Wait;
use std::thread::Threads;

/// The folder: one file to two receivers, nodes 2 and 3.
const TEXT: &[u8] = b"set instance 7\nset e 64\nset b 4\nset receivers 2\na.txt\n";

/// One file, which every name leads to. Contracts cannot rely on what it holds.
#[derive(Drop)]
struct OneFile {
    octets: &'static [u8],
    faults: u64,
}

impl Files for OneFile {
    ghost use Rattle.std.specs.Prelude.{None};

    ghost contents = { λ _. None };

    ghost fault_count = { λ s. s.faults };

    fn length(&mut self, _name: &str) -> Result<u64, FileFault> {
        Ok(self.octets.len() as u64)
    }

    #[tactic(auto, using(norm_base::proofs::CountLemmas::counts_one_more))]
    fn read_at(&mut self, _name: &str, offset: u64, buf: &mut [u8]) -> Result<usize, FileFault> {
        if offset >= self.octets.len() as u64 {
            self.faults = self.faults.saturating_add(1);
            return Err(FileFault::Failed);
        }
        let rest = &self.octets[offset as usize..];
        let n = rest.len().min(buf.len());
        buf[..n].copy_from_slice(&rest[..n]);
        Ok(n)
    }

    #[tactic(auto, using(norm_base::proofs::CountLemmas::counts_one_more))]
    fn put(&mut self, _name: &str, _bytes: &[u8]) -> Result<(), Failed> {
        self.faults = self.faults.saturating_add(1);
        Err(Failed)
    }

    fn faults(&self) -> u64 {
        self.faults
    }
}

/// The folder that a text names. `None` if a line is refused.
fn folder_of(alloc: Global, text: &[u8]) -> Result<Option<Folder>, Memory>
    ensures { IfOk result (λ found. IfSome found IsFolder) }
{
    match read_folder(alloc, text) {
        Ok(Ok(folder)) => Ok(Some(folder)),
        Ok(Err(_)) => Ok(None),
        Err(_) => Err(Memory),
    }
}

/// The script of a folder, whose files are read. `None` if one cannot be sent.
fn script_for<D: Files>(
    alloc: Global,
    folder: &Folder,
    files: &mut D,
) -> Result<Option<Script>, SessionFault>
    requires { IsFolder folder.now }
    ensures { IfOk result (λ found. IfSome found CanRun) }
{
    match ready(alloc, folder, files) {
        Ok(entries) => {
            let script = script_of(alloc, &folder.profile, &entries)?;
            Ok(Some(script))
        }
        Err(Unready::Unread { why }) => Err(why),
        Err(Unready::Unsendable { .. }) => Ok(None),
    }
}

/// Runs the session of a script in memory, and returns how it ended.
// Nothing follows the call, so no goal has its long contract.
fn ran<R: Threads + Wait + Sync>(
    rt: &R,
    alloc: Global,
    script: &Script,
    files: &mut OneFile,
) -> Result<Ended, SessionFault>
    requires { CanRun script.now }
{
    let mut output = MemSink::of(Vec::new(alloc), Vec::new(alloc));
    let mut fabric = DirectFabric::new(alloc)?;
    let mut clock = MemClock::of(Vec::new(alloc));
    let (mut board, _readers) = Board::new(alloc, 1)?;
    run_session(
        rt,
        alloc,
        script,
        &Through,
        &mut board,
        &mut output,
        &mut fabric,
        files,
        &mut clock,
    )
}

/// Why the check of a node refuses what it handed up, if it does, and whether it took the manifest and all its files.
fn check_of(alloc: Global, journal: &Journal, node: u32) -> (Option<CheckFault>, bool) {
    let mut check = Check::new(alloc);
    for i in 0..u64::MAX {
        let Some((of, up)) = journal.up(i) else {
            break;
        };
        if of.number() == node {
            // The check keeps what it refuses.
            let _ = check.take(up);
        }
    }
    (check.refused(), check.done())
}

/// Whether the check of each receiver refuses this, or is done if nothing is refused, and node 2 is named as the first that refuses.
fn is_found<R: Threads + Sync>(
    rt: &R,
    alloc: Global,
    journal: &Journal,
    profile: &Profile,
    wanted: Option<CheckFault>,
) -> Result<bool, Memory> {
    let is = (wanted, wanted.is_none());
    let each = check_of(alloc, journal, 2) == is && check_of(alloc, journal, 3) == is;
    let named = match first_unlike(rt, alloc, journal, profile)? {
        Some(why) => why.node.number() == 2 && why.fault == wanted && wanted.is_some(),
        None => wanted.is_none(),
    };
    Ok(each && named)
}

/// Sends the folder, whose file has `first` as its entry is made, and `then` as it is sent. Returns whether the checks find what is wanted. `None` if
/// the folder was not sent whole.
fn finds<R: Threads + Wait + Sync>(
    rt: &R,
    alloc: Global,
    first: &'static [u8],
    then: &'static [u8],
    wanted: Option<CheckFault>,
) -> Result<Option<bool>, SessionFault> {
    let Some(folder) = folder_of(alloc, TEXT)? else {
        return Ok(None);
    };
    let mut files = OneFile {
        octets: first,
        faults: 0,
    };
    let Some(script) = script_for(alloc, &folder, &mut files)? else {
        return Ok(None);
    };
    files.octets = then;
    let ended = ran(rt, alloc, &script, &mut files)?;
    if !ended.whole {
        return Ok(None);
    }
    let found = is_found(rt, alloc, &ended.journal, &folder.profile, wanted)?;
    Ok(Some(found))
}

/// What the file has as it is sent, and why each receiver's check refuses it. It is object 1: the manifest is object 0.
const CHANGES: [(&[u8], Option<CheckFault>); 4] = [
    (b"abc", None),
    (b"abd", Some(CheckFault::Digest { index: 1 })),
    (b"abcd", Some(CheckFault::Length { index: 1 })),
    (b"ab", Some(CheckFault::Length { index: 1 })),
];

#[test]
fn each_receiver_refuses_a_file_that_changed(rt: HostRuntime) {
    for (then, wanted) in CHANGES {
        let found = finds(&rt, rt.alloc(), b"abc", then, wanted).unwrap_or(None);
        assert!(rt; found == Some(true), "{then:?}");
    }
}
