//! The words of the command line. `normd` reads them with [`arguments`], and asks [`paths_asked`] which profiles they name, before it runs the
//! program.

ghost use Rattle.std.specs.Prelude.{◌≡◌, ◌↔◌, ℕ, List, [], ◌∷◌, drop, map, string_bytes, IfOk};
ghost use Rattle.std.specs.IoError.{error_kind};
ghost use Rattle.std.specs.declared.io.ErrorKind.TheVariants.{OutOfMemory};
ghost use Rattle.norm_args.specs.NodeTasks.{node_task_of};
ghost use Rattle.norm_program.specs.Commands.{paths_asked};
ghost use Rattle.norm_program.specs.declared.words.WordsFault.TheVariants as fault;

use norm_args::{NodeTask, node_task_of};
use norm_base::{Memory, NodeId, Text};
use norm_endings::copy_of;
use std::alloc::{AllocFailed, Global};
use std::rt::Env;
use std::{env, io};

/// Why the words of the command line were not read. [`run`](crate::run) takes it in place of the words.
// Two, because they end differently: a lack of memory with status 1, refused words with the usage line and status 2.
#[derive(Clone, Copy, Debug, PartialEq, Eq)]
pub enum WordsFault {
    /// A word, or the program's name, is not UTF-8.
    NotText,
    /// Memory ran out. Nothing is written to the output then.
    Memory,
}

impl From<io::Error> for WordsFault {
    ghost from_gives = { λ error r. (error_kind error ≡ OutOfMemory) ↔ (r ≡ fault.Memory) };

    fn from(error: io::Error) -> WordsFault {
        match error.kind() {
            io::ErrorKind::OutOfMemory => WordsFault::Memory,
            _ => WordsFault::NotText,
        }
    }
}

impl<T: Drop> From<AllocFailed<T>> for WordsFault {
    ghost from_gives = { λ e r. r ≡ fault.Memory };

    fn from(_refused: AllocFailed<T>) -> WordsFault {
        WordsFault::Memory
    }
}

/// Returns the words after the program's name.
///
/// # Errors
///
/// `NotText` if a word, or the program's name, is not UTF-8, and `Memory` if memory runs out.
pub fn arguments<R: Env + Alloc<A = Global>>(rt: &R) -> Result<Vec<String>, WordsFault> {
    let mut words = Vec::new(rt.alloc());
    for word in env::args(rt)? {
        words.push(word)?;
    }
    drop_first(&mut words);
    Ok(words)
}

/// Removes the first word, the program's name, if there is one.
fn drop_first(words: &mut Vec<String>)
    ensures { map string_bytes words.new.items ≡ drop 1 (map string_bytes words.old.items) }
{
    if !words.is_empty() {
        words.remove(0);
    }
}

fn one_path(alloc: Global, path: Text) -> Result<Vec<Text>, Memory>
    ensures { IfOk result (λ paths. paths.items ≡ path ∷ []) }
{
    let mut paths = Vec::new(alloc);
    paths.push(path)?;
    Ok(paths)
}

fn two_paths(alloc: Global, first: Text, second: Text) -> Result<Vec<Text>, Memory>
    ensures { IfOk result (λ paths. paths.items ≡ first ∷ second ∷ []) }
{
    let mut paths = Vec::new(alloc);
    paths.push(first)?;
    paths.push(second)?;
    Ok(paths)
}

/// The paths of these pairs in their order.
fn paths_in(alloc: Global, pairs: &[(Text, NodeId)]) -> Result<Vec<Text>, Memory>
    ensures { IfOk result (λ paths. paths.items ≡ map (λ (pair : List ℕ × ℕ). pair.0) pairs.now) }
{
    let mut paths = Vec::new(alloc);
    for pair in pairs {
        paths.push(copy_of(&pair.0)?)?;
    }
    Ok(paths)
}

/// Empty if the words ask for no profile.
fn paths_of(alloc: Global, task: Option<NodeTask>) -> Result<Vec<Text>, Memory>
    ensures { IfOk result (λ paths. paths.items ≡ paths_asked task) }
{
    match task {
        Some(NodeTask::Send { profile, .. }) => one_path(alloc, profile),
        Some(NodeTask::Receive(path, _)) => one_path(alloc, path),
        Some(NodeTask::Hub(path)) => one_path(alloc, path),
        Some(NodeTask::Gather(pairs)) => {
            let pairs = pairs.into_inner();
            paths_in(alloc, &pairs)
        }
        Some(NodeTask::Relay { up, down, .. }) => two_paths(alloc, up, down),
        None => Ok(Vec::new(alloc)),
    }
}

/// Returns the paths of the profiles that the words name, in their order: one of a node's run, some of `gather`, two of `relay`, and none otherwise. They are paths
/// as the shell gives them, not names in the folder of the files, so tell the files of them before they open one.
pub fn paths_asked(alloc: Global, words: &[String]) -> Result<Vec<Text>, Memory>
    ensures { IfOk result (λ paths. paths.items ≡ paths_asked (node_task_of (map string_bytes words.now))) }
{
    let task = node_task_of(alloc, words)?;
    paths_of(alloc, task)
}
