//! From the words to the ending: finds the command that the words ask for, runs it, and returns how it ended. `normd` calls [`run`], and
//! `tests_program` calls [`norm_main`].

ghost use Rattle.std.specs.Prelude.{◌≡◌, map, string_bytes, Some, IfSome, MatchResult};
ghost use Rattle.std.specs.Process.{exit_status};
ghost use Rattle.norm_args.specs.Fits.{FitsNode, FitsTask};
ghost use Rattle.norm_args.specs.NodeTasks.{node_task_of};
ghost use Rattle.norm_args.specs.Tasks.{task_of};
ghost use Rattle.norm_endings.specs.Outside.{outside, called_as};
ghost use Rattle.norm_program.specs.Commands.{EndsNode, EndsTask, EndsOther, EndsBy, EndsWith, EndsUnread, KeepsFiles, KeepsNodeFiles, KeepsTaskFiles};
ghost use Rattle.norm_program.specs.Lending.{GivesBack};

use crate::gather::end_gather;
use crate::generate::write_script;
use crate::hub::end_hub;
use crate::lent::Lent;
use crate::mirror::end_mirror;
use crate::recv::end_receive;
use crate::relay::end_relay;
use crate::send::end_send;
use crate::session::run_input;
use crate::show::show;
use crate::words::WordsFault;
use norm_args::{NodeTask, Task, node_task_of, task_of};
use norm_base::{Clock, Fabric, Files, Memory, Sink, Source};
use norm_endings::{Ending, Status, explain, explain_no_text, say};
use std::alloc::Global;
use std::process::ExitCode;
use std::sync::Wait;
use std::thread::Threads;

/// The last line if the words are no command.
// One line for all wrong words, which a clause fixes (`usage_line`). What is wrong with them goes to standard error.
const USAGE: &[u8] =
    b"usage: normd session | show | generate N | send PROFILE | recv PROFILE NODE | hub PROFILE | gather PROFILE NODE .. | relay UP NODE DOWN | mirror\n";

/// Runs `session`, `show`, `generate` or `mirror`, and writes what it has to say to the output. Only `session` and `mirror` call the network, the files
/// and the clock, and only `mirror` puts files.
fn end_task<R: Threads + Wait + Sync, S: Source, K: Sink, F: Fabric, D: Files, C: Clock>(
    rt: &R,
    alloc: Global,
    task: Task,
    lent: &mut Lent<'_, S, K, F, D, C>,
) -> Ending
    requires { FitsTask task }
    ensures ends { GivesBack S.Source K.Sink F.Fabric D.Files C.Clock (EndsTask task result) lent.old lent.new }
    ensures files { KeepsTaskFiles task (D.contents lent.old.files.now) (D.contents lent.new.files.now) }
{
    match task {
        Task::Session(options) => run_input(rt, alloc, options, lent),
        Task::Show => show(alloc, lent.input, lent.output),
        Task::Generate(number) => write_script(number, lent.output),
        Task::Mirror => end_mirror(rt, alloc, lent),
    }
}

/// Runs `send`, `recv`, `hub`, `gather` or `relay` under the profiles at their paths and returns the ending; what each ending says is in `EndsNode`.
fn end_node<R: Threads + Wait + Sync, S: Source, K: Sink, F: Fabric, D: Files, C: Clock>(
    rt: &R,
    alloc: Global,
    task: NodeTask,
    lent: &mut Lent<'_, S, K, F, D, C>,
) -> Ending
    requires { FitsNode task }
    ensures ends { GivesBack S.Source K.Sink F.Fabric D.Files C.Clock (EndsNode (Some task) result) lent.old lent.new }
    ensures files { KeepsNodeFiles (Some task) (D.contents lent.old.files.now) (D.contents lent.new.files.now) }
{
    match task {
        NodeTask::Send { profile, instance } => end_send(rt, alloc, profile, instance, lent),
        NodeTask::Receive(path, node) => end_receive(alloc, path, node, lent),
        NodeTask::Hub(path) => end_hub(alloc, path, lent),
        NodeTask::Gather(pairs) => end_gather(alloc, pairs, lent),
        NodeTask::Relay {
            up,
            node,
            down,
            instance,
        } => end_relay(alloc, up, node, down, instance, lent),
    }
}

/// Runs a node's task. If there is none, writes the usage line. What each ending says is in `EndsNode`.
fn end_other<R: Threads + Wait + Sync, S: Source, K: Sink, F: Fabric, D: Files, C: Clock>(
    rt: &R,
    alloc: Global,
    task: Option<NodeTask>,
    lent: &mut Lent<'_, S, K, F, D, C>,
) -> Ending
    requires { IfSome task FitsNode }
    ensures ends { GivesBack S.Source K.Sink F.Fabric D.Files C.Clock (EndsNode task result) lent.old lent.new }
    ensures files { KeepsNodeFiles task (D.contents lent.old.files.now) (D.contents lent.new.files.now) }
{
    match task {
        Some(task) => end_node(rt, alloc, task, lent),
        None => {
            say(lent.output, USAGE);
            Ending::Words
        }
    }
}

/// Runs the node's task that the words ask for. Call it if they ask for no other task. Writes the usage line if they ask for nothing. If memory
/// runs out for the words, returns `Memory` and runs nothing.
fn end_others<R: Threads + Wait + Sync, S: Source, K: Sink, F: Fabric, D: Files, C: Clock>(
    rt: &R,
    alloc: Global,
    words: &Vec<String>,
    lent: &mut Lent<'_, S, K, F, D, C>,
) -> Ending
    ensures ends { GivesBack S.Source K.Sink F.Fabric D.Files C.Clock (EndsOther result (map string_bytes words.now.items)) lent.old lent.new }
    ensures files { KeepsNodeFiles (node_task_of (map string_bytes words.now.items)) (D.contents lent.old.files.now) (D.contents lent.new.files.now) }
{
    match node_task_of(alloc, words) {
        Ok(task) => end_other(rt, alloc, task, lent),
        Err(Memory) => Ending::Memory,
    }
}

/// Runs what these words ask for and returns the ending. They are the words after the program's name. If memory runs out for them, returns
/// `Memory` and runs nothing. What each ending says is in `EndsBy`, and what the files hold afterwards in `KeepsFiles`.
fn end_of<R: Threads + Wait + Sync, S: Source, K: Sink, F: Fabric, D: Files, C: Clock>(
    rt: &R,
    alloc: Global,
    words: &Vec<String>,
    lent: &mut Lent<'_, S, K, F, D, C>,
) -> Ending
    ensures ends { GivesBack S.Source K.Sink F.Fabric D.Files C.Clock (EndsBy result (map string_bytes words.now.items)) lent.old lent.new }
    ensures files { KeepsFiles (task_of (map string_bytes words.now.items)) (node_task_of (map string_bytes words.now.items)) (D.contents lent.old.files.now) (D.contents lent.new.files.now) }
{
    match task_of(alloc, words) {
        Ok(Some(task)) => end_task(rt, alloc, task, lent),
        Ok(None) => end_others(rt, alloc, words, lent),
        Err(Memory) => Ending::Memory,
    }
}

/// Runs the program and returns its exit status; what each status says is in `EndsWith`. `words` are those after the program's name. The files keep
/// their contents, except if the words ask for a receiver, which puts the files that it hands up, or for `mirror`, which puts those of all receivers.
pub fn norm_main<R: Threads + Wait + Sync, S: Source, K: Sink, F: Fabric, D: Files, C: Clock>(
    rt: &R,
    alloc: Global,
    words: &Vec<String>,
    input: &mut S,
    output: &mut K,
    fabric: &mut F,
    files: &mut D,
    clock: &mut C,
) -> Status
    ensures ends { EndsWith result (map string_bytes words.now.items)
        (outside (S.left input.old) (K.pieces output.old) (S.fault_count input.old) (K.fault_count output.old)
        (called_as (F.told fabric.old) (D.contents files.old) (C.moments clock.old) (F.fault_count fabric.old) (D.fault_count files.old)))
        (outside (S.left input.new) (K.pieces output.new) (S.fault_count input.new) (K.fault_count output.new)
        (called_as (F.told fabric.new) (D.contents files.new) (C.moments clock.new) (F.fault_count fabric.new) (D.fault_count files.new))) }
    ensures files { KeepsFiles (task_of (map string_bytes words.now.items)) (node_task_of (map string_bytes words.now.items)) (D.contents files.old) (D.contents files.new) }
{
    let mut lent = Lent::of(input, output, fabric, files, clock);
    end_of(rt, alloc, words, &mut lent).status()
}

/// Runs the program as a process. `words` are those after its name, or why they could not be read. The exit code is the status of `norm_main` for
/// words that were read. If words, a line, a profile, a refused tail or memory ended it, standard error says why. Call `say_cause`
/// afterwards: it says what a failed call was about.
pub fn run<R: Threads + Wait + Sync + Eprint, S: Source, K: Sink, F: Fabric, D: Files, C: Clock>(
    rt: &R,
    alloc: Global,
    words: Result<Vec<String>, WordsFault>,
    input: &mut S,
    output: &mut K,
    fabric: &mut F,
    files: &mut D,
    clock: &mut C,
) -> ExitCode
    ensures ends { let before = outside (S.left input.old) (K.pieces output.old) (S.fault_count input.old) (K.fault_count output.old)
        (called_as (F.told fabric.old) (D.contents files.old) (C.moments clock.old) (F.fault_count fabric.old) (D.fault_count files.old)) in
        let after = outside (S.left input.new) (K.pieces output.new) (S.fault_count input.new) (K.fault_count output.new)
        (called_as (F.told fabric.new) (D.contents files.new) (C.moments clock.new) (F.fault_count fabric.new) (D.fault_count files.new)) in
        MatchResult words (λ words. EndsWith (exit_status result) (map string_bytes words.items) before after)
        (λ fault. EndsUnread fault (exit_status result) before after) }
    ensures files { MatchResult words (λ words. KeepsFiles (task_of (map string_bytes words.items)) (node_task_of (map string_bytes words.items)) (D.contents files.old) (D.contents files.new))
        (λ fault. D.contents files.new ≡ D.contents files.old) }
{
    let words = match words {
        Ok(words) => words,
        Err(WordsFault::NotText) => {
            say(output, USAGE);
            explain_no_text(rt);
            return ExitCode::from(Ending::Words.status());
        }
        Err(WordsFault::Memory) => {
            explain(rt, &Ending::Memory, &[]);
            return ExitCode::from(Ending::Memory.status());
        }
    };
    let mut lent = Lent::of(input, output, fabric, files, clock);
    let ending = end_of(rt, alloc, &words, &mut lent);
    explain(rt, &ending, &words);
    ExitCode::from(ending.status())
}
