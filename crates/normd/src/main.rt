//! normd: a reliable multicast sender and receiver after NORM (RFC 5740). [`main`] makes the objects of the process, numbers a send (`numbering`),
//! and runs `norm_program` on them, which does what the words ask for. Afterwards [`main`] waits a while for what is still to be sent,
//! and says on standard error what failed.
#![tactic(auto)]

mod numbering;

use crate::numbering::{Numbers, number};
use norm_args::group_asked;
use norm_base::Memory;
use norm_host::{FolderFiles, HostClock, HostFabric, StdSink, StdSource};
use norm_program::{WordsFault, arguments, needed, paths_asked, run, say_cause};
use norm_watch::{Tally, WatchedFabric, WatchedSink, asked_in, end_progress};
use std::alloc::Global;
use std::io;
use std::net::Net;
use std::process::ExitCode;
use std::sync::Wait;
use std::thread::Threads;
use std::time::Clock;

/// Octets of the block that is freed at the start: eight objects of 1 MiB.
// Our own choice. The C library raises its bound for no block above 32 MiB, so a greater one than that would change nothing.
const FREED_FIRST: usize = 8 << 20;

/// Has the C library keep memory that is freed for what comes next. It gives memory back to the system above a bound that grows with the greatest
/// block that was freed. At first that is so low that each object of 1 MiB would be made of new pages.
fn keep_what_is_freed(alloc: Global) -> Result<(), Memory> {
    let block: Vec<u8> = Vec::with_capacity(alloc, FREED_FIRST)?;
    drop(block);
    Ok(())
}

/// Tells the files the path of each profile that the words name. Does nothing if the words were not read.
fn tell(
    alloc: Global,
    words: &Result<Vec<String>, WordsFault>,
    files: &mut FolderFiles<HostRuntime>,
) -> Result<(), Memory> {
    if let Ok(words) = words {
        for path in paths_asked(alloc, words)? {
            files.tell(&path.into_inner())?;
        }
    }
    Ok(())
}

/// Numbers a send, if the words were read and ask for one. Returns what [`number`] does.
fn numbered(
    rt: HostRuntime,
    alloc: Global,
    words: &mut Result<Vec<String>, WordsFault>,
    files: &mut FolderFiles<HostRuntime>,
) -> Result<Option<Numbers>, Memory> {
    match words {
        Ok(words) => number(rt, alloc, words, files),
        Err(_) => Ok(None),
    }
}

/// Whether the words ask for a hub or for a sender, which send much. Looks only at the first word, so they may still be refused.
fn sends_much(words: &Result<Vec<String>, WordsFault>) -> bool {
    match words {
        Ok(words) => match words.first() {
            Some(word) => word.as_str() == "hub" || word.as_str() == "send",
            None => false,
        },
        Err(_) => false,
    }
}

/// Has the network join the group that the words name. Returns whether it does: not if they name none, or were not read.
fn join<R: Net + Wait + Clock + Drop>(
    alloc: Global,
    words: &Result<Vec<String>, WordsFault>,
    fabric: &mut HostFabric<R>,
) -> Result<bool, Memory> {
    let Ok(words) = words else {
        return Ok(false);
    };
    let Some(group) = group_asked(alloc, words)? else {
        return Ok(false);
    };
    fabric.join(group.address, group.port);
    Ok(true)
}

/// Returns the network of the process, which joins the group that the words name. If they name none and ask for a node that sends much, a
/// thread sends for it over sockets, if it can be made and the machine has four processors or more.
fn network<R: Net + Threads + Wait + Clock + Copy + Send + Drop + 'static>(
    rt: R,
    alloc: Global,
    words: &Result<Vec<String>, WordsFault>,
) -> Result<HostFabric<R>, Memory> {
    let mut fabric = HostFabric::new(alloc, rt)?;
    let is_in_group = join(alloc, words, &mut fabric)?;
    // A member of a group sends each datagram once, by itself.
    if sends_much(words) && !is_in_group {
        // Without a thread the node sends by itself, only slower.
        let _ = fabric.start_thread(alloc, rt);
    }
    Ok(fabric)
}

/// Returns the process's clock. If its network is that of a sender over sockets, it may lag, so that a sender that woke late catches up.
fn clock_for<R: Net + Wait + Clock + Copy + Drop>(rt: R, fabric: &HostFabric<R>) -> HostClock<R> {
    match fabric.lag() {
        Ok(lag) => HostClock::lagging(rt, lag),
        // Without it the sender is only slower.
        Err(_) => HostClock::of(rt),
    }
}

/// Makes the real objects, and runs the program on them. Its files are those of the folder that it runs in, and each profile whose path it is given.
fn main(rt: HostRuntime) -> ExitCode {
    let alloc = rt.alloc();
    if let Err(code) = needed(&rt, keep_what_is_freed(alloc)) {
        return code;
    }
    let says = asked_in(&rt);
    let tally = Tally::new();
    let mut words = arguments(&rt);
    let mut fabric = match needed(&rt, network(rt, alloc, &words)) {
        Ok(fabric) => WatchedFabric::of(rt, fabric, says, &tally),
        Err(code) => return code,
    };
    let mut files = match needed(&rt, FolderFiles::of(alloc, rt, ".")) {
        Ok(files) => files,
        Err(code) => return code,
    };
    if let Err(code) = needed(&rt, tell(alloc, &words, &mut files)) {
        return code;
    }
    let numbers = match needed(&rt, numbered(rt, alloc, &mut words, &mut files)) {
        Ok(numbers) => numbers,
        Err(code) => return code,
    };
    let mut input = StdSource::of(rt.reader());
    let sink = StdSink::of(io::writer(&rt));
    let mut output = WatchedSink::of(rt, sink, says, &tally, numbers);
    let mut clock = clock_for(rt, fabric.watched());
    let code = run(
        &rt,
        alloc,
        words,
        &mut input,
        &mut output,
        &mut fabric,
        &mut files,
        &mut clock,
    );
    // Before the process ends, and its thread with it: what was offered last is often what a receiver waits for.
    let left = fabric.watched().drain();
    end_progress(&rt, &tally);
    if code == ExitCode::SUCCESS {
        fabric.say_spent();
    }
    say_cause(&rt, input.cause());
    say_cause(&rt, output.watched().cause());
    say_cause(&rt, fabric.watched().cause().or(left.as_ref()));
    say_cause(&rt, files.cause());
    code
}
