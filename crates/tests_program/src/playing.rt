//! Runs a row: calls the program, and prints what it left. `rows` calls [`play`].

use crate::asked::Asked;
use crate::call::Call;
use crate::left::{Left, print_counts, print_files, print_left, print_no_offer, print_offer};
use crate::net::{Kind, Net};
use norm_base::{Fabric, Files, Sink, Source};
use norm_memory::{FeedFabric, ListFabric, MemClock, MemSink};
use norm_program::{Status, norm_main};
use row_words::Fault;
use std::alloc::Global;
use std::sync::Wait;
use std::thread::Threads;

/// The most datagrams that are counted.
const MOST_OFFERS: usize = 100;

/// The status of the program. Nothing follows the call here, so no goal has the long contract of `norm_main`.
fn status_of<R: Threads + Wait + Sync, S: Source, K: Sink, F: Fabric, D: Files>(
    rt: &R,
    alloc: Global,
    words: &Vec<String>,
    input: &mut S,
    output: &mut K,
    fabric: &mut F,
    files: &mut D,
    clock: &mut MemClock,
) -> Status {
    norm_main(rt, alloc, words, input, output, fabric, files, clock)
}

/// The program's status as a number.
fn status_code<R: Threads + Wait + Sync, S: Source, K: Sink, F: Fabric, D: Files>(
    rt: &R,
    alloc: Global,
    words: &Vec<String>,
    input: &mut S,
    output: &mut K,
    fabric: &mut F,
    files: &mut D,
    clock: &mut MemClock,
) -> u8 {
    let status = status_of(rt, alloc, words, input, output, fabric, files, clock);
    status.code()
}

/// What a call of the program left, but for its files.
#[derive(Drop)]
struct Ended {
    status: u8,
    reads: u64,
    output: MemSink,
}

/// Calls the program over a network and files. Its clock stands still.
fn called_with<R: Threads + Wait + Sync, F: Fabric, D: Files>(
    rt: &R,
    alloc: Global,
    call: &Call,
    fabric: &mut F,
    files: &mut D,
) -> Result<Ended, Fault> {
    let words = call.words(alloc)?;
    let mut input = call.source(alloc)?;
    let mut output = call.sink(alloc)?;
    let mut clock = MemClock::of(Vec::new(alloc));
    let status = status_code(
        rt,
        alloc,
        &words,
        &mut input,
        &mut output,
        fabric,
        files,
        &mut clock,
    );
    let reads = input.reads();
    Ok(Ended {
        status,
        reads,
        output,
    })
}

/// Calls the program over a network, and returns what it left.
fn called<R: Threads + Wait + Sync, F: Fabric>(
    rt: &R,
    alloc: Global,
    call: &Call,
    fabric: &mut F,
) -> Result<Left, Fault> {
    let (ended, files) = match call.changing_files(alloc)? {
        Some(mut files) => {
            let ended = called_with(rt, alloc, call, fabric, &mut files)?;
            (ended, files.into_files())
        }
        None => {
            let mut files = call.files(alloc)?;
            let ended = called_with(rt, alloc, call, fabric, &mut files)?;
            (ended, files)
        }
    };
    Ok(Left {
        status: ended.status,
        reads: ended.reads,
        output: ended.output,
        files,
    })
}

/// How many datagrams were offered, or `MOST_OFFERS` if there were more.
fn offers_in(fabric: &ListFabric) -> u64 {
    for place in 0..MOST_OFFERS {
        if fabric.offered(place).is_none() {
            return place as u64;
        }
    }
    MOST_OFFERS as u64
}

/// Prints the datagrams that the row asks for, of a network with rules.
fn print_ruled<K: Sink>(
    alloc: Global,
    asked: &Asked,
    fabric: &ListFabric,
    output: &mut K,
) -> Result<(), Fault> {
    for number in &asked.offers {
        match fabric.offered(number.saturating_sub(1)) {
            Some((from, octets)) => print_offer(alloc, *number, from, octets, output)?,
            None => print_no_offer(alloc, *number, output)?,
        }
    }
    Ok(())
}

/// Prints the datagrams that the row asks for, of a network that gives the row's datagrams.
fn print_fed<K: Sink>(
    alloc: Global,
    asked: &Asked,
    fabric: &FeedFabric,
    output: &mut K,
) -> Result<(), Fault> {
    for number in &asked.offers {
        match fabric.offered(number.saturating_sub(1)) {
            Some((from, octets)) => print_offer(alloc, *number, from, octets, output)?,
            None => print_no_offer(alloc, *number, output)?,
        }
    }
    Ok(())
}

/// Runs a row over a network with rules.
fn play_ruled<R: Threads + Wait + Sync, K: Sink>(
    rt: &R,
    alloc: Global,
    call: &Call,
    net: &Net,
    asked: &Asked,
    output: &mut K,
) -> Result<(), Fault> {
    let mut fabric = net.ruled(alloc, call.fails)?;
    let left = called(rt, alloc, call, &mut fabric)?;
    if asked.counts {
        let counts = [left.reads, offers_in(&fabric), fabric.takes()];
        print_counts(alloc, &counts, output)?;
    }
    print_left(alloc, &left, asked, output)?;
    print_ruled(alloc, asked, &fabric, output)?;
    print_files(alloc, &left, asked, output)
}

/// Runs a row over a network that gives the row's datagrams.
fn play_fed<R: Threads + Wait + Sync, K: Sink>(
    rt: &R,
    alloc: Global,
    call: &Call,
    net: &Net,
    asked: &Asked,
    output: &mut K,
) -> Result<(), Fault> {
    let mut fabric = net.fed(alloc)?;
    let left = called(rt, alloc, call, &mut fabric)?;
    print_left(alloc, &left, asked, output)?;
    print_fed(alloc, asked, &fabric, output)?;
    print_files(alloc, &left, asked, output)
}

/// Runs a row over a network that gives what was offered in the row's order.
fn play_disturbed<R: Threads + Wait + Sync, K: Sink>(
    rt: &R,
    alloc: Global,
    call: &Call,
    net: &Net,
    asked: &Asked,
    output: &mut K,
) -> Result<(), Fault> {
    let mut fabric = net.disturbed(alloc)?;
    let left = called(rt, alloc, call, &mut fabric)?;
    print_left(alloc, &left, asked, output)
}

/// Runs a row over a network that gives refused datagrams.
fn play_hostile<R: Threads + Wait + Sync, K: Sink>(
    rt: &R,
    alloc: Global,
    call: &Call,
    net: &Net,
    asked: &Asked,
    output: &mut K,
) -> Result<(), Fault> {
    let mut fabric = net.hostile(alloc)?;
    let left = called(rt, alloc, call, &mut fabric)?;
    if asked.counts {
        print_counts(alloc, &[fabric.given() as u64], output)?;
    }
    print_left(alloc, &left, asked, output)
}

/// Runs a row, and prints what the program left.
pub(crate) fn play<R: Threads + Wait + Sync, K: Sink>(
    rt: &R,
    alloc: Global,
    call: &Call,
    net: &Net,
    asked: &Asked,
    output: &mut K,
) -> Result<(), Fault> {
    match net.kind {
        Kind::Ruled => play_ruled(rt, alloc, call, net, asked, output),
        Kind::Fed => play_fed(rt, alloc, call, net, asked, output),
        Kind::Disturbed => play_disturbed(rt, alloc, call, net, asked, output),
        Kind::Hostile => play_hostile(rt, alloc, call, net, asked, output),
    }
}
