//! replay: drives senders and receivers, one after another, by lines of standard input, and prints one line for each that it follows.
//! The README lists the lines. Its rows (`stdin`) are tests of the nodes, and `checks/nodes.py`, for example, runs it. Start at `run.rt`,
//! which follows the lines, and at `node.rt`, which calls the node.
#![tactic(auto)]

mod answers;
mod commanding;
mod events;
mod node;
mod receiving;
mod relaying;
mod run;
mod sending;

use crate::run::replay;
use norm_host::{StdSink, StdSource};
use row_words::Fault;
use std::io;
use std::process::ExitCode;

/// Replays standard input onto standard output. `Fault::status` of `row_words` has the exit status.
fn main(rt: HostRuntime) -> ExitCode {
    let alloc = rt.alloc();
    let mut input = StdSource::of(rt.reader());
    let mut output = StdSink::of(io::writer(&rt));
    let Err(fault) = replay(alloc, &mut input, &mut output) else {
        return ExitCode::SUCCESS;
    };
    let _ = eprintln!(rt; "replay: {fault}");
    ExitCode::from(fault.status())
}
