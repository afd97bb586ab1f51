//! tests_program: calls the program over objects in memory, as the rows of the standard input say, and prints what each call left.
#![tactic(auto)]

mod asked;
mod call;
mod changing;
mod disturbed;
mod hostile;
mod left;
mod net;
mod playing;
mod rows;

use crate::rows::play_rows;
use norm_host::{StdSink, StdSource};
use row_words::Fault;
use std::io;
use std::process::ExitCode;

/// Runs the rows of the standard input.
fn main(rt: HostRuntime) -> ExitCode {
    let alloc = rt.alloc();
    let mut input = StdSource::of(rt.reader());
    let mut output = StdSink::of(io::writer(&rt));
    let Err(fault) = play_rows(&rt, alloc, &mut input, &mut output) else {
        return ExitCode::SUCCESS;
    };
    let _ = eprintln!(rt; "tests_program: {fault}");
    ExitCode::from(fault.status())
}
