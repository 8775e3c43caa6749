//! Runs a job: counts what its stages make of the lines of its sources, as the job's text says, and
//! prints the counts. Its tasks run at once, joined by the exchange over links in memory, and images of
//! its checkpoints go to a keeper. Or does a script: drives both ends of a connection, event by event, and
//! prints what is replied to each. Or runs a job over lines that are made of a seed, and prints what that comes
//! to. Or shows the last image that a keeper holds.
//!
//! It stands on `commands`, whose `top` is the program over the world that it is handed. `main` hands it the real files, a
//! keeper in memory that holds nothing, the standard output and the output for errors.
#![tactic(auto)]

use commands::program::run_program;
use flow_defs::{ListOf, Word};
use outside::{DirFiles, MemoryKeeper, StdSink};
use std::process::ExitCode;
use std::{env, io};

fn main(rt: HostRuntime) -> io::Result<ExitCode> {
    let alloc = rt.alloc();
    let mut words = ListOf::new(alloc);
    for word in env::args(&rt)?.skip(1) {
        words.push(Word::of(alloc, word.as_str())?)?;
    }
    let status = run_program(
        &rt,
        alloc,
        &words,
        &mut DirFiles::new(&rt),
        &mut MemoryKeeper::new(ListOf::new(alloc), ListOf::new(alloc), ListOf::new(alloc)),
        &mut StdSink::new(&rt),
        &mut StdSink::new(&rt.stderr()),
    );
    Ok(ExitCode::from(status))
}
