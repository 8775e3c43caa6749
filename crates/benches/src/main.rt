//! What the scripts in bench/ time, a word for each: `turns WAY TIMES` takes turns at turn cells,
//! `ends WHAT SIZE TIMES` does one thing of pools or of a channel's two ends, `links carry CHANNELS SIZE
//! BUFFERS` and `links idle SECONDS` run a connection, and `frames WHAT ROUNDS` lays frames down or reads
//! them. It prints one number, so that no work can be left out, and ends with status 2 where the words ask
//! for nothing or it can't be done.
#![tactic(auto)]

mod ends;
mod frames;
mod links;
mod pools;
mod turns;

use std::alloc::Global;
use std::process::ExitCode;
use std::sync::Wait;
use std::thread::Threads;
use std::{env, io};

fn work<R: Threads + Wait + Sync>(
    rt: &R,
    alloc: Global,
    bench: &str,
    what: &str,
    numbers: &[u64],
) -> Option<u64> {
    match (bench, numbers) {
        ("turns", [times]) => turns::take(rt, alloc, what, *times),
        ("ends", [size, times]) => ends::work(rt, alloc, what, u32::try_from(*size).ok()?, *times),
        ("links", numbers) => links::run(rt, alloc, what, numbers),
        ("frames", [rounds]) => frames::work(alloc, what, *rounds),
        _ => None,
    }
}

fn main(rt: HostRuntime) -> io::Result<ExitCode> {
    let mut words = env::args(&rt)?.skip(1);
    let (Some(bench), Some(what)) = (words.next(), words.next()) else {
        return Ok(ExitCode::from(2));
    };
    let mut numbers = Vec::new(rt.alloc());
    for word in words {
        let Ok(number) = word.as_str().parse::<u64>() else {
            return Ok(ExitCode::from(2));
        };
        numbers.push(number)?;
    }
    let Some(sum) = work(&rt, rt.alloc(), bench.as_str(), what.as_str(), &numbers) else {
        return Ok(ExitCode::from(2));
    };
    println!(rt; "{sum}")?;
    Ok(ExitCode::SUCCESS)
}
