//! A job run by another program: it counts the words of lines that this program holds. The page `docs/LIBRARY.md` leads
//! through it.
//!
//! `lines` has the source of lines, `images` the keeper of images, `links` what makes connections. The job is run by
//! `run_job` of `job_run`; what goes in is made by `commands`, `job_command`, `job_cells` and `command_parts`.
#![tactic(auto)]

ghost use Rattle.std.specs.Prelude.{◌≡◌, ◌≤◌, length, IfOk};
ghost use Rattle.flow_defs.specs.Limits.{job_text_max};
ghost use Rattle.flow_defs.specs.Lines.{lines};
ghost use Rattle.flow_defs.specs.declared.job.Job.{Job};
ghost use Rattle.job_text.specs.JobText.{IsJobText};
ghost use Rattle.plain_machine.specs.Worth.{tally};
ghost use Rattle.stage_fns.specs.Kinds.{kinds};
ghost use Rattle.stage_fns.specs.Meets.{MeetsAgg, MeetsStage};

mod images;
mod lines;
mod links;

use crate::images::ImageList;
use crate::lines::HeldFile;
use crate::links::CountedLinks;
use command_parts::fault::Fault;
use command_parts::inputs::{find_inputs, give_back};
use command_parts::output::{table_text, tell};
use commands::run::job_of_text;
use flow_defs::{AggKind, Bytes, Cause, ListOf, SOURCES_MAX, StageKind, Table, needed};
use job_cells::open_network;
use job_command::held::refuse_held;
use job_run::run_job;
use job_text::RunOptions;
use outside::StdSink;
use stage_fns::{AggFn, FnTable, StageFn, count, words};
use std::alloc::{AllocError, Global};
use std::io::{self, Write};
use std::process::ExitCode;
use std::sync::Wait;
use std::thread::Threads;

// Two tasks cut lines into words, and two count these.
const JOB: &[u8] = b"source lines\nstage words 2 rebalance\naggregate count 2\n";

const LINES: &[u8] = b"to be or not to be\nthat is the question\n";

// A checkpoint behind each line, and network memory of 64 segments of 1,024 bytes.
const OPTIONS: RunOptions = RunOptions {
    every: Some(1),
    segment: 1_024,
    pool: 64,
};

// Adds the function of a kind of stages that has none yet.
fn add_stage(functions: &mut FnTable, kind: StageKind, f: StageFn) -> Result<(), AllocError>
    requires { MeetsStage kind (StageFn.pre f) (StageFn.post f) }
{
    match functions.add_stage(kind, f) {
        Ok(()) => Ok(()),
        Err(_) => Err(AllocError),
    }
}

// Adds the function of a kind of aggregates that has none yet.
fn add_agg(functions: &mut FnTable, kind: AggKind, f: AggFn) -> Result<(), AllocError>
    requires { MeetsAgg kind (AggFn.pre f) (AggFn.post f) }
{
    match functions.add_agg(kind, f) {
        Ok(()) => Ok(()),
        Err(_) => Err(AllocError),
    }
}

// What a run of the job of this text comes to: its table, or why a worker stopped it. The fault is of a run that could not
// begin. Each source of the job reads the file.
fn run<R: Threads + Wait + Sync>(
    rt: &R,
    alloc: Global,
    text: &[u8],
    functions: &FnTable,
    file: &mut HeldFile<'_>,
    links: &mut CountedLinks,
    keeper: &mut ImageList,
) -> Result<Result<Table, Cause>, Fault>
    requires fits { length text.now ≤ job_text_max }
    ensures table { IfOk result (λ ran. IfOk ran (λ table. (job : Job) × IsJobText (kinds functions.now) text.now job
        × (table ≡ tally job (λ _. lines file.old.text.now)))) }
{
    let job = job_of_text(alloc, text, functions)?;
    let (have, need) = (OPTIONS.pool, needed(&job));
    if have < need {
        return Err(Fault::TooFewSegments { have, need });
    }
    refuse_held(alloc, keeper)?;
    let network = open_network(alloc, &job, OPTIONS.pool, OPTIONS.segment)?;
    let mut inputs = ListOf::new(alloc);
    inputs.reserve(SOURCES_MAX)?;
    if let Err(fault) = find_inputs(alloc, &job, file, &mut inputs) {
        give_back(file, inputs);
        return Err(fault);
    }
    let ran = run_job(
        rt,
        alloc,
        &job,
        functions,
        OPTIONS,
        network,
        &mut inputs,
        links,
        keeper,
    );
    give_back(file, inputs);
    Ok(ran)
}

// Runs the job with the functions of the kinds that it names.
fn run_with_functions<R: Threads + Wait + Sync>(
    rt: &R,
    alloc: Global,
    file: &mut HeldFile<'_>,
    links: &mut CountedLinks,
    keeper: &mut ImageList,
) -> Result<Result<Result<Table, Cause>, Fault>, AllocError> {
    let mut functions = FnTable::new(alloc);
    let f: StageFn = Box::new(
        alloc,
        |alloc: Global, arg: &[u8], record: &[u8], list: &mut ListOf<Bytes>| {
            words(alloc, arg, record, list)
        },
    )?;
    add_stage(&mut functions, StageKind::Words, f)?;
    let f: AggFn = Box::new(alloc, |record: &[u8], old: u64| count(record, old))?;
    add_agg(&mut functions, AggKind::Count, f)?;
    Ok(run(rt, alloc, JOB, &functions, file, links, keeper))
}

fn main(rt: HostRuntime) -> io::Result<ExitCode> {
    let alloc = rt.alloc();
    let mut file = HeldFile::new("lines", LINES);
    let mut links = CountedLinks::new(alloc);
    let mut keeper = ImageList::new(alloc);
    match run_with_functions(&rt, alloc, &mut file, &mut links, &mut keeper)? {
        Ok(Ok(table)) => {
            io::writer(&rt).write_all(table_text(alloc, &table)?.as_slice())?;
            println!(rt; "connections {}", links.made)?;
            println!(rt; "images {}", keeper.images.as_slice().len())?;
            Ok(ExitCode::SUCCESS)
        }
        Ok(Err(cause)) => {
            eprintln!(rt; "stopped by {cause:?}")?;
            Ok(ExitCode::FAILURE)
        }
        Err(fault) => {
            tell(&mut StdSink::new(&rt.stderr()), fault);
            Ok(ExitCode::from(fault.status()))
        }
    }
}
