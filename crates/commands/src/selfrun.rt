// Runs the job of the words over lines that are made of a seed.
ghost use Rattle.std.specs.FinMap.{entries};
ghost use Rattle.std.specs.Prelude.{◌≡◌, ◌++◌, [], ◌∷◌, Some, IfOk, IfErr, OnOk, codes, decimal, length};
ghost use Rattle.flow_defs.specs.declared.job.Job.{Job};
ghost use Rattle.line_generator.specs.Generated.{generated};
ghost use Rattle.outside.specs.MemoryFiles.{contents_in};
ghost use Rattle.outside.specs.MemoryKeepers.{keeper_of};
ghost use Rattle.stage_fns.specs.Kinds.{kinds};
ghost use Rattle.commands.specs.SelfRuns.{HasRunOver, IsSelfFault, counted_in, of_self, self_text, summary_of};

use crate::run::job_of_text;
use command_parts::fault::Fault;
use flow_defs::{Bytes, ListOf, Table, Word};
use itoa::Buffer;
use job_command::exchange::table_by_exchange;
use job_text::RunOptions;
use job_text::laws::job_texts_are_clear;
use line_generator::generate;
use line_generator::laws::lines_are_of_two_words;
use outside::{MemoryFile, MemoryFiles, MemoryKeeper};
use plain_machine::laws::start_exists;
use plain_machine::sizes::{finished_chain_is_counted, tally_counts_records};
use stage_fns::FnTable;
use std::alloc::{AllocError, Global};
use std::sync::Wait;
use std::thread::Threads;

/// What a run of the job of the words over so many lines of a seed comes to. Its file, its links and its keeper are in
/// memory, and none of their calls is to fail. The lines are held twice, as they were made and as the file that is read.
pub fn selfrun_text<R: Threads + Wait + Sync>(
    rt: &R,
    alloc: Global,
    lines: u64,
    seed: u64,
    functions: &FnTable,
) -> Result<Bytes, Fault>
    ensures done { IfOk result (λ text. HasRunOver (kinds functions.now) lines seed (λ all. text.items ≡ all)) }
    ensures fault { IfErr result (IsSelfFault (kinds functions.now)) }
{
    job_texts_are_clear();
    start_exists();
    finished_chain_is_counted();
    tally_counts_records();
    lines_are_of_two_words();
    let job = job_of_text(alloc, self_text(), functions)?;
    let mut files = files_of_seed(alloc, lines, seed)?;
    let mut keeper = empty_keeper(alloc);
    let options = RunOptions {
        every: Some(100_000),
        segment: 32_768,
        pool: 2_048,
    };
    match table_by_exchange(rt, alloc, &job, options, functions, &mut files, &mut keeper) {
        Ok(table) => Ok(summary(alloc, lines, &table, keeper.images().len() as u64)?),
        Err(fault) => Err(own_fault(fault)),
    }
}

// The text of the job.
fn self_text() -> &'static [u8]
    ensures { result.now ≡ self_text }
{
    b"source in\nstage words 2 rebalance\naggregate count 2\n"
}

// The one file of the job, with so many lines of the seed.
fn files_of_seed(alloc: Global, lines: u64, seed: u64) -> Result<MemoryFiles, AllocError>
    ensures { IfOk result (λ files. contents_in files.files (codes "in") ≡ Some (generated seed lines)) }
{
    let mut files = ListOf::new(alloc);
    files.push(MemoryFile {
        name: Word::of(alloc, "in")?,
        bytes: generate(alloc, lines, seed)?,
        most: 65_536,
        fails: ListOf::new(alloc),
    })?;
    Ok(MemoryFiles::new(files, ListOf::new(alloc)))
}

// A keeper of no image, of which no call fails.
fn empty_keeper(alloc: Global) -> MemoryKeeper
    ensures { result ≡ keeper_of [] [] [] }
{
    MemoryKeeper::new(ListOf::new(alloc), ListOf::new(alloc), ListOf::new(alloc))
}

// The fault that is told of such a run. That none comes of its file or its keeper, and that no limit is passed, is not proved; each would be
// told as want of memory.
fn own_fault(fault: Fault) -> Fault
    ensures { result ≡ of_self fault }
{
    match fault {
        Fault::OverCredit { .. } | Fault::Peer { .. } => fault,
        _ => Fault::Memory,
    }
}

// The lines that tell of a run over so many lines with this table, which stored so many images.
fn summary(alloc: Global, lines: u64, table: &Table, images: u64) -> Result<Bytes, AllocError>
    ensures { IfOk result (λ text. text.items ≡ summary_of lines (counted_in table.now) (length (entries table.now)) images) }
{
    let mut text = Bytes::new(alloc);
    add_number(&mut text, "lines ", lines)?;
    add_number(&mut text, "records ", records_of(table))?;
    add_number(&mut text, "keys ", table.rows().len() as u64)?;
    add_number(&mut text, "images ", images)?;
    Ok(text)
}

// How many records were counted, modulo 2^64.
fn records_of(table: &Table) -> u64
    ensures { result ≡ counted_in table.now }
{
    let mut records = 0u64;
    for row in table.rows() {
        records = records.wrapping_add(row.value);
    }
    records
}

// Adds a line of a name and a number.
fn add_number(text: &mut Bytes, name: &str, number: u64) -> Result<(), AllocError>
    ensures { OnOk result (text.new.items ≡ text.old.items ++ (name.now ++ decimal number ++ 10 ∷ [])) }
{
    text.extend(name.as_bytes())?;
    text.extend(Buffer::new().format(number).as_bytes())?;
    text.push(b'\n')
}
