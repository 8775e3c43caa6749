// Whole runs over files and outputs in memory.
ghost use Rattle.std.specs.Prelude.{◌≡◌, ◌≤◌, IfOk, length};

use crate::held_files::HeldFiles;
use commands::program::run_program;
use commands::top::top;
use flow_defs::{Bytes, ListOf, StageKind, Word};
use outside::{Files, Keeper, MemoryFile, MemoryFiles, MemoryKeeper, MemorySink, Sink};
use stage_fns::{FnTable, StageFn, words};
use std::alloc::{AllocError, Global};
use std::process::Abort;
use std::sync::Wait;
use std::sync::atomic::AtomicU64;
use std::test::Fail;
use std::thread::Threads;

const COUNT: &str = "source in\naggregate count 1\n";

// A file that gives at most so many bytes in a read, and whose read of this number fails, if it is not 0.
fn file(
    alloc: Global,
    name: &str,
    content: &[u8],
    most: usize,
    failing: u64,
) -> Result<MemoryFile, AllocError>
    ensures { IfOk result (λ file. file.most ≡ most) }
{
    let mut fails = ListOf::new(alloc);
    if failing > 0 {
        fails.push(failing)?;
    }
    Ok(MemoryFile {
        name: Word::of(alloc, name)?,
        bytes: Bytes::of(alloc, content)?,
        most,
        fails,
    })
}

// The job's text and two sources, the first of which may fail.
pub fn files(
    alloc: Global,
    job: &str,
    first: &[u8],
    second: &str,
    most: usize,
    failing: u64,
) -> Result<MemoryFiles, AllocError>
    requires { 1 ≤ most }
{
    let mut files = ListOf::new(alloc);
    files.push(file(alloc, "job", job.as_bytes(), 65_536, 0)?)?;
    files.push(file(alloc, "in", first, most, failing)?)?;
    files.push(file(alloc, "in2", second.as_bytes(), most, 0)?)?;
    Ok(MemoryFiles::new(files, ListOf::new(alloc)))
}

pub fn words_of(alloc: Global, text: &str) -> Result<ListOf<Word>, AllocError> {
    let mut list = ListOf::new(alloc);
    for word in text.split_whitespace() {
        list.push(Word::of(alloc, word)?)?;
    }
    Ok(list)
}

pub fn sink(alloc: Global, room: usize) -> Result<MemorySink, AllocError> {
    MemorySink::new(alloc, room, ListOf::new(alloc), None)
}

// A keeper that holds nothing.
fn no_images(alloc: Global) -> MemoryKeeper {
    MemoryKeeper::new(ListOf::new(alloc), ListOf::new(alloc), ListOf::new(alloc))
}

// Does a command. Over any files, keeper and outputs, and with no clause, so that what `run_program` says of them is
// read once.
fn status_over<R: Threads + Wait + Sync, F: Files, K: Keeper + Send, O: Sink, E: Sink>(
    rt: &R,
    alloc: Global,
    words: &ListOf<Word>,
    files: &mut F,
    keeper: &mut K,
    out: &mut O,
    err: &mut E,
) -> u8
where
    F::Input: Drop,
{
    run_program(rt, alloc, words, files, keeper, out, err)
}

// Does a command with these functions, likewise.
fn status_with<R: Threads + Wait + Sync, F: Files, K: Keeper + Send, O: Sink, E: Sink>(
    rt: &R,
    alloc: Global,
    words: &ListOf<Word>,
    functions: &FnTable,
    files: &mut F,
    keeper: &mut K,
    out: &mut O,
    err: &mut E,
) -> u8
where
    F::Input: Drop,
{
    top(rt, alloc, words, functions, files, keeper, out, err)
}

// What a command leaves: its status, and what both outputs got.
#[derive(Drop)]
pub struct Left {
    pub status: u8,
    pub out: MemorySink,
    pub err: MemorySink,
}

// Compares what a command left with what it is to leave, by the row's name.
pub fn compare<R: Abort>(rt: &R, left: &Left, status: u8, out: &[u8], err: &[u8], row: &str) {
    assert_eq!(rt; left.status, status, "{row}");
    assert_eq!(rt; left.out.bytes(), out, "{row}");
    assert_eq!(rt; left.err.bytes(), err, "{row}");
}

// Does a command over these files and this keeper, with so much room at each output.
pub fn left_over<R: Threads + Wait + Sync>(
    rt: &R,
    alloc: Global,
    command: &str,
    mut files: MemoryFiles,
    keeper: &mut MemoryKeeper,
    room: usize,
    spare: usize,
) -> Result<Left, AllocError> {
    let words = words_of(alloc, command)?;
    let mut out = sink(alloc, room)?;
    let mut err = sink(alloc, spare)?;
    let status = status_over(rt, alloc, &words, &mut files, keeper, &mut out, &mut err);
    Ok(Left { status, out, err })
}

// The same, where the keeper holds nothing.
fn left_by<R: Threads + Wait + Sync>(
    rt: &R,
    alloc: Global,
    command: &str,
    files: MemoryFiles,
    room: usize,
    spare: usize,
) -> Result<Left, AllocError> {
    left_over(
        rt,
        alloc,
        command,
        files,
        &mut no_images(alloc),
        room,
        spare,
    )
}

// Reads that give one byte, three or all.
#[test]
fn a_run_prints_the_tally_of_its_sources(rt: HostRuntime) -> Result<(), Fail> {
    let alloc = rt.alloc();
    let job =
        "source in\nsource in2\nstage keep:GET 2 rebalance\nstage field:2 2 hash\naggregate count 2\n";
    let pages = b"GET,/a,3\nPUT,/b,4\nGET,/a,5\n";
    for most in [1, 3, 100] {
        let files = files(alloc, job, pages, "GET,/c,1\n", most, 0)?;
        let left = left_by(&rt, alloc, "run job", files, 100, 100)?;
        compare(&rt, &left, 0, b"/a\t2\n/c\t1\n", b"", "run job");
    }
    Ok(())
}

// So many times this byte. Of the bytes themselves nothing is said, so that no proof writes out a million of them.
fn repeated(alloc: Global, byte: u8, count: usize) -> Result<Vec<u8>, AllocError>
    ensures { IfOk result (λ bytes. length bytes.items ≡ count) }
{
    vec![in alloc; byte; count]
}

// A line that is longer than a segment goes in many.
#[test]
fn takes_lines_up_to_the_limit(rt: HostRuntime) -> Result<(), Fail> {
    let alloc = rt.alloc();
    let line = repeated(alloc, b'a', 1_048_577)?;
    for (source, status, told) in [
        (&line[1..], 0, ""),
        (line.as_slice(), 10, "source 0: line over 1048576\n"),
    ] {
        let files = files(alloc, COUNT, source, "", 50_000, 0)?;
        let left = left_by(&rt, alloc, "run job --segment 64", files, 1_100_000, 100)?;
        let mut table = Bytes::new(alloc);
        if status == 0 {
            table.extend(source)?;
            table.extend(b"\t1\n")?;
        }
        compare(&rt, &left, status, table.as_slice(), told.as_bytes(), told);
    }
    Ok(())
}

// Each source's first read waits for that of the other.
#[test]
fn two_tasks_overlap(rt: HostRuntime) -> Result<(), Fail> {
    let alloc = rt.alloc();
    let first = AtomicU64::new(0);
    let second = AtomicU64::new(0);
    let job = "source in\nsource in2\naggregate count 1\n";
    let mut files = HeldFiles::new(job.as_bytes(), &first, &second);
    let words = words_of(alloc, "run job")?;
    let mut out = sink(alloc, 100)?;
    let mut err = sink(alloc, 100)?;
    let mut keeper = no_images(alloc);
    let status = status_over(
        &rt,
        alloc,
        &words,
        &mut files,
        &mut keeper,
        &mut out,
        &mut err,
    );
    let left = Left { status, out, err };
    compare(&rt, &left, 0, b"a\t1\nb\t1\n", b"", "run job");
    Ok(())
}

// So many of the bytes, or all where they are fewer.
pub fn front(bytes: &[u8], most: usize) -> &[u8] {
    &bytes[..bytes.len().min(most)]
}

// What the output for errors takes changes nothing in the status.
#[test]
fn tells_a_fault_whatever_the_room_for_it(rt: HostRuntime) -> Result<(), Fail> {
    let alloc = rt.alloc();
    let told = b"input fault: script\n";
    for spare in [100, 5, 0] {
        let files = files(alloc, COUNT, b"", "", 2, 0)?;
        let left = left_by(&rt, alloc, "script other", files, 100, spare)?;
        compare(&rt, &left, 4, b"", front(told, spare), "script other");
    }
    Ok(())
}

// The command, the read of the source that fails, and the room of the output; and what is left.
const FAULTS: &[(&str, u64, usize, u8, &str, &str)] = &[
    ("run job", 3, 100, 4, "", "input fault: source 0\n"),
    ("run job", 4, 100, 4, "", "input fault: source 0\n"),
    ("run job", 5, 100, 0, "a\t1\nb\t1\nc\t1\n", ""),
    ("run job", 0, 0, 7, "", "output fault\n"),
    ("run job", 0, 5, 7, "a\t1\nb", "output fault\n"),
    ("gen 2 1", 0, 9, 7, "w774 w35\n", "output fault\n"),
];

#[test]
fn tells_faults_of_the_source_and_the_output(rt: HostRuntime) -> Result<(), Fail> {
    let alloc = rt.alloc();
    for (words, failing, room, status, got, told) in FAULTS {
        let files = files(alloc, COUNT, b"a\nb\nc\n", "", 2, *failing)?;
        let left = left_by(&rt, alloc, words, files, *room, 100)?;
        compare(&rt, &left, *status, got.as_bytes(), told.as_bytes(), words);
    }
    Ok(())
}

#[test]
fn refuses_a_job_text_over_its_limit(rt: HostRuntime) -> Result<(), Fail> {
    let alloc = rt.alloc();
    let long = repeated(alloc, b'x', 65_537)?;
    for (job, status, told) in [
        (&long[1..], 3, "job line 1: bad line\n"),
        (long.as_slice(), 10, "job over 65536\n"),
    ] {
        let text = std::str::from_utf8(job).map_err(|_| "no text")?;
        let files = files(alloc, text, b"", "", 9, 0)?;
        let left = left_by(&rt, alloc, "run job", files, 100, 100)?;
        compare(&rt, &left, status, b"", told.as_bytes(), told);
    }
    Ok(())
}

// Does a command with these functions, which lacks one, and compares the line that it tells.
fn lacks<R: Threads + Wait + Sync + Abort>(
    rt: &R,
    alloc: Global,
    command: &str,
    functions: &FnTable,
    told: &str,
) -> Result<(), AllocError> {
    let job = "source in\nstage words 1 hash\nstage upper 1 hash\naggregate count 1\n";
    let mut files = files(alloc, job, b"a\n", "", 9, 0)?;
    let mut out = sink(alloc, 100)?;
    let mut err = sink(alloc, 100)?;
    let words = words_of(alloc, command)?;
    let status = status_with(
        rt,
        alloc,
        &words,
        functions,
        &mut files,
        &mut no_images(alloc),
        &mut out,
        &mut err,
    );
    let left = Left { status, out, err };
    compare(rt, &left, 3, b"", told.as_bytes(), command);
    Ok(())
}

#[test]
fn refuses_a_kind_that_has_no_function(rt: HostRuntime) -> Result<(), Fail> {
    let alloc = rt.alloc();
    let mut functions = FnTable::new(alloc);
    lacks(
        &rt,
        alloc,
        "selfrun 1 0",
        &functions,
        "job line 2: no function\n",
    )?;
    let f: StageFn = Box::new(
        alloc,
        |alloc: Global, arg: &[u8], record: &[u8], list: &mut ListOf<Bytes>| {
            words(alloc, arg, record, list)
        },
    )?;
    functions.add_stage(StageKind::Words, f)?;
    for command in ["selfrun 1 0", "run job"] {
        lacks(&rt, alloc, command, &functions, "job line 3: no function\n")?;
    }
    Ok(())
}
