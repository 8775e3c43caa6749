// The images that runs leave with a keeper.
use crate::inspect_tests::{LAST, SHOWN};
use crate::tests::{Left, compare, files, left_over};
use channel_state::read_image;
use flow_defs::{Image, ListOf};
use outside::{Kept, MemoryKeeper};
use std::alloc::{AllocError, Global};
use std::process::Abort;
use std::sync::Wait;
use std::test::Fail;
use std::thread::Threads;

const COUNT: &str = "source in\naggregate count 1\n";

const TWO: &str = "source in\nsource in2\naggregate count 1\n";

// A keeper of no image, whose put of this number fails, if it is not 0.
fn empty_keeper(alloc: Global, failing: u64) -> Result<MemoryKeeper, AllocError> {
    let mut puts = ListOf::new(alloc);
    if failing > 0 {
        puts.push(failing)?;
    }
    Ok(MemoryKeeper::new(ListOf::new(alloc), ListOf::new(alloc), puts))
}

// Does a command over a job and two sources.
fn left_by<R: Threads + Wait + Sync>(
    rt: &R,
    alloc: Global,
    command: &str,
    job: &str,
    first: &str,
    second: &str,
    keeper: &mut MemoryKeeper,
) -> Result<Left, AllocError> {
    let files = files(alloc, job, first.as_bytes(), second, 7, 0)?;
    left_over(rt, alloc, command, files, keeper, 10_000, 100)
}

// Does a command over a job and a source, and compares what it leaves.
fn leaves<R: Threads + Wait + Sync + Abort>(
    rt: &R,
    alloc: Global,
    command: &str,
    job: &str,
    first: &str,
    keeper: &mut MemoryKeeper,
    status: u8,
    out: &str,
    err: &str,
) -> Result<(), AllocError> {
    let left = left_by(rt, alloc, command, job, first, "", keeper)?;
    compare(rt, &left, status, out.as_bytes(), err.as_bytes(), command);
    Ok(())
}

// The keeper holds image 1, which is the last one.
fn holds_last<R: Abort>(rt: &R, kept: &[Kept]) {
    assert_eq!(rt; kept.len(), 1);
    for one in kept {
        assert_eq!(rt; one.number, 1);
        assert_eq!(rt; one.bytes.as_slice(), LAST);
    }
}

const TALLY: &str = "a\t2\nb\t1\n";

#[test]
fn a_run_keeps_the_image_of_the_formats_page(rt: HostRuntime) -> Result<(), Fail> {
    let alloc = rt.alloc();
    let mut keeper = empty_keeper(alloc, 0)?;
    let lines = "a\nb\na\n";
    leaves(
        &rt,
        alloc,
        "run job",
        COUNT,
        lines,
        &mut keeper,
        0,
        TALLY,
        "",
    )?;
    holds_last(&rt, keeper.images());
    leaves(&rt, alloc, "inspect", COUNT, "", &mut keeper, 0, SHOWN, "")?;
    let told = "keeper holds image 1\n";
    leaves(
        &rt,
        alloc,
        "run job",
        COUNT,
        "c\n",
        &mut keeper,
        8,
        "",
        told,
    )?;
    holds_last(&rt, keeper.images());
    Ok(())
}

// Whether one of the lines of the text is this.
fn has_line(text: &[u8], line: &str) -> bool {
    text.split(|b| *b == b'\n')
        .any(|other| other == line.as_bytes())
}

#[test]
fn each_aggregate_task_has_its_table(rt: HostRuntime) -> Result<(), Fail> {
    let alloc = rt.alloc();
    let mut keeper = empty_keeper(alloc, 0)?;
    let job = "source in\naggregate count 2\n";
    leaves(
        &rt,
        alloc,
        "run job",
        job,
        "a\nb\na\n",
        &mut keeper,
        0,
        TALLY,
        "",
    )?;
    let left = left_by(&rt, alloc, "inspect", job, "", "", &mut keeper)?;
    for line in ["table 0 keys 1", "table 1 keys 1"] {
        assert!(rt; has_line(left.out.bytes(), line), "{line}");
    }
    Ok(())
}

// In each row: which put of the keeper fails, what is then left, and how many images the keeper has.
const PUTS: &[(u64, u8, &str, &str, usize)] = &[
    (0, 0, TALLY, "", 3),
    (1, 5, "", "keeper fault\n", 0),
    (2, 5, "", "keeper fault\n", 1),
    (3, 5, "", "keeper fault\n", 2),
];

#[test]
fn a_put_that_fails_ends_the_run(rt: HostRuntime) -> Result<(), Fail> {
    let alloc = rt.alloc();
    for (failing, status, out, err, images) in PUTS {
        let mut keeper = empty_keeper(alloc, *failing)?;
        let words = "run job --every 2";
        leaves(
            &rt,
            alloc,
            words,
            COUNT,
            "a\nb\na\n",
            &mut keeper,
            *status,
            out,
            err,
        )?;
        assert_eq!(rt; keeper.images().len(), *images, "put {failing} fails");
    }
    Ok(())
}

// The command, the job and its sources; and of each image the sources' offsets and whether they are ended.
const APART: &[(&str, &str, &str, &str, &[([u64; 2], [bool; 2])])] = &[
    ("run job", COUNT, "", "", &[([0, 0], [true, true])]),
    (
        "run job --every 5",
        COUNT,
        "",
        "",
        &[([0, 0], [true, true]), ([0, 0], [true, true])],
    ),
    (
        "run job --every 2 --mode inline",
        TWO,
        "a\nb\nc\nd\n",
        "e\n",
        &[
            ([2, 1], [false, true]),
            ([4, 1], [false, true]),
            ([4, 1], [true, true]),
            ([4, 1], [true, true]),
        ],
    ),
    (
        "run job",
        TWO,
        "a\nb\nc\nd\n",
        "e",
        &[([4, 1], [true, true])],
    ),
];

// The image has this number, these offsets and ended sources, and nothing in flight.
fn is_taken_in_line<R: Abort>(
    rt: &R,
    image: &Image,
    number: u64,
    offsets: &[u64; 2],
    ended: &[bool; 2],
    command: &str,
) {
    assert_eq!(rt; image.number, number, "{command}");
    for (have, want) in image.offsets.as_slice().iter().zip(offsets) {
        assert_eq!(rt; have, want, "{command}");
    }
    for (have, want) in image.ended.as_slice().iter().zip(ended) {
        assert_eq!(rt; have, want, "{command}");
    }
    for bytes in image.saved_in.as_slice() {
        assert_eq!(rt; bytes.as_slice(), b"".as_slice(), "{command}");
    }
    for bytes in image.saved_out.as_slice() {
        assert_eq!(rt; bytes.as_slice(), b"".as_slice(), "{command}");
    }
}

// Each of the images that are kept has its offsets and its ended sources, and the last alone is the last one.
fn are_taken_in_line<R: Abort>(
    rt: &R,
    alloc: Global,
    kept: &[Kept],
    want: &[([u64; 2], [bool; 2])],
    command: &str,
) -> Result<(), Fail> {
    assert_eq!(rt; kept.len(), want.len(), "{command}");
    let mut number: u64 = 0;
    for (one, (offsets, ended)) in kept.iter().zip(want) {
        let Ok(image) = read_image(alloc, one.bytes.as_slice()) else {
            return Err("no image".into());
        };
        number = number.saturating_add(1);
        is_taken_in_line(rt, &image, number, offsets, ended, command);
        assert_eq!(rt; image.final_one, number == kept.len() as u64, "{command}");
    }
    Ok(())
}

#[test]
fn checkpoints_stand_so_many_lines_apart(rt: HostRuntime) -> Result<(), Fail> {
    let alloc = rt.alloc();
    for (command, job, first, second, images) in APART {
        let mut keeper = empty_keeper(alloc, 0)?;
        let left = left_by(&rt, alloc, command, job, first, second, &mut keeper)?;
        assert_eq!(rt; left.status, 0, "{command}");
        are_taken_in_line(&rt, alloc, keeper.images(), images, command)?;
    }
    Ok(())
}
