// Keepers that hold an image, or none, when the program begins.
use crate::tests::{compare, files, front, left_over};
use flow_defs::{Bytes, ListOf};
use outside::{Kept, MemoryKeeper};
use std::alloc::{AllocError, Global};
use std::process::Abort;
use std::sync::Wait;
use std::test::Fail;
use std::thread::Threads;

const JOB: &str = "source in\naggregate count 1\n";

// The last image of a run of this job over `a`, `b` and `a`, 121 bytes.
pub const LAST: &[u8] =
    b"FLWI\x01\0\0\0\0\0\0\0\x01\x01\0\0\0\x1csource in\naggregate count 1\n\0\0\0\0\0\0\0\x03\x01\0\0\0\0\0\0\0\x03\0\0\0\x02\0\0\0\x01a\0\0\0\0\0\0\0\x02\0\0\0\x01b\0\0\0\0\0\0\0\x01\0\0\0\x01\0\0\0\0\0\0\0\0\0\0\0\x03\0\0\0\0\0\0\0\0IWLF";

// What is shown of it.
pub const SHOWN: &str =
    "image 1\nlast yes\nsource 0 offset 3 ended yes\ntask 0 0 emitted 3\ntable 0 keys 2\ntake 1 0 runs 1 records 3\nchannel 0 0 0 in 0 out 0\n";

// A keeper of the image of these bytes under this number, or of none where the number is 0. Its call of this number
// fails, if that is not 0.
fn keeper(
    alloc: Global,
    number: u64,
    bytes: &[u8],
    failing: u64,
) -> Result<MemoryKeeper, AllocError> {
    let mut calls = ListOf::new(alloc);
    if failing > 0 {
        calls.push(failing)?;
    }
    let mut images = ListOf::new(alloc);
    if number == 0 {
        return Ok(MemoryKeeper::new(images, calls, ListOf::new(alloc)));
    }
    let bytes = Bytes::of(alloc, bytes)?;
    images.push(Kept { number, bytes })?;
    Ok(MemoryKeeper::new(images, calls, ListOf::new(alloc)))
}

// The command; what the keeper holds: the number of its image, 0 for none, how many bytes it has, and which of its
// calls fails; and what is then left.
const HELD: &[(&str, u64, usize, u64, u8, &str, &str)] = &[
    ("inspect", 1, 121, 0, 0, SHOWN, ""),
    ("inspect", 0, 121, 0, 8, "", "keeper holds no image\n"),
    ("inspect", 1, 121, 1, 5, "", "keeper fault\n"),
    ("inspect", 1, 121, 2, 0, SHOWN, ""),
    (
        "inspect",
        1,
        120,
        0,
        8,
        "",
        "image 1: not an image at 117\n",
    ),
    ("inspect", 1, 4, 0, 8, "", "image 1: not an image at 4\n"),
    ("inspect", 2, 121, 0, 8, "", "image 2: not an image at 5\n"),
    ("run job", 1, 121, 0, 8, "", "keeper holds image 1\n"),
    ("run job", 7, 4, 0, 8, "", "keeper holds image 7\n"),
    ("run job", 0, 121, 1, 5, "", "keeper fault\n"),
    ("run job", 0, 121, 2, 0, "a\t2\nb\t1\n", ""),
    (
        "run job --pool 3",
        1,
        121,
        0,
        10,
        "",
        "pool has 3, needs 4\n",
    ),
    ("gen 1 0", 1, 121, 1, 0, "w807 w25\n", ""),
];

// Does a command over a job, three lines and this keeper, and compares what it leaves. A tally leaves an image more.
fn leaves<R: Threads + Wait + Sync + Abort>(
    rt: &R,
    alloc: Global,
    command: &str,
    mut keeper: MemoryKeeper,
    status: u8,
    out: &str,
    err: &str,
) -> Result<(), AllocError> {
    let more = if out.starts_with("a\t") { 1 } else { 0 };
    let images = keeper.images().len().saturating_add(more);
    let files = files(alloc, JOB, b"a\nb\na\n", "", 9, 0)?;
    let left = left_over(rt, alloc, command, files, &mut keeper, 1000, 100)?;
    compare(rt, &left, status, out.as_bytes(), err.as_bytes(), command);
    assert_eq!(rt; keeper.images().len(), images, "{command}");
    Ok(())
}

#[test]
fn what_the_keeper_holds_is_shown_or_refused(rt: HostRuntime) -> Result<(), Fail> {
    let alloc = rt.alloc();
    for (command, number, most, failing, status, out, err) in HELD {
        let keeper = keeper(alloc, *number, front(LAST, *most), *failing)?;
        leaves(&rt, alloc, command, keeper, *status, out, err)?;
    }
    Ok(())
}
