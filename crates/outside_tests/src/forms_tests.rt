// The forms in memory at the calls that are to fail, and the real ones once each.
ghost use Rattle.std.specs.Prelude.{◌≡◌, IfOk};

use flow_defs::{Bytes, ListOf, Word};
use outside::{
    DirFiles, Failed, Files, FindFault, MemoryFile, MemoryFiles, MemorySink, MemorySource, Sink,
    Source, StdSink,
};
use std::alloc::{AllocError, Global};
use std::process::Abort;
use std::test::Fail;

pub(crate) fn numbers(alloc: Global, items: &[u64]) -> Result<ListOf<u64>, AllocError>
    ensures { IfOk result (λ list. list.items ≡ items.now) }
{
    let mut list = ListOf::new(alloc);
    list.extend(items)?;
    Ok(list)
}

fn bytes(alloc: Global, text: &str) -> Result<Bytes, AllocError> {
    let mut copy = Bytes::new(alloc);
    copy.extend(text.as_bytes())?;
    Ok(copy)
}

// In each row: what a read answers, and what stands in the room then.
const READS: &[(Result<usize, Failed>, [u8; 4])] = &[
    (Ok(2), *b"ab--"),
    (Ok(2), *b"cd--"),
    (Err(Failed), *b"cd--"),
    (Ok(1), *b"ed--"),
    (Ok(0), *b"ed--"),
];

#[test]
fn a_memory_source_gives_its_bytes_in_small_pieces(rt: HostRuntime) -> Result<(), Fail> {
    let alloc = rt.alloc();
    let mut source = MemorySource::new(bytes(alloc, "abcde")?, 2, numbers(alloc, &[3])?);
    let mut room = [b'-'; 4];
    for (count, front) in READS {
        assert_eq!(rt; source.read(&mut room), *count);
        assert_eq!(rt; room, *front);
    }
    Ok(())
}

// In each row: what a write answers, and what the sink has got then.
const WRITES: &[(Result<usize, Failed>, &str)] = &[
    (Ok(3), "abc"),
    (Err(Failed), "abc"),
    (Ok(2), "abcab"),
    (Ok(0), "abcab"),
];

#[test]
fn a_memory_sink_takes_what_fits(rt: HostRuntime) -> Result<(), Fail> {
    let alloc = rt.alloc();
    let mut sink = MemorySink::new(alloc, 5, numbers(alloc, &[2])?, Some(5))?;
    for (count, got) in WRITES {
        assert_eq!(rt; sink.write(b"abc"), *count);
        assert_eq!(rt; sink.bytes(), got.as_bytes());
    }
    Ok(())
}

#[test]
fn a_memory_sink_stops_at_the_call_that_is_told(rt: HostRuntime) -> Result<(), Fail> {
    let alloc = rt.alloc();
    let mut stopped = MemorySink::new(alloc, 9, numbers(alloc, &[])?, Some(2))?;
    assert_eq!(rt; stopped.write(b"abc"), Ok(3));
    assert_eq!(rt; stopped.write(b"abc"), Ok(0));
    Ok(())
}

// A file of the bytes `ab` under the name `in`.
fn one_file(alloc: Global) -> Result<MemoryFile, AllocError>
    ensures { IfOk result (λ file. file.most ≡ 9) }
{
    Ok(MemoryFile {
        name: Word::of(alloc, "in")?,
        bytes: bytes(alloc, "ab")?,
        most: 9,
        fails: numbers(alloc, &[2])?,
    })
}

// Finds the file, whose second read answers this, and gives it back.
fn read_and_give_back<R: Abort, F: Files>(
    rt: &R,
    alloc: Global,
    files: &mut F,
    second: Result<usize, Failed>,
) -> Result<(), FindFault>
where
    F::Input: Drop,
{
    let mut input = files.find(alloc, "in")?;
    let mut room = [0; 4];
    assert_eq!(rt; input.read(&mut room), Ok(2));
    assert_eq!(rt; room, [b'a', b'b', 0, 0]);
    assert_eq!(rt; input.read(&mut room), second);
    files.back(input);
    Ok(())
}

// There is no file under another name.
fn finds_no_other<R: Abort, F: Files>(rt: &R, alloc: Global, files: &mut F)
where
    F::Input: Drop,
{
    match files.find(alloc, "missing") {
        Ok(_) => panic!(rt; "a file that is not there"),
        Err(fault) => assert_eq!(rt; fault, FindFault::Failed),
    }
}

// Files in memory, which are this one, and whose second find fails.
fn files_of_one(alloc: Global) -> Result<MemoryFiles, AllocError> {
    let mut list = ListOf::new(alloc);
    list.push(one_file(alloc)?)?;
    Ok(MemoryFiles::new(list, numbers(alloc, &[2])?))
}

#[test]
fn memory_files_give_copies(rt: HostRuntime) -> Result<(), Fail> {
    let alloc = rt.alloc();
    let mut files = files_of_one(alloc)?;
    for found in [Ok(()), Err(FindFault::Failed), Ok(())] {
        let answer = read_and_give_back(&rt, alloc, &mut files, Err(Failed));
        assert_eq!(rt; answer, found);
    }
    finds_no_other(&rt, alloc, &mut files);
    Ok(())
}

#[test]
fn dir_files_read_what_was_written(rt: HostRuntime) -> Result<(), Fail> {
    let alloc = rt.alloc();
    std::fs::write(&rt, "in", b"ab")?;
    let mut files = DirFiles::new(&rt);
    assert_eq!(rt; read_and_give_back(&rt, alloc, &mut files, Ok(0)), Ok(()));
    finds_no_other(&rt, alloc, &mut files);
    std::fs::remove_file(&rt, "in")?;
    Ok(())
}

#[test]
fn the_std_sink_takes_bytes(rt: HostRuntime) -> Result<(), Fail> {
    let mut sink = StdSink::new(&rt);
    assert_eq!(rt; sink.write(b".\n"), Ok(2));
    Ok(())
}
