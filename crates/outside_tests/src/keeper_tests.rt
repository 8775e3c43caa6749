// A keeper in memory at the calls that are to fail, and turns of the cell with the last image.
ghost use Rattle.std.specs.Prelude.{◌≡◌, ◌<◌, ℕ, IfOk};
ghost use Rattle.turn_cell.specs.Passes.{IsPassOf, number};
ghost use Rattle.outside.specs.Keepers.{IsAboveLast};

use crate::forms_tests::numbers;
use fixtures::open_last_image;
use flow_defs::{Bytes, ListOf};
use outside::{
    KeepFault, Keeper, Kept, LastImage, MemoryKeeper, Stored, look_for_stored, tell_stored,
};
use std::alloc::{AllocError, Global};
use std::process::Abort;
use std::sync::Wait;
use std::test::Fail;
use turn_cell::{Pass, TurnCell};

// A keeper of these two images, of which these calls fail.
fn keeper_of_two(alloc: Global, lasts: &[u64], puts: &[u64]) -> Result<MemoryKeeper, AllocError> {
    let mut images = ListOf::new(alloc);
    images.push(Kept {
        number: 3,
        bytes: Bytes::of(alloc, b"ab")?,
    })?;
    images.push(Kept {
        number: 7,
        bytes: Bytes::of(alloc, b"cd")?,
    })?;
    let lasts = numbers(alloc, lasts)?;
    let puts = numbers(alloc, puts)?;
    Ok(MemoryKeeper::new(images, lasts, puts))
}

// Puts these bytes under the number behind the last one, whether or not the keeper tells its images.
fn put_behind<K: Keeper>(alloc: Global, keeper: &mut K, bytes: &[u8]) -> Result<u64, KeepFault>
    ensures { IfOk result (λ number. (more : ℕ) → number < more → IsAboveLast (K.images keeper.new) more) }
{
    let before = match keeper.last(alloc)? {
        Some(kept) => kept.number,
        None => 0,
    };
    let Some(number) = before.checked_add(1) else {
        return Err(KeepFault::Failed);
    };
    keeper.put(alloc, number, bytes)?;
    Ok(number)
}

// Puts these bytes twice, and looks for the last image only once.
fn put_twice<K: Keeper>(alloc: Global, keeper: &mut K, bytes: &[u8]) -> Result<u64, KeepFault> {
    let first = put_behind(alloc, keeper, bytes)?;
    let Some(number) = first.checked_add(1) else {
        return Err(KeepFault::Failed);
    };
    keeper.put(alloc, number, bytes)?;
    Ok(number)
}

// In each row: what a put answers, and how many images the keeper has then.
const PUTS: &[(Result<u64, KeepFault>, usize)] = &[
    (Err(KeepFault::Failed), 2),
    (Err(KeepFault::Failed), 2),
    (Ok(8), 3),
    (Err(KeepFault::Failed), 3),
    (Ok(9), 4),
];

#[test]
fn a_memory_keeper_fails_at_the_calls_that_are_told(rt: HostRuntime) -> Result<(), Fail> {
    let alloc = rt.alloc();
    let mut keeper = keeper_of_two(alloc, &[2], &[1, 3])?;
    for (put, kept) in PUTS {
        assert_eq!(rt; put_behind(alloc, &mut keeper, b"ef"), *put);
        assert_eq!(rt; keeper.images().len(), *kept);
    }
    Ok(())
}

// The keeper's last image is this one.
fn gives_last<R: Abort>(
    rt: &R,
    alloc: Global,
    keeper: &mut MemoryKeeper,
    number: u64,
    bytes: &[u8],
) {
    match keeper.last(alloc) {
        Ok(Some(kept)) => {
            assert_eq!(rt; kept.number, number);
            assert_eq!(rt; kept.bytes.as_slice(), bytes);
        }
        _ => panic!(rt; "an image is kept"),
    }
}

// In each row: the last image's number and bytes, and the number of the second image that is put behind it.
const LASTS: &[(u64, &[u8], u64)] = &[(7, b"cd", 9), (9, b"ef", 11), (11, b"ef", 13)];

#[test]
fn a_memory_keeper_gives_its_last_image(rt: HostRuntime) -> Result<(), Fail> {
    let alloc = rt.alloc();
    let mut keeper = keeper_of_two(alloc, &[], &[])?;
    for (number, bytes, second) in LASTS {
        gives_last(&rt, alloc, &mut keeper, *number, bytes);
        assert_eq!(rt; put_twice(alloc, &mut keeper, b"ef"), Ok(*second));
    }
    Ok(())
}

// A keeper that holds nothing, and no call of which fails.
fn no_images(alloc: Global) -> MemoryKeeper {
    MemoryKeeper::new(ListOf::new(alloc), ListOf::new(alloc), ListOf::new(alloc))
}

fn gives_none(alloc: Global, keeper: &mut MemoryKeeper) -> bool {
    matches!(keeper.last(alloc), Ok(None))
}

#[test]
fn an_empty_memory_keeper_gives_none(rt: HostRuntime) -> Result<(), Fail> {
    let alloc = rt.alloc();
    let mut keeper = no_images(alloc);
    assert!(rt; gives_none(alloc, &mut keeper));
    assert_eq!(rt; put_behind(alloc, &mut keeper, b""), Ok(1));
    assert_eq!(rt; keeper.images().len(), 1);
    Ok(())
}

// The cell, the pass of the collecting worker, and that of another worker.
#[derive(Drop)]
struct Workers {
    cell: TurnCell<LastImage>,
    collecting: Pass<LastImage>,
    reading: Pass<LastImage>,
    ghost own: { IsPassOf cell collecting × IsPassOf cell reading },
    ghost collector: { number collecting ≡ 0 },
}

fn new_workers(alloc: Global) -> Result<Workers, AllocError> {
    let (cell, collecting, reading) = open_last_image(alloc)?;
    Ok(Workers {
        cell,
        collecting,
        reading,
    })
}

// What the other worker sees before and after this image is stored.
fn look_twice<R: Wait>(
    rt: &R,
    workers: &mut Workers,
    stored: Stored,
) -> (Option<Stored>, Option<Stored>) {
    let before = look_for_stored(rt, &workers.cell, &mut workers.reading);
    tell_stored(rt, &workers.cell, &mut workers.collecting, stored);
    let after = look_for_stored(rt, &workers.cell, &mut workers.reading);
    (before, after)
}

#[test]
fn workers_see_the_last_stored_image(rt: HostRuntime) -> Result<(), Fail> {
    let alloc = rt.alloc();
    let mut workers = new_workers(alloc)?;
    let mut last = None;
    for (number, all_ended) in [(1, false), (2, false), (3, true)] {
        let stored = Stored { number, all_ended };
        let seen = look_twice(&rt, &mut workers, stored);
        assert_eq!(rt; seen, (last, Some(stored)));
        last = Some(stored);
    }
    Ok(())
}
