// Workers that double numbers, in places of their own.
ghost use Rattle.std.specs.Prelude.{◌≡◌, ◌*◌, ◌<◌, ◌^◌};

use fixtures::counting_job;
use flow_defs::{AggKind, Job, ListOf};
use job_workers::{Place, Worker, run_rows};
use stage_fns::{AggFn, FnTable, count};
use std::process::Abort;
use std::sync::Wait;
use std::test::Fail;

// Doubles a number.
#[derive(Clone, Copy, Drop)]
struct Doubler {
    number: u32,
}

impl Worker for Doubler {
    type Left = u32;

    ghost may_run = { λ _ d. d.number < 2 ^ 31 };

    ghost leaves = { λ _ d left. left ≡ 2 * d.number };

    fn run<R: Wait>(self, _rt: &R, _job: &Job, _functions: &FnTable) -> u32 {
        2 * self.number
    }
}

// The worker of a place left this.
fn look<R: Abort>(rt: &R, place: &Place<Doubler, u32>, due: u32) {
    match place {
        Place::Ended(left) => assert_eq!(rt; *left, due),
        _ => panic!(rt; "a worker did not run"),
    }
}

#[test]
fn a_row_has_what_its_worker_left(rt: HostRuntime) -> Result<(), Fail> {
    let alloc = rt.alloc();
    let job = counting_job(alloc)?;
    let mut functions = FnTable::new(alloc);
    let f: AggFn = Box::new(alloc, |record: &[u8], old: u64| count(record, old))?;
    functions.add_agg(AggKind::Count, f)?;
    let mut row = ListOf::new(alloc);
    row.push(Place::Todo(Doubler { number: 21 }))?;
    let mut rows = [row];
    run_rows(&rt, &job, &functions, &mut rows);
    let Some(place) = rows[0].as_slice().first() else {
        panic!(&rt; "a row lost its place")
    };
    look(&rt, place, 42);
    Ok(())
}
