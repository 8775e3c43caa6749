// Checkpoints of a job with one source and one task that counts.
ghost use Rattle.std.specs.Prelude.{◌≡◌, None, [], false, IfOk, IfSome};
ghost use Rattle.std.specs.List.{AllByRecursion};
ghost use Rattle.flow_defs.specs.Jobs.{tasks};
ghost use Rattle.collector.specs.Pieces.{IsInto, IsOutOf};
ghost use Rattle.collector.specs.Fitting.{FitsTask};
ghost use Rattle.collector.specs.Collecting.{IsCollector};

use collector::Collector;
use fixtures::counting_job;
use flow_defs::{Bytes, ChannelId, Image, Job, ListOf, Saved, Snapshot, Table, TakeRun, TaskId};
use std::alloc::{AllocError, Global};
use std::test::Fail;

// A saved piece of the only channel.
fn piece(alloc: Global, job: &Job, bytes: &[u8]) -> Result<ListOf<Saved>, AllocError>
    requires stages { job.now.stages.items ≡ [] }
    requires tasks { (tasks job.now 0 ≡ 1) × (tasks job.now 1 ≡ 1) }
    ensures into { IfOk result (λ pieces. AllByRecursion (IsInto job.now 1 0) pieces.items) }
    ensures out_of { IfOk result (λ pieces. AllByRecursion (IsOutOf job.now 0 0) pieces.items) }
{
    let _ = job;
    let channel = ChannelId {
        edge: 0,
        from: 0,
        to: 0,
    };
    let bytes = Bytes::of(alloc, bytes)?;
    let mut pieces = ListOf::new(alloc);
    pieces.push(Saved { channel, bytes })?;
    Ok(pieces)
}

// What the source tells, with the first part of a record that its barrier overtook.
fn of_source(alloc: Global, job: &Job, number: u64) -> Result<Snapshot, AllocError>
    requires stages { job.now.stages.items ≡ [] }
    requires tasks { (tasks job.now 0 ≡ 1) × (tasks job.now 1 ≡ 1) }
    ensures number { IfOk result (λ told. told.number ≡ number) }
    ensures task { IfOk result (λ told. (told.task.stage ≡ 0) × (told.task.index ≡ 0)) }
    ensures fits { IfOk result (FitsTask job.now false) }
{
    Ok(Snapshot {
        task: TaskId { stage: 0, index: 0 },
        number,
        offset: 3,
        ended: true,
        emitted: 4,
        table: Table::new(alloc),
        takes: ListOf::new(alloc),
        saved_in: ListOf::new(alloc),
        saved_out: piece(alloc, job, b"a")?,
    })
}

// What the counting task tells.
fn of_count(alloc: Global, job: &Job, number: u64) -> Result<Snapshot, AllocError>
    requires stages { job.now.stages.items ≡ [] }
    requires tasks { (tasks job.now 0 ≡ 1) × (tasks job.now 1 ≡ 1) }
    ensures number { IfOk result (λ told. told.number ≡ number) }
    ensures task { IfOk result (λ told. (told.task.stage ≡ 1) × (told.task.index ≡ 0)) }
    ensures fits { IfOk result (FitsTask job.now false) }
{
    let mut takes = ListOf::new(alloc);
    takes.push(TakeRun { from: 0, count: 2 })?;
    Ok(Snapshot {
        task: TaskId { stage: 1, index: 0 },
        number,
        offset: 0,
        ended: false,
        emitted: 0,
        table: Table::new(alloc),
        takes,
        saved_in: piece(alloc, job, &[0, 0, 0, 1])?,
        saved_out: ListOf::new(alloc),
    })
}

// Takes both snapshots of a checkpoint.
fn collect(
    alloc: Global,
    job: &Job,
    collector: &mut Collector,
    number: u64,
) -> Result<Option<Image>, AllocError>
    requires stages { job.now.stages.items ≡ [] }
    requires tasks { (tasks job.now 0 ≡ 1) × (tasks job.now 1 ≡ 1) }
    requires job { collector.old.job.now ≡ job.now }
    requires collector { IsCollector collector.old }
    requires closed { collector.old.opened ≡ None }
    ensures job { collector.new.job ≡ collector.old.job }
    ensures collector { IsCollector collector.new }
    ensures closed { IfOk result (λ image. IfSome image (λ _. collector.new.opened ≡ None)) }
{
    let first = of_source(alloc, job, number)?;
    let second = of_count(alloc, job, number)?;
    collector.begin(number, false);
    match collector.ack(alloc, first) {
        Ok(None) => {}
        Ok(Some(_)) => return Ok(None),
        Err(_) => return Err(AllocError),
    }
    match collector.ack(alloc, second) {
        Ok(image) => Ok(image),
        Err(_) => Err(AllocError),
    }
}

#[test]
fn the_image_comes_with_the_last_snapshot(rt: HostRuntime) -> Result<(), Fail> {
    let alloc = rt.alloc();
    let job = counting_job(alloc)?;
    let mut collector = Collector::new(alloc, &job)?;
    let image = collect(alloc, &job, &mut collector, 7)?.ok_or("there is no image")?;
    assert_eq!(rt; image.number, 7);
    assert!(rt; !image.final_one);
    assert_eq!(rt;
        image.text.as_slice(),
        b"source in\naggregate count 1\n".as_slice()
    );
    assert_eq!(rt; image.offsets.as_slice(), [3].as_slice());
    assert_eq!(rt; image.ended.as_slice(), [true].as_slice());
    assert_eq!(rt; image.emitted.as_slice(), [4].as_slice());
    assert_eq!(rt; image.tables.as_slice().len(), 1);
    let takes = image.takes.as_slice().first().ok_or("no takes")?;
    assert_eq!(rt;
        takes.as_slice(),
        [TakeRun { from: 0, count: 2 }].as_slice()
    );
    let saved_in = image.saved_in.as_slice().first().ok_or("nothing came in")?;
    assert_eq!(rt; saved_in.as_slice(), [0, 0, 0, 1].as_slice());
    let saved_out = image
        .saved_out
        .as_slice()
        .first()
        .ok_or("nothing went out")?;
    assert_eq!(rt; saved_out.as_slice(), b"a".as_slice());
    Ok(())
}
