// The pool and the cells of a small job.
ghost use Rattle.std.specs.Prelude.{◌≡◌, IfOk};
ghost use Rattle.flow_defs.specs.Jobs.{IsJob};

use fixtures::counting_job;
use flow_defs::{AggKind, Bytes, Exchange, Job, ListOf, Stage, StageKind, needed};
use job_cells::{Network, open_edges, open_network};
use std::alloc::{AllocError, Global};
use std::process::Abort;
use std::test::Fail;

// A stage of two tasks.
fn stage_of(
    alloc: Global,
    kind: StageKind,
    arg: &[u8],
    exchange: Exchange,
) -> Result<Stage, AllocError>
    ensures kind { IfOk result (λ stage. stage.kind ≡ kind) }
    ensures arg { IfOk result (λ stage. stage.arg.items ≡ arg.now) }
    ensures tasks { IfOk result (λ stage. stage.tasks ≡ 2) }
{
    let arg = Bytes::of(alloc, arg)?;
    Ok(Stage {
        kind,
        arg,
        tasks: 2,
        exchange,
    })
}

// Two sources, `keep:GET 2` by this exchange, `field:2 2` by hash, and two tasks that count.
fn job_of(alloc: Global, exchange: Exchange) -> Result<Job, AllocError>
    ensures { IfOk result (λ job. IsJob job) }
{
    let mut sources = ListOf::new(alloc);
    sources.push(Bytes::of(alloc, b"a")?)?;
    sources.push(Bytes::of(alloc, b"b")?)?;
    let mut stages = ListOf::new(alloc);
    let keep = stage_of(alloc, StageKind::Keep, b"GET", exchange)?;
    stages.push(keep)?;
    let field = stage_of(alloc, StageKind::Field, b"2", Exchange::Hash)?;
    stages.push(field)?;
    Ok(Job {
        sources,
        stages,
        agg: AggKind::Count,
        agg_tasks: 2,
        text: Bytes::new(alloc),
    })
}

#[test]
fn a_pool_of_what_is_needed_opens(rt: HostRuntime) -> Result<(), Fail> {
    let alloc = rt.alloc();
    let job = job_of(alloc, Exchange::Rebalance)?;
    let segments = needed(&job);
    assert_eq!(rt; segments, 42);
    let Network { pool, grants } = open_network(alloc, &job, segments, 64)?;
    assert_eq!(rt; pool.size(), 64);
    // Two partitions and two gates on each of three edges.
    assert_eq!(rt; grants.passes.as_slice().len(), 12);
    Ok(())
}

// What each local pool of a job may have of so many segments, edge by edge.
fn limits_of<R: Abort>(
    rt: &R,
    alloc: Global,
    job: &Job,
    segments: u32,
) -> Result<ListOf<u32>, AllocError>
    requires { IsJob job.now }
{
    assert!(rt; segments >= needed(job) && segments > 0 && segments <= 16_384);
    let Network { grants, .. } = open_network(alloc, job, segments, 64)?;
    Ok(grants.limits)
}

// With so many segments, the limits of a partition and of a gate on the first edge, and on the two others.
// Each needs some, and has a part of what is left in the proportion of what it may still take.
const LIMITS: [(Exchange, u32, [u32; 2], [u32; 2]); 8] = [
    (Exchange::Rebalance, 42, [3, 4], [3, 4]),
    (Exchange::Rebalance, 93, [7, 8], [7, 8]),
    (Exchange::Rebalance, 143, [11, 11], [11, 11]),
    (Exchange::Rebalance, 144, [12, 12], [12, 12]),
    (Exchange::Rebalance, 16_384, [12, 12], [12, 12]),
    (Exchange::Forward, 36, [2, 2], [3, 4]),
    (Exchange::Forward, 61, [4, 4], [5, 6]),
    (Exchange::Forward, 136, [10, 10], [12, 12]),
];

#[test]
fn local_pools_share_what_is_left(rt: HostRuntime) -> Result<(), Fail> {
    let alloc = rt.alloc();
    for (exchange, segments, [a, b], [c, d]) in LIMITS {
        let job = job_of(alloc, exchange)?;
        let limits = limits_of(&rt, alloc, &job, segments)?;
        assert_eq!(rt;
            limits.as_slice(),
            [a, a, b, b, c, c, d, d, c, c, d, d].as_slice()
        );
    }
    for (segments, limits) in [(4, [2, 2]), (13, [6, 6]), (20, [10, 10])] {
        let job = counting_job(alloc)?;
        assert_eq!(rt;
            limits_of(&rt, alloc, &job, segments)?.as_slice(),
            limits.as_slice()
        );
    }
    Ok(())
}

#[test]
fn an_edge_has_a_pass_for_each_channel(rt: HostRuntime) -> Result<(), Fail> {
    let alloc = rt.alloc();
    for (exchange, segments, channels, ways) in [
        (Exchange::Rebalance, 42, 4, 2),
        (Exchange::Forward, 36, 2, 1),
    ] {
        let job = job_of(alloc, exchange)?;
        let total = needed(&job);
        assert_eq!(rt; total, segments);
        assert!(rt; total > 0 && total < 100);
        let Network { pool, grants } = open_network(alloc, &job, total, 64)?;
        let (edges, all) = open_edges(&rt, alloc, &job, &pool, grants)?;
        let edge = edges.as_slice().first().ok_or("there is no edge")?;
        assert_eq!(rt; edge.channels.as_slice().len(), channels);
        let passes = all.as_slice().first().ok_or("there are no passes")?;
        assert_eq!(rt; passes.senders.as_slice().len(), 2);
        for own in passes.senders.as_slice() {
            assert_eq!(rt; own.as_slice().len(), ways);
        }
        assert_eq!(rt; passes.gates.as_slice().len(), 2);
        for own in passes.gates.as_slice() {
            assert_eq!(rt; own.as_slice().len(), ways);
        }
        assert_eq!(rt; passes.takers.as_slice().len(), channels);
        assert_eq!(rt; passes.tellers.as_slice().len(), channels);
    }
    Ok(())
}
