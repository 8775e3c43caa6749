// Opens the edges of a job.
ghost use Rattle.std.specs.Prelude.{◌≡◌, ◌<◌, ◌≤◌, suc, length, IfOk};
ghost use Rattle.flow_defs.specs.Jobs.{IsJob, last_edge, segments_needed};
ghost use Rattle.segment_pool.specs.Pools.{size_of, total_of};
ghost use Rattle.segment_pool.specs.Stocks.{IsTotal, IsSize};
ghost use Rattle.job_cells.specs.Edges.{AreEdgesOf, AreAllPassesOf};
ghost use Rattle.local_pool.specs.Shares.{dealt};
ghost use Rattle.job_cells.specs.Grants.{AreGrantsOf, wants_of};
ghost use Rattle.job_cells.specs.Networks.{IsNetworkOf};

use crate::edge::{Edge, EdgePasses};
use crate::lender::Lender;
use crate::parts::{edge_of, parts_of};
use crate::pools::{limits_of, wants_of};
use crate::span::span_of;
use flow_defs::{Job, ListOf, needed};
use local_pool::Want;
use segment_pool::{Pool, PoolPass};
use std::alloc::{AllocError, Global};
use std::sync::Wait;

/// What the local pools of a job's tasks may have of the global pool, edge by edge: first the partitions of
/// the sending tasks, then the gates of the receiving tasks.
#[derive(Drop)]
pub struct Grants {
    pub passes: ListOf<PoolPass>,
    pub wants: ListOf<Want>,
    pub limits: ListOf<u32>,
}

/// The network memory of a run: the global pool of segments, and what the local pools may have of it.
#[derive(Drop)]
pub struct Network {
    pub pool: Pool,
    pub grants: Grants,
}

// How many segments are opened for each that is needed: more are never lent.
const OPENED: u32 = 6;

// How many segments are opened for a job that may have so many. Each local pool has its share of all.
fn opened(job: &Job, segments: u32) -> u32
    requires is_job { IsJob job.now }
    requires range { IsTotal segments × (segments_needed job.now ≤ segments) }
    ensures range { IsTotal result × (segments_needed job.now ≤ result) }
    ensures within { result ≤ segments }
    ensures dealt { dealt (wants_of job.now) result ≡ dealt (wants_of job.now) segments }
{
    let most = OPENED * needed(job);
    segments.min(most.max(1))
}

/// The network memory of a job that may have `segments` segments of `size` bytes. Of these at most six for
/// each that the job needs are opened; more are never lent.
///
/// A partition of s channels needs s + 1 segments and takes at most 2 s + 8; a gate of g channels needs 2 g
/// and takes at most 2 g + 8. Beyond the needs the segments are shared in proportion to what each may still
/// take.
pub fn open_network(
    alloc: Global,
    job: &Job,
    segments: u32,
    size: u32,
) -> Result<Network, AllocError>
    requires is_job { IsJob job.now }
    requires range { IsTotal segments × IsSize size }
    requires enough { segments_needed job.now ≤ segments }
    ensures { IfOk result (IsNetworkOf job.now segments size) }
{
    let (pool, grants) = open_pool(alloc, job, opened(job, segments), size)?;
    Ok(Network { pool, grants })
}

// A pool of so many segments for the tasks of a job, and what each of them may have of it.
fn open_pool(alloc: Global, job: &Job, total: u32, size: u32) -> Result<(Pool, Grants), AllocError>
    requires is_job { IsJob job.now }
    requires range { IsTotal total × IsSize size }
    requires enough { segments_needed job.now ≤ total }
    ensures terms { IfOk result (λ r. (total_of r.0 ≡ total) × (size_of r.0 ≡ size)) }
    ensures grants { IfOk result (λ r. AreGrantsOf job.now r.0 r.1) }
{
    let wants = wants_of(alloc, job)?;
    let limits = limits_of(alloc, wants.as_slice(), total)?;
    let (pool, passes) = Pool::new_limited(alloc, total, size, limits.as_slice())?;
    Ok((
        pool,
        Grants {
            passes,
            wants,
            limits,
        },
    ))
}

/// The cells of all edges of a job, and their passes.
pub fn open_edges<'p, R: Wait>(
    rt: &R,
    alloc: Global,
    job: &Job,
    pool: &'p Pool,
    grants: Grants,
) -> Result<(ListOf<Edge<'p>>, ListOf<EdgePasses<'p>>), AllocError>
    requires is_job { IsJob job.now }
    requires grants { AreGrantsOf job.now pool.now grants }
    ensures edges { IfOk result (λ r. AreEdgesOf job.now (size_of pool.now) r.0.items) }
    ensures passes { IfOk result (λ r. AreAllPassesOf job.now r.0.items r.1.items) }
{
    let mut lender = Lender::new(grants);
    let mut edges = ListOf::new(alloc);
    let mut all = ListOf::new(alloc);
    for e in 0..job.edges() {
        let parts = parts_of(rt, alloc, pool, span_of(job, e), &mut lender)?;
        let (edge, passes) = edge_of(parts);
        edges.push(edge)?;
        all.push(passes)?;
    }
    Ok((edges, all))
}
