// What the local pools of a job want, and what each may have.
ghost use Rattle.std.specs.Prelude.{◌≡◌, ◌++◌, ◌+◌, ◌≤◌, ◌^◌, ℕ, All, length, map, replicate, sum, suc, IfOk, OnOk};
ghost use Rattle.flow_defs.specs.Jobs.{IsJob};
ghost use Rattle.local_pool.specs.Shares.{IsWant, needs, share_of};
ghost use Rattle.job_cells.specs.Grants.{gate_want, partition_want, wants_of};
ghost use Rattle.job_cells.specs.Spans.{IsSpan, wants_at, ways_in, ways_out};

use crate::span::{Span, span_of};
use flow_defs::{Job, ListOf};
use local_pool::{Want, share};
use std::alloc::{AllocError, Global};

// How many segments a partition needs beside one for each channel, and how many a gate for each.
const PARTITION_SPARE: u32 = 1;

const GATE_NEED: u32 = 2;

// How many segments are lent beyond two for each channel.
const FLOATING: u32 = 8;

// What the partition of a task with so many channels wants.
fn partition_want(ways: u32) -> Want
    requires { ways ≤ 8 }
    ensures { result ≡ partition_want ways }
{
    Want {
        need: ways + PARTITION_SPARE,
        most: 2 * ways + FLOATING,
    }
}

// What a gate with so many channels wants.
fn gate_want(ways: u32) -> Want
    requires { ways ≤ 8 }
    ensures { result ≡ gate_want ways }
{
    Want {
        need: GATE_NEED * ways,
        most: 2 * ways + FLOATING,
    }
}

// Adds the same want so many times.
fn add_each(wants: &mut ListOf<Want>, many: u32, want: Want) -> Result<(), AllocError>
    ensures { OnOk result (wants.new.items ≡ wants.old.items ++ replicate many want) }
{
    for _added in 0..many {
        wants.push(want)?;
    }
    Ok(())
}

// Adds what the pools at both ends of an edge want.
fn add_wants(wants: &mut ListOf<Want>, span: Span) -> Result<(), AllocError>
    requires { IsSpan span }
    ensures { OnOk result (wants.new.items ≡ wants.old.items ++ wants_at span) }
{
    add_each(wants, span.senders, partition_want(span.ways_out()))?;
    add_each(wants, span.receivers, gate_want(span.ways_in()))
}

/// What all local pools of a job want, in order.
pub fn wants_of(alloc: Global, job: &Job) -> Result<ListOf<Want>, AllocError>
    requires { IsJob job.now }
    ensures { IfOk result (λ wants. wants.items ≡ wants_of job.now) }
{
    let mut wants = ListOf::new(alloc);
    for edge in 0..job.edges() {
        add_wants(&mut wants, span_of(job, edge))?;
    }
    Ok(wants)
}

/// Their shares of so many segments.
pub fn limits_of(alloc: Global, wants: &[Want], total: u32) -> Result<ListOf<u32>, AllocError>
    requires wants { All IsWant wants.now }
    requires enough { needs wants.now ≤ total }
    ensures limits { IfOk result (λ limits. limits.items ≡ map (share_of wants.now total) wants.now) }
    ensures within { IfOk result (λ limits. sum limits.items ≤ total) }
{
    let mut limits = ListOf::new(alloc);
    for _want in wants {
        limits.push(0)?;
    }
    share(wants, total, limits.as_mut_slice());
    Ok(limits)
}
