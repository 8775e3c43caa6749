// The job of two sources that two tests share.
ghost use Rattle.std.specs.Prelude.{◌≡◌, [], IfOk};
ghost use Rattle.flow_defs.specs.declared.job.AggKind.TheVariants.{Count};
ghost use Rattle.flow_defs.specs.Jobs.{IsJob, tasks};

use flow_defs::{AggKind, Bytes, Job, ListOf};
use std::alloc::{AllocError, Global};

// A job of two sources and one task of the aggregate.
pub fn counting_job(alloc: Global) -> Result<Job, AllocError>
    ensures { IfOk result (λ job. IsJob job × (job.stages.items ≡ []) × (job.agg ≡ Count) × (tasks job 0 ≡ 2) × (tasks job 1 ≡ 1)) }
{
    let mut sources = ListOf::new(alloc);
    sources.push(Bytes::new(alloc))?;
    sources.push(Bytes::new(alloc))?;
    Ok(Job {
        sources,
        stages: ListOf::new(alloc),
        agg: AggKind::Count,
        agg_tasks: 1,
        text: Bytes::new(alloc),
    })
}
