// The tables of a job's last image, joined.
ghost use Rattle.std.specs.Prelude.{◌≡◌, IfErr, IfOk, IsSome, OnOk};
ghost use Rattle.flow_defs.specs.declared.cause.Cause.TheVariants.{Done};
ghost use Rattle.flow_defs.specs.Tables.{join};
ghost use Rattle.job_run.specs.Runs.{IsFaultOf, IsTableOf};

use flow_defs::{AggKind, Cause, Image, Job, Table};
use job_plan::{fold_rows, lend_rows};
use std::alloc::{AllocError, Global};

// These tables joined. Their rows are lent.
fn join_tables(alloc: Global, agg: AggKind, tables: &[Table]) -> Result<Table, AllocError>
    ensures { IfOk result (λ table. table ≡ join agg tables.now) }
{
    let mut rows = Vec::new(alloc);
    for table in tables {
        lend_rows(table.rows(), &mut rows)?;
    }
    fold_rows(alloc, agg, rows.as_mut_slice())
}

/// What a run answers whose workers ended with this cause: where they are done, the tables of the last image,
/// joined.
pub fn answer_of(
    alloc: Global,
    job: &Job,
    cause: Cause,
    last: Option<Image>,
) -> Result<Table, Cause>
    requires { cause ≡ Done → IsSome last }
    ensures done { OnOk result (cause ≡ Done) }
    ensures table { IfOk result (λ table. IsTableOf job.now last table) }
    ensures fault { IfErr result (λ fault. IsFaultOf cause fault) }
{
    match cause {
        Cause::Done => {
            let Some(image) = last else { unreachable!() };
            match join_tables(alloc, job.agg, image.tables.as_slice()) {
                Ok(table) => Ok(table),
                Err(_) => Err(Cause::Memory),
            }
        }
        fault => Err(fault),
    }
}
