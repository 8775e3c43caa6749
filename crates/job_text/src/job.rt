// Reads the text of a job.
ghost use Rattle.std.specs.Prelude.{◌≡◌, ◌↔◌, ℕ, Some, None, Err, IfOk, IfErr, OnOk};
ghost use Rattle.flow_defs.specs.declared.job.Job.{Job};
ghost use Rattle.job_text.specs.declared.fault.JobFault.{JobFault};
ghost use Rattle.stage_fns.specs.Kinds.{kinds};
ghost use Rattle.job_text.specs.KnownKinds.{every_kind, known};
ghost use Rattle.job_text.specs.JobText.{IsJobText};
ghost use Rattle.job_text.specs.JobFaults.{first_fault};
ghost use Rattle.job_text.specs.Reading.{IsTold};

use crate::JobReadFault;
use crate::known::Known;
use crate::lines::{JobLines, Line};
use flow_defs::{Bytes, Job, ListOf, Stage};
use stage_fns::FnTable;
use std::alloc::Global;

/// Reads the job whose text this is. The last line may lack its newline.
///
/// The text is checked before memory is taken, so a fault is told however little memory there is.
pub fn read_job(alloc: Global, bytes: &[u8], functions: &FnTable) -> Result<Job, JobReadFault>
    ensures job { IfOk result (λ job. IsJobText (kinds functions.now) bytes.now job) }
    ensures line { (line : ℕ) (kind : JobFault) → (result ≡ Err (JobReadFault.Line line kind))
        ↔ (first_fault (kinds functions.now) bytes.now ≡ Some (line, kind)) }

    // No text of a job is refused.
    ensures accepted { (job : Job) → IsJobText (kinds functions.now) bytes.now job →
        first_fault (kinds functions.now) bytes.now ≡ None }
{
    let functions = Known::Table(functions);
    check(bytes, functions)?;
    build(alloc, bytes, functions)
}

/// Reads the job whose text this is, as if every kind had a function. The last line may lack its newline.
///
/// The text is checked before memory is taken, so a fault is told however little memory there is.
pub fn read_grammar(alloc: Global, bytes: &[u8]) -> Result<Job, JobReadFault>
    ensures job { IfOk result (λ job. IsJobText every_kind bytes.now job) }
    ensures line { (line : ℕ) (kind : JobFault) → (result ≡ Err (JobReadFault.Line line kind))
        ↔ (first_fault every_kind bytes.now ≡ Some (line, kind)) }

    // No text of a job is refused.
    ensures accepted { (job : Job) → IsJobText every_kind bytes.now job →
        first_fault every_kind bytes.now ≡ None }
{
    check(bytes, Known::Every)?;
    build(alloc, bytes, Known::Every)
}

// Reads the text to its end or its first fault.
pub(crate) fn check(bytes: &[u8], functions: Known) -> Result<(), JobReadFault>
    ensures ok { OnOk result (first_fault (known functions.entry) bytes.now ≡ None) }
    ensures err { IfErr result (λ told. IsTold told (first_fault (known functions.entry) bytes.now)) }
{
    let mut lines = JobLines::of(bytes);
    'lines: while !matches!(lines.next(functions)?, Line::Aggregate { .. }) {}
    Ok(())
}

// Makes the job of a text that has no fault.
fn build(alloc: Global, bytes: &[u8], functions: Known) -> Result<Job, JobReadFault>
    requires { first_fault (known functions) bytes.now ≡ None }
    ensures job { IfOk result (λ job. IsJobText (known functions.entry) bytes.now job) }
    ensures err { IfErr result (λ fault. fault ≡ JobReadFault.Memory) }
{
    let mut sources = ListOf::new(alloc);
    let mut stages = ListOf::new(alloc);
    let mut lines = JobLines::of(bytes);
    'lines: loop {
        match lines.next(functions)? {
            Line::Source { file } => {
                let name = Bytes::of(alloc, file)?;
                sources.push(name)?;
            }
            Line::Stage {
                kind,
                arg,
                tasks,
                exchange,
            } => {
                let arg = Bytes::of(alloc, arg)?;
                stages.push(Stage {
                    kind,
                    arg,
                    tasks,
                    exchange,
                })?;
            }
            Line::Aggregate { kind, tasks } => {
                let text = Bytes::of(alloc, bytes)?;
                return Ok(Job {
                    sources,
                    stages,
                    agg: kind,
                    agg_tasks: tasks,
                    text,
                });
            }
        }
    }
}
