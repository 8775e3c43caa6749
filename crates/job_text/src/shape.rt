// The shape of a job, which takes no memory.
ghost use Rattle.std.specs.Prelude.{◌≡◌, ◌≤◌, suc, None, IfOk, IfErr, slice_get};
ghost use Rattle.flow_defs.specs.Jobs.{IsJob, last_edge, tasks, exchange};
ghost use Rattle.job_text.specs.KnownKinds.{every_kind};
ghost use Rattle.job_text.specs.JobFaults.{first_fault};
ghost use Rattle.job_text.specs.Reading.{IsTold};
ghost use Rattle.job_text.specs.Shapes.{IsShapeOf, job_of};

use crate::JobReadFault;
use crate::job::check;
use crate::known::Known;
use crate::lines::{JobLines, Line};
use flow_defs::{Exchange, STAGES_MAX};
use std::marker::Model;

/// How many tasks a stage has, and how records come into it.
#[derive(Clone, Copy, Debug, PartialEq, Eq)]
pub struct StageShape {
    pub tasks: u32,
    pub exchange: Exchange,
}

/// How many tasks the stages of a job have, and how records go between them.
///
/// Contracts see the number of sources, the stages, and the tasks of the aggregate.
#[derive(Debug, Drop)]
pub struct JobShape {
    sources: usize,
    stages: [StageShape; STAGES_MAX],
    stage_count: usize,
    aggregate: u32,
}

impl Model for JobShape {
    ghost use Rattle.std.specs.Prelude.{◌≡◌, ◌≤◌, length, take};
    ghost use Rattle.flow_defs.specs.Limits.{stages_max};
    ghost use Rattle.job_text.specs.Shapes.{Shape};

    ghost Value = { Shape };

    ghost view = { λ s. record { sources = s.sources; stages = take s.stage_count s.stages; aggregate = s.aggregate } };

    ghost invariant = { λ s. (s.stage_count ≤ stages_max) × (length s.stages ≡ stages_max) };
}

impl JobShape {
    /// The last edge, which leads to the aggregate.
    pub fn last_edge(&self) -> usize
        ensures { result ≡ last_edge (job_of self.now) }
    {
        self.stage_count
    }

    // The stage at a place behind the sources, if there is one.
    fn stage(&self, place: usize) -> Option<StageShape>
        ensures { result ≡ slice_get self.now.stages place }
    {
        self.stages[..self.stage_count].get(place).copied()
    }

    /// How many tasks a stage has. The sources are stage 0.
    pub fn tasks(&self, stage: usize) -> usize
        requires { stage ≤ suc (last_edge (job_of self.now)) }
        ensures { result ≡ tasks (job_of self.now) stage }
    {
        let Some(before) = stage.checked_sub(1) else {
            return self.sources;
        };
        match self.stage(before) {
            Some(stage) => stage.tasks as usize,
            None => self.aggregate as usize,
        }
    }

    /// How records go over an edge.
    pub fn exchange(&self, edge: usize) -> Exchange
        requires { edge ≤ last_edge (job_of self.now) }
        ensures { result ≡ exchange (job_of self.now) edge }
    {
        match self.stage(edge) {
            Some(stage) => stage.exchange,
            None => Exchange::Hash,
        }
    }
}

/// The shape of the job whose text this is, as if every kind had a function. It takes no memory.
pub fn read_shape(bytes: &[u8]) -> Result<JobShape, JobReadFault>
    ensures ok { IfOk result (IsShapeOf bytes.now) }
    ensures job { IfOk result (λ shape. IsJob (job_of shape)) }
    ensures err { IfErr result (λ told. IsTold told (first_fault every_kind bytes.now)) }
{
    check(bytes, Known::Every)?;
    build(bytes)
}

// The shape of the job of a text that has no fault.
fn build(bytes: &[u8]) -> Result<JobShape, JobReadFault>
    requires { first_fault every_kind bytes.now ≡ None }
    ensures ok { IfOk result (IsShapeOf bytes.now) }
    ensures job { IfOk result (λ shape. IsJob (job_of shape)) }
    ensures err { IfErr result (λ told. ⊥) }
{
    let mut sources = 0;
    let mut stages = [StageShape {
        tasks: 0,
        exchange: Exchange::Hash,
    }; STAGES_MAX];
    let mut stage_count = 0;
    let mut lines = JobLines::of(bytes);
    'lines: loop {
        match lines.next(Known::Every)? {
            Line::Source { .. } => sources += 1,
            Line::Stage {
                tasks,
                exchange,
                ..
            } => {
                stages[stage_count] = StageShape { tasks, exchange };
                stage_count += 1;
            }
            Line::Aggregate { tasks, .. } => {
                return Ok(JobShape {
                    sources,
                    stages,
                    stage_count,
                    aggregate: tasks,
                });
            }
        }
    }
}
