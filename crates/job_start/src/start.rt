// From where the tasks of a job go on.
ghost use Rattle.std.specs.Prelude.{◌≡◌, ◌≤◌, ◌<◌, suc, IfOk, slice_index};
ghost use Rattle.flow_defs.specs.declared.image.Image.{Image};
ghost use Rattle.flow_defs.specs.Jobs.{IsJob, last_edge, tasks};
ghost use Rattle.plain_machine.specs.Images.{IsStart};
ghost use Rattle.plain_machine.specs.Places.{sender_place};
ghost use Rattle.job_start.specs.Starts.{IsStartFor, IsBase, was_ended, all_were_ended};

use flow_defs::{Job, ListOf, Table};
use std::alloc::{AllocError, Global};

/// From where the tasks of a job go on. Sources, tasks that send and tasks of the aggregate stand in the order of
/// their stages and then of their indices.
#[derive(Debug, Drop)]
pub struct Start {
    /// The number of the checkpoint before the first one: 0 at the beginning of a job.
    pub number: u64,
    /// How many lines each source has read.
    pub offsets: ListOf<u64>,
    /// Whether each source is at its end.
    pub ended: ListOf<bool>,
    /// How many records each task of the sources and stages has emitted, modulo 2^64.
    pub emitted: ListOf<u64>,
    /// What each aggregate task has counted.
    pub tables: ListOf<Table>,
}

// The place of a task among those that send.
fn place_of(job: &Job, stage: u32, index: u32) -> usize
    requires job { IsJob job.now }
    requires task { (stage ≤ last_edge job.now) × (index < tasks job.now stage) }
    ensures { result ≡ sender_place job.now stage index }
{
    let mut place = index as usize;
    for before in 0..stage as usize {
        place += job.tasks(before) as usize;
    }
    place
}

impl Start {
    /// The beginning of a job: no line was read, no record emitted, and nothing counted.
    pub fn new(alloc: Global, job: &Job) -> Result<Self, AllocError>
        requires { IsJob job.now }
        ensures for_job { IfOk result (λ start. IsStartFor job.now start) }
        ensures beginning { IfOk result (λ start. (base : Image) → IsStart job.now base → IsBase job.now start base) }
    {
        let mut offsets = ListOf::new(alloc);
        let mut ended = ListOf::new(alloc);
        for _source in 0..job.tasks(0) {
            offsets.push(0)?;
            ended.push(false)?;
        }
        let mut emitted = ListOf::new(alloc);
        for stage in 0..job.edges() {
            for _sender in 0..job.tasks(stage) {
                emitted.push(0)?;
            }
        }
        let mut tables = ListOf::new(alloc);
        for _counter in 0..job.tasks(job.edges()) {
            tables.push(Table::new(alloc))?;
        }
        Ok(Start {
            number: 0,
            offsets,
            ended,
            emitted,
            tables,
        })
    }

    /// Whether all sources were at their ends.
    pub fn all_were_ended(&self) -> bool
        ensures { result ≡ all_were_ended self.now }
    {
        self.ended.as_slice().iter().all(|ended| *ended)
    }

    /// How many lines the source of this index has read. It is 0 where there is no such source.
    pub fn offset(&self, index: u32) -> u64
        ensures { result ≡ slice_index self.now.offsets.items index }
    {
        match self.offsets.as_slice().get(index as usize) {
            Some(offset) => *offset,
            None => 0,
        }
    }

    /// Whether the source of this index was at its end. It is false where there is no such source.
    pub fn was_ended(&self, index: u32) -> bool
        ensures { result ≡ was_ended self.now index }
    {
        match self.ended.as_slice().get(index as usize) {
            Some(ended) => *ended,
            None => false,
        }
    }

    /// How many records a task of the sources and stages has emitted, modulo 2^64. It is 0 where there is no such
    /// task. The cost is the number of the stage.
    pub fn emitted(&self, job: &Job, stage: u32, index: u32) -> u64
        requires job { IsJob job.now }
        requires task { (stage ≤ last_edge job.now) × (index < tasks job.now stage) }
        ensures { result ≡ slice_index self.now.emitted.items (sender_place job.now stage index) }
    {
        match self.emitted.as_slice().get(place_of(job, stage, index)) {
            Some(emitted) => *emitted,
            None => 0,
        }
    }
}
