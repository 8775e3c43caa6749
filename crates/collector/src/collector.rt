// Collects the snapshots of one checkpoint.
ghost use Rattle.std.specs.Prelude.{◌≡◌, ◌≢◌, ◌↔◌, ℕ, ◌<◌, ◌≤◌, Some, None, length, IfOk, IfSome, IfNone, IfErr, IsTrue, MatchResult};
ghost use Rattle.flow_defs.specs.Jobs.{IsJob};
ghost use Rattle.collector.specs.Fitting.{IsTask};
ghost use Rattle.collector.specs.Collecting.{IsCollector, IsDue, IsOneMore, IsCompleted, acknowledged, kept_at};

use crate::blank::{blank_image, no_snapshots};
use crate::filling::fill_image;
use crate::lists::put_from;
use crate::places::task_place;
use flow_defs::{Image, Job, ListOf, Snapshot};
use std::alloc::{AllocError, Global};
use std::mem;

/// A checkpoint that is open.
#[derive(Clone, Copy, Debug, PartialEq, Eq)]
pub struct Checkpoint {
    /// Its number, from 1.
    pub number: u64,
    /// Whether no checkpoint follows.
    pub final_one: bool,
}

/// Collects the snapshots of one checkpoint after the other, and makes an image of each.
#[derive(Drop)]
pub struct Collector<'a> {
    job: &'a Job,
    opened: Option<Checkpoint>,
    // A place for each task, by stage and then by index.
    snapshots: ListOf<Option<Snapshot>>,
}

impl<'a> Collector<'a> {
    /// A collector for this job, at which no checkpoint is open.
    pub fn new(alloc: Global, job: &'a Job) -> Result<Self, AllocError>
        requires { IsJob job.now }
        ensures job { IfOk result (λ made. made.job.now ≡ job.now) }
        ensures closed { IfOk result (λ made. made.opened ≡ None) }
        ensures collector { IfOk result IsCollector }
    {
        let snapshots = no_snapshots(alloc, job)?;
        Ok(Collector {
            job,
            opened: None,
            snapshots,
        })
    }

    /// Opens the checkpoint with this number. Whether it is the last one is said beforehand.
    pub fn begin(&mut self, number: u64, final_one: bool)
        requires collector { IsCollector self.old }
        requires closed { self.old.opened ≡ None }
        ensures collector { IsCollector self.new }
        ensures job { self.new.job ≡ self.old.job }
        ensures opened { self.new.opened ≡ Some (record { number = number; final_one = final_one }) }
        ensures none { (i a : ℕ) → acknowledged self.new i a ≡ None }
    {
        self.opened = Some(Checkpoint { number, final_one });
    }

    /// Takes the snapshot of a task. With the last one that is missing it gives the image of the
    /// checkpoint, which is closed then. An error is want of memory, and hands the snapshot back.
    pub fn ack(&mut self, alloc: Global, snapshot: Snapshot) -> Result<Option<Image>, Snapshot>
        requires collector { IsCollector self.old }
        requires due { IsDue self.old snapshot }
        ensures collector { IsCollector self.new }
        ensures job { self.new.job ≡ self.old.job }
        ensures none { IfOk result (λ made. IfNone made (IsOneMore self.old snapshot self.new)) }
        ensures some { IfOk result (λ made. IfSome made (IsCompleted self.old snapshot self.new)) }
        ensures err { IfErr result (λ back. (back ≡ snapshot) × (self.new ≡ self.old)) }
    {
        let place = task_place(self.job, snapshot.task);
        if !are_kept_but(self.snapshots.as_slice(), place) {
            put_from(&mut self.snapshots, 0, place, Some(snapshot));
            return Ok(None);
        }
        let Some(checkpoint) = self.opened else {
            unreachable!()
        };
        let Ok(blank) = blank_image(alloc, self.job, checkpoint) else {
            return Err(snapshot);
        };
        let Ok(slots) = no_snapshots(alloc, self.job) else {
            return Err(snapshot);
        };
        let mut image = blank;
        put_from(&mut self.snapshots, 0, place, Some(snapshot));
        let snapshots = mem::replace(&mut self.snapshots, slots);
        self.opened = None;
        fill_image(&mut image, self.job, snapshots);
        Ok(Some(image))
    }
}

// Whether a snapshot stands at each place but this one.
fn are_kept_but(snapshots: &[Option<Snapshot>], place: usize) -> bool
    ensures { IsTrue result ↔ ((i : ℕ) → i < length snapshots.now → i ≢ place → kept_at snapshots.now i ≢ None) }
{
    for (i, slot) in snapshots.iter().enumerate() {
        if i != place && slot.is_none() {
            return false;
        }
    }
    true
}
