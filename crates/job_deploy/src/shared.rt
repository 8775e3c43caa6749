// What all tasks of a job share, as it is dealt to them.
ghost use Rattle.std.specs.Prelude.{◌≡◌, ◌<◌, length};
ghost use Rattle.job_deploy.specs.Placing.{AreFewer, AreStops, HasTheirs, IsStop, WereTaken};

use flow_defs::ListOf;
use job_start::Start;
use outside::{LastImage, StopState};
use snapshot_channel::{SnapshotChannel, TaskPass};
use task_output::{Acks, World, base_of};
use turn_cell::{Pass, TurnCell};

/// What all tasks of a job share for checkpoints and to stop by, and the passes of it that no task has yet.
#[derive(Drop)]
pub struct Shared<'a> {
    /// From where the tasks go on.
    pub start: &'a Start,
    /// How many lines a source reads between two checkpoints, from 1. None: there is only the last one.
    pub every: Option<u64>,
    pub snapshots: &'a SnapshotChannel,
    /// One of each task, in the order of the stages and then of the indices.
    pub snapshot_passes: ListOf<TaskPass>,
    pub last_image: &'a TurnCell<LastImage>,
    /// At least one for each task.
    pub last_passes: ListOf<Pass<LastImage>>,
    pub stop: &'a TurnCell<StopState>,
    /// At least as many as `stops_needed` tells.
    pub stops: ListOf<Pass<StopState>>,
}

impl<'a> Shared<'a> {
    // The next pass of the stop cell.
    pub(crate) fn next_stop(&mut self) -> Pass<StopState>
        requires some { 0 < length self.old.stops.items }
        requires are { AreStops self.old }
        ensures fewer { AreFewer 1 self.old self.new }
        ensures theirs { HasTheirs self.old self.new }
        ensures pass { IsStop self.new.stop.now result }
    {
        self.stops.take_last()
    }

    // What the next task is lent, with this partition.
    pub(crate) fn lend<P>(&mut self, partition: P) -> World<'a, P>
        requires snapshot_passes { 0 < length self.old.snapshot_passes.items }
        requires last_passes { 0 < length self.old.last_passes.items }
        requires stops { AreStops self.old × (0 < length self.old.stops.items) }
        ensures stops { AreFewer 1 self.old self.new }
        ensures taken { WereTaken self.old self.new result }
        ensures partition { result.partition ≡ partition }
    {
        let snapshot_pass = self.snapshot_passes.take_last();
        let last_pass = self.last_passes.take_last();
        let stop_pass = self.stops.take_last();
        let acks = Acks {
            snapshots: self.snapshots,
            pass: snapshot_pass,
            last_image: self.last_image,
            last_pass,
            base: base_of(self.start),
            sent: 0,
        };
        World {
            partition,
            acks,
            stop: self.stop,
            stop_pass,
        }
    }
}
