// The channel and its passes.
ghost use Rattle.std.specs.Prelude.{◌≡◌};
ghost use Rattle.crossbeam_channel.specs.Ends.{sends_on, receives_on};

use crate::rule::Order;
use crate::views::View;
use crossbeam_channel::{Pass, RuledReceiver, RuledSender};
use flow_defs::{Job, ListOf, Snapshot};
use job_start::Start;
use std::snapshot;

pub type Line = RuledSender<Snapshot, View, Order>;

pub type LineEnd = RuledReceiver<Snapshot, View, Order>;

pub type LinePass = Pass<Snapshot, View>;

/// The channel on which the tasks of one job send their snapshots.
#[derive(Drop)]
pub struct SnapshotChannel {
    pub(crate) line: Line,
    pub(crate) line_end: LineEnd,
    pub(crate) job: snapshot::Snapshot<Job>,
    pub(crate) start: snapshot::Snapshot<Start>,
    pub(crate) every: Option<u64>,
    ghost one_line: { receives_on line_end ≡ sends_on line },
}

/// The pass by which one task sends.
#[derive(Drop)]
pub struct TaskPass {
    pub(crate) pass: LinePass,
}

/// The pass by which the collecting worker receives.
#[derive(Drop)]
pub struct CollectingPass {
    pub(crate) pass: LinePass,
}

/// A channel and all its passes.
#[derive(Drop)]
pub struct Opened {
    pub channel: SnapshotChannel,
    pub collecting: CollectingPass,
    /// One of each task, in the order of the stages and then of the indices.
    pub passes: ListOf<TaskPass>,
}
