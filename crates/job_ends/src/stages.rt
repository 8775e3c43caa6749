// The tasks of a stage, settled with the loop at their end of an edge.
ghost use Rattle.std.specs.Prelude.{◌≡◌, ◌<◌, ◌*◌, ◌^◌, ℕ, length, slice_get, Some};
ghost use Rattle.subpartition.specs.Standing as sending;
ghost use Rattle.input_channel.specs.States as receiving;
ghost use Rattle.conn_parts.specs.Shares.{AreOwn};
ghost use Rattle.job_workers.specs.Places.{Each, Pairs};
ghost use Rattle.job_ends.specs.Settling.{AllSettled, GoOn};
ghost use Rattle.job_ends.specs.Leaving.{SentAt, TookAt, WithoutPartition, WithoutGate, sent_in, taken_in};

use crate::channels::settle_channels;
use crate::left::{take_gate, take_partition};
use flow_defs::ListOf;
use input_channel::InputChannel;
use input_gate::GatePasses;
use job_workers::{TaskPlace, TaskRow};
use record_writer::PartitionPasses;
use std::sync::Wait;
use subpartition::Subpartition;
use turn_cell::{Pass, TurnCell};

// Settles the channels on which a task sent with the loop that took from them.
fn settle_sender<'a, 'p, S, R: Wait>(
    rt: &R,
    cells: &[TurnCell<Subpartition>],
    first: usize,
    stride: usize,
    place: &mut TaskPlace<'a, 'p, S>,
    takers: &mut ListOf<Pass<Subpartition>>,
)
    requires few { length cells.now < 2 ^ 32 }
    requires sent { SentAt cells.now first stride place.old }
    requires takers { AreOwn 1 cells.now takers.old.items }
    ensures takers { AreOwn 1 cells.now takers.new.items }
    ensures go_on { GoOn takers.old.items takers.new.items }
    ensures place { WithoutPartition place.old place.new }
    ensures settled { AllSettled sending.QueueStandsFor first stride (sent_in place.old) takers.old.items }
{
    let passes = take_partition(place);
    let PartitionPasses {
        subpartitions,
        pool: _,
    } = passes;
    settle_channels(rt, cells, first, stride, subpartitions, takers);
}

// Settles the channels from which a task took with the loop that pushed to them.
fn settle_taker<'a, 'p, S, R: Wait>(
    rt: &R,
    cells: &[TurnCell<InputChannel>],
    number: usize,
    place: &mut TaskPlace<'a, 'p, S>,
    pushers: &mut ListOf<Pass<InputChannel>>,
)
    requires few { length cells.now < 2 ^ 32 }
    requires took { TookAt cells.now number place.old }
    requires pushers { AreOwn 1 cells.now pushers.old.items }
    ensures pushers { AreOwn 1 cells.now pushers.new.items }
    ensures go_on { GoOn pushers.old.items pushers.new.items }
    ensures place { WithoutGate place.old place.new }
    ensures settled { AllSettled receiving.ChannelStandsFor (number * length (taken_in place.old)) 1 (taken_in place.old) pushers.old.items }
{
    let passes = take_gate(place);
    let GatePasses {
        cells: own,
        pool: _,
        stop: _,
    } = passes;
    let first = number * own.as_slice().len();
    settle_channels(rt, cells, first, 1, own, pushers);
}

/// Settles all tasks of a stage with the loop that took from their channels. Those of each task stand as
/// many places apart as there are tasks.
pub fn settle_senders<'a, 'p, S, R: Wait>(
    rt: &R,
    cells: &[TurnCell<Subpartition>],
    row: &mut TaskRow<'a, 'p, S>,
    takers: &mut ListOf<Pass<Subpartition>>,
)
    requires few { length cells.now < 2 ^ 32 }
    requires sent { (a : ℕ) (place : _) → slice_get row.old.items a ≡ Some place → SentAt cells.now a (length row.old.items) place }
    requires takers { AreOwn 1 cells.now takers.old.items }
    ensures many { length row.new.items ≡ length row.old.items }
    ensures row { Pairs WithoutPartition row.old.items row.new.items }
    ensures settled { (a : ℕ) (place : _) → slice_get row.old.items a ≡ Some place → AllSettled sending.QueueStandsFor a (length row.old.items) (sent_in place) takers.old.items }
{
    let tasks = row.as_slice().len();
    for task in 0..tasks {
        settle_sender(
            rt,
            cells,
            task,
            tasks,
            &mut row.as_mut_slice()[task],
            takers,
        );
    }
}

/// Settles all tasks of a stage with the loop that pushed to their channels. Those of each task stand side
/// by side.
pub fn settle_takers<'a, 'p, S, R: Wait>(
    rt: &R,
    cells: &[TurnCell<InputChannel>],
    row: &mut TaskRow<'a, 'p, S>,
    pushers: &mut ListOf<Pass<InputChannel>>,
)
    requires few { length cells.now < 2 ^ 32 }
    requires took { (b : ℕ) (place : _) → slice_get row.old.items b ≡ Some place → TookAt cells.now b place }
    requires pushers { AreOwn 1 cells.now pushers.old.items }
    ensures many { length row.new.items ≡ length row.old.items }
    ensures row { Pairs WithoutGate row.old.items row.new.items }
    ensures settled { (b : ℕ) (place : _) → slice_get row.old.items b ≡ Some place →
        AllSettled receiving.ChannelStandsFor (b * length (taken_in place)) 1 (taken_in place) pushers.old.items }
{
    let tasks = row.as_slice().len();
    for task in 0..tasks {
        settle_taker(rt, cells, task, &mut row.as_mut_slice()[task], pushers);
    }
}
