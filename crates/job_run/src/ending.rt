// How a run whose workers have ended is wound up.
ghost use Rattle.std.specs.Prelude.{◌≡◌, ◌+◌, ◌≤◌, [], ℕ, length, suc};
ghost use Rattle.turn_cell.specs.Passes.{IsPassOf, seen};
ghost use Rattle.flow_defs.specs.Jobs.{IsJob, last_edge, tasks};
ghost use Rattle.outside.specs.Faults.{HasRisen};
ghost use Rattle.snapshot_channel.specs.Passes.{IsCollecting};
ghost use Rattle.snapshot_channel.specs.Snapshots.{all_tasks};
ghost use Rattle.collecting_worker.specs.declared.world.CollectEnd.{CollectEnd};
ghost use Rattle.job_workers.specs.declared.place.Place.TheVariants.{Ended};
ghost use Rattle.job_ends.specs.Ended.{AreEnded, AreSettled, HasLinkFault, HaveAcknowledged, LinksTell};
ghost use Rattle.job_ends.specs.Returning.{RowsCameBack};
ghost use Rattle.job_outcome.specs.Theorems.{AreLeftIn, AreSettledWith};
ghost use Rattle.job_run.specs.Runs.{HasCollected, HaveInputs, IsAnswer};

use crate::cells::RunCells;
use crate::inputs::take_inputs;
use crate::tables::answer_of;
use crate::workers::Ran;
use collecting_worker::CollectEnd;
use flow_defs::{Cause, Job, ListOf, Table};
use job_cells::Edge;
use job_ends::{settle_edges, settle_snapshots};
use job_outcome::outcome_of;
use job_workers::{CollectPlace, LoopRow, Place, TaskRow};
use outside::{Links, StopState, look_for_stop};
use snapshot_channel::{CollectingPass, SnapshotChannel, TaskPass};
use std::alloc::Global;
use std::sync::Wait;
use turn_cell::Pass;

// What the worker that collects has left in its place.
fn end_in<'a>(collected: CollectPlace<'a>) -> CollectEnd
    requires { (end : CollectEnd) × (collected ≡ Ended end) }
    ensures { collected.entry ≡ Ended result }
{
    let Place::Ended(end) = collected else {
        unreachable!()
    };
    end
}

// Settles the edges of workers that have ended, and what they sent to the one that collects.
fn settle_all<'a, 'p, S, N: Links, R: Wait>(
    rt: &R,
    net: &mut N,
    job: &Job,
    edges: &[Edge<'p>],
    channel: &SnapshotChannel,
    collecting: CollectingPass,
    room: ListOf<TaskPass>,
    rows: &mut [TaskRow<'a, 'p, S>],
    loops: &mut [LoopRow<'a, 'p, N::Out, N::In>],
)
    requires is_job { IsJob job.now }
    requires ended { (size : ℕ) × AreEnded (λ out input. N.belong (N.Out.line out) (N.In.line input)) N.Out.sent N.In.got job.now size edges.now rows.old loops.old }
    requires acknowledged { HaveAcknowledged job.now channel.now rows.old }
    requires collecting { IsCollecting channel.now collecting }
    requires room { (room.items ≡ []) × (length (all_tasks job.now) ≤ room.room) }
    requires lent { suc (last_edge job.now) ≤ N.lent net.old }
    ensures settled { LinksTell N.Out.sent N.In.got → (end : CollectEnd) → end.collecting ≡ collecting → AreSettledWith job.now rows.old end }
    ensures rest { AreSettled rows.old rows.new }
    ensures wires { RowsCameBack N.In.got N.In.ended (N.wires net.old) (N.wires net.new) loops.old (suc (last_edge job.now)) }
    ensures fault { HasLinkFault N.Out.faults N.In.faults loops.old → HasRisen (N.faults net.old) (N.faults net.new) }
    ensures lent { N.lent net.new + suc (last_edge job.now) ≡ N.lent net.old }
    ensures never_falls { N.faults net.old ≤ N.faults net.new }
{
    settle_edges(rt, net, job, edges, rows, loops);
    settle_snapshots(job, channel, collecting, rows, room);
}

/// What the workers of a job came to: the tables of the last image, joined, where all are done, and else the cause of
/// the first fault that the stop cell tells. The pass is the run's own.
/// Their edges are settled, each of which gives its wire back to `net`, and then their snapshots. The inputs of the
/// sources come back in `inputs`, in order, for which there is room, as there is for the passes of the channel of
/// snapshots.
pub fn wind_up<'a, 'p, S: Drop, N: Links, R: Wait>(
    rt: &R,
    alloc: Global,
    job: &Job,
    edges: &[Edge<'p>],
    cells: &RunCells,
    room: ListOf<TaskPass>,
    pass: &mut Pass<StopState>,
    ran: Ran<'a, 'p, S, N::Out, N::In>,
    inputs: &mut ListOf<S>,
    net: &mut N,
) -> Result<Table, Cause>
    requires is_job { IsJob job.now }
    requires stop { IsPassOf cells.now.stop pass.old }
    requires ended { (size : ℕ) × AreEnded (λ out input. N.belong (N.Out.line out) (N.In.line input)) N.Out.sent N.In.got job.now size edges.now ran.rows.items ran.loops.items }
    requires acknowledged { HaveAcknowledged job.now cells.now.channel ran.rows.items }
    requires collected { HasCollected cells.now.channel ran.collected }
    requires left { HaveInputs job.now ran.rows.items }
    requires room { (room.items ≡ []) × (length (all_tasks job.now) ≤ room.room) }
    requires inputs { (inputs.old.items ≡ []) × (tasks job.now 0 ≤ inputs.old.room) }
    requires lent { suc (last_edge job.now) ≤ N.lent net.old }
    ensures stop { IsPassOf cells.now.stop pass.new }
    ensures answer { IsAnswer job.now ran.entry.rows.items ran.entry.loops.items ran.entry.collected (seen pass.new) result }
    ensures inputs { AreLeftIn ran.entry.rows.items inputs.new.items × (length inputs.new.items ≡ tasks job.now 0) }
    ensures settled { LinksTell N.Out.sent N.In.got → (end : CollectEnd) → ran.entry.collected ≡ Ended end → AreSettledWith job.now ran.entry.rows.items end }
    ensures wires { RowsCameBack N.In.got N.In.ended (N.wires net.old) (N.wires net.new) ran.entry.loops.items (suc (last_edge job.now)) }
    ensures fault { HasLinkFault N.Out.faults N.In.faults ran.entry.loops.items → HasRisen (N.faults net.old) (N.faults net.new) }
    ensures lent { N.lent net.new + suc (last_edge job.now) ≡ N.lent net.old }
    ensures never_falls { N.faults net.old ≤ N.faults net.new }
{
    let Ran {
        rows,
        loops,
        collected,
    } = ran;
    let mut rows = rows;
    let mut loops = loops;
    let told = look_for_stop(rt, &cells.stop, pass);
    let cause = outcome_of(rows.as_slice(), loops.as_slice(), &collected, told);
    let CollectEnd {
        collecting,
        last_pass: _,
        stop_pass: _,
        last,
        cause: _,
    } = end_in(collected);
    let answer = answer_of(alloc, job, cause, last);
    settle_all(
        rt,
        net,
        job,
        edges,
        &cells.channel,
        collecting,
        room,
        rows.as_mut_slice(),
        loops.as_mut_slice(),
    );
    take_inputs(rows.as_mut_slice()[0].as_mut_slice(), inputs);
    answer
}
