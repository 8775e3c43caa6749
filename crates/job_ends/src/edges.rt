// All edges of a job, settled at both ends.
ghost use Rattle.std.specs.Prelude.{◌≡◌, ◌≢◌, ◌+◌, ◌<◌, ◌≤◌, ℕ, suc, slice_get, Some};
ghost use Rattle.flow_defs.specs.Jobs.{IsJob, last_edge};
ghost use Rattle.outside.specs.Faults.{HasRisen};
ghost use Rattle.conn_parts.specs.Shares.{AreOwn};
ghost use Rattle.job_ends.specs.Edges.{EdgeCarries};
ghost use Rattle.job_ends.specs.Ended.{AreEnded, AreLoopsEnded, AreSettled, HasLinkFault, LinksTell, SnapshotsStay, faults_in, gate_at, own_at};
ghost use Rattle.job_ends.specs.Leaving.{HasArrived, HasEdge, RowsGoOn};
ghost use Rattle.job_ends.specs.Returning.{RowCameBack, RowsCameBack};

use crate::laws::edges_carry;
use crate::left::{EdgeLeft, take_edge};
use crate::stages::{settle_senders, settle_takers};
use crate::wires::give_back;
use flow_defs::{Job, ListOf};
use input_channel::InputChannel;
use job_cells::Edge;
use job_workers::{LoopRow, TaskRow};
use outside::Links;
use std::sync::Wait;
use subpartition::Subpartition;
use turn_cell::Pass;

// Settles the tasks at both ends of an edge with the loops there.
fn settle_tasks<'a, 'p, S, R: Wait>(
    rt: &R,
    job: &Job,
    edge: &Edge<'p>,
    number: usize,
    rows: &mut [TaskRow<'a, 'p, S>],
    takers: ListOf<Pass<Subpartition>>,
    pushers: ListOf<Pass<InputChannel>>,
)
    requires is_job { IsJob job.now }
    requires has { HasEdge job.now number edge.now rows.old }
    requires takers { AreOwn 1 edge.now.subpartitions.items takers.items }
    requires pushers { AreOwn 1 edge.now.inputs.items pushers.items }
    ensures rows { RowsGoOn (λ s. s ≢ number) (λ s. s ≢ suc number) rows.old rows.new }
    ensures carry { HasArrived job.now number takers.items pushers.items → EdgeCarries job.now number (own_at rows.old number) (gate_at rows.old number) }
{
    let mut takers = takers;
    let mut pushers = pushers;
    let cells = edge.subpartitions.as_slice();
    settle_senders(rt, cells, &mut rows[number], &mut takers);
    let inputs = edge.inputs.as_slice();
    let next = number + 1;
    settle_takers(rt, inputs, &mut rows[next], &mut pushers);
    edges_carry();
}

// Settles an edge at both ends, and gives its wire back.
fn settle_edge<'a, 'p, S, N: Links, R: Wait>(
    rt: &R,
    net: &mut N,
    job: &Job,
    edge: &Edge<'p>,
    number: usize,
    rows: &mut [TaskRow<'a, 'p, S>],
    row: &mut LoopRow<'a, 'p, N::Out, N::In>,
)
    requires is_job { IsJob job.now }
    requires has { HasEdge job.now number edge.now rows.old }
    requires ended { AreLoopsEnded (λ out input. N.belong (N.Out.line out) (N.In.line input)) N.Out.sent N.In.got job.now number edge.now row.old.items }
    requires lent { 0 < N.lent net.old }
    ensures rows { RowsGoOn (λ s. s ≢ number) (λ s. s ≢ suc number) rows.old rows.new }
    ensures carry { LinksTell N.Out.sent N.In.got → EdgeCarries job.now number (own_at rows.old number) (gate_at rows.old number) }
    ensures lent { suc (N.lent net.new) ≡ N.lent net.old }
    ensures never_falls { N.faults net.old ≤ N.faults net.new }
    ensures wires { RowCameBack N.In.got N.In.ended (N.wires net.old) (N.wires net.new) row.old.items }
    ensures fault { (i : ℕ) (place : _) → slice_get row.old.items i ≡ Some place → 0 < faults_in N.Out.faults N.In.faults place → HasRisen (N.faults net.old) (N.faults net.new) }
{
    let left = take_edge(row);
    let EdgeLeft {
        wire,
        takers,
        pushers,
    } = left;
    give_back(net, wire);
    settle_tasks(rt, job, edge, number, rows, takers, pushers);
}

/// Settles all edges of a job whose workers have ended, and gives their wires back in the order of the edges.
/// The passes of tasks and loops are used up. Takes no memory.
pub fn settle_edges<'a, 'p, S, N: Links, R: Wait>(
    rt: &R,
    net: &mut N,
    job: &Job,
    edges: &[Edge<'p>],
    rows: &mut [TaskRow<'a, 'p, S>],
    loops: &mut [LoopRow<'a, 'p, N::Out, N::In>],
)
    requires is_job { IsJob job.now }
    requires ended { (size : ℕ) × AreEnded (λ out input. N.belong (N.Out.line out) (N.In.line input)) N.Out.sent N.In.got job.now size edges.now rows.old loops.old }
    requires lent { suc (last_edge job.now) ≤ N.lent net.old }

    // Where links tell their bytes, what the gates gave of each channel begins what the tasks put there.
    ensures carry { LinksTell N.Out.sent N.In.got → (e : ℕ) → e ≤ last_edge job.now → EdgeCarries job.now e (own_at rows.old e) (gate_at rows.old e) }
    ensures rest { AreSettled rows.old rows.new }
    ensures snapshots { SnapshotsStay rows.old rows.new }
    ensures lent { N.lent net.new + suc (last_edge job.now) ≡ N.lent net.old }
    ensures never_falls { N.faults net.old ≤ N.faults net.new }
    ensures wires { RowsCameBack N.In.got N.In.ended (N.wires net.old) (N.wires net.new) loops.old (suc (last_edge job.now)) }
    ensures fault { HasLinkFault N.Out.faults N.In.faults loops.old → HasRisen (N.faults net.old) (N.faults net.new) }
{
    for number in 0..edges.len() {
        settle_edge(
            rt,
            net,
            job,
            &edges[number],
            number,
            rows,
            &mut loops[number],
        );
    }
}
