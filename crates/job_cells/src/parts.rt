// An edge, put together.
ghost use Rattle.std.specs.Prelude.{◌≡◌, ℕ, ◌+◌, ◌<◌, ◌≤◌, length, slice_get, IfOk, Some};
ghost use Rattle.flow_defs.specs.declared.job.Job.{Job};
ghost use Rattle.flow_defs.specs.Jobs.{IsJob, last_edge};
ghost use Rattle.segment_pool.specs.Pools.{size_of};
ghost use Rattle.job_cells.specs.Edges.{ArePassesOf, IsEdgeOf};
ghost use Rattle.job_cells.specs.Grants.{gate_want, partition_want, wants_of};
ghost use Rattle.job_cells.specs.Lending.{HasLent, MayLend};
ghost use Rattle.job_cells.specs.Parts.{AreParts, HaveShares};
ghost use Rattle.job_cells.specs.Spans.{IsSpan, span_on, ways_in, ways_out};

use crate::channels::{channels_of, readers_of};
use crate::edge::{Edge, EdgePasses};
use crate::gates::{Gates, gates_of};
use crate::lender::Lender;
use crate::partitions::{Partitions, subpartitions_of};
use crate::pool_cells::{PoolCells, partitions_of};
use crate::span::Span;
use flow_defs::{ChannelId, ListOf};
use reader_state::ReaderState;
use segment_pool::Pool;
use std::alloc::{AllocError, Global};
use std::sync::Wait;
use turn_cell::{Pass, TurnCell};

/// The parts of an edge: its channels and their readers, its sending end, and its receiving end.
#[derive(Drop)]
pub struct Parts<'p> {
    pub channels: ListOf<ChannelId>,
    pub readers: TurnCell<ReaderState>,
    pub send_items: Pass<ReaderState>,
    pub read_control: Pass<ReaderState>,
    pub sending: Partitions,
    pub partitions: PoolCells<'p>,
    pub gates: Gates<'p>,
}

/// The parts of an edge of this span, whose local pools are the next ones.
pub fn parts_of<'p, R: Wait>(
    rt: &R,
    alloc: Global,
    pool: &'p Pool,
    span: Span,
    lender: &mut Lender,
) -> Result<Parts<'p>, AllocError>
    requires span { IsSpan span }
    requires may { MayLend pool.now lender.old }
    requires partition_wants { (a : ℕ) → a < span.senders → slice_get lender.old.wants.items (lender.old.given + a) ≡ Some (partition_want (ways_out span)) }
    requires wants { (b : ℕ) → b < span.receivers → slice_get lender.old.wants.items (lender.old.given + (span.senders + b)) ≡ Some (gate_want (ways_in span)) }
    ensures lender { IfOk result (λ _. MayLend pool.now lender.new × HasLent (span.senders + span.receivers) lender.old lender.new) }
    ensures parts { IfOk result (AreParts span (size_of pool.now)) }
    ensures shares { IfOk result (HaveShares span lender.old.wants.items) }
{
    let channels = channels_of(alloc, span)?;
    let (readers, send_items, read_control) = readers_of(alloc, channels.as_slice())?;
    let sending = subpartitions_of(alloc, span, pool.size())?;
    let partitions = partitions_of(rt, alloc, pool, lender, span.senders)?;
    let gates = gates_of(rt, alloc, pool, lender, span.receivers, span.ways_in())?;
    Ok(Parts {
        channels,
        readers,
        send_items,
        read_control,
        sending,
        partitions,
        gates,
    })
}

/// The edge of these parts, and its passes.
pub fn edge_of<'p>(parts: Parts<'p>) -> (Edge<'p>, EdgePasses<'p>)
    ensures edge { (job : Job) (e size : ℕ) → IsJob job → e ≤ last_edge job → AreParts (span_on job e) size parts.entry → HaveShares (span_on job e) (wants_of job) parts.entry → IsEdgeOf job e size result.0 }
    ensures passes { (job : Job) (e size : ℕ) → IsJob job → e ≤ last_edge job → AreParts (span_on job e) size parts.entry → ArePassesOf job e result.0 result.1 }
{
    let sending = parts.sending;
    let outlets = sending.group;
    let partitions = parts.partitions;
    let gates = parts.gates;
    let inlets = gates.group;
    let pools = gates.pools;
    let edge = Edge {
        channels: parts.channels,
        readers: parts.readers,
        subpartitions: outlets.cells,
        inputs: inlets.cells,
        partitions: partitions.cells,
        gates: pools.cells,
    };
    let passes = EdgePasses {
        send_items: parts.send_items,
        read_control: parts.read_control,
        senders: sending.senders,
        takers: outlets.first,
        sizers: outlets.second,
        gates: gates.passes,
        pushers: inlets.first,
        tellers: inlets.second,
        task_partitions: partitions.tasks,
        loop_partitions: partitions.loops,
        task_gates: pools.tasks,
        loop_gates: pools.loops,
    };
    (edge, passes)
}
