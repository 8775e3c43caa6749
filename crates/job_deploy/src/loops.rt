// The loops of an edge.
ghost use Rattle.std.specs.Prelude.{◌≡◌, ◌<◌, ◌≤◌, ◌+◌, ◌*◌, [], suc, length, All, IfOk, OnOk};
ghost use Rattle.turn_cell.specs.Passes.{mine, seen};
ghost use Rattle.reader_state.specs.Turning.{IsReaderPass};
ghost use Rattle.conn_parts.specs.Shares.{AreNew, AreOf, AreOwn};
ghost use Rattle.conn_send_items.specs.Sending.{MaySendItems};
ghost use Rattle.conn_read_control.specs.Controlling.{MayReadControl};
ghost use Rattle.conn_read_items.specs.Receiving.{MayReadItems};
ghost use Rattle.conn_send_control.specs.Announcing.{MaySendControl};
ghost use Rattle.record_writer.specs.Writers.{SendPass};
ghost use Rattle.job_deploy.specs.declared.loops.Shares.{Shares};
ghost use Rattle.job_deploy.specs.Placing.{AreFewer, AreStops, HasTheirs, IsStop};
ghost use Rattle.job_deploy.specs.Sharing.{AreLoopPasses, AreLoopsOver, AreRowsOver, AreSharesOf, HasRoom, IsOver, IsWired};

use crate::order::{put, turned};
use crate::shared::Shared;
use conn_parts::{ConnShare, SharePasses};
use flow_defs::ListOf;
use input_channel::InputChannel;
use job_cells::Edge;
use job_workers::{ConnLoop, LoopRow, LoopWork, Place};
use local_pool::HeldPool;
use outside::{StopState, Wire};
use reader_state::ReaderState;
use std::alloc::{AllocError, Global};
use subpartition::Subpartition;
use turn_cell::{Pass, TurnCell};

/// The passes of the four loops of an edge.
#[derive(Drop)]
pub struct LoopPasses<'p> {
    pub send_items: Pass<ReaderState>,
    pub read_control: Pass<ReaderState>,
    pub takers: ListOf<Pass<Subpartition>>,
    pub sizers: ListOf<Pass<Subpartition>>,
    pub pushers: ListOf<Pass<InputChannel>>,
    pub tellers: ListOf<Pass<InputChannel>>,
    pub partitions: ListOf<Pass<HeldPool<'p>>>,
    pub gates: ListOf<Pass<HeldPool<'p>>>,
}

/// What the four loops of an edge are lent, and a row with room for them.
#[derive(Drop)]
pub struct Shares<'a, 'p, O, I> {
    pub send: ConnShare<'a, 'p>,
    pub control: ConnShare<'a, 'p>,
    pub items: ConnShare<'a, 'p>,
    pub announce: ConnShare<'a, 'p>,
    pub row: LoopRow<'a, 'p, O, I>,
}

// The share of a loop with these passes, at the sending end.
fn sending_share<'a, 'p>(
    size: u32,
    edge: &'a Edge<'p>,
    stop: &'a TurnCell<StopState>,
    passes: SharePasses<'p>,
) -> ConnShare<'a, 'p>
    ensures over { IsOver edge.now size stop.now result }
    ensures pools { result.pools.now ≡ edge.now.partitions.items }
    ensures passes { result.passes ≡ passes.entry }
{
    ConnShare {
        channels: edge.channels.as_slice(),
        size,
        readers: &edge.readers,
        subpartitions: edge.subpartitions.as_slice(),
        inputs: edge.inputs.as_slice(),
        pools: edge.partitions.as_slice(),
        stop,
        passes,
    }
}

// And at the receiving end.
fn receiving_share<'a, 'p>(
    size: u32,
    edge: &'a Edge<'p>,
    stop: &'a TurnCell<StopState>,
    passes: SharePasses<'p>,
) -> ConnShare<'a, 'p>
    ensures over { IsOver edge.now size stop.now result }
    ensures pools { result.pools.now ≡ edge.now.gates.items }
    ensures passes { result.passes ≡ passes.entry }
{
    ConnShare {
        channels: edge.channels.as_slice(),
        size,
        readers: &edge.readers,
        subpartitions: edge.subpartitions.as_slice(),
        inputs: edge.inputs.as_slice(),
        pools: edge.gates.as_slice(),
        stop,
        passes,
    }
}

// What the loop that writes items is lent.
fn share_to_send_items<'a, 'p>(
    alloc: Global,
    size: u32,
    edge: &'a Edge<'p>,
    send_items: Pass<ReaderState>,
    takers: ListOf<Pass<Subpartition>>,
    pools: ListOf<Pass<HeldPool<'p>>>,
    shared: &mut Shared<'a>,
) -> ConnShare<'a, 'p>
    requires edge { IsWired size edge.now }
    requires send_items { IsReaderPass edge.now.readers 0 send_items × (mine send_items ≡ []) }
    requires takers { AreOwn 1 edge.now.subpartitions.items takers.items }
    requires unseen { All (λ (pass : SendPass). seen pass ≡ []) takers.items }
    requires pools { AreOf edge.now.partitions.items pools.items }
    requires stops { AreStops shared.old × (0 < length shared.old.stops.items) }
    ensures stops { AreFewer 1 shared.old shared.new }
    ensures theirs { HasTheirs shared.old shared.new }
    ensures channels { result.channels.now ≡ edge.now.channels.items }
    ensures cells { result.subpartitions.now ≡ edge.now.subpartitions.items }
    ensures unseen { All (λ (pass : SendPass). seen pass ≡ []) result.passes.subpartitions.items }
    ensures may { MaySendItems result }
{
    let stop = shared.next_stop();
    let passes = SharePasses {
        readers: Some(send_items),
        subpartitions: takers,
        inputs: ListOf::new(alloc),
        pools,
        stop,
    };
    sending_share(size, edge, shared.stop, passes)
}

// What the loop that reads control frames is lent.
fn share_to_read_control<'a, 'p>(
    alloc: Global,
    size: u32,
    edge: &'a Edge<'p>,
    read_control: Pass<ReaderState>,
    sizers: ListOf<Pass<Subpartition>>,
    shared: &mut Shared<'a>,
) -> ConnShare<'a, 'p>
    requires edge { IsWired size edge.now }
    requires read_control { IsReaderPass edge.now.readers 1 read_control × (mine read_control ≡ []) }
    requires sizers { AreOwn 2 edge.now.subpartitions.items sizers.items }
    requires stops { AreStops shared.old × (0 < length shared.old.stops.items) }
    ensures stops { AreFewer 1 shared.old shared.new }
    ensures theirs { HasTheirs shared.old shared.new }
    ensures may { MayReadControl result }
{
    let stop = shared.next_stop();
    let passes = SharePasses {
        readers: Some(read_control),
        subpartitions: sizers,
        inputs: ListOf::new(alloc),
        pools: ListOf::new(alloc),
        stop,
    };
    sending_share(size, edge, shared.stop, passes)
}

// What the loop that reads items is lent.
fn share_to_read_items<'a, 'p>(
    alloc: Global,
    size: u32,
    edge: &'a Edge<'p>,
    pushers: ListOf<Pass<InputChannel>>,
    pools: ListOf<Pass<HeldPool<'p>>>,
    shared: &mut Shared<'a>,
) -> ConnShare<'a, 'p>
    requires edge { IsWired size edge.now }
    requires pushers { AreOwn 1 edge.now.inputs.items pushers.items }
    requires new { AreNew pushers.items }
    requires pools { AreOf edge.now.gates.items pools.items }
    requires stops { AreStops shared.old × (0 < length shared.old.stops.items) }
    ensures stops { AreFewer 1 shared.old shared.new }
    ensures theirs { HasTheirs shared.old shared.new }
    ensures channels { result.channels.now ≡ edge.now.channels.items }
    ensures cells { result.inputs.now ≡ edge.now.inputs.items }
    ensures new { AreNew result.passes.inputs.items }
    ensures may { MayReadItems result }
{
    let stop = shared.next_stop();
    let passes = SharePasses {
        readers: None,
        subpartitions: ListOf::new(alloc),
        inputs: pushers,
        pools,
        stop,
    };
    receiving_share(size, edge, shared.stop, passes)
}

// What the loop that writes control frames is lent.
fn share_to_send_control<'a, 'p>(
    alloc: Global,
    size: u32,
    edge: &'a Edge<'p>,
    tellers: ListOf<Pass<InputChannel>>,
    shared: &mut Shared<'a>,
) -> ConnShare<'a, 'p>
    requires edge { IsWired size edge.now }
    requires tellers { AreOwn 2 edge.now.inputs.items tellers.items }
    requires stops { AreStops shared.old × (0 < length shared.old.stops.items) }
    ensures stops { AreFewer 1 shared.old shared.new }
    ensures theirs { HasTheirs shared.old shared.new }
    ensures may { MaySendControl result }
{
    let stop = shared.next_stop();
    let passes = SharePasses {
        readers: None,
        subpartitions: ListOf::new(alloc),
        inputs: tellers,
        pools: ListOf::new(alloc),
        stop,
    };
    receiving_share(size, edge, shared.stop, passes)
}

/// What the loops of an edge are lent.
pub fn shares_of<'a, 'p, O: Drop, I: Drop>(
    alloc: Global,
    size: u32,
    edge: &'a Edge<'p>,
    passes: LoopPasses<'p>,
    shared: &mut Shared<'a>,
) -> Result<Shares<'a, 'p, O, I>, AllocError>
    requires edge { IsWired size edge.now }
    requires passes { AreLoopPasses edge.now passes }
    requires stops { AreStops shared.old × (4 ≤ length shared.old.stops.items) }
    ensures stops { OnOk result (AreFewer 4 shared.old shared.new) }
    ensures theirs { OnOk result (HasTheirs shared.old shared.new) }
    ensures shares { IfOk result (AreSharesOf edge.now) }
{
    let LoopPasses {
        send_items,
        read_control,
        takers,
        sizers,
        pushers,
        tellers,
        partitions,
        gates,
    } = passes;
    let mut row = ListOf::new(alloc);
    row.reserve(4)?;
    let send = share_to_send_items(alloc, size, edge, send_items, takers, partitions, shared);
    let control = share_to_read_control(alloc, size, edge, read_control, sizers, shared);
    let items = share_to_read_items(alloc, size, edge, pushers, gates, shared);
    let announce = share_to_send_control(alloc, size, edge, tellers, shared);
    Ok(Shares {
        send,
        control,
        items,
        announce,
        row,
    })
}

/// The places of the loops of an edge over this wire. Takes no memory.
pub fn loops_over<'a, 'p, O: Drop, I: Drop>(
    alloc: Global,
    shares: Shares<'a, 'p, O, I>,
    wire: Wire<O, I>,
) -> LoopRow<'a, 'p, O, I>
    requires { HasRoom shares }
    ensures { AreLoopsOver shares.entry wire result.items }
{
    let Shares {
        send,
        control,
        items,
        announce,
        row,
    } = shares;
    let Wire {
        data_out,
        data_in,
        control_out,
        control_in,
    } = wire;
    let mut row = row;
    let send = LoopWork {
        alloc,
        half: data_out,
        share: send,
    };
    let control = LoopWork {
        alloc,
        half: control_in,
        share: control,
    };
    let items = LoopWork {
        alloc,
        half: data_in,
        share: items,
    };
    let announce = LoopWork {
        alloc,
        half: control_out,
        share: announce,
    };
    put(&mut row, Place::Todo(ConnLoop::SendItems(send)));
    put(&mut row, Place::Todo(ConnLoop::ReadControl(control)));
    put(&mut row, Place::Todo(ConnLoop::ReadItems(items)));
    put(&mut row, Place::Todo(ConnLoop::SendControl(announce)));
    row
}

/// The rows of the loops of all edges over these wires, in a list that has room for them. The wires are taken
/// out of theirs, from the last on. Takes no memory.
pub fn loop_rows<'a, 'p, O: Drop, I: Drop>(
    alloc: Global,
    shares: ListOf<Shares<'a, 'p, O, I>>,
    rows: ListOf<LoopRow<'a, 'p, O, I>>,
    wires: &mut ListOf<Wire<O, I>>,
) -> ListOf<LoopRow<'a, 'p, O, I>>
    requires shares { length shares.items ≡ length wires.old.items }
    requires empty { All (λ (s : Shares _ _). HasRoom s) shares.items }
    requires rows { (rows.items ≡ []) × (length wires.old.items ≤ rows.room) }
    ensures rows { AreRowsOver shares.entry.items wires.old.items result.items }
    ensures taken { wires.new.items ≡ [] }
{
    let mut shares = shares;
    let mut rows = rows;
    'wires: while let Some(wire) = wires.pop() {
        let share = shares.take_last();
        put(&mut rows, loops_over(alloc, share, wire));
    }
    turned(rows)
}
