// What each worker of a connection is lent.
ghost use Rattle.std.specs.Prelude.{◌≡◌, [], length, IfOk};
ghost use Rattle.turn_cell.specs.Passes.{IsPassOf, mine};
ghost use Rattle.conn_parts.specs.Shares.{AreOf};
ghost use Rattle.conn_harness.specs.Cells.{AreCells, AreHands};
ghost use Rattle.conn_harness.specs.Ends.{AreNewTasks, MayPut, MayTake};
ghost use Rattle.conn_harness.specs.Workers.{MayWork};

use crate::cells::{Cells, Hands, Stops};
use crate::inlet::Inlet;
use crate::outlet::Outlet;
use crate::shares::{asked_share, control_share, items_share, read_share};
use crate::sink::{Berth, Sink};
use crate::source::{Lane, Source, Work};
use conn_run::ConnShare;
use flow_defs::ListOf;
use input_channel::InputChannel;
use local_pool::HeldPool;
use outside::StopState;
use std::alloc::{AllocError, Global};
use std::collections::VecDeque;
use subpartition::Subpartition;
use turn_cell::{Pass, TurnCell};

/// The tasks at both ends, what each loop is lent, and a pass of the stop cell that is nobody's.
#[derive(Drop)]
pub struct Workers<'a, 'p> {
    pub source: Source<'a, 'a, 'p>,
    pub sink: Sink<'a, 'a, 'p>,
    pub items: ConnShare<'a, 'p>,
    pub control: ConnShare<'a, 'p>,
    pub read: ConnShare<'a, 'p>,
    pub asked: ConnShare<'a, 'p>,
    pub other: Pass<StopState>,
}

// The source's ends of these channels.
fn lanes_of<'a>(
    alloc: Global,
    cells: &'a [TurnCell<Subpartition>],
    passes: ListOf<Pass<Subpartition>>,
) -> Result<VecDeque<Lane<'a>>, AllocError>
    requires { AreNewTasks cells.now passes.items }
{
    let mut passes = passes;
    let mut lanes = VecDeque::new(alloc);
    'passes: while let Some(pass) = passes.pop() {
        let pool = passes.as_slice().len();
        lanes.push_front(Lane {
            outlet: Outlet::new(&cells[pool], pass),
            pool,
            put: 0,
            waiting: None,
        })?;
    }
    Ok(lanes)
}

// Drops so many of these passes, the last ones.
fn drop_last(
    cells: &[TurnCell<InputChannel>],
    passes: &mut ListOf<Pass<InputChannel>>,
    count: usize,
)
    requires { AreNewTasks cells.now passes.old.items }
    ensures { AreNewTasks cells.now passes.new.items }
{
    // Only the clauses speak of them.
    let _cells = cells;
    for _pass in 0..count {
        let Some(dropped) = passes.pop() else { return };
        drop(dropped);
    }
}

// The sink's ends of these channels but for so many, the last ones.
fn berths_of<'a>(
    alloc: Global,
    cells: &'a [TurnCell<InputChannel>],
    passes: ListOf<Pass<InputChannel>>,
    unpolled: usize,
) -> Result<VecDeque<Berth<'a>>, AllocError>
    requires { AreNewTasks cells.now passes.items }
{
    let mut passes = passes;
    drop_last(cells, &mut passes, unpolled);
    let mut berths = VecDeque::new(alloc);
    'passes: while let Some(pass) = passes.pop() {
        let place = passes.as_slice().len();
        berths.push_front(Berth {
            inlet: Inlet::new(&cells[place], pass),
            taken: 0,
        })?;
    }
    Ok(berths)
}

// A source on all channels.
fn source_of<'a, 'p>(
    alloc: Global,
    cells: &'a Cells<'p>,
    putters: ListOf<Pass<Subpartition>>,
    pools: ListOf<Pass<HeldPool<'p>>>,
    stop: Pass<StopState>,
    work: Work,
) -> Result<Source<'a, 'a, 'p>, AllocError>
    requires cells { AreCells cells.now }
    requires putters { AreNewTasks cells.now.subpartitions.items putters.items }
    requires pools { AreOf cells.now.senders.items pools.items }
    requires stop { IsPassOf cells.now.stop stop }
    ensures { IfOk result MayPut }
{
    let lanes = lanes_of(alloc, cells.subpartitions.as_slice(), putters)?;
    Ok(Source {
        lanes,
        pools: cells.senders.as_slice(),
        passes: pools,
        stop: &cells.stop,
        stop_pass: stop,
        work,
    })
}

// A sink on all channels but for so many.
fn sink_of<'a, 'p>(
    alloc: Global,
    cells: &'a Cells<'p>,
    pollers: ListOf<Pass<InputChannel>>,
    pools: ListOf<Pass<HeldPool<'p>>>,
    stop: Pass<StopState>,
    unpolled: usize,
) -> Result<Sink<'a, 'a, 'p>, AllocError>
    requires cells { AreCells cells.now }
    requires pollers { AreNewTasks cells.now.inputs.items pollers.items }
    requires pools { AreOf cells.now.receivers.items pools.items }
    requires stop { IsPassOf cells.now.stop stop }
    ensures { IfOk result MayTake }
{
    let berths = berths_of(alloc, cells.inputs.as_slice(), pollers, unpolled)?;
    Ok(Sink {
        berths,
        pools: cells.receivers.as_slice(),
        passes: pools,
        size: cells.size,
        stop: &cells.stop,
        stop_pass: stop,
        stops: unpolled > 0,
    })
}

/// Lends each worker what it needs. The sink does not take from so many channels.
pub fn lend<'a, 'p>(
    alloc: Global,
    cells: &'a Cells<'p>,
    hands: Hands<'p>,
    work: Work,
    unpolled: usize,
) -> Result<Workers<'a, 'p>, AllocError>
    requires cells { AreCells cells.now }
    requires hands { AreHands cells.now hands }
    ensures { IfOk result (MayWork cells.now) }
{
    let Hands {
        writer,
        reader,
        putters,
        takers,
        sizers,
        pollers,
        pushers,
        tellers,
        source_pools,
        items_pools,
        sink_pools,
        read_pools,
        stops,
    } = hands;
    let Stops {
        items,
        control,
        read,
        asked,
        source,
        sink,
        other,
    } = stops;
    Ok(Workers {
        source: source_of(alloc, cells, putters, source_pools, source, work)?,
        sink: sink_of(alloc, cells, pollers, sink_pools, sink, unpolled)?,
        items: items_share(alloc, cells, writer, takers, items_pools, items),
        control: control_share(alloc, cells, reader, sizers, control),
        read: read_share(alloc, cells, pushers, read_pools, read),
        asked: asked_share(alloc, cells, tellers, asked),
        other,
    })
}
