// What each loop is lent.
ghost use Rattle.std.specs.Prelude.{◌≡◌, []};
ghost use Rattle.turn_cell.specs.Passes.{IsPassOf, mine};
ghost use Rattle.reader_state.specs.Turning.{IsReaderPass};
ghost use Rattle.conn_parts.specs.Shares.{AreOf, AreOwn};
ghost use Rattle.conn_send_items.specs.Sending.{MaySendItems};
ghost use Rattle.conn_read_control.specs.Controlling.{MayReadControl};
ghost use Rattle.conn_read_items.specs.Receiving.{MayReadItems};
ghost use Rattle.conn_send_control.specs.Announcing.{MaySendControl};
ghost use Rattle.conn_harness.specs.Cells.{AreCells};

use crate::cells::Cells;
use conn_run::{ConnShare, SharePasses};
use flow_defs::ListOf;
use input_channel::InputChannel;
use local_pool::HeldPool;
use outside::StopState;
use reader_state::ReaderState;
use std::alloc::Global;
use subpartition::Subpartition;
use turn_cell::Pass;

/// What the loop that sends items is lent.
pub fn items_share<'a, 'p>(
    alloc: Global,
    cells: &'a Cells<'p>,
    readers: Pass<ReaderState>,
    takers: ListOf<Pass<Subpartition>>,
    pools: ListOf<Pass<HeldPool<'p>>>,
    stop: Pass<StopState>,
) -> ConnShare<'a, 'p>
    requires cells { AreCells cells.now }
    requires readers { IsReaderPass cells.now.readers 0 readers × (mine readers ≡ []) }
    requires takers { AreOwn 1 cells.now.subpartitions.items takers.items }
    requires pools { AreOf cells.now.senders.items pools.items }
    requires stop { IsPassOf cells.now.stop stop }
    ensures { MaySendItems result }
{
    ConnShare {
        channels: cells.channels.as_slice(),
        size: cells.size,
        readers: &cells.readers,
        subpartitions: cells.subpartitions.as_slice(),
        inputs: cells.inputs.as_slice(),
        pools: cells.senders.as_slice(),
        stop: &cells.stop,
        passes: SharePasses {
            readers: Some(readers),
            subpartitions: takers,
            inputs: ListOf::new(alloc),
            pools,
            stop,
        },
    }
}

/// What the loop that reads control frames is lent.
pub fn control_share<'a, 'p>(
    alloc: Global,
    cells: &'a Cells<'p>,
    readers: Pass<ReaderState>,
    sizers: ListOf<Pass<Subpartition>>,
    stop: Pass<StopState>,
) -> ConnShare<'a, 'p>
    requires cells { AreCells cells.now }
    requires readers { IsReaderPass cells.now.readers 1 readers × (mine readers ≡ []) }
    requires sizers { AreOwn 2 cells.now.subpartitions.items sizers.items }
    requires stop { IsPassOf cells.now.stop stop }
    ensures { MayReadControl result }
{
    ConnShare {
        channels: cells.channels.as_slice(),
        size: cells.size,
        readers: &cells.readers,
        subpartitions: cells.subpartitions.as_slice(),
        inputs: cells.inputs.as_slice(),
        pools: cells.senders.as_slice(),
        stop: &cells.stop,
        passes: SharePasses {
            readers: Some(readers),
            subpartitions: sizers,
            inputs: ListOf::new(alloc),
            pools: ListOf::new(alloc),
            stop,
        },
    }
}

/// What the loop that reads items is lent.
pub fn read_share<'a, 'p>(
    alloc: Global,
    cells: &'a Cells<'p>,
    pushers: ListOf<Pass<InputChannel>>,
    pools: ListOf<Pass<HeldPool<'p>>>,
    stop: Pass<StopState>,
) -> ConnShare<'a, 'p>
    requires cells { AreCells cells.now }
    requires pushers { AreOwn 1 cells.now.inputs.items pushers.items }
    requires pools { AreOf cells.now.receivers.items pools.items }
    requires stop { IsPassOf cells.now.stop stop }
    ensures { MayReadItems result }
{
    ConnShare {
        channels: cells.channels.as_slice(),
        size: cells.size,
        readers: &cells.readers,
        subpartitions: cells.subpartitions.as_slice(),
        inputs: cells.inputs.as_slice(),
        pools: cells.receivers.as_slice(),
        stop: &cells.stop,
        passes: SharePasses {
            readers: None,
            subpartitions: ListOf::new(alloc),
            inputs: pushers,
            pools,
            stop,
        },
    }
}

/// What the loop that sends control frames is lent.
pub fn asked_share<'a, 'p>(
    alloc: Global,
    cells: &'a Cells<'p>,
    tellers: ListOf<Pass<InputChannel>>,
    stop: Pass<StopState>,
) -> ConnShare<'a, 'p>
    requires cells { AreCells cells.now }
    requires tellers { AreOwn 2 cells.now.inputs.items tellers.items }
    requires stop { IsPassOf cells.now.stop stop }
    ensures { MaySendControl result }
{
    ConnShare {
        channels: cells.channels.as_slice(),
        size: cells.size,
        readers: &cells.readers,
        subpartitions: cells.subpartitions.as_slice(),
        inputs: cells.inputs.as_slice(),
        pools: cells.receivers.as_slice(),
        stop: &cells.stop,
        passes: SharePasses {
            readers: None,
            subpartitions: ListOf::new(alloc),
            inputs: tellers,
            pools: ListOf::new(alloc),
            stop,
        },
    }
}
