// How the cells of a connection are opened.
ghost use Rattle.std.specs.Prelude.{◌≡◌, ◌+◌, ◌≤◌, [], length, IfOk};
ghost use Rattle.std.specs.List.{All};
ghost use Rattle.segment_pool.specs.Pools.{limits_of};
ghost use Rattle.conn_harness.specs.declared.pools.TheConstants.{CHANNELS_MAX};
ghost use Rattle.conn_harness.specs.Cells.{AreCells, AreHands, AreStopsOf};
ghost use Rattle.conn_harness.specs.Groups.{IsPassReady};

use crate::cells::{Cells, Hands, Stops};
use crate::group::Group;
use crate::ids::ids_of;
use crate::pools::{Gate, gate_of, partitions_of, subpartitions_of};
use fixtures::{deal, open_readers};
use flow_defs::ListOf;
use outside::StopState;
use segment_pool::{Pool, PoolPass};
use std::alloc::{AllocError, Global};
use std::sync::Wait;
use turn_cell::TurnCell;

// A stop cell with a pass of each worker.
fn stops_of(alloc: Global) -> Result<(TurnCell<StopState>, Stops), AllocError>
    ensures { IfOk result (λ r. AreStopsOf r.0 r.1) }
{
    let Ok((cell, mut passes)) = TurnCell::new(alloc, StopState::new(), 7) else {
        return Err(AllocError);
    };
    let other = deal(&cell, &mut passes);
    let sink = deal(&cell, &mut passes);
    let source = deal(&cell, &mut passes);
    let asked = deal(&cell, &mut passes);
    let read = deal(&cell, &mut passes);
    let control = deal(&cell, &mut passes);
    let items = deal(&cell, &mut passes);
    Ok((
        cell,
        Stops {
            items,
            control,
            read,
            asked,
            source,
            sink,
            other,
        },
    ))
}

/// Opens a connection of so many channels: a pool for each sender on one of the passes, one for the
/// receiver on the last, and what all have in common.
pub fn open<'p, R: Wait>(
    rt: &R,
    alloc: Global,
    pool: &'p Pool,
    passes: ListOf<PoolPass>,
    channels: u32,
) -> Result<(Cells<'p>, Hands<'p>), AllocError>
    requires pool { limits_of pool.now ≡ [] }
    requires passes { All (IsPassReady pool.now) passes.items }
    requires count { length passes.items ≡ channels + 1 }
    requires channels { channels ≤ CHANNELS_MAX }
    ensures cells { IfOk result (λ r. AreCells r.0) }
    ensures hands { IfOk result (λ r. AreHands r.0 r.1) }
{
    let mut passes = passes;
    let Some(gate_pass) = passes.pop() else {
        return Err(AllocError);
    };
    let size = pool.size();
    let ids = ids_of(alloc, channels)?;
    let (readers, writer, reader) = open_readers(alloc, ids.as_slice())?;
    let (stop, stops) = stops_of(alloc)?;
    let Group {
        cells: senders,
        tasks: source_pools,
        first: items_pools,
        ..
    } = partitions_of(rt, alloc, pool, passes)?;
    let Group {
        cells: subpartitions,
        tasks: putters,
        first: takers,
        second: sizers,
    } = subpartitions_of(alloc, channels, size)?;
    let Gate {
        inputs: gate_inputs,
        pools: gate_pools,
    } = gate_of(rt, alloc, pool, gate_pass, channels)?;
    let Group {
        cells: inputs,
        tasks: pollers,
        first: pushers,
        second: tellers,
    } = gate_inputs;
    let Group {
        cells: receivers,
        tasks: sink_pools,
        first: read_pools,
        ..
    } = gate_pools;
    let cells = Cells {
        channels: ids,
        size,
        readers,
        subpartitions,
        inputs,
        senders,
        receivers,
        stop,
    };
    let hands = Hands {
        writer,
        reader,
        putters,
        takers,
        sizers,
        pollers,
        pushers,
        tellers,
        source_pools,
        items_pools,
        sink_pools,
        read_pools,
        stops,
    };
    Ok((cells, hands))
}
