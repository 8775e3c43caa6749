// The channels of an edge.
ghost use Rattle.std.specs.Prelude.{◌≡◌, ◌++◌, ◌<◌, [], IfOk, OnOk};
ghost use Rattle.turn_cell.specs.Passes.{mine};
ghost use Rattle.credit_reader.specs.Senders.{AreDistinct};
ghost use Rattle.reader_state.specs.Turning.{channels_in, IsReaderPass};
ghost use Rattle.job_cells.specs.Spans.{ids_below, ids_into, ways_in};

use crate::group::cell_of_two;
use crate::span::Span;
use flow_defs::{ChannelId, ListOf};
use reader_state::ReaderState;
use std::alloc::{AllocError, Global};
use turn_cell::{Pass, TurnCell};

// Adds the channels into a task.
fn add_ids(ids: &mut ListOf<ChannelId>, span: Span, to: u32) -> Result<(), AllocError>
    ensures { OnOk result (ids.new.items ≡ ids.old.items ++ ids_into span to (ways_in span)) }
{
    for way in 0..span.ways_in() {
        ids.push(ChannelId {
            edge: span.edge,
            from: span.sender_at(to, way),
            to,
        })?;
    }
    Ok(())
}

/// The channels of an edge, in order.
pub fn channels_of(alloc: Global, span: Span) -> Result<ListOf<ChannelId>, AllocError>
    ensures { IfOk result (λ ids. ids.items ≡ ids_below span span.receivers) }
{
    let mut ids = ListOf::new(alloc);
    for to in 0..span.receivers {
        add_ids(&mut ids, span, to)?;
    }
    Ok(ids)
}

/// The readers of these channels, with the passes of `send_items` and of `read_control`.
pub fn readers_of(
    alloc: Global,
    channels: &[ChannelId],
) -> Result<(TurnCell<ReaderState>, Pass<ReaderState>, Pass<ReaderState>), AllocError>
    requires { AreDistinct channels.now }
    ensures channels { IfOk result (λ r. channels_in r.0 ≡ channels.now) }
    ensures send_items { IfOk result (λ r. IsReaderPass r.0 0 r.1 × (mine r.1 ≡ [])) }
    ensures read_control { IfOk result (λ r. IsReaderPass r.0 1 r.2 × (mine r.2 ≡ [])) }
{
    let state = ReaderState::new(alloc, channels)?;
    let (cell, send_items, read_control) = cell_of_two(alloc, state)?;
    Ok((cell, send_items, read_control))
}
