// The cells of a connection, and the passes of them.

use flow_defs::{ChannelId, ListOf};
use input_channel::InputChannel;
use local_pool::HeldPool;
use outside::StopState;
use reader_state::ReaderState;
use subpartition::Subpartition;
use turn_cell::{Pass, TurnCell};

/// The cells of a connection from several senders to one receiver, in the order of the channels.
#[derive(Drop)]
pub struct Cells<'p> {
    pub channels: ListOf<ChannelId>,
    /// The length of a segment, in bytes.
    pub size: u32,
    pub readers: TurnCell<ReaderState>,
    pub subpartitions: ListOf<TurnCell<Subpartition>>,
    pub inputs: ListOf<TurnCell<InputChannel>>,
    /// The local pools of the senders, and that of the receiver.
    pub senders: ListOf<TurnCell<HeldPool<'p>>>,
    pub receivers: ListOf<TurnCell<HeldPool<'p>>>,
    pub stop: TurnCell<StopState>,
}

/// The passes of the stop cell: of the four loops, of both tasks, and of who runs them.
#[derive(Drop)]
pub struct Stops {
    pub items: Pass<StopState>,
    pub control: Pass<StopState>,
    pub read: Pass<StopState>,
    pub asked: Pass<StopState>,
    pub source: Pass<StopState>,
    pub sink: Pass<StopState>,
    pub other: Pass<StopState>,
}

/// All passes. Those of the tasks are the source's and the sink's, and the others are the loops'.
#[derive(Drop)]
pub struct Hands<'p> {
    pub writer: Pass<ReaderState>,
    pub reader: Pass<ReaderState>,
    pub putters: ListOf<Pass<Subpartition>>,
    pub takers: ListOf<Pass<Subpartition>>,
    pub sizers: ListOf<Pass<Subpartition>>,
    pub pollers: ListOf<Pass<InputChannel>>,
    pub pushers: ListOf<Pass<InputChannel>>,
    pub tellers: ListOf<Pass<InputChannel>>,
    pub source_pools: ListOf<Pass<HeldPool<'p>>>,
    pub items_pools: ListOf<Pass<HeldPool<'p>>>,
    pub sink_pools: ListOf<Pass<HeldPool<'p>>>,
    pub read_pools: ListOf<Pass<HeldPool<'p>>>,
    pub stops: Stops,
}
