// What the loop that reads control frames takes of its share.

use flow_defs::{ChannelId, ListOf};
use outside::StopState;
use reader_state::ReaderState;
use subpartition::Subpartition;
use turn_cell::{Pass, TurnCell};

/// The cells that the loop enters. Those of channels stand in the order of the channels.
#[derive(Drop)]
pub(crate) struct ControlCells<'a> {
    pub(crate) channels: &'a [ChannelId],
    /// The length of a segment, in bytes.
    pub(crate) size: u32,
    pub(crate) readers: &'a TurnCell<ReaderState>,
    pub(crate) subpartitions: &'a [TurnCell<Subpartition>],
    pub(crate) stop: &'a TurnCell<StopState>,
}

/// Its passes of them.
#[derive(Drop)]
pub(crate) struct ControlPasses {
    pub(crate) readers: Pass<ReaderState>,
    pub(crate) subpartitions: ListOf<Pass<Subpartition>>,
    pub(crate) stop: Pass<StopState>,
}
