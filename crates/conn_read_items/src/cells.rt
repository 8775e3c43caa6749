// The cells of a connection that the loop enters.

use flow_defs::ChannelId;
use input_channel::InputChannel;
use local_pool::HeldPool;
use outside::StopState;
use turn_cell::TurnCell;

/// The cells that the loop enters, as a `ConnShare` lends them.
#[derive(Drop)]
pub(crate) struct Cells<'a, 'p> {
    pub(crate) channels: &'a [ChannelId],
    pub(crate) size: u32,
    pub(crate) inputs: &'a [TurnCell<InputChannel>],
    pub(crate) pools: &'a [TurnCell<HeldPool<'p>>],
    pub(crate) stop: &'a TurnCell<StopState>,
}
