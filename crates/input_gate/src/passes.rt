// The cells that a gate takes turns at, and its passes of them.

use flow_defs::ListOf;
use input_channel::InputChannel;
use local_pool::HeldPool;
use outside::StopState;
use std::collections::LinkedList;
use turn_cell::{Pass, TurnCell};

/// The cell of a channel's receiving end.
pub type InputCell = TurnCell<InputChannel>;

/// A pass of such a cell.
pub type InputPass = Pass<InputChannel>;

/// A gate's passes: one of each of its channels, in the order of the channels, one of the cell of its
/// local pool, and one of the stop cell.
#[derive(Drop)]
pub struct GatePasses<'p> {
    pub cells: ListOf<InputPass>,
    pub pool: Pass<HeldPool<'p>>,
    pub stop: Pass<StopState>,
}

/// No memory for a gate. It hands the passes back.
#[derive(Drop)]
pub struct NoGate<'p> {
    pub passes: GatePasses<'p>,
}

/// What a gate over cells is a gate of: its channels' cells, in order, those of its pool and of what stops
/// all workers, the pass of the pool as it was when the gate was made, and the number of its pass at what
/// stops all workers. Contracts speak of it; no value of it is made.
pub struct GateEnds<'p> {
    pub cells: LinkedList<InputCell>,
    pub pool: TurnCell<HeldPool<'p>>,
    pub first: Pass<HeldPool<'p>>,
    pub stop: TurnCell<StopState>,
    pub number: u32,
}
