// A pool.
ghost use Rattle.std.specs.Prelude.{◌≡◌};
ghost use Rattle.turn_cell.specs.Passes.{opened_with};
ghost use Rattle.segment_pool.specs.Stocks.{IsSize, IsTotal};

use crate::stock::Stock;
use turn_cell::TurnCell;

/// A pool of segments, from which threads claim by the passes that were made with it. Each call that
/// takes a pass takes one turn at the pool, whatever the number of segments, and no memory. One that is
/// dropped lets go of the segments that are free.
#[derive(Drop)]
pub struct Pool {
    pub(crate) cell: TurnCell<Stock>,
    pub(crate) total: u32,
    pub(crate) size: u32,
    ghost legal: { IsTotal total × IsSize size },
    ghost same_total: { total ≡ (opened_with cell).terms.total },
    ghost same_size: { size ≡ (opened_with cell).terms.size },
}
