// A pass of a pool.
use crate::stock::Stock;
use flow_defs::ListOf;
use turn_cell::Pass;

/// The right to claim from one pool and to give back to it. It counts what it has out, so that a pool
/// can be closed with no turn. It is of no use to another pool.
#[derive(Drop)]
pub struct PoolPass {
    pub(crate) pass: Pass<Stock>,
    pub(crate) held: u32,
    // Empty. At the first pass there is room in it for all passes of the cell, which are gathered there
    // when the pool is closed. A pool can't keep it, since threads share the pool and no passes.
    pub(crate) places: ListOf<Pass<Stock>>,
}
