// The entries of a local pool's cell.
use std::marker::Brand;
use turn_cell::Named;

/// What a pass did in a turn at a local pool. A turn in which it got nothing has no entry.
pub enum PoolEntry {
    /// It got a segment.
    Lent,
    /// It gave one back.
    Returned,
}

impl Named<PoolEntry> for Brand {
    ghost use Rattle.local_pool.specs.declared.entry.PoolEntry.TheVariants.{Lent};

    ghost entry = { Lent };
}
