// How a pool is opened.
ghost use Rattle.std.specs.Prelude.{◌≡◌, ◌+◌, ◌^◌, ◌<◌, ◌≤◌, [], length, IfOk};
ghost use Rattle.std.specs.List.{All, sum};
ghost use Rattle.segment_pool.specs.Passes.{out};
ghost use Rattle.segment_pool.specs.Pools.{AreFresh, IsOpened, passes_of};
ghost use Rattle.segment_pool.specs.Stocks.{AreLegal, IsSize, IsTotal, StockStandsFor};

use crate::pass::PoolPass;
use crate::places::passes_of;
use crate::pool::Pool;
use crate::segment::Segment;
use crate::stock::{Stock, Terms};
use flow_defs::ListOf;
use std::alloc::{AllocError, Global};
use turn_cell::TurnCell;

// A stock of all segments.
fn stock_of(alloc: Global, terms: Terms) -> Result<Stock, AllocError>
    requires { AreLegal terms }
    ensures { IfOk result (λ stock. StockStandsFor stock [] × (stock.terms ≡ terms)) }
{
    let mut free = ListOf::new(alloc);
    free.reserve(terms.total as usize)?;
    for _made in 0..terms.total {
        free.push(Segment::of(alloc, terms.size)?)?;
    }
    Ok(Stock { terms, free })
}

// Opens a pool on these terms.
fn open(alloc: Global, terms: Terms, passes: u32) -> Result<(Pool, ListOf<PoolPass>), AllocError>
    requires { AreLegal terms × (0 < passes) }
    ensures made { IfOk result (λ r. AreFresh r.0 r.1.items) }
    ensures opened { IfOk result (λ r.
        IsOpened terms.total terms.size terms.limits.items r.0 × (length r.1.items ≡ passes)) }
    ensures none_out { IfOk result (λ r. All (λ pass. out pass ≡ 0) r.1.items) }
{
    let total = terms.total;
    let size = terms.size;
    let mut room = ListOf::new(alloc);
    room.reserve(passes as usize)?;
    let stock = stock_of(alloc, terms)?;
    let Ok((cell, inner)) = TurnCell::new(alloc, stock, passes) else {
        return Err(AllocError);
    };
    let all = passes_of(alloc, inner, room);
    Ok((Pool { cell, total, size }, all))
}

impl Pool {
    /// Opens a pool of `total` segments of `size` bytes, from 1 to 16,384 segments of 64 to 65,536
    /// bytes, for so many passes. Its passes have no limits. It writes each byte of the segments once.
    pub fn new(
        alloc: Global,
        total: u32,
        size: u32,
        passes: u32,
    ) -> Result<(Pool, ListOf<PoolPass>), AllocError>
        requires { IsTotal total × IsSize size × (0 < passes) }
        ensures made { IfOk result (λ r. AreFresh r.0 r.1.items) }
        ensures opened { IfOk result (λ r.
            IsOpened total size [] r.0 × (length r.1.items ≡ passes)) }
        ensures none_out { IfOk result (λ r. All (λ pass. out pass ≡ 0) r.1.items) }
    {
        let limits = ListOf::new(alloc);
        let terms = Terms {
            total,
            size,
            limits,
        };
        open(alloc, terms, passes)
    }

    /// Opens a pool with a pass for each of these limits. A pass that keeps below its own always gets
    /// a segment, whatever the others do.
    pub fn new_limited(
        alloc: Global,
        total: u32,
        size: u32,
        limits: &[u32],
    ) -> Result<(Pool, ListOf<PoolPass>), AllocError>
        requires terms { IsTotal total × IsSize size }
        requires passes { (1 ≤ length limits.now) × (length limits.now < 2 ^ 32) }
        requires limits { sum limits.now ≤ total }
        ensures made { IfOk result (λ r. AreFresh r.0 r.1.items) }
        ensures opened { IfOk result (λ r.
            IsOpened total size limits.now r.0 × (length r.1.items ≡ length limits.now)) }
        ensures none_out { IfOk result (λ r. All (λ pass. out pass ≡ 0) r.1.items) }
    {
        let passes = limits.len() as u32;
        let mut own_limits = ListOf::new(alloc);
        own_limits.extend(limits)?;
        let terms = Terms {
            total,
            size,
            limits: own_limits,
        };
        open(alloc, terms, passes)
    }
}
