// What lies in a pool's turn cell.
// The segment that was given back last is claimed first, since the caches may still hold it. The limits of
// passes are read by proofs alone.
use crate::segment::Segment;
use flow_defs::ListOf;
use std::marker::Brand;
use turn_cell::{Named, Turned};

/// The most segments that a pool has.
pub const SEGMENTS_MAX: u32 = 16_384;

/// What a pass did in a turn at its pool. A turn in which it got nothing has no entry.
pub enum Dealing {
    Claimed,
    Given,
}

/// What of a pool never changes.
#[derive(Drop)]
pub struct Terms {
    /// How many segments there are.
    pub total: u32,
    /// How many bytes each has.
    pub size: u32,
    /// How many segments each pass may have out. Where none does, the list is empty.
    pub limits: ListOf<u32>,
}

/// The segments that are free.
#[derive(Drop)]
pub struct Stock {
    pub(crate) terms: Terms,
    pub(crate) free: ListOf<Segment>,
}

impl Turned for Stock {
    ghost use Rattle.segment_pool.specs.Stocks.{StockStandsFor};

    type Entry = Dealing;

    type Fixed = Terms;

    ghost stands = { StockStandsFor };

    ghost fixed = { λ stock. stock.terms };
}

impl Named<Dealing> for Brand {
    ghost use Rattle.segment_pool.specs.declared.stock.Dealing.TheVariants.{Claimed};

    ghost entry = { Claimed };
}
