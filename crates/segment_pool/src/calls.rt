// What passes do with a pool.
ghost use Rattle.std.specs.Prelude.{◌≡◌, ◌+◌, ◌<◌, ◌≤◌, ◌↔◌, [], ◌∷◌, length, IsSome, IsNone, IfSome};
ghost use Rattle.segment_pool.specs.declared.stock.Dealing.TheVariants.{Given};
ghost use Rattle.segment_pool.specs.Counting.{claim_entries, free_in, lent_in};
ghost use Rattle.segment_pool.specs.Passes.{out};
ghost use Rattle.segment_pool.specs.Pools.{AreCounts, IsBelowLimit, IsLimited, IsPassOf, size_of, total_of};
ghost use Rattle.segment_pool.specs.Stocks.{IsSize};
ghost use Rattle.segment_pool.specs.Turns.{TookTurn};

use crate::pass::PoolPass;
use crate::pool::Pool;
use crate::segment::Segment;
use crate::turns::{count_free, put_in, take_out};
use std::sync::Wait;

/// How many segments of a pool are free, and how many are lent.
#[derive(Clone, Copy, Debug, PartialEq, Eq)]
pub struct Counts {
    pub free: u32,
    pub lent: u32,
}

impl Pool {
    /// How many bytes each segment has.
    pub fn size(&self) -> u32
        ensures size { result ≡ size_of self.now }
        ensures range { IsSize result }
    {
        self.size
    }

    /// Claims a segment, whose bytes are as its last holder left them. Takes one turn.
    pub fn claim<R: Wait>(&self, rt: &R, pass: &mut PoolPass) -> Option<Segment>
        requires pass { IsPassOf self.now pass.old }
        requires limit { IsBelowLimit self.now pass.old }
        ensures pass { IsPassOf self.now pass.new }
        ensures turn { TookTurn (claim_entries result) pass.old pass.new
            (λ history. IsNone result ↔ (free_in (total_of self.now) history ≡ 0)) }
        ensures limited { IsLimited self.now → IsSome result }
        ensures out { out pass.new ≡ out pass.old + length (claim_entries result) }
        ensures size { IfSome result (λ segment. length segment ≡ size_of self.now) }
    {
        let segment = take_out(rt, self, &mut pass.pass);
        if segment.is_some() {
            pass.held += 1;
        }
        segment
    }

    /// Gives a segment back. It may have been claimed by another pass, which then counts it as out as
    /// before. Takes one turn.
    pub fn give<R: Wait>(&self, rt: &R, pass: &mut PoolPass, segment: Segment)
        requires pass { IsPassOf self.now pass.old }
        requires out { 0 < out pass.old }
        requires size { length segment ≡ size_of self.now }
        ensures pass { IsPassOf self.now pass.new }
        ensures turn { TookTurn (Given ∷ []) pass.old pass.new
            (λ history. 0 < lent_in history) }
        ensures out { out pass.old ≡ out pass.new + 1 }
    {
        put_in(rt, self, &mut pass.pass, segment);
        pass.held -= 1;
    }

    /// Counts the segments. Takes one turn.
    pub fn counts<R: Wait>(&self, rt: &R, pass: &mut PoolPass) -> Counts
        requires pass { IsPassOf self.now pass.old }
        ensures pass { IsPassOf self.now pass.new }
        ensures turn { TookTurn [] pass.old pass.new
            (λ history. AreCounts self.now history result) }
        ensures out { out pass.new ≡ out pass.old }
    {
        let free = count_free(rt, self, &mut pass.pass);
        Counts {
            free,
            lent: self.total - free,
        }
    }
}
