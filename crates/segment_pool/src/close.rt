// How a pool is closed.
ghost use Rattle.std.specs.Prelude.{◌≡◌, ◌-◌, ◌^◌, ◌<◌, ◌↔◌, min, IsOk, IsErr, IfOk, IfErr};
ghost use Rattle.std.specs.List.{All, sum_by};
ghost use Rattle.segment_pool.specs.Passes.{out};
ghost use Rattle.segment_pool.specs.Pools.{AreAll, total_of};

use crate::pass::PoolPass;
use crate::places::gathered;
use crate::pool::Pool;
use flow_defs::ListOf;

/// A pool that can't be closed yet, with its passes, and how many segments are lent.
#[derive(Drop)]
pub struct StillLent {
    pub pool: Pool,
    pub passes: ListOf<PoolPass>,
    pub lent: u32,
}

// What the passes have out together, or the largest number where it is more.
fn lent_by(passes: &[PoolPass]) -> u32
    ensures { result ≡ min (sum_by (λ pass. pass.held) passes.now) (2 ^ 32 - 1) }
{
    let mut lent: u32 = 0;
    for pass in passes {
        lent = lent.saturating_add(pass.held);
    }
    lent
}

impl Pool {
    /// Closes the pool, with all its passes in the order of their numbers, and returns its total.
    /// Where a segment is lent nothing is closed, and all is handed back. Takes no turn and no memory.
    pub fn close(self, passes: ListOf<PoolPass>) -> Result<u32, StillLent>
        requires { AreAll self passes.items }
        ensures exact { IsErr result ↔ (0 < sum_by out passes.items) }
        ensures none_out { IsOk result ↔ All (λ pass. out pass ≡ 0) passes.items }
        ensures ok { IfOk result (λ total. total ≡ total_of self) }
        ensures still_lent { IfErr result (λ still.
            (still.pool ≡ self) × (still.passes ≡ passes) × (still.lent ≡ sum_by out passes.items)) }
    {
        let lent = lent_by(passes.as_slice());
        // More than the total is never out, as the history of the closed cell says.
        if 0 < lent && lent <= self.total {
            return Err(StillLent {
                pool: self,
                passes,
                lent,
            });
        }
        let Pool {
            cell,
            total,
            size: _,
        } = self;
        let _ = cell.close(gathered(passes));
        Ok(total)
    }
}
