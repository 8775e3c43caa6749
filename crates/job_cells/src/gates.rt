// The receiving end of an edge.
ghost use Rattle.std.specs.Prelude.{◌≡◌, ℕ, ◌+◌, ◌*◌, ◌<◌, ◌≤◌, [], length, slice_get, IfOk, OnOk, Some};
ghost use Rattle.segment_pool.specs.Pools.{IsLimited, size_of};
ghost use Rattle.local_pool.specs.Locals.{IsLocalOf, lent_of, limit_of};
ghost use Rattle.input_channel.specs.States.{opening};
ghost use Rattle.job_cells.specs.Edges.{HaveShare, buffers_room};
ghost use Rattle.job_cells.specs.Ends.{AreGates, AreInputs, HasGate};
ghost use Rattle.job_cells.specs.Grants.{gate_want};
ghost use Rattle.job_cells.specs.Groups.{AreDealt};
ghost use Rattle.job_cells.specs.Lending.{HasLent, MayLend};

use crate::group::Group;
use crate::lender::Lender;
use crate::pool_cells::PoolCells;
use flow_defs::ListOf;
use input_channel::InputChannel;
use input_channel::laws::channels_stand_for_histories;
use local_pool::LocalPool;
use segment_pool::Pool;
use std::alloc::{AllocError, Global};
use std::sync::Wait;
use turn_cell::Pass;

// How many buffers an input channel has room for.
const BUFFERS_MAX: u32 = 10;

/// The input channels of an edge, with the passes of each gate at its own, and the gates' pools.
#[derive(Drop)]
pub struct Gates<'p> {
    pub group: Group<InputChannel>,
    pub passes: ListOf<ListOf<Pass<InputChannel>>>,
    pub pools: PoolCells<'p>,
}

// A channel with its two exclusive buffers from the gate's pool.
fn input_of<R: Wait>(
    rt: &R,
    alloc: Global,
    pool: &Pool,
    local: &mut LocalPool,
) -> Result<InputChannel, AllocError>
    requires pool { IsLimited pool.now }
    requires local { IsLocalOf pool.now local.old }
    requires left { lent_of local.old + 2 ≤ limit_of local.old }
    ensures local { IsLocalOf pool.now local.new × (limit_of local.new ≡ limit_of local.old) × (lent_of local.new ≡ lent_of local.old + 2) }
    ensures opened { IfOk result (λ input. input ≡ opening (size_of pool.now) buffers_room) }
{
    let Some(first) = local.request(rt, pool) else {
        unreachable!()
    };
    let Some(second) = local.request(rt, pool) else {
        unreachable!()
    };
    match InputChannel::new(alloc, first, second, BUFFERS_MAX) {
        Ok(input) => Ok(input),
        Err(_) => Err(AllocError),
    }
}

// Adds the channels of a gate, and hands out its passes.
fn add_inputs<R: Wait>(
    rt: &R,
    alloc: Global,
    pool: &Pool,
    local: &mut LocalPool,
    group: &mut Group<InputChannel>,
    ways: u32,
) -> Result<ListOf<Pass<InputChannel>>, AllocError>
    requires pool { IsLimited pool.now }
    requires local { IsLocalOf pool.now local.old × (lent_of local.old ≡ 0) }
    requires left { 2 * ways ≤ limit_of local.old }
    requires dealt { AreDealt group.old }
    requires opened { AreInputs (size_of pool.now) group.old.cells.items }
    ensures local { IfOk result (λ _. IsLocalOf pool.now local.new × (limit_of local.new ≡ limit_of local.old)) }
    ensures dealt { IfOk result (λ _. AreDealt group.new) }
    ensures opened { IfOk result (λ _. AreInputs (size_of pool.now) group.new.cells.items) }
    ensures gate { IfOk result (λ own. HasGate ways group.old.cells.items group.new.cells.items own.items) }
{
    channels_stand_for_histories();
    let mut own = ListOf::new(alloc);
    for _way in 0..ways {
        let input = input_of(rt, alloc, pool, local)?;
        own.push(group.add(alloc, input)?)?;
    }
    Ok(own)
}

impl<'p> Gates<'p> {
    // No gates.
    fn new(alloc: Global) -> Self
        ensures { (ways size : ℕ) → AreGates 0 ways size result }
    {
        Gates {
            group: Group::new(alloc),
            passes: ListOf::new(alloc),
            pools: PoolCells::new(alloc),
        }
    }
}

/// So many gates of so many channels each, with their pools.
pub fn gates_of<'p, R: Wait>(
    rt: &R,
    alloc: Global,
    pool: &'p Pool,
    lender: &mut Lender,
    many: u32,
    ways: u32,
) -> Result<Gates<'p>, AllocError>
    requires may { MayLend pool.now lender.old }
    requires wants { (b : ℕ) → b < many → slice_get lender.old.wants.items (lender.old.given + b) ≡ Some (gate_want ways) }
    ensures lender { IfOk result (λ _. MayLend pool.now lender.new × HasLent many lender.old lender.new) }
    ensures gates { IfOk result (AreGates many ways (size_of pool.now)) }
    ensures shares { IfOk result (λ gates. HaveShare lender.old.wants.items (gate_want ways) gates.pools.cells.items) }
{
    let mut gates = Gates::new(alloc);
    for _made in 0..many {
        let mut local = lender.lend(rt, alloc, pool)?;
        let own = add_inputs(rt, alloc, pool, &mut local, &mut gates.group, ways)?;
        gates.passes.push(own)?;
        gates.pools.add(alloc, pool, local)?;
    }
    Ok(gates)
}
