// The cells of a connection, and what has its segments from which pool.
ghost use Rattle.std.specs.Prelude.{◌≡◌, ◌+◌, ◌<◌, ◌≤◌, ◌^◌, [], length, IfOk, OnOk};
ghost use Rattle.std.specs.List.{All};
ghost use Rattle.segment_pool.specs.Pools.{limits_of, size_of};
ghost use Rattle.segment_pool.specs.Stocks.{IsSize};
ghost use Rattle.local_pool.specs.Helds.{pool_of};
ghost use Rattle.local_pool.specs.Locals.{IsLocalOf};
ghost use Rattle.input_channel.specs.States.{opening};
ghost use Rattle.conn_harness.specs.declared.pools.TheConstants.{CHANNELS_MAX, BUFFERS_MAX};
ghost use Rattle.conn_harness.specs.Groups.{AreMade, IsPassReady};

use crate::group::Group;
use flow_defs::ListOf;
use input_channel::InputChannel;
use input_channel::laws::channels_stand_for_histories;
use local_pool::{HeldPool, LocalPool};
use segment_pool::{Pool, PoolPass};
use std::alloc::{AllocError, Global};
use std::sync::Wait;
use subpartition::Subpartition;
use subpartition::laws::calls_add_entries;

/// The most channels of a connection.
pub const CHANNELS_MAX: u32 = 64;

// How many segments the pool of a channel's partition needs, and how many it lends at most.
const PARTITION_NEED: u32 = 2;

const PARTITION_MOST: u32 = 10;

// How many segments a gate's pool needs for each channel, and how many it lends beyond them.
const GATE_NEED: u32 = 2;

const GATE_FLOATING: u32 = 8;

// How many items a subpartition has room for, and how many buffers an input channel.
const ITEMS_MAX: u32 = 64;

const BUFFERS_MAX: u32 = 10;

/// How many segments all pools lend together at most.
pub fn segments_for(channels: u32) -> u32
    requires { channels ≤ CHANNELS_MAX }
    ensures { (1 ≤ result) × (result ≤ 1000) }
{
    (PARTITION_MOST + GATE_NEED) * channels + GATE_FLOATING
}

// A local pool that lends its most at once.
fn local_pool_of<R: Wait>(
    rt: &R,
    alloc: Global,
    pool: &Pool,
    pass: PoolPass,
    need: u32,
    most: u32,
) -> Result<LocalPool, AllocError>
    requires pool { limits_of pool.now ≡ [] }
    requires pass { IsPassReady pool.now pass }
    requires most { need ≤ most }
    ensures { IfOk result (λ local. IsLocalOf pool.now local) }
{
    match LocalPool::new(rt, alloc, pool, pass, need, most) {
        Ok(mut local) => {
            local.set_limit(most);
            Ok(local)
        }
        Err(_) => Err(AllocError),
    }
}

/// The pools of the partitions, one on each of these passes.
pub fn partitions_of<'p, R: Wait>(
    rt: &R,
    alloc: Global,
    pool: &'p Pool,
    passes: ListOf<PoolPass>,
) -> Result<Group<HeldPool<'p>>, AllocError>
    requires pool { limits_of pool.now ≡ [] }
    requires passes { All (IsPassReady pool.now) passes.items }
    ensures { IfOk result (AreMade (λ held. size_of (pool_of held) ≡ size_of pool.now) (length passes.items)) }
{
    let mut rest = passes;
    let mut group = Group::new(alloc);
    while let Some(pass) = rest.pop() {
        let local = local_pool_of(rt, alloc, pool, pass, PARTITION_NEED, PARTITION_MOST)?;
        group.add(alloc, HeldPool::new(pool, local))?;
    }
    Ok(group)
}

/// So many subpartitions for segments of this size.
pub fn subpartitions_of(
    alloc: Global,
    channels: u32,
    size: u32,
) -> Result<Group<Subpartition>, AllocError>
    requires { IsSize size }
    ensures { IfOk result (AreMade (λ queue. queue.size ≡ size) channels) }
{
    calls_add_entries();
    let mut group = Group::new(alloc);
    for _channel in 0..channels {
        group.add(alloc, Subpartition::new(alloc, size, ITEMS_MAX)?)?;
    }
    Ok(group)
}

/// The cells of a gate: those of its channels, and that of its pool.
#[derive(Drop)]
pub struct Gate<'p> {
    pub inputs: Group<InputChannel>,
    pub pools: Group<HeldPool<'p>>,
}

// A channel with its two exclusive buffers from the gate's pool.
fn input_of<R: Wait>(
    rt: &R,
    alloc: Global,
    pool: &Pool,
    local: &mut LocalPool,
) -> Result<InputChannel, AllocError>
    requires { IsLocalOf pool.now local.old }
    ensures local { IsLocalOf pool.now local.new }
    ensures opened { IfOk result (λ input. input ≡ opening (size_of pool.now) BUFFERS_MAX) }
{
    let Some(first) = local.request(rt, pool) else {
        return Err(AllocError);
    };
    let Some(second) = local.request(rt, pool) else {
        return Err(AllocError);
    };
    match InputChannel::new(alloc, first, second, BUFFERS_MAX) {
        Ok(input) => Ok(input),
        Err(_) => Err(AllocError),
    }
}

/// A gate of so many channels, with a pool of its own on this pass.
pub fn gate_of<'p, R: Wait>(
    rt: &R,
    alloc: Global,
    pool: &'p Pool,
    pass: PoolPass,
    channels: u32,
) -> Result<Gate<'p>, AllocError>
    requires pool { limits_of pool.now ≡ [] }
    requires pass { IsPassReady pool.now pass }
    requires few { channels ≤ CHANNELS_MAX }
    ensures inputs { IfOk result (λ gate. AreMade (λ input. input.size ≡ size_of pool.now) channels gate.inputs) }
    ensures pools { IfOk result (λ gate. AreMade (λ held. size_of (pool_of held) ≡ size_of pool.now) 1 gate.pools) }
{
    channels_stand_for_histories();
    let need = GATE_NEED * channels;
    let mut local = local_pool_of(rt, alloc, pool, pass, need, need + GATE_FLOATING)?;
    let mut inputs = Group::new(alloc);
    for _channel in 0..channels {
        let input = input_of(rt, alloc, pool, &mut local)?;
        inputs.add(alloc, input)?;
    }
    let mut pools = Group::new(alloc);
    pools.add(alloc, HeldPool::new(pool, local))?;
    Ok(Gate { inputs, pools })
}
