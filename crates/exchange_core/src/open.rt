// How a connection is opened.
ghost use Rattle.std.specs.Prelude.{◌≡◌, ◌*◌, ◌+◌, ◌≤◌, [], length, map, sum, IfOk, IfErr};
ghost use Rattle.std.specs.List.{All, range_with_len};
ghost use Rattle.segment_pool.specs.Pools.{IsLimited, size_of, total_of};
ghost use Rattle.local_pool.specs.Shares.{share_of};
ghost use Rattle.local_pool.specs.Locals.{IsLocalOf, need_of, lent_of, limit_of};
ghost use Rattle.credit_reader.specs.Senders.{sender_of};
ghost use Rattle.script_text.specs.Scripts.{IsOpening};
ghost use Rattle.exchange_world.specs.Lanes.{channel_id, new_lane};
ghost use Rattle.exchange_world.specs.Worlds.{opened, requested, pool_wants};
ghost use Rattle.exchange_core.specs.declared.start_fault.StartFault.TheVariants as start_faults;
ghost use Rattle.exchange_core.specs.Exchanges.{IsWhole, IsLaneOf, world_of, world_lane};
ghost use Rattle.exchange_core.specs.Opening.{lane_share, gate_share, IsPoolReady, IsPoolOf, AreNewLanes};

use crate::connection::Connection;
use crate::lane::Lane;
use crate::sending::channel_id;
use crate::start_fault::StartFault;
use credit_reader::Readers;
use exchange_world::laws::connections_stay_sound;
use flow_defs::ListOf;
use input_channel::InputChannel;
use local_pool::{LocalFault, LocalPool, Want, share};
use record_spans::Reader;
use segment_pool::{Pool, PoolPass};
use std::alloc::{AllocError, Global};
use std::collections::{BTreeSet, VecDeque};
use std::sync::Wait;
use subpartition::Subpartition;

// How many items a channel's subpartition has room for.
const ITEMS_MAX: u32 = 4096;

// How many buffers an input channel has room for.
const BUFFERS_MAX: u32 = 10;

// What each pool is to have: those of the channels, and last that of the gate.
fn wants_of(alloc: Global, channels: u32) -> Result<Vec<Want>, AllocError>
    requires { channels ≤ 16 }
    ensures { IfOk result (λ wants. wants.items ≡ pool_wants channels) }
{
    let mut wants = vec![in alloc; Want { need: 2, most: 10 }; channels as usize]?;
    let need = 2 * channels;
    wants.push(Want {
        need,
        most: need + 8,
    })?;
    Ok(wants)
}

// The readers of the channels, each requested with the credit of two buffers.
fn readers_of(alloc: Global, channels: u32) -> Result<Readers, AllocError>
    requires { channels ≤ 16 }
    ensures { IfOk result (λ readers. readers ≡ requested (range_with_len 1 channels) (sender_of (map channel_id (range_with_len 1 channels)))) }
{
    let mut ids = Vec::with_capacity(alloc, channels as usize)?;
    for c in 1..channels + 1 {
        ids.push(channel_id(c))?;
    }
    let mut readers = Readers::new(alloc, &ids)?;
    for c in 1..channels + 1 {
        let Ok(()) = readers.request(channel_id(c), 2) else {
            unreachable!()
        };
    }
    Ok(readers)
}

// The limits of the pools: the channels' alike, and last the gate's.
fn limits_of(alloc: Global, channels: u32, total: u32) -> Result<Vec<u32>, AllocError>
    requires few { (1 ≤ channels) × (channels ≤ 16) }
    requires enough { 4 * channels ≤ total }
    ensures limits { IfOk result (λ limits. limits.items ≡ map (share_of (pool_wants channels) total) (pool_wants channels)) }
    ensures within { IfOk result (λ limits. sum limits.items ≤ total) }
{
    let wants = wants_of(alloc, channels)?;
    let mut limits = vec![in alloc; 0; wants.len()]?;
    share(&wants, total, &mut limits);
    Ok(limits)
}

// A pool with these limits, the pass of its gate, and those of its channels.
fn pool_of(
    alloc: Global,
    channels: u32,
    size: u32,
    total: u32,
    limits: &[u32],
) -> Result<(Pool, PoolPass, ListOf<PoolPass>), AllocError>
    requires opening { IsOpening channels size total }
    requires limits { limits.now ≡ map (share_of (pool_wants channels) total) (pool_wants channels) }
    requires within { sum limits.now ≤ total }
    ensures pool { IfOk result (λ r. IsLimited r.0 × (size_of r.0 ≡ size) × (total_of r.0 ≡ total)) }
    ensures gate { IfOk result (λ r. IsPoolReady r.0 (gate_share channels total) r.1) }
    ensures lanes { IfOk result (λ r. All (IsPoolReady r.0 (lane_share channels total)) r.2.items) }
    ensures count { IfOk result (λ r. length r.2.items ≡ channels) }
{
    let (pool, mut passes) = Pool::new_limited(alloc, total, size, limits)?;
    let gate = passes.take_last();
    Ok((pool, gate, passes))
}

// A local pool on a pass of a pool with limits, which always has the segments.
fn local_of<R: Wait>(
    rt: &R,
    alloc: Global,
    pool: &Pool,
    pass: PoolPass,
    need: u32,
    limit: u32,
) -> Result<LocalPool, AllocError>
    requires pool { IsLimited pool.now }
    requires pass { IsPoolReady pool.now limit pass }
    requires limit { need ≤ limit }
    ensures { IfOk result (IsPoolOf pool.now need limit 0) }
{
    match LocalPool::new(rt, alloc, pool, pass, need, limit) {
        Ok(mut local) => {
            local.set_limit(limit);
            Ok(local)
        }
        Err(LocalFault::Memory { .. }) => Err(AllocError),
        Err(LocalFault::TooFew { .. }) => unreachable!(),
    }
}

// A channel on which nothing was put, with its two exclusive buffers from the gate's pool.
fn open_lane<R: Wait>(
    rt: &R,
    alloc: Global,
    pool: &Pool,
    gate: &mut LocalPool,
    partition: LocalPool,
) -> Result<Lane, AllocError>
    requires pool { IsLimited pool.now }
    requires gate { IsLocalOf pool.now gate.old }
    requires buffers { lent_of gate.old + 2 ≤ limit_of gate.old }
    requires partition { IsPoolOf pool.now 2 (limit_of partition) 0 partition }
    ensures gate { IfOk result (λ _. IsPoolOf pool.now (need_of gate.old) (limit_of gate.old) (lent_of gate.old + 2) gate.new) }
    ensures lane { IfOk result (IsLaneOf pool.now (limit_of partition)) }
    ensures new { IfOk result (λ lane. world_lane lane ≡ new_lane (size_of pool.now)) }
{
    let Some(first) = gate.request(rt, pool) else {
        unreachable!()
    };
    let Some(second) = gate.request(rt, pool) else {
        unreachable!()
    };
    let Ok(inbox) = InputChannel::new(alloc, first, second, BUFFERS_MAX) else {
        return Err(AllocError);
    };
    Ok(Lane {
        queue: Subpartition::new(alloc, pool.size(), ITEMS_MAX)?,
        barriers: 0,
        finished: false,
        partition,
        inbox,
        owed: 0,
        reader: Reader::new(alloc),
        saves: BTreeSet::new(alloc),
    })
}

// The channels, one on each of these passes.
fn open_lanes<R: Wait>(
    rt: &R,
    alloc: Global,
    pool: &Pool,
    gate: &mut LocalPool,
    passes: ListOf<PoolPass>,
    limit: u32,
) -> Result<ListOf<Lane>, AllocError>
    requires pool { IsLimited pool.now }
    requires gate { IsLocalOf pool.now gate.old }
    requires buffers { lent_of gate.old + 2 * length passes.items ≤ limit_of gate.old }
    requires passes { All (IsPoolReady pool.now limit) passes.items }
    requires limit { 2 ≤ limit }
    ensures gate { IfOk result (λ _. IsPoolOf pool.now (need_of gate.old) (limit_of gate.old) (lent_of gate.old + 2 * length passes.items) gate.new) }
    ensures lanes { IfOk result (λ lanes. AreNewLanes pool.now limit lanes.items) }
    ensures count { IfOk result (λ lanes. length lanes.items ≡ length passes.items) }
{
    let mut passes = passes;
    let mut lanes = ListOf::new(alloc);
    'passes: while let Some(pass) = passes.pop() {
        let partition = local_of(rt, alloc, pool, pass, 2, limit)?;
        let lane = open_lane(rt, alloc, pool, gate, partition)?;
        lanes.push(lane)?;
    }
    Ok(lanes)
}

impl Connection {
    // Opens a connection, where there are segments enough.
    pub(crate) fn open<R: Wait>(
        rt: &R,
        alloc: Global,
        channels: u32,
        size: u32,
        total: u32,
    ) -> Result<Connection, StartFault>
        requires opening { IsOpening channels size total }
        requires enough { 4 * channels ≤ total }
        ensures whole { IfOk result (λ c. IsWhole c) }
        ensures world { IfOk result (λ c. world_of c ≡ opened channels size total) }
        ensures fault { IfErr result (λ fault. fault ≡ start_faults.Memory) }
    {
        connections_stay_sound();
        let limits = limits_of(alloc, channels, total)?;
        let partition_limit = limits[0];
        let gate_limit = limits[channels as usize];
        let readers = readers_of(alloc, channels)?;
        let (pool, pass, passes) = pool_of(alloc, channels, size, total, &limits)?;
        let mut gate = local_of(rt, alloc, &pool, pass, 2 * channels, gate_limit)?;
        let lanes = open_lanes(rt, alloc, &pool, &mut gate, passes, partition_limit)?;
        Ok(Connection {
            pool,
            lanes,
            gate,
            readers,
            frames: VecDeque::new(alloc),
            controls: VecDeque::new(alloc),
            size,
            total,
            partition_limit,
        })
    }
}
