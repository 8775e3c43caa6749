// One channel, both its ends.
ghost use Rattle.std.specs.Prelude.{◌≡◌, ◌+◌, ◌-◌, ◌<◌, ◌≤◌, false, length, min, take, drop, IfOk};
ghost use Rattle.flow_defs.specs.Limits.{record_max};
ghost use Rattle.flow_defs.specs.Records.{encoded};
ghost use Rattle.segment_pool.specs.Pools.{IsLimited, size_of};
ghost use Rattle.local_pool.specs.Locals.{lent_of};
ghost use Rattle.exchange_world.specs.Lanes.{ITEMS_MAX, backlog_in};
ghost use Rattle.exchange_world.specs.Steps.{with_items, bar_reply, bare};
ghost use Rattle.exchange_core.specs.Exchanges.{IsLaneOf, world_lane};
ghost use Rattle.exchange_core.specs.Lanes.{buffers, with_barrier, HasPut, HasTaken, HasRead, AreBytes};

use crate::sent::Sent;
use flow_defs::{BarrierKind, Bytes, ListOf};
use input_channel::InputChannel;
use local_pool::LocalPool;
use record_spans::{NextFault, Reader, write_span};
use script_text::Reply;
use segment_pool::Pool;
use std::alloc::{AllocError, Global};
use std::collections::BTreeSet;
use std::sync::Wait;
use subpartition::{Filled, Item, Subpartition};

/// One channel: what waits to be sent, the pool of its buffers, its receiving end, the reader of its
/// records, and the saves that were opened.
#[derive(Drop)]
pub struct Lane {
    pub(crate) queue: Subpartition,
    // The number of the last barrier put, and whether the end was. A subpartition doesn't tell them.
    pub(crate) barriers: u64,
    pub(crate) finished: bool,
    pub(crate) partition: LocalPool,
    pub(crate) inbox: InputChannel,
    // The inline barriers that were polled and not resumed.
    pub(crate) owed: u64,
    pub(crate) reader: Reader,
    // The numbers of the barriers for which saves were opened. An input channel doesn't tell them.
    pub(crate) saves: BTreeSet<u64>,
}

// Puts one buffer of a record, filled from its byte `done` on, and answers how many bytes went in.
fn put_buffer<R: Wait>(
    rt: &R,
    pool: &Pool,
    lane: &mut Lane,
    limit: u32,
    text: &[u8],
    done: usize,
) -> usize
    requires lane { IsLaneOf pool.now limit lane.old × IsLimited pool.now }
    requires short { length text.now ≤ record_max }
    requires within { done < length text.now + 4 }
    requires unfinished { lane.old.finished ≡ false }
    requires lent { lent_of lane.old.partition < limit }
    requires room { length lane.old.queue.items < ITEMS_MAX }
    ensures some { 0 < result }
    ensures count { result ≡ min (size_of pool.now) (length text.now + 4 - done) }
    ensures put { HasPut pool.now limit lane.old lane.new (take result (drop done (encoded text.now))) }
{
    let Some(mut segment) = lane.partition.request(rt, pool) else {
        unreachable!()
    };
    let filled = write_span(text, done, segment.bytes_mut());
    lane.queue.put(Filled {
        segment,
        len: filled as u32,
    });
    filled
}

// Puts a record into buffers, the last one filled as far as the record goes.
pub(crate) fn put_record<R: Wait>(rt: &R, pool: &Pool, lane: &mut Lane, limit: u32, text: &[u8])
    requires lane { IsLaneOf pool.now limit lane.old × IsLimited pool.now }
    requires short { length text.now ≤ record_max }
    requires unfinished { lane.old.finished ≡ false }
    requires lent { backlog_in (world_lane lane.old).items + length (buffers pool.now text.now) ≤ limit }
    requires room { length lane.old.queue.items + length (buffers pool.now text.now) ≤ ITEMS_MAX }
    ensures lane { IsLaneOf pool.now limit lane.new }
    ensures put { world_lane lane.new ≡ with_items (world_lane lane.old) (buffers pool.now text.now) }
{
    let len = text.len() + 4;
    let mut done = 0;
    'buffers: while done < len {
        done += put_buffer(rt, pool, lane, limit, text, done);
    }
}

// Puts a barrier, and replies to it.
#[tactic(auto, using(crate::proofs::LaneSteps::overtaken_is))]
pub(crate) fn put_barrier(
    alloc: Global,
    lane: &mut Lane,
    c: u32,
    k: u64,
    kind: BarrierKind,
) -> Result<Reply, AllocError>
    requires unfinished { lane.old.queue.finished ≡ false }
    requires room { length lane.old.queue.items < lane.old.queue.room }
    requires next { k ≡ lane.old.queue.barriers + 1 }
    ensures lane { IfOk result (λ _. lane.new ≡ with_barrier lane.old k kind) }
    ensures reply { IfOk result (λ reply. bare reply ≡ bar_reply c k kind (world_lane lane.old)) }
{
    lane.barriers = k;
    match kind {
        BarrierKind::Inline => {
            lane.queue.put_inline(k);
            Ok(Reply::Done)
        }
        BarrierKind::Front => {
            let bytes = lane.queue.put_front(alloc, k)?;
            Ok(Reply::SavedOut { c, k, bytes })
        }
    }
}

// Takes the first item, and gives its segment back to the partition's pool.
pub(crate) fn take_item<R: Wait>(
    rt: &R,
    alloc: Global,
    pool: &Pool,
    lane: &mut Lane,
    limit: u32,
) -> Result<Sent, AllocError>
    requires lane { IsLaneOf pool.now limit lane.old }
    requires some { 1 ≤ length lane.old.queue.items }
    ensures lane { IfOk result (λ _. IsLaneOf pool.now limit lane.new) }
    ensures taken { IfOk result (HasTaken (world_lane lane.old) (world_lane lane.new)) }
{
    match lane.queue.take() {
        Some(Item::Buffer(filled)) => {
            let content = Bytes::of(alloc, filled.bytes())?;
            lane.partition.give(rt, pool, filled.segment);
            Ok(Sent::data(content))
        }
        Some(Item::Barrier { k, kind }) => Ok(Sent::barrier(alloc, k, kind)),
        Some(Item::End) => Ok(Sent::end(alloc)),
        None => unreachable!(),
    }
}

// What a slice of bytes has are bytes.
fn are_bytes(bytes: &[u8])
    ensures { AreBytes bytes.now }
{
    // Only the clause speaks of them.
    let _count = bytes.len();
}

// Reads all whole records.
pub(crate) fn records_of(alloc: Global, reader: &mut Reader) -> Result<ListOf<Bytes>, AllocError>
    ensures { IfOk result (λ records. HasRead reader.old reader.new records) }
{
    let mut records = ListOf::new(alloc);
    'records: loop {
        are_bytes(reader.rest());
        match reader.next() {
            Ok(Some(record)) => records.push(record)?,
            Err(NextFault::Memory) => return Err(AllocError),
            Ok(None) => return Ok(records),
            // A length that is no record's never comes from an end that lays down records.
            Err(NextFault::TooLong { .. }) => return Ok(records),
        }
    }
}
