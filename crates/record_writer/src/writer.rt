// Writes a task's records to the channels of its edge.
// The passes come as they were made. Of any other it isn't known before a turn that what it has seen is a
// history.
ghost use Rattle.std.specs.Prelude.{◌≡◌, ◌++◌, [], ◌∷◌, IfOk, IfErr, OnOk, OnErr};
ghost use Rattle.turn_cell.specs.Passes.{IsPassOf, mine};
ghost use Rattle.flow_defs.specs.Records.{IsShort};
ghost use Rattle.record_writer.specs.Partitions.{IsPartitionOf, IsWriterOf};
ghost use Rattle.subpartition.specs.declared.entry.SendEntry.TheVariants.{PutInline, Finish};
ghost use Rattle.record_writer.specs.Segments.{HasLostNone, NoneLost, all_put};
ghost use Rattle.record_writer.specs.Writers.{IsSame, IsStill, IsOpen, IsNew, HasSeenFault, IsNextBarrier, HasEmitted, WasStopped, HasFinished, HasMarked, HasPutData, HasPutTowards, AreOwnAt, ways_on};

use crate::channels::Channels;
use crate::part::new_parts;
use crate::partition::{Partition, PartitionPasses};
use crate::router::Router;
use crate::supply::Supply;
use flow_defs::Job;
use local_pool::HeldPool;
use outside::{StopState, look_for_stop};
use std::alloc::Global;
use std::marker::Model;
use std::sync::Wait;
use turn_cell::{Pass, TurnCell};

/// No memory for a writer. It hands the passes back.
#[derive(Drop)]
pub struct NoWriter<'p> {
    pub passes: PartitionPasses<'p>,
    pub stop_pass: Pass<StopState>,
}

/// Another worker had met a fault while the writer waited for a buffer or for room.
#[derive(Clone, Copy, Debug, PartialEq, Eq)]
pub struct WriterStopped;

/// Writes records to the channels of an edge, for one task that sends on it.
///
/// Each record goes to the channel that the edge's exchange selects, by the record's key and the count of
/// records emitted before. It is laid down behind the others of its channel in a buffer of the task's
/// partition; a buffer is put on the channel when it is full, before a barrier, and at the end. The writer
/// waits where its pool has no segment for it, or a subpartition no room.
///
/// Each record is copied once. No call but `new` takes memory.
#[derive(Drop)]
pub struct RecordWriter<'a, 'p> {
    router: Router<'a>,
    channels: Channels<'a>,
    supply: Supply<'a, 'p>,
    emitted: u64,
}

impl<'a, 'p> Model for RecordWriter<'a, 'p> {
    ghost use Rattle.std.specs.Prelude.{map};
    ghost use Rattle.record_writer.specs.Writers.{Writer, bytes_in};
    ghost use Rattle.record_writer.specs.Segments.{all_held, lending_of};
    ghost use Rattle.record_writer.specs.Lists.{IsWhole};

    ghost Value = { Writer };

    ghost view = { λ w. record { job = w.router.job.now; edge = w.router.edge; index = w.router.index; cells = w.channels.subpartitions.now; first = w.channels.first; stride = w.channels.stride; size = w.supply.size; pool = w.supply.pool.now; stop = w.supply.stop.now; passes = w.channels.passes.items; stop_pass = w.supply.stop_pass; filling = map bytes_in w.channels.parts.items; lending = lending_of w.supply; held = all_held w.channels.parts.items; emitted = w.emitted } };

    ghost invariant = { λ w. IsWhole w.router.job.now w.router.edge w.channels w.supply };
}

impl<'a, 'p> RecordWriter<'a, 'p> {
    /// The writer of the task of this index that sends on this edge of the job, and has emitted so many records
    /// before, modulo 2^64.
    pub fn new(
        alloc: Global,
        job: &'a Job,
        edge: u32,
        index: u32,
        emitted: u64,
        partition: Partition<'a, 'p>,
        stop: &'a TurnCell<StopState>,
        stop_pass: Pass<StopState>,
    ) -> Result<RecordWriter<'a, 'p>, NoWriter<'p>>
        requires partition { IsPartitionOf job.now edge index partition }
        requires stop { IsPassOf stop.now stop_pass }
        ensures new { IfOk result (λ w. IsNew w × IsOpen w × (w.emitted ≡ emitted)) }
        ensures is_of { IfOk result (λ w. IsWriterOf job.now edge index partition.entry w × (w.stop ≡ stop.now) × (w.stop_pass ≡ stop_pass)) }
        ensures refused { IfErr result (λ back. (back.passes ≡ partition.entry.passes) × (back.stop_pass ≡ stop_pass)) }
    {
        let Partition {
            subpartitions,
            first,
            stride,
            pool,
            size,
            passes,
        } = partition;
        let Ok(parts) = new_parts(alloc, passes.subpartitions.as_slice().len()) else {
            return Err(NoWriter { passes, stop_pass });
        };
        let PartitionPasses {
            subpartitions: own,
            pool: pool_pass,
        } = passes;
        Ok(RecordWriter {
            router: Router::new(job, edge, index),
            channels: Channels {
                subpartitions,
                first,
                stride,
                passes: own,
                parts,
            },
            supply: Supply {
                pool,
                pool_pass: Some(pool_pass),
                size,
                stop,
                stop_pass,
            },
            emitted,
        })
    }

    /// Writes a record behind those before it.
    pub fn emit<R: Wait>(&mut self, rt: &R, record: &[u8]) -> Result<(), WriterStopped>
        requires is_open { IsOpen self.old }
        requires short { IsShort «record».now }
        ensures same { IsSame self.old self.new }
        ensures emitted { OnOk result (IsOpen self.new × HasEmitted self.old self.new («record».now ∷ [])) }
        ensures stopped { OnErr result (WasStopped self.old self.new («record».now ∷ [])) }
        ensures entries { HasPutData self.old self.new }
        ensures none_lost { HasLostNone self.old self.new }
    {
        let number = self.router.select(record, self.emitted);
        self.channels
            .lay_down(rt, &mut self.supply, number, record)?;
        self.emitted = self.emitted.wrapping_add(1);
        Ok(())
    }

    /// Puts what is still in buffers, and then an inline barrier of this number on each channel. More may be
    /// emitted after it.
    pub fn mark<R: Wait>(&mut self, rt: &R, k: u64) -> Result<(), WriterStopped>
        requires is_open { IsOpen self.old }
        requires next { IsNextBarrier self.old k }
        ensures same { IsSame self.old self.new }
        ensures marked { OnOk result (IsOpen self.new × HasMarked self.old self.new k) }
        ensures stopped { OnErr result (WasStopped self.old self.new []) }
        ensures entries { OnErr result (HasPutTowards (PutInline k) self.old self.new) }
        ensures none_lost { HasLostNone self.old self.new }
    {
        self.channels.mark_all(rt, &mut self.supply, k)
    }

    /// Puts what is still in buffers, and then the end of each channel.
    pub fn finish<R: Wait>(&mut self, rt: &R) -> Result<(), WriterStopped>
        requires { IsOpen self.old }
        ensures same { IsSame self.old self.new }
        ensures finished { OnOk result (HasFinished self.old self.new) }
        ensures stopped { OnErr result (WasStopped self.old self.new []) }
        ensures entries { OnErr result (HasPutTowards Finish self.old self.new) }
        ensures none_lost { HasLostNone self.old self.new }
    {
        self.channels.close_all(rt, &mut self.supply)
    }

    /// Looks whether another worker has met a fault, as a caller does that waits for something else.
    pub fn look_for_stop<R: Wait>(&mut self, rt: &R) -> Result<(), WriterStopped>
        ensures still { IsStill self.old self.new }
        ensures stopped { OnErr result (HasSeenFault self.new) }
    {
        match look_for_stop(rt, self.supply.stop, &mut self.supply.stop_pass) {
            Some(_) => Err(WriterStopped),
            None => Ok(()),
        }
    }

    /// How many records were emitted, modulo 2^64.
    pub fn emitted(&self) -> u64
        ensures { result ≡ self.now.emitted }
    {
        self.emitted
    }

    /// Ends the writer. Segments that are being filled go back to the pool.
    pub fn into_passes<R: Wait>(self, rt: &R) -> (PartitionPasses<'p>, Pass<StopState>)
        ensures passes { AreOwnAt self.entry.cells self.entry.first self.entry.stride (ways_on self.entry.job self.entry.edge) result.0.subpartitions.items }
        ensures own { result.0.subpartitions.items ≡ self.entry.passes }
        ensures pool { IsPassOf self.entry.pool result.0.pool }
        ensures none_lost { NoneLost self.entry.lending (mine result.0.pool) (all_put self.entry.passes) (all_put result.0.subpartitions.items) self.entry.held 0 }
        ensures stop { IsPassOf self.entry.stop result.1 × (result.1 ≡ self.entry.stop_pass) }
    {
        let RecordWriter {
            router: _,
            channels,
            mut supply,
            emitted: _,
        } = self;
        let Channels {
            subpartitions: _,
            first: _,
            stride: _,
            passes,
            parts,
        } = channels;
        supply.give_all(rt, parts);
        let Supply {
            pool: _,
            pool_pass,
            size: _,
            stop: _,
            stop_pass,
        } = supply;
        let Some(pool) = pool_pass else {
            unreachable!()
        };
        let passes = PartitionPasses {
            subpartitions: passes,
            pool,
        };
        (passes, stop_pass)
    }
}
