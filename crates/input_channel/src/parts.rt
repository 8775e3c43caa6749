// The fields of a channel.
ghost use Rattle.std.specs.Prelude.{◌≡◌, ◌≤◌, [], length, map, nat_le, if◌then◌else◌, false, None, IfOk, IsOk, OnOk, OnErr, MatchOption};
ghost use Rattle.flow_defs.specs.Parcels.{barriers_of};
ghost use Rattle.input_channel.specs.Inboxes.{due, is_barrier, parcel_of, waiting_before};
ghost use Rattle.input_channel.specs.Lines.{parcels};
ghost use Rattle.input_channel.specs.Kept.{save_of, passed_by, with_gain, IsSavingFor, TakesData, TakesNothing, ClosesSave};

use crate::held::HeldBuf;
use crate::queue::Queue;
use circular_buffer::HeapCircularBuffer;
use flow_defs::Bytes;
use segment_pool::Segment;
use std::alloc::{AllocError, Global};

/// A save that is open: the number of its barrier, and what it has so far of the data before that.
#[derive(Drop)]
pub(crate) struct Saving {
    pub number: u64,
    pub bytes: Bytes,
}

/// Gives an open save these data, if its barrier is not one of so many that came before them.
pub(crate) fn gain(save: &mut Option<Saving>, passed: u64, bytes: &[u8]) -> Result<(), AllocError>
    ensures ok { OnOk result (save_of save.new ≡ with_gain passed bytes.now (save_of save.old)) }
    ensures err { OnErr result (save_of save.new ≡ save_of save.old) }
    ensures none { save_of save.old ≡ None → IsOk result }
{
    match save {
        Some(saving) => {
            if saving.number > passed {
                saving.bytes.extend(bytes)?;
            }
            Ok(())
        }
        None => Ok(()),
    }
}

/// What an `InputChannel` has. It lies on the heap, so that a turn at the channel's cell moves one word.
#[derive(Drop)]
pub(crate) struct Parts {
    pub queue: Queue,
    // How many barriers came before the data that were polled last.
    pub reached: u64,
    pub save: Option<Saving>,
    // The free buffers.
    pub exclusive: HeapCircularBuffer<Segment>,
    pub floating: HeapCircularBuffer<Segment>,
    pub pending: u32,
    pub required: u32,
    pub is_shut: bool,
    // The credit that is open: what was announced less what was received. It is at most the number of
    // the channel's buffers, and kept exactly.
    pub credit: u32,
    // The two totals have no end in the definitions. They are kept modulo 2^64, as answers carry them,
    // and nothing is decided by them.
    pub announced: u64,
    pub received: u64,
    // The sequence number that comes next, and the number of the last barrier.
    pub next: u32,
    pub last: u64,
    // Whether the end came, and whether it still waits, behind all else.
    pub ended: bool,
    pub end_waits: bool,
    // The resumptions owed for inline barriers that were polled, and those asked for and not taken.
    pub owed: u64,
    pub asked: u64,
    pub size: u32,
    pub room: u32,
}

impl Parts {
    /// How many barriers came before all that is in the line.
    pub fn passed(&self) -> u64
        requires { length (barriers_of (map parcel_of self.now.queue.arrived)) ≤ self.now.last }
        ensures { result ≡ passed_by self.now }
    {
        self.last - self.queue.barriers() as u64
    }

    /// Takes the first data, where no barrier is due. An open save gains them, if its barrier did not come
    /// before them.
    pub fn take_data(&mut self) -> Result<Option<HeldBuf>, AllocError>
        requires calm { is_barrier (due (parcels self.old.queue)) ≡ false }
        requires barriers { length (barriers_of (map parcel_of self.old.queue.arrived)) ≤ self.old.last }
        ensures answered { save_of self.old.save ≡ None → IsOk result }
        ensures taken { IfOk result (λ found. MatchOption found ((self.old.queue.arrived ≡ []) × (self.new ≡ self.old)) (λ buf. TakesData self.old buf self.new)) }
        ensures kept { OnErr result (TakesNothing self.old self.new) }
    {
        let passed = self.passed();
        let Some(bytes) = self.queue.first_data() else {
            return Ok(None);
        };
        gain(&mut self.save, passed, bytes)?;
        match self.queue.pop_data() {
            Some(buf) => {
                self.reached = passed;
                Ok(Some(buf))
            }
            None => unreachable!(),
        }
    }

    // A copy of the data that wait before barrier k, where that is in the line.
    fn late(&self, alloc: Global, k: u64) -> Result<Bytes, AllocError>
        requires { length (barriers_of (map parcel_of self.now.queue.arrived)) ≤ self.now.last }
        ensures { IfOk result (λ bytes. bytes.items ≡ (if nat_le k (passed_by self.now) then [] else waiting_before k self.now.queue.arrived)) }
    {
        if k <= self.passed() {
            return Ok(Bytes::new(alloc));
        }
        self.queue.data_before(alloc, k)
    }

    /// Closes the save for barrier k, which has come. What it has is given, with the data that wait before
    /// the barrier.
    pub fn close(&mut self, alloc: Global, k: u64) -> Result<Bytes, AllocError>
        requires barriers { length (barriers_of (map parcel_of self.old.queue.arrived)) ≤ self.old.last }
        requires saving { IsSavingFor self.old.save k }
        ensures given { IfOk result (λ bytes. ClosesSave self.old k bytes.items self.new) }
        ensures kept { OnErr result (TakesNothing self.old self.new) }
    {
        let passed = self.passed();
        let late = self.late(alloc, k)?;
        gain(&mut self.save, passed, late.as_slice())?;
        match self.save.take() {
            Some(saving) => {
                let Saving { bytes, .. } = saving;
                Ok(bytes)
            }
            None => unreachable!(),
        }
    }
}
