// What waits in a channel, but for the end.
// The data lie in a ring that is made at once, so only a barrier can want memory. The end, which is always
// last, is a flag of the channel.
ghost use Rattle.std.specs.Prelude.{◌≡◌, ◌<◌, ◌≤◌, ◌^◌, [], ◌∷◌, ◌++◌, length, take, map, count_by, not, true, false, Some, IfOk, OnOk, OnErr, MatchOption};
ghost use Rattle.input_channel.specs.Lines.{kinds_of, contents, first_gap, before_last, one_less, parcels, HaveGone, CountsBefore, StartsWithData, GivesFirst};
ghost use Rattle.flow_defs.specs.declared.parcel.Parcel.TheVariants.{Data, Barrier};
ghost use Rattle.flow_defs.specs.Parcels.{barriers_of};
ghost use Rattle.input_channel.specs.Inboxes.{Waits, parcel_of, due, poll_due, is_barrier, front_waits, waiting_before};
ghost use Rattle.input_channel.specs.States.{from_waiting};
ghost use Rattle.input_channel.specs.Contents.{content};

use crate::held::HeldBuf;
use circular_buffer::HeapCircularBuffer;
use flow_defs::{BarrierKind, Bytes};
use std::alloc::{AllocError, Global};
use std::collections::VecDeque;
use std::marker::Model;

/// A barrier, and how many data buffers stand between the one before it and it.
#[derive(Clone, Copy)]
pub(crate) struct Mark {
    pub k: u64,
    pub kind: BarrierKind,
    pub gap: u32,
}

/// Data buffers and barriers that wait, each kind in a line of its own. Where the lines meet is told by
/// how many data buffers stand before each barrier. So a barrier can be polled before them, and keeps its
/// place until they are polled too.
#[derive(Drop)]
pub(crate) struct Queue {
    buffers: HeapCircularBuffer<HeldBuf>,
    barriers: VecDeque<Mark>,
    // How many of the barriers were polled. They are the first ones, since barriers are polled in order.
    polled: usize,
    // How many data buffers stand behind the last barrier.
    behind: u32,
    // How many of the buffers are floating.
    floats: u32,
}

impl Model for Queue {
    ghost use Rattle.std.specs.Prelude.{◌≡◌, ◌+◌, ◌≤◌, ◌<◌, ◌^◌, length};
    ghost use Rattle.input_channel.specs.Lines.{Line, merged, IsMerged};

    ghost Value = { Line };

    ghost view = { λ q. record { arrived = merged q.polled q.barriers.items q.buffers.items; buffers = q.buffers.items; room = q.buffers.capacity } };

    ghost invariant = { λ q. IsMerged q.polled q.behind q.floats q.barriers.items q.buffers };
}

// How many data buffers stand before the first barrier, and 0 where there is none.
fn ahead(barriers: &VecDeque<Mark>) -> u32
    ensures { result ≡ first_gap barriers.now.items }
{
    match barriers.front() {
        Some(mark) => mark.gap,
        None => 0,
    }
}

// A data buffer before the first barrier goes.
fn go_ahead(barriers: &mut VecDeque<Mark>)
    requires { 0 < first_gap barriers.old.items }
    ensures { barriers.new.items ≡ one_less barriers.old.items }
{
    if let Some(mark) = barriers.front_mut() {
        mark.gap -= 1;
    }
}

// Takes barriers off that were polled, up to one with data before it. How many are left that were polled?
fn take_polled(barriers: &mut VecDeque<Mark>, polled: usize) -> usize
    requires { polled ≤ length barriers.old.items }
    ensures { HaveGone barriers.old.items polled barriers.new.items result }
{
    let mut left = polled;
    'marks: while left > 0 {
        if ahead(barriers) > 0 {
            return left;
        }
        barriers.pop_front();
        left -= 1;
    }
    0
}

// How many of so many data buffers stand before barrier k, and all where it is not there.
fn count_before(barriers: &VecDeque<Mark>, buffers: usize, k: u64) -> usize
    requires { (before_last barriers.now.items ≤ buffers) × (buffers < 2 ^ 31) }
    ensures { CountsBefore k barriers.now.items buffers result }
{
    let mut count = 0;
    let mut i = 0;
    'marks: while let Some(mark) = barriers.get(i) {
        count += mark.gap as usize;
        if mark.k == k {
            return count;
        }
        i += 1;
    }
    buffers
}

// A copy of the data in the first buffers, so many.
fn copy_of(
    alloc: Global,
    buffers: &HeapCircularBuffer<HeldBuf>,
    count: usize,
) -> Result<Bytes, AllocError>
    ensures { IfOk result (λ bytes. bytes.items ≡ contents (take count buffers.now.items)) }
{
    let mut bytes = Bytes::new(alloc);
    'copies: for i in 0..count {
        let Some(buf) = buffers.get(i) else {
            return Ok(bytes);
        };
        bytes.extend(buf.data())?;
    }
    Ok(bytes)
}

impl Queue {
    /// An empty queue, with places for so many data buffers.
    pub fn new(alloc: Global, room: u32) -> Result<Queue, AllocError>
        requires { room < 2 ^ 31 }
        ensures { IfOk result (λ q. q ≡ record { arrived = []; buffers = []; room = room }) }
    {
        let buffers = HeapCircularBuffer::with_capacity(alloc, room as usize)?;
        Ok(Queue {
            buffers,
            barriers: VecDeque::new(alloc),
            polled: 0,
            behind: 0,
            floats: 0,
        })
    }

    /// Adds a data buffer at the end.
    pub fn push_data(&mut self, buf: HeldBuf)
        requires { length self.old.buffers < self.old.room }
        ensures { self.new ≡ record { arrived = self.old.arrived ++ Waits (Data (content buf)) ∷ []; buffers = self.old.buffers ++ buf ∷ []; room = self.old.room } }
    {
        self.floats += !buf.exclusive as u32;
        self.behind += 1;
        self.buffers.push_back(buf);
    }

    /// Adds a barrier at the end.
    pub fn push_barrier(&mut self, k: u64, kind: BarrierKind) -> Result<(), AllocError>
        ensures ok { OnOk result (self.new ≡ record { arrived = self.old.arrived ++ Waits (Barrier k kind) ∷ []; buffers = self.old.buffers; room = self.old.room }) }
        ensures err { OnErr result (self.new ≡ self.old) }
    {
        let gap = self.behind;
        self.barriers.push_back(Mark { k, kind, gap })?;
        self.behind = 0;
        Ok(())
    }

    /// Whether the first barrier that waits is front.
    pub fn front_waits(&self) -> bool
        ensures { result ≡ front_waits (parcels self.now) }
    {
        match self.barriers.get(self.polled) {
            Some(mark) => match mark.kind {
                BarrierKind::Front => true,
                BarrierKind::Inline => false,
            },
            None => false,
        }
    }

    /// The barrier that is due, if one is.
    pub fn due_barrier(&self) -> Option<(u64, BarrierKind)>
        ensures { MatchOption result (is_barrier (due (parcels self.now)) ≡ false) (λ b. due (parcels self.now) ≡ Some (Barrier b.0 b.1)) }
    {
        match self.barriers.get(self.polled) {
            Some(mark) => match mark.kind {
                BarrierKind::Inline if ahead(&self.barriers) > 0 => None,
                _ => Some((mark.k, mark.kind)),
            },
            None => None,
        }
    }

    /// How many floating buffers hold data.
    pub fn floating(&self) -> u32
        ensures { result ≡ count_by not (kinds_of self.now.buffers) }
    {
        self.floats
    }

    /// How many barriers stand in the line.
    pub fn barriers(&self) -> usize
        ensures { result ≡ length (barriers_of (map parcel_of self.now.arrived)) }
    {
        self.barriers.len()
    }

    /// How many barriers wait.
    pub fn waiting_barriers(&self) -> usize
        ensures { result ≡ length (barriers_of (parcels self.now)) }
    {
        self.barriers.len() - self.polled
    }

    /// Polls the barrier that is due. It goes, or keeps its place where it jumped data.
    pub fn pop_barrier(&mut self)
        requires { is_barrier (due (parcels self.old)) ≡ true }
        ensures { self.new ≡ record { arrived = from_waiting (poll_due self.old.arrived); buffers = self.old.buffers; room = self.old.room } }
    {
        if ahead(&self.barriers) > 0 {
            self.polled += 1;
            return;
        }
        self.barriers.pop_front();
    }

    /// The first data, where no barrier is due.
    pub fn first_data(&self) -> Option<&[u8]>
        requires { is_barrier (due (parcels self.now)) ≡ false }
        ensures { MatchOption result (self.now.arrived ≡ []) (λ bytes. StartsWithData self.now.arrived bytes.now) }
    {
        let buf = self.buffers.front()?;
        Some(buf.data())
    }

    /// Takes the first data buffer, where no barrier is due.
    pub fn pop_data(&mut self) -> Option<HeldBuf>
        requires { is_barrier (due (parcels self.old)) ≡ false }
        ensures { MatchOption result ((self.old.arrived ≡ []) × (self.new ≡ self.old)) (λ buf. GivesFirst self.old buf self.new) }
    {
        let buf = self.buffers.pop_front()?;
        self.floats -= !buf.exclusive as u32;
        if self.barriers.is_empty() {
            self.behind -= 1;
            return Some(buf);
        }
        go_ahead(&mut self.barriers);
        let left = take_polled(&mut self.barriers, self.polled);
        self.polled = left;
        Some(buf)
    }

    /// A copy of the data that wait before barrier k, and of all that wait where it is not in the line.
    pub fn data_before(&self, alloc: Global, k: u64) -> Result<Bytes, AllocError>
        ensures { IfOk result (λ bytes. bytes.items ≡ waiting_before k self.now.arrived) }
    {
        let count = count_before(&self.barriers, self.buffers.len(), k);
        copy_of(alloc, &self.buffers, count)
    }

    /// The data buffers that are left.
    pub fn into_buffers(self) -> HeapCircularBuffer<HeldBuf>
        ensures { result.items ≡ self.buffers }
    {
        let Queue { buffers, .. } = self;
        buffers
    }
}
