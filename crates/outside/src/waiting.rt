// Bytes in order, in memory that is taken once.
// They lie in one row, so that no piece wraps and each is moved at once; the toolchain's circular buffer
// takes bytes one by one.
ghost use Rattle.std.specs.Prelude.{◌≡◌, ◌+◌, ◌-◌, ◌≤◌, ◌==◌, [], ◌++◌, min, length, take, drop, vec_capacity, IfOk};

use crate::LINK_ROOM;
use std::alloc::{AllocError, Global};
use std::marker::Model;

// The room of the memory. It holds as many bytes that were taken out as may wait, so that those that wait
// move to its front once for as many that were taken out at least.
const BLOCK: usize = 262_144;

/// The bytes that wait, `LINK_ROOM` at most. Each byte is copied in and out as part of a piece, and moved
/// at most once between. Nothing but `new` takes memory.
#[derive(Drop)]
pub struct Waiting {
    bytes: Vec<u8>,
    // How many of the bytes were taken out.
    start: usize,
}

impl Model for Waiting {
    ghost use Rattle.std.specs.Prelude.{ℕ, ◌≤◌, ◌+◌, List, length, drop, vec_capacity};
    ghost use Rattle.outside.specs.declared.ring.TheConstants.{LINK_ROOM};
    ghost use Rattle.outside.specs.declared.waiting.TheConstants.{BLOCK};

    ghost Value = { List ℕ };

    ghost view = { λ w. drop w.start w.bytes.items };

    ghost invariant = { λ w. (w.start ≤ length w.bytes.items) × (length w.bytes.items ≤ w.start + LINK_ROOM) × (length w.bytes.items ≤ BLOCK) × (BLOCK ≤ vec_capacity w.bytes) };
}

impl Waiting {
    /// No bytes.
    pub(crate) fn new(alloc: Global) -> Result<Self, AllocError>
        ensures { IfOk result (λ w. w ≡ []) }
    {
        Ok(Waiting {
            bytes: Vec::with_capacity(alloc, BLOCK)?,
            start: 0,
        })
    }

    pub(crate) fn len(&self) -> usize
        ensures count { result ≡ length self.now }
        ensures most { result ≤ LINK_ROOM }
    {
        self.bytes.len() - self.start
    }

    pub(crate) fn is_empty(&self) -> bool
        ensures { result ≡ (length self.now == 0) }
    {
        self.len() == 0
    }

    /// Adds a front of these bytes, as many as fit.
    pub(crate) fn add(&mut self, bytes: &[u8]) -> usize
        ensures count { result ≡ min (length bytes.now) (LINK_ROOM - length self.old) }
        ensures added { self.new ≡ self.old ++ take result bytes.now }
    {
        let kept = self.len();
        let count = bytes.len().min(LINK_ROOM - kept);
        if BLOCK - self.bytes.len() < count {
            drop_front(&mut self.bytes, self.start);
            self.start = 0;
        }
        let Ok(()) = self.bytes.extend_from_slice(&bytes[..count]) else {
            unreachable!()
        };
        count
    }

    /// Moves the first bytes into `room`, as many as it holds.
    pub(crate) fn take(&mut self, room: &mut [u8]) -> usize
        ensures count { result ≡ min (length room.old) (length self.old) }
        ensures moved { room.new ≡ take result self.old ++ drop result room.old }
        ensures left { self.new ≡ drop result self.old }
    {
        let count = room.len().min(self.len());
        room[..count].copy_from_slice(&self.bytes[self.start..self.start + count]);
        self.start += count;
        if self.start == self.bytes.len() {
            self.bytes.clear();
            self.start = 0;
        }
        count
    }
}

// Takes the first `count` bytes off, which are half of them at least.
fn drop_front(bytes: &mut Vec<u8>, count: usize)
    requires within { count ≤ length bytes.old.items }
    requires half { length bytes.old.items ≤ count + count }
    ensures items { bytes.new.items ≡ drop count bytes.old.items }
    ensures capacity { vec_capacity bytes.new ≡ vec_capacity bytes.old }
{
    let kept = bytes.len() - count;
    let (front, rest) = bytes.split_at_mut(count);
    front[..kept].copy_from_slice(rest);
    bytes.truncate(kept);
}
