// Links that give little in a read, or fail, and the frame that closes one.
ghost use Rattle.std.specs.Prelude.{◌≤◌, length, take, Some};

use outside::{Failed, LinkIn, LinkOut};
use std::sync::Wait;

pub const CLOSING: [u8; 9] = [0, 0, 0, 9, 0xBA, 0xDC, 0x0F, 0xFE, 5];

/// A link of these bytes that gives at most `most` in a read, and fails from one read on.
#[derive(Drop)]
pub struct SlowIn {
    pub bytes: Vec<u8>,
    pub at: usize,
    pub most: usize,
    pub fails_from: u64,
    pub reads: u64,
    pub faults: u64,
    pub ended: bool,
    pub ghost within: { at ≤ length bytes.items },
}

impl SlowIn {
    /// A link of these bytes that never fails.
    pub fn new(bytes: Vec<u8>, most: usize) -> Self {
        SlowIn {
            bytes,
            at: 0,
            most,
            fails_from: u64::MAX,
            reads: 0,
            faults: 0,
            ended: false,
        }
    }
}

impl LinkIn for SlowIn {
    type Line = u64;

    ghost line = { λ _. 0 };

    ghost got = { λ s. Some (take s.at s.bytes.items) };

    ghost ended = { λ s. Some s.ended };

    ghost faults = { λ s. s.faults };

    ghost never_fails = { λ _. ⊥ };

    ghost is_faultless = { λ old new never. absurd never };

    fn read<R: Wait>(&mut self, _rt: &R, room: &mut [u8]) -> Result<usize, Failed> {
        self.reads = self.reads.saturating_add(1);
        if self.reads >= self.fails_from {
            self.faults = self.faults.saturating_add(1);
            return Err(Failed);
        }
        let left = &self.bytes.as_slice()[self.at..];
        let count = left.len().min(room.len()).min(self.most);
        room[..count].copy_from_slice(&left[..count]);
        self.at += count;
        if count == 0 {
            self.ended = true;
        }
        Ok(count)
    }
}

// A link that takes at most `most` bytes in a write, and fails from one write on.
#[derive(Drop)]
pub struct SlowOut {
    pub bytes: Vec<u8>,
    pub most: usize,
    pub fails_from: u64,
    pub writes: u64,
    pub faults: u64,
    pub finished: bool,
}

impl LinkOut for SlowOut {
    type Line = u64;

    ghost line = { λ _. 0 };

    ghost sent = { λ s. Some s.bytes.items };

    ghost finished = { λ s. Some s.finished };

    ghost faults = { λ s. s.faults };

    ghost never_fails = { λ _. ⊥ };

    ghost is_faultless = { λ old new never. absurd never };

    fn write<R: Wait>(&mut self, _rt: &R, bytes: &[u8]) -> Result<usize, Failed> {
        self.writes = self.writes.saturating_add(1);
        let count = bytes.len().min(self.most);
        let fails = self.writes >= self.fails_from || count == 0;
        if fails || self.bytes.extend_from_slice(&bytes[..count]).is_err() {
            self.faults = self.faults.saturating_add(1);
            return Err(Failed);
        }
        Ok(count)
    }

    fn finish<R: Wait>(&mut self, _rt: &R) {
        self.finished = true;
    }
}
