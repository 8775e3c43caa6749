// Ends of links in memory that take or give at most so many bytes a call, and keep what was written.
ghost use Rattle.std.specs.Prelude.{◌≡◌, ◌<◌, ◌≤◌, length, Some};
ghost use Rattle.outside.specs.MemoryLinks.{in_faults, out_faults};

use flow_defs::ListOf;
use outside::{Failed, LinkIn, LinkOut, MemoryIn, MemoryOut};
use std::sync::Wait;

// The end that is written to. `most` is at least 1.
#[derive(Drop)]
pub(crate) struct TapOut {
    pub(crate) inner: MemoryOut,
    pub(crate) most: usize,
    pub(crate) seen: ListOf<u8>,
    pub(crate) ghost some: { 1 ≤ most },
}

impl LinkOut for TapOut {
    type Line = u64;

    ghost line = { λ _. 0 };

    ghost sent = { λ s. Some s.inner.sent };

    ghost finished = { λ s. Some s.inner.finished };

    ghost faults = { λ s. out_faults s.inner };

    ghost never_fails = { λ _. ⊥ };

    ghost is_faultless = { λ old new never. absurd never };

    fn write<R: Wait>(&mut self, rt: &R, bytes: &[u8]) -> Result<usize, Failed> {
        let piece = &bytes[..bytes.len().min(self.most)];
        let count = self.inner.write(rt, piece)?;
        // A byte that could not be kept is missed by the test.
        let _kept = self.seen.extend(&piece[..count]);
        Ok(count)
    }

    fn finish<R: Wait>(&mut self, rt: &R) {
        self.inner.finish(rt);
    }
}

// The end that is read from.
#[derive(Drop)]
pub(crate) struct TapIn {
    pub(crate) inner: MemoryIn,
    pub(crate) most: usize,
    pub(crate) ghost some: { 1 ≤ most },
}

impl LinkIn for TapIn {
    type Line = u64;

    ghost line = { λ _. 0 };

    ghost got = { λ s. Some s.inner.got };

    ghost ended = { λ s. Some s.inner.ended };

    ghost faults = { λ s. in_faults s.inner };

    ghost never_fails = { λ _. ⊥ };

    ghost is_faultless = { λ old new never. absurd never };

    fn read<R: Wait>(&mut self, rt: &R, room: &mut [u8]) -> Result<usize, Failed> {
        let most = room.len().min(self.most);
        self.inner.read(rt, &mut room[..most])
    }
}
