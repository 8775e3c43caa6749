// A source in memory.
ghost use Rattle.std.specs.Prelude.{◌≡◌, ◌<◌, ◌≤◌, [], length, Some, IfOk, IfSome, OnErr};
ghost use Rattle.outside.specs.Faults.{HasRisen};
ghost use Rattle.outside.specs.Told.{Reads};
ghost use Rattle.outside.specs.Memory.{ReadStep};

use crate::{Failed, Source};
use flow_defs::{Bytes, ListOf};
use std::marker::Model;

/// Bytes in memory, given at most `most` in a read. The reads whose numbers are listed fail.
#[derive(Debug, Drop)]
pub struct MemorySource {
    bytes: Bytes,
    start: usize,
    most: usize,
    reads: ListOf<u64>,
    calls: u64,
    faults: u64,
}

impl Model for MemorySource {
    ghost use Rattle.std.specs.Prelude.{◌≤◌, length, drop};
    ghost use Rattle.outside.specs.Memory.{SourceState};

    ghost Value = { SourceState };

    ghost view = { λ s. record { left = drop s.start s.bytes.items; most = s.most; fails = s.reads.items; calls = s.calls; faults = s.faults } };

    ghost invariant = { λ s. (1 ≤ s.most) × (s.start ≤ length s.bytes.items) };
}

impl MemorySource {
    ghost use Rattle.outside.specs.Memory.{source_of};

    /// These bytes. The numbers in `reads` count from 1.
    pub fn new(bytes: Bytes, most: usize, reads: ListOf<u64>) -> Self
        requires { 1 ≤ most }
        ensures { result ≡ source_of bytes.items most reads.items }
    {
        MemorySource {
            bytes,
            start: 0,
            most,
            reads,
            calls: 0,
            faults: 0,
        }
    }

    pub(crate) fn faults(&self) -> u64
        ensures { result ≡ self.now.faults }
    {
        self.faults
    }
}

impl Source for MemorySource {
    ghost left = { λ s. Some s.left };

    ghost faults = { λ s. s.faults };

    fn read(&mut self, room: &mut [u8]) -> Result<usize, Failed>
        requires { 0 < length room.old }
        ensures count { IfOk result (λ n. n ≤ length room.old) }
        ensures told { IfOk result (λ n. Reads self.old.left n room.new (Some self.new.left)) }
        ensures kept { OnErr result (self.new.left ≡ self.old.left) }
        ensures never_falls { self.old.faults ≤ self.new.faults }
        ensures failed { OnErr result (HasRisen self.old.faults self.new.faults) }

        // Which read fails, and how much another one gives.
        ensures step { ReadStep self.old (length room.old) result self.new }
    {
        self.calls = self.calls.saturating_add(1);
        if self.reads.as_slice().contains(&self.calls) {
            self.faults = self.faults.saturating_add(1);
            return Err(Failed);
        }
        let left = &self.bytes.as_slice()[self.start..];
        let count = left.len().min(room.len()).min(self.most);
        room[..count].copy_from_slice(&left[..count]);
        self.start += count;
        Ok(count)
    }
}
