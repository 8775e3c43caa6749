// A sink in memory.
ghost use Rattle.std.specs.Prelude.{◌≡◌, ◌<◌, ◌≤◌, ◌++◌, [], length, take, Some, IfOk, OnErr};
ghost use Rattle.outside.specs.Faults.{HasRisen};
ghost use Rattle.outside.specs.Memory.{WriteStep};

use crate::{Failed, Sink};
use flow_defs::{Bytes, ListOf};
use std::alloc::{AllocError, Global};
use std::marker::Model;

/// Bytes in memory, at most so many. The writes whose numbers are listed fail, and from one number
/// on each write takes nothing, as one does where it is full.
#[derive(Debug, Drop)]
pub struct MemorySink {
    bytes: Bytes,
    spare: usize,
    writes: ListOf<u64>,
    nothing_from: Option<u64>,
    calls: u64,
    faults: u64,
}

impl Model for MemorySink {
    ghost use Rattle.std.specs.Prelude.{◌≤◌};
    ghost use Rattle.outside.specs.Memory.{SinkState};

    ghost Value = { SinkState };

    ghost view = { λ s. record { got = s.bytes.items; spare = s.spare; fails = s.writes.items; nothing_from = s.nothing_from; calls = s.calls; faults = s.faults } };

    ghost invariant = { λ s. s.spare ≤ s.bytes.room };
}

impl MemorySink {
    ghost use Rattle.outside.specs.Memory.{empty_sink};

    /// A sink that got nothing yet, with room for so many bytes. The numbers in `writes` and
    /// `nothing_from` count from 1. All memory is taken here, and none by a write.
    pub fn new(
        alloc: Global,
        room: usize,
        writes: ListOf<u64>,
        nothing_from: Option<u64>,
    ) -> Result<Self, AllocError>
        ensures { IfOk result (λ sink. sink ≡ empty_sink room writes.items nothing_from) }
    {
        let mut bytes = Bytes::new(alloc);
        bytes.reserve(room)?;
        Ok(MemorySink {
            bytes,
            spare: room,
            writes,
            nothing_from,
            calls: 0,
            faults: 0,
        })
    }

    /// The bytes that it got.
    pub fn bytes(&self) -> &[u8]
        ensures { result.now ≡ self.now.got }
    {
        self.bytes.as_slice()
    }
}

impl Sink for MemorySink {
    ghost got = { λ s. Some s.got };

    ghost faults = { λ s. s.faults };

    fn write(&mut self, bytes: &[u8]) -> Result<usize, Failed>
        requires { 0 < length bytes.now }
        ensures count { IfOk result (λ n. n ≤ length bytes.now) }
        ensures told { IfOk result (λ n. self.new.got ≡ self.old.got ++ take n bytes.now) }
        ensures kept { OnErr result (self.new.got ≡ self.old.got) }
        ensures never_falls { self.old.faults ≤ self.new.faults }
        ensures failed { OnErr result (HasRisen self.old.faults self.new.faults) }
        ensures nothing { IfOk result (λ n. n ≡ 0 → HasRisen self.old.faults self.new.faults) }

        // Which write fails, and how much another one takes.
        ensures step { WriteStep self.old (length bytes.now) result self.new }
    {
        self.calls = self.calls.saturating_add(1);
        if self.writes.as_slice().contains(&self.calls) {
            self.faults = self.faults.saturating_add(1);
            return Err(Failed);
        }
        let stopped = match self.nothing_from {
            Some(from) => from <= self.calls,
            None => false,
        };
        let count = if stopped {
            0
        } else {
            bytes.len().min(self.spare)
        };
        if count == 0 {
            self.faults = self.faults.saturating_add(1);
            return Ok(0);
        }
        self.spare -= count;
        let Ok(()) = self.bytes.extend(&bytes[..count]) else {
            unreachable!()
        };
        Ok(count)
    }
}
