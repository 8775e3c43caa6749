// The end of a link in memory from which bytes are read.
ghost use Rattle.std.specs.Prelude.{◌≡◌, ◌<◌, ◌≤◌, ◌++◌, length, take, true, IfOk, OnErr};
ghost use Rattle.turn_cell.specs.Passes.{IsPassOf};
ghost use Rattle.outside.specs.Faults.{HasRisen};
ghost use Rattle.outside.specs.MemoryLinks.{new_in, in_faults, in_line, InStep};

use crate::bells::Bells;
use crate::link_turns::read_some;
use crate::{Failed, LinkIn, Ring};
use flow_defs::ListOf;
use std::alloc::Global;
use std::marker::Model;
use std::sync::{Arc, Wait};
use turn_cell::{Pass, TurnCell};

/// The end of a link in memory from which bytes are read. The reads whose numbers are listed fail.
#[derive(Drop)]
pub struct MemoryIn {
    cell: Arc<TurnCell<Ring>, Global>,
    bells: Arc<Bells, Global>,
    pub(crate) pass: Pass<Ring>,
    ended: bool,
    reads: ListOf<u64>,
    calls: u64,
    faults: u64,
}

impl Model for MemoryIn {
    ghost use Rattle.std.specs.Prelude.{◌≡◌, true};
    ghost use Rattle.std.specs.Arc.{arc_value};
    ghost use Rattle.turn_cell.specs.Passes.{IsPassOf, mine, number, seen};
    ghost use Rattle.outside.specs.Rings.{bytes_read, IsFront, IsAll};
    ghost use Rattle.outside.specs.MemoryLinks.{InState};

    ghost Value = { InState };

    ghost view = { λ s. record { got = bytes_read (mine s.pass); ended = s.ended; fails = s.reads.items; calls = s.calls; faults = s.faults; cell = arc_value s.cell } };

    ghost invariant = { λ s. IsPassOf (arc_value s.cell) s.pass × (number s.pass ≡ 1) × IsFront (seen s.pass) × (s.ended ≡ true → IsAll (seen s.pass)) };
}

impl MemoryIn {
    ghost use Rattle.std.specs.Arc.{arc_value};
    ghost use Rattle.turn_cell.specs.Closing.{IsFresh};

    /// The end of a new link. The numbers in `reads` count from 1.
    pub(crate) fn new(
        cell: Arc<TurnCell<Ring>, Global>,
        bells: Arc<Bells, Global>,
        pass: Pass<Ring>,
        reads: ListOf<u64>,
    ) -> Self
        requires { IsPassOf (arc_value cell) pass × IsFresh 1 pass }
        ensures { result ≡ new_in (arc_value cell) reads.items }
    {
        MemoryIn {
            cell,
            bells,
            pass,
            ended: false,
            reads,
            calls: 0,
            faults: 0,
        }
    }

    pub(crate) fn faults(&self) -> u64
        ensures { result ≡ in_faults self.now }
    {
        // Where no read is to fail, none has.
        if self.reads.as_slice().is_empty() {
            return 0;
        }
        self.faults
    }
}

impl LinkIn for MemoryIn {
    ghost use Rattle.std.specs.Prelude.{◌≡◌, [], Some};
    ghost use Rattle.outside.specs.MemoryLinks.{in_is_faultless};

    type Line = (TurnCell<Ring>, bool);

    ghost line = { λ s. in_line s };

    ghost got = { λ s. Some s.got };

    ghost ended = { λ s. Some s.ended };

    ghost faults = { λ s. in_faults s };

    ghost never_fails = { λ s. s.fails ≡ [] };

    ghost is_faultless = { in_is_faultless };

    fn read<R: Wait>(&mut self, rt: &R, room: &mut [u8]) -> Result<usize, Failed>
        requires { 0 < length room.old }
        ensures count { IfOk result (λ n. n ≤ length room.old) }
        ensures told { IfOk result (λ n. self.new.got ≡ self.old.got ++ take n room.new) }
        ensures kept { OnErr result (self.new.got ≡ self.old.got) }
        ensures end { IfOk result (λ n. n ≡ 0 → self.new.ended ≡ true) }
        ensures not_end { IfOk result (λ n. 0 < n → self.new.ended ≡ self.old.ended) }
        ensures no_end { OnErr result (self.new.ended ≡ self.old.ended) }
        ensures line { (self.new.cell ≡ self.old.cell) × (self.new.fails ≡ self.old.fails) }
        ensures never_falls { in_faults self.old ≤ in_faults self.new }
        ensures failed { OnErr result (HasRisen (in_faults self.old) (in_faults self.new)) }

        // Which read fails, and that nothing comes after the end.
        ensures step { InStep self.old result self.new }
    {
        self.calls = self.calls.saturating_add(1);
        if self.reads.as_slice().contains(&self.calls) {
            self.faults = self.faults.saturating_add(1);
            return Err(Failed);
        }
        if self.ended {
            return Ok(0);
        }
        let count = read_some(rt, &self.cell, &mut self.pass, &self.bells, room);
        self.ended = count == 0;
        Ok(count)
    }
}
