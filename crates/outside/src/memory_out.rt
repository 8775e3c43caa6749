// The end of a link in memory to which bytes are written.
ghost use Rattle.std.specs.Prelude.{◌≡◌, ◌<◌, ◌≤◌, ◌++◌, length, take, true, false, Some, IfOk, OnErr};
ghost use Rattle.turn_cell.specs.Passes.{IsPassOf, mine, number};
ghost use Rattle.outside.specs.Faults.{HasRisen};
ghost use Rattle.outside.specs.Links.{HasMet};
ghost use Rattle.outside.specs.MemoryLinks.{new_out, out_faults, out_line, OutStep};

use crate::bells::Bells;
use crate::link_turns::{finish_ring, write_some};
use crate::{Failed, LinkOut, MemoryIn, Ring};
use flow_defs::ListOf;
use std::alloc::Global;
use std::marker::Model;
use std::sync::{Arc, Wait};
use turn_cell::{Pass, TurnCell};

/// The end of a link in memory to which bytes are written. The writes whose numbers are listed fail.
#[derive(Drop)]
pub struct MemoryOut {
    cell: Arc<TurnCell<Ring>, Global>,
    bells: Arc<Bells, Global>,
    pass: Pass<Ring>,
    writes: ListOf<u64>,
    calls: u64,
    faults: u64,
}

impl Model for MemoryOut {
    ghost use Rattle.std.specs.Prelude.{◌≡◌};
    ghost use Rattle.std.specs.Arc.{arc_value};
    ghost use Rattle.turn_cell.specs.Passes.{IsPassOf, mine, number};
    ghost use Rattle.outside.specs.Rings.{bytes_written, has_finished, EndsThere};
    ghost use Rattle.outside.specs.MemoryLinks.{OutState};

    ghost Value = { OutState };

    ghost view = { λ s. record { sent = bytes_written (mine s.pass); finished = has_finished (mine s.pass); fails = s.writes.items; calls = s.calls; faults = s.faults; cell = arc_value s.cell } };

    ghost invariant = { λ s. IsPassOf (arc_value s.cell) s.pass × (number s.pass ≡ 0) × EndsThere (mine s.pass) };
}

impl MemoryOut {
    ghost use Rattle.std.specs.Arc.{arc_value};
    ghost use Rattle.turn_cell.specs.Closing.{IsFresh};

    /// The end of a new link. The numbers in `writes` count from 1.
    pub(crate) fn new(
        cell: Arc<TurnCell<Ring>, Global>,
        bells: Arc<Bells, Global>,
        pass: Pass<Ring>,
        writes: ListOf<u64>,
    ) -> Self
        requires { IsPassOf (arc_value cell) pass × IsFresh 0 pass }
        ensures { result ≡ new_out (arc_value cell) writes.items }
    {
        MemoryOut {
            cell,
            bells,
            pass,
            writes,
            calls: 0,
            faults: 0,
        }
    }

    /// Sees what the other end of its link has seen, which sees the same.
    pub(crate) fn meet(&mut self, other: &mut MemoryIn)
        requires { self.old.cell ≡ other.old.cell }
        ensures same { (self.new ≡ self.old) × (other.new ≡ other.old) }
        ensures met { HasMet (Some self.old.sent) (Some self.old.finished) (Some other.old.got) (Some other.old.ended) }
    {
        self.cell.meet(&mut self.pass, &mut other.pass);
    }

    pub(crate) fn faults(&self) -> u64
        ensures { result ≡ out_faults self.now }
    {
        // Where no write is to fail, none has.
        if self.writes.as_slice().is_empty() {
            return 0;
        }
        self.faults
    }
}

impl LinkOut for MemoryOut {
    ghost use Rattle.std.specs.Prelude.{◌≡◌, [], Some};
    ghost use Rattle.outside.specs.MemoryLinks.{out_is_faultless};

    type Line = (TurnCell<Ring>, bool);

    ghost line = { λ s. out_line s };

    ghost sent = { λ s. Some s.sent };

    ghost finished = { λ s. Some s.finished };

    ghost faults = { λ s. out_faults s };

    ghost never_fails = { λ s. s.fails ≡ [] };

    ghost is_faultless = { out_is_faultless };

    fn write<R: Wait>(&mut self, rt: &R, bytes: &[u8]) -> Result<usize, Failed>
        requires some { 0 < length bytes.now }
        requires unfinished { self.old.finished ≡ false }
        ensures count { IfOk result (λ n. n ≤ length bytes.now) }
        ensures told { IfOk result (λ n. self.new.sent ≡ self.old.sent ++ take n bytes.now) }
        ensures kept { OnErr result (self.new.sent ≡ self.old.sent) }
        ensures unfinished { self.new.finished ≡ self.old.finished }
        ensures line { (self.new.cell ≡ self.old.cell) × (self.new.fails ≡ self.old.fails) }
        ensures never_falls { out_faults self.old ≤ out_faults self.new }
        ensures failed { OnErr result (HasRisen (out_faults self.old) (out_faults self.new)) }
        ensures nothing { IfOk result (λ n. n ≡ 0 → HasRisen (out_faults self.old) (out_faults self.new)) }

        // Which write fails, and that any other takes at least a byte.
        ensures step { OutStep self.old result self.new }
    {
        self.calls = self.calls.saturating_add(1);
        if self.writes.as_slice().contains(&self.calls) {
            self.faults = self.faults.saturating_add(1);
            return Err(Failed);
        }
        Ok(write_some(rt, &self.cell, &mut self.pass, &self.bells, bytes))
    }

    fn finish<R: Wait>(&mut self, rt: &R)
        ensures sent { self.new.sent ≡ self.old.sent }
        ensures finished { self.new.finished ≡ true }
        ensures line { (self.new.cell ≡ self.old.cell) × (self.new.fails ≡ self.old.fails) }
        ensures never_falls { out_faults self.old ≤ out_faults self.new }

        // It never fails.
        ensures same { self.new.faults ≡ self.old.faults }
    {
        finish_ring(rt, &self.cell, &mut self.pass, &self.bells);
    }
}
