// Where a writer's segments come from, and what stops it while it waits.
// The writer has its task's pass of the stop cell, and looks there only where it waits.
ghost use Rattle.std.specs.Prelude.{◌≡◌, ◌≤◌, [], ◌∷◌, ◌++◌, length, All, IfSome, IfOk, OnOk, OnErr};
ghost use Rattle.flow_defs.specs.Limits.{segment_min};
ghost use Rattle.local_pool.specs.declared.entry.PoolEntry.TheVariants.{Lent, Returned};
ghost use Rattle.local_pool.specs.Lending.{lent_in_turn};
ghost use Rattle.record_writer.specs.Segments.{NoneLost, all_held, lending_of};
ghost use Rattle.record_writer.specs.Channels.{IsPart, IsSupply, IsSameSupply, HasSeenFault};

use crate::part::Part;
use crate::writer::WriterStopped;
use conn_parts::Watch;
use flow_defs::ListOf;
use local_pool::{HeldPool, give_in_turn, request_in_turn};
use outside::{Pause, StopState};
use segment_pool::Segment;
use std::sync::Wait;
use turn_cell::{Pass, TurnCell};

/// A task's pool, and the cell of what stops all workers.
#[derive(Drop)]
pub(crate) struct Supply<'a, 'p> {
    pub(crate) pool: &'a TurnCell<HeldPool<'p>>,
    /// It is away only while a turn is taken by it.
    pub(crate) pool_pass: Option<Pass<HeldPool<'p>>>,
    /// The length of a segment, in bytes.
    pub(crate) size: u32,
    pub(crate) stop: &'a TurnCell<StopState>,
    pub(crate) stop_pass: Pass<StopState>,
}

impl<'a, 'p> Supply<'a, 'p> {
    // A segment, where the pool lends one.
    fn request<R: Wait>(&mut self, rt: &R) -> Option<Segment>
        requires { IsSupply self.old }
        ensures supply { IsSupply self.new × IsSameSupply self.old self.new }
        ensures stop_pass { self.new.stop_pass ≡ self.old.stop_pass }
        ensures size { IfSome result (λ segment. (length segment ≡ self.new.size) × (segment_min ≤ self.new.size)) }
        ensures lent { lending_of self.new ≡ lending_of self.old ++ lent_in_turn result }
    {
        let Some(pass) = self.pool_pass.take() else {
            unreachable!()
        };
        let (pass, segment) = request_in_turn(rt, self.pool, pass);
        self.pool_pass = Some(pass);
        if let Some(segment) = &segment {
            // Read so that it is known to be no shorter than the shortest.
            let _bytes = segment.bytes();
        }
        segment
    }

    /// A segment. Waits where the pool lends none.
    pub(crate) fn segment<R: Wait>(&mut self, rt: &R) -> Result<Segment, WriterStopped>
        requires { IsSupply self.old }
        ensures supply { IsSupply self.new × IsSameSupply self.old self.new }
        ensures size { IfOk result (λ segment. (length segment ≡ self.new.size) × (segment_min ≤ self.new.size)) }
        ensures lent { OnOk result (lending_of self.new ≡ lending_of self.old ++ Lent ∷ []) }
        ensures stopped { OnErr result (HasSeenFault self.new) }
        ensures not_lent { OnErr result (lending_of self.new ≡ lending_of self.old) }
    {
        let mut watch = Watch::new();
        let mut pause = Pause::new();
        for _round in rt.forever() {
            if let Some(segment) = self.request(rt) {
                return Ok(segment);
            }
            if let Some(_) = watch.look(rt, self.stop, &mut self.stop_pass) {
                return Err(WriterStopped);
            }
            pause.wait(rt);
        }
        unreachable!()
    }

    /// Gives a segment back.
    pub(crate) fn give<R: Wait>(&mut self, rt: &R, segment: Segment)
        requires supply { IsSupply self.old }
        requires size { length segment ≡ self.old.size }
        ensures supply { IsSupply self.new × IsSameSupply self.old self.new }
        ensures stop_pass { self.new.stop_pass ≡ self.old.stop_pass }
        ensures returned { lending_of self.new ≡ lending_of self.old ++ Returned ∷ [] }
    {
        let Some(pass) = self.pool_pass.take() else {
            unreachable!()
        };
        self.pool_pass = Some(give_in_turn(rt, self.pool, pass, segment));
    }

    /// Gives the segments of these parts back.
    pub(crate) fn give_all<R: Wait>(&mut self, rt: &R, parts: ListOf<Part>)
        requires supply { IsSupply self.old }
        requires parts { All (IsPart self.old.size) parts.items }
        ensures supply { IsSupply self.new × IsSameSupply self.old self.new }
        ensures stop_pass { self.new.stop_pass ≡ self.old.stop_pass }
        ensures none_lost { NoneLost (lending_of self.old) (lending_of self.new) 0 0 (all_held parts.items) 0 }
    {
        let mut parts = parts;
        while let Some(part) = parts.pop() {
            if let Some(segment) = part.segment {
                self.give(rt, segment);
            }
        }
    }
}
