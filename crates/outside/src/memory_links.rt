// Links in memory.
ghost use Rattle.std.specs.Prelude.{◌≡◌, ◌≢◌, ◌+◌, ◌-◌, ◌<◌, ◌≤◌, ◌==◌, ◌++◌, [], ◌∷◌, length, not, Some, Err, IfOk, OnOk, OnErr};
ghost use Rattle.outside.specs.Faults.{HasRisen};
ghost use Rattle.outside.specs.Links.{HasMet, NeverFails, faults_of};
ghost use Rattle.outside.specs.MemoryLinks.{IsLink, NoneFails, PairStep, TakesBack, in_faults, no_links, out_faults};

use crate::bells::Bells;
use crate::{Links, MemoryIn, MemoryOut, PairFault, Ring, Wire};
use flow_defs::ListOf;
use std::alloc::{AllocError, Global};
use std::marker::Model;
use std::sync::Arc;
use turn_cell::{Pass, TurnCell};

/// Links in memory. The calls of `pair` whose numbers are listed fail, and so do those writes and those
/// reads of each end.
#[derive(Drop)]
pub struct MemoryLinks {
    pairs: ListOf<u64>,
    reads: ListOf<u64>,
    writes: ListOf<u64>,
    wires: ListOf<Wire<MemoryOut, MemoryIn>>,
    calls: u64,
    faults: u64,
    lent: usize,
}

impl Model for MemoryLinks {
    ghost use Rattle.std.specs.Prelude.{◌≤◌};
    ghost use Rattle.outside.specs.MemoryLinks.{LinksState};

    ghost Value = { LinksState };

    ghost view = { λ s. record { pairs = s.pairs.items; reads = s.reads.items; writes = s.writes.items; wires = s.wires.items; calls = s.calls; faults = s.faults; lent = s.lent } };

    // There is room for the wires that are out.
    ghost invariant = { λ s. s.lent ≤ s.wires.room };
}

// A copy of these numbers.
fn copied(alloc: Global, numbers: &[u64]) -> Result<ListOf<u64>, AllocError>
    ensures { IfOk result (λ copy. copy.items ≡ numbers.now) }
{
    let mut copy = ListOf::new(alloc);
    copy.extend(numbers)?;
    Ok(copy)
}

// Takes the last of these passes.
fn deal(passes: &mut ListOf<Pass<Ring>>) -> Pass<Ring>
    requires { 0 < length passes.old.items }
    ensures { passes.old.items ≡ passes.new.items ++ result ∷ [] }
{
    passes.pop().unwrap()
}

// Two ends of a new link, of which these reads and writes fail.
fn new_link(
    alloc: Global,
    reads: &[u64],
    writes: &[u64],
) -> Result<(MemoryOut, MemoryIn), AllocError>
    ensures { IfOk result (λ ends. IsLink reads.now writes.now ends.0 ends.1) }
{
    let reads = copied(alloc, reads)?;
    let writes = copied(alloc, writes)?;
    let ring = Ring::new(alloc)?;
    let Ok((cell, mut passes)) = TurnCell::new(alloc, ring, 2) else {
        return Err(AllocError);
    };
    let reading = deal(&mut passes);
    let writing = deal(&mut passes);
    let cell = Arc::new(alloc, cell)?;
    let other = Arc::try_clone(&cell)?;
    let bells = Arc::new(alloc, Bells::new())?;
    let heard = Arc::try_clone(&bells)?;
    Ok((
        MemoryOut::new(cell, bells, writing, writes),
        MemoryIn::new(other, heard, reading, reads),
    ))
}

// The ends of two new links, of which these reads and writes fail.
fn new_wire(
    alloc: Global,
    reads: &[u64],
    writes: &[u64],
) -> Result<Wire<MemoryOut, MemoryIn>, AllocError>
    ensures data { IfOk result (λ wire. IsLink reads.now writes.now wire.data_out wire.data_in) }
    ensures control { IfOk result (λ wire. IsLink reads.now writes.now wire.control_out wire.control_in) }
{
    let (data_out, data_in) = new_link(alloc, reads, writes)?;
    let (control_out, control_in) = new_link(alloc, reads, writes)?;
    Ok(Wire {
        data_out,
        data_in,
        control_out,
        control_in,
    })
}

// Whether one of the ends has counted a fault.
fn has_fault(wire: &Wire<MemoryOut, MemoryIn>) -> bool
    ensures { result ≡ not (faults_of out_faults in_faults wire.now == 0) }
{
    wire.data_out.faults() > 0
        || wire.data_in.faults() > 0
        || wire.control_out.faults() > 0
        || wire.control_in.faults() > 0
}

impl MemoryLinks {
    /// No links yet. The numbers in `pairs`, `reads` and `writes` count from 1.
    pub fn new(alloc: Global, pairs: ListOf<u64>, reads: ListOf<u64>, writes: ListOf<u64>) -> Self
        ensures { result ≡ no_links pairs.items reads.items writes.items }
    {
        MemoryLinks {
            pairs,
            reads,
            writes,
            wires: ListOf::new(alloc),
            calls: 0,
            faults: 0,
            lent: 0,
        }
    }

    /// The wires that were given back, in order.
    pub fn wires(&self) -> &[Wire<MemoryOut, MemoryIn>]
        ensures { result.now ≡ self.now.wires }
    {
        self.wires.as_slice()
    }
}

impl Links for MemoryLinks {
    type Out = MemoryOut;

    type In = MemoryIn;

    ghost use Rattle.std.specs.Prelude.{◌≡◌, Some};

    ghost belong = { λ a b. a.0 ≡ b.0 };

    ghost faults = { λ s. s.faults };

    ghost never_fails = { λ s. NoneFails s };

    ghost lent = { λ s. s.lent };

    ghost wires = { λ s. Some s.wires };

    fn pair(&mut self, alloc: Global) -> Result<Wire<MemoryOut, MemoryIn>, PairFault>
        ensures data { IfOk result (λ wire. wire.data_out.cell ≡ wire.data_in.cell) }
        ensures control { IfOk result (λ wire. wire.control_out.cell ≡ wire.control_in.cell) }
        ensures same { self.new.wires ≡ self.old.wires }
        ensures never_falls { self.old.faults ≤ self.new.faults }
        ensures failed { result ≡ Err PairFault.Failed → HasRisen self.old.faults self.new.faults }
        ensures lends { OnOk result (self.new.lent ≡ self.old.lent + 1) }
        ensures lends_none { OnErr result (self.new.lent ≡ self.old.lent) }
        ensures sure { NoneFails self.old → result ≢ Err PairFault.Failed }
        ensures sure_wire { NoneFails self.old → IfOk result (NeverFails (λ s. s.fails ≡ []) (λ s. s.fails ≡ [])) }
        ensures still_sure { NoneFails self.old → NoneFails self.new }

        // Which call fails, and what another one gives.
        ensures step { PairStep self.old result self.new }
    {
        self.calls = self.calls.saturating_add(1);
        if self.pairs.as_slice().contains(&self.calls) {
            self.faults = self.faults.saturating_add(1);
            return Err(PairFault::Failed);
        }
        let Some(lent) = self.lent.checked_add(1) else {
            return Err(PairFault::Memory);
        };
        self.wires.reserve(lent)?;
        let wire = new_wire(alloc, self.reads.as_slice(), self.writes.as_slice())?;
        self.lent = lent;
        Ok(wire)
    }

    fn meet(&self, a: &mut MemoryOut, b: &mut MemoryIn)
        requires { a.old.cell ≡ b.old.cell }
        ensures same { (a.new ≡ a.old) × (b.new ≡ b.old) }
        ensures met { HasMet (Some a.old.sent) (Some a.old.finished) (Some b.old.got) (Some b.old.ended) }
    {
        a.meet(b);
    }

    fn back(&mut self, wire: Wire<MemoryOut, MemoryIn>)
        requires { 0 < self.old.lent }
        ensures kept { self.new.wires ≡ self.old.wires ++ wire ∷ [] }
        ensures rises { 0 < faults_of out_faults in_faults wire → HasRisen self.old.faults self.new.faults }
        ensures stays { faults_of out_faults in_faults wire ≡ 0 → self.new.faults ≡ self.old.faults }
        ensures never_falls { self.old.faults ≤ self.new.faults }
        ensures returns { self.new.lent ≡ self.old.lent - 1 }
        ensures still_sure { NoneFails self.old → NoneFails self.new }

        // What is counted, and that nothing else changes.
        ensures step { TakesBack self.old wire self.new }
    {
        if has_fault(&wire) {
            self.faults = self.faults.saturating_add(1);
        }
        self.lent -= 1;
        let Ok(()) = self.wires.push(wire) else {
            unreachable!()
        };
    }
}
