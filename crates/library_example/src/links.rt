// Links in memory that are counted.
ghost use Rattle.std.specs.Prelude.{◌≡◌, ◌-◌, ◌<◌, ◌≤◌, ◌++◌, [], ◌∷◌, Some};
ghost use Rattle.outside.specs.Faults.{HasRisen};
ghost use Rattle.outside.specs.Links.{faults_of};
ghost use Rattle.outside.specs.MemoryLinks.{NoneFails, in_faults, out_faults};

use flow_defs::ListOf;
use outside::{Links, MemoryIn, MemoryLinks, MemoryOut, PairFault, Wire};
use std::alloc::Global;

/// Links in memory, of which no call fails, and how many connections were made of them. A connection is a wire: two links.
#[derive(Drop)]
pub struct CountedLinks {
    inner: MemoryLinks,
    pub made: u64,
}

impl CountedLinks {
    pub fn new(alloc: Global) -> Self
        ensures { NoneFails result.inner }
    {
        let inner = MemoryLinks::new(
            alloc,
            ListOf::new(alloc),
            ListOf::new(alloc),
            ListOf::new(alloc),
        );
        CountedLinks { inner, made: 0 }
    }
}

impl Links for CountedLinks {
    type Out = MemoryOut;

    type In = MemoryIn;

    ghost belong = { λ a b. a.0 ≡ b.0 };

    ghost faults = { λ s. s.inner.faults };

    ghost never_fails = { λ s. NoneFails s.inner };

    ghost lent = { λ s. s.inner.lent };

    ghost wires = { λ s. Some s.inner.wires };

    fn pair(&mut self, alloc: Global) -> Result<Wire<MemoryOut, MemoryIn>, PairFault> {
        let wire = self.inner.pair(alloc)?;
        self.made = self.made.saturating_add(1);
        Ok(wire)
    }

    fn meet(&self, a: &mut MemoryOut, b: &mut MemoryIn) {
        self.inner.meet(a, b);
    }

    fn back(&mut self, wire: Wire<MemoryOut, MemoryIn>)
        requires { 0 < self.old.inner.lent }
        ensures kept { self.new.inner.wires ≡ self.old.inner.wires ++ wire ∷ [] }
        ensures rises { 0 < faults_of out_faults in_faults wire → HasRisen self.old.inner.faults self.new.inner.faults }
        ensures stays { faults_of out_faults in_faults wire ≡ 0 → self.new.inner.faults ≡ self.old.inner.faults }
        ensures never_falls { self.old.inner.faults ≤ self.new.inner.faults }
        ensures returns { self.new.inner.lent ≡ self.old.inner.lent - 1 }
        ensures still_sure { NoneFails self.old.inner → NoneFails self.new.inner }
    {
        self.inner.back(wire);
    }
}
