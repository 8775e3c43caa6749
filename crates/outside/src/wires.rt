// What makes links.
ghost use Rattle.std.specs.Prelude.{◌≡◌, ◌≢◌, ◌+◌, ◌-◌, ◌<◌, ◌≤◌, ◌++◌, [], ◌∷◌, ℕ, List, Option, Some, Err, IfOk, IfSome, OnOk, OnErr};
ghost use Rattle.outside.specs.Faults.{HasRisen};
ghost use Rattle.outside.specs.Links.{IsNewOut, IsNewIn, HasMet, NeverFails, faults_of};
ghost use Rattle.outside.specs.declared.wires.PairFault.TheVariants.{Memory};
ghost use Rattle.outside.specs.declared.wires.Wire.{Wire};

use crate::{LinkIn, LinkOut};
use std::alloc::{AllocError, Global};
use thiserror::Error;

/// The ends of two one-way links, one for data and one for what controls them.
#[derive(Debug, Drop)]
pub struct Wire<O, I> {
    pub data_out: O,
    pub data_in: I,
    pub control_out: O,
    pub control_in: I,
}

/// Why `pair` gave no wire.
#[derive(Clone, Copy, Debug, PartialEq, Eq, Error)]
pub enum PairFault {
    #[error("the links could not be made")]
    Failed,
    #[error("out of memory")]
    Memory,
}

impl From<AllocError> for PairFault {
    ghost from_gives = { λ _ e. e ≡ Memory };

    fn from(_: AllocError) -> Self {
        PairFault::Memory
    }
}

/// What makes wires. Each that it gives has to be given back.
pub trait Links {
    type Out: LinkOut + Send + Drop;

    type In: LinkIn + Send + Drop;

    /// That these two name the ends of one link.
    ghost belong: { Self.Out.Line → Self.In.Line → Type 0 };

    /// How often a wire could not be made, or one with a fault was given back.
    ghost faults: { Self → ℕ };

    /// That no call of these links is to fail, nor one of an end of a wire that they give.
    ghost never_fails: { Self → Type 0 };

    /// How many wires were given and not given back yet.
    ghost lent: { Self → ℕ };

    /// The wires that were given back, in order, where they are told.
    ghost wires: { Self → Option (List (Wire Self.Out Self.In)) };

    /// Two links over which nothing went yet.
    fn pair(&mut self, alloc: Global) -> Result<Wire<Self::Out, Self::In>, PairFault>
        ensures data { IfOk result (λ wire. belong (Self.Out.line wire.data_out) (Self.In.line wire.data_in)) }
        ensures control { IfOk result (λ wire. belong (Self.Out.line wire.control_out) (Self.In.line wire.control_in)) }
        ensures new_data_out { IfOk result (λ wire. IsNewOut (Self.Out.sent wire.data_out) (Self.Out.finished wire.data_out) (Self.Out.faults wire.data_out)) }
        ensures new_data_in { IfOk result (λ wire. IsNewIn (Self.In.got wire.data_in) (Self.In.ended wire.data_in) (Self.In.faults wire.data_in)) }
        ensures new_control_out { IfOk result (λ wire. IsNewOut (Self.Out.sent wire.control_out) (Self.Out.finished wire.control_out) (Self.Out.faults wire.control_out)) }
        ensures new_control_in { IfOk result (λ wire. IsNewIn (Self.In.got wire.control_in) (Self.In.ended wire.control_in) (Self.In.faults wire.control_in)) }
        ensures same { wires self.new ≡ wires self.old }
        ensures never_falls { faults self.old ≤ faults self.new }
        ensures failed { result ≡ Err PairFault.Failed → HasRisen (faults self.old) (faults self.new) }
        ensures lends { OnOk result (lent self.new ≡ lent self.old + 1) }
        ensures lends_none { OnErr result (lent self.new ≡ lent self.old) }
        ensures sure { never_fails self.old → result ≢ Err PairFault.Failed }
        ensures sure_wire { never_fails self.old → IfOk result (NeverFails Self.Out.never_fails Self.In.never_fails) }
        ensures still_sure { never_fails self.old → never_fails self.new };

    /// Lets the two ends of a link compare what they have seen.
    fn meet(&self, a: &mut Self::Out, b: &mut Self::In)
        requires { belong (Self.Out.line a.old) (Self.In.line b.old) }
        ensures sent { (Self.Out.sent a.new ≡ Self.Out.sent a.old) × (Self.Out.finished a.new ≡ Self.Out.finished a.old) }
        ensures out { (Self.Out.line a.new ≡ Self.Out.line a.old) × (Self.Out.faults a.new ≡ Self.Out.faults a.old) }
        ensures got { (Self.In.got b.new ≡ Self.In.got b.old) × (Self.In.ended b.new ≡ Self.In.ended b.old) }
        ensures input { (Self.In.line b.new ≡ Self.In.line b.old) × (Self.In.faults b.new ≡ Self.In.faults b.old) }
        ensures met { HasMet (Self.Out.sent a.old) (Self.Out.finished a.old) (Self.In.got b.old) (Self.In.ended b.old) };

    /// Takes a wire back. The count of faults rises in this exactly where that of one of its ends is
    /// above 0.
    fn back(&mut self, wire: Wire<Self::Out, Self::In>)
        requires { 0 < lent self.old }
        ensures kept { IfSome (wires self.old) (λ had. wires self.new ≡ Some (had ++ wire ∷ [])) }
        ensures rises { 0 < faults_of Self.Out.faults Self.In.faults wire → HasRisen (faults self.old) (faults self.new) }
        ensures stays { faults_of Self.Out.faults Self.In.faults wire ≡ 0 → faults self.new ≡ faults self.old }
        ensures never_falls { faults self.old ≤ faults self.new }
        ensures returns { lent self.new ≡ lent self.old - 1 }
        ensures still_sure { never_fails self.old → never_fails self.new };
}
