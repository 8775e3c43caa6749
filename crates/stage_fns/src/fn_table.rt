// The functions of stages and aggregates.
// What a function does stands beside it in its entry, as a ghost field. A fault that hands a function back
// shows nothing of it.
ghost use Rattle.std.specs.Prelude.{◌≡◌, IfSome, IsSome, OnOk, OnErr, IfErr, ◌↔◌, ◌⊎◌};
ghost use Rattle.stage_fns.specs.Meets.{MeetsStage, MeetsAgg};
ghost use Rattle.stage_fns.specs.Functions.{no_functions, is_stage, is_agg, HasStage, HasAgg, with_stage, with_agg};

use crate::agg_fn::AggEntry;
use crate::stage_fn::StageEntry;
use crate::{AddFault, AggFn, StageFn};
use flow_defs::{AggKind, StageKind};
use std::alloc::Global;

/// The functions that jobs may name, each for its kind of stages or aggregates. It takes only
/// functions that meet the definition of their kind.
///
/// Contracts see it through the word `kinds`: which kinds have a function. It keeps the allocator that
/// it was made with. The threads of a program may share it.
#[derive(Drop)]
pub struct FnTable {
    stages: Vec<StageEntry>,
    aggs: Vec<AggEntry>,
}

impl FnTable {
    ghost use Rattle.stage_fns.specs.Kinds.{kinds};

    /// A table of no functions, which takes no memory.
    pub fn new(alloc: Global) -> Self
        ensures { kinds result ≡ no_functions }
    {
        FnTable {
            stages: Vec::new(alloc),
            aggs: Vec::new(alloc),
        }
    }

    /// Adds the function of a kind of stages. A refused function is handed back.
    pub fn add_stage(&mut self, kind: StageKind, f: StageFn) -> Result<(), AddFault<StageFn>>
        requires { MeetsStage kind (StageFn.pre f) (StageFn.post f) }
        ensures taken { result ≡ Err (AddFault.KindTaken f) ↔ HasStage (kinds self.old) kind }
        ensures faults { IfErr result (λ fault. (fault ≡ AddFault.KindTaken f) ⊎ (fault ≡ AddFault.Memory f)) }
        ensures ok { OnOk result (kinds self.new ≡ with_stage (kinds self.old) kind) }
        ensures err { OnErr result (kinds self.new ≡ kinds self.old) }
    {
        if self.stage(kind).is_some() {
            return Err(AddFault::KindTaken { f });
        }
        match self.stages.push(StageEntry { kind, f }) {
            Ok(()) => Ok(()),
            Err(refused) => Err(AddFault::Memory { f: refused.value.f }),
        }
    }

    /// The function of this kind of stages. Look it up once for many records.
    pub fn stage(&self, kind: StageKind) -> Option<&StageFn>
        ensures found { IsSome result ↔ HasStage (kinds self.now) kind }
        ensures meets { IfSome result (λ f. MeetsStage kind (StageFn.pre f.now) (StageFn.post f.now)) }
    {
        for entry in &self.stages {
            if is_same_stage(entry.kind, kind) {
                return Some(&entry.f);
            }
        }
        None
    }

    /// Adds the function of a kind of aggregates. A refused function is handed back.
    pub fn add_agg(&mut self, kind: AggKind, f: AggFn) -> Result<(), AddFault<AggFn>>
        requires { MeetsAgg kind (AggFn.pre f) (AggFn.post f) }
        ensures taken { result ≡ Err (AddFault.KindTaken f) ↔ HasAgg (kinds self.old) kind }
        ensures faults { IfErr result (λ fault. (fault ≡ AddFault.KindTaken f) ⊎ (fault ≡ AddFault.Memory f)) }
        ensures ok { OnOk result (kinds self.new ≡ with_agg (kinds self.old) kind) }
        ensures err { OnErr result (kinds self.new ≡ kinds self.old) }
    {
        if self.agg(kind).is_some() {
            return Err(AddFault::KindTaken { f });
        }
        match self.aggs.push(AggEntry { kind, f }) {
            Ok(()) => Ok(()),
            Err(refused) => Err(AddFault::Memory { f: refused.value.f }),
        }
    }

    /// The function of this kind of aggregates. Look it up once for many records.
    pub fn agg(&self, kind: AggKind) -> Option<&AggFn>
        ensures found { IsSome result ↔ HasAgg (kinds self.now) kind }
        ensures meets { IfSome result (λ f. MeetsAgg kind (AggFn.pre f.now) (AggFn.post f.now)) }
    {
        for entry in &self.aggs {
            if is_same_agg(entry.kind, kind) {
                return Some(&entry.f);
            }
        }
        None
    }
}

fn is_same_stage(kind: StageKind, other: StageKind) -> bool
    ensures { result ≡ is_stage kind other }
{
    kind == other
}

fn is_same_agg(kind: AggKind, other: AggKind) -> bool
    ensures { result ≡ is_agg kind other }
{
    kind == other
}
