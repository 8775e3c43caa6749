// The inputs of a job's sources, found and given back.
ghost use Rattle.std.specs.Prelude.{◌≡◌, ℕ, ◌+◌, ◌-◌, ◌<◌, ◌≤◌, ◌++◌, [], ◌∷◌, length, OnOk, IfErr};
ghost use Rattle.std.specs.List.{AllByRecursion};
ghost use Rattle.flow_defs.specs.Items.{Items};
ghost use Rattle.flow_defs.specs.Jobs.{tasks};
ghost use Rattle.flow_defs.specs.Stages.{IsToken};
ghost use Rattle.outside.specs.Faults.{HasRisen};
ghost use Rattle.command_parts.specs.Causes.{status_of};
ghost use Rattle.command_parts.specs.Sources.{AreInputsOf, HasFaulty, IsBehindFound, IsSourceFault};

use crate::fault::Fault;
use flow_defs::{Job, ListOf};
use outside::{Files, FindFault};
use std::alloc::Global;

/// Finds the inputs of the job's sources, in order, and puts them on the empty list, which has room for all. On a
/// fault those that were found before are on it, so the source that is told is the first that was not found.
pub fn find_inputs<F: Files>(
    alloc: Global,
    job: &Job,
    files: &mut F,
    inputs: &mut ListOf<F::Input>,
) -> Result<(), Fault>
where
    F::Input: Drop,
    requires few { length job.now.sources.items ≤ 8 }
    requires names { AllByRecursion (λ (file : Items ℕ). IsToken file.items) job.now.sources.items }
    requires none { inputs.old.items ≡ [] }
    requires room { 8 ≤ inputs.old.room }
    ensures found { OnOk result (length inputs.new.items ≡ tasks job.now 0) }
    ensures told { AreInputsOf F.Input.left F.Input.faults job.now (F.contents files.old) inputs.new.items }
    ensures fault { IfErr result (IsSourceFault job.now (F.contents files.old)) }
    ensures first { IfErr result (IsBehindFound (length inputs.new.items)) }
    ensures input { IfErr result (λ fault. status_of fault ≡ 4 → HasRisen (F.faults files.old) (F.faults files.new)) }
    ensures no_output { IfErr result (λ fault. status_of fault ≡ 7 → ⊥) }
    ensures lent { F.lent files.new ≡ F.lent files.old + length inputs.new.items }
    ensures never_falls { F.faults files.old ≤ F.faults files.new }
{
    let mut source = 0;
    for name in job.sources.as_slice() {
        match files.find(alloc, file_name(name.as_slice())) {
            Ok(input) => add_input(inputs, input),
            Err(FindFault::Failed) => return Err(Fault::SourceInput { source }),
            Err(FindFault::Memory) => return Err(Fault::Memory),
        }
        source += 1;
    }
    Ok(())
}

// Adds an input to those for which there is room.
fn add_input<S: Drop>(inputs: &mut ListOf<S>, input: S)
    requires { 0 < inputs.old.room }
    ensures items { inputs.new.items ≡ inputs.old.items ++ input ∷ [] }
    ensures room { inputs.old.room ≤ inputs.new.room + 1 }
{
    let Ok(()) = inputs.push(input) else {
        unreachable!()
    };
}

/// Gives all inputs on the list back.
pub fn give_back<F: Files>(files: &mut F, inputs: ListOf<F::Input>)
where
    F::Input: Drop,
    ensures returns { F.lent files.new ≡ F.lent files.old - length inputs.items }
    ensures rises { HasFaulty F.Input.faults inputs.items → HasRisen (F.faults files.old) (F.faults files.new) }
    ensures never_falls { F.faults files.old ≤ F.faults files.new }
{
    let mut left = inputs;
    'inputs: while let Some(input) = left.pop() {
        files.back(input);
    }
}

/// The name as a text.
pub fn file_name(name: &[u8]) -> &str
    requires { IsToken name.now }
    ensures { result.now ≡ name.now }
{
    let Ok(name) = std::str::from_utf8(name) else {
        unreachable!()
    };
    name
}
