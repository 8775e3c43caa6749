// Runs a job through the exchange, over links in memory.
ghost use Rattle.std.specs.Prelude.{◌≡◌, ◌⊎◌, ⊤, ℕ, ◌+◌, ◌≤◌, List, [], length, Option, IfOk, IfErr, IfSome};
ghost use Rattle.std.specs.List.{AllByRecursion};
ghost use Rattle.flow_defs.specs.Items.{Items};
ghost use Rattle.flow_defs.specs.Jobs.{IsJob, tasks};
ghost use Rattle.flow_defs.specs.Lines.{lines};
ghost use Rattle.flow_defs.specs.Stages.{IsToken};
ghost use Rattle.plain_machine.specs.Worth.{tally};
ghost use Rattle.outside.specs.Faults.{HasRisen};
ghost use Rattle.segment_pool.specs.Stocks.{IsSize, IsTotal};
ghost use Rattle.stage_fns.specs.Kinds.{kinds};
ghost use Rattle.job_plan.specs.Plans.{CanRun};
ghost use Rattle.collecting_worker.specs.Accounts.{HasText};
ghost use Rattle.flow_defs.specs.declared.image.Image.{Image};
ghost use Rattle.job_cells.specs.Networks.{IsNetworkOf};
ghost use Rattle.job_workers.specs.Collecting.{TakesImages};
ghost use Rattle.job_outcome.specs.Outcomes.{AreTold, AreWithin, ComeBack, IsRunCause};
ghost use Rattle.job_outcome.specs.Storing.{EndsIn, HasKept, HasStored, IsTooLarge};
ghost use Rattle.command_parts.specs.Causes.{of_cause, status_of};
ghost use Rattle.command_parts.specs.Sources.{AreWithinLimits};
ghost use Rattle.job_command.specs.Pools.{HasPool};
ghost use Rattle.command_parts.specs.Sources.{TellsSources, HasFaulty};
ghost use Rattle.job_command.specs.RunFaults.{IsRunFault};

use command_parts::fault::Fault;
use command_parts::inputs::{find_inputs, give_back};
use flow_defs::{Cause, Job, ListOf, SOURCES_MAX, Table};
use job_cells::{Network, open_network};
use job_run::run_job;
use job_text::RunOptions;
use outside::{Files, Keeper, MemoryLinks, Source};
use stage_fns::FnTable;
use std::alloc::Global;
use std::sync::Wait;
use std::thread::Threads;

/// The table of the job, whose tasks run at once and read its sources at once, over network memory of the size that the
/// options say. The images of its checkpoints go to the keeper. Each input that was found is given back, whatever comes.
pub fn table_by_exchange<R: Threads + Wait + Sync, F: Files, K: Keeper + Send>(
    rt: &R,
    alloc: Global,
    job: &Job,
    options: RunOptions,
    functions: &FnTable,
    files: &mut F,
    keeper: &mut K,
) -> Result<Table, Fault>
where
    F::Input: Drop,
    requires is_job { IsJob job.now × CanRun (kinds functions.now) job.now }
    requires few { length job.now.sources.items ≤ 8 }
    requires names { AllByRecursion (λ (file : Items ℕ). IsToken file.items) job.now.sources.items }
    requires range { IsTotal options.pool × IsSize options.segment }
    requires enough { HasPool options job.now }
    requires text { HasText job.now }
    requires every { IfSome options.every (λ n. 1 ≤ n) }
    requires keeper { TakesImages (K.images keeper.old) }
    ensures told { IfOk result (λ table. (bytes : ℕ → List ℕ) → TellsSources job.now (F.contents files.old) bytes →
        AreWithinLimits job.now bytes × (table ≡ tally job.now (λ a. lines (bytes a)))) }
    ensures chain { (bytes : ℕ → List ℕ) → TellsSources job.now (F.contents files.old) bytes →
        HasStored job.now (λ a. lines (bytes a)) options.every (K.images keeper.old) (K.images keeper.new) }
    ensures last { IfOk result (λ table. (bytes : ℕ → List ℕ) → TellsSources job.now (F.contents files.old) bytes →
        EndsIn job.now (λ a. lines (bytes a)) options.every (K.images keeper.old) (K.images keeper.new) table) }
    ensures kept { (images : List Image) × HasKept (K.images keeper.old) (K.images keeper.new) images }
    ensures fault { IfErr result (IsRunFault job.now options.every (F.contents files.old) (K.images keeper.old) (K.images keeper.new)) }
    ensures input { IfErr result (λ fault. status_of fault ≡ 4 → HasRisen (F.faults files.old) (F.faults files.new)) }
    ensures no_output { IfErr result (λ fault. status_of fault ≡ 7 → ⊥) }
    ensures keeper { IfErr result (λ fault. status_of fault ≡ 5 → HasRisen (K.faults keeper.old) (K.faults keeper.new)) }
    ensures keeper_never_falls { K.faults keeper.old ≤ K.faults keeper.new }
    ensures given_back { F.lent files.new ≡ F.lent files.old }
{
    let network = open_network(alloc, job, options.pool, options.segment)?;
    let mut inputs = ListOf::new(alloc);
    inputs.reserve(SOURCES_MAX)?;
    let table = table_of_found(
        rt,
        alloc,
        job,
        options,
        network,
        functions,
        files,
        keeper,
        &mut inputs,
    );
    give_back(files, inputs);
    table
}

// Finds the inputs, and runs the job over them. Those that were found are on the list.
fn table_of_found<R: Threads + Wait + Sync, F: Files, K: Keeper + Send>(
    rt: &R,
    alloc: Global,
    job: &Job,
    options: RunOptions,
    network: Network,
    functions: &FnTable,
    files: &mut F,
    keeper: &mut K,
    inputs: &mut ListOf<F::Input>,
) -> Result<Table, Fault>
where
    F::Input: Drop,
    requires is_job { IsJob job.now × CanRun (kinds functions.now) job.now }
    requires few { length job.now.sources.items ≤ 8 }
    requires names { AllByRecursion (λ (file : Items ℕ). IsToken file.items) job.now.sources.items }
    requires network { IsNetworkOf job.now options.pool options.segment network }
    requires text { HasText job.now }
    requires every { IfSome options.every (λ n. 1 ≤ n) }
    requires keeper { TakesImages (K.images keeper.old) }
    requires none { inputs.old.items ≡ [] }
    requires room { 8 ≤ inputs.old.room }
    ensures told { IfOk result (λ table. (bytes : ℕ → List ℕ) → TellsSources job.now (F.contents files.old) bytes →
        AreWithinLimits job.now bytes × (table ≡ tally job.now (λ a. lines (bytes a)))) }
    ensures chain { (bytes : ℕ → List ℕ) → TellsSources job.now (F.contents files.old) bytes →
        HasStored job.now (λ a. lines (bytes a)) options.every (K.images keeper.old) (K.images keeper.new) }
    ensures last { IfOk result (λ table. (bytes : ℕ → List ℕ) → TellsSources job.now (F.contents files.old) bytes →
        EndsIn job.now (λ a. lines (bytes a)) options.every (K.images keeper.old) (K.images keeper.new) table) }
    ensures kept { (images : List Image) × HasKept (K.images keeper.old) (K.images keeper.new) images }
    ensures fault { IfErr result (IsRunFault job.now options.every (F.contents files.old) (K.images keeper.old) (K.images keeper.new)) }
    ensures input { IfErr result (λ fault. status_of fault ≡ 4 → HasRisen (F.faults files.old) (F.faults files.new) ⊎ HasFaulty F.Input.faults inputs.new.items) }
    ensures no_output { IfErr result (λ fault. status_of fault ≡ 7 → ⊥) }
    ensures keeper { IfErr result (λ fault. status_of fault ≡ 5 → HasRisen (K.faults keeper.old) (K.faults keeper.new)) }
    ensures keeper_never_falls { K.faults keeper.old ≤ K.faults keeper.new }
    ensures lent { F.lent files.new ≡ F.lent files.old + length inputs.new.items }
    ensures never_falls { F.faults files.old ≤ F.faults files.new }
{
    find_inputs(alloc, job, files, inputs)?;
    match table_of_inputs(rt, alloc, job, options, network, functions, keeper, inputs) {
        Ok(table) => Ok(table),
        Err(cause) => Err(fault_of(cause)),
    }
}

// Runs the job over these inputs. Its links are in memory, and none of them fails.
fn table_of_inputs<R: Threads + Wait + Sync, S: Source + Send + Drop, K: Keeper + Send>(
    rt: &R,
    alloc: Global,
    job: &Job,
    options: RunOptions,
    network: Network,
    functions: &FnTable,
    keeper: &mut K,
    inputs: &mut ListOf<S>,
) -> Result<Table, Cause>
    requires is_job { IsJob job.now × CanRun (kinds functions.now) job.now }
    requires network { IsNetworkOf job.now options.pool options.segment network }
    requires text { HasText job.now }
    requires every { IfSome options.every (λ n. 1 ≤ n) }
    requires keeper { TakesImages (K.images keeper.old) }
    requires inputs { length inputs.old.items ≡ tasks job.now 0 }
    ensures told { IfOk result (λ table. (bytes : ℕ → List ℕ) → AreTold S.left inputs.old.items bytes →
        AreWithin job.now bytes × (table ≡ tally job.now (λ a. lines (bytes a)))) }
    ensures chain { (bytes : ℕ → List ℕ) → AreTold S.left inputs.old.items bytes →
        HasStored job.now (λ a. lines (bytes a)) options.every (K.images keeper.old) (K.images keeper.new) }
    ensures last { IfOk result (λ table. (bytes : ℕ → List ℕ) → AreTold S.left inputs.old.items bytes →
        EndsIn job.now (λ a. lines (bytes a)) options.every (K.images keeper.old) (K.images keeper.new) table) }
    ensures kept { (images : List Image) × HasKept (K.images keeper.old) (K.images keeper.new) images }
    ensures keeper_never_falls { K.faults keeper.old ≤ K.faults keeper.new }
    ensures cause { IfErr result (IsRunCause S.left S.faults inputs.old.items inputs.new.items ⊥ (λ _. ⊤) (HasRisen (K.faults keeper.old) (K.faults keeper.new))
        ((bytes : ℕ → List ℕ) → AreTold S.left inputs.old.items bytes → IsTooLarge job.now (λ a. lines (bytes a)) options.every (K.images keeper.old) (K.images keeper.new))) }
    ensures inputs { ComeBack S.faults inputs.old.items inputs.new.items }
{
    let mut net = MemoryLinks::new(
        alloc,
        ListOf::new(alloc),
        ListOf::new(alloc),
        ListOf::new(alloc),
    );
    run_job(
        rt, alloc, job, functions, options, network, inputs, &mut net, keeper,
    )
}

// The fault of a run whose workers ended so. One that has no table is neither done nor stopped.
fn fault_of(cause: Cause) -> Fault
    ensures { result ≡ of_cause cause }
{
    match cause {
        Cause::Input { source } => Fault::SourceInput { source },
        Cause::Link => Fault::Link,
        Cause::LongLine { source } => Fault::LongLine { source },
        Cause::BigSource { source } => Fault::BigSource { source },
        Cause::OverCredit {
            channel,
            received,
            announced,
        } => Fault::OverCredit {
            channel,
            received,
            announced,
        },
        Cause::Peer { fault } => Fault::Peer { fault },
        Cause::Keeper => Fault::Keeper,
        Cause::BigImage => Fault::BigImage,
        Cause::Done | Cause::Stopped | Cause::Memory => Fault::Memory,
    }
}
