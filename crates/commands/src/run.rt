// Does the command that the words are.
ghost use Rattle.std.specs.Prelude.{◌≡◌, ◌≤◌, ⊤, ◌++◌, List, ℕ, IfOk, OnOk, length, Ok, Some, None, IfErr, IfSome};
ghost use Rattle.flow_defs.specs.Jobs.{IsJob};
ghost use Rattle.flow_defs.specs.Tables.{table_text};
ghost use Rattle.flow_defs.specs.declared.image.Image.{Image};
ghost use Rattle.flow_defs.specs.declared.job.Job.{Job};
ghost use Rattle.outside.specs.Faults.{HasRisen};
ghost use Rattle.segment_pool.specs.Stocks.{IsSize, IsTotal};
ghost use Rattle.stage_fns.specs.Kinds.{kinds};
ghost use Rattle.job_plan.specs.Plans.{CanRun};
ghost use Rattle.job_outcome.specs.Storing.{HasKept};
ghost use Rattle.job_text.specs.declared.words.RunOptions.{RunOptions};
ghost use Rattle.job_text.specs.Words.{HasRanges, IsRun, IsCommand, usage_fault};
ghost use Rattle.job_text.specs.JobText.{IsJobText};
ghost use Rattle.job_text.specs.JobFaults.{first_fault};
ghost use Rattle.command_parts.specs.Causes.{status_of, of_job_file};
ghost use Rattle.commands.specs.Run.{RunsTo, Prints, HasChain, HasDone, HasDoneInPart, EndsWith, IsFaultOf, NamesCommand, StartsJob, TellsRun};
ghost use Rattle.job_command.specs.Pools.{HasPool};
ghost use Rattle.command_parts.specs.Sources.{TellsSources};
ghost use Rattle.commands.specs.TextFaults.{IsWordFault, IsJobFileFault, IsSmallPoolFault, IsTextFault};
ghost use Rattle.flow_defs.specs.Limits.{job_text_max};

use crate::selfrun::selfrun_text;
use command_parts::fault::Fault;
use command_parts::input::{InputFault, read_file};
use command_parts::output::{OutputFault, table_text, write_all};
use flow_defs::{Bytes, Job, ListOf, Word, needed};
use inspect_command::inspect::show_last;
use job_command::exchange::table_by_exchange;
use job_command::held::refuse_held;
use job_text::laws::{job_texts_are_clear, words_are_clear};
use job_text::{Command, JobReadFault, RunOptions, WordFault, read_job, read_words};
use line_generator::generate;
use outside::{Files, Keeper, Sink};
use script_command::script::replies_of_file;
use stage_fns::FnTable;
use std::alloc::{AllocError, Global};
use std::sync::Wait;
use std::thread::Threads;

/// The most bytes in a job's text.
pub const JOB_MAX: usize = 65_536;

// The fault of the file with the job's text. Its lines have no limit.
fn job_file_fault(fault: InputFault) -> Fault
    ensures { result ≡ of_job_file fault }
{
    match fault {
        InputFault::Failed => Fault::JobInput,
        InputFault::TooBig | InputFault::LongLine => Fault::LongJob,
        InputFault::Memory => Fault::Memory,
    }
}

/// Does the command that the words are. All that it prints is made before the first byte is written.
pub fn run<R: Threads + Wait + Sync, F: Files, K: Keeper + Send, O: Sink>(
    rt: &R,
    alloc: Global,
    words: &ListOf<Word>,
    functions: &FnTable,
    files: &mut F,
    keeper: &mut K,
    out: &mut O,
) -> Result<(), Fault>
where
    F::Input: Drop,
    ensures done { result ≡ Ok tt → HasDone words.now.items (kinds functions.now) (F.contents files.old) (K.images keeper.old) (O.got out.old) (O.got out.new) }
    ensures fault { IfErr result (IsFaultOf words.now.items (kinds functions.now) (F.contents files.old) (K.images keeper.old)) }
    ensures input { IfErr result (λ fault. status_of fault ≡ 4 → HasRisen (F.faults files.old) (F.faults files.new)) }
    ensures keeper { IfErr result (λ fault. status_of fault ≡ 5 → HasRisen (K.faults keeper.old) (K.faults keeper.new)) }
    ensures output { IfErr result (λ fault. status_of fault ≡ 7 → HasRisen (O.faults out.old) (O.faults out.new)) }
    ensures silent { IfErr result (λ fault. (status_of fault ≡ 7 → ⊥) → O.got out.new ≡ O.got out.old) }
    ensures front { IfErr result (λ fault. status_of fault ≡ 7 → HasDoneInPart words.now.items (kinds functions.now) (F.contents files.old) (K.images keeper.old) (O.got out.old) (O.got out.new)) }
    ensures chain { (options : RunOptions) (job : Job) (bytes : ℕ → List ℕ) →
        TellsRun words.now.items (kinds functions.now) (F.contents files.old) options job → TellsSources job (F.contents files.old) bytes →
        HasChain options job bytes (K.images keeper.old) (K.images keeper.new) }
    ensures last { result ≡ Ok tt → (options : RunOptions) (job : Job) (bytes : ℕ → List ℕ) →
        TellsRun words.now.items (kinds functions.now) (F.contents files.old) options job → TellsSources job (F.contents files.old) bytes →
        EndsWith options job bytes (K.images keeper.old) (K.images keeper.new) (λ table. IfSome (O.got out.old) (λ had. O.got out.new ≡ Some (had ++ table_text table))) }
    ensures kept { (images : List Image) × HasKept (K.images keeper.old) (K.images keeper.new) images }
    ensures kept_else { (StartsJob words.now.items (kinds functions.now) (F.contents files.old) (K.images keeper.old) (λ job. ⊤) → ⊥) → K.images keeper.new ≡ K.images keeper.old }
    ensures given_back { F.lent files.new ≡ F.lent files.old }
{
    let text = text_to_print(rt, alloc, words, functions, files, keeper)?;
    match write_all(out, text.as_slice()) {
        Ok(()) => Ok(()),
        Err(OutputFault) => Err(Fault::Output),
    }
}

// What the command that the words are is to print.
fn text_to_print<R: Threads + Wait + Sync, F: Files, K: Keeper + Send>(
    rt: &R,
    alloc: Global,
    words: &ListOf<Word>,
    functions: &FnTable,
    files: &mut F,
    keeper: &mut K,
) -> Result<Bytes, Fault>
where
    F::Input: Drop,
    ensures done { IfOk result (λ text. Prints words.now.items (kinds functions.now) (F.contents files.old) (K.images keeper.old) (λ all. text.items ≡ all)) }
    ensures fault { IfErr result (IsFaultOf words.now.items (kinds functions.now) (F.contents files.old) (K.images keeper.old)) }
    ensures input { IfErr result (λ fault. status_of fault ≡ 4 → HasRisen (F.faults files.old) (F.faults files.new)) }
    ensures keeper { IfErr result (λ fault. status_of fault ≡ 5 → HasRisen (K.faults keeper.old) (K.faults keeper.new)) }
    ensures no_output { IfErr result (λ fault. status_of fault ≡ 7 → ⊥) }
    ensures chain { (options : RunOptions) (job : Job) (bytes : ℕ → List ℕ) →
        TellsRun words.now.items (kinds functions.now) (F.contents files.old) options job → TellsSources job (F.contents files.old) bytes →
        HasChain options job bytes (K.images keeper.old) (K.images keeper.new) }
    ensures last { IfOk result (λ text. (options : RunOptions) (job : Job) (bytes : ℕ → List ℕ) →
        TellsRun words.now.items (kinds functions.now) (F.contents files.old) options job → TellsSources job (F.contents files.old) bytes →
        EndsWith options job bytes (K.images keeper.old) (K.images keeper.new) (λ table. text.items ≡ table_text table)) }
    ensures kept { (images : List Image) × HasKept (K.images keeper.old) (K.images keeper.new) images }
    ensures kept_else { (StartsJob words.now.items (kinds functions.now) (F.contents files.old) (K.images keeper.old) (λ job. ⊤) → ⊥) → K.images keeper.new ≡ K.images keeper.old }
    ensures given_back { F.lent files.new ≡ F.lent files.old }
{
    let command = command_of(alloc, words)?;
    words_are_clear();
    match command {
        Command::Run { job, options } => {
            tally_text(rt, alloc, job.text(), options, functions, files, keeper)
        }
        Command::Script { file } => replies_of_file(rt, alloc, file.text(), files),
        Command::Gen { lines, seed } => Ok(generate(alloc, lines, seed)?),
        Command::SelfRun { lines, seed } => selfrun_text(rt, alloc, lines, seed, functions),
        Command::Inspect => show_last(alloc, keeper),
    }
}

// The text of the tally of the job in the file of this name. The keeper is asked before a source is looked for, and gets
// the images of the job's checkpoints.
fn tally_text<R: Threads + Wait + Sync, F: Files, K: Keeper + Send>(
    rt: &R,
    alloc: Global,
    name: &str,
    options: RunOptions,
    functions: &FnTable,
    files: &mut F,
    keeper: &mut K,
) -> Result<Bytes, Fault>
where
    F::Input: Drop,
    requires range { IsTotal options.pool × IsSize options.segment }
    requires every { IfSome options.every (λ n. 1 ≤ n) }
    ensures done { IfOk result (λ text. (words : List (List ℕ)) → IsRun words name.now options →
        RunsTo words (kinds functions.now) (F.contents files.old) (K.images keeper.old) (λ tally. text.items ≡ tally)) }
    ensures fault { IfErr result (λ fault. (words : List (List ℕ)) → IsRun words name.now options →
        IsFaultOf words (kinds functions.now) (F.contents files.old) (K.images keeper.old) fault) }
    ensures input { IfErr result (λ fault. status_of fault ≡ 4 → HasRisen (F.faults files.old) (F.faults files.new)) }
    ensures keeper { IfErr result (λ fault. status_of fault ≡ 5 → HasRisen (K.faults keeper.old) (K.faults keeper.new)) }
    ensures no_output { IfErr result (λ fault. status_of fault ≡ 7 → ⊥) }
    ensures chain { (text : List ℕ) (job : Job) (bytes : ℕ → List ℕ) → F.contents files.old name.now ≡ Some text →
        IsJobText (kinds functions.now) text job → TellsSources job (F.contents files.old) bytes →
        HasChain options job bytes (K.images keeper.old) (K.images keeper.new) }
    ensures last { IfOk result (λ printed. (text : List ℕ) (job : Job) (bytes : ℕ → List ℕ) → F.contents files.old name.now ≡ Some text →
        IsJobText (kinds functions.now) text job → TellsSources job (F.contents files.old) bytes →
        EndsWith options job bytes (K.images keeper.old) (K.images keeper.new) (λ table. printed.items ≡ table_text table)) }
    ensures kept { (images : List Image) × HasKept (K.images keeper.old) (K.images keeper.new) images }
    ensures kept_else { (words : List (List ℕ)) → IsRun words name.now options →
        (StartsJob words (kinds functions.now) (F.contents files.old) (K.images keeper.old) (λ job. ⊤) → ⊥) → K.images keeper.new ≡ K.images keeper.old }
    ensures given_back { F.lent files.new ≡ F.lent files.old }
{
    job_texts_are_clear();
    let text = read_job_text(alloc, files, name)?;
    let job = job_of_text(alloc, text.as_slice(), functions)?;
    check_pool(&job, options)?;
    refuse_held(alloc, keeper)?;
    let table = table_by_exchange(rt, alloc, &job, options, functions, files, keeper)?;
    Ok(table_text(alloc, &table)?)
}

// Compares the pool with what the job needs.
fn check_pool(job: &Job, options: RunOptions) -> Result<(), Fault>
    requires { IsJob job.now }
    ensures enough { OnOk result (HasPool options job.now) }
    ensures fault { IfErr result (IsSmallPoolFault options job.now) }
{
    let have = options.pool;
    let need = needed(job);
    if have < need {
        return Err(Fault::TooFewSegments { have, need });
    }
    Ok(())
}

// The command that the words are.
fn command_of(alloc: Global, words: &ListOf<Word>) -> Result<Command, Fault>
    ensures command { IfOk result (IsCommand words.now.items) }
    ensures ranges { IfOk result HasRanges }
    ensures fault { IfErr result (IsWordFault words.now.items) }
    ensures accepted { usage_fault words.now.items ≡ None → NamesCommand words.now.items }
{
    match read_words(alloc, words) {
        Ok(command) => Ok(command),
        Err(WordFault::Usage { kind }) => Err(Fault::Usage { kind }),
        Err(WordFault::Memory) => Err(Fault::Memory),
    }
}

/// The job whose text this is.
pub fn job_of_text(alloc: Global, text: &[u8], functions: &FnTable) -> Result<Job, Fault>
    ensures job { IfOk result (IsJobText (kinds functions.now) text.now) }
    ensures ready { IfOk result (CanRun (kinds functions.now)) }
    ensures clear { IfOk result (λ _. first_fault (kinds functions.now) text.now ≡ None) }
    ensures fault { IfErr result (IsTextFault (kinds functions.now) text.now) }
{
    match read_job(alloc, text, functions) {
        Ok(job) => {
            job_texts_are_clear();
            Ok(job)
        }
        Err(JobReadFault::Line { line, kind }) => Err(Fault::JobLine { line, kind }),
        Err(JobReadFault::Memory) => Err(Fault::Memory),
    }
}

// The text of the job in the file of this name.
fn read_job_text<F: Files>(alloc: Global, files: &mut F, name: &str) -> Result<Bytes, Fault>
    ensures told { IfOk result (λ text. IfSome (F.contents files.old name.now) (λ held. text.items ≡ held)) }
    ensures fits { IfOk result (λ text. length text.items ≤ job_text_max) }
    ensures fault { IfErr result (IsJobFileFault (F.contents files.old name.now)) }
    ensures input { IfErr result (λ fault. status_of fault ≡ 4 → HasRisen (F.faults files.old) (F.faults files.new)) }
    ensures same { F.contents files.new ≡ F.contents files.old }
    ensures never_falls { F.faults files.old ≤ F.faults files.new }
    ensures given_back { F.lent files.new ≡ F.lent files.old }
{
    match read_file(alloc, files, name, JOB_MAX) {
        Ok(text) => Ok(text),
        Err(fault) => Err(job_file_fault(fault)),
    }
}
