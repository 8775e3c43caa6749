// The program, over the world that it is handed.
// The runtime has the bounds of threads for the sake of runs. A script takes the turns of its pool by it, on
// one thread.
ghost use Rattle.std.specs.Prelude.{◌≡◌, ◌≢◌, ◌<◌, ◌⊎◌, ⊤, List, ℕ, [], ◌∷◌, ◌++◌, length, Some, IfSome, Contains};
ghost use Rattle.flow_defs.specs.Jobs.{segments_needed, tasks};
ghost use Rattle.flow_defs.specs.Lines.{lines};
ghost use Rattle.flow_defs.specs.Tables.{table_text};
ghost use Rattle.flow_defs.specs.declared.job.Job.{Job};
ghost use Rattle.flow_defs.specs.declared.image.Image.{Image};
ghost use Rattle.outside.specs.Faults.{HasRisen};
ghost use Rattle.outside.specs.Keepers.{KeptImage};
ghost use Rattle.stage_fns.specs.Kinds.{kinds};
ghost use Rattle.job_plan.specs.Limits.{IsOverLimit};
ghost use Rattle.plain_machine.specs.Loads.{HasHeavyEdge};
ghost use Rattle.job_outcome.specs.Storing.{HasKept};
ghost use Rattle.job_text.specs.Words.{IsGen, IsSelfRun, IsInspect};
ghost use Rattle.job_text.specs.declared.words.RunOptions.{RunOptions};
ghost use Rattle.command_parts.specs.Held.{TellsLast};
ghost use Rattle.inspect_command.specs.Inspects.{HasNoneToShow, IsImageKept};
ghost use Rattle.commands.specs.Answers.{IsAnswer};
ghost use Rattle.commands.specs.Run.{NamesCommand, NamesJob, StartsJob, HasChain, HasDone, HasDoneInPart, HasToldOverCredit, EndsWith, IsHindered, IsNoJob, IsTold, PassesLimit, TellsJob, TellsRun};
ghost use Rattle.job_command.specs.Pools.{HasPool};
ghost use Rattle.command_parts.specs.Sources.{AreWithinLimits};
ghost use Rattle.command_parts.specs.Sources.{TellsSources};
ghost use Rattle.script_command.specs.Scripts.{NamesScript, HasEnough, IsNoScript, IsScriptWith, PassesScriptLimit, TellsScript};
ghost use Rattle.commands.specs.SelfRuns.{HasFunctions, LacksFunction};
ghost use Rattle.flow_defs.specs.Limits.{job_text_max};

use crate::run::run;
use command_parts::output::tell;
use flow_defs::{ListOf, Word};
use job_text::laws::{job_texts_are_clear, words_are_clear};
use outside::{Files, Keeper, Sink};
use plain_machine::laws::start_exists;
use plain_machine::sizes::large_image_is_of_load;
use script_text::laws::script_texts_are_clear;
use stage_fns::FnTable;
use std::alloc::Global;
use std::sync::Wait;
use std::thread::Threads;

/// Does the command that the words are, and answers the status with which the program ends: 0 done,
/// 2 the words are no command, 3 the text is no job's or no script's, or a function of the job of `selfrun` is lacking, 4 a fault of an
/// input, 5 one of the keeper, 6 one of a link, which never comes over links in memory, 7 one of the output, 8 the keeper holds an image
/// where a job is to start, or none to show, or bytes that are no image of its number, 10 a limit is passed, 11 more came on a channel than
/// its credit allows, 12 another fault of a connection's other end, 70 want of memory. With another status than 0, `err` gets one line that tells of the
/// fault.
///
/// A run does all tasks of its job at once, each in a thread of its own where threads can be made, and reads its
/// sources at once, in pieces. The tasks are joined by links in memory. Its memory grows with the pool of segments, the longest line and
/// what the stages give for it, the keys, of which an image has a copy, and in each task with the changes of sender since the last
/// checkpoint; the order in which tasks come to their turns changes nothing in what is printed. Its checkpoints are taken in line, and their
/// images go to the keeper, the last one with the whole table. A script is held whole, with all replies to it, and so are the lines that
/// are made of a seed, twice by `selfrun`, and the image that is shown.
pub fn top<R: Threads + Wait + Sync, F: Files, K: Keeper + Send, O: Sink, E: Sink>(
    rt: &R,
    alloc: Global,
    words: &ListOf<Word>,
    functions: &FnTable,
    files: &mut F,
    keeper: &mut K,
    out: &mut O,
    err: &mut E,
) -> u8
where
    F::Input: Drop,
    ensures { IsAnswer words.now.items (kinds functions.now)
        (record {
          contents = F.contents files.old;
          lent = F.lent files.old;
          input_faults = F.faults files.old;
          images = K.images keeper.old;
          keeper_faults = K.faults keeper.old;
          output = O.got out.old;
          output_faults = O.faults out.old;
          errors = E.got err.old;
          error_faults = E.faults err.old;
        })
        (record {
          contents = F.contents files.new;
          lent = F.lent files.new;
          input_faults = F.faults files.new;
          images = K.images keeper.new;
          keeper_faults = K.faults keeper.new;
          output = O.got out.new;
          output_faults = O.faults out.new;
          errors = E.got err.new;
          error_faults = E.faults err.new;
        }) result }
{
    answer(rt, alloc, words, functions, files, keeper, out, err)
}

// The same, clause by clause.
fn answer<R: Threads + Wait + Sync, F: Files, K: Keeper + Send, O: Sink, E: Sink>(
    rt: &R,
    alloc: Global,
    words: &ListOf<Word>,
    functions: &FnTable,
    files: &mut F,
    keeper: &mut K,
    out: &mut O,
    err: &mut E,
) -> u8
where
    F::Input: Drop,
    // Status 0 comes only where all work was done: the pool was large enough, the keeper held no image, no source was over a limit, and
    // the output got the text of the tally, the replies to all events of the script, the lines of the seed, what a run over such comes to,
    // or the lines of the keeper's last image, and nothing else.
    ensures done { result ≡ 0 → HasDone words.now.items (kinds functions.now) (F.contents files.old) (K.images keeper.old) (O.got out.old) (O.got out.new) }

    // Which status comes where the words are no command, the text is no job's or no script's, a function of the job of `selfrun` is lacking,
    // or a limit is passed.
    ensures usage { result ≡ 2 → NamesCommand words.now.items → ⊥ }
    ensures accepted { result ≢ 2 → NamesCommand words.now.items }
    ensures text { result ≡ 3 → NamesJob words.now.items (F.contents files.old) (IsNoJob (kinds functions.now))
        ⊎ NamesScript words.now.items (F.contents files.old) IsNoScript
        ⊎ LacksFunction words.now.items (kinds functions.now) }
    ensures text_refused { (options : RunOptions) (text : List ℕ) → TellsJob words.now.items (F.contents files.old) options text →
        IsNoJob (kinds functions.now) text → Contains (3 ∷ 4 ∷ 70 ∷ []) result }
    ensures script_refused { (text : List ℕ) → TellsScript words.now.items (F.contents files.old) text → IsNoScript text →
        Contains (3 ∷ 4 ∷ 70 ∷ []) result }
    ensures limit { result ≡ 10 → PassesLimit words.now.items (kinds functions.now) (F.contents files.old)
        ⊎ NamesScript words.now.items (F.contents files.old) PassesScriptLimit }
    ensures job_refused { (options : RunOptions) (text : List ℕ) → TellsJob words.now.items (F.contents files.old) options text →
        job_text_max < length text → Contains (10 ∷ 4 ∷ 70 ∷ []) result }
    ensures pool_refused { (options : RunOptions) (job : Job) →
        TellsRun words.now.items (kinds functions.now) (F.contents files.old) options job → options.pool < segments_needed job →
        Contains (10 ∷ 4 ∷ 70 ∷ []) result }
    ensures source_refused { (options : RunOptions) (job : Job) (bytes : ℕ → List ℕ) (a : ℕ) →
        TellsRun words.now.items (kinds functions.now) (F.contents files.old) options job → TellsSources job (F.contents files.old) bytes →
        a < tasks job 0 → IsOverLimit (bytes a) → Contains (10 ∷ 4 ∷ 5 ∷ 8 ∷ 11 ∷ 12 ∷ 70 ∷ []) result }
    ensures over_refused { (text : List ℕ) → TellsScript words.now.items (F.contents files.old) text → PassesScriptLimit text →
        Contains (10 ∷ 4 ∷ 70 ∷ []) result }

    // An input fault comes only where the count of the files rose, an output fault only where that of the output did.
    ensures input { result ≡ 4 → HasRisen (F.faults files.old) (F.faults files.new) }
    ensures output { result ≡ 7 → HasRisen (O.faults out.old) (O.faults out.new) }

    // A keeper's fault comes only where its count rose. Behind the images that it holds it gets the spellings of some, and none where no job
    // may start.
    ensures keeper { result ≡ 5 → HasRisen (K.faults keeper.old) (K.faults keeper.new) }
    ensures kept { (images : List Image) × HasKept (K.images keeper.old) (K.images keeper.new) images }
    ensures kept_else { (StartsJob words.now.items (kinds functions.now) (F.contents files.old) (K.images keeper.old) (λ job. ⊤) → ⊥) → K.images keeper.new ≡ K.images keeper.old }

    // Whatever the status, and whatever the order in which tasks and loops came to their turns: the images that a run stored are a chain
    // from the start on, each the plain machine's successor of the one before it by the takes recorded in it, and nothing is in flight at
    // any of them. With status 0 the last of them is marked so, and the output got the text of its table.
    ensures chain { (options : RunOptions) (job : Job) (bytes : ℕ → List ℕ) →
        TellsRun words.now.items (kinds functions.now) (F.contents files.old) options job → TellsSources job (F.contents files.old) bytes →
        HasChain options job bytes (K.images keeper.old) (K.images keeper.new) }
    ensures last { result ≡ 0 → (options : RunOptions) (job : Job) (bytes : ℕ → List ℕ) →
        TellsRun words.now.items (kinds functions.now) (F.contents files.old) options job → TellsSources job (F.contents files.old) bytes →
        EndsWith options job bytes (K.images keeper.old) (K.images keeper.new) (λ table. IfSome (O.got out.old) (λ had. O.got out.new ≡ Some (had ++ table_text table))) }

    // What the keeper holds hinders a job only where there is an image, and `inspect` only where there is none, or its bytes spell none of
    // its number; and in all these cases, where it tells its images.
    ensures held { result ≡ 8 → IsHindered words.now.items (kinds functions.now) (F.contents files.old) (K.images keeper.old) }
    ensures held_refused { (options : RunOptions) (job : Job) (kept : KeptImage) →
        TellsRun words.now.items (kinds functions.now) (F.contents files.old) options job → HasPool options job →
        TellsLast (K.images keeper.old) kept → Contains (8 ∷ 5 ∷ 4 ∷ 70 ∷ []) result }
    ensures inspect_refused { (images : List KeptImage) → IsInspect words.now.items → K.images keeper.old ≡ Some images →
        HasNoneToShow images → Contains (8 ∷ 5 ∷ 70 ∷ []) result }

    // A job's links are in memory, where none fails. Where data came over the credit, the line that is told says by how much.
    ensures no_link { result ≢ 6 }
    ensures over_credit { result ≡ 11 → HasToldOverCredit (E.got err.old) (E.got err.new) (HasRisen (E.faults err.old) (E.faults err.new)) }

    // Where the words, the texts and what the keeper holds are good, no limit is passed, no edge has more than 4,294,967,295 encoded bytes to
    // carry and no count rises, all work is done unless memory runs out. That no other end of a connection has a fault is not said here.
    ensures complete { (options : RunOptions) (job : Job) (bytes : ℕ → List ℕ) →
        TellsRun words.now.items (kinds functions.now) (F.contents files.old) options job → TellsSources job (F.contents files.old) bytes →
        HasPool options job → AreWithinLimits job bytes →
        (HasHeavyEdge job (λ a. lines (bytes a)) → ⊥) → K.images keeper.old ≡ Some [] →
        (HasRisen (F.faults files.old) (F.faults files.new) → ⊥) → (HasRisen (K.faults keeper.old) (K.faults keeper.new) → ⊥) →
        (HasRisen (O.faults out.old) (O.faults out.new) → ⊥) →
        Contains (0 ∷ 11 ∷ 12 ∷ 70 ∷ []) result }
    ensures complete_gen { (lines seed : ℕ) → IsGen words.now.items lines seed → (HasRisen (O.faults out.old) (O.faults out.new) → ⊥) →
        Contains (0 ∷ 70 ∷ []) result }
    ensures complete_selfrun { (lines seed : ℕ) → IsSelfRun words.now.items lines seed → HasFunctions (kinds functions.now) →
        (HasRisen (O.faults out.old) (O.faults out.new) → ⊥) → Contains (0 ∷ 11 ∷ 12 ∷ 70 ∷ []) result }
    ensures complete_script { (text : List ℕ) → TellsScript words.now.items (F.contents files.old) text → IsScriptWith HasEnough text →
        (HasRisen (F.faults files.old) (F.faults files.new) → ⊥) → (HasRisen (O.faults out.old) (O.faults out.new) → ⊥) →
        Contains (0 ∷ 70 ∷ []) result }
    ensures complete_inspect { (kept : KeptImage) (image : Image) → IsInspect words.now.items → TellsLast (K.images keeper.old) kept →
        IsImageKept kept image → (HasRisen (K.faults keeper.old) (K.faults keeper.new) → ⊥) →
        (HasRisen (O.faults out.old) (O.faults out.new) → ⊥) → Contains (0 ∷ 70 ∷ []) result }
    ensures known { Contains (0 ∷ 2 ∷ 3 ∷ 4 ∷ 5 ∷ 7 ∷ 8 ∷ 10 ∷ 11 ∷ 12 ∷ 70 ∷ []) result }

    // With another status than 0 and 7 the output got nothing, and with 7 a front of what status 0 writes.
    ensures silent { result ≢ 0 → result ≢ 7 → O.got out.new ≡ O.got out.old }
    ensures front { result ≡ 7 → HasDoneInPart words.now.items (kinds functions.now) (F.contents files.old) (K.images keeper.old) (O.got out.old) (O.got out.new) }

    // Which line was told, whatever became of it: no fault of `err` changes the status.
    ensures told { IsTold words.now.items (kinds functions.now) (F.contents files.old) (K.images keeper.old) (E.got err.old) (E.got err.new)
        (HasRisen (E.faults err.old) (E.faults err.new)) result }

    // Each input that was found is given back.
    ensures given_back { F.lent files.new ≡ F.lent files.old }
{
    words_are_clear();
    job_texts_are_clear();
    script_texts_are_clear();
    start_exists();
    large_image_is_of_load();
    match run(rt, alloc, words, functions, files, keeper, out) {
        Ok(()) => 0,
        Err(fault) => {
            tell(err, fault);
            fault.status()
        }
    }
}
