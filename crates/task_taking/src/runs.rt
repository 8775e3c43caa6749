// Takes, noted as runs of one sender after another.
ghost use Rattle.std.specs.Prelude.{◌≡◌, ◌+◌, ◌^◌, ◌<◌, ◌≤◌, ℕ, true, IsTrue, [], ◌∷◌, ◌++◌};
ghost use Rattle.flow_defs.specs.declared.job.Job.{Job};
ghost use Rattle.flow_defs.specs.Jobs.{is_channel};
ghost use Rattle.plain_machine.specs.Histories.{run_senders};
ghost use Rattle.plain_machine.specs.Images.{AreRuns};
ghost use Rattle.task_taking.specs.Runs.{CanNote, last_count};

use flow_defs::{ListOf, TakeRun};

/// Makes room for one more take, and answers whether it can then be noted.
pub fn make_room(runs: &mut ListOf<TakeRun>) -> bool
    ensures same { runs.new.items ≡ runs.old.items }
    ensures can { result ≡ true → CanNote runs.new }
{
    runs.reserve(1).is_ok() && can_grow(runs.as_slice())
}

// Whether the last run can take one record more. A count that can't grow ends the task as want of memory
// does.
fn can_grow(runs: &[TakeRun]) -> bool
    ensures { result ≡ true → last_count runs.now + 1 < 2 ^ 64 }
{
    match runs.last() {
        Some(last) => last.count < u64::MAX,
        None => true,
    }
}

/// Notes one more record of this sender.
pub fn note_take(runs: &mut ListOf<TakeRun>, from: u32)
    requires { CanNote runs.old }
    ensures senders { run_senders runs.new.items ≡ run_senders runs.old.items ++ from ∷ [] }
    ensures are_runs { (job : Job) (e b : ℕ) → IsTrue (is_channel job e from b) → AreRuns job e b runs.old.items → AreRuns job e b runs.new.items }
{
    match runs.pop() {
        Some(last) => {
            if last.from == from {
                push_run(
                    runs,
                    TakeRun {
                        from,
                        count: last.count + 1,
                    },
                );
            } else {
                push_run(runs, last);
                push_run(runs, TakeRun { from, count: 1 });
            }
        }
        None => push_run(runs, TakeRun { from, count: 1 }),
    }
}

// Adds a run, for which there is room.
fn push_run(runs: &mut ListOf<TakeRun>, run: TakeRun)
    requires { 0 < runs.old.room }
    ensures items { runs.new.items ≡ runs.old.items ++ run ∷ [] }
    ensures room { runs.old.room ≤ runs.new.room + 1 }
{
    let Ok(()) = runs.push(run) else {
        unreachable!()
    };
}
