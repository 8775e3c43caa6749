// The inputs of a run, which come back from the tasks of the sources.
ghost use Rattle.std.specs.Prelude.{◌≡◌, ◌++◌, ◌≤◌, length};
ghost use Rattle.std.specs.List.{filter_map};
ghost use Rattle.job_run.specs.Runs.{input_in};

use flow_defs::ListOf;
use job_workers::{Place, TaskPlace};

// Takes the input out of a place.
fn take_input<'a, 'p, S>(place: &mut TaskPlace<'a, 'p, S>) -> Option<S>
    ensures { result ≡ input_in place.old }
{
    match place {
        Place::Ended(left) => left.input.take(),
        Place::Todo(_) => None,
        Place::Vacant => None,
    }
}

/// Takes the inputs out of a row, in order, into a list that has room for them.
pub fn take_inputs<'a, 'p, S: Drop>(row: &mut [TaskPlace<'a, 'p, S>], inputs: &mut ListOf<S>)
    requires { length row.old ≤ inputs.old.room }
    ensures { inputs.new.items ≡ inputs.old.items ++ filter_map input_in row.old }
{
    for i in 0..row.len() {
        if let Some(input) = take_input(&mut row[i]) {
            let Ok(()) = inputs.push(input) else {
                unreachable!()
            };
        }
    }
}
