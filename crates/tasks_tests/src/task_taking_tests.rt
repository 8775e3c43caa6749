// A task of two channels over a gate of the tests.
ghost use Rattle.std.specs.Prelude.{◌<◌};
ghost use Rattle.task_taking.specs.Takings.{IsInStep};
ghost use Rattle.task_taking.specs.Samples.{account_of};

use crate::list_gate::Piece::{Stop, Text};
use crate::list_gate::{ListGate, Piece, gate_of};
use crate::two_sources::counting_job;
use flow_defs::{ListOf, TakeRun};
use std::alloc::Global;
use std::process::Abort;
use std::sync::Wait;
use std::test::Fail;
use task_taking::{Taken, TaskTaking};

// The pieces of channels 0 and 1 in the order in which they come.
static PIECES: [(u32, Piece); 8] = [
    (0, Text("pear")),
    (1, Text("apple")),
    (0, Stop(1)),
    (1, Text("fig")),
    (1, Stop(1)),
    (1, Text("plum")),
    (1, Text("")),
    (0, Text("quince")),
];

// The runs of each group, and of what came behind the last barrier.
fn take_all<R: Wait + Abort>(
    rt: &R,
    alloc: Global,
    taking: TaskTaking,
    gate: ListGate,
) -> Result<ListOf<ListOf<TakeRun>>, Fail>
    requires { IsInStep (account_of gate.given.items gate.first gate.second gate.over) taking }
{
    let mut gate = gate;
    let mut taking = taking;
    let mut groups = ListOf::new(alloc);
    for _item in rt.forever() {
        match taking.next(rt, &mut gate) {
            Ok(Taken::Line(_)) => {}
            Ok(Taken::Checkpoint { k }) => {
                groups.push(taking.resume_all(rt, &mut gate))?;
                assert_eq!(rt; k, groups.as_slice().len() as u64);
            }
            Ok(Taken::AllEnded) => break,
            Err(_) => panic!(rt; "no end of the gate"),
        }
    }
    groups.push(taking.into_runs())?;
    Ok(groups)
}

#[test]
fn a_group_ends_at_the_barriers_of_all_channels(rt: HostRuntime) -> Result<(), Fail> {
    let job = counting_job(rt.alloc())?;
    let taking = TaskTaking::new(rt.alloc(), &job, 0, 0)?;
    let groups = take_all(&rt, rt.alloc(), taking, gate_of(rt.alloc(), &PIECES)?)?;
    let before = [TakeRun { from: 0, count: 1 }, TakeRun { from: 1, count: 2 }];
    let behind = [TakeRun { from: 1, count: 2 }, TakeRun { from: 0, count: 1 }];
    let groups = groups.as_slice();
    assert_eq!(rt; groups.len(), 2);
    assert_eq!(rt; groups[0].as_slice(), before.as_slice());
    assert_eq!(rt; groups[1].as_slice(), behind.as_slice());
    Ok(())
}
