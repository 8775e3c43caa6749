// Reads the input of a source.
ghost use Rattle.std.specs.Prelude.{◌≡◌, [], ℕ, List, true};
ghost use Rattle.flow_defs.specs.declared.job.Job.{Job};
ghost use Rattle.job_start.specs.Starts.{was_ended};
ghost use Rattle.snapshot_channel.specs.Passes.{sent_by};
ghost use Rattle.source_task.specs.Emitting.{IsInterval, IsSource, IsReading, HasOwnPasses, IsSameSource, HasEmitted, start_of};
ghost use Rattle.source_task.specs.Cutting.{IsSourceUnderWay, cause_of_line};
ghost use Rattle.source_task.specs.Sources.{EndedAs, EndedBehind, SourceEnd};

use crate::lines::Lines;
use crate::{LineFault, SourceOutput};
use flow_defs::Cause;
use job_plan::SOURCE_MAX;
use outside::Source;
use std::alloc::Global;
use std::sync::Wait;
use task_output::laws::what_was_sent_was_begun;

// How many bytes are asked for at once.
const READ: usize = 65_536;

impl LineFault {
    /// The cause with which the source of this index then ends.
    pub fn cause(self, source: u32) -> Cause
        ensures { result ≡ cause_of_line source self }
    {
        match self {
            LineFault::TooLong => Cause::LongLine { source },
            LineFault::Memory => Cause::Memory,
            LineFault::Stopped => Cause::Stopped,
        }
    }
}

/// Emits the lines that are left of the input behind the start, with its checkpoints, and answers why it went no
/// further. A source that was at its end there reads nothing, and takes its checkpoints.
pub fn emit_input<S: Source, R: Wait>(
    rt: &R,
    alloc: Global,
    input: &mut S,
    output: &mut SourceOutput<'_, '_>,
    was_at_end: bool,
) -> Cause
    requires source { IsSource output.old }
    requires interval { IsInterval output.old.every output.old.since true }
    requires fresh { sent_by output.old.acks.pass ≡ [] }
    requires at_end { was_at_end ≡ was_ended (start_of output.old) output.old.index }
    ensures same { IsSameSource output.old output.new }
    ensures own { HasOwnPasses output.new }
    ensures ended { (job : Job) (size : ℕ) → HasEmitted job size output.old [] →
        SourceEnd job size output.new (S.left input.old) (S.faults input.old) (S.faults input.new) result }
{
    what_was_sent_was_begun();
    if was_at_end {
        return end_source(rt, alloc, output);
    }
    emit_lines(rt, alloc, input, output)
}

// Emits the lines that are left of the input, and goes on to the end.
fn emit_lines<S: Source, R: Wait>(
    rt: &R,
    alloc: Global,
    input: &mut S,
    output: &mut SourceOutput<'_, '_>,
) -> Cause
    requires { IsReading output.old }
    ensures same { IsSameSource output.old output.new }
    ensures own { HasOwnPasses output.new }
    ensures ended { (job : Job) (size : ℕ) → HasEmitted job size output.old [] →
        SourceEnd job size output.new (S.left input.old) (S.faults input.old) (S.faults input.new) result }
{
    what_was_sent_was_begun();
    let index = output.index;
    let mut lines = Lines::new(alloc);
    let mut room = [0; READ];
    let mut taken = 0;
    'reads: while taken <= SOURCE_MAX {
        let Ok(count) = input.read(&mut room) else {
            return Cause::Input { source: index };
        };
        if count == 0 {
            return end_lines(rt, alloc, &mut lines, output);
        }
        match lines.feed(rt, alloc, output, &room[..count]) {
            Ok(()) => {}
            Err(fault) => return fault.cause(index),
        }
        taken += count as u64;
    }
    Cause::BigSource { source: index }
}

// Emits the line that has begun, if one has, as the last one, and goes on to the end.
fn end_lines<R: Wait>(
    rt: &R,
    alloc: Global,
    lines: &mut Lines,
    output: &mut SourceOutput<'_, '_>,
) -> Cause
    requires { IsReading output.old }
    ensures same { IsSameSource output.old output.new }
    ensures own { HasOwnPasses output.new }
    ensures ended { (job : Job) (size : ℕ) (ended : List (List ℕ)) → IsSourceUnderWay job size output.old lines.old.line.items ended →
        EndedAs job size output.new ended lines.old.line.items output.old.index result }
{
    let index = output.index;
    match lines.end(rt, alloc, output) {
        Ok(()) => {}
        Err(fault) => return fault.cause(index),
    }
    end_source(rt, alloc, output)
}

// Takes the checkpoints behind the last line, and ends the channels.
fn end_source<R: Wait>(rt: &R, alloc: Global, output: &mut SourceOutput<'_, '_>) -> Cause
    requires source { IsSource output.old }
    requires interval { IsInterval output.old.every output.old.since true }
    ensures same { IsSameSource output.old output.new }
    ensures own { HasOwnPasses output.new }
    ensures ended { (job : Job) (size : ℕ) (lines : List (List ℕ)) → HasEmitted job size output.old lines →
        EndedBehind job size output.new lines result }
{
    let index = output.index;
    match output.end(rt, alloc) {
        Ok(()) => Cause::Done,
        Err(fault) => fault.cause(index),
    }
}
