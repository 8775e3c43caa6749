// What a source emits by, and where it stands.
// A count that can't grow ends the source as want of memory does.
ghost use Rattle.std.specs.Prelude.{◌≡◌, ◌++◌, [], ◌∷◌, ◌<◌, ℕ, List, Bool, true, false, OnOk, OnErr, IfOk, IfErr, MatchResult};
ghost use Rattle.flow_defs.specs.declared.job.Job.{Job};
ghost use Rattle.flow_defs.specs.Records.{IsShort};
ghost use Rattle.record_writer.specs.Writers.{HasSeenFault};
ghost use Rattle.task_output.specs.Acking.{base_of};
ghost use Rattle.task_output.specs.Waiting.{LastIs};
ghost use Rattle.turn_cell.specs.Passes.{seen};
ghost use Rattle.source_task.specs.Emitting.{IsInterval, IsSnapshotAt, IsSource, IsReading, HasOwnPasses, IsSameSource, HasEmitted, HasBroken, HasEnded, LineEmitted, CheckpointTaken, BreaksFor, is_at_end, start_of};

use flow_defs::{ListOf, Snapshot, Table, TaskId};
use plain_machine::laws::emits_in_parts;
use std::alloc::Global;
use std::sync::Wait;
use task_output::laws::{what_was_seen_stays, what_was_sent_was_begun};
use task_output::{Acks, TaskOutput};

/// Why a source emits no further.
#[derive(Clone, Copy, Debug, PartialEq, Eq)]
pub enum LineFault {
    /// A line is longer than a record may be.
    TooLong,
    Memory,
    /// The source was stopped.
    Stopped,
}

/// What a source emits by, and where it stands.
#[derive(Drop)]
pub struct SourceOutput<'a, 'p> {
    pub output: TaskOutput<'a, 'p>,
    pub acks: Acks<'a>,
    /// The index of the source.
    pub index: u32,
    /// How many lines it reads between two barriers, from 1. None: it reads to its end.
    pub every: Option<u64>,
    /// How many of the lines that it reads next were read before its start.
    pub skip: u64,
    /// How many lines it has emitted, with those before its start.
    pub offset: u64,
    /// How many of them behind its last barrier.
    pub since: u64,
}

impl<'a, 'p> SourceOutput<'a, 'p> {
    /// Emits a line, unless it was read before the start, and then takes a checkpoint if one is due.
    pub fn emit_line<R: Wait>(
        &mut self,
        rt: &R,
        alloc: Global,
        line: &[u8],
    ) -> Result<(), LineFault>
        requires reading { IsReading self.old }
        requires short { IsShort line.now }
        ensures same { IsSameSource self.old self.new }
        ensures own { HasOwnPasses self.new }
        ensures reading { OnOk result (IsReading self.new) }
        ensures fault { IfErr result (λ fault. BreaksFor fault self.new) }
        ensures emitted { (job : Job) (size : ℕ) (lines : List (List ℕ)) → HasEmitted job size self.old lines →
            LineEmitted job size self.new lines line.now result }
    {
        what_was_sent_was_begun();
        if self.skip > 0 {
            self.skip -= 1;
            return Ok(());
        }
        let (Some(offset), Some(since)) = (self.offset.checked_add(1), self.since.checked_add(1))
        else {
            return Err(LineFault::Memory);
        };
        match self.output.emit(rt, line) {
            Ok(()) => {}
            Err(_) => return Err(LineFault::Stopped),
        }
        self.offset = offset;
        self.since = since;
        let Some(interval) = self.every else {
            return Ok(());
        };
        if since < interval {
            return Ok(());
        }
        match self.take_checkpoint(rt, alloc, false) {
            Ok(_) => Ok(()),
            Err(fault) => Err(fault),
        }
    }

    /// Takes a checkpoint behind the lines that were emitted: waits until the image of the checkpoint before is
    /// stored, puts a barrier, and sends a snapshot. The first checkpoint waits for none. Whether this checkpoint
    /// is the last of the job is the answer: without an interval it is, and with one it is where all sources are
    /// ended in that image.
    pub fn take_checkpoint<R: Wait>(
        &mut self,
        rt: &R,
        alloc: Global,
        ended: bool,
    ) -> Result<bool, LineFault>
        requires source { IsSource self.old }
        requires interval { IsInterval self.old.every self.old.since ended }
        requires at_end { is_at_end self.old ≡ true → ended ≡ true }
        ensures same { IsSameSource self.old self.new }
        ensures own { HasOwnPasses self.new }
        ensures source { OnOk result (IsSource self.new) }
        ensures since { OnOk result (self.new.since ≡ 0) }
        ensures kept { OnErr result (is_at_end self.new ≡ is_at_end self.old) }
        ensures ended { OnOk result ((ended ≡ true → is_at_end self.new ≡ true) × (ended ≡ false → is_at_end self.new ≡ is_at_end self.old)) }
        ensures last { IfOk result (λ last. LastIs (base_of (start_of self.new)) self.new.every (seen self.new.acks.last_pass) self.new.acks.sent last) }
        ensures fault { IfErr result (λ fault. BreaksFor fault self.new) }
        ensures taken { (job : Job) (size : ℕ) (lines : List (List ℕ)) → HasEmitted job size self.old lines →
            CheckpointTaken job size self.new lines result }
    {
        what_was_sent_was_begun();
        what_was_seen_stays();
        emits_in_parts();
        let Some(k) = self.acks.next_number() else {
            return Err(LineFault::Memory);
        };
        let last = match self.acks.learn_last(rt, &mut self.output, self.every, k) {
            Ok(last) => last,
            Err(_) => return Err(LineFault::Stopped),
        };
        match self.output.mark(rt, self.acks.sent + 1) {
            Ok(()) => {}
            Err(_) => return Err(LineFault::Stopped),
        }
        let snapshot = self.snapshot(alloc, k, ended);
        match self.acks.send(rt, &mut self.output, snapshot) {
            Ok(()) => {}
            Err(_) => return Err(LineFault::Stopped),
        }
        self.since = 0;
        Ok(last)
    }

    /// Takes checkpoints behind the last line until the last of the job, and then ends the channels.
    pub fn end<R: Wait>(&mut self, rt: &R, alloc: Global) -> Result<(), LineFault>
        requires source { IsSource self.old }
        requires interval { IsInterval self.old.every self.old.since true }
        ensures same { IsSameSource self.old self.new }
        ensures own { HasOwnPasses self.new }
        ensures fault { IfErr result (λ fault. BreaksFor fault self.new) }
        ensures ended { (job : Job) (size : ℕ) (lines : List (List ℕ)) → HasEmitted job size self.old lines →
            MatchResult result (λ _. HasEnded job size self.new lines) (λ _. HasBroken job size self.new lines []) }
    {
        for _checkpoint in rt.forever() {
            match self.take_checkpoint(rt, alloc, true) {
                Ok(last) => {
                    if last {
                        return self.finish(rt);
                    }
                }
                Err(fault) => return Err(fault),
            }
        }
        unreachable!()
    }

    // Ends the channels of a source at its end, behind its last barrier.
    fn finish<R: Wait>(&mut self, rt: &R) -> Result<(), LineFault>
        requires source { IsSource self.old }
        requires at_end { is_at_end self.old ≡ true }
        requires last { LastIs (base_of (start_of self.old)) self.old.every (seen self.old.acks.last_pass) self.old.acks.sent true }
        ensures same { IsSameSource self.old self.new }
        ensures own { HasOwnPasses self.new }
        ensures fault { IfErr result (λ fault. BreaksFor fault self.new) }
        ensures ended { (job : Job) (size : ℕ) (lines : List (List ℕ)) → HasEmitted job size self.old lines →
            MatchResult result (λ _. HasEnded job size self.new lines) (λ _. HasBroken job size self.new lines []) }
    {
        match self.output.finish(rt) {
            Ok(()) => {}
            Err(_) => return Err(LineFault::Stopped),
        }
        Ok(())
    }

    // The snapshot for checkpoint k, behind the lines that were emitted. It takes no memory.
    fn snapshot(&self, alloc: Global, k: u64, ended: bool) -> Snapshot
        ensures at { IsSnapshotAt self.now.index k self.now.offset self.now.output.emitted result }
        ensures ended { result.ended ≡ ended }
    {
        Snapshot {
            task: TaskId {
                stage: 0,
                index: self.index,
            },
            number: k,
            offset: self.offset,
            ended,
            emitted: self.output.emitted(),
            table: Table::new(alloc),
            takes: ListOf::new(alloc),
            saved_in: ListOf::new(alloc),
            saved_out: ListOf::new(alloc),
        }
    }
}
