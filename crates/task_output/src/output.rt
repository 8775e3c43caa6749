// What a task sends.
// A task with checkpoints has a half that sends, which is this, or one that takes (task_taking), or both.
ghost use Rattle.std.specs.Prelude.{◌≡◌, ◌++◌, [], ◌∷◌, ⊤, ℕ, List, suc, length, OnOk, OnErr, MatchResult};
ghost use Rattle.std.specs.List.{AllByRecursion};
ghost use Rattle.turn_cell.specs.Passes.{IsPassOf};
ghost use Rattle.flow_defs.specs.declared.job.Job.{Job};
ghost use Rattle.flow_defs.specs.Records.{IsShort};
ghost use Rattle.record_writer.specs.Writers.{AreOwnAt, IsNew, IsOpen, IsNextBarrier, IsSame, HasSeenFault, ways_on};
ghost use Rattle.task_output.specs.Looking.{HasSentNoMore};
ghost use Rattle.task_output.specs.Outputs.{WritesFor, HasSent, HasStopped, HasFinished, StoppedAmong, bytes_of};

use crate::TaskStopped;
use checkpoint_laws::laws::stretches_grow;
use flow_defs::Bytes;
use outside::StopState;
use plain_machine::laws::emits_in_parts;
use record_writer::{PartitionPasses, RecordWriter, WriterStopped};
use std::marker::Model;
use std::sync::Wait;
use turn_cell::Pass;

/// A task's writer, and how many records the task has emitted, modulo 2^64.
///
/// As in Flink a task emits records and, for each checkpoint, an aligned barrier behind those that it emitted
/// before. Where the writer was stopped on a record, the record is none of those emitted. No call takes
/// memory.
#[derive(Drop)]
pub struct TaskOutput<'a, 'p> {
    writer: RecordWriter<'a, 'p>,
    emitted: u64,
}

impl<'a, 'p> Model for TaskOutput<'a, 'p> {
    ghost use Rattle.task_output.specs.Outputs.{Output};

    ghost Value = { Output };

    ghost view = { λ o. record { writer = o.writer; emitted = o.emitted } };
}

impl<'a, 'p> TaskOutput<'a, 'p> {
    /// A new writer has put nothing yet, and goes on from what its task emitted before.
    pub fn new(writer: RecordWriter<'a, 'p>) -> Self
        ensures writer { (result.writer ≡ writer.entry) × (result.emitted ≡ writer.entry.emitted) }
        ensures none { (job : Job) (e a size : ℕ) → WritesFor job e a size writer.entry → IsNew writer.entry → IsOpen writer.entry → HasSent writer.entry.emitted job e a size result [] [] }
    {
        let emitted = writer.emitted();
        TaskOutput { writer, emitted }
    }

    /// Emits a record.
    pub fn emit<R: Wait>(&mut self, rt: &R, line: &[u8]) -> Result<(), WriterStopped>
        requires is_open { IsOpen self.old.writer }
        requires short { IsShort line.now }
        ensures same { IsSame self.old.writer self.new.writer }
        ensures is_open { OnOk result (IsOpen self.new.writer) }
        ensures emitted { (from : ℕ) (job : Job) (e a size : ℕ) (groups : List (List (List ℕ))) (records : List (List ℕ)) → HasSent from job e a size self.old groups records →
            MatchResult result (λ _. HasSent from job e a size self.new groups (records ++ line.now ∷ [])) (λ _. HasStopped from job e a size self.new groups records (line.now ∷ []) ⊥ ⊥) }
    {
        stretches_grow();
        emits_in_parts();
        match self.writer.emit(rt, line) {
            Ok(()) => {
                self.emitted = self.writer.emitted();
                Ok(())
            }
            Err(stopped) => Err(stopped),
        }
    }

    /// Emits these records, one after another.
    pub fn emit_all<R: Wait>(&mut self, rt: &R, lines: &[Bytes]) -> Result<(), WriterStopped>
        requires is_open { IsOpen self.old.writer }
        requires short { AllByRecursion IsShort (bytes_of lines.now) }
        ensures same { IsSame self.old.writer self.new.writer }
        ensures is_open { OnOk result (IsOpen self.new.writer) }
        ensures emitted { (from : ℕ) (job : Job) (e a size : ℕ) (groups : List (List (List ℕ))) (records : List (List ℕ)) → HasSent from job e a size self.old groups records →
            MatchResult result (λ _. HasSent from job e a size self.new groups (records ++ bytes_of lines.now)) (λ _. StoppedAmong from job e a size self.new groups records (bytes_of lines.now)) }
    {
        for line in lines {
            match self.emit(rt, line.as_slice()) {
                Ok(()) => {}
                Err(stopped) => return Err(stopped),
            }
        }
        Ok(())
    }

    /// Puts what is still in buffers, and then the inline barrier of this number on each channel. Barriers
    /// count from 1.
    pub fn mark<R: Wait>(&mut self, rt: &R, k: u64) -> Result<(), WriterStopped>
        requires is_open { IsOpen self.old.writer }
        requires next { IsNextBarrier self.old.writer k }
        ensures same { IsSame self.old.writer self.new.writer }
        ensures is_open { OnOk result (IsOpen self.new.writer) }
        ensures marked { (from : ℕ) (job : Job) (e a size : ℕ) (groups : List (List (List ℕ))) (records : List (List ℕ)) → HasSent from job e a size self.old groups records →
            MatchResult result (λ _. HasSent from job e a size self.new (groups ++ records ∷ []) []) (λ _. HasStopped from job e a size self.new groups records [] ⊤ ⊥) }
    {
        stretches_grow();
        emits_in_parts();
        match self.writer.mark(rt, k) {
            Ok(()) => {}
            Err(stopped) => return Err(stopped),
        }
        Ok(())
    }

    /// Puts what is still in buffers, and ends the channels.
    pub fn finish<R: Wait>(&mut self, rt: &R) -> Result<(), WriterStopped>
        requires { IsOpen self.old.writer }
        ensures same { IsSame self.old.writer self.new.writer }
        ensures finished { (from : ℕ) (job : Job) (e a size : ℕ) (groups : List (List (List ℕ))) (records : List (List ℕ)) → HasSent from job e a size self.old groups records →
            MatchResult result (λ _. HasFinished from job e a size self.new groups records) (λ _. HasStopped from job e a size self.new groups records [] ⊥ ⊤) }
    {
        stretches_grow();
        emits_in_parts();
        match self.writer.finish(rt) {
            Ok(()) => {}
            Err(stopped) => return Err(stopped),
        }
        Ok(())
    }

    // Looks whether another worker has met a fault, as a task does that waits for something else.
    pub(crate) fn look_at_stop<R: Wait>(&mut self, rt: &R) -> Result<(), TaskStopped>
        ensures still { HasSentNoMore self.old self.new }
        ensures stopped { OnErr result (HasSeenFault self.new.writer) }
    {
        match self.writer.look_for_stop(rt) {
            Ok(()) => Ok(()),
            Err(_) => Err(TaskStopped),
        }
    }

    /// How many records were emitted, modulo 2^64.
    pub fn emitted(&self) -> u64
        ensures { result ≡ self.now.emitted }
    {
        self.emitted
    }

    /// Ends the writer. Segments that are being filled go back to the pool.
    pub fn into_passes<R: Wait>(self, rt: &R) -> (PartitionPasses<'p>, Pass<StopState>)
        ensures passes { AreOwnAt self.entry.writer.cells self.entry.writer.first self.entry.writer.stride (ways_on self.entry.writer.job self.entry.writer.edge) result.0.subpartitions.items }
        ensures own { result.0.subpartitions.items ≡ self.entry.writer.passes }
        ensures pool { IsPassOf self.entry.writer.pool result.0.pool }
        ensures stop { IsPassOf self.entry.writer.stop result.1 × (result.1 ≡ self.entry.writer.stop_pass) }
    {
        self.writer.into_passes(rt)
    }
}
