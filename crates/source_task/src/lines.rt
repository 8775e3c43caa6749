// Cuts the lines out of bytes that come in pieces, and emits them.
ghost use Rattle.std.specs.Prelude.{◌≡◌, ◌<◌, ◌≤◌, [], ◌++◌, ℕ, List, length, vec_len, Err, OnOk, OnErr, IfErr, MatchResult};
ghost use Rattle.flow_defs.specs.declared.job.Job.{Job};
ghost use Rattle.flow_defs.specs.Records.{IsShort};
ghost use Rattle.source_task.specs.Emitting.{IsReading, HasOwnPasses, IsSameSource, HasEmitted, LineEmitted, BreaksFor};
ghost use Rattle.source_task.specs.Cutting.{IsSourceUnderWay, OutputGoesOn, BrokeOff, HasEndedLines, IsLineFault};
ghost use Rattle.flow_defs.specs.Limits.{record_max};

use crate::{LineFault, SourceOutput};
use flow_defs::{RECORD_MAX, cut_line};
use std::alloc::{AllocError, Global};
use std::sync::Wait;
use task_output::laws::what_was_sent_was_begun;

/// The line that has begun.
#[derive(Drop)]
pub struct Lines {
    pub line: Vec<u8>,
    ghost fits: { vec_len line ≤ 1048576 },
}

impl Lines {
    /// None has begun.
    pub fn new(alloc: Global) -> Self
        ensures { result.line.items ≡ [] }
    {
        Lines {
            line: Vec::new(alloc),
        }
    }

    /// Takes a piece: the lines that end in it are emitted, and what is left begins the next one.
    pub fn feed<R: Wait>(
        &mut self,
        rt: &R,
        alloc: Global,
        output: &mut SourceOutput<'_, '_>,
        bytes: &[u8],
    ) -> Result<(), LineFault>
        requires { IsReading output.old }
        ensures same { IsSameSource output.old output.new }
        ensures own { HasOwnPasses output.new }
        ensures reading { OnOk result (IsReading output.new) }
        ensures fed { (job : Job) (size : ℕ) (ended : List (List ℕ)) → IsSourceUnderWay job size output.old self.old.line.items ended →
            MatchResult result (λ _. OutputGoesOn job size ended self.old.line.items bytes.now output.new self.new.line.items) (λ fault. (more : List ℕ) → BrokeOff job size output.new ended (self.old.line.items ++ (bytes.now ++ more)) fault) }
    {
        what_was_sent_was_begun();
        let mut rest = bytes;
        'lines: while let Some((first, after)) = cut_line(rest) {
            match self.end_line(rt, alloc, output, first) {
                Ok(()) => {}
                Err(fault) => return Err(fault),
            }
            rest = after;
        }
        self.begin_line(rest)
    }

    /// Emits the line that has begun, if one has, as the last one.
    pub fn end<R: Wait>(
        &mut self,
        rt: &R,
        alloc: Global,
        output: &mut SourceOutput<'_, '_>,
    ) -> Result<(), LineFault>
        requires { IsReading output.old }
        ensures same { IsSameSource output.old output.new }
        ensures own { HasOwnPasses output.new }
        ensures reading { OnOk result (IsReading output.new) }
        ensures ended { (job : Job) (size : ℕ) (ended : List (List ℕ)) → IsSourceUnderWay job size output.old self.old.line.items ended →
            MatchResult result (λ _. HasEndedLines job size output.new ended self.old.line.items) (λ fault. BrokeOff job size output.new ended (self.old.line.items ++ []) fault) }
    {
        if self.line.is_empty() {
            return Ok(());
        }
        self.put_line(rt, alloc, output)
    }

    // Emits the line, and begins another.
    fn put_line<R: Wait>(
        &mut self,
        rt: &R,
        alloc: Global,
        output: &mut SourceOutput<'_, '_>,
    ) -> Result<(), LineFault>
        requires { IsReading output.old }
        ensures line { OnOk result (self.new.line.items ≡ []) }
        ensures same { IsSameSource output.old output.new }
        ensures own { HasOwnPasses output.new }
        ensures reading { OnOk result (IsReading output.new) }
        ensures short { IsShort self.old.line.items }
        ensures fault { IfErr result (λ fault. BreaksFor fault output.new) }
        ensures emitted { (job : Job) (size : ℕ) (ended : List (List ℕ)) → HasEmitted job size output.old ended → LineEmitted job size output.new ended self.old.line.items result }
    {
        match output.emit_line(rt, alloc, self.line.as_slice()) {
            Ok(()) => {
                self.line.clear();
                Ok(())
            }
            Err(fault) => Err(fault),
        }
    }

    // Adds these bytes to the line.
    fn begin_line(&mut self, bytes: &[u8]) -> Result<(), LineFault>
        ensures line { OnOk result (self.new.line.items ≡ self.old.line.items ++ bytes.now) }
        ensures too_long { result ≡ Err LineFault.TooLong → record_max < length (self.old.line.items ++ bytes.now) }
        ensures not_stopped { result ≡ Err LineFault.Stopped → ⊥ }
    {
        if bytes.len() > RECORD_MAX - self.line.len() {
            return Err(LineFault::TooLong);
        }
        match self.line.extend_from_slice(bytes) {
            Ok(()) => Ok(()),
            Err(AllocError) => Err(LineFault::Memory),
        }
    }

    // Ends the line with these bytes, and emits it. One that lies in a single piece is not copied here.
    fn end_line<R: Wait>(
        &mut self,
        rt: &R,
        alloc: Global,
        output: &mut SourceOutput<'_, '_>,
        bytes: &[u8],
    ) -> Result<(), LineFault>
        requires { IsReading output.old }
        ensures line { OnOk result (self.new.line.items ≡ []) }
        ensures same { IsSameSource output.old output.new }
        ensures own { HasOwnPasses output.new }
        ensures reading { OnOk result (IsReading output.new) }
        ensures short { OnOk result (IsShort (self.old.line.items ++ bytes.now)) }
        ensures too_long { result ≡ Err LineFault.TooLong → record_max < length (self.old.line.items ++ bytes.now) }
        ensures stopped { result ≡ Err LineFault.Stopped → IsLineFault output.new [] LineFault.Stopped }
        ensures emitted { (job : Job) (size : ℕ) (ended : List (List ℕ)) → HasEmitted job size output.old ended →
            LineEmitted job size output.new ended (self.old.line.items ++ bytes.now) result }
    {
        what_was_sent_was_begun();
        if !self.line.is_empty() {
            match self.begin_line(bytes) {
                Ok(()) => return self.put_line(rt, alloc, output),
                Err(fault) => return Err(fault),
            }
        }
        if bytes.len() > RECORD_MAX {
            return Err(LineFault::TooLong);
        }
        match output.emit_line(rt, alloc, bytes) {
            Ok(()) => Ok(()),
            Err(fault) => Err(fault),
        }
    }
}
