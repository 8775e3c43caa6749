// The lines of a job's text, each checked where it stands. Nothing here takes memory.
// A line's kind is found by the number of its words. Two spaces enclose an empty word, which counts, and an
// empty line is one empty word: a bad line before the aggregate's, and one too many behind it.
ghost use Rattle.std.specs.Prelude.{◌≡◌, ◌<◌, ◌^◌, ◌+◌, ◌∷◌, Some, [], length, IfOk, IfErr, IfSome, IfNone, MatchResult};
ghost use Rattle.flow_defs.specs.Lines.{lines};

use crate::known::Known;
use crate::spelling::{agg_of, cut_word, exchange_of, is, is_token, number_of, stage_kind_of};
use crate::{JobFault, JobReadFault};
use flow_defs::{AggKind, Exchange, SOURCES_MAX, STAGES_MAX, StageKind, TASKS_MAX, cut_line};

// A line of a job's text.
#[derive(Clone, Copy)]
pub(crate) enum Line<'a> {
    Source {
        file: &'a [u8],
    },
    Stage {
        kind: StageKind,
        arg: &'a [u8],
        tasks: u32,
        exchange: Exchange,
    },
    Aggregate {
        kind: AggKind,
        tasks: u32,
    },
}

// What is left of a job's text, and what is known of the lines before it.
#[derive(Drop)]
pub(crate) struct JobLines<'a> {
    rest: &'a [u8],
    // The number of the next line.
    number: u64,
    // How many sources and stages came before the next line.
    sources: usize,
    stages: usize,
    // The tasks of the stage before the next line; the sources count as tasks.
    tasks: usize,
    ghost counted: { number + length rest.now < 2 ^ 64 },
}

impl<'a> JobLines<'a> {
    ghost use Rattle.job_text.specs.JobFaults.{line_fault, source_fault, stage_fault, aggregate_fault};
    ghost use Rattle.job_text.specs.Reading.{place_of, fault_left, IsTold, TakesLine, IsLine};
    ghost use Rattle.job_text.specs.JobText.{line_of};
    ghost use Rattle.stage_fns.specs.Functions.{Functions};
    ghost use Rattle.job_text.specs.KnownKinds.{known};

    // Stands before the first line of the text.
    pub fn of(text: &'a [u8]) -> Self
        ensures rest { result.rest.now ≡ text.now }
        ensures number { result.number ≡ 1 }
        ensures sources { result.sources ≡ 0 }
        ensures stages { result.stages ≡ 0 }
        ensures tasks { result.tasks ≡ 0 }
    {
        JobLines {
            rest: text,
            number: 1,
            sources: 0,
            stages: 0,
            tasks: 0,
        }
    }

    // Takes the next line. The aggregate's is the last, and is a fault where another follows it; it is
    // not called again behind that one, nor behind a fault.
    pub fn next(&mut self, functions: Known) -> Result<Line<'a>, JobReadFault>
        ensures ok { IfOk result (TakesLine (known functions.entry) self.old self.new) }
        ensures err { IfErr result (λ told. IsTold told (fault_left (known functions.entry) self.old)) }
    {
        let Some((text, rest)) = next_line(self.rest) else {
            return Err(JobReadFault::Line {
                line: self.number,
                kind: JobFault::Missing,
            });
        };
        match self.read(text, functions) {
            Ok(line) => {
                self.rest = rest;
                self.number += 1;
                match line {
                    Line::Source { .. } => {
                        self.sources += 1;
                        self.tasks = self.sources;
                    }
                    Line::Stage { tasks, .. } => {
                        self.stages += 1;
                        self.tasks = tasks as usize;
                    }
                    Line::Aggregate { .. } => {
                        if !rest.is_empty() {
                            return Err(JobReadFault::Line {
                                line: self.number,
                                kind: JobFault::Extra,
                            });
                        }
                    }
                }
                Ok(line)
            }
            Err(kind) => Err(JobReadFault::Line {
                line: self.number,
                kind,
            }),
        }
    }

    // Reads a line that stands next.
    fn read<'t>(&self, line: &'t [u8], functions: Known) -> Result<Line<'t>, JobFault>
        ensures { MatchResult result
            (λ read. IsLine (known functions.entry) (place_of self.now) read line.now)
            (λ kind. line_fault (known functions.entry) (place_of self.now) line.now ≡ Some kind) }
    {
        let (first, rest) = cut_word(line);
        let Some(rest) = rest else {
            return Err(JobFault::BadLine);
        };
        let (second, rest) = cut_word(rest);
        let Some(rest) = rest else {
            return self.read_source(first, second);
        };
        let (third, rest) = cut_word(rest);
        let Some(rest) = rest else {
            return self.read_aggregate(first, second, third, functions);
        };
        let (fourth, rest) = cut_word(rest);
        if rest.is_some() {
            return Err(JobFault::BadLine);
        }
        self.read_stage(first, second, third, fourth, functions)
    }

    // Reads the line of a source by its words.
    fn read_source<'t>(&self, first: &[u8], file: &'t [u8]) -> Result<Line<'t>, JobFault>
        ensures ok { IfOk result (λ line. (functions : Functions) →
            IsLine functions (place_of self.now) line (line_of (first.now ∷ file.now ∷ []))) }
        ensures err { IfErr result (λ kind. source_fault (place_of self.now) first.now file.now ≡ Some kind) }
    {
        if !is(first, "source") || self.stages > 0 || !is_token(file) {
            return Err(JobFault::BadLine);
        }
        if self.sources >= SOURCES_MAX {
            return Err(JobFault::TooMany);
        }
        Ok(Line::Source { file })
    }

    // Reads the line of the aggregate by its words.
    fn read_aggregate<'t>(
        &self,
        first: &[u8],
        kind: &[u8],
        tasks: &[u8],
        functions: Known,
    ) -> Result<Line<'t>, JobFault>
        ensures ok { IfOk result (λ line. IsLine (known functions.entry) (place_of self.now) line
            (line_of (first.now ∷ kind.now ∷ tasks.now ∷ []))) }
        ensures err { IfErr result (λ fault. aggregate_fault (known functions.entry) (place_of self.now)
            first.now kind.now tasks.now ≡ Some fault) }
    {
        if !is(first, "aggregate") || self.sources == 0 {
            return Err(JobFault::BadLine);
        }
        let kind = agg_of(kind).ok_or(JobFault::UnknownKind)?;
        if !functions.has_agg(kind) {
            return Err(JobFault::NoFunction);
        }
        let tasks = number_of(tasks, TASKS_MAX).ok_or(JobFault::BadNumber)?;
        Ok(Line::Aggregate { kind, tasks })
    }

    // Reads the line of a stage by its words. The width is tested last, so `forward` to a bad number of tasks
    // is told as that number.
    fn read_stage<'t>(
        &self,
        first: &[u8],
        kind: &'t [u8],
        tasks: &[u8],
        exchange: &[u8],
        functions: Known,
    ) -> Result<Line<'t>, JobFault>
        ensures ok { IfOk result (λ line. IsLine (known functions.entry) (place_of self.now) line
            (line_of (first.now ∷ kind.now ∷ tasks.now ∷ exchange.now ∷ []))) }
        ensures err { IfErr result (λ fault. stage_fault (known functions.entry) (place_of self.now)
            first.now kind.now tasks.now exchange.now ≡ Some fault) }
    {
        if !is(first, "stage") || self.sources == 0 {
            return Err(JobFault::BadLine);
        }
        if self.stages >= STAGES_MAX {
            return Err(JobFault::TooMany);
        }
        let (kind, arg) = stage_kind_of(kind).ok_or(JobFault::UnknownKind)?;
        if !functions.has_stage(kind) {
            return Err(JobFault::NoFunction);
        }
        let tasks = number_of(tasks, TASKS_MAX).ok_or(JobFault::BadNumber)?;
        let exchange = exchange_of(exchange).ok_or(JobFault::BadExchange)?;
        if exchange == Exchange::Forward && tasks as usize != self.tasks {
            return Err(JobFault::BadWidth);
        }
        Ok(Line::Stage {
            kind,
            arg,
            tasks,
            exchange,
        })
    }
}

// The first line of the bytes, and what follows it. Bytes without a newline are one line.
fn next_line(bytes: &[u8]) -> Option<(&[u8], &[u8])>
    ensures some { IfSome result (λ parts. lines bytes.now ≡ parts.0.now ∷ lines parts.1.now) }
    ensures shorter { IfSome result (λ parts. length parts.1.now < length bytes.now) }
    ensures none { IfNone result (lines bytes.now ≡ []) }
{
    match cut_line(bytes) {
        Some((line, rest)) => Some((line, rest)),
        None => {
            if bytes.is_empty() {
                None
            } else {
                Some((bytes, &[]))
            }
        }
    }
}
