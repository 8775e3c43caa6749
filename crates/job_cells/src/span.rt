// The numbers of an edge.
ghost use Rattle.std.specs.Prelude.{◌≡◌, ◌≤◌};
ghost use Rattle.flow_defs.specs.Jobs.{IsJob, last_edge};
ghost use Rattle.record_writer.specs.Writers.{ways, sender_at};
ghost use Rattle.job_cells.specs.Spans.{IsSpan, span_on, ways_in, ways_out};

use flow_defs::{Exchange, Job};

/// From how many tasks an edge leads to how many, and by which exchange.
#[derive(Clone, Copy)]
pub struct Span {
    pub edge: u32,
    pub exchange: Exchange,
    pub senders: u32,
    pub receivers: u32,
}

/// The span of an edge of a job.
pub fn span_of(job: &Job, edge: usize) -> Span
    requires { IsJob job.now × (edge ≤ last_edge job.now) }
    ensures is { result ≡ span_on job.now edge }
    ensures fits { IsSpan result }
{
    Span {
        edge: edge as u32,
        exchange: job.exchange(edge),
        senders: job.tasks(edge),
        receivers: job.tasks(edge + 1),
    }
}

// How many channels a task has on an edge to so many.
fn ways(exchange: Exchange, tasks: u32) -> u32
    ensures { result ≡ ways exchange tasks }
{
    match exchange {
        Exchange::Forward => 1,
        _ => tasks,
    }
}

impl Span {
    /// How many channels each sending task has.
    pub fn ways_out(self) -> u32
        ensures { result ≡ ways_out self }
    {
        ways(self.exchange, self.receivers)
    }

    /// How many channels each gate has.
    pub fn ways_in(self) -> u32
        ensures { result ≡ ways_in self }
    {
        ways(self.exchange, self.senders)
    }

    /// From which task channel `i` of the gate of task `b` leads.
    pub fn sender_at(self, b: u32, i: u32) -> u32
        ensures { result ≡ sender_at self.exchange b i }
    {
        match self.exchange {
            Exchange::Forward => b,
            _ => i,
        }
    }
}
