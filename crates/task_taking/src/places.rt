// From where the channels of a task come.
ghost use Rattle.std.specs.Prelude.{◌≡◌};
ghost use Rattle.flow_defs.specs.Jobs.{IsJob};
ghost use Rattle.record_writer.specs.Writers.{sender_at, ways_into};

use flow_defs::{Exchange, Job};

/// How many channels of an edge lead to each of its tasks.
pub fn ways_of(job: &Job, edge: u32) -> u32
    requires { IsJob job.now }
    ensures { result ≡ ways_into job.now edge }
{
    match job.exchange(edge as usize) {
        Exchange::Hash | Exchange::Rebalance => job.tasks(edge as usize),
        Exchange::Forward => 1,
    }
}

/// The task that sends on a channel of the task of this index.
pub fn sender_of(exchange: Exchange, index: u32, channel: u32) -> u32
    ensures { result ≡ sender_at exchange index channel }
{
    match exchange {
        Exchange::Hash => channel,
        Exchange::Rebalance => channel,
        Exchange::Forward => index,
    }
}
