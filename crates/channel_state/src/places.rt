// Which tasks and channels a job has, by its shape.
ghost use Rattle.std.specs.Prelude.{◌≡◌, ◌≤◌, ◌*◌, length};
ghost use Rattle.flow_defs.specs.Jobs.{IsJob, last_edge, is_channel, edge_width};
ghost use Rattle.plain_machine.specs.Places.{sending_tasks, channels};
ghost use Rattle.job_text.specs.Shapes.{job_of};

use flow_defs::Exchange;
use job_text::JobShape;

// Whether an edge has a channel from one task to another.
pub(crate) fn is_channel(shape: &JobShape, edge: usize, from: usize, to: usize) -> bool
    requires job { IsJob (job_of shape.now) }
    requires edge { edge ≤ last_edge (job_of shape.now) }
    ensures { result ≡ is_channel (job_of shape.now) edge from to }
{
    let senders = shape.tasks(edge);
    let receivers = shape.tasks(edge + 1);
    let exchange = shape.exchange(edge);
    from < senders && to < receivers && exchange.joins(from, to)
}

// How many tasks send.
pub(crate) fn sending_tasks(shape: &JobShape) -> usize
    requires { IsJob (job_of shape.now) }
    ensures { result ≡ length (sending_tasks (job_of shape.now)) }
{
    let mut count = 0;
    for stage in 0..shape.last_edge() + 1 {
        count += shape.tasks(stage);
    }
    count
}

// How many channels an edge has.
fn edge_width(shape: &JobShape, edge: usize) -> usize
    requires job { IsJob (job_of shape.now) }
    requires edge { edge ≤ last_edge (job_of shape.now) }
    ensures is { result ≡ edge_width (job_of shape.now) edge }
    ensures few { result ≤ 64 }
{
    let senders = shape.tasks(edge);
    match shape.exchange(edge) {
        Exchange::Hash | Exchange::Rebalance => senders * shape.tasks(edge + 1),
        Exchange::Forward => senders,
    }
}

// How many channels all edges have.
pub(crate) fn channels(shape: &JobShape) -> usize
    requires { IsJob (job_of shape.now) }
    ensures { result ≡ length (channels (job_of shape.now)) }
{
    let mut count = 0;
    for edge in 0..shape.last_edge() + 1 {
        count += edge_width(shape, edge);
    }
    count
}
