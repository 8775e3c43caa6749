// Which channel a record goes to.
ghost use Rattle.std.specs.Prelude.{◌≡◌, suc, ◌<◌, ◌≤◌};
ghost use Rattle.flow_defs.specs.declared.job.Exchange.TheVariants.{Forward};
ghost use Rattle.flow_defs.specs.Jobs.{exchange as exchange_on, tasks as tasks_of, key_on};
ghost use Rattle.record_writer.specs.Routers.{IsSender, IsSelected};

use flow_defs::{Exchange, Job, key_len, route};

/// Selects the channels of the records of one task.
#[derive(Drop)]
pub(crate) struct Router<'a> {
    pub(crate) job: &'a Job,
    pub(crate) edge: u32,
    pub(crate) index: u32,
    exchange: Exchange,
    receivers: u32,
    pub(crate) ghost some: { 1 ≤ receivers },
    pub(crate) ghost forward: { exchange ≡ Forward → index < receivers },
    pub(crate) ghost exchange_is: { exchange ≡ exchange_on job.now edge },
    pub(crate) ghost receivers_are: { receivers ≡ tasks_of job.now (suc edge) },
}

impl<'a> Router<'a> {
    /// For the task of this index that sends on this edge.
    pub(crate) fn new(job: &'a Job, edge: u32, index: u32) -> Self
        requires { IsSender job.now edge index }
        ensures { (result.job.now ≡ job.now) × (result.edge ≡ edge) × (result.index ≡ index) }
    {
        let place = edge as usize;
        Router {
            job,
            edge,
            index,
            exchange: job.exchange(place),
            receivers: job.tasks(place + 1),
        }
    }

    // The key by which a record is routed.
    fn key<'r>(&self, line: &'r [u8]) -> &'r [u8]
        ensures { result.now ≡ key_on self.now.job.now self.now.edge line.now }
    {
        if self.edge as usize == self.job.stages.as_slice().len() {
            &line[..key_len(self.job.agg, line)]
        } else {
            line
        }
    }

    /// The channel of a record that is the next after so many.
    pub(crate) fn select(&self, line: &[u8], emitted: u64) -> usize
        ensures { IsSelected self.now.job.now self.now.edge self.now.index emitted line.now result }
    {
        let to = route(
            self.exchange,
            self.key(line),
            emitted,
            self.index,
            self.receivers,
        );
        match self.exchange {
            Exchange::Forward => 0,
            Exchange::Hash => to as usize,
            Exchange::Rebalance => to as usize,
        }
    }
}
