// The numbers of a job: its edges, their tasks and their channels.
ghost use Rattle.std.specs.Prelude.{◌≡◌, suc, ◌≤◌};
ghost use Rattle.flow_defs.specs.Jobs.{IsJob, last_edge, tasks, exchange, joins, is_channel, edge_width};
ghost use Rattle.flow_defs.specs.Limits.{tasks_max};

use crate::{Exchange, Job};

impl Exchange {
    /// Whether it joins the sending task of one index with the receiving task of another.
    pub fn joins(self, from: usize, to: usize) -> bool
        ensures { result ≡ joins self from to }
    {
        match self {
            Exchange::Hash | Exchange::Rebalance => true,
            Exchange::Forward => from == to,
        }
    }
}

impl Job {
    /// How many edges it has. The last one leads to the aggregate.
    pub fn edges(&self) -> usize
        ensures { result ≡ suc (last_edge self.now) }
    {
        self.stages.as_slice().len() + 1
    }

    /// How many tasks a stage has. Behind the last stage it is the aggregate's number.
    pub fn tasks(&self, stage: usize) -> u32
        requires { IsJob self.now }
        ensures is { result ≡ tasks self.now stage }
        ensures few { result ≤ tasks_max }
    {
        let Some(before) = stage.checked_sub(1) else {
            return self.sources.as_slice().len() as u32;
        };
        match self.stages.as_slice().get(before) {
            Some(stage) => stage.tasks,
            None => self.agg_tasks,
        }
    }

    /// How records go over an edge. Behind the last edge it is by hash, as on it.
    pub fn exchange(&self, edge: usize) -> Exchange
        ensures { result ≡ exchange self.now edge }
    {
        match self.stages.as_slice().get(edge) {
            Some(stage) => stage.exchange,
            None => Exchange::Hash,
        }
    }

    /// How many channels an edge has.
    pub fn width(&self, edge: usize) -> u32
        requires job { IsJob self.now }
        requires edge { edge ≤ last_edge self.now }
        ensures is { result ≡ edge_width self.now edge }
        ensures few { result ≤ 64 }
    {
        let senders = self.tasks(edge);
        match self.exchange(edge) {
            Exchange::Forward => senders,
            _ => senders * self.tasks(edge + 1),
        }
    }

    /// Whether an edge has a channel from one task to another.
    pub fn joins(&self, edge: usize, from: u32, to: u32) -> bool
        requires { IsJob self.now }
        ensures { result ≡ is_channel self.now edge from to }
    {
        edge < self.edges()
            && from < self.tasks(edge)
            && to < self.tasks(edge + 1)
            && self.exchange(edge).joins(from as usize, to as usize)
    }
}
