// The loops of a connection as workers.
ghost use Rattle.std.specs.Prelude.{◌≡◌};
ghost use Rattle.outside.specs.Links.{IsUnfinished};
ghost use Rattle.conn_send_items.specs.Sending.{MaySendItems};
ghost use Rattle.conn_read_control.specs.Controlling.{MayReadControl};
ghost use Rattle.conn_read_items.specs.Receiving.{MayReadItems};
ghost use Rattle.conn_send_control.specs.Announcing.{MaySendControl};
ghost use Rattle.job_workers.specs.Loops.{LeftByLoop, MayRunLoop, ReadControl, ReadItems, SentControl, SentItems};

use crate::place::Worker;
use conn_run::{ConnShare, LoopEnd, read_control, read_items, send_control, send_items};
use flow_defs::Job;
use outside::{LinkIn, LinkOut};
use stage_fns::FnTable;
use std::alloc::Global;
use std::sync::Wait;

/// What a loop of a connection is run with: its half of a link, and what the connection lends it.
#[derive(Drop)]
pub struct LoopWork<'a, 'p, H> {
    pub alloc: Global,
    pub half: H,
    pub share: ConnShare<'a, 'p>,
}

/// A loop of a connection.
#[derive(Drop)]
pub enum ConnLoop<'a, 'p, O, I> {
    /// Writes the items of all channels, at the sending end.
    SendItems(LoopWork<'a, 'p, O>),
    /// Reads control frames, at the sending end.
    ReadControl(LoopWork<'a, 'p, I>),
    /// Reads items, at the receiving end.
    ReadItems(LoopWork<'a, 'p, I>),
    /// Writes control frames, at the receiving end.
    SendControl(LoopWork<'a, 'p, O>),
}

/// What a loop leaves.
#[derive(Drop)]
pub enum LoopLeft<'p, O, I> {
    SentItems(LoopEnd<'p, O>),
    ReadControl(LoopEnd<'p, I>),
    ReadItems(LoopEnd<'p, I>),
    SentControl(LoopEnd<'p, O>),
}

fn run_send_items<'a, 'p, O: LinkOut, R: Wait>(rt: &R, work: LoopWork<'a, 'p, O>) -> LoopEnd<'p, O>
    requires share { MaySendItems work.share }
    requires unfinished { IsUnfinished (O.finished work.half) }
    ensures { SentItems O.line O.sent O.faults work.entry.share work.entry.half result }
{
    let LoopWork { alloc, half, share } = work;
    send_items(rt, alloc, half, share)
}

fn run_read_control<'a, 'p, I: LinkIn, R: Wait>(rt: &R, work: LoopWork<'a, 'p, I>) -> LoopEnd<'p, I>
    requires share { MayReadControl work.share }
    ensures { ReadControl I.line I.got I.ended I.faults work.entry.share work.entry.half result }
{
    let LoopWork { alloc, half, share } = work;
    read_control(rt, alloc, half, share)
}

fn run_read_items<'a, 'p, I: LinkIn, R: Wait>(rt: &R, work: LoopWork<'a, 'p, I>) -> LoopEnd<'p, I>
    requires share { MayReadItems work.share }
    ensures { ReadItems I.line I.got I.ended I.faults work.entry.share work.entry.half result }
{
    let LoopWork { alloc, half, share } = work;
    read_items(rt, alloc, half, share)
}

fn run_send_control<'a, 'p, O: LinkOut, R: Wait>(
    rt: &R,
    work: LoopWork<'a, 'p, O>,
) -> LoopEnd<'p, O>
    requires share { MaySendControl work.share }
    requires unfinished { IsUnfinished (O.finished work.half) }
    ensures { SentControl O.line O.sent O.faults work.entry.share work.entry.half result }
{
    let LoopWork { alloc, half, share } = work;
    send_control(rt, alloc, half, share)
}

impl<'a, 'p, O: LinkOut + Send + Drop, I: LinkIn + Send + Drop> Worker for ConnLoop<'a, 'p, O, I> {
    type Left = LoopLeft<'p, O, I>;

    ghost may_run = { λ _ todo. MayRunLoop O.finished todo };

    ghost leaves = { λ _ todo left. LeftByLoop O.line O.sent O.faults I.line I.got I.ended I.faults todo left };

    fn run<R: Wait>(self, rt: &R, _job: &Job, _functions: &FnTable) -> LoopLeft<'p, O, I> {
        match self {
            ConnLoop::SendItems(work) => { LoopLeft::SentItems(run_send_items(rt, work)) }
            ConnLoop::ReadControl(work) => { LoopLeft::ReadControl(run_read_control(rt, work)) }
            ConnLoop::ReadItems(work) => { LoopLeft::ReadItems(run_read_items(rt, work)) }
            ConnLoop::SendControl(work) => { LoopLeft::SentControl(run_send_control(rt, work)) }
        }
    }
}
