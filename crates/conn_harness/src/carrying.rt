// The threads of a connection: its source, its four loops and its sink.
ghost use Rattle.std.specs.Prelude.{◌≡◌, OnSome};
ghost use Rattle.outside.specs.Links.{IsUnfinished};
ghost use Rattle.conn_send_items.specs.Sending.{MaySendItems};
ghost use Rattle.conn_read_control.specs.Controlling.{MayReadControl};
ghost use Rattle.conn_read_items.specs.Receiving.{MayReadItems};
ghost use Rattle.conn_send_control.specs.Announcing.{MaySendControl};
ghost use Rattle.conn_harness.specs.Ends.{MayPutOr, MayTake};

use crate::sink::{Counted, Sink, take_all};
use crate::source::{Source, put_all};
use conn_run::{ConnShare, LoopEnd, read_control, read_items, send_control, send_items};
use flow_defs::Cause;
use outside::{LinkIn, LinkOut};
use std::alloc::Global;
use std::sync::Wait;
use std::thread::{Threads, join};

/// What the three threads of an end came to: what its task answered, the causes for which its two loops
/// ended, and the half to which one of them wrote.
#[derive(Drop)]
pub struct EndOf<T: Drop, O: Drop> {
    pub task: T,
    pub writer: Cause,
    pub reader: Cause,
    pub half: O,
}

/// A source that puts, or how many buffers it has put.
#[derive(Drop)]
pub enum Putting<'e, 'a, 'p> {
    Puts(Source<'e, 'a, 'p>),
    HasPut(u64),
}

// Each of the four loops, and why it ended.
fn write_items<'a, 'p, O: LinkOut + Drop, R: Wait>(
    rt: &R,
    alloc: Global,
    out: O,
    share: ConnShare<'a, 'p>,
) -> (O, Cause)
    requires share { MaySendItems share }
    requires unfinished { IsUnfinished (O.finished out) }
{
    let LoopEnd {
        half,
        passes: _passes,
        cause,
    } = send_items(rt, alloc, out, share);
    (half, cause)
}

fn hear_control<'a, 'p, I: LinkIn + Drop, R: Wait>(
    rt: &R,
    alloc: Global,
    input: I,
    share: ConnShare<'a, 'p>,
) -> Cause
    requires share { MayReadControl share }
{
    let LoopEnd {
        half: _half,
        passes: _passes,
        cause,
    } = read_control(rt, alloc, input, share);
    cause
}

fn hear_items<'a, 'p, I: LinkIn + Drop, R: Wait>(
    rt: &R,
    alloc: Global,
    input: I,
    share: ConnShare<'a, 'p>,
) -> Cause
    requires share { MayReadItems share }
{
    let LoopEnd {
        half: _half,
        passes: _passes,
        cause,
    } = read_items(rt, alloc, input, share);
    cause
}

fn write_control<'a, 'p, O: LinkOut + Drop, R: Wait>(
    rt: &R,
    alloc: Global,
    out: O,
    share: ConnShare<'a, 'p>,
) -> (O, Cause)
    requires share { MaySendControl share }
    requires unfinished { IsUnfinished (O.finished out) }
{
    let LoopEnd {
        half,
        passes: _passes,
        cause,
    } = send_control(rt, alloc, out, share);
    (half, cause)
}

// The two loops of the sending end.
fn send_loops<'a, 'p, 'b, 'q, O, I, R>(
    rt: &R,
    alloc: Global,
    out: O,
    input: I,
    items: ConnShare<'a, 'p>,
    control: ConnShare<'b, 'q>,
) -> ((O, Cause), Cause)
where
    O: LinkOut + Send + Drop,
    I: LinkIn + Send + Drop,
    R: Threads + Wait + Sync,
    requires items { MaySendItems items }
    requires control { MayReadControl control }
    requires unfinished { IsUnfinished (O.finished out) }
{
    join(
        rt,
        || -> (O, Cause)
            requires { MaySendItems items × IsUnfinished (O.finished out) }
        { write_items(rt, alloc, out, items) },
        || -> Cause
            requires { MayReadControl control }
        { hear_control(rt, alloc, input, control) },
    )
}

/// The sending end: the source and the two loops beside it.
pub fn send<'e, 's, 'p, 'b, 'q, 'c, 'r, O, I, R>(
    rt: &R,
    alloc: Global,
    out: O,
    input: I,
    putting: Putting<'e, 's, 'p>,
    items: ConnShare<'b, 'q>,
    control: ConnShare<'c, 'r>,
) -> EndOf<u64, O>
where
    O: LinkOut + Send + Drop,
    I: LinkIn + Send + Drop,
    R: Threads + Wait + Sync,
    requires putting { MayPutOr putting }
    requires items { MaySendItems items }
    requires control { MayReadControl control }
    requires unfinished { IsUnfinished (O.finished out) }
{
    let (task, ((half, writer), reader)) = join(
        rt,
        || -> u64
            requires { MayPutOr putting }
        {
            match putting {
                Putting::Puts(source) => put_all(rt, source),
                Putting::HasPut(count) => count,
            }
        },
        || -> ((O, Cause), Cause)
            requires { MaySendItems items × MayReadControl control × IsUnfinished (O.finished out) }
        { send_loops(rt, alloc, out, input, items, control) },
    );
    EndOf {
        task,
        writer,
        reader,
        half,
    }
}

// The two loops of the receiving end.
fn receive_loops<'a, 'p, 'b, 'q, O, I, R>(
    rt: &R,
    alloc: Global,
    out: O,
    input: I,
    items: ConnShare<'a, 'p>,
    control: ConnShare<'b, 'q>,
) -> ((O, Cause), Cause)
where
    O: LinkOut + Send + Drop,
    I: LinkIn + Send + Drop,
    R: Threads + Wait + Sync,
    requires items { MayReadItems items }
    requires control { MaySendControl control }
    requires unfinished { IsUnfinished (O.finished out) }
{
    join(
        rt,
        || -> (O, Cause)
            requires { MaySendControl control × IsUnfinished (O.finished out) }
        { write_control(rt, alloc, out, control) },
        || -> Cause
            requires { MayReadItems items }
        { hear_items(rt, alloc, input, items) },
    )
}

/// The receiving end: the sink and the two loops beside it.
pub fn receive<'e, 's, 'p, 'b, 'q, 'c, 'r, O, I, R>(
    rt: &R,
    alloc: Global,
    out: O,
    input: I,
    sink: Sink<'e, 's, 'p>,
    items: ConnShare<'b, 'q>,
    control: ConnShare<'c, 'r>,
) -> EndOf<Counted, O>
where
    O: LinkOut + Send + Drop,
    I: LinkIn + Send + Drop,
    R: Threads + Wait + Sync,
    requires sink { MayTake sink }
    requires items { MayReadItems items }
    requires control { MaySendControl control }
    requires unfinished { IsUnfinished (O.finished out) }
{
    let (task, ((half, writer), reader)) = join(
        rt,
        || -> Counted
            requires { MayTake sink }
        { take_all(rt, sink) },
        || -> ((O, Cause), Cause)
            requires { MayReadItems items × MaySendControl control × IsUnfinished (O.finished out) }
        { receive_loops(rt, alloc, out, input, items, control) },
    );
    EndOf {
        task,
        writer,
        reader,
        half,
    }
}
