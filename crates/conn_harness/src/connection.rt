// A connection at work.
ghost use Rattle.std.specs.Prelude.{◌≡◌, ◌+◌, ◌<◌, ◌≤◌, [], true, length, IfOk, IfSome};
ghost use Rattle.std.specs.List.{All};
ghost use Rattle.segment_pool.specs.Pools.{limits_of, size_of};
ghost use Rattle.segment_pool.specs.Stocks.{IsSize};
ghost use Rattle.outside.specs.Links.{IsUnfinished};
ghost use Rattle.outside.specs.Stops.{is_fault};
ghost use Rattle.conn_harness.specs.declared.pools.TheConstants.{CHANNELS_MAX};
ghost use Rattle.conn_send_items.specs.Sending.{MaySendItems};
ghost use Rattle.conn_read_control.specs.Controlling.{MayReadControl};
ghost use Rattle.conn_read_items.specs.Receiving.{MayReadItems};
ghost use Rattle.conn_send_control.specs.Announcing.{MaySendControl};
ghost use Rattle.turn_cell.specs.Passes.{IsPassOf};
ghost use Rattle.conn_harness.specs.Ends.{MayPut, MayPutOr, MayTake};
ghost use Rattle.conn_harness.specs.Groups.{IsPassReady};

use crate::carrying::{EndOf, Putting, receive, send};
use crate::opening::open;
use crate::pools::{CHANNELS_MAX, segments_for};
use crate::sink::{Counted, Sink};
use crate::source::{Source, Work, put_all};
use crate::workers::{Workers, lend};
use conn_run::ConnShare;
use flow_defs::{Cause, ListOf};
use outside::{LinkIn, LinkOut, StopState, Wire, look_for_stop, tell_stop};
use segment_pool::{Pool, PoolPass, SEGMENT_MAX, SEGMENT_MIN};
use std::alloc::{AllocError, Global};
use std::sync::Wait;
use std::thread::{Threads, join};
use turn_cell::{Pass, TurnCell};

/// What a connection does.
#[derive(Clone, Copy, Drop)]
pub struct Plan {
    /// How many channels it has, 1 to `CHANNELS_MAX`.
    pub channels: u32,
    /// From how many of them, the last ones, the sink does not take. Where there are some it stops the
    /// connection once the others have ended.
    pub unpolled: usize,
    pub work: Work,
    /// Whether all is put before the loops begin. There has to be room for it.
    pub puts_first: bool,
    /// A fault that was met elsewhere before they begin.
    pub met: Option<Cause>,
}

/// What it came to: the causes for which the four loops ended, how many buffers were put and what came,
/// the end of the data link to which was written, and what the stop cell then tells.
#[derive(Drop)]
pub struct Carried<O: Drop> {
    pub items: Cause,
    pub control: Cause,
    pub read: Cause,
    pub asked: Cause,
    pub put: u64,
    pub counted: Counted,
    pub data_out: O,
    pub told: Option<Cause>,
}

/// A pool for a connection of so many channels with segments of this size, and the passes of its local
/// pools. None is a size or a count out of range, or want of memory.
pub fn open_pool(alloc: Global, channels: u32, size: u32) -> Option<(Pool, ListOf<PoolPass>)>
    ensures pool { IfSome result (λ r. limits_of r.0 ≡ []) }
    ensures passes { IfSome result (λ r. All (IsPassReady r.0) r.1.items) }
    ensures count { IfSome result (λ r. length r.1.items ≡ channels + 1) }
    ensures channels { IfSome result (λ _. (1 ≤ channels) × (channels ≤ CHANNELS_MAX)) }
{
    if channels == 0 || channels > CHANNELS_MAX {
        return None;
    }
    if (size as usize) < SEGMENT_MIN || size as usize > SEGMENT_MAX {
        return None;
    }
    match Pool::new(alloc, segments_for(channels), size, channels + 1) {
        Ok((pool, passes)) => Some((pool, passes)),
        Err(_) => None,
    }
}

// What the threads of both ends came to, and what the stop cell tells.
fn outcome_of<O: Drop>(
    sent: EndOf<u64, O>,
    received: EndOf<Counted, O>,
    told: Option<Cause>,
) -> Carried<O> {
    let EndOf {
        task: put,
        writer: items,
        reader: control,
        half: data_out,
    } = sent;
    let EndOf {
        task: counted,
        writer: asked,
        reader: read,
        half: _control_out,
    } = received;
    Carried {
        items,
        control,
        read,
        asked,
        put,
        counted,
        data_out,
        told,
    }
}

// A source that puts, or how many buffers it has put where it puts first.
fn putting_of<'e, 's, 'p, R: Wait>(
    rt: &R,
    source: Source<'e, 's, 'p>,
    first: bool,
) -> Putting<'e, 's, 'p>
    requires { MayPut source }
    ensures { MayPutOr result }
{
    if first {
        Putting::HasPut(put_all(rt, source))
    } else {
        Putting::Puts(source)
    }
}

// Tells of a fault that was met elsewhere.
fn tell_met<R: Wait>(
    rt: &R,
    stop: &TurnCell<StopState>,
    pass: &mut Pass<StopState>,
    met: Option<Cause>,
)
    requires pass { IsPassOf stop.now pass.old }
    requires met { IfSome met (λ cause. is_fault cause ≡ true) }
    ensures { IsPassOf stop.now pass.new }
{
    if let Some(cause) = met {
        tell_stop(rt, stop, pass, cause);
    }
}

// The threads of both ends.
fn both_ends<'a, 'p, O, I, R>(
    rt: &R,
    alloc: Global,
    wire: Wire<O, I>,
    putting: Putting<'a, 'a, 'p>,
    sink: Sink<'a, 'a, 'p>,
    items: ConnShare<'a, 'p>,
    control: ConnShare<'a, 'p>,
    read: ConnShare<'a, 'p>,
    asked: ConnShare<'a, 'p>,
) -> (EndOf<u64, O>, EndOf<Counted, O>)
where
    O: LinkOut + Send + Drop,
    I: LinkIn + Send + Drop,
    R: Threads + Wait + Sync,
    requires putting { MayPutOr putting }
    requires sink { MayTake sink }
    requires items { MaySendItems items }
    requires control { MayReadControl control }
    requires read { MayReadItems read }
    requires asked { MaySendControl asked }
    requires data { IsUnfinished (O.finished wire.data_out) }
    requires control_out { IsUnfinished (O.finished wire.control_out) }
{
    let Wire {
        data_out,
        data_in,
        control_out,
        control_in,
    } = wire;
    join(
        rt,
        || -> EndOf<u64, O>
            requires { MayPutOr putting × MaySendItems items × MayReadControl control × IsUnfinished (O.finished data_out) }
        { send(rt, alloc, data_out, control_in, putting, items, control) },
        || -> EndOf<Counted, O>
            requires { MayTake sink × MayReadItems read × MaySendControl asked × IsUnfinished (O.finished control_out) }
        { receive(rt, alloc, control_out, data_in, sink, read, asked) },
    )
}

/// Opens a connection over this wire, lets a source put on all its channels and a sink take, and says
/// what it came to.
pub fn carry<O, I, R>(
    rt: &R,
    alloc: Global,
    pool: &Pool,
    passes: ListOf<PoolPass>,
    wire: Wire<O, I>,
    plan: Plan,
) -> Result<Carried<O>, AllocError>
where
    O: LinkOut + Send + Drop,
    I: LinkIn + Send + Drop,
    R: Threads + Wait + Sync,
    requires pool { limits_of pool.now ≡ [] }
    requires passes { All (IsPassReady pool.now) passes.items }
    requires count { length passes.items ≡ plan.channels + 1 }
    requires channels { (1 ≤ plan.channels) × (plan.channels ≤ CHANNELS_MAX) }
    requires met { IfSome plan.met (λ cause. is_fault cause ≡ true) }
    requires data { IsUnfinished (O.finished wire.data_out) }
    requires control { IsUnfinished (O.finished wire.control_out) }
{
    let (cells, hands) = open(rt, alloc, pool, passes, plan.channels)?;
    let Workers {
        source,
        sink,
        items,
        control,
        read,
        asked,
        mut other,
    } = lend(alloc, &cells, hands, plan.work, plan.unpolled)?;
    tell_met(rt, &cells.stop, &mut other, plan.met);
    let putting = putting_of(rt, source, plan.puts_first);
    let (sent, received) = both_ends(rt, alloc, wire, putting, sink, items, control, read, asked);
    let told = look_for_stop(rt, &cells.stop, &mut other);
    Ok(outcome_of(sent, received, told))
}
