// What takes buffers from all channels.
ghost use Rattle.std.specs.Prelude.{◌<◌, length};
ghost use Rattle.turn_cell.specs.Passes.{IsPassOf};
ghost use Rattle.conn_parts.specs.Shares.{AreOf, HavePoolSize};
ghost use Rattle.conn_harness.specs.Ends.{MayTake};

use crate::idle::Idle;
use crate::inlet::{Inlet, Taken};
use crate::source::letter as expected_letter;
use conn_parts::{give_segment, request_segment};
use flow_defs::{Cause, ListOf};
use local_pool::HeldPool;
use outside::{StopState, tell_stop};
use segment_pool::Segment;
use std::collections::VecDeque;
use std::sync::Wait;
use turn_cell::{Pass, TurnCell};

/// A channel, and how many buffers came on it.
#[derive(Drop)]
pub struct Berth<'a> {
    pub inlet: Inlet<'a>,
    pub taken: u64,
}

/// The ends of the channels from which a sink takes, and the local pool of its gate.
#[derive(Drop)]
pub struct Sink<'e, 'a, 'p> {
    pub berths: VecDeque<Berth<'e>>,
    pub pools: &'a [TurnCell<HeldPool<'p>>],
    pub passes: ListOf<Pass<HeldPool<'p>>>,
    /// The length of a segment, in bytes.
    pub size: u32,
    pub stop: &'a TurnCell<StopState>,
    pub stop_pass: Pass<StopState>,
    /// Whether it stops the connection once the channels that it takes from have ended.
    pub stops: bool,
}

/// How many channels ended, how many buffers and bytes came, and whether those of each channel came in
/// order, each once.
#[derive(Clone, Copy, Debug, PartialEq, Eq, Drop)]
pub struct Counted {
    pub ended: u32,
    pub buffers: u64,
    pub bytes: u64,
    pub in_order: bool,
}

impl Counted {
    // Nothing came.
    fn new() -> Self {
        Counted {
            ended: 0,
            buffers: 0,
            bytes: 0,
            in_order: true,
        }
    }

    // With a buffer more, which was the next of its channel or another one.
    fn with(self, len: u32, is_next: bool) -> Self {
        Counted {
            buffers: self.buffers.wrapping_add(1),
            bytes: self.bytes.wrapping_add(u64::from(len)),
            in_order: self.in_order && is_next,
            ..self
        }
    }
}

// Gives a segment back to the gate's pool. One that has another length than the pool's is dropped.
fn give_back<'p, R: Wait>(
    rt: &R,
    pools: &[TurnCell<HeldPool<'p>>],
    passes: &mut ListOf<Pass<HeldPool<'p>>>,
    size: u32,
    segment: Segment,
)
    requires passes { AreOf pools.now passes.old.items }
    requires sizes { HavePoolSize size pools.now }
    requires some { 0 < length pools.now }
    ensures { AreOf pools.now passes.new.items }
{
    if segment.bytes().len() == size as usize {
        give_segment(rt, pools, passes, 0, segment);
    }
}

// Adds floating segments of the gate's pool, as many as are wanted and there.
fn add_floating<'a, 'p, R: Wait>(
    rt: &R,
    inlet: Inlet<'a>,
    wants: u32,
    pools: &[TurnCell<HeldPool<'p>>],
    passes: &mut ListOf<Pass<HeldPool<'p>>>,
    size: u32,
) -> Inlet<'a>
    requires passes { AreOf pools.now passes.old.items }
    requires sizes { HavePoolSize size pools.now }
    requires some { 0 < length pools.now }
    ensures { AreOf pools.now passes.new.items }
{
    let mut inlet = inlet;
    for _want in 0..wants {
        let Some(segment) = request_segment(rt, pools, passes, 0) else {
            return inlet;
        };
        let (back, added) = inlet.add(rt, segment);
        inlet = back;
        if let Err(segment) = added {
            give_back(rt, pools, passes, size, segment);
            return inlet;
        }
    }
    inlet
}

// Gives what a buffer left back to the gate's pool, and asks there for what its channel wants.
fn settle<'a, 'p, R: Wait>(
    rt: &R,
    inlet: Inlet<'a>,
    free: Option<Segment>,
    wants: u32,
    pools: &[TurnCell<HeldPool<'p>>],
    passes: &mut ListOf<Pass<HeldPool<'p>>>,
    size: u32,
) -> Inlet<'a>
    requires passes { AreOf pools.now passes.old.items }
    requires sizes { HavePoolSize size pools.now }
    requires some { 0 < length pools.now }
    ensures { AreOf pools.now passes.new.items }
{
    if let Some(segment) = free {
        give_back(rt, pools, passes, size, segment);
    }
    add_floating(rt, inlet, wants, pools, passes, size)
}

// What a round with one channel came to: a buffer of so many bytes, the next of the channel or another.
enum Round<'a> {
    Came {
        berth: Berth<'a>,
        len: u32,
        is_next: bool,
    },
    Nothing(Berth<'a>),
    Ended,
}

// Takes what a channel has next.
fn take_next<'a, 'p, R: Wait>(
    rt: &R,
    berth: Berth<'a>,
    pools: &[TurnCell<HeldPool<'p>>],
    passes: &mut ListOf<Pass<HeldPool<'p>>>,
    size: u32,
) -> Round<'a>
    requires passes { AreOf pools.now passes.old.items }
    requires sizes { HavePoolSize size pools.now }
    requires some { 0 < length pools.now }
    ensures { AreOf pools.now passes.new.items }
{
    let Berth { inlet, taken } = berth;
    let (inlet, got) = inlet.take(rt);
    match got {
        Taken::Buffer {
            letter,
            len,
            free,
            wants,
        } => {
            let inlet = settle(rt, inlet, free, wants, pools, passes, size);
            Round::Came {
                berth: Berth {
                    inlet,
                    taken: taken.wrapping_add(1),
                },
                len,
                is_next: letter == expected_letter(taken),
            }
        }
        Taken::Nothing => Round::Nothing(Berth { inlet, taken }),
        Taken::End => Round::Ended,
    }
}

/// Takes what comes on one channel after another, up to the end of each, or until the stop cell has an
/// entry.
pub fn take_all<'e, 'a, 'p, R: Wait>(rt: &R, sink: Sink<'e, 'a, 'p>) -> Counted
    requires { MayTake sink }
{
    let Sink {
        mut berths,
        pools,
        mut passes,
        size,
        stop,
        mut stop_pass,
        stops,
    } = sink;
    let mut counted = Counted::new();
    let mut idle = Idle::new();
    for _round in rt.forever() {
        let Some(berth) = berths.pop_front() else {
            if stops {
                tell_stop(rt, stop, &mut stop_pass, Cause::Memory);
            }
            return counted;
        };
        let berth = match take_next(rt, berth, pools, &mut passes, size) {
            Round::Came {
                berth,
                len,
                is_next,
            } => {
                counted = counted.with(len, is_next);
                idle.found();
                berth
            }
            Round::Nothing(berth) => {
                if idle.missed(rt, berths.len(), stop, &mut stop_pass) {
                    return counted;
                }
                berth
            }
            Round::Ended => {
                counted.ended = counted.ended.wrapping_add(1);
                continue;
            }
        };
        if berths.push_back(berth).is_err() {
            return counted;
        }
    }
    unreachable!()
}
