// Gates of two channels, in one thread: what comes on the channels, and what the gate gives.
ghost use Rattle.std.specs.Prelude.{◌≡◌, ◌+◌, ◌<◌, ◌≤◌, ◌++◌, suc, [], ◌∷◌, length, Some, All, IfOk, IfSome, true, false};
ghost use Rattle.turn_cell.specs.Passes.{IsPassOf, IsTurnOf, HasEntered, opened_with, number, seen, mine};
ghost use Rattle.segment_pool.specs.Pools as pools;
ghost use Rattle.segment_pool.specs.Pools.{limits_of, size_of};
ghost use Rattle.local_pool.specs.Helds.{pool_of};
ghost use Rattle.input_channel.specs.declared.entry.ReceiveEntry.TheVariants as entries;
ghost use Rattle.input_channel.specs.Answers.{parcel_in};
ghost use Rattle.input_channel.specs.States.{ChannelStandsFor};
ghost use Rattle.outside.specs.Stops.{is_fault};
ghost use Rattle.gate_account.specs.Accounts.{IsBlocked};
ghost use Rattle.input_gate.specs.States.{account_in};
ghost use Rattle.input_gate.specs.Making.{AreTwo, IsFirstPass};
ghost use Rattle.input_gate.specs.Turning.{InputCell};

use fixtures::{deal, list_of_two, open_local, open_pool_for_two, open_stop};
use flow_defs::{BarrierKind, Bytes, Cause, ListOf};
use input_channel::laws::{answers_tell, channels_stand_for_histories};
use input_channel::{Arrival, ArrivalKind, InputChannel, ReceiveEntry};
use input_gate::{CellGate, Gate, GateEnd, GateItem, InputCell, InputPass};
use local_pool::HeldPool;
use outside::{StopState, tell_stop};
use segment_pool::{Pool, PoolPass};
use std::alloc::{AllocError, Global};
use std::marker::Brand;
use std::process::Abort;
use std::sync::Wait;
use std::test::Fail;
use turn_cell::{Named, Pass, Turn, TurnCell};

// What happens: data, a barrier or the end arrives on a channel, a fault is met elsewhere, the gate is
// asked for the next item, or a channel wants so many floating segments.
enum Step {
    Data(usize, &'static [u8]),
    Barrier(usize, u64, BarrierKind),
    End(usize),
    Stops,
    Gives(Got),
    Holding(Got),
    Wants(usize, u32),
}

// What the gate gives.
enum Got {
    Line(u32, &'static [u8]),
    Barrier(u32, u64, BarrierKind),
    AllEnded,
    Ends(GateEnd),
}

const FRONT: BarrierKind = BarrierKind::Front;

const INLINE: BarrierKind = BarrierKind::Inline;

// A record is cut over two buffers, and the other channel's line comes between. A channel asks for floating
// segments, which it is given.
static ROUNDS: [Step; 8] = [
    Step::Data(0, b"\0\0\0\x02ab\0\0\0\x03c"),
    Step::Data(0, b"de"),
    Step::Data(1, b"\0\0\0\x01x"),
    Step::Wants(0, 3),
    Step::Gives(Got::Line(0, b"ab")),
    Step::Wants(0, 0),
    Step::Gives(Got::Line(1, b"x")),
    Step::Gives(Got::Line(0, b"cde")),
];

// A front barrier is given before a line that is whole already.
static FRONT_FIRST: [Step; 5] = [
    Step::Data(0, b"\0\0\0\x01a\0\0\0\x01b"),
    Step::Gives(Got::Line(0, b"a")),
    Step::Barrier(1, 1, FRONT),
    Step::Gives(Got::Barrier(1, 1, FRONT)),
    Step::Gives(Got::Line(0, b"b")),
];

// The second barrier of a channel waits until the other has given its first.
static HOLDING: [Step; 7] = [
    Step::Barrier(0, 1, FRONT),
    Step::Gives(Got::Barrier(0, 1, FRONT)),
    Step::Barrier(0, 2, FRONT),
    Step::Barrier(1, 1, INLINE),
    Step::Holding(Got::Barrier(1, 1, INLINE)),
    Step::Data(0, b"\0\0\0\x01a"),
    Step::Gives(Got::Barrier(0, 2, FRONT)),
];

static ALL_ENDED: [Step; 5] = [
    Step::End(0),
    Step::Data(1, b"\0\0\0\x01a"),
    Step::End(1),
    Step::Gives(Got::Line(1, b"a")),
    Step::Gives(Got::AllEnded),
];

static LEFT: [Step; 3] = [
    Step::Data(1, b"\0\0\0\x02a"),
    Step::End(1),
    Step::Gives(Got::Ends(GateEnd::Left { channel: 1, len: 5 })),
];

static TOO_LONG: [Step; 2] = [
    Step::Data(0, b"\0\x10\0\x01a"),
    Step::Gives(Got::Ends(GateEnd::TooLong {
        channel: 0,
        len: 1_048_577,
    })),
];

static STOPPED: [Step; 2] = [Step::Stops, Step::Gives(Got::Ends(GateEnd::Stopped))];

// An input channel in a cell, with the passes of the gate and of the reader of frames.
#[derive(Drop)]
struct Inbox {
    cell: InputCell,
    gate: InputPass,
    reader: InputPass,
}

// A channel with room for 5 buffers, whose two segments come from the pool.
fn open_inbox<R: Wait + Abort>(rt: &R, alloc: Global, pool: &Pool, pass: &mut PoolPass) -> Inbox
    requires { pools.IsPassOf pool.now pass.old × (limits_of pool.now ≡ []) }
    ensures pass { pools.IsPassOf pool.now pass.new }
    ensures size { (opened_with result.cell).size ≡ size_of pool.now }
    ensures gate { IsFirstPass result.cell result.gate }
    ensures reader { IsPassOf result.cell result.reader × (number result.reader ≡ 1) }
{
    channels_stand_for_histories();
    let first = pool.claim(rt, pass).expect(rt, "a segment is free");
    let second = pool.claim(rt, pass).expect(rt, "a segment is free");
    let Ok(channel) = InputChannel::new(alloc, first, second, 5) else {
        panic!(rt; "no channel")
    };
    let Ok((cell, mut passes)) = TurnCell::new(alloc, channel, 2) else {
        panic!(rt; "no cell of a channel")
    };
    let reader = deal(&cell, &mut passes);
    let gate = deal(&cell, &mut passes);
    Inbox { cell, gate, reader }
}

// Ends the turn in which this arrived.
fn leave_push<E: Named<ReceiveEntry>>(turn: Turn<InputChannel>, a: Arrival, bytes: &[u8])
    requires entry { E.entry ≡ entries.Push (parcel_in a.what bytes.now) a.backlog }
    requires turn { IsTurnOf turn.cell.now turn.pass.now }
    requires state { ChannelStandsFor turn.state (seen turn.pass.now ++ (number turn.pass.now, entries.Push (parcel_in a.what bytes.now) a.backlog) ∷ []) }
    requires size { turn.state.size ≡ (opened_with turn.cell.now).size }
    ensures pass { IsPassOf turn.entry.cell.now turn.exit.1.0.now }
    ensures entered { HasEntered (entries.Push (parcel_in a.what bytes.now) a.backlog) turn.entry.pass.now turn.exit.1.0.now }
{
    turn.leave::<E>();
}

// Gives an arrival to a channel, whose sender has a backlog of four buffers.
fn arrive<R: Wait + Abort>(
    rt: &R,
    cell: &InputCell,
    pass: &mut InputPass,
    sequence: u32,
    what: ArrivalKind,
    bytes: &[u8],
)
    requires { IsPassOf cell.now pass.old × (number pass.old ≡ 1) }
    ensures { IsPassOf cell.now pass.new × (number pass.new ≡ 1) }
{
    let a = Arrival {
        sequence,
        backlog: 2,
        what,
    };
    let mut turn = cell.enter(rt, pass);
    channels_stand_for_histories();
    answers_tell();
    match turn.state().accept(a, bytes) {
        Ok(()) => leave_push::<Brand>(turn, a, bytes),
        Err(_) => {
            turn.leave_as_is();
            panic!(rt; "an arrival was refused")
        }
    }
}

// How many floating segments a channel wants.
fn wanted<R: Wait>(rt: &R, cell: &InputCell, pass: &mut InputPass) -> u32
    requires { IsPassOf cell.now pass.old × (number pass.old ≡ 1) }
    ensures { IsPassOf cell.now pass.new × (number pass.new ≡ 1) }
{
    let mut turn = cell.enter(rt, pass);
    let wants = turn.state().wants();
    turn.leave_as_is();
    wants
}

// The sender's end of a channel, which counts what it sends.
#[derive(Drop)]
struct Sender<'a> {
    cell: &'a InputCell,
    pass: InputPass,
    next: u32,
    ghost of_cell: { IsPassOf cell.now pass },
    ghost reader: { number pass ≡ 1 },
}

impl<'a> Sender<'a> {
    fn new(cell: &'a InputCell, pass: InputPass) -> Self
        requires { IsPassOf cell.now pass × (number pass ≡ 1) }
    {
        Sender {
            cell,
            pass,
            next: 0,
        }
    }

    fn send<R: Wait + Abort>(self, rt: &R, what: ArrivalKind, bytes: &[u8]) -> Sender<'a> {
        let Sender {
            cell,
            mut pass,
            next,
        } = self;
        arrive(rt, cell, &mut pass, next, what, bytes);
        Sender {
            cell,
            pass,
            next: next.wrapping_add(1),
        }
    }

    fn wants<R: Wait + Abort>(self, rt: &R, count: u32) -> Sender<'a> {
        let Sender {
            cell,
            mut pass,
            next,
        } = self;
        assert_eq!(rt; wanted(rt, cell, &mut pass), count);
        Sender { cell, pass, next }
    }
}

// Sees that the gate gave this.
fn see<R: Abort>(rt: &R, got: Result<GateItem, GateEnd>, want: &Got) {
    match got {
        Ok(GateItem::Line { channel, line }) => match want {
            Got::Line(of, bytes) => {
                assert_eq!(rt; channel, *of);
                assert_eq!(rt; line.as_slice(), *bytes);
            }
            _ => panic!(rt; "a line"),
        },
        Ok(GateItem::Barrier { channel, k, kind }) => match want {
            Got::Barrier(of, number, is) => {
                assert_eq!(rt; channel, *of);
                assert_eq!(rt; k, *number);
                assert_eq!(rt; kind, *is);
            }
            _ => panic!(rt; "a barrier"),
        },
        Ok(GateItem::AllEnded) => assert!(rt; matches!(want, Got::AllEnded)),
        Err(end) => match want {
            Got::Ends(is) => assert_eq!(rt; end, *is),
            _ => panic!(rt; "an end"),
        },
    }
}

// The two senders, the gate, and a pass of the stop cell.
#[derive(Drop)]
struct Bench<'a, 'p> {
    first: Sender<'a>,
    second: Sender<'a>,
    gate: CellGate<'a, 'p>,
    stop: &'a TurnCell<StopState>,
    other: Pass<StopState>,
    ghost of_stop: { IsPassOf stop.now other },
}

// Sends on one of the two channels.
fn send<'a, 'p, R: Wait + Abort>(
    rt: &R,
    bench: Bench<'a, 'p>,
    channel: usize,
    what: ArrivalKind,
    bytes: &[u8],
) -> Bench<'a, 'p> {
    let Bench {
        first,
        second,
        gate,
        stop,
        other,
    } = bench;
    let (first, second) = if channel == 0 {
        (first.send(rt, what, bytes), second)
    } else {
        (first, second.send(rt, what, bytes))
    };
    Bench {
        first,
        second,
        gate,
        stop,
        other,
    }
}

// Sees that one of the two channels wants so many floating segments.
fn want<'a, 'p, R: Wait + Abort>(
    rt: &R,
    bench: Bench<'a, 'p>,
    channel: usize,
    count: u32,
) -> Bench<'a, 'p> {
    let Bench {
        first,
        second,
        gate,
        stop,
        other,
    } = bench;
    let (first, second) = if channel == 0 {
        (first.wants(rt, count), second)
    } else {
        (first, second.wants(rt, count))
    };
    Bench {
        first,
        second,
        gate,
        stop,
        other,
    }
}

// Sees that the gate gives this next.
fn give<'a, 'p, R: Wait + Abort>(
    rt: &R,
    bench: Bench<'a, 'p>,
    hold: bool,
    want: &Got,
) -> Bench<'a, 'p> {
    let Bench {
        first,
        second,
        mut gate,
        stop,
        other,
    } = bench;
    let got = gate.next(rt, hold);
    see(rt, got, want);
    Bench {
        first,
        second,
        gate,
        stop,
        other,
    }
}

// Tells of a fault that is met elsewhere.
fn fault<'a, 'p, R: Wait>(rt: &R, bench: Bench<'a, 'p>) -> Bench<'a, 'p> {
    let Bench {
        first,
        second,
        gate,
        stop,
        mut other,
    } = bench;
    tell_stop(rt, stop, &mut other, Cause::Link);
    Bench {
        first,
        second,
        gate,
        stop,
        other,
    }
}

fn take_step<'a, 'p, R: Wait + Abort>(rt: &R, bench: Bench<'a, 'p>, step: &Step) -> Bench<'a, 'p> {
    match step {
        Step::Data(channel, bytes) => send(rt, bench, *channel, ArrivalKind::Buffer, bytes),
        Step::Barrier(channel, k, kind) => {
            let what = ArrivalKind::Barrier { k: *k, kind: *kind };
            send(rt, bench, *channel, what, b"")
        }
        Step::End(channel) => send(rt, bench, *channel, ArrivalKind::End, b""),
        Step::Stops => fault(rt, bench),
        Step::Gives(got) => give(rt, bench, false, got),
        Step::Holding(got) => give(rt, bench, true, got),
        Step::Wants(channel, count) => want(rt, bench, *channel, *count),
    }
}

// A gate of two channels.
fn gate_of<'a, 'p, R: Abort>(
    rt: &R,
    alloc: Global,
    cells: &'a [InputCell],
    passes: ListOf<InputPass>,
    local: &'a TurnCell<HeldPool<'p>>,
    lender: Pass<HeldPool<'p>>,
    stop: &'a TurnCell<StopState>,
    own: Pass<StopState>,
) -> Result<CellGate<'a, 'p>, AllocError>
    requires two { AreTwo cells.now passes.items }
    requires pool { IsPassOf local.now lender }
    requires stop { IsPassOf stop.now own × (mine own ≡ []) }
    requires sizes { All (λ (cell : InputCell). (opened_with cell).size ≡ size_of (pool_of (opened_with local.now))) cells.now }
{
    let flights = list_of_two(alloc, Bytes::new(alloc), Bytes::new(alloc))?;
    match CellGate::new(alloc, cells, passes, flights, local, lender, stop, own) {
        Ok(gate) => Ok(gate),
        Err(_) => panic!(rt; "no memory for a gate"),
    }
}

// Gives the next item while a channel is stopped, which it stays.
fn next_while_stopped<R: Wait>(
    rt: &R,
    gate: &mut CellGate<'_, '_>,
    channel: u32,
) -> Result<GateItem, GateEnd>
    requires within { channel < (account_in gate.old).channels }
    requires stopped { IsBlocked (account_in gate.old) channel }
    ensures within { channel < (account_in gate.new).channels }
    ensures stopped { IsBlocked (account_in gate.new) channel }
{
    // Only the clauses speak of it.
    let _channel = channel;
    gate.next(rt, false)
}

// The gate gives an inline barrier, goes on with the other channel, and is resumed.
fn resume<R: Wait + Abort>(rt: &R, gate: &mut CellGate<'_, '_>) {
    match gate.next(rt, false) {
        Ok(
            GateItem::Barrier {
                channel,
                k,
                kind: BarrierKind::Inline,
            },
        ) => {
            assert_eq!(rt; (channel, k), (0, 1));
            let got = next_while_stopped(rt, gate, channel);
            see(rt, got, &Got::Line(1, b"y"));
            gate.resume(rt, channel);
        }
        _ => panic!(rt; "an inline barrier"),
    }
}

// Takes these steps, one after another.
fn take_steps<'a, 'p, R: Wait + Abort>(
    rt: &R,
    bench: Bench<'a, 'p>,
    steps: &[Step],
) -> Bench<'a, 'p> {
    let mut bench = bench;
    for step in steps {
        bench = take_step(rt, bench, step);
    }
    bench
}

// Sees a channel go on that was blocked.
fn go_on<'a, 'p, R: Wait + Abort>(rt: &R, bench: Bench<'a, 'p>) -> Bench<'a, 'p> {
    let Bench {
        first,
        second,
        mut gate,
        stop,
        other,
    } = bench;
    resume(rt, &mut gate);
    Bench {
        first,
        second,
        gate,
        stop,
        other,
    }
}

// Takes these steps, and with `resumes` sees a channel that was blocked go on, and takes more.
fn walk<R: Wait + Abort>(
    rt: &R,
    bench: Bench<'_, '_>,
    steps: &[Step],
    resumes: bool,
    more: &[Step],
) {
    let mut bench = take_steps(rt, bench, steps);
    if resumes {
        bench = go_on(rt, bench);
    }
    let bench = take_steps(rt, bench, more);
    // The gate ends here, and its passes are let go.
    let _passes = bench.gate.into_passes();
}

// Goes through these steps with a new gate over two channels, which takes floating segments from this pool.
fn run_over<'p, R: Wait + Abort>(
    rt: &R,
    alloc: Global,
    one: Inbox,
    two: Inbox,
    local: &TurnCell<HeldPool<'p>>,
    lender: Pass<HeldPool<'p>>,
    steps: &[Step],
    resumes: bool,
    more: &[Step],
) -> Result<(), Fail>
    requires one { IsFirstPass one.cell one.gate × IsPassOf one.cell one.reader × (number one.reader ≡ 1) }
    requires two { IsFirstPass two.cell two.gate × IsPassOf two.cell two.reader × (number two.reader ≡ 1) }
    requires pool { IsPassOf local.now lender }
    requires size_of_one { (opened_with one.cell).size ≡ size_of (pool_of (opened_with local.now)) }
    requires size_of_two { (opened_with two.cell).size ≡ size_of (pool_of (opened_with local.now)) }
{
    let (stop, own, other) = open_stop(alloc)?;
    let passes = list_of_two(alloc, one.gate, two.gate)?;
    let cells = [one.cell, two.cell];
    let gate = gate_of(rt, alloc, &cells, passes, local, lender, &stop, own)?;
    let bench = Bench {
        first: Sender::new(&cells[0], one.reader),
        second: Sender::new(&cells[1], two.reader),
        gate,
        stop: &stop,
        other,
    };
    walk(rt, bench, steps, resumes, more);
    Ok(())
}

// Goes through these steps with a new gate over two new channels.
fn run<R: Wait + Abort>(
    rt: &R,
    alloc: Global,
    steps: &[Step],
    resumes: bool,
    more: &[Step],
) -> Result<(), Fail> {
    let (pool, mut first, second) = open_pool_for_two(alloc, 8)?;
    let one = open_inbox(rt, alloc, &pool, &mut first);
    let two = open_inbox(rt, alloc, &pool, &mut first);
    let (local, lender) = open_local(rt, alloc, &pool, second, 4)?;
    run_over(rt, alloc, one, two, &local, lender, steps, resumes, more)
}

#[test]
fn lines_of_two_channels_come_in_turn(rt: HostRuntime) -> Result<(), Fail> {
    run(&rt, rt.alloc(), &ROUNDS, false, &[])
}

#[test]
fn barriers_come_in_their_order(rt: HostRuntime) -> Result<(), Fail> {
    run(&rt, rt.alloc(), &FRONT_FIRST, false, &[])?;
    run(&rt, rt.alloc(), &HOLDING, false, &[])
}

#[test]
fn a_gate_ends_for_its_cause(rt: HostRuntime) -> Result<(), Fail> {
    run(&rt, rt.alloc(), &ALL_ENDED, false, &[])?;
    run(&rt, rt.alloc(), &LEFT, false, &[])?;
    run(&rt, rt.alloc(), &TOO_LONG, false, &[])?;
    run(&rt, rt.alloc(), &STOPPED, false, &[])
}

// Up to an inline barrier, with lines of both channels behind it, and what comes after the resumption.
static BLOCKED: [Step; 7] = [
    Step::Data(0, b"\0\0\0\x01a"),
    Step::Barrier(0, 1, INLINE),
    Step::Data(0, b"\0\0\0\x01b"),
    Step::Data(1, b"\0\0\0\x01x"),
    Step::Data(1, b"\0\0\0\x01y"),
    Step::Gives(Got::Line(0, b"a")),
    Step::Gives(Got::Line(1, b"x")),
];

static RESUMED: [Step; 1] = [Step::Gives(Got::Line(0, b"b"))];

#[test]
fn an_inline_barrier_blocks_its_channel(rt: HostRuntime) -> Result<(), Fail> {
    run(&rt, rt.alloc(), &BLOCKED, true, &RESUMED)
}
