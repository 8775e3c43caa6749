// The loop over links in memory: what it writes, and why it ends.
ghost use Rattle.std.specs.Prelude.{◌≡◌, ◌++◌, [], ◌∷◌, length, true, false, IfSome};
ghost use Rattle.turn_cell.specs.Passes.{IsPassOf, IsTurnOf, HasEntered, opened_with, number, seen};
ghost use Rattle.flow_defs.specs.declared.parcel.Parcel.TheVariants as parcels;
ghost use Rattle.segment_pool.specs.Pools as pools;
ghost use Rattle.segment_pool.specs.Pools.{limits_of, size_of};
ghost use Rattle.input_channel.specs.declared.entry.ReceiveEntry.TheVariants as entries;
ghost use Rattle.input_channel.specs.States.{ChannelStandsFor};
ghost use Rattle.credit_reader.specs.Senders.{AreDistinct};
ghost use Rattle.conn_parts.specs.Shares.{AreOwn};
ghost use Rattle.outside.specs.Stops.{is_fault};

use crate::slow_links::{CLOSING, SlowOut};
use conn_parts::{ConnShare, LoopEnd, SharePasses};
use conn_send_control::send_control;
use fixtures::{deal, list_of_two, open_pool, open_stop};
use flow_defs::{Cause, ChannelId, ListOf};
use input_channel::laws::{answers_tell, channels_stand_for_histories};
use input_channel::{Arrival, ArrivalKind, InputChannel, ReceiveEntry};
use outside::{look_for_stop, tell_stop};
use reader_state::ReaderState;
use segment_pool::{Pool, PoolPass, Segment};
use std::alloc::{AllocError, Global};
use std::marker::Brand;
use std::process::Abort;
use std::sync::Wait;
use std::test::Fail;
use turn_cell::{Named, Pass, Turn, TurnCell};

fn link(alloc: Global, most: usize, fails_from: u64) -> SlowOut
    ensures { result.finished ≡ false }
{
    SlowOut {
        bytes: Vec::new(alloc),
        most,
        fails_from,
        writes: 0,
        faults: 0,
        finished: false,
    }
}

fn claim<R: Wait + Abort>(rt: &R, pool: &Pool, pass: &mut PoolPass) -> Segment
    requires { pools.IsPassOf pool.now pass.old × (limits_of pool.now ≡ []) }
    ensures pass { pools.IsPassOf pool.now pass.new }
    ensures size { length result ≡ size_of pool.now }
{
    pool.claim(rt, pass).expect(rt, "a segment is free")
}

// A channel with room for 5 buffers, whose two segments come from the pool, with the passes of the reader
// of frames and of the writer of control frames.
fn open_channel<R: Wait + Abort>(
    rt: &R,
    alloc: Global,
    pool: &Pool,
    place: &mut PoolPass,
) -> (
    TurnCell<InputChannel>,
    Pass<InputChannel>,
    Pass<InputChannel>,
)
    requires { pools.IsPassOf pool.now place.old × (limits_of pool.now ≡ []) }
    ensures place { pools.IsPassOf pool.now place.new }
    ensures size { (opened_with result.0).size ≡ size_of pool.now }
    ensures reader { IsPassOf result.0 result.1 × (number result.1 ≡ 1) }
    ensures writer { IsPassOf result.0 result.2 × (number result.2 ≡ 2) }
{
    channels_stand_for_histories();
    let first = claim(rt, pool, place);
    let second = claim(rt, pool, place);
    let Ok(channel) = InputChannel::new(alloc, first, second, 5) else {
        panic!(rt; "no channel")
    };
    let Ok((cell, mut passes)) = TurnCell::new(alloc, channel, 3) else {
        panic!(rt; "no cell of a channel")
    };
    let writer = deal(&cell, &mut passes);
    let reader = deal(&cell, &mut passes);
    (cell, reader, writer)
}

// Ends the turn in which a backlog of one buffer was told.
fn leave_backlog<E: Named<ReceiveEntry>>(turn: Turn<InputChannel>)
    requires entry { E.entry ≡ entries.Backlog 1 }
    requires turn { IsTurnOf turn.cell.now turn.pass.now }
    requires state { ChannelStandsFor turn.state (seen turn.pass.now ++ (number turn.pass.now, entries.Backlog 1) ∷ []) }
    requires size { turn.state.size ≡ (opened_with turn.cell.now).size }
    ensures pass { IsPassOf turn.entry.cell.now turn.exit.1.0.now }
    ensures entered { HasEntered (entries.Backlog 1) turn.entry.pass.now turn.exit.1.0.now }
{
    turn.leave::<E>();
}

// Tells a backlog of one buffer in a turn of the reader.
fn tell_backlog<R: Wait>(rt: &R, cell: &TurnCell<InputChannel>, pass: &mut Pass<InputChannel>)
    requires { IsPassOf cell.now pass.old × (number pass.old ≡ 1) }
    ensures { IsPassOf cell.now pass.new × (number pass.new ≡ 1) }
{
    channels_stand_for_histories();
    let mut turn = cell.enter(rt, pass);
    turn.state().on_backlog(1);
    leave_backlog::<Brand>(turn);
}

// Adds a floating segment in a turn of the reader, where one is wanted.
fn add_one<R: Wait>(
    rt: &R,
    cell: &TurnCell<InputChannel>,
    pass: &mut Pass<InputChannel>,
    segment: Segment,
)
    requires pass { IsPassOf cell.now pass.old × (number pass.old ≡ 1) }
    requires size { length segment ≡ (opened_with cell.now).size }
    ensures { IsPassOf cell.now pass.new × (number pass.new ≡ 1) }
{
    channels_stand_for_histories();
    let mut turn = cell.enter(rt, pass);
    if turn.state().wants() == 0 {
        turn.leave_as_is();
        return;
    }
    turn.state().add_floating(segment);
    turn.leave::<Brand>();
}

// Ends the turn in which the end was accepted.
fn leave_end<E: Named<ReceiveEntry>>(turn: Turn<InputChannel>)
    requires entry { E.entry ≡ entries.Push parcels.End 0 }
    requires turn { IsTurnOf turn.cell.now turn.pass.now }
    requires state { ChannelStandsFor turn.state (seen turn.pass.now ++ (number turn.pass.now, entries.Push parcels.End 0) ∷ []) }
    requires size { turn.state.size ≡ (opened_with turn.cell.now).size }
    ensures pass { IsPassOf turn.entry.cell.now turn.exit.1.0.now }
    ensures entered { HasEntered (entries.Push parcels.End 0) turn.entry.pass.now turn.exit.1.0.now }
{
    turn.leave::<E>();
}

// Brings the end in a turn of the reader.
fn end_one<R: Wait>(rt: &R, cell: &TurnCell<InputChannel>, pass: &mut Pass<InputChannel>)
    requires { IsPassOf cell.now pass.old × (number pass.old ≡ 1) }
{
    channels_stand_for_histories();
    answers_tell();
    let mut turn = cell.enter(rt, pass);
    let a = Arrival {
        sequence: 0,
        backlog: 0,
        what: ArrivalKind::End,
    };
    match turn.state().accept(a, &[]) {
        Ok(()) => leave_end::<Brand>(turn),
        Err(_) => turn.leave_as_is(),
    }
}

const FIRST: ChannelId = ChannelId {
    edge: 0,
    from: 0,
    to: 0,
};

const SECOND: ChannelId = ChannelId {
    edge: 0,
    from: 1,
    to: 0,
};

// What the loop wrote, why it ended and what the stop cell tells then.
#[derive(Drop)]
struct Ran {
    out: SlowOut,
    cause: Cause,
    told: Option<Cause>,
}

// Runs the loop for these channels, after a fault was met elsewhere or none was.
fn run_with<R: Wait + Abort>(
    rt: &R,
    alloc: Global,
    out: SlowOut,
    met: Option<Cause>,
    channels: &[ChannelId],
    inputs: &[TurnCell<InputChannel>],
    passes: ListOf<Pass<InputChannel>>,
) -> Result<Ran, Fail>
    requires unfinished { out.finished ≡ false }
    requires channels { AreDistinct channels.now × (length inputs.now ≡ length channels.now) }
    requires own { AreOwn 2 inputs.now passes.items }
    requires met { IfSome met (λ cause. is_fault cause ≡ true) }
{
    let Ok((readers, _)) = TurnCell::new(alloc, ReaderState::new(alloc, channels)?, 1) else {
        panic!(rt; "no readers")
    };
    let (stop, own, mut other) = open_stop(alloc)?;
    if let Some(cause) = met {
        tell_stop(rt, &stop, &mut other, cause);
    }
    let share = ConnShare {
        channels,
        size: 64,
        readers: &readers,
        subpartitions: &[],
        inputs,
        pools: &[],
        stop: &stop,
        passes: SharePasses {
            readers: None,
            subpartitions: ListOf::new(alloc),
            inputs: passes,
            pools: ListOf::new(alloc),
            stop: own,
        },
    };
    let LoopEnd {
        half,
        passes: _passes,
        cause,
    } = send_control(rt, alloc, out, share);
    Ok(Ran {
        out: half,
        cause,
        told: look_for_stop(rt, &stop, &mut other),
    })
}

// Runs the loop for two channels that have ended, of which the first has one credit to tell.
fn run<R: Wait + Abort>(
    rt: &R,
    alloc: Global,
    out: SlowOut,
    met: Option<Cause>,
) -> Result<Ran, Fail>
    requires unfinished { out.finished ≡ false }
    requires met { IfSome met (λ cause. is_fault cause ≡ true) }
{
    let (pool, _places, mut place) = open_pool(alloc, 5)?;
    let (first, mut first_reader, first_writer) = open_channel(rt, alloc, &pool, &mut place);
    let (second, mut second_reader, second_writer) = open_channel(rt, alloc, &pool, &mut place);
    let floating = claim(rt, &pool, &mut place);
    tell_backlog(rt, &first, &mut first_reader);
    add_one(rt, &first, &mut first_reader, floating);
    end_one(rt, &first, &mut first_reader);
    end_one(rt, &second, &mut second_reader);
    let passes = list_of_two(alloc, first_writer, second_writer)?;
    run_with(
        rt,
        alloc,
        out,
        met,
        &[FIRST, SECOND],
        &[first, second],
        passes,
    )
}

const REQUEST: u8 = 2;

const CREDIT: u8 = 6;

// A frame with a number: its id, the index of the channel's sending task, and the number.
type Numbered = (u8, u32, u32);

const REQUESTS: [Numbered; 2] = [(REQUEST, 0, 2), (REQUEST, 1, 2)];

const ALL: [Numbered; 3] = [(REQUEST, 0, 2), (REQUEST, 1, 2), (CREDIT, 0, 1)];

fn spell(alloc: Global, frames: &[Numbered], end: &[u8]) -> Result<Vec<u8>, AllocError> {
    let mut bytes = Vec::new(alloc);
    for (id, from, number) in frames {
        bytes.extend_from_slice(&[0, 0, 0, 29, 0xBA, 0xDC, 0x0F, 0xFE, *id])?;
        bytes.extend_from_slice(&[0; 4])?;
        bytes.extend_from_slice(&from.to_be_bytes())?;
        bytes.extend_from_slice(&[0; 8])?;
        bytes.extend_from_slice(&number.to_be_bytes())?;
    }
    bytes.extend_from_slice(end)?;
    Ok(bytes)
}

#[test]
fn requests_and_credit_come_before_the_closing_frame(rt: HostRuntime) -> Result<(), Fail> {
    for most in [1, 7, 100, 60_000] {
        let ran = run(&rt, rt.alloc(), link(rt.alloc(), most, u64::MAX), None)?;
        assert_eq!(rt; ran.cause, Cause::Done);
        assert_eq!(rt; ran.told, None);
        assert!(rt; ran.out.finished);
        let want = spell(rt.alloc(), &ALL, &CLOSING)?;
        assert_eq!(rt; ran.out.bytes.as_slice(), want.as_slice());
    }
    Ok(())
}

#[test]
fn a_fault_elsewhere_stops_the_loop(rt: HostRuntime) -> Result<(), Fail> {
    let out = link(rt.alloc(), 100, u64::MAX);
    let ran = run(&rt, rt.alloc(), out, Some(Cause::Memory))?;
    assert_eq!(rt; ran.cause, Cause::Stopped);
    assert_eq!(rt; ran.told, Some(Cause::Memory));
    assert!(rt; ran.out.finished);
    let want = spell(rt.alloc(), &REQUESTS, &CLOSING)?;
    assert_eq!(rt; ran.out.bytes.as_slice(), want.as_slice());
    Ok(())
}

#[test]
fn a_failed_write_ends_the_loop(rt: HostRuntime) -> Result<(), Fail> {
    // The requests go out in one write, the credit in the next, and then the closing frame.
    let cases: [(u64, &[Numbered]); 3] = [(1, &[]), (2, &REQUESTS), (3, &ALL)];
    for (fails_from, frames) in cases {
        let ran = run(&rt, rt.alloc(), link(rt.alloc(), 100, fails_from), None)?;
        assert_eq!(rt; ran.cause, Cause::Link);
        assert_eq!(rt; ran.told, Some(Cause::Link));
        assert!(rt; ran.out.finished);
        let want = spell(rt.alloc(), frames, &[])?;
        assert_eq!(rt; ran.out.bytes.as_slice(), want.as_slice());
        assert_eq!(rt; ran.out.writes, fails_from);
    }
    Ok(())
}
