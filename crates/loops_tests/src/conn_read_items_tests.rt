// The loop over links in memory: what it gives to a channel, and why it ends.
ghost use Rattle.std.specs.Prelude.{◌≡◌, ◌<◌, ◌++◌, [], ◌∷◌, length, All, IfSome, true, false};
ghost use Rattle.turn_cell.specs.Passes.{IsPassOf, IsTurnOf, HasEntered, opened_with, number, seen};
ghost use Rattle.segment_pool.specs.Pools as pools;
ghost use Rattle.segment_pool.specs.Pools.{limits_of, size_of};
ghost use Rattle.input_channel.specs.declared.entry.ReceiveEntry.TheVariants as entries;
ghost use Rattle.input_channel.specs.Answers.{gave_of};
ghost use Rattle.input_channel.specs.States.{ChannelState, ChannelStandsFor};
ghost use Rattle.credit_reader.specs.Senders.{AreDistinct};
ghost use Rattle.outside.specs.Stops.{is_fault};
ghost use Rattle.conn_parts.specs.Shares.{AreOf, AreOwn, HavePoolSize};
ghost use Rattle.conn_read_items.specs.Receiving.{MayReadItems};

use crate::slow_links::{CLOSING, SlowIn};
use conn_parts::{ConnShare, LoopEnd, SharePasses};
use conn_read_items::read_items;
use fixtures::{deal, list_of_one, open_local, open_pool_for_two, open_stop};
use flow_defs::{BarrierKind, Cause, ChannelId, ListOf, PeerFault};
use input_channel::laws::{answers_tell, channels_stand_for_histories};
use input_channel::{InputChannel, Polled, ReceiveEntry};
use local_pool::HeldPool;
use outside::{StopState, look_for_stop, tell_stop};
use reader_state::ReaderState;
use segment_pool::{Pool, PoolPass};
use std::alloc::{AllocError, Global};
use std::marker::Brand;
use std::process::Abort;
use std::sync::Wait;
use std::test::Fail;
use turn_cell::{Named, Pass, Turn, TurnCell};

// A buffer response: the index of the channel's sending task, the sequence number, the kind of what
// arrives, and the bytes behind the head. Its backlog is one buffer.
type Response = (u32, u32, u8, &'static [u8]);

const BUFFER: u8 = 0;

const INLINE: u8 = 1;

const FRONT: u8 = 2;

const END: u8 = 3;

// A backlog announcement of 3 buffers, an error response and a frame of the receiver's end that adds one
// credit, each of the one channel.
const BACKLOG: [u8; 29] = [
    0, 0, 0, 29, 0xBA, 0xDC, 0x0F, 0xFE, 9, 0, 0, 0, 0, 0, 0, 0, 0, 0, 0, 0, 0, 0, 0, 0, 0, 0, 0,
    0, 3,
];

const REFUSAL: [u8; 26] = [
    0, 0, 0, 26, 0xBA, 0xDC, 0x0F, 0xFE, 1, 0, 0, 0, 0, 0, 0, 0, 0, 0, 0, 0, 0, 0, 0, 0, 0, 1,
];

const CREDIT: [u8; 29] = [
    0, 0, 0, 29, 0xBA, 0xDC, 0x0F, 0xFE, 6, 0, 0, 0, 0, 0, 0, 0, 0, 0, 0, 0, 0, 0, 0, 0, 0, 0, 0,
    0, 1,
];

// A backlog announcement of a channel that there isn't, and a closing frame with bytes behind it.
const FAR_BACKLOG: [u8; 29] = [
    0, 0, 0, 29, 0xBA, 0xDC, 0x0F, 0xFE, 9, 0, 0, 0, 0, 0, 0, 0, 1, 0, 0, 0, 0, 0, 0, 0, 0, 0, 0,
    0, 3,
];

const CLOSING_AND_MORE: [u8; 11] = [0, 0, 0, 9, 0xBA, 0xDC, 0x0F, 0xFE, 5, 0, 0];

fn lay(bytes: &mut Vec<u8>, response: &Response) -> Result<(), AllocError> {
    let (from, sequence, kind, content) = *response;
    let len = u32::try_from(content.len()).unwrap_or(u32::MAX);
    bytes.extend_from_slice(&len.saturating_add(39).to_be_bytes())?;
    bytes.extend_from_slice(&[0xBA, 0xDC, 0x0F, 0xFE, 0])?;
    bytes.extend_from_slice(&[0; 4])?;
    bytes.extend_from_slice(&from.to_be_bytes())?;
    bytes.extend_from_slice(&[0; 8])?;
    bytes.extend_from_slice(&sequence.to_be_bytes())?;
    bytes.extend_from_slice(&[0, 0, 0, 1, kind, 0])?;
    bytes.extend_from_slice(&len.to_be_bytes())?;
    bytes.extend_from_slice(content)
}

// A link of these responses and then these bytes.
fn link(alloc: Global, responses: &[Response], end: &[u8]) -> Result<SlowIn, AllocError> {
    let mut bytes = Vec::new(alloc);
    for response in responses {
        lay(&mut bytes, response)?;
    }
    bytes.extend_from_slice(end)?;
    Ok(SlowIn::new(bytes, 100))
}

// An input channel in a cell, with the passes of the gate, of the reader of frames and of the writer of
// control frames.
#[derive(Drop)]
struct Inbox {
    cell: TurnCell<InputChannel>,
    gate: Pass<InputChannel>,
    reader: Pass<InputChannel>,
    writer: Pass<InputChannel>,
}

// A channel with room for 5 buffers, whose two segments come from the pool.
fn open_inbox<R: Wait + Abort>(rt: &R, alloc: Global, pool: &Pool, pass: PoolPass) -> Inbox
    requires { pools.IsPassOf pool.now pass × (limits_of pool.now ≡ []) }
    ensures size { (opened_with result.cell).size ≡ size_of pool.now }
    ensures gate { IsPassOf result.cell result.gate × (number result.gate ≡ 0) }
    ensures reader { IsPassOf result.cell result.reader × (number result.reader ≡ 1) }
    ensures writer { IsPassOf result.cell result.writer × (number result.writer ≡ 2) }
{
    channels_stand_for_histories();
    let mut pass = pass;
    let first = pool.claim(rt, &mut pass).expect(rt, "a segment is free");
    let second = pool.claim(rt, &mut pass).expect(rt, "a segment is free");
    let Ok(channel) = InputChannel::new(alloc, first, second, 5) else {
        panic!(rt; "no channel")
    };
    let Ok((cell, mut passes)) = TurnCell::new(alloc, channel, 3) else {
        panic!(rt; "no cell of a channel")
    };
    let writer = deal(&cell, &mut passes);
    let reader = deal(&cell, &mut passes);
    let gate = deal(&cell, &mut passes);
    Inbox {
        cell,
        gate,
        reader,
        writer,
    }
}

// What a poll gave: of a buffer its first byte and how many there are.
#[derive(Clone, Copy, Debug, PartialEq, Eq)]
enum Seen {
    Data(u8, u32),
    Barrier(u64, BarrierKind),
    End,
    Nothing,
}

fn see(polled: Polled) -> Seen {
    match polled {
        Polled::Buffer(buf) => Seen::Data(
            buf.segment.bytes().first().copied().unwrap_or(0),
            buf.len,
        ),
        Polled::Barrier { k, kind } => Seen::Barrier(k, kind),
        Polled::End => Seen::End,
        Polled::Empty => Seen::Nothing,
        Polled::Held => Seen::Nothing,
    }
}

// Ends the turn in which a poll gave this.
fn leave_poll<E: Named<ReceiveEntry>>(turn: Turn<InputChannel>, polled: &Polled)
    requires entry { E.entry ≡ entries.Poll false (gave_of polled.now) }
    requires turn { IsTurnOf turn.cell.now turn.pass.now }
    requires state { ChannelStandsFor turn.state (seen turn.pass.now ++ (number turn.pass.now, entries.Poll false (gave_of polled.now)) ∷ []) }
    requires size { turn.state.size ≡ (opened_with turn.cell.now).size }
    ensures pass { IsPassOf turn.entry.cell.now turn.exit.1.0.now }
    ensures entered { HasEntered (entries.Poll false (gave_of polled.now)) turn.entry.pass.now turn.exit.1.0.now }
{
    // Only the clauses speak of it.
    let _polled = polled;
    turn.leave::<E>();
}

// Polls in a turn of the gate.
fn poll_one<R: Wait>(
    rt: &R,
    cell: &TurnCell<InputChannel>,
    pass: &mut Pass<InputChannel>,
) -> Result<Seen, AllocError>
    requires { IsPassOf cell.now pass.old × (number pass.old ≡ 0) }
    ensures { IsPassOf cell.now pass.new × (number pass.new ≡ 0) }
{
    channels_stand_for_histories();
    answers_tell();
    let mut turn = cell.enter(rt, pass);
    match turn.state().poll(false) {
        Ok(polled) => {
            leave_poll::<Brand>(turn, &polled);
            Ok(see(polled))
        }
        Err(want) => {
            turn.leave_as_is();
            Err(want)
        }
    }
}

fn poll_five<R: Wait>(
    rt: &R,
    cell: &TurnCell<InputChannel>,
    pass: &mut Pass<InputChannel>,
) -> Result<[Seen; 5], AllocError>
    requires { IsPassOf cell.now pass.old × (number pass.old ≡ 0) }
{
    let first = poll_one(rt, cell, pass)?;
    let second = poll_one(rt, cell, pass)?;
    let third = poll_one(rt, cell, pass)?;
    let fourth = poll_one(rt, cell, pass)?;
    let fifth = poll_one(rt, cell, pass)?;
    Ok([first, second, third, fourth, fifth])
}

// How many floating segments the channel wants still.
fn wanted<R: Wait>(rt: &R, cell: &TurnCell<InputChannel>, pass: &mut Pass<InputChannel>) -> u32
    requires { IsPassOf cell.now pass.old × (number pass.old ≡ 0) }
    ensures { IsPassOf cell.now pass.new × (number pass.new ≡ 0) }
{
    let mut turn = cell.enter(rt, pass);
    let wanted = turn.state().wants();
    turn.leave_as_is();
    wanted
}

// Ends the turn in which so much credit was taken.
fn leave_credit<E: Named<ReceiveEntry>>(turn: Turn<InputChannel>, credit: u32)
    requires entry { E.entry ≡ entries.Credit credit }
    requires turn { IsTurnOf turn.cell.now turn.pass.now }
    requires state { ChannelStandsFor turn.state (seen turn.pass.now ++ (number turn.pass.now, entries.Credit credit) ∷ []) }
    requires size { turn.state.size ≡ (opened_with turn.cell.now).size }
    ensures pass { IsPassOf turn.entry.cell.now turn.exit.1.0.now }
    ensures entered { HasEntered (entries.Credit credit) turn.entry.pass.now turn.exit.1.0.now }
{
    turn.leave::<E>();
}

// The credit that the channel has to tell, taken in a turn of the writer.
fn take_credit<R: Wait>(rt: &R, cell: &TurnCell<InputChannel>, pass: &mut Pass<InputChannel>) -> u32
    requires { IsPassOf cell.now pass.old × (number pass.old ≡ 2) }
{
    channels_stand_for_histories();
    let mut turn = cell.enter(rt, pass);
    let credit = turn.state().take_credit();
    leave_credit::<Brand>(turn, credit);
    credit
}

// The one channel of the connection.
const CHANNEL: ChannelId = ChannelId {
    edge: 0,
    from: 0,
    to: 0,
};

// The link after the loop, why the loop ended, and what the stop cell tells then.
#[derive(Drop)]
struct Ended {
    half: SlowIn,
    cause: Cause,
    told: Option<Cause>,
}

// A channel and a local pool, each alone, and the passes that the loop has of them.
#[derive(Drop)]
struct Lent<'a, 'p> {
    inputs: &'a [TurnCell<InputChannel>],
    readers: ListOf<Pass<InputChannel>>,
    pools: &'a [TurnCell<HeldPool<'p>>],
    lenders: ListOf<Pass<HeldPool<'p>>>,
}

// That, with the cells of the readers and of the stop.
fn share_of<'a, 'p>(
    alloc: Global,
    channels: &'a [ChannelId],
    readers: &'a TurnCell<ReaderState>,
    lent: Lent<'a, 'p>,
    stop: &'a TurnCell<StopState>,
    own: Pass<StopState>,
) -> ConnShare<'a, 'p>
    requires channels { AreDistinct channels.now × (length lent.inputs.now ≡ length channels.now) }
    requires receivers { All (λ c. c.to < length lent.pools.now) channels.now }
    requires inputs { AreOwn 1 lent.inputs.now lent.readers.items }
    requires input_sizes { All (λ cell. (opened_with {S = ChannelState} cell).size ≡ 64) lent.inputs.now }
    requires pools { AreOf lent.pools.now lent.lenders.items }
    requires sizes { HavePoolSize 64 lent.pools.now }
    requires stop { IsPassOf stop.now own }
    ensures { MayReadItems result }
{
    ConnShare {
        channels,
        size: 64,
        readers,
        subpartitions: &[],
        inputs: lent.inputs,
        pools: lent.pools,
        stop,
        passes: SharePasses {
            readers: None,
            subpartitions: ListOf::new(alloc),
            inputs: lent.readers,
            pools: lent.lenders,
            stop: own,
        },
    }
}

// Runs the loop, after a fault was met elsewhere or none was.
fn run_with<'a, 'p, R: Wait + Abort>(
    rt: &R,
    alloc: Global,
    input: SlowIn,
    met: Option<Cause>,
    lent: Lent<'a, 'p>,
) -> Result<Ended, Fail>
    requires one { (length lent.inputs.now ≡ 1) × (length lent.pools.now ≡ 1) }
    requires inputs { AreOwn 1 lent.inputs.now lent.readers.items }
    requires input_sizes { All (λ cell. (opened_with {S = ChannelState} cell).size ≡ 64) lent.inputs.now }
    requires pools { AreOf lent.pools.now lent.lenders.items }
    requires sizes { HavePoolSize 64 lent.pools.now }
    requires met { IfSome met (λ cause. is_fault cause ≡ true) }
{
    let channels = [CHANNEL];
    let Ok((readers, _)) = TurnCell::new(alloc, ReaderState::new(alloc, &channels)?, 1) else {
        panic!(rt; "no readers")
    };
    let (stop, own, mut other) = open_stop(alloc)?;
    if let Some(cause) = met {
        tell_stop(rt, &stop, &mut other, cause);
    }
    let share = share_of(alloc, &channels, &readers, lent, &stop, own);
    let LoopEnd {
        half,
        passes: _passes,
        cause,
    } = read_items(rt, alloc, input, share);
    Ok(Ended {
        half,
        cause,
        told: look_for_stop(rt, &stop, &mut other),
    })
}

// How the loop ended, and then how many floating segments the channel wants still, how much credit it has
// to tell, and what five polls give.
#[derive(Drop)]
struct Ran {
    ended: Ended,
    wants: u32,
    credit: u32,
    seen: [Seen; 5],
}

// Runs the loop for a new channel with segments of 64 bytes, and a local pool of two.
fn run<R: Wait + Abort>(
    rt: &R,
    alloc: Global,
    input: SlowIn,
    met: Option<Cause>,
) -> Result<Ran, Fail>
    requires met { IfSome met (λ cause. is_fault cause ≡ true) }
{
    let (pool, first, second) = open_pool_for_two(alloc, 4)?;
    let Inbox {
        cell,
        gate,
        reader,
        writer,
    } = open_inbox(rt, alloc, &pool, first);
    let (mut gate, mut writer) = (gate, writer);
    let (local, lender) = open_local(rt, alloc, &pool, second, 2)?;
    let inputs = [cell];
    let pools = [local];
    let lent = Lent {
        inputs: &inputs,
        readers: list_of_one(alloc, reader)?,
        pools: &pools,
        lenders: list_of_one(alloc, lender)?,
    };
    let ended = run_with(rt, alloc, input, met, lent)?;
    let wants = wanted(rt, &inputs[0], &mut gate);
    let credit = take_credit(rt, &inputs[0], &mut writer);
    Ok(Ran {
        ended,
        wants,
        credit,
        seen: poll_five(rt, &inputs[0], &mut gate)?,
    })
}

// Runs it over a link that gives at most so many bytes in a read and does not fail.
fn run_link<R: Wait + Abort>(
    rt: &R,
    alloc: Global,
    responses: &[Response],
    end: &[u8],
    most: usize,
) -> Result<Ran, Fail> {
    let mut input = link(alloc, responses, end)?;
    input.most = most;
    run(rt, alloc, input, None)
}

const SEVEN: Response = (0, 0, BUFFER, b"seven");

const SEEN_SEVEN: Seen = Seen::Data(b's', 5);

#[test]
fn items_come_in_pieces_of_any_length(rt: HostRuntime) -> Result<(), Fail> {
    let responses = [
        SEVEN,
        (0, 1, FRONT, &[0, 0, 0, 0, 0, 0, 0, 1]),
        (0, 2, INLINE, &[0, 0, 0, 0, 0, 0, 0, 2]),
        (0, 3, BUFFER, b"up"),
        (0, 4, END, b""),
    ];
    let seen = [
        Seen::Barrier(1, BarrierKind::Front),
        SEEN_SEVEN,
        Seen::Barrier(2, BarrierKind::Inline),
        Seen::Data(b'u', 2),
        Seen::End,
    ];
    for most in [1, 7, 100, 60_000] {
        let ran = run_link(&rt, rt.alloc(), &responses, &CLOSING, most)?;
        assert_eq!(rt; ran.ended.cause, Cause::Done);
        assert_eq!(rt; ran.ended.told, None);
        assert_eq!(rt; ran.seen, seen);
    }
    Ok(())
}

fn peer(fault: PeerFault) -> Cause {
    Cause::Peer { fault }
}

#[test]
fn a_loop_ends_for_its_cause(rt: HostRuntime) -> Result<(), Fail> {
    let over_credit = Cause::OverCredit {
        channel: CHANNEL,
        received: 3,
        announced: 2,
    };
    // The responses and the bytes behind them, the cause, and what the channel gives behind the first buffer.
    let rows: [(&[Response], &[u8], Cause, Seen); 15] = [
        (&[SEVEN], &CLOSING, Cause::Done, Seen::Nothing),
        (&[SEVEN], &CLOSING_AND_MORE, Cause::Done, Seen::Nothing),
        (&[SEVEN], &[], peer(PeerFault::Cut), Seen::Nothing),
        (&[SEVEN], &CLOSING[..8], peer(PeerFault::Cut), Seen::Nothing),
        (
            &[SEVEN],
            &[0, 0, 0, 8],
            peer(PeerFault::BadFrame),
            Seen::Nothing,
        ),
        (&[SEVEN], &CREDIT, peer(PeerFault::BadFrame), Seen::Nothing),
        (
            &[SEVEN, (0, 1, 4, b"")],
            &CLOSING,
            peer(PeerFault::BadFrame),
            Seen::Nothing,
        ),
        (&[SEVEN], &REFUSAL, peer(PeerFault::Refused), Seen::Nothing),
        (
            &[SEVEN],
            &FAR_BACKLOG,
            peer(PeerFault::Channel),
            Seen::Nothing,
        ),
        (
            &[SEVEN, (1, 0, BUFFER, b"x")],
            &CLOSING,
            peer(PeerFault::Channel),
            Seen::Nothing,
        ),
        (
            &[SEVEN, (0, 2, BUFFER, b"x")],
            &CLOSING,
            peer(PeerFault::Sequence),
            Seen::Nothing,
        ),
        (
            &[SEVEN, (0, 1, END, b""), (0, 2, BUFFER, b"x")],
            &CLOSING,
            peer(PeerFault::AfterEnd),
            Seen::End,
        ),
        (
            &[SEVEN, (0, 1, BUFFER, &[7; 65])],
            &CLOSING,
            peer(PeerFault::Size),
            Seen::Nothing,
        ),
        (
            &[SEVEN, (0, 1, FRONT, &[0, 0, 0, 0, 0, 0, 0, 2])],
            &CLOSING,
            peer(PeerFault::Barrier),
            Seen::Nothing,
        ),
        (
            &[SEVEN, (0, 1, BUFFER, b"up"), (0, 2, BUFFER, b"x")],
            &CLOSING,
            over_credit,
            Seen::Data(b'u', 2),
        ),
    ];
    for (responses, end, cause, second) in rows {
        let told = if cause == Cause::Done {
            None
        } else {
            Some(cause)
        };
        // A channel that was shut has none to tell.
        let credit = if cause == over_credit { 0 } else { 2 };
        for most in [1, 60_000] {
            let ran = run_link(&rt, rt.alloc(), responses, end, most)?;
            assert_eq!(rt; ran.ended.cause, cause);
            assert_eq!(rt; ran.ended.told, told);
            assert_eq!(rt;
                ran.seen,
                [
                    SEEN_SEVEN,
                    second,
                    Seen::Nothing,
                    Seen::Nothing,
                    Seen::Nothing
                ]
            );
            assert_eq!(rt; ran.credit, credit, "at {cause:?}");
            // It has read to the end.
            assert!(rt; ran.ended.half.ended, "at {cause:?}");
        }
    }
    Ok(())
}

#[test]
fn floating_segments_are_asked_for(rt: HostRuntime) -> Result<(), Fail> {
    let mut input = link(rt.alloc(), &[], &BACKLOG)?;
    input.bytes.extend_from_slice(&CLOSING)?;
    let ran = run(&rt, rt.alloc(), input, None)?;
    assert_eq!(rt; ran.ended.cause, Cause::Done);
    // It wanted three, and its local pool lends two.
    assert_eq!(rt; ran.wants, 1);
    assert_eq!(rt; ran.credit, 2);
    Ok(())
}

#[test]
fn a_failed_read_ends_the_loop(rt: HostRuntime) -> Result<(), Fail> {
    for (fails_from, first) in [(1, Seen::Nothing), (2, SEEN_SEVEN)] {
        let mut input = link(rt.alloc(), &[SEVEN], &CLOSING)?;
        // The first read gives the buffer.
        input.most = 44;
        input.fails_from = fails_from;
        let ran = run(&rt, rt.alloc(), input, None)?;
        assert_eq!(rt; ran.ended.cause, Cause::Link);
        assert_eq!(rt; ran.ended.told, Some(Cause::Link));
        assert_eq!(rt; ran.ended.half.reads, fails_from);
        assert_eq!(rt; ran.seen[0], first);
        assert_eq!(rt; ran.seen[1], Seen::Nothing);
    }
    Ok(())
}

#[test]
fn a_fault_elsewhere_stops_the_loop(rt: HostRuntime) -> Result<(), Fail> {
    let input = link(rt.alloc(), &[SEVEN], &CLOSING)?;
    let ran = run(&rt, rt.alloc(), input, Some(Cause::Memory))?;
    assert_eq!(rt; ran.ended.cause, Cause::Stopped);
    assert_eq!(rt; ran.ended.told, Some(Cause::Memory));
    assert!(rt; ran.ended.half.ended);
    assert_eq!(rt; ran.seen, [Seen::Nothing; 5]);
    Ok(())
}
