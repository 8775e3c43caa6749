// The loop over links in memory: what it gives to the readers and the subpartitions, and why it ends.
ghost use Rattle.std.specs.Prelude.{◌≡◌, IfSome, true};
ghost use Rattle.turn_cell.specs.Passes.{IsPassOf, opened_with, number};
ghost use Rattle.outside.specs.Stops.{is_fault};

use crate::slow_links::{CLOSING, SlowIn};
use conn_parts::{ConnShare, LoopEnd, SharePasses};
use conn_read_control::read_control;
use fixtures::{deal, list_of_one, open_readers, open_stop};
use flow_defs::{Cause, ChannelId, Head, ListOf, PeerFault};
use outside::{look_for_stop, tell_stop};
use reader_state::{next_to_send, tell_ready};
use std::alloc::{AllocError, Global};
use std::process::Abort;
use std::sync::Wait;
use std::test::Fail;
use subpartition::Subpartition;
use subpartition::laws::calls_add_entries;
use turn_cell::{Pass, TurnCell};

// A frame with a number: its id, the index of the channel's sending task, and the number. A resumption
// has none.
type Numbered = (u8, u32, u32);

const REQUEST: u8 = 2;

const CREDIT: u8 = 6;

const RESUMPTION: u8 = 7;

const BACKLOG: u8 = 9;

const SIZE: u8 = 10;

const CREDIT_MAX: u32 = 2_147_483_647;

fn lay(bytes: &mut Vec<u8>, frame: Numbered) -> Result<(), AllocError> {
    let (id, from, number) = frame;
    let len = if id == RESUMPTION { 25 } else { 29 };
    bytes.extend_from_slice(&[0, 0, 0, len, 0xBA, 0xDC, 0x0F, 0xFE, id])?;
    bytes.extend_from_slice(&[0; 4])?;
    bytes.extend_from_slice(&from.to_be_bytes())?;
    bytes.extend_from_slice(&[0; 8])?;
    if id != RESUMPTION {
        bytes.extend_from_slice(&number.to_be_bytes())?;
    }
    Ok(())
}

fn link(alloc: Global, frames: &[Numbered], end: &[u8]) -> Result<SlowIn, AllocError> {
    let mut bytes = Vec::new(alloc);
    for frame in frames {
        lay(&mut bytes, *frame)?;
    }
    bytes.extend_from_slice(end)?;
    Ok(SlowIn::new(bytes, 20))
}

// The one channel of the connection.
const CHANNEL: ChannelId = ChannelId {
    edge: 0,
    from: 0,
    to: 0,
};

// A subpartition for segments of 128 bytes, with the passes of the sender and of the reader of control
// frames.
fn open_subpartition<R: Abort>(
    rt: &R,
    alloc: Global,
) -> (
    TurnCell<Subpartition>,
    Pass<Subpartition>,
    Pass<Subpartition>,
)
    ensures size { (opened_with result.0).size ≡ 128 }
    ensures sender { IsPassOf result.0 result.1 }
    ensures reader { IsPassOf result.0 result.2 × (number result.2 ≡ 2) }
{
    calls_add_entries();
    let Ok(queue) = Subpartition::new(alloc, 128, 4) else {
        panic!(rt; "no subpartition")
    };
    let Ok((cell, mut passes)) = TurnCell::new(alloc, queue, 3) else {
        panic!(rt; "no cell of a subpartition")
    };
    let reader = deal(&cell, &mut passes);
    let sender = deal(&cell, &mut passes);
    (cell, sender, reader)
}

// Up to how many bytes buffers are filled.
fn fill_size<R: Wait>(rt: &R, cell: &TurnCell<Subpartition>, pass: &mut Pass<Subpartition>) -> u32
    requires { IsPassOf cell.now pass.old }
{
    let mut turn = cell.enter(rt, pass);
    let size = turn.state().fill_size();
    turn.leave_as_is();
    size
}

// Why the loop ended, what the stop cell tells then, whether a buffer may be sent, and up to how many
// bytes buffers are filled.
#[derive(Clone, Copy)]
struct Ran {
    cause: Cause,
    told: Option<Cause>,
    sends: bool,
    fill: u32,
}

// Runs the loop for a connection of one channel, on which a buffer waits. Before that a fault was met
// elsewhere, or none was.
fn run<R: Wait + Abort>(
    rt: &R,
    alloc: Global,
    input: SlowIn,
    met: Option<Cause>,
) -> Result<Ran, Fail>
    requires { IfSome met (λ cause. is_fault cause ≡ true) }
{
    let channels = [CHANNEL];
    let (readers, mut writer, control) = open_readers(alloc, &channels)?;
    let (subpartition, mut sender, sizes) = open_subpartition(rt, alloc);
    let (stop, own, mut other) = open_stop(alloc)?;
    if let Some(cause) = met {
        tell_stop(rt, &stop, &mut other, cause);
    }
    tell_ready(rt, &readers, &mut writer, CHANNEL, Head::Buffer, 1);
    let size_passes = list_of_one(alloc, sizes)?;
    let subpartitions = [subpartition];
    let share = ConnShare {
        channels: &channels,
        size: 128,
        readers: &readers,
        subpartitions: &subpartitions,
        inputs: &[],
        pools: &[],
        stop: &stop,
        passes: SharePasses {
            readers: Some(control),
            subpartitions: size_passes,
            inputs: ListOf::new(alloc),
            pools: ListOf::new(alloc),
            stop: own,
        },
    };
    let LoopEnd {
        half: _half,
        passes: _passes,
        cause,
    } = read_control(rt, alloc, input, share);
    Ok(Ran {
        cause,
        told: look_for_stop(rt, &stop, &mut other),
        sends: next_to_send(rt, &readers, &mut writer).is_some(),
        fill: fill_size(rt, &subpartitions[0], &mut sender),
    })
}

#[test]
fn credit_and_sizes_come_through(rt: HostRuntime) -> Result<(), Fail> {
    let frames = [
        (REQUEST, 0, 0),
        (SIZE, 0, 64),
        (CREDIT, 0, CREDIT_MAX),
        // This one is more than fits. It is kept.
        (CREDIT, 0, CREDIT_MAX),
        // So is a resumption of a channel that isn't blocked.
        (RESUMPTION, 0, 0),
        (SIZE, 0, 100),
    ];
    let ran = run(&rt, rt.alloc(), link(rt.alloc(), &frames, &CLOSING)?, None)?;
    assert_eq!(rt; ran.cause, Cause::Done);
    assert_eq!(rt; ran.told, None);
    assert!(rt; ran.sends);
    assert_eq!(rt; ran.fill, 100);
    Ok(())
}

#[test]
fn a_loop_ends_for_its_cause(rt: HostRuntime) -> Result<(), Fail> {
    let asked = (REQUEST, 0, 2);
    let cases: [(&[Numbered], &[u8], Option<PeerFault>); 11] = [
        (&[], &CLOSING, None),
        (&[asked], &[], Some(PeerFault::Cut)),
        (&[asked], &CLOSING[..8], Some(PeerFault::Cut)),
        (&[asked], &[0, 0, 0, 8], Some(PeerFault::BadFrame)),
        (
            &[asked, (BACKLOG, 0, 1)],
            &CLOSING,
            Some(PeerFault::BadFrame),
        ),
        (&[asked, asked], &CLOSING, Some(PeerFault::Channel)),
        (&[(CREDIT, 0, 1)], &CLOSING, Some(PeerFault::Channel)),
        (&[(RESUMPTION, 0, 0)], &CLOSING, Some(PeerFault::Channel)),
        (&[(REQUEST, 1, 2)], &CLOSING, Some(PeerFault::Channel)),
        (&[(SIZE, 1, 64)], &CLOSING, Some(PeerFault::Channel)),
        (&[asked, (SIZE, 0, 129)], &CLOSING, Some(PeerFault::Size)),
    ];
    for (frames, end, fault) in cases {
        let ran = run(&rt, rt.alloc(), link(rt.alloc(), frames, end)?, None)?;
        let told = fault.map(|fault| Cause::Peer { fault });
        assert_eq!(rt; ran.cause, told.unwrap_or(Cause::Done));
        assert_eq!(rt; ran.told, told);
        assert_eq!(rt; ran.fill, 128);
    }
    Ok(())
}

#[test]
fn a_failed_read_ends_the_loop(rt: HostRuntime) -> Result<(), Fail> {
    let mut input = link(rt.alloc(), &[(REQUEST, 0, 2)], &[])?;
    input.fails_from = 3;
    let ran = run(&rt, rt.alloc(), input, None)?;
    assert_eq!(rt; ran.cause, Cause::Link);
    assert_eq!(rt; ran.told, Some(Cause::Link));
    assert!(rt; ran.sends);
    Ok(())
}

#[test]
fn a_fault_elsewhere_stops_the_loop(rt: HostRuntime) -> Result<(), Fail> {
    let input = link(rt.alloc(), &[(REQUEST, 0, 2)], &CLOSING)?;
    let ran = run(&rt, rt.alloc(), input, Some(Cause::Memory))?;
    assert_eq!(rt; ran.cause, Cause::Stopped);
    assert_eq!(rt; ran.told, Some(Cause::Memory));
    assert!(rt; !ran.sends);
    Ok(())
}
