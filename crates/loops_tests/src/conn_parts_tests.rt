// Bytes that are written and read back over a link in memory, and segments that are asked for and given.
ghost use Rattle.std.specs.Prelude.{◌≡◌, ◌<◌, length, false};
ghost use Rattle.conn_parts.specs.Shares.{AreOf, HavePoolSize};

use crate::slow_links::{SlowIn, SlowOut};
use conn_parts::{Incoming, Outgoing, close_link, drain, give_segment, place_of, request_segment};
use fixtures::{list_of_two, open_local, open_pool_for_two};
use flow_defs::{ChannelId, ListOf};
use local_pool::HeldPool;
use net_frames::{ArrivalKind2, Frame, FrameFault, decode};
use outside::Failed;
use std::alloc::Global;
use std::process::Abort;
use std::sync::Wait;
use std::test::Fail;
use turn_cell::{Pass, TurnCell};

const CHANNEL: ChannelId = ChannelId {
    edge: 3,
    from: 1,
    to: 2,
};

// How many large frames are sent: more bytes than the buffers have room for.
const MANY: u8 = 40;

fn send<R: Wait>(rt: &R, alloc: Global, out: &mut SlowOut) -> Result<(), Fail>
    requires { out.old.finished ≡ false }
{
    let mut outgoing = Outgoing::new(alloc)?;
    for sequence in 0..MANY {
        if !outgoing.has_room() {
            outgoing.write_to(rt, out)?;
        }
        let frame = Frame::BufferResponse {
            channel: CHANNEL,
            sequence: u32::from(sequence),
            backlog: 1,
            what: ArrivalKind2::Buffer,
        };
        outgoing.put(&frame, &[sequence; 4000]);
    }
    outgoing.write_to(rt, out)?;
    close_link(rt, out)?;
    Ok(())
}

// How many large frames came before the closing one.
fn receive<R: Wait + Abort>(rt: &R, alloc: Global, input: &mut SlowIn) -> Result<u8, Fail> {
    let mut incoming = Incoming::new(alloc)?;
    let mut next: u8 = 0;
    for _ in rt.forever() {
        match decode(incoming.bytes()) {
            Ok(found) => {
                let content = &incoming.bytes()[found.content.from..found.content.from
                    + found.content.len];
                match found.frame {
                    Frame::BufferResponse { sequence, .. } => {
                        assert_eq!(rt; sequence, u32::from(next));
                        assert_eq!(rt; content, [next; 4000].as_slice());
                        next = next.saturating_add(1);
                    }
                    Frame::Close => break,
                    _ => Err("another frame")?,
                }
                incoming.consume(found.used);
            }
            Err(fault) => {
                assert_eq!(rt; fault, FrameFault::NeedMore);
                let count = incoming.read_from(rt, input)?;
                assert!(rt; count > 0);
            }
        }
    }
    incoming.consume(9);
    assert_eq!(rt; incoming.bytes().len(), 0);
    assert_eq!(rt; incoming.read_from(rt, input)?, 0);
    Ok(next)
}

#[test]
fn what_is_written_is_read_again(rt: HostRuntime) -> Result<(), Fail> {
    for most in [1, 7, 100, 60_000] {
        let mut out = SlowOut {
            bytes: Vec::new(rt.alloc()),
            most,
            fails_from: u64::MAX,
            writes: 0,
            faults: 0,
            finished: false,
        };
        send(&rt, rt.alloc(), &mut out)?;
        assert!(rt; out.finished);
        let SlowOut { bytes, .. } = out;
        let mut input = SlowIn::new(bytes, most);
        assert_eq!(rt; receive(&rt, rt.alloc(), &mut input)?, MANY);
        assert!(rt; input.ended);
    }
    Ok(())
}

#[test]
fn a_link_is_finished_though_a_write_failed(rt: HostRuntime) -> Result<(), Fail> {
    let mut out = SlowOut {
        bytes: Vec::new(rt.alloc()),
        most: 7,
        fails_from: 2,
        writes: 0,
        faults: 0,
        finished: false,
    };
    let mut outgoing = Outgoing::new(rt.alloc())?;
    outgoing.put(&Frame::ResumeConsumption { channel: CHANNEL }, &[]);
    assert_eq!(rt; outgoing.write_to(&rt, &mut out), Err(Failed));
    assert_eq!(rt; close_link(&rt, &mut out), Err(Failed));
    assert!(rt; out.finished);
    assert_eq!(rt;
        out.bytes.as_slice(),
        [0, 0, 0, 25, 0xBA, 0xDC, 0x0F].as_slice()
    );
    assert_eq!(rt; out.faults, 2);
    Ok(())
}

#[test]
fn the_rest_is_dropped(rt: HostRuntime) -> Result<(), Fail> {
    let mut input = SlowIn::new(vec![in rt.alloc(); 5; 10_000]?, 4_000);
    drain(&rt, &mut input);
    assert!(rt; input.ended);
    assert_eq!(rt; input.at, 10_000);
    Ok(())
}

#[test]
fn a_channel_has_a_place(rt: HostRuntime) {
    let other = ChannelId { edge: 4, ..CHANNEL };
    assert_eq!(rt; place_of(&[other, CHANNEL], CHANNEL), Some(1));
    assert_eq!(rt; place_of(&[other], CHANNEL), None);
}

fn ask_and_give<'p, R: Wait + Abort>(
    rt: &R,
    cells: &[TurnCell<HeldPool<'p>>],
    passes: &mut ListOf<Pass<HeldPool<'p>>>,
)
    requires passes { AreOf cells.now passes.old.items }
    requires two { 1 < length cells.now }
    requires sizes { HavePoolSize 64 cells.now }
{
    let Some(first) = request_segment(rt, cells, passes, 0) else {
        panic!(rt; "a segment was kept")
    };
    assert!(rt; request_segment(rt, cells, passes, 0).is_none());
    let Some(second) = request_segment(rt, cells, passes, 1) else {
        panic!(rt; "a segment was kept")
    };
    give_segment(rt, cells, passes, 0, second);
    // Nothing is lent there any more.
    give_segment(rt, cells, passes, 0, first);
    assert!(rt; request_segment(rt, cells, passes, 0).is_some());
    assert!(rt; request_segment(rt, cells, passes, 1).is_none());
}

#[test]
fn a_segment_goes_back_to_the_pool_at_its_place(rt: HostRuntime) -> Result<(), Fail> {
    let (pool, first, second) = open_pool_for_two(rt.alloc(), 2)?;
    let (first_cell, first_pass) = open_local(&rt, rt.alloc(), &pool, first, 1)?;
    let (second_cell, second_pass) = open_local(&rt, rt.alloc(), &pool, second, 1)?;
    let mut passes = list_of_two(rt.alloc(), first_pass, second_pass)?;
    ask_and_give(&rt, &[first_cell, second_cell], &mut passes);
    Ok(())
}
