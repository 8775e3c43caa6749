// Channels whose segments come from a pool: the rules of credit and of barriers, step by step.
ghost use Rattle.std.specs.Prelude.{◌≡◌, ◌+◌, ◌<◌};
ghost use Rattle.segment_pool.specs.Passes.{number, out};
ghost use Rattle.segment_pool.specs.Pools.{IsPassOf, size_of};

use crate::one_pass::{claim, close};
use fixtures::open_pool;
use flow_defs::{BarrierKind, ListOf};
use input_channel::laws::answers_tell;
use input_channel::{AcceptFault, Arrival, ArrivalKind, InputChannel, Polled};
use segment_pool::{Pool, PoolPass, Segment};
use std::alloc::{AllocError, Global};
use std::process::Abort;
use std::sync::Wait;
use std::test::Fail;

// What is done to a channel, and what it answers.
enum Step {
    // Something arrives: its sequence number, its backlog, its kind, how many bytes, and the answer.
    Arrives(u32, u32, ArrivalKind, usize, Result<(), AcceptFault>),
    // Data arrive over the credit, with this number, and the channel is shut.
    Shuts(u32),
    // A poll, and a buffer that it gives comes back, or an inline barrier is answered.
    Polls { hold: bool, seen: Seen },
    Backlog(u32),
    Wants(u32),
    Adds,
    Tells(u32),
    Resumes(bool),
    // A save is opened for a barrier, with this rest; and what was saved is asked for.
    Saves(u64, &'static [u8]),
    Saved(u64, Option<&'static [u8]>),
}

// What a poll gave. Of a buffer: how many bytes, and whether a segment goes to the pool.
#[derive(Clone, Copy, Debug, PartialEq, Eq)]
enum Seen {
    Data(u32, bool),
    Barrier(u64),
    End,
    Empty,
    Held,
}

const BUFFER: ArrivalKind = ArrivalKind::Buffer;

const INLINE: ArrivalKind = ArrivalKind::Barrier {
    k: 1,
    kind: BarrierKind::Inline,
};

const FRONT: ArrivalKind = ArrivalKind::Barrier {
    k: 2,
    kind: BarrierKind::Front,
};

// Each refusal, each where it is the first that applies.
static REFUSALS: [Step; 14] = [
    Step::Arrives(
        1,
        0,
        FRONT,
        0,
        Err(AcceptFault::WrongSequence { want: 0, got: 1 }),
    ),
    Step::Arrives(
        0,
        0,
        BUFFER,
        65,
        Err(AcceptFault::OverSize { got: 65, size: 64 }),
    ),
    Step::Arrives(
        0,
        0,
        FRONT,
        0,
        Err(AcceptFault::WrongBarrier { want: 1, got: 2 }),
    ),
    Step::Arrives(0, 0, BUFFER, 64, Ok(())),
    Step::Arrives(1, 0, BUFFER, 0, Ok(())),
    Step::Arrives(
        2,
        0,
        BUFFER,
        65,
        Err(AcceptFault::OverCredit {
            received: 3,
            announced: 2,
        }),
    ),
    Step::Shuts(2),
    Step::Arrives(2, 0, ArrivalKind::End, 0, Ok(())),
    Step::Arrives(3, 0, BUFFER, 1, Err(AcceptFault::AfterEnd)),
    Step::Polls {
        hold: true,
        seen: Seen::Data(64, false),
    },
    Step::Polls {
        hold: false,
        seen: Seen::Data(0, false),
    },
    Step::Tells(0),
    Step::Polls {
        hold: true,
        seen: Seen::End,
    },
    Step::Polls {
        hold: false,
        seen: Seen::Empty,
    },
];

// Floating buffers are asked for as the backlog says, and go when they are too many.
static CREDIT: [Step; 18] = [
    Step::Tells(0),
    Step::Backlog(3),
    Step::Wants(3),
    Step::Adds,
    Step::Adds,
    Step::Adds,
    Step::Wants(0),
    Step::Tells(3),
    Step::Tells(0),
    Step::Arrives(0, 2, BUFFER, 5, Ok(())),
    Step::Polls {
        hold: false,
        seen: Seen::Data(5, true),
    },
    Step::Arrives(1, 1, BUFFER, 5, Ok(())),
    Step::Arrives(2, 0, BUFFER, 5, Ok(())),
    Step::Arrives(3, 2, BUFFER, 6, Ok(())),
    Step::Wants(3),
    Step::Adds,
    Step::Polls {
        hold: false,
        seen: Seen::Data(5, true),
    },
    Step::Tells(1),
];

// An exclusive buffer comes back where more are free than are asked for, and a floating one goes.
static LETTING_GO: [Step; 7] = [
    Step::Arrives(0, 3, BUFFER, 5, Ok(())),
    Step::Adds,
    Step::Backlog(0),
    Step::Polls {
        hold: false,
        seen: Seen::Data(5, true),
    },
    Step::Tells(1),
    Step::Tells(0),
    Step::Wants(0),
];

// A front barrier comes before data, an inline one in line.
static BARRIERS: [Step; 11] = [
    Step::Arrives(0, 0, INLINE, 0, Ok(())),
    Step::Arrives(1, 0, BUFFER, 3, Ok(())),
    Step::Polls {
        hold: true,
        seen: Seen::Held,
    },
    Step::Resumes(false),
    Step::Polls {
        hold: false,
        seen: Seen::Barrier(1),
    },
    Step::Resumes(true),
    Step::Resumes(false),
    Step::Arrives(2, 0, FRONT, 0, Ok(())),
    Step::Polls {
        hold: false,
        seen: Seen::Barrier(2),
    },
    Step::Polls {
        hold: true,
        seen: Seen::Data(3, false),
    },
    Step::Tells(1),
];

// A save has the rest, and the data before its barrier: those that wait, and those that were polled since.
static SAVES: [Step; 12] = [
    Step::Arrives(0, 0, BUFFER, 3, Ok(())),
    Step::Saves(1, b"rest"),
    Step::Saved(1, None),
    Step::Polls {
        hold: false,
        seen: Seen::Data(3, false),
    },
    Step::Arrives(1, 0, BUFFER, 2, Ok(())),
    Step::Arrives(2, 0, INLINE, 0, Ok(())),
    Step::Saved(1, Some(b"rest\x07\x07\x07\x07\x07")),
    Step::Polls {
        hold: true,
        seen: Seen::Data(2, false),
    },
    Step::Polls {
        hold: false,
        seen: Seen::Barrier(1),
    },
    Step::Saves(2, b""),
    Step::Arrives(3, 0, FRONT, 0, Ok(())),
    Step::Saved(2, Some(b"")),
];

#[test]
fn refusals_come_in_their_order(rt: HostRuntime) -> Result<(), Fail> {
    run(&rt, rt.alloc(), &REFUSALS)?;
    Ok(())
}

#[test]
fn credit_follows_the_backlog(rt: HostRuntime) -> Result<(), Fail> {
    run(&rt, rt.alloc(), &CREDIT)?;
    run(&rt, rt.alloc(), &LETTING_GO)?;
    Ok(())
}

#[test]
fn a_front_barrier_comes_first(rt: HostRuntime) -> Result<(), Fail> {
    run(&rt, rt.alloc(), &BARRIERS)?;
    Ok(())
}

#[test]
fn a_save_has_what_came_before_its_barrier(rt: HostRuntime) -> Result<(), Fail> {
    run(&rt, rt.alloc(), &SAVES)?;
    Ok(())
}

// Takes these steps with a channel of two of five segments, and gives all back to their pool.
fn run<R: Wait + Abort>(rt: &R, alloc: Global, steps: &[Step]) -> Result<(), AllocError> {
    let (pool, passes, mut pass) = open_pool(alloc, 5)?;
    let first = claim(rt, &pool, &mut pass);
    let second = claim(rt, &pool, &mut pass);
    let third = claim(rt, &pool, &mut pass);
    let fourth = claim(rt, &pool, &mut pass);
    let fifth = claim(rt, &pool, &mut pass);
    let Ok(mut channel) = InputChannel::new(alloc, first, second, 10) else {
        panic!(rt; "no memory for a channel")
    };
    let mut spare = ListOf::new(alloc);
    assert!(rt;
        spare.push(third).is_ok() && spare.push(fourth).is_ok() && spare.push(fifth).is_ok()
    );
    goes_to_threads(&channel);
    for step in steps {
        take_step(rt, alloc, &mut channel, step, &mut spare);
    }
    let mut rest = channel.into_segments();
    for _ in 0..5 {
        if let Some(segment) = rest.take() {
            assert!(rt; spare.push(segment).is_ok());
        }
    }
    give_next(rt, &pool, &mut pass, &mut spare);
    give_next(rt, &pool, &mut pass, &mut spare);
    give_next(rt, &pool, &mut pass, &mut spare);
    give_next(rt, &pool, &mut pass, &mut spare);
    give_next(rt, &pool, &mut pass, &mut spare);
    close(rt, pool, passes, pass, 5);
    Ok(())
}

// A channel lies in a turn cell, which threads share.
fn goes_to_threads<T: Send>(_: &T) {}

// Takes a step, and sees that the channel answers what it says.
fn take_step<R: Abort>(
    rt: &R,
    alloc: Global,
    channel: &mut InputChannel,
    step: &Step,
    spare: &mut ListOf<Segment>,
) {
    match step {
        Step::Arrives(sequence, backlog, what, len, want) => {
            let answer = arrive(rt, channel, *sequence, *backlog, *what, *len);
            assert_eq!(rt; answer, *want);
            assert_eq!(rt;
                channel.ended(),
                matches!(what, ArrivalKind::End) || *want == Err(AcceptFault::AfterEnd)
            );
        }
        Step::Shuts(sequence) => shut(rt, channel, *sequence),
        Step::Polls { hold, seen } => {
            let answer = poll(rt, channel, *hold, spare);
            assert_eq!(rt; answer, *seen);
        }
        Step::Backlog(backlog) => {
            assert!(rt; *backlog < 100);
            channel.on_backlog(*backlog);
        }
        Step::Wants(want) => assert_eq!(rt; channel.wants(), *want),
        Step::Adds => add(rt, channel, spare),
        Step::Tells(credit) => assert_eq!(rt; channel.take_credit(), *credit),
        Step::Resumes(taken) => assert_eq!(rt; channel.take_resume(), *taken),
        Step::Saves(k, rest) => save(rt, alloc, channel, *k, rest),
        Step::Saved(k, want) => saved(rt, alloc, channel, *k, *want),
    }
}

// Something arrives with so many bytes.
fn arrive<R: Abort>(
    rt: &R,
    channel: &mut InputChannel,
    sequence: u32,
    backlog: u32,
    what: ArrivalKind,
    len: usize,
) -> Result<(), AcceptFault> {
    assert!(rt; backlog < 100 && len <= 65);
    let a = Arrival {
        sequence,
        backlog,
        what,
    };
    channel.accept(a, &[7; 65][..len])
}

// Data arrive over the credit, and the channel is shut.
fn shut<R: Abort>(rt: &R, channel: &mut InputChannel, sequence: u32) {
    answers_tell();
    let a = Arrival {
        sequence,
        backlog: 0,
        what: ArrivalKind::Buffer,
    };
    match channel.accept(a, b"seven") {
        Err(AcceptFault::OverCredit { .. }) => channel.shut(),
        _ => panic!(rt; "credit is open"),
    }
}

// Polls, and gives back what the poll gave.
fn poll<R: Abort>(
    rt: &R,
    channel: &mut InputChannel,
    hold: bool,
    spare: &mut ListOf<Segment>,
) -> Seen {
    let is_front = channel.front_waits();
    match channel.poll(hold) {
        Ok(Polled::Buffer(buf)) => {
            let len = buf.len;
            assert!(rt;
                buf.segment.bytes()[..len as usize]
                    .iter()
                    .all(|byte| *byte == 7)
            );
            match channel.recycle(buf) {
                Some(segment) => {
                    assert!(rt; spare.push(segment).is_ok());
                    Seen::Data(len, true)
                }
                None => Seen::Data(len, false),
            }
        }
        Ok(Polled::Barrier { k, kind }) => {
            match kind {
                BarrierKind::Inline => channel.ask_resume(),
                BarrierKind::Front => assert!(rt; is_front),
            }
            Seen::Barrier(k)
        }
        Ok(Polled::End) => Seen::End,
        Ok(Polled::Empty) => Seen::Empty,
        Ok(Polled::Held) => Seen::Held,
        Err(_) => panic!(rt; "no memory for a poll"),
    }
}

// Opens a save, which may be opened.
fn save<R: Abort>(rt: &R, alloc: Global, channel: &mut InputChannel, k: u64, rest: &[u8]) {
    assert!(rt;
        !channel.is_saving() && k > 0 && k - 1 <= channel.polled_barriers() && channel.reached() < k
    );
    assert!(rt; channel.save(alloc, k, rest).is_ok());
}

// Asks for what an open save has, once its barrier has come.
fn saved<R: Abort>(rt: &R, alloc: Global, channel: &mut InputChannel, k: u64, want: Option<&[u8]>) {
    assert!(rt; channel.open_number() == Some(k));
    match (channel.saved(alloc, k), want) {
        (Ok(Some(bytes)), Some(want)) => assert_eq!(rt; bytes.as_slice(), want),
        (Ok(None), None) => {}
        _ => panic!(rt; "what was saved is something else"),
    }
}

// Adds a floating buffer, which the channel asks for.
fn add<R: Abort>(rt: &R, channel: &mut InputChannel, spare: &mut ListOf<Segment>) {
    let Some(segment) = spare.pop() else {
        panic!(rt; "no segment is left")
    };
    let size = channel.size() as usize;
    assert!(rt; channel.wants() > 0 && segment.bytes().len() == size);
    channel.add_floating(segment);
}

// Gives the last of these segments back.
fn give_next<R: Wait + Abort>(rt: &R, pool: &Pool, pass: &mut PoolPass, spare: &mut ListOf<Segment>)
    requires pass { IsPassOf pool.now pass.old × (size_of pool.now ≡ 64) }
    requires out { 0 < out pass.old }
    ensures pass { IsPassOf pool.now pass.new × (number pass.new ≡ number pass.old) }
    ensures out { out pass.old ≡ out pass.new + 1 }
{
    let Some(segment) = spare.pop() else {
        panic!(rt; "a segment is lost")
    };
    assert!(rt; segment.bytes().len() == 64);
    pool.give(rt, pass, segment);
}
