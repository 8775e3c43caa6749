// The readers of two channels, turn by turn.
ghost use Rattle.std.specs.Prelude.{◌≡◌, ◌+◌, ◌<◌, ◌≤◌, [], ◌∷◌, length, IsTrue};
ghost use Rattle.credit_reader.specs.Readers.{cost};
ghost use Rattle.flow_defs.specs.Limits.{credit_max};
ghost use Rattle.turn_cell.specs.Passes.{passes_of};
ghost use Rattle.turn_cell.specs.Closing.{AreFresh};
ghost use Rattle.reader_state.specs.Turning.{channels_in, IsOneOf, IsReaderPass};
ghost use Rattle.loops_tests.specs.declared.reader_state_tests.TheConstants.{A, B};

use credit_reader::SentKind::{Buffer, End, Front, Inline};
use credit_reader::{CREDIT_MAX, SentKind, Told};
use fixtures::{give_back, open_readers};
use flow_defs::{ChannelId, Head, ListOf, PeerFault};
use reader_state::{
    ReaderState, look_for_overdue, next_to_announce, next_to_send, take_credit, take_request,
    take_resumption, tell_ready, tell_sent,
};
use std::alloc::{AllocError, Global};
use std::process::Abort;
use std::sync::Wait;
use std::test::Fail;
use turn_cell::{Pass, TurnCell};

const A: ChannelId = ChannelId {
    edge: 0,
    from: 0,
    to: 0,
};

const B: ChannelId = ChannelId {
    edge: 0,
    from: 1,
    to: 0,
};

// No channel of these readers.
const C: ChannelId = ChannelId {
    edge: 0,
    from: 2,
    to: 0,
};

// A call, and at last what it answers.
#[derive(Clone, Copy)]
enum Step {
    Request(ChannelId, u32, Result<(), PeerFault>),
    Grant(ChannelId, u32, Result<(), PeerFault>),
    Resume(ChannelId, Result<(), PeerFault>),
    Ready(ChannelId, Head, u32),
    // What goes, what stands first then and the backlog that is left; who sent, and the item's number.
    Send(SentKind, Head, u32, Option<(ChannelId, u32)>),
    Announce(Option<Told>),
    // What a channel keeps: credit and resumptions.
    Keeps(ChannelId, u32, u32),
    Overdue(Result<(), PeerFault>),
}

const UNKNOWN: Result<(), PeerFault> = Err(PeerFault::Channel);

static STEPS: [Step; 40] = [
    // A channel is requested once, and nothing is taken for one that was not.
    Step::Request(C, 2, UNKNOWN),
    Step::Grant(A, 1, UNKNOWN),
    Step::Grant(C, 1, UNKNOWN),
    Step::Resume(A, UNKNOWN),
    Step::Resume(C, UNKNOWN),
    Step::Keeps(A, 0, 0),
    Step::Request(A, CREDIT_MAX, Ok(())),
    Step::Request(A, 1, UNKNOWN),
    // One credit too much is kept, and given once a buffer was sent.
    Step::Grant(A, 1, Ok(())),
    Step::Keeps(A, 1, 0),
    Step::Ready(A, Head::Buffer, 2),
    Step::Send(Buffer, Head::Event, 1, Some((A, 0))),
    Step::Keeps(A, 0, 0),
    Step::Grant(A, 3, Ok(())),
    Step::Keeps(A, 3, 0),
    // A resumption before the barrier is kept, and given when the barrier is sent.
    Step::Resume(A, Ok(())),
    Step::Keeps(A, 3, 1),
    Step::Send(Inline, Head::Buffer, 1, Some((A, 1))),
    Step::Keeps(A, 3, 0),
    Step::Send(Buffer, Head::Event, 0, Some((A, 2))),
    Step::Keeps(A, 2, 0),
    // A barrier that came first blocks its channel, and the resumption is given at once.
    Step::Send(Inline, Head::Buffer, 1, Some((A, 3))),
    Step::Send(Buffer, Head::Event, 0, None),
    Step::Resume(A, Ok(())),
    Step::Keeps(A, 2, 0),
    // Two channels send in turn, and one with no credit has its backlog announced.
    Step::Request(B, 0, Ok(())),
    Step::Ready(B, Head::Buffer, 7),
    Step::Announce(Some(Told {
        channel: B,
        backlog: 7,
    })),
    Step::Announce(None),
    Step::Grant(B, 1, Ok(())),
    Step::Send(Buffer, Head::Buffer, 1, Some((A, 4))),
    Step::Send(Buffer, Head::Event, 0, Some((B, 0))),
    Step::Send(Buffer, Head::Event, 0, Some((A, 5))),
    Step::Send(Front, Head::Event, 0, Some((B, 1))),
    // What is kept of a channel whose end was sent is overdue.
    Step::Resume(A, Ok(())),
    Step::Grant(A, 1, Ok(())),
    Step::Overdue(Ok(())),
    Step::Send(End, Head::Nothing, 0, Some((A, 6))),
    Step::Overdue(Err(PeerFault::Credit)),
    Step::Keeps(A, 1, 1),
];

// The readers of two channels, with the passes of the loop that writes items and of the loop that reads
// control frames.
#[derive(Drop)]
struct Ends {
    cell: TurnCell<ReaderState>,
    writer: Pass<ReaderState>,
    reader: Pass<ReaderState>,
    ghost passes: { IsReaderPass cell 0 writer × IsReaderPass cell 1 reader },
    ghost channels: { channels_in cell ≡ A ∷ B ∷ [] },
}

fn open<R: Abort>(rt: &R, alloc: Global) -> Ends {
    let Ok((cell, writer, reader)) = open_readers(alloc, &[A, B]) else {
        panic!(rt; "no readers")
    };
    Ends {
        cell,
        writer,
        reader,
    }
}

// Takes the step in turns, and says whether the answer is that of the table. What a channel keeps is looked
// at elsewhere.
fn takes<R: Wait>(rt: &R, ends: &mut Ends, step: Step) -> bool {
    match step {
        Step::Request(channel, credit, answer) => {
            credit <= CREDIT_MAX && request(rt, ends, channel, credit) == answer
        }
        Step::Grant(channel, credit, answer) => {
            1 <= credit && credit <= CREDIT_MAX && grant(rt, ends, channel, credit) == answer
        }
        Step::Resume(channel, answer) => {
            take_resumption(rt, &ends.cell, &mut ends.reader, channel) == answer
        }
        Step::Ready(channel, head, backlog) => {
            backlog <= CREDIT_MAX && tells(rt, ends, channel, head, backlog)
        }
        Step::Send(what, head, backlog, answer) => {
            backlog <= CREDIT_MAX && sends(rt, ends, what, head, backlog) == answer
        }
        Step::Announce(answer) => { next_to_announce(rt, &ends.cell, &mut ends.writer) == answer }
        Step::Keeps(_, _, _) => true,
        Step::Overdue(answer) => overdue(rt, ends) == answer,
    }
}

fn request<R: Wait>(
    rt: &R,
    ends: &mut Ends,
    channel: ChannelId,
    credit: u32,
) -> Result<(), PeerFault>
    requires { credit ≤ credit_max }
{
    take_request(rt, &ends.cell, &mut ends.reader, channel, credit)
}

fn grant<R: Wait>(rt: &R, ends: &mut Ends, channel: ChannelId, credit: u32) -> Result<(), PeerFault>
    requires { (1 ≤ credit) × (credit ≤ credit_max) }
{
    take_credit(rt, &ends.cell, &mut ends.reader, channel, credit)
}

fn overdue<R: Wait>(rt: &R, ends: &mut Ends) -> Result<(), PeerFault> {
    look_for_overdue(rt, &ends.cell, &mut ends.reader)
}

fn tells<R: Wait>(rt: &R, ends: &mut Ends, channel: ChannelId, head: Head, backlog: u32) -> bool
    requires { backlog ≤ credit_max }
{
    if channel == A {
        tell_ready(rt, &ends.cell, &mut ends.writer, A, head, backlog);
        return true;
    }
    if channel == B {
        tell_ready(rt, &ends.cell, &mut ends.writer, B, head, backlog);
        return true;
    }
    false
}

fn sends<R: Wait>(
    rt: &R,
    ends: &mut Ends,
    what: SentKind,
    head: Head,
    backlog: u32,
) -> Option<(ChannelId, u32)>
    requires { backlog ≤ credit_max }
{
    match what {
        Buffer => send_data(rt, ends, head, backlog),
        Inline => send_event(rt, ends, Inline, head, backlog),
        Front => send_event(rt, ends, Front, head, backlog),
        End => send_event(rt, ends, End, head, backlog),
    }
}

fn send_event<R: Wait>(
    rt: &R,
    ends: &mut Ends,
    what: SentKind,
    head: Head,
    backlog: u32,
) -> Option<(ChannelId, u32)>
    requires { (cost what ≡ 0) × (backlog ≤ credit_max) }
{
    let channel = next_to_send(rt, &ends.cell, &mut ends.writer)?;
    let number = tell_sent(
        rt,
        &ends.cell,
        &mut ends.writer,
        channel,
        what,
        head,
        backlog,
    );
    Some((channel, number))
}

// Sends data on the channel whose turn it is. That there is credit is looked at by telling that data stand
// first: it is then still the turn of that channel.
fn send_data<R: Wait>(rt: &R, ends: &mut Ends, head: Head, backlog: u32) -> Option<(ChannelId, u32)>
    requires { backlog ≤ credit_max }
{
    let channel = next_to_send(rt, &ends.cell, &mut ends.writer)?;
    tell_ready(
        rt,
        &ends.cell,
        &mut ends.writer,
        channel,
        Head::Buffer,
        backlog,
    );
    let first = next_to_send(rt, &ends.cell, &mut ends.writer)?;
    if !is_same(first, channel) {
        return None;
    }
    let number = tell_sent(
        rt,
        &ends.cell,
        &mut ends.writer,
        first,
        Buffer,
        head,
        backlog,
    );
    Some((first, number))
}

fn is_same(channel: ChannelId, other: ChannelId) -> bool
    ensures { IsTrue result → channel ≡ other }
{
    channel == other
}

// Whether a channel keeps so much credit and so many resumptions after these steps: when nothing else is
// sent and its end is, that many buffers and that many barriers use up what is overdue, and no fewer. A
// channel that was not requested is so then, with all credit that fits.
fn keeps<R: Wait + Abort>(
    rt: &R,
    alloc: Global,
    steps: &[Step],
    channel: ChannelId,
    credit: u32,
    resumptions: u32,
) -> bool {
    let mut ends = open(rt, alloc);
    // What these calls answer is of no concern here.
    for step in steps {
        let _taken = takes(rt, &mut ends, *step);
    }
    let _asked = request(rt, &mut ends, channel, CREDIT_MAX);
    let _told = tells(rt, &mut ends, A, Head::Nothing, 0);
    let _told = tells(rt, &mut ends, B, Head::Nothing, 0);
    let mut is_so = tells(rt, &mut ends, channel, Head::Event, 0)
        && goes(rt, &mut ends, End, channel);
    for _buffer in 0..credit {
        let fault = overdue(rt, &mut ends);
        is_so = is_so && fault == Err(PeerFault::Credit) && goes(rt, &mut ends, Buffer, channel);
    }
    for _barrier in 0..resumptions {
        let fault = overdue(rt, &mut ends);
        is_so = is_so && fault == Err(PeerFault::Resume) && goes(rt, &mut ends, Inline, channel);
    }
    is_so && overdue(rt, &mut ends) == Ok(())
}

// Whether such an item goes, and on this channel.
fn goes<R: Wait>(rt: &R, ends: &mut Ends, what: SentKind, channel: ChannelId) -> bool {
    match sends(rt, ends, what, Head::Event, 0) {
        Some((sent_on, _)) => sent_on == channel,
        None => false,
    }
}

#[test]
fn what_comes_too_early_is_kept_and_given_when_it_fits(rt: HostRuntime) -> Result<(), Fail> {
    let alloc = rt.alloc();
    let mut ends = open(&rt, alloc);
    for (number, step) in STEPS.iter().enumerate() {
        assert!(rt; takes(&rt, &mut ends, *step), "step {number}");
        if let Step::Keeps(channel, credit, resumptions) = *step {
            let is_kept = keeps(&rt, alloc, &STEPS[..number], channel, credit, resumptions);
            assert!(rt; is_kept, "step {number}");
        }
    }
    Ok(())
}

// Messages before the first item, of which one resumption or one credit comes too early.
fn ask<R: Wait + Abort>(
    rt: &R,
    cell: &TurnCell<ReaderState>,
    pass: &mut Pass<ReaderState>,
    too_much: bool,
)
    requires { IsReaderPass cell.now 1 pass.old }
    ensures { IsReaderPass cell.now 1 pass.new }
{
    assert_eq!(rt; take_credit(rt, cell, pass, A, 1), Err(PeerFault::Channel));
    assert_eq!(rt; take_request(rt, cell, pass, A, CREDIT_MAX), Ok(()));
    assert_eq!(rt; take_request(rt, cell, pass, A, 1), Err(PeerFault::Channel));
    if too_much {
        assert_eq!(rt; take_credit(rt, cell, pass, A, 1), Ok(()));
    }
    assert_eq!(rt; take_resumption(rt, cell, pass, A), Ok(()));
    assert_eq!(rt; look_for_overdue(rt, cell, pass), Ok(()));
}

// The end is the one item.
fn send_end<R: Wait + Abort>(rt: &R, cell: &TurnCell<ReaderState>, pass: &mut Pass<ReaderState>)
    requires pass { IsReaderPass cell.now 0 pass.old }
    requires known { IsOneOf A (channels_in cell.now) }
    ensures { IsReaderPass cell.now 0 pass.new }
{
    assert_eq!(rt; next_to_send(rt, cell, pass), None);
    tell_ready(rt, cell, pass, A, Head::Event, 0);
    assert!(rt; next_to_announce(rt, cell, pass).is_none());
    match next_to_send(rt, cell, pass) {
        Some(channel) => {
            assert_eq!(rt; channel, A);
            let number = tell_sent(rt, cell, pass, channel, End, Head::Nothing, 0);
            assert_eq!(rt; number, 0);
        }
        None => panic!(rt; "the end stands first"),
    }
}

// What came too early is then a fault, at whatever comes next.
fn find_overdue<R: Wait + Abort>(
    rt: &R,
    cell: &TurnCell<ReaderState>,
    pass: &mut Pass<ReaderState>,
    fault: PeerFault,
)
    requires { IsReaderPass cell.now 1 pass.old }
    ensures { IsReaderPass cell.now 1 pass.new }
{
    assert_eq!(rt; look_for_overdue(rt, cell, pass), Err(fault));
    assert_eq!(rt; take_request(rt, cell, pass, B, 0), Err(fault));
    assert_eq!(rt; take_resumption(rt, cell, pass, B), Err(fault));
}

// The turns of both loops, one after another, and then the cell is closed.
fn take_turns<R: Wait + Abort>(
    rt: &R,
    cell: TurnCell<ReaderState>,
    passes: ListOf<Pass<ReaderState>>,
    too_much: bool,
)
    requires passes { AreFresh cell passes.items × (length passes.items ≡ 2) × (passes_of cell ≡ 2) }
    requires known { IsOneOf A (channels_in cell) }
{
    let mut passes = passes;
    let mut reader = passes.take_last();
    let mut writer = passes.take_last();
    ask(rt, &cell, &mut reader, too_much);
    send_end(rt, &cell, &mut writer);
    let fault = if too_much {
        PeerFault::Credit
    } else {
        PeerFault::Resume
    };
    find_overdue(rt, &cell, &mut reader, fault);
    give_back(&mut passes, writer);
    give_back(&mut passes, reader);
    let state = cell.close(passes);
    assert_eq!(rt; state.overdue(), Some(fault));
}

// A cell for them.
fn open_and_take_turns<R: Wait + Abort>(
    rt: &R,
    alloc: Global,
    too_much: bool,
) -> Result<(), AllocError> {
    let state = ReaderState::new(alloc, &[A, B])?;
    let Ok((cell, passes)) = TurnCell::new(alloc, state, 2) else {
        return Err(AllocError);
    };
    take_turns(rt, cell, passes, too_much);
    Ok(())
}

#[test]
fn turns_tell_what_is_overdue_behind_the_end(rt: HostRuntime) -> Result<(), Fail> {
    open_and_take_turns(&rt, rt.alloc(), true)?;
    open_and_take_turns(&rt, rt.alloc(), false)?;
    Ok(())
}
