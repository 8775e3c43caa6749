// The readers of two channels, call by call.
ghost use Rattle.std.specs.Prelude.{◌≡◌, ◌≤◌, IsTrue};
ghost use Rattle.std.specs.Option.{IsSomeAnd};
ghost use Rattle.credit_reader.specs.Readers.{cost};
ghost use Rattle.credit_reader.specs.Senders.{is_able, reader_of};
ghost use Rattle.flow_defs.specs.Limits.{credit_max};

use credit_reader::SentKind::{Buffer, End, Front, Inline};
use credit_reader::{CREDIT_MAX, CreditFault, Readers, RequestFault, ResumeFault, SentKind, Told};
use flow_defs::{ChannelId, Head};
use std::test::Fail;

const A: ChannelId = ChannelId {
    edge: 0,
    from: 0,
    to: 0,
};

const B: ChannelId = ChannelId {
    edge: 0,
    from: 1,
    to: 0,
};

// No channel of these readers.
const C: ChannelId = ChannelId {
    edge: 0,
    from: 2,
    to: 0,
};

// A call, and at last what it answers.
#[derive(Clone, Copy)]
enum Step {
    Request(ChannelId, u32, Result<(), RequestFault>),
    AddCredit(ChannelId, u32, Result<(), CreditFault>),
    Resume(ChannelId, Result<(), ResumeFault>),
    Ready(ChannelId, Head, u32),
    // What goes, what stands first then and the backlog that is left; who sent, and the item's number.
    Send(SentKind, Head, u32, Option<(ChannelId, u32)>),
    Announce(Option<Told>),
}

static STEPS: [Step; 42] = [
    // A channel is requested once.
    Step::Request(A, 0, Ok(())),
    Step::Request(A, 2, Err(RequestFault::Twice)),
    // With no credit its backlog is announced, once.
    Step::Send(Buffer, Head::Buffer, 2, None),
    Step::Announce(Some(Told {
        channel: A,
        backlog: 3,
    })),
    Step::Announce(None),
    // Two channels with data and one credit each send in turn.
    Step::AddCredit(A, 1, Ok(())),
    Step::Request(B, 1, Ok(())),
    Step::Ready(B, Head::Buffer, 2),
    Step::Send(Buffer, Head::Buffer, 2, Some((A, 0))),
    Step::Send(Buffer, Head::Buffer, 1, Some((B, 0))),
    Step::Send(Buffer, Head::Buffer, 0, None),
    // A buffer tells the backlog that is left, so nothing is announced.
    Step::Announce(None),
    // With two credits each goes to the back after it has sent, and the numbers count on.
    Step::AddCredit(A, 2, Ok(())),
    Step::AddCredit(B, 2, Ok(())),
    Step::Send(Buffer, Head::Buffer, 1, Some((A, 1))),
    Step::Send(Buffer, Head::Event, 0, Some((B, 1))),
    Step::Send(Buffer, Head::Nothing, 0, Some((A, 2))),
    // An inline barrier blocks its channel until it is resumed.
    Step::Send(Inline, Head::Buffer, 4, Some((B, 2))),
    Step::Send(Buffer, Head::Buffer, 3, None),
    Step::Resume(A, Err(ResumeFault::NotBlocked)),
    Step::Resume(B, Ok(())),
    Step::Resume(B, Err(ResumeFault::NotBlocked)),
    // An event needs no credit.
    Step::Send(Buffer, Head::Event, 3, Some((B, 3))),
    Step::AddCredit(B, 1, Ok(())),
    Step::Send(Front, Head::Buffer, 3, Some((B, 4))),
    Step::Send(Buffer, Head::Buffer, 2, Some((B, 5))),
    Step::Send(Buffer, Head::Buffer, 1, None),
    // The backlog told last was 0, and the credit is used up.
    Step::Ready(A, Head::Buffer, 2),
    Step::Announce(Some(Told {
        channel: A,
        backlog: 2,
    })),
    Step::Announce(None),
    // The most credit, and one more.
    Step::AddCredit(A, CREDIT_MAX, Ok(())),
    Step::AddCredit(A, 1, Err(CreditFault::CreditOver { sum: 2_147_483_648 })),
    Step::AddCredit(
        A,
        CREDIT_MAX,
        Err(CreditFault::CreditOver { sum: 4_294_967_294 }),
    ),
    // One that can no longer send leaves the queue, and comes back at its end.
    Step::AddCredit(B, 1, Ok(())),
    Step::Ready(A, Head::Nothing, 0),
    Step::Ready(A, Head::Event, 0),
    Step::Send(Buffer, Head::Nothing, 0, Some((B, 6))),
    Step::Send(End, Head::Nothing, 0, Some((A, 3))),
    Step::Send(End, Head::Nothing, 0, None),
    Step::Ready(B, Head::Event, 0),
    Step::Send(End, Head::Nothing, 0, Some((B, 7))),
    Step::Send(End, Head::Nothing, 0, None),
];

// Takes the step, and says whether the answer is that of the table.
fn takes(readers: &mut Readers, step: Step) -> bool {
    match step {
        Step::Request(channel, credit, answer) => {
            credit <= CREDIT_MAX && readers.request(channel, credit) == answer
        }
        Step::AddCredit(channel, n, answer) => {
            1 <= n && n <= CREDIT_MAX && readers.add_credit(channel, n) == answer
        }
        Step::Resume(channel, answer) => readers.resume(channel) == answer,
        Step::Ready(channel, head, backlog) => {
            backlog <= CREDIT_MAX && tells(readers, channel, head, backlog)
        }
        Step::Send(what, head, backlog, answer) => {
            backlog <= CREDIT_MAX && sends(readers, what, head, backlog) == answer
        }
        Step::Announce(answer) => readers.announce() == answer,
    }
}

// Tells a channel that was requested. That it was is looked at by asking for it again.
fn tells(readers: &mut Readers, channel: ChannelId, head: Head, backlog: u32) -> bool
    requires { backlog ≤ credit_max }
{
    match readers.request(channel, 0) {
        Err(RequestFault::Twice) => {
            readers.ready(channel, head, backlog);
            true
        }
        Err(RequestFault::UnknownChannel) => false,
        Ok(()) => false,
    }
}

fn sends(
    readers: &mut Readers,
    what: SentKind,
    head: Head,
    backlog: u32,
) -> Option<(ChannelId, u32)>
    requires { backlog ≤ credit_max }
{
    let channel = readers.next()?;
    if !has_credit(readers, channel, what) {
        return None;
    }
    Some((channel, readers.sent(channel, what, head, backlog)))
}

// Whether a reader that can send has the credit for such an item. It is looked at by asking for too much.
fn has_credit(readers: &mut Readers, channel: ChannelId, what: SentKind) -> bool
    requires { IsTrue (is_able channel readers.old.readers) }
    ensures same { IsTrue result → readers.new ≡ readers.old }
    ensures may { IsTrue result → IsSomeAnd (reader_of channel readers.old.readers) (λ r. cost what ≤ r.credit) }
{
    match what {
        SentKind::Buffer => match readers.add_credit(channel, CREDIT_MAX) {
            Err(CreditFault::CreditOver { .. }) => true,
            Err(CreditFault::UnknownChannel) => false,
            Ok(()) => false,
        },
        SentKind::Inline => true,
        SentKind::Front => true,
        SentKind::End => true,
    }
}

#[test]
fn two_channels_send_in_turn_under_credit(rt: HostRuntime) -> Result<(), Fail> {
    let mut readers = Readers::new(rt.alloc(), &[A, B])?;
    // Nothing is taken for a channel that was not requested, or that there is not.
    let unknown = Err(CreditFault::UnknownChannel);
    let asked = readers.request(C, 2);
    assert_eq!(rt; asked, Err(RequestFault::UnknownChannel));
    let granted = readers.add_credit(A, 1);
    assert_eq!(rt; granted, unknown);
    let granted = readers.add_credit(C, 1);
    assert_eq!(rt; granted, unknown);
    let resumed = readers.resume(A);
    assert_eq!(rt; resumed, Err(ResumeFault::UnknownChannel));
    let resumed = readers.resume(C);
    assert_eq!(rt; resumed, Err(ResumeFault::UnknownChannel));
    readers.ready(A, Head::Buffer, 3);
    assert_eq!(rt; readers.next(), None);
    assert_eq!(rt; readers.announce(), None);
    for (number, step) in STEPS.iter().enumerate() {
        assert!(rt; takes(&mut readers, *step), "step {number}");
    }
    Ok(())
}
