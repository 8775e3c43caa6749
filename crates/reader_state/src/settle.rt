// What is given of an early part, and what is overdue of it.
ghost use Rattle.std.specs.Prelude.{◌≡◌, ◌≤◌, true, min, map, position, IfOk, IfSome, IfNone};
ghost use Rattle.credit_reader.specs.Senders.{is_same};
ghost use Rattle.reader_state.specs.Ledgers.{none_early, ended_by, resumption_given, settled};
ghost use Rattle.reader_state.specs.Settling.{alone, asked, room_for, with_credit, fitting_given, overdue_of, IsAsked, StaysUnasked};

use crate::state::Early;
use credit_reader::laws::readers_are_in_order;
use credit_reader::{CREDIT_MAX, CreditFault, Readers, ResumeFault, SentKind};
use flow_defs::{ChannelId, ListOf, PeerFault};
use std::alloc::{AllocError, Global};

// Early parts of channels on which nothing came yet.
pub(crate) fn none_early(alloc: Global, channels: &[ChannelId]) -> Result<ListOf<Early>, AllocError>
    ensures { IfOk result (λ early. early.items ≡ map none_early channels.now) }
{
    let mut early = ListOf::new(alloc);
    early.reserve(channels.len())?;
    for channel in channels {
        early.push(Early {
            channel: *channel,
            credit: 0,
            resumptions: 0,
            ended: false,
        })?;
    }
    Ok(early)
}

// The place of the early part of a channel.
pub(crate) fn place_of(early: &[Early], channel: ChannelId) -> Option<usize>
    ensures { result ≡ position (λ e. is_same e.channel channel) early.now }
{
    early.iter().position(|kept| kept.channel == channel)
}

// The early part of a channel on which an item was sent.
pub(crate) fn after_sent(early: Early, what: SentKind) -> Early
    ensures { result ≡ ended_by what early }
{
    match what {
        SentKind::End => Early {
            ended: true,
            ..early
        },
        SentKind::Buffer | SentKind::Inline | SentKind::Front => early,
    }
}

// What is overdue of one channel.
pub(crate) fn overdue_of(early: Early) -> Option<PeerFault>
    ensures { result ≡ overdue_of early }
{
    if !early.ended {
        return None;
    }
    if early.credit > 0 {
        return Some(PeerFault::Credit);
    }
    if early.resumptions > 0 {
        return Some(PeerFault::Resume);
    }
    None
}

// Gives what fits of so much credit, and answers how much that was. None where the channel was not
// requested.
fn add_fitting(readers: &mut Readers, channel: ChannelId, kept: u64) -> Option<u32>
    requires { 1 ≤ kept }
    ensures fits { IfSome result (λ given. given ≡ min kept (room_for channel readers.old)) }
    ensures gives { IfSome result (λ given. readers.new ≡ with_credit channel given readers.old) }
    ensures asked { IfSome result (λ given. asked channel readers.old ≡ true) }
    ensures refused { IfNone result (StaysUnasked channel readers.old readers.new) }
{
    readers_are_in_order(readers);
    let most = kept.min(u64::from(CREDIT_MAX)) as u32;
    match readers.add_credit(channel, most) {
        Ok(()) => Some(most),
        Err(CreditFault::UnknownChannel) => None,
        Err(CreditFault::CreditOver { sum }) => {
            let over = (sum - u64::from(CREDIT_MAX)) as u32;
            let fits = most - over;
            if fits > 0 {
                let Ok(()) = readers.add_credit(channel, fits) else {
                    unreachable!()
                };
            }
            Some(fits)
        }
    }
}

// Gives a reader what fits of the credit that came too early for it. None where the channel was not
// requested.
fn give_credit(readers: &mut Readers, early: Early) -> Option<Early>
    ensures given { IfSome result (λ left. alone readers.new left ≡ fitting_given early.channel (alone readers.old early)) }
    ensures asked { IfSome result (λ left. 1 ≤ early.credit → asked early.channel readers.old ≡ true) }
    ensures refused { IfNone result (StaysUnasked early.channel readers.old readers.new) }
{
    if early.credit == 0 {
        return Some(early);
    }
    let given = add_fitting(readers, early.channel, early.credit)?;
    Some(Early {
        credit: early.credit - u64::from(given),
        ..early
    })
}

// Gives a reader a resumption that came too early for it, where it is blocked. None where the channel
// was not requested.
fn give_resumption(readers: &mut Readers, early: Early) -> Option<Early>
    ensures given { IfSome result (λ left. alone readers.new left ≡ resumption_given early.channel (alone readers.old early)) }
    ensures asked { IfSome result (λ left. 1 ≤ early.resumptions → asked early.channel readers.old ≡ true) }
    ensures refused { IfNone result (StaysUnasked early.channel readers.old readers.new) }
{
    if early.resumptions == 0 {
        return Some(early);
    }
    match readers.resume(early.channel) {
        Ok(()) => Some(Early {
            resumptions: early.resumptions - 1,
            ..early
        }),
        Err(ResumeFault::NotBlocked) => Some(early),
        Err(ResumeFault::UnknownChannel) => None,
    }
}

// Gives a reader what fits of what came too early for it, and answers what is left. None, and nothing
// changes, where there is something to give and the channel was not requested.
pub(crate) fn settle(readers: &mut Readers, early: Early) -> Option<Early>
    ensures settled { IfSome result (λ left. alone readers.new left ≡ settled early.channel (alone readers.old early)) }
    ensures asked { IfSome result (λ left. IsAsked readers.old early) }
    ensures refused { IfNone result (StaysUnasked early.channel readers.old readers.new) }
{
    let left = give_credit(readers, early)?;
    give_resumption(readers, left)
}
