// Rounds over all channels of a gate.
ghost use Rattle.std.specs.Prelude.{◌≡◌, ◌≢◌, ◌<◌, ◌^◌, ℕ, true, false, length, Ok, IfOk, IfErr, IfSome, IfNone, OnOk, MatchOption};
ghost use Rattle.flow_defs.specs.declared.task.BarrierKind.TheVariants.{Front};
ghost use Rattle.input_gate.specs.declared.gate.GateItem.TheVariants as items;
ghost use Rattle.gate_account.specs.Accounts.{AllOver};
ghost use Rattle.input_gate.specs.Gates.{Gave};
ghost use Rattle.input_gate.specs.Lanes.{IsLender, lent_size};
ghost use Rattle.input_gate.specs.Segments.{AllStayEven, AreUntouched};
ghost use Rattle.input_gate.specs.Channels.{AreLanes, AreLater, AreQuiet, HaveNoSpare, account_of, shows_in, cells_in, IsMost, HasLooked, end_of, GaveUp, CameRound, Took};

use crate::gate::{GateEnd, GateItem};
use crate::lane::{Lane, LaneFault, LaneStep, is_over};
use crate::lender::Lender;
use crate::round::{line_at, look_at, prepare_at, refill_at, step_at};
use flow_defs::BarrierKind;
use std::alloc::AllocError;
use std::sync::Wait;

/// What a round of polls came to: nothing, something that changed, or a barrier that is given.
#[derive(Drop)]
pub(crate) enum Round {
    Idle,
    Moved,
    Gave {
        channel: u32,
        k: u64,
        kind: BarrierKind,
    },
}

/// What was taken of the channels: an item, or nothing, and then there may be more at once.
#[derive(Drop)]
pub(crate) enum Taken {
    Item(GateItem),
    More,
    Nothing,
}

// A place, or the first one where it lies past the end.
fn within(at: usize, count: usize) -> usize
    requires { 0 < count }
    ensures { result < count }
{
    if at < count {
        return at;
    }
    0
}

// Why the gate gives nothing more.
fn end_of(fault: LaneFault, channel: u32) -> GateEnd
    ensures end { result ≡ end_of channel fault }
    ensures own { result ≢ GateEnd.Stopped }
{
    match fault {
        LaneFault::Memory => GateEnd::Memory,
        LaneFault::TooLong { len } => GateEnd::TooLong { channel, len },
        LaneFault::Left { len } => GateEnd::Left { channel, len },
    }
}

// Reads the buffers that channels have still, and gives them back.
fn refill_all<R: Wait>(
    rt: &R,
    lanes: &mut Vec<Lane<'_>>,
    lender: &mut Lender<'_, '_>,
) -> Result<(), AllocError>
    requires lanes { AreLanes (lent_size lender.old) lanes.old.items }
    requires lender { IsLender lender.old }
    ensures lanes { AreLanes (lent_size lender.old) lanes.new.items }
    ensures quiet { AreQuiet lanes.old.items lanes.new.items }
    ensures lender { IsLender lender.new × (lender.new.cell ≡ lender.old.cell) }
    ensures spare { OnOk result (HaveNoSpare lanes.new.items) }
    ensures segments { AllStayEven lender.old lanes.old.items lender.new lanes.new.items }
{
    for i in 0..lanes.len() {
        match refill_at(rt, lanes, i, lender) {
            Ok(()) => {}
            Err(fault) => return Err(fault),
        }
    }
    Ok(())
}

/// The same, where a channel may have such a buffer. Else it does nothing.
pub(crate) fn refill_unread<R: Wait>(
    rt: &R,
    lanes: &mut Vec<Lane<'_>>,
    unread: bool,
    lender: &mut Lender<'_, '_>,
) -> Result<(), AllocError>
    requires lanes { AreLanes (lent_size lender.old) lanes.old.items }
    requires lender { IsLender lender.old }
    requires spare { unread ≡ false → HaveNoSpare lanes.old.items }
    ensures lanes { AreLanes (lent_size lender.old) lanes.new.items }
    ensures quiet { AreQuiet lanes.old.items lanes.new.items }
    ensures lender { IsLender lender.new × (lender.new.cell ≡ lender.old.cell) }
    ensures spare { OnOk result (HaveNoSpare lanes.new.items) }
    ensures segments { AllStayEven lender.old lanes.old.items lender.new lanes.new.items }
{
    if !unread {
        return Ok(());
    }
    refill_all(rt, lanes, lender)
}

// The first channel from `start` on that has a line ready.
fn find_line(lanes: &mut Vec<Lane<'_>>, start: usize) -> Result<Option<usize>, GateEnd>
    requires few { length lanes.old.items < 2 ^ 32 }
    requires lanes { (size : ℕ) × AreLanes size lanes.old.items }
    requires spare { HaveNoSpare lanes.old.items }
    ensures lanes { (size : ℕ) → AreLanes size lanes.old.items → AreLanes size lanes.new.items }
    ensures quiet { AreQuiet lanes.old.items lanes.new.items }
    ensures spare { HaveNoSpare lanes.new.items }
    ensures found { IfOk result (λ found. IfSome found (λ at. at < length lanes.old.items)) }
    ensures err { IfErr result (λ end. GaveUp lanes.old.items lanes.new.items end) }
    ensures segments { AreUntouched lanes.old.items lanes.new.items }
{
    let count = lanes.len();
    let mut at = start;
    for _turn in 0..count {
        let here = within(at, count);
        match prepare_at(lanes, here) {
            Ok(true) => return Ok(Some(here)),
            Ok(false) => {}
            Err(fault) => return Err(end_of(fault, here as u32)),
        }
        at = here + 1;
    }
    Ok(None)
}

// Looks at each channel for a front barrier that may be given, and takes the first one that it finds.
fn look_round<R: Wait>(
    rt: &R,
    lanes: &mut Vec<Lane<'_>>,
    hold: bool,
    most: u64,
) -> Option<(u32, u64)>
    requires few { length lanes.old.items < 2 ^ 32 }
    requires lanes { (size : ℕ) × AreLanes size lanes.old.items }
    requires spare { HaveNoSpare lanes.old.items }
    requires most { hold ≡ true → IsMost (account_of lanes.old.items) most }
    ensures lanes { (size : ℕ) → AreLanes size lanes.old.items → AreLanes size lanes.new.items }
    ensures came { MatchOption result (AreQuiet lanes.old.items lanes.new.items) (λ found. Gave (account_of lanes.old.items) (account_of lanes.new.items) (shows_in lanes.new.items) hold (Ok (items.Barrier found.0 found.1 Front))) }
    ensures later { AreLater lanes.old.items lanes.new.items }
    ensures cells { cells_in lanes.new.items ≡ cells_in lanes.old.items }
    ensures looked { IfNone result ((d : ℕ) → d < length lanes.old.items → HasLooked hold (account_of lanes.old.items) lanes.old.items lanes.new.items d) }
    ensures spare { HaveNoSpare lanes.new.items }
    ensures segments { AreUntouched lanes.old.items lanes.new.items }
{
    for i in 0..lanes.len() {
        match look_at(rt, lanes, i, hold, most) {
            Some(k) => return Some((i as u32, k)),
            None => {}
        }
    }
    None
}

// Polls the channels from `start` on, until something changes.
fn poll_round<R: Wait>(
    rt: &R,
    lanes: &mut Vec<Lane<'_>>,
    start: usize,
    hold: bool,
    most: u64,
    lender: &mut Lender<'_, '_>,
) -> Result<Round, GateEnd>
    requires few { length lanes.old.items < 2 ^ 32 }
    requires lanes { AreLanes (lent_size lender.old) lanes.old.items }
    requires lender { IsLender lender.old }
    requires spare { HaveNoSpare lanes.old.items }
    requires most { hold ≡ true → IsMost (account_of lanes.old.items) most }
    ensures lanes { AreLanes (lent_size lender.old) lanes.new.items }
    ensures came { CameRound hold lanes.old.items result lanes.new.items }
    ensures later { AreLater lanes.old.items lanes.new.items }
    ensures cells { cells_in lanes.new.items ≡ cells_in lanes.old.items }
    ensures lender { IsLender lender.new × (lender.new.cell ≡ lender.old.cell) }
    ensures spare { OnOk result (HaveNoSpare lanes.new.items) }
    ensures segments { AllStayEven lender.old lanes.old.items lender.new lanes.new.items }
{
    let count = lanes.len();
    let mut at = start;
    for _turn in 0..count {
        let here = within(at, count);
        match step_at(rt, lanes, here, hold, most, lender) {
            Ok(LaneStep::Nothing) => {}
            Ok(LaneStep::Found) => return Ok(Round::Moved),
            Ok(LaneStep::Barrier { k, kind }) => {
                return Ok(Round::Gave {
                    channel: here as u32,
                    k,
                    kind,
                });
            }
            Err(fault) => return Err(end_of(fault, here as u32)),
        }
        at = here + 1;
    }
    Ok(Round::Idle)
}

/// The most barriers that a channel has given.
fn most_given(lanes: &Vec<Lane<'_>>) -> u64
    requires { (size : ℕ) × AreLanes size lanes.now.items }
    ensures { IsMost (account_of lanes.now.items) result }
{
    let mut most = 0;
    for i in 0..lanes.len() {
        most = most.max(lanes[i].barriers);
    }
    most
}

/// The same where barriers are held back, and else any number.
pub(crate) fn most_held(lanes: &Vec<Lane<'_>>, hold: bool) -> u64
    requires { (size : ℕ) × AreLanes size lanes.now.items }
    ensures { hold ≡ true → IsMost (account_of lanes.now.items) result }
{
    if !hold {
        return 0;
    }
    most_given(lanes)
}

/// Whether each channel has ended, and nothing is left to give.
pub(crate) fn all_over(lanes: &Vec<Lane<'_>>) -> bool
    ensures { result ≡ true → AllOver (account_of lanes.now.items) }
{
    for i in 0..lanes.len() {
        if !is_over(&lanes[i]) {
            return false;
        }
    }
    true
}

/// Gives a line that is ready, once each channel was looked at, or polls the channels until something
/// changes. It goes on from `start`, and moves that behind the channel of which it gave a line.
pub(crate) fn take<R: Wait>(
    rt: &R,
    lanes: &mut Vec<Lane<'_>>,
    start: &mut usize,
    hold: bool,
    most: u64,
    lender: &mut Lender<'_, '_>,
) -> Result<Taken, GateEnd>
    requires few { length lanes.old.items < 2 ^ 32 }
    requires lanes { AreLanes (lent_size lender.old) lanes.old.items }
    requires lender { IsLender lender.old }
    requires spare { HaveNoSpare lanes.old.items }
    requires most { hold ≡ true → IsMost (account_of lanes.old.items) most }
    ensures lanes { AreLanes (lent_size lender.old) lanes.new.items }
    ensures took { Took hold lanes.old.items result lanes.new.items }
    ensures later { AreLater lanes.old.items lanes.new.items }
    ensures cells { cells_in lanes.new.items ≡ cells_in lanes.old.items }
    ensures lender { IsLender lender.new × (lender.new.cell ≡ lender.old.cell) }
    ensures spare { OnOk result (HaveNoSpare lanes.new.items) }
    ensures segments { AllStayEven lender.old lanes.old.items lender.new lanes.new.items }
{
    match find_line(lanes, *start) {
        Err(end) => Err(end),
        Ok(Some(at)) => {
            if let Some((channel, k)) = look_round(rt, lanes, hold, most) {
                return Ok(Taken::Item(GateItem::Barrier {
                    channel,
                    k,
                    kind: BarrierKind::Front,
                }));
            }
            let Some(line) = line_at(lanes, at) else {
                return Ok(Taken::More);
            };
            *start = at + 1;
            Ok(Taken::Item(GateItem::Line {
                channel: at as u32,
                line,
            }))
        }
        Ok(None) => match poll_round(rt, lanes, *start, hold, most, lender) {
            Err(end) => Err(end),
            Ok(Round::Idle) => Ok(Taken::Nothing),
            Ok(Round::Moved) => Ok(Taken::More),
            Ok(Round::Gave { channel, k, kind }) => {
                Ok(Taken::Item(GateItem::Barrier { channel, k, kind }))
            }
        },
    }
}
