// One channel's step: what it has to tell is taken, and laid down.
ghost use Rattle.std.specs.Prelude.{◌≡◌, ◌<◌, ◌≤◌, ◌+◌, ◌^◌, ◌++◌, [], length, true, IfOk, OnOk, MatchResult};
ghost use Rattle.net_frames.specs.Limits.{frame_max};
ghost use Rattle.net_frames.specs.Frames.{AreFrames, all_spelled};
ghost use Rattle.outside.specs.Links.{IsUnfinished};
ghost use Rattle.credit_reader.specs.Senders.{AreDistinct};
ghost use Rattle.conn_parts.specs.declared.outgoing.TheConstants.{OUT_ROOM};
ghost use Rattle.conn_parts.specs.Shares.{AreOwn, seen_at};
ghost use Rattle.conn_send_control.specs.Taking.{credit_message, resumption_message, HasSeenEnd, HaveSeenMore, HaveEnded};
ghost use Rattle.conn_send_control.specs.Going.{WentOut, Announced};

use crate::turns::{Taken, take_credit, take_resumption};
use conn_parts::Outgoing;
use flow_defs::{ChannelId, ListOf};
use input_channel::InputChannel;
use net_frames::Frame;
use outside::{Failed, LinkOut};
use std::sync::Wait;
use turn_cell::{Pass, TurnCell};

/// Sees to room for a frame: where there is none, what was laid down goes out.
pub(crate) fn make_room<O: LinkOut, R: Wait>(
    rt: &R,
    out: &mut O,
    outgoing: &mut Outgoing,
) -> Result<(), Failed>
    requires unfinished { IsUnfinished (O.finished out.old) }
    ensures unfinished { O.finished out.new ≡ O.finished out.old }
    ensures line { O.line out.new ≡ O.line out.old }
    ensures never_falls { O.faults out.old ≤ O.faults out.new }
    ensures out { WentOut (O.sent out.old) (O.sent out.new) (O.faults out.old) (O.faults out.new) outgoing.old outgoing.new result }
    ensures room { OnOk result (length outgoing.new + frame_max ≤ OUT_ROOM) }
{
    if outgoing.has_room() {
        return Ok(());
    }
    outgoing.write_to(rt, out)
}

// Lays down the message that tells credit, if there is some.
fn lay_credit(outgoing: &mut Outgoing, channel: ChannelId, credit: u32)
    requires room { length outgoing.old + frame_max ≤ OUT_ROOM }
    requires fits { credit < 2 ^ 31 }
    ensures laid { outgoing.new ≡ outgoing.old ++ all_spelled (credit_message channel credit) }
    ensures frames { AreFrames (credit_message channel credit) }
{
    if credit > 0 {
        outgoing.put(&Frame::AddCredit { channel, credit }, &[]);
    }
}

// Lays down the message that tells a resumption, if one was taken.
fn lay_resumption(outgoing: &mut Outgoing, channel: ChannelId, taken: bool)
    requires room { length outgoing.old + frame_max ≤ OUT_ROOM }
    ensures laid { outgoing.new ≡ outgoing.old ++ all_spelled (resumption_message channel taken) }
    ensures frames { AreFrames (resumption_message channel taken) }
{
    if taken {
        outgoing.put(&Frame::ResumeConsumption { channel }, &[]);
    }
}

// Takes the credit that a channel has to tell, and lays it down.
fn tell_credit<O: LinkOut, R: Wait>(
    rt: &R,
    out: &mut O,
    outgoing: &mut Outgoing,
    channels: &[ChannelId],
    cells: &[TurnCell<InputChannel>],
    passes: &mut ListOf<Pass<InputChannel>>,
    at: usize,
) -> Result<Taken, Failed>
    requires distinct { AreDistinct channels.now }
    requires within { (at < length channels.now) × (length cells.now ≡ length channels.now) }
    requires own { AreOwn 2 cells.now passes.old.items }
    requires unfinished { IsUnfinished (O.finished out.old) }
    ensures own { AreOwn 2 cells.now passes.new.items }
    ensures unfinished { O.finished out.new ≡ O.finished out.old }
    ensures line { O.line out.new ≡ O.line out.old }
    ensures never_falls { O.faults out.old ≤ O.faults out.new }
    ensures account { Announced channels.now passes.old.items passes.new.items (O.sent out.old) (O.sent out.new) outgoing.old outgoing.new (O.faults out.old) (O.faults out.new) result }
    ensures seen { HaveSeenMore passes.old.items passes.new.items }
    ensures ended { IfOk result (λ taken. taken.ended ≡ true → HasSeenEnd (seen_at at passes.new.items)) }
{
    make_room(rt, out, outgoing)?;
    let taken = take_credit(rt, &cells[at], &mut passes.as_mut_slice()[at]);
    lay_credit(outgoing, channels[at], taken.credit);
    Ok(taken)
}

// Takes a resumption that a channel has to tell, and lays it down.
fn tell_resumption<O: LinkOut, R: Wait>(
    rt: &R,
    out: &mut O,
    outgoing: &mut Outgoing,
    channels: &[ChannelId],
    cells: &[TurnCell<InputChannel>],
    passes: &mut ListOf<Pass<InputChannel>>,
    at: usize,
) -> Result<bool, Failed>
    requires distinct { AreDistinct channels.now }
    requires within { (at < length channels.now) × (length cells.now ≡ length channels.now) }
    requires own { AreOwn 2 cells.now passes.old.items }
    requires unfinished { IsUnfinished (O.finished out.old) }
    ensures own { AreOwn 2 cells.now passes.new.items }
    ensures unfinished { O.finished out.new ≡ O.finished out.old }
    ensures line { O.line out.new ≡ O.line out.old }
    ensures never_falls { O.faults out.old ≤ O.faults out.new }
    ensures account { Announced channels.now passes.old.items passes.new.items (O.sent out.old) (O.sent out.new) outgoing.old outgoing.new (O.faults out.old) (O.faults out.new) result }
    ensures seen { HaveSeenMore passes.old.items passes.new.items }
{
    make_room(rt, out, outgoing)?;
    let taken = take_resumption(rt, &cells[at], &mut passes.as_mut_slice()[at]);
    lay_resumption(outgoing, channels[at], taken);
    Ok(taken)
}

/// Takes what a channel has to tell, and lays it down. It answers whether there was something. A channel
/// whose end had come is left alone.
pub(crate) fn announce_at<O: LinkOut, R: Wait>(
    rt: &R,
    out: &mut O,
    outgoing: &mut Outgoing,
    channels: &[ChannelId],
    cells: &[TurnCell<InputChannel>],
    passes: &mut ListOf<Pass<InputChannel>>,
    ended: &mut ListOf<bool>,
    at: usize,
) -> Result<bool, Failed>
    requires distinct { AreDistinct channels.now }
    requires within { (at < length channels.now) × (length cells.now ≡ length channels.now) × (length ended.old.items ≡ length channels.now) }
    requires own { AreOwn 2 cells.now passes.old.items }
    requires ended { HaveEnded ended.old.items passes.old.items }
    requires unfinished { IsUnfinished (O.finished out.old) }
    ensures own { AreOwn 2 cells.now passes.new.items }
    ensures unfinished { O.finished out.new ≡ O.finished out.old }
    ensures line { O.line out.new ≡ O.line out.old }
    ensures never_falls { O.faults out.old ≤ O.faults out.new }
    ensures account { Announced channels.now passes.old.items passes.new.items (O.sent out.old) (O.sent out.new) outgoing.old outgoing.new (O.faults out.old) (O.faults out.new) result }
    ensures ended { (length ended.new.items ≡ length channels.now) × HaveEnded ended.new.items passes.new.items }
{
    if ended.as_slice()[at] {
        return Ok(false);
    }
    let taken = tell_credit(rt, out, outgoing, channels, cells, passes, at)?;
    ended.as_mut_slice()[at] = taken.ended;
    let resumed = tell_resumption(rt, out, outgoing, channels, cells, passes, at)?;
    Ok(resumed || taken.credit > 0)
}
