// One message of the sender's end.
ghost use Rattle.std.specs.Prelude.{◌≡◌, ◌<◌, ◌≤◌, ◌⊎◌, ◌^◌, OnOk, IfErr};
ghost use Rattle.net_frames.specs.Frames.{IsFrame};
ghost use Rattle.input_channel.specs.declared.entry.ReceiveEntry.TheVariants.{Push, Backlog};
ghost use Rattle.input_channel.specs.Answers.{parcel_in};
ghost use Rattle.conn_read_items.specs.Receiving.{arrival_with, IsChannel};
ghost use Rattle.conn_read_items.specs.Asking.{AskedForAll};
ghost use Rattle.conn_read_items.specs.Taking.{AreLent, KeepsStop, Gave, IsUnknown, RefusedBy, TookFrame, EndsWith, Stepped, brought, cause_of};

use crate::cells::Cells;
use crate::channels::{announce_at, give_at};
use conn_parts::{SharePasses, place_of};
use flow_defs::{BarrierKind, Cause, ChannelId, PeerFault};
use input_channel::{AcceptFault, Arrival, ArrivalKind};
use net_frames::{ArrivalKind2, Frame, FrameFault, decode};
use std::sync::Wait;

/// What became of the bytes that came.
pub(crate) enum Step {
    /// A message was taken, of so many bytes.
    Took(usize),
    /// They are a front of a message at most.
    More,
    /// They end the loop.
    Ends(Cause),
}

// What arrives by a buffer response.
fn arrival_with(sequence: u32, backlog: u32, what: ArrivalKind2) -> Arrival
    ensures { result ≡ arrival_with sequence backlog what }
{
    let what = match what {
        ArrivalKind2::Buffer => ArrivalKind::Buffer,
        ArrivalKind2::Inline { k } => ArrivalKind::Barrier {
            k,
            kind: BarrierKind::Inline,
        },
        ArrivalKind2::Front { k } => ArrivalKind::Barrier {
            k,
            kind: BarrierKind::Front,
        },
        ArrivalKind2::End => ArrivalKind::End,
    };
    Arrival {
        sequence,
        backlog,
        what,
    }
}

// The cause of a refusal.
fn cause_of(channel: ChannelId, fault: AcceptFault) -> Cause
    ensures { result ≡ cause_of channel fault }
{
    match fault {
        AcceptFault::WrongSequence { .. } => Cause::Peer {
            fault: PeerFault::Sequence,
        },
        AcceptFault::AfterEnd => Cause::Peer {
            fault: PeerFault::AfterEnd,
        },
        AcceptFault::OverCredit {
            received,
            announced,
        } => Cause::OverCredit {
            channel,
            received,
            announced,
        },
        AcceptFault::OverSize { .. } => Cause::Peer {
            fault: PeerFault::Size,
        },
        AcceptFault::WrongBarrier { .. } => Cause::Peer {
            fault: PeerFault::Barrier,
        },
        AcceptFault::Memory => Cause::Memory,
    }
}

// Gives what arrived to its channel.
fn take_arrival<'p, R: Wait>(
    rt: &R,
    cells: &Cells<'_, 'p>,
    passes: &mut SharePasses<'p>,
    channel: ChannelId,
    a: Arrival,
    bytes: &[u8],
) -> Result<(), Cause>
    requires lent { AreLent cells.now passes.old }
    requires backlog { a.backlog < 2 ^ 31 }
    ensures lent { AreLent cells.now passes.new }
    ensures others { KeepsStop passes.old passes.new }
    ensures asked { AskedForAll cells.now.channels.now passes.old passes.new }
    ensures known { OnOk result (IsChannel cells.now.channels.now channel) }
    ensures gave { OnOk result (Gave cells.now.channels.now passes.old.inputs.items passes.new.inputs.items (brought channel (Push (parcel_in a.what bytes.now) a.backlog))) }
    ensures ended { IfErr result (λ cause. IsUnknown cells.now.channels.now passes.old.inputs.items passes.new.inputs.items channel cause ⊎ RefusedBy cells.now.channels.now passes.old.inputs.items passes.new.inputs.items channel a bytes.now cause) }
{
    let Some(place) = place_of(cells.channels, channel) else {
        return Err(Cause::Peer {
            fault: PeerFault::Channel,
        });
    };
    match give_at(rt, cells, passes, place, channel.to as usize, a, bytes) {
        Ok(()) => Ok(()),
        Err(fault) => Err(cause_of(channel, fault)),
    }
}

// Tells a channel its sender's backlog.
fn take_backlog<'p, R: Wait>(
    rt: &R,
    cells: &Cells<'_, 'p>,
    passes: &mut SharePasses<'p>,
    channel: ChannelId,
    n: u32,
) -> Result<(), Cause>
    requires lent { AreLent cells.now passes.old }
    requires backlog { n < 2 ^ 31 }
    ensures lent { AreLent cells.now passes.new }
    ensures others { KeepsStop passes.old passes.new }
    ensures asked { AskedForAll cells.now.channels.now passes.old passes.new }
    ensures known { OnOk result (IsChannel cells.now.channels.now channel) }
    ensures gave { OnOk result (Gave cells.now.channels.now passes.old.inputs.items passes.new.inputs.items (brought channel (Backlog n))) }
    ensures ended { IfErr result (λ cause. IsUnknown cells.now.channels.now passes.old.inputs.items passes.new.inputs.items channel cause) }
{
    let Some(place) = place_of(cells.channels, channel) else {
        return Err(Cause::Peer {
            fault: PeerFault::Channel,
        });
    };
    announce_at(rt, cells, passes, place, channel.to as usize, n);
    Ok(())
}

// Takes a frame with its content, or answers why it ends the loop.
fn take_frame<'p, R: Wait>(
    rt: &R,
    cells: &Cells<'_, 'p>,
    passes: &mut SharePasses<'p>,
    frame: Frame,
    content: &[u8],
) -> Result<(), Cause>
    requires lent { AreLent cells.now passes.old }
    requires frame { IsFrame frame content.now }
    ensures lent { AreLent cells.now passes.new }
    ensures others { KeepsStop passes.old passes.new }
    ensures asked { AskedForAll cells.now.channels.now passes.old passes.new }
    ensures took { OnOk result (TookFrame cells.now.channels.now passes.old.inputs.items passes.new.inputs.items frame content.now) }
    ensures ended { IfErr result (λ cause. EndsWith cells.now.channels.now passes.old.inputs.items passes.new.inputs.items frame content.now cause) }
{
    match frame {
        Frame::BufferResponse {
            channel,
            sequence,
            backlog,
            what,
        } => take_arrival(
            rt,
            cells,
            passes,
            channel,
            arrival_with(sequence, backlog, what),
            content,
        ),
        Frame::BacklogAnnouncement { channel, backlog } => {
            take_backlog(rt, cells, passes, channel, backlog)
        }
        Frame::ErrorResponse { .. } => Err(Cause::Peer {
            fault: PeerFault::Refused,
        }),
        Frame::Close => Err(Cause::Done),
        Frame::PartitionRequest { .. } => Err(Cause::Peer {
            fault: PeerFault::BadFrame,
        }),
        Frame::AddCredit { .. } => Err(Cause::Peer {
            fault: PeerFault::BadFrame,
        }),
        Frame::ResumeConsumption { .. } => Err(Cause::Peer {
            fault: PeerFault::BadFrame,
        }),
        Frame::NewBufferSize { .. } => Err(Cause::Peer {
            fault: PeerFault::BadFrame,
        }),
    }
}

/// Takes the message that the bytes begin with.
pub(crate) fn take_message<'p, R: Wait>(
    rt: &R,
    cells: &Cells<'_, 'p>,
    passes: &mut SharePasses<'p>,
    bytes: &[u8],
) -> Step
    requires { AreLent cells.now passes.old }
    ensures lent { AreLent cells.now passes.new }
    ensures others { KeepsStop passes.old passes.new }
    ensures asked { AskedForAll cells.now.channels.now passes.old passes.new }
    ensures step { Stepped cells.now.channels.now passes.old.inputs.items passes.new.inputs.items bytes.now result }
{
    match decode(bytes) {
        Ok(found) => {
            let content = &bytes[found.content.from..found.used];
            match take_frame(rt, cells, passes, found.frame, content) {
                Ok(()) => Step::Took(found.used),
                Err(cause) => Step::Ends(cause),
            }
        }
        Err(FrameFault::NeedMore) => Step::More,
        Err(_) => Step::Ends(Cause::Peer {
            fault: PeerFault::BadFrame,
        }),
    }
}
