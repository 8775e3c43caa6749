// The partition requests that open a connection.
ghost use Rattle.std.specs.Prelude.{◌≡◌, ◌≤◌, [], OnOk};
ghost use Rattle.net_frames.specs.Frames.{AreFrames, IsFrame, all_spelled};
ghost use Rattle.net_frames.specs.declared.frame.Frame.TheVariants.{PartitionRequest};
ghost use Rattle.outside.specs.Links.{IsUnfinished};
ghost use Rattle.conn_parts.specs.Messages.{requests_of};
ghost use Rattle.conn_parts.specs.Writing.{WrittenWhole};

use crate::step::make_room;
use conn_parts::Outgoing;
use flow_defs::ChannelId;
use net_frames::Frame;
use outside::{Failed, LinkOut};
use std::sync::Wait;

/// The credit of a request: that of the channel's two exclusive buffers.
const CREDIT_AT_OPENING: u32 = 2;

// A request is a frame, since the numbers of a channel fit. Nothing is done.
fn is_frame(channel: ChannelId)
    ensures { IsFrame (PartitionRequest channel 2) [] }
{
    // Only the contract speaks of it.
    let _channel = channel;
}

// So each of these is. Nothing is done.
fn are_frames(channels: &[ChannelId])
    ensures { AreFrames (requests_of channels.now) }
{
    for channel in channels {
        is_frame(*channel);
    }
}

/// Writes a request for each channel.
pub(crate) fn write_requests<O: LinkOut, R: Wait>(
    rt: &R,
    out: &mut O,
    outgoing: &mut Outgoing,
    channels: &[ChannelId],
) -> Result<(), Failed>
    requires empty { outgoing.old ≡ [] }
    requires unfinished { IsUnfinished (O.finished out.old) }
    ensures unfinished { O.finished out.new ≡ O.finished out.old }
    ensures line { O.line out.new ≡ O.line out.old }
    ensures never_falls { O.faults out.old ≤ O.faults out.new }
    ensures frames { AreFrames (requests_of channels.now) }
    ensures written { WrittenWhole (O.sent out.old) (O.sent out.new) (O.faults out.old) (O.faults out.new) (all_spelled (requests_of channels.now)) result }
    ensures empty { OnOk result (outgoing.new ≡ []) }
{
    are_frames(channels);
    for channel in channels {
        make_room(rt, out, outgoing)?;
        outgoing.put(
            &Frame::PartitionRequest {
                channel: *channel,
                credit: CREDIT_AT_OPENING,
            },
            &[],
        );
    }
    outgoing.write_to(rt, out)
}
