// One message, as it comes to the readers and the subpartitions.
ghost use Rattle.std.specs.Prelude.{◌≡◌, ℕ, List};
ghost use Rattle.net_frames.specs.Frames.{KeepsRanges};
ghost use Rattle.conn_read_control.specs.Rounds.{AreCells, FitCells, TookFrame};

use crate::cells::{ControlCells, ControlPasses};
use crate::sizes::take_size;
use flow_defs::PeerFault;
use net_frames::Frame;
use reader_state::{look_for_overdue, take_credit, take_request, take_resumption};
use std::sync::Wait;

/// Gives a message to the readers or to a subpartition. At the closing frame it looks for what is overdue.
pub(crate) fn take_frame<R: Wait>(
    rt: &R,
    cells: &ControlCells,
    passes: &mut ControlPasses,
    frame: Frame,
) -> Result<(), PeerFault>
    requires cells { AreCells cells.now }
    requires passes { FitCells cells.now passes.old }
    requires ranges { (content : List ℕ) × KeepsRanges frame content }
    ensures passes { FitCells cells.now passes.new }
    ensures stop { passes.new.stop ≡ passes.old.stop }
    ensures took { (content : List ℕ) → TookFrame cells.now passes.old passes.new (frame, content) result }
{
    match frame {
        Frame::PartitionRequest { channel, credit } => {
            take_request(rt, cells.readers, &mut passes.readers, channel, credit)
        }
        Frame::AddCredit { channel, credit } => {
            take_credit(rt, cells.readers, &mut passes.readers, channel, credit)
        }
        Frame::ResumeConsumption { channel } => {
            take_resumption(rt, cells.readers, &mut passes.readers, channel)
        }
        Frame::NewBufferSize { channel, size } => {
            take_size(rt, cells, &mut passes.subpartitions, channel, size)
        }
        Frame::Close => look_for_overdue(rt, cells.readers, &mut passes.readers),
        Frame::BufferResponse { .. } => Err(PeerFault::BadFrame),
        Frame::ErrorResponse { .. } => Err(PeerFault::BadFrame),
        Frame::BacklogAnnouncement { .. } => Err(PeerFault::BadFrame),
    }
}
