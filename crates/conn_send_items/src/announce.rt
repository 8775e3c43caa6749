// One backlog is announced.
ghost use Rattle.std.specs.Prelude.{◌≡◌, ◌+◌, ◌<◌, ◌≤◌, [], length, IsTrue};
ghost use Rattle.turn_cell.specs.Passes.{mine};
ghost use Rattle.net_frames.specs.Limits.{frame_max};
ghost use Rattle.conn_parts.specs.declared.outgoing.TheConstants.{OUT_ROOM};
ghost use Rattle.conn_send_items.specs.Steps.{AreCells, HasPasses, AllStand, AreNoted, Lays};

use crate::cells::{SendCells, SendPasses};
use crate::room::Room;
use net_frames::Frame;
use reader_state::next_to_announce;
use std::sync::Wait;

/// Lays down the announcement that is due first, if one is due.
pub fn announce_one<R: Wait>(
    rt: &R,
    cells: &SendCells,
    passes: &mut SendPasses,
    room: &mut Room,
) -> bool
    requires cells { AreCells cells.now }
    requires passes { HasPasses cells.now passes.old }
    requires stand { AllStand cells.now passes.old }
    requires told { AreNoted cells.now passes.old room.old.told.items }
    requires room { length room.old.outgoing + frame_max ≤ OUT_ROOM }
    ensures passes { HasPasses cells.now passes.new }
    ensures stand { AllStand cells.now passes.new }
    ensures ended { room.new.ended ≡ room.old.ended }
    ensures told { AreNoted cells.now passes.new room.new.told.items }
    ensures kept { (passes.new.subpartitions ≡ passes.old.subpartitions) × (passes.new.pools ≡ passes.old.pools) }
    ensures lays { Lays cells.now.channels.now passes.old.subpartitions.items passes.new.subpartitions.items (mine passes.old.readers) (mine passes.new.readers) room.old.ended.items room.new.ended.items room.old.outgoing room.new.outgoing }
    ensures grows { IsTrue result → length room.old.outgoing < length room.new.outgoing }
{
    let Some(told) = next_to_announce(rt, cells.readers, &mut passes.readers) else {
        return false;
    };
    let frame = Frame::BacklogAnnouncement {
        channel: told.channel,
        backlog: told.backlog,
    };
    room.outgoing.put(&frame, &[]);
    true
}
