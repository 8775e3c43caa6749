// One item is taken and laid down.
ghost use Rattle.std.specs.Prelude.{◌≡◌, ◌+◌, ◌<◌, ◌≤◌, ◌++◌, ◌∷◌, [], true, false, length, slice_get, slice_set as set, Some, IfSome, IfNone, IsTrue};
ghost use Rattle.turn_cell.specs.Passes.{mine, seen};
ghost use Rattle.net_frames.specs.Frames.{IsFrame, spelling};
ghost use Rattle.flow_defs.specs.Limits.{credit_max};
ghost use Rattle.net_frames.specs.Limits.{frame_max};
ghost use Rattle.conn_parts.specs.declared.outgoing.TheConstants.{OUT_ROOM};
ghost use Rattle.subpartition.specs.Queues.{HasLength};
ghost use Rattle.conn_parts.specs.Shares.{GrewAt};
ghost use Rattle.conn_send_items.specs.Giving.{TookOne, Gives, returned_of};
ghost use Rattle.conn_send_items.specs.Items.{IsNumbered, response};
ghost use Rattle.conn_send_items.specs.Steps.{AreCells, HasPasses, AllStand, TellsBacklog, KeepsBacklogs, AreNoted, Sends, Lays, EndsWith};

use crate::cells::{Front, SendCells, SendPasses};
use crate::items::{arrival_of, content_of, sent_kind};
use crate::places::take_at;
use crate::room::Room;
use crate::turns::Taken;
use conn_parts::{give_segment, place_of};
use flow_defs::{ChannelId, ListOf};
use net_frames::Frame;
use reader_state::{next_to_send, tell_sent};
use std::sync::Wait;
use subpartition::{Filled, Item};

// An item that was taken and is to be laid down.
#[derive(Drop)]
struct Next {
    item: Item,
    channel: ChannelId,
    place: usize,
    sequence: u32,
    backlog: u32,
    // What stands first once it was taken, as the readers were told.
    front: Front,
}

// Takes the item whose turn it is, if one can be sent, and tells the readers.
fn take_next<'p, R: Wait>(
    rt: &R,
    cells: &SendCells<'_, 'p>,
    passes: &mut SendPasses<'p>,
) -> Option<Next>
    requires cells { AreCells cells.now }
    requires passes { HasPasses cells.now passes.old }
    requires stand { AllStand cells.now passes.old }
    ensures passes { HasPasses cells.now passes.new }
    ensures stand { AllStand cells.now passes.new }
    ensures none { IfNone result (Sends cells.now.channels.now passes.old.subpartitions.items passes.new.subpartitions.items (mine passes.old.readers) (mine passes.new.readers) []) }
    ensures some { IfSome result (λ next. Sends cells.now.channels.now passes.old.subpartitions.items passes.new.subpartitions.items (mine passes.old.readers) (mine passes.new.readers) (response next.channel next.sequence next.backlog next.item ∷ [])) }
    ensures kept { IfNone result (KeepsBacklogs cells.now passes.old passes.new) }
    ensures backlog { IfSome result (λ next. TellsBacklog cells.now passes.old passes.new next.place next.front) }
    ensures place { IfSome result (λ next. (next.place < length cells.now.channels.now) × (slice_get cells.now.channels.now next.place ≡ Some next.channel)) }
    ensures ranges { IfSome result (λ next. IsNumbered next.item × (next.backlog ≤ credit_max)) }
    ensures took { IfSome result (λ next. TookOne next.place next.item passes.old.subpartitions.items passes.new.subpartitions.items) }
    ensures size { IfSome result (λ next. HasLength cells.now.size next.item) }
    ensures pools { passes.new.pools ≡ passes.old.pools }
{
    let Some(channel) = next_to_send(rt, cells.readers, &mut passes.readers) else {
        return None;
    };
    let Some(place) = place_of(cells.channels, channel) else {
        unreachable!()
    };
    let Taken { item, front } = take_at(rt, cells.subpartitions, &mut passes.subpartitions, place);
    let sequence = tell_sent(
        rt,
        cells.readers,
        &mut passes.readers,
        channel,
        sent_kind(&item),
        front.head,
        front.backlog,
    );
    Some(Next {
        item,
        channel,
        place,
        sequence,
        backlog: front.backlog,
        front,
    })
}

// Lays down the frame of an item.
fn lay(room: &mut Room, next: &Next)
    requires ranges { IsNumbered next.now.item × (next.now.backlog ≤ credit_max) }
    requires room { length room.old.outgoing + frame_max ≤ OUT_ROOM }
    requires place { next.now.place < length room.old.ended.items }
    ensures laid { room.new.outgoing ≡ room.old.outgoing ++ spelling (response next.now.channel next.now.sequence next.now.backlog next.now.item).0 (response next.now.channel next.now.sequence next.now.backlog next.now.item).1 }
    ensures frame { IsFrame (response next.now.channel next.now.sequence next.now.backlog next.now.item).0 (response next.now.channel next.now.sequence next.now.backlog next.now.item).1 }
    ensures told { room.new.told ≡ room.old.told }
    ensures ended { EndsWith next.now.place next.now.item room.old.ended.items room.new.ended.items }
{
    let frame = Frame::BufferResponse {
        channel: next.channel,
        sequence: next.sequence,
        backlog: next.backlog,
        what: arrival_of(&next.item),
    };
    room.outgoing.put(&frame, content_of(&next.item));
    if let Item::End = next.item {
        room.ended.as_mut_slice()[next.place] = true;
    }
}

// Gives the segment of an item back to the pool of the sending task.
fn give_back<'p, R: Wait>(
    rt: &R,
    cells: &SendCells<'_, 'p>,
    passes: &mut SendPasses<'p>,
    next: Next,
)
    requires cells { AreCells cells.now }
    requires place { slice_get cells.now.channels.now next.place ≡ Some next.channel }
    requires size { HasLength cells.now.size next.item }
    requires passes { HasPasses cells.now passes.old }
    ensures passes { HasPasses cells.now passes.new }
    ensures returned { GrewAt next.channel.from (returned_of next.item) passes.old.pools.items passes.new.pools.items }
    ensures readers { passes.new.readers ≡ passes.old.readers }
    ensures subpartitions { passes.new.subpartitions ≡ passes.old.subpartitions }
{
    let Next { item, channel, .. } = next;
    if let Item::Buffer(filled) = item {
        let Filled { segment, .. } = filled;
        let from = channel.from as usize;
        give_segment(rt, cells.pools, &mut passes.pools, from, segment);
    }
}

// Notes what the readers were told last of the channel at a place. Else they would never be told of a queue
// that is filled again to the same head and backlog.
fn note_front(told: &mut ListOf<Front>, place: usize, front: Front)
    requires { place < length told.old.items }
    ensures { told.new.items ≡ set told.old.items place front }
{
    told.as_mut_slice()[place] = front;
}

/// Takes the item whose turn it is and lays its frame down, if one can be sent.
pub fn send_one<'p, R: Wait>(
    rt: &R,
    cells: &SendCells<'_, 'p>,
    passes: &mut SendPasses<'p>,
    room: &mut Room,
) -> bool
    requires cells { AreCells cells.now }
    requires passes { HasPasses cells.now passes.old }
    requires stand { AllStand cells.now passes.old }
    requires ended { length room.old.ended.items ≡ length cells.now.channels.now }
    requires told { AreNoted cells.now passes.old room.old.told.items }
    requires room { length room.old.outgoing + frame_max ≤ OUT_ROOM }
    ensures passes { HasPasses cells.now passes.new }
    ensures stand { AllStand cells.now passes.new }
    ensures ended { length room.new.ended.items ≡ length cells.now.channels.now }
    ensures told { AreNoted cells.now passes.new room.new.told.items }
    ensures lays { Lays cells.now.channels.now passes.old.subpartitions.items passes.new.subpartitions.items (mine passes.old.readers) (mine passes.new.readers) room.old.ended.items room.new.ended.items room.old.outgoing room.new.outgoing }
    ensures gives { Gives cells.now.channels.now passes.old passes.new }
    ensures grows { IsTrue result → length room.old.outgoing < length room.new.outgoing }
{
    let Some(next) = take_next(rt, cells, passes) else {
        return false;
    };
    lay(room, &next);
    note_front(&mut room.told, next.place, next.front);
    give_back(rt, cells, passes, next);
    true
}
