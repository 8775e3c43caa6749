// A round: frames are laid down, and written at once.
ghost use Rattle.std.specs.Prelude.{◌≡◌, ◌≤◌, [], length};
ghost use Rattle.turn_cell.specs.Passes.{mine};
ghost use Rattle.outside.specs.Links.{IsUnfinished};
ghost use Rattle.conn_send_items.specs.Giving.{Gives};
ghost use Rattle.conn_send_items.specs.Steps.{AreCells, HasPasses, AllStand, AreNoted, Lays, Writes};

use crate::announce::announce_one;
use crate::cells::{SendCells, SendPasses};
use crate::ready::tell_new_fronts;
use crate::room::Room;
use crate::step::send_one;
use outside::{Failed, LinkOut};
use std::sync::Wait;

// Takes items and lays their frames down while one can be sent and there is room. Answers whether there
// was one.
fn lay_items<'p, R: Wait>(
    rt: &R,
    cells: &SendCells<'_, 'p>,
    passes: &mut SendPasses<'p>,
    room: &mut Room,
) -> bool
    requires cells { AreCells cells.now }
    requires passes { HasPasses cells.now passes.old }
    requires stand { AllStand cells.now passes.old }
    requires ended { length room.old.ended.items ≡ length cells.now.channels.now }
    requires told { AreNoted cells.now passes.old room.old.told.items }
    ensures passes { HasPasses cells.now passes.new }
    ensures stand { AllStand cells.now passes.new }
    ensures ended { length room.new.ended.items ≡ length cells.now.channels.now }
    ensures told { AreNoted cells.now passes.new room.new.told.items }
    ensures gives { Gives cells.now.channels.now passes.old passes.new }
    ensures lays { Lays cells.now.channels.now passes.old.subpartitions.items passes.new.subpartitions.items (mine passes.old.readers) (mine passes.new.readers) room.old.ended.items room.new.ended.items room.old.outgoing room.new.outgoing }
{
    let mut some = false;
    while room.outgoing.has_room() {
        if !send_one(rt, cells, passes, room) {
            return some;
        }
        some = true;
    }
    some
}

// Lays announcements down while one is due and there is room. Answers whether there was one.
fn lay_announcements<R: Wait>(
    rt: &R,
    cells: &SendCells,
    passes: &mut SendPasses,
    room: &mut Room,
) -> bool
    requires cells { AreCells cells.now }
    requires passes { HasPasses cells.now passes.old }
    requires stand { AllStand cells.now passes.old }
    requires told { AreNoted cells.now passes.old room.old.told.items }
    ensures passes { HasPasses cells.now passes.new }
    ensures stand { AllStand cells.now passes.new }
    ensures ended { room.new.ended ≡ room.old.ended }
    ensures told { AreNoted cells.now passes.new room.new.told.items }
    ensures kept { (passes.new.subpartitions ≡ passes.old.subpartitions) × (passes.new.pools ≡ passes.old.pools) }
    ensures lays { Lays cells.now.channels.now passes.old.subpartitions.items passes.new.subpartitions.items (mine passes.old.readers) (mine passes.new.readers) room.old.ended.items room.new.ended.items room.old.outgoing room.new.outgoing }
{
    let mut some = false;
    while room.outgoing.has_room() {
        if !announce_one(rt, cells, passes, room) {
            return some;
        }
        some = true;
    }
    some
}

/// Tells the readers what stands first, and writes what can be sent and what is to be announced. Answers
/// whether there was anything.
pub fn round<'p, O: LinkOut, R: Wait>(
    rt: &R,
    cells: &SendCells<'_, 'p>,
    passes: &mut SendPasses<'p>,
    room: &mut Room,
    out: &mut O,
) -> Result<bool, Failed>
    requires cells { AreCells cells.now }
    requires passes { HasPasses cells.now passes.old }
    requires stand { AllStand cells.now passes.old }
    requires told { AreNoted cells.now passes.old room.old.told.items }
    requires ended { length room.old.ended.items ≡ length cells.now.channels.now }
    requires empty { room.old.outgoing ≡ [] }
    requires unfinished { IsUnfinished (O.finished out.old) }
    ensures passes { HasPasses cells.now passes.new }
    ensures stand { AllStand cells.now passes.new }
    ensures told { AreNoted cells.now passes.new room.new.told.items }
    ensures ended { length room.new.ended.items ≡ length cells.now.channels.now }
    ensures empty { room.new.outgoing ≡ [] }
    ensures unfinished { O.finished out.new ≡ O.finished out.old }
    ensures line { O.line out.new ≡ O.line out.old }
    ensures never_falls { O.faults out.old ≤ O.faults out.new }
    ensures gives { Gives cells.now.channels.now passes.old passes.new }
    ensures writes { Writes cells.now.channels.now passes.old.subpartitions.items passes.new.subpartitions.items (mine passes.old.readers) (mine passes.new.readers) room.old.ended.items room.new.ended.items (O.sent out.old) (O.sent out.new) (O.faults out.old) (O.faults out.new) result }
{
    tell_new_fronts(rt, cells, passes, &mut room.told);
    let sent = lay_items(rt, cells, passes, room);
    let announced = lay_announcements(rt, cells, passes, room);
    match room.outgoing.write_to(rt, out) {
        Ok(()) => Ok(sent || announced),
        Err(failed) => Err(failed),
    }
}
