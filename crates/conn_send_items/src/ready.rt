// The readers are told what stands first on each channel.
ghost use Rattle.std.specs.Prelude.{◌≡◌, ◌<◌, [], length};
ghost use Rattle.turn_cell.specs.Passes.{mine, seen};
ghost use Rattle.conn_send_items.specs.Fronts.{StandsAt};
ghost use Rattle.conn_send_items.specs.Steps.{AreCells, HasPasses, AllStand, KeepsStanding, BacklogAt, TellsBacklog, AreNoted, Sends};

use crate::cells::{Front, SendCells, SendPasses};
use crate::places::look_at;
use flow_defs::ListOf;
use reader_state::tell_ready;
use std::sync::Wait;

// Tells the reader of a channel what stands first there.
fn tell_front<R: Wait>(rt: &R, cells: &SendCells, passes: &mut SendPasses, place: usize) -> Front
    requires cells { AreCells cells.now }
    requires within { place < length cells.now.channels.now }
    requires passes { HasPasses cells.now passes.old }
    ensures passes { HasPasses cells.now passes.new }
    ensures quiet { Sends cells.now.channels.now passes.old.subpartitions.items passes.new.subpartitions.items (mine passes.old.readers) (mine passes.new.readers) [] }
    ensures pools { passes.new.pools ≡ passes.old.pools }
    ensures here { StandsAt cells.now.channels.now (seen passes.new.readers) passes.new.subpartitions.items place }
    ensures stays { KeepsStanding cells.now passes.old passes.new }
    ensures backlog { TellsBacklog cells.now passes.old passes.new place result }
{
    let front = look_at(rt, cells.subpartitions, &mut passes.subpartitions, place);
    tell_ready(
        rt,
        cells.readers,
        &mut passes.readers,
        cells.channels[place],
        front.head,
        front.backlog,
    );
    front
}

// Tells the reader of a channel what stands first there, where it is not what it was told last.
fn tell_new_front<R: Wait>(
    rt: &R,
    cells: &SendCells,
    passes: &mut SendPasses,
    place: usize,
    last: Front,
) -> Front
    requires cells { AreCells cells.now }
    requires within { place < length cells.now.channels.now }
    requires passes { HasPasses cells.now passes.old }
    requires last { BacklogAt cells.now.channels.now (mine passes.old.readers) passes.old.subpartitions.items place last.backlog }
    ensures passes { HasPasses cells.now passes.new }
    ensures quiet { Sends cells.now.channels.now passes.old.subpartitions.items passes.new.subpartitions.items (mine passes.old.readers) (mine passes.new.readers) [] }
    ensures pools { passes.new.pools ≡ passes.old.pools }
    ensures stays { KeepsStanding cells.now passes.old passes.new }
    ensures backlog { TellsBacklog cells.now passes.old passes.new place result }
{
    let front = look_at(rt, cells.subpartitions, &mut passes.subpartitions, place);
    if front != last {
        tell_ready(
            rt,
            cells.readers,
            &mut passes.readers,
            cells.channels[place],
            front.head,
            front.backlog,
        );
    }
    front
}

/// Tells each reader what stands first on its channel.
pub fn tell_fronts<R: Wait>(
    rt: &R,
    cells: &SendCells,
    passes: &mut SendPasses,
    told: &mut ListOf<Front>,
)
    requires cells { AreCells cells.now }
    requires passes { HasPasses cells.now passes.old }
    requires told { length told.old.items ≡ length cells.now.channels.now }
    ensures told { AreNoted cells.now passes.new told.new.items }
    ensures passes { HasPasses cells.now passes.new }
    ensures quiet { Sends cells.now.channels.now passes.old.subpartitions.items passes.new.subpartitions.items (mine passes.old.readers) (mine passes.new.readers) [] }
    ensures pools { passes.new.pools ≡ passes.old.pools }
    ensures stand { AllStand cells.now passes.new }
{
    for place in 0..cells.channels.len() {
        told.as_mut_slice()[place] = tell_front(rt, cells, passes, place);
    }
}

/// Tells each reader what stands first on its channel, where it is not what it was told last.
pub fn tell_new_fronts<R: Wait>(
    rt: &R,
    cells: &SendCells,
    passes: &mut SendPasses,
    told: &mut ListOf<Front>,
)
    requires cells { AreCells cells.now }
    requires passes { HasPasses cells.now passes.old }
    requires stand { AllStand cells.now passes.old }
    requires told { AreNoted cells.now passes.old told.old.items }
    ensures told { AreNoted cells.now passes.new told.new.items }
    ensures passes { HasPasses cells.now passes.new }
    ensures quiet { Sends cells.now.channels.now passes.old.subpartitions.items passes.new.subpartitions.items (mine passes.old.readers) (mine passes.new.readers) [] }
    ensures pools { passes.new.pools ≡ passes.old.pools }
    ensures stand { AllStand cells.now passes.new }
{
    for place in 0..cells.channels.len() {
        let last = told.as_slice()[place];
        told.as_mut_slice()[place] = tell_new_front(rt, cells, passes, place, last);
    }
}
