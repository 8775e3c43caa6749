// Desired buffer sizes, as they come to the subpartitions.
ghost use Rattle.std.specs.Prelude.{◌≡◌, ◌<◌, ◌≤◌, [], ◌∷◌, ◌++◌, length, All};
ghost use Rattle.turn_cell.specs.Passes.{IsPassOf, IsTurnOf, HasEntered, opened_with, mine, number, seen};
ghost use Rattle.credit_reader.specs.Senders.{AreDistinct};
ghost use Rattle.flow_defs.specs.Limits.{segment_min};
ghost use Rattle.subpartition.specs.Standing.{QueueStandsFor};
ghost use Rattle.subpartition.specs.declared.entry.SendEntry.TheVariants.{Size as SizeEntry};
ghost use Rattle.conn_parts.specs.Shares.{AreOwn};
ghost use Rattle.conn_read_control.specs.Rounds.{AreSized, HasDesired, TookSize};

use crate::cells::ControlCells;
use conn_parts::place_of;
use flow_defs::{ChannelId, ListOf, PeerFault};
use std::marker::Brand;
use std::sync::Wait;
use subpartition::laws::calls_add_entries;
use subpartition::{SendEntry, Subpartition};
use turn_cell::{Named, Pass, Turn, TurnCell};

// Ends the turn with this size.
fn leave_size<E: Named<SendEntry>>(turn: Turn<Subpartition>, n: u32)
    requires entry { E.entry ≡ SizeEntry n }
    requires turn { IsTurnOf turn.cell.now turn.pass.now }
    requires state { QueueStandsFor turn.state (seen turn.pass.now ++ (number turn.pass.now, SizeEntry n) ∷ []) }
    requires size { turn.state.size ≡ (opened_with turn.cell.now).size }
    ensures pass { IsPassOf turn.entry.cell.now turn.exit.1.0.now }
    ensures entered { HasEntered (SizeEntry n) turn.entry.pass.now turn.exit.1.0.now }
{
    turn.leave::<E>();
}

// Has buffers filled up to n bytes, in a turn of a subpartition.
fn fill_up_to<R: Wait>(rt: &R, cell: &TurnCell<Subpartition>, pass: &mut Pass<Subpartition>, n: u32)
    requires pass { IsPassOf cell.now pass.old × (number pass.old ≡ 2) }
    requires size { (segment_min ≤ n) × (n ≤ (opened_with cell.now).size) }
    ensures pass { IsPassOf cell.now pass.new × (number pass.new ≡ 2) }
    ensures told { mine pass.new ≡ mine pass.old ++ SizeEntry n ∷ [] }
{
    let mut turn = cell.enter(rt, pass);
    calls_add_entries();
    turn.state().set_fill_size(n);
    leave_size::<Brand>(turn, n);
}

// The same of the subpartition at a place.
fn desire_at<R: Wait>(
    rt: &R,
    cells: &[TurnCell<Subpartition>],
    passes: &mut ListOf<Pass<Subpartition>>,
    place: usize,
    size: u32,
    n: u32,
)
    requires passes { AreOwn 2 cells.now passes.old.items }
    requires place { place < length cells.now }
    requires sizes { AreSized size cells.now }
    requires range { (segment_min ≤ n) × (n ≤ size) }
    ensures passes { AreOwn 2 cells.now passes.new.items }
    ensures told { HasDesired place n passes.old.items passes.new.items }
{
    fill_up_to(rt, &cells[place], &mut passes.as_mut_slice()[place], n);
}

/// Gives a desired size to the subpartition of a channel.
pub(crate) fn take_size<R: Wait>(
    rt: &R,
    cells: &ControlCells,
    passes: &mut ListOf<Pass<Subpartition>>,
    channel: ChannelId,
    n: u32,
) -> Result<(), PeerFault>
    requires passes { AreOwn 2 cells.now.subpartitions.now passes.old.items }
    requires places { length cells.now.subpartitions.now ≡ length cells.now.channels.now }
    requires distinct { AreDistinct cells.now.channels.now }
    requires sizes { AreSized cells.now.size cells.now.subpartitions.now }
    requires least { segment_min ≤ n }
    ensures passes { AreOwn 2 cells.now.subpartitions.now passes.new.items }
    ensures took { TookSize cells.now.channels.now cells.now.size channel n passes.old.items passes.new.items result }
{
    let Some(place) = place_of(cells.channels, channel) else {
        return Err(PeerFault::Channel);
    };
    if n > cells.size {
        return Err(PeerFault::Size);
    }
    desire_at(rt, cells.subpartitions, passes, place, cells.size, n);
    Ok(())
}
