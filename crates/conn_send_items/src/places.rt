// Turns at the subpartition of a place.
ghost use Rattle.std.specs.Prelude.{◌≡◌, ◌≢◌, ◌≤◌, ◌<◌, length, ℕ, Some};
ghost use Rattle.flow_defs.specs.declared.task.Head.TheVariants.{Nothing};
ghost use Rattle.flow_defs.specs.Limits.{credit_max};
ghost use Rattle.subpartition.specs.Queues.{HasLength, parcel_of};
ghost use Rattle.subpartition.specs.Theorems.{FirstStays};
ghost use Rattle.conn_parts.specs.Shares.{AreOwn, seen_at};
ghost use Rattle.conn_send_items.specs.Fronts.{HaveQueueSize, NoneTaken, OneTaken, first_after, front_after, backlog_after, FrontStays, OthersStay};
ghost use Rattle.conn_send_items.specs.Items.{IsNumbered};

use crate::cells::Front;
use crate::turns::{Taken, look, take};
use flow_defs::ListOf;
use std::sync::Wait;
use subpartition::Subpartition;
use turn_cell::{Pass, TurnCell};

/// Looks at what stands first at a place.
pub fn look_at<R: Wait>(
    rt: &R,
    cells: &[TurnCell<Subpartition>],
    passes: &mut ListOf<Pass<Subpartition>>,
    place: usize,
) -> Front
    requires within { place < length cells.now }
    requires passes { AreOwn 1 cells.now passes.old.items }
    ensures passes { AreOwn 1 cells.now passes.new.items }
    ensures taken { NoneTaken (seen_at place passes.old.items) (seen_at place passes.new.items) }
    ensures stays { FrontStays (seen_at place passes.old.items) (seen_at place passes.new.items) }
    ensures front { front_after (seen_at place passes.new.items) ≡ result.head }
    ensures backlog { backlog_after (seen_at place passes.new.items) ≡ result.backlog }
    ensures fits { result.backlog ≤ credit_max }
    ensures others { OthersStay place passes.old.items passes.new.items }
{
    look(rt, &cells[place], &mut passes.as_mut_slice()[place])
}

/// Takes the item that stands first at a place: what stood first as the pass saw it, or a front barrier that
/// came before it where it was data.
pub fn take_at<R: Wait>(
    rt: &R,
    cells: &[TurnCell<Subpartition>],
    passes: &mut ListOf<Pass<Subpartition>>,
    place: usize,
) -> Taken
    requires within { place < length cells.now }
    requires passes { AreOwn 1 cells.now passes.old.items }
    requires standing { front_after (seen_at place passes.old.items) ≢ Nothing }
    ensures passes { AreOwn 1 cells.now passes.new.items }
    ensures taken { OneTaken (seen_at place passes.old.items) (seen_at place passes.new.items) (parcel_of result.item) result.front.backlog }
    ensures was { FirstStays (first_after (seen_at place passes.old.items)) (Some (parcel_of result.item)) }
    ensures numbered { IsNumbered result.item }
    ensures size { (size : ℕ) → HaveQueueSize size cells.now → HasLength size result.item }
    ensures front { front_after (seen_at place passes.new.items) ≡ result.front.head }
    ensures backlog { backlog_after (seen_at place passes.new.items) ≡ result.front.backlog }
    ensures fits { result.front.backlog ≤ credit_max }
    ensures others { OthersStay place passes.old.items passes.new.items }
{
    take(rt, &cells[place], &mut passes.as_mut_slice()[place])
}
