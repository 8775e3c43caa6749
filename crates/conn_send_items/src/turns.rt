// Turns of the sender at a subpartition.
ghost use Rattle.std.specs.Prelude.{◌≡◌, ◌≢◌, ◌≤◌, Some};
ghost use Rattle.turn_cell.specs.Passes.{opened_with, seen};
ghost use Rattle.flow_defs.specs.declared.task.Head.TheVariants.{Nothing};
ghost use Rattle.flow_defs.specs.Limits.{credit_max};
ghost use Rattle.subpartition.specs.Queues.{HasLength, parcel_of};
ghost use Rattle.subpartition.specs.Theorems.{FirstStays};
ghost use Rattle.conn_send_items.specs.Fronts.{IsSender, NoneTaken, OneTaken, first_after, front_after, backlog_after, FrontStays};
ghost use Rattle.conn_send_items.specs.Items.{IsNumbered};

use crate::cells::Front;
use std::marker::Brand;
use std::sync::Wait;
use subpartition::laws::{
    allowed_histories, calls_add_entries, calls_tell, histories_keep_order, passes_tell,
};
use subpartition::{Item, Subpartition};
use turn_cell::{Pass, TurnCell};

/// An item that was taken, and what then stands first.
#[derive(Drop)]
pub struct Taken {
    pub item: Item,
    pub front: Front,
}

/// Looks at what stands first.
pub fn look<R: Wait>(rt: &R, cell: &TurnCell<Subpartition>, pass: &mut Pass<Subpartition>) -> Front
    requires { IsSender cell.now pass.old }
    ensures pass { IsSender cell.now pass.new }
    ensures taken { NoneTaken (seen pass.old) (seen pass.new) }
    ensures stays { FrontStays (seen pass.old) (seen pass.new) }
    ensures front { front_after (seen pass.new) ≡ result.head }
    ensures backlog { backlog_after (seen pass.new) ≡ result.backlog }
    ensures fits { result.backlog ≤ credit_max }
{
    let mut turn = cell.enter(rt, pass);
    passes_tell();
    let queue = turn.state();
    let front = Front {
        head: queue.head(),
        backlog: queue.backlog(),
    };
    turn.leave_as_is();
    front
}

/// Takes the item that stands first: what stood first as the pass saw it, or a front barrier that came before
/// it where it was data.
pub fn take<R: Wait>(rt: &R, cell: &TurnCell<Subpartition>, pass: &mut Pass<Subpartition>) -> Taken
    requires pass { IsSender cell.now pass.old }
    requires standing { front_after (seen pass.old) ≢ Nothing }
    ensures pass { IsSender cell.now pass.new }
    ensures taken { OneTaken (seen pass.old) (seen pass.new) (parcel_of result.item) result.front.backlog }
    ensures was { FirstStays (first_after (seen pass.old)) (Some (parcel_of result.item)) }
    ensures numbered { IsNumbered result.item }
    ensures size { HasLength (opened_with cell.now).size result.item }
    ensures front { front_after (seen pass.new) ≡ result.front.head }
    ensures backlog { backlog_after (seen pass.new) ≡ result.front.backlog }
    ensures fits { result.front.backlog ≤ credit_max }
{
    let mut turn = cell.enter(rt, pass);
    calls_add_entries();
    calls_tell();
    passes_tell();
    histories_keep_order();
    allowed_histories();
    let Some(item) = turn.state().take() else {
        unreachable!()
    };
    let queue = turn.state();
    let front = Front {
        head: queue.head(),
        backlog: queue.backlog(),
    };
    turn.leave::<Brand>();
    Taken { item, front }
}
