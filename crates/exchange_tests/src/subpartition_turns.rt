// A task and a sender at a subpartition, each in a thread of its own.
ghost use Rattle.std.specs.Prelude.{◌≡◌, [], ◌∷◌, ◌++◌, length, map, option_to_list, OnOk, IfOk, IfErr};
ghost use Rattle.flow_defs.specs.Parcels.{data_of};
ghost use Rattle.turn_cell.specs.Closing.{AreFresh};
ghost use Rattle.turn_cell.specs.History.{entries_of};
ghost use Rattle.turn_cell.specs.Passes.{IsPassOf, opened_with, passes_of, mine, number, seen};
ghost use Rattle.subpartition.specs.declared.entry.SendEntry.TheVariants.{Put};
ghost use Rattle.subpartition.specs.Sending.{taken};
ghost use Rattle.subpartition.specs.Queues.{bytes_of, parcel_of};

use fixtures::{give_back, put_in_turn, take_in_turn};
use flow_defs::ListOf;
use std::sync::Wait;
use std::thread::{Threads, join};
use subpartition::laws::{histories_keep_order, passes_tell};
use subpartition::{Filled, Item, Subpartition};
use turn_cell::{Pass, TurnCell};

// A new pass of the task puts a buffer.
fn put_first<R: Wait>(
    rt: &R,
    cell: &TurnCell<Subpartition>,
    task: Pass<Subpartition>,
    filled: Filled,
) -> (Pass<Subpartition>, Result<(), Filled>)
    requires task { IsPassOf cell.now task × (number task ≡ 0) × (mine task ≡ []) }
    requires size { length filled.segment ≡ (opened_with cell.now).size }
    ensures { IsPassOf cell.now result.0 × (number result.0 ≡ 0) × OnOk result.1 (mine result.0 ≡ Put (bytes_of filled) ∷ []) × IfErr result.1 (λ back. back ≡ filled) }
{
    let mut task = task;
    let put = put_in_turn(rt, cell, &mut task, filled);
    (task, put)
}

// A new pass of the sender takes an item.
fn take_first<R: Wait>(
    rt: &R,
    cell: &TurnCell<Subpartition>,
    sender: Pass<Subpartition>,
) -> (Pass<Subpartition>, Option<Item>)
    requires { IsPassOf cell.now sender × (number sender ≡ 1) × (seen sender ≡ []) }
    ensures { IsPassOf cell.now result.0 × (number result.0 ≡ 1) × (taken (entries_of (seen result.0)) ≡ map parcel_of (option_to_list result.1)) }
{
    let mut sender = sender;
    let item = take_in_turn(rt, cell, &mut sender);
    (sender, item)
}

// What became of a buffer that a task put: what a sender took, and what is left in the subpartition.
pub(crate) struct Sent {
    pub(crate) item: Option<Item>,
    pub(crate) left: Subpartition,
}

// A task puts a buffer and a sender takes, each in a thread of its own, and then the cell is closed. The
// bytes put are those taken and then those left, whichever came first. Without room the buffer is handed
// back.
pub(crate) fn send_in_threads<R: Threads + Wait + Sync>(
    rt: &R,
    cell: TurnCell<Subpartition>,
    passes: ListOf<Pass<Subpartition>>,
    filled: Filled,
) -> Result<Sent, Filled>
    requires passes { AreFresh cell passes.items × (length passes.items ≡ 2) × (passes_of cell ≡ 2) }
    requires size { length filled.segment ≡ (opened_with cell).size }
    ensures sent { IfOk result (λ sent. bytes_of filled ≡ data_of (map parcel_of (option_to_list sent.item)) ++ data_of (map parcel_of sent.left.items)) }
    ensures back { IfErr result (λ back. back ≡ filled) }
{
    let mut passes = passes;
    let sender = passes.take_last();
    let task = passes.take_last();
    let ((task, put), (sender, item)) = join(
        rt,
        || -> (Pass<Subpartition>, Result<(), Filled>)
            requires { IsPassOf cell task × (number task ≡ 0) × (mine task ≡ []) × (length filled.segment ≡ (opened_with cell).size) }
            ensures { IsPassOf cell result.0 × (number result.0 ≡ 0) × OnOk result.1 (mine result.0 ≡ Put (bytes_of filled) ∷ []) × IfErr result.1 (λ back. back ≡ filled) }
        { put_first(rt, &cell, task, filled) },
        || -> (Pass<Subpartition>, Option<Item>)
            requires { IsPassOf cell sender × (number sender ≡ 1) × (seen sender ≡ []) }
            ensures { IsPassOf cell result.0 × (number result.0 ≡ 1) × (taken (entries_of (seen result.0)) ≡ map parcel_of (option_to_list result.1)) }
        { take_first(rt, &cell, sender) },
    );
    give_back(&mut passes, task);
    give_back(&mut passes, sender);
    histories_keep_order();
    passes_tell();
    let left = cell.close(passes);
    match put {
        Ok(()) => Ok(Sent { item, left }),
        Err(back) => Err(back),
    }
}
