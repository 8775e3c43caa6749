// Cells of one kind, and their passes.
ghost use Rattle.std.specs.Prelude.{◌≡◌, [], ◌∷◌, ◌++◌, ◌+◌, ◌<◌, length, IfOk, OnOk};
ghost use Rattle.turn_cell.specs.Closing.{AreFresh, IsFresh};
ghost use Rattle.turn_cell.specs.Passes.{IsPassOf, opened_with};
ghost use Rattle.job_cells.specs.Groups.{AreDealt, HasMore, IsMade};

use flow_defs::ListOf;
use std::alloc::{AllocError, Global};
use turn_cell::{Pass, TurnCell, Turned};

/// Cells of one kind, and the passes of two loops at each, in the order of the cells.
#[derive(Drop)]
pub struct Group<S: Turned + Drop> {
    pub cells: ListOf<TurnCell<S>>,
    pub first: ListOf<Pass<S>>,
    pub second: ListOf<Pass<S>>,
}

// Takes the last of these passes.
fn deal<S: Turned>(cell: &TurnCell<S>, passes: &mut ListOf<Pass<S>>) -> Pass<S>
    requires fresh { AreFresh cell.now passes.old.items }
    requires some { 0 < length passes.old.items }
    ensures fresh { AreFresh cell.now passes.new.items }
    ensures many { length passes.old.items ≡ length passes.new.items + 1 }
    ensures last { IsMade cell.now (length passes.new.items) result }
{
    // Only the contract speaks of it.
    let _cell = cell;
    passes.take_last()
}

/// A cell round this state, with the passes of a task and a loop, or of two loops.
pub fn cell_of_two<S: Turned + Drop>(
    alloc: Global,
    state: S,
) -> Result<(TurnCell<S>, Pass<S>, Pass<S>), AllocError>
    requires { S.stands state [] }
    ensures opened { IfOk result (λ r. opened_with r.0 ≡ state) }
    ensures made { IfOk result (λ r. IsMade r.0 0 r.1 × IsMade r.0 1 r.2) }
{
    let Ok((cell, mut passes)) = TurnCell::new(alloc, state, 2) else {
        return Err(AllocError);
    };
    let second = deal(&cell, &mut passes);
    let first = deal(&cell, &mut passes);
    Ok((cell, first, second))
}

impl<S: Turned + Drop> Group<S> {
    /// No cells.
    pub fn new(alloc: Global) -> Self
        ensures dealt { AreDealt result }
        ensures cells { result.cells.items ≡ [] }
    {
        Group {
            cells: ListOf::new(alloc),
            first: ListOf::new(alloc),
            second: ListOf::new(alloc),
        }
    }

    /// Adds a cell round this state, and hands out the task's pass of it.
    pub fn add(&mut self, alloc: Global, state: S) -> Result<Pass<S>, AllocError>
        requires dealt { AreDealt self.old }
        requires new { S.stands state [] }
        ensures dealt { OnOk result (AreDealt self.new) }
        ensures more { IfOk result (HasMore state self.old.cells.items self.new.cells.items) }
    {
        let Ok((cell, mut passes)) = TurnCell::new(alloc, state, 3) else {
            return Err(AllocError);
        };
        let second = deal(&cell, &mut passes);
        let first = deal(&cell, &mut passes);
        let task = deal(&cell, &mut passes);
        self.cells.push(cell)?;
        self.first.push(first)?;
        self.second.push(second)?;
        Ok(task)
    }
}
