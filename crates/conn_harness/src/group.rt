// Cells of one kind, and their passes.
ghost use Rattle.std.specs.Prelude.{◌≡◌, [], OnOk};
ghost use Rattle.conn_harness.specs.Groups.{AreDealt, HasMore};

use flow_defs::ListOf;
use std::alloc::{AllocError, Global};
use turn_cell::{Pass, TurnCell, Turned};

/// Cells of one kind, and three passes of each in the order of the cells: that of a task, and those of two
/// loops.
#[derive(Drop)]
pub struct Group<S: Turned + Drop> {
    pub cells: ListOf<TurnCell<S>>,
    pub tasks: ListOf<Pass<S>>,
    pub first: ListOf<Pass<S>>,
    pub second: ListOf<Pass<S>>,
}

impl<S: Turned + Drop> Group<S> {
    /// No cells.
    pub fn new(alloc: Global) -> Self
        ensures dealt { AreDealt result }
        ensures cells { result.cells.items ≡ [] }
    {
        Group {
            cells: ListOf::new(alloc),
            tasks: ListOf::new(alloc),
            first: ListOf::new(alloc),
            second: ListOf::new(alloc),
        }
    }

    /// Adds a cell round this state.
    pub fn add(&mut self, alloc: Global, state: S) -> Result<(), AllocError>
        requires dealt { AreDealt self.old }
        requires new { S.stands state [] }
        ensures dealt { OnOk result (AreDealt self.new) }
        ensures cells { OnOk result (HasMore state self.old.cells.items self.new.cells.items) }
    {
        let Ok((cell, mut passes)) = TurnCell::new(alloc, state, 3) else {
            return Err(AllocError);
        };
        let second = passes.take_last();
        let first = passes.take_last();
        let task = passes.take_last();
        self.cells.push(cell)?;
        self.tasks.push(task)?;
        self.first.push(first)?;
        self.second.push(second)?;
        Ok(())
    }
}
