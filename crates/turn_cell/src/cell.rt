// The cell.
ghost use Rattle.std.specs.Prelude.{◌≡◌, ◌<◌};

use crate::rule::{Law, Opening, View};
use crate::turned::Turned;
use atomic_table::Table;
use std::alloc::Global;

/// A state that threads share. Only the thread whose turn it is has the state in hand.
pub struct TurnCell<S: Turned> {
    pub(crate) table: Table<Option<S>, View<Opening<S>, S::Entry>, Opening<S>, Law, Global>,
    ghost counts: { (table.shared.table_id.words ≡ 19) × (table.shared.table_id.slots ≡ 1) },
    ghost some_pass: { 0 < table.shared.key.passes },
}

impl<S: Turned> TurnCell<S> {
    // The cell of this table, in which no turn was taken.
    pub(crate) fn of(
        table: Table<Option<S>, View<Opening<S>, S::Entry>, Opening<S>, Law, Global>,
    ) -> Self
        requires { (table.shared.table_id.words ≡ 19) × (table.shared.table_id.slots ≡ 1) × (0 < table.shared.key.passes) }
        ensures { result.table ≡ table }
    {
        TurnCell { table }
    }

    pub(crate) fn into_table(
        self,
    ) -> Table<Option<S>, View<Opening<S>, S::Entry>, Opening<S>, Law, Global>
        ensures { result ≡ self.table }
    {
        let Self { table } = self;
        table
    }
}

// A cell that is let go tells nothing of its history.
impl<S: Turned + Drop> Drop for TurnCell<S> {
    fn drop(self) {
        let Self { table } = self;
        drop(table);
    }
}
