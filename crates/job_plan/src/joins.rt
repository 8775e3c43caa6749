// Joins the rows of several tables.
ghost use Rattle.std.specs.Prelude.{◌≡◌, ◌++◌, IfOk, OnOk};
ghost use Rattle.std.specs.FinMap as map;
ghost use Rattle.flow_defs.specs.Rows.{row_pair, row_pairs};
ghost use Rattle.flow_defs.specs.Tables.{add_value, add_values};
ghost use Rattle.job_plan.specs.Joins.{lent_pairs};

use flow_defs::{AggKind, Row, Table, fold_value};
use plain_machine::laws::tally_in_parts;
use std::alloc::{AllocError, Global};

/// Lends the rows of one more table.
pub fn lend_rows<'r>(table: &'r [Row], rows: &mut Vec<&'r Row>) -> Result<(), AllocError>
    ensures { OnOk result (lent_pairs rows.new.items ≡ lent_pairs rows.old.items ++ row_pairs table.now) }
{
    for row in table {
        rows.push(row)?;
    }
    Ok(())
}

/// The table of all these rows, in which the values of each key are folded. The rows of a table stand in
/// order, so for a few tables the time is in proportion to the rows, times the logarithm of their number
/// for the look-ups; the keys are copied.
pub fn fold_rows(alloc: Global, agg: AggKind, rows: &mut [&Row]) -> Result<Table, AllocError>
    ensures { IfOk result (λ table. table ≡ add_values agg map.empty (lent_pairs rows.old)) }
{
    tally_in_parts();
    // In the order of their keys each goes behind those that are there, and moves none of them.
    rows.sort_by(alloc, |a, b| a.key.as_slice().cmp(b.key.as_slice()))?;
    let sorted: &[&Row] = rows;
    let mut table = Table::new(alloc);
    for row in sorted {
        add_row(agg, row, &mut table)?;
    }
    Ok(table)
}

// Folds the value of a row onto the one that its key has.
fn add_row(agg: AggKind, row: &Row, table: &mut Table) -> Result<(), AllocError>
    ensures { OnOk result (table.new ≡ add_value agg table.old (row_pair row.now)) }
{
    let key = row.key.as_slice();
    let old = table.get(key).unwrap_or(0);
    table.set(key, fold_value(agg, old, row.value))
}
