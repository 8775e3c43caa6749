// The counts of a few records, as a table and on from one.
use flow_defs::{AggKind, Bytes, RECORD_MAX, Table};
use job_plan::Counts;
use stage_fns::{AggFn, FnTable, sum};
use std::alloc::Global;
use std::process::Abort;
use std::test::Fail;

// Two of the records are keys themselves: one that is new, and one that came before.
const RECORDS: &[&str] = &[
    "b=1",
    "=2",
    "a key that is longer than most=3",
    "b=4",
    "ab",
    "a=5",
    "b",
];

// The rows of their table.
const ROWS: &[(&str, u64)] = &[
    ("", 2),
    ("a", 5),
    ("a key that is longer than most", 3),
    ("ab", 0),
    ("b", 5),
];

// Behind these rows, these records lead to the same table.
const FIRST_ROWS: &[(&str, u64)] = &[("b", 1), ("a key that is longer than most", 3), ("", 2)];

const MORE_RECORDS: &[&str] = &["b=4", "ab", "a=5"];

// Adds these records to sums.
fn add_records<R: Abort>(
    rt: &R,
    alloc: Global,
    counts: &mut Counts,
    records: &[&str],
) -> Result<(), Fail> {
    let mut functions = FnTable::new(alloc);
    let f: AggFn = Box::new(alloc, |record: &[u8], old: u64| sum(record, old))?;
    functions.add_agg(AggKind::Sum, f)?;
    let f = functions.agg(AggKind::Sum).ok_or("no function")?;
    for record in records {
        let record = Bytes::of(alloc, record.as_bytes())?;
        assert!(rt; record.as_slice().len() <= RECORD_MAX);
        counts.add(AggKind::Sum, f, record)?;
    }
    Ok(())
}

// The table has these rows and no other.
fn compare_rows<R: Abort>(rt: &R, table: &Table) -> Result<(), Fail> {
    let mut rows = table.rows().iter();
    for (key, value) in ROWS {
        let row = rows.next().ok_or("a row is missing")?;
        assert_eq!(rt; row.key.as_slice(), key.as_bytes());
        assert_eq!(rt; row.value, *value);
    }
    assert!(rt; rows.next().is_none());
    Ok(())
}

#[test]
fn counts_become_a_table_in_the_order_of_their_keys(rt: HostRuntime) -> Result<(), Fail> {
    let alloc = rt.alloc();
    let mut counts = Counts::new(alloc);
    add_records(&rt, alloc, &mut counts, RECORDS)?;
    compare_rows(&rt, &counts.to_table()?)
}

#[test]
fn counts_go_on_from_a_table(rt: HostRuntime) -> Result<(), Fail> {
    let alloc = rt.alloc();
    let mut first = Table::new(alloc);
    for (key, value) in FIRST_ROWS {
        first.set(key.as_bytes(), *value)?;
    }
    let mut counts = Counts::of_table(alloc, &first)?;
    add_records(&rt, alloc, &mut counts, MORE_RECORDS)?;
    compare_rows(&rt, &counts.to_table()?)
}
