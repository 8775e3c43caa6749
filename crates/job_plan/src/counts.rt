// The running count of records, by the function of the aggregate.
// It lies in std's hash map, which measured faster than the ordered one. Its keys are `Bytes`, which hash in
// one piece.
ghost use Rattle.std.specs.Prelude.{◌≡◌, ◌≤◌, true, false, length, take, None, IfOk, OnOk, OnErr};
ghost use Rattle.std.specs.FinMap as map;
ghost use Rattle.flow_defs.specs.Aggregates.{key_of, value_of, folded};
ghost use Rattle.flow_defs.specs.Records.{IsShort};
ghost use Rattle.flow_defs.specs.Tables.{add};
ghost use Rattle.job_plan.specs.Entries.{entry_values};
ghost use Rattle.stage_fns.specs.Meets.{MeetsAgg};

use flow_defs::{AggKind, Bytes, Row, Table};
use stage_fns::AggFn;
use std::alloc::{AllocError, Global};
use std::collections::HashMap;
use std::marker::Model;

/// The values of keys so far. Contracts see a finite map.
#[derive(Drop)]
pub struct Counts {
    alloc: Global,
    numbers: HashMap<Bytes, u64>,
    // The front of a record that was looked up last. It is kept so that a look-up takes no memory.
    key: Bytes,
}

impl Model for Counts {
    ghost use Rattle.std.specs.Prelude.{ℕ};
    ghost use Rattle.std.specs.Coded.{coded_ℕ, coded_list};
    ghost use Rattle.std.specs.FinMap as map;
    ghost use Rattle.flow_defs.specs.Tables.{Values};
    ghost use Rattle.job_plan.specs.Entries.{entry_values};

    ghost Value = { Values };

    ghost coded = { map.code (coded_list coded_ℕ) coded_ℕ };

    ghost view = { λ c. entry_values c.numbers.entries };
}

impl Counts {
    /// No counts, which take no memory.
    pub fn new(alloc: Global) -> Self
        ensures { result ≡ map.empty }
    {
        Counts {
            alloc,
            numbers: HashMap::new(alloc),
            key: Bytes::new(alloc),
        }
    }

    /// The counts of this table, as a task goes on from a checkpoint with them. Each key is copied once.
    pub fn of_table(alloc: Global, table: &Table) -> Result<Self, AllocError>
        ensures { IfOk result (λ counts. counts ≡ table.now) }
    {
        let rows = table.rows();
        let mut numbers = HashMap::new(alloc);
        for row in rows {
            let key = Bytes::of(alloc, row.key.as_slice())?;
            put_new(&mut numbers, key, row.value)?;
        }
        Ok(Counts {
            alloc,
            numbers,
            key: Bytes::new(alloc),
        })
    }

    /// Adds one more record by the function of the aggregate. A record that is its own key, as in a count, is
    /// kept as that key where it is new, so that only the map takes memory. Where the key is but a front of
    /// the record, a new one is copied, and one that came before takes no memory, once a longer one was
    /// looked up.
    pub fn add(&mut self, agg: AggKind, f: &AggFn, record: Bytes) -> Result<(), AllocError>
        requires meets { MeetsAgg agg (AggFn.pre f.now) (AggFn.post f.now) }
        requires short { IsShort «record».items }
        ensures ok { OnOk result (self.new ≡ add agg self.old «record».items) }
        ensures err { OnErr result (self.new ≡ self.old) }
    {
        let (len, first) = answer(agg, f, record.as_slice(), 0);
        if len == record.as_slice().len() {
            return self.add_whole(agg, f, record, first);
        }
        self.add_front(agg, f, record.as_slice(), len, first)
    }

    // Adds a record that is its own key. The key's value is `first` where it is new.
    fn add_whole(
        &mut self,
        agg: AggKind,
        f: &AggFn,
        record: Bytes,
        first: u64,
    ) -> Result<(), AllocError>
        requires meets { MeetsAgg agg (AggFn.pre f.now) (AggFn.post f.now) }
        requires short { IsShort «record».items }
        requires key { «record».items ≡ key_of agg «record».items }
        requires first { first ≡ folded agg 0 (value_of agg «record».items) }
        ensures ok { OnOk result (self.new ≡ add agg self.old «record».items) }
        ensures err { OnErr result (self.new ≡ self.old) }
    {
        if add_known(&mut self.numbers, &record, agg, f, record.as_slice()) {
            return Ok(());
        }
        put_new(&mut self.numbers, record, first)
    }

    // Adds a record whose key is its front of this length. The key's value is `first` where it is new.
    fn add_front(
        &mut self,
        agg: AggKind,
        f: &AggFn,
        record: &[u8],
        len: usize,
        first: u64,
    ) -> Result<(), AllocError>
        requires meets { MeetsAgg agg (AggFn.pre f.now) (AggFn.post f.now) }
        requires short { IsShort «record».now }
        requires within { len ≤ length «record».now }
        requires key { take len «record».now ≡ key_of agg «record».now }
        requires first { first ≡ folded agg 0 (value_of agg «record».now) }
        ensures ok { OnOk result (self.new ≡ add agg self.old «record».now) }
        ensures err { OnErr result (self.new ≡ self.old) }
    {
        self.key.clear();
        self.key.extend(&record[..len])?;
        if add_known(&mut self.numbers, &self.key, agg, f, record) {
            return Ok(());
        }
        let key = Bytes::of(self.alloc, self.key.as_slice())?;
        put_new(&mut self.numbers, key, first)
    }

    /// The counts as a table, as a snapshot holds it. Each key is copied once, and the rows are sorted
    /// in place: for n keys it compares some n log n times.
    pub fn to_table(&self) -> Result<Table, AllocError>
        ensures { IfOk result (λ table. table ≡ self.now) }
    {
        let mut rows = Vec::with_capacity(self.alloc, self.numbers.len())?;
        for (key, number) in self.numbers.iter() {
            let key = Bytes::of(self.alloc, key.as_slice())?;
            let value = *number;
            rows.push(Row { key, value })?;
        }
        Ok(Table::of_rows(self.alloc, rows))
    }
}

// Folds the record onto the value that its key has, and answers whether it has one.
fn add_known(
    numbers: &mut HashMap<Bytes, u64>,
    key: &Bytes,
    agg: AggKind,
    f: &AggFn,
    record: &[u8],
) -> bool
    requires meets { MeetsAgg agg (AggFn.pre f.now) (AggFn.post f.now) }
    requires short { IsShort «record».now }
    requires key { key.now.items ≡ key_of agg «record».now }
    ensures known { result ≡ true → entry_values numbers.new.entries ≡ add agg (entry_values numbers.old.entries) «record».now }
    ensures new { result ≡ false → map.get (entry_values numbers.old.entries) key.now.items ≡ None }
    ensures unchanged { result ≡ false → numbers.new.entries ≡ numbers.old.entries }
{
    match numbers.get_mut(key) {
        Some(number) => {
            *number = answer(agg, f, record, *number).1;
            true
        }
        None => false,
    }
}

// Gives a key this value.
fn put_new(numbers: &mut HashMap<Bytes, u64>, key: Bytes, value: u64) -> Result<(), AllocError>
    ensures ok { OnOk result (entry_values numbers.new.entries ≡ map.insert (entry_values numbers.old.entries) key.items value) }
    ensures err { OnErr result (numbers.new.entries ≡ numbers.old.entries) }
{
    numbers.insert(key, value)?;
    Ok(())
}

// What the function of an aggregate of this kind answers.
fn answer(agg: AggKind, f: &AggFn, record: &[u8], old: u64) -> (usize, u64)
    requires meets { MeetsAgg agg (AggFn.pre f.now) (AggFn.post f.now) }
    requires short { IsShort «record».now }
    ensures within { result.0 ≤ length «record».now }
    ensures key { take result.0 «record».now ≡ key_of agg «record».now }
    ensures value { result.1 ≡ folded agg old (value_of agg «record».now) }
{
    f(record, old)
}
