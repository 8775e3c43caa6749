// A table of keys and their values.
ghost use Rattle.std.specs.Prelude.{◌≡◌, OnOk, OnErr};
ghost use Rattle.std.specs.FinMap as map;
ghost use Rattle.flow_defs.specs.Tables.{key_cmp};

use crate::Bytes;
use std::alloc::{AllocError, Global};
use std::cmp::Ordering;
use std::marker::Model;

/// A key and its value.
#[derive(Debug, Drop)]
pub struct Row {
    pub key: Bytes,
    pub value: u64,
}

/// A sorted list of rows with distinct keys: for look-ups, snapshots and output.
///
/// Contracts see a finite map from keys, in byte order, to values. It keeps the allocator that it
/// was made with. To count in, take a map of std's: a new key amid the rows moves all that follow.
#[derive(Debug, Drop)]
pub struct Table {
    alloc: Global,
    rows: Vec<Row>,
}

impl Model for Table {
    ghost use Rattle.std.specs.Prelude.{ℕ};
    ghost use Rattle.std.specs.Coded.{coded_ℕ, coded_list};
    ghost use Rattle.std.specs.FinMap as map;
    ghost use Rattle.flow_defs.specs.Tables.{Values, key_cmp};

    ghost Value = { Values };

    ghost coded = { map.code (coded_list coded_ℕ) coded_ℕ };

    ghost use Rattle.flow_defs.specs.Rows.{row_pairs, IsSortedByKeys};

    ghost view = { λ t. map.from_sorted (row_pairs t.rows.items) };

    ghost invariant = { λ t. IsSortedByKeys (row_pairs t.rows.items) };
}

impl Table {
    ghost use Rattle.flow_defs.specs.Rows.{row_pairs, HasDistinctKeys};

    /// A table of no keys, which takes no memory.
    pub fn new(alloc: Global) -> Self
        ensures { result ≡ map.empty }
    {
        Table {
            alloc,
            rows: Vec::new(alloc),
        }
    }

    /// The table of these rows, which may stand in any order. They are sorted in place, so it takes no
    /// memory and copies no key. For n rows it compares some n log n times.
    pub fn of_rows(alloc: Global, mut rows: Vec<Row>) -> Self
        requires { HasDistinctKeys (row_pairs rows.items) }
        ensures { result ≡ map.from_entries (row_pairs rows.items) }
    {
        rows.sort_unstable_by(|a, b| key_order(a, b.key.as_slice()));
        Table { alloc, rows }
    }

    /// The rows, in the byte order of their keys.
    pub fn rows(&self) -> &[Row]
        ensures { row_pairs result.now ≡ map.entries self.now }
    {
        &self.rows
    }

    /// The value of this key. The cost is the logarithm of the number of rows.
    pub fn get(&self, key: &[u8]) -> Option<u64>
        ensures { result ≡ map.get self.now key.now }
    {
        match self.rows.binary_search_by(|row| key_order(row, key)) {
            Ok(place) => Some(self.rows[place].value),
            Err(_) => None,
        }
    }

    /// Gives the row of this key this value, and adds the row where there is none. The cost is the
    /// logarithm of the number of rows, and for a new key also the number of rows behind it.
    pub fn set(&mut self, key: &[u8], value: u64) -> Result<(), AllocError>
        ensures ok { OnOk result (self.new ≡ map.insert self.old key.now value) }
        ensures err { OnErr result (self.new ≡ self.old) }
    {
        match self.rows.binary_search_by(|row| key_order(row, key)) {
            Ok(place) => {
                self.rows[place].value = value;
                Ok(())
            }
            Err(place) => {
                let key = Bytes::of(self.alloc, key)?;
                self.rows.insert(place, Row { key, value })?;
                Ok(())
            }
        }
    }
}

// How the key of a row stands to this key.
fn key_order(row: &Row, key: &[u8]) -> Ordering
    ensures { result ≡ key_cmp row.now.key.items key.now }
{
    row.key.as_slice().cmp(key)
}
