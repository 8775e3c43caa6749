// The functions of the aggregates that there are.
ghost use Rattle.std.specs.Prelude.{◌≡◌, ◌≤◌, length, take};
ghost use Rattle.flow_defs.specs.Aggregates.{key_of, value_of, folded};
ghost use Rattle.flow_defs.specs.declared.job.AggKind.TheVariants.{Count, Sum, Max};

use flow_defs::{AggKind, fold_value, key_len, value_of};

/// Counts the records of each key, which is the whole record.
pub fn count(record: &[u8], old: u64) -> (usize, u64)
    ensures within { result.0 ≤ length «record».now }
    ensures key { take result.0 «record».now ≡ key_of Count «record».now }
    ensures value { result.1 ≡ folded Count old (value_of Count «record».now) }
{
    (record.len(), old.wrapping_add(1))
}

/// Adds up the values of each key, modulo 2^64. The key is what stands before the record's last `=`.
pub fn sum(record: &[u8], old: u64) -> (usize, u64)
    ensures within { result.0 ≤ length «record».now }
    ensures key { take result.0 «record».now ≡ key_of Sum «record».now }
    ensures value { result.1 ≡ folded Sum old (value_of Sum «record».now) }
{
    (
        key_len(AggKind::Sum, record),
        fold_value(AggKind::Sum, old, value_of(AggKind::Sum, record)),
    )
}

/// Keeps the greatest value of each key, which is as that of a sum.
pub fn max(record: &[u8], old: u64) -> (usize, u64)
    ensures within { result.0 ≤ length «record».now }
    ensures key { take result.0 «record».now ≡ key_of Max «record».now }
    ensures value { result.1 ≡ folded Max old (value_of Max «record».now) }
{
    (
        key_len(AggKind::Max, record),
        fold_value(AggKind::Max, old, value_of(AggKind::Max, record)),
    )
}
