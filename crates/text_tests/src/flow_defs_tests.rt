// Each call that takes memory, once where there is enough.
use flow_defs::{AggKind, Bytes, ListOf, Table, Word, cut_line, fold_value, key_len, value_of};
use std::test::Fail;

#[test]
fn lists_grow_and_shrink(rt: HostRuntime) -> Result<(), Fail> {
    let mut list = ListOf::new(rt.alloc());
    list.reserve(2)?;
    list.push(1u64)?;
    list.push(2)?;
    list.as_mut_slice().reverse();
    assert_eq!(rt; list.as_slice(), [2, 1].as_slice());
    assert_eq!(rt; list.pop(), Some(1));
    list.clear();
    assert!(rt; list.as_slice().is_empty());
    Ok(())
}

#[test]
fn bytes_grow_and_shrink(rt: HostRuntime) -> Result<(), Fail> {
    let mut bytes = Bytes::new(rt.alloc());
    bytes.reserve(4)?;
    bytes.extend(b"abc")?;
    bytes.push(b'd')?;
    bytes.as_mut_slice().reverse();
    assert_eq!(rt; bytes.as_slice(), b"dcba".as_slice());
    assert_eq!(rt; bytes.pop(), Some(b'a'));
    Ok(())
}

#[test]
fn a_word_keeps_its_text(rt: HostRuntime) -> Result<(), Fail> {
    assert_eq!(rt; Word::of(rt.alloc(), "run")?.text(), "run");
    Ok(())
}

// What is set, and the rows that are then there.
const SET: &[(&str, u64)] = &[("b", 1), ("", 2), ("ab", 3), ("b", 4), ("a", 5)];

const ROWS: &[(&str, u64)] = &[("", 2), ("a", 5), ("ab", 3), ("b", 4)];

#[test]
fn a_table_keeps_its_rows_in_order(rt: HostRuntime) -> Result<(), Fail> {
    let mut table = Table::new(rt.alloc());
    for (key, value) in SET {
        table.set(key.as_bytes(), *value)?;
    }
    let mut rows = table.rows().iter();
    for (key, value) in ROWS {
        let row = rows.next().ok_or("a row is missing")?;
        assert_eq!(rt; row.key.as_slice(), key.as_bytes());
        assert_eq!(rt; row.value, *value);
        assert_eq!(rt; table.get(key.as_bytes()), Some(*value));
    }
    assert!(rt; rows.next().is_none());
    assert_eq!(rt; table.get(b"c"), None);
    Ok(())
}

#[test]
fn a_line_ends_at_the_first_newline(rt: HostRuntime) {
    assert_eq!(rt;
        cut_line(b"ab\nc\n"),
        Some((b"ab".as_slice(), b"c\n".as_slice()))
    );
    assert_eq!(rt; cut_line(b"\n"), Some((b"".as_slice(), b"".as_slice())));
    assert_eq!(rt; cut_line(b"ab"), None);
}

// Records, the length of the key of each, and its value.
const PARTED: &[(&str, usize, u64)] = &[
    ("k=7", 1, 7),
    ("a=b=7", 3, 7),
    ("m", 1, 0),
    ("k=", 1, 0),
    ("k=+7", 1, 0),
    ("=18446744073709551617", 0, 1),
];

#[test]
fn the_last_equals_parts_a_record(rt: HostRuntime) {
    for (line, key, value) in PARTED {
        let line = line.as_bytes();
        assert_eq!(rt; key_len(AggKind::Sum, line), *key);
        assert_eq!(rt; value_of(AggKind::Max, line), *value);
    }
    assert_eq!(rt; fold_value(AggKind::Sum, u64::MAX, 2), 1);
    assert_eq!(rt; fold_value(AggKind::Max, 7, 0), 7);
}
