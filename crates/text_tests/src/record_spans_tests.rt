// Records that go through buffers and pieces of all small sizes.
use flow_defs::RECORD_MAX;
use record_spans::{NextFault, Reader, write_span};
use std::test::Fail;

const RECORDS: [&str; 4] = ["ab", "", "a longer record", "c"];

#[test]
fn records_come_back_from_any_pieces(rt: HostRuntime) -> Result<(), Fail> {
    for size in [1, 2, 3, 7, 64] {
        let mut room = vec![in rt.alloc(); 0u8; size]?;
        let mut reader = Reader::new(rt.alloc());
        for record in RECORDS {
            let line = record.as_bytes();
            assert!(rt; line.len() <= RECORD_MAX);
            assert!(rt; reader.next()?.is_none());
            let mut done = 0;
            for _ in 0..line.len() + 4 {
                if done < line.len() + 4 {
                    let count = write_span(line, done, room.as_mut_slice());
                    assert!(rt; count > 0);
                    reader.feed(&room[..count])?;
                    done += count;
                }
            }
            let read = reader.next()?.ok_or("the record is whole")?;
            assert_eq!(rt; read.as_slice(), line);
        }
        assert_eq!(rt; reader.rest().len(), 0);
    }
    Ok(())
}

#[test]
fn a_record_of_the_greatest_length_is_read(rt: HostRuntime) -> Result<(), Fail> {
    let record = vec![in rt.alloc(); b'a'; 1_048_576]?;
    let mut reader = Reader::new(rt.alloc());
    reader.feed(&[0, 0x10, 0, 0])?;
    reader.feed(record.as_slice())?;
    let read = reader.next()?.ok_or("the record is whole")?;
    assert!(rt; read.as_slice() == record.as_slice());
    assert_eq!(rt; reader.rest().len(), 0);
    Ok(())
}

#[test]
fn a_length_above_the_limit_is_told(rt: HostRuntime) -> Result<(), Fail> {
    let mut reader = Reader::new(rt.alloc());
    reader.feed(&[0, 0x10, 0, 1, b'a'])?;
    match reader.next() {
        Err(fault) => assert_eq!(rt; fault, NextFault::TooLong { len: 1_048_577 }),
        Ok(_) => Err("the length is above the limit")?,
    }
    assert_eq!(rt; reader.rest(), [0, 0x10, 0, 1, b'a'].as_slice());
    Ok(())
}
