// The image of one source and one counting task with a record in flight, changed and cut.
use channel_state::{ImageFault, read_image, write_image};
use std::alloc::Global;
use std::test::Fail;

const HEAD: &[u8] = b"FLWI\x01\0\0\0\0\0\0\0\x01\0\0\0\0\x1csource in\naggregate count 1\n";

const BODY: &[u8] =
    b"\0\0\0\0\0\0\0\0\0\0\0\0\0\0\0\0\0\0\0\0\x01\0\0\0\x01a\0\0\0\0\0\0\0\x01\0\0\0\0\0\0\0\x04\0\0\0\x01";

// Where its fields begin.
const PLACES: [usize; 15] = [0, 4, 5, 13, 14, 46, 54, 55, 63, 67, 72, 80, 84, 92, 97];

// Its bytes with another last flag and another end.
fn bytes_with(alloc: Global, last: u8, end: &[u8]) -> Result<Vec<u8>, Fail> {
    let mut bytes = Vec::from_slice(alloc, HEAD)?;
    bytes.extend_from_slice(BODY)?;
    bytes.extend_from_slice(end)?;
    if bytes.len() > 13 {
        bytes[13] = last;
    }
    Ok(bytes)
}

// The place of the fault, if there is one.
fn fault_of(alloc: Global, bytes: &[u8]) -> Result<Option<u64>, Fail> {
    match read_image(alloc, bytes) {
        Ok(_) => Ok(None),
        Err(ImageFault::NotImage { place }) => Ok(Some(place)),
        Err(ImageFault::Memory) => Err("out of memory")?,
    }
}

#[test]
fn faults_are_told_at_their_places(rt: HostRuntime) -> Result<(), Fail> {
    let rows: [(u8, &[u8], Option<u64>); 4] = [
        (0, b"\0\0\0\x01aIWLF", None),
        (0, b"\0\0\0\x02bcIWLF", Some(92)),
        (0, b"\0\0\0\x01aIWLF\0", Some(101)),
        (1, b"\0\0\0\x01aIWLF", Some(54)),
    ];
    for (last, end, place) in rows {
        let bytes = bytes_with(rt.alloc(), last, end)?;
        assert_eq!(rt; fault_of(rt.alloc(), &bytes)?, place);
    }
    Ok(())
}

#[test]
fn cut_images_are_told_at_the_cut_field(rt: HostRuntime) -> Result<(), Fail> {
    let bytes = bytes_with(rt.alloc(), 0, b"\0\0\0\x01aIWLF")?;
    let mut cut = 0;
    for len in 0..bytes.len() {
        if PLACES.contains(&len) {
            cut = len;
        }
        assert_eq!(rt; fault_of(rt.alloc(), &bytes[..len])?, Some(cut as u64));
    }
    Ok(())
}

// Its bytes up to the key, and from the value to the bytes of the record in flight that came in.
const ONE_ROW: &[u8] = b"\0\0\0\0\0\0\0\0\0\0\0\0\0\0\0\0\0\0\0\0\x01";

const VALUE: &[u8] = b"\0\0\0\0\0\0\0\x01\0\0\0\0\0\0\0\x04";

// Its bytes with a key of so many bytes, and a record of so many in flight.
fn bytes_of(alloc: Global, key: u32, record: u32) -> Result<Vec<u8>, Fail> {
    let mut bytes = Vec::from_slice(alloc, HEAD)?;
    bytes.extend_from_slice(ONE_ROW)?;
    bytes.extend_from_slice(&key.to_be_bytes())?;
    bytes.extend_from_slice(&vec![in alloc; b'k'; key as usize]?)?;
    bytes.extend_from_slice(VALUE)?;
    for _twice in 0..2 {
        bytes.extend_from_slice(&record.to_be_bytes())?;
    }
    bytes.extend_from_slice(&vec![in alloc; b'r'; record as usize]?)?;
    bytes.extend_from_slice(b"IWLF")?;
    Ok(bytes)
}

#[test]
fn a_longer_key_or_record_is_told(rt: HostRuntime) -> Result<(), Fail> {
    for (key, record, place) in [
        (1_048_576, 1, None),
        (1_048_577, 1, Some(67)),
        (1, 1_048_576, None),
        (1, 1_048_577, Some(92)),
    ] {
        let bytes = bytes_of(rt.alloc(), key, record)?;
        assert_eq!(rt; fault_of(rt.alloc(), &bytes)?, place);
    }
    Ok(())
}

#[test]
fn what_is_read_is_written_again(rt: HostRuntime) -> Result<(), Fail> {
    for (key, record) in [(1, 1), (1_048_576, 1), (1, 1_048_576)] {
        let bytes = bytes_of(rt.alloc(), key, record)?;
        let image = read_image(rt.alloc(), &bytes)?;
        let again = write_image(rt.alloc(), &image)?;
        assert!(rt; again.as_slice() == bytes.as_slice());
    }
    Ok(())
}
