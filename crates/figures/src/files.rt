// Files of known bytes, whole and damaged, through the record layer.
use faults::RecordFault;
use records::walk;
use std::alloc::{AllocError, Global};
use std::test::Fail;

/// The check of a payload, reckoned apart from the code under test.
fn reckon(payload: &[u8]) -> u32 {
    let mut sum: u32 = 1;
    let mut weight: u32 = 1;
    for byte in payload {
        sum = sum.wrapping_add(weight.wrapping_mul(u32::from(*byte)));
        weight = weight.wrapping_add(1);
    }
    sum
}

/// One record more.
fn push_record(file: &mut Vec<u8>, kind: u8, payload: &[u8]) -> Result<(), AllocError> {
    let length = (payload.len() & 0xff_ffff) as u32;
    let [l0, l1, l2, _] = length.to_le_bytes();
    file.extend_from_slice(&[kind, l0, l1, l2])?;
    file.extend_from_slice(&reckon(payload).to_le_bytes())?;
    file.extend_from_slice(payload)
}

/// A file of records of these kinds, each with a payload of as many bytes as its kind.
fn file_of(heap: Global, kinds: &[u8]) -> Result<Vec<u8>, AllocError> {
    let mut file = Vec::new(heap);
    let bytes = [7u8; 255];
    for kind in kinds {
        push_record(&mut file, *kind, &bytes[0..*kind as usize])?;
    }
    Ok(file)
}

#[test]
fn cut_at_every_length(rt: HostRuntime) -> Result<(), Fail> {
    let file = file_of(rt.alloc(), &[2, 3, 4, 5, 6, 1])?;
    let ends = [10usize, 21, 33, 46, 60, 69];
    for length in 0..file.len() {
        let mut before: usize = 0;
        let mut whole = length == 0;
        for end in ends {
            if end <= length {
                before = before.wrapping_add(1);
                whole = end == length;
            }
        }
        let expected = if length == 0 {
            RecordFault::Size
        } else if whole {
            RecordFault::Ending(before)
        } else {
            RecordFault::Cut(before)
        };
        assert_eq!(rt; walk(&file[0..length]).err(), Some(expected));
    }
    assert_eq!(rt; file.len(), 69);
    assert!(rt; walk(file.as_slice()).is_ok());
    Ok(())
}

#[test]
fn every_kind_first(rt: HostRuntime) -> Result<(), Fail> {
    for kind in 0..256u32 {
        let mut file = file_of(rt.alloc(), &[2, 3, 4, 5, 6, 1])?;
        assert!(rt; file.len() == 69);
        file[0] = (kind & 0xff) as u8;
        let expected = match kind {
            2 => None,
            1 | 3..=6 => Some(RecordFault::Order(0)),
            128..=255 => Some(RecordFault::Order(1)),
            _ => Some(RecordFault::Kind(0)),
        };
        assert_eq!(rt; walk(file.as_slice()).err(), expected);
    }
    Ok(())
}

#[test]
fn orders_broken(rt: HostRuntime) -> Result<(), Fail> {
    let cases: [([u8; 7], RecordFault); 9] = [
        ([3, 2, 4, 5, 6, 1, 1], RecordFault::Order(0)),
        ([2, 4, 3, 5, 6, 1, 1], RecordFault::Order(1)),
        ([2, 3, 5, 4, 6, 1, 1], RecordFault::Order(2)),
        ([2, 3, 4, 6, 5, 1, 1], RecordFault::Order(3)),
        ([2, 3, 4, 5, 1, 6, 1], RecordFault::Order(4)),
        ([2, 2, 3, 4, 5, 6, 1], RecordFault::Order(1)),
        ([2, 3, 4, 5, 6, 6, 1], RecordFault::Order(5)),
        ([2, 3, 4, 5, 6, 1, 200], RecordFault::Ending(6)),
        ([200, 2, 128, 3, 4, 5, 6], RecordFault::Ending(7)),
    ];
    for (kinds, fault) in cases {
        let file = file_of(rt.alloc(), &kinds)?;
        assert_eq!(rt; walk(file.as_slice()).err(), Some(fault));
    }
    Ok(())
}

#[test]
fn notes_are_skipped_whole(rt: HostRuntime) -> Result<(), Fail> {
    let plain = file_of(rt.alloc(), &[2, 3, 4, 5, 6, 1])?;
    let noted = file_of(rt.alloc(), &[2, 3, 130, 4, 5, 6, 1])?;
    let short = walk(plain.as_slice()).ok().ok_or("plain")?;
    let long = walk(noted.as_slice()).ok().ok_or("noted")?;
    assert_eq!(rt; short.rules.start, long.rules.start);
    assert_eq!(rt; short.map.start, 29);
    assert_eq!(rt; long.map.start, 29 + 138);
    assert_eq!(rt; short.map.length, long.map.length);
    assert_eq!(rt; short.end.record, 5);
    assert_eq!(rt; long.end.record, 6);
    Ok(())
}

#[test]
fn damaged_checks(rt: HostRuntime) -> Result<(), Fail> {
    for place in 4..10usize {
        let mut file = file_of(rt.alloc(), &[2, 3, 4, 5, 6, 1])?;
        assert!(rt; file.len() == 69);
        file[place] ^= 1;
        assert_eq!(rt; walk(file.as_slice()).err(), Some(RecordFault::Check(0)));
    }
    Ok(())
}
