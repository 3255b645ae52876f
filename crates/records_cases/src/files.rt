// Whole files: small ones read to their end, and the longest.
use super::expect::{at, ended, header_of, header_refused, record_of};
use records::{Fields, Record};
use std::alloc::{AllocError, Global};
use std::process::Abort;
use std::test::Fail;

// The record begins at this row and byte, and has a stay and two values.
fn three(rt: &impl Abort, record: &Record, row: usize, byte: usize, numbers: [i64; 3]) {
    assert_eq!(rt; record.at(), at(row, 0, byte));
    assert_eq!(rt; record.count(), 3);
    for (field, number) in numbers.iter().enumerate() {
        assert_eq!(rt; record.number(field), Some(*number), "field {field}");
    }
    assert!(rt; record.check_width(2).is_ok());
}

// The last line may have a line end or not.
#[test]
fn read_to_the_end(rt: HostRuntime) -> Result<(), Fail> {
    let cases: [&[u8]; 2] = [
        b"stay,level,load\r\n1,-2,3\r\n\"4\",+5,\"06\"\r\n",
        b"stay,level,load\r\n1,-2,3\r\n\"4\",+5,\"06\"",
    ];
    for (i, file) in cases.iter().enumerate() {
        let mut fields = Fields::over(file);
        assert_eq!(rt; header_of(&mut fields)?.width(), 2, "case {i}");
        three(&rt, &record_of(&mut fields)?, 1, 17, [1, -2, 3]);
        three(&rt, &record_of(&mut fields)?, 2, 25, [4, 5, 6]);
        ended(&rt, i, &mut fields);
    }
    Ok(())
}

#[test]
fn a_header_alone(rt: HostRuntime) -> Result<(), Fail> {
    let cases: [&[u8]; 3] = [b"stay,a", b"stay,a\r\n", b"\"stay\",\"a\"\r\n"];
    for (i, file) in cases.iter().enumerate() {
        let mut fields = Fields::over(file);
        assert_eq!(rt; header_of(&mut fields)?.width(), 1, "case {i}");
        ended(&rt, i, &mut fields);
    }
    Ok(())
}

// These bytes, and then the same byte up to a length.
fn filled(heap: Global, start: &[u8], byte: u8, length: usize) -> Result<Vec<u8>, AllocError> {
    let mut file = start.to_vec(heap)?;
    for _ in start.len()..length {
        file.push(byte)?;
    }
    Ok(file)
}

// 65,536 bytes may stand: here all but the header's are the digits of one 0.
#[test]
fn longest_file(rt: HostRuntime) -> Result<(), Fail> {
    let file = filled(rt.alloc(), b"stay,a\r\n", b'0', 65_536)?;
    assert_eq!(rt; file.len(), 65_536);
    let mut fields = Fields::over(file.as_slice());
    assert_eq!(rt; header_of(&mut fields)?.width(), 1);
    let record = record_of(&mut fields)?;
    assert_eq!(rt; record.count(), 1);
    assert_eq!(rt; record.number(0), Some(0));
    ended(&rt, 0, &mut fields);
    Ok(())
}

// One byte more is refused as 1 at 0, before the grammar is looked at.
#[test]
fn too_long(rt: HostRuntime) -> Result<(), Fail> {
    let file = filled(rt.alloc(), b"stay,a\r\n", b'0', 65_537)?;
    assert_eq!(rt; file.len(), 65_537);
    header_refused(&rt, 0, file.as_slice(), 1, 0);
    let garbled = filled(rt.alloc(), b"stay,", b'\xFF', 65_537)?;
    header_refused(&rt, 1, garbled.as_slice(), 1, 0);
    let longest = filled(rt.alloc(), b"stay,", b'\xFF', 65_536)?;
    header_refused(&rt, 2, longest.as_slice(), 8, 5);
    Ok(())
}
