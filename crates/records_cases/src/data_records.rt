// What data records say.
use super::expect::{at, header_of, record_of, refused_as};
use records::{Fields, Record};
use std::process::Abort;
use std::test::Fail;

// In the record with the number `row`, each field has the number and stands at the byte beside it.
fn says(rt: &impl Abort, case: usize, record: &Record, row: usize, cases: &[(usize, i64, usize)]) {
    for (field, number, byte) in cases {
        assert_eq!(rt;
            record.number(*field),
            Some(*number),
            "case {case}, field {field}"
        );
        let place = at(row, *field, *byte);
        assert_eq!(rt;
            record.place(*field),
            Some(place),
            "case {case}, field {field}"
        );
    }
}

// None of these fields is there and kept.
fn says_nothing_of(rt: &impl Abort, case: usize, record: &Record, fields: &[usize]) {
    for field in fields {
        assert!(rt;
            record.number(*field).is_none(),
            "case {case}, field {field}"
        );
        assert!(rt;
            record.place(*field).is_none(),
            "case {case}, field {field}"
        );
    }
}

// The one field of these bytes is this number.
fn reads(rt: &impl Abort, case: usize, file: &[u8], number: i64) -> Result<(), Fail> {
    let mut fields = Fields::over(file);
    let record = record_of(&mut fields)?;
    assert_eq!(rt; record.count(), 1, "case {case}");
    says(rt, case, &record, 0, &[(0, number, 0)]);
    says_nothing_of(rt, case, &record, &[1]);
    Ok(())
}

#[test]
fn numbers(rt: HostRuntime) -> Result<(), Fail> {
    let cases: [(&[u8], i64); 16] = [
        (b"0", 0),
        (b"+0", 0),
        (b"-0", 0),
        (b"7", 7),
        (b"+7", 7),
        (b"-7", -7),
        (b"-007\r\n", -7),
        (b"\"8\"", 8),
        (b"\"-8\"\r\n", -8),
        (b"\"+08\"", 8),
        (b"999999999", 999_999_999),
        (b"1000000000", 1_000_000_000),
        (b"+1000000000", 1_000_000_000),
        (b"-1000000000", -1_000_000_000),
        (b"00000000000000000000000000001000000000", 1_000_000_000),
        (b"-00000000000000000000000000001000000000", -1_000_000_000),
    ];
    for (i, (file, number)) in cases.iter().enumerate() {
        reads(&rt, i, file, *number)?;
    }
    Ok(())
}

#[test]
fn fields_of_a_record(rt: HostRuntime) -> Result<(), Fail> {
    let mut fields = Fields::over(b"stay,a,b\r\n-1,\"20\",+3");
    let _ = header_of(&mut fields)?;
    let record = record_of(&mut fields)?;
    assert_eq!(rt; record.at(), at(1, 0, 10));
    assert_eq!(rt; record.count(), 3);
    says(&rt, 0, &record, 1, &[(0, -1, 10), (1, 20, 13), (2, 3, 18)]);
    says_nothing_of(&rt, 0, &record, &[3, 4, 16, 17, usize::MAX]);
    Ok(())
}

// Each width fits, or is refused as 9 at the record, which begins at byte 8.
fn fits(rt: &impl Abort, record: &Record, cases: &[(usize, bool)]) {
    for (i, (width, fit)) in cases.iter().enumerate() {
        match record.check_width(*width) {
            Ok(()) => assert!(rt; *fit, "width {width} is not refused"),
            Err(fault) => {
                assert!(rt; !*fit, "width {width} is refused");
                refused_as(rt, i, fault, 9, 8);
            }
        }
    }
}

#[test]
fn seventeen_fields_are_all_kept(rt: HostRuntime) -> Result<(), Fail> {
    let mut fields = Fields::over(b"stay,a\r\n0,1,2,3,4,5,6,7,8,9,10,11,12,13,14,15,16\r\n");
    let _ = header_of(&mut fields)?;
    let record = record_of(&mut fields)?;
    assert_eq!(rt; record.count(), 17);
    says(&rt, 0, &record, 1, &[(0, 0, 8), (16, 16, 46)]);
    says_nothing_of(&rt, 0, &record, &[17]);
    fits(&rt, &record, &[(15, false), (16, true), (17, false)]);
    Ok(())
}

// Of 18 fields the last, at byte 49, is counted and not kept.
#[test]
fn eighteen_fields(rt: HostRuntime) -> Result<(), Fail> {
    let mut fields = Fields::over(b"stay,a\r\n0,1,2,3,4,5,6,7,8,9,10,11,12,13,14,15,16,17\r\n-1,2");
    let _ = header_of(&mut fields)?;
    let record = record_of(&mut fields)?;
    assert_eq!(rt; record.count(), 18);
    says(
        &rt,
        0,
        &record,
        1,
        &[(0, 0, 8), (9, 9, 26), (10, 10, 28), (16, 16, 46)],
    );
    says_nothing_of(&rt, 0, &record, &[17, 18]);
    fits(
        &rt,
        &record,
        &[
            (0, false),
            (16, false),
            (17, true),
            (18, false),
            (usize::MAX, false),
        ],
    );
    let next = record_of(&mut fields)?;
    says(&rt, 0, &next, 2, &[(0, -1, 53), (1, 2, 56)]);
    Ok(())
}
