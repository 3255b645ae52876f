// Data records that are refused. In most files the header takes 8 bytes, so the first record begins at 8 and its second field at 10.
use super::expect::{header_of, record_of, records_refused, refused_as};
use records::Fields;
use std::process::Abort;
use std::test::Fail;

// A field that breaks RFC 4180 is refused as 8.
#[test]
fn outside_the_grammar(rt: HostRuntime) {
    records_refused(
        &rt,
        8,
        &[
            (b"stay,a\r\n1,2\r", 10),
            (b"stay,a\r\n1,2\n", 10),
            (b"stay,a\r\n1,2\r3", 10),
            (b"stay,a\r\n1,2\n3,4\n", 10),
            (b"stay,a\r\n1\r\r\n", 8),
            (b"stay,a\r\n1,2\"", 10),
            (b"stay,a\r\n1,\"2", 10),
            (b"stay,a\r\n1,\"2\"3", 10),
            (b"stay,a\r\n\"1,2\r\n", 8),
            (b"stay,a\r\n1,2\x7F", 10),
            (b"stay,a\r\n1,\x80", 10),
            (b"stay,a\r\n1,\t2", 10),
            (b"stay,a\r\n1,\"2\x00\"", 10),
            (b"stay,a\r\n\xFF,2", 8),
        ],
    );
}

// So is a field that is no whole numeral.
#[test]
fn no_numeral(rt: HostRuntime) {
    records_refused(
        &rt,
        8,
        &[
            (b"stay,a\r\n1,", 10),
            (b"stay,a\r\n1,\r\n", 10),
            (b"stay,a\r\n,1", 8),
            (b"stay,a\r\n1,\"\"", 10),
            (b"stay,a\r\n1,+", 10),
            (b"stay,a\r\n1,-", 10),
            (b"stay,a\r\n1,+-1", 10),
            (b"stay,a\r\n1,2-", 10),
            (b"stay,a\r\n1, 2", 10),
            (b"stay,a\r\n1,2 ", 10),
            (b"stay,a\r\n1,2.0", 10),
            (b"stay,a\r\n1,2e3", 10),
            (b"stay,a\r\nx,2", 8),
            (b"stay,a\r\n1,\" 2\"", 10),
            (b"stay,a\r\n1,\"2,0\"", 10),
            (b"stay,a\r\n1,\"2\r\n\"", 10),
            (b"stay,a\r\n1,\"2\"\"\"", 10),
            (b"stay,a\r\n\"\"\"1\",2", 8),
        ],
    );
}

// An empty line is a record of one empty field, unless it is the end of the file.
#[test]
fn empty_lines(rt: HostRuntime) {
    records_refused(
        &rt,
        8,
        &[
            (b"stay,a\r\n\r\n", 8),
            (b"stay,a\r\n\r\n1,2\r\n", 8),
            (b"stay,a\r\n1,2\r\n\r\n", 13),
            (b"stay,a\r\n1,2\r\n\r\n3,4", 13),
        ],
    );
}

// Beyond 10^9 a number is refused as 3, the leftmost first, also past the seventeenth field.
#[test]
fn beyond_the_limit(rt: HostRuntime) {
    records_refused(
        &rt,
        3,
        &[
            (b"stay,a\r\n1,1000000001", 10),
            (b"stay,a\r\n1,+1000000001", 10),
            (b"stay,a\r\n1,-1000000001", 10),
            (b"stay,a\r\n1,\"1000000001\"\r\n", 10),
            (b"stay,a\r\n1,00000000000000000000000000001000000001", 10),
            (b"stay,a\r\n1,-00000000000000000000000000001000000001", 10),
            (b"stay,a\r\n1,123456789012345678901234567890", 10),
            (b"stay,a\r\n1,-123456789012345678901234567890", 10),
            // 2^32 + 1 and 2^64 + 1, each 1 to whoever drops a carry.
            (b"stay,a\r\n1,4294967297", 10),
            (b"stay,a\r\n1,18446744073709551617", 10),
            (b"stay,a\r\n1000000001,2", 8),
            (b"stay,a\r\n1000000001,-1000000001", 8),
            (b"stay,a\r\n1,2000000000,3,2000000000", 10),
            (
                b"stay,a\r\n0,0,0,0,0,0,0,0,0,0,0,0,0,0,0,0,0,1000000001",
                42,
            ),
            (
                b"stay,a\r\n0,0,0,0,0,0,0,0,0,0,0,0,0,0,0,0,1000000001,1000000001",
                40,
            ),
        ],
    );
}

// Each 8 of a record comes before each 3, and the leftmost 8 first.
#[test]
fn grammar_and_numerals_before_the_limit(rt: HostRuntime) {
    records_refused(
        &rt,
        8,
        &[
            (b"stay,a\r\n1000000001,x", 19),
            (b"stay,a\r\nx,1000000001", 8),
            (b"stay,a\r\n1000000001,2\"", 19),
            (b"stay,a\r\n1,x,\x7F", 10),
            (b"stay,a\r\n1,\x7F,x", 10),
            (b"stay,a\r\n0,0,0,0,0,0,0,0,0,0,0,0,0,0,0,0,0,", 42),
            (
                b"stay,a\r\n2000000000,0,0,0,0,0,0,0,0,0,0,0,0,0,0,0,0,\"",
                51,
            ),
        ],
    );
}

// The records are refused in turn: one that may stand is read, and what comes behind a faulty one does not count.
#[test]
fn one_record_after_the_other(rt: HostRuntime) {
    records_refused(
        &rt,
        8,
        &[
            (b"stay,a\r\n1,2\r\n3,x\r\n", 15),
            (b"stay,a\r\n1,2\r\n3,4\n", 15),
            (b"stay,a\r\n\"1\",\"2\"\r\n,4", 17),
            (b"stay,a\r\n1,2,3\r\n4\r\nx", 18),
            (b"stay,a\r\n1,x\r\n3,1000000001", 10),
        ],
    );
    records_refused(
        &rt,
        3,
        &[
            (b"stay,a\r\n1,2\r\n3,1000000001\r\n", 15),
            (b"stay,a\r\n1,1000000001\r\nx", 10),
        ],
    );
}

// The record behind the header has another number of fields than the header: 9, at the record.
fn too_wide_or_narrow(rt: &impl Abort, case: usize, file: &[u8]) -> Result<(), Fail> {
    let mut fields = Fields::over(file);
    let header = header_of(&mut fields)?;
    let record = record_of(&mut fields)?;
    match record.check_width(header.width()) {
        Ok(()) => assert!(rt; false, "case {case}: the width is not refused"),
        Err(fault) => refused_as(rt, case, fault, 9, 8),
    }
    Ok(())
}

#[test]
fn another_width_than_the_header(rt: HostRuntime) -> Result<(), Fail> {
    let cases: [&[u8]; 6] = [
        b"stay,a\r\n1",
        b"stay,a\r\n1\r\n2,3\r\n",
        b"stay,a\r\n1,2,3",
        b"stay,a\r\n1,2,3\r\n",
        b"stay,a\r\n0,0,0,0,0,0,0,0,0,0,0,0,0,0,0,0,0",
        b"stay,a\r\n0,0,0,0,0,0,0,0,0,0,0,0,0,0,0,0,0,0",
    ];
    for (i, file) in cases.iter().enumerate() {
        too_wide_or_narrow(&rt, i, file)?;
    }
    Ok(())
}
