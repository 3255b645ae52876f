// Readings that a test expects to be answered, or to be refused.
use records::{Fields, Header, Position, Record, RecordFault, Refusal};
use std::process::Abort;
use std::test::Fail;

pub fn at(row: usize, column: usize, byte: usize) -> Position {
    Position { row, column, byte }
}

// `case` says which of several like examples it is, where one fails.
pub fn refused_as(rt: &impl Abort, case: usize, fault: RecordFault, number: u8, place: usize) {
    assert_eq!(rt;
        Refusal::from(fault),
        Refusal { number, place },
        "case {case}"
    );
}

fn unexpected(fault: RecordFault) -> Fail {
    let refusal = Refusal::from(fault);
    Fail::new(format_args!("refused: {refusal}"))
}

pub fn header_of<'a>(fields: &mut Fields<'a>) -> Result<Header<'a>, Fail> {
    fields.header().map_err(unexpected)
}

pub fn record_of(fields: &mut Fields) -> Result<Record, Fail> {
    match fields.next_record() {
        Ok(Some(record)) => Ok(record),
        Ok(None) => Err(Fail::new("the file has ended")),
        Err(fault) => Err(unexpected(fault)),
    }
}

// The file has ended, and has still ended at a second call.
pub fn ended(rt: &impl Abort, case: usize, fields: &mut Fields) {
    for _ in 0..2 {
        assert_eq!(rt; has_more(fields), Ok(false), "case {case}");
    }
}

fn has_more(fields: &mut Fields) -> Result<bool, Refusal> {
    Ok(fields.next_record()?.is_some())
}

// The header is refused so, and again at a second call, since a refusal leaves the reader where it is.
pub fn header_refused(rt: &impl Abort, case: usize, file: &[u8], number: u8, place: usize) {
    let mut fields = Fields::over(file);
    for _ in 0..2 {
        match fields.header() {
            Ok(_) => assert!(rt; false, "case {case}: the header is not refused"),
            Err(fault) => refused_as(rt, case, fault, number, place),
        }
    }
}

// The header of each file is refused with this number, at the place beside it.
pub fn headers_refused(rt: &impl Abort, number: u8, cases: &[(&[u8], usize)]) {
    for (i, (file, place)) in cases.iter().enumerate() {
        header_refused(rt, i, file, number, *place);
    }
}

// The first refusal behind the header of each file has this number, and the place beside it, which also says in which record it is.
pub fn records_refused(rt: &impl Abort, number: u8, cases: &[(&[u8], usize)]) {
    for (i, (file, place)) in cases.iter().enumerate() {
        record_refused(rt, i, file, number, *place);
    }
}

fn record_refused(rt: &impl Abort, case: usize, file: &[u8], number: u8, place: usize) {
    let mut fields = Fields::over(file);
    assert!(rt;
        fields.header().is_ok(),
        "case {case}: the header is refused"
    );
    for _ in 0..file.len() {
        match fields.next_record() {
            Ok(record) => assert!(rt; record.is_some(), "case {case}: no record is refused"),
            Err(fault) => {
                refused_as(rt, case, fault, number, place);
                return refused_again(rt, case, &mut fields, number, place);
            }
        }
    }
    assert!(rt; false, "case {case}: no record is refused");
}

fn refused_again(rt: &impl Abort, case: usize, fields: &mut Fields, number: u8, place: usize) {
    match fields.next_record() {
        Ok(_) => assert!(rt; false, "case {case}: the record is not refused again"),
        Err(fault) => refused_as(rt, case, fault, number, place),
    }
}
