// Readings that a test expects to be accepted, or to be refused.
use criteria::{Formula, read};
use records::Refusal;
use std::process::Abort;
use std::test::Fail;

// A run file whose header has the columns `level` and `a`.
pub const FILE: &[u8] = b"stay,level,a\r\n";

pub const LARGEST: i64 = 1_000_000_000;

// Reading these bytes for these is refused so. `case` says which of several like examples it is, where one fails.
pub fn refused_for(
    rt: &impl Abort,
    case: usize,
    text: &[u8],
    file: &[u8],
    magnitude: i64,
    refusal: Refusal,
) {
    let mut formula = Formula::new();
    let answer = read(text, file, magnitude, &mut formula).map_err(Refusal::from);
    assert_eq!(rt; answer, Err(refusal), "case {case}");
    assert_eq!(rt;
        formula.count(),
        3,
        "case {case}: the parts of the formula before"
    );
}

// The text is refused so, and the formula is left as it was.
pub fn refused(rt: &impl Abort, case: usize, text: &[u8], number: u8, place: usize) {
    refused_for(rt, case, text, FILE, LARGEST, Refusal { number, place });
}

pub fn all_refused(rt: &impl Abort, number: u8, cases: &[(&[u8], usize)]) {
    for (i, (text, place)) in cases.iter().enumerate() {
        refused(rt, i, text, number, *place);
    }
}

pub fn formula_of(text: &[u8]) -> Result<Formula, Fail> {
    let mut formula = Formula::new();
    match read(text, FILE, LARGEST, &mut formula).map_err(Refusal::from) {
        Ok(()) => Ok(formula),
        Err(refusal) => Err(Fail::new(format_args!("refused: {refusal}"))),
    }
}

// The text is accepted and has so many parts.
pub fn all_accepted(rt: &impl Abort, cases: &[(&[u8], usize)]) -> Result<(), Fail> {
    for (i, (text, parts)) in cases.iter().enumerate() {
        let formula = formula_of(text)?;
        assert_eq!(rt; formula.count(), *parts, "case {i}: the parts");
        assert_eq!(rt; formula.width(), 2, "case {i}: the columns");
        assert_eq!(rt;
            formula.magnitude(),
            1_000_000_000,
            "case {i}: the magnitude"
        );
    }
    Ok(())
}
