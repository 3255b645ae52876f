// Texts that are accepted, and how they group.
use super::expect::{all_accepted, formula_of};
use criteria::Formula;
use parts::{Connective, Part, Prefix, Window};
use std::process::Abort;
use std::test::Fail;

#[test]
fn number_of_parts(rt: HostRuntime) -> Result<(), Fail> {
    all_accepted(
        &rt,
        &[
            (b"0=0", 3),
            (b" 0 = 0 ", 3),
            (b"X3=3", 4),
            (b"X[+2]0=0", 4),
            (b"X [3] 0=0", 4),
            (b"d({level})=-1", 3),
            (b"({level}>6)U[0,5]({level}<5)", 7),
            (b"sum([0,5]{level})=20", 4),
            (b"F[0,3]F[0,3]({level}<5)", 5),
            (b"~0=0\xE2\x88\xA70=0", 8),
            (b"multiply({a},10000)<1", 5),
            (b"add(sum([0,1]{a}),sum([0,1]{a}))<1", 7),
            (b"count([0,1]abs(sign({a})))>=-0007", 6),
        ],
    )
}

// The part at an index is this connective over the left operand at another.
fn joins(rt: &impl Abort, formula: &Formula, i: usize, connective: Connective, left: usize) {
    let part = Some(Part::Connective(connective, left));
    assert_eq!(rt; formula.part(i), part, "part {i}");
}

// ∧ binds tighter than ∨, and both group to the left; a prefix binds tightest.
#[test]
fn grouping(rt: HostRuntime) -> Result<(), Fail> {
    let or_and = formula_of(b"0=0\xE2\x88\xA80=0\xE2\x88\xA70=0")?;
    joins(&rt, &or_and, 9, Connective::And, 5);
    joins(&rt, &or_and, 10, Connective::Or, 2);
    let implied = formula_of(b"0=0\xE2\x87\x920=0\xE2\x87\x920=0")?;
    joins(&rt, &implied, 6, Connective::Implies, 2);
    joins(&rt, &implied, 10, Connective::Implies, 6);
    let until = formula_of(b"F[0,1]0=0U[0,2]0=0\xE2\x87\x940=0")?;
    joins(&rt, &until, 10, Connective::Iff, 6);
    joins(
        &rt,
        &until,
        11,
        Connective::Until(Window { first: 0, last: 2 }),
        3,
    );
    let prefix = Prefix::Eventually(Window { first: 0, last: 1 });
    assert_eq!(rt; until.part(3), Some(Part::Prefix(prefix)));
    Ok(())
}
