// The truth tables of the connectives: the lesser and the greater, where false is below undecided and undecided below true.
ghost use Rattle.std.specs.Prelude.{◌≡◌};
ghost use Rattle.verdicts.specs.Tables.{greater, iff, implies, lesser, swap};

use super::verdict::Verdict;
use super::verdict::Verdict::{False, True, Undecided};

// A row for the left operand and a column for the right one, both in the order false, true, undecided.
const AND: [[Verdict; 3]; 3] = [
    [False, False, False],
    [False, True, Undecided],
    [False, Undecided, Undecided],
];

const OR: [[Verdict; 3]; 3] = [
    [False, True, Undecided],
    [True, True, True],
    [Undecided, True, Undecided],
];

const IMPLIES: [[Verdict; 3]; 3] = [
    [True, True, True],
    [False, True, Undecided],
    [Undecided, True, Undecided],
];

const IFF: [[Verdict; 3]; 3] = [
    [True, False, Undecided],
    [False, True, Undecided],
    [Undecided, Undecided, Undecided],
];

// The truth tables are constant arrays: one look-up for each connective, by its name.
impl Verdict {
    pub fn and(self, other: Verdict) -> Verdict
        ensures answer { result ≡ lesser self other }
    {
        AND[self as usize][other as usize]
    }

    pub fn or(self, other: Verdict) -> Verdict
        ensures answer { result ≡ greater self other }
    {
        OR[self as usize][other as usize]
    }

    pub fn implies(self, other: Verdict) -> Verdict
        ensures answer { result ≡ implies self other }
    {
        IMPLIES[self as usize][other as usize]
    }

    pub fn iff(self, other: Verdict) -> Verdict
        ensures answer { result ≡ iff self other }
    {
        IFF[self as usize][other as usize]
    }

    pub fn not(self) -> Verdict
        ensures answer { result ≡ swap self }
    {
        match self {
            False => True,
            True => False,
            Undecided => Undecided,
        }
    }
}
