// Why a criterion is refused.
ghost use Rattle.std.specs.Prelude.{◌≡◌};
ghost use Rattle.criteria.specs.Refusals.{refusal_of, rule_number};
ghost use Rattle.criteria.specs.declared.fault.CriterionFault.TheVariants.{Header, Text};

use records::{RecordFault, Refusal};

// The rules that the tokens of a text are to keep.
#[derive(Clone, Copy, PartialEq, Eq, Debug)]
pub enum Rule {
    // The token can follow those before it.
    Grammar,
    // A numeral is at most its limit.
    Limit,
    // A window's first numeral is at most its second.
    Order,
    // A variable has the name of a column.
    Column,
    // There are at most 128 parts and at most 32 nestings.
    Size,
    // No factor is beyond 10^9, and no measure beyond 10^13.
    Bound,
}

impl Rule {
    // Its number, which the language lays down. A method and no From: a number says which of several.
    pub fn number(self) -> u8
        ensures { result ≡ rule_number self }
    {
        match self {
            Rule::Grammar => 2,
            Rule::Limit => 3,
            Rule::Order => 4,
            Rule::Column => 5,
            Rule::Size => 6,
            Rule::Bound => 7,
        }
    }
}

// The rule that the text breaks, and the place of the refusal.
#[derive(Clone, Copy, PartialEq, Eq, Debug)]
pub struct Breach {
    pub rule: Rule,
    pub place: usize,
}

// Why a criterion is refused. The fault of a lower layer is carried whole.
#[derive(Clone, Copy, PartialEq, Eq, Debug)]
pub enum CriterionFault {
    // A text that is empty or has more than 4,096 bytes, or a run file of more than 65,536.
    Length,
    // A magnitude outside 1 to 10^9.
    Magnitude,
    // The run file has no lawful header.
    Header(RecordFault),
    Text(Breach),
}

impl From<RecordFault> for CriterionFault {
    ghost from_gives = { λ f r. r ≡ Header f };

    fn from(fault: RecordFault) -> CriterionFault {
        CriterionFault::Header(fault)
    }
}

impl From<Breach> for CriterionFault {
    ghost from_gives = { λ b r. r ≡ Text b };

    fn from(breach: Breach) -> CriterionFault {
        CriterionFault::Text(breach)
    }
}

// Its number, and the index of a byte of the text, or of the run file where the header is at fault.
// Place 0: no byte is at fault.
impl From<CriterionFault> for Refusal {
    ghost from_gives = { λ f r. r ≡ refusal_of f };

    fn from(fault: CriterionFault) -> Refusal {
        match fault {
            CriterionFault::Length => Refusal {
                number: 1,
                place: 0,
            },
            CriterionFault::Magnitude => Refusal {
                number: 12,
                place: 0,
            },
            CriterionFault::Header(fault) => Refusal::from(fault),
            CriterionFault::Text(breach) => Refusal {
                number: breach.rule.number(),
                place: breach.place,
            },
        }
    }
}
