// What a token can be.
use parts::{Binary, Comparator, Statistic, Unary};

#[derive(Clone, Copy, PartialEq, Eq, Debug)]
pub enum Punctuation {
    // ( and )
    Open,
    Close,
    // [ and ]
    OpenWindow,
    CloseWindow,
    Comma,
}

// What begins a prefix: ~, X, F and G.
#[derive(Clone, Copy, PartialEq, Eq, Debug)]
pub enum PrefixSign {
    Not,
    Next,
    Eventually,
    Always,
}

// What stands between two formulas: ∧, ∨, ⇒, ⇔ and U.
#[derive(Clone, Copy, PartialEq, Eq, Debug)]
pub enum ConnectiveSign {
    And,
    Or,
    Implies,
    Iff,
    Until,
}

// What stands in front of a numeral's digits.
#[derive(Clone, Copy, PartialEq, Eq, Debug)]
pub enum Sign {
    Unsigned,
    Plus,
    Minus,
}

// A token by what it means.
#[derive(Clone, Copy, PartialEq, Eq, Debug)]
pub enum Word<'a> {
    Punctuation(Punctuation),
    // d, the change of a measure.
    Change,
    Comparator(Comparator),
    Unary(Unary),
    Binary(Binary),
    Statistic(Statistic),
    Prefix(PrefixSign),
    Connective(ConnectiveSign),
    // Its sign and its magnitude.
    Numeral(Sign, u64),
    Variable(&'a [u8]),
    Stray,
    Stop,
}
