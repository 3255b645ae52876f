// The kinds of things that a criterion is made of.

#[derive(Clone, Copy, PartialEq, Eq, Debug)]
pub enum Comparator {
    Less,
    AtMost,
    Equal,
    AtLeast,
    Greater,
}

// Measures of one number.
#[derive(Clone, Copy, PartialEq, Eq, Debug)]
pub enum Unary {
    Abs,
    Sign,
}

// Measures of two numbers.
#[derive(Clone, Copy, PartialEq, Eq, Debug)]
pub enum Binary {
    Add,
    Subtract,
    Multiply,
}

// Measures over the states of a window.
#[derive(Clone, Copy, PartialEq, Eq, Debug)]
pub enum Statistic {
    Min,
    Max,
    Sum,
    Count,
}

// How the left measure of a comparison is taken.
#[derive(Clone, Copy, PartialEq, Eq, Debug)]
pub enum Quantity {
    Value,
    // Its change to the next state, written d.
    Change,
}

// The moments from the first to the last, in ticks from the start of the state that the window is seen from.
#[derive(Clone, Copy, PartialEq, Eq, Debug)]
pub struct Window {
    pub first: u64,
    pub last: u64,
}

// What stands in front of one formula.
#[derive(Clone, Copy, PartialEq, Eq, Debug)]
pub enum Prefix {
    Not,
    // So many states further on.
    Next(u64),
    Eventually(Window),
    Always(Window),
}

// What stands between two formulas.
#[derive(Clone, Copy, PartialEq, Eq, Debug)]
pub enum Connective {
    And,
    Or,
    Implies,
    Iff,
    Until(Window),
}

// One part of a criterion. Its operands stand before it: the only one, or the right one, just before, and the left one at the index that the part names.
// An index and no box: parts are kept in the caller's fixed memory, with no heap.
#[derive(Clone, Copy, PartialEq, Eq, Debug)]
pub enum Part {
    Numeral(i64),
    // The variable of this column.
    Variable(usize),
    Unary(Unary),
    Binary(Binary, usize),
    Over(Statistic, Window),
    // How the left number is taken, and where it stands.
    Compare(Comparator, Quantity, usize),
    Prefix(Prefix),
    Connective(Connective, usize),
}
