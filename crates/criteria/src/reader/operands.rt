// What is read of a measure.
use parts::{Binary, Part, Statistic, Unary};

// What a measure stands in: inside a window measure no other stands.
#[derive(Clone, Copy, PartialEq, Eq, Debug)]
pub enum Context {
    Formula,
    Window,
}

// A measure that was read: the index of its part, and its bound.
#[derive(Clone, Copy)]
pub struct Operand {
    pub at: usize,
    pub bound: u64,
}

// A measure that takes arguments. A kind and no closure: the calls are mutual, with the nesting left falling at each.
#[derive(Clone, Copy)]
pub enum Function {
    Unary(Unary),
    Binary(Binary),
    Statistic(Statistic),
}

// A measure whose arguments were read: its part, and its bound, None where that is broken.
#[derive(Clone, Copy)]
pub struct Call {
    pub part: Part,
    pub bound: Option<u64>,
}
