// A formula that was read: its parts, and what they were read for.
ghost use Rattle.std.specs.Prelude.{◌≡◌, ◌-◌, ◌≤◌, true, length, take, drop, replicate};
ghost use Rattle.criteria.specs.Formulas.{blank, is_formula};

use parts::Part;

// How a formula starts and what it tells.
mod telling;

// A formula has at most so many parts.
pub const MOST_PARTS: usize = 128;

// Every formula that exists is one tree in the order of its parts and keeps every limit, so that judging tests none of them.
#[derive(Clone, Copy)]
pub struct Formula {
    // Fixed memory in the caller's place with a count: there is no heap.
    // No one struct of both for the reader too: its parts become the formula's only once they are whole.
    parts: [Part; MOST_PARTS],
    count: usize,
    // The number of columns, and the largest magnitude of their values.
    width: usize,
    magnitude: u64,
    ghost places: { length parts ≡ 128 },
    ghost few: { count ≤ 128 },
    ghost lawful: { is_formula width magnitude (take count parts) ≡ true },
    ghost rest: { drop count parts ≡ replicate (128 - count) blank },
}
