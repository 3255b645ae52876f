// How large the value of a measure can be, told from how large its arguments can be; None where a bound or a factor passes its limit.
ghost use Rattle.std.specs.Prelude.{◌≡◌, nat_le};
ghost use Rattle.parts.specs.Bounds.{binary_bound, binary_kept, if_kept, statistic_bound, statistic_kept, unary_bound, unary_kept};

use super::kinds::{Binary, Statistic, Unary};

// No bound may pass this.
const MOST: u64 = 10_000_000_000_000;

// No factor's bound may pass this.
const MOST_FACTOR: u64 = 1_000_000_000;

// A run has at most so many states. Said here too: this crate stands on no other.
const MOST_STATES: u64 = 4_096;

fn within(most: u64, bound: u64) -> Option<u64>
    ensures { result ≡ if_kept (nat_le bound most) bound }
{
    (bound <= most).then_some(bound)
}

impl Unary {
    pub fn bound(self, argument: u64) -> Option<u64>
        ensures { result ≡ if_kept (unary_kept self argument) (unary_bound self argument) }
    {
        let bound = match self {
            Unary::Abs => argument,
            Unary::Sign => 1,
        };
        within(MOST, bound)
    }
}

impl Binary {
    pub fn bound(self, left: u64, right: u64) -> Option<u64>
        ensures { result ≡ if_kept (binary_kept self left right) (binary_bound self left right) }
    {
        let bound = match self {
            Binary::Add | Binary::Subtract => left.checked_add(right)?,
            Binary::Multiply => within(MOST_FACTOR, left)? * within(MOST_FACTOR, right)?,
        };
        within(MOST, bound)
    }
}

impl Statistic {
    pub fn bound(self, argument: u64) -> Option<u64>
        ensures { result ≡ if_kept (statistic_kept self argument) (statistic_bound self argument) }
    {
        let bound = match self {
            Statistic::Min | Statistic::Max => argument,
            Statistic::Sum => MOST_STATES.checked_mul(argument)?,
            Statistic::Count => MOST_STATES,
        };
        within(MOST, bound)
    }
}
