// The range of some numbers.
ghost use Rattle.std.specs.Prelude.{◌≡◌, Some};
ghost use Rattle.survey.specs.Ranges.{range_of, range_text, with_number};

use std::fmt;

// The least and the greatest number.
#[derive(Clone, Copy, PartialEq, Eq, Debug)]
pub struct Range {
    pub least: i64,
    pub greatest: i64,
}

impl Range {
    // The range of one number.
    pub fn of(number: i64) -> Range
        ensures { result ≡ range_of number }
    {
        Range {
            least: number,
            greatest: number,
        }
    }

    // The range with one number more.
    pub fn with(self, number: i64) -> Range
        ensures { result ≡ with_number self number }
    {
        Range {
            least: self.least.min(number),
            greatest: self.greatest.max(number),
        }
    }
}

impl fmt::Display for Range {
    ghost output = { λ r. Some (range_text r) };

    fn fmt<W: fmt::Write>(&self, f: &mut fmt::Formatter<W>) -> fmt::Result {
        write!(f, "{},{}", self.least, self.greatest)
    }
}
