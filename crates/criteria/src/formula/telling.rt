// How a formula starts and what it tells.
ghost use Rattle.std.specs.Prelude.{◌≡◌, ◌-◌, ◌≤◌, true, length, take, drop, replicate};
ghost use Rattle.std.specs.List.{slice_get};
ghost use Rattle.criteria.specs.Formulas.{blank, is_formula};
ghost use Rattle.criteria.specs.Told.{fresh, written};

use super::super::scope::LARGEST_MAGNITUDE;
use super::{Formula, MOST_PARTS};
use parts::{Comparator, Part, Quantity};

impl Formula {
    // `0=0`, for one column and the largest magnitude.
    pub fn new() -> Formula
        ensures { written result ≡ fresh }
    {
        let mut parts = [Part::Numeral(0); MOST_PARTS];
        parts[2] = Part::Compare(Comparator::Equal, Quantity::Value, 0);
        Formula {
            parts,
            count: 3,
            width: 1,
            magnitude: LARGEST_MAGNITUDE,
        }
    }

    // The formula of the first `count` parts.
    pub(crate) fn of(
        parts: [Part; MOST_PARTS],
        count: usize,
        width: usize,
        magnitude: u64,
    ) -> Formula
        requires few { count ≤ 128 }
        requires lawful { is_formula width magnitude (take count parts) ≡ true }
        requires rest { drop count parts ≡ replicate (128 - count) blank }
        ensures { written result ≡ record { parts = take count parts; width = width; magnitude = magnitude } }
    {
        Formula {
            parts,
            count,
            width,
            magnitude,
        }
    }

    // How many parts it has.
    pub fn count(&self) -> usize
        ensures { result ≡ length (written self.now).parts }
    {
        self.count
    }

    // The part with this number, counted from 0.
    pub fn part(&self, i: usize) -> Option<Part>
        ensures { result ≡ slice_get (written self.now).parts i }
    {
        self.parts[..self.count].get(i).copied()
    }

    // The number of columns that it was read for.
    pub fn width(&self) -> usize
        ensures { result ≡ (written self.now).width }
    {
        self.width
    }

    // The magnitude that it was read for.
    pub fn magnitude(&self) -> u64
        ensures { result ≡ (written self.now).magnitude }
    {
        self.magnitude
    }
}
