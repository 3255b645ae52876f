// The shape of a run, and its mark.
ghost use Rattle.std.specs.Prelude.{◌≡◌};
ghost use Rattle.runs.specs.Feeding.{answer};
ghost use Rattle.runs.specs.Runs.{ended, endures};
ghost use Rattle.runs.specs.Shapes.{clamped, shape_refusal};

use super::refusal::Refusal;

// The number of variables, and the longest stay in ticks.
#[derive(Clone, Copy, PartialEq, Eq, Debug)]
pub struct Shape {
    pub width: usize,
    pub longest: u64,
}

impl Shape {
    pub const WIDEST: usize = 16;

    pub const LONGEST: u64 = 100_000;

    // The most states of any run, whatever its shape.
    pub const MOST_STATES: usize = 4_096;

    // Tells beforehand whether a run can have this shape.
    pub fn check(self) -> Result<(), Refusal>
        ensures { result ≡ answer (shape_refusal self) }
    {
        if !(1..=Shape::WIDEST).contains(&self.width) {
            return Err(Refusal::Width);
        }
        if !(1..=Shape::LONGEST).contains(&self.longest) {
            return Err(Refusal::Stay);
        }
        Ok(())
    }

    // The lawful shape with which a run starts where this one is asked for.
    pub fn clamped(self) -> Shape
        ensures { result ≡ clamped self }
    {
        Shape {
            width: self.width.clamp(1, Shape::WIDEST),
            longest: self.longest.clamp(1, Shape::LONGEST),
        }
    }
}

#[derive(Clone, Copy, PartialEq, Eq, Debug)]
pub enum Mark {
    Open,
    Closed,
}

impl Mark {
    // Do feed and close refuse?
    // Not `endures`, though both tell closed from open: they are two questions, which another mark may answer apart.
    pub fn ended(self) -> bool
        ensures { result ≡ ended self }
    {
        self != Mark::Open
    }

    // Does the last state have every moment beyond it?
    pub fn endures(self) -> bool
        ensures { result ≡ endures self }
    {
        self == Mark::Closed
    }
}
