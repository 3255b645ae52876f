// What a recorder of its own cells knows beside them.
ghost use Rattle.std.specs.Prelude.{◌≤◌};
ghost use Rattle.std.specs.Int.{IsInRange};

use runs::{Mark, Shape};

#[derive(Clone, Copy)]
pub struct Head {
    pub shape: Shape,
    // How many states are kept, and in how many cells: the cells are the caller's and stay lent, so the numbers stand beside them.
    pub count: usize,
    pub used: usize,
    pub mark: Mark,
    ghost width: { IsInRange 1 16 shape.width },
    ghost longest: { IsInRange 1 100000 shape.longest },
    ghost few: { count ≤ 4096 },
}
